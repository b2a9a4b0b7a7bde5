//! What a seat at the gate's table knows, and the rule of the table.
use crate::story::{PastTurn, Story};
use atomic_table::TableRule;
use std::collections::LinkedList;
use std::marker::PhantomData;

/// What is known at one seat, in contracts alone: no value of it is made.
pub struct View<E> {
    /// False once another view has taken this one over.
    pub live: bool,
    /// The base of the gate.
    pub base: u32,
    /// The number of the pass.
    pub number: u32,
    /// The history as it was seen last.
    pub seen: LinkedList<PastTurn<E>>,
    /// The entries of each number that this view answers for.
    pub mine: LinkedList<(u32, LinkedList<E>)>,
    /// How many of its turns had no entry.
    pub blank: u64,
    /// The ticket that was drawn and not served to its end. Tickets are unbounded: the word has the low 64 bits.
    pub ticket: Option<u64>,
    /// Whether it has the turn.
    pub holds: bool,
    /// The numbers drawn so far, in the view of number 0.
    pub made: u32,
    /// Whether the last number drawn is not given yet, in the view of number 0.
    pub drawn: bool,
    /// What the two views had seen that were joined last, until the load that follows.
    pub told: LinkedList<LinkedList<PastTurn<E>>>,
}

/// The rule of a gate's table, whose key is the base.
pub struct GateRule<S> {
    story: PhantomData<S>,
}

impl<S: Story> TableRule<Option<S>, View<S::Entry>, u32> for GateRule<S> {
    ghost use Rattle.std.specs.Prelude.{[]};
    ghost use Rattle.vd_gate.specs.Views.{new_view};
    ghost use Rattle.vd_gate.specs.Rule.{MeetsRule};

    ghost holds = { λ base. MeetsRule S.stands base };

    ghost first = { λ base. new_view base 0 [] 1 };
}

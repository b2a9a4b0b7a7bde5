//! What stands between the states of a script, over terms of any kind.

use vd_base::List;
use vd_terms::{AssertionOf, FactOf, StateOf};

/// A fact that a step owes, or one of two.
#[derive(Drop)]
pub enum OwedOf<A> {
    One(FactOf<A>),
    Either(FactOf<A>, FactOf<A>),
}

/// What an expression gives, what it owes, and the items that are left to cover addresses.
#[derive(Drop)]
pub struct ValuedOf<A, V> {
    pub value: V,
    pub owed: List<OwedOf<A>>,
    pub covers: List<u32>,
}

/// An assertion under the first `bound` variables of a state, with its own behind them.
#[derive(Drop)]
pub struct OpenOf<A> {
    pub bound: u32,
    pub inner: AssertionOf<A>,
}

/// What steps may end at.
#[derive(Drop)]
pub enum GoalOf<A> {
    /// A loop's invariant, and what holds behind a `break`.
    Loop(OpenOf<A>, OpenOf<A>),
    /// What holds behind the first statements of a list.
    Block(OpenOf<A>),
    /// What a state has to meet where no statement is left.
    Pose(OpenOf<A>),
}

/// What a function's returns meet. The first variable that it opens is the result.
#[derive(Drop)]
pub struct PostOf<A> {
    pub is_void: bool,
    pub meaning: OpenOf<A>,
}

/// A node of a script's tree: the state, the statements left to run, and the goals, the innermost first.
#[derive(Drop)]
pub struct NodeOf<A, S> {
    pub state: StateOf<A>,
    pub left: S,
    pub goals: List<GoalOf<A>>,
}

//! The steps of a proof script.

use crate::assertion::{Assertion, Label, Prop};
use crate::term::Term;
use vd_base::{List, Name};

/// A line of a certificate, which adds a row to those before it.
#[derive(Drop)]
pub enum CertLine {
    /// A sum of multiples of rows: each multiplier, and the number of its row.
    Comb(List<(i128, u32)>),
    /// The divisor, and the number of the row that it divides.
    Cut(i128, u32),
}

/// A proof that a linear inequality follows from those that hold.
#[derive(Drop)]
pub struct Certificate {
    pub lines: List<CertLine>,
}

/// A fact or an item in which a term is replaced, by its number, or a temporary.
#[derive(Drop)]
pub enum Occurrence {
    Prop(u32),
    Item(u32),
    Local(Name),
}

/// A fact, by its number, or a temporary's value that is forgotten.
#[derive(Drop)]
pub enum Forgotten {
    Prop(u32),
    Local(Name),
}

/// A step, and its number from 1 in reading order. A number above 4294967295 is given as that.
#[cycle(step)]
#[derive(Drop)]
pub struct Step {
    pub number: u32,
    pub node: StepNode,
}

/// The steps of a branch, behind the names that it opens.
#[cycle(step)]
#[derive(Drop)]
pub struct Block {
    pub names: List<Name>,
    pub steps: List<Step>,
}

/// What a step does: a variant a rule, in the order of the rules, with the parts that stand in the script. A list of
/// numbers holds those behind `at`, of the items that cover addresses; a list of certificates those behind `by`; a list of
/// names those behind `as`. Facts and items are numbered from 0.
#[cycle(step)]
#[derive(Drop)]
pub enum StepNode {
    Skip,
    Set(List<u32>, List<Certificate>),
    /// The item that is read.
    Load(u32, List<u32>, List<Certificate>),
    /// The item that is written.
    Store(u32, List<u32>, List<Certificate>),
    If(List<u32>, List<Certificate>, Block, Block),
    /// The invariant, what holds behind a `break`, the names opened behind the loop, the block that meets the invariant
    /// and the one for the loop's body.
    While(Assertion, Assertion, List<Name>, Block, Block),
    Break(List<Term>, List<Certificate>),
    Continue(List<Term>, List<Certificate>),
    Return(List<Term>, List<u32>, List<Certificate>),
    Fall(List<Term>, List<Certificate>),
    /// How many statements, what holds behind them, the names opened there, and the block for them.
    Block(u32, Assertion, List<Name>, Block),
    Pose(Assertion, List<Name>, Block),
    Call(List<Term>, List<u32>, List<Certificate>, List<Name>),
    /// The name of the new pointer, the block where there is no memory, and the one where there is.
    Malloc(Name, Block, Block),
    /// The block's cells, and its token.
    Free(u32, u32, List<Certificate>),
    /// The cell, and the invariant.
    MakeLock(u32, Label, List<u32>, List<Certificate>),
    Acquire(u32, List<u32>),
    /// The held lock, and its invariant.
    Release(u32, u32, List<u32>),
    /// The lock, and that it is held.
    FreeLock(u32, u32, List<u32>, List<Certificate>),
    Spawn(List<Term>, List<u32>, List<Certificate>),
    /// The predicate, its case from 0, its arguments, and the terms for what the case opens.
    Fold(Name, u32, List<Term>, List<Term>, List<Certificate>),
    /// The predicate, and a block for each case.
    Unfold(u32, List<Block>),
    Split(Prop, Block, Block),
    Absurd(List<Certificate>),
    Have(Prop, List<Certificate>),
    Law(Name, List<Term>, List<Certificate>),
    Subst(Name),
    /// Whether the right side is replaced by the left, the equation, and where.
    Rewrite(bool, u32, Occurrence),
    Cut(u32, Term, Term),
    Glue(u32, u32),
    Share(u32, Term, List<Certificate>),
    Unshare(u32, u32, List<Certificate>),
    Agree(u32, u32, List<Certificate>),
    Bounds(u32, Option<u32>, List<Certificate>),
    Apart(u32, u32, List<Certificate>),
    Forget(Forgotten),
    Meet(List<Term>, List<Certificate>),
    Name(Name, Term),
}

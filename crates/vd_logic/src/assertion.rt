//! Assertions and specifications.

use crate::term::{Sort, Term};
use vd_base::{CType, Field, List, Name};

/// How two terms compare.
#[derive(Clone, Copy, PartialEq, Eq)]
pub enum Rel {
    Eq,
    Ne,
    Le,
    Lt,
}

/// A pure fact.
#[derive(Drop)]
pub enum Prop {
    Rel(Rel, Term, Term),
    IsInt(Term),
    IsPtr(Term),
    /// Each element of a list is an integer between two bounds.
    Each(Term, Term, Term),
}

/// A predicate with its arguments, as a lock's invariant is named.
#[derive(Drop)]
pub struct Label {
    pub name: Name,
    pub args: List<Term>,
}

/// A conjunct of the heap's part.
#[derive(Drop)]
pub enum Item {
    /// Cells from an address on: their share, the address, the values.
    Data(Term, Term, Term),
    /// A lock: its share, its address, its invariant.
    Lock(Term, Term, Label),
    /// A lock that is held: its address and its invariant.
    Holds(Term, Label),
    /// The right to free a block: its address and its cells.
    Token(Term, Term),
    Pred(Label),
}

/// Pure facts, values of temporaries, and the heap, under variables that are opened.
#[derive(Drop)]
pub struct Assertion {
    pub opened: List<Sort>,
    pub props: List<Prop>,
    pub locals: List<(Name, Term)>,
    pub items: List<Item>,
}

/// A function's specification. The variables are numbered from 0: those of `with`, then `r` in the post, then the opened ones.
#[derive(Drop)]
pub struct Spec {
    pub ret: CType,
    pub name: Name,
    pub params: List<Field>,
    pub with: List<(Name, Sort)>,
    pub pre: Assertion,
    pub post: Assertion,
}

/// A predicate: its arguments, and the cases of which one holds. An abstract one has none.
#[derive(Drop)]
pub struct PredDef {
    pub name: Name,
    pub args: List<Sort>,
    pub cases: List<Assertion>,
}

/// The predicates and specifications that a section sees. A predicate without a definition in scope has no cases.
#[derive(Drop)]
pub struct LScope {
    pub preds: List<PredDef>,
    pub specs: List<Spec>,
}

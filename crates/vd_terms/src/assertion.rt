//! Assertions, predicates and specifications over terms of any kind.

use vd_base::{List, Name};
use vd_logic::{Rel, Sort};

/// A pure fact.
#[derive(Drop)]
pub enum FactOf<A> {
    Rel(Rel, A, A),
    IsInt(A),
    IsPtr(A),
    /// Each element of a list is an integer between two bounds.
    Each(A, A, A),
}

/// A predicate with its arguments, as a lock's invariant is named.
#[derive(Drop)]
pub struct LabelOf<A> {
    pub name: Name,
    pub args: List<A>,
}

/// A conjunct of the heap's part.
#[derive(Drop)]
pub enum ItemOf<A> {
    /// Cells from an address on: their share, the address, the values.
    Data(A, A, A),
    /// A lock: its share, its address, its invariant.
    Lock(A, A, LabelOf<A>),
    /// A lock that is held: its address and its invariant.
    Holds(A, LabelOf<A>),
    /// The right to free a block: its address and its cells.
    Token(A, A),
    Pred(LabelOf<A>),
}

/// Pure facts, values of temporaries, and the heap, under variables that are opened.
#[derive(Drop)]
pub struct AssertionOf<A> {
    pub opened: List<Sort>,
    pub facts: List<FactOf<A>>,
    pub locals: List<(Name, A)>,
    pub items: List<ItemOf<A>>,
}

/// A predicate: the sorts of its arguments, and the cases of which one holds. An abstract one has none. A case's variables
/// are numbered from 0: the arguments, then those that it opens.
#[derive(Drop)]
pub struct PredicateOf<A> {
    pub name: Name,
    pub args: List<Sort>,
    pub cases: List<AssertionOf<A>>,
}

/// A function's specification, as proofs see it: of its types, whether it returns anything. The variables are numbered from
/// 0: those of `with`, then the result in the post, then the opened ones.
#[derive(Drop)]
pub struct SpecOf<A> {
    pub is_void: bool,
    pub name: Name,
    pub params: List<Name>,
    pub vars: List<(Name, Sort)>,
    pub pre: AssertionOf<A>,
    pub post: AssertionOf<A>,
}

/// The predicates and specifications that a section sees; of two of one name the first counts.
#[derive(Drop)]
pub struct ScopeOf<A> {
    pub predicates: List<PredicateOf<A>>,
    pub specs: List<SpecOf<A>>,
}

//! Symbolic states over terms of any kind.

use crate::assertion::{FactOf, ItemOf};
use vd_base::{List, Name};
use vd_logic::Sort;

/// What is known between two statements: PROP, LOCAL and SEP of Verifiable C under variables that are numbered as they were
/// opened. No variable is ever taken away, so that no number and no name is used again. There is a local for each parameter
/// and temporary of the function, in their order; one without a term has a value that is not known.
#[derive(Drop)]
pub struct StateOf<A> {
    pub vars: List<(Name, Sort)>,
    pub facts: List<FactOf<A>>,
    pub locals: List<(Name, Option<A>)>,
    pub items: List<ItemOf<A>>,
}

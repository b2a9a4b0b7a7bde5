//! Terms, assertions and symbolic states as plain data: what every definition above speaks of, and what each value of
//! `vd_logic` stands for. A term is data of `specs/`, with the number of its arguments in its constructor, so that
//! definitions over it compute. What is not recursive is declared here, over terms of any kind: definitions use it over plain
//! terms, and code may use it over terms of its own.
#![tactic(auto)]

mod assertion;
mod laws;
mod operation;
mod state;

pub use assertion::{AssertionOf, FactOf, ItemOf, LabelOf, PredicateOf, ScopeOf, SpecOf};
pub use laws::{operation_laws, plain_laws, sort_laws};
pub use operation::{Binary, Ternary, Unary};
pub use state::StateOf;

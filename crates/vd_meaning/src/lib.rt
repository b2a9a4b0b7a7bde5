//! What assertions mean: terms and facts under a valuation of their variables, resources and what fits a memory, the
//! satisfaction of items over a table of predicates, and when states, preconditions and postconditions hold. The definitions
//! stand in `specs/`; the calls do nothing, and their clauses are laws that what stands above rests on.
#![tactic(auto)]

mod laws;

pub use laws::{agreement_laws, fitting_laws, join_laws, meaning_laws, opening_laws};

//! Reads sections that list names: `uses`, `exports`, `units`.
#![tactic(auto)]

mod reading;

pub use reading::names_in;

//! Reads the sections of the form that is checked today, by the readers of sections and by typing: what differs from the
//! form is not found.
#![tactic(auto)]

mod function;
mod listing;
mod logic;
mod plain;
mod simple;

pub use function::read_typed;
pub use listing::read_names;
pub use logic::{read_script, read_specification};

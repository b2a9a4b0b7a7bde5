//! Names of things of which each should stand once, each with a number. A map keyed by names tells of a name whether it stands once, and
//! then its number.
#![tactic(auto)]

mod table;

pub use table::Table;

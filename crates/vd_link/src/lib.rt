//! Linking: the conditions under which the units that a link lists fit together, and the program that they make. It follows
//! Verified Software Units: imports are matched with exports, and each function and global is defined once.
#![tactic(auto)]

mod assembly;
mod failure;
mod linking;

pub use assembly::program;
pub use linking::conditions;

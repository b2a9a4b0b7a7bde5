//! Conditions of head parts that are about names: unknown ones, those declared twice, and those that a unit lacks.
#![tactic(auto)]

mod completeness;
mod known;
mod least;
mod names;
mod twice;

pub use completeness::{Bodies, first_lack};
pub use known::first_unknown;
pub use twice::first_twice;

//! The tests of the crates that read no sections, in a module for each: what a contract doesn't say is shown by example, and
//! a contract is held against values that come from outside. They stand above these crates, so that each is proved once.
#![tactic(auto)]

#[cfg(test)]
mod base;
#[cfg(test)]
mod gate;
#[cfg(test)]
mod machine;
#[cfg(test)]
mod outline;
#[cfg(test)]
mod schedule;
#[cfg(test)]
mod store;
mod support;
#[cfg(test)]
mod tokens;

pub use support::{name, one};

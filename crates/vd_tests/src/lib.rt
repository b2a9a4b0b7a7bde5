//! The tests of the crates that read sections, and of those above them, in a module for each: what a contract doesn't say is
//! shown by example, and a contract is held against values that come from outside. They stand above these crates, so that each
//! is proved once.
#![tactic(auto)]

#[cfg(test)]
mod check;
#[cfg(test)]
mod clight;
#[cfg(test)]
mod cparse;
#[cfg(test)]
mod ctyping;
#[cfg(test)]
mod form;
#[cfg(test)]
mod heads;
#[cfg(test)]
mod known;
#[cfg(test)]
mod link;
#[cfg(test)]
mod reprint;
#[cfg(test)]
mod scopes;
#[cfg(test)]
mod scopes_logic;
#[cfg(test)]
mod sparse;
#[cfg(test)]
mod support;
#[cfg(test)]
mod top;

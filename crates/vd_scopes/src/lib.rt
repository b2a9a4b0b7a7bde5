//! Scopes: what the head parts of texts declare for one another, and the first condition of head parts that fails.
#![tactic(auto)]

mod contents;
mod scope;
mod structs;
mod verdict;

pub use scope::Scopes;
pub use verdict::{HeadFault, scopes};

//! The theory of exact readers: what a grammar says is given as a table of rules, and reading by the kind of the next token is proved exact for each grammar that keeps some laws which compute.
#![tactic(auto)]

mod fault;
mod stop;

pub use fault::{Cause, ParseFault};
pub use stop::Stop;

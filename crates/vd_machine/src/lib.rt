//! The interleaving machine: one step of one thread, runs under a schedule, and races. It follows CompCert's Clight: an
//! expression has no effect, one step runs one statement with its expressions, and what has no meaning is stuck.
#![tactic(auto)]

mod answer;
mod effect;
mod evaluate;
mod frame;
mod machine;
mod rival;
mod schedule;
mod statement;
mod touch;
mod turn;
mod watch;
mod word;

pub use answer::{Cause, End, Outcome, Spot, Stepped, Turn};
pub use machine::Machine;
pub use schedule::run;

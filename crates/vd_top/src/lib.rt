//! The call behind the program `desk`: it does what the words of a command line ask, over a shelf of files and two sinks. So far it
//! checks a link over its texts, and runs the link's program under a schedule.
#![tactic(auto)]

mod top;

pub use top::{desk_top, plain_top};
pub use vd_commands::ending::no_memory;

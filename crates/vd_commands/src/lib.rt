//! The commands of the program `desk`: the words that ask for one, the files that it reads, what it answers, and how a call ends. So
//! far they check a link over its texts, and run the link's program under a schedule.
#![tactic(auto)]

pub mod check;
pub mod command;
pub mod ending;
mod files;
mod inputs;
mod lines;
mod output;
pub mod play;
mod submission;

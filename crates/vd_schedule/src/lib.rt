//! Schedules as a file holds them: lines that name a thread, what `malloc` answers and how many turns the thread is given.
#![tactic(auto)]

mod entry;
mod number;
mod reading;
mod schedule;
mod turns;

pub use entry::Entry;
pub use schedule::{ScheduleFault, parse_schedule};

//! The outline of a text: its head line and its sections. What stands inside a section is for the readers.
#![tactic(auto)]

mod body;
mod head;
mod header;
mod laws;
mod line;
mod outline;
mod reading;
mod section;
mod seen;

pub use laws::outline_laws;
pub use line::cut_at;
pub use outline::{Outline, OutlineFault, TextKind, head_of, outline_of};
pub use section::{Section, SectionKind, find};

//! Reads the steps of proof scripts, and the sections of steps, by the grammar of logic sections.
#![tactic(auto)]

mod call;
mod certificate;
mod endings;
mod fact;
mod flow;
mod heap;
mod numbering;
mod parts;
mod sections;
mod steps;

pub use sections::{init_section, script_section};

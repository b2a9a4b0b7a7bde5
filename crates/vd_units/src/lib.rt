//! What a link lists: its units with their outlines, or where its text is outside its grammar, or the first of its names that is no unit
//! or stands again.
#![tactic(auto)]

mod shape;
mod texts;

pub use shape::{Listed, units_of};

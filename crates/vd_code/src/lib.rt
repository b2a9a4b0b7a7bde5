//! The functions and globals of a unit: its functions typed under the scope of its head part, its globals with their cells.
#![tactic(auto)]

mod code;

pub use code::{Code, add_unit};

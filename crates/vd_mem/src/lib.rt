//! The memory of the machine: separate blocks of cells. Values, what a cell holds, and the operations on blocks.
#![tactic(auto)]

mod block;
mod memory;
mod value;

pub use memory::Memory;
pub use value::{Cell, Value};

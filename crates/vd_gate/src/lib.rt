//! A ticket lock whose passes know the history of the state that it guards.
//!
//! A gate has one state. A pass enters a turn, which hands it the state, and leaves the turn with the state as it is to be.
//! The turns of all passes make one history, and the state stands for it. Each pass knows a prefix of the history and exactly
//! its own entries, so what two passes did is known to stand in one list once they are joined, or the gate is closed.
//! The shared desk stands on this crate.
#![tactic(auto)]

mod gate;
mod pass;
mod passes;
mod steps;
mod story;
mod turns;
mod view;

pub use gate::{Gate, Many};
pub use pass::{GatePass, Turn};
pub use story::{PastTurn, Story};

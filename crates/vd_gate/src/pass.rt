//! What a thread holds of a gate.
use crate::story::Story;
use crate::view::View;
use atomic_table::Seat;
use std::snapshot::Snapshot;

/// The right to take turns at one gate, with what is known of the gate's history.
///
/// A pass that is dropped stays counted, and its entries stay in the history: `close` then lacks a list for its number.
#[derive(Drop)]
pub struct GatePass<S: Story> {
    pub(crate) seat: Seat<Option<S>, View<S::Entry>>,
    pub(crate) number: u32,
    // The passes made so far, in the pass of number 0.
    pub(crate) made: u32,
}

/// A turn that was begun. It cannot be dropped, so that who enters has to leave.
pub struct Turn<S: Story> {
    pub(crate) at: Snapshot<Seat<Option<S>, View<S::Entry>>>,
}

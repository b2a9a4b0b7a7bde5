//! The gate: a table with three words and one slot.
ghost use Rattle.std.specs.Prelude.{◌≡◌};

use crate::story::Story;
use crate::view::{GateRule, View};
use atomic_table::Table;
use std::alloc::Global;

/// The word of the next ticket.
pub(crate) const TICKETS: usize = 0;

/// The word of the ticket that is served.
pub(crate) const SERVING: usize = 1;

/// The word that counts the passes made.
pub(crate) const PASSES: usize = 2;

/// No gate makes more passes, so at most so many tickets are out and the words never run out.
pub(crate) const MOST_PASSES: u32 = 64;

/// No more passes can be made: 64 were.
#[derive(Debug, Clone, Copy, PartialEq, Eq)]
pub struct Many;

/// A state of which one pass at a time has the turn.
#[derive(Drop)]
pub struct Gate<S: Story> {
    pub(crate) table: Table<Option<S>, View<S::Entry>, u32, GateRule<S>, Global>,
    ghost sized: { (table.shared.table_id.words ≡ 3) × (table.shared.table_id.slots ≡ 1) },
}

//! The turns of a schedule.

ghost use Rattle.std.specs.Prelude.{◌≡◌, ◌++◌, length, nat_le, IfOk, OnOk};
ghost use Rattle.vd_schedule.specs.Schedule.{turn_limit, turns_in, turns_of};

use crate::entry::Entry;
use std::alloc::{AllocError, Global};
use vd_base::List;
use vd_machine::Turn;

/// The greatest number of turns of a schedule.
pub(crate) const TURN_LIMIT: u32 = 1_000_000;

/// Whether the turns of the entries are within the limit. It makes none of them.
pub(crate) fn is_within(entries: &[Entry]) -> bool
    ensures { result ≡ nat_le (length (turns_of entries.now)) turn_limit }
{
    let mut left = TURN_LIMIT;
    for entry in entries {
        match left.checked_sub(entry.count) {
            Some(less) => left = less,
            None => return false,
        }
    }
    true
}

/// Adds the turns of an entry.
fn put_turns(turns: &mut List<Turn>, entry: Entry) -> Result<(), AllocError>
    ensures { OnOk result (turns.new ≡ turns.old ++ turns_in entry) }
{
    let turn = Turn {
        thread: entry.thread,
        pick: entry.pick,
    };
    for _ in 0..entry.count {
        turns.push(turn)?;
    }
    Ok(())
}

/// The turns of the entries, in their order.
pub(crate) fn turns_of(alloc: Global, entries: &[Entry]) -> Result<List<Turn>, AllocError>
    ensures { IfOk result (λ turns. turns ≡ turns_of entries.now) }
{
    let mut turns = List::new(alloc);
    for entry in entries {
        put_turns(&mut turns, *entry)?;
    }
    Ok(turns)
}

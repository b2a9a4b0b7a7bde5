//! Schedules.

ghost use Rattle.std.specs.Prelude.{◌≡◌, ℕ, ◌-◌, ◌^◌, ◌<◌, List, length, Ok, Err, IfOk, IsErrOf};
ghost use Rattle.vd_machine.specs.declared.answer.Turn.{Turn as Turn_of_schedule};
ghost use Rattle.vd_schedule.specs.Entries.{AreBefore};
ghost use Rattle.vd_schedule.specs.Schedule.{IsSchedule, HasTooMany, IsMalformedAt, IsOrMemory};
ghost use Rattle.vd_schedule.specs.Answer.{answer_of};

use crate::entry::Entry;
use crate::reading::entries_of;
use crate::turns::{is_within, turns_of};
use std::alloc::{AllocError, Global};
use thiserror::Error;
use vd_base::List;
use vd_machine::Turn;

/// Why bytes are no schedule.
#[derive(Debug, Drop, Error)]
pub enum ScheduleFault {
    /// The lines before the first malformed one ask for more than 1000000 turns.
    #[error("more than 1000000 turns")]
    TooMany,
    /// The first malformed line, from 1; the lines before it ask for no more than 1000000 turns.
    #[error("line {0} is malformed")]
    Bad(usize),
    #[error("out of memory")]
    Memory(AllocError),
}

/// What the lines before the first malformed one, and the bytes from that one on, make of a schedule.
fn schedule_from(alloc: Global, entries: &[Entry], rest: &[u8]) -> Result<List<Turn>, ScheduleFault>
    requires { length entries.now < 2 ^ 64 - 1 }
    ensures { IsOrMemory result (answer_of entries.now rest.now) }
{
    if !is_within(entries) {
        return Err(ScheduleFault::TooMany);
    }
    if !rest.is_empty() {
        return Err(ScheduleFault::Bad(entries.len() + 1));
    }
    turns_of(alloc, entries).map_err(ScheduleFault::Memory)
}

/// The turns of the schedule that the bytes hold: lines `THREAD PICK COUNT`, each ended by a line feed. Without lines there are no turns.
pub fn parse_schedule(alloc: Global, bytes: &[u8]) -> Result<List<Turn>, ScheduleFault>
    ensures turns { IfOk result (λ turns. IsSchedule bytes.now turns) }
    ensures schedule { (turns : List Turn_of_schedule) → IsSchedule bytes.now turns → IsOrMemory result (Ok turns) }
    ensures too_many { IsErrOf result ScheduleFault.TooMany → HasTooMany bytes.now }
    ensures beyond { HasTooMany bytes.now → IsOrMemory result (Err ScheduleFault.TooMany) }
    ensures bad { (line : ℕ) → IsErrOf result (ScheduleFault.Bad line) → IsMalformedAt bytes.now line }
    ensures malformed { (line : ℕ) → IsMalformedAt bytes.now line → IsOrMemory result (Err (ScheduleFault.Bad line)) }
{
    let (entries, rest) = entries_of(alloc, bytes).map_err(ScheduleFault::Memory)?;
    schedule_from(alloc, entries.as_slice(), rest)
}

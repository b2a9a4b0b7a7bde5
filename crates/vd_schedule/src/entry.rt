//! Lines of a schedule.

ghost use Rattle.std.specs.Prelude.{◌≡◌, ◌∷◌, [], decimal, MatchOption};
ghost use Rattle.vd_schedule.specs.declared.entry.Entry.{Entry as Entry_of_line};
ghost use Rattle.vd_schedule.specs.Entries.{IsEntry, line_of, pick_digit};

use crate::number::{number_of, pick_of};
use vd_outline::cut_at;

/// A line of a schedule: so many turns, from 1, of one thread. With `pick` a `malloc` of these turns gives a block, else the null pointer.
#[derive(Clone, Copy, Debug, PartialEq, Eq)]
pub struct Entry {
    pub thread: u32,
    pub pick: bool,
    pub count: u32,
}

/// The entry that the three parts of a line tell.
fn entry_from(thread: &[u8], pick: &[u8], count: &[u8]) -> Option<Entry>
    ensures { MatchOption result
        ((e : Entry_of_line) → IsEntry e → thread.now ≡ decimal e.thread → pick.now ≡ pick_digit e.pick ∷ [] → count.now ≡ decimal e.count → ⊥)
        (λ e. IsEntry e × (thread.now ≡ decimal e.thread) × (pick.now ≡ pick_digit e.pick ∷ []) × (count.now ≡ decimal e.count)) }
{
    let thread = match number_of(thread) {
        Some(thread) => thread,
        None => return None,
    };
    let pick = match pick_of(pick) {
        Some(pick) => pick,
        None => return None,
    };
    let count = match number_of(count) {
        Some(count) => count,
        None => return None,
    };
    if count == 0 {
        return None;
    }
    Some(Entry {
        thread,
        pick,
        count,
    })
}

/// The entry that a line without its line feed tells.
pub(crate) fn entry_of(line: &[u8]) -> Option<Entry>
    ensures { MatchOption result ((e : Entry_of_line) → IsEntry e → line.now ≡ line_of e → ⊥) (λ e. IsEntry e × (line.now ≡ line_of e)) }
{
    match cut_at(line, b' ') {
        Some((thread, behind)) => match cut_at(behind, b' ') {
            Some((pick, count)) => entry_from(thread, pick, count),
            None => None,
        },
        None => None,
    }
}

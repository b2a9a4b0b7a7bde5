//! Reading the lines of a schedule, one after another.

ghost use Rattle.std.specs.Prelude.{◌≡◌, ◌∷◌, ◌++◌, IfOk, MatchOption};
ghost use Rattle.vd_schedule.specs.Entries.{IsEntry, BeginsWithEntry, AreBefore, line_of};

use crate::entry::{Entry, entry_of};
use std::alloc::{AllocError, Global};
use vd_base::List;
use vd_outline::cut_at;

/// The entry of the line that the bytes begin with, and what follows the line.
fn cut_entry(bytes: &[u8]) -> Option<(Entry, &[u8])>
    ensures { MatchOption result (BeginsWithEntry bytes.now → ⊥) (λ cut. IsEntry cut.0 × (bytes.now ≡ line_of cut.0 ++ 10 ∷ cut.1.now)) }
{
    match cut_at(bytes, b'\n') {
        Some((line, after)) => match entry_of(line) {
            Some(entry) => Some((entry, after)),
            None => None,
        },
        None => None,
    }
}

/// The entries of the lines before the first malformed one, and the bytes from that one on.
pub(crate) fn entries_of(alloc: Global, bytes: &[u8]) -> Result<(List<Entry>, &[u8]), AllocError>
    ensures { IfOk result (λ read. AreBefore bytes.now read.0 read.1.now) }
{
    let mut entries = List::new(alloc);
    let mut rest = bytes;
    while let Some((entry, after)) = cut_entry(rest) {
        entries.push(entry)?;
        rest = after;
    }
    Ok((entries, rest))
}

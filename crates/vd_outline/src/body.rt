//! The lines of a section behind its header line.

ghost use Rattle.std.specs.Prelude.{◌≡◌, MatchResult};
ghost use Rattle.vd_outline.specs.Reading.{Ends, Stops};

use crate::line::{cut_at, is, is_line};

/// How many bytes there are up to the line `end`, that line included; else how many are left where no line follows that may stand.
pub(crate) fn body_end(bytes: &[u8]) -> Result<usize, usize>
    ensures { MatchResult result (Ends bytes.now) (Stops bytes.now) }
{
    let mut rest = bytes;
    while let Some((line, after)) = cut_at(rest, b'\n') {
        if is(line, b"end") {
            return Ok(bytes.len() - after.len());
        }
        if !is_line(line) {
            return Err(rest.len());
        }
        rest = after;
    }
    Err(rest.len())
}

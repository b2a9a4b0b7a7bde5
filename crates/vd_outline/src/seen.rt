//! The header lines met so far.

ghost use Rattle.std.specs.Prelude.{◌≡◌, false, not, ◌||◌, IfOk, OnOk};
ghost use Rattle.std.specs.Str.{bytes_eq};
ghost use Rattle.vd_outline.specs.Outline.{Bytes};

use std::alloc::{AllocError, Global};
use std::collections::BTreeSet;

#[derive(Drop)]
pub(crate) struct Seen<'a> {
    lines: BTreeSet<&'a [u8]>,
}

impl<'a> Seen<'a> {
    ghost use Rattle.vd_outline.specs.Seen.{has};

    pub(crate) fn new(alloc: Global) -> Seen<'a>
        ensures { (line : Bytes) → has result line ≡ false }
    {
        Seen {
            lines: BTreeSet::new(alloc),
        }
    }

    /// Adds a line, and says whether it is new.
    pub(crate) fn add(&mut self, line: &'a [u8]) -> Result<bool, AllocError>
        ensures added { IfOk result (λ added. added ≡ not (has self.old line.now)) }
        ensures has { OnOk result ((other : Bytes) → has self.new other ≡ (bytes_eq line.now other || has self.old other)) }
    {
        let added = self.lines.insert(line)?;
        Ok(added)
    }
}

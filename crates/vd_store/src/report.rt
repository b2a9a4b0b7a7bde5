//! What checking a link gives.

ghost use Rattle.std.specs.Prelude.{◌≡◌, slice_get, option_copied, IfOk};

use std::alloc::{AllocError, Global};
use vd_base::{List, Name, Text};

/// The lines of a report, without their line feeds.
#[derive(Drop)]
pub struct Report {
    pub lines: List<Text>,
}

impl Report {
    /// The line of this number, from 0, where there is one.
    pub fn line(&self, k: usize) -> Option<&Text>
        ensures { option_copied result ≡ slice_get self.now.lines k }
    {
        self.lines.get(k)
    }

    /// An equal report.
    pub fn copy(&self, alloc: Global) -> Result<Report, AllocError>
        ensures { IfOk result (λ copy. copy ≡ self.now) }
    {
        let mut lines = List::new(alloc);
        for line in self.lines.as_slice() {
            lines.push(line.copy(alloc)?)?;
        }
        Ok(Report { lines })
    }
}

/// The link, its interfaces and its units, with their versions.
#[derive(Drop)]
pub struct Linkset {
    pub parts: List<(Name, u32)>,
}

impl Linkset {
    /// An equal set.
    pub fn copy(&self, alloc: Global) -> Result<Linkset, AllocError>
        ensures { IfOk result (λ copy. copy ≡ self.now) }
    {
        let mut parts = List::new(alloc);
        for (name, version) in self.parts.as_slice() {
            parts.push((name.copy(alloc)?, *version))?;
        }
        Ok(Linkset { parts })
    }
}

/// What checking a link gives.
#[derive(Drop)]
pub enum Outcome {
    Accepted(Linkset, Report),
    Rejected(Report),
    /// No current link text has the name.
    NoLink,
}

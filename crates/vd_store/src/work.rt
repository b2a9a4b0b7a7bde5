//! Works: what is judged, and what is found.

ghost use Rattle.std.specs.Prelude.{◌≡◌, IfOk};
ghost use Rattle.vd_store.specs.Verdicts.{is_accepted};

use std::alloc::{AllocError, Global};
use vd_base::{List, Name, Text};

/// What a work judges.
#[derive(Clone, Copy, PartialEq, Eq)]
pub enum WorkKind {
    Header,
    Body,
    Sub,
    Init,
}

/// The text that owns a work, and the function of a body or a subsumption.
#[derive(Drop)]
pub struct WorkName {
    pub kind: WorkKind,
    pub owner: Name,
    pub function: Option<Name>,
}

impl WorkName {
    /// An equal name.
    pub fn copy(&self, alloc: Global) -> Result<WorkName, AllocError>
        ensures { IfOk result (λ copy. copy ≡ self.now) }
    {
        let owner = self.owner.copy(alloc)?;
        let function = match &self.function {
            Some(name) => Some(name.copy(alloc)?),
            None => None,
        };
        Ok(WorkName {
            kind: self.kind,
            owner,
            function,
        })
    }
}

/// A work and all that its verdict depends on.
#[derive(Drop)]
pub struct Work {
    pub name: WorkName,
    pub inputs: List<Text>,
}

impl Work {
    /// An equal work.
    pub fn copy(&self, alloc: Global) -> Result<Work, AllocError>
        ensures { IfOk result (λ copy. copy ≡ self.now) }
    {
        let name = self.name.copy(alloc)?;
        let mut inputs = List::new(alloc);
        for text in self.inputs.as_slice() {
            inputs.push(text.copy(alloc)?)?;
        }
        Ok(Work { name, inputs })
    }
}

/// What is found of a work. A refusal has the step (from 1) or the place (a byte offset), the rule and the condition.
#[derive(Clone, Copy, PartialEq, Eq)]
pub enum Verdict {
    Accepted,
    Refused(u32, u8, u8),
}

impl Verdict {
    /// Whether nothing fails.
    pub fn is_accepted(&self) -> bool
        ensures { result ≡ is_accepted self.now }
    {
        match self {
            Verdict::Accepted => true,
            Verdict::Refused(_, _, _) => false,
        }
    }
}

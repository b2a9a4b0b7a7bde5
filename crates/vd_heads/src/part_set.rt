//! Sets of parts.

ghost use Rattle.std.specs.Prelude.{◌≡◌, ℕ, false, length, IfOk, OnOk};
ghost use Rattle.vd_heads.specs.PartSet.{Adds, IsPartSet};
ghost use Rattle.vd_heads.specs.Views.{is_marked};

use std::alloc::{AllocError, Global};

/// Parts by their numbers, each once, in the order in which they were put in; all are below a count.
#[derive(Drop)]
pub(crate) struct PartSet {
    pub(crate) marks: Vec<bool>,
    pub(crate) members: Vec<usize>,
}

fn no_marks(alloc: Global, count: usize) -> Result<Vec<bool>, AllocError>
    ensures long { IfOk result (λ marks. length marks.items ≡ count) }
    ensures none { IfOk result (λ marks. (k : ℕ) → is_marked marks.items k ≡ false) }
{
    let mut marks = Vec::new(alloc);
    for _ in 0..count {
        marks.push(false)?;
    }
    Ok(marks)
}

impl PartSet {
    /// The empty set of parts below a count.
    pub(crate) fn new(alloc: Global, count: usize) -> Result<PartSet, AllocError>
        ensures is_set { IfOk result IsPartSet }
        ensures long { IfOk result (λ set. length set.marks.items ≡ count) }
        ensures none { IfOk result (λ set. (k : ℕ) → is_marked set.marks.items k ≡ false) }
    {
        let marks = no_marks(alloc, count)?;
        let members = Vec::new(alloc);
        Ok(PartSet { marks, members })
    }

    /// Puts a part in, if it is below the count and not in yet.
    pub(crate) fn add(&mut self, number: usize) -> Result<(), AllocError>
        requires { IsPartSet self.old }
        ensures { OnOk result (Adds (λ k. k ≡ number) self.old self.new) }
    {
        if number >= self.marks.len() {
            return Ok(());
        }
        if self.marks[number] {
            return Ok(());
        }
        self.marks[number] = true;
        self.members.push(number)?;
        Ok(())
    }
}

//! The cells of a type: how many there are, and the types of the first ones.

ghost use Rattle.std.specs.Prelude.{◌≡◌, ◌≤◌, ◌+◌, ℕ, List, [], ◌∷◌, ◌++◌, length, take, IfOk, OnOk};
ghost use Rattle.std.specs.List.{repeat};
ghost use Rattle.vd_base.specs.Layout.{most_cells};
ghost use Rattle.vd_base.specs.declared.ctype.CType.{CType as Cell};
ghost use Rattle.vd_sized.specs.Counts.{Counts};

use std::alloc::{AllocError, Global};
use vd_base::{CType, List};

/// The most cells of a type.
pub const MOST_CELLS: u64 = 1048576;

/// How many cells there are, at most one more than a type may have, and the types of the first ones.
#[derive(Drop)]
pub struct Counted<'a> {
    pub count: u64,
    pub first: List<&'a CType>,
}

/// Puts types behind others, until there are enough.
fn put_all<'a>(
    first: &mut List<&'a CType>,
    more: &List<&'a CType>,
    most: usize,
) -> Result<(), AllocError>
    requires { length first.old ≤ most }
    ensures { OnOk result (first.new ≡ take most (first.old ++ more.now)) }
{
    for t in more.as_slice() {
        if first.len() < most {
            first.push(*t)?;
        }
    }
    Ok(())
}

impl<'a> Counted<'a> {
    /// No cells.
    pub fn none(alloc: Global) -> Counted<'a>
        ensures { (most : ℕ) → Counts most [] result }
    {
        Counted {
            count: 0,
            first: List::new(alloc),
        }
    }

    /// One cell of this type.
    pub fn one(alloc: Global, t: &'a CType, most: usize) -> Result<Counted<'a>, AllocError>
        ensures { IfOk result (Counts most (t.now ∷ [])) }
    {
        let mut first = List::new(alloc);
        if most > 0 {
            first.push(t)?;
        }
        Ok(Counted { count: 1, first })
    }

    /// The same cells.
    pub fn copy(&self, alloc: Global) -> Result<Counted<'a>, AllocError>
        ensures { IfOk result (λ copy. copy ≡ self.now) }
    {
        let first = List::from_slice(alloc, self.first.as_slice())?;
        Ok(Counted {
            count: self.count,
            first,
        })
    }

    /// Puts cells behind these.
    pub fn add(&mut self, more: &Counted<'a>, most: usize) -> Result<(), AllocError>
        requires count { self.old.count ≤ most_cells + 1 }
        requires more { more.now.count ≤ most_cells + 1 }
        requires first { length self.old.first ≤ most }
        ensures { OnOk result ((ts us : List Cell) → Counts most ts self.old → Counts most us more.now → Counts most (ts ++ us) self.new) }
    {
        put_all(&mut self.first, &more.first, most)?;
        self.count = (self.count + more.count).min(MOST_CELLS + 1);
        Ok(())
    }

    /// The cells of so many times these.
    pub fn times(&self, alloc: Global, times: u32, most: usize) -> Result<Counted<'a>, AllocError>
        requires { self.now.count ≤ most_cells + 1 }
        ensures { IfOk result (λ c. (ts : List Cell) → Counts most ts self.now → Counts most (repeat times ts) c) }
    {
        let mut first = List::new(alloc);
        for _ in 0..u64::from(times).min(most as u64) {
            if first.len() < most {
                put_all(&mut first, &self.first, most)?;
            }
        }
        Ok(Counted {
            count: (u64::from(times) * self.count).min(MOST_CELLS + 1),
            first,
        })
    }
}

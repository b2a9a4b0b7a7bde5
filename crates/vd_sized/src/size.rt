//! How many cells types have.

ghost use Rattle.std.specs.Prelude.{◌≡◌, ◌↔◌, true, IsTrue, IfOk, OnOk, MatchOption};
ghost use Rattle.std.specs.List.{All};
ghost use Rattle.vd_base.specs.declared.ctype.CType.TheVariants as typ;
ghost use Rattle.vd_heads.specs.Closure.{IsUnambiguous};
ghost use Rattle.vd_heads.specs.Least.{IsLeastOrNone, IsPlaceOf};
ghost use Rattle.vd_heads.specs.Views.{IsView};
ghost use Rattle.vd_sized.specs.Cells.{HasCells, HaveCells, IsLarge, is_one};
ghost use Rattle.vd_sized.specs.Counts.{CountsSome};
ghost use Rattle.vd_sized.specs.Seen.{IsMeant};
ghost use Rattle.vd_sized.specs.Sizes.{AreCounted, AreEnough, AreSizes, HasEnough, IsCountedOrWaits, Passes, Settles, SomeWaits, Waits};

use crate::leaves::{Counted, MOST_CELLS};
use crate::order::{StructSeen, struct_order, structs_seen};
use std::alloc::{AllocError, Global};
use std::collections::BTreeMap;
use vd_base::{CType, Field, List, Name};
use vd_heads::{Content, Space, View, least};

/// The cells of structs by their names. A struct that a part sees and that is not there holds itself, however deep.
#[derive(Drop)]
pub struct Sizes<'a> {
    /// How many of the first cells are kept.
    most: usize,
    known: BTreeMap<&'a [u8], Counted<'a>>,
}

/// How many initial values a section gives.
fn values_in(content: &Content) -> usize
    ensures { HasEnough result content.now }
{
    match content {
        Content::Global(_, values) => values.len(),
        Content::Uses(_) => 0,
        Content::Exports(_) => 0,
        Content::Struct(_, _) => 0,
        Content::Abstract(_, _, _) => 0,
        Content::Pred(_, _) => 0,
        Content::Spec(_, _) => 0,
        Content::Unread(_) => 0,
    }
}

/// The most initial values of a global in the part.
fn most_values(view: &View<'_, '_>) -> usize
    ensures { AreEnough view.now result }
{
    let mut most = 0;
    for section in view.sections() {
        most = values_in(&section.content).max(most);
    }
    most
}

impl<'a> Sizes<'a> {
    /// The cells of a struct, where what is unknown counts as one cell.
    fn struct_cells(
        &self,
        alloc: Global,
        view: &View<'_, '_>,
        t: &'a CType,
        name: &Name,
    ) -> Result<Option<Counted<'a>>, AllocError>
        requires view { IsView view.now }
        requires counted { AreCounted view.now self.now }
        requires named { t.now ≡ typ.Struct name.now }
        ensures { IfOk result (λ found. MatchOption found (Waits view.now self.now t.now) (CountsSome self.now.most (HasCells view.now.parts.now view.now.own t.now))) }
    {
        match self.known.get(name.as_bytes()) {
            Some(kept) => Ok(Some(kept.copy(alloc)?)),
            None => {
                if view.knows(Space::Struct, name) {
                    return Ok(None);
                }
                Ok(Some(Counted::one(alloc, t, self.most)?))
            }
        }
    }

    /// The cell that a type is.
    fn single(
        &self,
        alloc: Global,
        view: &View<'_, '_>,
        t: &'a CType,
    ) -> Result<Option<Counted<'a>>, AllocError>
        requires { is_one t.now ≡ true }
        ensures { IfOk result (λ found. MatchOption found (Waits view.now self.now t.now) (CountsSome self.now.most (HasCells view.now.parts.now view.now.own t.now))) }
    {
        Ok(Some(Counted::one(alloc, t, self.most)?))
    }

    /// The cells of a type, where what has none counts as one; none where it waits for a struct.
    #[tactic(auto, unfolding(crate::specs::Cells::is_one))]
    pub fn cells(
        &self,
        alloc: Global,
        view: &View<'_, '_>,
        t: &'a CType,
    ) -> Result<Option<Counted<'a>>, AllocError>
        requires view { IsView view.now }
        requires counted { AreCounted view.now self.now }
        ensures { IfOk result (λ found. MatchOption found (Waits view.now self.now t.now) (CountsSome self.now.most (HasCells view.now.parts.now view.now.own t.now))) }
    {
        match t {
            CType::Struct(name) => self.struct_cells(alloc, view, t, name),
            CType::Array(of, length) => match self.cells(alloc, view, of.get())? {
                Some(element) => Ok(Some(element.times(alloc, *length, self.most)?)),
                None => Ok(None),
            },
            CType::Void => self.single(alloc, view, t),
            CType::Int => self.single(alloc, view, t),
            CType::Unsigned => self.single(alloc, view, t),
            CType::Lock => self.single(alloc, view, t),
            CType::Pointer(_) => self.single(alloc, view, t),
        }
    }

    /// The cells of fields together; none where one waits for a struct.
    fn together(
        &self,
        alloc: Global,
        view: &View<'_, '_>,
        fields: &'a [Field],
    ) -> Result<Option<Counted<'a>>, AllocError>
        requires view { IsView view.now }
        requires counted { AreCounted view.now self.now }
        ensures { IfOk result (λ found. MatchOption found (SomeWaits view.now self.now fields.now) (CountsSome self.now.most (HaveCells view.now.parts.now view.now.own fields.now))) }
    {
        let mut total = Counted::none(alloc);
        for field in fields {
            match self.cells(alloc, view, &field.typ)? {
                Some(cells) => total.add(&cells, self.most)?,
                None => return Ok(None),
            }
        }
        Ok(Some(total))
    }

    /// Counts a struct, unless it waits for another.
    fn count(
        &mut self,
        alloc: Global,
        view: &View<'_, '_>,
        known: StructSeen<'a>,
    ) -> Result<bool, AllocError>
        requires view { IsView view.now }
        requires counted { AreCounted view.now self.old }
        requires known { IsMeant view.now known }
        ensures { IfOk result (IsCountedOrWaits view.now self.old self.new known.entry) }
    {
        let name = known.name.as_bytes();
        if self.known.contains_key(name) {
            return Ok(true);
        }
        match self.together(alloc, view, known.fields)? {
            Some(cells) => {
                self.known.insert(name, cells)?;
                Ok(true)
            }
            None => Ok(false),
        }
    }

    /// Counts structs, and gives those that wait.
    fn pass(
        &mut self,
        alloc: Global,
        view: &View<'_, '_>,
        waiting: &[StructSeen<'a>],
    ) -> Result<List<StructSeen<'a>>, AllocError>
        requires view { IsView view.now }
        requires counted { AreCounted view.now self.old }
        requires waiting { All (IsMeant view.now) waiting.now }
        ensures { IfOk result (Passes view.now self.old self.new waiting.now) }
    {
        let mut left = List::new(alloc);
        for known in waiting {
            if !self.count(alloc, view, *known)? {
                left.push(*known)?;
            }
        }
        Ok(left)
    }

    /// Counts structs until all that are left wait.
    fn settle(
        &mut self,
        alloc: Global,
        view: &View<'_, '_>,
        seen: List<StructSeen<'a>>,
    ) -> Result<(), AllocError>
        requires view { IsView view.now }
        requires counted { AreCounted view.now self.old }
        requires seen { All (IsMeant view.now) seen }
        ensures { OnOk result (Settles view.now self.old self.new seen.entry) }
    {
        let mut waiting = seen;
        loop {
            let left = self.pass(alloc, view, waiting.as_slice())?;
            if left.len() == waiting.len() {
                return Ok(());
            }
            waiting = left;
        }
    }

    /// The cells of all structs that the part sees.
    pub fn of(alloc: Global, view: &View<'a, '_>) -> Result<Sizes<'a>, AllocError>
        requires view { IsView view.now }
        requires one { IsUnambiguous view.now.parts.now view.now.own }
        ensures { IfOk result (AreSizes view.now) }
    {
        let mut sizes = Sizes {
            most: most_values(view),
            known: BTreeMap::new(alloc),
        };
        let order = struct_order(alloc, view)?;
        sizes.pass(alloc, view, order.as_slice())?;
        let seen = structs_seen(alloc, view)?;
        sizes.settle(alloc, view, seen)?;
        Ok(sizes)
    }

    /// Whether a section declares a type that is too large.
    fn is_large(
        &self,
        alloc: Global,
        view: &View<'_, '_>,
        content: &'a Content,
    ) -> Result<bool, AllocError>
        requires view { IsView view.now }
        requires one { IsUnambiguous view.now.parts.now view.now.own }
        requires sizes { AreSizes view.now self.now }
        ensures { IfOk result (λ large. IsTrue large ↔ IsLarge view.now.parts.now view.now.own content.now) }
    {
        match content {
            Content::Struct(_, fields) => match self.together(alloc, view, fields.as_slice())? {
                Some(cells) => Ok(cells.count > MOST_CELLS),
                None => Ok(true),
            },
            Content::Global(field, _) => match self.cells(alloc, view, &field.typ)? {
                Some(cells) => Ok(cells.count > MOST_CELLS),
                None => Ok(true),
            },
            _ => Ok(false),
        }
    }

    /// The smallest place of a section whose type is too large.
    pub fn first_large(&self, alloc: Global, view: &View<'a, '_>) -> Result<Option<u32>, AllocError>
        requires view { IsView view.now }
        requires one { IsUnambiguous view.now.parts.now view.now.own }
        requires sizes { AreSizes view.now self.now }
        ensures { IfOk result (IsLeastOrNone (IsPlaceOf view.now.parts.now view.now.own (IsLarge view.now.parts.now view.now.own))) }
    {
        let mut first = None;
        for section in view.sections() {
            if self.is_large(alloc, view, &section.content)? {
                first = least(first, section.place);
            }
        }
        Ok(first)
    }
}

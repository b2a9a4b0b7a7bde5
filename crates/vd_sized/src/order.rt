//! The structs that a part sees.

ghost use Rattle.std.specs.Prelude.{◌≡◌, [], ◌∷◌, IfOk, OnOk, MatchOption};
ghost use Rattle.std.specs.List.{All};
ghost use Rattle.vd_heads.specs.Views.{IsView};
ghost use Rattle.vd_sized.specs.Seen.{AreAdded, AreAllSeen, AreOpen, HasOpened, IsMeant, IsNoStruct, IsNotMeant, IsStruct};

use std::alloc::{AllocError, Global};
use std::collections::BTreeSet;
use vd_base::{Field, List, Name};
use vd_heads::{Content, HeadSection, Space, View, held};

/// A struct that a part sees.
#[derive(Clone, Copy)]
pub struct StructSeen<'a> {
    pub name: &'a Name,
    pub fields: &'a [Field],
}

/// A struct whose fields are visited, and how many have been.
#[derive(Clone, Copy)]
struct Open<'a> {
    known: StructSeen<'a>,
    next: usize,
}

/// Structs in the order in which they are done, and the names of those that were met.
#[derive(Drop)]
struct Order<'a> {
    structs: List<StructSeen<'a>>,
    met: BTreeSet<&'a [u8]>,
}

/// The struct that a section declares.
fn struct_in(content: &Content) -> Option<StructSeen<'_>>
    ensures { MatchOption result (IsNoStruct content.now) (IsStruct content.now) }
{
    match content {
        Content::Struct(name, fields) => Some(StructSeen {
            name,
            fields: fields.as_slice(),
        }),
        Content::Uses(_) => None,
        Content::Exports(_) => None,
        Content::Global(_, _) => None,
        Content::Abstract(_, _, _) => None,
        Content::Pred(_, _) => None,
        Content::Spec(_, _) => None,
        Content::Unread(_) => None,
    }
}

/// The struct that a name means.
fn struct_meant<'a>(view: &View<'a, '_>, name: &Name) -> Option<StructSeen<'a>>
    requires { IsView view.now }
    ensures { MatchOption result (IsNotMeant view.now name.now) (λ s. (s.name.now ≡ name.now) × IsMeant view.now s) }
{
    match view.meaning(Space::Struct, name) {
        Some(content) => struct_in(content),
        None => None,
    }
}

/// Adds what the name of the struct in a section means.
fn add_struct<'a>(
    view: &View<'a, '_>,
    section: &HeadSection,
    seen: &mut List<StructSeen<'a>>,
) -> Result<(), AllocError>
    requires view { IsView view.now }
    requires seen { All (IsMeant view.now) seen.old }
    ensures { OnOk result (AreAdded view.now (section.now ∷ []) seen.old seen.new) }
{
    let Some(declared) = struct_in(&section.content) else {
        return Ok(());
    };
    let Some(known) = struct_meant(view, declared.name) else {
        return Ok(());
    };
    seen.push(known)
}

/// Adds what the names of the structs in sections mean.
fn add_structs<'a>(
    view: &View<'a, '_>,
    sections: &[HeadSection],
    seen: &mut List<StructSeen<'a>>,
) -> Result<(), AllocError>
    requires view { IsView view.now }
    requires seen { All (IsMeant view.now) seen.old }
    ensures { OnOk result (AreAdded view.now sections.now seen.old seen.new) }
{
    for section in sections {
        add_struct(view, section, seen)?;
    }
    Ok(())
}

/// All structs that a part sees, one as often as its name is declared.
pub fn structs_seen<'a>(
    alloc: Global,
    view: &View<'a, '_>,
) -> Result<List<StructSeen<'a>>, AllocError>
    requires { IsView view.now }
    ensures { IfOk result (AreAllSeen view.now) }
{
    let mut seen = List::new(alloc);
    for (number, part) in view.parts.iter().enumerate() {
        if view.sees(number) {
            add_structs(view, part.sections.as_slice(), &mut seen)?;
        }
    }
    Ok(seen)
}

impl<'a> Order<'a> {
    /// Opens a struct that has not been met.
    fn meet(&mut self, known: StructSeen<'a>, stack: &mut List<Open<'a>>) -> Result<(), AllocError>
        ensures stack { OnOk result (HasOpened known.entry stack.old stack.new) }
        ensures structs { self.new.structs ≡ self.old.structs }
    {
        if self.met.insert(known.name.as_bytes())? {
            stack.push(Open { known, next: 0 })?;
        }
        Ok(())
    }

    /// Visits the next field of a struct, or adds the struct where all are visited.
    fn advance(
        &mut self,
        view: &View<'a, '_>,
        at: Open<'a>,
        stack: &mut List<Open<'a>>,
    ) -> Result<(), AllocError>
        requires view { IsView view.now }
        requires structs { All (IsMeant view.now) self.old.structs }
        requires at { IsMeant view.now at.known }
        requires stack { AreOpen view.now stack.old }
        ensures structs { OnOk result (All (IsMeant view.now) self.new.structs) }
        ensures stack { OnOk result (AreOpen view.now stack.new) }
    {
        let Some(field) = at.known.fields.get(at.next) else {
            return self.structs.push(at.known);
        };
        stack.push(Open {
            known: at.known,
            next: at.next + 1,
        })?;
        let Some(name) = held(&field.typ) else {
            return Ok(());
        };
        match struct_meant(view, name) {
            Some(known) => self.meet(known, stack),
            None => Ok(()),
        }
    }

    /// Adds a struct, mostly behind those that it holds by value.
    fn add(
        &mut self,
        alloc: Global,
        view: &View<'a, '_>,
        known: StructSeen<'a>,
    ) -> Result<(), AllocError>
        requires view { IsView view.now }
        requires structs { All (IsMeant view.now) self.old.structs }
        requires known { IsMeant view.now known }
        ensures { OnOk result (All (IsMeant view.now) self.new.structs) }
    {
        let mut stack = List::new(alloc);
        self.meet(known, &mut stack)?;
        for _ in 0..u64::MAX {
            match stack.pop() {
                Some(at) => self.advance(view, at, &mut stack)?,
                None => return Ok(()),
            }
        }
        Ok(())
    }
}

/// Structs that a part sees, each once, and mostly behind those that it holds by value.
pub fn struct_order<'a>(
    alloc: Global,
    view: &View<'a, '_>,
) -> Result<List<StructSeen<'a>>, AllocError>
    requires { IsView view.now }
    ensures { IfOk result (All (IsMeant view.now)) }
{
    let seen = structs_seen(alloc, view)?;
    let mut order = Order {
        structs: List::new(alloc),
        met: BTreeSet::new(alloc),
    };
    for known in seen.as_slice() {
        order.add(alloc, view, *known)?;
    }
    Ok(order.structs)
}

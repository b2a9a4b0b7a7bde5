//! What a unit lacks.

ghost use Rattle.std.specs.Prelude.{◌≡◌, ◌↔◌, ◌⊎◌, ℕ, Some, slice_get, MatchOption, IfOk, OnOk, IsTrue};
ghost use Rattle.std.specs.List.{Contains};
ghost use Rattle.vd_outline.specs.Outline.{header_line};
ghost use Rattle.vd_heads.specs.Declaration.{Bytes};
ghost use Rattle.vd_heads.specs.declared.table.Space.TheVariants as space;
ghost use Rattle.vd_heads.specs.Least.{IsLeastOrNone};
ghost use Rattle.vd_heads.specs.Views.{IsView};
ghost use Rattle.vd_known.specs.Completeness as complete;
ghost use Rattle.vd_known.specs.HeaderNames.{AreBodies, IsIn};
ghost use Rattle.vd_known.specs.Names.{IsSet};

use crate::least::least_of;
use crate::names::Names;
use std::alloc::{AllocError, Global};
use vd_base::Text;
use vd_heads::{Content, HeadSection, Mention, Space, View, section_word};
use vd_logic::Spec;
use vd_outline::{SectionKind, cut_at};

/// The names of a unit's functions, proofs and subsumptions, by the header lines of their sections.
#[derive(Drop)]
pub struct Bodies<'a> {
    functions: Names<'a>,
    scripts: Names<'a>,
    subs: Names<'a>,
}

/// The name in a header line of this kind.
fn name_behind<'a>(kind: SectionKind, line: &'a [u8]) -> Option<&'a [u8]>
    ensures { MatchOption result ((name : Bytes) → line.now ≡ header_line kind (Some name) → ⊥) (λ name. line.now ≡ header_line kind (Some name.now)) }
{
    match cut_at(line, b' ') {
        Some((word, name)) => {
            if word == section_word(kind) {
                Some(name)
            } else {
                None
            }
        }
        None => None,
    }
}

/// Puts the name in a header line of this kind behind others, where there is one.
fn add_named<'a>(names: &mut Names<'a>, kind: SectionKind, line: &'a [u8]) -> Result<(), AllocError>
    requires { IsSet names.old }
    ensures set { OnOk result (IsSet names.new) }
    ensures names { OnOk result ((f : Bytes) → IsIn names.new f ↔ (IsIn names.old f ⊎ (line.now ≡ header_line kind (Some f)))) }
{
    match name_behind(kind, line) {
        Some(name) => names.add(name),
        None => Ok(()),
    }
}

impl<'a> Bodies<'a> {
    /// Those of a text of header lines.
    pub fn of(alloc: Global, lines: &'a Text) -> Result<Bodies<'a>, AllocError>
        ensures { IfOk result (AreBodies lines.now) }
    {
        let mut functions = Names::new(alloc);
        let mut scripts = Names::new(alloc);
        let mut subs = Names::new(alloc);
        let mut rest = lines.as_bytes();
        'lines: while let Some((line, after)) = cut_at(rest, b'\n') {
            add_named(&mut functions, SectionKind::Fn, line)?;
            add_named(&mut scripts, SectionKind::Script, line)?;
            add_named(&mut subs, SectionKind::Sub, line)?;
            rest = after;
        }
        Ok(Bodies {
            functions,
            scripts,
            subs,
        })
    }
}

/// Whether the part itself declares the name.
fn has_own(view: &View<'_, '_>, space: Space, name: &[u8]) -> bool
    requires { IsView view.now }
    ensures { IsTrue result ↔ complete.HasOwn view.now.parts.now view.now.own space name.now }
{
    for spot in view.spots(space, name) {
        if spot.part == view.own {
            return true;
        }
    }
    false
}

/// Whether an exported interface specifies the function.
fn has_exported_spec(view: &View<'_, '_>, name: &[u8]) -> bool
    requires { IsView view.now }
    ensures { IsTrue result ↔ complete.IsExported view.now.parts.now view.now.own name.now }
{
    for spot in view.spots(Space::Function, name) {
        if view.exports(spot.part) {
            return true;
        }
    }
    false
}

/// Whether nothing specifies the function.
fn is_unspecified(view: &View<'_, '_>, name: &[u8]) -> bool
    requires { IsView view.now }
    ensures { IsTrue result ↔ complete.IsUnknown view.now.parts.now view.now.own name.now }
{
    !has_own(view, Space::Function, name) && !has_exported_spec(view, name)
}

/// Whether a function without a specification stands in the unit.
fn has_unspecified(view: &View<'_, '_>, bodies: &Bodies<'_>) -> bool
    requires { IsView view.now }
    ensures { (lines : Bytes) → AreBodies lines bodies.now → IsTrue result ↔ ((f : Bytes) × complete.IsUnspecified lines view.now.parts.now view.now.own f) }
{
    for name in bodies.functions.as_slice() {
        if is_unspecified(view, name) {
            return true;
        }
    }
    false
}

/// Whether a proof without its function stands in the unit.
fn has_alone(view: &View<'_, '_>, bodies: &Bodies<'_>) -> bool
    requires names { IsSet bodies.now.functions }
    ensures { (lines : Bytes) → AreBodies lines bodies.now → IsTrue result ↔ ((f : Bytes) × complete.IsAlone lines view.now.parts.now view.now.own f) }
{
    for name in bodies.scripts.as_slice() {
        if !bodies.functions.has(name) {
            return true;
        }
    }
    false
}

/// Whether a subsumption of the function is asked for.
fn is_asked(view: &View<'_, '_>, bodies: &Bodies<'_>, name: &[u8]) -> bool
    requires view { IsView view.now }
    requires names { IsSet bodies.now.functions }
    ensures { IsTrue result ↔ (IsIn bodies.now.functions name.now × complete.IsSubsumed view.now.parts.now view.now.own name.now) }
{
    bodies.functions.has(name)
        && has_own(view, Space::Function, name)
        && has_exported_spec(view, name)
}

/// Whether a subsumption that nothing asks for stands in the unit.
fn has_unasked(view: &View<'_, '_>, bodies: &Bodies<'_>) -> bool
    requires view { IsView view.now }
    requires names { IsSet bodies.now.functions }
    ensures { (lines : Bytes) → AreBodies lines bodies.now → IsTrue result ↔ ((f : Bytes) × complete.IsUnasked lines view.now.parts.now view.now.own f) }
{
    for name in bodies.subs.as_slice() {
        if !is_asked(view, bodies, name) {
            return true;
        }
    }
    false
}

/// Whether what a section of an interface says asks for what the unit lacks.
fn asks_for(view: &View<'_, '_>, bodies: &Bodies<'_>, content: &Content) -> bool
    requires view { IsView view.now }
    requires names { IsSet bodies.now.functions }
    ensures { (lines : Bytes) → AreBodies lines bodies.now → IsTrue result ↔ complete.AsksFor lines view.now.parts.now view.now.own content.now }
{
    match content {
        Content::Abstract(name, _, _) => !has_own(view, Space::Predicate, name.as_bytes()),
        Content::Spec(spec, _) => !bodies.functions.has(spec.name.as_bytes()),
        Content::Uses(_) | Content::Exports(_) | Content::Struct(_, _) => false,
        Content::Global(_, _) | Content::Pred(_, _) | Content::Unread(_) => false,
    }
}

/// Whether one of these sections of an interface asks for what the unit lacks.
fn one_asks(view: &View<'_, '_>, bodies: &Bodies<'_>, sections: &[HeadSection]) -> bool
    requires view { IsView view.now }
    requires names { IsSet bodies.now.functions }
    ensures { (lines : Bytes) → AreBodies lines bodies.now → IsTrue result ↔ ((i : ℕ) × (h : HeadSection) × (slice_get sections.now i ≡ Some h) × complete.AsksFor lines view.now.parts.now view.now.own h.content) }
{
    for section in sections {
        if asks_for(view, bodies, &section.content) {
            return true;
        }
    }
    false
}

/// Whether the interface of this number asks for what the unit lacks.
fn asks(view: &View<'_, '_>, bodies: &Bodies<'_>, number: usize) -> bool
    requires view { IsView view.now }
    requires names { IsSet bodies.now.functions }
    ensures { (lines : Bytes) → AreBodies lines bodies.now → IsTrue result ↔ complete.Asks lines view.now.parts.now view.now.own number }
{
    match view.parts.get(number) {
        Some(part) => one_asks(view, bodies, part.sections.as_slice()),
        None => false,
    }
}

/// The place of a name that is exported, if its interface asks for what the unit lacks.
fn missing_place(view: &View<'_, '_>, bodies: &Bodies<'_>, mention: &Mention) -> Option<u32>
    requires view { IsView view.now }
    requires names { IsSet bodies.now.functions }
    ensures { (lines : Bytes) → AreBodies lines bodies.now → IsLeastOrNone (complete.IsMissing lines view.now.parts.now view.now.own mention.now) result }
{
    match view.table.interface(&mention.name) {
        Some(number) => {
            if asks(view, bodies, number) {
                Some(mention.place)
            } else {
                None
            }
        }
        None => None,
    }
}

/// The smallest place of an interface, of those exported, that asks for what the unit lacks.
fn first_missing(view: &View<'_, '_>, bodies: &Bodies<'_>, mentions: &[Mention]) -> Option<u32>
    requires view { IsView view.now }
    requires names { IsSet bodies.now.functions }
    ensures { (lines : Bytes) → AreBodies lines bodies.now → IsLeastOrNone (λ at. (m : Mention) × Contains mentions.now m × complete.IsMissing lines view.now.parts.now view.now.own m at) result }
{
    let mut first = None;
    for mention in mentions {
        first = least_of(first, missing_place(view, bodies, mention));
    }
    first
}

/// Whether a specification of the unit has its function, and its subsumption where an interface exports it.
fn is_served(view: &View<'_, '_>, bodies: &Bodies<'_>, name: &[u8]) -> bool
    requires view { IsView view.now }
    requires functions { IsSet bodies.now.functions }
    requires subs { IsSet bodies.now.subs }
    ensures { (lines : Bytes) → AreBodies lines bodies.now → IsTrue result ↔ complete.IsServed lines view.now.parts.now view.now.own name.now }
{
    bodies.functions.has(name) && (bodies.subs.has(name) || !has_exported_spec(view, name))
}

/// The place of a specification's header line, if the specification is not served.
fn spec_lack(view: &View<'_, '_>, bodies: &Bodies<'_>, spec: &Spec, place: u32) -> Option<u32>
    requires view { IsView view.now }
    requires functions { IsSet bodies.now.functions }
    requires subs { IsSet bodies.now.subs }
    ensures { (lines : Bytes) → AreBodies lines bodies.now → IsLeastOrNone (λ at. (complete.IsServed lines view.now.parts.now view.now.own spec.now.name → ⊥) × (at ≡ place)) result }
{
    if is_served(view, bodies, spec.name.as_bytes()) {
        None
    } else {
        Some(place)
    }
}

/// The smallest place in a section at which a unit lacks what is asked of it.
fn section_lack(view: &View<'_, '_>, bodies: &Bodies<'_>, section: &HeadSection) -> Option<u32>
    requires view { IsView view.now }
    requires functions { IsSet bodies.now.functions }
    requires subs { IsSet bodies.now.subs }
    ensures { (lines : Bytes) → AreBodies lines bodies.now → IsLeastOrNone (complete.LacksIn lines view.now.parts.now view.now.own section.now.content section.now.place) result }
{
    match &section.content {
        Content::Exports(mentions) => first_missing(view, bodies, mentions.as_slice()),
        Content::Spec(spec, _) => spec_lack(view, bodies, spec, section.place),
        Content::Uses(_) | Content::Struct(_, _) | Content::Global(_, _) => None,
        Content::Abstract(_, _, _) | Content::Pred(_, _) | Content::Unread(_) => None,
    }
}

/// Whether something that asks for nothing of the unit stands in it.
fn has_stray(view: &View<'_, '_>, bodies: &Bodies<'_>) -> bool
    requires view { IsView view.now }
    requires names { IsSet bodies.now.functions }
    ensures { (lines : Bytes) → AreBodies lines bodies.now → IsTrue result ↔ complete.IsStray lines view.now.parts.now view.now.own }
{
    if has_unspecified(view, bodies) {
        return true;
    }
    if has_alone(view, bodies) {
        return true;
    }
    has_unasked(view, bodies)
}

/// The smallest place at which a unit lacks what is asked of it.
pub fn first_lack(view: &View<'_, '_>, bodies: &Bodies<'_>) -> Option<u32>
    requires view { IsView view.now }
    requires functions { IsSet bodies.now.functions }
    requires subs { IsSet bodies.now.subs }
    ensures { (lines : Bytes) → AreBodies lines bodies.now → IsLeastOrNone (complete.FailsComplete lines view.now.parts.now view.now.own) result }
{
    if !view.is_unit() {
        return None;
    }
    if has_stray(view, bodies) {
        return Some(0);
    }
    let mut first = None;
    for section in view.sections() {
        first = least_of(first, section_lack(view, bodies, section));
    }
    first
}

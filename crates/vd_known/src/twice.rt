//! Names that are declared twice.

ghost use Rattle.std.specs.Prelude.{◌≡◌, ℕ, true, option_copied, IfOk};
ghost use Rattle.vd_heads.specs.Declaration.{Bytes};
ghost use Rattle.vd_heads.specs.Least.{IsLeastOrNone, IsPlaceOf};
ghost use Rattle.vd_heads.specs.Views.{IsView, spots_of};
ghost use Rattle.vd_known.specs.Clash as clash;
ghost use Rattle.vd_known.specs.Twice as twice;

use crate::least::least_of;
use crate::names::Names;
use std::alloc::{AllocError, Global};
use vd_base::Field;
use vd_heads::{Content, Space, Spot, View, least};

fn is_pred(content: &Content) -> bool
    ensures { result ≡ twice.is_pred content.now }
{
    match content {
        Content::Pred(_, _) => true,
        Content::Uses(_) | Content::Exports(_) | Content::Struct(_, _) => false,
        Content::Global(_, _) | Content::Abstract(_, _, _) => false,
        Content::Spec(_, _) | Content::Unread(_) => false,
    }
}

fn is_abstract(content: &Content) -> bool
    ensures { result ≡ twice.is_abstract content.now }
{
    match content {
        Content::Abstract(_, _, _) => true,
        Content::Uses(_) | Content::Exports(_) | Content::Struct(_, _) => false,
        Content::Global(_, _) | Content::Pred(_, _) => false,
        Content::Spec(_, _) | Content::Unread(_) => false,
    }
}

fn is_spec(content: &Content) -> bool
    ensures { result ≡ twice.is_spec content.now }
{
    match content {
        Content::Spec(_, _) => true,
        Content::Uses(_) | Content::Exports(_) | Content::Struct(_, _) => false,
        Content::Global(_, _) | Content::Abstract(_, _, _) => false,
        Content::Pred(_, _) | Content::Unread(_) => false,
    }
}

fn both_define(own: Option<&Content>, other: Option<&Content>) -> bool
    ensures { result ≡ clash.both_define (option_copied own.entry) (option_copied other.entry) }
{
    match own {
        None => false,
        Some(own) => match other {
            None => false,
            Some(other) => { is_pred(own) && is_abstract(other) || is_spec(own) && is_spec(other) }
        },
    }
}

/// Whether a unit's own section defines what another section declares: a predicate or the specification of a function
/// that an interface declares which the unit exports.
#[tactic(auto, unfolding(crate::specs::Clash::defines_at))]
fn defines(view: &View<'_, '_>, own: Spot, other: Spot) -> bool
    ensures { result ≡ clash.defines_at view.now own other }
{
    own.part == view.own
        && view.exports(other.part)
        && both_define(view.content_at(own), view.content_at(other))
}

#[tactic(auto, unfolding(crate::specs::Clash::clashes))]
fn clashes(view: &View<'_, '_>, first: Spot, other: Spot) -> bool
    ensures { result ≡ clash.clashes view.now first other }
{
    view.sees(other.part) && !defines(view, first, other) && !defines(view, other, first)
}

/// Whether a section is seen, and one of others with which it is two declarations.
#[tactic(auto, unfolding(crate::specs::Clash::clash_among))]
fn clash_among(view: &View<'_, '_>, first: Spot, others: &[Spot]) -> bool
    ensures { result ≡ clash.clash_among view.now first others.now }
{
    if !view.sees(first.part) {
        return false;
    }
    for other in others {
        if clashes(view, first, *other) {
            return true;
        }
    }
    false
}

/// Whether two of the declarations of a name are seen of which neither defines the other. Of three that are seen there
/// are two such, so that few are compared with all others.
fn has_clash(view: &View<'_, '_>, spots: &[Spot]) -> bool
    ensures { result ≡ clash.has_clash view.now spots.now }
{
    for at in 0..spots.len() {
        if clash_among(view, spots[at], &spots[at + 1..]) {
            return true;
        }
    }
    false
}

#[tactic(auto, unfolding(crate::specs::Clash::place_after))]
fn place_after(view: &View<'_, '_>, place: u32, spot: Spot) -> u32
    ensures { result ≡ clash.place_after view.now place spot }
{
    if spot.part == view.own {
        match view.sections().get(spot.section) {
            Some(section) => section.place,
            None => place,
        }
    } else {
        place
    }
}

/// The place of the part's last section that declares a name, or 0.
fn last_place(view: &View<'_, '_>, spots: &[Spot]) -> u32
    ensures { result ≡ clash.last_own view.now 0 spots.now }
{
    let mut place = 0;
    for spot in spots {
        place = place_after(view, place, *spot);
    }
    place
}

/// The place of a name that is declared twice.
fn clash_place(view: &View<'_, '_>, space: Space, name: &[u8]) -> Option<u32>
    requires { IsView view.now }
    ensures { IsLeastOrNone (twice.IsTwofoldAt view.now.parts.now view.now.own space name.now) result }
{
    let spots = view.spots(space, name);
    if has_clash(view, spots) {
        Some(last_place(view, spots))
    } else {
        None
    }
}

/// The smallest place of a name of a name space that is declared twice.
fn first_twofold(view: &View<'_, '_>, space: Space) -> Option<u32>
    requires { IsView view.now }
    ensures { IsLeastOrNone (λ place. (name : Bytes) × twice.IsTwofoldAt view.now.parts.now view.now.own space name place) result }
{
    let mut first = None;
    for name in view.table.in_space(space).shared() {
        first = least_of(first, clash_place(view, space, name));
    }
    first
}

/// Whether two fields have one name.
fn has_twins(alloc: Global, fields: &[Field]) -> Result<bool, AllocError>
    ensures { IfOk result (λ found. found ≡ twice.have_twins fields.now) }
{
    let mut names = Names::new(alloc);
    for field in fields {
        if names.has(field.name.as_bytes()) {
            return Ok(true);
        }
        names.add(field.name.as_bytes())?;
    }
    Ok(false)
}

/// Whether a name stands twice inside a section: two fields or parameters, or variables of which one hides another.
fn repeats(alloc: Global, content: &Content) -> Result<bool, AllocError>
    ensures { IfOk result (λ found. found ≡ twice.repeats content.now) }
{
    match content {
        Content::Struct(_, fields) => has_twins(alloc, fields.as_slice()),
        Content::Abstract(_, _, twice) => Ok(*twice),
        Content::Pred(_, twice) => Ok(*twice),
        Content::Spec(spec, twice) => {
            let twins = has_twins(alloc, spec.params.as_slice())?;
            Ok(*twice || twins)
        }
        Content::Uses(_) | Content::Exports(_) => Ok(false),
        Content::Global(_, _) | Content::Unread(_) => Ok(false),
    }
}

/// The smallest place of a section within which a name stands twice.
fn first_repeated(alloc: Global, view: &View<'_, '_>) -> Result<Option<u32>, AllocError>
    ensures { IfOk result (IsLeastOrNone (IsPlaceOf view.now.parts.now view.now.own (λ c. twice.repeats c ≡ true))) }
{
    let mut first = None;
    for section in view.sections() {
        if repeats(alloc, &section.content)? {
            first = least(first, section.place);
        }
    }
    Ok(first)
}

/// The smallest place at which a name is declared twice.
pub fn first_twice(alloc: Global, view: &View<'_, '_>) -> Result<Option<u32>, AllocError>
    requires { IsView view.now }
    ensures { IfOk result (IsLeastOrNone (twice.FailsTwice view.now.parts.now view.now.own)) }
{
    let repeated = first_repeated(alloc, view)?;
    let structs = least_of(repeated, first_twofold(view, Space::Struct));
    let globals = least_of(structs, first_twofold(view, Space::Global));
    let functions = least_of(globals, first_twofold(view, Space::Function));
    Ok(least_of(functions, first_twofold(view, Space::Predicate)))
}

//! Sorts and types that disagree.

ghost use Rattle.std.specs.Prelude.{◌≡◌, ◌&&◌, ◌↔◌, true, IfOk, IsTrue, MatchOption};
ghost use Rattle.std.specs.List.{Any, flat_map, list_all};
ghost use Rattle.std.specs.Option.{option_copied, option_to_list};
ghost use Rattle.vd_heads.specs.Assertions.{item_labels, labels_of};
ghost use Rattle.vd_heads.specs.Closure.{IsUnambiguous};
ghost use Rattle.vd_heads.specs.Declaration.{declares};
ghost use Rattle.vd_heads.specs.Least.{IsLeastOrNone, IsPlaceOf};
ghost use Rattle.vd_heads.specs.Views.{IsView};
ghost use Rattle.vd_logic.specs.declared.term.Sort.TheVariants as sort;
ghost use Rattle.vd_sized.specs.Agreement as agreement;
ghost use Rattle.vd_sized.specs.Sizes.{AreSizes, HasEnough};
ghost use Rattle.vd_sized.specs.Sorts as sorts;

use crate::initial::has_misfits;
use crate::size::Sizes;
use crate::sorts::{are_alike, have_sorts, is_of, same_sort};
use crate::types::{same, same_types};
use std::alloc::{AllocError, Global};
use vd_base::{List, Name, are_fields};
use vd_heads::{Content, Space, Spot, View, least};
use vd_logic::{Assertion, Item, Label, Prop, Rel, Sort, Spec, Term};

fn prop_agrees(prop: &Prop) -> bool
    ensures { result ≡ agreement.prop_agrees prop.now }
{
    match prop {
        Prop::Rel(Rel::Eq, a, b) | Prop::Rel(Rel::Ne, a, b) => are_alike(a, b),
        Prop::Rel(Rel::Le, a, b) | Prop::Rel(Rel::Lt, a, b) => {
            is_of(a, Sort::Int) && is_of(b, Sort::Int)
        }
        Prop::IsInt(a) | Prop::IsPtr(a) => is_of(a, Sort::Val),
        Prop::Each(l, a, b) => {
            is_of(l, Sort::List) && is_of(a, Sort::Int) && is_of(b, Sort::Int)
        }
    }
}

fn props_agree(props: &[Prop]) -> bool
    ensures { result ≡ list_all agreement.prop_agrees props.now }
{
    for prop in props {
        if !prop_agrees(prop) {
            return false;
        }
    }
    true
}

fn locals_agree(locals: &[(Name, Term)]) -> bool
    ensures { result ≡ list_all (λ x. sorts.is_of sort.Val x.1) locals.now }
{
    for local in locals {
        if !is_of(&local.1, Sort::Val) {
            return false;
        }
    }
    true
}

fn item_agrees(item: &Item) -> bool
    ensures { result ≡ agreement.item_agrees item.now }
{
    match item {
        Item::Data(s, p, l) => {
            is_of(s, Sort::Int) && is_of(p, Sort::Val) && is_of(l, Sort::List)
        }
        Item::Lock(s, p, _) => is_of(s, Sort::Int) && is_of(p, Sort::Val),
        Item::Holds(p, _) => is_of(p, Sort::Val),
        Item::Token(p, n) => is_of(p, Sort::Val) && is_of(n, Sort::Int),
        Item::Pred(_) => true,
    }
}

fn items_agree(items: &[Item]) -> bool
    ensures { result ≡ list_all agreement.item_agrees items.now }
{
    for item in items {
        if !item_agrees(item) {
            return false;
        }
    }
    true
}

/// The sorts of a predicate's arguments.
fn arguments(content: &Content) -> Option<&[Sort]>
    ensures { option_copied result ≡ agreement.argument_sorts content.now }
{
    match content {
        Content::Abstract(_, sorts, _) => Some(sorts.as_slice()),
        Content::Pred(pred, _) => Some(pred.args.as_slice()),
        _ => None,
    }
}

/// Whether a predicate of these sorts takes the arguments.
fn takes(wanted: Option<&[Sort]>, args: &List<Term>) -> bool
    ensures { result ≡ agreement.takes (option_copied wanted.entry) args.now }
{
    match wanted {
        Some(wanted) => have_sorts(args, wanted),
        None => true,
    }
}

/// Whether the label's predicate takes other arguments; nothing is said of a predicate that is not known.
fn is_misused(view: &View<'_, '_>, label: &Label) -> bool
    requires view { IsView view.now }
    requires one { IsUnambiguous view.now.parts.now view.now.own }
    ensures { IsTrue result ↔ agreement.IsMisused view.now.parts.now view.now.own label.now }
{
    match view.meaning(Space::Predicate, &label.name) {
        Some(content) => !takes(arguments(content), &label.args),
        None => false,
    }
}

fn label_of(item: &Item) -> Option<&Label>
    ensures { option_to_list (option_copied result) ≡ item_labels item.now }
{
    match item {
        Item::Lock(_, _, label) => Some(label),
        Item::Holds(_, label) => Some(label),
        Item::Pred(label) => Some(label),
        Item::Data(_, _, _) | Item::Token(_, _) => None,
    }
}

/// Whether the item's label is misused, if it has one.
fn is_misuse(view: &View<'_, '_>, item: &Item) -> bool
    requires view { IsView view.now }
    requires one { IsUnambiguous view.now.parts.now view.now.own }
    ensures { IsTrue result ↔ Any (agreement.IsMisused view.now.parts.now view.now.own) (item_labels item.now) }
{
    match label_of(item) {
        Some(label) => is_misused(view, label),
        None => false,
    }
}

/// Whether some label's predicate takes other arguments.
fn are_misuses(view: &View<'_, '_>, items: &[Item]) -> bool
    requires view { IsView view.now }
    requires one { IsUnambiguous view.now.parts.now view.now.own }
    ensures { IsTrue result ↔ Any (agreement.IsMisused view.now.parts.now view.now.own) (flat_map item_labels items.now) }
{
    for item in items {
        if is_misuse(view, item) {
            return true;
        }
    }
    false
}

fn assertion_agrees(a: &Assertion) -> bool
    ensures { result ≡ agreement.assertion_agrees a.now }
{
    props_agree(a.props.as_slice())
        && locals_agree(a.locals.as_slice())
        && items_agree(a.items.as_slice())
}

fn disagrees(view: &View<'_, '_>, a: &Assertion) -> bool
    requires view { IsView view.now }
    requires one { IsUnambiguous view.now.parts.now view.now.own }
    ensures { IsTrue result ↔ agreement.Disagrees view.now.parts.now view.now.own a.now }
{
    if !assertion_agrees(a) {
        return true;
    }
    are_misuses(view, a.items.as_slice())
}

fn some_disagrees(view: &View<'_, '_>, assertions: &[Assertion]) -> bool
    requires view { IsView view.now }
    requires one { IsUnambiguous view.now.parts.now view.now.own }
    ensures { IsTrue result ↔ Any (agreement.Disagrees view.now.parts.now view.now.own) assertions.now }
{
    for a in assertions {
        if disagrees(view, a) {
            return true;
        }
    }
    false
}

fn same_sorts(a: &[Sort], b: &[Sort]) -> bool
    ensures { IsTrue result ↔ (a.now ≡ b.now) }
{
    let mut rest = b;
    for s in a {
        match rest.split_first() {
            Some((t, others)) => {
                if !same_sort(*s, *t) {
                    return false;
                }
                rest = others;
            }
            None => return false,
        }
    }
    rest.is_empty()
}

fn same_signature(f: &Spec, g: &Spec) -> bool
    ensures { IsTrue result ↔ agreement.SameSignature f.now g.now }
{
    same(&f.ret, &g.ret) && same_types(f.params.as_slice(), g.params.as_slice())
}

/// Whether a definition has in common with what it defines what it must.
fn matches(content: &Content, there: &Content) -> bool
    ensures { IsTrue result ↔ agreement.Matches content.now there.now }
{
    match (content, there) {
        (Content::Pred(pred, _), Content::Abstract(_, sorts, _)) => {
            same_sorts(pred.args.as_slice(), sorts.as_slice())
        }
        (Content::Spec(spec, _), Content::Spec(other, _)) => same_signature(spec, other),
        _ => true,
    }
}

/// The name that a section may define for an interface.
fn defined(content: &Content) -> Option<(Space, &Name)>
    ensures { MatchOption result (agreement.MatchesAll content.now) (λ d. declares d.0 d.1.now content.now ≡ true) }
{
    match content {
        Content::Pred(pred, _) => Some((Space::Predicate, &pred.name)),
        Content::Spec(spec, _) => Some((Space::Function, &spec.name)),
        Content::Uses(_) => None,
        Content::Exports(_) => None,
        Content::Struct(_, _) => None,
        Content::Global(_, _) => None,
        Content::Abstract(_, _, _) => None,
        Content::Unread(_) => None,
    }
}

/// Whether an interface that the part exports declares there otherwise what a section defines.
fn differs_at(view: &View<'_, '_>, content: &Content, spot: Spot) -> bool
    requires { IsView view.now }
    ensures { IsTrue result ↔ agreement.DiffersAt view.now.parts.now view.now.own content.now spot.part spot.section }
{
    if !view.exports(spot.part) {
        return false;
    }
    match view.content_at(spot) {
        Some(there) => !matches(content, there),
        None => false,
    }
}

/// Whether an interface that the part exports declares the name otherwise, which a section defines.
fn is_declared_otherwise(view: &View<'_, '_>, content: &Content, space: Space, name: &Name) -> bool
    requires view { IsView view.now }
    requires named { declares space name.now content.now ≡ true }
    ensures { IsTrue result ↔ agreement.IsOtherwise view.now.parts.now view.now.own content.now }
{
    for spot in view.spots(space, name.as_bytes()) {
        if differs_at(view, content, *spot) {
            return true;
        }
    }
    false
}

/// Whether an interface that the part exports declares otherwise what a section defines.
fn is_otherwise(view: &View<'_, '_>, content: &Content) -> bool
    requires { IsView view.now }
    ensures { IsTrue result ↔ agreement.IsOtherwise view.now.parts.now view.now.own content.now }
{
    match defined(content) {
        Some((space, name)) => is_declared_otherwise(view, content, space, name),
        None => false,
    }
}

/// Whether a section says something in which sorts or types disagree.
fn is_disagreement<'a>(
    alloc: Global,
    view: &View<'_, '_>,
    sizes: &Sizes<'a>,
    content: &'a Content,
) -> Result<bool, AllocError>
    requires view { IsView view.now }
    requires one { IsUnambiguous view.now.parts.now view.now.own }
    requires sizes { AreSizes view.now sizes.now }
    requires few { HasEnough sizes.now.most content.now }
    ensures { IfOk result (λ is. IsTrue is ↔ agreement.IsDisagreement view.now.parts.now view.now.own content.now) }
{
    match content {
        Content::Struct(_, fields) => Ok(!are_fields(fields.as_slice())),
        Content::Global(field, values) => {
            if field.typ.is_void() {
                return Ok(true);
            }
            has_misfits(alloc, view, sizes, field, values.as_slice())
        }
        Content::Pred(pred, _) => {
            if some_disagrees(view, pred.cases.as_slice()) {
                return Ok(true);
            }
            Ok(is_otherwise(view, content))
        }
        Content::Spec(spec, _) => {
            if disagrees(view, &spec.pre) {
                return Ok(true);
            }
            if disagrees(view, &spec.post) {
                return Ok(true);
            }
            Ok(is_otherwise(view, content))
        }
        Content::Uses(_) => Ok(false),
        Content::Exports(_) => Ok(false),
        Content::Abstract(_, _, _) => Ok(false),
        Content::Unread(_) => Ok(false),
    }
}

/// The smallest place of a section in which sorts or types disagree.
pub fn first_disagreement<'a>(
    alloc: Global,
    view: &View<'a, '_>,
    sizes: &Sizes<'a>,
) -> Result<Option<u32>, AllocError>
    requires view { IsView view.now }
    requires one { IsUnambiguous view.now.parts.now view.now.own }
    requires sizes { AreSizes view.now sizes.now }
    ensures { IfOk result (IsLeastOrNone (IsPlaceOf view.now.parts.now view.now.own (agreement.IsDisagreement view.now.parts.now view.now.own))) }
{
    let mut first = None;
    for section in view.sections() {
        if is_disagreement(alloc, view, sizes, &section.content)? {
            first = least(first, section.place);
        }
    }
    Ok(first)
}

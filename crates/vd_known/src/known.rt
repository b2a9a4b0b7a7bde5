//! Names that nothing declares.

ghost use Rattle.std.specs.Prelude.{◌≡◌, Some, flat_map, IfOk};
ghost use Rattle.std.specs.List.{list_all};
ghost use Rattle.vd_heads.specs.declared.table.Space.TheVariants as space;
ghost use Rattle.vd_heads.specs.Least.{IsLeastOrNone, IsPlaceOf};
ghost use Rattle.vd_heads.specs.Views.{IsView};
ghost use Rattle.vd_known.specs.Known as known;
ghost use Rattle.vd_known.specs.Names.{IsSet, names_of};

use crate::names::Names;
use std::alloc::{AllocError, Global};
use vd_base::{CType, Field, List, Name};
use vd_clight::Init;
use vd_heads::{Content, Space, View, held, least};
use vd_logic::{Assertion, Item, Label, Prop, Spec, Term};

fn knows(view: &View<'_, '_>, space: Space, name: &Name) -> bool
    requires { IsView view.now }
    ensures { result ≡ known.is_met view.now (Some (space, name.now)) }
{
    view.knows(space, name)
}

/// Whether the struct is known that the type holds by value.
fn knows_type(view: &View<'_, '_>, t: &CType) -> bool
    requires { IsView view.now }
    ensures { result ≡ list_all (known.is_met view.now) (known.type_needs t.now) }
{
    match held(t) {
        Some(name) => knows(view, Space::Struct, name),
        None => true,
    }
}

fn knows_fields(view: &View<'_, '_>, fields: &[Field]) -> bool
    requires { IsView view.now }
    ensures { result ≡ list_all (known.is_met view.now) (known.field_needs fields.now) }
{
    for field in fields {
        if !knows_type(view, &field.typ) {
            return false;
        }
    }
    true
}

fn knows_value(view: &View<'_, '_>, value: &Init) -> bool
    requires { IsView view.now }
    ensures { result ≡ list_all (known.is_met view.now) (known.value_needs value.now) }
{
    match value {
        Init::Int(_) => true,
        Init::Addr(name) => knows(view, Space::Global, name),
    }
}

fn knows_values(view: &View<'_, '_>, values: &[Init]) -> bool
    requires { IsView view.now }
    ensures { result ≡ list_all (known.is_met view.now) (flat_map known.value_needs values.now) }
{
    for value in values {
        if !knows_value(view, value) {
            return false;
        }
    }
    true
}

#[cycle(term)]
fn knows_term(view: &View<'_, '_>, term: &Term) -> bool
    requires { IsView view.now }
    ensures { result ≡ list_all (known.is_met view.now) (known.term_needs term.now) }
{
    match term {
        Term::Num(_) => true,
        Term::Var(_, _) => true,
        Term::Named(_) => false,
        Term::Global(name) => knows(view, Space::Global, name),
        Term::App(_, args) => knows_terms(view, args),
    }
}

#[cycle(term)]
fn knows_terms(view: &View<'_, '_>, terms: &List<Term>) -> bool
    requires { IsView view.now }
    ensures { result ≡ list_all (known.is_met view.now) (flat_map known.term_needs terms.now) }
{
    for term in terms.as_slice() {
        if !knows_term(view, term) {
            return false;
        }
    }
    true
}

fn knows_prop(view: &View<'_, '_>, prop: &Prop) -> bool
    requires { IsView view.now }
    ensures { result ≡ list_all (known.is_met view.now) (known.prop_needs prop.now) }
{
    match prop {
        Prop::Rel(_, a, b) => knows_term(view, a) && knows_term(view, b),
        Prop::IsInt(a) => knows_term(view, a),
        Prop::IsPtr(a) => knows_term(view, a),
        Prop::Each(l, a, b) => { knows_term(view, l) && knows_term(view, a) && knows_term(view, b) }
    }
}

fn knows_predicate(view: &View<'_, '_>, label: &Label) -> bool
    requires { IsView view.now }
    ensures { result ≡ known.is_met view.now (Some (space.Predicate, label.now.name)) }
{
    knows(view, Space::Predicate, &label.name)
}

fn knows_item(view: &View<'_, '_>, item: &Item) -> bool
    requires { IsView view.now }
    ensures { result ≡ list_all (known.is_met view.now) (known.item_needs item.now) }
{
    match item {
        Item::Data(s, p, l) => knows_term(view, s) && knows_term(view, p) && knows_term(view, l),
        Item::Lock(s, p, label) => {
            knows_term(view, s)
                && knows_term(view, p)
                && knows_terms(view, &label.args)
                && knows_predicate(view, label)
        }
        Item::Holds(p, label) => {
            knows_term(view, p) && knows_terms(view, &label.args) && knows_predicate(view, label)
        }
        Item::Token(p, n) => knows_term(view, p) && knows_term(view, n),
        Item::Pred(label) => knows_terms(view, &label.args) && knows_predicate(view, label),
    }
}

fn knows_props(view: &View<'_, '_>, props: &[Prop]) -> bool
    requires { IsView view.now }
    ensures { result ≡ list_all (known.is_met view.now) (flat_map known.prop_needs props.now) }
{
    for prop in props {
        if !knows_prop(view, prop) {
            return false;
        }
    }
    true
}

fn knows_items(view: &View<'_, '_>, items: &[Item]) -> bool
    requires { IsView view.now }
    ensures { result ≡ list_all (known.is_met view.now) (flat_map known.item_needs items.now) }
{
    for item in items {
        if !knows_item(view, item) {
            return false;
        }
    }
    true
}

fn knows_local(view: &View<'_, '_>, names: &Names<'_>, local: &(Name, Term)) -> bool
    requires view { IsView view.now }
    requires names { IsSet names.now }
    ensures { result ≡ list_all (known.is_met view.now) (known.local_needs (names_of names.now) local.now) }
{
    names.has(local.0.as_bytes()) && knows_term(view, &local.1)
}

fn knows_locals(view: &View<'_, '_>, names: &Names<'_>, locals: &[(Name, Term)]) -> bool
    requires view { IsView view.now }
    requires names { IsSet names.now }
    ensures { result ≡ list_all (known.is_met view.now) (flat_map (known.local_needs (names_of names.now)) locals.now) }
{
    for local in locals {
        if !knows_local(view, names, local) {
            return false;
        }
    }
    true
}

/// Whether all names in an assertion are known, where these are the names of temporaries.
fn knows_assertion(view: &View<'_, '_>, names: &Names<'_>, a: &Assertion) -> bool
    requires view { IsView view.now }
    requires names { IsSet names.now }
    ensures { result ≡ list_all (known.is_met view.now) (known.assertion_needs (names_of names.now) a.now) }
{
    knows_props(view, a.props.as_slice())
        && knows_locals(view, names, a.locals.as_slice())
        && knows_items(view, a.items.as_slice())
}

fn knows_cases(view: &View<'_, '_>, names: &Names<'_>, cases: &[Assertion]) -> bool
    requires view { IsView view.now }
    requires names { IsSet names.now }
    ensures { result ≡ list_all (known.is_met view.now) (flat_map (known.assertion_needs (names_of names.now)) cases.now) }
{
    for case in cases {
        if !knows_assertion(view, names, case) {
            return false;
        }
    }
    true
}

fn field_names<'a>(alloc: Global, fields: &'a [Field]) -> Result<Names<'a>, AllocError>
    ensures set { IfOk result IsSet }
    ensures names { IfOk result (λ names. names_of names ≡ known.field_names fields.now) }
{
    let mut names = Names::new(alloc);
    for field in fields {
        names.add(field.name.as_bytes())?;
    }
    Ok(names)
}

fn knows_spec(alloc: Global, view: &View<'_, '_>, spec: &Spec) -> Result<bool, AllocError>
    requires { IsView view.now }
    ensures { IfOk result (λ all. all ≡ list_all (known.is_met view.now) (known.spec_needs spec.now)) }
{
    let names = field_names(alloc, spec.params.as_slice())?;
    let none = Names::new(alloc);
    let all = knows_type(view, &spec.ret)
        && knows_fields(view, spec.params.as_slice())
        && knows_assertion(view, &names, &spec.pre)
        && knows_assertion(view, &none, &spec.post);
    Ok(all)
}

/// Whether all names in a section are known.
fn knows_content(alloc: Global, view: &View<'_, '_>, content: &Content) -> Result<bool, AllocError>
    requires { IsView view.now }
    ensures { IfOk result (λ all. all ≡ list_all (known.is_met view.now) (known.needs content.now)) }
{
    match content {
        Content::Struct(_, fields) => Ok(knows_fields(view, fields.as_slice())),
        Content::Global(field, init) => {
            Ok(knows_type(view, &field.typ) && knows_values(view, init.as_slice()))
        }
        Content::Pred(pred, _) => {
            Ok(knows_cases(view, &Names::new(alloc), pred.cases.as_slice()))
        }
        Content::Spec(spec, _) => knows_spec(alloc, view, spec),
        Content::Uses(_) | Content::Exports(_) | Content::Abstract(_, _, _) => Ok(true),
        Content::Unread(_) => Ok(true),
    }
}

/// The smallest place of a section in which a name is unknown.
pub fn first_unknown(alloc: Global, view: &View<'_, '_>) -> Result<Option<u32>, AllocError>
    requires { IsView view.now }
    ensures { IfOk result (IsLeastOrNone (IsPlaceOf view.now.parts.now view.now.own (known.IsUnknown view.now.parts.now view.now.own))) }
{
    let mut first = None;
    for section in view.sections() {
        if !knows_content(alloc, view, &section.content)? {
            first = least(first, section.place);
        }
    }
    Ok(first)
}

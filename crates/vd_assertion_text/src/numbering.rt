//! Variables in the place of names.

ghost use Rattle.std.specs.Prelude.{◌≡◌, ◌++◌, IfOk, map};
ghost use Rattle.vd_logic.specs.Parts.{map_prop, map_label, map_item, map_local};
ghost use Rattle.vd_logic_grammar.specs.Variables.{named_or, numbered, numbered_by, numbered_assertion, sorts_of, hides, with_result};
ghost use Rattle.vd_logic_grammar.specs.Variables as names;
ghost use Rattle.vd_assertion_text.specs.Lookup.{variable_in};

use crate::variables::Variables;
use std::alloc::{AllocError, Global};
use vd_base::{List, Name, NameFault, hold};
use vd_logic::{Assertion, Item, Label, Prop, Sort, Term};
use vd_logic_grammar::AssertionText;

fn in_name(alloc: Global, variables: &Variables<'_>, name: &Name) -> Result<Term, AllocError>
    ensures { IfOk result (λ t. t ≡ named_or name.now (variable_in variables.now name.now)) }
{
    match variables.variable(name.as_bytes()) {
        Some((number, sort)) => Ok(Term::Var(number, sort)),
        None => Ok(Term::Named(name.copy(alloc)?)),
    }
}

#[cycle(number)]
fn in_term(alloc: Global, variables: &Variables<'_>, term: &Term) -> Result<Term, AllocError>
    ensures { IfOk result (λ t. t ≡ numbered (variable_in variables.now) term.now) }
{
    match term {
        Term::Num(n) => Ok(Term::Num(*n)),
        Term::Var(number, sort) => Ok(Term::Var(*number, *sort)),
        Term::Named(name) => in_name(alloc, variables, name),
        Term::Global(name) => Ok(Term::Global(name.copy(alloc)?)),
        Term::App(op, args) => {
            let args = in_terms(alloc, variables, args)?;
            Ok(Term::App(*op, args))
        }
    }
}

#[cycle(number)]
fn in_terms(
    alloc: Global,
    variables: &Variables<'_>,
    args: &List<Term>,
) -> Result<List<Term>, AllocError>
    ensures { IfOk result (λ ts. ts ≡ map (numbered (variable_in variables.now)) args.now) }
{
    let mut found = List::new(alloc);
    for arg in args.as_slice() {
        found.push(in_term(alloc, variables, arg)?)?;
    }
    Ok(found)
}

fn in_prop(alloc: Global, variables: &Variables<'_>, prop: &Prop) -> Result<Prop, AllocError>
    ensures { IfOk result (λ p. p ≡ map_prop (numbered (variable_in variables.now)) prop.now) }
{
    match prop {
        Prop::Rel(rel, a, b) => {
            let a = hold(in_term(alloc, variables, a)?);
            let b = in_term(alloc, variables, b)?;
            Ok(Prop::Rel(*rel, a.out(), b))
        }
        Prop::IsInt(a) => Ok(Prop::IsInt(in_term(alloc, variables, a)?)),
        Prop::IsPtr(a) => Ok(Prop::IsPtr(in_term(alloc, variables, a)?)),
        Prop::Each(l, a, b) => {
            let l = hold(in_term(alloc, variables, l)?);
            let a = hold(in_term(alloc, variables, a)?);
            let b = in_term(alloc, variables, b)?;
            Ok(Prop::Each(l.out(), a.out(), b))
        }
    }
}

fn in_label(alloc: Global, variables: &Variables<'_>, label: &Label) -> Result<Label, AllocError>
    ensures { IfOk result (λ l. l ≡ map_label (numbered (variable_in variables.now)) label.now) }
{
    let name = label.name.copy(alloc)?;
    let args = in_terms(alloc, variables, &label.args)?;
    Ok(Label { name, args })
}

fn in_item(alloc: Global, variables: &Variables<'_>, item: &Item) -> Result<Item, AllocError>
    ensures { IfOk result (λ i. i ≡ map_item (numbered (variable_in variables.now)) item.now) }
{
    match item {
        Item::Data(s, p, l) => {
            let s = hold(in_term(alloc, variables, s)?);
            let p = hold(in_term(alloc, variables, p)?);
            let l = in_term(alloc, variables, l)?;
            Ok(Item::Data(s.out(), p.out(), l))
        }
        Item::Lock(s, p, l) => {
            let s = hold(in_term(alloc, variables, s)?);
            let p = hold(in_term(alloc, variables, p)?);
            let l = in_label(alloc, variables, l)?;
            Ok(Item::Lock(s.out(), p.out(), l))
        }
        Item::Holds(p, l) => {
            let p = hold(in_term(alloc, variables, p)?);
            let l = in_label(alloc, variables, l)?;
            Ok(Item::Holds(p.out(), l))
        }
        Item::Token(p, n) => {
            let p = hold(in_term(alloc, variables, p)?);
            let n = in_term(alloc, variables, n)?;
            Ok(Item::Token(p.out(), n))
        }
        Item::Pred(l) => Ok(Item::Pred(in_label(alloc, variables, l)?)),
    }
}

fn in_props(
    alloc: Global,
    variables: &Variables<'_>,
    props: &List<Prop>,
) -> Result<List<Prop>, AllocError>
    ensures { IfOk result (λ ps. ps ≡ map (map_prop (numbered (variable_in variables.now))) props.now) }
{
    let mut found = List::new(alloc);
    for prop in props.as_slice() {
        found.push(in_prop(alloc, variables, prop)?)?;
    }
    Ok(found)
}

fn in_items(
    alloc: Global,
    variables: &Variables<'_>,
    items: &List<Item>,
) -> Result<List<Item>, AllocError>
    ensures { IfOk result (λ is. is ≡ map (map_item (numbered (variable_in variables.now))) items.now) }
{
    let mut found = List::new(alloc);
    for item in items.as_slice() {
        found.push(in_item(alloc, variables, item)?)?;
    }
    Ok(found)
}

fn in_locals(
    alloc: Global,
    variables: &Variables<'_>,
    locals: &List<(Name, Term)>,
) -> Result<List<(Name, Term)>, AllocError>
    ensures { IfOk result (λ ls. ls ≡ map (map_local (numbered (variable_in variables.now))) locals.now) }
{
    let mut found = List::new(alloc);
    for local in locals.as_slice() {
        let name = local.0.copy(alloc)?;
        found.push((name, in_term(alloc, variables, &local.1)?))?;
    }
    Ok(found)
}

/// The sorts of names.
pub(crate) fn sorts_of(alloc: Global, names: &[(Name, Sort)]) -> Result<List<Sort>, AllocError>
    ensures { IfOk result (λ sorts. sorts ≡ sorts_of names.now) }
{
    let mut found = List::new(alloc);
    for name in names {
        found.push(name.1)?;
    }
    Ok(found)
}

fn numbered_by(
    alloc: Global,
    variables: &Variables<'_>,
    a: &AssertionText,
) -> Result<Assertion, AllocError>
    ensures { IfOk result (λ it. it ≡ numbered_by (variable_in variables.now) a.now) }
{
    let opened = sorts_of(alloc, a.opened.as_slice())?;
    let props = in_props(alloc, variables, &a.props)?;
    let locals = in_locals(alloc, variables, &a.locals)?;
    let items = in_items(alloc, variables, &a.items)?;
    Ok(Assertion {
        opened,
        props,
        locals,
        items,
    })
}

/// An assertion with variables in the place of the names that are declared before it, and of those that it opens; and
/// whether one of these names hides another.
pub(crate) fn numbered(
    alloc: Global,
    before: &[(Name, Sort)],
    a: &AssertionText,
) -> Result<(Assertion, bool), AllocError>
    ensures assertion { IfOk result (λ it. it.0 ≡ numbered_assertion before.now a.now) }
    ensures hides { IfOk result (λ it. it.1 ≡ hides (before.now ++ a.now.opened)) }
{
    let variables = Variables::of(alloc, before, a.opened.as_slice())?;
    let assertion = numbered_by(alloc, &variables, a)?;
    Ok((assertion, variables.hides))
}

/// Whether one of these names hides another.
pub(crate) fn hides(alloc: Global, names: &[(Name, Sort)]) -> Result<bool, AllocError>
    ensures { IfOk result (λ it. it ≡ hides names.now) }
{
    let variables = Variables::of(alloc, names, &[])?;
    Ok(variables.hides)
}

fn result_name(alloc: Global) -> Result<Name, AllocError>
    ensures { IfOk result (λ name. name ≡ names.result_name) }
{
    match Name::new(alloc, b"r") {
        Ok(name) => Ok(name),
        Err(NameFault::Memory(error)) => Err(error),
        Err(NameFault::NotName) => unreachable!(),
    }
}

/// Names, and the result's behind them.
pub(crate) fn with_result(
    alloc: Global,
    names: &[(Name, Sort)],
) -> Result<List<(Name, Sort)>, AllocError>
    ensures { IfOk result (λ all. all ≡ with_result names.now) }
{
    let mut found = List::new(alloc);
    for name in names {
        let copy = name.0.copy(alloc)?;
        found.push((copy, name.1))?;
    }
    found.push((result_name(alloc)?, Sort::Val))?;
    Ok(found)
}

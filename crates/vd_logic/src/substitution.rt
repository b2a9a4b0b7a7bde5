//! Terms in the place of variables.

ghost use Rattle.std.specs.Prelude.{◌≡◌, IfOk, map, slice_index_or};
ghost use Rattle.vd_logic.specs.declared.term.Term.{Var};
ghost use Rattle.vd_logic.specs.Parts.{map_prop, map_label, map_item, map_local};
ghost use Rattle.vd_logic.specs.Substitution.{substituted, substituted_assertion};

use crate::assertion::{Assertion, Item, Label, Prop};
use crate::term::{Sort, Term};
use std::alloc::{AllocError, Global};
use vd_base::{List, Name, hold};

/// The term for a variable, or the variable where there is none.
fn term_for(alloc: Global, terms: &List<Term>, number: u32, sort: Sort) -> Result<Term, AllocError>
    ensures { IfOk result (λ t. t ≡ slice_index_or terms.now number (Var number sort)) }
{
    let terms = terms.as_slice();
    let at = number as usize;
    if at < terms.len() {
        terms[at].copy(alloc)
    } else {
        Ok(Term::Var(number, sort))
    }
}

#[cycle(substitute)]
fn in_term(alloc: Global, term: &Term, terms: &List<Term>) -> Result<Term, AllocError>
    ensures { IfOk result (λ t. t ≡ substituted terms.now term.now) }
{
    match term {
        Term::Num(n) => Ok(Term::Num(*n)),
        Term::Var(number, sort) => term_for(alloc, terms, *number, *sort),
        Term::Named(name) => Ok(Term::Named(name.copy(alloc)?)),
        Term::Global(name) => Ok(Term::Global(name.copy(alloc)?)),
        Term::App(op, args) => {
            let args = in_terms(alloc, args, terms)?;
            Ok(Term::App(*op, args))
        }
    }
}

#[cycle(substitute)]
fn in_terms(alloc: Global, args: &List<Term>, terms: &List<Term>) -> Result<List<Term>, AllocError>
    ensures { IfOk result (λ ts. ts ≡ map (substituted terms.now) args.now) }
{
    let mut found = List::new(alloc);
    for arg in args.as_slice() {
        found.push(in_term(alloc, arg, terms)?)?;
    }
    Ok(found)
}

fn in_prop(alloc: Global, prop: &Prop, terms: &List<Term>) -> Result<Prop, AllocError>
    ensures { IfOk result (λ p. p ≡ map_prop (substituted terms.now) prop.now) }
{
    match prop {
        Prop::Rel(rel, a, b) => {
            let a = hold(in_term(alloc, a, terms)?);
            let b = in_term(alloc, b, terms)?;
            Ok(Prop::Rel(*rel, a.out(), b))
        }
        Prop::IsInt(a) => Ok(Prop::IsInt(in_term(alloc, a, terms)?)),
        Prop::IsPtr(a) => Ok(Prop::IsPtr(in_term(alloc, a, terms)?)),
        Prop::Each(l, a, b) => {
            let l = hold(in_term(alloc, l, terms)?);
            let a = hold(in_term(alloc, a, terms)?);
            let b = in_term(alloc, b, terms)?;
            Ok(Prop::Each(l.out(), a.out(), b))
        }
    }
}

fn in_label(alloc: Global, label: &Label, terms: &List<Term>) -> Result<Label, AllocError>
    ensures { IfOk result (λ l. l ≡ map_label (substituted terms.now) label.now) }
{
    let name = label.name.copy(alloc)?;
    let args = in_terms(alloc, &label.args, terms)?;
    Ok(Label { name, args })
}

fn in_item(alloc: Global, item: &Item, terms: &List<Term>) -> Result<Item, AllocError>
    ensures { IfOk result (λ i. i ≡ map_item (substituted terms.now) item.now) }
{
    match item {
        Item::Data(s, p, l) => {
            let s = hold(in_term(alloc, s, terms)?);
            let p = hold(in_term(alloc, p, terms)?);
            let l = in_term(alloc, l, terms)?;
            Ok(Item::Data(s.out(), p.out(), l))
        }
        Item::Lock(s, p, l) => {
            let s = hold(in_term(alloc, s, terms)?);
            let p = hold(in_term(alloc, p, terms)?);
            let l = in_label(alloc, l, terms)?;
            Ok(Item::Lock(s.out(), p.out(), l))
        }
        Item::Holds(p, l) => {
            let p = hold(in_term(alloc, p, terms)?);
            let l = in_label(alloc, l, terms)?;
            Ok(Item::Holds(p.out(), l))
        }
        Item::Token(p, n) => {
            let p = hold(in_term(alloc, p, terms)?);
            let n = in_term(alloc, n, terms)?;
            Ok(Item::Token(p.out(), n))
        }
        Item::Pred(l) => Ok(Item::Pred(in_label(alloc, l, terms)?)),
    }
}

fn in_props(alloc: Global, props: &List<Prop>, terms: &List<Term>) -> Result<List<Prop>, AllocError>
    ensures { IfOk result (λ ps. ps ≡ map (map_prop (substituted terms.now)) props.now) }
{
    let mut found = List::new(alloc);
    for prop in props.as_slice() {
        found.push(in_prop(alloc, prop, terms)?)?;
    }
    Ok(found)
}

fn in_items(alloc: Global, items: &List<Item>, terms: &List<Term>) -> Result<List<Item>, AllocError>
    ensures { IfOk result (λ is. is ≡ map (map_item (substituted terms.now)) items.now) }
{
    let mut found = List::new(alloc);
    for item in items.as_slice() {
        found.push(in_item(alloc, item, terms)?)?;
    }
    Ok(found)
}

fn in_locals(
    alloc: Global,
    locals: &List<(Name, Term)>,
    terms: &List<Term>,
) -> Result<List<(Name, Term)>, AllocError>
    ensures { IfOk result (λ ls. ls ≡ map (map_local (substituted terms.now)) locals.now) }
{
    let mut found = List::new(alloc);
    for local in locals.as_slice() {
        let name = local.0.copy(alloc)?;
        found.push((name, in_term(alloc, &local.1, terms)?))?;
    }
    Ok(found)
}

/// The assertion with the variables 0, 1, .. replaced by the terms, all at once. It opens no variables. A variable without
/// a term stays.
pub fn substitute(alloc: Global, a: &Assertion, terms: &List<Term>) -> Result<Assertion, AllocError>
    ensures { IfOk result (λ it. it ≡ substituted_assertion terms.now a.now) }
{
    let props = in_props(alloc, &a.props, terms)?;
    let locals = in_locals(alloc, &a.locals, terms)?;
    let items = in_items(alloc, &a.items, terms)?;
    Ok(Assertion {
        opened: List::new(alloc),
        props,
        locals,
        items,
    })
}

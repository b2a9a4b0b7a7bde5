//! Copies.

ghost use Rattle.std.specs.Prelude.{◌≡◌, IfOk};

use crate::assertion::{Assertion, Item, Label, Prop, Spec};
use crate::term::{Sort, Term, copy_terms};
use std::alloc::{AllocError, Global};
use vd_base::{List, Name, copy_fields, hold};

impl Prop {
    /// An equal fact.
    pub fn copy(&self, alloc: Global) -> Result<Prop, AllocError>
        ensures { IfOk result (λ copy. copy ≡ self.now) }
    {
        match self {
            Prop::Rel(rel, a, b) => {
                let a = hold(a.copy(alloc)?);
                let b = b.copy(alloc)?;
                Ok(Prop::Rel(*rel, a.out(), b))
            }
            Prop::IsInt(a) => Ok(Prop::IsInt(a.copy(alloc)?)),
            Prop::IsPtr(a) => Ok(Prop::IsPtr(a.copy(alloc)?)),
            Prop::Each(l, a, b) => {
                let l = hold(l.copy(alloc)?);
                let a = hold(a.copy(alloc)?);
                let b = b.copy(alloc)?;
                Ok(Prop::Each(l.out(), a.out(), b))
            }
        }
    }
}

impl Label {
    /// An equal label.
    pub fn copy(&self, alloc: Global) -> Result<Label, AllocError>
        ensures { IfOk result (λ copy. copy ≡ self.now) }
    {
        let name = self.name.copy(alloc)?;
        let args = copy_terms(alloc, &self.args)?;
        Ok(Label { name, args })
    }
}

impl Item {
    /// An equal item.
    pub fn copy(&self, alloc: Global) -> Result<Item, AllocError>
        ensures { IfOk result (λ copy. copy ≡ self.now) }
    {
        match self {
            Item::Data(s, p, l) => {
                let s = hold(s.copy(alloc)?);
                let p = hold(p.copy(alloc)?);
                let l = l.copy(alloc)?;
                Ok(Item::Data(s.out(), p.out(), l))
            }
            Item::Lock(s, p, l) => {
                let s = hold(s.copy(alloc)?);
                let p = hold(p.copy(alloc)?);
                let l = l.copy(alloc)?;
                Ok(Item::Lock(s.out(), p.out(), l))
            }
            Item::Holds(p, l) => {
                let p = hold(p.copy(alloc)?);
                let l = l.copy(alloc)?;
                Ok(Item::Holds(p.out(), l))
            }
            Item::Token(p, n) => {
                let p = hold(p.copy(alloc)?);
                let n = n.copy(alloc)?;
                Ok(Item::Token(p.out(), n))
            }
            Item::Pred(l) => Ok(Item::Pred(l.copy(alloc)?)),
        }
    }
}

fn copy_props(alloc: Global, props: &List<Prop>) -> Result<List<Prop>, AllocError>
    ensures { IfOk result (λ copy. copy ≡ props.now) }
{
    let mut copies = List::new(alloc);
    for prop in props.as_slice() {
        copies.push(prop.copy(alloc)?)?;
    }
    Ok(copies)
}

fn copy_items(alloc: Global, items: &List<Item>) -> Result<List<Item>, AllocError>
    ensures { IfOk result (λ copy. copy ≡ items.now) }
{
    let mut copies = List::new(alloc);
    for item in items.as_slice() {
        copies.push(item.copy(alloc)?)?;
    }
    Ok(copies)
}

fn copy_locals(alloc: Global, locals: &List<(Name, Term)>) -> Result<List<(Name, Term)>, AllocError>
    ensures { IfOk result (λ copy. copy ≡ locals.now) }
{
    let mut copies = List::new(alloc);
    for local in locals.as_slice() {
        let name = local.0.copy(alloc)?;
        copies.push((name, local.1.copy(alloc)?))?;
    }
    Ok(copies)
}

fn copy_with(
    alloc: Global,
    variables: &List<(Name, Sort)>,
) -> Result<List<(Name, Sort)>, AllocError>
    ensures { IfOk result (λ copy. copy ≡ variables.now) }
{
    let mut copies = List::new(alloc);
    for variable in variables.as_slice() {
        let name = variable.0.copy(alloc)?;
        copies.push((name, variable.1))?;
    }
    Ok(copies)
}

impl Assertion {
    /// An equal assertion.
    pub fn copy(&self, alloc: Global) -> Result<Assertion, AllocError>
        ensures { IfOk result (λ copy. copy ≡ self.now) }
    {
        let opened = List::from_slice(alloc, self.opened.as_slice())?;
        let props = copy_props(alloc, &self.props)?;
        let locals = copy_locals(alloc, &self.locals)?;
        let items = copy_items(alloc, &self.items)?;
        Ok(Assertion {
            opened,
            props,
            locals,
            items,
        })
    }
}

impl Spec {
    /// An equal specification.
    pub fn copy(&self, alloc: Global) -> Result<Spec, AllocError>
        ensures { IfOk result (λ copy. copy ≡ self.now) }
    {
        let ret = hold(self.ret.copy(alloc)?);
        let name = self.name.copy(alloc)?;
        let params = copy_fields(alloc, &self.params)?;
        let with = copy_with(alloc, &self.with)?;
        let pre = hold(self.pre.copy(alloc)?);
        let post = self.post.copy(alloc)?;
        Ok(Spec {
            ret: ret.out(),
            name,
            params,
            with,
            pre: pre.out(),
            post,
        })
    }
}

//! Terms.

ghost use Rattle.std.specs.Prelude.{◌≡◌, IfOk};

use std::alloc::{AllocError, Global};
use vd_base::{List, Name};

/// What a term stands for.
#[derive(Clone, Copy, PartialEq, Eq)]
pub enum Sort {
    Int,
    Val,
    List,
}

/// An operation of terms.
#[derive(Clone, Copy, PartialEq, Eq)]
pub enum Op {
    Add,
    Sub,
    Mul,
    Len,
    Sum,
    Num,
    Unum,
    Quot,
    Rem,
    Band,
    Bor,
    Bxor,
    Shl,
    Shr,
    Lt,
    Le,
    Eq,
    Vi,
    Undef,
    Off,
    Nth,
    Nil,
    Cons,
    App,
    Rev,
    Upd,
    /// The part of a list from one place up to another.
    Slice,
    Rep,
}

/// A term. A name that nothing in its section declares is `Named`.
#[derive(Drop)]
pub enum Term {
    Num(i128),
    Var(u32, Sort),
    Named(Name),
    Global(Name),
    App(Op, List<Term>),
}

impl Term {
    /// An equal term.
    #[cycle(copy)]
    pub fn copy(&self, alloc: Global) -> Result<Term, AllocError>
        ensures { IfOk result (λ copy. copy ≡ self.now) }
    {
        match self {
            Term::Num(n) => Ok(Term::Num(*n)),
            Term::Var(number, sort) => Ok(Term::Var(*number, *sort)),
            Term::Named(name) => Ok(Term::Named(name.copy(alloc)?)),
            Term::Global(name) => Ok(Term::Global(name.copy(alloc)?)),
            Term::App(op, args) => {
                let args = copy_terms(alloc, args)?;
                Ok(Term::App(*op, args))
            }
        }
    }
}

/// An equal list of terms.
#[cycle(copy)]
pub fn copy_terms(alloc: Global, terms: &List<Term>) -> Result<List<Term>, AllocError>
    ensures { IfOk result (λ copy. copy ≡ terms.now) }
{
    let mut copies = List::new(alloc);
    for term in terms.as_slice() {
        copies.push(term.copy(alloc)?)?;
    }
    Ok(copies)
}

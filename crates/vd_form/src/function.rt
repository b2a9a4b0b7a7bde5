//! Functions of the form.

ghost use Rattle.std.specs.Prelude.{◌≡◌, IfOk};
ghost use Rattle.vd_form.specs.Sections.{Finds, IsTyped, IsTypedAs, own_scope};

use crate::plain::is_plain_function;
use crate::simple::is_simple_function;
use std::alloc::{AllocError, Global};
use vd_base::{Held, List, Structs, Text, copy_fields, hold};
use vd_clight::{CScope, FnText, Signature, TypedFn};
use vd_cparse::parse_section;
use vd_ctyping::{TypeFault, type_fn, typing_laws};
use vd_grammar::ParseFault;

fn own_scope(alloc: Global, f: &FnText) -> Result<CScope, AllocError>
    ensures { IfOk result (λ scope. scope ≡ own_scope f.now) }
{
    let mut fns = List::new(alloc);
    let name = f.name.copy(alloc)?;
    let params = copy_fields(alloc, &f.params)?;
    let ret = f.ret.copy(alloc)?;
    fns.push(Signature { ret, name, params })?;
    Ok(CScope {
        structs: Structs::new(alloc),
        globals: List::new(alloc),
        fns,
    })
}

/// The typed function, where the function and it have the form.
fn typed_as(alloc: Global, f: &FnText) -> Result<Option<Held<TypedFn>>, AllocError>
    ensures { IfOk result (Finds (IsTypedAs f.now)) }
{
    typing_laws();
    if !is_plain_function(f) {
        return Ok(None);
    }
    let scope = hold(own_scope(alloc, f)?);
    match type_fn(alloc, scope.get(), f) {
        Ok(typed) => {
            let typed = hold(typed);
            if is_simple_function(typed.get()) {
                Ok(Some(typed))
            } else {
                Ok(None)
            }
        }
        Err(TypeFault::Memory) => Err(AllocError),
        Err(TypeFault::Unknown(_, _)) => Ok(None),
        Err(TypeFault::Mismatch(_, _, _)) => Ok(None),
        Err(TypeFault::NotNormal(_)) => Ok(None),
    }
}

/// The typed function of a `fn` section, where the section has the form.
pub fn read_typed(alloc: Global, section: &Text) -> Result<Option<Held<TypedFn>>, AllocError>
    ensures { IfOk result (Finds (IsTyped section.now)) }
{
    match parse_section(alloc, section) {
        Ok(function) => typed_as(alloc, &function),
        Err(ParseFault::Memory) => Err(AllocError),
        Err(ParseFault::Bad(_)) => Ok(None),
        Err(ParseFault::Deep(_)) => Ok(None),
    }
}

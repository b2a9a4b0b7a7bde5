//! Calls of `spawn`, and which kind of call a name stands for.

ghost use Rattle.std.specs.Prelude.{◌≡◌, option_copied, option_map, IfOk};
ghost use Rattle.vd_judge.specs.Call.{name_of, starts_by};
ghost use Rattle.vd_judge.specs.CheckedCall.{spawned, thread, call_spawn, call};

use crate::builtin::builtin_of;
use crate::call::{
    call_builtin, call_function, call_malloc, disagrees, one, passed_by, result_of, two,
};
use crate::checked::{Checked, also, fine, pair, untyped};
use crate::expression::judge;
use crate::fault::TypeFault;
use crate::found::operand_of;
use crate::scope::Scope;
use crate::shape::is_void;
use std::alloc::{AllocError, Global};
use vd_base::{CType, Name, hold};
use vd_clight::{Expr, ExprNode, Signature, TExpr, TStmt};

/// The name that an expression is.
fn name_of(e: &Expr) -> Option<&Name>
    ensures { option_copied result ≡ name_of e.now }
{
    match &e.node {
        ExprNode::Ident(name) => Some(name),
        _ => None,
    }
}

/// The type of the one parameter of a void function.
fn starts_by(
    alloc: Global,
    at: u32,
    name: &Name,
    signature: Option<&Signature>,
) -> Result<Checked<CType>, AllocError>
    ensures { IfOk result (λ t. t ≡ starts_by at name.now (option_copied signature.entry)) }
{
    match signature {
        None => {
            let name = name.copy(alloc)?;
            Ok(untyped(TypeFault::Unknown(at, name)))
        }
        Some(signature) => match one(signature.params.as_slice()) {
            None => Ok(untyped(disagrees(at))),
            Some(parameter) => {
                if is_void(&signature.ret) {
                    return Ok(fine(parameter.typ.copy(alloc)?));
                }
                Ok(untyped(disagrees(at)))
            }
        },
    }
}

/// The argument that a thread starts with.
fn spawned(
    alloc: Global,
    scope: &Scope<'_, '_>,
    at: u32,
    name: &Name,
    e: &Expr,
) -> Result<Checked<TExpr>, AllocError>
    ensures { IfOk result (λ v. v ≡ spawned scope.now at name.now e.now) }
{
    let typ = starts_by(alloc, at, name, scope.function(name))?;
    let value = operand_of(alloc, judge(alloc, scope, e)?)?;
    match pair(typ, value) {
        Checked::Untyped(fault) => Ok(Checked::Untyped(fault)),
        Checked::Typed(both, fault) => {
            let (typ, value) = both.out();
            let typ = hold(typ);
            Ok(also(fault, passed_by(alloc, Some(typ.get()), value)?))
        }
    }
}

/// The function that a thread runs, and its argument.
fn thread(
    alloc: Global,
    scope: &Scope<'_, '_>,
    place: u32,
    both: Option<(&Expr, &Expr)>,
) -> Result<Checked<(Name, TExpr)>, AllocError>
    ensures { IfOk result (λ t. t ≡ thread scope.now place (option_map (λ p. (p.0.now, p.1.now)) both.entry)) }
{
    match both {
        None => Ok(untyped(disagrees(place))),
        Some(both) => match name_of(both.0) {
            None => Ok(untyped(disagrees(place))),
            Some(name) => match spawned(alloc, scope, both.0.place, name, both.1)? {
                Checked::Untyped(fault) => Ok(Checked::Untyped(fault)),
                Checked::Typed(value, fault) => {
                    let name = name.copy(alloc)?;
                    Ok(also(fault, fine((name, value.out()))))
                }
            },
        },
    }
}

fn call_spawn(
    alloc: Global,
    scope: &Scope<'_, '_>,
    place: u32,
    target: Option<&Expr>,
    args: &[Expr],
) -> Result<Checked<TStmt>, AllocError>
    ensures { IfOk result (λ s. s ≡ call_spawn scope.now place (option_copied target.entry) args.now) }
{
    let to = result_of(alloc, scope, place, target, fine(CType::Void))?;
    let started = thread(alloc, scope, place, two(args))?;
    match pair(to, started) {
        Checked::Untyped(fault) => Ok(Checked::Untyped(fault)),
        Checked::Typed(both, fault) => {
            let (_, started) = both.out();
            let (name, value) = started;
            Ok(also(fault, fine(TStmt::Spawn(name, value))))
        }
    }
}

/// A call.
pub(crate) fn type_call(
    alloc: Global,
    scope: &Scope<'_, '_>,
    place: u32,
    target: Option<&Expr>,
    name: &Name,
    args: &[Expr],
) -> Result<Checked<TStmt>, AllocError>
    ensures { IfOk result (λ s. s ≡ call scope.now place (option_copied target.entry) name.now args.now) }
{
    if name.as_bytes() == b"malloc".as_slice() {
        return call_malloc(alloc, scope, place, target, args);
    }
    if name.as_bytes() == b"spawn".as_slice() {
        return call_spawn(alloc, scope, place, target, args);
    }
    match builtin_of(name) {
        None => call_function(alloc, scope, place, target, name, args),
        Some(b) => call_builtin(alloc, scope, place, target, b, args),
    }
}

//! The functions that are built in and take one argument.

ghost use Rattle.std.specs.Prelude.{◌≡◌, IfOk};
ghost use Rattle.vd_judge.specs.Call.{builtin_of, parameter_of, builtin_statement};

use crate::found::pointer_to;
use std::alloc::{AllocError, Global};
use vd_base::{CType, Name};
use vd_clight::{LockOp, TExpr, TStmt};

/// What is built in.
#[derive(Clone, Copy)]
pub(crate) enum Builtin {
    Free,
    Lock(LockOp),
}

/// What a name is that is built in.
pub(crate) fn builtin_of(name: &Name) -> Option<Builtin>
    ensures { result ≡ builtin_of name.now }
{
    let name = name.as_bytes();
    if name == b"free".as_slice() {
        return Some(Builtin::Free);
    }
    if name == b"makelock".as_slice() {
        return Some(Builtin::Lock(LockOp::Make));
    }
    if name == b"acquire".as_slice() {
        return Some(Builtin::Lock(LockOp::Acquire));
    }
    if name == b"release".as_slice() {
        return Some(Builtin::Lock(LockOp::Release));
    }
    if name == b"freelock".as_slice() {
        return Some(Builtin::Lock(LockOp::Free));
    }
    None
}

/// The type of its parameter.
pub(crate) fn parameter_of(alloc: Global, b: Builtin) -> Result<CType, AllocError>
    ensures { IfOk result (λ t. t ≡ parameter_of b) }
{
    match b {
        Builtin::Free => pointer_to(alloc, &CType::Void),
        Builtin::Lock(_) => pointer_to(alloc, &CType::Lock),
    }
}

pub(crate) fn builtin_statement(b: Builtin, e: TExpr) -> TStmt
    ensures { result ≡ builtin_statement b e }
{
    match b {
        Builtin::Free => TStmt::Free(e),
        Builtin::Lock(op) => TStmt::Lock(op, e),
    }
}

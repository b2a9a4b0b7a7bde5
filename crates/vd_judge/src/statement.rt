//! Typed statements.

ghost use Rattle.std.specs.Prelude.{◌≡◌, option_copied, map, IfOk};
ghost use Rattle.vd_judge.specs.CheckedStatement.{set_value, set, store, assign, assigned, tested, returned, block, branches, repeats, typed_statement};
ghost use Rattle.vd_judge.specs.Place.{in_memory};

use crate::call::{passed, wants_type};
use crate::checked::{Checked, added, also, fine, pair, unless, untyped};
use crate::expression::judge;
use crate::fault::TypeFault;
use crate::found::{Destination, Form, Found, Target, as_operand, condition_of, left_side};
use crate::operation::wants;
use crate::scope::Scope;
use crate::shape::{element_of, is_void};
use crate::spawn::type_call;
use std::alloc::{AllocError, Global};
use vd_base::{CType, Held, List, hold};
use vd_clight::{Cond, Expr, Lval, Stmt, StmtNode, TStmt};

// ---- assignments

/// A temporary gets a value.
fn set_value(alloc: Global, x: u32, t: &CType, found: Found) -> Result<Checked<TStmt>, AllocError>
    ensures { IfOk result (λ s. s ≡ set_value x t.now found) }
{
    match as_operand(alloc, found)? {
        Checked::Untyped(fault) => Ok(Checked::Untyped(fault)),
        Checked::Typed(o, fault) => {
            let wrong = wants(alloc, t, o.get())?;
            let value = o.out().value.out();
            Ok(also(fault, unless(wrong, TStmt::Set(x, value))))
        }
    }
}

/// A temporary gets what is read from memory, or the address of an array there.
fn set_memory(
    alloc: Global,
    x: u32,
    t: &CType,
    place: u32,
    typ: Held<CType>,
    l: Held<Lval>,
) -> Result<Checked<TStmt>, AllocError>
    ensures { IfOk result (λ s. s ≡ set x t.now (in_memory place typ l)) }
{
    if element_of(typ.get()).is_some() {
        let form = Form::Memory(l);
        return set_value(alloc, x, t, Found { place, typ, form });
    }
    let wrong = wants_type(alloc, place, t, typ.get())?;
    Ok(unless(wrong, TStmt::Load(x, l.out())))
}

fn set(alloc: Global, x: u32, t: &CType, found: Found) -> Result<Checked<TStmt>, AllocError>
    ensures { IfOk result (λ s. s ≡ set x t.now found) }
{
    let Found { place, typ, form } = found;
    match form {
        Form::Zero => {
            let form = Form::Zero;
            set_value(alloc, x, t, Found { place, typ, form })
        }
        Form::Value(value) => {
            let form = Form::Value(value);
            set_value(alloc, x, t, Found { place, typ, form })
        }
        Form::Temporary(y) => {
            let form = Form::Temporary(y);
            set_value(alloc, x, t, Found { place, typ, form })
        }
        Form::Memory(l) => set_memory(alloc, x, t, place, typ, l),
        Form::Test(at, a, b, equal) => {
            let form = Form::Test(at, a, b, equal);
            set_value(alloc, x, t, Found { place, typ, form })
        }
    }
}

/// A value is stored in memory.
fn store(
    alloc: Global,
    l: Held<Lval>,
    t: &CType,
    found: Found,
) -> Result<Checked<TStmt>, AllocError>
    ensures { IfOk result (λ s. s ≡ store l t.now found) }
{
    match as_operand(alloc, found)? {
        Checked::Untyped(fault) => Ok(Checked::Untyped(fault)),
        Checked::Typed(o, fault) => {
            let wrong = wants(alloc, t, o.get())?;
            let value = o.out().value.out();
            Ok(also(fault, unless(wrong, TStmt::Store(l.out(), value))))
        }
    }
}

fn assign(alloc: Global, target: Target, found: Found) -> Result<Checked<TStmt>, AllocError>
    ensures { IfOk result (λ s. s ≡ assign (target, found)) }
{
    let Target { place: _, typ, to } = target;
    match to {
        Destination::Temporary(x) => set(alloc, x, typ.get(), found),
        Destination::Memory(l) => store(alloc, l, typ.get(), found),
    }
}

fn type_assign(
    alloc: Global,
    scope: &Scope<'_, '_>,
    left: &Expr,
    right: &Expr,
) -> Result<Checked<TStmt>, AllocError>
    ensures { IfOk result (λ s. s ≡ assigned scope.now left.now right.now) }
{
    let left = left_side(judge(alloc, scope, left)?);
    let right = judge(alloc, scope, right)?;
    match pair(left, right) {
        Checked::Untyped(fault) => Ok(Checked::Untyped(fault)),
        Checked::Typed(both, fault) => {
            let (target, found) = both.out();
            Ok(also(fault, assign(alloc, target, found)?))
        }
    }
}

// ---- other statements

fn type_test(alloc: Global, scope: &Scope<'_, '_>, e: &Expr) -> Result<Checked<Cond>, AllocError>
    ensures { IfOk result (λ c. c ≡ tested scope.now e.now) }
{
    match condition_of(alloc, judge(alloc, scope, e)?)? {
        Checked::Untyped(fault) => Ok(Checked::Untyped(fault)),
        Checked::Typed(c, fault) => Ok(also(fault, fine(c.out().test.out()))),
    }
}

fn type_return(
    alloc: Global,
    scope: &Scope<'_, '_>,
    place: u32,
    e: Option<&Expr>,
) -> Result<Checked<TStmt>, AllocError>
    ensures { IfOk result (λ s. s ≡ returned scope.now place (option_copied e.entry)) }
{
    match e {
        None => {
            if is_void(scope.returned()) {
                return Ok(fine(TStmt::Return(None)));
            }
            let wanted = scope.returned().copy(alloc)?;
            Ok(untyped(TypeFault::Mismatch(place, wanted, CType::Void)))
        }
        Some(e) => match passed(alloc, Some(scope.returned()), judge(alloc, scope, e)?)? {
            Checked::Untyped(fault) => Ok(Checked::Untyped(fault)),
            Checked::Typed(v, fault) => Ok(also(fault, fine(TStmt::Return(Some(v.out()))))),
        },
    }
}

fn branches(
    test: Checked<Cond>,
    yes: Checked<List<TStmt>>,
    other: Checked<List<TStmt>>,
) -> Checked<TStmt>
    ensures { result ≡ branches test yes other }
{
    match pair(test, pair(yes, other)) {
        Checked::Untyped(fault) => Checked::Untyped(fault),
        Checked::Typed(all, fault) => {
            let (test, both) = all.out();
            let (yes, other) = both;
            also(fault, fine(TStmt::If(test, yes, other)))
        }
    }
}

/// A loop that ends where its condition fails.
fn repeats(
    alloc: Global,
    test: Checked<Cond>,
    body: Checked<List<TStmt>>,
) -> Result<Checked<TStmt>, AllocError>
    ensures { IfOk result (λ s. s ≡ repeats test body) }
{
    match pair(test, body) {
        Checked::Untyped(fault) => Ok(Checked::Untyped(fault)),
        Checked::Typed(both, fault) => {
            let mut end = List::new(alloc);
            end.push(TStmt::Break)?;
            let (test, body) = both.out();
            let mut all = List::new(alloc);
            all.push(TStmt::If(test, body, end))?;
            Ok(also(fault, fine(TStmt::Loop(all))))
        }
    }
}

/// A statement, or its first fault.
#[cycle(statements)]
#[tactic(auto, unfolding(crate::specs::CheckedStatement::typed_statement))]
fn type_statement(
    alloc: Global,
    scope: &Scope<'_, '_>,
    s: &Stmt,
) -> Result<Checked<TStmt>, AllocError>
    ensures { IfOk result (λ t. t ≡ typed_statement scope.now s.now) }
{
    let place = s.place;
    match &s.node {
        StmtNode::Skip => Ok(fine(TStmt::Skip)),
        StmtNode::Assign(left, right) => type_assign(alloc, scope, left, right),
        StmtNode::Call(target, name, args) => {
            type_call(alloc, scope, place, target.as_ref(), name, args.as_slice())
        }
        StmtNode::If(e, yes, other) => {
            let test = type_test(alloc, scope, e)?;
            let yes = type_block(alloc, scope, yes.as_slice())?;
            let other = type_block(alloc, scope, other.as_slice())?;
            Ok(branches(test, yes, other))
        }
        StmtNode::While(e, body) => {
            let test = type_test(alloc, scope, e)?;
            let body = type_block(alloc, scope, body.as_slice())?;
            repeats(alloc, test, body)
        }
        StmtNode::Break => Ok(fine(TStmt::Break)),
        StmtNode::Continue => Ok(fine(TStmt::Continue)),
        StmtNode::Return(e) => type_return(alloc, scope, place, e.as_ref()),
    }
}

/// Statements in order, or their first fault.
#[cycle(statements)]
pub fn type_block(
    alloc: Global,
    scope: &Scope<'_, '_>,
    body: &[Stmt],
) -> Result<Checked<List<TStmt>>, AllocError>
    ensures { IfOk result (λ b. b ≡ block (map (typed_statement scope.now) body.now)) }
{
    let mut all = fine(List::new(alloc));
    for s in body {
        let typed = type_statement(alloc, scope, s)?;
        all = added(all, typed)?;
    }
    Ok(all)
}

//! What an expression is found to be, and what it is where a value, a condition or a target is wanted.

ghost use Rattle.std.specs.Prelude.{◌≡◌, IfOk};
ghost use Rattle.vd_judge.specs.Found.{as_operand, read, stands_for, truth, as_target, stored, pointer_to};
ghost use Rattle.vd_judge.specs.CheckedExpression.{operand_of, as_condition, truth_of, condition_of, left_side};

use crate::checked::{Checked, also, fine, unwanted};
use crate::fault::TypeFault;
use crate::shape::{element_of, is_integer, is_pointer, is_scalar, kind_of};
use std::alloc::{AllocError, Global};
use vd_base::{Boxed, CType, Held, hold};
use vd_clight::{Cond, Lval, TExpr};

/// What an expression denotes.
#[derive(Drop)]
pub(crate) enum Form {
    /// The constant 0, which converts to any pointer.
    Zero,
    /// A value that needs no memory.
    Value(Held<TExpr>),
    /// A parameter or temporary.
    Temporary(u32),
    /// A place in memory.
    Memory(Held<Lval>),
    /// A test of two pointers, with its place, and whether it asks that they are equal.
    Test(u32, Held<TExpr>, Held<TExpr>, bool),
}

/// A typed expression, and the place of its first token.
#[derive(Drop)]
pub(crate) struct Found {
    pub(crate) place: u32,
    pub(crate) typ: Held<CType>,
    pub(crate) form: Form,
}

/// An expression whose value is wanted.
#[derive(Drop)]
pub(crate) struct Operand {
    pub(crate) place: u32,
    pub(crate) typ: Held<CType>,
    pub(crate) zero: bool,
    pub(crate) value: Held<TExpr>,
}

/// An expression that is tested, and the place that a pointer test has.
#[derive(Drop)]
pub(crate) struct Condition {
    pub(crate) place: u32,
    pub(crate) test: Held<Cond>,
}

/// Where a value goes.
#[derive(Drop)]
pub(crate) enum Destination {
    Temporary(u32),
    Memory(Held<Lval>),
}

/// An expression on the left side of an assignment.
#[derive(Drop)]
pub(crate) struct Target {
    pub(crate) place: u32,
    pub(crate) typ: Held<CType>,
    pub(crate) to: Destination,
}

// ---- values

pub(crate) fn pointer_to(alloc: Global, t: &CType) -> Result<CType, AllocError>
    ensures { IfOk result (λ p. p ≡ pointer_to t.now) }
{
    let t = t.copy(alloc)?;
    Ok(CType::Pointer(Boxed::new(alloc, t)?))
}

/// What stands for the value of an expression without a normal form, and its fault.
fn stands_for(place: u32, at: u32, typ: Held<CType>) -> Checked<Operand>
    ensures { result ≡ stands_for place at typ }
{
    let value = Operand {
        place,
        typ,
        zero: false,
        value: hold(TExpr::Temp(0)),
    };
    Checked::Typed(hold(value), Some(hold(TypeFault::NotNormal(at))))
}

/// The value of a place in memory.
fn read(
    alloc: Global,
    place: u32,
    typ: Held<CType>,
    l: Held<Lval>,
) -> Result<Checked<Operand>, AllocError>
    ensures { IfOk result (λ o. o ≡ read place typ l) }
{
    match element_of(typ.get()) {
        None => Ok(stands_for(place, place, typ)),
        Some(element) => {
            let typ = hold(pointer_to(alloc, element)?);
            Ok(fine(Operand {
                place,
                typ,
                zero: false,
                value: hold(TExpr::Addr(l.out())),
            }))
        }
    }
}

pub(crate) fn as_operand(alloc: Global, found: Found) -> Result<Checked<Operand>, AllocError>
    ensures { IfOk result (λ o. o ≡ as_operand found) }
{
    let Found { place, typ, form } = found;
    match form {
        Form::Zero => Ok(fine(Operand {
            place,
            typ,
            zero: true,
            value: hold(TExpr::Const(0)),
        })),
        Form::Value(value) => Ok(fine(Operand {
            place,
            typ,
            zero: false,
            value,
        })),
        Form::Temporary(x) => Ok(fine(Operand {
            place,
            typ,
            zero: false,
            value: hold(TExpr::Temp(x)),
        })),
        Form::Memory(l) => read(alloc, place, typ, l),
        Form::Test(at, _, _, _) => Ok(stands_for(place, at, typ)),
    }
}

/// An expression whose value is wanted.
pub(crate) fn operand_of(
    alloc: Global,
    part: Checked<Found>,
) -> Result<Checked<Operand>, AllocError>
    ensures { IfOk result (λ o. o ≡ operand_of part) }
{
    match part {
        Checked::Untyped(fault) => Ok(Checked::Untyped(fault)),
        Checked::Typed(found, fault) => {
            let value = as_operand(alloc, found.out())?;
            Ok(also(fault, value))
        }
    }
}

// ---- conditions

/// Whether an integer is not 0, or a pointer not null.
fn truth(o: Operand) -> Checked<Condition>
    ensures { result ≡ truth o }
{
    let Operand {
        place,
        typ,
        zero: _,
        value,
    } = o;
    if is_integer(typ.get()) {
        let test = hold(Cond::Int(kind_of(typ.get()), value.out()));
        return fine(Condition { place, test });
    }
    if is_pointer(typ.get()) {
        let test = hold(Cond::Same(value.out(), TExpr::Const(0), false));
        return fine(Condition { place, test });
    }
    unwanted(place, typ)
}

fn truth_of(alloc: Global, found: Found) -> Result<Checked<Condition>, AllocError>
    ensures { IfOk result (λ c. c ≡ truth_of found) }
{
    match as_operand(alloc, found)? {
        Checked::Untyped(fault) => Ok(Checked::Untyped(fault)),
        Checked::Typed(o, fault) => Ok(also(fault, truth(o.out()))),
    }
}

fn as_condition(alloc: Global, found: Found) -> Result<Checked<Condition>, AllocError>
    ensures { IfOk result (λ c. c ≡ as_condition found) }
{
    let Found { place, typ, form } = found;
    match form {
        Form::Test(at, a, b, equal) => {
            let test = hold(Cond::Same(a.out(), b.out(), equal));
            Ok(fine(Condition { place: at, test }))
        }
        Form::Zero => {
            let form = Form::Zero;
            truth_of(alloc, Found { place, typ, form })
        }
        Form::Value(value) => {
            let form = Form::Value(value);
            truth_of(alloc, Found { place, typ, form })
        }
        Form::Temporary(x) => {
            let form = Form::Temporary(x);
            truth_of(alloc, Found { place, typ, form })
        }
        Form::Memory(l) => {
            let form = Form::Memory(l);
            truth_of(alloc, Found { place, typ, form })
        }
    }
}

/// An expression that is tested.
pub(crate) fn condition_of(
    alloc: Global,
    part: Checked<Found>,
) -> Result<Checked<Condition>, AllocError>
    ensures { IfOk result (λ c. c ≡ condition_of part) }
{
    match part {
        Checked::Untyped(fault) => Ok(Checked::Untyped(fault)),
        Checked::Typed(found, fault) => {
            let test = as_condition(alloc, found.out())?;
            Ok(also(fault, test))
        }
    }
}

// ---- targets

/// A place in memory to which a value goes: it has one cell.
fn stored(place: u32, typ: Held<CType>, l: Held<Lval>) -> Checked<Target>
    ensures { result ≡ stored place typ l }
{
    if is_scalar(typ.get()) {
        let to = Destination::Memory(l);
        return fine(Target { place, typ, to });
    }
    unwanted(place, typ)
}

fn as_target(found: Found) -> Checked<Target>
    ensures { result ≡ as_target found }
{
    let Found { place, typ, form } = found;
    match form {
        Form::Zero => unwanted(place, typ),
        Form::Value(_) => unwanted(place, typ),
        Form::Temporary(x) => {
            let to = Destination::Temporary(x);
            fine(Target { place, typ, to })
        }
        Form::Memory(l) => stored(place, typ, l),
        Form::Test(_, _, _, _) => unwanted(place, typ),
    }
}

/// An expression to which a value goes.
pub(crate) fn left_side(part: Checked<Found>) -> Checked<Target>
    ensures { result ≡ left_side part }
{
    match part {
        Checked::Untyped(fault) => Checked::Untyped(fault),
        Checked::Typed(found, fault) => also(fault, as_target(found.out())),
    }
}

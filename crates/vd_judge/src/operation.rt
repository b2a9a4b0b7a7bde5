//! Operations and casts.

ghost use Rattle.std.specs.Prelude.{◌≡◌, IfOk};
ghost use Rattle.vd_clight.specs.declared.typed.TExpr.{Binary};
ghost use Rattle.vd_judge.specs.Operation.{as_integer, as_unsigned, as_scalar, wants_bits, wants, wants_cast, wants_alike, computed, common, opposite, complement, negation, arithmetic, bitwise, shift, comparison, equality, class_of, binary, cast, comparable};
ghost use Rattle.vd_judge.specs.CheckedExpression.{integer_of, unsigned_of, scalar_of, judge_unary, left_of, right_of, judge_binary, judge_cast};

use crate::checked::{Checked, also, fine, pair, unless, untyped, unwanted};
use crate::fault::TypeFault;
use crate::found::{Condition, Form, Found, Operand, condition_of, operand_of};
use crate::shape::{converts, is_castable, is_integer, is_scalar, is_unsigned, kind_of};
use std::alloc::{AllocError, Global};
use vd_base::{Boxed, CType, Held, hold};
use vd_clight::{BinOp, Cond, Kind, TExpr, UnOp};

// ---- what operands have to be

/// A part whose value is an integer. Each operand disagrees for itself, whatever the other one is.
pub(crate) fn integer_of(
    alloc: Global,
    part: Checked<Found>,
) -> Result<Checked<Operand>, AllocError>
    ensures { IfOk result (λ o. o ≡ integer_of part) }
{
    match operand_of(alloc, part)? {
        Checked::Untyped(fault) => Ok(Checked::Untyped(fault)),
        Checked::Typed(o, fault) => Ok(also(fault, as_integer(o.out()))),
    }
}

fn as_integer(o: Operand) -> Checked<Operand>
    ensures { result ≡ as_integer o }
{
    if is_integer(o.typ.get()) {
        return fine(o);
    }
    unwanted(o.place, o.typ)
}

/// A part whose value is unsigned.
fn unsigned_of(alloc: Global, part: Checked<Found>) -> Result<Checked<Operand>, AllocError>
    ensures { IfOk result (λ o. o ≡ unsigned_of part) }
{
    match operand_of(alloc, part)? {
        Checked::Untyped(fault) => Ok(Checked::Untyped(fault)),
        Checked::Typed(o, fault) => Ok(also(fault, as_unsigned(o.out()))),
    }
}

fn as_unsigned(o: Operand) -> Checked<Operand>
    ensures { result ≡ as_unsigned o }
{
    if is_unsigned(o.typ.get()) {
        return fine(o);
    }
    untyped(TypeFault::Mismatch(o.place, CType::Unsigned, o.typ.out()))
}

/// A part whose value can be compared: an integer or a pointer.
fn scalar_of(alloc: Global, part: Checked<Found>) -> Result<Checked<Operand>, AllocError>
    ensures { IfOk result (λ o. o ≡ scalar_of part) }
{
    match operand_of(alloc, part)? {
        Checked::Untyped(fault) => Ok(Checked::Untyped(fault)),
        Checked::Typed(o, fault) => Ok(also(fault, as_scalar(o.out()))),
    }
}

fn as_scalar(o: Operand) -> Checked<Operand>
    ensures { result ≡ as_scalar o }
{
    if is_scalar(o.typ.get()) {
        return fine(o);
    }
    unwanted(o.place, o.typ)
}

/// One of two integers of a bit operation is unsigned, else the first disagrees.
fn wants_bits(
    alloc: Global,
    a: &Operand,
    b: &Operand,
) -> Result<Option<Held<TypeFault>>, AllocError>
    ensures { IfOk result (λ f. f ≡ wants_bits a.now b.now) }
{
    if is_unsigned(a.typ.get()) || is_unsigned(b.typ.get()) {
        return Ok(None);
    }
    let found = a.typ.get().copy(alloc)?;
    let fault = TypeFault::Mismatch(a.place, CType::Unsigned, found);
    Ok(Some(hold(fault)))
}

/// A value that has to convert to a type.
pub(crate) fn wants(
    alloc: Global,
    t: &CType,
    o: &Operand,
) -> Result<Option<Held<TypeFault>>, AllocError>
    ensures { IfOk result (λ f. f ≡ wants t.now o.now) }
{
    if converts(o.zero, o.typ.get(), t) {
        return Ok(None);
    }
    let wanted = hold(t.copy(alloc)?);
    let found = o.typ.get().copy(alloc)?;
    let fault = TypeFault::Mismatch(o.place, wanted.out(), found);
    Ok(Some(hold(fault)))
}

fn wants_cast(alloc: Global, t: &CType, o: &Operand) -> Result<Option<Held<TypeFault>>, AllocError>
    ensures { IfOk result (λ f. f ≡ wants_cast t.now o.now) }
{
    if is_castable(o.zero, o.typ.get(), t) {
        return Ok(None);
    }
    let wanted = hold(t.copy(alloc)?);
    let found = o.typ.get().copy(alloc)?;
    let fault = TypeFault::Mismatch(o.place, wanted.out(), found);
    Ok(Some(hold(fault)))
}

fn are_comparable(a: &Operand, b: &Operand) -> bool
    ensures { result ≡ comparable a.now b.now }
{
    converts(a.zero, a.typ.get(), b.typ.get()) || converts(b.zero, b.typ.get(), a.typ.get())
}

/// Two values of which one converts to the other's type, else the later disagrees.
fn wants_alike(
    alloc: Global,
    a: &Operand,
    b: &Operand,
) -> Result<Option<Held<TypeFault>>, AllocError>
    ensures { IfOk result (λ f. f ≡ wants_alike a.now b.now) }
{
    if are_comparable(a, b) {
        return Ok(None);
    }
    let left = hold(a.typ.get().copy(alloc)?);
    let right = b.typ.get().copy(alloc)?;
    let fault = TypeFault::Mismatch(b.place, left.out(), right);
    Ok(Some(hold(fault)))
}

// ---- one operand

pub(crate) fn computed(place: u32, typ: Held<CType>, value: TExpr) -> Found
    ensures { result ≡ computed place typ value }
{
    let form = Form::Value(hold(value));
    Found { place, typ, form }
}

fn opposite(alloc: Global, place: u32, o: Operand) -> Result<Checked<Found>, AllocError>
    ensures { IfOk result (λ f. f ≡ opposite place o) }
{
    let Operand {
        place: _,
        typ,
        zero: _,
        value,
    } = o;
    let value = Boxed::new(alloc, value.out())?;
    let value = TExpr::Unary(UnOp::Minus, kind_of(typ.get()), value);
    Ok(fine(computed(place, typ, value)))
}

fn complement(alloc: Global, place: u32, o: Operand) -> Result<Checked<Found>, AllocError>
    ensures { IfOk result (λ f. f ≡ complement place o) }
{
    let value = Boxed::new(alloc, o.value.out())?;
    let value = TExpr::Unary(UnOp::Invert, Kind::Unsigned, value);
    Ok(fine(computed(place, hold(CType::Unsigned), value)))
}

fn negation(alloc: Global, place: u32, c: Condition) -> Result<Checked<Found>, AllocError>
    ensures { IfOk result (λ f. f ≡ negation place c) }
{
    let Condition { place: at, test } = c;
    match test.out() {
        Cond::Int(kind, value) => {
            let value = TExpr::Unary(UnOp::Not, kind, Boxed::new(alloc, value)?);
            Ok(fine(computed(place, hold(CType::Int), value)))
        }
        Cond::Same(a, b, equal) => Ok(fine(Found {
            place,
            typ: hold(CType::Int),
            form: Form::Test(at, hold(a), hold(b), !equal),
        })),
    }
}

/// A prefix operator and its operand.
pub(crate) fn judge_unary(
    alloc: Global,
    op: UnOp,
    place: u32,
    part: Checked<Found>,
) -> Result<Checked<Found>, AllocError>
    ensures { IfOk result (λ f. f ≡ judge_unary op place part) }
{
    match op {
        UnOp::Minus => match integer_of(alloc, part)? {
            Checked::Untyped(fault) => Ok(Checked::Untyped(fault)),
            Checked::Typed(o, fault) => Ok(also(fault, opposite(alloc, place, o.out())?)),
        },
        UnOp::Not => match condition_of(alloc, part)? {
            Checked::Untyped(fault) => Ok(Checked::Untyped(fault)),
            Checked::Typed(c, fault) => Ok(also(fault, negation(alloc, place, c.out())?)),
        },
        UnOp::Invert => match unsigned_of(alloc, part)? {
            Checked::Untyped(fault) => Ok(Checked::Untyped(fault)),
            Checked::Typed(o, fault) => Ok(also(fault, complement(alloc, place, o.out())?)),
        },
    }
}

// ---- two operands

/// Unsigned where an operand is, else int.
fn common(a: &Operand, b: &Operand) -> CType
    ensures { result ≡ common a.now b.now }
{
    if is_unsigned(a.typ.get()) || is_unsigned(b.typ.get()) {
        CType::Unsigned
    } else {
        CType::Int
    }
}

fn operation(
    alloc: Global,
    op: BinOp,
    kind: Kind,
    a: Held<TExpr>,
    b: Held<TExpr>,
) -> Result<TExpr, AllocError>
    ensures { IfOk result (λ e. e ≡ Binary op kind a b) }
{
    let left = Boxed::new(alloc, a.out())?;
    let right = Boxed::new(alloc, b.out())?;
    Ok(TExpr::Binary(op, kind, left, right))
}

fn arithmetic(
    alloc: Global,
    op: BinOp,
    place: u32,
    a: Operand,
    b: Operand,
) -> Result<Checked<Found>, AllocError>
    ensures { IfOk result (λ f. f ≡ arithmetic op place (a, b)) }
{
    let typ = hold(common(&a, &b));
    let value = operation(alloc, op, kind_of(typ.get()), a.value, b.value)?;
    Ok(fine(computed(place, typ, value)))
}

fn bitwise(
    alloc: Global,
    op: BinOp,
    place: u32,
    a: Operand,
    b: Operand,
) -> Result<Checked<Found>, AllocError>
    ensures { IfOk result (λ f. f ≡ bitwise op place (a, b)) }
{
    let fault = wants_bits(alloc, &a, &b)?;
    let value = operation(alloc, op, Kind::Unsigned, a.value, b.value)?;
    Ok(unless(fault, computed(place, hold(CType::Unsigned), value)))
}

fn shift(
    alloc: Global,
    op: BinOp,
    place: u32,
    a: Operand,
    b: Operand,
) -> Result<Checked<Found>, AllocError>
    ensures { IfOk result (λ f. f ≡ shift op place (a, b)) }
{
    let value = operation(alloc, op, Kind::Unsigned, a.value, b.value)?;
    Ok(fine(computed(place, hold(CType::Unsigned), value)))
}

fn comparison(
    alloc: Global,
    op: BinOp,
    place: u32,
    a: Operand,
    b: Operand,
) -> Result<Checked<Found>, AllocError>
    ensures { IfOk result (λ f. f ≡ comparison op place (a, b)) }
{
    let kind = kind_of(&common(&a, &b));
    let value = operation(alloc, op, kind, a.value, b.value)?;
    Ok(fine(computed(place, hold(CType::Int), value)))
}

/// Whether two values are equal, or whether they differ: of integers an operation, of pointers a test.
fn equality(
    alloc: Global,
    op: BinOp,
    equal: bool,
    place: u32,
    a: Operand,
    b: Operand,
) -> Result<Checked<Found>, AllocError>
    ensures { IfOk result (λ f. f ≡ equality op equal place (a, b)) }
{
    if is_integer(a.typ.get()) && is_integer(b.typ.get()) {
        return comparison(alloc, op, place, a, b);
    }
    let fault = wants_alike(alloc, &a, &b)?;
    let form = Form::Test(place, a.value, b.value, equal);
    let typ = hold(CType::Int);
    Ok(unless(fault, Found { place, typ, form }))
}

/// How an operator takes its operands.
#[derive(Clone, Copy)]
enum Class {
    Arithmetic,
    Bits,
    Shift,
    Order,
    /// Whether it asks that they are equal.
    Equality(bool),
}

fn class_of(op: BinOp) -> Class
    ensures { result ≡ class_of op }
{
    match op {
        BinOp::Add => Class::Arithmetic,
        BinOp::Sub => Class::Arithmetic,
        BinOp::Mul => Class::Arithmetic,
        BinOp::Div => Class::Arithmetic,
        BinOp::Rem => Class::Arithmetic,
        BinOp::And => Class::Bits,
        BinOp::Or => Class::Bits,
        BinOp::Xor => Class::Bits,
        BinOp::Shl => Class::Shift,
        BinOp::Shr => Class::Shift,
        BinOp::Eq => Class::Equality(true),
        BinOp::Ne => Class::Equality(false),
        BinOp::Lt => Class::Order,
        BinOp::Le => Class::Order,
        BinOp::Gt => Class::Order,
        BinOp::Ge => Class::Order,
    }
}

/// The left operand as a class of operators wants it.
fn left_of(
    alloc: Global,
    class: Class,
    part: Checked<Found>,
) -> Result<Checked<Operand>, AllocError>
    ensures { IfOk result (λ o. o ≡ left_of class part) }
{
    match class {
        Class::Arithmetic => integer_of(alloc, part),
        Class::Bits => integer_of(alloc, part),
        Class::Shift => unsigned_of(alloc, part),
        Class::Order => integer_of(alloc, part),
        Class::Equality(_) => scalar_of(alloc, part),
    }
}

/// The right operand as a class of operators wants it.
fn right_of(
    alloc: Global,
    class: Class,
    part: Checked<Found>,
) -> Result<Checked<Operand>, AllocError>
    ensures { IfOk result (λ o. o ≡ right_of class part) }
{
    match class {
        Class::Arithmetic => integer_of(alloc, part),
        Class::Bits => integer_of(alloc, part),
        Class::Shift => integer_of(alloc, part),
        Class::Order => integer_of(alloc, part),
        Class::Equality(_) => scalar_of(alloc, part),
    }
}

fn binary(
    alloc: Global,
    class: Class,
    op: BinOp,
    place: u32,
    a: Operand,
    b: Operand,
) -> Result<Checked<Found>, AllocError>
    ensures { IfOk result (λ f. f ≡ binary class op place (a, b)) }
{
    match class {
        Class::Arithmetic => arithmetic(alloc, op, place, a, b),
        Class::Bits => bitwise(alloc, op, place, a, b),
        Class::Shift => shift(alloc, op, place, a, b),
        Class::Order => comparison(alloc, op, place, a, b),
        Class::Equality(equal) => equality(alloc, op, equal, place, a, b),
    }
}

/// An operator between two operands.
pub(crate) fn judge_binary(
    alloc: Global,
    op: BinOp,
    place: u32,
    left: Checked<Found>,
    right: Checked<Found>,
) -> Result<Checked<Found>, AllocError>
    ensures { IfOk result (λ f. f ≡ judge_binary op place left right) }
{
    let class = class_of(op);
    let left = left_of(alloc, class, left)?;
    let right = right_of(alloc, class, right)?;
    match pair(left, right) {
        Checked::Untyped(fault) => Ok(Checked::Untyped(fault)),
        Checked::Typed(both, fault) => {
            let (a, b) = both.out();
            Ok(also(fault, binary(alloc, class, op, place, a, b)?))
        }
    }
}

// ---- casts

fn cast(alloc: Global, place: u32, t: &CType, o: Operand) -> Result<Checked<Found>, AllocError>
    ensures { IfOk result (λ f. f ≡ cast place t.now o) }
{
    let fault = wants_cast(alloc, t, &o)?;
    let typ = hold(t.copy(alloc)?);
    Ok(unless(fault, computed(place, typ, o.value.out())))
}

/// A cast, which leaves nothing in typed syntax.
pub(crate) fn judge_cast(
    alloc: Global,
    place: u32,
    t: &CType,
    part: Checked<Found>,
) -> Result<Checked<Found>, AllocError>
    ensures { IfOk result (λ f. f ≡ judge_cast place t.now part) }
{
    match operand_of(alloc, part)? {
        Checked::Untyped(fault) => Ok(Checked::Untyped(fault)),
        Checked::Typed(o, fault) => Ok(also(fault, cast(alloc, place, t, o.out())?)),
    }
}

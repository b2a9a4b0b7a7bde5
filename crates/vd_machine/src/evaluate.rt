//! Values of expressions.
ghost use Rattle.std.specs.Prelude.{◌≡◌, ◌<◌, ◌^◌, length, map, pos, negsuc, ◌+ℤ◌, ◌≤ℤ◌, IfOk, ℕ, Ok};
ghost use Rattle.vd_machine.specs.Evaluation.{eval, address, temp, global, root_value, moved, placed, test, same_value, same_answer, pointer_test, on_defined, on_pointer, eval_all, on_int, on_ok};
ghost use Rattle.vd_machine.specs.Results.{result_map, part_moves};

use crate::answer::Cause;
use crate::word::{binary, number, unary};
use std::alloc::{AllocError, Global};
use vd_base::{List, Name};
use vd_clight::{Cond, GlobalDef, Lval, Part, Root, TExpr};
use vd_mem::{Memory, Value};

/// The value of a temporary.
pub(crate) fn temp(temps: &[Value], number: u32) -> Value
    ensures { result ≡ temp temps.now number }
{
    match temps.get(number as usize) {
        Some(value) => *value,
        None => Value::Undef,
    }
}

/// The pointer to a global.
pub(crate) fn global(globals: &[GlobalDef], name: &Name) -> Value
    requires { length globals.now < 2 ^ 30 }
    ensures { result ≡ global globals.now name.now }
{
    for (block, g) in globals.iter().enumerate() {
        if g.name == *name {
            return Value::Ptr(block as u32, 0);
        }
    }
    Value::Undef
}

fn root(globals: &[GlobalDef], temps: &[Value], root: &Root) -> Value
    requires { length globals.now < 2 ^ 30 }
    ensures { result ≡ root_value globals.now temps.now root.now }
{
    match root {
        Root::Temp(number) => temp(temps, *number),
        Root::Global(name, _) => global(globals, name),
    }
}

/// A pointer into a block, unless the offset is far.
fn place(block: u32, offset: i128) -> Result<Value, Cause>
    ensures { result ≡ placed block offset }
{
    if offset < 0 {
        return Err(Cause::Far);
    }
    if offset > 1048576 {
        return Err(Cause::Far);
    }
    Ok(Value::Ptr(block, offset as u32))
}

/// An operand that has to be an integer.
fn integer(value: Value) -> Result<u32, Cause>
    ensures { result ≡ on_int value (λ a. Ok a) }
{
    match value {
        Value::Int(number) => Ok(number),
        Value::Undef => Err(Cause::Undef),
        Value::Ptr(_, _) => Err(Cause::Undef),
    }
}

/// The value of an expression.
#[cycle(evaluate)]
#[tactic(auto, using(crate::proofs::Layers::layers))]
pub(crate) fn eval(globals: &[GlobalDef], temps: &[Value], e: &TExpr) -> Result<Value, Cause>
    requires { length globals.now < 2 ^ 30 }
    ensures { result ≡ eval globals.now temps.now e.now }
{
    match e {
        TExpr::Const(number) => Ok(Value::Int(*number)),
        TExpr::Temp(number) => Ok(temp(temps, *number)),
        TExpr::Addr(place) => address(globals, temps, place),
        TExpr::Unary(op, kind, operand) => {
            let value = eval(globals, temps, operand.get())?;
            let a = integer(value)?;
            unary(*op, *kind, a)
        }
        TExpr::Binary(op, kind, left, right) => {
            let left = eval(globals, temps, left.get())?;
            let right = eval(globals, temps, right.get())?;
            let a = integer(left)?;
            let b = integer(right)?;
            binary(*op, *kind, a, b)
        }
    }
}

/// The address of a place.
#[cycle(evaluate)]
#[tactic(auto, using(crate::proofs::Layers::layers))]
pub(crate) fn address(globals: &[GlobalDef], temps: &[Value], l: &Lval) -> Result<Value, Cause>
    requires { length globals.now < 2 ^ 30 }
    ensures { result ≡ address globals.now temps.now l.now }
{
    match root(globals, temps, &l.root) {
        Value::Ptr(block, offset) => {
            match walk(globals, temps, offset, l.path.as_slice()) {
                Ok(offset) => place(block, offset),
                Err(cause) => Err(cause),
            }
        }
        Value::Undef => Err(Cause::Undef),
        Value::Int(_) => Err(Cause::Undef),
    }
}

fn sum(offset: i128, by: i64) -> i128
    requires low { negsuc (2 ^ 100) ≤ℤ offset }
    requires high { offset ≤ℤ pos (2 ^ 100) }
    ensures { result ≡ offset +ℤ by }
{
    offset + i128::from(by)
}

/// An offset moved by the parts of a path.
#[cycle(evaluate)]
fn walk(globals: &[GlobalDef], temps: &[Value], from: u32, path: &[Part]) -> Result<i128, Cause>
    requires { length globals.now < 2 ^ 30 }
    ensures { (b : ℕ) → moved b (pos from) (map (part_moves globals.now temps.now) path.now) ≡ on_ok result (λ z. placed b z) }
{
    let mut offset = i128::from(from);
    for part in path {
        match moves(globals, temps, part) {
            Ok(by) => offset = sum(offset, by),
            Err(cause) => return Err(cause),
        }
    }
    Ok(offset)
}

/// How far a part moves.
#[cycle(evaluate)]
#[tactic(auto, using(crate::proofs::Layers::layers))]
fn moves(globals: &[GlobalDef], temps: &[Value], part: &Part) -> Result<i64, Cause>
    requires { length globals.now < 2 ^ 30 }
    ensures value { result ≡ part_moves globals.now temps.now part.now }
    ensures low { IfOk result (λ z. negsuc 2147483647 ≤ℤ z) }
    ensures high { IfOk result (λ z. z ≤ℤ pos 4294967295) }
{
    match part {
        Part::Offset(cells) => Ok(i64::from(*cells)),
        Part::Index(kind, index) => {
            let value = eval(globals, temps, index)?;
            let a = integer(value)?;
            Ok(number(*kind, a))
        }
    }
}

/// The values of arguments.
pub(crate) fn eval_all(
    alloc: Global,
    globals: &[GlobalDef],
    temps: &[Value],
    arguments: &[TExpr],
) -> Result<Result<Vec<Value>, Cause>, AllocError>
    requires { length globals.now < 2 ^ 30 }
    ensures { IfOk result (λ r. result_map (λ v. v.items) r ≡ eval_all globals.now temps.now arguments.now) }
{
    let mut values = Vec::new(alloc);
    for argument in arguments {
        match eval(globals, temps, argument) {
            Ok(value) => values.push(value)?,
            Err(cause) => return Ok(Err(cause)),
        }
    }
    Ok(Ok(values))
}

fn same(a: Value, b: Value) -> bool
    ensures { result ≡ same_value a b }
{
    match (a, b) {
        (Value::Undef, Value::Undef) => true,
        (Value::Int(a), Value::Int(b)) => a == b,
        (Value::Ptr(a, p), Value::Ptr(b, q)) => a == b && p == q,
        _ => false,
    }
}

/// A value of a pointer test has to be no undef.
fn defined(value: Value) -> Result<(), Cause>
    ensures { result ≡ on_defined value (Ok tt) }
{
    match value {
        Value::Undef => Err(Cause::Undef),
        Value::Int(_) => Ok(()),
        Value::Ptr(_, _) => Ok(()),
    }
}

/// An integer of a pointer test has to be 0, and a pointer has to have a live cell.
fn tested(memory: &Memory, value: Value) -> Result<(), Cause>
    ensures { result ≡ on_pointer memory.now value (Ok tt) }
{
    match value {
        Value::Undef => Err(Cause::Undef),
        Value::Int(0) => Ok(()),
        Value::Int(_) => Err(Cause::Pointer),
        Value::Ptr(block, offset) => match memory.cell(block, offset) {
            Some(_) => Ok(()),
            None => Err(Cause::Pointer),
        },
    }
}

fn pointer_test(memory: &Memory, flag: bool, a: Value, b: Value) -> Result<bool, Cause>
    ensures { result ≡ pointer_test memory.now flag a b }
{
    defined(a)?;
    defined(b)?;
    tested(memory, a)?;
    tested(memory, b)?;
    if flag {
        Ok(same(a, b))
    } else {
        Ok(!same(a, b))
    }
}

/// A condition.
pub(crate) fn test(
    globals: &[GlobalDef],
    temps: &[Value],
    memory: &Memory,
    condition: &Cond,
) -> Result<bool, Cause>
    requires { length globals.now < 2 ^ 30 }
    ensures { result ≡ test globals.now temps.now memory.now condition.now }
{
    match condition {
        Cond::Int(_, e) => {
            let value = eval(globals, temps, e)?;
            let a = integer(value)?;
            Ok(a != 0)
        }
        Cond::Same(left, right, flag) => {
            let left = eval(globals, temps, left)?;
            let right = eval(globals, temps, right)?;
            pointer_test(memory, *flag, left, right)
        }
    }
}

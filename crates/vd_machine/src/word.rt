//! Operations on words.
ghost use Rattle.std.specs.Prelude.{◌≡◌, ◌<◌, nat_lt, true, pos, negsuc, ◌+ℤ◌, ◌-ℤ◌, ◌*ℤ◌, neg_ℤ, int_div, int_rem, ◌≤ℤ◌};
ghost use Rattle.vd_mem.specs.Word.{wrapped, is_signed};
ghost use Rattle.vd_machine.specs.Arithmetic.{number, arithmetic, truth, divides, divided, shifted_left, shifted_right, unary, binary};

use crate::answer::Cause;
use vd_clight::{BinOp, Kind, UnOp};
use vd_mem::Value;

/// The number of a word.
pub(crate) fn number(kind: Kind, word: u32) -> i64
    ensures value { result ≡ number kind word }
    ensures low { negsuc 2147483647 ≤ℤ result }
    ensures high { result ≤ℤ pos 4294967295 }
{
    match kind {
        Kind::Signed => {
            if word < 2147483648 {
                i64::from(word)
            } else {
                i64::from(word) - 4294967296
            }
        }
        Kind::Unsigned => i64::from(word),
    }
}

fn is_signed(z: i64) -> bool
    ensures { result ≡ is_signed z }
{
    -2147483648 <= z && z <= 2147483647
}

fn word(z: i64) -> u32
    requires low { negsuc 2147483647 ≤ℤ z }
    requires high { z ≤ℤ pos 4294967295 }
    ensures { result ≡ wrapped z }
{
    if z < 0 {
        (z + 4294967296) as u32
    } else {
        z as u32
    }
}

/// The result of a signed operation.
fn ranged(z: i64) -> Result<Value, Cause>
    ensures { result ≡ arithmetic Kind.Signed z }
{
    if is_signed(z) {
        Ok(Value::Int(word(z)))
    } else {
        Err(Cause::Overflow)
    }
}

fn truth(holds: bool) -> Result<Value, Cause>
    ensures { result ≡ truth holds }
{
    if holds {
        Ok(Value::Int(1))
    } else {
        Ok(Value::Int(0))
    }
}

fn add(kind: Kind, a: u32, b: u32) -> Result<Value, Cause>
    ensures { result ≡ binary BinOp.Add kind a b }
{
    match kind {
        Kind::Signed => ranged(number(Kind::Signed, a) + number(Kind::Signed, b)),
        Kind::Unsigned => Ok(Value::Int(a.wrapping_add(b))),
    }
}

fn subtract(kind: Kind, a: u32, b: u32) -> Result<Value, Cause>
    ensures { result ≡ binary BinOp.Sub kind a b }
{
    match kind {
        Kind::Signed => ranged(number(Kind::Signed, a) - number(Kind::Signed, b)),
        Kind::Unsigned => Ok(Value::Int(a.wrapping_sub(b))),
    }
}

fn signed(word: u32) -> i64
    ensures value { result ≡ number Kind.Signed word }
    ensures low { negsuc 2147483647 ≤ℤ result }
    ensures high { result ≤ℤ pos 2147483647 }
{
    if word < 2147483648 {
        i64::from(word)
    } else {
        i64::from(word) - 4294967296
    }
}

fn multiply(kind: Kind, a: u32, b: u32) -> Result<Value, Cause>
    ensures { result ≡ binary BinOp.Mul kind a b }
{
    match kind {
        Kind::Signed => {
            let a = signed(a);
            let b = signed(b);
            ranged(a * b)
        }
        Kind::Unsigned => Ok(Value::Int(a.wrapping_mul(b))),
    }
}

fn divides(kind: Kind, a: u32, b: u32) -> bool
    ensures { result ≡ divides kind a b }
{
    match kind {
        Kind::Signed => b != 0 && !(a == 2147483648 && b == 4294967295),
        Kind::Unsigned => b != 0,
    }
}

fn divide(kind: Kind, a: u32, b: u32) -> Result<Value, Cause>
    ensures { result ≡ binary BinOp.Div kind a b }
{
    if !divides(kind, a, b) {
        return Err(Cause::Divide);
    }
    quotient(kind, a, b)
}

fn signed_quotient(a: u32, b: u32) -> i64
    requires { divides Kind.Signed a b ≡ true }
    ensures { result ≡ int_div (number Kind.Signed a) (number Kind.Signed b) }
{
    signed(a) / signed(b)
}

fn signed_remainder(a: u32, b: u32) -> i64
    requires { divides Kind.Signed a b ≡ true }
    ensures { result ≡ int_rem (number Kind.Signed a) (number Kind.Signed b) }
{
    signed(a) % signed(b)
}

fn quotient(kind: Kind, a: u32, b: u32) -> Result<Value, Cause>
    requires { divides kind a b ≡ true }
    ensures { result ≡ arithmetic kind (int_div (number kind a) (number kind b)) }
{
    match kind {
        Kind::Signed => ranged(signed_quotient(a, b)),
        Kind::Unsigned => Ok(Value::Int(a / b)),
    }
}

fn remainder_of(kind: Kind, a: u32, b: u32) -> Result<Value, Cause>
    requires { divides kind a b ≡ true }
    ensures { result ≡ arithmetic kind (int_rem (number kind a) (number kind b)) }
{
    match kind {
        Kind::Signed => ranged(signed_remainder(a, b)),
        Kind::Unsigned => Ok(Value::Int(a % b)),
    }
}

fn remainder(kind: Kind, a: u32, b: u32) -> Result<Value, Cause>
    ensures { result ≡ binary BinOp.Rem kind a b }
{
    if !divides(kind, a, b) {
        return Err(Cause::Divide);
    }
    remainder_of(kind, a, b)
}

fn shift_left(a: u32, b: u32) -> Result<Value, Cause>
    ensures { result ≡ shifted_left (nat_lt b 32) a b }
{
    if b < 32 {
        Ok(Value::Int(a << b))
    } else {
        Err(Cause::Shift)
    }
}

fn shift_right(a: u32, b: u32) -> Result<Value, Cause>
    ensures { result ≡ shifted_right (nat_lt b 32) a b }
{
    if b < 32 {
        Ok(Value::Int(a >> b))
    } else {
        Err(Cause::Shift)
    }
}

fn negate(kind: Kind, a: u32) -> Result<Value, Cause>
    ensures { result ≡ unary UnOp.Minus kind a }
{
    match kind {
        Kind::Signed => ranged(-signed(a)),
        Kind::Unsigned => Ok(Value::Int(0u32.wrapping_sub(a))),
    }
}

pub(crate) fn unary(op: UnOp, kind: Kind, a: u32) -> Result<Value, Cause>
    ensures { result ≡ unary op kind a }
{
    match op {
        UnOp::Minus => negate(kind, a),
        UnOp::Not => truth(a == 0),
        UnOp::Invert => Ok(Value::Int(4294967295 - a)),
    }
}

pub(crate) fn binary(op: BinOp, kind: Kind, a: u32, b: u32) -> Result<Value, Cause>
    ensures { result ≡ binary op kind a b }
{
    match op {
        BinOp::Add => add(kind, a, b),
        BinOp::Sub => subtract(kind, a, b),
        BinOp::Mul => multiply(kind, a, b),
        BinOp::Div => divide(kind, a, b),
        BinOp::Rem => remainder(kind, a, b),
        BinOp::And => Ok(Value::Int(a & b)),
        BinOp::Or => Ok(Value::Int(a | b)),
        BinOp::Xor => Ok(Value::Int(a ^ b)),
        BinOp::Shl => shift_left(a, b),
        BinOp::Shr => shift_right(a, b),
        BinOp::Eq => truth(a == b),
        BinOp::Ne => truth(a != b),
        BinOp::Lt => truth(number(kind, a) < number(kind, b)),
        BinOp::Le => truth(number(kind, a) <= number(kind, b)),
        BinOp::Gt => truth(number(kind, b) < number(kind, a)),
        BinOp::Ge => truth(number(kind, b) <= number(kind, a)),
    }
}

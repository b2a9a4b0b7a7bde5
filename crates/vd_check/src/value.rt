//! Values of expressions.

ghost use Rattle.std.specs.Prelude.{◌≡◌, ◌+◌, pos, ◌+ℤ◌, ◌-ℤ◌, Some, option_map, slice_get};
ghost use Rattle.vd_check.specs.Value.{value, wrapped, is_signed, local_value};
ghost use Rattle.vd_check.specs.Evaluated.{evaluated, operated, evaluated_binary};

use vd_clight::{BinOp, Kind, TExpr};

/// The n of a value vi(n), and whether all that it owes is proved.
#[derive(Clone, Copy)]
pub(crate) struct Evaluated {
    pub(crate) number: u32,
    pub(crate) proved: bool,
}

fn is_signed(z: i64) -> bool
    ensures { result ≡ is_signed z }
{
    -2147483648 <= z && z <= 2147483647
}

fn sum(a: Evaluated, b: Evaluated) -> Evaluated
    ensures { result ≡ operated a b (pos a.number +ℤ pos b.number) }
{
    let left = i64::from(a.number);
    let right = i64::from(b.number);
    let signed = is_signed(left) && is_signed(right) && is_signed(left + right);
    Evaluated {
        number: a.number.wrapping_add(b.number),
        proved: a.proved && b.proved && signed,
    }
}

fn difference(a: Evaluated, b: Evaluated) -> Evaluated
    ensures { result ≡ operated a b (pos a.number -ℤ pos b.number) }
{
    let left = i64::from(a.number);
    let right = i64::from(b.number);
    let signed = is_signed(left) && is_signed(right) && is_signed(left - right);
    Evaluated {
        number: a.number.wrapping_sub(b.number),
        proved: a.proved && b.proved && signed,
    }
}

fn operate(op: BinOp, kind: Kind, a: Evaluated, b: Evaluated) -> Option<Evaluated>
    ensures { result ≡ evaluated_binary op kind (Some a) (Some b) }
{
    match (op, kind) {
        (BinOp::Add, Kind::Signed) => Some(sum(a, b)),
        (BinOp::Sub, Kind::Signed) => Some(difference(a, b)),
        _ => None,
    }
}

fn local(locals: &[Option<u32>], number: u32) -> Option<Evaluated>
    ensures { result ≡ option_map evaluated (local_value (slice_get locals.now number)) }
{
    match locals.get(number as usize) {
        Some(Some(number)) => Some(Evaluated {
            number: *number,
            proved: true,
        }),
        Some(None) | None => None,
    }
}

/// The value of an expression, where the temporaries in it have values.
#[tactic(auto, using(crate::proofs::Values::evaluated_operands), unfolding(crate::specs::Value::value))]
pub(crate) fn evaluate(locals: &[Option<u32>], e: &TExpr) -> Option<Evaluated>
    ensures { result ≡ option_map evaluated (value locals.now e.now) }
{
    match e {
        TExpr::Const(number) => Some(Evaluated {
            number: *number,
            proved: true,
        }),
        TExpr::Temp(number) => local(locals, *number),
        TExpr::Binary(op, kind, left, right) => {
            let left = evaluate(locals, left.get())?;
            let right = evaluate(locals, right.get())?;
            operate(*op, *kind, left, right)
        }
        TExpr::Addr(_) => None,
        TExpr::Unary(_, _, _) => None,
    }
}

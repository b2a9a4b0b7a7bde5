//! Typed functions of the form.

ghost use Rattle.std.specs.Prelude.{◌≡◌, ℕ};
ghost use Rattle.vd_form.specs.Simple as simple;

use vd_clight::{BinOp, Kind, TExpr, TStmt, TypedFn};

/// An expression of numbers, temporaries of which there are so many, and signed sums and differences.
#[tactic(auto, unfolding(crate::specs::Simple::is_simple))]
fn is_simple(temps: usize, e: &TExpr) -> bool
    ensures { result ≡ simple.is_simple temps e.now }
{
    match e {
        TExpr::Const(_) => true,
        TExpr::Temp(x) => (*x as usize) < temps,
        TExpr::Binary(BinOp::Add, Kind::Signed, a, b)
        | TExpr::Binary(BinOp::Sub, Kind::Signed, a, b) => {
            is_simple(temps, a.get()) && is_simple(temps, b.get())
        }
        _ => false,
    }
}

fn is_simple_statement(temps: usize, s: &TStmt) -> bool
    ensures { result ≡ simple.is_simple_statement temps s.now }
{
    match s {
        TStmt::Set(x, e) => (*x as usize) < temps && is_simple(temps, e),
        TStmt::Return(Some(e)) => is_simple(temps, e),
        _ => false,
    }
}

fn are_simple(temps: usize, body: &[TStmt]) -> bool
    ensures { result ≡ simple.are_simple temps body.now }
{
    for s in body {
        if !is_simple_statement(temps, s) {
            return false;
        }
    }
    true
}

/// A function without parameters whose statements set temporaries or return values.
pub(crate) fn is_simple_function(f: &TypedFn) -> bool
    ensures { result ≡ simple.is_simple_function f.now }
{
    f.params == 0 && are_simple(f.temps.len(), f.body.as_slice())
}

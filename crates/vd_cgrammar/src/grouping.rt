//! Operators by how tightly they bind.

ghost use Rattle.std.specs.Prelude.{◌≡◌, ◌≤◌, length, IfOk};
ghost use Rattle.vd_cgrammar.specs.Syntax as syntax;
ghost use Rattle.vd_cgrammar.specs.Levels.{Climbs};

use crate::kind::Kind;
use std::alloc::{AllocError, Global};
use vd_base::{Boxed, List, hold};
use vd_clight::{BinOp, Expr, ExprNode};

fn binary_of(kind: Kind) -> BinOp
    ensures { result ≡ syntax.binary_of kind }
{
    match kind {
        Kind::Or => BinOp::Or,
        Kind::Xor => BinOp::Xor,
        Kind::And => BinOp::And,
        Kind::Equal => BinOp::Eq,
        Kind::NotEqual => BinOp::Ne,
        Kind::Less => BinOp::Lt,
        Kind::LessEqual => BinOp::Le,
        Kind::Greater => BinOp::Gt,
        Kind::GreaterEqual => BinOp::Ge,
        Kind::ShiftLeft => BinOp::Shl,
        Kind::ShiftRight => BinOp::Shr,
        Kind::Plus => BinOp::Add,
        Kind::Minus => BinOp::Sub,
        Kind::Star => BinOp::Mul,
        Kind::Slash => BinOp::Div,
        _ => BinOp::Rem,
    }
}

fn level_of(kind: Kind) -> u8
    ensures level { result ≡ syntax.level_of kind }
    ensures small { result ≤ 7 }
{
    match kind {
        Kind::Or => 0,
        Kind::Xor => 1,
        Kind::And => 2,
        Kind::Equal | Kind::NotEqual => 3,
        Kind::Less | Kind::LessEqual | Kind::Greater | Kind::GreaterEqual => 4,
        Kind::ShiftLeft | Kind::ShiftRight => 5,
        Kind::Plus | Kind::Minus => 6,
        _ => 7,
    }
}

fn operated(alloc: Global, kind: Kind, left: Expr, right: Expr) -> Result<Expr, AllocError>
    ensures { IfOk result (λ e. e ≡ syntax.operated kind left right) }
{
    let place = left.place;
    let right = hold(right);
    let left = Boxed::new(alloc, left)?;
    let right = Boxed::new(alloc, right.out())?;
    Ok(Expr {
        place,
        node: ExprNode::Binary(binary_of(kind), left, right),
    })
}

/// The operators from a level on, taken off the front.
fn climb(
    alloc: Global,
    first: Expr,
    others: &mut List<(Kind, Expr)>,
    least: u8,
) -> Result<Expr, AllocError>
    ensures climbs { IfOk result (λ e. Climbs least first others.old e others.new) }
    ensures no_longer { length others.new ≤ length others.old }
{
    let mut found = hold(first);
    'rest: loop {
        let level = match others.get(0) {
            Some(next) => level_of(next.0),
            None => return Ok(found.out()),
        };
        if level < least {
            return Ok(found.out());
        }
        let (kind, operand) = others.remove(0);
        let right = climb(alloc, operand, others, level + 1)?;
        found = hold(operated(alloc, kind, found.out(), right)?);
    }
}

/// An operand, and operators with their right operands, as one expression.
pub fn grouped(
    alloc: Global,
    first: Expr,
    mut others: List<(Kind, Expr)>,
) -> Result<Expr, AllocError>
    ensures { IfOk result (λ e. e ≡ syntax.grouped first others) }
{
    climb(alloc, first, &mut others, 0)
}

//! Types of expressions.

ghost use Rattle.std.specs.Prelude.{◌≡◌, IfOk};
ghost use Rattle.vd_judge.specs.CheckedExpression.{judged};

use crate::checked::{Checked, fine};
use crate::found::Found;
use crate::operation::{judge_binary, judge_cast, judge_unary};
use crate::place::{
    aligned, judge_address, judge_arrow, judge_deref, judge_field, judge_index, number, sized,
    variable,
};
use crate::scope::Scope;
use std::alloc::{AllocError, Global};
use vd_clight::{Expr, ExprNode};

/// What an expression denotes, or its first fault.
#[tactic(auto, unfolding(crate::specs::CheckedExpression::judged))]
pub(crate) fn judge(
    alloc: Global,
    scope: &Scope<'_, '_>,
    e: &Expr,
) -> Result<Checked<Found>, AllocError>
    ensures { IfOk result (λ f. f ≡ judged scope.now e.now) }
{
    let place = e.place;
    match &e.node {
        ExprNode::Num(n, unsigned) => Ok(fine(number(place, *n, *unsigned))),
        ExprNode::Ident(name) => variable(alloc, scope, place, name),
        ExprNode::Unary(op, a) => {
            let a = judge(alloc, scope, a.get())?;
            judge_unary(alloc, *op, place, a)
        }
        ExprNode::Binary(op, a, b) => {
            let a = judge(alloc, scope, a.get())?;
            let b = judge(alloc, scope, b.get())?;
            judge_binary(alloc, *op, place, a, b)
        }
        ExprNode::Cast(t, a) => {
            let a = judge(alloc, scope, a.get())?;
            judge_cast(alloc, place, t, a)
        }
        ExprNode::SizeOf(t) => sized(alloc, scope.structs(), place, t),
        ExprNode::AlignOf(t) => aligned(alloc, scope.structs(), place, t),
        ExprNode::Field(a, f) => {
            let a = judge(alloc, scope, a.get())?;
            judge_field(alloc, scope.structs(), place, a, f)
        }
        ExprNode::Arrow(a, f) => {
            let a = judge(alloc, scope, a.get())?;
            judge_arrow(alloc, scope.structs(), place, a, f)
        }
        ExprNode::Index(a, i) => {
            let a = judge(alloc, scope, a.get())?;
            let i = judge(alloc, scope, i.get())?;
            judge_index(alloc, scope.structs(), place, a, i)
        }
        ExprNode::Deref(a) => {
            let a = judge(alloc, scope, a.get())?;
            judge_deref(alloc, place, a)
        }
        ExprNode::AddressOf(a) => {
            let a = judge(alloc, scope, a.get())?;
            judge_address(alloc, place, a)
        }
    }
}

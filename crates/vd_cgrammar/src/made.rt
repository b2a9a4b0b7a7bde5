//! Expressions and statements that are made of the parts of a rule.

ghost use Rattle.std.specs.Prelude.{◌≡◌, IfOk};
ghost use Rattle.vd_cgrammar.specs.Syntax as syntax;

use crate::grouping::grouped;
use crate::kind::Kind;
use crate::parts::{Enclosed, Named, Postfix, Source, Tail};
use std::alloc::{AllocError, Global};
use vd_base::{Boxed, CType, List, Name, hold};
use vd_clight::{Expr, ExprNode, Stmt, StmtNode, UnOp};

/// A prefix operator with its operand.
pub fn prefixed(alloc: Global, kind: Kind, operand: Expr) -> Result<ExprNode, AllocError>
    ensures { IfOk result (λ node. node ≡ syntax.prefixed kind operand) }
{
    let operand = Boxed::new(alloc, operand)?;
    match kind {
        Kind::Minus => Ok(ExprNode::Unary(UnOp::Minus, operand)),
        Kind::Not => Ok(ExprNode::Unary(UnOp::Not, operand)),
        Kind::Tilde => Ok(ExprNode::Unary(UnOp::Invert, operand)),
        Kind::Star => Ok(ExprNode::Deref(operand)),
        _ => Ok(ExprNode::AddressOf(operand)),
    }
}

/// `sizeof` or `alignof` of a type.
pub fn measured(kind: Kind, typ: CType) -> ExprNode
    ensures { result ≡ syntax.measured kind typ }
{
    match kind {
        Kind::SizeOf => ExprNode::SizeOf(typ),
        _ => ExprNode::AlignOf(typ),
    }
}

fn member_of(kind: Kind, inner: Boxed<Expr>, name: Name) -> ExprNode
    ensures { result ≡ syntax.member_of kind inner name }
{
    match kind {
        Kind::Arrow => ExprNode::Arrow(inner, name),
        _ => ExprNode::Field(inner, name),
    }
}

fn with_postfix(
    alloc: Global,
    place: u32,
    node: ExprNode,
    postfix: Postfix,
) -> Result<ExprNode, AllocError>
    ensures { IfOk result (λ it. it ≡ syntax.with_postfix place node postfix) }
{
    let postfix = hold(postfix);
    let inner = Boxed::new(alloc, Expr { place, node })?;
    match postfix.out() {
        Postfix::Member(kind, name) => Ok(member_of(kind, inner, name)),
        Postfix::Index(index) => Ok(ExprNode::Index(inner, Boxed::new(alloc, index)?)),
    }
}

/// The postfixes behind an operand that begins at a place.
pub fn behind(
    alloc: Global,
    place: u32,
    node: ExprNode,
    postfixes: List<Postfix>,
) -> Result<Expr, AllocError>
    ensures { IfOk result (λ it. it ≡ syntax.behind place node postfixes) }
{
    let mut node = node;
    'postfixes: for postfix in postfixes.into_vec() {
        node = with_postfix(alloc, place, node, postfix)?;
    }
    Ok(Expr { place, node })
}

/// What stands in brackets from a place on.
pub fn in_brackets(alloc: Global, place: u32, inner: Enclosed) -> Result<Expr, AllocError>
    ensures { IfOk result (λ it. it ≡ syntax.in_brackets place inner) }
{
    match inner {
        Enclosed::Cast(typ, operand) => {
            let typ = hold(typ);
            let operand = Boxed::new(alloc, operand)?;
            let node = ExprNode::Cast(typ.out(), operand);
            Ok(Expr { place, node })
        }
        Enclosed::Brackets(inner, postfixes) => behind(alloc, place, inner.node, postfixes),
    }
}

/// An expression that begins with a name.
fn from_name(
    alloc: Global,
    place: u32,
    name: Name,
    postfixes: List<Postfix>,
    operations: List<(Kind, Expr)>,
) -> Result<Expr, AllocError>
    ensures { IfOk result (λ it. it ≡ syntax.from_name place name postfixes operations) }
{
    let first = behind(alloc, place, ExprNode::Ident(name), postfixes)?;
    grouped(alloc, first, operations)
}

/// What is assigned where a name stands first.
pub fn source_of(alloc: Global, place: u32, name: Name, rest: Tail) -> Result<Source, AllocError>
    ensures { IfOk result (λ it. it ≡ syntax.source_of place name rest) }
{
    match rest {
        Tail::Called(arguments) => Ok(Source::Call(name, arguments)),
        Tail::Operated(postfixes, operations) => {
            let value = from_name(alloc, place, name, postfixes, operations)?;
            Ok(Source::Value(value))
        }
    }
}

/// What a statement assigns to a left side.
pub fn assigned(left: Expr, source: Source) -> Stmt
    ensures { result ≡ syntax.assigned left source }
{
    let place = left.place;
    match source {
        Source::Value(value) => Stmt {
            place,
            node: StmtNode::Assign(left, value),
        },
        Source::Call(name, arguments) => Stmt {
            place,
            node: StmtNode::Call(Some(left), name, arguments),
        },
    }
}

/// A statement that begins with a name.
pub fn statement_of(alloc: Global, place: u32, name: Name, rest: Named) -> Result<Stmt, AllocError>
    ensures { IfOk result (λ it. it ≡ syntax.statement_of place name rest) }
{
    match rest {
        Named::Called(arguments) => Ok(Stmt {
            place,
            node: StmtNode::Call(None, name, arguments),
        }),
        Named::Assigned(postfixes, operations, source) => {
            let source = hold(source);
            let left = from_name(alloc, place, name, postfixes, operations)?;
            Ok(assigned(left, source.out()))
        }
    }
}

/// `break` or `continue`.
pub fn jump_of(kind: Kind) -> StmtNode
    ensures { result ≡ syntax.jump_of kind }
{
    match kind {
        Kind::Break => StmtNode::Break,
        _ => StmtNode::Continue,
    }
}

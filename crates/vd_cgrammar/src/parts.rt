//! Syntax that is part of an expression, a statement or a section.

use crate::kind::Kind;
use vd_base::{CType, Field, List, Name};
use vd_clight::{Expr, Init};

/// What stands behind an operand.
#[derive(Drop)]
pub enum Postfix {
    /// A field's name behind `.` or `->`.
    Member(Kind, Name),
    Index(Expr),
}

/// What stands behind the opening bracket of an expression.
#[derive(Drop)]
pub enum Enclosed {
    /// A type, and the operand of the cast.
    Cast(CType, Expr),
    /// An expression, and what stands behind the closing bracket.
    Brackets(Expr, List<Postfix>),
}

/// The call of a function whose name is reserved.
#[derive(Drop)]
pub struct Invocation {
    pub place: u32,
    pub name: Name,
    pub arguments: List<Expr>,
}

/// What a statement assigns.
#[derive(Drop)]
pub enum Source {
    Value(Expr),
    /// The result of a function with arguments.
    Call(Name, List<Expr>),
}

/// What stands behind a name at the right of `=`.
#[derive(Drop)]
pub enum Tail {
    /// The arguments of a call.
    Called(List<Expr>),
    /// The rest of an expression.
    Operated(List<Postfix>, List<(Kind, Expr)>),
}

/// What stands behind a name at the begin of a statement.
#[derive(Drop)]
pub enum Named {
    /// The arguments of a call.
    Called(List<Expr>),
    /// The rest of the left side, and what is assigned to it.
    Assigned(List<Postfix>, List<(Kind, Expr)>, Source),
}

/// What a `struct` or a `global` section declares.
#[derive(Drop)]
pub enum Decl {
    Struct(Name, List<Field>),
    Global(Field, List<Init>),
}

//! Functions as they are written.

use vd_base::{Boxed, CType, Field, List, Name};

/// A prefix operator.
#[derive(Clone, Copy, PartialEq, Eq)]
pub enum UnOp {
    Minus,
    Not,
    Invert,
}

/// An operator between two operands.
#[derive(Clone, Copy, PartialEq, Eq)]
pub enum BinOp {
    Add,
    Sub,
    Mul,
    Div,
    Rem,
    And,
    Or,
    Xor,
    Shl,
    Shr,
    Eq,
    Ne,
    Lt,
    Le,
    Gt,
    Ge,
}

/// An expression, and the place of its first token: a byte offset in its section.
#[cycle(expr)]
#[derive(Drop)]
pub struct Expr {
    pub place: u32,
    pub node: ExprNode,
}

/// What an expression is.
#[cycle(expr)]
#[derive(Drop)]
pub enum ExprNode {
    /// The flag is the suffix `u`.
    Num(u32, bool),
    Ident(Name),
    Unary(UnOp, Boxed<Expr>),
    Binary(BinOp, Boxed<Expr>, Boxed<Expr>),
    Cast(CType, Boxed<Expr>),
    SizeOf(CType),
    AlignOf(CType),
    Field(Boxed<Expr>, Name),
    Arrow(Boxed<Expr>, Name),
    Index(Boxed<Expr>, Boxed<Expr>),
    Deref(Boxed<Expr>),
    AddressOf(Boxed<Expr>),
}

/// A statement, and the place of its first token: a byte offset in its section.
#[cycle(stmt)]
#[derive(Drop)]
pub struct Stmt {
    pub place: u32,
    pub node: StmtNode,
}

/// What a statement is.
#[cycle(stmt)]
#[derive(Drop)]
pub enum StmtNode {
    Skip,
    Assign(Expr, Expr),
    Call(Option<Expr>, Name, List<Expr>),
    If(Expr, List<Stmt>, List<Stmt>),
    While(Expr, List<Stmt>),
    Break,
    Continue,
    Return(Option<Expr>),
}

/// A function: its result's type, its name, parameters, temporaries and statements.
#[derive(Drop)]
pub struct FnText {
    pub ret: CType,
    pub name: Name,
    pub params: List<Field>,
    pub temps: List<Field>,
    pub body: List<Stmt>,
}

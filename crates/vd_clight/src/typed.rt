//! Functions whose types agree, in normal form.

use crate::syntax::{BinOp, UnOp};
use vd_base::{Boxed, CType, List, Name};

/// How an operation reads its 32-bit operands.
#[derive(Clone, Copy, PartialEq, Eq)]
pub enum Kind {
    Signed,
    Unsigned,
}

/// Where an address begins.
#[derive(Drop)]
pub enum Root {
    /// The pointer that is the value of the parameter or temporary of this number.
    Temp(u32),
    /// The first cell of a global, and the cells of its type.
    Global(Name, u32),
}

/// An expression. Parameters and temporaries are numbered from 0, the parameters first.
#[cycle(texpr)]
#[derive(Drop)]
pub enum TExpr {
    Const(u32),
    Temp(u32),
    Addr(Lval),
    Unary(UnOp, Kind, Boxed<TExpr>),
    Binary(BinOp, Kind, Boxed<TExpr>, Boxed<TExpr>),
}

/// A place in memory: a root, and how far from it.
#[cycle(texpr)]
#[derive(Drop)]
pub struct Lval {
    pub root: Root,
    pub path: List<Part>,
}

/// A step from a root, in cells.
#[cycle(texpr)]
#[derive(Drop)]
pub enum Part {
    Offset(u32),
    Index(Kind, TExpr),
}

/// A condition: an integer compared with 0, or a pointer test, whose flag is false for `!=`.
#[derive(Drop)]
pub enum Cond {
    Int(Kind, TExpr),
    Same(TExpr, TExpr, bool),
}

/// An operation on a lock.
#[derive(Clone, Copy, PartialEq, Eq)]
pub enum LockOp {
    Make,
    Acquire,
    Release,
    Free,
}

/// A statement. `while (e) S` is `Loop([If(e, S, [Break])])`.
#[cycle(tstmt)]
#[derive(Drop)]
pub enum TStmt {
    Skip,
    Set(u32, TExpr),
    Load(u32, Lval),
    Store(Lval, TExpr),
    Call(Option<u32>, Name, List<TExpr>),
    /// The temporary, and how many cells.
    Malloc(u32, u32),
    Free(TExpr),
    Lock(LockOp, TExpr),
    Spawn(Name, TExpr),
    If(Cond, List<TStmt>, List<TStmt>),
    Loop(List<TStmt>),
    Break,
    Continue,
    Return(Option<TExpr>),
}

/// A function. `params` is how many of `temps` are parameters; they come first.
#[derive(Drop)]
pub struct TypedFn {
    pub name: Name,
    pub ret: CType,
    pub params: u32,
    pub temps: List<Name>,
    pub body: List<TStmt>,
}

//! The syntax of C sections: as it is written, typed, and as a whole program. It follows CompCert's Clight in its normal
//! form: expressions read no memory and have no effect, so a load and a call are statements of their own.
#![tactic(auto)]

mod expression_text;
mod function_text;
mod program;
mod syntax;
mod typed;

pub use function_text::print;
pub use program::{CScope, GlobalDef, Init, Program, Signature};
pub use syntax::{BinOp, Expr, ExprNode, FnText, Stmt, StmtNode, UnOp};
pub use typed::{Cond, Kind, LockOp, Lval, Part, Root, TExpr, TStmt, TypedFn};

//! Types and normal forms of the parts of a function: expressions, places, operations, calls and statements. Each part is
//! judged by one pass that keeps its type and its first fault. Functions as a whole stand above, in `vd_ctyping`.
#![tactic(auto)]

mod builtin;
mod call;
mod checked;
mod expression;
mod fault;
mod found;
mod names;
mod operation;
mod place;
mod scope;
mod shape;
mod spawn;
mod statement;

pub use checked::Checked;
pub use fault::TypeFault;
pub use names::NameTable;
pub use scope::Scope;
pub use shape::{is_scalar, is_void};
pub use statement::type_block;

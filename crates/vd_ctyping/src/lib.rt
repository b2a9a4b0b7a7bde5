//! Typing of functions, and their normal form: names become numbers, fields become offsets, and each expression gets the
//! kind of its operation. Types are those of CompCert's Clight, and the normal form that of Verifiable C. What the parts of
//! a function are is judged below, in `vd_judge`.
#![tactic(auto)]

mod function;
mod index;
mod laws;

pub use function::{type_fn, type_in};
pub use index::ScopeIndex;
pub use laws::typing_laws;
pub use vd_judge::TypeFault;

//! Reads types, expressions, statements and declarations of C, and the sections of functions, structs and globals, by the
//! grammar of C sections.
#![tactic(auto)]

mod assignment;
mod call;
mod declaration;
mod expression;
mod function;
mod parameters;
mod statement;
mod types;

pub use declaration::{global_section, struct_section};
pub use function::fn_section;

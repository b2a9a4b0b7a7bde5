//! Reads the sections of a text that are written in C: functions, structs and globals. What a section is stands in
//! specs/Section, over the grammar of vd_cgrammar.
#![tactic(auto)]

mod decl;
mod header;
mod lex;
mod section;

pub use decl::parse_decl;
pub use section::parse_section;
pub use vd_cgrammar::Decl;
pub use vd_grammar::ParseFault;

//! Reads the sections of a text that are written in the logic: predicates, specifications, proof scripts and initial
//! assertions. What a section is stands in specs/Sections, over the grammar of vd_logic_grammar.
#![tactic(auto)]

mod kind;
mod parse;
mod read;
mod text;

pub use kind::SectionKind;
pub use parse::parse_logic;
pub use text::LogicText;
pub use vd_grammar::ParseFault;

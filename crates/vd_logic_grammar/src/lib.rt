//! The grammar of the sections that are written in the logic, as a table with its laws; and the tokens that its readers
//! are given.
#![tactic(auto)]

mod class;
mod depth;
mod front;
mod keywords;
mod kind;
mod language;
mod lex;
mod parts;
mod token;
mod words;

pub use class::has;
pub use front::{Front, named_front, plain_front};
pub use kind::{Class, Kind};
pub use language::Language;
pub use parts::AssertionText;
pub use token::{Token, Tokens, name_of};

//! The grammar of the sections that are written in C, as a table with its laws; the tokens that its readers are given; and
//! the syntax that its rules make. What is true of printed text stands here too: printing needs the grammar and no reader.
#![tactic(auto)]

mod depth;
mod grouping;
mod kind;
mod made;
mod parts;
mod printing;
mod token;
mod words;

pub use depth::{Depth, after};
pub use grouping::grouped;
pub use kind::{Class, Kind};
pub use made::{
    assigned, behind, in_brackets, jump_of, measured, prefixed, source_of, statement_of,
};
pub use parts::{Decl, Enclosed, Invocation, Named, Postfix, Source, Tail};
pub use printing::{
    function_laws, precedence_laws, print_laws, shallow_laws, statement_laws, vocabulary_laws,
};
pub use token::{Token, Tokens, name_of};
pub use words::{is_header_name, spells, token_in};

//! The tokens of C sections and of logic sections: words, numbers and signs, with spaces, line feeds and comments between them.
//!
//! Which words are keywords, how large a number may be and how long a name is the readers' matter.
#![tactic(auto)]

mod alphabet;
mod element;
mod number;
mod run;
mod scan;
mod token;

pub use alphabet::Alphabet;
pub use number::{has_suffix, number_of};
pub use scan::tokenize;
pub use token::{End, Token, TokenKind, Tokenized};

//! What the readers of all sections share: header lines, the line `end`, the place of a first token, and what a reader of
//! a section answers, over any grammar. What a word or a sign is, and how deeply tokens are nested, each language says.
#![tactic(auto)]

mod header;
mod line;
mod place;
mod word;

pub use header::{Header, named_header, plain_header};
pub use line::end_of;
pub use place::first_place;
pub use word::{name_in, spells, split_word};

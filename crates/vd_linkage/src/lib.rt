//! The language of linking: what texts are current, what they list, reach and declare, under which conditions the units of a link fit
//! together, and which program they make. It follows Verified Software Units: imports are matched with exports, and each name is declared
//! once. Beside the definitions stand the form of texts that linking takes today, and whether a section is read.
#![tactic(auto)]

mod form;
mod reading;

pub use form::is_plain;
pub use reading::{declaration_in, function_in, is_read};

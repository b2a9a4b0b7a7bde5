//! Printed functions read back: the section that is printed of a function is read as it. This stands on the printer and
//! on the reader, and nothing that a program needs stands on it.
#![tactic(auto)]

mod reprint;

pub use reprint::{print_section, reprint_laws};

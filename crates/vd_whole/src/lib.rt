//! Whether a program is whole: what a run may take for granted, after CompCert's linking of whole programs. All that it names is there
//! once and fits what it is named for.
#![tactic(auto)]

mod whole;

pub use whole::is_whole;

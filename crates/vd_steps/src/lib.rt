//! Typed code and proof scripts as plain data: what the definitions of rules speak of, and what the values of `vd_clight` and
//! `vd_logic` stand for. The definitions stand in `specs/`; the calls do nothing, and their clauses are laws.
#![tactic(auto)]

mod laws;

pub use laws::{code_laws, script_laws};

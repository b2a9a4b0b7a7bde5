//! Terms, assertions, specifications and proof scripts, after Verifiable C: an assertion has pure facts, values of
//! temporaries and a separating conjunction.
#![tactic(auto)]

mod assertion;
mod copy;
mod count;
mod step;
mod substitution;
mod term;

pub use assertion::{Assertion, Item, LScope, Label, PredDef, Prop, Rel, Spec};
pub use count::nodes;
pub use step::{Block, CertLine, Certificate, Forgotten, Occurrence, Step, StepNode};
pub use substitution::substitute;
pub use term::{Op, Sort, Term, copy_terms};

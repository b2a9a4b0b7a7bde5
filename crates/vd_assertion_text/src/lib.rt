//! Reads terms, facts, items and assertions of the logic, and the sections of predicates and specifications, by the
//! grammar of logic sections.
#![tactic(auto)]

mod arguments;
mod assertion;
mod binder;
mod expression;
mod fact;
mod item;
mod made;
mod numbering;
mod parameters;
mod sections;
mod types;
mod variables;

pub use arguments::{label, terms};
pub use expression::term;
pub use fact::prop;
pub use item::items;
pub use sections::{abstract_section, claim, pred_section, spec_section};

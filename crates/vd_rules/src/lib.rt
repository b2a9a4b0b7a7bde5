//! The rule table as definitions that compute: normal forms, obligations and certificates, values of expressions, the rule of
//! each step, the tree of a script, verdicts, and the laws. The definitions stand in `specs/`. What they use that is not
//! recursive is declared here, over terms of any kind, as in `vd_terms`.
#![tactic(auto)]

mod checked;
mod row;
mod state;
mod table;

pub use checked::Checked;
pub use row::{MonomialOf, RowOf};
pub use state::{GoalOf, NodeOf, OpenOf, OwedOf, PostOf, ValuedOf};
pub use table::number;

//! What the units of a link declare: which name is declared twice, and whether there is one function main.
#![tactic(auto)]

mod declared;
mod main_of;
mod owners;

pub use declared::declared_twice;
pub use main_of::has_one_main;

// Format items, and the texts that they make.
#![tactic(auto)]

pub(crate) mod field;
pub mod item;
pub mod laws;
pub mod put;

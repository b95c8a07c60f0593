// One task's stack, which takes all its memory when it is made.
#![tactic(auto)]

pub mod laws;
pub mod stack;
pub(crate) mod values;

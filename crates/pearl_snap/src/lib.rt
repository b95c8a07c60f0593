// Saved runs: the bytes of snapshots, both ways, and the rules that a state must keep so that a run can go on from it.
#![tactic(auto)]

pub mod cells;
pub mod core_rules;
pub mod fault;
pub mod frames;
pub mod laws;
mod parts;
pub mod plans;
pub mod reference_rule;
pub mod restore;
pub mod snapshot;
pub mod stack_rule;
pub mod state;
pub mod state_rule;
pub mod states;

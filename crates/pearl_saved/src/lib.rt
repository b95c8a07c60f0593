// Saved runs as records: what a state of a run must be so that the run can go on from it, what is recorded of a stack, and the
// stack of a record.
#![tactic(auto)]

pub mod laws;
pub mod saved;
pub mod stacks;

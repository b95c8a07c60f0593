// What holds of runs that end and go on, over any engine.
#![tactic(auto)]

pub mod laws;

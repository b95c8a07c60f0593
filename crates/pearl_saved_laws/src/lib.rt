// What holds of runs of valid objects that are saved, and of those that go on from what was saved.
#![tactic(auto)]

pub mod laws;

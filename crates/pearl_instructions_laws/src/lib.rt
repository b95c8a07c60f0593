// What holds over whole runs of any valid object, whoever made it.
#![tactic(auto)]

pub mod laws;

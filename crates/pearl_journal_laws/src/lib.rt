// Laws of a journal's lines: which entry each form of line makes, and which code a line has that makes none.
#![tactic(auto)]

pub mod arrivals;
pub mod journals;
pub mod lines;
pub mod steps;

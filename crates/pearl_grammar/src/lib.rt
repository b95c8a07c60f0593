// The grammar as data: productions, and what holds of each of them because it holds of the ways to join parts.
#![tactic(auto)]

pub mod laws;

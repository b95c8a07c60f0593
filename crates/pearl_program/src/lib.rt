// The resolved program of the whole language: what a source means once its names are numbers.
#![tactic(auto)]

pub mod expression;
pub mod laws;
pub mod literal;
pub mod prog;
pub mod program;
pub mod schedule;
pub mod statement;
pub mod table;

// The lines that are written: those of a transcript, and those that tell why nothing more was done.
#![tactic(auto)]

pub mod literal;
mod piece;
pub mod refusal;
pub mod transcript;

// How GET reads values from the bytes that wait at a terminal, and how literals are read.
#![tactic(auto)]

pub mod bits;
pub mod clock;
mod field;
pub mod gap;
mod item;
pub mod laws;
mod mark;
pub mod number;
pub mod progress;
pub mod scan;
pub mod span;

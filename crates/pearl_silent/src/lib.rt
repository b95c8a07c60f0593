//! Instructions that offer no action but a trap, carried out on a task's stack in memory: on cells and operands, jumps,
//! loops and the way back from a procedure.
//!
//! [`run::run_silent`] carries them out one after the other, up to the first one that may offer another action.
#![tactic(auto)]

mod advances;
mod cells;
pub mod elements;
mod flow;
mod indices;
pub mod known;
mod loops;
mod operators;
mod outcomes;
mod own;
mod returns;
pub mod run;
pub mod step;
pub mod stepped;
pub mod table;
pub mod top;

//! One task's execution on its stack in memory: its first frame, one instruction, all up to an action, and the stack
//! after its answer.
//!
//! [`frames::begin`] leaves the first frame, [`settle::settle`] carries out instructions until one offers an action, and
//! [`answers::answer`] goes on after what came of it. [`step::step`] carries out one instruction.
#![tactic(auto)]

pub mod answers;
mod calls;
mod devices;
pub mod frames;
mod offers;
mod own;
mod plans;
mod references;
pub mod settle;
pub mod step;
pub mod stepped;
mod table;
mod values;
mod variables;

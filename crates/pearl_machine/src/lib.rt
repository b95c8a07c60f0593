//! Executes objects of any number of tasks over the entries of a journal, and hands what happens to a sink, line by
//! line.
//!
//! [`Machine::load`] takes an object and all the memory that its run needs. [`Machine::begin`] comes first,
//! [`Machine::entry`] once for each entry, and [`Machine::close`] last.
#![tactic(auto)]

mod known;
pub mod laws;
mod lines;
mod machine;
mod part;
mod saved;
mod tables;

pub use machine::Machine;
pub use tables::setup;

//! Reads a journal from left to right, in pieces: its lines, and what each of them means over the tables of a run.
//!
//! [`lines::Lines`] takes the bytes as they come, and tells of each whole line what it means after all before.
#![tactic(auto)]

mod devices;
mod forms;
pub mod laws;
mod limits;
pub mod lines;
mod literals;
pub mod reading;
mod texts;
mod words;

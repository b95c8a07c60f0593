//! What a monitor of variables needs beside a machine: the marks of an entry, one by one, and the lines that tell what
//! the watched slots hold.
#![tactic(auto)]

pub mod fault;
pub mod laws;
mod line;
pub mod monitor;
mod same;
mod silent;
pub mod steps;
mod tell;
pub mod watch;
pub mod watched;

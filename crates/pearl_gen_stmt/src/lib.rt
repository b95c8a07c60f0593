// Which code stands for the statements of a program, and that it does what they mean, or comes to where there is no
// row. The definitions stand in specs/.
#![tactic(auto)]

mod get;
pub mod laws;
mod loops;
mod pending;
mod renewal;
mod schedule;
mod site;
pub mod statement;
mod transfer;

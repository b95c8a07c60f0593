// Which procedures call themselves, which numbers procedures get, and what tasks and procedures weigh.
#![tactic(auto)]

pub mod caller;
pub mod cycle;
pub mod laws;
pub mod numbering;
mod order;
mod ready;
pub mod weight;

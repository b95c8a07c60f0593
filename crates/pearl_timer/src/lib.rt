// Which series are kept of each task, and when one of those fires next.
#![tactic(auto)]

pub mod laws;
mod next;
mod places;
pub mod timer;
mod wheel;

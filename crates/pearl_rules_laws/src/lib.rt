// What the rules of tasks and of runs over a journal come to, in words of their own: what there is of it are laws.
#![tactic(auto)]

pub mod arrivals;
pub mod devices;
pub mod kept;
pub mod laws;
pub mod runs;
pub mod schedules;
pub mod tasks;

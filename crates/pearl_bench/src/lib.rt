//! The workload that `bench` runs: its source and its journal, and the line that sums up what the run wrote.
#![tactic(auto)]

mod counts;
mod texts;

pub use counts::summary;
pub use texts::{journal, source};

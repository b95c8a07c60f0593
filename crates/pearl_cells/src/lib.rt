// Cells that are written where they lie, and operators whose results are small in memory: on two numbers, and on two texts.
#![tactic(auto)]

pub mod numbers;
pub mod put;
pub mod texts;

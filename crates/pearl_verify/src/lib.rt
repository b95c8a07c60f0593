// The validator: which objects have code that can't go wrong.
#![tactic(auto)]

mod exact;
mod flow;
mod formats;
mod judge;
mod jumps;
mod kinds;
mod limits;
pub mod lookup;
mod named;
mod operands;
mod pushed;
mod routine;
pub mod rule;
mod running;
mod runs;
mod same;
mod table;
mod tree;
pub mod verify;

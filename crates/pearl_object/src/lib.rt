// The bytes of objects, both ways, and their listing.
#![tactic(auto)]

pub mod codes;
pub mod fault;
pub mod instructions;
pub mod kinds;
pub mod listing;
pub mod literals;
pub mod object;
pub mod operands;
pub mod routines;
mod spelling;
pub mod states;
pub mod table;
pub mod tables;
#[cfg(test)]
mod tests;
mod words;

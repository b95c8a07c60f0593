// Of the program that a module means, the tables that need no numbers of names.
#![tactic(auto)]

mod constant;
pub mod counts;
pub mod devices;
mod filling;
pub mod formats;
pub mod leaves;
pub mod presets;
pub mod values;
mod walk;

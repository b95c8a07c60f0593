// The scopes of a module and what its names mean: as which sorts they are declared, where they are seen, the default
// lengths, and the TYPEs with how variables of them are laid out.
#![tactic(auto)]

pub mod collect;
pub mod duration;
pub mod fields;
pub mod forms;
pub mod group;
pub mod kinds;
pub mod laws;
pub mod layout;
pub mod length;
pub mod meaning;
pub mod names;
pub mod scope;
pub mod sense;
pub mod senses;
pub mod slots;
pub mod sorted;
pub mod table;
pub mod types;

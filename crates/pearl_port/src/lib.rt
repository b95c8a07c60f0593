//! What came in and wasn't taken yet: the values of an input, first in first out, and the bytes of a terminal; and a
//! type for the values of each family of kinds.
#![tactic(auto)]

pub mod carried;
pub mod input;
pub mod port;
pub mod terminal;
pub mod values;

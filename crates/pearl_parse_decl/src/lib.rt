// Names, types, formats and declarations, read from the tokens of a source: all that has no statement in it.
#![tactic(auto)]

pub mod declaration;
pub mod expression;
pub mod flag;
pub mod format;
pub mod head;
pub mod item;
pub mod list;
pub mod literal;
pub mod name;
pub mod specification;
pub mod typing;

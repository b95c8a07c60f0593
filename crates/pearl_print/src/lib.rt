// The canonical text of a tree.
#![tactic(auto)]

mod declaration;
mod expression;
mod format;
pub mod laws;
mod lists;
mod literal;
mod module;
pub mod print;
mod put;
mod schedule;
mod statement;
mod tasking;
mod transfer;
mod typing;

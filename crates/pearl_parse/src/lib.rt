// Statements, bodies and modules, read from the tokens of a source.
#![tactic(auto)]

mod block;
mod body;
mod call;
mod expression;
mod lists;
mod loops;
mod module;
mod name;
pub mod parse;
mod schedule;
mod statement;
mod system;
mod tasking;
mod token;
mod transfer;

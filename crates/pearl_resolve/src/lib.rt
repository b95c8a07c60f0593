// The program that a source means.
#![tactic(auto)]

mod bounds;
mod cells;
mod counter;
mod counts;
pub mod expression;
mod literal;
mod making;
mod module_leaves;
mod module_names;
mod nodes;
pub mod numbered;
pub mod numbers;
mod placing;
pub mod program;
mod renewals;
mod routines;
mod schedule;
mod simple;
mod statements;
mod walk;

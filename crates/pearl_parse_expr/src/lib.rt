// Expressions and references, read from the tokens of a source.
#![tactic(auto)]

mod dyadic;
pub mod expression;
pub mod fault;
pub mod laws;
pub mod literal;
mod operator;
mod primary;
pub mod reading;
mod selector;
pub mod standing;

// The code of expressions, and that it does what they mean, or comes to where there is no row.
#![tactic(auto)]

pub mod bounds;
pub mod expression;
pub mod laws;

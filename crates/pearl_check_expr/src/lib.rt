// The kinds of expressions, and the static rules on them: S15 to S22.
#![tactic(auto)]

pub mod argument;
pub mod callee;
pub mod kinds;
pub mod laws;
pub mod literal;
pub mod operator;
pub mod standing;
pub mod subject;
pub mod tell;
pub mod walk;

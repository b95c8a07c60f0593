// When tasks are started and go on.

use crate::expression::Expr;

/// UNTIL or DURING.
#[derive(Drop)]
pub enum PeriodEnd {
    Until(Expr),
    During(Expr),
}

/// ALL, and what may stand behind it.
#[derive(Drop)]
pub struct Period {
    pub duration: Expr,
    pub end: Option<PeriodEnd>,
}

/// The condition of an activation.
#[derive(Drop)]
pub enum Start {
    At(Expr),
    After(Expr),
    /// WHEN the interrupt of this number among the devices.
    When(u32),
    WhenAfter { interrupt: u32, duration: Expr },
}

/// The condition of a continuation.
#[derive(Drop)]
pub enum Once {
    At(Expr),
    After(Expr),
    /// WHEN the interrupt of this number among the devices.
    When(u32),
}

// Expressions, and the variables in them.

use crate::literal::Literal;
use pearl_value::operator::{Dyad, Monad};

/// Where a variable begins.
#[derive(Clone, Copy, PartialEq, Eq, Debug)]
pub enum Target {
    /// At the first slot of the leaf of this number.
    Leaf(u32),
    /// At this cell of its routine.
    Own(u32),
    /// Where the reference leads that stands in this cell of its routine: a parameter with IDENT.
    Param(u32),
}

/// The bounds of one dimension.
#[derive(Clone, Copy, PartialEq, Eq, Debug)]
pub struct Bound {
    pub lower: i32,
    pub upper: i32,
}

/// One element that is read, written or handed over. There are as many subscripts as bounds, and none of both where it is
/// in no array. The bounds are those of all arrays on the way to it, in order.
#[cycle(expression)]
#[derive(Drop)]
pub struct Variable {
    pub target: Target,
    pub bounds: Vec<Bound>,
    pub subscripts: Vec<Expr>,
}

/// What is handed over to a parameter.
#[cycle(expression)]
#[derive(Drop)]
pub enum Argument {
    /// A value, which is converted to the parameter's kind.
    Value(Expr),
    /// A variable, for a parameter with IDENT.
    Ident(Variable),
}

/// A call of the procedure of this number.
#[cycle(expression)]
#[derive(Drop)]
pub struct Call {
    pub procedure: u32,
    pub arguments: Vec<Argument>,
}

/// An expression. LWB and UPB stand in it as the bounds that they name.
#[cycle(expression)]
#[derive(Drop)]
pub enum Expr {
    Literal(Literal),
    /// The value of a variable.
    Read(Box<Variable>),
    Monadic {
        op: Monad,
        operand: Box<Expr>,
    },
    Dyadic {
        op: Dyad,
        left: Box<Expr>,
        right: Box<Expr>,
    },
    /// The result of a procedure.
    Call(Box<Call>),
    /// NOW
    Now,
    /// TRY of the semaphore of this number.
    Try(u16),
}

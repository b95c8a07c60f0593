// Expressions and references.

use crate::literal::Literal;
use crate::name::{Name, Number};
use crate::parts::Parts;
use pearl_value::operator::{Dyad, Monad};

/// A monadic operator, and the place where it stands.
#[derive(Clone, Copy)]
pub struct Monadic {
    pub operator: Monad,
    pub place: u32,
}

/// A dyadic operator, and the place where it stands.
#[derive(Clone, Copy)]
pub struct Dyadic {
    pub operator: Dyad,
    pub place: u32,
}

/// The rule `expr`: `operand { dyadic operand }`, grouped by the ranks of the operators. Its place is that of its first
/// token.
#[cycle(expression)]
#[derive(Drop)]
pub enum Expr {
    /// an operand alone
    Operand(Operand),
    /// two expressions with an operator between them
    Dyadic {
        left: Box<Expr>,
        dyadic: Dyadic,
        right: Box<Expr>,
        place: u32,
    },
}

/// The rule `operand`: `{ + | - | ABS | SIGN | NOT } primary`
#[cycle(expression)]
#[derive(Drop)]
pub struct Operand {
    pub monadics: Parts<Monadic>,
    pub primary: Primary,
    pub place: u32,
}

/// `LWB | UPB`
#[derive(Clone, Copy, PartialEq, Eq, Debug)]
pub enum Side {
    Lower,
    Upper,
}

/// The rule `primary`.
#[cycle(expression)]
#[derive(Drop)]
pub enum Primary {
    /// `literal`
    Literal(Literal),
    /// `ref`
    Ref(Ref),
    /// `"(" expr ")"`
    Group {
        inner: Box<Expr>,
        place: u32,
    },
    /// `NOW`
    Now {
        place: u32,
    },
    /// `TRY id`
    Try {
        name: Name,
        place: u32,
    },
    /// `[ number ] ( LWB | UPB ) ref`
    Limit {
        dimension: Option<Number>,
        side: Side,
        array: Box<Ref>,
        place: u32,
    },
}

/// The rule `ref`: `id { "(" expr { "," expr } ")" | "." id }`
#[cycle(expression)]
#[derive(Drop)]
pub struct Ref {
    pub name: Name,
    pub selectors: Parts<Selector>,
    pub place: u32,
}

/// What follows the id of a `ref`.
#[cycle(expression)]
#[derive(Drop)]
pub enum Selector {
    /// `"(" expr { "," expr } ")"`
    Subscripts { subscripts: Parts<Expr>, place: u32 },
    /// `"." id`
    Component { name: Name, place: u32 },
}

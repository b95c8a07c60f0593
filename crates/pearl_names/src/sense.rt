// What a name stands for, with all that is asked of it where it is used.

use crate::types::TypeRef;
use pearl_value::device::Direction;
use pearl_value::kind::Kind;

/// The bounds of a dimension, the upper not below the lower.
#[derive(Clone, Copy, PartialEq, Eq, Debug)]
pub struct Bounds {
    pub lower: i32,
    pub upper: i32,
}

/// How a variable is made: the bounds of its dimensions, and the type of its elements.
#[derive(Drop)]
pub struct Form {
    pub bounds: Vec<Bounds>,
    pub part: TypeRef,
}

/// A parameter. Its kind is missing where a rule is broken in it.
#[derive(Clone, Copy, PartialEq, Eq, Debug)]
pub struct Parameter {
    pub kind: Option<Kind>,
    pub ident: bool,
}

/// What a procedure asks and answers. Without RETURNS it has no result; a kind is missing where a rule is broken in it.
#[derive(Drop)]
pub struct Signature {
    pub parameters: Vec<Parameter>,
    pub result: Option<Option<Kind>>,
}

/// What a name stands for. A form or kind is missing where a rule is broken in it.
#[derive(Drop)]
pub enum Sense {
    Variable {
        form: Option<Form>,
        inv: bool,
    },
    /// A control variable of a loop.
    Control(Kind),
    Parameter(Parameter),
    NewType,
    Semaphore,
    Interrupt,
    AlphicDation(Direction),
    BasicDation {
        direction: Direction,
        kind: Option<Kind>,
    },
    Task,
    Procedure(Signature),
}

/// What the names of one scope stand for, in their order.
#[derive(Drop)]
pub struct ScopeSenses {
    pub senses: Vec<Sense>,
}

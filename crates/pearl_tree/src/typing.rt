// Types and bounds.

use crate::name::{Name, Names, Number};
use crate::parts::Parts;

/// The rule `int`: `[ "-" ] number`
#[derive(Clone, Copy)]
pub struct Int {
    pub minus: bool,
    pub number: Number,
    pub place: u32,
}

/// The rule `bound`: `int [ ":" int ]`. With one number, this is the upper bound, and the lower bound is 1.
#[derive(Clone, Copy)]
pub struct Bound {
    pub first: Int,
    pub second: Option<Int>,
    pub place: u32,
}

/// `FIXED | BIT | CHAR`
#[derive(Clone, Copy, PartialEq, Eq, Debug)]
pub enum Sort {
    Fixed,
    Bit,
    Char,
}

/// The rule `basic`.
#[derive(Clone, Copy)]
pub enum Basic {
    /// `( FIXED | BIT | CHAR ) [ "(" number ")" ]`
    Sized {
        sort: Sort,
        number: Option<Number>,
        place: u32,
    },
    /// `CLOCK`
    Clock {
        place: u32,
    },
    /// `DURATION`
    Duration {
        place: u32,
    },
}

/// The rule `type`.
#[cycle(typing)]
#[derive(Drop)]
pub enum Typing {
    /// `basic`
    Basic(Basic),
    /// `STRUCT "[" field { "," field } "]"`
    Struct { fields: Parts<Field>, place: u32 },
    /// `id`
    Named(Name),
}

/// The rule `field`: `names [ bounds ] type`. Without bounds the list is empty.
#[cycle(typing)]
#[derive(Drop)]
pub struct Field {
    pub names: Names,
    pub bounds: Parts<Bound>,
    pub typing: Typing,
    pub place: u32,
}

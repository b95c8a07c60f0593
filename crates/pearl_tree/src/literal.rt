// Literals and constants.

use crate::name::Number;
use arrayvec::ArrayVec;

/// The rule `secs`.
#[derive(Clone, Copy)]
pub enum Secs {
    /// `number`
    Number(Number),
    /// `decimal`
    Decimal {
        whole: u64,
        thousandths: u16,
        place: u32,
    },
}

/// The rule `duration`.
#[derive(Clone, Copy)]
pub enum Duration {
    /// `number HRS [ number MIN ] [ secs SEC ]`
    Hours {
        hours: Number,
        minutes: Option<Number>,
        seconds: Option<Secs>,
        place: u32,
    },
    /// `number MIN [ secs SEC ]`
    Minutes {
        minutes: Number,
        seconds: Option<Secs>,
        place: u32,
    },
    /// `secs SEC`
    Seconds {
        seconds: Secs,
        place: u32,
    },
}

/// The rule `literal`. What takes much room stands in a box.
#[derive(Drop)]
pub enum Literal {
    /// `number`
    Number(Number),
    /// `bits`
    Bits {
        len: u8,
        value: u64,
        place: u32,
    },
    /// `text`
    Text {
        text: Box<ArrayVec<u8, 255>>,
        place: u32,
    },
    /// `clock`, as milliseconds since midnight
    Clock {
        milliseconds: u32,
        place: u32,
    },
    /// `duration`
    Duration(Box<Duration>),
}

/// `"+" | "-"` before a constant
#[derive(Clone, Copy, PartialEq, Eq, Debug)]
pub enum Sign {
    Plus,
    Minus,
}

/// The rule `const`: `[ "+" | "-" ] literal`
#[derive(Drop)]
pub struct Const {
    pub sign: Option<Sign>,
    pub literal: Literal,
    pub place: u32,
}

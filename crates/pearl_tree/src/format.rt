// Items of formats.

use crate::name::Number;

/// The ids of items that may stand without a number.
#[derive(Clone, Copy, PartialEq, Eq, Debug)]
pub enum FreeCode {
    A,
    B,
    B1,
    B2,
    B3,
    B4,
    X,
    Skip,
}

/// The ids of items that have a number.
#[derive(Clone, Copy, PartialEq, Eq, Debug)]
pub enum WideCode {
    F,
    T,
    D,
}

/// The rule `fmt`.
#[derive(Clone, Copy)]
pub enum Fmt {
    /// `( "A" | "B" | "B1" | "B2" | "B3" | "B4" | "X" | "SKIP" ) [ "(" number ")" ]`
    Free {
        code: FreeCode,
        width: Option<Number>,
        place: u32,
    },
    /// `( "F" | "T" | "D" ) "(" number ")"`
    Wide {
        code: WideCode,
        width: Number,
        place: u32,
    },
}

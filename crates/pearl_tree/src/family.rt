// The families of values: kinds of every length.

pub const FIXED: u8 = 0;

pub const BIT: u8 = 1;

pub const CHAR: u8 = 2;

pub const CLOCK: u8 = 3;

pub const DURATION: u8 = 4;

/// No operand: what stands on the left of an operator with one operand.
pub const ABSENT: u8 = 255;

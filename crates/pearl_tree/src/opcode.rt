// The codes of the operators, which are their opcodes: first those with one operand, then those with two.

pub const PLUS: u8 = 30;

pub const MINUS: u8 = 31;

pub const ABS: u8 = 32;

pub const SIGN: u8 = 33;

pub const NOT: u8 = 34;

pub const POW: u8 = 35;

pub const MUL: u8 = 36;

pub const DIV: u8 = 37;

pub const REM: u8 = 38;

pub const CAT: u8 = 39;

pub const ADD: u8 = 40;

pub const SUB: u8 = 41;

pub const CSHIFT: u8 = 42;

pub const SHIFT: u8 = 43;

pub const LT: u8 = 44;

pub const GT: u8 = 45;

pub const LE: u8 = 46;

pub const GE: u8 = 47;

pub const EQ: u8 = 48;

pub const NE: u8 = 49;

pub const AND: u8 = 50;

pub const OR: u8 = 51;

pub const EXOR: u8 = 52;

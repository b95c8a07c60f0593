// The items of a format.

/// What an item writes.
#[derive(Clone, Copy, PartialEq, Eq, Debug)]
pub enum ItemCode {
    /// A CHAR value, cut or with blanks on its right.
    A,
    /// A BIT value in digits of one bit, with blanks on its right.
    B1,
    /// In digits of two bits.
    B2,
    /// In digits of three bits.
    B3,
    /// In digits of four bits.
    B4,
    /// A FIXED value in decimal, with blanks on its left.
    F,
    /// A CLOCK value, with blanks on its left.
    T,
    /// A DURATION value, with blanks on its left.
    D,
    /// Blanks.
    X,
    /// Line ends.
    Skip,
}

/// One item of a format. A width of 0 means that none is written: `A` then has its value's length, `B1` to `B4` the
/// number of their digits, and `X` and `Skip` count as 1.
#[derive(Clone, Copy, PartialEq, Eq, Debug)]
pub struct Item {
    pub code: ItemCode,
    pub width: u8,
}

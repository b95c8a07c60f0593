// Tokens with their places.

use arrayvec::ArrayVec;

/// What a token is, apart from its place.
#[derive(Drop)]
pub enum What {
    /// A word, by its code. Words of the same meaning have the same code.
    Word(u8),
    Id(ArrayVec<u8, 63>),
    Number(u64),
    /// A number with one to three decimals.
    Decimal { whole: u64, thousandths: u16 },
    /// A time of day, as milliseconds since midnight.
    Clock(u32),
    /// A string of `len` bits. `value` is the number that they spell, the first bit highest.
    Bits { len: u8, value: u64 },
    /// The characters between the apostrophes, a doubled apostrophe standing once.
    Text(ArrayVec<u8, 255>),
    /// A symbol, by its position in the list of symbols, counted from 0:
    /// `( ) [ ] , ; : . := = == /= < > <= >= >< <> + - * // **`.
    Symbol(u8),
}

/// A token, and the place of its first byte.
#[derive(Drop)]
pub struct Token {
    pub place: u32,
    pub what: What,
}

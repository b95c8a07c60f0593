// Values that stand in a program.

ghost use Rattle.std.specs.Prelude.{◌≡◌};
ghost use Rattle.pearl_program.specs.PlainExpressions.{cell_of};

use arrayvec::ArrayVec;
use pearl_value::cell::Cell;

/// A value that stands in a program. A text stands in a box, so that the others take little room.
#[derive(Drop)]
pub enum Literal {
    /// A number from -2^len to 2^len - 1.
    Fixed { len: u8, value: i64 },
    /// The number that `len` bits spell, the first bit highest.
    Bits { len: u8, value: u64 },
    /// Bytes from 32 to 126.
    Chars(Box<ArrayVec<u8, 255>>),
    /// Milliseconds since midnight.
    Clock(u32),
    /// Milliseconds.
    Span(i64),
}

impl Literal {
    /// The value by itself.
    pub fn cell(&self) -> Cell
        ensures { result ≡ cell_of self.now }
    {
        match self {
            Literal::Fixed { len, value } => Cell::Fixed {
                len: *len,
                value: *value,
            },
            Literal::Bits { len, value } => Cell::Bits {
                len: *len,
                value: *value,
            },
            Literal::Chars(text) => Cell::Chars((**text).clone().unwrap()),
            Literal::Clock(time) => Cell::Clock(*time),
            Literal::Span(time) => Cell::Span(*time),
        }
    }
}

// When two values are the same.

ghost use Rattle.std.specs.Prelude.{◌≡◌, ◌↔◌, IsTrue};
ghost use Rattle.pearl_value.specs.WellFormed.{IsValue};

use pearl_value::cell::Cell;

/// Whether two cells are the same, the first of which is a value.
pub(crate) fn is_same(one: &Cell, other: &Cell) -> bool
    requires { IsValue one.now }
    ensures { IsTrue result ↔ (one.now ≡ other.now) }
{
    match (one, other) {
        (
            Cell::Fixed { len, value },
            Cell::Fixed {
                len: length,
                value: number,
            },
        ) => len == length && value == number,
        (
            Cell::Bits { len, value },
            Cell::Bits {
                len: length,
                value: number,
            },
        ) => len == length && value == number,
        (Cell::Chars(text), Cell::Chars(letters)) => text.as_slice() == letters.as_slice(),
        (Cell::Clock(time), Cell::Clock(moment)) => time == moment,
        (Cell::Span(time), Cell::Span(duration)) => time == duration,
        _ => false,
    }
}

// Values as rows of tables write them.

ghost use Rattle.std.specs.Prelude.{All, ◌<◌, length};
ghost use Rattle.pearl_value.specs.declared.kind.Kind.{Kind};
ghost use Rattle.pearl_value.specs.WellFormed.{IsValue, IsValueOf, IsLetter};

use arrayvec::ArrayVec;
use pearl_value::cell::Cell;
use pearl_value::conversion::convert;
use pearl_value::kind::Kind;
use std::process::Abort;

/// A value.
#[derive(Clone, Copy)]
pub enum Given {
    Fixed(u8, i64),
    Bits(u8, u64),
    Chars(&'static [u8]),
    Clock(u32),
    Span(i64),
}

/// Whether the value is this number of FIXED(31).
pub fn is_number(cell: &Cell, number: i64) -> bool {
    match cell {
        Cell::Fixed { len, value } => *len == 31 && *value == number,
        _ => false,
    }
}

/// A number of the longest FIXED.
fn longest(value: i64) -> Cell
    ensures { IsValueOf (Kind.Fixed 63) result }
{
    Cell::Fixed { len: 63, value }
}

/// A FIXED number, as far as it is one.
fn number(rt: &impl Abort, len: u8, value: i64) -> Cell
    ensures { IsValue result }
{
    assert!(rt; 1 <= len && len <= 63);
    match convert(&longest(value), Kind::Fixed(len)) {
        Ok(cell) => cell,
        Err(_) => panic!(rt; "no number of this length"),
    }
}

/// The text, as far as it is one of a CHAR.
fn letters(rt: &impl Abort, text: &[u8]) -> ArrayVec<u8, 255>
    ensures some { 0 < length result.items }
    ensures letters { All IsLetter result.items }
{
    let mut letters = ArrayVec::new();
    for letter in text {
        assert!(rt; 32 <= *letter && *letter <= 126);
        assert!(rt; !letters.is_full());
        letters.push(*letter);
    }
    assert!(rt; !letters.is_empty());
    letters
}

/// The value, as far as it is one.
pub fn value_of(rt: &impl Abort, given: Given) -> Cell
    ensures { IsValue result }
{
    match given {
        Given::Fixed(len, value) => number(rt, len, value),
        Given::Bits(len, value) => {
            assert!(rt; 1 <= len && len <= 63);
            assert!(rt; value < 1u64 << len);
            Cell::Bits { len, value }
        }
        Given::Chars(text) => Cell::Chars(letters(rt, text)),
        Given::Clock(time) => {
            assert!(rt; time < 86_400_000);
            Cell::Clock(time)
        }
        Given::Span(time) => {
            assert!(rt; -1_099_511_627_776 <= time && time <= 1_099_511_627_776);
            Cell::Span(time)
        }
    }
}

// Values as literals.

ghost use Rattle.std.specs.Prelude.{◌≡◌, ◌+◌, ◌*◌, ◌<◌, ◌≤◌, ◌++◌, ◌∷◌, [], length};
ghost use Rattle.std.specs.Fmt.{signed_decimal};
ghost use Rattle.std.specs.List.{flat_map};
ghost use Rattle.pearl_value.specs.WellFormed.{FitsSpan, IsValue};
ghost use Rattle.pearl_format.specs.Fields.{bits_text, hours_text, seconds_text, span_text, three_digits, two_digits};
ghost use Rattle.pearl_script.specs.Literals.{clock_literal, literal, quoted_byte};

use crate::piece::{push_bytes, push_number};
use arrayvec::ArrayVec;
use itoa::Buffer;
use pearl_value::cell::Cell;

/// Appends a value as a literal.
pub fn push_literal(value: &Cell, into: &mut ArrayVec<u8, 2304>)
    requires value { IsValue value.now }
    requires room { length into.old.items + 600 ≤ 2304 }
    ensures text { into.new.items ≡ into.old.items ++ literal value.now }
    ensures len { length into.new.items ≤ length into.old.items + 600 }
{
    match value {
        Cell::Fixed { value, .. } => push_signed(*value, into),
        Cell::Bits { len, value } => {
            push_bytes(b"'", into);
            push_bits(*len, *value, into);
            push_bytes(b"'B", into);
        }
        Cell::Chars(text) => {
            push_bytes(b"'", into);
            push_quoted(text.as_slice(), into);
            push_bytes(b"'", into);
        }
        Cell::Clock(time) => push_clock(*time, into),
        Cell::Span(time) => push_span(*time, into),
        Cell::Ref { .. } => unreachable!(),
    }
}

fn push_signed(value: i64, into: &mut ArrayVec<u8, 2304>)
    requires { length into.old.items + 20 ≤ 2304 }
    ensures text { into.new.items ≡ into.old.items ++ signed_decimal value }
    ensures len { length into.new.items ≤ length into.old.items + 20 }
{
    let mut buffer = Buffer::new();
    push_bytes(buffer.format(value).as_bytes(), into);
}

// The bits of a BIT, the first one highest.
fn push_bits(len: u8, value: u64, into: &mut ArrayVec<u8, 2304>)
    requires few { len ≤ 64 }
    requires room { length into.old.items + len ≤ 2304 }
    ensures text { into.new.items ≡ into.old.items ++ bits_text 1 len value }
    ensures len { length into.new.items ≡ length into.old.items + len }
{
    let mut left = len;
    while left > 0 {
        left -= 1;
        let bit = (value >> left) % 2;
        into.push(b'0' + bit as u8);
    }
}

// A text as it stands between the apostrophes of a literal.
fn push_quoted(text: &[u8], into: &mut ArrayVec<u8, 2304>)
    requires { length into.old.items + 2 * length text.now ≤ 2304 }
    ensures text { into.new.items ≡ into.old.items ++ flat_map quoted_byte text.now }
    ensures len { length into.new.items ≤ length into.old.items + 2 * length text.now }
{
    for byte in text {
        push_quoted_byte(*byte, into);
    }
}

fn push_quoted_byte(byte: u8, into: &mut ArrayVec<u8, 2304>)
    requires { length into.old.items + 2 ≤ 2304 }
    ensures text { into.new.items ≡ into.old.items ++ quoted_byte byte }
    ensures len { length into.new.items ≤ length into.old.items + 2 }
{
    into.push(byte);
    if byte == b'\'' {
        into.push(byte);
    }
}

fn push_clock(time: u32, into: &mut ArrayVec<u8, 2304>)
    requires time { time < 86400000 }
    requires room { length into.old.items + 12 ≤ 2304 }
    ensures text { into.new.items ≡ into.old.items ++ clock_literal time }
    ensures len { length into.new.items ≤ length into.old.items + 12 }
{
    push_seconds(time, into);
    let milliseconds = time % 1000;
    if milliseconds > 0 {
        push_bytes(b".", into);
        push_three(milliseconds, into);
    }
}

// hh:mm:ss
fn push_seconds(time: u32, into: &mut ArrayVec<u8, 2304>)
    requires time { time < 86400000 }
    requires room { length into.old.items + 8 ≤ 2304 }
    ensures text { into.new.items ≡ into.old.items ++ seconds_text time }
    ensures len { length into.new.items ≡ length into.old.items + 8 }
{
    push_two(time / 3_600_000, into);
    push_bytes(b":", into);
    push_two(time / 60_000 % 60, into);
    push_bytes(b":", into);
    push_two(time / 1000 % 60, into);
}

fn push_span(time: i64, into: &mut ArrayVec<u8, 2304>)
    requires time { FitsSpan time }
    requires room { length into.old.items + 60 ≤ 2304 }
    ensures text { into.new.items ≡ into.old.items ++ span_text time }
    ensures len { length into.new.items ≤ length into.old.items + 60 }
{
    if time < 0 {
        push_bytes(b"-", into);
    }
    push_hours(time.unsigned_abs(), into);
}

fn push_hours(time: u64, into: &mut ArrayVec<u8, 2304>)
    requires { length into.old.items + 50 ≤ 2304 }
    ensures text { into.new.items ≡ into.old.items ++ hours_text time }
    ensures len { length into.new.items ≤ length into.old.items + 50 }
{
    push_number(time / 3_600_000, into);
    push_bytes(b" HRS ", into);
    push_two((time / 60_000 % 60) as u32, into);
    push_bytes(b" MIN ", into);
    push_two((time / 1000 % 60) as u32, into);
    push_bytes(b".", into);
    push_three((time % 1000) as u32, into);
    push_bytes(b" SEC", into);
}

fn push_two(number: u32, into: &mut ArrayVec<u8, 2304>)
    requires small { number < 100 }
    requires room { length into.old.items + 2 ≤ 2304 }
    ensures text { into.new.items ≡ into.old.items ++ two_digits number }
    ensures len { length into.new.items ≡ length into.old.items + 2 }
{
    push_digit(number / 10, into);
    push_digit(number % 10, into);
}

fn push_three(number: u32, into: &mut ArrayVec<u8, 2304>)
    requires small { number < 1000 }
    requires room { length into.old.items + 3 ≤ 2304 }
    ensures text { into.new.items ≡ into.old.items ++ three_digits number }
    ensures len { length into.new.items ≡ length into.old.items + 3 }
{
    push_digit(number / 100, into);
    push_two(number % 100, into);
}

fn push_digit(digit: u32, into: &mut ArrayVec<u8, 2304>)
    requires small { digit < 10 }
    requires room { length into.old.items + 1 ≤ 2304 }
    ensures text { into.new.items ≡ into.old.items ++ (48 + digit) ∷ [] }
    ensures len { length into.new.items ≡ length into.old.items + 1 }
{
    into.push(b'0' + digit as u8);
}

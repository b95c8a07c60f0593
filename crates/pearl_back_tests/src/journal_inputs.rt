// Lines of journals with texts and values, by hand.

ghost use Rattle.std.specs.Prelude.{◌<◌, ◌^◌, length};

use crate::journal::{Given, Row, Told, alone};
use pearl_journal::lines::{BadLine, Next};
use pearl_rules::entry::Entry;
use pearl_rules::setup::Setup;
use std::alloc::{AllocError, Global};

// Terminals 1 and 3 have the places 2 and 4 among the devices; terminal 2 only takes texts.
pub static TEXTS: [Row; 28] = [
    (b"chars 1 'x'", Told::Chars(2, 1)),
    (b"\tchars \t01\t 'x' \r", Told::Chars(2, 1)),
    (b"chars 3 'x'", Told::Chars(4, 1)),
    (b"line 3 'x'", Told::Line(4, 1)),
    (b"line 1 ''", Told::Line(2, 0)),
    (b"chars 1 ''", Told::Wrong(1)),
    (b"chars 1 ''''", Told::Chars(2, 1)),
    (b"chars 1 ' it''s  # '", Told::Chars(2, 9)),
    (b"line 1 '''''' ", Told::Line(2, 2)),
    (b"chars 1 ' ~'", Told::Chars(2, 2)),
    (b"chars 1 'a'b'", Told::Wrong(1)),
    (b"chars 1 'a", Told::Wrong(1)),
    (b"chars 1 a'", Told::Wrong(1)),
    (b"chars 1 'a''", Told::Wrong(1)),
    (b"chars 1 '", Told::Wrong(1)),
    (b"chars 1 'a' b", Told::Wrong(1)),
    (b"chars 1 '1'B", Told::Wrong(1)),
    (b"chars 1 'a\tb'", Told::Wrong(1)),
    (b"chars 1 '\x7f'", Told::Wrong(1)),
    (b"chars 1 '\xe4'", Told::Wrong(1)),
    (b"chars 1'a'", Told::Wrong(1)),
    (b"chars 1", Told::Wrong(1)),
    (b"chars 'a'", Told::Wrong(1)),
    (b"line", Told::Wrong(1)),
    // No texts come in at terminal 2, and there is no terminal 6.
    (b"chars 2 'x'", Told::Wrong(2)),
    (b"line 6 'x'", Told::Wrong(2)),
    (b"line 9223372036854775807 ''", Told::Wrong(2)),
    (b"line 9223372036854775808 ''", Told::Wrong(1)),
];

// Input 1 is FIXED(15), 2 BIT(9), 3 CHAR(5), 4 CLOCK, 5 DURATION and 6 FIXED(63).
pub static NUMBERS: [Row; 18] = [
    (b"value 1 75", Told::Value(5, Given::Fixed(75))),
    (
        b" value\t01  -\t 0075 \r",
        Told::Value(5, Given::Fixed(-75)),
    ),
    (b"value 1 32767", Told::Value(5, Given::Fixed(32767))),
    (b"value 1 -32768", Told::Value(5, Given::Fixed(-32768))),
    (b"value 1 32768", Told::Wrong(4)),
    (b"value 1 -32769", Told::Wrong(4)),
    (
        b"value 6 9223372036854775807",
        Told::Value(10, Given::Fixed(9_223_372_036_854_775_807)),
    ),
    (
        b"value 6 -9223372036854775807",
        Told::Value(10, Given::Fixed(-9_223_372_036_854_775_807)),
    ),
    (b"value 6 9223372036854775808", Told::Wrong(1)),
    (b"value 6 -9223372036854775808", Told::Wrong(1)),
    (b"value 6 +1", Told::Wrong(1)),
    (b"value 6 -", Told::Wrong(1)),
    (b"value 6 - - 1", Told::Wrong(1)),
    (b"value 6 1.5", Told::Wrong(1)),
    (b"value 6", Told::Wrong(1)),
    (b"value", Told::Wrong(1)),
    (b"value x 1", Told::Wrong(1)),
    (b"value 6 1 1", Told::Wrong(1)),
];

pub static BITS_AND_TEXTS: [Row; 16] = [
    (b"value 2 '101'B", Told::Value(6, Given::Bits(3, 5))),
    (b"value 2 '101'B1", Told::Value(6, Given::Bits(3, 5))),
    (b"value 2 '123'B2", Told::Value(6, Given::Bits(6, 27))),
    (b"value 2 '777'B3", Told::Value(6, Given::Bits(9, 511))),
    (b"value 2 'F0'B4", Told::Value(6, Given::Bits(8, 240))),
    (b"value 2 '0000000000'B", Told::Wrong(4)),
    (b"value 2 'F00'B4", Told::Wrong(4)),
    (b"value 2 'f0'B4", Told::Wrong(1)),
    (b"value 2 '2'B", Told::Wrong(1)),
    (b"value 2 ''B", Told::Wrong(1)),
    (b"value 2 '1'B5", Told::Wrong(1)),
    (b"value 2 '1' B", Told::Wrong(1)),
    (b"value 3 'pump'", Told::Value(7, Given::Text(4))),
    (b"value 3 'it''s'", Told::Value(7, Given::Text(4))),
    (b"value 3 'pumps!'", Told::Wrong(4)),
    (b"value 3 ''", Told::Wrong(1)),
];

pub static TIMES: [Row; 19] = [
    (
        b"value 4 23:59:59.999",
        Told::Value(8, Given::Clock(86_399_999)),
    ),
    (b"value 4 0:0:0", Told::Value(8, Given::Clock(0))),
    (b"value 4 24:0:0", Told::Wrong(1)),
    (b"value 4 - 0:0:0", Told::Wrong(1)),
    (b"value 5 1SEC", Told::Value(9, Given::Span(1000))),
    (
        b"value 5 -\t1 HRS 2MIN  0.5\tSEC",
        Told::Value(9, Given::Span(-3_720_500)),
    ),
    (b"value 5 2 MIN", Told::Value(9, Given::Span(120_000))),
    (
        b"value 5 1099511627.776 SEC",
        Told::Value(9, Given::Span(1_099_511_627_776)),
    ),
    (
        b"value 5 - 1099511627.776 SEC",
        Told::Value(9, Given::Span(-1_099_511_627_776)),
    ),
    (b"value 5 1099511627.777 SEC", Told::Wrong(4)),
    (b"value 5 - 1099511627.777 SEC", Told::Wrong(4)),
    (b"value 5 9223372036854775807 HRS", Told::Wrong(4)),
    (b"value 5 9223372036854775808 HRS", Told::Wrong(1)),
    (b"value 5 1 HRS2 MIN", Told::Wrong(1)),
    (b"value 5 1 MIN 2 HRS", Told::Wrong(1)),
    (b"value 5 1 sec", Told::Wrong(1)),
    (b"value 5 1.2345 SEC", Told::Wrong(1)),
    (b"value 5 1 SEC/* */", Told::Wrong(1)),
    (b"value 5 ", Told::Wrong(1)),
];

// What isn't in the grammar is told first, then what isn't declared, and then what doesn't suit or fit.
pub static VALUES_ELSEWHERE: [Row; 13] = [
    (b"value 1 '1'B", Told::Wrong(4)),
    (b"value 2 1", Told::Wrong(4)),
    (b"value 3 1", Told::Wrong(4)),
    (b"value 4 1 SEC", Told::Wrong(4)),
    (b"value 5 1", Told::Wrong(4)),
    (b"value 5 0:0:0", Told::Wrong(4)),
    (b"value 1 9223372036854775807 HRS", Told::Wrong(4)),
    // There is no input of these numbers; 7 is an output.
    (b"value 7 1 SEC", Told::Wrong(2)),
    (b"value 0 1", Told::Wrong(2)),
    (b"value 100 9223372036854775807 HRS", Told::Wrong(2)),
    (b"value 9223372036854775807 1", Told::Wrong(2)),
    (b"value 9223372036854775808 1", Told::Wrong(1)),
    (b"value 100 x", Told::Wrong(1)),
];

// Whether a line brings these characters, without an end of the line.
fn brings(answer: &Result<Next, BadLine>, want: &[u8]) -> bool {
    match answer {
        Ok(Next::Entry(Entry::Chars { text, .. })) => text.as_slice() == want,
        Ok(Next::Entry(Entry::Line { text, .. })) => text.as_slice() == want,
        _ => false,
    }
}

static CHARACTERS: [(&[u8], &[u8]); 5] = [
    (b"chars 1 'pump on'", b"pump on"),
    (b"chars 1 'it''s'", b"it's"),
    (b"line 1 '''x '", b"'x "),
    (b"line 1 ''", b""),
    (b"line 1 '#\\n'", b"#\\n"),
];

/// The number of the first of these lines that brings something else.
pub fn first_other_text(alloc: Global, setup: &Setup) -> Result<Option<usize>, AllocError>
    requires tasks { length setup.now.tasks < 2 ^ 32 }
    requires devices { length setup.now.devices < 2 ^ 32 }
{
    for (number, (line, want)) in CHARACTERS.iter().enumerate() {
        if !brings(&alone(alloc, setup, line)?, want) {
            return Ok(Some(number));
        }
    }
    Ok(None)
}

// The values that literals spell.

ghost use Rattle.std.specs.Prelude.{◌≡◌, ◌<◌, ◌≤◌, IfSome, length};
ghost use Rattle.pearl_value.specs.Conversions.{fits_fixed};
ghost use Rattle.std.specs.List.{after_first, before_first, position_or_len};
ghost use Rattle.pearl_journal.specs.Texts.{is_apostrophe};
ghost use Rattle.pearl_journal.specs.Values as spec;

use crate::texts::{APOSTROPHE, text_literal};
use pearl_scan::bits::bits_number;
use pearl_scan::clock::clock_literal;
use pearl_scan::gap::Gap;
use pearl_scan::number::fixed_literal;
use pearl_scan::span::span_literal;
use pearl_value::cell::Cell;
use pearl_value::kind::Kind;

/// What a literal spells.
#[derive(Drop)]
pub(crate) enum Literal {
    Value(Cell),
    /// A DURATION of more than 2^40 milliseconds, or of less than -2^40.
    TooLong,
}

/// What bits, a text, a time of day, a number or a length of time spells.
pub(crate) fn spelled_by(text: &[u8]) -> Option<Literal>
    ensures { result ≡ spec.literal text.now }
{
    if let Some(value) = bits_literal(text) {
        return Some(Literal::Value(value));
    }
    if let Some(characters) = text_literal(text) {
        return Some(Literal::Value(Cell::Chars(characters)));
    }
    if let Some(time) = clock_literal(text) {
        return Some(Literal::Value(Cell::Clock(time)));
    }
    if let Some(value) = fixed_literal(Gap::BlanksAndTabs, text) {
        return Some(Literal::Value(fixed_cell(value)));
    }
    match span_literal(Gap::BlanksAndTabs, text) {
        Some(value) => Some(span_value(value)),
        None => None,
    }
}

// A number of 31 binary digits where it fits, and else of 63.
fn fixed_cell(value: i64) -> Cell
    ensures { result ≡ spec.fixed_cell value }
{
    let len = if fits(value, 31) { 31 } else { 63 };
    Cell::Fixed { len, value }
}

fn span_value(value: i128) -> Literal
    ensures { result ≡ spec.span_value value }
{
    if value.unsigned_abs() <= 1 << 40 {
        Literal::Value(Cell::Span(value as i64))
    } else {
        Literal::TooLong
    }
}

// BITS

// Digits between apostrophes, and behind them the word that says how many bits each has.
fn bits_literal(text: &[u8]) -> Option<Cell>
    ensures { result ≡ spec.bits_literal text.now }
{
    let [APOSTROPHE, inner @ ..] = text else {
        return None;
    };
    let (digits, word) = split_at_apostrophe(inner);
    bits_of(digit_width(word)?, digits)
}

// How many bytes come before the first apostrophe.
fn apostrophe_place(text: &[u8]) -> usize
    ensures value { result ≡ position_or_len is_apostrophe text.now }
    ensures within { result ≤ length text.now }
{
    let mut end = 0;
    while end < text.len() && text[end] != APOSTROPHE {
        end += 1;
    }
    end
}

// What stands before the first apostrophe, and behind it.
fn split_at_apostrophe(text: &[u8]) -> (&[u8], &[u8])
    ensures before { result.0.now ≡ before_first is_apostrophe text.now }
    ensures behind { result.1.now ≡ after_first is_apostrophe text.now }
{
    let end = apostrophe_place(text);
    if end < text.len() {
        (&text[..end], &text[end + 1..])
    } else {
        (text, &[])
    }
}

fn digit_width(word: &[u8]) -> Option<u8>
    ensures value { result ≡ spec.digit_width word.now }
    ensures few { IfSome result (λ group. (0 < group) × (group ≤ 4)) }
{
    match word {
        b"B" => Some(1),
        b"B1" => Some(1),
        b"B2" => Some(2),
        b"B3" => Some(3),
        b"B4" => Some(4),
        _ => None,
    }
}

// Digits of so many bits, at most 64 bits in all.
fn bits_of(group: u8, digits: &[u8]) -> Option<Cell>
    requires some { 0 < group }
    requires few { group ≤ 4 }
    ensures { result ≡ spec.bits_of group digits.now }
{
    if digits.len() > 64 {
        return None;
    }
    let len = group as usize * digits.len();
    if len > 64 {
        return None;
    }
    let value = bits_number(group, digits)?;
    Some(Cell::Bits {
        len: len as u8,
        value,
    })
}

// COMING IN

// Whether a number lies from -2^len to 2^len - 1.
fn fits(value: i64, len: u8) -> bool
    ensures { result ≡ fits_fixed len value }
{
    if len >= 63 {
        return true;
    }
    let end = 1i128 << len;
    -end <= value as i128 && value as i128 <= end - 1
}

fn may_come_in(kind: Kind, value: &Cell) -> bool
    ensures { result ≡ spec.may_come_in kind value.now }
{
    match (kind, value) {
        (Kind::Fixed(to), Cell::Fixed { value, .. }) => fits(*value, to),
        (Kind::Bits(to), Cell::Bits { len, .. }) => *len <= to,
        (Kind::Chars(to), Cell::Chars(text)) => text.len() <= to as usize,
        (Kind::Clock, Cell::Clock(_)) => true,
        (Kind::Span, Cell::Span(_)) => true,
        _ => false,
    }
}

/// What a literal gives where values of a kind come in, if any do; none where its kind doesn't suit, or it doesn't fit.
pub(crate) fn coming_in(kind: Option<Kind>, spelled: Literal) -> Option<Cell>
    ensures { result ≡ spec.coming_in kind spelled }
{
    let kind = kind?;
    match spelled {
        Literal::Value(value) => {
            if may_come_in(kind, &value) {
                Some(value)
            } else {
                None
            }
        }
        Literal::TooLong => None,
    }
}

// Fields, and what a field is for a target.

ghost use Rattle.std.specs.Prelude.{◌≡◌, ◌≤◌, ◌<◌, Option, Some, None, IfSome, IfNone, option_map, length, take, drop};
ghost use Rattle.std.specs.List.{position_or_len};
ghost use Rattle.pearl_value.specs.Kinds.{IsKind};
ghost use Rattle.pearl_value.specs.Arithmetic.{fits_span};
ghost use Rattle.pearl_value.specs.Conversions.{fits_fixed};
ghost use Rattle.pearl_value.specs.declared.kind.Kind.TheVariants as kind;
ghost use Rattle.pearl_format.specs.Fields as fields;
ghost use Rattle.pearl_rules.specs.Literals as literals;
ghost use Rattle.pearl_rules.specs.Scan as spec;
ghost use Rattle.pearl_scan.specs.Digits.{signed};

use crate::bits::bits_literal;
use crate::clock::clock_literal;
use crate::gap::{Gap, bare};
use crate::mark::place_of;
use crate::number::number_up_to;
use crate::span::span_literal;
use arrayvec::ArrayVec;
use pearl_format::item::ItemCode;
use pearl_value::cell::Cell;
use pearl_value::conversion::is_in_range;
use pearl_value::kind::Kind;

/// The field at the front: so many bytes, or those before a line end that comes first; none where it isn't complete.
pub(crate) fn field(width: usize, bytes: &[u8]) -> Option<&[u8]>
    ensures some { IfSome result (λ text. spec.field width bytes.now ≡ Some text.now) }
    ensures none { IfNone result (spec.field width bytes.now ≡ None) }
    ensures within { IfSome result (λ text. length text.now ≤ length bytes.now) }
    ensures narrow { IfSome result (λ text. length text.now ≤ width) }
{
    let near = &bytes[..bytes.len().min(width)];
    let end = place_of(b'\n', near);
    if end < near.len() || near.len() == width {
        Some(&near[..end])
    } else {
        None
    }
}

// The first bytes, or all and blanks behind them, up to a length.
fn letters(len: u8, text: &[u8]) -> ArrayVec<u8, 255>
    ensures { result.items ≡ fields.cut_field len text.now }
{
    let mut all = ArrayVec::new();
    let count = text.len().min(len as usize);
    all.try_extend_from_slice(&text[..count]).unwrap();
    for _ in count..len as usize {
        all.push(b' ');
    }
    all
}

// Whether `-` stands in front of the digits, and the digits behind a sign.
fn split_sign(text: &[u8]) -> (bool, &[u8])
    ensures { literals.signed_number text.now ≡ option_map (signed result.0) (literals.decimal_number result.1.now) }
{
    if text.is_empty() {
        return (false, text);
    }
    match text[0] {
        b'-' => (true, &text[1..]),
        b'+' => (false, &text[1..]),
        _ => (false, text),
    }
}

fn with_sign(is_negative: bool, size: u64) -> i128
    ensures { result ≡ signed is_negative size }
{
    if is_negative {
        -(size as i128)
    } else {
        size as i128
    }
}

// The number, where a FIXED of this length can hold it.
fn narrowed(len: u8, value: i128) -> Option<i64>
    requires { len ≤ 63 }
    ensures { result ≡ spec.if_fits (fits_fixed len) (Some value) }
{
    if is_in_range(value, len) {
        Some(value as i64)
    } else {
        None
    }
}

// A number, perhaps with a sign directly in front, that a FIXED of this length can hold.
fn fixed_number(len: u8, text: &[u8]) -> Option<i64>
    requires { IsKind (kind.Fixed len) }
    ensures { result ≡ spec.if_fits (fits_fixed len) (literals.signed_number text.now) }
{
    let (is_negative, digits) = split_sign(text);
    let size = number_up_to(1 << 63, digits)?;
    narrowed(len, with_sign(is_negative, size))
}

// A length of time of a size of at most 2^40 milliseconds.
fn span_number(text: &[u8]) -> Option<i64>
    ensures { result ≡ spec.if_fits fits_span (literals.span_literal spec.is_blank text.now) }
{
    let value = span_literal(Gap::Blanks, text)?;
    if -(1i128 << 40) <= value && value <= 1i128 << 40 {
        Some(value as i64)
    } else {
        None
    }
}

fn bits_value(group: u8, len: u8, text: &[u8]) -> Option<Cell>
    requires some { 0 < group }
    requires few { group ≤ 4 }
    requires is { IsKind (kind.Bits len) }
    ensures { result ≡ option_map (Cell.Bits len) (literals.bits_literal group len (literals.bare spec.is_blank text.now)) }
{
    let value = bits_literal(group, len, bare(Gap::Blanks, text))?;
    Some(Cell::Bits { len, value })
}

/// The value of a complete field for a target of a kind; none where the field is bad, or the item doesn't suit the kind.
pub(crate) fn field_value(code: ItemCode, kind: Kind, text: &[u8]) -> Option<Cell>
    requires { IsKind kind }
    ensures { result ≡ spec.field_value code kind text.now }
{
    match (code, kind) {
        (ItemCode::A, Kind::Chars(len)) => Some(Cell::Chars(letters(len, text))),
        (ItemCode::B1, Kind::Bits(len)) => bits_value(1, len, text),
        (ItemCode::B2, Kind::Bits(len)) => bits_value(2, len, text),
        (ItemCode::B3, Kind::Bits(len)) => bits_value(3, len, text),
        (ItemCode::B4, Kind::Bits(len)) => bits_value(4, len, text),
        (ItemCode::F, Kind::Fixed(len)) => {
            let value = fixed_number(len, bare(Gap::Blanks, text))?;
            Some(Cell::Fixed { len, value })
        }
        (ItemCode::T, Kind::Clock) => Some(Cell::Clock(clock_literal(bare(Gap::Blanks, text))?)),
        (ItemCode::D, Kind::Span) => Some(Cell::Span(span_number(bare(Gap::Blanks, text))?)),
        _ => None,
    }
}

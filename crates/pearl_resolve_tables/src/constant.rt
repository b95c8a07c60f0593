// Constants as values of a kind.

ghost use Rattle.std.specs.Prelude.{◌≡◌, ◌*◌, ◌^◌, nat_le, if◌then◌else◌, length, IfOk};
ghost use Rattle.pearl_program.specs.PlainExpressions.{cell_of};
ghost use Rattle.pearl_tree.specs.Durations.{milliseconds_of};
ghost use Rattle.pearl_tree.specs.ShownLiterals.{shown_const};
ghost use Rattle.pearl_value.specs.Blanks.{blank_of, filled_to, widened};
ghost use Rattle.pearl_value.specs.Conversions.{fixed_of};
ghost use Rattle.pearl_value.specs.declared.cell.Cell.TheVariants.{Bits, Chars, Span};
ghost use Rattle.pearl_value.specs.declared.kind.Kind.TheVariants as kinds;
ghost use Rattle.pearl_resolve_tables.specs.Laying as spec;

use arrayvec::ArrayVec;
use pearl_program::literal::Literal;
use pearl_tree::literal::{Const, Duration, Literal as Written, Sign};
use pearl_value::kind::Kind;
use std::alloc::{AllocError, Global};

fn negative_if(sign: Option<Sign>, value: u64) -> i128
    ensures { result ≡ spec.negative_if sign value }
{
    match sign {
        Some(Sign::Minus) => -(value as i128),
        Some(Sign::Plus) => value as i128,
        None => value as i128,
    }
}

// A number that doesn't fit is 0. A length that no kind has counts as want of memory.
fn fixed_in(len: u8, value: i128) -> Result<Literal, AllocError>
    ensures { IfOk result (λ made. cell_of made ≡ spec.or_blank (kinds.Fixed len) (fixed_of len value)) }
{
    if len > 63 {
        return Err(AllocError);
    }
    let end = (1u64 << len) as i128;
    if -end <= value && value <= end - 1 {
        Ok(Literal::Fixed {
            len,
            value: value as i64,
        })
    } else {
        Ok(Literal::Fixed { len, value: 0 })
    }
}

fn times_power(value: u64, exponent: u8) -> Result<u64, AllocError>
    ensures { IfOk result (λ product. product ≡ value * 2 ^ exponent) }
{
    if exponent > 63 {
        return Err(AllocError);
    }
    match value.checked_mul(1 << exponent) {
        Some(product) => Ok(product),
        None => Err(AllocError),
    }
}

// Bits with zeros on the right. More bits than there is room for are zeros.
fn bits_in(room: u8, len: u8, value: u64) -> Result<Literal, AllocError>
    ensures { IfOk result (λ made. cell_of made ≡
        (if nat_le len room then Bits room (widened len value room) else blank_of (kinds.Bits room))) }
{
    if room < len {
        return Ok(Literal::Bits {
            len: room,
            value: 0,
        });
    }
    let value = times_power(value, room - len)?;
    Ok(Literal::Bits { len: room, value })
}

// The text with blanks on the right, at least `len` bytes in all.
fn filled(text: &ArrayVec<u8, 255>, len: u8) -> ArrayVec<u8, 255>
    ensures { result.items ≡ filled_to len text.now.items }
{
    let mut longer = text.clone().unwrap();
    let from = text.len();
    let to = len as usize;
    for _index in from..to {
        longer.push(b' ');
    }
    longer
}

fn boxed(alloc: Global, text: ArrayVec<u8, 255>) -> Result<Literal, AllocError>
    ensures { IfOk result (λ made. cell_of made ≡ Chars text) }
{
    let text = Box::new(alloc, text)?;
    Ok(Literal::Chars(text))
}

fn blanks(alloc: Global, room: u8) -> Result<Literal, AllocError>
    ensures { IfOk result (λ made. cell_of made ≡ blank_of (kinds.Chars room)) }
{
    let made = boxed(alloc, filled(&ArrayVec::new(), room))?;
    Ok(made)
}

// A text with blanks on the right. One that is longer than there is room for is blanks.
fn chars_in(alloc: Global, room: u8, text: &ArrayVec<u8, 255>) -> Result<Literal, AllocError>
    ensures { IfOk result (λ made. cell_of made ≡
        (if nat_le (length text.now.items) room then Chars (record { items = filled_to room text.now.items }) else blank_of (kinds.Chars room))) }
{
    if text.len() > usize::from(room) {
        let made = blanks(alloc, room)?;
        return Ok(made);
    }
    let made = boxed(alloc, filled(text, room))?;
    Ok(made)
}

fn fixed_constant(len: u8, constant: &Const) -> Result<Literal, AllocError>
    ensures { IfOk result (λ made. cell_of made ≡ spec.constant_in (kinds.Fixed len) (shown_const constant.now)) }
{
    match &constant.literal {
        Written::Number(number) => {
            let made = fixed_in(len, negative_if(constant.sign, number.value))?;
            Ok(made)
        }
        Written::Bits { .. } => Ok(Literal::Fixed { len, value: 0 }),
        Written::Text { .. } => Ok(Literal::Fixed { len, value: 0 }),
        Written::Clock { .. } => Ok(Literal::Fixed { len, value: 0 }),
        Written::Duration(_) => Ok(Literal::Fixed { len, value: 0 }),
    }
}

fn bits_constant(room: u8, constant: &Const) -> Result<Literal, AllocError>
    ensures { IfOk result (λ made. cell_of made ≡ spec.constant_in (kinds.Bits room) (shown_const constant.now)) }
{
    match &constant.literal {
        Written::Bits { len, value, .. } => {
            let made = bits_in(room, *len, *value)?;
            Ok(made)
        }
        Written::Number(_) => Ok(Literal::Bits {
            len: room,
            value: 0,
        }),
        Written::Text { .. } => Ok(Literal::Bits {
            len: room,
            value: 0,
        }),
        Written::Clock { .. } => Ok(Literal::Bits {
            len: room,
            value: 0,
        }),
        Written::Duration(_) => Ok(Literal::Bits {
            len: room,
            value: 0,
        }),
    }
}

fn chars_constant(alloc: Global, room: u8, constant: &Const) -> Result<Literal, AllocError>
    ensures { IfOk result (λ made. cell_of made ≡ spec.constant_in (kinds.Chars room) (shown_const constant.now)) }
{
    match &constant.literal {
        Written::Text { text, .. } => {
            let made = chars_in(alloc, room, text)?;
            Ok(made)
        }
        Written::Number(_) => {
            let made = blanks(alloc, room)?;
            Ok(made)
        }
        Written::Bits { .. } => {
            let made = blanks(alloc, room)?;
            Ok(made)
        }
        Written::Clock { .. } => {
            let made = blanks(alloc, room)?;
            Ok(made)
        }
        Written::Duration(_) => {
            let made = blanks(alloc, room)?;
            Ok(made)
        }
    }
}

fn clock_constant(constant: &Const) -> Literal
    ensures { cell_of result ≡ spec.constant_in kinds.Clock (shown_const constant.now) }
{
    match &constant.literal {
        Written::Clock { milliseconds, .. } => Literal::Clock(*milliseconds),
        Written::Number(_) => Literal::Clock(0),
        Written::Bits { .. } => Literal::Clock(0),
        Written::Text { .. } => Literal::Clock(0),
        Written::Duration(_) => Literal::Clock(0),
    }
}

// A length of time that is no value counts as want of memory.
fn span_of(sign: Option<Sign>, duration: &Duration) -> Result<Literal, AllocError>
    ensures { IfOk result (λ made. cell_of made ≡ Span (spec.negative_if sign (milliseconds_of duration.now))) }
{
    let time = match u64::try_from(duration.milliseconds()) {
        Ok(time) => time,
        Err(_) => return Err(AllocError),
    };
    match i64::try_from(negative_if(sign, time)) {
        Ok(time) => Ok(Literal::Span(time)),
        Err(_) => Err(AllocError),
    }
}

fn span_constant(constant: &Const) -> Result<Literal, AllocError>
    ensures { IfOk result (λ made. cell_of made ≡ spec.constant_in kinds.Span (shown_const constant.now)) }
{
    match &constant.literal {
        Written::Duration(duration) => {
            let made = span_of(constant.sign, duration)?;
            Ok(made)
        }
        Written::Number(_) => Ok(Literal::Span(0)),
        Written::Bits { .. } => Ok(Literal::Span(0)),
        Written::Text { .. } => Ok(Literal::Span(0)),
        Written::Clock { .. } => Ok(Literal::Span(0)),
    }
}

/// A constant as a value of a kind. One that doesn't fit is what is unset of the kind, and a value beyond all kinds counts
/// as want of memory.
pub(crate) fn constant_in(
    alloc: Global,
    kind: Kind,
    constant: &Const,
) -> Result<Literal, AllocError>
    ensures { IfOk result (λ made. cell_of made ≡ spec.constant_in kind (shown_const constant.now)) }
{
    match kind {
        Kind::Fixed(len) => {
            let made = fixed_constant(len, constant)?;
            Ok(made)
        }
        Kind::Bits(room) => {
            let made = bits_constant(room, constant)?;
            Ok(made)
        }
        Kind::Chars(room) => {
            let made = chars_constant(alloc, room, constant)?;
            Ok(made)
        }
        Kind::Clock => Ok(clock_constant(constant)),
        Kind::Span => {
            let made = span_constant(constant)?;
            Ok(made)
        }
    }
}

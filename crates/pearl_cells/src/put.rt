// A value written into a cell where the cell lies. Of a small variant its fields alone are written, and of a text its bytes: a
// new cell would be as large as the largest one.

ghost use Rattle.std.specs.Prelude.{◌≡◌, ◌≤◌, length, replicate};
ghost use Rattle.pearl_value.specs.declared.cell.Cell.{Cell};
ghost use Rattle.pearl_value.specs.Blanks.{blank_of, filled_to};
ghost use Rattle.pearl_value.specs.Kinds.{IsKind};
ghost use Rattle.pearl_cells.specs.Filled.{filled};

use arrayvec::ArrayVec;
use pearl_value::cell::{Cell, Place};
use pearl_value::kind::Kind;

static BLANKS: [u8; 255] = [b' '; 255];

/// Makes the cell this number.
#[inline]
pub fn put_fixed(place: &mut Cell, len: u8, value: i64)
    ensures { place.new ≡ Cell.Fixed len value }
{
    match place {
        Cell::Fixed { len: length, .. } => {
            *length = len;
        }
        _ => {
            *place = Cell::Fixed { len, value };
            return;
        }
    }
    if let Cell::Fixed { value: number, .. } = place {
        *number = value;
    }
}

/// Makes the cell these bits.
#[inline]
pub fn put_bits(place: &mut Cell, len: u8, value: u64)
    ensures { place.new ≡ Cell.Bits len value }
{
    match place {
        Cell::Bits {
            len: length,
            value: bits,
        } => {
            *length = len;
            *bits = value;
        }
        _ => {
            *place = Cell::Bits { len, value };
        }
    }
}

/// Makes the cell this text.
#[inline]
pub fn put_chars(place: &mut Cell, text: &[u8])
    requires { length text.now ≤ 255 }
    ensures { place.new ≡ Cell.Chars (record { items = text.now }) }
{
    match place {
        Cell::Chars(old) => put_text(old, text),
        _ => {
            let mut new = ArrayVec::new();
            put_text(&mut new, text);
            *place = Cell::Chars(new);
        }
    }
}

/// Makes the cell this time of day.
#[inline]
pub fn put_clock(place: &mut Cell, time: u32)
    ensures { place.new ≡ Cell.Clock time }
{
    match place {
        Cell::Clock(old) => {
            *old = time;
        }
        _ => {
            *place = Cell::Clock(time);
        }
    }
}

/// Makes the cell this duration.
#[inline]
pub fn put_span(place: &mut Cell, time: i64)
    ensures { place.new ≡ Cell.Span time }
{
    match place {
        Cell::Span(old) => {
            *old = time;
        }
        _ => {
            *place = Cell::Span(time);
        }
    }
}

/// Makes the cell a reference.
#[inline]
pub fn put_ref(place: &mut Cell, of: Kind, to: Place)
    ensures { place.new ≡ Cell.Ref of to }
{
    match place {
        Cell::Ref { kind, place: old } => {
            *kind = of;
            *old = to;
        }
        _ => {
            *place = Cell::Ref {
                kind: of,
                place: to,
            };
        }
    }
}

/// Makes the cell the same value as another one.
#[inline]
pub fn put_copy(place: &mut Cell, x: &Cell)
    ensures { place.new ≡ x.now }
{
    match x {
        Cell::Fixed { len, value } => put_fixed(place, *len, *value),
        Cell::Bits { len, value } => put_bits(place, *len, *value),
        Cell::Chars(text) => put_chars(place, text.as_slice()),
        Cell::Clock(time) => put_clock(place, *time),
        Cell::Span(time) => put_span(place, *time),
        Cell::Ref { kind, place: to } => put_ref(place, *kind, *to),
    }
}

/// Makes the cell what is unset of the kind.
#[inline]
pub fn put_blank(place: &mut Cell, kind: Kind)
    requires { IsKind kind }
    ensures { place.new ≡ blank_of kind }
{
    match kind {
        Kind::Fixed(len) => put_fixed(place, len, 0),
        Kind::Bits(len) => put_bits(place, len, 0),
        Kind::Chars(len) => put_chars(place, blanks(len as usize)),
        Kind::Clock => put_clock(place, 0),
        Kind::Span => put_span(place, 0),
    }
}

/// Fills the cell, where it is a CHAR, with blanks on the right, up to so many bytes.
#[inline]
pub fn fill_chars(place: &mut Cell, len: u8)
    ensures { place.new ≡ filled len place.old }
{
    if let Cell::Chars(text) = place {
        fill_text(text, len);
    }
}

// Makes the text these bytes.
#[inline]
fn put_text(place: &mut ArrayVec<u8, 255>, text: &[u8])
    requires { length text.now ≤ 255 }
    ensures { place.new.items ≡ text.now }
{
    place.clear();
    place.try_extend_from_slice(text).unwrap();
}

// Fills the text with blanks on the right, up to so many bytes.
#[inline]
fn fill_text(text: &mut ArrayVec<u8, 255>, len: u8)
    ensures { text.new.items ≡ filled_to len text.old.items }
{
    let missing = (len as usize).saturating_sub(text.len());
    text.try_extend_from_slice(blanks(missing)).unwrap();
}

// So many blanks.
#[inline]
pub(crate) fn blanks(count: usize) -> &'static [u8]
    requires { count ≤ 255 }
    ensures { result.now ≡ replicate count 32 }
{
    &BLANKS[..count]
}

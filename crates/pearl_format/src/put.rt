// What PUT writes by a list of items.

ghost use Rattle.std.specs.Prelude.{◌≡◌, ◌+◌, ◌≤◌, ◌<◌, ◌↔◌, ◌++◌, [], All, IfErr, IsErr, IfOk, OnOk, Some, None, length, map, replicate};
ghost use Rattle.pearl_value.specs.Cells.{kind_of};
ghost use Rattle.pearl_value.specs.WellFormed.{IsValue};
ghost use Rattle.pearl_format.specs.Bytes.{IsTextByte};
ghost use Rattle.pearl_format.specs.Items.{Suits, data_here, skip_count, letters_width, bits_width, width_over, text_width};
ghost use Rattle.pearl_format.specs.Longer.{IsSomeLonger};
ghost use Rattle.pearl_format.specs.Parts.{own_text, letters_item, bits_item, number_item, clock_item, span_item};
ghost use Rattle.pearl_format.specs.Texts.{joined_text, text_of};

use crate::field::{
    bits_text, clock_text, push_copies, put_cut, put_left, put_right, span_text, width_or,
};
use crate::item::{Item, ItemCode};
use arrayvec::ArrayVec;
use itoa::Buffer;
use pearl_value::cell::Cell;
use pearl_value::trap::Trap;

/// Makes `into` the text of the items over these values, whatever it held before. After a trap it is empty.
pub fn put_text(items: &[Item], values: &[Cell], into: &mut ArrayVec<u8, 1024>) -> Result<(), Trap>
    requires suits { Suits items.now (map kind_of values.now) }
    requires values { All IsValue values.now }
    requires short { text_width items.now (map kind_of values.now) ≤ 1024 }
    ensures ok { OnOk result (text_of items.now values.now ≡ Some into.new.items) }
    ensures err { IfErr result (λ trap.
        (trap ≡ Trap.Format) × (text_of items.now values.now ≡ None) × (into.new.items ≡ [])) }
    ensures trap { IsErr result ↔ IsSomeLonger items.now values.now }
    ensures fits { length into.new.items ≤ text_width items.now (map kind_of values.now) }
    ensures printable { All IsTextByte into.new.items }
{
    into.clear();
    match put_items(items, values, into) {
        Ok(()) => Ok(()),
        Err(trap) => {
            into.clear();
            Err(trap)
        }
    }
}

// Appends the text of the items.
fn put_items(items: &[Item], values: &[Cell], into: &mut ArrayVec<u8, 1024>) -> Result<(), Trap>
    requires { length into.old.items + text_width items.now (map kind_of values.now) ≤ 1024 }
    ensures ok { OnOk result
        (joined_text (Some into.old.items) (text_of items.now values.now) ≡ Some into.new.items) }
    ensures err { IfErr result (λ trap.
        (trap ≡ Trap.Format) × (text_of items.now values.now ≡ None)) }
{
    let mut rest = values;
    for item in items {
        let taken = put_item(item, rest, into)?;
        rest = &rest[taken..];
    }
    Ok(())
}

// Appends the text of one item, and says how many of the values it took.
fn put_item(item: &Item, values: &[Cell], into: &mut ArrayVec<u8, 1024>) -> Result<usize, Trap>
    requires { length into.old.items + width_over item.now.code item.now.width (map kind_of values.now) ≤ 1024 }
    ensures taken { IfOk result (λ taken.
        (taken ≡ data_here item.now.code) × (taken ≤ length values.now)) }
    ensures ok { OnOk result
        (let text = own_text item.now.code item.now.width values.now in
        joined_text (Some into.old.items) text ≡ Some into.new.items) }
    ensures err { IfErr result (λ trap.
        (trap ≡ Trap.Format) × (own_text item.now.code item.now.width values.now ≡ None)) }
{
    match item.code {
        ItemCode::A => put_letters(item.width, values, into),
        ItemCode::B1 => put_bits(1, item.width, values, into),
        ItemCode::B2 => put_bits(2, item.width, values, into),
        ItemCode::B3 => put_bits(3, item.width, values, into),
        ItemCode::B4 => put_bits(4, item.width, values, into),
        ItemCode::F => put_number(item.width, values, into),
        ItemCode::T => put_clock(item.width, values, into),
        ItemCode::D => put_span(item.width, values, into),
        ItemCode::X => {
            put_same(b' ', item.width, into);
            Ok(0)
        }
        ItemCode::Skip => {
            put_same(b'\n', item.width, into);
            Ok(0)
        }
    }
}

// A: the first value's bytes. A value of another kind has no text by an item; no list of items that suit takes one.
fn put_letters(width: u8, values: &[Cell], into: &mut ArrayVec<u8, 1024>) -> Result<usize, Trap>
    requires { length into.old.items + letters_width width (map kind_of values.now) ≤ 1024 }
    ensures taken { IfOk result (λ taken. (taken ≡ 1) × (taken ≤ length values.now)) }
    ensures ok { OnOk result
        (joined_text (Some into.old.items) (letters_item width values.now) ≡ Some into.new.items) }
    ensures err { IfErr result (λ trap. (trap ≡ Trap.Format) × (letters_item width values.now ≡ None)) }
{
    match values.first() {
        Some(Cell::Chars(text)) => {
            put_cut(width_or(width, text.len()), text.as_slice(), into);
            Ok(1)
        }
        _ => Err(Trap::Format),
    }
}

// B1 to B4: the first value in digits of `group` bits.
fn put_bits(
    group: u8,
    width: u8,
    values: &[Cell],
    into: &mut ArrayVec<u8, 1024>,
) -> Result<usize, Trap>
    requires some { 0 < group }
    requires few { group ≤ 4 }
    requires room { length into.old.items + bits_width group width (map kind_of values.now) ≤ 1024 }
    ensures taken { IfOk result (λ taken. (taken ≡ 1) × (taken ≤ length values.now)) }
    ensures ok { OnOk result
        (joined_text (Some into.old.items) (bits_item group width values.now) ≡ Some into.new.items) }
    ensures err { IfErr result (λ trap. (trap ≡ Trap.Format) × (bits_item group width values.now ≡ None)) }
{
    match values.first() {
        Some(Cell::Bits { len, value }) => {
            let text = bits_text(group, *len, *value);
            put_left(width_or(width, text.len()), text.as_slice(), into)?;
            Ok(1)
        }
        _ => Err(Trap::Format),
    }
}

// F: the first value in decimal.
fn put_number(width: u8, values: &[Cell], into: &mut ArrayVec<u8, 1024>) -> Result<usize, Trap>
    requires { length into.old.items + width ≤ 1024 }
    ensures taken { IfOk result (λ taken. (taken ≡ 1) × (taken ≤ length values.now)) }
    ensures ok { OnOk result
        (joined_text (Some into.old.items) (number_item width values.now) ≡ Some into.new.items) }
    ensures err { IfErr result (λ trap. (trap ≡ Trap.Format) × (number_item width values.now ≡ None)) }
{
    match values.first() {
        Some(Cell::Fixed { value, .. }) => {
            let mut buffer = Buffer::new();
            put_right(width as usize, buffer.format(*value).as_bytes(), into)?;
            Ok(1)
        }
        _ => Err(Trap::Format),
    }
}

// T: the first value, a time of day.
fn put_clock(width: u8, values: &[Cell], into: &mut ArrayVec<u8, 1024>) -> Result<usize, Trap>
    requires { length into.old.items + width ≤ 1024 }
    ensures taken { IfOk result (λ taken. (taken ≡ 1) × (taken ≤ length values.now)) }
    ensures ok { OnOk result
        (joined_text (Some into.old.items) (clock_item width values.now) ≡ Some into.new.items) }
    ensures err { IfErr result (λ trap. (trap ≡ Trap.Format) × (clock_item width values.now ≡ None)) }
{
    match values.first() {
        Some(Cell::Clock(time)) => {
            put_right(width as usize, clock_text(width, *time).as_slice(), into)?;
            Ok(1)
        }
        _ => Err(Trap::Format),
    }
}

// D: the first value, a duration.
fn put_span(width: u8, values: &[Cell], into: &mut ArrayVec<u8, 1024>) -> Result<usize, Trap>
    requires { length into.old.items + width ≤ 1024 }
    ensures taken { IfOk result (λ taken. (taken ≡ 1) × (taken ≤ length values.now)) }
    ensures ok { OnOk result
        (joined_text (Some into.old.items) (span_item width values.now) ≡ Some into.new.items) }
    ensures err { IfErr result (λ trap. (trap ≡ Trap.Format) × (span_item width values.now ≡ None)) }
{
    match values.first() {
        Some(Cell::Span(time)) => {
            put_right(width as usize, span_text(*time).as_slice(), into)?;
            Ok(1)
        }
        _ => Err(Trap::Format),
    }
}

// X and SKIP: the same byte as often as the item says, and once where it says nothing.
fn put_same(byte: u8, width: u8, into: &mut ArrayVec<u8, 1024>)
    requires { length into.old.items + skip_count width ≤ 1024 }
    ensures { into.new.items ≡ into.old.items ++ replicate (skip_count width) byte }
{
    push_copies(width_or(width, 1), byte, into);
}

// The words of a listing.

ghost use Rattle.std.specs.Prelude.{◌≡◌, ◌++◌, ◌≤◌, List, ℕ, codes, length, OnOk};
ghost use Rattle.std.specs.Fmt.{decimal, signed_decimal};
ghost use Rattle.std.specs.List.{flat_map};
ghost use Rattle.pearl_value.specs.WellFormed.{IsValue};
ghost use Rattle.pearl_script.specs.Literals.{literal};
ghost use Rattle.pearl_object.specs.Listing.{word, number_word, bounds_words, kind_text, once_words, maybe_words, start_words, operand_words, item_text, width_text, item_word};

use crate::operands::trap_tag;
use crate::spelling::Spelling;
use arrayvec::ArrayVec;
use itoa::Buffer;
use pearl_format::item::{Item, ItemCode};
use pearl_instructions::instr::Bounds;
use pearl_instructions::schedule::{OnceForm, RepeatForm, StartForm};
use pearl_script::literal::push_literal;
use pearl_value::cell::Cell;
use pearl_value::conversion;
use pearl_value::kind::Kind;
use pearl_value::trap::Trap;
use std::alloc::{AllocError, Global};

/// A word behind a blank.
pub(crate) fn put_word(out: &mut Vec<u8>, text: &[u8]) -> Result<(), AllocError>
    ensures { OnOk result (out.new.items ≡ out.old.items ++ word text.now) }
{
    out.push(b' ')?;
    out.extend_from_slice(text)?;
    Ok(())
}

/// A number in decimal.
pub(crate) fn put_decimal(out: &mut Vec<u8>, number: u64) -> Result<(), AllocError>
    ensures { OnOk result (out.new.items ≡ out.old.items ++ decimal number) }
{
    let mut buffer = Buffer::new();
    out.extend_from_slice(buffer.format(number).as_bytes())?;
    Ok(())
}

/// A number behind a blank.
pub(crate) fn put_number_word(out: &mut Vec<u8>, number: u64) -> Result<(), AllocError>
    ensures { OnOk result (out.new.items ≡ out.old.items ++ number_word number) }
{
    out.push(b' ')?;
    put_decimal(out, number)?;
    Ok(())
}

fn put_signed_word(out: &mut Vec<u8>, number: i32) -> Result<(), AllocError>
    ensures { OnOk result (out.new.items ≡ out.old.items ++ word (signed_decimal number)) }
{
    let mut buffer = Buffer::new();
    put_word(out, buffer.format(number).as_bytes())?;
    Ok(())
}

// The word of a kind with a length, which begins so.
fn put_length(out: &mut Vec<u8>, front: &[u8], len: u8) -> Result<(), AllocError>
    ensures { OnOk result (out.new.items ≡ out.old.items ++ word (front.now ++ decimal len ++ codes ")")) }
{
    put_word(out, front)?;
    put_decimal(out, u64::from(len))?;
    out.push(b')')?;
    Ok(())
}

/// A kind behind a blank.
pub(crate) fn put_kind_word(out: &mut Vec<u8>, kind: Kind) -> Result<(), AllocError>
    ensures { OnOk result (out.new.items ≡ out.old.items ++ word (kind_text kind)) }
{
    match kind {
        Kind::Fixed(len) => put_length(out, b"FIXED(", len)?,
        Kind::Bits(len) => put_length(out, b"BIT(", len)?,
        Kind::Chars(len) => put_length(out, b"CHAR(", len)?,
        Kind::Clock => put_word(out, b"CLOCK")?,
        Kind::Span => put_word(out, b"DURATION")?,
    }
    Ok(())
}

// A value as a literal, behind a blank.
fn put_literal_word(out: &mut Vec<u8>, value: &Cell) -> Result<(), AllocError>
    requires { IsValue value.now }
    ensures { OnOk result (out.new.items ≡ out.old.items ++ word (literal value.now)) }
{
    let mut text = ArrayVec::new();
    push_literal(value, &mut text);
    put_word(out, text.as_slice())?;
    Ok(())
}

/// What stands among the words of a line, as often as there are members of a list.
pub(crate) trait Worded {
    ghost words: { Self → List ℕ };

    fn put_words(&self, out: &mut Vec<u8>) -> Result<(), AllocError>
        ensures { OnOk result (out.new.items ≡ out.old.items ++ words self.now) };
}

/// The words of each.
pub(crate) fn put_each<T: Worded>(out: &mut Vec<u8>, items: &[T]) -> Result<(), AllocError>
    ensures { OnOk result (out.new.items ≡ out.old.items ++ flat_map T.words items.now) }
{
    for item in items {
        item.put_words(out)?;
    }
    Ok(())
}

impl Worded for u64 {
    ghost words = { number_word };

    fn put_words(&self, out: &mut Vec<u8>) -> Result<(), AllocError> {
        put_number_word(out, *self)?;
        Ok(())
    }
}

impl Worded for Bounds {
    ghost words = { bounds_words };

    fn put_words(&self, out: &mut Vec<u8>) -> Result<(), AllocError> {
        put_signed_word(out, self.low)?;
        put_signed_word(out, self.high)?;
        Ok(())
    }
}

fn item_text(code: ItemCode) -> &'static [u8]
    ensures { result.now ≡ item_text code }
{
    match code {
        ItemCode::A => b"A",
        ItemCode::B1 => b"B1",
        ItemCode::B2 => b"B2",
        ItemCode::B3 => b"B3",
        ItemCode::B4 => b"B4",
        ItemCode::F => b"F",
        ItemCode::T => b"T",
        ItemCode::D => b"D",
        ItemCode::X => b"X",
        ItemCode::Skip => b"SKIP",
    }
}

fn put_width(out: &mut Vec<u8>, width: u8) -> Result<(), AllocError>
    ensures { OnOk result (out.new.items ≡ out.old.items ++ width_text width) }
{
    if width == 0 {
        return Ok(());
    }
    out.push(b'(')?;
    put_decimal(out, u64::from(width))?;
    out.push(b')')?;
    Ok(())
}

impl Worded for Item {
    ghost words = { item_word };

    fn put_words(&self, out: &mut Vec<u8>) -> Result<(), AllocError> {
        put_word(out, item_text(self.code))?;
        put_width(out, self.width)?;
        Ok(())
    }
}

fn put_once_words(out: &mut Vec<u8>, value: OnceForm) -> Result<(), AllocError>
    ensures { OnOk result (out.new.items ≡ out.old.items ++ once_words value) }
{
    match value {
        OnceForm::At => put_number_word(out, 1)?,
        OnceForm::After => put_number_word(out, 2)?,
        OnceForm::When(device) => {
            put_number_word(out, 3)?;
            put_number_word(out, device)?;
        }
    }
    Ok(())
}

fn put_start_words(out: &mut Vec<u8>, value: StartForm) -> Result<(), AllocError>
    ensures { OnOk result (out.new.items ≡ out.old.items ++ start_words value) }
{
    match value {
        StartForm::Free => put_number_word(out, 0)?,
        StartForm::At => put_number_word(out, 1)?,
        StartForm::After => put_number_word(out, 2)?,
        StartForm::When(device) => {
            put_number_word(out, 3)?;
            put_number_word(out, device)?;
        }
        StartForm::WhenAfter(device) => {
            put_number_word(out, 4)?;
            put_number_word(out, device)?;
        }
    }
    Ok(())
}

/// The operands as they stand in a listing.
pub struct Words;

impl Spelling for Words {
    ghost text = { operand_words };

    ghost suits = { IsValue };

    fn number(out: &mut Vec<u8>, value: u64) -> Result<(), AllocError> {
        put_number_word(out, value)?;
        Ok(())
    }

    fn kind(out: &mut Vec<u8>, value: Kind) -> Result<(), AllocError> {
        put_kind_word(out, value)?;
        Ok(())
    }

    fn literal(out: &mut Vec<u8>, value: &Cell) -> Result<(), AllocError> {
        put_kind_word(out, conversion::kind(value))?;
        put_literal_word(out, value)?;
        Ok(())
    }

    fn numbers(out: &mut Vec<u8>, list: &[u64]) -> Result<(), AllocError> {
        put_each::<u64>(out, list)?;
        Ok(())
    }

    fn bounds(out: &mut Vec<u8>, list: &[Bounds]) -> Result<(), AllocError> {
        put_each::<Bounds>(out, list)?;
        Ok(())
    }

    fn cause(out: &mut Vec<u8>, value: Trap) -> Result<(), AllocError> {
        put_number_word(out, u64::from(trap_tag(value)))?;
        Ok(())
    }

    fn once(out: &mut Vec<u8>, value: OnceForm) -> Result<(), AllocError> {
        put_once_words(out, value)?;
        Ok(())
    }

    fn maybe_once(out: &mut Vec<u8>, value: Option<OnceForm>) -> Result<(), AllocError> {
        match value {
            None => put_number_word(out, 0)?,
            Some(form) => put_once_words(out, form)?,
        }
        Ok(())
    }

    fn start(out: &mut Vec<u8>, value: StartForm) -> Result<(), AllocError> {
        put_start_words(out, value)?;
        Ok(())
    }

    fn repeat(out: &mut Vec<u8>, value: RepeatForm) -> Result<(), AllocError> {
        match value {
            RepeatForm::Once => put_number_word(out, 0)?,
            RepeatForm::All => put_number_word(out, 1)?,
            RepeatForm::Until => put_number_word(out, 2)?,
            RepeatForm::During => put_number_word(out, 3)?,
        }
        Ok(())
    }

    fn flag(out: &mut Vec<u8>, value: bool) -> Result<(), AllocError> {
        if value {
            put_number_word(out, 1)?;
        } else {
            put_number_word(out, 0)?;
        }
        Ok(())
    }
}

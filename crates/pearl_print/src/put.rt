// The text of one token, appended to a text.
#![tactic(auto, unfolding(crate::specs::Spelled::text_of_tokens, crate::specs::Spelled::spelled))]

ghost use Rattle.std.specs.Prelude.{◌≡◌, ◌<◌, ◌+◌, ◌/◌, ◌%◌, ◌^◌, ◌++◌, [], ◌∷◌, codes, OnOk};
ghost use Rattle.std.specs.Fmt.{decimal};
ghost use Rattle.pearl_tree.specs.declared.token.What.TheVariants as what;
ghost use Rattle.pearl_tree.specs.Symbols.{symbol_count};
ghost use Rattle.pearl_tree.specs.Words.{code_count};
ghost use Rattle.pearl_lex.specs.Spells.{doubled};
ghost use Rattle.pearl_print.specs.Spelled.{binary, two_digits, three_digits, clock_text, fraction, text_of_tokens};
ghost use Rattle.pearl_print.specs.Lists.{word, symbol, id};

use arrayvec::ArrayVec;
use itoa::Buffer;
use pearl_tree::symbol::{SEMICOLON, symbol_text};
use pearl_tree::word::word_text;
use std::alloc::AllocError as NoMemory;

pub(crate) fn put_word(into: &mut Vec<u8>, code: u8) -> Result<(), NoMemory>
    requires { code < code_count }
    ensures { OnOk result (into.new.items ≡ into.old.items ++ text_of_tokens (word code)) }
{
    into.extend_from_slice(word_text(code))?;
    into.push(b' ')?;
    Ok(())
}

pub(crate) fn put_symbol(into: &mut Vec<u8>, code: u8) -> Result<(), NoMemory>
    requires { code < symbol_count }
    ensures { OnOk result (into.new.items ≡ into.old.items ++ text_of_tokens (symbol code)) }
{
    into.extend_from_slice(symbol_text(code))?;
    if code == SEMICOLON {
        into.push(b'\n')?;
    } else {
        into.push(b' ')?;
    }
    Ok(())
}

pub(crate) fn put_id(into: &mut Vec<u8>, text: &[u8]) -> Result<(), NoMemory>
    ensures { OnOk result (into.new.items ≡ into.old.items ++ text_of_tokens (id text.now)) }
{
    into.extend_from_slice(text)?;
    into.push(b' ')?;
    Ok(())
}

// A number may be greater than one in a source, where hours were carried.
pub(crate) fn put_value(into: &mut Vec<u8>, value: u128) -> Result<(), NoMemory>
    ensures { OnOk result (into.new.items ≡ into.old.items ++ text_of_tokens (what.Number value ∷ [])) }
{
    put_digits(into, value)?;
    into.push(b' ')?;
    Ok(())
}

pub(crate) fn put_decimal(into: &mut Vec<u8>, whole: u128, thousandths: u32) -> Result<(), NoMemory>
    ensures { OnOk result
        (into.new.items ≡ into.old.items ++ text_of_tokens (what.Decimal whole thousandths ∷ [])) }
{
    put_digits(into, whole)?;
    into.push(b'.')?;
    put_three(into, thousandths)?;
    into.push(b' ')?;
    Ok(())
}

pub(crate) fn put_clock(into: &mut Vec<u8>, milliseconds: u32) -> Result<(), NoMemory>
    ensures { OnOk result
        (into.new.items ≡ into.old.items ++ text_of_tokens (what.Clock milliseconds ∷ [])) }
{
    put_two(into, milliseconds / 3_600_000)?;
    into.push(b':')?;
    put_two(into, milliseconds / 60_000 % 60)?;
    into.push(b':')?;
    put_two(into, milliseconds / 1000 % 60)?;
    put_fraction(into, milliseconds % 1000)?;
    into.push(b' ')?;
    Ok(())
}

pub(crate) fn put_bits(into: &mut Vec<u8>, len: u8, value: u64) -> Result<(), NoMemory>
    ensures { OnOk result
        (into.new.items ≡ into.old.items ++ text_of_tokens (what.Bits len value ∷ [])) }
{
    into.push(b'\'')?;
    put_binary(into, len, value)?;
    into.extend_from_slice(b"'B")?;
    into.push(b' ')?;
    Ok(())
}

pub(crate) fn put_text(into: &mut Vec<u8>, text: &ArrayVec<u8, 255>) -> Result<(), NoMemory>
    ensures { OnOk result
        (into.new.items ≡ into.old.items ++ text_of_tokens (what.Text text.now ∷ [])) }
{
    into.push(b'\'')?;
    put_doubled(into, text.as_slice())?;
    into.push(b'\'')?;
    into.push(b' ')?;
    Ok(())
}

fn put_digits(into: &mut Vec<u8>, value: u128) -> Result<(), NoMemory>
    ensures { OnOk result (into.new.items ≡ into.old.items ++ decimal value) }
{
    let mut buffer = Buffer::new();
    into.extend_from_slice(buffer.format(value).as_bytes())?;
    Ok(())
}

// The last digit.
fn digit(value: u32) -> u8
    ensures { result ≡ 48 + value % 10 }
{
    b'0' + (value % 10) as u8
}

fn put_two(into: &mut Vec<u8>, value: u32) -> Result<(), NoMemory>
    ensures { OnOk result (into.new.items ≡ into.old.items ++ two_digits value) }
{
    into.push(digit(value / 10))?;
    into.push(digit(value))?;
    Ok(())
}

fn put_three(into: &mut Vec<u8>, value: u32) -> Result<(), NoMemory>
    ensures { OnOk result (into.new.items ≡ into.old.items ++ three_digits value) }
{
    into.push(digit(value / 100))?;
    put_two(into, value)?;
    Ok(())
}

fn put_fraction(into: &mut Vec<u8>, thousandths: u32) -> Result<(), NoMemory>
    ensures { OnOk result (into.new.items ≡ into.old.items ++ fraction thousandths) }
{
    if thousandths > 0 {
        into.push(b'.')?;
        put_three(into, thousandths)?;
    }
    Ok(())
}

fn put_binary(into: &mut Vec<u8>, len: u8, value: u64) -> Result<(), NoMemory>
    ensures { OnOk result (into.new.items ≡ into.old.items ++ binary len value) }
{
    let mut left = len;
    while left > 0 {
        left -= 1;
        into.push(bit(value, left))?;
    }
    Ok(())
}

// The bit with so many others below it.
fn bit(value: u64, below: u8) -> u8
    ensures { result ≡ 48 + value / 2 ^ below % 2 }
{
    if below < 64 {
        b'0' + ((value >> below) % 2) as u8
    } else {
        b'0'
    }
}

fn put_doubled(into: &mut Vec<u8>, text: &[u8]) -> Result<(), NoMemory>
    ensures { OnOk result (into.new.items ≡ into.old.items ++ doubled text.now) }
{
    for byte in text {
        if *byte == b'\'' {
            into.push(b'\'')?;
        }
        into.push(*byte)?;
    }
    Ok(())
}

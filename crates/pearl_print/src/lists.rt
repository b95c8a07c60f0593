// Parts that stand one after the other, with commas or without.
#![tactic(auto, using(crate::proofs::Texts::text_steps, std::proofs::lemmas::Grind::common_steps))]

ghost use Rattle.std.specs.Prelude.{◌≡◌, ◌<◌, ◌++◌, List, OnOk};
ghost use Rattle.std.specs.List.{flat_map};
ghost use Rattle.pearl_tree.specs.declared.token.What.{What};
ghost use Rattle.pearl_tree.specs.Words.{code_count};
ghost use Rattle.pearl_print.specs.Spelled.{text_of_tokens};
ghost use Rattle.pearl_print.specs.Lists.{listed, bracketed, maybe_bracketed, maybe_headed, maybe, flag, bracketed_number, name_tokens, number_tokens};

use crate::put::{put_id, put_symbol, put_value, put_word};
use pearl_tree::name::{Name, Number};
use pearl_tree::symbol::{COMMA, LEFT_ROUND, RIGHT_ROUND};
use std::alloc::AllocError as NoMemory;

/// A part of a tree that stands in lists.
pub(crate) trait Part {
    ghost tokens: { Self → List What };

    fn put(&self, into: &mut Vec<u8>) -> Result<(), NoMemory>
        ensures { OnOk result (into.new.items ≡ into.old.items ++ text_of_tokens (tokens self.now)) };
}

impl Part for Name {
    ghost tokens = { name_tokens };

    fn put(&self, into: &mut Vec<u8>) -> Result<(), NoMemory> {
        put_id(into, self.text.as_slice())
    }
}

impl Part for Number {
    ghost tokens = { number_tokens };

    fn put(&self, into: &mut Vec<u8>) -> Result<(), NoMemory> {
        put_value(into, u128::from(self.value))
    }
}

pub(crate) fn put_each<T: Part>(into: &mut Vec<u8>, parts: &[T]) -> Result<(), NoMemory>
    ensures { OnOk result (into.new.items ≡ into.old.items ++ text_of_tokens (flat_map T.tokens parts.now)) }
{
    for part in parts {
        part.put(into)?;
    }
    Ok(())
}

pub(crate) fn put_listed<T: Part>(into: &mut Vec<u8>, parts: &[T]) -> Result<(), NoMemory>
    ensures { OnOk result (into.new.items ≡ into.old.items ++ text_of_tokens (listed T.tokens parts.now)) }
{
    if let [first, rest @ ..] = parts {
        first.put(into)?;
        for part in rest {
            put_symbol(into, COMMA)?;
            part.put(into)?;
        }
    }
    Ok(())
}

pub(crate) fn put_bracketed<T: Part>(into: &mut Vec<u8>, parts: &[T]) -> Result<(), NoMemory>
    ensures { OnOk result (into.new.items ≡ into.old.items ++ text_of_tokens (bracketed T.tokens parts.now)) }
{
    put_symbol(into, LEFT_ROUND)?;
    put_listed(into, parts)?;
    put_symbol(into, RIGHT_ROUND)?;
    Ok(())
}

pub(crate) fn put_maybe_bracketed<T: Part>(into: &mut Vec<u8>, parts: &[T]) -> Result<(), NoMemory>
    ensures { OnOk result
        (into.new.items ≡ into.old.items ++ text_of_tokens (maybe_bracketed T.tokens parts.now)) }
{
    if !parts.is_empty() {
        put_bracketed(into, parts)?;
    }
    Ok(())
}

pub(crate) fn put_maybe_headed<T: Part>(
    into: &mut Vec<u8>,
    code: u8,
    parts: &[T],
) -> Result<(), NoMemory>
    requires { code < code_count }
    ensures { OnOk result
        (into.new.items ≡ into.old.items ++ text_of_tokens (maybe_headed code T.tokens parts.now)) }
{
    if !parts.is_empty() {
        put_word(into, code)?;
        put_bracketed(into, parts)?;
    }
    Ok(())
}

pub(crate) fn put_maybe<T: Part>(into: &mut Vec<u8>, part: &Option<T>) -> Result<(), NoMemory>
    ensures { OnOk result (into.new.items ≡ into.old.items ++ text_of_tokens (maybe T.tokens part.now)) }
{
    if let Some(part) = part {
        part.put(into)?;
    }
    Ok(())
}

pub(crate) fn put_flag(into: &mut Vec<u8>, code: u8, is_there: bool) -> Result<(), NoMemory>
    requires { code < code_count }
    ensures { OnOk result (into.new.items ≡ into.old.items ++ text_of_tokens (flag code is_there)) }
{
    if is_there {
        put_word(into, code)?;
    }
    Ok(())
}

pub(crate) fn put_bracketed_number(into: &mut Vec<u8>, number: &Number) -> Result<(), NoMemory>
    ensures { OnOk result (into.new.items ≡ into.old.items ++ text_of_tokens (bracketed_number number.now)) }
{
    put_symbol(into, LEFT_ROUND)?;
    number.put(into)?;
    put_symbol(into, RIGHT_ROUND)?;
    Ok(())
}

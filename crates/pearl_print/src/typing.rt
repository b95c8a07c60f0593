// Names, bounds and types.
#![tactic(auto, using(crate::proofs::Texts::text_steps, std::proofs::lemmas::Grind::common_steps))]

ghost use Rattle.std.specs.Prelude.{◌≡◌, ◌++◌, OnOk};
ghost use Rattle.pearl_tree.specs.Types.{sort_word};
ghost use Rattle.pearl_print.specs.Lists.{listed};
ghost use Rattle.pearl_print.specs.Spelled.{text_of_tokens};
ghost use Rattle.pearl_print.specs.Types.{names_tokens, int_tokens, bound_tokens, bounds_tokens, basic_tokens, typing_tokens, struct_tokens, field_tokens};

use crate::lists::{Part, put_bracketed, put_bracketed_number, put_maybe_bracketed};
use crate::put::{put_symbol, put_word};
use pearl_tree::name::Names;
use pearl_tree::parts::Parts;
use pearl_tree::symbol::{COLON, COMMA, LEFT_SQUARE, MINUS, RIGHT_SQUARE};
use pearl_tree::typing::{Basic, Bound, Field, Int, Sort, Typing};
use pearl_tree::word_code::{BIT, CHAR, CLOCK, DURATION, FIXED, STRUCT};
use std::alloc::AllocError as NoMemory;

pub(crate) fn put_names(into: &mut Vec<u8>, names: &Names) -> Result<(), NoMemory>
    ensures { OnOk result (into.new.items ≡ into.old.items ++ text_of_tokens (names_tokens names.now)) }
{
    match names {
        Names::One(name) => name.put(into),
        Names::Several { names, .. } => put_bracketed(into, names.as_slice()),
    }
}

fn put_int(into: &mut Vec<u8>, int: &Int) -> Result<(), NoMemory>
    ensures { OnOk result (into.new.items ≡ into.old.items ++ text_of_tokens (int_tokens int.now)) }
{
    if int.minus {
        put_symbol(into, MINUS)?;
    }
    int.number.put(into)?;
    Ok(())
}

impl Part for Bound {
    ghost tokens = { bound_tokens };

    fn put(&self, into: &mut Vec<u8>) -> Result<(), NoMemory> {
        put_int(into, &self.first)?;
        if let Some(second) = &self.second {
            put_symbol(into, COLON)?;
            put_int(into, second)?;
        }
        Ok(())
    }
}

pub(crate) fn put_bounds(into: &mut Vec<u8>, bounds: &[Bound]) -> Result<(), NoMemory>
    ensures { OnOk result (into.new.items ≡ into.old.items ++ text_of_tokens (bounds_tokens bounds.now)) }
{
    put_maybe_bracketed(into, bounds)
}

pub(crate) fn sort_word(sort: Sort) -> u8
    ensures { result ≡ sort_word sort }
{
    match sort {
        Sort::Fixed => FIXED,
        Sort::Bit => BIT,
        Sort::Char => CHAR,
    }
}

pub(crate) fn put_basic(into: &mut Vec<u8>, basic: &Basic) -> Result<(), NoMemory>
    ensures { OnOk result (into.new.items ≡ into.old.items ++ text_of_tokens (basic_tokens basic.now)) }
{
    match basic {
        Basic::Sized { sort, number, .. } => {
            put_word(into, sort_word(*sort))?;
            if let Some(number) = number {
                put_bracketed_number(into, number)?;
            }
            Ok(())
        }
        Basic::Clock { .. } => put_word(into, CLOCK),
        Basic::Duration { .. } => put_word(into, DURATION),
    }
}

#[cycle(typing)]
pub(crate) fn put_typing(into: &mut Vec<u8>, typing: &Typing) -> Result<(), NoMemory>
    ensures { OnOk result (into.new.items ≡ into.old.items ++ text_of_tokens (typing_tokens typing.now)) }
{
    match typing {
        Typing::Basic(basic) => put_basic(into, basic),
        Typing::Struct { fields, .. } => put_struct(into, fields),
        Typing::Named(name) => name.put(into),
    }
}

#[cycle(typing)]
fn put_struct(into: &mut Vec<u8>, fields: &Parts<Field>) -> Result<(), NoMemory>
    ensures { OnOk result (into.new.items ≡ into.old.items ++ text_of_tokens (struct_tokens fields.now.items.items)) }
{
    put_word(into, STRUCT)?;
    put_symbol(into, LEFT_SQUARE)?;
    put_fields(into, fields.as_slice())?;
    put_symbol(into, RIGHT_SQUARE)?;
    Ok(())
}

#[cycle(typing)]
fn put_fields(into: &mut Vec<u8>, fields: &[Field]) -> Result<(), NoMemory>
    ensures { OnOk result (into.new.items ≡ into.old.items ++ text_of_tokens (listed field_tokens fields.now)) }
{
    if let [first, rest @ ..] = fields {
        put_field(into, first)?;
        for field in rest {
            put_symbol(into, COMMA)?;
            put_field(into, field)?;
        }
    }
    Ok(())
}

#[cycle(typing)]
fn put_field(into: &mut Vec<u8>, field: &Field) -> Result<(), NoMemory>
    ensures { OnOk result (into.new.items ≡ into.old.items ++ text_of_tokens (field_tokens field.now)) }
{
    put_names(into, &field.names)?;
    put_bounds(into, field.bounds.as_slice())?;
    put_typing(into, &field.typing)?;
    Ok(())
}

// PUT, GET, SEND and TAKE.
#![tactic(auto, using(crate::proofs::Texts::text_steps, std::proofs::lemmas::Grind::common_steps))]

ghost use Rattle.std.specs.Prelude.{◌≡◌, ◌++◌, OnOk};
ghost use Rattle.pearl_print.specs.Spelled.{text_of_tokens};
ghost use Rattle.pearl_print.specs.Formats.{by_tokens};
ghost use Rattle.pearl_print.specs.Statements.{put_tokens, get_tokens, send_tokens, take_tokens};

use crate::expression::put_ref;
use crate::lists::{Part, put_listed};
use crate::put::{put_symbol, put_word};
use crate::schedule::put_after;
use pearl_tree::format::Fmt;
use pearl_tree::name::Name;
use pearl_tree::parts::Parts;
use pearl_tree::statement::{Get, Put, Send, Take};
use pearl_tree::symbol::SEMICOLON;
use pearl_tree::word_code::{BY, FROM, GET, PUT, SEND, TAKE, TO};
use std::alloc::AllocError as NoMemory;

fn put_by(into: &mut Vec<u8>, name: &Name, formats: &Parts<Fmt>) -> Result<(), NoMemory>
    ensures { OnOk result (into.new.items ≡ into.old.items ++ text_of_tokens (by_tokens name.now formats.now)) }
{
    name.put(into)?;
    put_word(into, BY)?;
    put_listed(into, formats.as_slice())?;
    put_symbol(into, SEMICOLON)?;
    Ok(())
}

pub(crate) fn put_put(into: &mut Vec<u8>, part: &Put) -> Result<(), NoMemory>
    ensures { OnOk result (into.new.items ≡ into.old.items ++ text_of_tokens (put_tokens part.now)) }
{
    put_word(into, PUT)?;
    put_listed(into, part.values.as_slice())?;
    put_word(into, TO)?;
    put_by(into, &part.dation, &part.formats)?;
    Ok(())
}

pub(crate) fn put_get(into: &mut Vec<u8>, part: &Get) -> Result<(), NoMemory>
    ensures { OnOk result (into.new.items ≡ into.old.items ++ text_of_tokens (get_tokens part.now)) }
{
    put_word(into, GET)?;
    put_listed(into, part.targets.as_slice())?;
    put_word(into, FROM)?;
    put_by(into, &part.dation, &part.formats)?;
    Ok(())
}

pub(crate) fn put_send(into: &mut Vec<u8>, part: &Send) -> Result<(), NoMemory>
    ensures { OnOk result (into.new.items ≡ into.old.items ++ text_of_tokens (send_tokens part.now)) }
{
    put_after(into, SEND, &part.value)?;
    put_word(into, TO)?;
    part.dation.put(into)?;
    put_symbol(into, SEMICOLON)?;
    Ok(())
}

pub(crate) fn put_take(into: &mut Vec<u8>, part: &Take) -> Result<(), NoMemory>
    ensures { OnOk result (into.new.items ≡ into.old.items ++ text_of_tokens (take_tokens part.now)) }
{
    put_word(into, TAKE)?;
    put_ref(into, &part.target)?;
    put_word(into, FROM)?;
    part.dation.put(into)?;
    put_symbol(into, SEMICOLON)?;
    Ok(())
}

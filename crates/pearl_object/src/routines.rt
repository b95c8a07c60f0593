// The bytes of procedures and tasks, both ways.

ghost use Rattle.std.specs.Prelude.{◌≡◌, ◌<◌, ◌≤◌, ◌++◌, ◌∷◌, [], OnOk, length};
ghost use Rattle.pearl_object.specs.Objects.{result_of, result_arms, procedure, is_no_word, is_next_letter, may_follow, letter, name_letters, name, ReadsName, task};
ghost use Rattle.pearl_fields.specs.Codec.{arm_at};
ghost use Rattle.pearl_fields.specs.Reads.{Reads};

use crate::codes::{put_code, read_code};
use crate::kinds::{put_kind, read_kind};
use crate::literals::put_text;
use crate::operands::{put_flag, read_flag};
use crate::states::Alone;
use arrayvec::ArrayVec;
use pearl_fields::fault::ReadFault;
use pearl_fields::part::Part;
use pearl_fields::reader::Reader;
use pearl_fields::writer::put_number;
use pearl_instructions::object::{Procedure, Task};
use pearl_tree::word::{find_word, words};
use pearl_value::kind::Kind;
use std::alloc::{AllocError, Global};

/// Reads the kind of a procedure's result, if there is one.
#[tactic(auto, unfolding(crate::specs::Objects::result_of))]
pub fn read_result(reader: &mut Reader) -> Result<Option<Kind>, ReadFault>
    ensures { Reads result_of reader.old reader.new result }
{
    let tag = reader.byte_in(0, 1)?;
    result_at(reader, tag)
}

fn result_at(reader: &mut Reader, tag: u8) -> Result<Option<Kind>, ReadFault>
    requires { tag ≤ 1 }
    ensures { Reads (arm_at result_arms tag) reader.old reader.new result }
{
    match tag {
        0 => Ok(None),
        1 => Ok(Some(read_kind(reader, None)?)),
        _ => unreachable!(),
    }
}

/// Appends the kind of a procedure's result, if there is one.
#[tactic(auto, unfolding(crate::specs::Objects::result_of))]
pub fn put_result(out: &mut Vec<u8>, value: Option<Kind>) -> Result<(), AllocError>
    ensures { OnOk result (out.new.items ≡ out.old.items ++ result_of.bytes value) }
{
    match value {
        None => out.push(0)?,
        Some(kind) => {
            out.push(1)?;
            put_kind(out, kind)?;
        }
    }
    Ok(())
}

/// Reads a procedure.
#[tactic(auto, unfolding(crate::specs::Objects::procedure))]
pub fn read_procedure(reader: &mut Reader, alloc: Global) -> Result<Procedure, ReadFault>
    ensures { Reads procedure reader.old reader.new result }
{
    let params = reader.number()?;
    let result = read_result(reader)?;
    let code = read_code(reader, alloc, params)?;
    Ok(Procedure {
        params,
        result,
        code,
    })
}

/// Appends a procedure.
#[tactic(auto, using(crate::proofs::Spellings::code_bytes), unfolding(crate::specs::Objects::procedure))]
pub fn put_procedure(out: &mut Vec<u8>, value: &Procedure) -> Result<(), AllocError>
    ensures { OnOk result (out.new.items ≡ out.old.items ++ procedure.bytes value.now) }
{
    put_number(out, value.params)?;
    put_result(out, value.result)?;
    put_code(out, &value.code)?;
    Ok(())
}

impl Part<Alone> for Procedure {
    ghost spelled = { procedure.bytes };

    ghost part = { λ s. procedure };

    ghost after = { λ s x. s };

    fn read(reader: &mut Reader, alloc: Global, _state: Alone) -> Result<Procedure, ReadFault> {
        read_procedure(reader, alloc)
    }

    fn next(&self, state: Alone) -> Alone {
        state
    }

    fn put(&self, out: &mut Vec<u8>) -> Result<(), AllocError> {
        put_procedure(out, self)?;
        Ok(())
    }
}

// Whether a text is none of the language's words.
fn is_no_word(text: &[u8]) -> bool
    ensures { result ≡ is_no_word text.now }
{
    find_word(words(), text).is_none()
}

fn is_next_letter(first: bool, byte: u8) -> bool
    ensures { result ≡ is_next_letter first byte }
{
    if first {
        byte.is_ascii_alphabetic()
    } else {
        byte.is_ascii_alphabetic() || byte.is_ascii_digit() || byte == 95
    }
}

// Whether a letter may stand behind these, in a name of so many.
fn may_follow(before: &ArrayVec<u8, 63>, count: u64, byte: u8) -> bool
    requires { length before.now.items < 63 }
    ensures { result ≡ may_follow (record { before = before.now.items; count = count }) byte }
{
    if !is_next_letter(before.is_empty(), byte) {
        return false;
    }
    if (before.len() as u64) + 1 < count {
        return true;
    }
    let mut text = before.clone().unwrap();
    text.push(byte);
    is_no_word(text.as_slice())
}

// The letter behind these, in a name of so many.
fn read_letter(reader: &mut Reader, before: &ArrayVec<u8, 63>, count: u64) -> Result<u8, ReadFault>
    requires { length before.now.items < 63 }
    ensures { Reads (letter (record { before = before.now.items; count = count })) reader.old reader.new result }
{
    let left = reader.left();
    let byte = reader.byte()?;
    if !may_follow(before, count, byte) {
        return Err(ReadFault::Bad(left));
    }
    Ok(byte)
}

/// Reads the name of a task.
#[tactic(auto, unfolding(crate::specs::Objects::name))]
pub fn read_name(reader: &mut Reader) -> Result<ArrayVec<u8, 63>, ReadFault>
    ensures { ReadsName (name.read reader.old) reader.new result }
{
    let count = reader.number_in(1, 63)?;
    read_letters(reader, count)
}

fn read_letters(reader: &mut Reader, count: u64) -> Result<ArrayVec<u8, 63>, ReadFault>
    requires { count ≤ 63 }
    ensures { ReadsName ((name_letters count).read reader.old) reader.new result }
{
    let mut text = ArrayVec::new();
    for _ in 0..count {
        let byte = read_letter(reader, &text, count)?;
        text.push(byte);
    }
    Ok(text)
}

/// Reads a task.
#[tactic(auto, unfolding(crate::specs::Objects::task))]
pub fn read_task(reader: &mut Reader, alloc: Global) -> Result<Task, ReadFault>
    ensures { Reads task reader.old reader.new result }
{
    let name = read_name(reader)?;
    let priority = reader.number_in(1, 255)? as u8;
    let main = read_flag(reader)?;
    let code = read_code(reader, alloc, 0)?;
    Ok(Task {
        name,
        priority,
        main,
        code,
    })
}

#[tactic(auto, using(crate::proofs::Bytes::all_ones), unfolding(crate::specs::Objects::name))]
fn put_name(out: &mut Vec<u8>, value: &[u8]) -> Result<(), AllocError>
    ensures { OnOk result (out.new.items ≡ out.old.items ++ name.bytes value.now) }
{
    put_number(out, value.len() as u64)?;
    put_text(out, value)?;
    Ok(())
}

/// Appends a task.
#[tactic(auto, unfolding(crate::specs::Objects::task))]
pub fn put_task(out: &mut Vec<u8>, value: &Task) -> Result<(), AllocError>
    ensures { OnOk result (out.new.items ≡ out.old.items ++ task.bytes value.now) }
{
    put_name(out, value.name.as_slice())?;
    put_number(out, u64::from(value.priority))?;
    put_flag(out, value.main)?;
    put_code(out, &value.code)?;
    Ok(())
}

impl Part<Alone> for Task {
    ghost spelled = { task.bytes };

    ghost part = { λ s. task };

    ghost after = { λ s x. s };

    fn read(reader: &mut Reader, alloc: Global, _state: Alone) -> Result<Task, ReadFault> {
        read_task(reader, alloc)
    }

    fn next(&self, state: Alone) -> Alone {
        state
    }

    fn put(&self, out: &mut Vec<u8>) -> Result<(), AllocError> {
        put_task(out, self)?;
        Ok(())
    }
}

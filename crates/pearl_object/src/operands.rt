// The bytes of the operands of instructions, both ways.

ghost use Rattle.std.specs.Prelude.{◌≡◌, ◌≤◌, ◌++◌, OnOk};
ghost use Rattle.pearl_object.specs.Operands.{bound, bounds, flag, flag_arms, flag_tag, trap, trap_arms, trap_tag, once, once_arms, maybe_once, maybe_arms, start, start_arms, repetition, repeat_arms, repeat_tag};
ghost use Rattle.pearl_fields.specs.Codec.{arm_at};
ghost use Rattle.pearl_fields.specs.Reads.{Reads};

use crate::states::Alone;
use pearl_fields::fault::ReadFault;
use pearl_fields::part::Part;
use pearl_fields::reader::Reader;
use pearl_fields::writer::{put_number, put_signed};
use pearl_instructions::instr::Bounds;
use pearl_instructions::schedule::{OnceForm, RepeatForm, StartForm};
use pearl_value::trap::Trap;
use std::alloc::{AllocError, Global};

// A bound of 32 bits.
#[tactic(auto, unfolding(crate::specs::Operands::bound))]
fn read_bound(reader: &mut Reader) -> Result<i32, ReadFault>
    ensures { Reads bound reader.old reader.new result }
{
    let value = reader.signed_in(-2147483648, 2147483647)?;
    Ok(value as i32)
}

#[tactic(auto, unfolding(crate::specs::Operands::bound))]
fn put_bound(out: &mut Vec<u8>, value: i32) -> Result<(), AllocError>
    ensures { OnOk result (out.new.items ≡ out.old.items ++ bound.bytes value) }
{
    put_signed(out, i64::from(value))?;
    Ok(())
}

/// Reads the bounds of a dimension.
#[tactic(auto, unfolding(crate::specs::Operands::bounds))]
pub fn read_bounds(reader: &mut Reader) -> Result<Bounds, ReadFault>
    ensures { Reads bounds reader.old reader.new result }
{
    let low = read_bound(reader)?;
    let high = read_bound(reader)?;
    Ok(Bounds { low, high })
}

/// Appends the bounds of a dimension.
#[tactic(auto, unfolding(crate::specs::Operands::bounds))]
pub fn put_bounds(out: &mut Vec<u8>, value: Bounds) -> Result<(), AllocError>
    ensures { OnOk result (out.new.items ≡ out.old.items ++ bounds.bytes value) }
{
    put_bound(out, value.low)?;
    put_bound(out, value.high)?;
    Ok(())
}

impl Part<Alone> for Bounds {
    ghost spelled = { bounds.bytes };

    ghost part = { λ s. bounds };

    ghost after = { λ s x. s };

    fn read(reader: &mut Reader, _alloc: Global, _state: Alone) -> Result<Bounds, ReadFault> {
        read_bounds(reader)
    }

    fn next(&self, state: Alone) -> Alone {
        state
    }

    fn put(&self, out: &mut Vec<u8>) -> Result<(), AllocError> {
        put_bounds(out, *self)?;
        Ok(())
    }
}

/// Reads whether something is given.
#[tactic(auto, unfolding(crate::specs::Operands::flag))]
pub fn read_flag(reader: &mut Reader) -> Result<bool, ReadFault>
    ensures { Reads flag reader.old reader.new result }
{
    let tag = reader.byte_in(0, 1)?;
    flag_at(reader, tag)
}

fn flag_at(_reader: &mut Reader, tag: u8) -> Result<bool, ReadFault>
    requires { tag ≤ 1 }
    ensures { Reads (arm_at flag_arms tag) _reader.old _reader.new result }
{
    match tag {
        0 => Ok(false),
        1 => Ok(true),
        _ => unreachable!(),
    }
}

/// Appends whether something is given.
#[tactic(auto, unfolding(crate::specs::Operands::flag))]
pub fn put_flag(out: &mut Vec<u8>, value: bool) -> Result<(), AllocError>
    ensures { OnOk result (out.new.items ≡ out.old.items ++ flag.bytes value) }
{
    if value {
        out.push(1)?;
    } else {
        out.push(0)?;
    }
    Ok(())
}

/// Reads a cause for which a task is broken off.
#[tactic(auto, unfolding(crate::specs::Operands::trap))]
pub fn read_trap(reader: &mut Reader) -> Result<Trap, ReadFault>
    ensures { Reads trap reader.old reader.new result }
{
    let tag = reader.byte_in(1, 6)?;
    trap_at(reader, tag)
}

fn trap_at(_reader: &mut Reader, tag: u8) -> Result<Trap, ReadFault>
    requires low { 1 ≤ tag }
    requires high { tag ≤ 6 }
    ensures { Reads (arm_at trap_arms tag) _reader.old _reader.new result }
{
    match tag {
        1 => Ok(Trap::Overflow),
        2 => Ok(Trap::ZeroDivide),
        3 => Ok(Trap::Index),
        4 => Ok(Trap::Range),
        5 => Ok(Trap::Format),
        6 => Ok(Trap::SemaLimit),
        _ => unreachable!(),
    }
}

pub(crate) fn trap_tag(trap: Trap) -> u8
    ensures { result ≡ trap_tag trap }
{
    match trap {
        Trap::Overflow => 1,
        Trap::ZeroDivide => 2,
        Trap::Index => 3,
        Trap::Range => 4,
        Trap::Format => 5,
        Trap::SemaLimit => 6,
    }
}

/// Appends a cause for which a task is broken off.
#[tactic(auto, using(crate::proofs::Spellings::trap_bytes))]
pub fn put_trap(out: &mut Vec<u8>, value: Trap) -> Result<(), AllocError>
    ensures { OnOk result (out.new.items ≡ out.old.items ++ trap.bytes value) }
{
    out.push(trap_tag(value))?;
    Ok(())
}

/// Reads when a task goes on.
#[tactic(auto, unfolding(crate::specs::Operands::once))]
pub fn read_once(reader: &mut Reader) -> Result<OnceForm, ReadFault>
    ensures { Reads once reader.old reader.new result }
{
    let tag = reader.byte_in(1, 3)?;
    once_at(reader, tag)
}

fn once_at(reader: &mut Reader, tag: u8) -> Result<OnceForm, ReadFault>
    requires low { 1 ≤ tag }
    requires high { tag ≤ 3 }
    ensures { Reads (arm_at once_arms tag) reader.old reader.new result }
{
    match tag {
        1 => Ok(OnceForm::At),
        2 => Ok(OnceForm::After),
        3 => Ok(OnceForm::When(reader.number()?)),
        _ => unreachable!(),
    }
}

/// Appends when a task goes on.
#[tactic(auto, unfolding(crate::specs::Operands::once))]
pub fn put_once(out: &mut Vec<u8>, value: OnceForm) -> Result<(), AllocError>
    ensures { OnOk result (out.new.items ≡ out.old.items ++ once.bytes value) }
{
    match value {
        OnceForm::At => out.push(1)?,
        OnceForm::After => out.push(2)?,
        OnceForm::When(device) => {
            out.push(3)?;
            put_number(out, device)?;
        }
    }
    Ok(())
}

/// Reads when a task goes on, if not at once.
#[tactic(auto, unfolding(crate::specs::Operands::maybe_once))]
pub fn read_maybe_once(reader: &mut Reader) -> Result<Option<OnceForm>, ReadFault>
    ensures { Reads maybe_once reader.old reader.new result }
{
    let tag = reader.byte_in(0, 3)?;
    maybe_once_at(reader, tag)
}

fn maybe_once_at(reader: &mut Reader, tag: u8) -> Result<Option<OnceForm>, ReadFault>
    requires { tag ≤ 3 }
    ensures { Reads (arm_at maybe_arms tag) reader.old reader.new result }
{
    match tag {
        0 => Ok(None),
        1 => Ok(Some(OnceForm::At)),
        2 => Ok(Some(OnceForm::After)),
        3 => Ok(Some(OnceForm::When(reader.number()?))),
        _ => unreachable!(),
    }
}

/// Appends when a task goes on, if not at once.
#[tactic(auto, using(crate::proofs::Spellings::maybe_bytes), unfolding(crate::specs::Operands::maybe_once))]
pub fn put_maybe_once(out: &mut Vec<u8>, value: Option<OnceForm>) -> Result<(), AllocError>
    ensures { OnOk result (out.new.items ≡ out.old.items ++ maybe_once.bytes value) }
{
    match value {
        None => out.push(0)?,
        Some(form) => put_once(out, form)?,
    }
    Ok(())
}

/// Reads when a plan begins.
#[tactic(auto, unfolding(crate::specs::Operands::start))]
pub fn read_start(reader: &mut Reader) -> Result<StartForm, ReadFault>
    ensures { Reads start reader.old reader.new result }
{
    let tag = reader.byte_in(0, 4)?;
    start_at(reader, tag)
}

fn start_at(reader: &mut Reader, tag: u8) -> Result<StartForm, ReadFault>
    requires { tag ≤ 4 }
    ensures { Reads (arm_at start_arms tag) reader.old reader.new result }
{
    match tag {
        0 => Ok(StartForm::Free),
        1 => Ok(StartForm::At),
        2 => Ok(StartForm::After),
        3 => Ok(StartForm::When(reader.number()?)),
        4 => Ok(StartForm::WhenAfter(reader.number()?)),
        _ => unreachable!(),
    }
}

/// Appends when a plan begins.
#[tactic(auto, unfolding(crate::specs::Operands::start))]
pub fn put_start(out: &mut Vec<u8>, value: StartForm) -> Result<(), AllocError>
    ensures { OnOk result (out.new.items ≡ out.old.items ++ start.bytes value) }
{
    match value {
        StartForm::Free => out.push(0)?,
        StartForm::At => out.push(1)?,
        StartForm::After => out.push(2)?,
        StartForm::When(device) => {
            out.push(3)?;
            put_number(out, device)?;
        }
        StartForm::WhenAfter(device) => {
            out.push(4)?;
            put_number(out, device)?;
        }
    }
    Ok(())
}

/// Reads how a plan goes on after its beginning.
#[tactic(auto, unfolding(crate::specs::Operands::repetition))]
pub fn read_repeat(reader: &mut Reader) -> Result<RepeatForm, ReadFault>
    ensures { Reads repetition reader.old reader.new result }
{
    let tag = reader.byte_in(0, 3)?;
    repeat_at(reader, tag)
}

fn repeat_at(_reader: &mut Reader, tag: u8) -> Result<RepeatForm, ReadFault>
    requires { tag ≤ 3 }
    ensures { Reads (arm_at repeat_arms tag) _reader.old _reader.new result }
{
    match tag {
        0 => Ok(RepeatForm::Once),
        1 => Ok(RepeatForm::All),
        2 => Ok(RepeatForm::Until),
        3 => Ok(RepeatForm::During),
        _ => unreachable!(),
    }
}

/// Appends how a plan goes on after its beginning.
#[tactic(auto, unfolding(crate::specs::Operands::repetition))]
pub fn put_repeat(out: &mut Vec<u8>, value: RepeatForm) -> Result<(), AllocError>
    ensures { OnOk result (out.new.items ≡ out.old.items ++ repetition.bytes value) }
{
    match value {
        RepeatForm::Once => out.push(0)?,
        RepeatForm::All => out.push(1)?,
        RepeatForm::Until => out.push(2)?,
        RepeatForm::During => out.push(3)?,
    }
    Ok(())
}

// The operands of instructions, in the order in which each opcode has them.

ghost use Rattle.std.specs.Prelude.{◌≡◌, ◌++◌, List, ℕ, OnOk};
ghost use Rattle.pearl_value.specs.declared.cell.Cell.{Cell};
ghost use Rattle.pearl_instructions.specs.declared.instr.Instr.TheVariants.{Activate, Continue, Get};
ghost use Rattle.pearl_object.specs.Instructions.{Operand, OfNumber, OfKind, OfLiteral, OfNumbers, OfBounds, OfCause, OfOnce, OfMaybe, OfStart, OfRepeat, OfFlag, joined, literal_suits, row, operand_bytes};

use crate::kinds::put_kind;
use crate::literals::put_literal;
use crate::operands::{put_flag, put_maybe_once, put_once, put_repeat, put_start, put_trap};
use crate::states::Alone;
use pearl_fields::part::put_list;
use pearl_fields::writer::put_number;
use pearl_instructions::instr::{Activation, Bounds, Continuation, Instr, Reading};
use pearl_instructions::schedule::{OnceForm, RepeatForm, StartForm};
use pearl_value::cell::Cell;
use pearl_value::kind::Kind;
use pearl_value::trap::Trap;
use std::alloc::{AllocError, Global};

/// A way to write operands.
pub trait Spelling {
    /// What is written of an operand.
    ghost text: { Operand → List ℕ };

    /// Which literals can be written.
    ghost suits: { Cell → Type 0 };

    fn number(out: &mut Vec<u8>, value: u64) -> Result<(), AllocError>
        ensures { OnOk result (out.new.items ≡ out.old.items ++ text (OfNumber value)) };

    fn kind(out: &mut Vec<u8>, value: Kind) -> Result<(), AllocError>
        ensures { OnOk result (out.new.items ≡ out.old.items ++ text (OfKind value)) };

    fn literal(out: &mut Vec<u8>, value: &Cell) -> Result<(), AllocError>
        requires { suits value.now }
        ensures { OnOk result (out.new.items ≡ out.old.items ++ text (OfLiteral value.now)) };

    fn numbers(out: &mut Vec<u8>, list: &[u64]) -> Result<(), AllocError>
        ensures { OnOk result (out.new.items ≡ out.old.items ++ text (OfNumbers list.now)) };

    fn bounds(out: &mut Vec<u8>, list: &[Bounds]) -> Result<(), AllocError>
        ensures { OnOk result (out.new.items ≡ out.old.items ++ text (OfBounds list.now)) };

    fn cause(out: &mut Vec<u8>, value: Trap) -> Result<(), AllocError>
        ensures { OnOk result (out.new.items ≡ out.old.items ++ text (OfCause value)) };

    fn once(out: &mut Vec<u8>, value: OnceForm) -> Result<(), AllocError>
        ensures { OnOk result (out.new.items ≡ out.old.items ++ text (OfOnce value)) };

    fn maybe_once(out: &mut Vec<u8>, value: Option<OnceForm>) -> Result<(), AllocError>
        ensures { OnOk result (out.new.items ≡ out.old.items ++ text (OfMaybe value)) };

    fn start(out: &mut Vec<u8>, value: StartForm) -> Result<(), AllocError>
        ensures { OnOk result (out.new.items ≡ out.old.items ++ text (OfStart value)) };

    fn repeat(out: &mut Vec<u8>, value: RepeatForm) -> Result<(), AllocError>
        ensures { OnOk result (out.new.items ≡ out.old.items ++ text (OfRepeat value)) };

    fn flag(out: &mut Vec<u8>, value: bool) -> Result<(), AllocError>
        ensures { OnOk result (out.new.items ≡ out.old.items ++ text (OfFlag value)) };
}

macro_rules! with_number {
    ($number:ident; $($name:ident),*) => { $(Instr::$name($number))|* };
}

/// Writes the operands of an instruction.
pub fn put_operands<W: Spelling>(out: &mut Vec<u8>, instr: &Instr) -> Result<(), AllocError>
    requires { literal_suits W.suits instr.now }
    ensures { OnOk result (out.new.items ≡ out.old.items ++ joined W.text (row instr.now).operands) }
{
    match instr {
        with_number!(n; Load, Store, Read, Write, ReadAt, WriteAt, RefSlot, RefSlotAt, RefCell, Jump, JumpZero,
            Call, Within, Try, Suspend, Terminate, Prevent, Enable, Disable, Trigger, Take, Send) =>
            { W::number(out, *n)? }
        Instr::LoadAt { first: m, count: n }
        | Instr::StoreAt { first: m, count: n }
        | Instr::RefCellAt { first: m, count: n }
        | Instr::Advance { first: m, past: n }
        | Instr::Put {
            device: m,
            format: n,
        } => {
            W::number(out, *m)?;
            W::number(out, *n)?;
        }
        Instr::Const(value) => W::literal(out, &value.cell())?,
        Instr::Fill { first, count, kind } => {
            W::number(out, *first)?;
            W::number(out, *count)?;
            W::kind(out, *kind)?;
        }
        Instr::Conv(kind) => W::kind(out, *kind)?,
        Instr::Index(bounds) => W::bounds(out, bounds.get().as_slice())?,
        Instr::Case(list) | Instr::Request(list) | Instr::Release(list) => {
            W::numbers(out, list.get().as_slice())?
        }
        Instr::Trap(trap) => W::cause(out, *trap)?,
        Instr::Activate(activation) => put_activation::<W>(out, activation.get())?,
        Instr::Continue(continuation) => put_continuation::<W>(out, continuation.get())?,
        Instr::Resume(form) => W::once(out, *form)?,
        Instr::Get(reading) => put_reading::<W>(out, reading.get())?,
        _ => {}
    }
    Ok(())
}

fn put_activation<W: Spelling>(out: &mut Vec<u8>, activation: &Activation) -> Result<(), AllocError>
    ensures { OnOk result (out.new.items ≡ out.old.items ++ joined W.text (row (Activate activation.now)).operands) }
{
    W::number(out, activation.task)?;
    W::start(out, activation.start)?;
    W::repeat(out, activation.repeat)?;
    W::flag(out, activation.priority)?;
    Ok(())
}

fn put_continuation<W: Spelling>(
    out: &mut Vec<u8>,
    continuation: &Continuation,
) -> Result<(), AllocError>
    ensures { OnOk result (out.new.items ≡ out.old.items ++ joined W.text (row (Continue continuation.now)).operands) }
{
    W::number(out, continuation.task)?;
    W::maybe_once(out, continuation.once)?;
    Ok(())
}

fn put_reading<W: Spelling>(out: &mut Vec<u8>, reading: &Reading) -> Result<(), AllocError>
    ensures { OnOk result (out.new.items ≡ out.old.items ++ joined W.text (row (Get reading.now)).operands) }
{
    W::number(out, reading.device)?;
    W::number(out, reading.format)?;
    W::number(out, reading.first)?;
    Ok(())
}

/// The operands as they stand in an object's bytes.
pub struct Bytes;

impl Spelling for Bytes {
    ghost text = { operand_bytes };

    ghost suits = { λ x. Unit {0} };

    fn number(out: &mut Vec<u8>, value: u64) -> Result<(), AllocError> {
        put_number(out, value)?;
        Ok(())
    }

    fn kind(out: &mut Vec<u8>, value: Kind) -> Result<(), AllocError> {
        put_kind(out, value)?;
        Ok(())
    }

    fn literal(out: &mut Vec<u8>, value: &Cell) -> Result<(), AllocError> {
        put_literal(out, value)?;
        Ok(())
    }

    fn numbers(out: &mut Vec<u8>, list: &[u64]) -> Result<(), AllocError> {
        put_list::<(), u64>(list, out)?;
        Ok(())
    }

    fn bounds(out: &mut Vec<u8>, list: &[Bounds]) -> Result<(), AllocError> {
        put_list::<Alone, Bounds>(list, out)?;
        Ok(())
    }

    fn cause(out: &mut Vec<u8>, value: Trap) -> Result<(), AllocError> {
        put_trap(out, value)?;
        Ok(())
    }

    fn once(out: &mut Vec<u8>, value: OnceForm) -> Result<(), AllocError> {
        put_once(out, value)?;
        Ok(())
    }

    fn maybe_once(out: &mut Vec<u8>, value: Option<OnceForm>) -> Result<(), AllocError> {
        put_maybe_once(out, value)?;
        Ok(())
    }

    fn start(out: &mut Vec<u8>, value: StartForm) -> Result<(), AllocError> {
        put_start(out, value)?;
        Ok(())
    }

    fn repeat(out: &mut Vec<u8>, value: RepeatForm) -> Result<(), AllocError> {
        put_repeat(out, value)?;
        Ok(())
    }

    fn flag(out: &mut Vec<u8>, value: bool) -> Result<(), AllocError> {
        put_flag(out, value)?;
        Ok(())
    }
}

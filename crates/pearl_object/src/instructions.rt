// The bytes of instructions, both ways.

ghost use Rattle.std.specs.Prelude.{◌≡◌, ◌≤◌, ◌-◌, ◌++◌, OnOk};
ghost use Rattle.pearl_object.specs.Instructions.{instr, operands_at, on_cells, on_variables, on_flow, operators, on_tasks, on_devices, activation_fields, activation_in_row, made_activation, continuation_fields, continuation_in_row, made_continuation, reading_fields, reading_in_row, made_reading, from_row, opcode_of, monad_code, dyad_code};
ghost use Rattle.pearl_fields.specs.Codec.{arm_at, list_of, number};
ghost use Rattle.pearl_fields.specs.Reads.{Reads};

use crate::kinds::read_kind;
use crate::literals::read_literal;
use crate::operands::{read_flag, read_maybe_once, read_once, read_repeat, read_start, read_trap};
use crate::spelling::{Bytes, put_operands};
use crate::states::Alone;
use pearl_fields::fault::ReadFault;
use pearl_fields::part::{Part, list};
use pearl_fields::reader::Reader;
use pearl_instructions::boxed::Boxed;
use pearl_instructions::constant::Constant;
use pearl_instructions::instr::{Activation, Bounds, Continuation, Instr, Reading};
use pearl_value::listing::Listing;
use pearl_value::operator::{Dyad, Monad};
use std::alloc::{AllocError, Global};

/// Reads an instruction.
#[tactic(auto, unfolding(crate::specs::Instructions::instr))]
pub fn read_instr(reader: &mut Reader, alloc: Global) -> Result<Instr, ReadFault>
    ensures { Reads instr reader.old reader.new result }
{
    let opcode = reader.byte_in(0, 72)?;
    read_operands(reader, alloc, opcode)
}

#[tactic(auto, unfolding(crate::specs::Instructions::operands_at))]
fn read_operands(reader: &mut Reader, alloc: Global, opcode: u8) -> Result<Instr, ReadFault>
    requires { opcode ≤ 72 }
    ensures { Reads (operands_at opcode) reader.old reader.new result }
{
    if opcode <= 8 {
        read_on_cells(reader, alloc, opcode)
    } else if opcode <= 18 {
        read_on_variables(reader, opcode)
    } else if opcode <= 29 {
        read_on_flow(reader, alloc, opcode)
    } else if opcode <= 52 {
        read_operator(reader, opcode)
    } else if opcode <= 65 {
        read_on_tasks(reader, alloc, opcode)
    } else {
        read_on_devices(reader, alloc, opcode)
    }
}

fn read_numbers(reader: &mut Reader, alloc: Global) -> Result<Listing<u64>, ReadFault>
    ensures { Reads (list_of number) reader.old reader.new result }
{
    let numbers = list::<(), u64>(reader, alloc, 0, u64::MAX, ())?;
    Ok(Listing::new(numbers))
}

fn read_activation(reader: &mut Reader, alloc: Global) -> Result<Instr, ReadFault>
    ensures { Reads (from_row activation_in_row made_activation activation_fields) reader.old reader.new result }
{
    let task = reader.number()?;
    let start = read_start(reader)?;
    let repeat = read_repeat(reader)?;
    let priority = read_flag(reader)?;
    let activation = Activation {
        task,
        start,
        repeat,
        priority,
    };
    Ok(Instr::Activate(Boxed::new(alloc, activation)?))
}

fn read_continuation(reader: &mut Reader, alloc: Global) -> Result<Instr, ReadFault>
    ensures { Reads (from_row continuation_in_row made_continuation continuation_fields) reader.old reader.new result }
{
    let task = reader.number()?;
    let once = read_maybe_once(reader)?;
    Ok(Instr::Continue(Boxed::new(alloc, Continuation { task, once })?))
}

fn read_reading(reader: &mut Reader, alloc: Global) -> Result<Instr, ReadFault>
    ensures { Reads (from_row reading_in_row made_reading reading_fields) reader.old reader.new result }
{
    let device = reader.number()?;
    let format = reader.number()?;
    let first = reader.number()?;
    let reading = Reading {
        device,
        format,
        first,
    };
    Ok(Instr::Get(Boxed::new(alloc, reading)?))
}

// What puts literals and cells on the stack and takes them off.
fn read_on_cells(reader: &mut Reader, alloc: Global, opcode: u8) -> Result<Instr, ReadFault>
    requires { opcode ≤ 8 }
    ensures { Reads (arm_at on_cells opcode) reader.old reader.new result }
{
    match opcode {
        0 => {
            let value = read_literal(reader, None)?;
            Ok(Instr::Const(Constant::new(alloc, &value)?))
        }
        1 => Ok(Instr::Load(reader.number()?)),
        2 => Ok(Instr::Store(reader.number()?)),
        3 => {
            let first = reader.number()?;
            let count = reader.number()?;
            let kind = read_kind(reader, None)?;
            Ok(Instr::Fill { first, count, kind })
        }
        4 => Ok(Instr::Drop),
        5 => Ok(Instr::Conv(read_kind(reader, None)?)),
        6 => {
            let bounds = Listing::new(list::<Alone, Bounds>(reader, alloc, 0, u64::MAX, Alone {})?);
            Ok(Instr::Index(Boxed::new(alloc, bounds)?))
        }
        7 => {
            let first = reader.number()?;
            let count = reader.number()?;
            Ok(Instr::LoadAt { first, count })
        }
        8 => {
            let first = reader.number()?;
            let count = reader.number()?;
            Ok(Instr::StoreAt { first, count })
        }
        _ => unreachable!(),
    }
}

// Module variables and references.
fn read_on_variables(reader: &mut Reader, opcode: u8) -> Result<Instr, ReadFault>
    requires low { 9 ≤ opcode }
    requires high { opcode ≤ 18 }
    ensures { Reads (arm_at on_variables (opcode - 9)) reader.old reader.new result }
{
    match opcode {
        9 => Ok(Instr::Read(reader.number()?)),
        10 => Ok(Instr::Write(reader.number()?)),
        11 => Ok(Instr::ReadAt(reader.number()?)),
        12 => Ok(Instr::WriteAt(reader.number()?)),
        13 => Ok(Instr::RefSlot(reader.number()?)),
        14 => Ok(Instr::RefSlotAt(reader.number()?)),
        15 => Ok(Instr::RefCell(reader.number()?)),
        16 => {
            let first = reader.number()?;
            let count = reader.number()?;
            Ok(Instr::RefCellAt { first, count })
        }
        17 => Ok(Instr::ReadRef),
        18 => Ok(Instr::WriteRef),
        _ => unreachable!(),
    }
}

// Jumps, loops and procedures.
fn read_on_flow(reader: &mut Reader, alloc: Global, opcode: u8) -> Result<Instr, ReadFault>
    requires low { 19 ≤ opcode }
    requires high { opcode ≤ 29 }
    ensures { Reads (arm_at on_flow (opcode - 19)) reader.old reader.new result }
{
    match opcode {
        19 => Ok(Instr::Jump(reader.number()?)),
        20 => Ok(Instr::JumpZero(reader.number()?)),
        21 => {
            let targets = read_numbers(reader, alloc)?;
            Ok(Instr::Case(Boxed::new(alloc, targets)?))
        }
        22 => Ok(Instr::Turn),
        23 => Ok(Instr::Call(reader.number()?)),
        24 => Ok(Instr::Return),
        25 => Ok(Instr::End),
        26 => Ok(Instr::Trap(read_trap(reader)?)),
        27 => Ok(Instr::Within(reader.number()?)),
        28 => {
            let first = reader.number()?;
            let past = reader.number()?;
            Ok(Instr::Advance { first, past })
        }
        29 => Ok(Instr::NonZero),
        _ => unreachable!(),
    }
}

// Operators.
fn read_operator(_reader: &mut Reader, opcode: u8) -> Result<Instr, ReadFault>
    requires low { 30 ≤ opcode }
    requires high { opcode ≤ 52 }
    ensures { Reads (arm_at operators (opcode - 30)) _reader.old _reader.new result }
{
    match opcode {
        30 => Ok(Instr::Monadic(Monad::Plus)),
        31 => Ok(Instr::Monadic(Monad::Minus)),
        32 => Ok(Instr::Monadic(Monad::Abs)),
        33 => Ok(Instr::Monadic(Monad::Sign)),
        34 => Ok(Instr::Monadic(Monad::Not)),
        35 => Ok(Instr::Dyadic(Dyad::Pow)),
        36 => Ok(Instr::Dyadic(Dyad::Mul)),
        37 => Ok(Instr::Dyadic(Dyad::Div)),
        38 => Ok(Instr::Dyadic(Dyad::Rem)),
        39 => Ok(Instr::Dyadic(Dyad::Cat)),
        40 => Ok(Instr::Dyadic(Dyad::Add)),
        41 => Ok(Instr::Dyadic(Dyad::Sub)),
        42 => Ok(Instr::Dyadic(Dyad::Cshift)),
        43 => Ok(Instr::Dyadic(Dyad::Shift)),
        44 => Ok(Instr::Dyadic(Dyad::Lt)),
        45 => Ok(Instr::Dyadic(Dyad::Gt)),
        46 => Ok(Instr::Dyadic(Dyad::Le)),
        47 => Ok(Instr::Dyadic(Dyad::Ge)),
        48 => Ok(Instr::Dyadic(Dyad::Eq)),
        49 => Ok(Instr::Dyadic(Dyad::Ne)),
        50 => Ok(Instr::Dyadic(Dyad::And)),
        51 => Ok(Instr::Dyadic(Dyad::Or)),
        52 => Ok(Instr::Dyadic(Dyad::Exor)),
        _ => unreachable!(),
    }
}

// Time, semaphores and tasks.
fn read_on_tasks(reader: &mut Reader, alloc: Global, opcode: u8) -> Result<Instr, ReadFault>
    requires low { 53 ≤ opcode }
    requires high { opcode ≤ 65 }
    ensures { Reads (arm_at on_tasks (opcode - 53)) reader.old reader.new result }
{
    match opcode {
        53 => Ok(Instr::Now),
        54 => {
            let semaphores = read_numbers(reader, alloc)?;
            Ok(Instr::Request(Boxed::new(alloc, semaphores)?))
        }
        55 => {
            let semaphores = read_numbers(reader, alloc)?;
            Ok(Instr::Release(Boxed::new(alloc, semaphores)?))
        }
        56 => Ok(Instr::Try(reader.number()?)),
        57 => read_activation(reader, alloc),
        58 => read_continuation(reader, alloc),
        59 => Ok(Instr::Resume(read_once(reader)?)),
        60 => Ok(Instr::Suspend(reader.number()?)),
        61 => Ok(Instr::Terminate(reader.number()?)),
        62 => Ok(Instr::Prevent(reader.number()?)),
        63 => Ok(Instr::SuspendOwn),
        64 => Ok(Instr::TerminateOwn),
        65 => Ok(Instr::PreventOwn),
        _ => unreachable!(),
    }
}

// Devices.
fn read_on_devices(reader: &mut Reader, alloc: Global, opcode: u8) -> Result<Instr, ReadFault>
    requires low { 66 ≤ opcode }
    requires high { opcode ≤ 72 }
    ensures { Reads (arm_at on_devices (opcode - 66)) reader.old reader.new result }
{
    match opcode {
        66 => Ok(Instr::Enable(reader.number()?)),
        67 => Ok(Instr::Disable(reader.number()?)),
        68 => Ok(Instr::Trigger(reader.number()?)),
        69 => {
            let device = reader.number()?;
            let format = reader.number()?;
            Ok(Instr::Put { device, format })
        }
        70 => read_reading(reader, alloc),
        71 => Ok(Instr::Take(reader.number()?)),
        72 => Ok(Instr::Send(reader.number()?)),
        _ => unreachable!(),
    }
}

fn monad_code(op: Monad) -> u8
    ensures { result ≡ monad_code op }
{
    match op {
        Monad::Plus => 30,
        Monad::Minus => 31,
        Monad::Abs => 32,
        Monad::Sign => 33,
        Monad::Not => 34,
    }
}

fn dyad_code(op: Dyad) -> u8
    ensures { result ≡ dyad_code op }
{
    match op {
        Dyad::Pow => 35,
        Dyad::Mul => 36,
        Dyad::Div => 37,
        Dyad::Rem => 38,
        Dyad::Cat => 39,
        Dyad::Add => 40,
        Dyad::Sub => 41,
        Dyad::Cshift => 42,
        Dyad::Shift => 43,
        Dyad::Lt => 44,
        Dyad::Gt => 45,
        Dyad::Le => 46,
        Dyad::Ge => 47,
        Dyad::Eq => 48,
        Dyad::Ne => 49,
        Dyad::And => 50,
        Dyad::Or => 51,
        Dyad::Exor => 52,
    }
}

macro_rules! code_by_name {
    ($instr:expr; $($name:ident $code:literal),*) => {
        match $instr {
            Instr::Monadic(op) => monad_code(*op),
            Instr::Dyadic(op) => dyad_code(*op),
            $(Instr::$name { .. } => $code,)*
        }
    };
}

/// The byte that an instruction begins with.
pub fn opcode_of(instr: &Instr) -> u8
    ensures { result ≡ opcode_of instr.now }
{
    code_by_name!(instr;
        Const 0, Load 1, Store 2, Fill 3, Drop 4, Conv 5, Index 6, LoadAt 7, StoreAt 8, Read 9,
        Write 10, ReadAt 11, WriteAt 12, RefSlot 13, RefSlotAt 14, RefCell 15, RefCellAt 16,
        ReadRef 17, WriteRef 18, Jump 19, JumpZero 20, Case 21, Turn 22, Call 23, Return 24,
        End 25, Trap 26, Within 27, Advance 28, NonZero 29, Now 53, Request 54, Release 55,
        Try 56, Activate 57, Continue 58, Resume 59, Suspend 60, Terminate 61, Prevent 62,
        SuspendOwn 63, TerminateOwn 64, PreventOwn 65, Enable 66, Disable 67, Trigger 68,
        Put 69, Get 70, Take 71, Send 72
    )
}

/// Appends an instruction.
#[tactic(auto, using(crate::proofs::Spellings::instr_bytes))]
pub fn put_instr(out: &mut Vec<u8>, value: &Instr) -> Result<(), AllocError>
    ensures { OnOk result (out.new.items ≡ out.old.items ++ instr.bytes value.now) }
{
    out.push(opcode_of(value))?;
    put_operands::<Bytes>(out, value)?;
    Ok(())
}

impl Part<Alone> for Instr {
    ghost spelled = { instr.bytes };

    ghost part = { λ s. instr };

    ghost after = { λ s x. s };

    fn read(reader: &mut Reader, alloc: Global, _state: Alone) -> Result<Instr, ReadFault> {
        read_instr(reader, alloc)
    }

    fn next(&self, state: Alone) -> Alone {
        state
    }

    fn put(&self, out: &mut Vec<u8>) -> Result<(), AllocError> {
        put_instr(out, self)?;
        Ok(())
    }
}

// What instructions say, as text: each is followed by a semicolon.

use pearl_instructions::instr::{Activation, Bounds, Continuation, Instr, Reading};
use pearl_instructions::object::{Code, Parts};
use pearl_value::cell::Cell;
use pearl_value::kind::Kind;
use std::alloc::{AllocError, Global};

// A word with a number right behind it.
fn put_number(into: &mut String, word: &str, number: u64) -> Result<(), AllocError> {
    write!(into, "{word}{number}")
}

// A range of cells by the number of the first one and how many there are.
fn put_cells(into: &mut String, word: &str, first: u64, count: u64) -> Result<(), AllocError> {
    write!(into, "{word}{first}*{count}")
}

/// A kind by its word and its length: `FIXED31`, `BIT1`, `CHAR3`, `T` for CLOCK and `D` for DURATION.
fn put_kind(into: &mut String, kind: Kind) -> Result<(), AllocError> {
    match kind {
        Kind::Fixed(len) => put_number(into, "FIXED", u64::from(len)),
        Kind::Bits(len) => put_number(into, "BIT", u64::from(len)),
        Kind::Chars(len) => put_number(into, "CHAR", u64::from(len)),
        Kind::Clock => into.push_str("T"),
        Kind::Span => into.push_str("D"),
    }
}

fn put_of_kind(into: &mut String, word: &str, kind: Kind) -> Result<(), AllocError> {
    into.push_str(word)?;
    into.push_str(" ")?;
    put_kind(into, kind)
}

// A value with its kind, as `FIXED31:5`, or a text between apostrophes.
fn put_value(into: &mut String, value: &Cell) -> Result<(), AllocError> {
    match value {
        Cell::Fixed { len, value } => write!(into, "FIXED{len}:{value}"),
        Cell::Bits { len, value } => write!(into, "BIT{len}:{value}"),
        Cell::Chars(text) => {
            into.push('\'')?;
            for &byte in text.as_slice() {
                into.push(char::from(byte))?;
            }
            into.push('\'')
        }
        Cell::Clock(time) => put_number(into, "CLOCK:", u64::from(*time)),
        Cell::Span(time) => write!(into, "DURATION:{time}"),
        Cell::Ref { .. } => into.push_str("a reference"),
    }
}

fn put_numbers(into: &mut String, word: &str, numbers: &[u64]) -> Result<(), AllocError> {
    into.push_str(word)?;
    for number in numbers {
        put_number(into, " ", *number)?;
    }
    Ok(())
}

fn put_bounds(into: &mut String, bounds: &[Bounds]) -> Result<(), AllocError> {
    into.push_str("index")?;
    for bound in bounds {
        write!(into, " {}:{}", bound.low, bound.high)?;
    }
    Ok(())
}

fn put_activation(into: &mut String, part: &Activation) -> Result<(), AllocError> {
    put_number(into, "activate ", part.task)?;
    write!(into, " {:?} {:?}", part.start, part.repeat)?;
    if part.priority {
        into.push_str(" prio")
    } else {
        Ok(())
    }
}

fn put_continuation(into: &mut String, part: &Continuation) -> Result<(), AllocError> {
    put_number(into, "continue ", part.task)?;
    match part.once {
        Some(once) => write!(into, " {once:?}"),
        None => Ok(()),
    }
}

fn put_reading(into: &mut String, part: &Reading) -> Result<(), AllocError> {
    put_numbers(into, "get", &[part.device, part.format])?;
    put_number(into, " into ", part.first)
}

// Values and cells.
fn put_simple(into: &mut String, instr: &Instr) -> Result<(), AllocError> {
    match instr {
        Instr::Const(value) => put_value(into, &value.cell()),
        Instr::Load(cell) => put_number(into, "load ", *cell),
        Instr::Store(cell) => put_number(into, "store ", *cell),
        Instr::Fill { first, count, kind } => {
            put_cells(into, "fill ", *first, *count)?;
            into.push(' ')?;
            put_kind(into, *kind)
        }
        Instr::Drop => into.push_str("drop"),
        Instr::Conv(kind) => put_of_kind(into, "conv", *kind),
        Instr::Index(bounds) => put_bounds(into, bounds.get().as_slice()),
        Instr::LoadAt { first, count } => put_cells(into, "loadat ", *first, *count),
        Instr::StoreAt { first, count } => put_cells(into, "storeat ", *first, *count),
        Instr::Monadic(op) => write!(into, "{op:?}"),
        Instr::Dyadic(op) => write!(into, "{op:?}"),
        Instr::Now => into.push_str("now"),
        Instr::Try(semaphore) => put_number(into, "try ", *semaphore),
        _ => put_access(into, instr),
    }
}

// Leaves and references.
fn put_access(into: &mut String, instr: &Instr) -> Result<(), AllocError> {
    match instr {
        Instr::Read(leaf) => put_number(into, "read ", *leaf),
        Instr::Write(leaf) => put_number(into, "write ", *leaf),
        Instr::ReadAt(leaf) => put_number(into, "readat ", *leaf),
        Instr::WriteAt(leaf) => put_number(into, "writeat ", *leaf),
        Instr::RefSlot(leaf) => put_number(into, "refslot ", *leaf),
        Instr::RefSlotAt(leaf) => put_number(into, "refslotat ", *leaf),
        Instr::RefCell(cell) => put_number(into, "refcell ", *cell),
        Instr::RefCellAt { first, count } => put_cells(into, "refcellat ", *first, *count),
        Instr::ReadRef => into.push_str("readref"),
        Instr::WriteRef => into.push_str("writeref"),
        _ => put_flow(into, instr),
    }
}

// What goes elsewhere.
fn put_flow(into: &mut String, instr: &Instr) -> Result<(), AllocError> {
    match instr {
        Instr::Jump(to) => put_number(into, "jump ", *to),
        Instr::JumpZero(to) => put_number(into, "jumpzero ", *to),
        Instr::Case(list) => put_numbers(into, "case", list.get().as_slice()),
        Instr::Turn => into.push_str("turn"),
        Instr::Call(procedure) => put_number(into, "call ", *procedure),
        Instr::Return => into.push_str("return"),
        Instr::End => into.push_str("end"),
        Instr::Trap(trap) => write!(into, "{trap:?}"),
        Instr::Within(first) => put_number(into, "within ", *first),
        Instr::Advance { first, past } => write!(into, "advance {first} past {past}"),
        Instr::NonZero => into.push_str("nonzero"),
        _ => put_transfer(into, instr),
    }
}

fn put_transfer(into: &mut String, instr: &Instr) -> Result<(), AllocError> {
    match instr {
        Instr::Put { device, format } => put_numbers(into, "put", &[*device, *format]),
        Instr::Get(reading) => put_reading(into, reading.get()),
        Instr::Take(device) => put_number(into, "take ", *device),
        Instr::Send(device) => put_number(into, "send ", *device),
        Instr::Enable(device) => put_number(into, "enable ", *device),
        Instr::Disable(device) => put_number(into, "disable ", *device),
        Instr::Trigger(device) => put_number(into, "trigger ", *device),
        Instr::Request(list) => put_numbers(into, "request", list.get().as_slice()),
        Instr::Release(list) => put_numbers(into, "release", list.get().as_slice()),
        _ => put_tasking(into, instr),
    }
}

fn put_tasking(into: &mut String, instr: &Instr) -> Result<(), AllocError> {
    match instr {
        Instr::Activate(activation) => put_activation(into, activation.get()),
        Instr::Continue(continuation) => put_continuation(into, continuation.get()),
        Instr::Resume(once) => write!(into, "resume {once:?}"),
        Instr::Suspend(task) => put_number(into, "suspend ", *task),
        Instr::Terminate(task) => put_number(into, "terminate ", *task),
        Instr::Prevent(task) => put_number(into, "prevent ", *task),
        Instr::SuspendOwn => into.push_str("suspend"),
        Instr::TerminateOwn => into.push_str("terminate"),
        Instr::PreventOwn => into.push_str("prevent"),
        _ => into.push_str("?"),
    }
}

fn put_code(into: &mut String, code: &Code) -> Result<(), AllocError> {
    for instr in code.instructions.as_slice() {
        put_simple(into, instr)?;
        into.push_str(";")?;
    }
    Ok(())
}

/// The code of all procedures, and then of all tasks, with a stroke behind each.
pub fn code_text(alloc: Global, object: &Parts) -> Result<String, AllocError> {
    let mut text = String::new(alloc);
    for procedure in object.procedures.as_slice() {
        put_code(&mut text, &procedure.code)?;
        text.push_str("|")?;
    }
    for task in object.tasks.as_slice() {
        put_code(&mut text, &task.code)?;
        text.push_str("|")?;
    }
    Ok(text)
}

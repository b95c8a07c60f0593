// Which numbers an instruction may name.

ghost use Rattle.std.specs.Prelude.{◌≡◌, map};
ghost use Rattle.pearl_instructions.specs.Named.{names_interrupt, has_read_cells, all_kept, names_there, cells_there, targets_there, v1};
ghost use Rattle.pearl_instructions.specs.Offers.{as_start, start_or_free};
ghost use Rattle.pearl_instructions.specs.Objects.{items_at};
ghost use Rattle.pearl_instructions.specs.Opcodes.{opcode};
ghost use Rattle.pearl_verify.specs.Formats.{format_row};

use crate::formats::FormatRow;
use crate::table::{
    all_below, data_count, gives_texts, has_cells, is_below, is_input, is_interrupt, is_output,
    items_at, takes_texts,
};
use pearl_instructions::instr::{Instr, Reading};
use pearl_instructions::object::{Code, Parts};
use pearl_instructions::schedule::{OnceForm, StartForm};

/// When a task goes on, as a start.
pub(crate) fn as_start(form: OnceForm) -> StartForm
    ensures { result ≡ as_start form }
{
    match form {
        OnceForm::At => StartForm::At,
        OnceForm::After => StartForm::After,
        OnceForm::When(device) => StartForm::When(device),
    }
}

pub(crate) fn start_or_free(form: Option<OnceForm>) -> StartForm
    ensures { result ≡ start_or_free form }
{
    match form {
        Some(form) => as_start(form),
        None => StartForm::Free,
    }
}

fn names_interrupt(object: &Parts, form: StartForm) -> bool
    ensures { result ≡ names_interrupt object.now form }
{
    match form {
        StartForm::When(device) => is_interrupt(object, device),
        StartForm::WhenAfter(device) => is_interrupt(object, device),
        StartForm::Free => true,
        StartForm::At => true,
        StartForm::After => true,
    }
}

fn has_read_cells(object: &Parts, code: &Code, formats: &[FormatRow], reading: Reading) -> bool
    requires { formats.now ≡ map format_row object.now.formats }
    ensures { result ≡ has_read_cells code.now reading.first (items_at object.now reading.format) }
{
    match data_count(object, formats, reading.format) {
        Some(count) => count == 0 || has_cells(code, reading.first, count as u64),
        None => false,
    }
}

/// Whether what an instruction names in the object's tables is there, of the right sort and direction.
fn names_tables(object: &Parts, instr: &Instr) -> bool
    ensures { result ≡ all_kept (names_there object.now (opcode instr.now).names) }
{
    let tasks = object.tasks.as_slice().len();
    let semaphores = object.semaphores.as_slice().len();
    match instr {
        Instr::Read(leaf)
        | Instr::Write(leaf)
        | Instr::ReadAt(leaf)
        | Instr::WriteAt(leaf)
        | Instr::RefSlot(leaf)
        | Instr::RefSlotAt(leaf) => is_below(*leaf, object.leaves.as_slice().len()),
        Instr::Call(procedure) => is_below(*procedure, object.procedures.as_slice().len()),
        Instr::Request(list) | Instr::Release(list) => all_below(list.get().as_slice(), semaphores),
        Instr::Try(semaphore) => is_below(*semaphore, semaphores),
        Instr::Activate(activation) => {
            let a = activation.get();
            is_below(a.task, tasks) && names_interrupt(object, a.start)
        }
        Instr::Continue(continuation) => {
            let c = continuation.get();
            is_below(c.task, tasks) && names_interrupt(object, start_or_free(c.once))
        }
        Instr::Resume(form) => names_interrupt(object, as_start(*form)),
        Instr::Suspend(task) | Instr::Terminate(task) | Instr::Prevent(task) => {
            is_below(*task, tasks)
        }
        Instr::Enable(device) | Instr::Disable(device) | Instr::Trigger(device) => {
            is_interrupt(object, *device)
        }
        Instr::Put { device, format } => {
            takes_texts(object, *device) && items_at(object, *format).is_some()
        }
        Instr::Get(reading) => gives_texts(object, reading.get().device),
        Instr::Take(device) => is_input(object, *device),
        Instr::Send(device) => is_output(object, *device),
        _ => true,
    }
}

/// Whether the cells that it names are the routine's.
fn names_cells(object: &Parts, code: &Code, formats: &[FormatRow], instr: &Instr) -> bool
    requires { formats.now ≡ map format_row object.now.formats }
    ensures { result ≡ all_kept (cells_there object.now code.now (opcode instr.now).cells) }
{
    let cells = code.cells.as_slice().len();
    match instr {
        Instr::Load(cell) | Instr::Store(cell) | Instr::RefCell(cell) => is_below(*cell, cells),
        Instr::Fill { first, count, .. } => has_cells(code, *first, *count),
        Instr::LoadAt { first, count }
        | Instr::StoreAt { first, count }
        | Instr::RefCellAt { first, count } => has_cells(code, *first, *count),
        Instr::Within(first) => has_cells(code, *first, 3),
        Instr::Advance { first, .. } => has_cells(code, *first, 3),
        Instr::Get(reading) => has_read_cells(object, code, formats, *reading.get()),
        _ => true,
    }
}

/// Whether the instructions to which it may jump are the routine's.
fn names_targets(code: &Code, instr: &Instr) -> bool
    ensures { result ≡ all_kept (targets_there code.now (opcode instr.now).targets) }
{
    let instructions = code.instructions.as_slice().len();
    match instr {
        Instr::Jump(to) | Instr::JumpZero(to) => is_below(*to, instructions),
        Instr::Case(list) => all_below(list.get().as_slice(), instructions),
        Instr::Advance { past, .. } => is_below(*past, instructions),
        _ => true,
    }
}

/// Whether each number names something of the right sort, and each range is one of the routine's cells (V1).
pub(crate) fn names_all(object: &Parts, code: &Code, formats: &[FormatRow], instr: &Instr) -> bool
    requires { formats.now ≡ map format_row object.now.formats }
    ensures { result ≡ v1 object.now code.now instr.now }
{
    names_tables(object, instr)
        && names_cells(object, code, formats, instr)
        && names_targets(code, instr)
}

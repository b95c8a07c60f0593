// How a task goes on after the answer to its action.

ghost use Rattle.std.specs.Prelude.{◌≡◌, ◌≢◌, ◌+◌, ◌<◌, ◌≤◌, [], IfSome, IsSome, Some, length, slice_get};
ghost use Rattle.pearl_stack.specs.Frames.{top_operands, used, pushed, without};
ghost use Rattle.pearl_instructions.specs.Flow.{called};
ghost use Rattle.pearl_instructions.specs.Lawful.{IsObject};
ghost use Rattle.pearl_instructions.specs.Objects.{items_at as items_of};
ghost use Rattle.pearl_instructions.specs.Offers.{with_values};
ghost use Rattle.pearl_instructions.specs.Rows.{row, after};
ghost use Rattle.pearl_instructions.specs.Stacks.{IsStack, task_of, room};
ghost use Rattle.pearl_instructions.specs.Steps.{heard as heard_of, all_heard as all_heard_of};
ghost use Rattle.pearl_exchange.specs.Heard.{answer_of};
ghost use Rattle.pearl_solo.specs.Answered.{count_or_none, gone_on, gone_on_with, taken_of, CanHear};
ghost use Rattle.pearl_solo.specs.Hearing.{read_on, Enters, HasFew, HasFormat, HearsAt};
ghost use Rattle.pearl_silent.specs.Standing.{act_on};
ghost use Rattle.pearl_silent.specs.Steps.{top_cells, with_cells, with_top_cell, IsHere, IsSizes};

use crate::calls::enter;
use crate::devices::{data_count, items_at};
use crate::plans::{activation_count, as_start, start_count, start_or_free};
use pearl_exchange::heard::{Beside, Heard};
use pearl_instructions::instr::Instr;
use pearl_instructions::valid::Valid;
use pearl_silent::elements::element;
use pearl_silent::known::laws_hold;
use pearl_silent::table::instr_at;
use pearl_stack::stack::{Frame, Loaded};
use pearl_value::cell::Cell;

// Goes on without so many operands.
fn go_on(stack: &mut Loaded, here: &Frame, taken: u32)
    requires here { IsHere here.now stack.old.frames }
    requires there { taken ≤ length (top_operands stack.old.frames) }
    ensures { stack.new ≡ record stack.old { frames = gone_on taken stack.old.frames } }
{
    stack.drop_top(taken);
    stack.go(here.instruction + 1);
}

// Puts the value that was heard on the top frame.
fn push_heard(stack: &mut Loaded, heard: Heard, beside: &Beside)
    requires some { stack.old.frames ≢ [] }
    requires room { used stack.old.frames < stack.old.room }
    ensures { stack.new ≡ record stack.old { frames = pushed (heard_of (answer_of heard beside.now)) stack.old.frames } }
{
    match heard {
        Heard::One => stack.push_copy(&beside.one),
        _ => stack.push_fixed(31, 0),
    }
}

// Goes on with the answer's value in the place of so many operands.
fn hear(stack: &mut Loaded, here: &Frame, taken: u32, heard: Heard, beside: &Beside)
    requires here { IsHere here.now stack.old.frames }
    requires there { taken ≤ length (top_operands stack.old.frames) }
    requires room { used (without taken stack.old.frames) < stack.old.room }
    ensures { stack.new ≡ record stack.old { frames = gone_on_with taken (heard_of (answer_of heard beside.now)) stack.old.frames } }
{
    stack.drop_top(taken);
    push_heard(stack, heard, beside);
    stack.go(here.instruction + 1);
}

// Writes a copy of a value into cell `c` of the top frame.
fn copy_to_cell(stack: &mut Loaded, c: u32, x: &Cell)
    requires { IsSome (slice_get (top_cells stack.old.frames) c) }
    ensures { stack.new ≡ record stack.old { frames = with_top_cell c x.now stack.old.frames } }
{
    stack.set_cell_copy(stack.frames() - 1, c, x);
}

// The value at a number.
fn value_at(values: &[Cell], i: usize) -> &Cell
    requires { i < length values.now }
    ensures { slice_get values.now i ≡ Some result.now }
{
    &values[i]
}

// Writes values into the cells of the top frame from cell `first` on.
fn set_values(stack: &mut Loaded, here: &Frame, first: u64, values: &[Cell])
    requires here { IsSizes here.now stack.old.frames }
    requires there { 0 < length values.now → first + length values.now ≤ length (top_cells stack.old.frames) }
    ensures { stack.new ≡ record stack.old { frames = with_cells (with_values (top_cells stack.old.frames) first values.now) stack.old.frames } }
{
    let _cells = here.cells;
    for done in 0..values.len() {
        let left = values.len() - 1 - done;
        let c = element(here, first, left as u64);
        copy_to_cell(stack, c as u32, value_at(values, left));
    }
}

// The values that were heard of a GET.
fn values_heard(heard: Heard, beside: &Beside) -> &[Cell]
    ensures { result.now ≡ all_heard_of (answer_of heard beside.now) }
{
    match heard {
        Heard::Many => beside.many.as_slice(),
        _ => &[],
    }
}

// After Get: its values become cells.
fn hear_all(stack: &mut Loaded, here: &Frame, first: u64, heard: Heard, beside: &Beside)
    requires here { IsHere here.now stack.old.frames }
    requires there { let values = all_heard_of (answer_of heard beside.now) in
        0 < length values → first + length values ≤ length (top_cells stack.old.frames) }
    ensures { stack.new ≡ record stack.old { frames = read_on first (all_heard_of (answer_of heard beside.now)) stack.old.frames } }
{
    set_values(stack, here, first, values_heard(heard, beside));
    stack.go(here.instruction + 1);
}

// After Call: the procedure's frame.
fn enter_called(code: &Valid, stack: &mut Loaded, p: u64)
    requires object { IsObject code.now }
    requires enters { Enters code.now p stack.old }
    ensures { IfSome (slice_get code.now.procedures p) (λ callee.
        stack.new ≡ record stack.old { frames = called p callee stack.old.frames (top_operands stack.old.frames) }) }
{
    let callee = &code.object().procedures.as_slice()[p as usize];
    enter(stack, p as u32, callee);
}

// How many values a format's items take.
fn count_at(code: &Valid, format: u64) -> u32
    requires { HasFew (items_of code.now format) }
    ensures { result ≡ count_or_none (items_of code.now format) }
{
    data_count(items_at(code, format))
}

// How many operands an instruction's action takes off.
fn taken_by(code: &Valid, instr: &Instr) -> u32
    requires { HasFormat code.now instr.now }
    ensures { result ≡ taken_of code.now instr.now }
{
    match instr {
        Instr::Write(_) => 1,
        Instr::WriteAt(_) => 2,
        Instr::WriteRef => 2,
        Instr::Activate(a) => activation_count(a.get()),
        Instr::Continue(c) => start_count(start_or_free(c.get().once)),
        Instr::Resume(form) => start_count(as_start(*form)),
        Instr::Put { format, .. } => count_at(code, *format),
        Instr::Send(_) => 1,
        _ => 0,
    }
}

// The stack after the answer to what this instruction offers.
fn hear_at(
    code: &Valid,
    stack: &mut Loaded,
    here: &Frame,
    instr: &Instr,
    heard: Heard,
    beside: &Beside,
)
    requires { HearsAt code.now instr.now here.now stack.old (answer_of heard beside.now) }
    ensures { stack.new ≡ record stack.old { frames = after (act_on code.now instr.now stack.old.frames) (answer_of heard beside.now) } }
{
    match instr {
        Instr::Read(_) => hear(stack, here, 0, heard, beside),
        Instr::ReadAt(_) => hear(stack, here, 1, heard, beside),
        Instr::ReadRef => hear(stack, here, 1, heard, beside),
        Instr::Now => hear(stack, here, 0, heard, beside),
        Instr::Try(_) => hear(stack, here, 0, heard, beside),
        Instr::Take(_) => hear(stack, here, 0, heard, beside),
        Instr::Call(p) => enter_called(code, stack, *p),
        Instr::Get(reading) => hear_all(stack, here, reading.get().first, heard, beside),
        _ => {
            let taken = taken_by(code, instr);
            go_on(stack, here, taken);
        }
    }
}

/// Goes on after what was heard of the action at which the task stands.
pub fn answer(code: &Valid, stack: &mut Loaded, heard: Heard, beside: &Beside)
    requires stack { IsStack code.now stack.old.frames }
    requires room { room code.now stack.old.frames ≤ stack.old.room }
    requires most { length code.now.procedures + 1 ≤ stack.old.most }
    requires suits { CanHear code.now (task_of code.now stack.old.frames) (row code.now stack.old.frames) (answer_of heard beside.now) }
    ensures after { stack.new ≡ record stack.old { frames = after (row code.now stack.old.frames) (answer_of heard beside.now) } }
    ensures stack { IsStack code.now stack.new.frames }
    ensures room { room code.now stack.new.frames ≤ stack.new.room }
    ensures task { task_of code.now stack.new.frames ≡ task_of code.now stack.old.frames }
{
    laws_hold(code);
    let here = stack.frame(stack.frames() - 1);
    let instr = instr_at(code, &here);
    hear_at(code, stack, &here, instr, heard, beside);
}

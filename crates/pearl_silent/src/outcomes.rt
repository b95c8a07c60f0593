// What an instruction leaves: a value in the place of operands, or none, and the next instruction.

ghost use Rattle.std.specs.Prelude.{◌≡◌, ◌≤◌, ◌<◌, IsSome, Some, Ok, length, slice_get, if◌then◌else◌};
ghost use Rattle.pearl_value.specs.declared.cell.Cell.{Cell};
ghost use Rattle.pearl_cells.specs.Made.{result_of};
ghost use Rattle.pearl_cells.specs.Filled.{filled};
ghost use Rattle.pearl_stack.specs.Frames.{top_operands, without, used};
ghost use Rattle.pearl_silent.specs.Steps.{HasNext, Applies, Does, top_cells, made_on, left_on, stored_on, told};

use crate::stepped::Did;
use pearl_cells::numbers::Made;
use pearl_stack::stack::Loaded;
use pearl_value::cell::Cell;
use pearl_value::trap::Trap;

// A copy of a value in the place of so many operands.
#[inline]
fn leave_copy(stack: &mut Loaded, taken: u32, x: &Cell) -> Did
    requires next { HasNext stack.old.frames }
    requires there { taken ≤ length (top_operands stack.old.frames) }
    requires ready { Applies (made_on taken (Ok x.now) stack.old.frames) stack.old.room }
    ensures { Does (made_on taken (Ok x.now) stack.old.frames) stack.old stack.new (told result) }
{
    stack.drop_top(taken);
    stack.push_copy(x);
    stack.go_on();
    Did::Silent
}

// A FIXED number in the place of so many operands.
#[inline]
pub fn leave_fixed(stack: &mut Loaded, taken: u32, len: u8, value: i64) -> Did
    requires next { HasNext stack.old.frames }
    requires there { taken ≤ length (top_operands stack.old.frames) }
    requires ready { Applies (made_on taken (Ok (Cell.Fixed len value)) stack.old.frames) stack.old.room }
    ensures { Does (made_on taken (Ok (Cell.Fixed len value)) stack.old.frames) stack.old stack.new (told result) }
{
    stack.drop_top(taken);
    stack.push_fixed(len, value);
    stack.go_on();
    Did::Silent
}

fn bit(holds: bool) -> u64
    ensures { result ≡ if holds then 1 else 0 }
{
    if holds { 1 } else { 0 }
}

// A truth value in the place of so many operands.
#[inline]
pub fn leave_truth(stack: &mut Loaded, taken: u32, holds: bool) -> Did
    requires next { HasNext stack.old.frames }
    requires there { taken ≤ length (top_operands stack.old.frames) }
    requires ready { Applies (made_on taken (Ok (Cell.Bits 1 (if holds then 1 else 0))) stack.old.frames) stack.old.room }
    ensures { Does (made_on taken (Ok (Cell.Bits 1 (if holds then 1 else 0))) stack.old.frames) stack.old stack.new (told result) }
{
    stack.drop_top(taken);
    stack.push_bits(1, bit(holds));
    stack.go_on();
    Did::Silent
}

// What was made in the place of so many operands, where it is small in memory, or the trap.
#[inline]
pub fn leave_made(stack: &mut Loaded, taken: u32, made: Made) -> Did
    requires next { HasNext stack.old.frames }
    requires there { taken ≤ length (top_operands stack.old.frames) }
    requires ready { Applies (made_on taken (result_of made) stack.old.frames) stack.old.room }
    ensures { Does (made_on taken (result_of made) stack.old.frames) stack.old stack.new (told result) }
{
    match made {
        Made::Number { len, value } => leave_fixed(stack, taken, len, value),
        Made::Truth(holds) => leave_truth(stack, taken, holds),
        Made::Trapped(trap) => Did::Trapped(trap),
    }
}

// What was made in the place of so many operands, or the trap.
pub fn leave(stack: &mut Loaded, taken: u32, made: Result<Cell, Trap>) -> Did
    requires next { HasNext stack.old.frames }
    requires there { taken ≤ length (top_operands stack.old.frames) }
    requires ready { Applies (made_on taken made stack.old.frames) stack.old.room }
    ensures { Does (made_on taken made stack.old.frames) stack.old stack.new (told result) }
{
    match made {
        Ok(x) => leave_copy(stack, taken, &x),
        Err(trap) => Did::Trapped(trap),
    }
}

// A copy of cell `c` of the top frame in the place of so many operands.
#[inline]
pub fn leave_cell(stack: &mut Loaded, taken: u32, c: u64) -> Did
    requires next { HasNext stack.old.frames }
    requires there { taken ≤ length (top_operands stack.old.frames) }
    requires cell { IsSome (slice_get (top_cells stack.old.frames) c) }
    requires room { used (without taken stack.old.frames) < stack.old.room }
    ensures { (x : Cell) → slice_get (top_cells stack.old.frames) c ≡ Some x → Does (made_on taken (Ok x) stack.old.frames) stack.old stack.new (told result) }
{
    let _size = stack.size();
    let top = stack.frames() - 1;
    stack.drop_top(taken);
    stack.push_cell(top, c as u32);
    stack.go_on();
    Did::Silent
}

// The top operand, filled with blanks up to so many bytes where it is a CHAR.
#[inline]
pub fn leave_filled(stack: &mut Loaded, len: u8) -> Did
    requires next { HasNext stack.old.frames }
    requires there { 0 < length (top_operands stack.old.frames) }
    ensures { (x : Cell) → slice_get (top_operands stack.old.frames) 0 ≡ Some x → Does (made_on 1 (Ok (filled len x)) stack.old.frames) stack.old stack.new (told result) }
{
    stack.fill_top(len);
    stack.go_on();
    Did::Silent
}

// Nothing in the place of so many operands.
#[inline]
pub fn leave_none(stack: &mut Loaded, taken: u32) -> Did
    requires next { HasNext stack.old.frames }
    requires there { taken ≤ length (top_operands stack.old.frames) }
    ensures { Does (left_on taken stack.old.frames) stack.old stack.new (told result) }
{
    stack.drop_top(taken);
    stack.go_on();
    Did::Silent
}

// The top operand in cell `c` of the top frame, and so many below it are taken off too.
#[inline]
pub fn leave_stored(stack: &mut Loaded, c: u64, below: u32) -> Did
    requires next { HasNext stack.old.frames }
    requires cell { IsSome (slice_get (top_cells stack.old.frames) c) }
    requires there { below < length (top_operands stack.old.frames) }
    ensures { Does (stored_on c below stack.old.frames) stack.old stack.new (told result) }
{
    let _size = stack.size();
    let top = stack.frames() - 1;
    stack.store_top(top, c as u32);
    stack.drop_top(below);
    stack.go_on();
    Did::Silent
}

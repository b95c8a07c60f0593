// Operands in a row.

ghost use Rattle.std.specs.Prelude.{◌≡◌, ◌≤◌, length, take, reverse};
ghost use Rattle.pearl_stack.specs.Frames.{top_operands};
ghost use Rattle.pearl_silent.specs.Steps.{IsHere};

use arrayvec::ArrayVec;
use pearl_silent::top::operand;
use pearl_stack::stack::{Frame, Loaded};
use pearl_value::cell::{Cell, copy_of};

// The top operands, so many, in the order in which they were pushed.
#[inline(never)]
pub fn top_values(stack: &Loaded, here: &Frame, count: u32) -> ArrayVec<Cell, 64>
    requires here { IsHere here.now stack.now.frames }
    requires there { count ≤ length (top_operands stack.now.frames) }
    requires few { count ≤ 64 }
    ensures { result.items ≡ reverse (take count (top_operands stack.now.frames)) }
{
    let mut values = ArrayVec::new();
    for i in 0..count {
        values.push(copy_of(operand(stack, here, count - 1 - i)));
    }
    values
}

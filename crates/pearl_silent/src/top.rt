// The top frame of a stack.

ghost use Rattle.std.specs.Prelude.{◌≡◌, ◌<◌, ◌≤◌, IsSome, Some, length, slice_get};
ghost use Rattle.pearl_stack.specs.Frames.{top_operands};
ghost use Rattle.pearl_silent.specs.Steps.{IsHere, Applies, Does, top_cells, made_on, told};

use crate::outcomes::leave;
use crate::own::own;
use crate::stepped::Did;
use pearl_stack::stack::{Frame, Loaded};
use pearl_value::cell::Cell;
use pearl_value::trap::Trap;

/// The operand of the top frame that has so many above it.
pub fn operand<'a>(stack: &'a Loaded, here: &Frame, above: u32) -> &'a Cell
    requires here { IsHere here.now stack.now.frames }
    requires there { above < length (top_operands stack.now.frames) }
    ensures { slice_get (top_operands stack.now.frames) above ≡ Some result.now }
{
    stack.top(above)
}

/// Cell `c` of the top frame.
pub fn own_cell<'a>(stack: &'a Loaded, here: &Frame, c: u64) -> &'a Cell
    requires here { IsHere here.now stack.now.frames }
    requires there { IsSome (slice_get (top_cells stack.now.frames) c) }
    ensures { slice_get (top_cells stack.now.frames) c ≡ Some result.now }
{
    own(stack, c)
}

/// Puts what was made in the place of so many operands and goes on, or offers the trap.
pub fn finish(stack: &mut Loaded, here: &Frame, taken: u32, made: Result<Cell, Trap>) -> Did
    requires here { IsHere here.now stack.old.frames }
    requires there { taken ≤ length (top_operands stack.old.frames) }
    requires ready { Applies (made_on taken made stack.old.frames) stack.old.room }
    ensures { Does (made_on taken made stack.old.frames) stack.old stack.new (told result) }
{
    leave(stack, taken, made)
}

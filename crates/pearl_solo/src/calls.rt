// Calls of procedures.

ghost use Rattle.std.specs.Prelude.{◌≡◌, ◌+◌, ◌-◌, ◌<◌, ◌≤◌, ◌^◌, length};
ghost use Rattle.std.specs.List.{AllByRecursion};
ghost use Rattle.pearl_stack.specs.Frames.{top_operands, used};
ghost use Rattle.pearl_instructions.specs.Flow.{called};
ghost use Rattle.pearl_instructions.specs.Lawful.{IsCellKind};

use crate::frames::set_fresh;
use pearl_instructions::object::Procedure;
use pearl_stack::stack::Loaded;

// The stack after the answer to a Call: a frame of the procedure, whose first cells are the arguments. Those
// beyond them are unset of their kinds.
pub fn enter(stack: &mut Loaded, p: u32, callee: &Procedure)
    requires kinds { AllByRecursion IsCellKind callee.now.code.cells }
    requires there { callee.now.params ≤ length (top_operands stack.old.frames) }
    requires few { callee.now.params ≤ length callee.now.code.cells }
    requires short { length callee.now.code.cells < 2 ^ 32 }
    requires room { used stack.old.frames + (length callee.now.code.cells - callee.now.params) ≤ stack.old.room }
    requires frame { length stack.old.frames < stack.old.most }
    ensures { stack.new ≡ record stack.old { frames = called p callee.now stack.old.frames (top_operands stack.old.frames) } }
{
    let kinds = callee.code.cells.as_slice();
    let params = callee.params as u32;
    stack.enter(p, params, kinds.len() as u32);
    set_fresh(stack, kinds, params);
}

// Instructions, one after the other, until an action is offered.

ghost use Rattle.std.specs.Prelude.{◌≡◌, ◌≤◌};
ghost use Rattle.pearl_instructions.specs.Stacks.{IsStack, task_of, room};
ghost use Rattle.pearl_exchange.specs.Offers.{action_of};
ghost use Rattle.pearl_solo.specs.Settling.{Settles};

use crate::step::step_at;
use crate::stepped::Gave;
use pearl_exchange::offer::{Offer, What};
use pearl_instructions::valid::Valid;
use pearl_silent::known::laws_hold;
use pearl_silent::run::run_silent;
use pearl_stack::stack::Loaded;

/// Carries out instructions until one offers an action, at which the task stands then, and leaves it beside the stack.
pub fn settle(code: &Valid, stack: &mut Loaded, into: &mut Offer)
    requires stack { IsStack code.now stack.old.frames }
    requires room { room code.now stack.old.frames ≤ stack.old.room }
    ensures settles { Settles code.now stack.old.frames stack.new.frames (action_of into.new) }
    ensures memory { (stack.new.room ≡ stack.old.room) × (stack.new.most ≡ stack.old.most) }
    ensures stack { IsStack code.now stack.new.frames }
    ensures room { room code.now stack.new.frames ≤ stack.new.room }
    ensures task { task_of code.now stack.new.frames ≡ task_of code.now stack.old.frames }
{
    laws_hold(code);
    loop {
        match run_silent(code, stack) {
            Err(trap) => {
                into.what = What::Trap(trap);
                return;
            }
            Ok(instr) => match step_at(code, stack, instr, into) {
                Gave::Silent => {}
                Gave::Offered => return,
            },
        }
    }
}

// Actions that are offered, and change nothing.

ghost use Rattle.std.specs.Prelude.{◌≢◌, [], slice_get};
ghost use Rattle.pearl_rules.specs.declared.action.Action.{Action};
ghost use Rattle.pearl_instructions.specs.Flow.{call as call_row};
ghost use Rattle.pearl_instructions.specs.Steps.{acts as acts_row, asks as asks_row, stops as stops_row, popped as popped_row};
ghost use Rattle.pearl_silent.specs.Steps.{on_top, Does, Applies, IsHere};
ghost use Rattle.pearl_exchange.specs.Offers.{action_by, action_of};
ghost use Rattle.pearl_solo.specs.Gives.{gave};

use crate::stepped::Gave;
use pearl_cells::put::put_copy;
use pearl_exchange::offer::{Offer, What};
use pearl_instructions::valid::Valid;
use pearl_silent::top::operand;
use pearl_stack::stack::{Frame, Loaded};

// Offers an action after whose answer the next instruction comes: Turn, Request, Release, Suspend, Terminate,
// Prevent, SuspendOwn, PreventOwn, Enable, Disable and Trigger.
pub fn acts(stack: &Loaded, what: What, into: &mut Offer) -> Gave
    requires { stack.now.frames ≢ [] }
    ensures { Does (on_top (λ f lower. acts_row (action_by what into.old) f lower f.operands) stack.now.frames) stack.now stack.now (gave result (action_of into.new)) }
{
    into.what = what;
    Gave::Offered
}

// Offers an action whose answer is pushed: Now, Try and Take.
pub fn asks(stack: &Loaded, what: What, into: &mut Offer) -> Gave
    requires { stack.now.frames ≢ [] }
    ensures { Does (on_top (λ f lower. asks_row (action_by what into.old) f lower f.operands) stack.now.frames) stack.now stack.now (gave result (action_of into.new)) }
{
    into.what = what;
    Gave::Offered
}

// Offers an action with which the task ends: End, Trap and TerminateOwn.
pub fn stops(stack: &Loaded, what: What, into: &mut Offer) -> Gave
    requires { stack.now.frames ≢ [] }
    ensures { Does (on_top (λ f lower. stops_row (action_by what into.old) f lower) stack.now.frames) stack.now stack.now (gave result (action_of into.new)) }
{
    into.what = what;
    Gave::Offered
}

// Send: offers the value on top, which is copied since it stays there up to the answer.
pub fn send(stack: &Loaded, here: &Frame, device: u32, into: &mut Offer) -> Gave
    requires here { IsHere here.now stack.now.frames }
    requires ready { Applies (on_top (λ f lower. popped_row f.operands (λ x left. acts_row (Action.Send device x) f lower left)) stack.now.frames) stack.now.room }
    ensures { Does (on_top (λ f lower. popped_row f.operands (λ x left. acts_row (Action.Send device x) f lower left)) stack.now.frames) stack.now stack.now (gave result (action_of into.new)) }
{
    put_copy(&mut into.value, operand(stack, here, 0));
    into.what = What::Send(device);
    Gave::Offered
}

// Call.
pub fn call(code: &Valid, stack: &Loaded, p: u64, into: &mut Offer) -> Gave
    requires ready { Applies (on_top (λ f lower. call_row p (slice_get code.now.procedures p) f lower) stack.now.frames) stack.now.room }
    ensures { Does (on_top (λ f lower. call_row p (slice_get code.now.procedures p) f lower) stack.now.frames) stack.now stack.now (gave result (action_of into.new)) }
{
    into.what = What::Enter;
    Gave::Offered
}

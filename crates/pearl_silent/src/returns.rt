// The way back from a procedure.

ghost use Rattle.std.specs.Prelude.{◌+◌, ◌<◌, ◌^◌, drop};
ghost use Rattle.pearl_stack.specs.Frames.{place_of};
ghost use Rattle.pearl_instructions.specs.Flow.{returns as returns_row};
ghost use Rattle.pearl_instructions.specs.declared.instr.Instr.{Instr};
ghost use Rattle.pearl_silent.specs.Standing.{act_on, StandsAt};
ghost use Rattle.pearl_silent.specs.Steps.{on_top, sizes_of, Does, Applies, told};

use crate::stepped::Did;
use crate::table::{instr_at, result_of};
use pearl_instructions::valid::Valid;
use pearl_stack::stack::Loaded;
use pearl_value::kind::Kind;

// From a procedure that has this result.
fn go_back(stack: &mut Loaded, result_kind: Option<Kind>) -> Did
    requires ready { Applies (on_top (λ f lower. returns_row result_kind f lower) stack.old.frames) stack.old.room }
    requires next { place_of (drop 1 stack.old.frames) + 1 < 2 ^ 64 }
    ensures { Does (on_top (λ f lower. returns_row result_kind f lower) stack.old.frames) stack.old stack.new (told result) }
{
    match result_kind {
        None => {
            stack.leave();
            stack.go_on();
            Did::Silent
        }
        Some(_) => {
            stack.leave_with_top();
            stack.go_on();
            Did::Silent
        }
    }
}

// Return.
pub fn return_to_caller(code: &Valid, stack: &mut Loaded) -> Did
    requires { StandsAt code.now (Instr.Return) (sizes_of stack.old.frames) stack.old }
    ensures { Does (act_on code.now (Instr.Return) stack.old.frames) stack.old stack.new (told result) }
{
    let below = stack.frame(stack.frames() - 2);
    let _call = instr_at(code, &below);
    let here = stack.frame(stack.frames() - 1);
    let result_kind = result_of(code, here.routine);
    go_back(stack, result_kind)
}

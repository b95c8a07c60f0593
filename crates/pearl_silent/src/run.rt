// Instructions that offer no action but a trap, one after the other.

ghost use Rattle.std.specs.Prelude.{◌≡◌, ◌≤◌, ◌<◌, ◌+◌, ◌^◌, length, slice_get, Some, None, IfOk};
ghost use Rattle.pearl_instructions.specs.Rows.{row};
ghost use Rattle.pearl_instructions.specs.Stacks.{IsStack, task_of, room};
ghost use Rattle.pearl_instructions.specs.declared.instr.Instr.{Instr};
ghost use Rattle.pearl_silent.specs.Standing.{family, instr_of};
ghost use Rattle.pearl_silent.specs.Steps.{HasNext, Tries};
ghost use Rattle.pearl_silent.specs.Settling.{RunsTo, Ends, instructions_of, trap_of};

use crate::known::laws_hold;
use crate::step::on_silent;
use crate::stepped::Did;
use crate::table::code_at;
use pearl_instructions::instr::Instr;
use pearl_instructions::valid::Valid;
use pearl_stack::stack::Loaded;
use pearl_value::trap::Trap;

// The instructions of the routine whose frame is on top.
fn instructions_here<'a>(code: &'a Valid, stack: &Loaded) -> &'a [Instr]
    requires { IsStack code.now stack.now.frames }
    ensures { instructions_of code.now stack.now.frames ≡ Some result.now }
{
    let here = stack.frame(stack.frames() - 1);
    code_at(code.object(), here.routine).instructions.as_slice()
}

// The instruction at a place. Another one can stand behind it.
#[inline]
fn instruction_in(instructions: &[Instr], place: u64) -> &Instr
    requires { place < length instructions.now }
    ensures instr { slice_get instructions.now place ≡ Some result.now }
    ensures next { place + 1 < 2 ^ 64 }
{
    &instructions[place as usize]
}

// The instructions of the routine whose frame is on top after this instruction. Only a Return leaves another frame there.
#[inline]
fn instructions_after<'a>(
    code: &'a Valid,
    stack: &Loaded,
    instr: &Instr,
    before: &'a [Instr],
) -> &'a [Instr]
    requires stack { IsStack code.now stack.now.frames }
    requires same { (instr.now ≡ Instr.Return → ⊥) → instructions_of code.now stack.now.frames ≡ Some before.now }
    ensures { instructions_of code.now stack.now.frames ≡ Some result.now }
{
    match instr {
        Instr::Return => instructions_here(code, stack),
        _ => before,
    }
}

/// Carries out instructions that offer no action but a trap, up to one that may offer another action, which is the answer, or
/// to a trap.
pub fn run_silent<'a>(code: &'a Valid, stack: &mut Loaded) -> Result<&'a Instr, Trap>
    requires stack { IsStack code.now stack.old.frames }
    requires room { room code.now stack.old.frames ≤ stack.old.room }
    ensures runs { RunsTo code.now stack.old.frames stack.new.frames (trap_of result) }
    ensures there { IfOk result (λ instr. instr_of code.now stack.new.frames ≡ Some instr.now) }
    ensures family { IfOk result (λ instr. 2 ≤ family instr.now) }
    ensures next { IfOk result (λ _. HasNext stack.new.frames) }
    ensures memory { (stack.new.room ≡ stack.old.room) × (stack.new.most ≡ stack.old.most) }
    ensures stack { IsStack code.now stack.new.frames }
    ensures room { room code.now stack.new.frames ≤ stack.new.room }
    ensures task { task_of code.now stack.new.frames ≡ task_of code.now stack.old.frames }
{
    laws_hold(code);
    let mut instructions = instructions_here(code, stack);
    'rows: loop {
        let instr = instruction_in(instructions, stack.place());
        match on_silent(code, stack, instr) {
            Some(did) => match did {
                Did::Silent => {
                    instructions = instructions_after(code, stack, instr, instructions);
                }
                Did::Trapped(trap) => return Err(trap),
            },
            None => return Ok(instr),
        }
    }
}

/// Carries out one instruction where it offers no action but a trap; else nothing changes, and there is no answer.
pub fn quick_step(code: &Valid, stack: &mut Loaded) -> Option<Did>
    requires stack { IsStack code.now stack.old.frames }
    requires room { room code.now stack.old.frames ≤ stack.old.room }
    ensures tries { Tries (row code.now stack.old.frames) (Ends code.now stack.old.frames None) stack.old stack.new result }
    ensures stack { IsStack code.now stack.new.frames }
    ensures room { room code.now stack.new.frames ≤ stack.new.room }
    ensures task { task_of code.now stack.new.frames ≡ task_of code.now stack.old.frames }
{
    laws_hold(code);
    let instructions = instructions_here(code, stack);
    let instr = instruction_in(instructions, stack.place());
    on_silent(code, stack, instr)
}

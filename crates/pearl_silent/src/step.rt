// One instruction that offers no action but a trap.

ghost use Rattle.std.specs.Prelude.{◌≤◌};
ghost use Rattle.pearl_silent.specs.Standing.{act_on, family, StandsAt};
ghost use Rattle.pearl_silent.specs.Steps.{sizes_of, Tries};

use crate::returns::return_to_caller;
use crate::stepped::Did;
use crate::{advances, cells, flow, indices, loops, operators};
use pearl_instructions::instr::Instr;
use pearl_instructions::valid::Valid;
use pearl_stack::stack::Loaded;

// Jumps, loops and the way back from a procedure.
fn on_jumps(code: &Valid, stack: &mut Loaded, instr: &Instr) -> Option<Did>
    requires at { StandsAt code.now instr.now (sizes_of stack.old.frames) stack.old }
    requires family { 1 ≤ family instr.now }
    ensures { Tries (act_on code.now instr.now stack.old.frames) (2 ≤ family instr.now) stack.old stack.new result }
{
    match instr {
        Instr::Jump(i) => Some(flow::jump(stack, *i)),
        Instr::JumpZero(i) => Some(flow::jump_zero(stack, *i)),
        Instr::Case(targets) => Some(flow::case(stack, targets.get().as_slice())),
        Instr::Return => Some(return_to_caller(code, stack)),
        Instr::Within(c) => Some(loops::within(stack, *c)),
        Instr::Advance { first, past } => Some(advances::advance(stack, *first, *past)),
        _ => None,
    }
}

/// Carries out this instruction, at which the stack stands, where it offers no action but a trap; else nothing changes,
/// and there is no answer.
pub fn on_silent(code: &Valid, stack: &mut Loaded, instr: &Instr) -> Option<Did>
    requires { StandsAt code.now instr.now (sizes_of stack.old.frames) stack.old }
    ensures { Tries (act_on code.now instr.now stack.old.frames) (2 ≤ family instr.now) stack.old stack.new result }
{
    match instr {
        Instr::Const(x) => Some(cells::literal(stack, x)),
        Instr::Load(c) => Some(cells::load(stack, *c)),
        Instr::Store(c) => Some(cells::store(stack, *c)),
        Instr::Fill { first, count, kind } => Some(cells::fill(stack, *first, *count, *kind)),
        Instr::Drop => Some(cells::drop_one(stack)),
        Instr::LoadAt { first, count } => Some(cells::load_at(stack, *first, *count)),
        Instr::StoreAt { first, count } => Some(cells::store_at(stack, *first, *count)),
        Instr::RefCell(c) => Some(cells::ref_cell(stack, *c)),
        Instr::RefCellAt { first, count } => Some(cells::ref_cell_at(stack, *first, *count)),
        Instr::Conv(kind) => Some(operators::converting(stack, *kind)),
        Instr::Index(bounds) => Some(indices::index(stack, bounds.get().as_slice())),
        Instr::NonZero => Some(advances::non_zero(stack)),
        Instr::Monadic(op) => Some(operators::monadic(stack, *op)),
        Instr::Dyadic(op) => Some(operators::dyadic(stack, *op)),
        _ => on_jumps(code, stack, instr),
    }
}

// Jumps.

ghost use Rattle.std.specs.Prelude.{◌≡◌, if◌then◌else◌, unwrap_or};
ghost use Rattle.pearl_instructions.specs.Steps.{popped as popped_row};
ghost use Rattle.pearl_instructions.specs.Flow.{goes as goes_row, jump_zero as jump_zero_row, branch as branch_row};
ghost use Rattle.pearl_silent.specs.Steps.{on_top, is_zero as is_zero_of, target_for, Does, Applies, HasNext, told};

use crate::stepped::Did;
use pearl_stack::stack::Loaded;
use pearl_value::cell::Cell;

// Jump.
pub fn jump(stack: &mut Loaded, i: u64) -> Did
    requires next { HasNext stack.old.frames }
    ensures { Does (on_top (λ f lower. goes_row i f lower f.operands) stack.old.frames) stack.old stack.new (told result) }
{
    stack.go(i);
    Did::Silent
}

// Whether a BIT is 0.
fn is_zero(x: &Cell) -> bool
    ensures { result ≡ is_zero_of x.now }
{
    match x {
        Cell::Bits { value, .. } => *value == 0,
        _ => false,
    }
}

// The instruction to which one jumps where the BIT is 0, else the next one.
fn zero_or(x: &Cell, i: u64, next: u64) -> u64
    ensures { result ≡ if is_zero_of x.now then i else next }
{
    if is_zero(x) { i } else { next }
}

// JumpZero.
pub fn jump_zero(stack: &mut Loaded, i: u64) -> Did
    requires next { HasNext stack.old.frames }
    requires ready { Applies (on_top (λ f lower. popped_row f.operands (λ b left. jump_zero_row i f lower left b)) stack.old.frames) stack.old.room }
    ensures { Does (on_top (λ f lower. popped_row f.operands (λ b left. jump_zero_row i f lower left b)) stack.old.frames) stack.old stack.new (told result) }
{
    let to = zero_or(stack.top(0), i, stack.place() + 1);
    stack.drop_top(1);
    stack.go(to);
    Did::Silent
}

// The instruction that the value of a CASE names.
fn target(targets: &[u64], x: &Cell) -> Option<u64>
    ensures { result ≡ target_for targets.now x.now }
{
    match x {
        Cell::Fixed { value, .. } => {
            if *value < 1 {
                None
            } else {
                targets.get((*value - 1) as usize).copied()
            }
        }
        _ => None,
    }
}

// That instruction, or the next one.
fn target_or(targets: &[u64], x: &Cell, next: u64) -> u64
    ensures { result ≡ unwrap_or (target_for targets.now x.now) next }
{
    match target(targets, x) {
        Some(i) => i,
        None => next,
    }
}

// Case.
pub fn case(stack: &mut Loaded, targets: &[u64]) -> Did
    requires next { HasNext stack.old.frames }
    requires ready { Applies (on_top (λ f lower. popped_row f.operands (λ x left. branch_row targets.now f lower left x)) stack.old.frames) stack.old.room }
    ensures { Does (on_top (λ f lower. popped_row f.operands (λ x left. branch_row targets.now f lower left x)) stack.old.frames) stack.old stack.new (told result) }
{
    let to = target_or(targets, stack.top(0), stack.place() + 1);
    stack.drop_top(1);
    stack.go(to);
    Did::Silent
}

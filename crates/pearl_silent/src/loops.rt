// The tests of loops.

ghost use Rattle.std.specs.Prelude.{◌≡◌, if◌then◌else◌};
ghost use Rattle.pearl_value.specs.declared.cell.Cell.{Cell};
ghost use Rattle.pearl_instructions.specs.Flow.{within_loop as within_row};
ghost use Rattle.pearl_silent.specs.Steps.{on_top, Does, Applies, HasNext, told};
ghost use Rattle.pearl_silent.specs.Numbers.{HasLoop, are_past};

use crate::outcomes::leave_truth;
use crate::own::{behind, own};
use crate::stepped::Did;
use pearl_stack::stack::Loaded;
use pearl_value::cell::Cell;

// Whether the control of a loop is beyond the limit, in the direction of the step.
fn is_past(control: &Cell, step: &Cell, limit: &Cell) -> bool
    ensures { result ≡ are_past control.now step.now limit.now }
{
    match (control, step, limit) {
        (
            Cell::Fixed { value: now, .. },
            Cell::Fixed { value: by, .. },
            Cell::Fixed { value: end, .. },
        ) => { (*end < *now && 0 <= *by) || (*now < *end && *by < 0) }
        _ => false,
    }
}

// Within. The cells of the loop hold numbers.
pub fn within(stack: &mut Loaded, first: u64) -> Did
    requires next { HasNext stack.old.frames }
    requires numbers { HasLoop first stack.old.frames }
    requires ready { Applies (on_top (λ f lower. within_row first f lower) stack.old.frames) stack.old.room }
    ensures { Does (on_top (λ f lower. within_row first f lower) stack.old.frames) stack.old stack.new (told result) }
{
    let control = own(stack, first);
    let second = behind(stack, first, 1);
    let third = behind(stack, first, 2);
    let step = own(stack, second);
    let limit = own(stack, third);
    let past = is_past(control, step, limit);
    leave_truth(stack, 0, !past)
}

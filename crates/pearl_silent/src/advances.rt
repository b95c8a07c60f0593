// The step of a loop, and the test that a step isn't 0.

ghost use Rattle.std.specs.Prelude.{◌≡◌, ◌≤◌, ◌^◌, ◌+ℤ◌, pos, if◌then◌else◌, Some, None, option_map};
ghost use Rattle.pearl_value.specs.declared.cell.Cell.{Cell};
ghost use Rattle.std.specs.List.{AllByRecursion};
ghost use Rattle.pearl_value.specs.Conversions.{fits_fixed};
ghost use Rattle.pearl_value.specs.WellFormed.{IsValue};
ghost use Rattle.pearl_instructions.specs.Flow.{advance as advance_row};
ghost use Rattle.pearl_instructions.specs.Operators.{non_zero as non_zero_row};
ghost use Rattle.pearl_silent.specs.Advances.{fixed_of, advanced, null_trap as null_trap_of};
ghost use Rattle.pearl_silent.specs.Numbers.{HasLoop};
ghost use Rattle.pearl_silent.specs.Steps.{on_top, top_cells, Does, Applies, HasNext, IsFormed, told};

use crate::outcomes::leave_none;
use crate::own::{behind, own, set_own_number};
use crate::stepped::Did;
use pearl_stack::stack::Loaded;
use pearl_value::cell::Cell;
use pearl_value::trap::Trap;

// 2 to the power `len`.
fn power_of_two(len: u8) -> i128
    requires { len ≤ 63 }
    ensures { result ≡ pos (2 ^ len) }
{
    (1u64 << len) as i128
}

// Whether a number lies from -2^len to 2^len - 1.
fn is_in_range(value: i128, len: u8) -> bool
    requires { len ≤ 63 }
    ensures { result ≡ fits_fixed len value }
{
    let end = power_of_two(len);
    -end <= value && value <= end - 1
}

// A FIXED number.
#[derive(Clone, Copy)]
struct Number {
    len: u8,
    value: i64,
}

// The number of this length, where it is one.
fn fixed(len: u8, value: i128) -> Option<Number>
    requires { len ≤ 63 }
    ensures { option_map fixed_of result ≡ if fits_fixed len value then Some (Cell.Fixed len value) else None }
{
    if is_in_range(value, len) {
        Some(Number {
            len,
            value: value as i64,
        })
    } else {
        None
    }
}

fn sum(a: i64, b: i64) -> i128
    ensures { result ≡ a +ℤ b }
{
    a as i128 + b as i128
}

// The control of a loop after its step, where it is still of its kind.
fn next_control(control: &Cell, step: &Cell) -> Option<Number>
    requires { IsValue control.now }
    ensures { option_map fixed_of result ≡ advanced control.now step.now }
{
    match (control, step) {
        (Cell::Fixed { len, value }, Cell::Fixed { value: by, .. }) => fixed(
            *len,
            sum(*value, *by),
        ),
        _ => None,
    }
}

// Advance. The cells of the loop hold numbers.
pub fn advance(stack: &mut Loaded, first: u64, past: u64) -> Did
    requires next { HasNext stack.old.frames }
    requires numbers { HasLoop first stack.old.frames }
    requires formed { AllByRecursion IsFormed (top_cells stack.old.frames) }
    ensures { Does (on_top (λ f lower. advance_row first past f lower) stack.old.frames) stack.old stack.new (told result) }
{
    let second = behind(stack, first, 1);
    let control = own(stack, first);
    let step = own(stack, second);
    match next_control(control, step) {
        Some(x) => {
            set_own_number(stack, first, x.len, x.value);
            stack.go_on();
            Did::Silent
        }
        None => {
            stack.go(past);
            Did::Silent
        }
    }
}

// The trap where a number is 0.
fn null_trap(x: &Cell) -> Option<Trap>
    ensures { result ≡ null_trap_of x.now }
{
    match x {
        Cell::Fixed { value, .. } => { if *value == 0 { Some(Trap::Range) } else { None } }
        _ => None,
    }
}

// NonZero.
pub fn non_zero(stack: &mut Loaded) -> Did
    requires next { HasNext stack.old.frames }
    requires ready { Applies (on_top (λ f lower. non_zero_row f lower) stack.old.frames) stack.old.room }
    ensures { Does (on_top (λ f lower. non_zero_row f lower) stack.old.frames) stack.old stack.new (told result) }
{
    match null_trap(stack.top(0)) {
        Some(trap) => Did::Trapped(trap),
        None => leave_none(stack, 0),
    }
}

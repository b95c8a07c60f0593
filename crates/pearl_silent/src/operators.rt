// Operators and conversions.

ghost use Rattle.std.specs.Prelude.{◌≡◌, IfSome, Ok};
ghost use Rattle.std.specs.List.{AllByRecursion};
ghost use Rattle.pearl_value.specs.Kinds.{IsKind};
ghost use Rattle.pearl_value.specs.WellFormed.{IsValue};
ghost use Rattle.pearl_value.specs.Applied.{applied2};
ghost use Rattle.pearl_value.specs.Cells.{kind_of};
ghost use Rattle.pearl_value.specs.Conversions.{SuitsKind, converted};
ghost use Rattle.pearl_cells.specs.Made.{result_of};
ghost use Rattle.pearl_cells.specs.Filled.{filled};
ghost use Rattle.pearl_stack.specs.Frames.{top_operands};
ghost use Rattle.pearl_instructions.specs.Operators.{monadic as monadic_row, dyadic as dyadic_row, convert as convert_row};
ghost use Rattle.pearl_silent.specs.Steps.{on_top, Does, Applies, HasNext, IsFormed, told};

use crate::outcomes::{leave, leave_filled, leave_made};
use crate::stepped::Did;
use pearl_cells::numbers::{Made, in_length, of_two};
use pearl_cells::texts::of_texts;
use pearl_stack::stack::Loaded;
use pearl_value::apply::{apply1, apply2};
use pearl_value::cell::Cell;
use pearl_value::conversion::convert;
use pearl_value::kind::Kind;
use pearl_value::operator::{Dyad, Monad};

// Monadic.
#[inline(never)]
pub fn monadic(stack: &mut Loaded, op: Monad) -> Did
    requires next { HasNext stack.old.frames }
    requires formed { AllByRecursion IsFormed (top_operands stack.old.frames) }
    requires ready { Applies (on_top (λ f lower. monadic_row op f lower) stack.old.frames) stack.old.room }
    ensures { Does (on_top (λ f lower. monadic_row op f lower) stack.old.frames) stack.old stack.new (told result) }
{
    let made = apply1(op, stack.top(0));
    leave(stack, 1, made)
}

// What the operator makes of two numbers, or a comparison of two texts.
#[inline]
fn small_of(op: Dyad, x: &Cell, y: &Cell) -> Option<Made>
    requires left { IsValue x.now }
    requires right { IsValue y.now }
    ensures { IfSome result (λ made. result_of made ≡ applied2 op x.now y.now) }
{
    match (x, y) {
        (
            Cell::Fixed { len, value: a },
            Cell::Fixed {
                len: other,
                value: b,
            },
        ) => Some(of_two(op, *len, *a, *other, *b)),
        (Cell::Chars(text), Cell::Chars(other)) => of_texts(op, text, other),
        _ => None,
    }
}

// Dyadic, whatever the operands are. Out of line, since what is made may be large.
#[inline(never)]
fn dyadic_of_all(stack: &mut Loaded, op: Dyad) -> Did
    requires next { HasNext stack.old.frames }
    requires formed { AllByRecursion IsFormed (top_operands stack.old.frames) }
    requires ready { Applies (on_top (λ f lower. dyadic_row op f lower) stack.old.frames) stack.old.room }
    ensures { Does (on_top (λ f lower. dyadic_row op f lower) stack.old.frames) stack.old stack.new (told result) }
{
    let right = stack.top(0);
    let left = stack.top(1);
    let made = apply2(op, left, right);
    leave(stack, 2, made)
}

// Dyadic.
pub fn dyadic(stack: &mut Loaded, op: Dyad) -> Did
    requires next { HasNext stack.old.frames }
    requires formed { AllByRecursion IsFormed (top_operands stack.old.frames) }
    requires ready { Applies (on_top (λ f lower. dyadic_row op f lower) stack.old.frames) stack.old.room }
    ensures { Does (on_top (λ f lower. dyadic_row op f lower) stack.old.frames) stack.old stack.new (told result) }
{
    let right = stack.top(0);
    let left = stack.top(1);
    match small_of(op, left, right) {
        Some(made) => leave_made(stack, 2, made),
        None => dyadic_of_all(stack, op),
    }
}

// A number in this kind, where the value and the kind are FIXED.
#[inline]
fn number_in(x: &Cell, to: Kind) -> Option<Made>
    requires { IsKind to }
    ensures { IfSome result (λ made. result_of made ≡ converted x.now to) }
{
    match (x, to) {
        (Cell::Fixed { len, value }, Kind::Fixed(room)) => Some(in_length(*value, *len, room)),
        _ => None,
    }
}

// The length up to which a CHAR is filled in this kind, where the kind is CHAR too.
#[inline]
fn length_in(x: &Cell, to: Kind) -> Option<u8>
    requires { SuitsKind (kind_of x.now) to }
    ensures { IfSome result (λ len. converted x.now to ≡ Ok (filled len x.now)) }
{
    match (x, to) {
        (Cell::Chars(_), Kind::Chars(room)) => Some(room),
        _ => None,
    }
}

// Conv, whatever the operand is. Out of line, since what is made may be large.
#[inline(never)]
fn converting_all(stack: &mut Loaded, to: Kind) -> Did
    requires next { HasNext stack.old.frames }
    requires formed { AllByRecursion IsFormed (top_operands stack.old.frames) }
    requires kind { IsKind to }
    requires ready { Applies (on_top (λ f lower. convert_row to f lower) stack.old.frames) stack.old.room }
    ensures { Does (on_top (λ f lower. convert_row to f lower) stack.old.frames) stack.old stack.new (told result) }
{
    let x = stack.top(0);
    let made = convert(x, to);
    leave(stack, 1, made)
}

// Conv.
pub fn converting(stack: &mut Loaded, to: Kind) -> Did
    requires next { HasNext stack.old.frames }
    requires formed { AllByRecursion IsFormed (top_operands stack.old.frames) }
    requires kind { IsKind to }
    requires ready { Applies (on_top (λ f lower. convert_row to f lower) stack.old.frames) stack.old.room }
    ensures { Does (on_top (λ f lower. convert_row to f lower) stack.old.frames) stack.old stack.new (told result) }
{
    let x = stack.top(0);
    match number_in(x, to) {
        Some(made) => leave_made(stack, 1, made),
        None => match length_in(x, to) {
            Some(len) => leave_filled(stack, len),
            None => converting_all(stack, to),
        },
    }
}

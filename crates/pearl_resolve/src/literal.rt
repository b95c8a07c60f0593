// Literals with their lengths.

ghost use Rattle.std.specs.Prelude.{◌≡◌, pos, IfOk};
ghost use Rattle.pearl_program.specs.PlainExpressions.{cell_of};
ghost use Rattle.pearl_tree.specs.Durations.{milliseconds_of};
ghost use Rattle.pearl_tree.specs.ShownLiterals.{OfNumber, shown_literal};
ghost use Rattle.pearl_value.specs.declared.cell.Cell.TheVariants.{Chars, Span};
ghost use Rattle.pearl_resolve.specs.Expressions as spec;

use arrayvec::ArrayVec;
use pearl_check_expr::literal::fixed_length;
use pearl_names::length::Lengths;
use pearl_program::literal::Literal;
use pearl_tree::literal::{Duration, Literal as Written};
use pearl_tree::name::Number;
use pearl_tree::typing::Sort;
use std::alloc::{AllocError, Global};

fn number_literal(lengths: &Lengths, number: Number) -> Result<Literal, AllocError>
    ensures { IfOk result (λ value. cell_of value ≡ spec.literal_cell lengths.now (OfNumber number)) }
{
    match i64::try_from(number.value) {
        Ok(value) => Ok(Literal::Fixed {
            len: fixed_length(lengths.at(Sort::Fixed, number.place), number.value),
            value,
        }),
        Err(_) => Err(AllocError),
    }
}

fn text_literal(alloc: Global, text: &ArrayVec<u8, 255>) -> Result<Literal, AllocError>
    ensures { IfOk result (λ value. cell_of value ≡ Chars text.now) }
{
    let copy = text.clone()?;
    let text = Box::new(alloc, copy)?;
    Ok(Literal::Chars(text))
}

fn duration_literal(duration: &Duration) -> Result<Literal, AllocError>
    ensures { IfOk result (λ value. cell_of value ≡ Span (pos (milliseconds_of duration.now))) }
{
    match i64::try_from(duration.milliseconds()) {
        Ok(time) => Ok(Literal::Span(time)),
        Err(_) => Err(AllocError),
    }
}

/// A literal with the length that it has. A number or a duration that is no value counts as want of memory.
pub(crate) fn literal_of(
    alloc: Global,
    lengths: &Lengths,
    literal: &Written,
) -> Result<Literal, AllocError>
    ensures { IfOk result (λ value. cell_of value ≡ spec.literal_cell lengths.now (shown_literal literal.now)) }
{
    match literal {
        Written::Number(number) => {
            let value = number_literal(lengths, *number)?;
            Ok(value)
        }
        Written::Bits { len, value, .. } => Ok(Literal::Bits {
            len: *len,
            value: *value,
        }),
        Written::Text { text, .. } => {
            let value = text_literal(alloc, text)?;
            Ok(value)
        }
        Written::Clock { milliseconds, .. } => Ok(Literal::Clock(*milliseconds)),
        Written::Duration(duration) => {
            let value = duration_literal(duration)?;
            Ok(value)
        }
    }
}

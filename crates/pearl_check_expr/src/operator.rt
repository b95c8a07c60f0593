// What operators make of the kinds of their operands.

ghost use Rattle.std.specs.Prelude.{IfOk};
ghost use Rattle.pearl_check_expr.specs.Judged as spec;
ghost use Rattle.pearl_check_expr.specs.Answers.{IsJudged, of_kind};

use crate::tell::tell;
use pearl_tree::expression::{Dyadic, Monadic};
use pearl_tree::fault::RuleFault;
use pearl_tree::rule;
use pearl_value::kind::Kind;
use pearl_value::operator::{result1, result2};
use std::alloc::AllocError as NoMemory;

// The kind of a result. S15: an operator has no row for its operands.
fn result_of(
    found: &mut Vec<RuleFault>,
    place: u32,
    row: Option<Kind>,
) -> Result<Option<Kind>, NoMemory>
    ensures { IfOk result (λ kind. IsJudged kind found.old.items found.new.items (spec.result_of place row)) }
{
    if row.is_none() {
        tell(found, place, rule::S15)?;
    }
    Ok(row)
}

fn with_monadic(
    found: &mut Vec<RuleFault>,
    monadic: Monadic,
    kind: Option<Kind>,
) -> Result<Option<Kind>, NoMemory>
    ensures { IfOk result (λ answer. IsJudged answer found.old.items found.new.items (spec.monadic_result monadic kind)) }
{
    match kind {
        Some(kind) => result_of(found, monadic.place, result1(monadic.operator, kind)),
        None => Ok(None),
    }
}

/// The kind of an operand behind its operators. The one next to it comes first.
pub(crate) fn with_monadics(
    found: &mut Vec<RuleFault>,
    monadics: &[Monadic],
    operand: Option<Kind>,
) -> Result<Option<Kind>, NoMemory>
    ensures { IfOk result (λ kind. IsJudged kind found.old.items found.new.items (spec.with_monadics monadics.now (of_kind operand))) }
{
    match monadics {
        [first, rest @ ..] => {
            let kind = with_monadics(found, rest, operand)?;
            let kind = with_monadic(found, *first, kind)?;
            Ok(kind)
        }
        [] => Ok(operand),
    }
}

/// The kind of what a dyadic operator makes of its operands.
pub(crate) fn with_dyadic(
    found: &mut Vec<RuleFault>,
    dyadic: Dyadic,
    left: Option<Kind>,
    right: Option<Kind>,
) -> Result<Option<Kind>, NoMemory>
    ensures { IfOk result (λ kind. IsJudged kind found.old.items found.new.items (spec.dyadic_result dyadic left right)) }
{
    match (left, right) {
        (Some(left), Some(right)) => result_of(
            found,
            dyadic.place,
            result2(dyadic.operator, left, right),
        ),
        _ => Ok(None),
    }
}

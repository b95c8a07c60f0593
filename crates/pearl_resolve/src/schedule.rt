// What the conditions and periods of tasks become.

ghost use Rattle.std.specs.Prelude.{◌≡◌, option_map, IfOk};
ghost use Rattle.std.specs.Option.{option_copied};
ghost use Rattle.pearl_program.specs.PlainExpressions.{plain_expr};
ghost use Rattle.pearl_program.specs.PlainStatements.{plain_once, plain_period, plain_period_end, plain_start};
ghost use Rattle.pearl_tree.specs.ShownExpressions.{shown_expr};
ghost use Rattle.pearl_tree.specs.ShownStatements.{shown_once, shown_period, shown_period_end, shown_start};
ghost use Rattle.pearl_names.specs.declared.scope.View.TheVariants.{Within};
ghost use Rattle.pearl_resolve.specs.Expressions.{number_of, resolve_expr as resolved};
ghost use Rattle.pearl_resolve.specs.Holding.{Becomes};
ghost use Rattle.pearl_resolve.specs.Statements as spec;

use crate::expression::resolve_expr;
use crate::numbered::NumberedTable;
use pearl_names::scope::View;
use pearl_program::expression::Expr;
use pearl_program::schedule::{Once, Period, PeriodEnd, Start};
use pearl_tree::expression::Expr as Written;
use pearl_tree::name::Name;
use pearl_tree::statement as tree;
use std::alloc::{AllocError, Global};

/// What an expression becomes within a scope.
pub(crate) fn value_in(
    alloc: Global,
    numbered: &NumberedTable,
    scope: u32,
    expr: &Written,
) -> Result<Expr, AllocError>
    ensures { IfOk result (λ e. Becomes numbered.now (plain_expr e) (λ of. spec.value_in of scope (shown_expr expr.now))) }
{
    let e = resolve_expr(alloc, numbered, View::Within(scope), expr)?;
    Ok(e)
}

/// What an expression becomes that may be missing.
pub(crate) fn value_if(
    alloc: Global,
    numbered: &NumberedTable,
    view: View,
    expr: &Option<Written>,
) -> Result<Option<Expr>, AllocError>
    ensures { IfOk result (λ e. Becomes numbered.now (option_map plain_expr e) (λ of. option_map (resolved of view) (option_map shown_expr expr.now))) }
{
    match expr {
        Some(expr) => {
            let e = resolve_expr(alloc, numbered, view, expr)?;
            Ok(Some(e))
        }
        None => Ok(None),
    }
}

fn period_end_in(
    alloc: Global,
    numbered: &NumberedTable,
    scope: u32,
    end: &tree::PeriodEnd,
) -> Result<PeriodEnd, AllocError>
    ensures { IfOk result (λ made. Becomes numbered.now (plain_period_end made) (λ of. spec.period_end_in of scope (shown_period_end end.now))) }
{
    match end {
        tree::PeriodEnd::Until { time, .. } => {
            let time = value_in(alloc, numbered, scope, time)?;
            Ok(PeriodEnd::Until(time))
        }
        tree::PeriodEnd::During { duration, .. } => {
            let duration = value_in(alloc, numbered, scope, duration)?;
            Ok(PeriodEnd::During(duration))
        }
    }
}

fn period_end_if(
    alloc: Global,
    numbered: &NumberedTable,
    scope: u32,
    end: &Option<tree::PeriodEnd>,
) -> Result<Option<PeriodEnd>, AllocError>
    ensures { IfOk result (λ made. Becomes numbered.now (option_map plain_period_end made)
        (λ of. option_map (spec.period_end_in of scope) (option_map shown_period_end end.now))) }
{
    match end {
        Some(end) => {
            let made = period_end_in(alloc, numbered, scope, end)?;
            Ok(Some(made))
        }
        None => Ok(None),
    }
}

fn period_in(
    alloc: Global,
    numbered: &NumberedTable,
    scope: u32,
    period: &tree::Period,
) -> Result<Period, AllocError>
    ensures { IfOk result (λ made. Becomes numbered.now (plain_period made) (λ of. spec.period_in of scope (shown_period period.now))) }
{
    let duration = value_in(alloc, numbered, scope, &period.duration)?;
    let end = period_end_if(alloc, numbered, scope, &period.end)?;
    Ok(Period { duration, end })
}

// The period of a start that may be missing, if it has one.
fn period_written(period: &Option<tree::Period>) -> Option<&tree::Period>
    ensures { option_copied result ≡ period.now }
{
    match period {
        Some(period) => Some(period),
        None => None,
    }
}

fn period_of(start: &tree::Start) -> Option<&tree::Period>
    ensures { option_map shown_period (option_copied result) ≡ spec.period_of (shown_start start.now) }
{
    match start {
        tree::Start::At { period, .. } => period_written(period),
        tree::Start::After { period, .. } => period_written(period),
        tree::Start::When { period, .. } => period_written(period),
        tree::Start::All(period) => Some(period),
    }
}

fn period_of_if(start: &Option<tree::Start>) -> Option<&tree::Period>
    ensures { option_map shown_period (option_copied result) ≡ spec.period_of_if (option_map shown_start start.now) }
{
    match start {
        Some(start) => period_of(start),
        None => None,
    }
}

/// ALL of an activation, with what stands behind it.
pub fn period_if(
    alloc: Global,
    numbered: &NumberedTable,
    scope: u32,
    start: &Option<tree::Start>,
) -> Result<Option<Period>, AllocError>
    ensures { IfOk result (λ made. Becomes numbered.now (option_map plain_period made)
        (λ of. option_map (spec.period_in of scope) (spec.period_of_if (option_map shown_start start.now)))) }
{
    match period_of_if(start) {
        Some(period) => {
            let made = period_in(alloc, numbered, scope, period)?;
            Ok(Some(made))
        }
        None => Ok(None),
    }
}

pub(crate) fn number_in(numbered: &NumberedTable, scope: u32, name: &Name) -> u32
    ensures { Becomes numbered.now result (λ of. number_of of (Within scope) name.now) }
{
    numbered.number_of(View::Within(scope), name)
}

fn when_in(
    alloc: Global,
    numbered: &NumberedTable,
    scope: u32,
    interrupt: &Name,
    after: &Option<Written>,
) -> Result<Start, AllocError>
    ensures { IfOk result (λ made. Becomes numbered.now (plain_start made)
        (λ of. spec.when_in (number_of of (Within scope) interrupt.now) (option_map (spec.value_in of scope) (option_map shown_expr after.now)))) }
{
    let interrupt = number_in(numbered, scope, interrupt);
    match after {
        Some(after) => {
            let duration = value_in(alloc, numbered, scope, after)?;
            Ok(Start::WhenAfter {
                interrupt,
                duration,
            })
        }
        None => Ok(Start::When(interrupt)),
    }
}

fn start_in(
    alloc: Global,
    numbered: &NumberedTable,
    scope: u32,
    start: &tree::Start,
) -> Result<Option<Start>, AllocError>
    ensures { IfOk result (λ made. Becomes numbered.now (option_map plain_start made) (λ of. spec.start_in of scope (shown_start start.now))) }
{
    match start {
        tree::Start::At { time, .. } => {
            let time = value_in(alloc, numbered, scope, time)?;
            Ok(Some(Start::At(time)))
        }
        tree::Start::After { duration, .. } => {
            let duration = value_in(alloc, numbered, scope, duration)?;
            Ok(Some(Start::After(duration)))
        }
        tree::Start::When {
            interrupt,
            after,
            ..
        } => {
            let start = when_in(alloc, numbered, scope, interrupt, after)?;
            Ok(Some(start))
        }
        tree::Start::All(_) => Ok(None),
    }
}

/// The condition of an activation, if it has one.
pub fn start_if(
    alloc: Global,
    numbered: &NumberedTable,
    scope: u32,
    start: &Option<tree::Start>,
) -> Result<Option<Start>, AllocError>
    ensures { IfOk result (λ made. Becomes numbered.now (option_map plain_start made)
        (λ of. spec.start_in_if of scope (option_map shown_start start.now))) }
{
    match start {
        Some(start) => {
            let made = start_in(alloc, numbered, scope, start)?;
            Ok(made)
        }
        None => Ok(None),
    }
}

/// The condition of a continuation.
pub fn once_in(
    alloc: Global,
    numbered: &NumberedTable,
    scope: u32,
    once: &tree::Once,
) -> Result<Once, AllocError>
    ensures { IfOk result (λ made. Becomes numbered.now (plain_once made) (λ of. spec.once_in of scope (shown_once once.now))) }
{
    match once {
        tree::Once::At { time, .. } => {
            let time = value_in(alloc, numbered, scope, time)?;
            Ok(Once::At(time))
        }
        tree::Once::After { duration, .. } => {
            let duration = value_in(alloc, numbered, scope, duration)?;
            Ok(Once::After(duration))
        }
        tree::Once::When { interrupt, .. } => Ok(Once::When(number_in(numbered, scope, interrupt))),
    }
}

/// The condition of a continuation that may be missing.
pub fn once_if(
    alloc: Global,
    numbered: &NumberedTable,
    scope: u32,
    once: &Option<tree::Once>,
) -> Result<Option<Once>, AllocError>
    ensures { IfOk result (λ made. Becomes numbered.now (option_map plain_once made)
        (λ of. option_map (spec.once_in of scope) (option_map shown_once once.now))) }
{
    match once {
        Some(once) => {
            let made = once_in(alloc, numbered, scope, once)?;
            Ok(Some(made))
        }
        None => Ok(None),
    }
}

// What the expressions of statements need.

ghost use Rattle.std.specs.Prelude.{◌≡◌, map, option_map, IfOk};
ghost use Rattle.pearl_program.specs.PlainExpressions.{plain_expr, plain_exprs, plain_variable, plain_arguments};
ghost use Rattle.pearl_program.specs.PlainStatements.{plain_stmt, plain_stmts, plain_counter, plain_start, plain_period, plain_once, OfAssign, OfActivate, plain_branches};
ghost use Rattle.pearl_program.specs.Weights.{of_expr, of_if, of_counter, of_variables, of_stmt, greatest, greatest_of_all, greatest_of_branches};
ghost use Rattle.pearl_gen_stmt.specs.Emission.{plain_case, plain_if, plain_repeat};
ghost use Rattle.pearl_generate.specs.Needs.{need_of};

use crate::expression::{call_need, expr_need, exprs_need, variable_need};
use crate::need::Need;
use crate::schedule::{
    maybe_expr_need, maybe_once_need, maybe_period_need, maybe_start_need, once_need,
};
use pearl_program::expression::Variable;
use pearl_program::statement::{Activate, Assign, Branch, Case, Counter, If, Repeat, Stmt};
use std::alloc::AllocError as NoMemory;

fn assign_need(weights: &[u64], part: &Assign) -> Result<Need, NoMemory>
    ensures { IfOk result (λ need. need ≡ need_of weights.now (λ sizes. of_stmt sizes (OfAssign (plain_variable part.now.target) (plain_expr part.now.value)))) }
{
    let target = variable_need(weights, &part.target)?;
    let value = expr_need(weights, &part.value)?;
    target.with(value)
}

fn activate_need(weights: &[u64], part: &Activate) -> Result<Need, NoMemory>
    ensures { IfOk result (λ need. need ≡ need_of weights.now (λ sizes. of_stmt sizes (OfActivate part.now.task (option_map plain_start part.now.start) (option_map plain_period part.now.period) (option_map plain_expr part.now.priority)))) }
{
    let start = maybe_start_need(weights, &part.start)?;
    let period = maybe_period_need(weights, &part.period)?;
    let priority = maybe_expr_need(weights, &part.priority)?;
    start.with(period.with(priority)?)
}

fn counter_need(weights: &[u64], counter: &Counter) -> Result<Need, NoMemory>
    ensures { IfOk result (λ need. need ≡ need_of weights.now (λ sizes. of_counter sizes (plain_counter counter.now))) }
{
    let begin = maybe_expr_need(weights, &counter.begin)?;
    let step = maybe_expr_need(weights, &counter.step)?;
    let end = maybe_expr_need(weights, &counter.end)?;
    begin.with(step.with(end)?)
}

fn maybe_counter_need(weights: &[u64], counter: &Option<Counter>) -> Result<Need, NoMemory>
    ensures { IfOk result (λ need. need ≡ need_of weights.now (λ sizes. of_if sizes (of_counter sizes) (option_map plain_counter counter.now))) }
{
    match counter {
        Some(counter) => counter_need(weights, counter),
        None => Ok(Need::NONE),
    }
}

fn variables_need(weights: &[u64], variables: &[Variable]) -> Result<Need, NoMemory>
    ensures { IfOk result (λ need. need ≡ need_of weights.now (λ sizes. of_variables sizes (map plain_variable variables.now))) }
{
    let mut need = Need::NONE;
    for variable in variables {
        need = need.with(variable_need(weights, variable)?)?;
    }
    Ok(need)
}

#[cycle(statement)]
fn if_need(weights: &[u64], part: &If) -> Result<Need, NoMemory>
    ensures { IfOk result (λ need. need ≡ need_of weights.now (λ sizes. greatest sizes (plain_if part.now))) }
{
    let condition = expr_need(weights, &part.condition)?;
    let statements = stmts_need(weights, part.statements.as_slice())?;
    let otherwise = stmts_need(weights, part.otherwise.as_slice())?;
    let need = condition.or(statements.or(otherwise));
    Ok(need)
}

#[cycle(statement)]
fn case_need(weights: &[u64], part: &Case) -> Result<Need, NoMemory>
    ensures { IfOk result (λ need. need ≡ need_of weights.now (λ sizes. greatest sizes (plain_case part.now))) }
{
    let selector = expr_need(weights, &part.selector)?;
    let alternatives = branches_need(weights, part.alternatives.as_slice())?;
    let otherwise = stmts_need(weights, part.otherwise.as_slice())?;
    let need = selector.or(alternatives.or(otherwise));
    Ok(need)
}

#[cycle(statement)]
fn repeat_need(weights: &[u64], part: &Repeat) -> Result<Need, NoMemory>
    ensures { IfOk result (λ need. need ≡ need_of weights.now (λ sizes. greatest sizes (plain_repeat part.now))) }
{
    let counter = maybe_counter_need(weights, &part.counter)?;
    let condition = maybe_expr_need(weights, &part.condition)?;
    let head = counter.with(condition)?;
    let statements = stmts_need(weights, part.statements.as_slice())?;
    let need = head.or(statements);
    Ok(need)
}

#[cycle(statement)]
fn stmt_need(weights: &[u64], stmt: &Stmt) -> Result<Need, NoMemory>
    ensures { IfOk result (λ need. need ≡ need_of weights.now (λ sizes. greatest sizes (plain_stmt stmt.now))) }
{
    match stmt {
        Stmt::Assign(part) => assign_need(weights, part),
        Stmt::Call(part) => call_need(weights, part),
        Stmt::If(part) => if_need(weights, part),
        Stmt::Case(part) => case_need(weights, part),
        Stmt::Repeat(part) => repeat_need(weights, part),
        Stmt::Return(part) => maybe_expr_need(weights, &part.value),
        Stmt::Activate(part) => activate_need(weights, part),
        Stmt::Continue(part) => maybe_once_need(weights, &part.once),
        Stmt::Resume(part) => once_need(weights, part),
        Stmt::Put(part) => exprs_need(weights, part.values.as_slice()),
        Stmt::Get(part) => variables_need(weights, part.targets.as_slice()),
        Stmt::Send(part) => expr_need(weights, &part.value),
        Stmt::Take(part) => variable_need(weights, &part.target),
        Stmt::Renew(_)
        | Stmt::Exit
        | Stmt::Suspend(_)
        | Stmt::Terminate(_)
        | Stmt::Prevent(_)
        | Stmt::Request(_)
        | Stmt::Release(_)
        | Stmt::Enable(_)
        | Stmt::Disable(_)
        | Stmt::Trigger(_) => Ok(Need::NONE),
    }
}

/// What the statement among these needs that needs most, of values and of weights each.
#[cycle(statement)]
pub fn stmts_need(weights: &[u64], stmts: &[Stmt]) -> Result<Need, NoMemory>
    ensures { IfOk result (λ need. need ≡ need_of weights.now (λ sizes. greatest_of_all sizes (plain_stmts stmts.now))) }
{
    let mut need = Need::NONE;
    for stmt in stmts {
        need = need.or(stmt_need(weights, stmt)?);
    }
    Ok(need)
}

#[cycle(statement)]
fn branches_need(weights: &[u64], branches: &[Branch]) -> Result<Need, NoMemory>
    ensures { IfOk result (λ need. need ≡ need_of weights.now (λ sizes. greatest_of_branches sizes (plain_branches branches.now))) }
{
    let mut need = Need::NONE;
    for branch in branches {
        need = need.or(stmts_need(weights, branch.statements.as_slice())?);
    }
    Ok(need)
}

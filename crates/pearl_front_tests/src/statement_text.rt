// What statements of a program say, as text: each ends with a semicolon, and those within it stand between braces.

use crate::expression_text::{
    put_call, put_expr, put_exprs, put_kind, put_literal, put_number, put_variable,
};
use pearl_program::expression::Expr;
use pearl_program::schedule::{Once, Period, PeriodEnd, Start};
use pearl_program::statement::{Branch, Case, Counter, Get, Put, Repeat, Stmt};
use pearl_program::table::FirstValues;
use std::alloc::AllocError;

/// The kind of slots or cells, how many there are, and their constants.
pub fn put_values(into: &mut String, values: &FirstValues) -> Result<(), AllocError> {
    put_kind(into, values.kind)?;
    put_number(into, "*", u64::from(values.count))?;
    for literal in values.constants.as_slice() {
        into.push_str("=")?;
        put_literal(into, literal)?;
    }
    Ok(())
}

// A word and an expression behind it, if it's there.
fn put_part(into: &mut String, word: &str, part: &Option<Expr>) -> Result<(), AllocError> {
    match part {
        Some(expr) => put_after(into, word, expr),
        None => Ok(()),
    }
}

fn put_after(into: &mut String, word: &str, expr: &Expr) -> Result<(), AllocError> {
    into.push_str(" ")?;
    into.push_str(word)?;
    into.push_str(" ")?;
    put_expr(into, expr)
}

fn put_start(into: &mut String, start: &Start) -> Result<(), AllocError> {
    match start {
        Start::At(time) => put_after(into, "at", time),
        Start::After(duration) => put_after(into, "after", duration),
        Start::When(interrupt) => put_number(into, " when d", u64::from(*interrupt)),
        Start::WhenAfter {
            interrupt,
            duration,
        } => {
            put_number(into, " when d", u64::from(*interrupt))?;
            put_after(into, "after", duration)
        }
    }
}

fn put_period(into: &mut String, period: &Period) -> Result<(), AllocError> {
    put_after(into, "all", &period.duration)?;
    match &period.end {
        Some(PeriodEnd::Until(time)) => put_after(into, "until", time),
        Some(PeriodEnd::During(duration)) => put_after(into, "during", duration),
        None => Ok(()),
    }
}

fn put_once(into: &mut String, once: &Once) -> Result<(), AllocError> {
    match once {
        Once::At(time) => put_after(into, "at", time),
        Once::After(duration) => put_after(into, "after", duration),
        Once::When(interrupt) => put_number(into, " when d", u64::from(*interrupt)),
    }
}

fn put_on_task(into: &mut String, word: &str, task: Option<u32>) -> Result<(), AllocError> {
    match task {
        Some(task) => {
            into.push_str(word)?;
            put_number(into, " t", u64::from(task))
        }
        None => into.push_str(word),
    }
}

fn put_semaphores(into: &mut String, word: &str, semaphores: &[u16]) -> Result<(), AllocError> {
    into.push_str(word)?;
    into.push_str(" ")?;
    for semaphore in semaphores {
        put_number(into, "s", u64::from(*semaphore))?;
        into.push_str(",")?;
    }
    Ok(())
}

fn put_counter(into: &mut String, counter: &Counter) -> Result<(), AllocError> {
    put_number(into, " O", u64::from(counter.cell))?;
    put_part(into, "from", &counter.begin)?;
    put_part(into, "by", &counter.step)?;
    put_part(into, "to", &counter.end)
}

fn put_put(into: &mut String, put: &Put) -> Result<(), AllocError> {
    put_number(into, "put d", u64::from(put.device))?;
    put_number(into, " f", u64::from(put.format))?;
    into.push_str(" ")?;
    put_exprs(into, put.values.as_slice())
}

fn put_get(into: &mut String, get: &Get) -> Result<(), AllocError> {
    put_number(into, "get d", u64::from(get.device))?;
    put_number(into, " f", u64::from(get.format))?;
    put_number(into, " O", u64::from(get.cell))?;
    into.push_str(" ")?;
    for target in get.targets.as_slice() {
        put_variable(into, target)?;
        into.push_str(",")?;
    }
    Ok(())
}

#[cycle(statement)]
fn put_repeat(into: &mut String, repeat: &Repeat) -> Result<(), AllocError> {
    into.push_str("loop")?;
    match &repeat.counter {
        Some(counter) => put_counter(into, counter)?,
        None => {}
    }
    put_part(into, "while", &repeat.condition)?;
    put_block(into, repeat.statements.as_slice())
}

#[cycle(statement)]
fn put_case(into: &mut String, case: &Case) -> Result<(), AllocError> {
    into.push_str("case ")?;
    put_expr(into, &case.selector)?;
    put_branches(into, case.alternatives.as_slice())?;
    put_block(into, case.otherwise.as_slice())
}

#[cycle(statement)]
fn put_branches(into: &mut String, branches: &[Branch]) -> Result<(), AllocError> {
    for branch in branches {
        put_block(into, branch.statements.as_slice())?;
    }
    into.push_str(" out")
}

// Statements that have none within them.
fn put_simple(into: &mut String, stmt: &Stmt) -> Result<(), AllocError> {
    match stmt {
        Stmt::Renew(renewal) => {
            put_number(into, "new O", u64::from(renewal.cell))?;
            into.push_str(" ")?;
            put_values(into, &renewal.values)
        }
        Stmt::Assign(assign) => {
            put_variable(into, &assign.target)?;
            into.push_str(":=")?;
            put_expr(into, &assign.value)
        }
        Stmt::Call(call) => put_call(into, call.procedure, call.arguments.as_slice()),
        Stmt::Exit => into.push_str("exit"),
        Stmt::Return(part) => {
            into.push_str("return")?;
            put_part(into, "with", &part.value)
        }
        Stmt::Put(put) => put_put(into, put),
        Stmt::Get(get) => put_get(into, get),
        Stmt::Send(send) => {
            put_number(into, "send d", u64::from(send.device))?;
            put_after(into, "of", &send.value)
        }
        Stmt::Take(take) => {
            put_number(into, "take d", u64::from(take.device))?;
            into.push_str(" ")?;
            put_variable(into, &take.target)
        }
        _ => put_scheduling(into, stmt),
    }
}

fn put_scheduling(into: &mut String, stmt: &Stmt) -> Result<(), AllocError> {
    match stmt {
        Stmt::Activate(part) => {
            put_number(into, "activate t", u64::from(part.task))?;
            match &part.start {
                Some(start) => put_start(into, start)?,
                None => {}
            }
            match &part.period {
                Some(period) => put_period(into, period)?,
                None => {}
            }
            put_part(into, "prio", &part.priority)
        }
        Stmt::Continue(part) => {
            put_number(into, "continue t", u64::from(part.task))?;
            match &part.once {
                Some(once) => put_once(into, once),
                None => Ok(()),
            }
        }
        Stmt::Resume(once) => {
            into.push_str("resume")?;
            put_once(into, once)
        }
        Stmt::Suspend(task) => put_on_task(into, "suspend", *task),
        Stmt::Terminate(task) => put_on_task(into, "terminate", *task),
        Stmt::Prevent(task) => put_on_task(into, "prevent", *task),
        Stmt::Request(semaphores) => put_semaphores(into, "request", semaphores.as_slice()),
        Stmt::Release(semaphores) => put_semaphores(into, "release", semaphores.as_slice()),
        Stmt::Enable(interrupt) => put_number(into, "enable d", u64::from(*interrupt)),
        Stmt::Disable(interrupt) => put_number(into, "disable d", u64::from(*interrupt)),
        Stmt::Trigger(interrupt) => put_number(into, "trigger d", u64::from(*interrupt)),
        _ => Ok(()),
    }
}

#[cycle(statement)]
fn put_stmt(into: &mut String, stmt: &Stmt) -> Result<(), AllocError> {
    match stmt {
        Stmt::If(part) => {
            into.push_str("if ")?;
            put_expr(into, &part.condition)?;
            put_block(into, part.statements.as_slice())?;
            into.push_str(" else")?;
            put_block(into, part.otherwise.as_slice())
        }
        Stmt::Case(case) => put_case(into, case),
        Stmt::Repeat(repeat) => put_repeat(into, repeat),
        _ => put_simple(into, stmt),
    }
}

/// Statements between braces.
#[cycle(statement)]
pub fn put_block(into: &mut String, stmts: &[Stmt]) -> Result<(), AllocError> {
    into.push_str("{")?;
    for stmt in stmts {
        put_stmt(into, stmt)?;
        into.push_str(";")?;
    }
    into.push_str("}")
}

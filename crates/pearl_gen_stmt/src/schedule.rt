// The code of what is done to tasks, and of when.

ghost use Rattle.std.specs.Prelude.{◌≡◌, Some, option_map, OnOk, IfOk};
ghost use Rattle.pearl_program.specs.PlainExpressions.{plain_expr};
ghost use Rattle.pearl_program.specs.PlainStatements.{plain_start, plain_once, plain_period, plain_period_end};
ghost use Rattle.pearl_gen_expr.specs.Emitting.{Extends};
ghost use Rattle.pearl_gen_stmt.specs.StmtCode.{WhenAt, LaterAt, MaybeLaterAt, PeriodEndAt, PeriodAt, PriorityAt, ActivateAt, ContinueAt, ResumeAt};
ghost use Rattle.pearl_gen_stmt.specs.Emission.{setting_of, Adds};

use crate::pending::emit;
use crate::site::Site;
use pearl_gen_expr::expression::emit_expr;
use pearl_instructions::boxed::Boxed;
use pearl_instructions::instr::{Activation, Continuation, Instr};
use pearl_instructions::schedule::{OnceForm, RepeatForm, StartForm};
use pearl_program::expression::Expr;
use pearl_program::schedule::{Once, Period, PeriodEnd, Start};
use pearl_program::statement::{Activate, Continue};
use std::alloc::{AllocError as NoMemory, Global};

fn emit_some_start(
    alloc: Global,
    site: Site<'_>,
    code: &mut Vec<Instr>,
    start: &Start,
) -> Result<StartForm, NoMemory>
    ensures added { IfOk result (λ form. Adds (λ code from to. WhenAt (setting_of site.entry.program.now site.entry.result site.entry.routine.now) code from (Some (plain_start start.now)) form to) code.old.items code.new.items) }
    ensures kept { Extends code.old.items code.new.items }
{
    match start {
        Start::At(time) => {
            emit_expr(alloc, site.program, code, time)?;
            Ok(StartForm::At)
        }
        Start::After(duration) => {
            emit_expr(alloc, site.program, code, duration)?;
            Ok(StartForm::After)
        }
        Start::When(interrupt) => Ok(StartForm::When(u64::from(*interrupt))),
        Start::WhenAfter {
            interrupt,
            duration,
        } => {
            emit_expr(alloc, site.program, code, duration)?;
            Ok(StartForm::WhenAfter(u64::from(*interrupt)))
        }
    }
}

fn emit_start(
    alloc: Global,
    site: Site<'_>,
    code: &mut Vec<Instr>,
    start: &Option<Start>,
) -> Result<StartForm, NoMemory>
    ensures added { IfOk result (λ form. Adds (λ code from to. WhenAt (setting_of site.entry.program.now site.entry.result site.entry.routine.now) code from (option_map plain_start start.now) form to) code.old.items code.new.items) }
    ensures kept { Extends code.old.items code.new.items }
{
    match start {
        None => Ok(StartForm::Free),
        Some(start) => {
            let form = emit_some_start(alloc, site, code, start)?;
            Ok(form)
        }
    }
}

fn emit_once(
    alloc: Global,
    site: Site<'_>,
    code: &mut Vec<Instr>,
    once: &Once,
) -> Result<OnceForm, NoMemory>
    ensures added { IfOk result (λ form. Adds (λ code from to. LaterAt (setting_of site.entry.program.now site.entry.result site.entry.routine.now) code from (plain_once once.now) form to) code.old.items code.new.items) }
    ensures kept { Extends code.old.items code.new.items }
{
    match once {
        Once::At(time) => {
            emit_expr(alloc, site.program, code, time)?;
            Ok(OnceForm::At)
        }
        Once::After(duration) => {
            emit_expr(alloc, site.program, code, duration)?;
            Ok(OnceForm::After)
        }
        Once::When(interrupt) => Ok(OnceForm::When(u64::from(*interrupt))),
    }
}

fn emit_maybe_once(
    alloc: Global,
    site: Site<'_>,
    code: &mut Vec<Instr>,
    once: &Option<Once>,
) -> Result<Option<OnceForm>, NoMemory>
    ensures added { IfOk result (λ form. Adds (λ code from to. MaybeLaterAt (setting_of site.entry.program.now site.entry.result site.entry.routine.now) code from (option_map plain_once once.now) form to) code.old.items code.new.items) }
    ensures kept { Extends code.old.items code.new.items }
{
    match once {
        None => Ok(None),
        Some(once) => {
            let form = emit_once(alloc, site, code, once)?;
            Ok(Some(form))
        }
    }
}

fn emit_some_end(
    alloc: Global,
    site: Site<'_>,
    code: &mut Vec<Instr>,
    end: &PeriodEnd,
) -> Result<RepeatForm, NoMemory>
    ensures added { IfOk result (λ form. Adds (λ code from to. PeriodEndAt (setting_of site.entry.program.now site.entry.result site.entry.routine.now) code from (Some (plain_period_end end.now)) form to) code.old.items code.new.items) }
    ensures kept { Extends code.old.items code.new.items }
{
    match end {
        PeriodEnd::Until(time) => {
            emit_expr(alloc, site.program, code, time)?;
            Ok(RepeatForm::Until)
        }
        PeriodEnd::During(duration) => {
            emit_expr(alloc, site.program, code, duration)?;
            Ok(RepeatForm::During)
        }
    }
}

fn emit_period_end(
    alloc: Global,
    site: Site<'_>,
    code: &mut Vec<Instr>,
    end: &Option<PeriodEnd>,
) -> Result<RepeatForm, NoMemory>
    ensures added { IfOk result (λ form. Adds (λ code from to. PeriodEndAt (setting_of site.entry.program.now site.entry.result site.entry.routine.now) code from (option_map plain_period_end end.now) form to) code.old.items code.new.items) }
    ensures kept { Extends code.old.items code.new.items }
{
    match end {
        None => Ok(RepeatForm::All),
        Some(end) => {
            let form = emit_some_end(alloc, site, code, end)?;
            Ok(form)
        }
    }
}

fn emit_period(
    alloc: Global,
    site: Site<'_>,
    code: &mut Vec<Instr>,
    period: &Option<Period>,
) -> Result<RepeatForm, NoMemory>
    ensures added { IfOk result (λ form. Adds (λ code from to. PeriodAt (setting_of site.entry.program.now site.entry.result site.entry.routine.now) code from (option_map plain_period period.now) form to) code.old.items code.new.items) }
    ensures kept { Extends code.old.items code.new.items }
{
    match period {
        None => Ok(RepeatForm::Once),
        Some(period) => {
            emit_expr(alloc, site.program, code, &period.duration)?;
            let form = emit_period_end(alloc, site, code, &period.end)?;
            Ok(form)
        }
    }
}

fn emit_priority(
    alloc: Global,
    site: Site<'_>,
    code: &mut Vec<Instr>,
    priority: &Option<Expr>,
) -> Result<bool, NoMemory>
    ensures added { IfOk result (λ given. Adds (λ code from to. PriorityAt (setting_of site.entry.program.now site.entry.result site.entry.routine.now) code from (option_map plain_expr priority.now) given to) code.old.items code.new.items) }
    ensures kept { Extends code.old.items code.new.items }
{
    match priority {
        None => Ok(false),
        Some(priority) => {
            emit_expr(alloc, site.program, code, priority)?;
            Ok(true)
        }
    }
}

/// Adds the code of ACTIVATE.
pub fn emit_activate(
    alloc: Global,
    site: Site<'_>,
    code: &mut Vec<Instr>,
    part: &Activate,
) -> Result<(), NoMemory>
    ensures added { OnOk result (Adds (λ code from to. ActivateAt (setting_of site.entry.program.now site.entry.result site.entry.routine.now) code from part.now.task (option_map plain_start part.now.start) (option_map plain_period part.now.period) (option_map plain_expr part.now.priority) to) code.old.items code.new.items) }
    ensures kept { Extends code.old.items code.new.items }
{
    let start = emit_start(alloc, site, code, &part.start)?;
    let repeat = emit_period(alloc, site, code, &part.period)?;
    let priority = emit_priority(alloc, site, code, &part.priority)?;
    let activation = Activation {
        task: u64::from(part.task),
        start,
        repeat,
        priority,
    };
    let boxed = Boxed::new(alloc, activation)?;
    emit(code, Instr::Activate(boxed))?;
    Ok(())
}

/// Adds the code of CONTINUE.
pub fn emit_continue(
    alloc: Global,
    site: Site<'_>,
    code: &mut Vec<Instr>,
    part: &Continue,
) -> Result<(), NoMemory>
    ensures added { OnOk result (Adds (λ code from to. ContinueAt (setting_of site.entry.program.now site.entry.result site.entry.routine.now) code from part.now.task (option_map plain_once part.now.once) to) code.old.items code.new.items) }
    ensures kept { Extends code.old.items code.new.items }
{
    let once = emit_maybe_once(alloc, site, code, &part.once)?;
    let continuation = Continuation {
        task: u64::from(part.task),
        once,
    };
    let boxed = Boxed::new(alloc, continuation)?;
    emit(code, Instr::Continue(boxed))?;
    Ok(())
}

/// Adds the code of RESUME.
pub fn emit_resume(
    alloc: Global,
    site: Site<'_>,
    code: &mut Vec<Instr>,
    once: &Once,
) -> Result<(), NoMemory>
    ensures added { OnOk result (Adds (λ code from to. ResumeAt (setting_of site.entry.program.now site.entry.result site.entry.routine.now) code from (plain_once once.now) to) code.old.items code.new.items) }
    ensures kept { Extends code.old.items code.new.items }
{
    let form = emit_once(alloc, site, code, once)?;
    emit(code, Instr::Resume(form))?;
    Ok(())
}

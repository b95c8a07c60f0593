// The code of loops that stands around their statements.

ghost use Rattle.std.specs.Prelude.{◌≡◌, option_map, OnOk};
ghost use Rattle.pearl_program.specs.PlainExpressions.{plain_expr};
ghost use Rattle.pearl_program.specs.PlainStatements.{plain_counter};
ghost use Rattle.pearl_meaning.specs.Setting.{Setting};
ghost use Rattle.pearl_gen_expr.specs.Emitting.{Extends};
ghost use Rattle.pearl_gen_stmt.specs.StmtCode.{CountedAt, LimitAt, BeginsAt, WithinAt, CountsAt, WhileAt, PassedAt, AdvanceAt};
ghost use Rattle.pearl_gen_stmt.specs.Emission.{setting_of, Adds, AddsTest};

use crate::pending::{Pending, emit, emit_pending};
use crate::site::{Site, cell_kind};
use crate::transfer::emit_converted;
use pearl_gen_expr::expression::emit_expr;
use pearl_instructions::constant::Constant;
use pearl_instructions::instr::Instr;
use pearl_program::expression::Expr;
use pearl_program::statement::Counter;
use pearl_value::cell::Cell;
use pearl_value::trap::Trap;
use std::alloc::{AllocError as NoMemory, Global};

// FROM, BY or TO, or else 1, in the kind of the control variable.
fn emit_counted(
    alloc: Global,
    site: Site<'_>,
    code: &mut Vec<Instr>,
    counter: &Counter,
    value: &Option<Expr>,
) -> Result<(), NoMemory>
    ensures added { OnOk result (Adds (λ code from to. CountedAt (setting_of site.entry.program.now site.entry.result site.entry.routine.now) code from (plain_counter counter.now) (option_map plain_expr value.now) to) code.old.items code.new.items) }
    ensures kept { Extends code.old.items code.new.items }
{
    let kind = cell_kind(site, counter.cell)?;
    match value {
        None => {
            let one = Constant::new(alloc, &Cell::Fixed { len: 31, value: 1 })?;
            emit(code, Instr::Const(one))?;
            emit(code, Instr::Conv(kind))?;
            Ok(())
        }
        Some(value) => {
            emit_converted(alloc, site, code, value, kind)?;
            Ok(())
        }
    }
}

fn emit_limit(
    alloc: Global,
    site: Site<'_>,
    code: &mut Vec<Instr>,
    counter: &Counter,
) -> Result<(), NoMemory>
    ensures added { OnOk result (Adds (λ code from to. LimitAt (setting_of site.entry.program.now site.entry.result site.entry.routine.now) code from (plain_counter counter.now) (option_map plain_expr counter.now.end) to) code.old.items code.new.items) }
    ensures kept { Extends code.old.items code.new.items }
{
    match &counter.end {
        None => Ok(()),
        Some(_) => {
            emit_counted(alloc, site, code, counter, &counter.end)?;
            emit(code, Instr::Store(u64::from(counter.cell) + 2))?;
            Ok(())
        }
    }
}

/// Adds the code with which a loop begins to count, if it does.
pub fn emit_begins(
    alloc: Global,
    site: Site<'_>,
    code: &mut Vec<Instr>,
    counter: &Option<Counter>,
) -> Result<(), NoMemory>
    ensures added { OnOk result (Adds (λ code from to. BeginsAt (setting_of site.entry.program.now site.entry.result site.entry.routine.now) code from (option_map plain_counter counter.now) to) code.old.items code.new.items) }
    ensures kept { Extends code.old.items code.new.items }
{
    match counter {
        None => Ok(()),
        Some(counter) => {
            let cell = u64::from(counter.cell);
            emit_counted(alloc, site, code, counter, &counter.begin)?;
            emit(code, Instr::Store(cell))?;
            emit_counted(alloc, site, code, counter, &counter.step)?;
            emit(code, Instr::NonZero)?;
            emit(code, Instr::Store(cell + 1))?;
            emit_limit(alloc, site, code, counter)?;
            Ok(())
        }
    }
}

// A loop with TO is left once it has counted beyond it.
fn emit_within(code: &mut Vec<Instr>, counter: &Counter) -> Result<(), NoMemory>
    ensures added { OnOk result ((setting : Setting) → AddsTest (λ past code from to. WithinAt setting code from past (plain_counter counter.now) (option_map plain_expr counter.now.end) to) code.old.items code.new.items) }
    ensures kept { Extends code.old.items code.new.items }
{
    match &counter.end {
        None => Ok(()),
        Some(_) => {
            emit(code, Instr::Within(u64::from(counter.cell)))?;
            emit_pending(code, Pending::Test)?;
            Ok(())
        }
    }
}

/// Adds the code that leaves a loop which has counted beyond TO.
pub fn emit_counts(code: &mut Vec<Instr>, counter: &Option<Counter>) -> Result<(), NoMemory>
    ensures added { OnOk result ((setting : Setting) → AddsTest (λ past code from to. CountsAt setting code from past (option_map plain_counter counter.now) to) code.old.items code.new.items) }
    ensures kept { Extends code.old.items code.new.items }
{
    match counter {
        None => Ok(()),
        Some(counter) => {
            emit_within(code, counter)?;
            Ok(())
        }
    }
}

/// Adds the code that leaves a loop where the condition of WHILE doesn't hold.
pub fn emit_while(
    alloc: Global,
    site: Site<'_>,
    code: &mut Vec<Instr>,
    condition: &Option<Expr>,
) -> Result<(), NoMemory>
    ensures added { OnOk result (AddsTest (λ past code from to. WhileAt (setting_of site.entry.program.now site.entry.result site.entry.routine.now) code from past (option_map plain_expr condition.now) to) code.old.items code.new.items) }
    ensures kept { Extends code.old.items code.new.items }
{
    match condition {
        None => Ok(()),
        Some(condition) => {
            emit_expr(alloc, site.program, code, condition)?;
            emit_pending(code, Pending::Test)?;
            Ok(())
        }
    }
}

// BY is added. Where the sum leaves the kind, the loop ends if it has TO, else Overflow is trapped.
fn emit_passed(code: &mut Vec<Instr>, top: u64, counter: &Counter) -> Result<(), NoMemory>
    ensures added { OnOk result ((setting : Setting) → Adds (λ code from to. PassedAt setting code from top (plain_counter counter.now) (option_map plain_expr counter.now.end) to) code.old.items code.new.items) }
    ensures kept { Extends code.old.items code.new.items }
{
    let (first, past) = (u64::from(counter.cell), code.len() as u64 + 2);
    match &counter.end {
        None => {
            emit(code, Instr::Advance { first, past })?;
            emit(code, Instr::Jump(top))?;
            emit(code, Instr::Trap(Trap::Overflow))?;
            Ok(())
        }
        Some(_) => {
            emit(code, Instr::Advance { first, past })?;
            emit(code, Instr::Jump(top))?;
            Ok(())
        }
    }
}

/// Adds the code that begins a loop's next turn.
pub fn emit_advance(
    code: &mut Vec<Instr>,
    top: u64,
    counter: &Option<Counter>,
) -> Result<(), NoMemory>
    ensures added { OnOk result ((setting : Setting) → Adds (λ code from to. AdvanceAt setting code from top (option_map plain_counter counter.now) to) code.old.items code.new.items) }
    ensures kept { Extends code.old.items code.new.items }
{
    match counter {
        None => {
            emit(code, Instr::Jump(top))?;
            Ok(())
        }
        Some(counter) => {
            emit_passed(code, top, counter)?;
            Ok(())
        }
    }
}

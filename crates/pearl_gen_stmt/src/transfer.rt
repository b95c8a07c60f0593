// The code of assignments, calls, RETURN, PUT, SEND and TAKE.

ghost use Rattle.std.specs.Prelude.{◌≡◌, Some, slice_get, option_map, OnOk};
ghost use Rattle.pearl_program.specs.PlainExpressions.{plain_expr, plain_exprs, plain_variable, plain_arguments};
ghost use Rattle.pearl_program.specs.PlainPrograms.{plain_prog};
ghost use Rattle.pearl_meaning.specs.Setting.{Setting};
ghost use Rattle.pearl_gen_expr.specs.Emitting.{Extends};
ghost use Rattle.pearl_gen_stmt.specs.StmtCode.{ConvertedAt, AssignAt, CallOfAt, DroppedAt, ReturnAt, PutAt, SendAt, TakeAt};
ghost use Rattle.pearl_gen_stmt.specs.Emission.{setting_of, Adds};

use crate::pending::emit;
use crate::site::{Site, sent_kind, variable_kind};
use pearl_gen_expr::expression::{emit_all, emit_call, emit_expr, emit_way, writing};
use pearl_instructions::instr::Instr;
use pearl_program::expression::{Call, Expr};
use pearl_program::statement::{Assign, Put, Return, Send, Take};
use pearl_value::kind::Kind;
use std::alloc::{AllocError as NoMemory, Global};

/// Adds the code of an expression whose value is converted.
pub fn emit_converted(
    alloc: Global,
    site: Site<'_>,
    code: &mut Vec<Instr>,
    expr: &Expr,
    kind: Kind,
) -> Result<(), NoMemory>
    ensures added { OnOk result (Adds (λ code from to. ConvertedAt (setting_of site.entry.program.now site.entry.result site.entry.routine.now) code from (plain_expr expr.now) (Some kind) to) code.old.items code.new.items) }
    ensures kept { Extends code.old.items code.new.items }
{
    emit_expr(alloc, site.program, code, expr)?;
    emit(code, Instr::Conv(kind))?;
    Ok(())
}

/// Adds the code of an assignment.
pub fn emit_assign(
    alloc: Global,
    site: Site<'_>,
    code: &mut Vec<Instr>,
    assign: &Assign,
) -> Result<(), NoMemory>
    ensures added { OnOk result (Adds (λ code from to. AssignAt (setting_of site.entry.program.now site.entry.result site.entry.routine.now) code from (plain_variable assign.now.target) (plain_expr assign.now.value) to) code.old.items code.new.items) }
    ensures kept { Extends code.old.items code.new.items }
{
    let kind = variable_kind(site, &assign.target)?;
    let instr = writing(&assign.target)?;
    emit_way(alloc, site.program, code, &assign.target)?;
    emit_converted(alloc, site, code, &assign.value, kind)?;
    emit(code, instr)?;
    Ok(())
}

/// Adds the code that puts the oldest value of an input into a variable.
pub fn emit_take(
    alloc: Global,
    site: Site<'_>,
    code: &mut Vec<Instr>,
    take: &Take,
) -> Result<(), NoMemory>
    ensures added { OnOk result (Adds (λ code from to. TakeAt (setting_of site.entry.program.now site.entry.result site.entry.routine.now) code from (plain_variable take.now.target) take.now.device to) code.old.items code.new.items) }
    ensures kept { Extends code.old.items code.new.items }
{
    let kind = variable_kind(site, &take.target)?;
    let instr = writing(&take.target)?;
    emit_way(alloc, site.program, code, &take.target)?;
    emit(code, Instr::Take(u64::from(take.device)))?;
    emit(code, Instr::Conv(kind))?;
    emit(code, instr)?;
    Ok(())
}

fn emit_dropped(code: &mut Vec<Instr>, returns: Option<Kind>) -> Result<(), NoMemory>
    ensures added { OnOk result ((setting : Setting) → Adds (λ code from to. DroppedAt setting code from returns to) code.old.items code.new.items) }
    ensures kept { Extends code.old.items code.new.items }
{
    if returns.is_some() {
        emit(code, Instr::Drop)?;
    }
    Ok(())
}

/// Adds the code of a call whose result is dropped.
pub fn emit_call_of(
    alloc: Global,
    site: Site<'_>,
    code: &mut Vec<Instr>,
    call: &Call,
) -> Result<(), NoMemory>
    ensures added { OnOk result (Adds (λ code from to. CallOfAt (setting_of site.entry.program.now site.entry.result site.entry.routine.now) code from call.now.procedure (slice_get (plain_prog site.entry.program.now).procedures call.now.procedure) (plain_arguments call.now.arguments.items) to) code.old.items code.new.items) }
    ensures kept { Extends code.old.items code.new.items }
{
    let Some(procedure) = site
        .program
        .procedures
        .as_slice()
        .get(call.procedure as usize)
    else {
        return Err(NoMemory);
    };
    emit_call(alloc, site.program, code, call)?;
    emit_dropped(code, procedure.result)?;
    Ok(())
}

/// Adds the code of RETURN.
pub fn emit_return(
    alloc: Global,
    site: Site<'_>,
    code: &mut Vec<Instr>,
    part: &Return,
) -> Result<(), NoMemory>
    ensures added { OnOk result (Adds (λ code from to. ReturnAt (setting_of site.entry.program.now site.entry.result site.entry.routine.now) code from (option_map plain_expr part.now.value) to) code.old.items code.new.items) }
    ensures kept { Extends code.old.items code.new.items }
{
    match &part.value {
        None => {
            emit(code, Instr::Return)?;
            Ok(())
        }
        Some(value) => {
            let Some(kind) = site.result else {
                return Err(NoMemory);
            };
            emit_converted(alloc, site, code, value, kind)?;
            emit(code, Instr::Return)?;
            Ok(())
        }
    }
}

/// Adds the code of PUT.
pub fn emit_put(
    alloc: Global,
    site: Site<'_>,
    code: &mut Vec<Instr>,
    put: &Put,
) -> Result<(), NoMemory>
    ensures added { OnOk result (Adds (λ code from to. PutAt (setting_of site.entry.program.now site.entry.result site.entry.routine.now) code from (plain_exprs put.now.values.items) put.now.device put.now.format to) code.old.items code.new.items) }
    ensures kept { Extends code.old.items code.new.items }
{
    emit_all(alloc, site.program, code, put.values.as_slice())?;
    let (device, format) = (u64::from(put.device), u64::from(put.format));
    emit(code, Instr::Put { device, format })?;
    Ok(())
}

/// Adds the code of SEND.
pub fn emit_send(
    alloc: Global,
    site: Site<'_>,
    code: &mut Vec<Instr>,
    send: &Send,
) -> Result<(), NoMemory>
    ensures added { OnOk result (Adds (λ code from to. SendAt (setting_of site.entry.program.now site.entry.result site.entry.routine.now) code from (plain_expr send.now.value) send.now.device to) code.old.items code.new.items) }
    ensures kept { Extends code.old.items code.new.items }
{
    let kind = sent_kind(site, send.device)?;
    emit_converted(alloc, site, code, &send.value, kind)?;
    emit(code, Instr::Send(u64::from(send.device)))?;
    Ok(())
}

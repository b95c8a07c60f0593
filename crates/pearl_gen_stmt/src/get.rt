// The code of GET.

ghost use Rattle.std.specs.Prelude.{◌≡◌, ◌+◌, ◌<◌, ◌^◌, List, length, map, Some, OnOk, IfOk};
ghost use Rattle.pearl_value.specs.declared.kind.Kind.{Kind as KindOf};
ghost use Rattle.pearl_meaning.specs.Transfers.{kinds_of};
ghost use Rattle.pearl_program.specs.PlainExpressions.{plain_variable};
ghost use Rattle.pearl_meaning.specs.Setting.{Setting};
ghost use Rattle.pearl_gen_expr.specs.Emitting.{Extends};
ghost use Rattle.pearl_gen_stmt.specs.StmtCode.{writing_at as writing_instr, kept_in as kept_cell, FoundAt, KeptAt, FilledAt, WrittenAt, GetAt};
ghost use Rattle.pearl_gen_stmt.specs.Emission.{setting_of, Adds};

use crate::pending::emit;
use crate::site::{Site, variable_kind};
use pearl_gen_expr::bounds::element_count;
use pearl_gen_expr::expression::emit_offset;
use pearl_instructions::boxed::Boxed;
use pearl_instructions::constant::Constant;
use pearl_instructions::instr::{Instr, Reading};
use pearl_program::expression::{Target, Variable};
use pearl_program::statement::Get;
use pearl_value::cell::Cell;
use std::alloc::{AllocError as NoMemory, Global};

// The instruction that writes a value to an element, on its offset or its reference.
fn writing_at(variable: &Variable) -> Result<Instr, NoMemory>
    ensures { IfOk result (λ instr. instr ≡ writing_instr variable.now.target variable.now.bounds.items) }
{
    match variable.target {
        Target::Leaf(number) => Ok(Instr::WriteAt(u64::from(number))),
        Target::Own(cell) => {
            let count = element_count(variable.bounds.as_slice())?;
            Ok(Instr::StoreAt {
                first: u64::from(cell),
                count,
            })
        }
        Target::Param(_) => Ok(Instr::WriteRef),
    }
}

// Where a target's offset or its reference is kept.
fn kept_in(variable: &Variable, at: u64) -> u64
    ensures { result ≡ kept_cell variable.now.target at }
{
    match variable.target {
        Target::Param(cell) => u64::from(cell),
        _ => at,
    }
}

fn emit_found(
    alloc: Global,
    site: Site<'_>,
    code: &mut Vec<Instr>,
    target: &Variable,
) -> Result<(), NoMemory>
    ensures added { OnOk result (Adds (λ code from to. FoundAt (setting_of site.entry.program.now site.entry.result site.entry.routine.now) code from (plain_variable target.now) to) code.old.items code.new.items) }
    ensures kept { Extends code.old.items code.new.items }
{
    if target.bounds.is_empty() {
        let zero = Constant::new(alloc, &Cell::Fixed { len: 31, value: 0 })?;
        emit(code, Instr::Const(zero))?;
        return Ok(());
    }
    emit_offset(alloc, site.program, code, target)?;
    Ok(())
}

fn emit_kept(
    alloc: Global,
    site: Site<'_>,
    code: &mut Vec<Instr>,
    at: u64,
    targets: &[Variable],
) -> Result<(), NoMemory>
    requires { at + length targets.now < 2 ^ 64 }
    ensures added { OnOk result (Adds (λ code from to. KeptAt (setting_of site.entry.program.now site.entry.result site.entry.routine.now) code from at (map plain_variable targets.now) to) code.old.items code.new.items) }
    ensures kept { Extends code.old.items code.new.items }
{
    for (index, target) in targets.iter().enumerate() {
        emit_found(alloc, site, code, target)?;
        emit(code, Instr::Store(at + index as u64))?;
    }
    Ok(())
}

fn emit_filled(
    site: Site<'_>,
    code: &mut Vec<Instr>,
    cell: u32,
    targets: &[Variable],
) -> Result<(), NoMemory>
    ensures added { OnOk result ((kinds : List KindOf) × (kinds_of (setting_of site.entry.program.now site.entry.result site.entry.routine.now) (map plain_variable targets.now) ≡ Some kinds) × Adds (λ code from to. FilledAt (setting_of site.entry.program.now site.entry.result site.entry.routine.now) code from cell kinds to) code.old.items code.new.items) }
    ensures kept { Extends code.old.items code.new.items }
{
    for (index, target) in targets.iter().enumerate() {
        let kind = variable_kind(site, target)?;
        let first = u64::from(cell) + index as u64;
        emit(
            code,
            Instr::Fill {
                first,
                count: 1,
                kind,
            },
        )?;
    }
    Ok(())
}

fn emit_written(
    code: &mut Vec<Instr>,
    cell: u32,
    at: u64,
    targets: &[Variable],
) -> Result<(), NoMemory>
    requires { at + length targets.now < 2 ^ 64 }
    ensures added { OnOk result ((setting : Setting) → Adds (λ code from to. WrittenAt setting code from cell at (map plain_variable targets.now) to) code.old.items code.new.items) }
    ensures kept { Extends code.old.items code.new.items }
{
    for (index, target) in targets.iter().enumerate() {
        let instr = writing_at(target)?;
        emit(code, Instr::Load(kept_in(target, at + index as u64)))?;
        emit(code, Instr::Load(u64::from(cell) + index as u64))?;
        emit(code, instr)?;
    }
    Ok(())
}

/// Adds the code of GET.
pub fn emit_get(
    alloc: Global,
    site: Site<'_>,
    code: &mut Vec<Instr>,
    get: &Get,
) -> Result<(), NoMemory>
    ensures added { OnOk result (Adds (λ code from to. GetAt (setting_of site.entry.program.now site.entry.result site.entry.routine.now) code from (map plain_variable get.now.targets.items) get.now.device get.now.format get.now.cell to) code.old.items code.new.items) }
    ensures kept { Extends code.old.items code.new.items }
{
    let targets = get.targets.as_slice();
    let at = u64::from(get.cell) + targets.len() as u64;
    emit_kept(alloc, site, code, at, targets)?;
    emit_filled(site, code, get.cell, targets)?;
    let reading = Reading {
        device: u64::from(get.device),
        format: u64::from(get.format),
        first: u64::from(get.cell),
    };
    let boxed = Boxed::new(alloc, reading)?;
    emit(code, Instr::Get(boxed))?;
    emit_written(code, get.cell, at, targets)?;
    Ok(())
}

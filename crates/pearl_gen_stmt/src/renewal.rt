// The code that gives variables their first values.

ghost use Rattle.std.specs.Prelude.{◌≡◌, ◌+◌, ◌<◌, ◌^◌, length, map, OnOk};
ghost use Rattle.pearl_program.specs.PlainExpressions.{cell_of};
ghost use Rattle.pearl_program.specs.PlainStatements.{PlainValues, plain_values};
ghost use Rattle.pearl_meaning.specs.Setting.{Setting};
ghost use Rattle.pearl_gen_expr.specs.Emitting.{Extends};
ghost use Rattle.pearl_gen_stmt.specs.StmtCode.{StoresAt, RepeatsAt, RenewAt};
ghost use Rattle.pearl_gen_stmt.specs.Emission.{setting_of, Adds};

use crate::pending::emit;
use pearl_instructions::constant::Constant;
use pearl_instructions::instr::Instr;
use pearl_program::literal::Literal;
use pearl_program::statement::Renewal;
use std::alloc::{AllocError as NoMemory, Global};

fn emit_stores(
    alloc: Global,
    code: &mut Vec<Instr>,
    cell: u32,
    constants: &[Literal],
) -> Result<(), NoMemory>
    ensures added { OnOk result ((setting : Setting) → Adds (λ code from to. StoresAt setting code from cell (map cell_of constants.now) to) code.old.items code.new.items) }
    ensures kept { Extends code.old.items code.new.items }
{
    for (index, constant) in constants.iter().enumerate() {
        let value = Constant::new(alloc, &constant.cell())?;
        emit(code, Instr::Const(value))?;
        emit(code, Instr::Store(u64::from(cell) + index as u64))?;
    }
    Ok(())
}

fn emit_repeats(code: &mut Vec<Instr>, cell: u64, more: u64) -> Result<(), NoMemory>
    requires { cell + more < 2 ^ 64 }
    ensures added { OnOk result ((setting : Setting) → Adds (λ code from to. RepeatsAt setting code from cell more to) code.old.items code.new.items) }
    ensures kept { Extends code.old.items code.new.items }
{
    for index in 0..more {
        let from = cell + index;
        emit(code, Instr::Load(from))?;
        emit(code, Instr::Store(from + 1))?;
    }
    Ok(())
}

fn emit_constants(
    alloc: Global,
    code: &mut Vec<Instr>,
    cell: u32,
    count: u32,
    constants: &[Literal],
) -> Result<(), NoMemory>
    requires { 0 < length constants.now }
    ensures added { OnOk result ((setting : Setting) (values : PlainValues) → values.count ≡ count → Adds (λ code from to. RenewAt setting code from cell values (map cell_of constants.now) to) code.old.items code.new.items) }
    ensures kept { Extends code.old.items code.new.items }
{
    emit_stores(alloc, code, cell, constants)?;
    let last = u64::from(cell) + (constants.len() - 1) as u64;
    let more = u64::from(count).saturating_sub(constants.len() as u64);
    emit_repeats(code, last, more)?;
    Ok(())
}

/// Adds the code that gives a local variable its first values.
pub fn emit_renew(alloc: Global, code: &mut Vec<Instr>, renewal: &Renewal) -> Result<(), NoMemory>
    ensures added { OnOk result ((setting : Setting) → Adds (λ code from to. RenewAt setting code from renewal.now.cell (plain_values renewal.now.values) (map cell_of renewal.now.values.constants) to) code.old.items code.new.items) }
    ensures kept { Extends code.old.items code.new.items }
{
    let values = &renewal.values;
    let constants = values.constants.as_slice();
    if constants.is_empty() {
        let (first, count) = (u64::from(renewal.cell), u64::from(values.count));
        emit(
            code,
            Instr::Fill {
                first,
                count,
                kind: values.kind,
            },
        )?;
        return Ok(());
    }
    emit_constants(alloc, code, renewal.cell, values.count, constants)?;
    Ok(())
}

// The routines of an object.

ghost use Rattle.std.specs.Prelude.{◌≡◌, IfOk};
ghost use Rattle.std.specs.List.{AllZip};
ghost use Rattle.pearl_program.specs.PlainPrograms.{plain_prog, plain_procedure, plain_routine, plain_task};
ghost use Rattle.pearl_program.specs.Sound.{CallSmaller};
ghost use Rattle.pearl_program.specs.Weights.{weight as weight_in, weights_of};
ghost use Rattle.pearl_gen_stmt.specs.Generated.{last_of as last_instr};
ghost use Rattle.pearl_generate.specs.Routines.{IsRoutine, IsProcedure, IsTask};

use crate::tables::name_of;
use crate::weight::weight_of;
use pearl_gen_stmt::statement::emit_statements;
use pearl_instructions::instr::Instr;
use pearl_instructions::object::{Code, Procedure, Task};
use pearl_program::program;
use pearl_program::program::{Program, Routine};
use pearl_value::kind::Kind;
use pearl_value::listing::Listing;
use pearl_value::trap::Trap;
use std::alloc::{AllocError as NoMemory, Global};

// The code of a routine of this weight, with this instruction behind its statements.
fn code_of(
    alloc: Global,
    program: &Program,
    routine: &Routine,
    returns: Option<Kind>,
    last: Instr,
    weight: u64,
) -> Result<Code, NoMemory>
    requires { weight ≡ weight_in (weights_of (plain_prog program.now).procedures) (plain_routine routine.now) }
    ensures { IfOk result (λ code. IsRoutine (plain_prog program.now) returns (plain_routine routine.now) last code) }
{
    let mut instructions = Vec::new(alloc);
    emit_statements(alloc, program, routine, returns, &mut instructions)?;
    instructions.push(last)?;
    let cells = Vec::from_slice(alloc, routine.cells.as_slice())?;
    Ok(Code {
        cells: Listing::new(cells),
        depth: weight,
        instructions: Listing::new(instructions),
        shapes: Listing::new(Vec::new(alloc)),
    })
}

/// What stands behind the statements of a procedure: it is left there, or where RETURNS stands Range is trapped.
pub fn last_of(returns: Option<Kind>) -> Instr
    ensures { result ≡ last_instr returns }
{
    match returns {
        Some(_) => Instr::Trap(Trap::Range),
        None => Instr::Return,
    }
}

fn procedure_of(
    alloc: Global,
    program: &Program,
    procedure: &program::Procedure,
    weight: u64,
) -> Result<Procedure, NoMemory>
    requires { weight ≡ weight_in (weights_of (plain_prog program.now).procedures) (plain_procedure procedure.now).routine }
    ensures { IfOk result (λ made. IsProcedure (plain_prog program.now) procedure.now made) }
{
    let last = last_of(procedure.result);
    let code = code_of(
        alloc,
        program,
        &procedure.routine,
        procedure.result,
        last,
        weight,
    )?;
    Ok(Procedure {
        params: u64::from(procedure.params),
        result: procedure.result,
        code,
    })
}

/// The procedures, whose weights stand in a list.
pub fn procedures_of(
    alloc: Global,
    program: &Program,
    weights: &[u64],
) -> Result<Vec<Procedure>, NoMemory>
    requires smaller { CallSmaller 0 (plain_prog program.now).procedures }
    requires weights { weights.now ≡ weights_of (plain_prog program.now).procedures }
    ensures { IfOk result (λ made. AllZip (IsProcedure (plain_prog program.now)) program.now.procedures made.items) }
{
    let procedures = program.procedures.as_slice();
    let mut made = Vec::with_capacity(alloc, procedures.len())?;
    for (number, procedure) in procedures.iter().enumerate() {
        made.push(procedure_of(alloc, program, procedure, weights[number])?)?;
    }
    Ok(made)
}

fn task_of(
    alloc: Global,
    program: &Program,
    task: &program::Task,
    weights: &[u64],
) -> Result<Task, NoMemory>
    requires { weights.now ≡ weights_of (plain_prog program.now).procedures }
    ensures { IfOk result (λ made. IsTask (plain_prog program.now) task.now made) }
{
    let weight = weight_of(weights, &task.routine)?;
    let code = code_of(alloc, program, &task.routine, None, Instr::End, weight)?;
    let name = name_of(&task.name)?;
    Ok(Task {
        name,
        priority: task.priority,
        main: task.main,
        code,
    })
}

/// The tasks, where procedures have these weights.
pub fn tasks_of(alloc: Global, program: &Program, weights: &[u64]) -> Result<Vec<Task>, NoMemory>
    requires { weights.now ≡ weights_of (plain_prog program.now).procedures }
    ensures { IfOk result (λ made. AllZip (IsTask (plain_prog program.now)) program.now.tasks made.items) }
{
    let tasks = program.tasks.as_slice();
    let mut made = Vec::with_capacity(alloc, tasks.len())?;
    for task in tasks {
        made.push(task_of(alloc, program, task, weights)?)?;
    }
    Ok(made)
}

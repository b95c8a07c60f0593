// The code of expressions, of what lies below a value that is written, and of calls.

ghost use Rattle.std.specs.Prelude.{◌≡◌, [], ◌∷◌, ◌++◌, take, IfOk, OnOk};
ghost use Rattle.pearl_program.specs.PlainExpressions.{cell_of, plain_expr, plain_exprs, plain_variable, plain_argument, plain_arguments, OfLiteral};
ghost use Rattle.pearl_program.specs.PlainPrograms.{PlainProg, plain_prog};
ghost use Rattle.pearl_gen_expr.specs.ExprCode.{reading as reading_of, referring as referring_of, writing as writing_of};
ghost use Rattle.pearl_gen_expr.specs.Emitting.{Extends, Emits, EmitsExpr, EmitsAll, EmitsOffset, EmitsWay, EmitsRead, EmitsElement, EmitsReference, EmitsCall, EmitsArguments, EmitsArgument, HasParameters};

use crate::bounds::{element_count, index_bounds};
use pearl_instructions::boxed::Boxed;
use pearl_instructions::constant::Constant;
use pearl_instructions::instr::Instr;
use pearl_program::expression::{Argument, Call, Expr, Target, Variable};
use pearl_program::literal::Literal;
use pearl_program::program::Program;
use pearl_value::kind::CellKind;
use pearl_value::listing::Listing;
use std::alloc::{AllocError as NoMemory, Global};

/// The instruction that reads an element, whose offset lies on the operands where it has subscripts.
pub fn reading(variable: &Variable) -> Result<Instr, NoMemory>
    ensures { IfOk result (λ instr. instr ≡ reading_of variable.now.target variable.now.bounds.items) }
{
    match variable.target {
        Target::Leaf(number) => {
            if variable.bounds.is_empty() {
                Ok(Instr::Read(u64::from(number)))
            } else {
                Ok(Instr::ReadAt(u64::from(number)))
            }
        }
        Target::Own(cell) => {
            if variable.bounds.is_empty() {
                Ok(Instr::Load(u64::from(cell)))
            } else {
                let count = element_count(variable.bounds.as_slice())?;
                Ok(Instr::LoadAt {
                    first: u64::from(cell),
                    count,
                })
            }
        }
        Target::Param(_) => Ok(Instr::ReadRef),
    }
}

/// The instruction that writes an element, on the offset where it has subscripts.
pub fn writing(variable: &Variable) -> Result<Instr, NoMemory>
    ensures { IfOk result (λ instr. instr ≡ writing_of variable.now.target variable.now.bounds.items) }
{
    match variable.target {
        Target::Leaf(number) => {
            if variable.bounds.is_empty() {
                Ok(Instr::Write(u64::from(number)))
            } else {
                Ok(Instr::WriteAt(u64::from(number)))
            }
        }
        Target::Own(cell) => {
            if variable.bounds.is_empty() {
                Ok(Instr::Store(u64::from(cell)))
            } else {
                let count = element_count(variable.bounds.as_slice())?;
                Ok(Instr::StoreAt {
                    first: u64::from(cell),
                    count,
                })
            }
        }
        Target::Param(_) => Ok(Instr::WriteRef),
    }
}

/// The instruction that makes a reference to an element, on the offset where it has subscripts.
fn referring(variable: &Variable) -> Result<Instr, NoMemory>
    ensures { IfOk result (λ instr. instr ≡ referring_of variable.now.target variable.now.bounds.items) }
{
    match variable.target {
        Target::Leaf(number) => {
            if variable.bounds.is_empty() {
                Ok(Instr::RefSlot(u64::from(number)))
            } else {
                Ok(Instr::RefSlotAt(u64::from(number)))
            }
        }
        Target::Own(cell) => {
            if variable.bounds.is_empty() {
                Ok(Instr::RefCell(u64::from(cell)))
            } else {
                let count = element_count(variable.bounds.as_slice())?;
                Ok(Instr::RefCellAt {
                    first: u64::from(cell),
                    count,
                })
            }
        }
        Target::Param(cell) => Ok(Instr::Load(u64::from(cell))),
    }
}

// One more instruction.
fn emit(code: &mut Vec<Instr>, instr: Instr) -> Result<(), NoMemory>
    ensures added { OnOk result (code.new.items ≡ code.old.items ++ instr ∷ []) }
    ensures kept { Extends code.old.items code.new.items }
{
    code.push(instr)?;
    Ok(())
}

fn emit_const(alloc: Global, code: &mut Vec<Instr>, literal: &Literal) -> Result<(), NoMemory>
    ensures added { (p : PlainProg) → OnOk result (EmitsExpr p (OfLiteral (cell_of literal.now)) code.old.items code.new.items) }
    ensures kept { Extends code.old.items code.new.items }
{
    let value = Constant::new(alloc, &literal.cell())?;
    emit(code, Instr::Const(value))?;
    Ok(())
}

/// Adds the code of an expression. After want of memory the old instructions still stand in front.
#[cycle(expression)]
pub fn emit_expr(
    alloc: Global,
    program: &Program,
    code: &mut Vec<Instr>,
    expr: &Expr,
) -> Result<(), NoMemory>
    ensures added { OnOk result (EmitsExpr (plain_prog program.now) (plain_expr expr.now) code.old.items code.new.items) }
    ensures kept { Extends code.old.items code.new.items }
{
    match expr {
        Expr::Literal(literal) => {
            emit_const(alloc, code, literal)?;
            Ok(())
        }
        Expr::Read(variable) => {
            emit_read(alloc, program, code, variable)?;
            Ok(())
        }
        Expr::Monadic { op, operand } => {
            emit_expr(alloc, program, code, operand)?;
            emit(code, Instr::Monadic(*op))?;
            Ok(())
        }
        Expr::Dyadic { op, left, right } => {
            emit_expr(alloc, program, code, left)?;
            emit_expr(alloc, program, code, right)?;
            emit(code, Instr::Dyadic(*op))?;
            Ok(())
        }
        Expr::Call(call) => {
            emit_call(alloc, program, code, call)?;
            Ok(())
        }
        Expr::Now => {
            emit(code, Instr::Now)?;
            Ok(())
        }
        Expr::Try(semaphore) => {
            emit(code, Instr::Try(u64::from(*semaphore)))?;
            Ok(())
        }
    }
}

/// Adds the code of some expressions, one behind the other.
#[cycle(expression)]
pub fn emit_all(
    alloc: Global,
    program: &Program,
    code: &mut Vec<Instr>,
    exprs: &[Expr],
) -> Result<(), NoMemory>
    ensures added { OnOk result (EmitsAll (plain_prog program.now) (plain_exprs exprs.now) code.old.items code.new.items) }
    ensures kept { Extends code.old.items code.new.items }
{
    for expr in exprs {
        emit_expr(alloc, program, code, expr)?;
    }
    Ok(())
}

/// Adds the code of a variable's subscripts and of their check, where it has some.
#[cycle(expression)]
pub fn emit_offset(
    alloc: Global,
    program: &Program,
    code: &mut Vec<Instr>,
    variable: &Variable,
) -> Result<(), NoMemory>
    ensures added { OnOk result (EmitsOffset (plain_prog program.now) (plain_variable variable.now) code.old.items code.new.items) }
    ensures kept { Extends code.old.items code.new.items }
{
    if variable.bounds.is_empty() {
        return Ok(());
    }
    emit_all(alloc, program, code, variable.subscripts.as_slice())?;
    let list = Listing::new(index_bounds(alloc, variable.bounds.as_slice())?);
    let bounds = Boxed::new(alloc, list)?;
    emit(code, Instr::Index(bounds))?;
    Ok(())
}

/// Adds the code of what lies below a value that is written to a variable.
#[cycle(expression)]
pub fn emit_way(
    alloc: Global,
    program: &Program,
    code: &mut Vec<Instr>,
    variable: &Variable,
) -> Result<(), NoMemory>
    ensures added { OnOk result (EmitsWay (plain_prog program.now) (plain_variable variable.now) code.old.items code.new.items) }
    ensures kept { Extends code.old.items code.new.items }
{
    match variable.target {
        Target::Param(cell) => {
            emit(code, Instr::Load(u64::from(cell)))?;
            Ok(())
        }
        Target::Leaf(_) => {
            emit_offset(alloc, program, code, variable)?;
            Ok(())
        }
        Target::Own(_) => {
            emit_offset(alloc, program, code, variable)?;
            Ok(())
        }
    }
}

/// Adds the code that reads a variable.
#[cycle(expression)]
pub fn emit_read(
    alloc: Global,
    program: &Program,
    code: &mut Vec<Instr>,
    variable: &Variable,
) -> Result<(), NoMemory>
    ensures added { OnOk result (EmitsRead (plain_prog program.now) (plain_variable variable.now) code.old.items code.new.items) }
    ensures kept { Extends code.old.items code.new.items }
{
    emit_way(alloc, program, code, variable)?;
    let instr = reading(variable)?;
    emit(code, instr)?;
    Ok(())
}

#[cycle(expression)]
fn emit_element(
    alloc: Global,
    program: &Program,
    code: &mut Vec<Instr>,
    variable: &Variable,
) -> Result<(), NoMemory>
    ensures added { OnOk result (EmitsElement (plain_prog program.now) (plain_variable variable.now) code.old.items code.new.items) }
    ensures kept { Extends code.old.items code.new.items }
{
    emit_offset(alloc, program, code, variable)?;
    let instr = referring(variable)?;
    emit(code, instr)?;
    Ok(())
}

/// Adds the code that makes a reference to a variable.
#[cycle(expression)]
pub fn emit_reference(
    alloc: Global,
    program: &Program,
    code: &mut Vec<Instr>,
    variable: &Variable,
) -> Result<(), NoMemory>
    ensures added { OnOk result (EmitsReference (plain_prog program.now) (plain_variable variable.now) code.old.items code.new.items) }
    ensures kept { Extends code.old.items code.new.items }
{
    match variable.target {
        Target::Param(cell) => {
            emit(code, Instr::Load(u64::from(cell)))?;
            Ok(())
        }
        Target::Leaf(_) => {
            emit_element(alloc, program, code, variable)?;
            Ok(())
        }
        Target::Own(_) => {
            emit_element(alloc, program, code, variable)?;
            Ok(())
        }
    }
}

/// Adds the code of a call. A procedure that isn't there, and arguments that are too many or too few, count as want of
/// memory.
#[cycle(expression)]
pub fn emit_call(
    alloc: Global,
    program: &Program,
    code: &mut Vec<Instr>,
    call: &Call,
) -> Result<(), NoMemory>
    ensures added { OnOk result (EmitsCall (plain_prog program.now) call.now.procedure (plain_arguments call.now.arguments.items) code.old.items code.new.items) }
    ensures kept { Extends code.old.items code.new.items }
{
    let params = parameters(program, call.procedure)?;
    emit_arguments(alloc, program, code, params, call.arguments.as_slice())?;
    emit(code, Instr::Call(u64::from(call.procedure)))?;
    Ok(())
}

// The kinds of the parameters of a procedure.
fn parameters(program: &Program, number: u32) -> Result<&[CellKind], NoMemory>
    ensures { IfOk result (λ params. HasParameters (plain_prog program.now) number params.now) }
{
    let Some(procedure) = program.procedures.as_slice().get(number as usize) else {
        return Err(NoMemory);
    };
    let cells = procedure.routine.cells.as_slice();
    let count = procedure.params as usize;
    if count > cells.len() {
        return Err(NoMemory);
    }
    Ok(&cells[..count])
}

#[cycle(expression)]
fn emit_arguments(
    alloc: Global,
    program: &Program,
    code: &mut Vec<Instr>,
    params: &[CellKind],
    arguments: &[Argument],
) -> Result<(), NoMemory>
    ensures added { OnOk result (EmitsArguments (plain_prog program.now) params.now (plain_arguments arguments.now) code.old.items code.new.items) }
    ensures kept { Extends code.old.items code.new.items }
{
    if params.len() != arguments.len() {
        return Err(NoMemory);
    }
    for (index, argument) in arguments.iter().enumerate() {
        emit_argument(alloc, program, code, params[index], argument)?;
    }
    Ok(())
}

#[cycle(expression)]
fn emit_argument(
    alloc: Global,
    program: &Program,
    code: &mut Vec<Instr>,
    param: CellKind,
    argument: &Argument,
) -> Result<(), NoMemory>
    ensures added { OnOk result (EmitsArgument (plain_prog program.now) param (plain_argument argument.now) code.old.items code.new.items) }
    ensures kept { Extends code.old.items code.new.items }
{
    match (argument, param) {
        (Argument::Value(expr), CellKind::Plain(kind)) => {
            emit_expr(alloc, program, code, expr)?;
            emit(code, Instr::Conv(kind))?;
            Ok(())
        }
        (Argument::Ident(variable), CellKind::RefTo(_)) => {
            emit_reference(alloc, program, code, variable)?;
            Ok(())
        }
        _ => Err(NoMemory),
    }
}

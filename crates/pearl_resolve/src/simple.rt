// What statements become that have no statements within them.

ghost use Rattle.std.specs.Prelude.{◌≡◌, [], ◌∷◌, ◌++◌, map, option_map, IfOk, OnOk};
ghost use Rattle.pearl_names.specs.declared.scope.View.TheVariants.{Within};
ghost use Rattle.pearl_program.specs.PlainExpressions.{plain_arguments, plain_exprs, plain_variable};
ghost use Rattle.pearl_tree.specs.ShownExpressions.{shown_expr, shown_ref};
ghost use Rattle.pearl_value.specs.declared.kind.CellKind.TheVariants.{Plain};
ghost use Rattle.pearl_resolve.specs.Cells.{get_cells};
ghost use Rattle.pearl_resolve.specs.Expressions as expressions;
ghost use Rattle.pearl_resolve.specs.Holding.{Becomes, BecomesStmt, BecomesStmtAt};
ghost use Rattle.pearl_resolve.specs.Parts.{shown_activate, shown_assign, shown_call, shown_continue, shown_get, shown_on_interrupt, shown_on_semaphores, shown_on_task, shown_put, shown_resume, shown_return, shown_send, shown_take};
ghost use Rattle.pearl_resolve.specs.Statements as spec;

use crate::cells::add_cells;
use crate::expression::{add_exprs, resolve_arguments, resolve_target, resolve_variable};
use crate::numbered::NumberedTable;
use crate::numbers::At;
use crate::schedule::{number_in, once_if, once_in, period_if, start_if, value_if, value_in};
use arrayvec::ArrayVec;
use pearl_names::scope::View;
use pearl_program::expression::{Argument, Call, Expr, Variable};
use pearl_program::statement::{Activate, Assign, Continue, Get, Put, Return, Send, Stmt, Take};
use pearl_tree::expression::{Expr as Written, Ref};
use pearl_tree::name::Name;
use pearl_tree::statement as tree;
use pearl_tree::statement::{InterruptWord, SemaWord, TaskWord};
use pearl_value::kind::{CellKind, Kind};
use std::alloc::{AllocError, Global};

pub(crate) fn assign(
    alloc: Global,
    numbered: &NumberedTable,
    scope: u32,
    part: &tree::Assign,
) -> Result<Stmt, AllocError>
    ensures { IfOk result (BecomesStmt numbered.now scope (shown_assign part.now)) }
{
    let target = resolve_variable(alloc, numbered, View::Within(scope), &part.target)?;
    let value = value_in(alloc, numbered, scope, &part.value)?;
    let assign = Box::new(alloc, Assign { target, value })?;
    Ok(Stmt::Assign(assign))
}

// What a call statement hands over.
fn arguments_in(
    alloc: Global,
    numbered: &NumberedTable,
    scope: u32,
    name: &Name,
    exprs: &[Written],
) -> Result<Vec<Argument>, AllocError>
    ensures { IfOk result (λ arguments. Becomes numbered.now (plain_arguments arguments.items)
        (λ of. spec.arguments_in of scope (spec.or_no_params (expressions.params_of (expressions.meant of (Within scope) name.now))) (map shown_expr exprs.now))) }
{
    let view = View::Within(scope);
    match numbered.signature_of(view, name) {
        Some(signature) => {
            let parameters = signature.parameters.as_slice();
            let arguments = resolve_arguments(alloc, numbered, view, parameters, exprs)?;
            Ok(arguments)
        }
        None => {
            let arguments = resolve_arguments(alloc, numbered, view, &[], exprs)?;
            Ok(arguments)
        }
    }
}

pub(crate) fn call_of(
    alloc: Global,
    numbered: &NumberedTable,
    scope: u32,
    part: &tree::Call,
) -> Result<Stmt, AllocError>
    ensures { IfOk result (BecomesStmt numbered.now scope (shown_call part.now)) }
{
    let procedure = number_in(numbered, scope, &part.name);
    let exprs = part.arguments.as_slice();
    let arguments = arguments_in(alloc, numbered, scope, &part.name, exprs)?;
    let call = Box::new(
        alloc,
        Call {
            procedure,
            arguments,
        },
    )?;
    Ok(Stmt::Call(call))
}

pub(crate) fn return_of(
    alloc: Global,
    numbered: &NumberedTable,
    scope: u32,
    part: &tree::Return,
) -> Result<Stmt, AllocError>
    ensures { IfOk result (BecomesStmt numbered.now scope (shown_return part.now)) }
{
    let value = value_if(alloc, numbered, View::Within(scope), &part.value)?;
    let made = Box::new(alloc, Return { value })?;
    Ok(Stmt::Return(made))
}

pub(crate) fn activate(
    alloc: Global,
    numbered: &NumberedTable,
    scope: u32,
    part: &tree::Activate,
) -> Result<Stmt, AllocError>
    ensures { IfOk result (BecomesStmt numbered.now scope (shown_activate part.now)) }
{
    let task = number_in(numbered, scope, &part.task);
    let start = start_if(alloc, numbered, scope, &part.start)?;
    let period = period_if(alloc, numbered, scope, &part.start)?;
    let priority = value_if(alloc, numbered, View::Within(scope), &part.priority)?;
    let made = Box::new(
        alloc,
        Activate {
            task,
            start,
            period,
            priority,
        },
    )?;
    Ok(Stmt::Activate(made))
}

pub(crate) fn continue_of(
    alloc: Global,
    numbered: &NumberedTable,
    scope: u32,
    part: &tree::Continue,
) -> Result<Stmt, AllocError>
    ensures { IfOk result (BecomesStmt numbered.now scope (shown_continue part.now)) }
{
    let task = number_in(numbered, scope, &part.task);
    let once = once_if(alloc, numbered, scope, &part.once)?;
    let made = Box::new(alloc, Continue { task, once })?;
    Ok(Stmt::Continue(made))
}

pub(crate) fn resume(
    alloc: Global,
    numbered: &NumberedTable,
    scope: u32,
    part: &tree::Resume,
) -> Result<Stmt, AllocError>
    ensures { IfOk result (BecomesStmt numbered.now scope (shown_resume part.now)) }
{
    let once = once_in(alloc, numbered, scope, &part.once)?;
    let made = Box::new(alloc, once)?;
    Ok(Stmt::Resume(made))
}

fn number_if(numbered: &NumberedTable, scope: u32, name: &Option<Name>) -> Option<u32>
    ensures { Becomes numbered.now result (λ of. option_map (expressions.number_of of (Within scope)) name.now) }
{
    match name {
        Some(name) => Some(number_in(numbered, scope, name)),
        None => None,
    }
}

pub(crate) fn on_task(numbered: &NumberedTable, scope: u32, part: &tree::OnTask) -> Stmt
    ensures { BecomesStmt numbered.now scope (shown_on_task part.now) result }
{
    let task = number_if(numbered, scope, &part.task);
    match part.word {
        TaskWord::Suspend => Stmt::Suspend(task),
        TaskWord::Terminate => Stmt::Terminate(task),
        TaskWord::Prevent => Stmt::Prevent(task),
    }
}

pub(crate) fn on_interrupt(numbered: &NumberedTable, scope: u32, part: &tree::OnInterrupt) -> Stmt
    ensures { BecomesStmt numbered.now scope (shown_on_interrupt part.now) result }
{
    let interrupt = number_in(numbered, scope, &part.name);
    match part.word {
        InterruptWord::Enable => Stmt::Enable(interrupt),
        InterruptWord::Disable => Stmt::Disable(interrupt),
        InterruptWord::Trigger => Stmt::Trigger(interrupt),
    }
}

// A number that is no semaphore's, and one too many, count as want of memory.
fn add_semaphore(
    numbered: &NumberedTable,
    scope: u32,
    name: &Name,
    into: &mut ArrayVec<u16, 16>,
) -> Result<(), AllocError>
    ensures { OnOk result (Becomes numbered.now into.new.items
        (λ of. into.old.items ++ expressions.number_of of (Within scope) name.now ∷ [])) }
{
    match u16::try_from(number_in(numbered, scope, name)) {
        Ok(number) => match into.try_push(number) {
            Ok(()) => Ok(()),
            Err(_) => Err(AllocError),
        },
        Err(_) => Err(AllocError),
    }
}

fn semaphores_in(
    numbered: &NumberedTable,
    scope: u32,
    names: &[Name],
) -> Result<ArrayVec<u16, 16>, AllocError>
    ensures { IfOk result (λ semaphores. Becomes numbered.now semaphores.items (λ of. map (expressions.number_of of (Within scope)) names.now)) }
{
    let mut semaphores = ArrayVec::new();
    for name in names {
        add_semaphore(numbered, scope, name, &mut semaphores)?;
    }
    Ok(semaphores)
}

pub(crate) fn on_semaphores(
    alloc: Global,
    numbered: &NumberedTable,
    scope: u32,
    part: &tree::OnSemas,
) -> Result<Stmt, AllocError>
    ensures { IfOk result (BecomesStmt numbered.now scope (shown_on_semaphores part.now)) }
{
    let semaphores = semaphores_in(numbered, scope, part.names.as_slice())?;
    let semaphores = Box::new(alloc, semaphores)?;
    match part.word {
        SemaWord::Request => Ok(Stmt::Request(semaphores)),
        SemaWord::Release => Ok(Stmt::Release(semaphores)),
    }
}

fn values_in(
    alloc: Global,
    numbered: &NumberedTable,
    scope: u32,
    exprs: &[Written],
) -> Result<Vec<Expr>, AllocError>
    ensures { IfOk result (λ values. Becomes numbered.now (plain_exprs values.items) (λ of. spec.values_in of scope (map shown_expr exprs.now))) }
{
    let mut values = Vec::new(alloc);
    add_exprs(alloc, numbered, View::Within(scope), exprs, &mut values)?;
    Ok(values)
}

pub(crate) fn put(
    alloc: Global,
    numbered: &NumberedTable,
    scope: u32,
    at: At,
    part: &tree::Put,
) -> Result<Stmt, AllocError>
    ensures { IfOk result (BecomesStmtAt numbered.now scope at (shown_put part.now)) }
{
    let values = values_in(alloc, numbered, scope, part.values.as_slice())?;
    let device = number_in(numbered, scope, &part.dation);
    let made = Box::new(
        alloc,
        Put {
            values,
            device,
            format: at.format,
        },
    )?;
    Ok(Stmt::Put(made))
}

// The targets of a GET, with a cell for the value of each.
fn targets_in(
    alloc: Global,
    numbered: &NumberedTable,
    scope: u32,
    targets: &[Ref],
    cells: &mut Vec<CellKind>,
) -> Result<Vec<Variable>, AllocError>
    ensures variables { IfOk result (λ made. Becomes numbered.now (map plain_variable made.items)
        (λ of. map (expressions.resolve_variable of (Within scope)) (map shown_ref targets.now))) }
    ensures cells { OnOk result (Becomes numbered.now cells.new.items
        (λ of. cells.old.items ++ map (λ target. Plain (expressions.target_kind of (Within scope) target)) (map shown_ref targets.now))) }
{
    let mut variables = Vec::new(alloc);
    variables.reserve_exact(targets.len())?;
    for target in targets {
        let (variable, kind) = resolve_target(alloc, numbered, View::Within(scope), target)?;
        variables.push(variable)?;
        cells.push(CellKind::Plain(kind))?;
    }
    Ok(variables)
}

pub(crate) fn get(
    alloc: Global,
    numbered: &NumberedTable,
    scope: u32,
    at: At,
    part: &tree::Get,
    cells: &mut Vec<CellKind>,
) -> Result<Stmt, AllocError>
    ensures made { IfOk result (BecomesStmtAt numbered.now scope at (shown_get part.now)) }
    ensures cells { OnOk result (Becomes numbered.now cells.new.items
        (λ of. cells.old.items ++ get_cells of scope (map shown_ref part.now.targets.items.items))) }
{
    let refs = part.targets.as_slice();
    let targets = targets_in(alloc, numbered, scope, refs, cells)?;
    add_cells(refs.len(), Kind::Fixed(31), cells)?;
    let device = number_in(numbered, scope, &part.dation);
    let made = Box::new(
        alloc,
        Get {
            targets,
            device,
            format: at.format,
            cell: at.cell,
        },
    )?;
    Ok(Stmt::Get(made))
}

pub(crate) fn send(
    alloc: Global,
    numbered: &NumberedTable,
    scope: u32,
    part: &tree::Send,
) -> Result<Stmt, AllocError>
    ensures { IfOk result (BecomesStmt numbered.now scope (shown_send part.now)) }
{
    let value = value_in(alloc, numbered, scope, &part.value)?;
    let device = number_in(numbered, scope, &part.dation);
    let made = Box::new(alloc, Send { value, device })?;
    Ok(Stmt::Send(made))
}

pub(crate) fn take(
    alloc: Global,
    numbered: &NumberedTable,
    scope: u32,
    part: &tree::Take,
) -> Result<Stmt, AllocError>
    ensures { IfOk result (BecomesStmt numbered.now scope (shown_take part.now)) }
{
    let target = resolve_variable(alloc, numbered, View::Within(scope), &part.target)?;
    let device = number_in(numbered, scope, &part.dation);
    let made = Box::new(alloc, Take { target, device })?;
    Ok(Stmt::Take(made))
}

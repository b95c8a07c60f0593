// Tasks and procedures.

ghost use Rattle.std.specs.Prelude.{◌≡◌, ◌++◌, map, option_map, IfOk, OnOk};
ghost use Rattle.std.specs.List.{sum_by};
ghost use Rattle.pearl_program.specs.PlainPrograms.{plain_procedure, plain_routine, plain_task};
ghost use Rattle.pearl_tree.specs.ShownDeclarations.{shown_param};
ghost use Rattle.pearl_tree.specs.ShownModules.{shown_body, shown_decl};
ghost use Rattle.pearl_resolve.specs.Expressions.{Numbered};
ghost use Rattle.pearl_resolve.specs.Holding.{AddsRoutines, Becomes, HoldsNumbered, at_in};
ghost use Rattle.pearl_resolve.specs.Numbers as numbers;
ghost use Rattle.pearl_resolve.specs.Resolve as spec;

use crate::numbered::NumberedTable;
use crate::numbers::{At, FIRST};
use crate::statements::add_body;
use pearl_names::length::{Lengths, kind_of_basic};
use pearl_program::program::{Procedure, Routine, Task};
use pearl_resolve_tables::counts::sum;
use pearl_resolve_tables::devices::kind_or_short;
use pearl_tree::declaration::{Param, Prio};
use pearl_tree::name::Name;
use pearl_tree::statement::Body;
use pearl_tree::tree::{Decl, TaskHead};
use pearl_tree::typing::Basic;
use pearl_value::kind::Kind;
use pearl_value::listing::Listing;
use std::alloc::{AllocError, Global};

/// The tasks and procedures of a module, in order of declaration.
#[derive(Drop)]
pub(crate) struct Routines {
    pub tasks: Vec<Task>,
    pub procedures: Vec<Procedure>,
}

// A routine with this body, and how far the text has come behind it.
fn routine_of(
    alloc: Global,
    numbered: &NumberedTable,
    at: At,
    body: &Body,
) -> Result<(At, Routine), AllocError>
    ensures at { IfOk result (λ made. Becomes numbered.now (at_in made.0) (λ of. numbers.after_body of.table (at_in at) (shown_body body.now))) }
    ensures routine { IfOk result (λ made. Becomes numbered.now (plain_routine made.1) (λ of. spec.resolve_routine of (at_in at) (shown_body body.now))) }
{
    let mut cells = Vec::new(alloc);
    let mut statements = Vec::new(alloc);
    let start = At { cell: 0, ..at };
    let at = add_body(alloc, numbered, 0, start, body, &mut cells, &mut statements)?;
    let listed = Listing::new(cells);
    let routine = Routine {
        cells: listed,
        body: statements,
    };
    Ok((at, routine))
}

// A number that is no priority counts as want of memory.
fn prio_value(prio: Prio) -> Result<u8, AllocError>
    ensures { IfOk result (λ value. value ≡ spec.prio_value prio) }
{
    match u8::try_from(prio.number.value) {
        Ok(value) => Ok(value),
        Err(_) => Err(AllocError),
    }
}

fn priority_of(head: TaskHead) -> Result<u8, AllocError>
    ensures { IfOk result (λ value. value ≡ spec.priority_of head) }
{
    match head {
        TaskHead::PrioFirst { prio, .. } => match prio {
            Some(prio) => prio_value(prio),
            None => Ok(255),
        },
        TaskHead::MainFirst { prio } => prio_value(prio),
    }
}

fn is_main(head: TaskHead) -> bool
    ensures { result ≡ spec.is_main head }
{
    match head {
        TaskHead::PrioFirst { main, .. } => main,
        TaskHead::MainFirst { .. } => true,
    }
}

fn task_of(name: &Name, head: TaskHead, routine: Routine) -> Result<Task, AllocError>
    ensures { IfOk result (λ task. plain_task task ≡ record {
      name = name.now.text.items;
      priority = spec.priority_of head;
      main = spec.is_main head;
      routine = plain_routine routine;
    }) }
{
    let text = name.text.clone()?;
    let priority = priority_of(head)?;
    Ok(Task {
        name: text,
        priority,
        main: is_main(head),
        routine,
    })
}

fn name_count(param: &Param) -> Result<u32, AllocError>
    ensures { IfOk result (λ count. count ≡ spec.names_in_param (shown_param param.now)) }
{
    match u32::try_from(param.names.as_slice().len()) {
        Ok(count) => Ok(count),
        Err(_) => Err(AllocError),
    }
}

// How many parameters there are.
fn param_count(params: &[Param]) -> Result<u32, AllocError>
    ensures { IfOk result (λ count. count ≡ sum_by spec.names_in_param (map shown_param params.now)) }
{
    let mut count: u32 = 0;
    for param in params {
        let names = name_count(param)?;
        count = sum(count, names)?;
    }
    Ok(count)
}

fn result_kind(lengths: &Lengths, returns: &Option<Basic>) -> Option<Kind>
    ensures { result ≡ spec.result_kind lengths.now returns.now }
{
    match returns {
        Some(basic) => Some(kind_or_short(kind_of_basic(lengths, basic))),
        None => None,
    }
}

fn procedure_of(
    lengths: &Lengths,
    params: &[Param],
    returns: &Option<Basic>,
    routine: Routine,
) -> Result<Procedure, AllocError>
    ensures { IfOk result (λ procedure. plain_procedure procedure ≡ record {
      params = sum_by spec.names_in_param (map shown_param params.now);
      result = spec.result_kind lengths.now returns.now;
      routine = plain_routine routine;
    }) }
{
    let count = param_count(params)?;
    let result = result_kind(lengths, returns);
    Ok(Procedure {
        params: count,
        result,
        routine,
    })
}

// Adds the task or procedure of a declaration behind others.
fn add_decl(
    alloc: Global,
    numbered: &NumberedTable,
    at: At,
    decl: &Decl,
    into: &mut Routines,
) -> Result<At, AllocError>
    ensures { IfOk result (λ after. (of : Numbered) → HoldsNumbered numbered.now of →
        AddsRoutines (at_in after) into.old into.new (numbers.after_decl of.table (at_in at) (shown_decl decl.now))
        (spec.decl_tasks of (at_in at) (shown_decl decl.now)) (spec.decl_procedures of (at_in at) (shown_decl decl.now))) }
{
    match decl {
        Decl::Task {
            name,
            head,
            body,
            ..
        } => {
            let (at, routine) = routine_of(alloc, numbered, at, body)?;
            let task = task_of(name, *head, routine)?;
            into.tasks.push(task)?;
            Ok(at)
        }
        Decl::Proc {
            params,
            returns,
            body,
            ..
        } => {
            let (at, routine) = routine_of(alloc, numbered, at, body)?;
            let lengths = numbered.table.lengths();
            let procedure = procedure_of(lengths, params.as_slice(), returns, routine)?;
            into.procedures.push(procedure)?;
            Ok(at)
        }
        Decl::Length { .. } => Ok(at),
        Decl::Type { .. } => Ok(at),
        Decl::Declare { .. } => Ok(at),
        Decl::Specify { .. } => Ok(at),
    }
}

/// The tasks and procedures of these declarations.
pub(crate) fn routines_of(
    alloc: Global,
    numbered: &NumberedTable,
    decls: &[Decl],
) -> Result<Routines, AllocError>
    ensures tasks { IfOk result (λ made. Becomes numbered.now (map plain_task made.tasks.items) (λ of. spec.tasks_in of numbers.first (map shown_decl decls.now))) }
    ensures procedures { IfOk result (λ made. Becomes numbered.now (map plain_procedure made.procedures.items)
        (λ of. spec.procedures_in of numbers.first (map shown_decl decls.now))) }
{
    let mut made = Routines {
        tasks: Vec::new(alloc),
        procedures: Vec::new(alloc),
    };
    let mut here = FIRST;
    for decl in decls {
        here = add_decl(alloc, numbered, here, decl, &mut made)?;
    }
    Ok(made)
}

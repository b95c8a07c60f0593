// The numbers of names, made once as running sums.

ghost use Rattle.std.specs.Prelude.{◌≡◌, ◌+◌, ◌*◌, ◌++◌, ◌∷◌, [], List, map, IfOk, OnOk};
ghost use Rattle.std.specs.List.{sum_by};
ghost use Rattle.pearl_names.specs.Holding.{HoldsAll, HoldsSense, HoldsTable};
ghost use Rattle.pearl_names.specs.Listed.{branches_shown, otherwise_shown, stmts_shown};
ghost use Rattle.pearl_names.specs.Tables as tables;
ghost use Rattle.pearl_names.specs.declared.types.StructForm.{StructForm as StructFormOf};
ghost use Rattle.pearl_tree.specs.ShownModules.{shown_decl, shown_tree};
ghost use Rattle.pearl_tree.specs.ShownStatements.{shown_stmt};
ghost use Rattle.pearl_resolve.specs.Holding.{GoesPast, HoldsNumbered, at_in, numbers_held};
ghost use Rattle.pearl_resolve.specs.Laying as laying;
ghost use Rattle.pearl_resolve.specs.Numbers as spec;
ghost use Rattle.pearl_resolve.specs.Resolve.{numbered_of};

use crate::counter::loop_cells;
use crate::counts::cells_of_sense;
use crate::module_names::module_numbers;
use crate::numbered::{NumberedTable, ScopeNumbers};
use pearl_names::sense::Sense;
use pearl_names::table::SenseTable;
use pearl_names::types::StructForm;
use pearl_resolve_tables::counts::sum;
use pearl_system::device::SpecifiedDevice;
use pearl_tree::parts::Parts;
use pearl_tree::statement::{Body, Branch, Stmt};
use pearl_tree::tree::{Decl, Tree};
use std::alloc::{AllocError, Global};

/// How far the text of a module has come: the number of the next scope, the next cell of the routine, and the next
/// format.
#[derive(Clone, Copy)]
pub(crate) struct At {
    pub next: u32,
    pub cell: u32,
    pub format: u32,
}

/// The first routine.
pub(crate) const FIRST: At = At {
    next: 1,
    cell: 0,
    format: 0,
};

fn own_number(control: u32, cell: u32, sense: &Sense) -> u32
    ensures { (forms : List StructFormOf) (of : tables.Sense) → HoldsSense forms sense.now of → result ≡ spec.own_number control cell of }
{
    match sense {
        Sense::Control(_) => control,
        Sense::Variable { .. } => cell,
        Sense::Parameter(_) => cell,
        Sense::NewType => cell,
        Sense::Semaphore => cell,
        Sense::Interrupt => cell,
        Sense::AlphicDation(_) => cell,
        Sense::BasicDation { .. } => cell,
        Sense::Task => cell,
        Sense::Procedure(_) => cell,
    }
}

// Adds the numbers of the names of a scope whose own cells begin with this one, and answers the cell behind them.
fn add_own_numbers(
    forms: &[StructForm],
    senses: &[Sense],
    control: u32,
    cell: u32,
    into: &mut Vec<u32>,
) -> Result<u32, AllocError>
    ensures cell { IfOk result (λ after. (of : List tables.Sense) → HoldsAll forms.now senses.now of →
        after ≡ cell + sum_by laying.cells_of_sense of) }
    ensures numbers { OnOk result ((of : List tables.Sense) → HoldsAll forms.now senses.now of →
        into.new.items ≡ into.old.items ++ spec.own_numbers control cell of) }
{
    into.reserve_exact(senses.len())?;
    let mut next = cell;
    for sense in senses {
        into.push(own_number(control, next, sense))?;
        let count = cells_of_sense(forms, sense)?;
        next = sum(next, count)?;
    }
    Ok(next)
}

// The numbers of the names of the scope that begins here, where so many cells stand before its own.
fn enter_scope(
    alloc: Global,
    table: &SenseTable,
    hidden: u32,
    at: At,
    into: &mut Vec<ScopeNumbers>,
) -> Result<At, AllocError>
    ensures at { IfOk result (λ within. (t : tables.Table) → HoldsTable table.now t → at_in within ≡ spec.entered t hidden (at_in at)) }
    ensures numbers { OnOk result ((t : tables.Table) → HoldsTable table.now t →
        numbers_held into.new.items ≡ numbers_held into.old.items ++ spec.scope_numbers t hidden (at_in at) ∷ []) }
{
    let senses = table.senses_in(at.next);
    let first = sum(at.cell, hidden)?;
    let mut numbers = Vec::new(alloc);
    let cell = add_own_numbers(table.forms(), senses, at.cell, first, &mut numbers)?;
    into.push(ScopeNumbers { numbers })?;
    Ok(At {
        next: sum(at.next, 1)?,
        cell,
        format: at.format,
    })
}

/// Within the scope that begins here, where so many cells stand before its own, of which there are so many.
pub(crate) fn within(at: At, hidden: u32, own: u32) -> Result<At, AllocError>
    ensures { IfOk result (λ inner. at_in inner ≡ record { next = at.next + 1; cell = at.cell + hidden + own; format = at.format }) }
{
    Ok(At {
        next: sum(at.next, 1)?,
        cell: sum(sum(at.cell, hidden)?, own)?,
        format: at.format,
    })
}

/// A PUT or a GET with so many targets.
pub(crate) fn past_format(at: At, targets: usize) -> Result<At, AllocError>
    ensures { IfOk result (λ after. at_in after ≡ record { next = at.next; cell = at.cell + 2 * targets; format = at.format + 1 }) }
{
    let targets = match u32::try_from(targets) {
        Ok(targets) => targets,
        Err(_) => return Err(AllocError),
    };
    let cell = sum(at.cell, sum(targets, targets)?)?;
    let format = sum(at.format, 1)?;
    Ok(At { cell, format, ..at })
}

#[cycle(statement)]
fn number_stmt(
    alloc: Global,
    table: &SenseTable,
    at: At,
    stmt: &Stmt,
    into: &mut Vec<ScopeNumbers>,
) -> Result<At, AllocError>
    ensures { IfOk result (λ after. (t : tables.Table) → HoldsTable table.now t →
        GoesPast (at_in after) (numbers_held into.old.items) (numbers_held into.new.items)
        (spec.after t (at_in at) (shown_stmt stmt.now)) (spec.numbers_in t (at_in at) (shown_stmt stmt.now))) }
{
    match stmt {
        Stmt::If(part) => {
            let at = number_stmts(alloc, table, at, &part.statements, into)?;
            let at = number_otherwise(alloc, table, at, &part.otherwise, into)?;
            Ok(at)
        }
        Stmt::Case(part) => {
            let at = number_branches(alloc, table, at, &part.alternatives, into)?;
            let at = number_otherwise(alloc, table, at, &part.otherwise, into)?;
            Ok(at)
        }
        Stmt::Repeat(part) => {
            let at = number_body(alloc, table, loop_cells(part), at, &part.body, into)?;
            Ok(at)
        }
        Stmt::Begin(part) => {
            let at = number_body(alloc, table, 0, at, &part.body, into)?;
            Ok(at)
        }
        Stmt::Put(_) => {
            let at = past_format(at, 0)?;
            Ok(at)
        }
        Stmt::Get(part) => {
            let at = past_format(at, part.targets.as_slice().len())?;
            Ok(at)
        }
        Stmt::Empty { .. } => Ok(at),
        Stmt::Assign(_) => Ok(at),
        Stmt::Call(_) => Ok(at),
        Stmt::Exit { .. } => Ok(at),
        Stmt::Return(_) => Ok(at),
        Stmt::Activate(_) => Ok(at),
        Stmt::Continue(_) => Ok(at),
        Stmt::Resume(_) => Ok(at),
        Stmt::OnTask(_) => Ok(at),
        Stmt::OnSemas(_) => Ok(at),
        Stmt::OnInterrupt(_) => Ok(at),
        Stmt::Send(_) => Ok(at),
        Stmt::Take(_) => Ok(at),
    }
}

#[cycle(statement)]
fn number_stmts(
    alloc: Global,
    table: &SenseTable,
    at: At,
    stmts: &Parts<Stmt>,
    into: &mut Vec<ScopeNumbers>,
) -> Result<At, AllocError>
    ensures { IfOk result (λ after. (t : tables.Table) → HoldsTable table.now t →
        GoesPast (at_in after) (numbers_held into.old.items) (numbers_held into.new.items)
        (spec.after_all t (at_in at) (stmts_shown stmts.now.items.items)) (spec.numbers_in_all t (at_in at) (stmts_shown stmts.now.items.items))) }
{
    let mut here = at;
    for stmt in stmts.as_slice() {
        here = number_stmt(alloc, table, here, stmt, into)?;
    }
    Ok(here)
}

#[cycle(statement)]
fn number_branches(
    alloc: Global,
    table: &SenseTable,
    at: At,
    branches: &Parts<Branch>,
    into: &mut Vec<ScopeNumbers>,
) -> Result<At, AllocError>
    ensures { IfOk result (λ after. (t : tables.Table) → HoldsTable table.now t →
        GoesPast (at_in after) (numbers_held into.old.items) (numbers_held into.new.items)
        (spec.after_branches t (at_in at) (branches_shown branches.now.items.items)) (spec.numbers_in_branches t (at_in at) (branches_shown branches.now.items.items))) }
{
    let mut here = at;
    for branch in branches.as_slice() {
        here = number_stmts(alloc, table, here, &branch.statements, into)?;
    }
    Ok(here)
}

#[cycle(statement)]
fn number_otherwise(
    alloc: Global,
    table: &SenseTable,
    at: At,
    otherwise: &Option<Branch>,
    into: &mut Vec<ScopeNumbers>,
) -> Result<At, AllocError>
    ensures { IfOk result (λ after. (t : tables.Table) → HoldsTable table.now t →
        GoesPast (at_in after) (numbers_held into.old.items) (numbers_held into.new.items)
        (spec.after_otherwise t (at_in at) (otherwise_shown otherwise.now)) (spec.numbers_in_otherwise t (at_in at) (otherwise_shown otherwise.now))) }
{
    match otherwise {
        Some(branch) => {
            let at = number_stmts(alloc, table, at, &branch.statements, into)?;
            Ok(at)
        }
        None => Ok(at),
    }
}

// A body, where so many cells stand before its own.
#[cycle(statement)]
fn number_body(
    alloc: Global,
    table: &SenseTable,
    hidden: u32,
    at: At,
    body: &Body,
    into: &mut Vec<ScopeNumbers>,
) -> Result<At, AllocError>
    ensures { IfOk result (λ after. (t : tables.Table) → HoldsTable table.now t →
        GoesPast (at_in after) (numbers_held into.old.items) (numbers_held into.new.items)
        (spec.after_all t (spec.entered t hidden (at_in at)) (stmts_shown body.now.statements.items.items))
        (spec.scope_numbers t hidden (at_in at) ∷ spec.numbers_in_all t (spec.entered t hidden (at_in at)) (stmts_shown body.now.statements.items.items))) }
{
    let at = enter_scope(alloc, table, hidden, at, into)?;
    let at = number_stmts(alloc, table, at, &body.statements, into)?;
    Ok(at)
}

fn number_decl(
    alloc: Global,
    table: &SenseTable,
    at: At,
    decl: &Decl,
    into: &mut Vec<ScopeNumbers>,
) -> Result<At, AllocError>
    ensures { IfOk result (λ after. (t : tables.Table) → HoldsTable table.now t →
        GoesPast (at_in after) (numbers_held into.old.items) (numbers_held into.new.items)
        (spec.after_decl t (at_in at) (shown_decl decl.now)) (spec.decl_numbers t (at_in at) (shown_decl decl.now))) }
{
    match decl {
        Decl::Task { body, .. } => {
            let at = number_body(alloc, table, 0, At { cell: 0, ..at }, body, into)?;
            Ok(at)
        }
        Decl::Proc { body, .. } => {
            let at = number_body(alloc, table, 0, At { cell: 0, ..at }, body, into)?;
            Ok(at)
        }
        Decl::Length { .. } => Ok(at),
        Decl::Type { .. } => Ok(at),
        Decl::Declare { .. } => Ok(at),
        Decl::Specify { .. } => Ok(at),
    }
}

fn number_decls(
    alloc: Global,
    table: &SenseTable,
    decls: &[Decl],
    into: &mut Vec<ScopeNumbers>,
) -> Result<(), AllocError>
    ensures { OnOk result ((t : tables.Table) → HoldsTable table.now t →
        numbers_held into.new.items ≡ numbers_held into.old.items ++ spec.decls_numbers t spec.first (map shown_decl decls.now)) }
{
    let mut here = FIRST;
    for decl in decls {
        here = number_decl(alloc, table, here, decl, into)?;
    }
    Ok(())
}

fn numbers_of(
    alloc: Global,
    table: &SenseTable,
    devices: &[SpecifiedDevice],
    procedures: &[u32],
    tree: &Tree,
) -> Result<Vec<ScopeNumbers>, AllocError>
    ensures { IfOk result (λ numbers. (t : tables.Table) → HoldsTable table.now t →
        numbers_held numbers.items ≡ spec.numbers_of t devices.now procedures.now (shown_tree tree.now)) }
{
    let entries = table.names_in(0);
    let senses = table.senses_in(0);
    let own = module_numbers(alloc, table.forms(), devices, procedures, entries, senses)?;
    let mut numbers = Vec::new(alloc);
    numbers.push(ScopeNumbers { numbers: own })?;
    number_decls(alloc, table, tree.declarations.as_slice(), &mut numbers)?;
    Ok(numbers)
}

/// The table of names of a module with the number of each name, where these are its devices and its procedures have
/// these numbers in order of declaration. A number beyond 2^32 - 1 counts as want of memory.
pub fn numbered(
    alloc: Global,
    table: SenseTable,
    devices: &[SpecifiedDevice],
    procedures: &[u32],
    tree: &Tree,
) -> Result<NumberedTable, AllocError>
    ensures { IfOk result (λ made. (t : tables.Table) → HoldsTable table t →
        HoldsNumbered made (numbered_of t devices.now procedures.now (shown_tree tree.now))) }
{
    let numbers = numbers_of(alloc, &table, devices, procedures, tree)?;
    Ok(NumberedTable { table, numbers })
}

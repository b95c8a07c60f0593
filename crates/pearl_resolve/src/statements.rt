// What statements become, with the cells that they have and how far the text has come behind them.

ghost use Rattle.std.specs.Prelude.{◌≡◌, ◌++◌, ◌∷◌, [], List, Ok, map, IfOk};
ghost use Rattle.pearl_value.specs.declared.kind.CellKind.{CellKind as CellKindOf};
ghost use Rattle.pearl_program.specs.declared.statement.Stmt.{Stmt as StmtOf};
ghost use Rattle.pearl_names.specs.Listed.{branches_shown, otherwise_shown, stmts_shown};
ghost use Rattle.pearl_tree.specs.ShownStatements.{shown_body_decl, shown_stmt};
ghost use Rattle.pearl_resolve.specs.Holding.{AddsBody, AddsBranches, AddsOtherwise, AddsStmt, AddsStmts};
ghost use Rattle.pearl_resolve.specs.Parts.{shown_case, shown_get, shown_if, shown_put, shown_repeat};

use crate::cells::{add_counter_cells, add_scope_cells};
use crate::counter::{counter_in, loop_cells};
use crate::nodes::{case_stmt, if_stmt, repeat_stmt};
use crate::numbered::NumberedTable;
use crate::numbers::{At, past_format, within};
use crate::renewals::add_renewals;
use crate::schedule::{value_if, value_in};
use crate::simple::{
    activate, assign, call_of, continue_of, get, on_interrupt, on_semaphores, on_task, put, resume,
    return_of, send, take,
};
use pearl_names::scope::View;
use pearl_program::statement::{Branch, Stmt};
use pearl_tree::parts::Parts;
use pearl_tree::statement::{self as tree, Stmt as Written};
use pearl_value::kind::CellKind;
use std::alloc::{AllocError, Global};

// Adds a statement behind others, once it is made.
fn add_made(at: At, made: Result<Stmt, AllocError>, into: &mut Vec<Stmt>) -> Result<At, AllocError>
    ensures { IfOk result (λ after. (s : StmtOf) × (made ≡ Ok s) × (after ≡ at) × (into.new.items ≡ into.old.items ++ s ∷ [])) }
{
    into.push(made?)?;
    Ok(at)
}

fn add_put(
    alloc: Global,
    numbered: &NumberedTable,
    scope: u32,
    at: At,
    part: &tree::Put,
    into: &mut Vec<Stmt>,
) -> Result<At, AllocError>
    ensures { IfOk result (λ after. (cells : List CellKindOf) → AddsStmt numbered.now scope at (shown_put part.now) after
        cells cells into.old.items into.new.items) }
{
    let made = put(alloc, numbered, scope, at, part)?;
    into.push(made)?;
    past_format(at, 0)
}

fn add_get(
    alloc: Global,
    numbered: &NumberedTable,
    scope: u32,
    at: At,
    part: &tree::Get,
    cells: &mut Vec<CellKind>,
    into: &mut Vec<Stmt>,
) -> Result<At, AllocError>
    ensures { IfOk result (λ after. AddsStmt numbered.now scope at (shown_get part.now) after
        cells.old.items cells.new.items into.old.items into.new.items) }
{
    let made = get(alloc, numbered, scope, at, part, cells)?;
    into.push(made)?;
    past_format(at, part.targets.as_slice().len())
}

/// Adds what a statement becomes behind others, with its cells.
#[cycle(statement)]
pub(crate) fn add_stmt(
    alloc: Global,
    numbered: &NumberedTable,
    scope: u32,
    at: At,
    stmt: &tree::Stmt,
    cells: &mut Vec<CellKind>,
    into: &mut Vec<Stmt>,
) -> Result<At, AllocError>
    ensures { IfOk result (λ after. AddsStmt numbered.now scope at (shown_stmt stmt.now) after
        cells.old.items cells.new.items into.old.items into.new.items) }
{
    match stmt {
        Written::If(part) => add_if(alloc, numbered, scope, at, part, cells, into),
        Written::Case(part) => add_case(alloc, numbered, scope, at, part, cells, into),
        Written::Repeat(part) => add_repeat(alloc, numbered, scope, at, part, cells, into),
        Written::Begin(part) => add_body(alloc, numbered, 0, at, &part.body, cells, into),
        Written::Put(part) => add_put(alloc, numbered, scope, at, part, into),
        Written::Get(part) => add_get(alloc, numbered, scope, at, part, cells, into),
        Written::Empty { .. } => Ok(at),
        Written::Assign(part) => add_made(at, assign(alloc, numbered, scope, part), into),
        Written::Call(part) => add_made(at, call_of(alloc, numbered, scope, part), into),
        Written::Exit { .. } => add_made(at, Ok(Stmt::Exit), into),
        Written::Return(part) => add_made(at, return_of(alloc, numbered, scope, part), into),
        Written::Activate(part) => add_made(at, activate(alloc, numbered, scope, part), into),
        Written::Continue(part) => add_made(at, continue_of(alloc, numbered, scope, part), into),
        Written::Resume(part) => add_made(at, resume(alloc, numbered, scope, part), into),
        Written::OnTask(part) => add_made(at, Ok(on_task(numbered, scope, part)), into),
        Written::OnSemas(part) => add_made(at, on_semaphores(alloc, numbered, scope, part), into),
        Written::OnInterrupt(part) => add_made(at, Ok(on_interrupt(numbered, scope, part)), into),
        Written::Send(part) => add_made(at, send(alloc, numbered, scope, part), into),
        Written::Take(part) => add_made(at, take(alloc, numbered, scope, part), into),
    }
}

#[cycle(statement)]
fn add_if(
    alloc: Global,
    numbered: &NumberedTable,
    scope: u32,
    at: At,
    part: &tree::If,
    cells: &mut Vec<CellKind>,
    into: &mut Vec<Stmt>,
) -> Result<At, AllocError>
    ensures { IfOk result (λ after. AddsStmt numbered.now scope at (shown_if part.now) after
        cells.old.items cells.new.items into.old.items into.new.items) }
{
    let condition = value_in(alloc, numbered, scope, &part.condition)?;
    let mut statements = Vec::new(alloc);
    let at = add_stmts(
        alloc,
        numbered,
        scope,
        at,
        &part.statements,
        cells,
        &mut statements,
    )?;
    let mut otherwise = Vec::new(alloc);
    let at = add_otherwise(
        alloc,
        numbered,
        scope,
        at,
        &part.otherwise,
        cells,
        &mut otherwise,
    )?;
    let made = if_stmt(alloc, condition, statements, otherwise)?;
    into.push(made)?;
    Ok(at)
}

#[cycle(statement)]
fn add_case(
    alloc: Global,
    numbered: &NumberedTable,
    scope: u32,
    at: At,
    part: &tree::Case,
    cells: &mut Vec<CellKind>,
    into: &mut Vec<Stmt>,
) -> Result<At, AllocError>
    ensures { IfOk result (λ after. AddsStmt numbered.now scope at (shown_case part.now) after
        cells.old.items cells.new.items into.old.items into.new.items) }
{
    let selector = value_in(alloc, numbered, scope, &part.selector)?;
    let mut alternatives = Vec::new(alloc);
    let at = add_branches(
        alloc,
        numbered,
        scope,
        at,
        &part.alternatives,
        cells,
        &mut alternatives,
    )?;
    let mut otherwise = Vec::new(alloc);
    let at = add_otherwise(
        alloc,
        numbered,
        scope,
        at,
        &part.otherwise,
        cells,
        &mut otherwise,
    )?;
    let made = case_stmt(alloc, selector, alternatives, otherwise)?;
    into.push(made)?;
    Ok(at)
}

#[cycle(statement)]
fn add_repeat(
    alloc: Global,
    numbered: &NumberedTable,
    scope: u32,
    at: At,
    part: &tree::Repeat,
    cells: &mut Vec<CellKind>,
    into: &mut Vec<Stmt>,
) -> Result<At, AllocError>
    ensures { IfOk result (λ after. AddsStmt numbered.now scope at (shown_repeat part.now) after
        cells.old.items cells.new.items into.old.items into.new.items) }
{
    let counter = counter_in(alloc, numbered, scope, at, part)?;
    let condition = value_if(alloc, numbered, View::WhileOf(at.next), &part.condition)?;
    add_counter_cells(numbered.table.lengths(), part, cells)?;
    let hidden = loop_cells(part);
    let mut statements = Vec::new(alloc);
    let at = add_body(
        alloc,
        numbered,
        hidden,
        at,
        &part.body,
        cells,
        &mut statements,
    )?;
    let made = repeat_stmt(alloc, counter, condition, statements)?;
    into.push(made)?;
    Ok(at)
}

/// Adds what a body becomes whose scope begins here, where so many cells stand before its own.
#[cycle(statement)]
pub(crate) fn add_body(
    alloc: Global,
    numbered: &NumberedTable,
    hidden: u32,
    at: At,
    body: &tree::Body,
    cells: &mut Vec<CellKind>,
    into: &mut Vec<Stmt>,
) -> Result<At, AllocError>
    ensures { IfOk result (λ after. AddsBody numbered.now hidden at (map shown_body_decl body.now.declarations.items.items)
        (stmts_shown body.now.statements.items.items) after cells.old.items cells.new.items into.old.items into.new.items) }
{
    let scope = at.next;
    let own = add_scope_cells(alloc, &numbered.table, scope, cells)?;
    add_renewals(alloc, numbered, scope, body.declarations.as_slice(), into)?;
    let inner = within(at, hidden, own)?;
    let at = add_stmts(alloc, numbered, scope, inner, &body.statements, cells, into)?;
    Ok(at)
}

/// Adds what statements become, one after the other.
#[cycle(statement)]
pub(crate) fn add_stmts(
    alloc: Global,
    numbered: &NumberedTable,
    scope: u32,
    at: At,
    stmts: &Parts<tree::Stmt>,
    cells: &mut Vec<CellKind>,
    into: &mut Vec<Stmt>,
) -> Result<At, AllocError>
    ensures { IfOk result (λ after. AddsStmts numbered.now scope at (stmts_shown stmts.now.items.items) after
        cells.old.items cells.new.items into.old.items into.new.items) }
{
    let mut here = at;
    for stmt in stmts.as_slice() {
        here = add_stmt(alloc, numbered, scope, here, stmt, cells, into)?;
    }
    Ok(here)
}

#[cycle(statement)]
fn add_branches(
    alloc: Global,
    numbered: &NumberedTable,
    scope: u32,
    at: At,
    branches: &Parts<tree::Branch>,
    cells: &mut Vec<CellKind>,
    into: &mut Vec<Branch>,
) -> Result<At, AllocError>
    ensures { IfOk result (λ after. AddsBranches numbered.now scope at (branches_shown branches.now.items.items) after
        cells.old.items cells.new.items into.old.items into.new.items) }
{
    let mut here = at;
    for branch in branches.as_slice() {
        let mut statements = Vec::new(alloc);
        here = add_stmts(
            alloc,
            numbered,
            scope,
            here,
            &branch.statements,
            cells,
            &mut statements,
        )?;
        into.push(Branch { statements })?;
    }
    Ok(here)
}

#[cycle(statement)]
fn add_otherwise(
    alloc: Global,
    numbered: &NumberedTable,
    scope: u32,
    at: At,
    otherwise: &Option<tree::Branch>,
    cells: &mut Vec<CellKind>,
    into: &mut Vec<Stmt>,
) -> Result<At, AllocError>
    ensures { IfOk result (λ after. AddsOtherwise numbered.now scope at (otherwise_shown otherwise.now) after
        cells.old.items cells.new.items into.old.items into.new.items) }
{
    match otherwise {
        Some(branch) => {
            let at = add_stmts(alloc, numbered, scope, at, &branch.statements, cells, into)?;
            Ok(at)
        }
        None => Ok(at),
    }
}

// The code of statements. The places of jumps behind the innermost loop are noted as they are emitted, and those behind
// CASE: of a loop's code its head alone is gone through once more.

ghost use Rattle.std.specs.Prelude.{◌≡◌, ℕ, List, None, length, OnOk, IfOk};
ghost use Rattle.pearl_program.specs.PlainStatements.{plain_stmt, plain_stmts, OfExit, plain_branches};
ghost use Rattle.pearl_program.specs.PlainPrograms.{plain_prog, plain_routine};
ghost use Rattle.pearl_meaning.specs.Setting.{Setting};
ghost use Rattle.pearl_gen_expr.specs.Emitting.{Extends};
ghost use Rattle.pearl_gen_stmt.specs.StmtCode.{on_task, Alone, StmtsAt};
ghost use Rattle.pearl_instructions.specs.declared.instr.Instr as instr_type;
ghost use Rattle.pearl_instructions.specs.declared.instr.Instr.TheVariants as instr;
ghost use Rattle.pearl_gen_stmt.specs.Generated.{within_program};
ghost use Rattle.pearl_gen_stmt.specs.Emission.{setting_of, plain_if, plain_case, plain_repeat, Notes, Adds, AddsElse, AddsStmt, AddsStmts, AddsBranches};

use crate::get::emit_get;
use crate::loops::{emit_advance, emit_begins, emit_counts, emit_while};
use crate::pending::{Pending, emit, emit_pending, note, put, settle_at, settle_between};
use crate::renewal::emit_renew;
use crate::schedule::{emit_activate, emit_continue, emit_resume};
use crate::site::Site;
use crate::transfer::{emit_assign, emit_call_of, emit_put, emit_return, emit_send, emit_take};
use arrayvec::ArrayVec;
use pearl_gen_expr::expression::emit_expr;
use pearl_instructions::boxed::Boxed;
use pearl_instructions::instr::Instr;
use pearl_program::program::{Program, Routine};
use pearl_program::statement::{Branch, Case, If, Repeat, Stmt};
use pearl_value::kind::Kind;
use pearl_value::listing::Listing;
use std::alloc::{AllocError as NoMemory, Global};

fn suspending(task: Option<u32>) -> Instr
    ensures { result ≡ on_task instr.Suspend instr.SuspendOwn task }
{
    match task {
        Some(task) => Instr::Suspend(u64::from(task)),
        None => Instr::SuspendOwn,
    }
}

fn terminating(task: Option<u32>) -> Instr
    ensures { result ≡ on_task instr.Terminate instr.TerminateOwn task }
{
    match task {
        Some(task) => Instr::Terminate(u64::from(task)),
        None => Instr::TerminateOwn,
    }
}

fn preventing(task: Option<u32>) -> Instr
    ensures { result ≡ on_task instr.Prevent instr.PreventOwn task }
{
    match task {
        Some(task) => Instr::Prevent(u64::from(task)),
        None => Instr::PreventOwn,
    }
}

fn listed(alloc: Global, numbers: &[u16]) -> Result<Boxed<Listing<u64>>, NoMemory>
    ensures { IfOk result (λ list. list ≡ numbers.now) }
{
    let mut list = Vec::new(alloc);
    for number in numbers {
        list.push(u64::from(*number))?;
    }
    let boxed = Boxed::new(alloc, Listing::new(list))?;
    Ok(boxed)
}

fn emit_request(
    alloc: Global,
    code: &mut Vec<Instr>,
    numbers: &ArrayVec<u16, 16>,
) -> Result<(), NoMemory>
    ensures added { OnOk result ((setting : Setting) → Adds (λ code from to. Alone setting code from (instr.Request numbers.now.items) to) code.old.items code.new.items) }
    ensures kept { Extends code.old.items code.new.items }
{
    let list = listed(alloc, numbers.as_slice())?;
    emit(code, Instr::Request(list))?;
    Ok(())
}

fn emit_release(
    alloc: Global,
    code: &mut Vec<Instr>,
    numbers: &ArrayVec<u16, 16>,
) -> Result<(), NoMemory>
    ensures added { OnOk result ((setting : Setting) → Adds (λ code from to. Alone setting code from (instr.Release numbers.now.items) to) code.old.items code.new.items) }
    ensures kept { Extends code.old.items code.new.items }
{
    let list = listed(alloc, numbers.as_slice())?;
    emit(code, Instr::Release(list))?;
    Ok(())
}

fn emit_exit(site: Site<'_>, code: &mut Vec<Instr>, exits: &mut Vec<usize>) -> Result<(), NoMemory>
    ensures added { OnOk result (AddsStmt (setting_of site.entry.program.now site.entry.result site.entry.routine.now) site.entry.in_loop exits.new.items OfExit code.old.items code.new.items) }
    ensures kept { Extends code.old.items code.new.items }
    ensures noted { Notes exits.old.items exits.new.items }
{
    if !site.in_loop {
        return Err(NoMemory);
    }
    note(exits, code.len())?;
    emit_pending(code, Pending::Exit)?;
    Ok(())
}

#[cycle(statement)]
fn emit_stmt(
    alloc: Global,
    site: Site<'_>,
    code: &mut Vec<Instr>,
    exits: &mut Vec<usize>,
    stmt: &Stmt,
) -> Result<(), NoMemory>
    ensures added { OnOk result (AddsStmt (setting_of site.entry.program.now site.entry.result site.entry.routine.now) site.entry.in_loop exits.new.items (plain_stmt stmt.now) code.old.items code.new.items) }
    ensures kept { Extends code.old.items code.new.items }
    ensures noted { Notes exits.old.items exits.new.items }
{
    match stmt {
        Stmt::Renew(part) => emit_renew(alloc, code, part),
        Stmt::Assign(part) => emit_assign(alloc, site, code, part),
        Stmt::Call(call) => emit_call_of(alloc, site, code, call),
        Stmt::If(part) => emit_if(alloc, site, code, exits, part),
        Stmt::Case(part) => emit_case(alloc, site, code, exits, part),
        Stmt::Repeat(part) => emit_repeat(alloc, site, code, part),
        Stmt::Exit => emit_exit(site, code, exits),
        Stmt::Return(part) => emit_return(alloc, site, code, part),
        Stmt::Activate(part) => emit_activate(alloc, site, code, part),
        Stmt::Continue(part) => emit_continue(alloc, site, code, part),
        Stmt::Resume(once) => emit_resume(alloc, site, code, once),
        Stmt::Suspend(task) => emit(code, suspending(*task)),
        Stmt::Terminate(task) => emit(code, terminating(*task)),
        Stmt::Prevent(task) => emit(code, preventing(*task)),
        Stmt::Request(numbers) => emit_request(alloc, code, numbers),
        Stmt::Release(numbers) => emit_release(alloc, code, numbers),
        Stmt::Enable(interrupt) => emit(code, Instr::Enable(u64::from(*interrupt))),
        Stmt::Disable(interrupt) => emit(code, Instr::Disable(u64::from(*interrupt))),
        Stmt::Trigger(interrupt) => emit(code, Instr::Trigger(u64::from(*interrupt))),
        Stmt::Put(part) => emit_put(alloc, site, code, part),
        Stmt::Get(part) => emit_get(alloc, site, code, part),
        Stmt::Send(part) => emit_send(alloc, site, code, part),
        Stmt::Take(part) => emit_take(alloc, site, code, part),
    }
}

#[cycle(statement)]
fn emit_stmts(
    alloc: Global,
    site: Site<'_>,
    code: &mut Vec<Instr>,
    exits: &mut Vec<usize>,
    stmts: &[Stmt],
) -> Result<(), NoMemory>
    ensures added { OnOk result (AddsStmts (setting_of site.entry.program.now site.entry.result site.entry.routine.now) site.entry.in_loop exits.new.items (plain_stmts stmts.now) code.old.items code.new.items) }
    ensures kept { Extends code.old.items code.new.items }
    ensures noted { Notes exits.old.items exits.new.items }
{
    for stmt in stmts {
        emit_stmt(alloc, site, code, exits, stmt)?;
    }
    Ok(())
}

#[cycle(statement)]
fn emit_if(
    alloc: Global,
    site: Site<'_>,
    code: &mut Vec<Instr>,
    exits: &mut Vec<usize>,
    part: &If,
) -> Result<(), NoMemory>
    ensures added { OnOk result (AddsStmt (setting_of site.entry.program.now site.entry.result site.entry.routine.now) site.entry.in_loop exits.new.items (plain_if part.now) code.old.items code.new.items) }
    ensures kept { Extends code.old.items code.new.items }
    ensures noted { Notes exits.old.items exits.new.items }
{
    emit_expr(alloc, site.program, code, &part.condition)?;
    let tested = code.len();
    emit_pending(code, Pending::Branch)?;
    emit_stmts(alloc, site, code, exits, part.statements.as_slice())?;
    let other = emit_else(alloc, site, code, exits, part.otherwise.as_slice())?;
    put(code, tested, Instr::JumpZero(other));
    Ok(())
}

// ELSE, if there is one, and where the code of what isn't tested begins.
#[cycle(statement)]
fn emit_else(
    alloc: Global,
    site: Site<'_>,
    code: &mut Vec<Instr>,
    exits: &mut Vec<usize>,
    otherwise: &[Stmt],
) -> Result<u64, NoMemory>
    ensures added { IfOk result (λ other. AddsElse (setting_of site.entry.program.now site.entry.result site.entry.routine.now) site.entry.in_loop exits.new.items other (plain_stmts otherwise.now) code.old.items code.new.items) }
    ensures kept { Extends code.old.items code.new.items }
    ensures noted { Notes exits.old.items exits.new.items }
{
    let end = code.len();
    if otherwise.is_empty() {
        return Ok(end as u64);
    }
    emit_pending(code, Pending::Branch)?;
    emit_stmts(alloc, site, code, exits, otherwise)?;
    let to = code.len() as u64;
    put(code, end, Instr::Jump(to));
    Ok(end as u64 + 1)
}

#[cycle(statement)]
fn emit_case(
    alloc: Global,
    site: Site<'_>,
    code: &mut Vec<Instr>,
    exits: &mut Vec<usize>,
    part: &Case,
) -> Result<(), NoMemory>
    ensures added { OnOk result (AddsStmt (setting_of site.entry.program.now site.entry.result site.entry.routine.now) site.entry.in_loop exits.new.items (plain_case part.now) code.old.items code.new.items) }
    ensures kept { Extends code.old.items code.new.items }
    ensures noted { Notes exits.old.items exits.new.items }
{
    emit_expr(alloc, site.program, code, &part.selector)?;
    let selected = code.len();
    emit_pending(code, Pending::Branch)?;
    emit_stmts(alloc, site, code, exits, part.otherwise.as_slice())?;
    let end = code.len();
    let mut ends = Vec::new(alloc);
    note(&mut ends, end)?;
    emit_pending(code, Pending::Branch)?;
    let alternatives = part.alternatives.as_slice();
    let places = emit_branches(alloc, site, code, exits, &mut ends, alternatives)?;
    let targets = Boxed::new(alloc, Listing::new(places))?;
    let to = code.len() as u64;
    settle_at(code, end, ends.as_slice(), Pending::Branch, to);
    put(code, selected, Instr::Case(targets));
    Ok(())
}

// The alternatives of CASE, and where the code of each begins.
#[cycle(statement)]
fn emit_branches(
    alloc: Global,
    site: Site<'_>,
    code: &mut Vec<Instr>,
    exits: &mut Vec<usize>,
    ends: &mut Vec<usize>,
    branches: &[Branch],
) -> Result<Vec<u64>, NoMemory>
    ensures added { IfOk result (λ places. AddsBranches (setting_of site.entry.program.now site.entry.result site.entry.routine.now) site.entry.in_loop exits.new.items places.items ends.new.items (plain_branches branches.now) code.old.items code.new.items) }
    ensures kept { Extends code.old.items code.new.items }
    ensures noted { Notes exits.old.items exits.new.items }
    ensures ended { Notes ends.old.items ends.new.items }
{
    let mut places = Vec::new(alloc);
    for branch in branches {
        places.push(code.len() as u64)?;
        emit_stmts(alloc, site, code, exits, branch.statements.as_slice())?;
        note(ends, code.len())?;
        emit_pending(code, Pending::Branch)?;
    }
    Ok(places)
}

#[cycle(statement)]
fn emit_repeat(
    alloc: Global,
    site: Site<'_>,
    code: &mut Vec<Instr>,
    part: &Repeat,
) -> Result<(), NoMemory>
    ensures added { OnOk result ((places : List ℕ) → AddsStmt (setting_of site.entry.program.now site.entry.result site.entry.routine.now) site.entry.in_loop places (plain_repeat part.now) code.old.items code.new.items) }
    ensures kept { Extends code.old.items code.new.items }
{
    emit_begins(alloc, site, code, &part.counter)?;
    let top = code.len();
    emit(code, Instr::Turn)?;
    emit_counts(code, &part.counter)?;
    emit_while(alloc, site, code, &part.condition)?;
    let tested = code.len();
    let mut exits = Vec::new(alloc);
    let within = Site {
        program: site.program,
        routine: site.routine,
        result: site.result,
        in_loop: true,
    };
    emit_stmts(alloc, within, code, &mut exits, part.statements.as_slice())?;
    emit_advance(code, top as u64, &part.counter)?;
    let past = code.len() as u64;
    settle_at(code, top, exits.as_slice(), Pending::Exit, past);
    settle_between(code, top, tested, Pending::Test, past);
    Ok(())
}

/// Adds the code of a routine's statements, which stands there whatever comes behind it. After want of memory the old
/// instructions still stand in front. EXIT where no loop stands around, a number that names nothing and a cell of another
/// sort count as want of memory.
pub fn emit_statements(
    alloc: Global,
    program: &Program,
    routine: &Routine,
    returns: Option<Kind>,
    code: &mut Vec<Instr>,
) -> Result<(), NoMemory>
    ensures stands { OnOk result ((later : List instr_type.Instr) → Extends code.new.items later → StmtsAt (within_program (plain_prog program.now) returns (plain_routine routine.now)) later None (length code.old.items) (plain_stmts routine.now.body.items) (length code.new.items)) }
    ensures kept { Extends code.old.items code.new.items }
{
    let site = Site {
        program,
        routine,
        result: returns,
        in_loop: false,
    };
    let mut exits = Vec::new(alloc);
    emit_stmts(alloc, site, code, &mut exits, routine.body.as_slice())?;
    Ok(())
}

// What the statements of a task or procedure come to: their needs, the cells of loops and GETs, and the procedures called.

ghost use Rattle.std.specs.Prelude.{◌≡◌, ◌+◌, ◌++◌, length, max, IfOk, OnOk};
ghost use Rattle.std.specs.List.{flat_map};
ghost use Rattle.pearl_tree.specs.ShownStatements.{shown_stmt};
ghost use Rattle.pearl_names.specs.Counts.{cut};
ghost use Rattle.pearl_names.specs.Holding.{HoldsTable};
ghost use Rattle.pearl_names.specs.Tables as tables;
ghost use Rattle.pearl_scope.specs.Placed.{placed_at, placed_in};
ghost use Rattle.pearl_check.specs.Asked.{asked_in};
ghost use Rattle.pearl_check.specs.Calling.{calls_of_part, calls_of_place};
ghost use Rattle.pearl_check.specs.Calls.{asked_pieces};
ghost use Rattle.pearl_check.specs.Sizes as spec;

use crate::asked::{Asked, add_asked};
use crate::cut::{cut, cut_sum};
use crate::procedures::{Procedures, add_calls};
use pearl_names::table::SenseTable;
use pearl_scope::places::Place;
use pearl_tree::statement::{Repeat, Stmt};
use std::alloc::{AllocError as NoMemory, Global};

/// What the statements of a task or procedure come to.
#[derive(Drop)]
pub struct Tally {
    /// What a statement needs at most beside the cells, 2 where there is none, cut off at 2^31.
    pub need: u32,
    /// The cells of loops with a counter and of the targets of GET, cut off at 2^31.
    pub hidden: u32,
    /// The procedures called, by their numbers, in the order of the text.
    pub calls: Vec<u32>,
}

fn has_counter(part: &Repeat) -> bool
    ensures { result ≡ spec.has_counter part.now.control part.now.begin part.now.step part.now.end }
{
    part.control.is_some() || part.begin.is_some() || part.step.is_some() || part.end.is_some()
}

fn hidden_cells(stmt: &Stmt) -> u32
    ensures { result ≡ cut (spec.hidden_cells (shown_stmt stmt.now)) }
{
    match stmt {
        Stmt::Repeat(part) => { if has_counter(part) { 3 } else { 0 } }
        Stmt::Get(part) => cut(2 * part.targets.as_slice().len() as u64),
        Stmt::Assign(_) => 0,
        Stmt::Exit { .. } => 0,
        Stmt::If(_) => 0,
        Stmt::Case(_) => 0,
        Stmt::Begin(_) => 0,
        Stmt::Empty { .. } => 0,
        Stmt::Call(_) => 0,
        Stmt::Return(_) => 0,
        Stmt::Activate(_) => 0,
        Stmt::Continue(_) => 0,
        Stmt::Resume(_) => 0,
        Stmt::OnTask(_) => 0,
        Stmt::OnSemas(_) => 0,
        Stmt::OnInterrupt(_) => 0,
        Stmt::Put(_) => 0,
        Stmt::Send(_) => 0,
        Stmt::Take(_) => 0,
    }
}

// Of how many pieces the expressions of these parts are made, cut off at 2^31.
fn add_parts(
    alloc: Global,
    table: &SenseTable,
    procedures: &Procedures,
    calls: &mut Vec<u32>,
    asked: &[Asked<'_>],
) -> Result<u32, NoMemory>
    ensures pieces { IfOk result (λ count. count ≡ cut (length (flat_map asked_pieces (asked_in asked.now)))) }
    ensures calls { OnOk result ((t : tables.Table) → HoldsTable table.now t →
        calls.new.items ≡ calls.old.items ++ flat_map (calls_of_part t procedures.now) (asked_in asked.now)) }
{
    let mut pieces = 0;
    for part in asked {
        let more = add_calls(alloc, table, procedures, calls, part)?;
        pieces = cut_sum(pieces, cut(more as u64));
    }
    Ok(pieces)
}

fn add_place(
    alloc: Global,
    table: &SenseTable,
    procedures: &Procedures,
    tally: &mut Tally,
    place: &Place<'_>,
) -> Result<(), NoMemory>
    ensures need { OnOk result (tally.new.need ≡ max tally.old.need (cut (spec.need (placed_at place.now)))) }
    ensures hidden { OnOk result (tally.new.hidden ≡ cut (tally.old.hidden + cut (spec.hidden_cells (placed_at place.now).statement))) }
    ensures calls { OnOk result ((t : tables.Table) → HoldsTable table.now t →
        tally.new.calls.items ≡ tally.old.calls.items ++ calls_of_place t procedures.now (placed_at place.now)) }
{
    let mut asked = Vec::new(alloc);
    add_asked(&mut asked, place)?;
    let pieces = add_parts(alloc, table, procedures, &mut tally.calls, asked.as_slice())?;
    tally.need = u32::max(tally.need, cut_sum(2, pieces));
    tally.hidden = cut_sum(tally.hidden, hidden_cells(place.stmt));
    Ok(())
}

/// The tally of these statements.
pub fn tally_places(
    alloc: Global,
    table: &SenseTable,
    procedures: &Procedures,
    places: &[Place<'_>],
) -> Result<Tally, NoMemory>
    ensures need { IfOk result (λ tally. tally.need ≡ cut (spec.greatest_need (placed_in places.now))) }
    ensures hidden { IfOk result (λ tally.
        tally.hidden ≡ cut (spec.all_hidden (placed_in places.now))) }
    ensures calls { IfOk result (λ tally. (t : tables.Table) → HoldsTable table.now t →
        tally.calls.items ≡ flat_map (calls_of_place t procedures.now) (placed_in places.now)) }
{
    let mut tally = Tally {
        need: 2,
        hidden: 0,
        calls: Vec::new(alloc),
    };
    for place in places {
        add_place(alloc, table, procedures, &mut tally, place)?;
    }
    Ok(tally)
}

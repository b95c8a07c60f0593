// Exact kinds, ranges of one kind, and cells that must be no references.

ghost use Rattle.std.specs.Prelude.{◌≡◌, map, slice_get};
ghost use Rattle.pearl_instructions.specs.Named.{range_of, cells_at};
ghost use Rattle.pearl_instructions.specs.Kinds.{has_on_top, suits_reference, suits_parameters, is_uniform, are_fixed, first_kind, suits_exactly, v4, v5};
ghost use Rattle.pearl_verify.specs.Runs.{HoldsRuns};
ghost use Rattle.pearl_verify.specs.Formats.{format_row};

use crate::formats::FormatRow;
use crate::kinds::Kinds;
use crate::runs::CellRuns;
use crate::same::{is_fixed, is_kind, referred, same_cell, same_list};
use crate::table::{cells_at, data_count, kind_sent, leaf_kind};
use pearl_instructions::instr::Instr;
use pearl_instructions::object::{Code, Parts};
use pearl_value::kind::{CellKind, Kind};

fn has_on_top(kinds: &Kinds, want: Option<CellKind>) -> bool
    ensures { result ≡ has_on_top kinds.now want }
{
    match kinds.at(0) {
        Some(kind) => is_kind(kind, want),
        None => false,
    }
}

fn suits_reference(kinds: &Kinds) -> bool
    ensures { result ≡ suits_reference kinds.now }
{
    match (kinds.at(1), kinds.at(0)) {
        (Some(reference), Some(value)) => same_cell(value, referred(reference)),
        _ => false,
    }
}

fn suits_parameters(object: &Parts, procedure: u64, kinds: &Kinds) -> bool
    ensures { result ≡ suits_parameters (slice_get object.now.procedures procedure) kinds.now }
{
    match object.procedures.as_slice().get(procedure as usize) {
        Some(callee) => same_list(
            kinds.top(callee.params as usize),
            cells_at(&callee.code, 0, callee.params),
        ),
        None => false,
    }
}

fn are_fixed(cells: &[CellKind]) -> bool
    ensures { result ≡ are_fixed cells.now }
{
    for kind in cells {
        if !is_fixed(*kind) {
            return false;
        }
    }
    true
}

/// The kind of the first cell of a range.
fn first_kind(code: &Code, first: u64, count: u64) -> Option<CellKind>
    ensures { result ≡ first_kind (cells_at code.now first count) }
{
    cells_at(code, first, count).first().copied()
}

// The cells of a loop are three.
fn is_uniform(code: &Code, runs: &CellRuns, instr: &Instr) -> bool
    requires { HoldsRuns code.now.cells runs.now }
    ensures { result ≡ is_uniform (range_of code.now instr.now) }
{
    match instr {
        Instr::Store(cell) | Instr::RefCell(cell) => runs.is_uniform(code, *cell, 1),
        Instr::Fill { first, count, .. } => runs.is_uniform(code, *first, *count),
        Instr::LoadAt { first, count }
        | Instr::StoreAt { first, count }
        | Instr::RefCellAt { first, count } => runs.is_uniform(code, *first, *count),
        Instr::Within(first) => runs.is_uniform(code, *first, 3),
        Instr::Advance { first, .. } => runs.is_uniform(code, *first, 3),
        _ => true,
    }
}

fn suits_exactly(object: &Parts, code: &Code, instr: &Instr, kinds: &Kinds) -> bool
    ensures { result ≡ suits_exactly object.now code.now instr.now kinds.now }
{
    match instr {
        Instr::Store(cell) => has_on_top(kinds, first_kind(code, *cell, 1)),
        Instr::StoreAt { first, count } => has_on_top(kinds, first_kind(code, *first, *count)),
        Instr::Fill { first, count, kind } => {
            is_kind(CellKind::Plain(*kind), first_kind(code, *first, *count))
        }
        Instr::Write(leaf) | Instr::WriteAt(leaf) => has_on_top(kinds, leaf_kind(object, *leaf)),
        Instr::WriteRef => suits_reference(kinds),
        Instr::Call(procedure) => suits_parameters(object, *procedure, kinds),
        Instr::Within(first) => are_fixed(cells_at(code, *first, 3)),
        Instr::Advance { first, .. } => are_fixed(cells_at(code, *first, 3)),
        Instr::Send(device) => has_on_top(kinds, kind_sent(object, *device)),
        _ => true,
    }
}

/// Whether kinds are exactly those that are wanted, and the cells of a range have one kind (V4).
pub(crate) fn is_exact(
    object: &Parts,
    code: &Code,
    runs: &CellRuns,
    instr: &Instr,
    kinds: &Kinds,
) -> bool
    requires { HoldsRuns code.now.cells runs.now }
    ensures { result ≡ v4 object.now code.now instr.now kinds.now }
{
    is_uniform(code, runs, instr) && suits_exactly(object, code, instr, kinds)
}

/// Whether no cell is a reference that must be none (V5).
pub(crate) fn names_values(
    object: &Parts,
    code: &Code,
    formats: &[FormatRow],
    runs: &CellRuns,
    instr: &Instr,
) -> bool
    requires formats { formats.now ≡ map format_row object.now.formats }
    requires runs { HoldsRuns code.now.cells runs.now }
    ensures { result ≡ v5 object.now code.now instr.now }
{
    match instr {
        Instr::Store(cell) | Instr::RefCell(cell) => runs.are_values(code, *cell, 1),
        Instr::Fill { first, count, .. } => runs.are_values(code, *first, *count),
        Instr::LoadAt { first, count }
        | Instr::StoreAt { first, count }
        | Instr::RefCellAt { first, count } => runs.are_values(code, *first, *count),
        Instr::Within(first) => runs.are_values(code, *first, 3),
        Instr::Advance { first, .. } => runs.are_values(code, *first, 3),
        Instr::Get(reading) => {
            let r = reading.get();
            match data_count(object, formats, r.format) {
                Some(count) => runs.are_values(code, r.first, count as u64),
                None => true,
            }
        }
        _ => true,
    }
}

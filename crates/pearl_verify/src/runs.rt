// For each cell how far its kind goes on, so that a range is judged in one step, however long it is.

ghost use Rattle.std.specs.Prelude.{◌≡◌, IfOk, not, ◌+◌, ◌<◌, ◌≤◌, length, drop};
ghost use Rattle.std.specs.List.{list_all};
ghost use Rattle.pearl_instructions.specs.Operands.{is_reference};
ghost use Rattle.pearl_instructions.specs.Kinds.{is_uniform};
ghost use Rattle.pearl_instructions.specs.Named.{cells_at};
ghost use Rattle.pearl_verify.specs.Runs.{uniform_front, value_front, from_each, covers, HoldsRuns};

use crate::same::{is_reference, same_cell};
use pearl_instructions::object::Code;
use pearl_value::kind::CellKind;
use std::alloc::{AllocError as NoMemory, Global};

/// For each cell of a routine, how many from it on have its kind, and how many are no references.
#[derive(Drop)]
pub(crate) struct CellRuns {
    pub uniform: Vec<usize>,
    pub values: Vec<usize>,
}

// How many from this cell on have its kind, where so many do from the next one on.
fn uniform_front(cells: &[CellKind], from: usize, behind: usize) -> usize
    requires within { from < length cells.now }
    requires behind { behind ≡ uniform_front (drop (from + 1) cells.now) }
    requires few { behind + from < length cells.now }
    ensures front { result ≡ uniform_front (drop from cells.now) }
    ensures few { result + from ≤ length cells.now }
{
    if from + 1 >= cells.len() {
        return 1;
    }
    if same_cell(cells[from], cells[from + 1]) {
        behind + 1
    } else {
        1
    }
}

// How many from this cell on are no references, where so many are none from the next one on.
fn value_front(cells: &[CellKind], from: usize, behind: usize) -> usize
    requires within { from < length cells.now }
    requires behind { behind ≡ value_front (drop (from + 1) cells.now) }
    requires few { behind + from < length cells.now }
    ensures front { result ≡ value_front (drop from cells.now) }
    ensures few { result + from ≤ length cells.now }
{
    if is_reference(cells[from]) {
        0
    } else {
        behind + 1
    }
}

// From the last cell to the first, since each count is made of the one behind it.
fn uniform_fronts(alloc: Global, cells: &[CellKind]) -> Result<Vec<usize>, NoMemory>
    ensures { IfOk result (λ fronts. fronts.items ≡ from_each uniform_front cells.now) }
{
    let mut fronts = vec![in alloc; 0usize; cells.len()]?;
    let mut from = cells.len();
    let mut front = 0;
    'cells: while from > 0 {
        from -= 1;
        front = uniform_front(cells, from, front);
        fronts[from] = front;
    }
    Ok(fronts)
}

fn value_fronts(alloc: Global, cells: &[CellKind]) -> Result<Vec<usize>, NoMemory>
    ensures { IfOk result (λ fronts. fronts.items ≡ from_each value_front cells.now) }
{
    let mut fronts = vec![in alloc; 0usize; cells.len()]?;
    let mut from = cells.len();
    let mut front = 0;
    'cells: while from > 0 {
        from -= 1;
        front = value_front(cells, from, front);
        fronts[from] = front;
    }
    Ok(fronts)
}

// Whether a range, as far as there are cells, goes on no further than its first cell's front.
fn covers(fronts: &[usize], first: u64, count: u64) -> bool
    ensures { result ≡ covers fronts.now first count }
{
    match fronts.get(first as usize) {
        Some(front) => {
            let rest = fronts.len() - first as usize;
            rest.min(count as usize) <= *front
        }
        None => true,
    }
}

impl CellRuns {
    pub(crate) fn new(alloc: Global, cells: &[CellKind]) -> Result<CellRuns, NoMemory>
        ensures { IfOk result (λ runs. HoldsRuns cells.now runs) }
    {
        let uniform = uniform_fronts(alloc, cells)?;
        let values = value_fronts(alloc, cells)?;
        Ok(CellRuns { uniform, values })
    }

    /// Whether the cells of a range, as far as they are the routine's, have one kind.
    pub(crate) fn is_uniform(&self, code: &Code, first: u64, count: u64) -> bool
        requires { HoldsRuns code.now.cells self.now }
        ensures { result ≡ is_uniform (cells_at code.now first count) }
    {
        covers(self.uniform.as_slice(), first, count)
    }

    /// Whether no cell of a range, as far as they are the routine's, is a reference.
    pub(crate) fn are_values(&self, code: &Code, first: u64, count: u64) -> bool
        requires { HoldsRuns code.now.cells self.now }
        ensures { result ≡ list_all (λ k. not (is_reference k)) (cells_at code.now first count) }
    {
        covers(self.values.as_slice(), first, count)
    }
}

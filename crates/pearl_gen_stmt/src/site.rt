// Where statements stand, and the kinds of what is named there.

ghost use Rattle.std.specs.Prelude.{◌≡◌, Some, IfOk};
ghost use Rattle.pearl_meaning.specs.Setting.{cell_kind as kind_of_cell, variable_kind as kind_of_variable, sent_kind as kind_of_sent};
ghost use Rattle.pearl_program.specs.PlainExpressions.{plain_variable};
ghost use Rattle.pearl_gen_stmt.specs.Emission.{setting_of};

use pearl_program::expression::{Target, Variable};
use pearl_program::program::{Program, Routine};
use pearl_value::device::Device;
use pearl_value::kind::{CellKind, Kind};
use std::alloc::AllocError as NoMemory;

/// Where statements stand.
#[derive(Clone, Copy)]
pub struct Site<'a> {
    pub program: &'a Program,
    pub routine: &'a Routine,
    /// What RETURNS says.
    pub result: Option<Kind>,
    /// Whether a loop stands around.
    pub in_loop: bool,
}

/// The kind of the values that a cell of the routine holds.
pub fn cell_kind(site: Site<'_>, cell: u32) -> Result<Kind, NoMemory>
    ensures { IfOk result (λ kind. kind_of_cell (setting_of site.entry.program.now site.entry.result site.entry.routine.now) cell ≡ Some kind) }
{
    match site.routine.cells.as_slice().get(cell as usize) {
        Some(CellKind::Plain(kind)) => Ok(*kind),
        _ => Err(NoMemory),
    }
}

/// The kind of a variable's elements.
pub fn variable_kind(site: Site<'_>, variable: &Variable) -> Result<Kind, NoMemory>
    ensures { IfOk result (λ kind. kind_of_variable (setting_of site.entry.program.now site.entry.result site.entry.routine.now) (plain_variable variable.now) ≡ Some kind) }
{
    match variable.target {
        Target::Leaf(number) => match site.program.leaves.as_slice().get(number as usize) {
            Some(leaf) => Ok(leaf.values.kind),
            None => Err(NoMemory),
        },
        Target::Own(cell) => cell_kind(site, cell),
        Target::Param(cell) => match site.routine.cells.as_slice().get(cell as usize) {
            Some(CellKind::RefTo(kind)) => Ok(*kind),
            _ => Err(NoMemory),
        },
    }
}

/// The kind of the values that go to a device.
pub fn sent_kind(site: Site<'_>, device: u32) -> Result<Kind, NoMemory>
    ensures { IfOk result (λ kind. kind_of_sent (setting_of site.entry.program.now site.entry.result site.entry.routine.now) device ≡ Some kind) }
{
    match site.program.devices.as_slice().get(device as usize) {
        Some(Device::Output { kind, .. }) => Ok(*kind),
        _ => Err(NoMemory),
    }
}

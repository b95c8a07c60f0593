// The program that a module means.

ghost use Rattle.std.specs.Prelude.{◌≡◌, IfOk};
ghost use Rattle.pearl_names.specs.Holding.{HoldsTable};
ghost use Rattle.pearl_names.specs.Tables as tables;
ghost use Rattle.pearl_program.specs.PlainPrograms.{plain_prog};
ghost use Rattle.pearl_tree.specs.ShownModules.{shown_tree};
ghost use Rattle.pearl_resolve.specs.Resolve as spec;

use crate::module_leaves::module_leaves;
use crate::numbers::numbered;
use crate::placing::by_number;
use crate::routines::routines_of;
use pearl_names::table::SenseTable;
use pearl_program::program::Program;
use pearl_resolve_tables::devices::program_devices;
use pearl_resolve_tables::formats::module_formats;
use pearl_resolve_tables::presets::module_presets;
use pearl_system::device::SpecifiedDevice;
use pearl_tree::tree::Tree;
use pearl_value::listing::Listing;
use std::alloc::{AllocError, Global};

/// The program that a module means, where these are its names, its specified devices in the order of their sorts and
/// numbers, and the numbers of its procedures in order of declaration. What has no room in the program counts as want of
/// memory: a semaphore's number above 2^16 - 1, a priority or a width above 2^8 - 1, a literal above 2^63 - 1, any other
/// number above 2^32 - 1, a variable with 2^31 leaves or cells, and the 17th semaphore of a REQUEST or RELEASE.
pub fn resolve(
    alloc: Global,
    table: SenseTable,
    devices: &[SpecifiedDevice],
    procedures: &[u32],
    tree: &Tree,
) -> Result<Program, AllocError>
    ensures { IfOk result (λ program. (t : tables.Table) → HoldsTable table t →
        plain_prog program ≡ spec.resolve t devices.now procedures.now (shown_tree tree.now)) }
{
    let numbered = numbered(alloc, table, devices, procedures, tree)?;
    let decls = tree.declarations.as_slice();
    let leaves = module_leaves(alloc, &numbered, decls)?;
    let semaphores = module_presets(alloc, tree)?;
    let devices = program_devices(alloc, numbered.table.lengths(), devices)?;
    let formats = module_formats(alloc, tree)?;
    let routines = routines_of(alloc, &numbered, decls)?;
    let placed = by_number(alloc, procedures, routines.procedures)?;
    let leaves = Listing::new(leaves);
    let procedures = Listing::new(placed);
    let tasks = Listing::new(routines.tasks);
    Ok(Program {
        leaves,
        semaphores,
        devices,
        formats,
        procedures,
        tasks,
    })
}

// The tables of an object: all that is no code.

ghost use Rattle.std.specs.Prelude.{◌≡◌, map, IfOk};
ghost use Rattle.pearl_gen_expr.specs.Tables.{plain_leaf as leaf_said};
ghost use Rattle.pearl_program.specs.PlainExpressions.{cell_of};
ghost use Rattle.pearl_program.specs.PlainPrograms.{plain_leaf};

use arrayvec::ArrayVec;
use pearl_format::item::Item;
use pearl_instructions::object::Leaf;
use pearl_program::literal::Literal;
use pearl_program::table;
use pearl_value::cell::Cell;
use pearl_value::device::Device;
use pearl_value::listing::Listing;
use std::alloc::{AllocError as NoMemory, Global};

fn cells_of(alloc: Global, literals: &[Literal]) -> Result<Vec<Cell>, NoMemory>
    ensures { IfOk result (λ cells. cells.items ≡ map cell_of literals.now) }
{
    let mut cells = Vec::with_capacity(alloc, literals.len())?;
    for literal in literals {
        cells.push(literal.cell())?;
    }
    Ok(cells)
}

fn leaf_of(alloc: Global, leaf: &table::Leaf) -> Result<Leaf, NoMemory>
    ensures { IfOk result (λ made. leaf_said made ≡ plain_leaf leaf.now) }
{
    let name = Vec::from_slice(alloc, leaf.name.as_slice())?;
    let constants = cells_of(alloc, leaf.values.constants.as_slice())?;
    Ok(Leaf {
        name: Listing::new(name),
        kind: leaf.values.kind,
        slots: leaf.values.count,
        constants: Listing::new(constants),
    })
}

/// The variables of the module with their first values.
pub fn leaves_of(alloc: Global, leaves: &[table::Leaf]) -> Result<Vec<Leaf>, NoMemory>
    ensures { IfOk result (λ made. map leaf_said made.items ≡ map plain_leaf leaves.now) }
{
    let mut made = Vec::with_capacity(alloc, leaves.len())?;
    for leaf in leaves {
        made.push(leaf_of(alloc, leaf)?)?;
    }
    Ok(made)
}

/// The devices of the system, as they are.
pub fn devices_of(alloc: Global, devices: &[Device]) -> Result<Vec<Device>, NoMemory>
    ensures { IfOk result (λ made. made.items ≡ devices.now) }
{
    Vec::from_slice(alloc, devices)
}

/// The formats, as they are.
pub fn formats_of(alloc: Global, formats: &[Listing<Item>]) -> Result<Vec<Listing<Item>>, NoMemory>
    ensures { IfOk result (λ made. made.items ≡ formats.now) }
{
    let mut made = Vec::with_capacity(alloc, formats.len())?;
    for format in formats {
        let items = Vec::from_slice(alloc, format.as_slice())?;
        made.push(Listing::new(items))?;
    }
    Ok(made)
}

/// The name of a task, as it is.
pub fn name_of(name: &ArrayVec<u8, 63>) -> Result<ArrayVec<u8, 63>, NoMemory>
    ensures { IfOk result (λ copy. copy ≡ name.now) }
{
    name.clone()
}

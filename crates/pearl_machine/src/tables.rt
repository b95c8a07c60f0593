//! The tables from which an object's run starts.

ghost use Rattle.std.specs.Prelude.{◌≡◌, ◌++◌, IfOk, OnOk, map, replicate};
ghost use Rattle.std.specs.List.{AllByRecursion, flat_map};
ghost use Rattle.pearl_value.specs.Blanks.{blank_of, last_or};
ghost use Rattle.pearl_instructions.specs.Lawful.{IsLeaf};
ghost use Rattle.pearl_instructions.specs.Setups.{entry_of, first_cells, setup_of};

use pearl_format::item::Item;
use pearl_instructions::object::{Leaf, Task};
use pearl_instructions::valid::Valid;
use pearl_rules::setup::{Setup, TaskEntry};
use pearl_value::cell::{Cell, copy_of};
use pearl_value::conversion::blank;
use pearl_value::listing::Listing;
use std::alloc::{AllocError as NoMemory, Global};

/// The tables from which an object's run starts.
pub fn setup(alloc: Global, object: &Valid) -> Result<Setup, NoMemory>
    ensures { IfOk result (λ setup. setup ≡ setup_of object.now) }
{
    let parts = object.object();
    let tasks = entries(alloc, parts.tasks.as_slice())?;
    let slots = first_values(alloc, parts.leaves.as_slice())?;
    let semaphores = Vec::from_slice(alloc, parts.semaphores.as_slice())?;
    let devices = Vec::from_slice(alloc, parts.devices.as_slice())?;
    let formats = copy_formats(alloc, parts.formats.as_slice())?;
    Ok(Setup {
        tasks: Listing::new(tasks),
        slots: Listing::new(slots),
        semaphores: Listing::new(semaphores),
        devices: Listing::new(devices),
        formats: Listing::new(formats),
    })
}

fn entries(alloc: Global, tasks: &[Task]) -> Result<Vec<TaskEntry>, NoMemory>
    ensures { IfOk result (λ entries. entries.items ≡ map entry_of tasks.now) }
{
    let mut entries = Vec::new(alloc);
    for task in tasks {
        entries.push(entry(task)?)?;
    }
    Ok(entries)
}

fn entry(task: &Task) -> Result<TaskEntry, NoMemory>
    ensures { IfOk result (λ entry. entry ≡ entry_of task.now) }
{
    let name = task.name.clone()?;
    Ok(TaskEntry {
        name,
        priority: task.priority,
        main: task.main,
    })
}

// The first values of all slots.
fn first_values(alloc: Global, leaves: &[Leaf]) -> Result<Vec<Cell>, NoMemory>
    requires { AllByRecursion IsLeaf leaves.now }
    ensures { IfOk result (λ slots. slots.items ≡ flat_map first_cells leaves.now) }
{
    let mut slots = Vec::new(alloc);
    for leaf in leaves {
        push_first(&mut slots, leaf)?;
    }
    Ok(slots)
}

// Adds the first values of a leaf's slots.
fn push_first(slots: &mut Vec<Cell>, leaf: &Leaf) -> Result<(), NoMemory>
    requires { IsLeaf leaf.now }
    ensures { OnOk result (slots.new.items ≡ slots.old.items ++ first_cells leaf.now) }
{
    let constants = leaf.constants.as_slice();
    push_all(slots, constants)?;
    let last = last_value(leaf);
    push_copies(slots, &last, leaf.slots as usize - constants.len())
}

// Adds these values.
fn push_all(slots: &mut Vec<Cell>, values: &[Cell]) -> Result<(), NoMemory>
    ensures { OnOk result (slots.new.items ≡ slots.old.items ++ values.now) }
{
    for value in values {
        slots.push(copy_of(value))?;
    }
    Ok(())
}

// Adds a value so many times.
fn push_copies(slots: &mut Vec<Cell>, value: &Cell, count: usize) -> Result<(), NoMemory>
    ensures { OnOk result (slots.new.items ≡ slots.old.items ++ replicate count value.now) }
{
    for _ in 0..count {
        slots.push(copy_of(value))?;
    }
    Ok(())
}

// What the slots hold that are left.
fn last_value(leaf: &Leaf) -> Cell
    requires { IsLeaf leaf.now }
    ensures { result ≡ last_or (blank_of leaf.now.kind) leaf.now.constants }
{
    match leaf.constants.as_slice().last() {
        Some(value) => copy_of(value),
        None => blank(leaf.kind),
    }
}

fn copy_formats(alloc: Global, formats: &[Listing<Item>]) -> Result<Vec<Listing<Item>>, NoMemory>
    ensures { IfOk result (λ copy. copy.items ≡ formats.now) }
{
    let mut copy = Vec::new(alloc);
    for items in formats {
        copy.push(copy_items(alloc, items.as_slice())?)?;
    }
    Ok(copy)
}

fn copy_items(alloc: Global, items: &[Item]) -> Result<Listing<Item>, NoMemory>
    ensures { IfOk result (λ copy. copy ≡ items.now) }
{
    let copy = Vec::from_slice(alloc, items)?;
    Ok(Listing::new(copy))
}

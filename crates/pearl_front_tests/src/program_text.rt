// What a program says, as text: its tables in order, and then its procedures and tasks.

use crate::expression_text::{put_bytes, put_cells, put_kind, put_number};
use crate::statement_text::{put_block, put_values};
use pearl_format::item::Item;
use pearl_program::program::{Procedure, Program, Routine, Task};
use pearl_program::table::Leaf;
use pearl_value::device::Device;
use pearl_value::listing::Listing;
use std::alloc::{AllocError, Global};

pub fn put_leaves(into: &mut String, leaves: &[Leaf]) -> Result<(), AllocError> {
    for leaf in leaves {
        put_bytes(into, leaf.name.as_slice())?;
        into.push_str(" ")?;
        put_values(into, &leaf.values)?;
        into.push_str(";")?;
    }
    Ok(())
}

pub fn put_semaphores(into: &mut String, presets: &[u32]) -> Result<(), AllocError> {
    for preset in presets {
        put_number(into, "sema ", u64::from(*preset))?;
        into.push_str(";")?;
    }
    Ok(())
}

fn put_device(into: &mut String, device: Device) -> Result<(), AllocError> {
    match device {
        Device::Interrupt { number } => put_number(into, "interrupt ", u64::from(number)),
        Device::Terminal { number, direction } => {
            put_number(into, "terminal ", u64::from(number))?;
            write!(into, " {direction:?}")
        }
        Device::Input { number, kind } => {
            put_number(into, "input ", u64::from(number))?;
            into.push_str(" ")?;
            put_kind(into, kind)
        }
        Device::Output { number, kind } => {
            put_number(into, "output ", u64::from(number))?;
            into.push_str(" ")?;
            put_kind(into, kind)
        }
    }
}

pub fn put_devices(into: &mut String, devices: &[Device]) -> Result<(), AllocError> {
    for &device in devices {
        put_device(into, device)?;
        into.push_str(";")?;
    }
    Ok(())
}

pub fn put_formats(into: &mut String, formats: &[Listing<Item>]) -> Result<(), AllocError> {
    for format in formats {
        into.push_str("format ")?;
        for item in format.as_slice() {
            write!(into, "{:?}({}),", item.code, item.width)?;
        }
        into.push_str(";")?;
    }
    Ok(())
}

fn put_routine(into: &mut String, routine: &Routine) -> Result<(), AllocError> {
    into.push_str("[")?;
    put_cells(into, routine.cells.as_slice())?;
    into.push_str("]")?;
    put_block(into, routine.body.as_slice())
}

fn put_procedure(into: &mut String, procedure: &Procedure) -> Result<(), AllocError> {
    put_number(into, "proc ", u64::from(procedure.params))?;
    match procedure.result {
        Some(kind) => {
            into.push_str(" ")?;
            put_kind(into, kind)?;
        }
        None => {}
    }
    put_routine(into, &procedure.routine)
}

fn put_task(into: &mut String, task: &Task) -> Result<(), AllocError> {
    into.push_str("task ")?;
    put_bytes(into, task.name.as_slice())?;
    put_number(into, " ", u64::from(task.priority))?;
    into.push_str(if task.main { " main" } else { "" })?;
    put_routine(into, &task.routine)
}

pub fn text_of(alloc: Global, program: &Program) -> Result<String, AllocError> {
    let mut text = String::new(alloc);
    put_leaves(&mut text, program.leaves.as_slice())?;
    put_semaphores(&mut text, program.semaphores.as_slice())?;
    put_devices(&mut text, program.devices.as_slice())?;
    put_formats(&mut text, program.formats.as_slice())?;
    for procedure in program.procedures.as_slice() {
        put_procedure(&mut text, procedure)?;
    }
    for task in program.tasks.as_slice() {
        put_task(&mut text, task)?;
    }
    Ok(text)
}

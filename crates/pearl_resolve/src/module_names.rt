// The numbers of the names of the module itself.

ghost use Rattle.std.specs.Prelude.{◌≡◌, List, IfOk};
ghost use Rattle.pearl_names.specs.Holding.{HoldsAll, HoldsSense};
ghost use Rattle.pearl_names.specs.Tables as tables;
ghost use Rattle.pearl_names.specs.declared.types.StructForm.{StructForm as StructFormOf};
ghost use Rattle.pearl_resolve.specs.Devices.{before_device};
ghost use Rattle.pearl_resolve.specs.Holding.{before_in};
ghost use Rattle.pearl_resolve.specs.Numbers as spec;

use crate::counts::leaves_of_sense;
use crate::numbered::number_or_zero;
use pearl_names::scope::SortedName;
use pearl_names::sense::Sense;
use pearl_names::types::StructForm;
use pearl_resolve_tables::counts::sum;
use pearl_system::device::SpecifiedDevice;
use std::alloc::{AllocError, Global};

/// How many things of each sort there are before a name of the module.
#[derive(Clone, Copy)]
pub(crate) struct Before {
    pub leaves: u32,
    pub semaphores: u32,
    pub tasks: u32,
    pub procedures: u32,
}

const NOTHING: Before = Before {
    leaves: 0,
    semaphores: 0,
    tasks: 0,
    procedures: 0,
};

fn behind(forms: &[StructForm], before: Before, sense: &Sense) -> Result<Before, AllocError>
    ensures { IfOk result (λ after. (of : tables.Sense) → HoldsSense forms.now sense.now of →
        before_in after ≡ spec.behind (before_in before) of) }
{
    match sense {
        Sense::Variable { .. } => {
            let leaves = sum(before.leaves, leaves_of_sense(forms, sense)?)?;
            Ok(Before { leaves, ..before })
        }
        Sense::Semaphore => {
            let semaphores = sum(before.semaphores, 1)?;
            Ok(Before {
                semaphores,
                ..before
            })
        }
        Sense::Task => {
            let tasks = sum(before.tasks, 1)?;
            Ok(Before { tasks, ..before })
        }
        Sense::Procedure(_) => {
            let procedures = sum(before.procedures, 1)?;
            Ok(Before {
                procedures,
                ..before
            })
        }
        Sense::Parameter(_) => Ok(before),
        Sense::Control(_) => Ok(before),
        Sense::NewType => Ok(before),
        Sense::Interrupt => Ok(before),
        Sense::AlphicDation(_) => Ok(before),
        Sense::BasicDation { .. } => Ok(before),
    }
}

// How many devices stand before the one of this name.
fn devices_before(mut devices: &[SpecifiedDevice], text: &[u8]) -> Result<u32, AllocError>
    ensures { IfOk result (λ before. before ≡ before_device devices.entry.now text.now) }
{
    let mut number: u32 = 0;
    while let [device, rest @ ..] = devices {
        if text == device.text.as_slice() {
            return Ok(number);
        }
        number = sum(number, 1)?;
        devices = rest;
    }
    Ok(number)
}

fn device_number(devices: &[SpecifiedDevice], text: &[u8]) -> Result<u32, AllocError>
    ensures { IfOk result (λ number. number ≡ spec.device_number devices.now text.now) }
{
    let before = devices_before(devices, text)?;
    if (before as usize) < devices.len() {
        Ok(before)
    } else {
        Ok(0)
    }
}

fn module_number(
    devices: &[SpecifiedDevice],
    procedures: &[u32],
    before: Before,
    entry: &SortedName,
    sense: &Sense,
) -> Result<u32, AllocError>
    ensures { IfOk result (λ number. (forms : List StructFormOf) (of : tables.Sense) → HoldsSense forms sense.now of →
        number ≡ spec.module_number devices.now procedures.now (before_in before) entry.now of) }
{
    match sense {
        Sense::Variable { .. } => Ok(before.leaves),
        Sense::Semaphore => Ok(before.semaphores),
        Sense::Task => Ok(before.tasks),
        Sense::Procedure(_) => Ok(number_or_zero(procedures, before.procedures)),
        Sense::Interrupt => {
            let number = device_number(devices, entry.name.text.as_slice())?;
            Ok(number)
        }
        Sense::AlphicDation(_) => {
            let number = device_number(devices, entry.name.text.as_slice())?;
            Ok(number)
        }
        Sense::BasicDation { .. } => {
            let number = device_number(devices, entry.name.text.as_slice())?;
            Ok(number)
        }
        Sense::Parameter(_) => Ok(0),
        Sense::Control(_) => Ok(0),
        Sense::NewType => Ok(0),
    }
}

/// The numbers of the names of the module, where these are its devices and procedures have these numbers in order of
/// declaration.
pub(crate) fn module_numbers(
    alloc: Global,
    forms: &[StructForm],
    devices: &[SpecifiedDevice],
    procedures: &[u32],
    entries: &[SortedName],
    senses: &[Sense],
) -> Result<Vec<u32>, AllocError>
    ensures { IfOk result (λ numbers. (of : List tables.Sense) → HoldsAll forms.now senses.now of →
        numbers.items ≡ spec.module_numbers devices.now procedures.now spec.nothing_before entries.now of) }
{
    let mut numbers = Vec::new(alloc);
    numbers.reserve_exact(senses.len())?;
    let mut before = NOTHING;
    for (index, sense) in senses.iter().enumerate() {
        let entry = match entries.get(index) {
            Some(entry) => entry,
            None => return Ok(numbers),
        };
        let number = module_number(devices, procedures, before, entry, sense)?;
        numbers.push(number)?;
        before = behind(forms, before, sense)?;
    }
    Ok(numbers)
}

// The static rules on devices.

ghost use Rattle.std.specs.Prelude.{◌≡◌, ◌++◌, IfOk, OnOk};
ghost use Rattle.std.specs.Option.{option_copied};
ghost use Rattle.pearl_tree.specs.Faults.{fault_if};
ghost use Rattle.pearl_system.specs.FirstDevices.{IsIndex};
ghost use Rattle.pearl_system.specs.Rules as spec;

use crate::device::{DeviceSort, is_number, sort_of, spelling, word_place};
use crate::first::{FirstDevices, add_twin, named, note};
use crate::specified::{Form, Specified};
use pearl_tree::declaration::{Class, Device};
use pearl_tree::fault::RuleFault;
use pearl_tree::rule;
use pearl_value::device::Direction;
use std::alloc::{AllocError as NoMemory, Global};
use std::collections::{BTreeMap, BTreeSet};

fn is_alphic(class: Class) -> bool
    ensures { result ≡ spec.is_alphic class }
{
    match class {
        Class::Alphic { .. } => true,
        Class::Basic { .. } => false,
    }
}

fn is_basic(class: Class) -> bool
    ensures { result ≡ spec.is_basic class }
{
    match class {
        Class::Alphic { .. } => false,
        Class::Basic { .. } => true,
    }
}

fn is_in(direction: Direction) -> bool
    ensures { result ≡ spec.is_in direction }
{
    match direction {
        Direction::In => true,
        Direction::Out => false,
        Direction::InOut => false,
    }
}

fn is_out(direction: Direction) -> bool
    ensures { result ≡ spec.is_out direction }
{
    match direction {
        Direction::In => false,
        Direction::Out => true,
        Direction::InOut => false,
    }
}

fn is_no_device(device: &Device) -> bool
    ensures { result ≡ spec.is_no_device device.now }
{
    let sort = sort_of(spelling(&device.word));
    !(sort.is_some() && is_number(device.number.value))
}

/// INTERRUPT is specified for another device, or DATION for an INTERRUPT.
fn is_other(form: Form, sort: Option<DeviceSort>) -> bool
    ensures { result ≡ spec.is_other form sort }
{
    match (form, sort) {
        (Form::Interrupt, Some(DeviceSort::Interrupt)) => false,
        (Form::Interrupt, _) => true,
        (Form::Dation { .. }, Some(DeviceSort::Interrupt)) => true,
        (Form::Dation { .. }, _) => false,
    }
}

fn is_missed(form: Form, device: Option<&Device>) -> bool
    ensures { result ≡ spec.is_missed form (option_copied device.entry) }
{
    match device {
        Some(device) => is_other(form, sort_of(spelling(&device.word))),
        None => true,
    }
}

/// TERMINAL isn't ALPHIC, INPUT isn't IN BASIC, or OUTPUT isn't OUT BASIC.
fn is_unfit(form: Form, sort: Option<DeviceSort>) -> bool
    ensures { result ≡ spec.is_unfit form sort }
{
    match (form, sort) {
        (Form::Dation { class, .. }, Some(DeviceSort::Terminal)) => !is_alphic(class),
        (Form::Dation { direction, class }, Some(DeviceSort::Input)) => {
            !(is_in(direction) && is_basic(class))
        }
        (Form::Dation { direction, class }, Some(DeviceSort::Output)) => {
            !(is_out(direction) && is_basic(class))
        }
        _ => false,
    }
}

fn is_unsuited(form: Form, device: Option<&Device>) -> bool
    ensures { result ≡ spec.is_unsuited form (option_copied device.entry) }
{
    match device {
        Some(device) => is_unfit(form, sort_of(spelling(&device.word))),
        None => false,
    }
}

fn push_if(faults: &mut Vec<RuleFault>, broken: bool, place: u32, rule: u8) -> Result<(), NoMemory>
    ensures { OnOk result (faults.new.items ≡ faults.old.items ++ fault_if broken place rule) }
{
    if broken {
        faults.push(RuleFault { place, rule })?;
    }
    Ok(())
}

/// Adds the faults of names that stand twice in the system part, and answers where the first device
/// of each name stands.
pub(crate) fn add_s10(
    alloc: Global,
    faults: &mut Vec<RuleFault>,
    devices: &[Device],
) -> Result<FirstDevices, NoMemory>
    ensures faults { OnOk result (faults.new.items ≡ faults.old.items ++ spec.s10 devices.now) }
    ensures first { IfOk result (λ first. IsIndex devices.now first.entries) }
{
    let mut first = BTreeMap::new(alloc);
    for at in 0..devices.len() {
        let name = &devices[at].name;
        let twice = note(&mut first, &name.text, at)?;
        push_if(faults, twice, name.place, rule::S10)?;
    }
    Ok(first)
}

/// Adds the faults of what is no device.
pub(crate) fn add_s11(faults: &mut Vec<RuleFault>, devices: &[Device]) -> Result<(), NoMemory>
    ensures { OnOk result (faults.new.items ≡ faults.old.items ++ spec.s11 devices.now) }
{
    for device in devices {
        let broken = is_no_device(device);
        push_if(faults, broken, word_place(&device.word), rule::S11)?;
    }
    Ok(())
}

/// Adds the faults of devices that stand twice in the system part.
pub(crate) fn add_s12(
    alloc: Global,
    faults: &mut Vec<RuleFault>,
    devices: &[Device],
) -> Result<(), NoMemory>
    ensures { OnOk result (faults.new.items ≡ faults.old.items ++ spec.s12 devices.now) }
{
    let mut twins = BTreeSet::new(alloc);
    for device in devices {
        let twice = add_twin(&mut twins, device)?;
        push_if(faults, twice, device.name.place, rule::S12)?;
    }
    Ok(())
}

/// Adds the faults of specified names that mean no such device.
pub(crate) fn add_s13(
    faults: &mut Vec<RuleFault>,
    devices: &[Device],
    first: &FirstDevices,
    names: &[Specified],
) -> Result<(), NoMemory>
    requires { IsIndex devices.now first.now.entries }
    ensures { OnOk result (faults.new.items ≡ faults.old.items ++ spec.s13 devices.now names.now) }
{
    for name in names {
        let broken = is_missed(name.form, named(devices, first, &name.text));
        push_if(faults, broken, name.place, rule::S13)?;
    }
    Ok(())
}

/// Adds the faults of devices that are specified as what they can't be.
pub(crate) fn add_s14(
    faults: &mut Vec<RuleFault>,
    devices: &[Device],
    first: &FirstDevices,
    names: &[Specified],
) -> Result<(), NoMemory>
    requires { IsIndex devices.now first.now.entries }
    ensures { OnOk result (faults.new.items ≡ faults.old.items ++ spec.s14 devices.now names.now) }
{
    for name in names {
        let broken = is_unsuited(name.form, named(devices, first, &name.text));
        push_if(faults, broken, name.place, rule::S14)?;
    }
    Ok(())
}

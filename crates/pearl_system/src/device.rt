// Devices as a module specifies them.

ghost use Rattle.std.specs.Prelude.{◌≡◌, IfOk, OnOk};
ghost use Rattle.std.specs.List.{filter_map};
ghost use Rattle.pearl_system.specs.Rising.{IsRising, JoinsSome, Lists};
ghost use Rattle.pearl_system.specs.Devices as spec;
ghost use Rattle.pearl_system.specs.FirstDevices.{IsIndex};
ghost use Rattle.pearl_system.specs.Rules.{word_place};

use crate::first::{FirstDevices, named};
use crate::rising::add;
use crate::specified::{Form, Specified};
use arrayvec::ArrayVec;
use pearl_tree::declaration::{Class, Device, DeviceWord};
use pearl_tree::typing::Basic;
use pearl_value::device::Direction;
use pearl_value::listing::Listing;
use std::alloc::{AllocError as NoMemory, Global};

/// What a device's word says that it is.
#[derive(Clone, Copy, PartialEq, Eq, Debug)]
pub enum DeviceSort {
    Interrupt,
    Terminal,
    Input,
    Output,
}

/// What a device is to the module that specifies it.
#[derive(Clone, Copy)]
pub enum Role {
    /// It interrupts.
    Interrupt,
    /// Texts go this way.
    Terminal { direction: Direction },
    /// Values of this type come in.
    Input { basic: Basic },
    /// Values of this type go out.
    Output { basic: Basic },
}

/// A device of the system part under the name by which it is specified.
#[derive(Drop)]
pub struct SpecifiedDevice {
    pub text: ArrayVec<u8, 63>,
    /// Where the name stands in its specification.
    pub place: u32,
    /// From 1 to 99.
    pub number: u8,
    pub role: Role,
}

/// The devices of a module, by sort and then by number.
pub type Devices = Listing<SpecifiedDevice>;

const NUMBER_MAX: u64 = 99;

const INTERRUPT: &[u8] = b"INTERRUPT";

const TERMINAL: &[u8] = b"TERMINAL";

const INPUT: &[u8] = b"INPUT";

const OUTPUT: &[u8] = b"OUTPUT";

/// How a device word is spelled.
pub(crate) fn spelling(word: &DeviceWord) -> &[u8]
    ensures { result.now ≡ spec.spelling word.now }
{
    match word {
        DeviceWord::Id(name) => name.text.as_slice(),
        DeviceWord::Interrupt { .. } => INTERRUPT,
    }
}

pub(crate) fn word_place(word: &DeviceWord) -> u32
    ensures { result ≡ word_place word.now }
{
    match word {
        DeviceWord::Id(name) => name.place,
        DeviceWord::Interrupt { place } => *place,
    }
}

pub(crate) fn sort_of(text: &[u8]) -> Option<DeviceSort>
    ensures { result ≡ spec.sort_of text.now }
{
    if text == INTERRUPT {
        Some(DeviceSort::Interrupt)
    } else if text == TERMINAL {
        Some(DeviceSort::Terminal)
    } else if text == INPUT {
        Some(DeviceSort::Input)
    } else if text == OUTPUT {
        Some(DeviceSort::Output)
    } else {
        None
    }
}

pub(crate) fn is_number(number: u64) -> bool
    ensures { result ≡ spec.is_number number }
{
    1 <= number && number <= NUMBER_MAX
}

fn role_of(sort: DeviceSort, form: Form) -> Option<Role>
    ensures { result ≡ spec.role_of sort form }
{
    match (sort, form) {
        (DeviceSort::Interrupt, Form::Interrupt) => Some(Role::Interrupt),
        (
            DeviceSort::Terminal,
            Form::Dation {
                direction,
                class: Class::Alphic { .. },
            },
        ) => Some(Role::Terminal { direction }),
        (
            DeviceSort::Input,
            Form::Dation {
                direction: Direction::In,
                class: Class::Basic { basic, .. },
            },
        ) => Some(Role::Input { basic }),
        (
            DeviceSort::Output,
            Form::Dation {
                direction: Direction::Out,
                class: Class::Basic { basic, .. },
            },
        ) => Some(Role::Output { basic }),
        _ => None,
    }
}

/// What a device of the system part is under a name that is specified so, where that suits it.
fn specified_as(name: &Specified, device: &Device) -> Option<SpecifiedDevice>
    ensures { result ≡ spec.specified_as name.now device.now }
{
    let sort = sort_of(spelling(&device.word))?;
    let role = role_of(sort, name.form)?;
    if !is_number(device.number.value) {
        return None;
    }
    Some(SpecifiedDevice {
        text: name.text.clone().unwrap(),
        place: name.place,
        number: device.number.value as u8,
        role,
    })
}

/// The device that a specified name means, where no rule refuses it.
fn meant(devices: &[Device], first: &FirstDevices, name: &Specified) -> Option<SpecifiedDevice>
    requires { IsIndex devices.now first.now.entries }
    ensures { result ≡ spec.meant devices.now name.now }
{
    match named(devices, first, &name.text) {
        Some(device) => specified_as(name, device),
        None => None,
    }
}

fn add_meant(
    found: &mut Vec<SpecifiedDevice>,
    devices: &[Device],
    first: &FirstDevices,
    name: &Specified,
) -> Result<(), NoMemory>
    requires index { IsIndex devices.now first.now.entries }
    requires rising { IsRising spec.device_key found.old.items }
    ensures rising { OnOk result (IsRising spec.device_key found.new.items) }
    ensures joins { OnOk result (JoinsSome spec.device_key (spec.meant devices.now name.now) found.old.items found.new.items) }
{
    match meant(devices, first, name) {
        Some(device) => add(found, device),
        None => Ok(()),
    }
}

/// The devices that are specified by these names, each once and in order.
pub(crate) fn found_devices(
    alloc: Global,
    devices: &[Device],
    first: &FirstDevices,
    names: &[Specified],
) -> Result<Devices, NoMemory>
    requires { IsIndex devices.now first.now.entries }
    ensures { IfOk result (λ found. Lists spec.device_key (spec.IsFirstIn (filter_map (spec.meant devices.now) names.now)) found) }
{
    let mut found = Vec::new(alloc);
    for at in 0..names.len() {
        add_meant(&mut found, devices, first, &names[at])?;
    }
    Ok(Listing::new(found))
}

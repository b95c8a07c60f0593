// The devices of the system part by their names, and by their words and numbers.

ghost use Rattle.std.specs.Prelude.{◌≡◌, is_some, slice_get, IfOk, OnOk};
ghost use Rattle.std.specs.Option.{option_copied};
ghost use Rattle.pearl_system.specs.Devices as spec;
ghost use Rattle.pearl_system.specs.FirstDevices.{has_pair, number_at, HasAdded, HasNoted, IsIndex};

use crate::device::spelling;
use arrayvec::ArrayVec;
use pearl_tree::declaration::{Device, DeviceWord};
use std::alloc::AllocError as NoMemory;
use std::collections::{BTreeMap, BTreeSet};

/// Where the first device of each name stands.
pub(crate) type FirstDevices = BTreeMap<ArrayVec<u8, 63>, usize>;

/// Words of devices with their numbers.
pub(crate) type Twins = BTreeSet<(ArrayVec<u8, 63>, u64)>;

fn copy_of(text: &ArrayVec<u8, 63>) -> ArrayVec<u8, 63>
    ensures { result ≡ text.now }
{
    text.clone().unwrap()
}

// Where the first device of a name stands.
fn place_of(first: &FirstDevices, text: &ArrayVec<u8, 63>) -> Option<usize>
    ensures { result ≡ number_at first.now.entries text.now.items }
{
    first.get(text).copied()
}

/// Notes where a name stands unless it was there, and answers whether it was there.
pub(crate) fn note(
    first: &mut FirstDevices,
    text: &ArrayVec<u8, 63>,
    at: usize,
) -> Result<bool, NoMemory>
    ensures twice { IfOk result (λ twice. twice ≡ is_some (number_at first.old.entries text.now.items)) }
    ensures noted { OnOk result (HasNoted first.old.entries text.now.items at first.new.entries) }
{
    if place_of(first, text).is_some() {
        return Ok(true);
    }
    match first.insert(copy_of(text), at) {
        Ok(_) => Ok(false),
        Err(_) => Err(NoMemory),
    }
}

fn device_at(devices: &[Device], at: usize) -> Option<&Device>
    ensures { option_copied result ≡ slice_get devices.now at }
{
    devices.get(at)
}

/// What a name means in the system part: of several devices of this name, the first.
pub(crate) fn named<'a>(
    devices: &'a [Device],
    first: &FirstDevices,
    text: &ArrayVec<u8, 63>,
) -> Option<&'a Device>
    requires { IsIndex devices.now first.now.entries }
    ensures { option_copied result ≡ spec.named devices.now text.now.items }
{
    match place_of(first, text) {
        Some(at) => device_at(devices, at),
        None => None,
    }
}

fn word_text(word: &DeviceWord) -> Result<ArrayVec<u8, 63>, NoMemory>
    ensures { IfOk result (λ text. text.items ≡ spec.spelling word.now) }
{
    let mut text = ArrayVec::new();
    match text.try_extend_from_slice(spelling(word)) {
        Ok(()) => Ok(text),
        Err(_) => Err(NoMemory),
    }
}

/// Adds the word and number of a device, and answers whether they were there.
pub(crate) fn add_twin(twins: &mut Twins, device: &Device) -> Result<bool, NoMemory>
    ensures twice { IfOk result (λ twice. twice ≡ has_pair twins.old.keys (spec.spelling device.now.word) device.now.number.value) }
    ensures added { OnOk result (HasAdded twins.old.keys (spec.spelling device.now.word) device.now.number.value twins.new.keys) }
{
    let text = word_text(&device.word)?;
    match twins.insert((text, device.number.value)) {
        Ok(fresh) => Ok(!fresh),
        Err(_) => Err(NoMemory),
    }
}

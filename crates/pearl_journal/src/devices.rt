// The devices that the numbers in lines name.

ghost use Rattle.std.specs.Prelude.{◌≡◌, ◌<◌, ◌^◌, length, slice_get, IfSome};
ghost use Rattle.std.specs.List.{position};
ghost use Rattle.pearl_rules.specs.Tables.{input_kind};
ghost use Rattle.pearl_journal.specs.Devices as spec;

use pearl_value::device::{Device, Direction};
use pearl_value::kind::Kind;

fn is_interrupt(device: &Device, number: u64) -> bool
    ensures { result ≡ spec.is_interrupt number device.now }
{
    match device {
        Device::Interrupt { number: own } => u64::from(*own) == number,
        _ => false,
    }
}

// Whether texts come in.
fn reads(direction: Direction) -> bool
    ensures { result ≡ spec.reads direction }
{
    match direction {
        Direction::In => true,
        Direction::Out => false,
        Direction::InOut => true,
    }
}

fn is_readable(device: &Device, number: u64) -> bool
    ensures { result ≡ spec.is_readable number device.now }
{
    match device {
        Device::Terminal {
            number: own,
            direction,
        } => u64::from(*own) == number && reads(*direction),
        _ => false,
    }
}

fn is_input(device: &Device, number: u64) -> bool
    ensures { result ≡ spec.is_input number device.now }
{
    match device {
        Device::Input { number: own, .. } => u64::from(*own) == number,
        _ => false,
    }
}

/// The interrupt of this number.
pub(crate) fn interrupt_of(devices: &[Device], number: u64) -> Option<u32>
    requires { length devices.now < 2 ^ 32 }
    ensures { result ≡ position (spec.is_interrupt number) devices.now }
{
    match interrupt_place(devices, number) {
        Some(place) => Some(place as u32),
        None => None,
    }
}

fn interrupt_place(devices: &[Device], number: u64) -> Option<usize>
    ensures value { result ≡ position (spec.is_interrupt number) devices.now }
    ensures within { IfSome result (λ place. place < length devices.now) }
{
    devices
        .iter()
        .position(|device| is_interrupt(device, number))
}

/// The terminal of this number, where texts can come in at it.
pub(crate) fn terminal_of(devices: &[Device], number: u64) -> Option<u32>
    requires { length devices.now < 2 ^ 32 }
    ensures { result ≡ position (spec.is_readable number) devices.now }
{
    match terminal_place(devices, number) {
        Some(place) => Some(place as u32),
        None => None,
    }
}

fn terminal_place(devices: &[Device], number: u64) -> Option<usize>
    ensures value { result ≡ position (spec.is_readable number) devices.now }
    ensures within { IfSome result (λ place. place < length devices.now) }
{
    devices
        .iter()
        .position(|device| is_readable(device, number))
}

/// The input of this number.
pub(crate) fn input_of(devices: &[Device], number: u64) -> Option<u32>
    requires { length devices.now < 2 ^ 32 }
    ensures { result ≡ position (spec.is_input number) devices.now }
{
    match input_place(devices, number) {
        Some(place) => Some(place as u32),
        None => None,
    }
}

/// The kind of the values of an input.
pub(crate) fn kind_at(devices: &[Device], device: u32) -> Option<Kind>
    ensures { result ≡ input_kind (slice_get devices.now device) }
{
    match devices.get(device as usize) {
        Some(Device::Input { kind, .. }) => Some(*kind),
        _ => None,
    }
}

fn input_place(devices: &[Device], number: u64) -> Option<usize>
    ensures value { result ≡ position (spec.is_input number) devices.now }
    ensures within { IfSome result (λ place. place < length devices.now) }
{
    devices.iter().position(|device| is_input(device, number))
}

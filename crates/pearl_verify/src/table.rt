// What the numbers in an object name.

ghost use Rattle.std.specs.Prelude.{◌≡◌, ◌≤◌, ◌<◌, nat_lt, nat_le, Some, None, length, take, drop, map, slice_get, option_map, MatchOption};
ghost use Rattle.std.specs.List.{list_all};
ghost use Rattle.pearl_format.specs.Items.{data_count};
ghost use Rattle.pearl_instructions.specs.Objects.{is_task, result_of, items_at};
ghost use Rattle.pearl_instructions.specs.Named.{has_cells, cells_at, is_interrupt, takes_texts, gives_texts, is_input, is_output};
ghost use Rattle.pearl_instructions.specs.Kinds.{leaf_kind, kind_sent, kind_taken};
ghost use Rattle.pearl_verify.specs.Formats.{format_row};

use crate::formats::FormatRow;
use pearl_format::item::Item;
use pearl_instructions::object::{Code, Parts};
use pearl_value::device::{Device, Direction};
use pearl_value::kind::{CellKind, Kind};

/// Whether a number is below a count.
pub(crate) fn is_below(number: u64, count: usize) -> bool
    ensures { result ≡ nat_lt number count }
{
    number < count as u64
}

pub(crate) fn all_below(numbers: &[u64], count: usize) -> bool
    ensures { result ≡ list_all (λ n. nat_lt n count) numbers.now }
{
    for number in numbers {
        if !is_below(*number, count) {
            return false;
        }
    }
    true
}

pub(crate) fn is_task(object: &Parts, routine: usize) -> bool
    ensures { result ≡ is_task object.now routine }
{
    object.procedures.as_slice().len() <= routine
}

/// The kind of a routine's result, where it has one.
pub(crate) fn result_of(object: &Parts, routine: usize) -> Option<Kind>
    ensures { result ≡ result_of object.now routine }
{
    match object.procedures.as_slice().get(routine) {
        Some(procedure) => procedure.result,
        None => None,
    }
}

/// Whether a range has at least one cell, and all of its cells are the routine's.
pub(crate) fn has_cells(code: &Code, first: u64, count: u64) -> bool
    ensures { result ≡ has_cells code.now first count }
{
    let cells = code.cells.as_slice().len() as u64;
    0 < count && first <= cells && count <= cells - first
}

/// The cells of a range, as far as they are the routine's.
pub(crate) fn cells_at(code: &Code, first: u64, count: u64) -> &[CellKind]
    ensures { result.now ≡ cells_at code.now first count }
{
    let cells = code.cells.as_slice();
    let start = cells.len().min(first as usize);
    let rest = &cells[start..];
    let size = rest.len().min(count as usize);
    &rest[..size]
}

pub(crate) fn leaf_kind(object: &Parts, leaf: u64) -> Option<CellKind>
    ensures { result ≡ leaf_kind (slice_get object.now.leaves leaf) }
{
    match object.leaves.as_slice().get(leaf as usize) {
        Some(leaf) => Some(CellKind::Plain(leaf.kind)),
        None => None,
    }
}

fn device_at(object: &Parts, device: u64) -> Option<Device>
    ensures { result ≡ slice_get object.now.devices device }
{
    object.devices.as_slice().get(device as usize).copied()
}

pub(crate) fn is_interrupt(object: &Parts, device: u64) -> bool
    ensures { result ≡ is_interrupt (slice_get object.now.devices device) }
{
    match device_at(object, device) {
        Some(Device::Interrupt { .. }) => true,
        _ => false,
    }
}

/// Whether it is a terminal that takes texts.
pub(crate) fn takes_texts(object: &Parts, device: u64) -> bool
    ensures { result ≡ takes_texts (slice_get object.now.devices device) }
{
    match device_at(object, device) {
        Some(Device::Terminal { direction, .. }) => match direction {
            Direction::In => false,
            Direction::Out => true,
            Direction::InOut => true,
        },
        _ => false,
    }
}

/// Whether it is a terminal that gives texts.
pub(crate) fn gives_texts(object: &Parts, device: u64) -> bool
    ensures { result ≡ gives_texts (slice_get object.now.devices device) }
{
    match device_at(object, device) {
        Some(Device::Terminal { direction, .. }) => match direction {
            Direction::In => true,
            Direction::Out => false,
            Direction::InOut => true,
        },
        _ => false,
    }
}

/// The kind of the values that come in, where it is an input.
pub(crate) fn kind_taken(object: &Parts, device: u64) -> Option<CellKind>
    ensures { result ≡ kind_taken (slice_get object.now.devices device) }
{
    match device_at(object, device) {
        Some(Device::Input { kind, .. }) => Some(CellKind::Plain(kind)),
        _ => None,
    }
}

/// The kind of the values that go out, where it is an output.
pub(crate) fn kind_sent(object: &Parts, device: u64) -> Option<CellKind>
    ensures { result ≡ kind_sent (slice_get object.now.devices device) }
{
    match device_at(object, device) {
        Some(Device::Output { kind, .. }) => Some(CellKind::Plain(kind)),
        _ => None,
    }
}

pub(crate) fn is_input(object: &Parts, device: u64) -> bool
    ensures { result ≡ is_input (slice_get object.now.devices device) }
{
    match device_at(object, device) {
        Some(Device::Input { .. }) => true,
        _ => false,
    }
}

pub(crate) fn is_output(object: &Parts, device: u64) -> bool
    ensures { result ≡ is_output (slice_get object.now.devices device) }
{
    match device_at(object, device) {
        Some(Device::Output { .. }) => true,
        _ => false,
    }
}

/// The items of a format.
pub(crate) fn items_at(object: &Parts, format: u64) -> Option<&[Item]>
    ensures { MatchOption result (items_at object.now format ≡ None) (λ items. items_at object.now format ≡ Some items.now) }
{
    match object.formats.as_slice().get(format as usize) {
        Some(items) => Some(items.as_slice()),
        None => None,
    }
}

/// How many values a format takes, where there is one.
pub(crate) fn data_count(object: &Parts, formats: &[FormatRow], format: u64) -> Option<usize>
    requires { formats.now ≡ map format_row object.now.formats }
    ensures { result ≡ option_map data_count (items_at object.now format) }
{
    match formats.get(format as usize) {
        Some(row) => Some(row.count),
        None => None,
    }
}

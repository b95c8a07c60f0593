// What a state begins with.

ghost use Rattle.std.specs.Prelude.{◌≡◌, ◌≤◌, [], None, IfOk, length, map, replicate};
ghost use Rattle.pearl_rules.specs.Core.{first_row as first_row_of, first_channel as first_channel_of, first_events};
ghost use Rattle.pearl_kernel.specs.Kept.{stamped};

use crate::bid::Bid;
use crate::channel::Channel;
use crate::happened::Told;
use pearl_format::item::Item;
use pearl_rules::event::Event;
use pearl_rules::row::{Kept, Mode, TaskRow};
use pearl_rules::setup::TaskEntry;
use pearl_scan::progress::Progress;
use pearl_value::cell::{Cell, copy_of};
use pearl_value::device::Device;
use pearl_value::listing::Listing;
use std::alloc::{AllocError, Global};

fn first_row(task: &TaskEntry) -> TaskRow
    ensures { result ≡ first_row_of task.now }
{
    let mode = if task.main {
        Mode::Active {
            priority: task.priority,
            suspended: false,
        }
    } else {
        Mode::Dormant
    };
    TaskRow {
        mode,
        declared: task.priority,
        kept: Kept::Nothing,
        continuation: None,
        activation: None,
    }
}

/// How each task stands at the start.
pub fn first_rows(alloc: Global, tasks: &[TaskEntry]) -> Result<Vec<TaskRow>, AllocError>
    ensures { IfOk result (λ rows. rows.items ≡ map first_row_of tasks.now) }
{
    let mut rows = Vec::with_capacity(alloc, tasks.len())?;
    for task in tasks {
        rows.push(first_row(task))?;
    }
    Ok(rows)
}

/// The place for the offer of each task.
pub fn no_offers(alloc: Global, count: usize) -> Result<Vec<Bid>, AllocError>
    ensures { IfOk result (λ offers. offers.items ≡ replicate count None) }
{
    let mut offers = Vec::with_capacity(alloc, count)?;
    for _ in 0..count {
        offers.push(Bid::new(alloc)?)?;
    }
    Ok(offers)
}

/// The place for how far the GET of each task has come.
pub fn no_progress(alloc: Global, count: usize) -> Result<Vec<Progress>, AllocError>
    ensures { IfOk result (λ progress. length progress.items ≡ count) }
{
    let mut progress = Vec::with_capacity(alloc, count)?;
    for _ in 0..count {
        progress.push(Progress::start())?;
    }
    Ok(progress)
}

/// The same values once more.
pub fn copied_values(alloc: Global, first: &[Cell]) -> Result<Vec<Cell>, AllocError>
    ensures { IfOk result (λ slots. slots.items ≡ first.now) }
{
    let mut slots = Vec::with_capacity(alloc, first.len())?;
    for value in first {
        slots.push(copy_of(value))?;
    }
    Ok(slots)
}

/// How each device stands at the start.
pub fn first_channels(alloc: Global, devices: &[Device]) -> Result<Vec<Channel>, AllocError>
    ensures { IfOk result (λ channels. channels.items ≡ map first_channel_of devices.now) }
{
    let mut channels = Vec::with_capacity(alloc, devices.len())?;
    for device in devices {
        channels.push(Channel::new(alloc, device)?)?;
    }
    Ok(channels)
}

fn copied_format(alloc: Global, format: &[Item]) -> Result<Listing<Item>, AllocError>
    ensures { IfOk result (λ items. items ≡ format.now) }
{
    let mut items = Vec::with_capacity(alloc, format.len())?;
    for item in format {
        items.push(*item)?;
    }
    Ok(Listing::new(items))
}

/// The formats of the tables.
pub fn copied_formats(
    alloc: Global,
    formats: &[Listing<Item>],
) -> Result<Vec<Listing<Item>>, AllocError>
    ensures { IfOk result (λ copied. copied.items ≡ formats.now) }
{
    let mut copied = Vec::with_capacity(alloc, formats.len())?;
    for format in formats {
        copied.push(copied_format(alloc, format.as_slice())?)?;
    }
    Ok(copied)
}

/// Tells the starts of the MAIN tasks.
pub fn tell_starts(tasks: &[TaskEntry], events: &mut Told)
    requires few { length tasks.now ≤ 200 }
    requires empty { events.old ≡ [] }
    ensures { stamped 0 events.new ≡ first_events 0 tasks.now }
{
    for (task, entry) in tasks.iter().enumerate() {
        if entry.main {
            events.note(Event::Start {
                task: task as u32,
                priority: entry.priority,
            });
        }
    }
}

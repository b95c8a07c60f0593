// What a state's record has beside its tasks, and what a state has that is made of a record.

ghost use Rattle.std.specs.Prelude.{◌≡◌, ◌≤◌, IfOk, length};
ghost use Rattle.std.specs.List.{AllByRecursion};
ghost use Rattle.pearl_value.specs.Counts.{IsPreset};
ghost use Rattle.pearl_records.specs.Records.{switches_in, terminals_in, inputs_in, channels_made as channels_made_of};
ghost use Rattle.pearl_records.specs.States.{HasParts};
ghost use Rattle.pearl_rules.specs.declared.setup.Setup as Tables;
ghost use Rattle.pearl_kernel.specs.Timing.{timetable};

use crate::channel::Channel;
use crate::mirror::keep_row;
use pearl_records::record::CoreRecord;
use pearl_rules::row::TaskRow;
use pearl_rules::setup::Setup;
use pearl_timer::timer::Timer;
use pearl_value::cell::Cell;
use pearl_value::device::Device;
use pearl_value::listing::Listing;
use std::alloc::{AllocError, Global};

// ---- what is recorded

/// The counts, as a record has them.
pub fn counts_recorded(alloc: Global, counts: &[u32]) -> Result<Listing<u64>, AllocError>
    ensures { IfOk result (λ recorded. recorded ≡ counts.now) }
{
    let mut recorded = Vec::with_capacity(alloc, counts.len())?;
    for count in counts {
        recorded.push(*count as u64)?;
    }
    Ok(Listing::new(recorded))
}

/// Which interrupts are let through.
pub fn switches_recorded(alloc: Global, channels: &[Channel]) -> Result<Listing<bool>, AllocError>
    ensures { IfOk result (λ switches. switches ≡ switches_in channels.now) }
{
    let mut switches = Vec::new(alloc);
    for channel in channels {
        if let Some(enabled) = channel.switched() {
            switches.push(enabled)?;
        }
    }
    Ok(Listing::new(switches))
}

/// The bytes that wait at each terminal.
pub fn terminals_recorded(
    alloc: Global,
    channels: &[Channel],
) -> Result<Listing<Listing<u8>>, AllocError>
    ensures { IfOk result (λ terminals. terminals ≡ terminals_in channels.now) }
{
    let mut terminals = Vec::new(alloc);
    for channel in channels {
        if let Some(pending) = channel.typed() {
            terminals.push(Listing::new(pending.to_vec(alloc)?))?;
        }
    }
    Ok(Listing::new(terminals))
}

/// The values that wait at each input.
pub fn inputs_recorded(
    alloc: Global,
    channels: &[Channel],
) -> Result<Listing<Listing<Cell>>, AllocError>
    ensures { IfOk result (λ inputs. inputs ≡ inputs_in channels.now) }
{
    let mut inputs = Vec::new(alloc);
    for channel in channels {
        if let Some(pending) = channel.values(alloc)? {
            inputs.push(pending)?;
        }
    }
    Ok(Listing::new(inputs))
}

// ---- what is made

/// The counts of a record.
pub fn counts_made(alloc: Global, counts: &[u64]) -> Result<Vec<u32>, AllocError>
    requires { AllByRecursion IsPreset counts.now }
    ensures { IfOk result (λ made. made.items ≡ counts.now) }
{
    let mut made = Vec::with_capacity(alloc, counts.len())?;
    for count in counts {
        made.push(*count as u32)?;
    }
    Ok(made)
}

/// A timer that has the series of these rows.
pub fn timer_of(alloc: Global, rows: &[TaskRow]) -> Result<Timer, AllocError>
    ensures { IfOk result (λ timer. timer ≡ timetable rows.now) }
{
    let mut timer = Timer::new(alloc, rows.len())?;
    for (task, row) in rows.iter().enumerate() {
        keep_row(&mut timer, task, row);
    }
    Ok(timer)
}

/// How each device stands by a record.
pub fn channels_made(
    alloc: Global,
    setup: &Setup,
    core: &CoreRecord,
) -> Result<Vec<Channel>, AllocError>
    requires { HasParts setup.now core.now }
    ensures { IfOk result (λ channels. channels.items ≡
        channels_made_of setup.now.devices core.now.switches core.now.terminals core.now.inputs) }
{
    let mut switches = core.switches.as_slice();
    let mut terminals = core.terminals.as_slice();
    let mut inputs = core.inputs.as_slice();
    let mut channels = Vec::with_capacity(alloc, setup.devices.as_slice().len())?;
    for device in setup.devices.as_slice() {
        let channel = match device {
            Device::Interrupt { .. } => {
                let enabled = switches[0];
                switches = &switches[1..];
                Channel::switch(enabled)
            }
            Device::Terminal { .. } => {
                let pending = terminals[0].as_slice();
                terminals = &terminals[1..];
                Channel::terminal(alloc, pending)?
            }
            Device::Input { kind, .. } => {
                let pending = inputs[0].as_slice();
                inputs = &inputs[1..];
                Channel::input(alloc, *kind, pending)?
            }
            Device::Output { .. } => Channel::outward(),
        };
        channels.push(channel)?;
    }
    Ok(channels)
}

// The bytes of plans, both ways.

ghost use Rattle.std.specs.Prelude.{◌≡◌, ◌≤◌, ◌++◌, OnOk};
ghost use Rattle.pearl_fields.specs.Codec.{arm_at};
ghost use Rattle.pearl_fields.specs.Reads.{Reads};
ghost use Rattle.pearl_snap.specs.Plans.{end, end_arms, series, no_series, maybe_arms, maybe_series, plan, no_plan, continuation, started, no_start, activation};

use crate::parts::{put_maybe_number, read_maybe_number};
use pearl_fields::fault::ReadFault;
use pearl_fields::reader::Reader;
use pearl_fields::writer::put_number;
use pearl_records::record::{ActivationRecord, EndRecord, PlanRecord, SeriesRecord};
use std::alloc::AllocError;

#[tactic(auto, unfolding(crate::specs::Plans::end))]
fn read_end(reader: &mut Reader) -> Result<EndRecord, ReadFault>
    ensures { Reads end reader.old reader.new result }
{
    let tag = reader.byte_in(0, 2)?;
    end_at(reader, tag)
}

fn end_at(reader: &mut Reader, tag: u8) -> Result<EndRecord, ReadFault>
    requires { tag ≤ 2 }
    ensures { Reads (arm_at end_arms tag) reader.old reader.new result }
{
    match tag {
        0 => Ok(EndRecord::Never),
        1 => {
            let time = reader.number()?;
            Ok(EndRecord::Until(time))
        }
        2 => {
            let time = reader.number()?;
            Ok(EndRecord::During(time))
        }
        _ => unreachable!(),
    }
}

#[tactic(auto, unfolding(crate::specs::Plans::end))]
fn put_end(out: &mut Vec<u8>, value: EndRecord) -> Result<(), AllocError>
    ensures { OnOk result (out.new.items ≡ out.old.items ++ end.bytes value) }
{
    match value {
        EndRecord::Never => out.push(0)?,
        EndRecord::Until(time) => {
            out.push(1)?;
            put_number(out, time)?;
        }
        EndRecord::During(time) => {
            out.push(2)?;
            put_number(out, time)?;
        }
    }
    Ok(())
}

#[tactic(auto, unfolding(crate::specs::Plans::series))]
fn read_series(reader: &mut Reader) -> Result<SeriesRecord, ReadFault>
    ensures { Reads series reader.old reader.new result }
{
    let first = reader.number()?;
    let period = reader.number()?;
    let last = read_maybe_number(reader)?;
    Ok(SeriesRecord {
        first,
        period,
        last,
    })
}

#[tactic(auto, unfolding(crate::specs::Plans::maybe_series))]
fn read_maybe_series(reader: &mut Reader) -> Result<Option<SeriesRecord>, ReadFault>
    ensures { Reads maybe_series reader.old reader.new result }
{
    let tag = reader.byte_in(0, 1)?;
    series_at(reader, tag)
}

fn series_at(reader: &mut Reader, tag: u8) -> Result<Option<SeriesRecord>, ReadFault>
    requires { tag ≤ 1 }
    ensures { Reads (arm_at (maybe_arms no_series series) tag) reader.old reader.new result }
{
    match tag {
        0 => Ok(None),
        1 => {
            let series = read_series(reader)?;
            Ok(Some(series))
        }
        _ => unreachable!(),
    }
}

/// Appends the series of a plan, if it has one.
#[tactic(auto, unfolding(crate::specs::Plans::series, crate::specs::Plans::maybe_series))]
pub fn put_maybe_series(out: &mut Vec<u8>, value: Option<SeriesRecord>) -> Result<(), AllocError>
    ensures { OnOk result (out.new.items ≡ out.old.items ++ maybe_series.bytes value) }
{
    match value {
        None => out.push(0)?,
        Some(series) => {
            out.push(1)?;
            put_number(out, series.first)?;
            put_number(out, series.period)?;
            put_maybe_number(out, series.last)?;
        }
    }
    Ok(())
}

#[tactic(auto, unfolding(crate::specs::Plans::plan))]
fn read_plan(reader: &mut Reader) -> Result<PlanRecord, ReadFault>
    ensures { Reads plan reader.old reader.new result }
{
    let when = read_maybe_number(reader)?;
    let after = reader.number()?;
    let period = reader.number()?;
    let end = read_end(reader)?;
    let series = read_maybe_series(reader)?;
    Ok(PlanRecord {
        when,
        after,
        period,
        end,
        series,
    })
}

#[tactic(auto, unfolding(crate::specs::Plans::plan))]
fn put_plan(out: &mut Vec<u8>, value: PlanRecord) -> Result<(), AllocError>
    ensures { OnOk result (out.new.items ≡ out.old.items ++ plan.bytes value) }
{
    put_maybe_number(out, value.when)?;
    put_number(out, value.after)?;
    put_number(out, value.period)?;
    put_end(out, value.end)?;
    put_maybe_series(out, value.series)?;
    Ok(())
}

/// Reads the plan by which a task goes on, if it has one.
#[tactic(auto, unfolding(crate::specs::Plans::continuation))]
pub fn read_continuation(reader: &mut Reader) -> Result<Option<PlanRecord>, ReadFault>
    ensures { Reads continuation reader.old reader.new result }
{
    let tag = reader.byte_in(0, 1)?;
    continuation_at(reader, tag)
}

fn continuation_at(reader: &mut Reader, tag: u8) -> Result<Option<PlanRecord>, ReadFault>
    requires { tag ≤ 1 }
    ensures { Reads (arm_at (maybe_arms no_plan plan) tag) reader.old reader.new result }
{
    match tag {
        0 => Ok(None),
        1 => {
            let plan = read_plan(reader)?;
            Ok(Some(plan))
        }
        _ => unreachable!(),
    }
}

/// Appends the plan by which a task goes on, if it has one.
#[tactic(auto, unfolding(crate::specs::Plans::continuation))]
pub fn put_continuation(out: &mut Vec<u8>, value: Option<PlanRecord>) -> Result<(), AllocError>
    ensures { OnOk result (out.new.items ≡ out.old.items ++ continuation.bytes value) }
{
    match value {
        None => out.push(0)?,
        Some(plan) => {
            out.push(1)?;
            put_plan(out, plan)?;
        }
    }
    Ok(())
}

#[tactic(auto, unfolding(crate::specs::Plans::started))]
fn read_started(reader: &mut Reader) -> Result<ActivationRecord, ReadFault>
    ensures { Reads started reader.old reader.new result }
{
    let plan = read_plan(reader)?;
    let priority = reader.byte()?;
    Ok(ActivationRecord { plan, priority })
}

/// Reads the plan by which a task is started, if it has one.
#[tactic(auto, unfolding(crate::specs::Plans::activation))]
pub fn read_activation(reader: &mut Reader) -> Result<Option<ActivationRecord>, ReadFault>
    ensures { Reads activation reader.old reader.new result }
{
    let tag = reader.byte_in(0, 1)?;
    activation_at(reader, tag)
}

fn activation_at(reader: &mut Reader, tag: u8) -> Result<Option<ActivationRecord>, ReadFault>
    requires { tag ≤ 1 }
    ensures { Reads (arm_at (maybe_arms no_start started) tag) reader.old reader.new result }
{
    match tag {
        0 => Ok(None),
        1 => {
            let start = read_started(reader)?;
            Ok(Some(start))
        }
        _ => unreachable!(),
    }
}

/// Appends the plan by which a task is started, if it has one.
#[tactic(auto, unfolding(crate::specs::Plans::started, crate::specs::Plans::activation))]
pub fn put_activation(out: &mut Vec<u8>, value: Option<ActivationRecord>) -> Result<(), AllocError>
    ensures { OnOk result (out.new.items ≡ out.old.items ++ activation.bytes value) }
{
    match value {
        None => out.push(0)?,
        Some(start) => {
            out.push(1)?;
            put_plan(out, start.plan)?;
            out.push(start.priority)?;
        }
    }
    Ok(())
}

// What is recorded of the rows of tasks, and rows that are made of records.

ghost use Rattle.std.specs.Prelude.{◌≡◌, ◌<◌, ◌≤◌, IfOk, IfSome, length, map};
ghost use Rattle.std.specs.List.{AllByRecursion};
ghost use Rattle.pearl_rules.specs.Plans.{no_end, priorities};
ghost use Rattle.pearl_records.specs.States.{IsEnd, IsPlan, IsPlanned, EndsSooner, EndSooner};
ghost use Rattle.pearl_records.specs.Records.{series_record as series_record_of, made_series as made_series_of};
ghost use Rattle.pearl_records.specs.Records.{end_record as end_record_of, made_end as made_end_of};
ghost use Rattle.pearl_records.specs.Records.{plan_record as plan_record_of, made_plan as made_plan_of};
ghost use Rattle.pearl_records.specs.Records.{standing_record, mode_in, kept_in, starts_with as starts_with_of};
ghost use Rattle.pearl_records.specs.Records.{row_record, made_row as made_row_of, rows_made as rows_made_of};

use crate::record::{ActivationRecord, EndRecord, PlanRecord, SeriesRecord, Standing, TaskRecord};
use pearl_rules::row::{Activation, End, Kept, Mode, Plan, TaskRow};
use pearl_rules::series::Series;
use pearl_rules::setup::Setup;
use pearl_value::listing::Listing;
use std::alloc::{AllocError as NoMemory, Global};

// ---- what is recorded

fn series_record(series: Series) -> SeriesRecord
    ensures record { result ≡ series_record_of series }
    ensures ends { IfSome result.last (λ last. last < no_end) }
{
    let last = if series.last == u64::MAX {
        None
    } else {
        Some(series.last)
    };
    SeriesRecord {
        first: series.first,
        period: series.period,
        last,
    }
}

fn end_record(end: End) -> EndRecord
    ensures { result ≡ end_record_of end }
{
    match end {
        End::Never => EndRecord::Never,
        End::Until(time) => EndRecord::Until(time as u64),
        End::During(time) => EndRecord::During(time),
    }
}

fn plan_record(plan: Plan) -> PlanRecord
    ensures record { result ≡ plan_record_of plan }
    ensures ends { EndsSooner result }
{
    let when = match plan.when {
        None => None,
        Some(interrupt) => Some(interrupt as u64),
    };
    let series = match plan.series {
        None => None,
        Some(series) => Some(series_record(series)),
    };
    PlanRecord {
        when,
        after: plan.after,
        period: plan.period,
        end: end_record(plan.end),
        series,
    }
}

fn starts_recorded(alloc: Global, kept: Kept) -> Result<Listing<u8>, NoMemory>
    ensures { IfOk result (λ starts. starts ≡ priorities kept) }
{
    let starts = match kept {
        Kept::Nothing => Vec::new(alloc),
        Kept::One(first) => [first].to_vec(alloc)?,
        Kept::Two(first, second) => [first, second].to_vec(alloc)?,
        Kept::Three(first, second, third) => [first, second, third].to_vec(alloc)?,
    };
    Ok(Listing::new(starts))
}

fn standing_recorded(alloc: Global, mode: Mode, kept: Kept) -> Result<Standing, NoMemory>
    ensures { IfOk result (λ standing. standing ≡ standing_record mode kept) }
{
    match mode {
        Mode::Dormant => Ok(Standing::Dormant),
        Mode::Active {
            priority,
            suspended,
        } => {
            let kept = starts_recorded(alloc, kept)?;
            Ok(Standing::Active {
                priority,
                suspended,
                kept,
            })
        }
    }
}

fn row_recorded(alloc: Global, row: TaskRow) -> Result<TaskRecord, NoMemory>
    ensures record { IfOk result (λ task. task ≡ row_record row) }
    ensures ends { IfOk result EndSooner }
{
    let standing = standing_recorded(alloc, row.mode, row.kept)?;
    let continuation = match row.continuation {
        None => None,
        Some(plan) => Some(plan_record(plan)),
    };
    let activation = match row.activation {
        None => None,
        Some(activation) => Some(ActivationRecord {
            plan: plan_record(activation.plan),
            priority: activation.priority,
        }),
    };
    Ok(TaskRecord {
        standing,
        continuation,
        activation,
    })
}

/// What is recorded of each row. No last moment is 2^64 - 1, since that is one of a series that goes on for ever.
pub fn rows_recorded(alloc: Global, rows: &[TaskRow]) -> Result<Listing<TaskRecord>, NoMemory>
    ensures records { IfOk result (λ tasks. tasks ≡ map row_record rows.now) }
    ensures ends { IfOk result (AllByRecursion EndSooner) }
{
    let mut tasks = Vec::with_capacity(alloc, rows.len())?;
    for row in rows {
        tasks.push(row_recorded(alloc, *row)?)?;
    }
    Ok(Listing::new(tasks))
}

// ---- what is made

fn made_series(series: SeriesRecord) -> Series
    ensures { result ≡ made_series_of series }
{
    let last = match series.last {
        None => u64::MAX,
        Some(last) => last,
    };
    Series {
        first: series.first,
        period: series.period,
        last,
    }
}

fn made_end(end: EndRecord) -> End
    requires { IsEnd end }
    ensures { result ≡ made_end_of end }
{
    match end {
        EndRecord::Never => End::Never,
        EndRecord::Until(time) => End::Until(time as u32),
        EndRecord::During(time) => End::During(time),
    }
}

fn made_plan(setup: &Setup, plan: PlanRecord) -> Plan
    requires few { length setup.now.devices ≤ 396 }
    requires plan { IsPlan setup.now plan }
    ensures { result ≡ made_plan_of plan }
{
    let when = match plan.when {
        None => None,
        Some(interrupt) => Some(interrupt as u32),
    };
    let series = match plan.series {
        None => None,
        Some(series) => Some(made_series(series)),
    };
    Plan {
        when,
        after: plan.after,
        period: plan.period,
        end: made_end(plan.end),
        series,
    }
}

fn starts_with(kept: &[u8]) -> Kept
    ensures { result ≡ starts_with_of kept.now }
{
    match kept.len() {
        0 => Kept::Nothing,
        1 => Kept::One(kept[0]),
        2 => Kept::Two(kept[0], kept[1]),
        _ => Kept::Three(kept[0], kept[1], kept[2]),
    }
}

fn made_mode(standing: &Standing) -> Mode
    ensures { result ≡ mode_in standing.now }
{
    match standing {
        Standing::Dormant => Mode::Dormant,
        Standing::Active {
            priority,
            suspended,
            ..
        } => Mode::Active {
            priority: *priority,
            suspended: *suspended,
        },
    }
}

fn made_kept(standing: &Standing) -> Kept
    ensures { result ≡ kept_in standing.now }
{
    match standing {
        Standing::Dormant => Kept::Nothing,
        Standing::Active { kept, .. } => starts_with(kept.as_slice()),
    }
}

fn made_row(setup: &Setup, declared: u8, task: &TaskRecord) -> TaskRow
    requires few { length setup.now.devices ≤ 396 }
    requires planned { IsPlanned setup.now task.now }
    ensures { result ≡ made_row_of declared task.now }
{
    let continuation = match task.continuation {
        None => None,
        Some(plan) => Some(made_plan(setup, plan)),
    };
    let activation = match task.activation {
        None => None,
        Some(start) => Some(Activation {
            plan: made_plan(setup, start.plan),
            priority: start.priority,
        }),
    };
    TaskRow {
        mode: made_mode(&task.standing),
        declared,
        kept: made_kept(&task.standing),
        continuation,
        activation,
    }
}

/// The row of each task that a record makes, over these tables.
pub fn rows_made(
    alloc: Global,
    setup: &Setup,
    tasks: &[TaskRecord],
) -> Result<Vec<TaskRow>, NoMemory>
    requires few { length setup.now.devices ≤ 396 }
    requires tasks { length tasks.now ≡ length setup.now.tasks }
    requires planned { AllByRecursion (IsPlanned setup.now) tasks.now }
    ensures made { IfOk result (λ rows. rows.items ≡ rows_made_of (map (λ task. task.priority) setup.now.tasks) tasks.now) }
    ensures size { IfOk result (λ rows. length rows.items ≡ length setup.now.tasks) }
{
    let entries = setup.tasks.as_slice();
    let mut rows = Vec::with_capacity(alloc, entries.len())?;
    for (place, entry) in entries.iter().enumerate() {
        rows.push(made_row(setup, entry.priority, &tasks[place]))?;
    }
    Ok(rows)
}

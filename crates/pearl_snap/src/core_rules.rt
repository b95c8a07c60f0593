// What the core of a run must be, rule by rule.

ghost use Rattle.std.specs.Prelude.{◌≡◌, ◌↔◌, ◌==◌, ◌<◌, IsTrue, IfSome, length, slice_get};
ghost use Rattle.std.specs.List.{AllByRecursion, AllZip};
ghost use Rattle.pearl_value.specs.Counts.{IsPreset};
ghost use Rattle.pearl_value.specs.Devices.{sort_rank};
ghost use Rattle.pearl_value.specs.WellFormed.{IsTyped, IsValue, IsValueOf};
ghost use Rattle.pearl_rules.specs.Slots.{IsUrgency};
ghost use Rattle.pearl_rules.specs.Tables.{IsInterrupt};
ghost use Rattle.pearl_instructions.specs.Lawful.{IsObject};
ghost use Rattle.pearl_instructions.specs.Setups.{setup_of};
ghost use Rattle.pearl_records.specs.States as states;
ghost use Rattle.pearl_records.specs.States.{count_of_sort, input_kinds, WaitsTyped, WaitsOf, IsUrgent, HasUrgencies, HasNumbers, IsEnd, IsSeries, IsPlan, IsPlanned, HasSpans};
ghost use Rattle.pearl_snap.specs.Parts.{slot_kinds, HoldsValues, HasParts};

use pearl_instructions::object::Parts;
use pearl_records::record::{
    ActivationRecord, CoreRecord, EndRecord, PlanRecord, SeriesRecord, Standing, TaskRecord,
};
use pearl_value::cell::Cell;
use pearl_value::conversion;
use pearl_value::device::Device;
use pearl_value::kind::Kind;
use pearl_value::listing::Listing;

const DAY: u64 = 86_400_000;

const LONGEST: u64 = 1 << 40;

fn are_counts(counts: &[u64]) -> bool
    ensures { IsTrue result ↔ AllByRecursion IsPreset counts.now }
{
    for count in counts {
        if *count >= 1 << 31 {
            return false;
        }
    }
    true
}

fn is_typed(byte: u8) -> bool
    ensures { IsTrue result ↔ IsTyped byte }
{
    byte == 10 || (byte >= 32 && byte <= 126)
}

fn are_typed(pending: &[u8]) -> bool
    ensures { IsTrue result ↔ AllByRecursion IsTyped pending.now }
{
    for byte in pending {
        if !is_typed(*byte) {
            return false;
        }
    }
    true
}

fn waits_typed(pending: &[u8]) -> bool
    ensures { IsTrue result ↔ WaitsTyped pending.now }
{
    pending.len() <= 4096 && are_typed(pending)
}

fn are_terminals(terminals: &[Listing<u8>]) -> bool
    ensures { IsTrue result ↔ AllByRecursion WaitsTyped terminals.now }
{
    for pending in terminals {
        if !waits_typed(pending.as_slice()) {
            return false;
        }
    }
    true
}

fn is_value_of(kind: Kind, cell: &Cell) -> bool
    requires { IsValue cell.now }
    ensures { IsTrue result ↔ IsValueOf kind cell.now }
{
    conversion::kind(cell) == kind
}

fn are_values_of(kind: Kind, cells: &[Cell]) -> bool
    requires { AllByRecursion IsValue cells.now }
    ensures { IsTrue result ↔ AllByRecursion (IsValueOf kind) cells.now }
{
    for cell in cells {
        if !is_value_of(kind, cell) {
            return false;
        }
    }
    true
}

fn has_slots(object: &Parts, slots: &[Cell]) -> bool
    requires { AllByRecursion IsValue slots.now }
    ensures { IsTrue result ↔ AllZip IsValueOf (slot_kinds object.now) slots.now }
{
    let mut rest = slots;
    for leaf in object.leaves.as_slice() {
        let count = leaf.slots as usize;
        if rest.len() < count {
            return false;
        }
        if !are_values_of(leaf.kind, &rest[..count]) {
            return false;
        }
        rest = &rest[count..];
    }
    rest.is_empty()
}

fn waits_of(kind: Kind, pending: &[Cell]) -> bool
    requires { AllByRecursion IsValue pending.now }
    ensures { IsTrue result ↔ WaitsOf kind pending.now }
{
    pending.len() <= 256 && are_values_of(kind, pending)
}

fn has_inputs(object: &Parts, inputs: &[Listing<Cell>]) -> bool
    requires { AllByRecursion (AllByRecursion IsValue) inputs.now }
    ensures { IsTrue result ↔ AllZip WaitsOf (input_kinds object.now.devices) inputs.now }
{
    let mut rest = inputs;
    for device in object.devices.as_slice() {
        if let Device::Input { kind, .. } = *device {
            if rest.is_empty() {
                return false;
            }
            if !waits_of(kind, rest[0].as_slice()) {
                return false;
            }
            rest = &rest[1..];
        }
    }
    rest.is_empty()
}

fn sort_rank(device: Device) -> u8
    ensures { result ≡ sort_rank device }
{
    match device {
        Device::Interrupt { .. } => 0,
        Device::Terminal { .. } => 1,
        Device::Input { .. } => 2,
        Device::Output { .. } => 3,
    }
}

fn count_of_sort(object: &Parts, sort: u8) -> usize
    ensures { result ≡ count_of_sort object.now.devices sort }
{
    let devices = object.devices.as_slice();
    devices
        .iter()
        .filter(|device| sort_rank(**device) == sort)
        .count()
}

fn has_semaphores(object: &Parts, counts: &[u64]) -> bool
    ensures { IsTrue result ↔ ((length counts.now ≡ length object.now.semaphores) × AllByRecursion IsPreset counts.now) }
{
    counts.len() == object.semaphores.as_slice().len() && are_counts(counts)
}

fn has_terminals(object: &Parts, terminals: &[Listing<u8>]) -> bool
    ensures { IsTrue result ↔ ((length terminals.now ≡ count_of_sort object.now.devices 1) × AllByRecursion WaitsTyped terminals.now) }
{
    terminals.len() == count_of_sort(object, 1) && are_terminals(terminals)
}

// Whether each part of a core is there and holds what it may.
fn has_each_part(object: &Parts, core: &CoreRecord) -> bool
    requires { HoldsValues core.now }
    ensures { IsTrue result ↔ HasParts object.now core.now }
{
    has_slots(object, core.slots.as_slice())
        && has_semaphores(object, core.counts.as_slice())
        && core.switches.as_slice().len() == count_of_sort(object, 0)
        && has_terminals(object, core.terminals.as_slice())
        && has_inputs(object, core.inputs.as_slice())
        && core.tasks.as_slice().len() == object.tasks.as_slice().len()
}

/// Whether all parts of a core are there and hold what they may (N2).
pub fn has_parts(object: &Parts, core: &CoreRecord) -> bool
    requires { HoldsValues core.now }
    ensures leaves { IsTrue result ↔ HasParts object.now core.now }
    ensures tables { IsObject object.now → IsTrue result ↔ states.HasParts (setup_of object.now) core.now }
{
    has_each_part(object, core)
}

fn is_urgency(priority: u8) -> bool
    ensures { IsTrue result ↔ IsUrgency priority }
{
    priority > 0
}

fn are_urgencies(kept: &[u8]) -> bool
    ensures { IsTrue result ↔ AllByRecursion IsUrgency kept.now }
{
    for start in kept {
        if !is_urgency(*start) {
            return false;
        }
    }
    true
}

fn is_urgent(standing: &Standing) -> bool
    ensures { IsTrue result ↔ IsUrgent standing.now }
{
    match standing {
        Standing::Dormant => true,
        Standing::Active { priority, kept, .. } => {
            let kept = kept.as_slice();
            is_urgency(*priority) && kept.len() <= 3 && are_urgencies(kept)
        }
    }
}

fn starts_urgently(activation: Option<ActivationRecord>) -> bool
    ensures { IsTrue result ↔ IfSome activation (λ start. IsUrgency start.priority) }
{
    match activation {
        None => true,
        Some(start) => is_urgency(start.priority),
    }
}

fn has_urgencies(row: &TaskRecord) -> bool
    ensures { IsTrue result ↔ HasUrgencies row.now }
{
    is_urgent(&row.standing) && starts_urgently(row.activation)
}

fn have_urgencies(rows: &[TaskRecord]) -> bool
    ensures { IsTrue result ↔ AllByRecursion HasUrgencies rows.now }
{
    for row in rows {
        if !has_urgencies(row) {
            return false;
        }
    }
    true
}

fn is_among(last: Option<u64>, tasks: usize) -> bool
    ensures { IsTrue result ↔ IfSome last (λ task. task < tasks) }
{
    match last {
        None => true,
        Some(task) => task < tasks as u64,
    }
}

/// Whether the moment, the clock, who acted last and all priorities are lawful (N3).
pub fn has_numbers(object: &Parts, core: &CoreRecord) -> bool
    ensures { IsTrue result ↔ HasNumbers (setup_of object.now) core.now }
{
    core.moment <= LONGEST
        && core.clock < DAY
        && is_among(core.last, object.tasks.as_slice().len())
        && have_urgencies(core.tasks.as_slice())
}

fn is_end(end: EndRecord) -> bool
    ensures { IsTrue result ↔ IsEnd end }
{
    match end {
        EndRecord::Never => true,
        EndRecord::Until(time) => time < DAY,
        EndRecord::During(time) => time <= LONGEST,
    }
}

fn is_series(series: Option<SeriesRecord>) -> bool
    ensures { IsTrue result ↔ IfSome series IsSeries }
{
    match series {
        None => true,
        Some(series) => series.first <= 1 << 42 && series.period <= LONGEST,
    }
}

fn waits_for(object: &Parts, when: Option<u64>) -> bool
    ensures { IsTrue result ↔ IfSome when (λ interrupt. IsInterrupt (slice_get object.now.devices interrupt)) }
{
    match when {
        None => true,
        Some(interrupt) => match object.devices.as_slice().get(interrupt as usize).copied() {
            Some(Device::Interrupt { .. }) => true,
            _ => false,
        },
    }
}

/// Whether a plan is lawful.
pub fn is_plan(object: &Parts, plan: PlanRecord) -> bool
    ensures { IsTrue result ↔ IsPlan (setup_of object.now) plan }
{
    waits_for(object, plan.when)
        && plan.after <= LONGEST
        && plan.period <= LONGEST
        && is_end(plan.end)
        && is_series(plan.series)
        && (plan.when.is_some() || plan.series.is_some())
}

fn is_dormant(standing: &Standing) -> bool
    ensures { IsTrue result ↔ (standing.now ≡ Standing.Dormant) }
{
    match standing {
        Standing::Dormant => true,
        Standing::Active { .. } => false,
    }
}

fn goes_on(object: &Parts, continuation: Option<PlanRecord>) -> bool
    ensures { IsTrue result ↔ IfSome continuation (IsPlan (setup_of object.now)) }
{
    match continuation {
        None => true,
        Some(plan) => is_plan(object, plan),
    }
}

fn starts(object: &Parts, activation: Option<ActivationRecord>) -> bool
    ensures { IsTrue result ↔ IfSome activation (λ start. IsPlan (setup_of object.now) start.plan) }
{
    match activation {
        None => true,
        Some(start) => is_plan(object, start.plan),
    }
}

fn is_planned(object: &Parts, row: &TaskRecord) -> bool
    ensures { IsTrue result ↔ IsPlanned (setup_of object.now) row.now }
{
    !(is_dormant(&row.standing) && row.continuation.is_some())
        && goes_on(object, row.continuation)
        && starts(object, row.activation)
}

/// Whether all plans are lawful, and no dormant task is to go on (N4).
pub fn has_plans(object: &Parts, core: &CoreRecord) -> bool
    ensures { IsTrue result ↔ HasSpans (setup_of object.now) core.now }
{
    for row in core.tasks.as_slice() {
        if !is_planned(object, row) {
            return false;
        }
    }
    true
}

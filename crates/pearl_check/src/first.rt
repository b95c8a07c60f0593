// The first of all rules that a module breaks, and its sizes.
#![tactic(auto, using(std::proofs::lemmas::Grind::common_steps))]

ghost use Rattle.std.specs.Prelude.{◌≡◌, ◌≢◌, ◌↔◌, ◌+◌, ℕ, List, [], map, nat_lt, IfOk, IfSome, IsNone};
ghost use Rattle.std.specs.List.{flat_map};
ghost use Rattle.pearl_tree.specs.declared.fault.RuleFault.{RuleFault as RuleFaultOf};
ghost use Rattle.pearl_tree.specs.Faults.{ListFaults, fault_if};
ghost use Rattle.pearl_tree.specs.ShownModules.{shown_tree};
ghost use Rattle.pearl_calls.specs.Cycles as cycles;
ghost use Rattle.pearl_calls.specs.Numberings.{IsNumbering};
ghost use Rattle.pearl_calls.specs.Weights.{capped, weights_of, whole_weight};
ghost use Rattle.pearl_names.specs.Holding.{HoldsTable};
ghost use Rattle.pearl_names.specs.Tables as tables;
ghost use Rattle.pearl_system.specs.Devices.{IsDevice, device_key};
ghost use Rattle.pearl_system.specs.Rising.{Lists};
ghost use Rattle.pearl_check.specs.declared.limit.TheConstants as limit;
ghost use Rattle.pearl_check.specs.Calls as calls_spec;
ghost use Rattle.pearl_check.specs.Checks.{module_callers, sizes_of};
ghost use Rattle.pearl_check.specs.Routines as routines_spec;
ghost use Rattle.pearl_check.specs.Rules as spec;
ghost use Rattle.pearl_check.specs.Sizes as sizes_spec;
ghost use Rattle.pearl_check.specs.SizeSorts.{cut_sizes, sizes_in};
ghost use Rattle.pearl_check.specs.Weighing as weighing;
ghost use Rattle.pearl_check.specs.Weighing.{HoldsWeighed, held_caller, place_of};

use crate::callers::{Routines, routines_of};
use crate::limit::CELLS_MAX;
use crate::rules::statement_faults;
use crate::sizes::{Sizes, tell_sizes};
use pearl_calls::caller::Caller;
use pearl_calls::cycle::calls_itself;
use pearl_calls::numbering::{Numbering, number_procedures};
use pearl_calls::weight::{weight_of, weights};
use pearl_names::table::SenseTable;
use pearl_scope::scopes;
use pearl_system::device::Devices;
use pearl_system::system;
use pearl_tree::fault::{RuleFault, in_order};
use pearl_tree::rule;
use pearl_tree::tree::Tree;
use std::alloc::{AllocError as NoMemory, Global};

fn is_before(fault: RuleFault, other: RuleFault) -> bool
    ensures { result ≡ spec.is_before fault other }
{
    fault.place < other.place || (fault.place == other.place && fault.rule < other.rule)
}

fn earlier(told: Option<RuleFault>, other: Option<RuleFault>) -> Option<RuleFault>
    ensures { result ≡ spec.earlier_of told other }
{
    match (told, other) {
        (Some(fault), Some(found)) => Some(if is_before(found, fault) {
            found
        } else {
            fault
        }),
        (Some(fault), None) => Some(fault),
        (None, other) => other,
    }
}

// What is told once a rule at a place may be broken as well.
fn told_with(told: Option<RuleFault>, broken: bool, place: u32, rule: u8) -> Option<RuleFault>
    ensures { result ≡ spec.earlier_of told (spec.first (fault_if broken place rule)) }
{
    if broken {
        earlier(told, Some(RuleFault { place, rule }))
    } else {
        told
    }
}

// What is told already comes before this place.
fn comes_before(told: Option<RuleFault>, place: u32) -> bool
    ensures { result ≡ weighing.comes_before told place }
{
    match told {
        Some(fault) => fault.place < place,
        None => false,
    }
}

fn after(number: u32) -> Result<u32, NoMemory>
    ensures { IfOk result (λ after. after ≡ number + 1) }
{
    match number.checked_add(1) {
        Some(after) => Ok(after),
        None => Err(NoMemory),
    }
}

// S28 of one procedure, which is asked only where it would be told.
fn tell_cycle(
    alloc: Global,
    callers: &[Caller],
    number: u32,
    place: u32,
    told: Option<RuleFault>,
) -> Result<Option<RuleFault>, NoMemory>
    ensures { IfOk result (λ first. first ≡ spec.earlier_of told (spec.first (fault_if (cycles.calls_itself callers.now number) place 28))) }
{
    if comes_before(told, place) {
        return Ok(told);
    }
    let broken = calls_itself(alloc, callers, number)?;
    Ok(told_with(told, broken, place, rule::S28))
}

fn tell_cycles(
    alloc: Global,
    callers: &[Caller],
    mut places: &[u32],
    mut told: Option<RuleFault>,
) -> Result<Option<RuleFault>, NoMemory>
    ensures { IfOk result (λ first. (of : List calls_spec.Weighed) → callers.now ≡ map held_caller of → places.entry.now ≡ map place_of of →
        first ≡ spec.earlier_of told (spec.first (calls_spec.s28 of))) }
{
    let mut number = 0;
    while let [place, rest @ ..] = places {
        told = tell_cycle(alloc, callers, number, *place, told)?;
        number = after(number)?;
        places = rest;
    }
    Ok(told)
}

// The procedures of a module, of which none calls itself, with their weights.
#[derive(Clone, Copy)]
struct Weights<'a> {
    procedures: &'a [Caller],
    numbering: &'a Numbering,
    weights: &'a [u32],
}

fn is_overweight(weights: &Weights<'_>, caller: &Caller) -> bool
    requires numbering { IsNumbering weights.now.procedures.now weights.now.numbering.now }
    requires weights { weights.now.weights.now ≡ weights_of weights.now.procedures.now }
    ensures { result ≡ nat_lt limit.CELLS_MAX (capped (whole_weight weights.now.procedures.now caller.now)) }
{
    let weight = weight_of(
        weights.procedures,
        weights.numbering,
        weights.weights,
        caller,
    );
    CELLS_MAX < weight
}

fn tell_overweight(
    weights: &Weights<'_>,
    mut places: &[u32],
    mut callers: &[Caller],
    mut told: Option<RuleFault>,
) -> Option<RuleFault>
    requires numbering { IsNumbering weights.now.procedures.now weights.now.numbering.now }
    requires weights { weights.now.weights.now ≡ weights_of weights.now.procedures.now }
    ensures { (procedures of : List calls_spec.Weighed) → weights.now.procedures.now ≡ map held_caller procedures →
        places.entry.now ≡ map place_of of → callers.entry.now ≡ map held_caller of →
        result ≡ spec.earlier_of told (spec.first (flat_map (sizes_spec.overweight (calls_spec.callers_of procedures)) of)) }
{
    while let [place, other_places @ ..] = places {
        let [caller, other_callers @ ..] = callers else {
            return told;
        };
        told = told_with(told, is_overweight(weights, caller), *place, rule::S34);
        places = other_places;
        callers = other_callers;
    }
    told
}

fn tell_weights(
    alloc: Global,
    routines: &Routines,
    numbering: &Option<Numbering>,
    told: Option<RuleFault>,
) -> Result<Option<RuleFault>, NoMemory>
    requires none { IsNone numbering.now ↔ cycles.SomeCallsItself routines.now.procedures.callers.items }
    requires rule { IfSome numbering.now (λ order. IsNumbering routines.now.procedures.callers.items order) }
    ensures { IfOk result (λ first. (procedures tasks : List calls_spec.Weighed) →
        HoldsWeighed routines.now.procedures procedures → HoldsWeighed routines.now.tasks tasks →
        first ≡ spec.earlier_of told (spec.first (sizes_spec.weights (calls_spec.s28 procedures) procedures tasks))) }
{
    let procedures = routines.procedures.callers.as_slice();
    let Some(numbering) = numbering else {
        return Ok(told);
    };
    let found = weights(alloc, procedures, numbering)?;
    let weights = Weights {
        procedures,
        numbering,
        weights: found.as_slice(),
    };
    let told = tell_overweight(
        &weights,
        routines.procedures.places.as_slice(),
        procedures,
        told,
    );
    let tasks = &routines.tasks;
    let told = tell_overweight(
        &weights,
        tasks.places.as_slice(),
        tasks.callers.as_slice(),
        told,
    );
    Ok(told)
}

fn told_of(faults: &[RuleFault]) -> Option<RuleFault>
    ensures { (broken : List RuleFaultOf) → ListFaults broken faults.now → result ≡ spec.first broken }
{
    faults.first().copied()
}

// What is told of a module as a whole, its sizes, cut off at 2^31, and the numbers of its procedures, where none calls
// itself.
#[derive(Drop)]
struct Whole {
    told: Option<RuleFault>,
    sizes: Sizes,
    numbering: Option<Numbering>,
}

fn tell_module(
    alloc: Global,
    table: &SenseTable,
    tree: &Tree,
    told: Option<RuleFault>,
) -> Result<Whole, NoMemory>
    ensures told { IfOk result (λ whole. (t : tables.Table) → HoldsTable table.now t →
        whole.told ≡ spec.earlier_of told (spec.first (spec.module_faults t (shown_tree tree.now)))) }
    ensures sizes { IfOk result (λ whole. (t : tables.Table) → HoldsTable table.now t →
        whole.sizes ≡ cut_sizes (sizes_in (sizes_spec.declared_in t))) }
    ensures none { IfOk result (λ whole. (t : tables.Table) → HoldsTable table.now t → IsNone whole.numbering →
        calls_spec.s28 (sizes_spec.weighed_procedures t (routines_spec.routines_of (shown_tree tree.now))) ≢ []) }
    ensures rule { IfOk result (λ whole. (t : tables.Table) → HoldsTable table.now t → IfSome whole.numbering (λ order.
        IsNumbering (calls_spec.callers_of (sizes_spec.weighed_procedures t (routines_spec.routines_of (shown_tree tree.now)))) order)) }
{
    let mut faults = Vec::new(alloc);
    let sizes = tell_sizes(table, &mut faults)?;
    let faults = in_order(faults);
    let told = earlier(told, told_of(faults.as_slice()));
    let routines = routines_of(alloc, table, tree.declarations.as_slice())?;
    let procedures = &routines.procedures;
    let numbering = number_procedures(alloc, procedures.callers.as_slice())?;
    let told = tell_cycles(
        alloc,
        procedures.callers.as_slice(),
        procedures.places.as_slice(),
        told,
    )?;
    let told = tell_weights(alloc, &routines, &numbering, told)?;
    Ok(Whole {
        told,
        sizes,
        numbering,
    })
}

// What is told of a module, its sizes, cut off at 2^31, and what its names and devices are.
#[derive(Drop)]
pub(crate) struct Judged {
    pub(crate) told: Option<RuleFault>,
    pub(crate) sizes: Sizes,
    pub(crate) table: SenseTable,
    pub(crate) devices: Devices,
    pub(crate) numbering: Option<Numbering>,
}

/// The first rule that a module breaks, with its sizes, names and devices, and the numbers of its procedures where none
/// calls itself.
pub(crate) fn judge(alloc: Global, tree: &Tree) -> Result<Judged, NoMemory>
    ensures told { IfOk result (λ judged. judged.told ≡ spec.first (spec.all_broken (shown_tree tree.now))) }
    ensures sizes { IfOk result (λ judged. judged.sizes ≡ cut_sizes (sizes_of (shown_tree tree.now))) }
    ensures table { IfOk result (λ judged. HoldsTable judged.table (tables.table_of (shown_tree tree.now))) }
    ensures devices { IfOk result (λ judged. Lists device_key (IsDevice (shown_tree tree.now)) judged.devices) }
    ensures none { IfOk result (λ judged. IsNone judged.numbering → spec.all_broken (shown_tree tree.now) ≢ []) }
    ensures rule { IfOk result (λ judged. IfSome judged.numbering (λ order. IsNumbering (module_callers (shown_tree tree.now)) order)) }
{
    let (table, names) = scopes(alloc, tree)?;
    let (devices, faults) = system(alloc, tree)?;
    let statements = statement_faults(alloc, &table, tree)?;
    let told = earlier(told_of(names.as_slice()), told_of(faults.as_slice()));
    let told = earlier(told, told_of(statements.as_slice()));
    let whole = tell_module(alloc, &table, tree, told)?;
    Ok(Judged {
        told: whole.told,
        sizes: whole.sizes,
        table,
        devices,
        numbering: whole.numbering,
    })
}

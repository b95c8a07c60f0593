// Which of the rules on names, types and declarations a module breaks.
#![tactic(auto, using(crate::proofs::PartLists::part_steps, std::proofs::lemmas::Grind::common_steps))]

ghost use Rattle.std.specs.Prelude.{◌≡◌, ◌++◌, [], List, Option, option_map, map, IfOk, OnOk};
ghost use Rattle.std.specs.List.{flat_map};
ghost use Rattle.pearl_tree.specs.declared.name.Name.{Name as NameOf};
ghost use Rattle.pearl_tree.specs.declared.rule.TheConstants.{S5, S6};
ghost use Rattle.pearl_tree.specs.Faults as faults_spec;
ghost use Rattle.pearl_tree.specs.Faults.{ListFaults};
ghost use Rattle.pearl_tree.specs.Names.{repeats};
ghost use Rattle.pearl_tree.specs.ShownModules.{shown_tree};
ghost use Rattle.pearl_names.specs.Counts.{counts as counts_of_leaves};
ghost use Rattle.pearl_names.specs.Forming.{AllMatch, Grows, fields_shown};
ghost use Rattle.pearl_names.specs.Layout.{Leaf};
ghost use Rattle.pearl_names.specs.Shapes.{Shape, field_names};
ghost use Rattle.pearl_scope.specs.Seen.{Sees};
ghost use Rattle.pearl_scope.specs.Rules as spec;
ghost use Rattle.pearl_scope.specs.PartLists.{shown_part, parts_in};

use crate::init::s7_at;
use crate::module_part::parts_of_module;
use crate::part::Part;
use pearl_names::duration::is_too_long;
use pearl_names::forms::{Types, is_sound_bound, types_of};
use pearl_names::layout::{has_sound_leaves, item_counts};
use pearl_names::length::{Lengths, is_length, lengths_set};
use pearl_names::meaning::{sort_from, sort_within};
use pearl_names::names::{FirstNames, ScopeTable, note};
use pearl_names::scope::NameSort;
use pearl_names::sorted::names_of_module;
use pearl_names::types::Counts;
use pearl_tree::fault::{RuleFault, in_order};
use pearl_tree::name::{Name, Number};
use pearl_tree::rule;
use pearl_tree::tree::Tree;
use pearl_tree::typing::Field;
use std::alloc::{AllocError as NoMemory, Global};
use std::collections::BTreeMap;

/// The greatest number of PRESET.
const GREATEST_PRESET: u64 = (1 << 31) - 1;

// Tells a fault where the test is true.
pub(crate) fn fault_if(
    faults: &mut Vec<RuleFault>,
    broken: bool,
    place: u32,
    rule: u8,
) -> Result<(), NoMemory>
    ensures { OnOk result (faults.new.items ≡ faults.old.items ++ faults_spec.fault_if broken place rule) }
{
    if broken {
        faults.push(RuleFault { place, rule })?;
    }
    Ok(())
}

// S1: at each name that is declared twice in one scope.
fn s1_faults(faults: &mut Vec<RuleFault>, scopes: &[ScopeTable]) -> Result<(), NoMemory>
    ensures { OnOk result (faults.new.items ≡ faults.old.items ++ flat_map spec.s1 scopes.now) }
{
    for scope in scopes {
        faults.extend_from_slice(scope.repeats())?;
    }
    Ok(())
}

fn s2_at(
    faults: &mut Vec<RuleFault>,
    scopes: &[ScopeTable],
    part: &Part<'_>,
) -> Result<(), NoMemory>
    ensures { OnOk result (faults.new.items ≡ faults.old.items ++ spec.s2 scopes.now (shown_part part.now)) }
{
    if let Part::Used { view, name } = part {
        let sort = sort_from(scopes, *view, &name.text);
        fault_if(faults, sort.is_none(), name.place, rule::S2)?;
    }
    Ok(())
}

fn is_later_or_no_type(types: u32, sort: Option<NameSort>) -> bool
    ensures { result ≡ spec.is_later_or_no_type types sort }
{
    match sort {
        None => false,
        Some(NameSort::NewType(number)) => types <= number,
        Some(NameSort::Variable) => true,
        Some(NameSort::Control) => true,
        Some(NameSort::Parameter) => true,
        Some(NameSort::Semaphore) => true,
        Some(NameSort::Interrupt) => true,
        Some(NameSort::Dation) => true,
        Some(NameSort::Task) => true,
        Some(NameSort::Procedure) => true,
    }
}

fn s3_at(
    faults: &mut Vec<RuleFault>,
    scopes: &[ScopeTable],
    part: &Part<'_>,
) -> Result<(), NoMemory>
    ensures { OnOk result (faults.new.items ≡ faults.old.items ++ spec.s3 scopes.now (shown_part part.now)) }
{
    if let Part::UsedAsType { scope, types, name } = part {
        let sort = sort_within(scopes, *scope, &name.text);
        fault_if(
            faults,
            is_later_or_no_type(*types, sort),
            name.place,
            rule::S3,
        )?;
    }
    Ok(())
}

fn s4_at(faults: &mut Vec<RuleFault>, part: &Part<'_>) -> Result<(), NoMemory>
    ensures { OnOk result (faults.new.items ≡ faults.old.items ++ spec.s4 (shown_part part.now)) }
{
    match part {
        Part::Length { sort, number } => fault_if(
            faults,
            !is_length(*sort, number.value),
            number.place,
            rule::S4,
        ),
        Part::Lasts(duration) => {
            fault_if(faults, is_too_long(duration), duration.place(), rule::S4)
        }
        Part::Used { .. } => Ok(()),
        Part::UsedAsType { .. } => Ok(()),
        Part::Bounds(_) => Ok(()),
        Part::Struct(_) => Ok(()),
        Part::Item { .. } => Ok(()),
        Part::Sema(_) => Ok(()),
    }
}

fn s8_at(faults: &mut Vec<RuleFault>, part: &Part<'_>) -> Result<(), NoMemory>
    ensures { OnOk result (faults.new.items ≡ faults.old.items ++ spec.s8 (shown_part part.now)) }
{
    if let Part::Item { item, .. } = part {
        let without = item.inv && item.init.as_slice().is_empty();
        if let [first, ..] = item.names.as_slice() {
            fault_if(faults, without, first.place, rule::S8)?;
        }
    }
    Ok(())
}

// Where so many names are left for the numbers of PRESET.
fn unfit_presets(
    faults: &mut Vec<RuleFault>,
    mut names: usize,
    mut preset: &[Number],
) -> Result<(), NoMemory>
    ensures { OnOk result
        (faults.new.items ≡ faults.old.items ++ spec.unfit_presets names preset.entry.now) }
{
    while let [number, rest @ ..] = preset {
        let unfit = names < 1 || GREATEST_PRESET < number.value;
        fault_if(faults, unfit, number.place, rule::S9)?;
        names = names.saturating_sub(1);
        preset = rest;
    }
    Ok(())
}

fn s9_at(faults: &mut Vec<RuleFault>, part: &Part<'_>) -> Result<(), NoMemory>
    ensures { OnOk result (faults.new.items ≡ faults.old.items ++ spec.s9 (shown_part part.now)) }
{
    if let Part::Sema(sema) = part {
        let names = sema.names.as_slice().len();
        unfit_presets(faults, names, sema.preset.as_slice())?;
    }
    Ok(())
}

// Tells each of these names that has the text of one seen before.
fn tell_repeats(
    faults: &mut Vec<RuleFault>,
    seen: &mut FirstNames,
    names: &[Name],
) -> Result<(), NoMemory>
    ensures { OnOk result ((before : List NameOf) → Sees seen.old.entries before →
        Sees seen.new.entries (before ++ names.now) ×
        (faults.new.items ≡ faults.old.items ++ repeats S6 before names.now)) }
{
    for name in names {
        let again = note(seen, &name.text, 0)?;
        fault_if(faults, again, name.place, rule::S6)?;
    }
    Ok(())
}

fn repeated_fields(
    alloc: Global,
    faults: &mut Vec<RuleFault>,
    fields: &[Field],
) -> Result<(), NoMemory>
    ensures { OnOk result
        (faults.new.items ≡ faults.old.items ++ repeats S6 [] (field_names (fields_shown fields.now))) }
{
    let mut seen = BTreeMap::new(alloc);
    for field in fields {
        tell_repeats(faults, &mut seen, field.names.as_slice())?;
    }
    Ok(())
}

fn s6_at(alloc: Global, faults: &mut Vec<RuleFault>, part: &Part<'_>) -> Result<(), NoMemory>
    ensures { OnOk result (faults.new.items ≡ faults.old.items ++ spec.s6 (shown_part part.now)) }
{
    if let Part::Struct(fields) = part {
        repeated_fields(alloc, faults, fields.as_slice())?;
    }
    Ok(())
}

fn s5_of_names(
    faults: &mut Vec<RuleFault>,
    broken: bool,
    mut names: &[Name],
) -> Result<(), NoMemory>
    ensures { OnOk result (faults.new.items ≡ faults.old.items ++ spec.fault_at_names broken names.entry.now S5) }
{
    while let [name, rest @ ..] = names {
        fault_if(faults, broken, name.place, rule::S5)?;
        names = rest;
    }
    Ok(())
}

fn has_unsound_leaf(counts: Option<Counts>) -> bool
    ensures { (leaves : Option (List Leaf)) → counts ≡ option_map counts_of_leaves leaves → result ≡ spec.has_unsound_leaf leaves }
{
    match counts {
        Some(counts) => !has_sound_leaves(counts),
        None => false,
    }
}

fn s5_at(
    alloc: Global,
    faults: &mut Vec<RuleFault>,
    scopes: &[ScopeTable],
    lengths: &Lengths,
    types: &mut Types,
    part: &Part<'_>,
) -> Result<(), NoMemory>
    ensures grows { OnOk result (Grows types.old.forms.items types.new.forms.items) }
    ensures named { OnOk result (types.new.named.items ≡ types.old.named.items) }
    ensures faults { OnOk result ((shapes : List (Option Shape)) → AllMatch types.old.forms.items types.old.named.items shapes →
        faults.new.items ≡ faults.old.items ++
        spec.s5 (record { scopes = scopes.now; lengths = lengths.now; shapes = shapes }) (shown_part part.now)) }
{
    match part {
        Part::Bounds(bound) => {
            fault_if(faults, !is_sound_bound(bound), bound.place, rule::S5)?;
            Ok(())
        }
        Part::Item {
            scope,
            types: count,
            item,
        } => {
            let counts = item_counts(alloc, scopes, lengths, types, *scope, *count, item)?;
            s5_of_names(faults, has_unsound_leaf(counts), item.names.as_slice())?;
            Ok(())
        }
        Part::Used { .. } => Ok(()),
        Part::UsedAsType { .. } => Ok(()),
        Part::Length { .. } => Ok(()),
        Part::Lasts(_) => Ok(()),
        Part::Struct(_) => Ok(()),
        Part::Sema(_) => Ok(()),
    }
}

// The rules other than S1.
fn rules_at(
    alloc: Global,
    faults: &mut Vec<RuleFault>,
    scopes: &[ScopeTable],
    lengths: &Lengths,
    types: &mut Types,
    part: &Part<'_>,
) -> Result<(), NoMemory>
    ensures grows { OnOk result (Grows types.old.forms.items types.new.forms.items) }
    ensures named { OnOk result (types.new.named.items ≡ types.old.named.items) }
    ensures faults { OnOk result ((shapes : List (Option Shape)) → AllMatch types.old.forms.items types.old.named.items shapes →
        faults.new.items ≡ faults.old.items ++
        spec.part_faults (record { scopes = scopes.now; lengths = lengths.now; shapes = shapes }) (shown_part part.now)) }
{
    s2_at(faults, scopes, part)?;
    s3_at(faults, scopes, part)?;
    s4_at(faults, part)?;
    s5_at(alloc, faults, scopes, lengths, types, part)?;
    s6_at(alloc, faults, part)?;
    s7_at(alloc, faults, scopes, lengths, types, part)?;
    s8_at(faults, part)?;
    s9_at(faults, part)?;
    Ok(())
}

fn rules_at_all(
    alloc: Global,
    faults: &mut Vec<RuleFault>,
    scopes: &[ScopeTable],
    lengths: &Lengths,
    types: &mut Types,
    parts: &[Part<'_>],
) -> Result<(), NoMemory>
    ensures { OnOk result ((shapes : List (Option Shape)) → AllMatch types.old.forms.items types.old.named.items shapes →
        faults.new.items ≡ faults.old.items ++
        flat_map (spec.part_faults (record { scopes = scopes.now; lengths = lengths.now; shapes = shapes })) (parts_in parts.now)) }
{
    for part in parts {
        rules_at(alloc, faults, scopes, lengths, types, part)?;
    }
    Ok(())
}

/// Where a module breaks the rules S1 to S9.
pub(crate) fn broken_rules(alloc: Global, tree: &Tree) -> Result<Vec<RuleFault>, NoMemory>
    ensures { IfOk result (λ faults. ListFaults (spec.broken (shown_tree tree.now)) faults.items) }
{
    let scopes = names_of_module(alloc, tree)?;
    let lengths = lengths_set(alloc, tree)?;
    let decls = tree.declarations.as_slice();
    let mut types = types_of(alloc, scopes.as_slice(), &lengths, decls)?;
    let parts = parts_of_module(alloc, tree)?;
    let mut found = Vec::new(alloc);
    s1_faults(&mut found, scopes.as_slice())?;
    rules_at_all(
        alloc,
        &mut found,
        scopes.as_slice(),
        &lengths,
        &mut types,
        parts.as_slice(),
    )?;
    Ok(in_order(found))
}

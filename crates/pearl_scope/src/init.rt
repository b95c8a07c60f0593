// The rule S7: constants of INIT, and the slots that they are put into.

ghost use Rattle.std.specs.Prelude.{◌≡◌, ◌++◌, [], ℕ, ◌+◌, List, Option, Some, None, true, nat_lt, if◌then◌else◌, map, take, drop, length, IfOk, OnOk};
ghost use Rattle.std.specs.List.{list_all, flat_map};
ghost use Rattle.pearl_value.specs.declared.kind.Kind.{Kind as KindOf};
ghost use Rattle.pearl_value.specs.Conversions as conversions;
ghost use Rattle.pearl_tree.specs.Names.{names_of};
ghost use Rattle.pearl_tree.specs.ShownDeclarations.{shown_names, shown_item};
ghost use Rattle.pearl_tree.specs.ShownLiterals.{shown_const};
ghost use Rattle.pearl_scope.specs.Constants as spec;
ghost use Rattle.pearl_scope.specs.Filling as filling;
ghost use Rattle.pearl_scope.specs.Filling.{ahead, repeated, taken, AreFull, IsAhead, MatchesLeaves};
ghost use Rattle.pearl_names.specs.Forming.{AllMatch, Grows, around_of};
ghost use Rattle.pearl_names.specs.Kinds.{kinds_among};
ghost use Rattle.pearl_names.specs.Layout.{Leaf, item_leaves, is_sound_leaf};
ghost use Rattle.pearl_scope.specs.PartLists.{shown_part};
ghost use Rattle.pearl_scope.specs.Rules as rules_spec;
ghost use Rattle.pearl_names.specs.Shapes.{Shape};
ghost use Rattle.pearl_names.specs.Walks.{Lists};
ghost use Rattle.pearl_names.specs.declared.slots.Run.{Run as RunOf};

use crate::part::Part;
use crate::rules::fault_if;
use pearl_names::duration::is_too_long;
use pearl_names::forms::Types;
use pearl_names::kinds::{Kinds, NO_KINDS, joined_kinds};
use pearl_names::layout::{Laid, has_sound_leaves, item_laid};
use pearl_names::length::{Lengths, kind_of_length};
use pearl_names::names::ScopeTable;
use pearl_names::slots::{Run, Slots, slots_of};
use pearl_names::types::{StructForm, counts_of, kinds_of, within};
use pearl_tree::declaration::Item;
use pearl_tree::fault::RuleFault;
use pearl_tree::literal::{Const, Literal, Sign};
use pearl_tree::name::Name;
use pearl_tree::rule;
use pearl_tree::typing::Sort;
use pearl_value::kind::Kind;
use std::alloc::{AllocError as NoMemory, Global};

// Whether a sign stands before a literal that may have none.
fn has_wrong_sign(constant: &Const) -> bool
    ensures { result ≡ spec.has_wrong_sign (shown_const constant.now) }
{
    match constant.literal {
        Literal::Number(_) => false,
        Literal::Duration(_) => false,
        Literal::Bits { .. } => constant.sign.is_some(),
        Literal::Text { .. } => constant.sign.is_some(),
        Literal::Clock { .. } => constant.sign.is_some(),
    }
}

// 2 to the power `len`, where that is at most 2^64, and else 2^64.
fn end_of_fixed(len: u8) -> u128
    ensures { result ≡ filling.end_of_fixed len }
{
    if len < 64 {
        u128::from(1u64 << len)
    } else {
        1 << 64
    }
}

// Whether a number with a sign lies from -2^len to 2^len - 1.
fn fits_fixed(len: u8, sign: Option<Sign>, value: u64) -> bool
    ensures { result ≡ conversions.fits_fixed len (spec.signed sign value) }
{
    let end = end_of_fixed(len);
    match sign {
        Some(Sign::Minus) => u128::from(value) <= end,
        Some(Sign::Plus) => u128::from(value) < end,
        None => u128::from(value) < end,
    }
}

fn fits_number(sign: Option<Sign>, value: u64, kind: Kind) -> bool
    ensures { result ≡ filling.fits_number sign value kind }
{
    match kind {
        Kind::Fixed(len) => fits_fixed(len, sign, value),
        Kind::Bits(_) => false,
        Kind::Chars(_) => false,
        Kind::Clock => false,
        Kind::Span => false,
    }
}

/// Whether a constant suits a kind, and its value fits it. A duration that is too long breaks another rule, and passes
/// here.
fn fits_kind(constant: &Const, kind: Kind) -> bool
    ensures { result ≡ spec.fits_kind (shown_const constant.now) kind }
{
    match &constant.literal {
        Literal::Number(number) => fits_number(constant.sign, number.value, kind),
        Literal::Bits { len, .. } => matches!(kind, Kind::Bits(most) if *len <= most),
        Literal::Text { text, .. } => {
            matches!(kind, Kind::Chars(most) if text.len() <= most as usize)
        }
        Literal::Clock { .. } => matches!(kind, Kind::Clock),
        Literal::Duration(duration) => matches!(kind, Kind::Span) || is_too_long(duration),
    }
}

fn fits_length(constant: &Const, sort: Sort, len: Option<u8>) -> bool
    ensures { result ≡ filling.fits_length (shown_const constant.now) sort len }
{
    match len {
        Some(len) => fits_kind(constant, kind_of_length(sort, len)),
        None => true,
    }
}

fn fits_if(constant: &Const, is_asked: bool, kind: Kind) -> bool
    ensures { result ≡ filling.fits_if (shown_const constant.now) is_asked kind }
{
    !is_asked || fits_kind(constant, kind)
}

// Whether a constant fits all slots that have these kinds.
fn fits_kinds(constant: &Const, kinds: Kinds) -> bool
    ensures { (slots : List KindOf) → kinds ≡ kinds_among slots →
        result ≡ list_all (spec.fits_kind (shown_const constant.now)) slots }
{
    let fixed = fits_length(constant, Sort::Fixed, kinds.fixed);
    let bits = fits_length(constant, Sort::Bit, kinds.bits);
    let chars = fits_length(constant, Sort::Char, kinds.chars);
    let clock = fits_if(constant, kinds.clock, Kind::Clock);
    let span = fits_if(constant, kinds.span, Kind::Span);
    fixed & bits & chars & clock & span
}

fn fits_runs(constant: &Const, mut runs: &[Run]) -> bool
    ensures { result ≡ list_all (λ (run : RunOf). spec.fits_kind (shown_const constant.now) run.kind) runs.entry.now }
{
    while let [run, rest @ ..] = runs {
        if !fits_kind(constant, run.kind) {
            return false;
        }
        runs = rest;
    }
    true
}

// The slots of so many names in turn, where those of one are listed and these kinds are among them.
fn slots_of_names(
    alloc: Global,
    one: &Slots,
    whole: Kinds,
    names: usize,
    most: usize,
) -> Result<Slots, NoMemory>
    ensures { IfOk result (λ all. (slots : List KindOf) → Lists one.now slots most → whole ≡ kinds_among slots →
        Lists all (repeated names slots) most) }
{
    let mut runs = Vec::new(alloc);
    let mut behind = NO_KINDS;
    let mut left = names;
    while left > 0 {
        if runs.len() >= most {
            behind = joined_kinds(behind, whole);
            return Ok(Slots { runs, behind });
        }
        runs.extend_from_slice(one.runs.as_slice())?;
        behind = one.behind;
        left -= 1;
    }
    Ok(Slots { runs, behind })
}

/// A slot in a list of runs: the index of its run, and how many slots of the run stand before it.
#[derive(Clone, Copy, PartialEq, Eq, Debug)]
pub struct Spot {
    pub at: usize,
    pub used: u32,
}

// How many slots of a run stand before the slot behind one, where the run has it.
fn next_used(used: u32, count: u32) -> Option<u32>
    ensures { result ≡ (if nat_lt (used + 1) count then Some (used + 1) else None) }
{
    let left = count.saturating_sub(used);
    if left > 1 { Some(used + 1) } else { None }
}

// The slot behind one.
fn after_one(runs: &[Run], spot: Spot) -> Spot
    ensures { (rest : List KindOf) (most : ℕ) → AreFull runs.now → IsAhead runs.now spot rest (most + 1) →
        IsAhead runs.now result rest most × (ahead runs.now result rest ≡ drop 1 (ahead runs.now spot rest)) }
{
    match runs.get(spot.at) {
        Some(run) => match next_used(spot.used, run.count) {
            Some(used) => Spot { at: spot.at, used },
            None => Spot {
                at: spot.at + 1,
                used: 0,
            },
        },
        None => spot,
    }
}

// Whether a constant misses the slot at the index of a run, or where it is the last constant one of those behind it.
fn misses(constant: &Const, is_last: bool, runs: &[Run], spot: Spot, behind: Kinds) -> bool
    ensures { (rest : List KindOf) → behind ≡ kinds_among rest → AreFull runs.now → IsAhead runs.now spot rest 1 →
        result ≡ spec.misses (shown_const constant.now) (taken is_last (ahead runs.now spot rest)) }
{
    match runs.get(spot.at) {
        Some(run) => {
            if !fits_kind(constant, run.kind) {
                return true;
            }
            if !is_last {
                return false;
            }
            let fits_rest = fits_runs(constant, &runs[spot.at + 1..])
                & fits_kinds(constant, behind);
            !fits_rest
        }
        None => true,
    }
}

// Tells each constant that misses its slots, the first of which are listed.
fn tell_misses(
    faults: &mut Vec<RuleFault>,
    init: &[Const],
    runs: &[Run],
    behind: Kinds,
) -> Result<(), NoMemory>
    ensures { OnOk result ((rest : List KindOf) → behind ≡ kinds_among rest → AreFull runs.now →
        IsAhead runs.now (record { at = 0; used = 0 }) rest (length init.now) →
        faults.new.items ≡ faults.old.items ++
        spec.missing_slots (ahead runs.now (record { at = 0; used = 0 }) rest) (map shown_const init.now)) }
{
    let mut spot = Spot { at: 0, used: 0 };
    let mut left = init.len();
    for constant in init {
        left = left.saturating_sub(1);
        let missed = misses(constant, left == 0, runs, spot, behind);
        fault_if(faults, missed, constant.place, rule::S7)?;
        spot = after_one(runs, spot);
    }
    Ok(())
}

fn wrong_signs(faults: &mut Vec<RuleFault>, mut init: &[Const]) -> Result<(), NoMemory>
    ensures { OnOk result (faults.new.items ≡ faults.old.items ++ spec.wrong_signs (map shown_const init.entry.now)) }
{
    while let [constant, rest @ ..] = init {
        fault_if(faults, has_wrong_sign(constant), constant.place, rule::S7)?;
        init = rest;
    }
    Ok(())
}

fn missing_slots(
    alloc: Global,
    faults: &mut Vec<RuleFault>,
    forms: &[StructForm],
    form: Laid,
    names: &[Name],
    init: &[Const],
) -> Result<(), NoMemory>
    ensures { OnOk result ((leaves : List Leaf) → MatchesLeaves forms.now (Some form) (Some leaves) →
        list_all is_sound_leaf leaves ≡ true →
        faults.new.items ≡ faults.old.items ++ spec.missing_slots (rules_spec.slots_of_names names.now leaves) (map shown_const init.now)) }
{
    let one = slots_of(alloc, forms, form.part, form.sizes.elements, init.len())?;
    let whole = kinds_of(forms, form.part);
    let all = slots_of_names(alloc, &one, whole, names.len(), init.len())?;
    tell_misses(faults, init, all.runs.as_slice(), all.behind)?;
    Ok(())
}

// Whether no leaf of a variable has too many dimensions or elements.
fn is_sound_item(forms: &[StructForm], form: Laid) -> bool
    ensures { (leaves : List Leaf) → MatchesLeaves forms.now (Some form) (Some leaves) → result ≡ list_all is_sound_leaf leaves }
{
    let each = counts_of(forms, form.part);
    has_sound_leaves(within(form.sizes.dimensions, form.sizes.elements, each))
}

// Tells the constants of an item that miss, where its leaves are sound.
fn missing_of(
    alloc: Global,
    faults: &mut Vec<RuleFault>,
    forms: &[StructForm],
    form: Option<Laid>,
    names: &[Name],
    init: &[Const],
) -> Result<(), NoMemory>
    ensures { OnOk result ((leaves : Option (List Leaf)) → MatchesLeaves forms.now form leaves →
        faults.new.items ≡ faults.old.items ++ rules_spec.missing_of names.now (map shown_const init.now) leaves) }
{
    match form {
        Some(form) => {
            if !is_sound_item(forms, form) {
                return Ok(());
            }
            missing_slots(alloc, faults, forms, form, names, init)?;
            Ok(())
        }
        None => Ok(()),
    }
}

fn form_of_item(
    alloc: Global,
    scopes: &[ScopeTable],
    lengths: &Lengths,
    known: &mut Types,
    scope: u32,
    types: u32,
    item: &Item,
) -> Result<Option<Laid>, NoMemory>
    ensures grows { OnOk result (Grows known.old.forms.items known.new.forms.items) }
    ensures named { OnOk result (known.new.named.items ≡ known.old.named.items) }
    ensures form { IfOk result (λ form. (shapes : List (Option Shape)) →
        AllMatch known.old.forms.items known.old.named.items shapes →
        MatchesLeaves known.new.forms.items form (item_leaves (around_of scopes.now lengths.now scope (take types shapes)) (shown_item item.now))) }
{
    let form = item_laid(alloc, scopes, lengths, known, scope, types, item)?;
    Ok(form)
}

/// S7: at each constant of INIT that has no slot left, or doesn't suit or fit one that it is put into, and at each sign
/// before another literal than a number or a duration.
pub(crate) fn s7_at(
    alloc: Global,
    faults: &mut Vec<RuleFault>,
    scopes: &[ScopeTable],
    lengths: &Lengths,
    known: &mut Types,
    part: &Part<'_>,
) -> Result<(), NoMemory>
    ensures grows { OnOk result (Grows known.old.forms.items known.new.forms.items) }
    ensures named { OnOk result (known.new.named.items ≡ known.old.named.items) }
    ensures faults { OnOk result ((shapes : List (Option Shape)) → AllMatch known.old.forms.items known.old.named.items shapes →
        faults.new.items ≡ faults.old.items ++
        rules_spec.s7 (record { scopes = scopes.now; lengths = lengths.now; shapes = shapes }) (shown_part part.now)) }
{
    match part {
        Part::Item { scope, types, item } => {
            let init = item.init.as_slice();
            wrong_signs(faults, init)?;
            if init.is_empty() {
                return Ok(());
            }
            let form = form_of_item(alloc, scopes, lengths, known, *scope, *types, item)?;
            missing_of(
                alloc,
                faults,
                known.forms.as_slice(),
                form,
                item.names.as_slice(),
                init,
            )?;
            Ok(())
        }
        Part::Used { .. } => Ok(()),
        Part::UsedAsType { .. } => Ok(()),
        Part::Length { .. } => Ok(()),
        Part::Lasts(_) => Ok(()),
        Part::Bounds(_) => Ok(()),
        Part::Struct(_) => Ok(()),
        Part::Sema(_) => Ok(()),
    }
}

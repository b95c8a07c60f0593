// Formats of PUT and GET: S33.

ghost use Rattle.std.specs.Prelude.{◌≡◌, ◌++◌, ◌&&◌, ◌||◌, not, nat_le, nat_lt, None, Some, OnOk};
ghost use Rattle.pearl_tree.specs.declared.format.FreeCode.TheVariants as free_code;
ghost use Rattle.pearl_check.specs.declared.limit.TheConstants as limit;
ghost use Rattle.pearl_check.specs.Formats as spec;

use crate::limit::{DATA_MAX, FORMAT_MAX, WIDTH_MAX};
use crate::tell::tell_if;
use pearl_tree::fault::RuleFault;
use pearl_tree::format::{Fmt, FreeCode, WideCode};
use pearl_tree::rule;
use pearl_value::kind::Kind;
use std::alloc::AllocError as NoMemory;

fn place_of(item: &Fmt) -> u32
    ensures { result ≡ spec.place_of_item item.now }
{
    match item {
        Fmt::Free { place, .. } => *place,
        Fmt::Wide { place, .. } => *place,
    }
}

fn is_data(item: &Fmt) -> bool
    ensures { result ≡ spec.is_data item.now }
{
    match item {
        Fmt::Free { code, .. } => match code {
            FreeCode::X => false,
            FreeCode::Skip => false,
            FreeCode::A => true,
            FreeCode::B => true,
            FreeCode::B1 => true,
            FreeCode::B2 => true,
            FreeCode::B3 => true,
            FreeCode::B4 => true,
        },
        Fmt::Wide { .. } => true,
    }
}

fn is_text(kind: Kind) -> bool
    ensures { result ≡ spec.is_free_for free_code.A kind }
{
    match kind {
        Kind::Chars(_) => true,
        _ => false,
    }
}

fn is_bits(kind: Kind) -> bool
    ensures { result ≡ spec.is_free_for free_code.B kind }
{
    match kind {
        Kind::Bits(_) => true,
        _ => false,
    }
}

fn is_free_for(code: FreeCode, kind: Kind) -> bool
    ensures { result ≡ spec.is_free_for code kind }
{
    match code {
        FreeCode::A => is_text(kind),
        FreeCode::B => is_bits(kind),
        FreeCode::B1 => is_bits(kind),
        FreeCode::B2 => is_bits(kind),
        FreeCode::B3 => is_bits(kind),
        FreeCode::B4 => is_bits(kind),
        FreeCode::X => false,
        FreeCode::Skip => false,
    }
}

fn is_wide_for(code: WideCode, kind: Kind) -> bool
    ensures { result ≡ spec.is_wide_for code kind }
{
    match (code, kind) {
        (WideCode::F, Kind::Fixed(_)) => true,
        (WideCode::T, Kind::Clock) => true,
        (WideCode::D, Kind::Span) => true,
        _ => false,
    }
}

fn is_for(item: &Fmt, kind: Kind) -> bool
    ensures { result ≡ spec.is_for item.now kind }
{
    match item {
        Fmt::Free { code, .. } => is_free_for(*code, kind),
        Fmt::Wide { code, .. } => is_wide_for(*code, kind),
    }
}

fn is_for_other(item: &Fmt, kind: Option<Kind>) -> bool
    ensures { result ≡ spec.is_for_other item.now kind }
{
    match kind {
        Some(kind) => !is_for(item, kind),
        None => false,
    }
}

fn is_width(least: u64, width: u64) -> bool
    ensures { result ≡ nat_le least width && nat_le width limit.WIDTH_MAX }
{
    least <= width && width <= WIDTH_MAX
}

fn least_width(code: WideCode) -> u64
    ensures { result ≡ spec.least_width code }
{
    match code {
        WideCode::T => 8,
        WideCode::F => 1,
        WideCode::D => 1,
    }
}

fn has_width(item: &Fmt) -> bool
    ensures { result ≡ spec.has_width item.now }
{
    match item {
        Fmt::Free { width, .. } => match width {
            Some(width) => is_width(1, width.value),
            None => true,
        },
        Fmt::Wide { code, width, .. } => is_width(least_width(*code), width.value),
    }
}

fn length_by(code: FreeCode, kind: Kind) -> u8
    ensures { result ≡ spec.length_by code kind }
{
    match (code, kind) {
        (FreeCode::A, Kind::Chars(len)) => len,
        (FreeCode::B, Kind::Bits(len)) => len,
        (FreeCode::B1, Kind::Bits(len)) => len,
        (FreeCode::B2, Kind::Bits(len)) => len.div_ceil(2),
        (FreeCode::B3, Kind::Bits(len)) => len.div_ceil(3),
        (FreeCode::B4, Kind::Bits(len)) => len.div_ceil(4),
        _ => 0,
    }
}

// The width that an item without one counts for, before what has no kind.
fn unknown_width(code: FreeCode) -> u8
    ensures { result ≡ spec.own_width code None }
{
    match code {
        FreeCode::X => 1,
        FreeCode::Skip => 1,
        FreeCode::A => 0,
        FreeCode::B => 0,
        FreeCode::B1 => 0,
        FreeCode::B2 => 0,
        FreeCode::B3 => 0,
        FreeCode::B4 => 0,
    }
}

fn known_width(code: FreeCode, kind: Kind) -> u8
    ensures { result ≡ spec.own_width code (Some kind) }
{
    match code {
        FreeCode::X => 1,
        FreeCode::Skip => 1,
        FreeCode::A => length_by(code, kind),
        FreeCode::B => length_by(code, kind),
        FreeCode::B1 => length_by(code, kind),
        FreeCode::B2 => length_by(code, kind),
        FreeCode::B3 => length_by(code, kind),
        FreeCode::B4 => length_by(code, kind),
    }
}

fn own_width(code: FreeCode, kind: Option<Kind>) -> u8
    ensures { result ≡ spec.own_width code kind }
{
    match kind {
        Some(kind) => known_width(code, kind),
        None => unknown_width(code),
    }
}

fn counted_width(item: &Fmt, kind: Option<Kind>) -> u64
    ensures { result ≡ spec.counted_width item.now kind }
{
    match item {
        Fmt::Free { code, width, .. } => match width {
            Some(width) => width.value,
            None => u64::from(own_width(*code, kind)),
        },
        Fmt::Wide { width, .. } => width.value,
    }
}

fn first_kind(kinds: &[Option<Kind>]) -> Option<Kind>
    ensures { result ≡ spec.first_kind kinds.now }
{
    match kinds {
        [kind, ..] => *kind,
        [] => None,
    }
}

// The kind of what an item stands for, of the values or targets that are left.
fn kind_for(item: &Fmt, kinds: &[Option<Kind>]) -> Option<Kind>
    ensures { result ≡ spec.kind_for item.now kinds.now }
{
    if is_data(item) {
        first_kind(kinds)
    } else {
        None
    }
}

fn left_by<'a>(item: &Fmt, kinds: &'a [Option<Kind>]) -> &'a [Option<Kind>]
    ensures { result.now ≡ spec.left_by item.now kinds.now }
{
    if !is_data(item) {
        return kinds;
    }
    match kinds {
        [_, rest @ ..] => rest,
        [] => kinds,
    }
}

// It is for another kind, or has a width out of range.
fn is_unfit(item: &Fmt, kind: Option<Kind>) -> bool
    ensures { result ≡ (spec.is_for_other item.now kind || not (spec.has_width item.now)) }
{
    is_for_other(item, kind) || !has_width(item)
}

fn item_faults(
    faults: &mut Vec<RuleFault>,
    mut items: &[Fmt],
    mut kinds: &[Option<Kind>],
) -> Result<(), NoMemory>
    ensures { OnOk result (faults.new.items ≡ faults.old.items ++ spec.item_faults items.entry.now kinds.entry.now) }
{
    while let [item, rest @ ..] = items {
        let unfit = is_unfit(item, kind_for(item, kinds));
        tell_if(faults, unfit, place_of(item), rule::S33)?;
        kinds = left_by(item, kinds);
        items = rest;
    }
    Ok(())
}

fn is_too_wide(mut items: &[Fmt], mut kinds: &[Option<Kind>]) -> bool
    ensures { result ≡ nat_lt limit.FORMAT_MAX (spec.sum_of_widths items.entry.now kinds.entry.now) }
{
    let mut room = FORMAT_MAX;
    while let [item, rest @ ..] = items {
        let width = counted_width(item, kind_for(item, kinds));
        if room < width {
            return true;
        }
        room -= width;
        kinds = left_by(item, kinds);
        items = rest;
    }
    false
}

fn data_count(items: &[Fmt]) -> usize
    ensures { result ≡ spec.data_count items.now }
{
    items.iter().filter(|item| is_data(item)).count()
}

fn is_ill_sized(items: &[Fmt], kinds: &[Option<Kind>]) -> bool
    ensures { result ≡ spec.is_ill_sized items.now kinds.now }
{
    let count = data_count(items);
    count != kinds.len() || count > DATA_MAX || is_too_wide(items, kinds)
}

/// Adds what is broken of S33 in a PUT or GET at this place, whose values or targets have these kinds.
pub(crate) fn format_faults(
    faults: &mut Vec<RuleFault>,
    place: u32,
    items: &[Fmt],
    kinds: &[Option<Kind>],
) -> Result<(), NoMemory>
    ensures { OnOk result (faults.new.items ≡ faults.old.items ++ spec.format_faults place items.now kinds.now) }
{
    item_faults(faults, items, kinds)?;
    tell_if(faults, is_ill_sized(items, kinds), place, rule::S33)?;
    Ok(())
}

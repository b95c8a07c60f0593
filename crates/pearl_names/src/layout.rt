// How a variable is laid out, by counts.

ghost use Rattle.std.specs.List.{list_any};
ghost use Rattle.std.specs.Prelude.{◌≡◌, ◌+◌, nat_lt, length, ℤ, List, [], Option, Some, take, option_map, IfOk, OnOk, OnErr};
ghost use Rattle.pearl_tree.specs.ShownDeclarations.{shown_item, shown_typing};
ghost use Rattle.pearl_names.specs.Counts.{counts, counts as counts_of_leaves, bytes_behind, has_sound_leaves as has_sound};
ghost use Rattle.pearl_names.specs.Forming.{AllMatch, Grows, Keeps, IsLaid, around_of, sizes_of};
ghost use Rattle.pearl_names.specs.Layout.{Leaf, item_leaves, leaves_of, leaves_within};
ghost use Rattle.pearl_names.specs.Forms.{Matches, StandsFor};
ghost use Rattle.pearl_names.specs.Shapes.{Shape, shape_of, sound_bounds};
ghost use Rattle.pearl_names.specs.Holding.{HoldsForm};
ghost use Rattle.pearl_names.specs.Tables.{Form as FormOf, sound_form, form_of as sound_form_of};
ghost use Rattle.pearl_names.specs.declared.types.StructForm.{StructForm as StructFormOf};

use crate::forms::{Types, form_of, sizes_of_bounds, sizes_within};
use crate::length::Lengths;
use crate::names::ScopeTable;
use crate::sense::Form;
use crate::types::{Counts, Sizes, StructForm, TypeRef, counts_of, within};
use arrayvec::ArrayVec;
use pearl_tree::declaration::Item;
use std::alloc::{AllocError as NoMemory, Global};

// What the TYPEs are that stand before, where so many do.
fn first_types(named: &[Option<TypeRef>], types: u32) -> &[Option<TypeRef>]
    ensures { result.now ≡ take types named.now }
{
    let types = types as usize;
    if types <= named.len() {
        &named[..types]
    } else {
        named
    }
}

/// How many dimensions and elements a variable has, and the type of these.
#[derive(Clone, Copy, PartialEq, Eq, Debug)]
pub struct Laid {
    pub sizes: Sizes,
    pub part: TypeRef,
}

fn laid_of(sizes: Sizes, part: Option<TypeRef>) -> Option<Laid>
    ensures { (forms : List StructFormOf) (bounds : List (ℤ × ℤ)) (shape : Option Shape) → sizes ≡ sizes_of bounds →
        Matches forms part shape → IsLaid forms result (Some bounds) shape }
{
    match part {
        Some(part) => Some(Laid { sizes, part }),
        None => None,
    }
}

/// What the variables of an item are, where so many TYPEs stand before it. Where a rule is broken in its bounds or type
/// they are nothing.
pub fn item_laid(
    alloc: Global,
    scopes: &[ScopeTable],
    lengths: &Lengths,
    known: &mut Types,
    scope: u32,
    types: u32,
    item: &Item,
) -> Result<Option<Laid>, NoMemory>
    ensures grows { OnOk result (Grows known.old.forms.items known.new.forms.items) }
    ensures named { OnOk result (known.new.named.items ≡ known.old.named.items) }
    ensures err { OnErr result (Keeps known.old known.new) }
    ensures laid { IfOk result (λ laid. (shapes : List (Option Shape)) →
        AllMatch known.old.forms.items known.old.named.items shapes →
        IsLaid known.new.forms.items laid (sound_bounds item.now.bounds.items.items)
        (shape_of (around_of scopes.now lengths.now scope (take types shapes)) (shown_typing item.now.typing))) }
{
    let sizes = match sizes_of_bounds(item.bounds.as_slice()) {
        Some(sizes) => sizes,
        None => return Ok(None),
    };
    let named = first_types(known.named.as_slice(), types);
    let part = form_of(
        alloc,
        scopes,
        lengths,
        named,
        scope,
        &mut known.forms,
        &item.typing,
    )?;
    let laid = laid_of(sizes, part);
    Ok(laid)
}

fn counts_of_laid(forms: &[StructForm], laid: Laid) -> Counts
    ensures { (bounds : List (ℤ × ℤ)) (shape : Shape) → laid.sizes ≡ sizes_of bounds → StandsFor forms.now laid.part shape →
        result ≡ counts (leaves_of [] bounds shape) }
{
    within(
        laid.sizes.dimensions,
        laid.sizes.elements,
        counts_of(forms, laid.part),
    )
}

/// The counts of a variable of this form.
pub fn form_counts(forms: &[StructForm], form: &Form) -> Counts
    ensures { (of : FormOf) → HoldsForm forms.now (Some form.now) (Some of) → result ≡ counts (leaves_of [] of.bounds of.shape) }
{
    let laid = Laid {
        sizes: sizes_within(form.bounds.as_slice()),
        part: form.part,
    };
    counts_of_laid(forms, laid)
}

fn counts_within(forms: &[StructForm], laid: Option<Laid>) -> Option<Counts>
    ensures { (bounds : Option (List (ℤ × ℤ))) (shape : Option Shape) → IsLaid forms.now laid bounds shape →
        result ≡ option_map counts (leaves_within bounds shape) }
{
    match laid {
        Some(laid) => Some(counts_of_laid(forms, laid)),
        None => None,
    }
}

/// The counts of the variables of an item, where so many TYPEs stand before it. Where a rule is broken in its bounds or
/// type there are none.
pub fn item_counts(
    alloc: Global,
    scopes: &[ScopeTable],
    lengths: &Lengths,
    known: &mut Types,
    scope: u32,
    types: u32,
    item: &Item,
) -> Result<Option<Counts>, NoMemory>
    ensures grows { OnOk result (Grows known.old.forms.items known.new.forms.items) }
    ensures named { OnOk result (known.new.named.items ≡ known.old.named.items) }
    ensures err { OnErr result (Keeps known.old known.new) }
    ensures counts { IfOk result (λ found. (shapes : List (Option Shape)) →
        AllMatch known.old.forms.items known.old.named.items shapes →
        found ≡ option_map counts (item_leaves (around_of scopes.now lengths.now scope (take types shapes)) (shown_item item.now))) }
{
    let laid = item_laid(alloc, scopes, lengths, known, scope, types, item)?;
    let found = counts_within(known.forms.as_slice(), laid);
    Ok(found)
}

/// Whether no leaf has more than three dimensions or more than 65,536 elements.
pub fn has_sound_leaves(counts: Counts) -> bool
    ensures { result ≡ has_sound counts }
{
    counts.dimensions <= 3 && counts.greatest <= 65_536
}

/// Whether a leaf of a variable of this name has more than 1,024 bytes in its own, where these are the variable's counts.
pub fn has_long_leaf(name: &ArrayVec<u8, 63>, counts: Counts) -> bool
    ensures { (leaves : List Leaf) → counts ≡ counts_of_leaves leaves →
        result ≡ list_any (λ leaf. nat_lt 1024 (length name.now.items + bytes_behind leaf)) leaves }
{
    1_024 < name.len() as u64 + u64::from(counts.longest)
}

fn sound_within(forms: &[StructForm], laid: Option<Laid>) -> Option<TypeRef>
    ensures { (bounds : Option (List (ℤ × ℤ))) (shape : Option Shape) → IsLaid forms.now laid bounds shape →
        Matches forms.now result (option_map (λ form. form.shape) (sound_form bounds shape)) }
{
    match laid {
        Some(laid) => {
            if has_sound_leaves(counts_of_laid(forms, laid)) {
                Some(laid.part)
            } else {
                None
            }
        }
        None => None,
    }
}

/// The type of the elements of an item's variables, where no rule is broken in its bounds or type and its leaves are
/// sound.
pub fn sound_part(
    alloc: Global,
    scopes: &[ScopeTable],
    lengths: &Lengths,
    known: &mut Types,
    scope: u32,
    types: u32,
    item: &Item,
) -> Result<Option<TypeRef>, NoMemory>
    ensures grows { OnOk result (Grows known.old.forms.items known.new.forms.items) }
    ensures named { OnOk result (known.new.named.items ≡ known.old.named.items) }
    ensures err { OnErr result (Keeps known.old known.new) }
    ensures part { IfOk result (λ part. (shapes : List (Option Shape)) →
        AllMatch known.old.forms.items known.old.named.items shapes →
        Matches known.new.forms.items part (option_map (λ form. form.shape)
        (sound_form_of (around_of scopes.now lengths.now scope (take types shapes)) (shown_item item.now)))) }
{
    let laid = item_laid(alloc, scopes, lengths, known, scope, types, item)?;
    let part = sound_within(known.forms.as_slice(), laid);
    Ok(part)
}

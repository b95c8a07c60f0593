// The names of one scope, by their texts.

ghost use Rattle.std.specs.Prelude.{◌≡◌, ◌+◌, ◌<◌, ◌^◌, ◌++◌, ◌∷◌, [], List, is_some, IfOk, OnOk, OnErr, length, option_map, slice_get};
ghost use Rattle.pearl_names.specs.declared.scope.SortedName.{SortedName as SortedNameOf};
ghost use Rattle.pearl_names.specs.Found.{is_control as has_control};
ghost use Rattle.pearl_names.specs.FirstNames.{first_index, number_of, repeated, HasNoted, HasNames};

use crate::scope::{NameSort, SortedName};
use arrayvec::ArrayVec;
use pearl_tree::fault::RuleFault;
use pearl_tree::rule;
use std::alloc::{AllocError as NoMemory, Global};
use std::collections::BTreeMap;
use std::marker::Model;

/// Numbers by texts. Names that are found by their order cost no more where they are chosen for equal hashes.
pub type FirstNames = BTreeMap<ArrayVec<u8, 63>, u32>;

pub(crate) fn copy_text(text: &ArrayVec<u8, 63>) -> Result<ArrayVec<u8, 63>, NoMemory>
    ensures { IfOk result (λ copy. copy ≡ text.now) }
{
    let copy = text.clone()?;
    Ok(copy)
}

// The number of a text.
pub(crate) fn number_at(first: &FirstNames, text: &ArrayVec<u8, 63>) -> Option<u32>
    ensures { result ≡ number_of first.now.entries text.now.items }
{
    first.get(text).copied()
}

/// Puts in a text that is not there, and answers whether it was there.
pub fn note(first: &mut FirstNames, text: &ArrayVec<u8, 63>, number: u32) -> Result<bool, NoMemory>
    ensures twice { IfOk result (λ twice. twice ≡ is_some (number_of first.old.entries text.now.items)) }
    ensures noted { OnOk result (HasNoted first.old.entries text.now.items number first.new.entries) }
    ensures err { OnErr result (first.new.entries ≡ first.old.entries) }
{
    if number_at(first, text).is_some() {
        return Ok(true);
    }
    let key = copy_text(text)?;
    match first.insert(key, number) {
        Ok(_) => Ok(false),
        Err(_) => Err(NoMemory),
    }
}

pub(crate) fn after(number: u32) -> Result<u32, NoMemory>
    ensures number { IfOk result (λ after. after ≡ number + 1) }
    ensures few { IfOk result (λ after. number + 1 < 2 ^ 32) }
{
    match number.checked_add(1) {
        Some(after) => Ok(after),
        None => Err(NoMemory),
    }
}

// The number behind those of these items.
pub(crate) fn next_number<T>(items: &[T]) -> Result<u32, NoMemory>
    ensures { IfOk result (λ number. number ≡ length items.now) }
{
    match u32::try_from(items.len()) {
        Ok(number) => Ok(number),
        Err(_) => Err(NoMemory),
    }
}

// Notes the name of this number, and its fault where it repeats one before. It answers the next number.
fn note_next(
    first: &mut FirstNames,
    repeats: &mut Vec<RuleFault>,
    entry: &SortedName,
    number: u32,
) -> Result<u32, NoMemory>
    ensures after { IfOk result (λ after. after ≡ number + 1) }
    ensures noted { OnOk result ((names : List SortedNameOf) → number ≡ length names →
        HasNames names first.old.entries repeats.old.items →
        HasNames (names ++ entry.now ∷ []) first.new.entries repeats.new.items) }
{
    let after = after(number)?;
    if !note(first, &entry.name.text, number)? {
        return Ok(after);
    }
    repeats.push(RuleFault {
        place: entry.name.place,
        rule: rule::S1,
    })?;
    Ok(after)
}

/// The names of a scope in order, with the first of each text and the repeats at hand.
#[derive(Drop)]
pub struct ScopeTable {
    outer: Option<u32>,
    names: Vec<SortedName>,
    first: FirstNames,
    repeats: Vec<RuleFault>,
}

impl Model for ScopeTable {
    ghost use Rattle.std.specs.Prelude.{◌≡◌};
    ghost use Rattle.pearl_names.specs.ScopeNames.{ScopeNames};
    ghost use Rattle.pearl_names.specs.FirstNames.{HasNames};

    ghost Value = { ScopeNames };

    ghost view = { λ s. record { outer = s.outer; names = s.names.items } };

    ghost invariant = { λ s. HasNames s.names.items s.first.entries s.repeats.items };
}

impl ScopeTable {
    /// A scope of these names within the scope of a number.
    pub fn new(
        alloc: Global,
        outer: Option<u32>,
        names: Vec<SortedName>,
    ) -> Result<ScopeTable, NoMemory>
        ensures { IfOk result (λ scope. scope ≡ record { outer = outer; names = names.items }) }
    {
        let mut first = BTreeMap::new(alloc);
        let mut repeats = Vec::new(alloc);
        let mut number = 0;
        for entry in names.as_slice() {
            number = note_next(&mut first, &mut repeats, entry, number)?;
        }
        Ok(ScopeTable {
            outer,
            names,
            first,
            repeats,
        })
    }

    /// The number of the scope around it. The module has none around it.
    pub fn outer(&self) -> Option<u32>
        ensures { result ≡ self.now.outer }
    {
        self.outer
    }

    /// The names in order.
    pub fn names(&self) -> &[SortedName]
        ensures { result.now ≡ self.now.names }
    {
        self.names.as_slice()
    }

    /// The number of the first name that has this text.
    pub fn find(&self, text: &ArrayVec<u8, 63>) -> Option<u32>
        ensures { result ≡ first_index self.now.names text.now.items }
    {
        number_at(&self.first, text)
    }

    /// The sort of the name of a number.
    pub fn sort(&self, number: u32) -> Option<NameSort>
        ensures { result ≡ option_map (λ entry. entry.sort) (slice_get self.now.names number) }
    {
        match self.names.get(number as usize) {
            Some(entry) => Some(entry.sort),
            None => None,
        }
    }

    /// Whether this text names the control variable of the loop whose body the scope is.
    pub fn is_control(&self, text: &ArrayVec<u8, 63>) -> bool
        ensures { result ≡ has_control self.now.names text.now.items }
    {
        match self.names.as_slice() {
            [first, ..] => {
                matches!(first.sort, NameSort::Control)
                    && first.name.text.as_slice() == text.as_slice()
            }
            [] => false,
        }
    }

    /// The names that have the text of one before, in order.
    pub fn repeats(&self) -> &[RuleFault]
        ensures { result.now ≡ repeated self.now.names }
    {
        self.repeats.as_slice()
    }
}

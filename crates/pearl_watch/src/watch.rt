// What is watched, and the lines that tell it.

ghost use Rattle.std.specs.Prelude.{◌≡◌, ◌↔◌, ℕ, ◌+◌, ◌<◌, ◌≤◌, [], Some, None, IsFalse, IsTrue, IfOk, IfErr, OnOk, length, map, replicate, string_bytes};
ghost use Rattle.std.specs.Bool.{OnFalse, OnTrue};
ghost use Rattle.pearl_value.specs.WellFormed.{IsValue};
ghost use Rattle.pearl_watch.specs.Lines.{IsLast, Tells, begun};
ghost use Rattle.pearl_watch.specs.Watched.{AreAccepted, IsCause, name_at};

use crate::fault::WatchFault;
use crate::line::value_line;
use crate::same::is_same;
use crate::watched::{Watched, watched_slots};
use arrayvec::ArrayVec;
use pearl_instructions::valid::Valid;
use pearl_value::cell::{Cell, copy_of};
use std::alloc::{AllocError as NoMemory, Global};
use std::marker::Model;

/// The slots that are watched, and what each held when it was last told.
#[derive(Drop)]
pub struct Watch {
    names: Vec<ArrayVec<u8, 1024>>,
    watched: Vec<Watched>,
    // the number in the module of each watched slot
    slots: Vec<u32>,
    given: Vec<Option<Cell>>,
}

impl Model for Watch {
    ghost use Rattle.std.specs.Prelude.{◌≡◌, length, map};
    ghost use Rattle.pearl_watch.specs.Lines.{Watching};

    ghost Value = { Watching };

    ghost view = { λ w. record { names = map (λ n. n.items) w.names.items; watched = w.watched.items; given = w.given.items } };

    ghost invariant = { λ w. (w.slots.items ≡ map (λ s. s.slot) w.watched.items) × (length w.given.items ≡ length w.watched.items) };
}

// A copy of a name.
fn kept_name(name: &[u8]) -> ArrayVec<u8, 1024>
    requires { length name.now ≤ 1024 }
    ensures { result.items ≡ name.now }
{
    let mut kept = ArrayVec::new();
    kept.try_extend_from_slice(name).unwrap();
    kept
}

fn kept_names(alloc: Global, names: &[String]) -> Result<Vec<ArrayVec<u8, 1024>>, NoMemory>
    requires { (name : ℕ) → name < length names.now → length (name_at (map string_bytes names.now) name) ≤ 1024 }
    ensures { IfOk result (λ kept. map (λ n. n.items) kept.items ≡ map string_bytes names.now) }
{
    let mut kept = Vec::with_capacity(alloc, names.len())?;
    for name in names {
        kept.push(kept_name(name.as_bytes()))?;
    }
    Ok(kept)
}

fn slots_of(alloc: Global, watched: &[Watched]) -> Result<Vec<u32>, NoMemory>
    ensures { IfOk result (λ slots. slots.items ≡ map (λ s. s.slot) watched.now) }
{
    let mut slots = Vec::with_capacity(alloc, watched.len())?;
    for slot in watched {
        slots.push(slot.slot)?;
    }
    Ok(slots)
}

fn nothing_given(alloc: Global, count: usize) -> Result<Vec<Option<Cell>>, NoMemory>
    ensures { IfOk result (λ given. given.items ≡ replicate count None) }
{
    let mut given = Vec::with_capacity(alloc, count)?;
    for _ in 0..count {
        given.push(None)?;
    }
    Ok(given)
}

fn name_of(names: &[ArrayVec<u8, 1024>], name: u32) -> &[u8]
    ensures name { result.now ≡ name_at (map (λ n. n.items) names.now) name }
    ensures short { length result.now ≤ 1024 }
{
    match names.get(name as usize) {
        Some(name) => name.as_slice(),
        None => &[],
    }
}

// Whether the value was given last.
fn is_last(given: &Option<Cell>, value: &Cell) -> bool
    requires { IsValue value.now }
    ensures { IsTrue result ↔ (given.now ≡ Some value.now) }
{
    match given {
        Some(last) => is_same(value, last),
        None => false,
    }
}

impl Watch {
    /// All slots of the leaves that the names mean, none of which was told. It takes all the memory that it will ever
    /// need.
    pub fn new(alloc: Global, object: &Valid, names: &[String]) -> Result<Watch, WatchFault>
        ensures begun { IfOk result (λ watch. watch ≡ begun object.now.leaves (map string_bytes names.now)) }
        ensures accepted { OnOk result (AreAccepted object.now.leaves (map string_bytes names.now)) }
        ensures cause { IfErr result (λ fault. IsCause object.now.leaves (map string_bytes names.now) fault) }
    {
        let watched = watched_slots(alloc, object, names)?;
        let names = kept_names(alloc, names)?;
        let slots = slots_of(alloc, watched.as_slice())?;
        let given = nothing_given(alloc, watched.len())?;
        Ok(Watch {
            names,
            watched,
            slots,
            given,
        })
    }

    /// The number in the module of each watched slot.
    pub fn slots(&self) -> &[u32]
        ensures slots { result.now ≡ map (λ s. s.slot) self.now.watched }
        ensures given { length self.now.given ≡ length self.now.watched }
    {
        self.slots.as_slice()
    }

    /// Makes `into` the line of a watched slot's value, unless the value was given last: then `into` is empty.
    pub fn line(
        &mut self,
        marks: u64,
        now: u64,
        at: usize,
        value: &Cell,
        into: &mut ArrayVec<u8, 2304>,
    ) -> bool
        requires watched { at < length self.old.watched }
        requires value { IsValue value.now }
        ensures last { IsFalse result ↔ IsLast self.old at value.now }
        ensures none { OnFalse result ((into.new.items ≡ []) × (self.new ≡ self.old)) }
        ensures told { OnTrue result (Tells self.old self.new marks now at value.now into.new.items) }
    {
        if is_last(&self.given[at], value) {
            into.clear();
            return false;
        }
        let slot = self.watched[at];
        value_line(
            marks,
            now,
            name_of(self.names.as_slice(), slot.name),
            slot.number,
            value,
            into,
        );
        self.given[at] = Some(copy_of(value));
        true
    }
}

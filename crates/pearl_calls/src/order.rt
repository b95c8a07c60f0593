// The order in which procedures get numbers, by counts of their open calls: those of procedures without a number.

ghost use Rattle.std.specs.Prelude.{◌≡◌, ◌↔◌, ℕ, ◌+◌, ◌<◌, ◌≤◌, [], ◌∷◌, ◌++◌, length, map, nat_eq, nat_lt, if◌then◌else◌, slice_index, slice_index_or, slice_set, IfOk, IfSome, IfNone, IsNone, OnOk, OnErr};
ghost use Rattle.pearl_calls.specs.Callers.{Caller, callees};
ghost use Rattle.pearl_calls.specs.Cycles.{SomeCallsItself};
ghost use Rattle.pearl_calls.specs.Marks.{one_if, times, open_among, AreCallersOf, is_closed};
ghost use Rattle.pearl_calls.specs.Numberings.{IsNumbering};

use crate::caller::Caller;
use crate::ready::Ready;
use std::alloc::{AllocError as NoMemory, Global};
use std::marker::Model;

// For each procedure those that call it, once for each call.
#[derive(Drop)]
struct Calling {
    lists: Vec<Vec<usize>>,
}

impl Model for Calling {
    ghost use Rattle.std.specs.Prelude.{ℕ, List, map};

    ghost Value = { List (List ℕ) };

    ghost view = { λ s. map (λ list. list.items) s.lists.items };
}

impl Calling {
    // So many procedures, of which none is called.
    fn none(alloc: Global, count: usize) -> Result<Calling, NoMemory>
        ensures length { IfOk result (λ calling. length calling ≡ count) }
        ensures none { IfOk result (λ calling. (callee : ℕ) → slice_index_or calling callee [] ≡ []) }
    {
        let mut lists = Vec::new(alloc);
        'rows: for _ in 0..count {
            lists.push(Vec::new(alloc))?;
        }
        Ok(Calling { lists })
    }

    fn len(&self) -> usize
        ensures { result ≡ length self.now }
    {
        self.lists.len()
    }

    fn callers_of(&self, callee: usize) -> &[usize]
        requires { callee < length self.now }
        ensures { result.now ≡ slice_index_or self.now callee [] }
    {
        self.lists[callee].as_slice()
    }

    fn add(&mut self, callee: usize, caller: usize) -> Result<(), NoMemory>
        requires { callee < length self.old }
        ensures ok { OnOk result (self.new ≡ slice_set self.old callee (slice_index_or self.old callee [] ++ caller ∷ [])) }
        ensures err { OnErr result (self.new ≡ self.old) }
    {
        let list = &mut self.lists[callee];
        list.push(caller)?;
        Ok(())
    }

    // Adds one procedure, which calls these.
    fn add_calls(&mut self, caller: usize, calls: &[u32]) -> Result<(), NoMemory>
        ensures length { length self.new ≡ length self.old }
        ensures added { OnOk result ((callee other : ℕ) → callee < length self.old →
            times other (slice_index_or self.new callee []) ≡
            times other (slice_index_or self.old callee []) + (if nat_eq other caller then times callee calls.now else 0)) }
    {
        for callee in calls {
            let callee = *callee as usize;
            if callee < self.len() {
                self.add(callee, caller)?;
            }
        }
        Ok(())
    }

    fn of(alloc: Global, callers: &[Caller]) -> Result<Calling, NoMemory>
        ensures length { IfOk result (λ calling. length calling ≡ length callers.now) }
        ensures callers { IfOk result (λ calling. AreCallersOf callers.now calling) }
    {
        let mut calling = Calling::none(alloc, callers.len())?;
        for (number, caller) in callers.iter().enumerate() {
            calling.add_calls(number, caller.calls())?;
        }
        Ok(calling)
    }
}

// How many of these calls are calls of procedures that there are.
fn open_at_first(callers: &[Caller], calls: &[u32]) -> usize
    ensures { result ≡ open_among callers.now [] calls.now }
{
    let mut count = 0usize;
    for callee in calls {
        if (*callee as usize) < callers.len() {
            count += 1;
        }
    }
    count
}

// For each procedure the number of its open calls, where none has a number.
fn all_open(alloc: Global, callers: &[Caller]) -> Result<Vec<usize>, NoMemory>
    ensures { IfOk result (λ open_calls. open_calls.items ≡ map (λ (caller : Caller). open_among callers.now [] caller.calls) callers.now) }
{
    let mut open_calls = Vec::new(alloc);
    for caller in callers {
        open_calls.push(open_at_first(callers, caller.calls()))?;
    }
    Ok(open_calls)
}

// The procedures with no open call.
fn all_closed(alloc: Global, open_calls: &Vec<usize>) -> Result<Ready, NoMemory>
    ensures { IfOk result (λ ready. (procedure : ℕ) →
        times procedure ready ≡ (if nat_lt procedure (length open_calls.now.items) then one_if (is_closed open_calls.now.items procedure) else 0)) }
{
    let mut ready = Ready::new(alloc);
    for procedure in 0..open_calls.len() {
        if open_calls[procedure] == 0 {
            ready.add(procedure)?;
        }
    }
    Ok(ready)
}

// Closes one call for each time that a procedure stands among these; what has no open call then is ready.
fn close_calls(
    calling: &[usize],
    open_calls: &mut Vec<usize>,
    ready: &mut Ready,
) -> Result<(), NoMemory>
    requires { (procedure : ℕ) → times procedure calling.now ≤ slice_index open_calls.old.items procedure }
    ensures length { length open_calls.new.items ≡ length open_calls.old.items }
    ensures closed { OnOk result ((procedure : ℕ) →
        slice_index open_calls.new.items procedure + times procedure calling.now ≡ slice_index open_calls.old.items procedure) }
    ensures ready { OnOk result ((procedure : ℕ) →
        times procedure ready.new + one_if (is_closed open_calls.old.items procedure) ≡
        times procedure ready.old + one_if (is_closed open_calls.new.items procedure)) }
{
    for procedure in calling {
        let procedure = *procedure;
        let left = open_calls[procedure] - 1;
        open_calls[procedure] = left;
        if left == 0 {
            ready.add(procedure)?;
        }
    }
    Ok(())
}

// A procedure that has an open call.
fn first_open(open_calls: &[usize]) -> Option<usize>
    ensures some { IfSome result (λ procedure. 0 < slice_index open_calls.now procedure) }
    ensures none { IfNone result ((procedure : ℕ) → slice_index open_calls.now procedure ≡ 0) }
{
    for (procedure, calls) in open_calls.iter().enumerate() {
        if *calls > 0 {
            return Some(procedure);
        }
    }
    None
}

// The procedures in the order of their numbers, or None where one calls itself.
pub fn order_of(alloc: Global, callers: &[Caller]) -> Result<Option<Vec<usize>>, NoMemory>
    ensures none { IfOk result (λ found. IsNone found ↔ SomeCallsItself callers.now) }
    ensures order { IfOk result (λ found. IfSome found (λ order. IsNumbering callers.now order.items)) }
{
    let calling = Calling::of(alloc, callers)?;
    let mut open_calls = all_open(alloc, callers)?;
    let mut ready = all_closed(alloc, &open_calls)?;
    let mut order = Vec::new(alloc);
    while let Some(procedure) = ready.take_first() {
        order.push(procedure)?;
        close_calls(calling.callers_of(procedure), &mut open_calls, &mut ready)?;
    }
    match first_open(open_calls.as_slice()) {
        Some(_) => Ok(None),
        None => Ok(Some(order)),
    }
}

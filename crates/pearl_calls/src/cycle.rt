// Whether a procedure calls itself: a search that goes on from each procedure once.

ghost use Rattle.std.specs.Prelude.{◌≡◌, IfOk, OnOk};
ghost use Rattle.pearl_calls.specs.Cycles.{calls_itself};
ghost use Rattle.pearl_calls.specs.Marks.{MarksCallees};

use crate::caller::{Caller, callees};
use std::alloc::{AllocError as NoMemory, Global};

// Marks these callees, and leaves those that weren't marked yet to be looked at.
fn mark_callees(
    numbers: &[u32],
    marks: &mut Vec<bool>,
    pending: &mut Vec<usize>,
) -> Result<(), NoMemory>
    ensures { OnOk result (MarksCallees numbers.now marks.old.items marks.new.items pending.old.items pending.new.items) }
{
    for number in numbers {
        let number = *number as usize;
        if number < marks.len() && !marks[number] {
            pending.push(number)?;
            marks[number] = true;
        }
    }
    Ok(())
}

/// Whether a procedure calls itself, directly or through others. A number that names no procedure doesn't.
///
/// It goes over each procedure's calls once.
pub fn calls_itself(alloc: Global, callers: &[Caller], number: u32) -> Result<bool, NoMemory>
    ensures { IfOk result (λ found. found ≡ calls_itself callers.now number) }
{
    let start = number as usize;
    let mut marks = vec![in alloc; false; callers.len()]?;
    let mut pending = Vec::new(alloc);
    mark_callees(callees(callers, start), &mut marks, &mut pending)?;
    while let Some(procedure) = pending.pop() {
        mark_callees(callees(callers, procedure), &mut marks, &mut pending)?;
    }
    Ok(start < marks.len() && marks[start])
}

// What tasks and procedures weigh.

ghost use Rattle.std.specs.Prelude.{◌≡◌, ◌+◌, IfOk};
ghost use Rattle.std.specs.List.{filter_map};
ghost use Rattle.std.specs.Prelude.{slice_get};
ghost use Rattle.pearl_calls.specs.Numberings.{IsNumbering};
ghost use Rattle.pearl_calls.specs.Weights.{capped, greatest, whole_weight, weights_of};

use crate::caller::{Caller, caller_at};
use crate::numbering::Numbering;
use std::alloc::{AllocError as NoMemory, Global};

// The own weight and the greatest of these weights that is called.
fn add_up(caller: &Caller, weights: &[u32]) -> u32
    ensures { result ≡ capped (caller.now.own + greatest (filter_map (slice_get weights.now) caller.now.calls)) }
{
    let mut most = 0u32;
    for callee in caller.calls() {
        if let Some(weight) = weights.get(*callee as usize) {
            most = most.max(*weight);
        }
    }
    caller.own().saturating_add(most)
}

/// What procedures weigh, in the order of the text. A weight of 2^32 or more is told as 2^32 - 1.
pub fn weights(
    alloc: Global,
    callers: &[Caller],
    numbering: &Numbering,
) -> Result<Vec<u32>, NoMemory>
    requires { IsNumbering callers.now numbering.now }
    ensures { IfOk result (λ weights. weights.items ≡ weights_of callers.now) }
{
    let mut weights = vec![in alloc; 0u32; callers.len()]?;
    for procedure in numbering.order() {
        let weight = add_up(caller_at(callers, *procedure), weights.as_slice());
        weights[*procedure] = weight;
    }
    Ok(weights)
}

/// What a task or procedure weighs that calls these procedures, of which none calls itself.
pub fn weight_of(callers: &[Caller], numbering: &Numbering, weights: &[u32], caller: &Caller) -> u32
    requires numbering { IsNumbering callers.now numbering.now }
    requires weights { weights.now ≡ weights_of callers.now }
    ensures { result ≡ capped (whole_weight callers.now caller.now) }
{
    add_up(caller, weights)
}

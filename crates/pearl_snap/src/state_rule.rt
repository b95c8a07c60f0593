// The least rule that a state breaks.

ghost use Rattle.std.specs.Prelude.{◌≡◌, IfOk, MatchOption};
ghost use Rattle.pearl_saved.specs.Rules.{IsMachineState, IsLeastBroken};
ghost use Rattle.pearl_snap.specs.Parts.{HoldsValues, FramesHold};
ghost use Rattle.pearl_snap.specs.Numbers.{number};

use crate::core_rules::{has_numbers, has_parts, has_plans};
use crate::reference_rule::references_lead;
use crate::stack_rule::has_stacks;
use pearl_instructions::valid::Valid;
use pearl_saved::saved::Saved;
use std::alloc::{AllocError as NoMemory, Global};

/// A rule on the state of a run of an object.
#[derive(Clone, Copy, PartialEq, Eq, Debug)]
pub enum StateRule {
    /// The object is valid (N1).
    Validity,
    /// All parts are there, and hold what they may (N2).
    Parts,
    /// The moment, the clock, who acted last and all priorities are lawful (N3).
    Numbers,
    /// All plans are lawful, and no dormant task is to go on (N4).
    Plans,
    /// Stacks are of their routines, with the operands of their places (N5).
    Stacks,
    /// References name what is there (N6).
    References,
}

impl StateRule {
    /// Its number, by which a refusal tells it.
    pub fn number(self) -> u8
        ensures { result ≡ number self }
    {
        match self {
            StateRule::Validity => 1,
            StateRule::Parts => 2,
            StateRule::Numbers => 3,
            StateRule::Plans => 4,
            StateRule::Stacks => 5,
            StateRule::References => 6,
        }
    }
}

/// The least rule that a state of a valid object breaks, where each takes those before it for granted; none where it is a
/// state of the object. What a state holds that was read is values.
pub fn least_broken(
    alloc: Global,
    object: &Valid,
    saved: &Saved,
) -> Result<Option<StateRule>, NoMemory>
    requires core { HoldsValues saved.now.core }
    requires frames { FramesHold saved.now.stacks }
    ensures { IfOk result (λ broken. MatchOption broken (IsMachineState object.now saved.now) (λ rule. IsLeastBroken object.now saved.now (number rule))) }
{
    let parts = object.object();
    if !has_parts(parts, &saved.core) {
        return Ok(Some(StateRule::Parts));
    }
    if !has_numbers(parts, &saved.core) {
        return Ok(Some(StateRule::Numbers));
    }
    if !has_plans(parts, &saved.core) {
        return Ok(Some(StateRule::Plans));
    }
    if !has_stacks(alloc, parts, saved)? {
        return Ok(Some(StateRule::Stacks));
    }
    if !references_lead(saved) {
        return Ok(Some(StateRule::References));
    }
    Ok(None)
}

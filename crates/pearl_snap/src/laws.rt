// What holds of the bytes of saved states.

ghost use Rattle.pearl_fields.specs.Codec.{IsLawful, IsOrdered};
ghost use Rattle.pearl_snap.specs.Snapshots.{snapshot};
ghost use Rattle.pearl_saved.specs.declared.saved.Saved.{Saved};
ghost use Rattle.pearl_snap.specs.States.{saved};
ghost use Rattle.pearl_snap.specs.Parts.{HoldsValues, FramesHold};

/// A state is read as it is spelled, whatever follows, and what is read is spelled so: each has one spelling, and no state's
/// bytes begin another's. Where a field is bad, it is the first: what stands before it is cut, and not bad.
pub fn states_are_read_as_they_are_spelled()
    ensures lawful { IsLawful saved }
    ensures ordered { IsOrdered saved }
{}

/// So is a whole snapshot.
pub fn snapshots_are_read_as_they_are_spelled()
    ensures lawful { IsLawful snapshot }
    ensures ordered { IsOrdered snapshot }
{}

/// What a state that was read holds in its slots and inputs is values, and so is what its frames hold beside references.
pub fn states_hold_values()
    ensures core { (s : Saved) → saved.fits s → HoldsValues s.core }
    ensures frames { (s : Saved) → saved.fits s → FramesHold s.stacks }
{}

// Valid objects.

ghost use Rattle.std.specs.Prelude.{◌≡◌, ◌<◌, ◌≤◌, length, slice_get, IfOk, IfSome};
ghost use Rattle.std.specs.List.{sum_by};
ghost use Rattle.pearl_instructions.specs.Lawful.{IsObject};
ghost use Rattle.pearl_instructions.specs.Slots.{IsLeafAt, first_slots};
ghost use Rattle.pearl_instructions.specs.Valid.{IsValid};

use crate::object::{Leaf, Object, Parts};
use std::alloc::{AllocError as NoMemory, Global};
use std::marker::Model;

/// An object in which no rule of the validator fails.
#[derive(Drop)]
pub struct Valid {
    object: Object,
    // the number of each leaf's first slot
    firsts: Vec<u32>,
}

impl Model for Valid {
    ghost use Rattle.std.specs.Prelude.{◌≡◌};
    ghost use Rattle.pearl_instructions.specs.declared.object.Parts.{Parts};
    ghost use Rattle.pearl_instructions.specs.Lawful.{IsObject};
    ghost use Rattle.pearl_instructions.specs.Slots.{first_slots};
    ghost use Rattle.pearl_instructions.specs.Valid.{IsValid};

    ghost Value = { Parts };

    ghost view = { λ v. v.object };

    ghost invariant = { λ v. IsObject v.object × IsValid v.object × (v.firsts.items ≡ first_slots 0 v.object.leaves) };
}

// The number of each leaf's first slot.
fn first_slots(alloc: Global, leaves: &[Leaf]) -> Result<Vec<u32>, NoMemory>
    requires { sum_by (λ leaf. leaf.slots) leaves.now ≤ 65536 }
    ensures { IfOk result (λ firsts. firsts.items ≡ first_slots 0 leaves.now) }
{
    let mut firsts = Vec::with_capacity(alloc, leaves.len())?;
    let mut first: u32 = 0;
    for leaf in leaves {
        firsts.push(first)?;
        first += leaf.slots;
    }
    Ok(firsts)
}

impl Valid {
    /// The same object. Beside its memory it takes four bytes for each leaf.
    pub fn new(alloc: Global, object: Object) -> Result<Valid, NoMemory>
        requires { IsValid object }
        ensures { IfOk result (λ valid. valid ≡ object) }
    {
        let firsts = first_slots(alloc, object.parts().leaves.as_slice())?;
        Ok(Valid { object, firsts })
    }

    /// The object's parts.
    pub fn object(&self) -> &Parts
        ensures value { result.now ≡ self.now }
        ensures object { IsObject result.now }
        ensures valid { IsValid result.now }
    {
        self.object.parts()
    }

    /// The number of a leaf's first slot, in one step.
    pub fn first_slot(&self, leaf: u64) -> u32
        requires { leaf < length self.now.leaves }
        ensures { IfSome (slice_get self.now.leaves leaf) (λ here. IsLeafAt self.now leaf here result) }
    {
        self.firsts[leaf as usize]
    }

    /// The object.
    pub fn into_object(self) -> Object
        ensures value { result ≡ self }
        ensures valid { IsValid result }
    {
        self.object
    }
}

// The procedures that may be numbered next, with the first declared one at hand.

ghost use Rattle.std.specs.Prelude.{◌≡◌, ◌≤◌, [], ◌∷◌, All, IfSome, IfNone, OnOk, OnErr, IsPermutation};

use std::alloc::{AllocError as NoMemory, Global};
use std::cmp::Reverse;
use std::collections::BinaryHeap;
use std::marker::Model;

#[derive(Drop)]
pub struct Ready {
    heap: BinaryHeap<Reverse<usize>>,
}

impl Model for Ready {
    ghost use Rattle.std.specs.Prelude.{ℕ, List, map};
    ghost use Rattle.std.specs.BinaryHeap.{IsHeap, heap_items};
    ghost use Rattle.std.specs.Ordering.{nat_cmp};

    ghost Value = { List ℕ };

    ghost view = { λ s. map (λ x. x.0) (heap_items s.heap) };

    ghost invariant = { λ s. IsHeap (λ x y. nat_cmp y.0 x.0) (heap_items s.heap) };
}

impl Ready {
    pub fn new(alloc: Global) -> Self
        ensures { result ≡ [] }
    {
        Ready {
            heap: BinaryHeap::new(alloc),
        }
    }

    pub fn add(&mut self, procedure: usize) -> Result<(), NoMemory>
        ensures ok { OnOk result (IsPermutation (procedure ∷ self.old) self.new) }
        ensures err { OnErr result (self.new ≡ self.old) }
    {
        self.heap.push(Reverse(procedure))?;
        Ok(())
    }

    // Takes the one that is declared first.
    pub fn take_first(&mut self) -> Option<usize>
        ensures rest { IfSome result (λ first. IsPermutation self.old (first ∷ self.new)) }
        ensures first { IfSome result (λ first. All (λ procedure. first ≤ procedure) self.old) }
        ensures none { IfNone result (self.old ≡ []) }
    {
        match self.heap.pop() {
            Some(Reverse(procedure)) => Some(procedure),
            None => None,
        }
    }
}

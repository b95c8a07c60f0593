//! What is asked of a shelf and of a sink.

ghost use Rattle.std.specs.Prelude.{◌≡◌, ℕ, ◌^◌, ◌<◌, ◌≤◌, ◌↔◌, List, Option, length, take, IfOk, OnErr};
ghost use Rattle.pearl_io.specs.Outside.{Files, content, IsPiece, CountRose, Takes};

/// A call of a shelf or of a sink failed, and its count of faults rose in that call.
#[derive(Debug, Clone, Copy, PartialEq, Eq)]
pub struct Failed;

/// A sink did not take all of a piece.
#[derive(Debug, Clone, Copy, PartialEq, Eq)]
pub struct WriteFault;

/// Files that are fetched by name. No call changes them, and no count of faults ever falls.
pub trait Shelf {
    // The files, where the shelf tells them.
    ghost holds: { Self → Option Files };

    // How often fetching a file of this name has failed. A shelf may have one count for all names.
    ghost faults: { Self → List ℕ → ℕ };

    /// Copies bytes of the named file, from byte `at` on, to the front of `into`, and answers how
    /// many. The answer is 0 exactly where `at` is at or past the file's end.
    ///
    /// `at` is at most 2^40. Of two files of one name the first counts. For a name that isn't
    /// there a shelf may answer 0, as for an empty file, or [`Failed`].
    ///
    /// The contract doesn't say what stands in `into` behind the bytes copied, nor after
    /// [`Failed`].
    fn fetch(&mut self, name: &str, at: u64, into: &mut [u8]) -> Result<usize, Failed>
        requires room { 0 < length into.old }
        requires near { at ≤ 2 ^ 40 }
        ensures held { holds self.new ≡ holds self.old }
        ensures bound { IfOk result (λ count. count ≤ length into.old) }
        ensures piece { (files : Files) → holds self.old ≡ Some files →
            IfOk result (λ count. IsPiece (content files name.now) at count into.new) }
        ensures cause { OnErr result (CountRose (faults self.old name.now) (faults self.new name.now)) }
        ensures later { (other : List ℕ) → faults self.old other ≤ faults self.new other };
}

/// What takes bytes in order. Its count of faults never falls.
pub trait Sink {
    // All bytes taken so far, where the sink tells them.
    ghost taken: { Self → Option (List ℕ) };

    // How often a call has failed.
    ghost faults: { Self → ℕ };

    // The sink takes no more.
    ghost full: { Self → Type 0 };

    /// Takes bytes of `piece` from its front on, and answers how many. The answer is 0 exactly
    /// where the sink is full, and then it is still full.
    ///
    /// After [`Failed`] nothing was taken.
    fn put(&mut self, piece: &[u8]) -> Result<usize, Failed>
        requires { 0 < length piece.now }
        ensures bound { IfOk result (λ count. count ≤ length piece.now) }
        ensures takes { IfOk result (λ count. Takes (taken self.old) (taken self.new) (take count piece.now)) }
        ensures none_where_full { IfOk result (λ count. (count ≡ 0) ↔ full self.old) }
        ensures still_full { IfOk result (λ count. count ≡ 0 → full self.new) }
        ensures same { OnErr result (taken self.new ≡ taken self.old) }
        ensures cause { OnErr result (CountRose (faults self.old) (faults self.new)) }
        ensures later { faults self.old ≤ faults self.new };
}

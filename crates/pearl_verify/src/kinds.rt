// The kinds of the operands before an instruction.

ghost use Rattle.std.specs.Prelude.{◌≡◌, [], ◌∷◌, length, take, drop, reverse, slice_get, OnOk};
ghost use Rattle.pearl_instructions.specs.Operands.{same_shape};

use crate::same::same_list;
use pearl_value::kind::CellKind;
use std::alloc::{AllocError as NoMemory, Global};
use std::marker::Model;

/// The kinds of operands: the top one last in memory, and first for contracts.
#[derive(Drop)]
pub(crate) struct Kinds {
    kinds: Vec<CellKind>,
}

impl Model for Kinds {
    ghost use Rattle.std.specs.Prelude.{List, reverse};
    ghost use Rattle.pearl_value.specs.declared.kind.CellKind.{CellKind};

    ghost Value = { List CellKind };

    ghost view = { λ s. reverse s.kinds.items };
}

impl Kinds {
    pub(crate) fn none(alloc: Global) -> Kinds
        ensures { result ≡ [] }
    {
        Kinds {
            kinds: Vec::new(alloc),
        }
    }

    pub(crate) fn len(&self) -> usize
        ensures { result ≡ length self.now }
    {
        self.kinds.len()
    }

    /// The kind so far below the top, which is at 0.
    pub(crate) fn at(&self, below: usize) -> Option<CellKind>
        ensures { result ≡ slice_get self.now below }
    {
        if below < self.kinds.len() {
            Some(self.kinds[self.kinds.len() - 1 - below])
        } else {
            None
        }
    }

    /// The top ones, or all where there are fewer, the topmost last.
    pub(crate) fn top(&self, count: usize) -> &[CellKind]
        ensures { result.now ≡ reverse (take count self.now) }
    {
        &self.kinds[self.kinds.len().saturating_sub(count)..]
    }

    /// Those below so many, the top one last.
    pub(crate) fn below(&self, count: usize) -> &[CellKind]
        ensures { result.now ≡ reverse (drop count self.now) }
    {
        &self.kinds[..self.kinds.len().saturating_sub(count)]
    }

    /// Whether they are these, the top one last.
    pub(crate) fn are(&self, kinds: &[CellKind]) -> bool
        ensures { result ≡ same_shape (reverse kinds.now) self.now }
    {
        same_list(kinds, self.kinds.as_slice())
    }

    pub(crate) fn push(&mut self, kind: CellKind) -> Result<(), NoMemory>
        ensures { OnOk result (self.new ≡ kind ∷ self.old) }
    {
        self.kinds.push(kind)?;
        Ok(())
    }

    /// Takes so many off, or all where there are fewer.
    pub(crate) fn drop_top(&mut self, count: usize)
        ensures { self.new ≡ drop count self.old }
    {
        self.kinds.truncate(self.kinds.len().saturating_sub(count));
    }

    pub(crate) fn clear(&mut self)
        ensures { self.new ≡ [] }
    {
        self.kinds.clear();
    }
}

// The shape before an instruction, with its number.

ghost use Rattle.std.specs.Prelude.{◌≡◌, [], ◌∷◌, Some, drop, reverse, slice_get, unwrap_or, OnOk};
ghost use Rattle.pearl_instructions.specs.Operands.{Shape, same_shape};
ghost use Rattle.pearl_verify.specs.Numbers.{Edges, number_of, IsTree, IsNumbered};

use crate::kinds::Kinds;
use crate::tree::ShapeTree;
use pearl_value::kind::CellKind;
use std::alloc::{AllocError as NoMemory, Global};

/// The kinds of the operands before an instruction, and for each of them the number of the shape that it and those below
/// it are, the top one last: none where no stated shape begins so.
#[derive(Drop)]
pub(crate) struct Running {
    pub kinds: Kinds,
    pub numbers: Vec<Option<usize>>,
}

// That of the whole shape; the empty one has 0.
fn last_number(numbers: &[Option<usize>]) -> Option<usize>
    ensures { result ≡ unwrap_or (slice_get (reverse numbers.now) 0) (Some 0) }
{
    if numbers.len() == 0 {
        return Some(0);
    }
    numbers[numbers.len() - 1]
}

impl Running {
    pub(crate) fn none(alloc: Global) -> Running
        ensures kinds { result.kinds ≡ [] }
        ensures numbers { (edges : Edges) → IsNumbered edges result }
    {
        Running {
            kinds: Kinds::none(alloc),
            numbers: Vec::new(alloc),
        }
    }

    fn number(&self) -> Option<usize>
        ensures { (edges : Edges) → IsNumbered edges self.now → result ≡ number_of edges self.now.kinds }
    {
        last_number(self.numbers.as_slice())
    }

    /// Whether the kinds are the shape that has this number.
    pub(crate) fn has_number(&self, number: usize) -> bool
        ensures { (edges : Edges) (s : Shape) → IsTree edges → IsNumbered edges self.now → number_of edges s ≡ Some number → result ≡ same_shape s self.now.kinds }
    {
        match self.number() {
            Some(own) => own == number,
            None => false,
        }
    }

    pub(crate) fn push(&mut self, tree: &ShapeTree, kind: CellKind) -> Result<(), NoMemory>
        requires { IsNumbered tree.now.edges self.old }
        ensures kinds { OnOk result (self.new.kinds ≡ kind ∷ self.old.kinds) }
        ensures numbers { OnOk result (IsNumbered tree.now.edges self.new) }
    {
        let number = match self.number() {
            Some(below) => tree.child(below, kind),
            None => None,
        };
        self.numbers.push(number)?;
        self.kinds.push(kind)
    }

    /// Takes so many off, or all where there are fewer.
    pub(crate) fn drop_top(&mut self, count: usize)
        ensures kinds { self.new.kinds ≡ drop count self.old.kinds }
        ensures numbers { (edges : Edges) → IsNumbered edges self.old → IsNumbered edges self.new }
    {
        self.kinds.drop_top(count);
        self.numbers
            .truncate(self.numbers.len().saturating_sub(count));
    }

    pub(crate) fn clear(&mut self)
        ensures kinds { self.new.kinds ≡ [] }
        ensures numbers { (edges : Edges) → IsNumbered edges self.new }
    {
        self.kinds.clear();
        self.numbers.clear();
    }

    /// Becomes these, the top one last.
    pub(crate) fn become_these(
        &mut self,
        tree: &ShapeTree,
        kinds: &[CellKind],
    ) -> Result<(), NoMemory>
        ensures kinds { OnOk result (self.new.kinds ≡ reverse kinds.now) }
        ensures numbers { OnOk result (IsNumbered tree.now.edges self.new) }
    {
        self.clear();
        for kind in kinds {
            self.push(tree, *kind)?;
        }
        Ok(())
    }
}

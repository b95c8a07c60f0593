// The numbers of shapes, so that two shapes are compared in one step.

ghost use Rattle.std.specs.Prelude.{◌≡◌, ◌≤◌, Some, reverse, IfOk, OnOk};
ghost use Rattle.std.specs.BTreeMap.{btree_map_len};
ghost use Rattle.pearl_verify.specs.Numbers.{edge_on, child, number_of, IsTree, Grows};

use pearl_value::kind::{CellKind, Kind};
use std::alloc::{AllocError as NoMemory, Global};
use std::collections::BTreeMap;

/// A kind on top of a shape with this number, as something that has an order.
#[derive(Clone, Copy, PartialEq, Eq, PartialOrd, Ord)]
pub(crate) struct Edge {
    pub below: usize,
    pub sort: u8,
    pub length: u8,
}

/// The numbers of shapes, 0 being that of the empty one: any other is found by that of the shape below and the kind on top.
#[derive(Drop)]
pub(crate) struct ShapeTree {
    pub edges: BTreeMap<Edge, usize>,
}

fn edge_on(below: usize, kind: CellKind) -> Edge
    ensures { result ≡ edge_on below kind }
{
    let (sort, length) = match kind {
        CellKind::Plain(Kind::Fixed(length)) => (0, length),
        CellKind::Plain(Kind::Bits(length)) => (1, length),
        CellKind::Plain(Kind::Chars(length)) => (2, length),
        CellKind::Plain(Kind::Clock) => (3, 0),
        CellKind::Plain(Kind::Span) => (4, 0),
        CellKind::RefTo(Kind::Fixed(length)) => (5, length),
        CellKind::RefTo(Kind::Bits(length)) => (6, length),
        CellKind::RefTo(Kind::Chars(length)) => (7, length),
        CellKind::RefTo(Kind::Clock) => (8, 0),
        CellKind::RefTo(Kind::Span) => (9, 0),
    };
    Edge {
        below,
        sort,
        length,
    }
}

impl ShapeTree {
    pub(crate) fn new(alloc: Global) -> ShapeTree
        ensures { IsTree result.edges }
    {
        ShapeTree {
            edges: BTreeMap::new(alloc),
        }
    }

    /// The number of the shape that has this kind on top of the one with a number.
    pub(crate) fn child(&self, below: usize, kind: CellKind) -> Option<usize>
        ensures { result ≡ child self.now.edges below kind }
    {
        self.edges.get(&edge_on(below, kind)).copied()
    }

    // The same, in one step where nothing can stand on it: numbers rise, so nothing stands on the last one.
    fn child_known(&self, below: usize, kind: CellKind) -> Option<usize>
        requires { IsTree self.now.edges }
        ensures { result ≡ child self.now.edges below kind }
    {
        if below >= self.edges.len() {
            return None;
        }
        self.child(below, kind)
    }

    // The same, with a new number where there is none.
    fn grow(&mut self, below: usize, kind: CellKind) -> Result<usize, NoMemory>
        requires tree { IsTree self.old.edges }
        requires known { below ≤ btree_map_len self.old.edges }
        ensures tree { OnOk result (IsTree self.new.edges) }
        ensures grows { OnOk result (Grows self.old.edges self.new.edges) }
        ensures number { IfOk result (λ number. child self.new.edges below kind ≡ Some number) }
    {
        match self.child_known(below, kind) {
            Some(number) => Ok(number),
            None => {
                let number = self.edges.len() + 1;
                self.edges.insert(edge_on(below, kind), number)?;
                Ok(number)
            }
        }
    }

    /// The number of a shape, the top kind being the last one here, with new numbers where there are none.
    pub(crate) fn add(&mut self, kinds: &[CellKind]) -> Result<usize, NoMemory>
        requires { IsTree self.old.edges }
        ensures tree { OnOk result (IsTree self.new.edges) }
        ensures grows { OnOk result (Grows self.old.edges self.new.edges) }
        ensures number { IfOk result (λ number. number_of self.new.edges (reverse kinds.now) ≡ Some number) }
    {
        let mut number = 0;
        for kind in kinds {
            number = self.grow(number, *kind)?;
        }
        Ok(number)
    }
}

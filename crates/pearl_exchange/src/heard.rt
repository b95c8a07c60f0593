// What a task hears after its action, and the values that lie beside that.

ghost use Rattle.std.specs.Prelude.{◌≡◌, pos, []};
ghost use Rattle.pearl_value.specs.declared.cell.Cell.{Cell};

use arrayvec::ArrayVec;
use pearl_value::cell::Cell;

/// What a task hears after its action. Its values lie beside it.
#[derive(Clone, Copy, PartialEq, Eq, Debug)]
pub enum Heard {
    Nothing,
    /// One value.
    One,
    /// The values of a GET, in order.
    Many,
}

/// The values that lie beside what is heard: of these only those count that are heard.
#[derive(Drop)]
pub struct Beside {
    pub one: Cell,
    pub many: ArrayVec<Cell, 64>,
}

impl Beside {
    /// A place for values, of which none is heard yet.
    pub fn new() -> Beside
        ensures one { result.one ≡ Cell.Fixed 31 (pos 0) }
        ensures many { result.many.items ≡ [] }
    {
        Beside {
            one: Cell::default(),
            many: ArrayVec::new(),
        }
    }
}

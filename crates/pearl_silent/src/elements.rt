// Elements of arrays.

ghost use Rattle.std.specs.Prelude.{◌≡◌, ◌+◌, ◌<◌};
ghost use Rattle.pearl_silent.specs.Steps.{offset_below};

use pearl_stack::stack::Frame;
use pearl_value::cell::Cell;

/// The number of an element among so many, where the value is one.
pub fn offset(x: &Cell, count: u64) -> Option<u64>
    ensures { result ≡ offset_below count x.now }
{
    match x {
        Cell::Fixed { value, .. } => {
            if 0 <= *value && (*value as u64) < count {
                Some(*value as u64)
            } else {
                None
            }
        }
        _ => None,
    }
}

/// The cell at an offset.
pub fn element(here: &Frame, first: u64, o: u64) -> u64
    requires { first + o < here.now.cells }
    ensures { result ≡ first + o }
{
    let _cells = here.cells;
    first + o
}

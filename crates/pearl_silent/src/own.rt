// The cells of the top frame.

ghost use Rattle.std.specs.Prelude.{◌≡◌, ◌+◌, ◌<◌, IsSome, Some, length, slice_get};
ghost use Rattle.pearl_value.specs.Blanks.{blank_of};
ghost use Rattle.pearl_value.specs.Kinds.{IsKind};
ghost use Rattle.pearl_value.specs.declared.cell.Cell.{Cell};
ghost use Rattle.pearl_silent.specs.Steps.{top_cells, with_top_cell};

use pearl_stack::stack::Loaded;
use pearl_value::cell::Cell;
use pearl_value::kind::Kind;

// Cell `c`.
#[inline]
pub fn own(stack: &Loaded, c: u64) -> &Cell
    requires { IsSome (slice_get (top_cells stack.now.frames) c) }
    ensures { slice_get (top_cells stack.now.frames) c ≡ Some result.now }
{
    let _size = stack.size();
    stack.cell(stack.frames() - 1, c as u32)
}

// The number of the cell that has so many behind the first one.
#[inline]
pub fn behind(stack: &Loaded, first: u64, o: u64) -> u64
    requires { first + o < length (top_cells stack.now.frames) }
    ensures { result ≡ first + o }
{
    let _size = stack.size();
    first + o
}

// Writes a FIXED number into cell `c`.
#[inline]
pub fn set_own_number(stack: &mut Loaded, c: u64, len: u8, value: i64)
    requires { IsSome (slice_get (top_cells stack.old.frames) c) }
    ensures { stack.new ≡ record stack.old { frames = with_top_cell c (Cell.Fixed len value) stack.old.frames } }
{
    let _size = stack.size();
    let top = stack.frames() - 1;
    stack.set_cell_fixed(top, c as u32, len, value);
}

// Writes what is unset of the kind into cell `c`.
#[inline]
pub fn set_own_blank(stack: &mut Loaded, c: u64, kind: Kind)
    requires cell { IsSome (slice_get (top_cells stack.old.frames) c) }
    requires kind { IsKind kind }
    ensures { stack.new ≡ record stack.old { frames = with_top_cell c (blank_of kind) stack.old.frames } }
{
    let _size = stack.size();
    let top = stack.frames() - 1;
    stack.set_cell_blank(top, c as u32, kind);
}

// Subscripts.

ghost use Rattle.std.specs.Prelude.{◌≡◌, ◌+◌, ◌*◌, ◌<◌, ◌≤◌, pos, int_le, true, IsSome, IfSome, length, option_map};
ghost use Rattle.std.specs.List.{list_all};
ghost use Rattle.pearl_instructions.specs.Operators.{index as index_row, numbers_of};
ghost use Rattle.pearl_instructions.specs.Valid.{elements, extent as extent_of, is_array};
ghost use Rattle.pearl_stack.specs.Frames.{top_operands};
ghost use Rattle.pearl_silent.specs.Indices.{distance_at, offset_among, top_in_order};
ghost use Rattle.pearl_silent.specs.Steps.{on_top, Does, Applies, HasNext, told};

use crate::outcomes::leave_fixed;
use crate::stepped::Did;
use pearl_instructions::instr::Bounds;
use pearl_stack::stack::Loaded;
use pearl_value::cell::Cell;
use pearl_value::trap::Trap;

// How many elements a dimension has.
fn extent(bounds: Bounds) -> u64
    ensures { result ≡ extent_of bounds }
{
    (bounds.high as i64 - bounds.low as i64).unsigned_abs() + 1
}

// How far a subscript is above the lower bound, where it is within the bounds.
fn distance(bounds: Bounds, x: &Cell) -> Option<u64>
    ensures { result ≡ distance_at bounds x.now }
{
    match x {
        Cell::Fixed { value, .. } => {
            if bounds.low as i64 <= *value && *value <= bounds.high as i64 {
                Some((*value - bounds.low as i64).unsigned_abs())
            } else {
                None
            }
        }
        _ => None,
    }
}

// The offset of an element, of whose dimensions these are left. Their subscripts are the top operands, the last one on top.
fn offset_from(stack: &Loaded, so_far: u64, bounds: &[Bounds]) -> Option<u64>
    requires dimensions { length bounds.now ≤ 3 }
    requires there { length bounds.now ≤ length (top_operands stack.now.frames) }
    requires ordered { list_all (λ b. int_le b.low b.high) bounds.now ≡ true }
    requires few { (so_far + 1) * elements bounds.now ≤ 65536 }
    requires numbers { IsSome (numbers_of (top_in_order (length bounds.now) stack.now.frames)) }
    ensures value { option_map pos result ≡ offset_among (pos so_far) bounds.now (top_in_order (length bounds.now) stack.now.frames) }
    ensures small { IfSome result (λ n. n < 65536) }
{
    let Some((pair, others)) = bounds.split_first() else {
        return Some(so_far);
    };
    let x = stack.top(others.len() as u32);
    let far = distance(*pair, x)?;
    offset_from(stack, so_far * extent(*pair) + far, others)
}

// Index.
pub fn index(stack: &mut Loaded, bounds: &[Bounds]) -> Did
    requires next { HasNext stack.old.frames }
    requires array { is_array bounds.now ≡ true }
    requires ready { Applies (on_top (λ f lower. index_row bounds.now f lower) stack.old.frames) stack.old.room }
    ensures { Does (on_top (λ f lower. index_row bounds.now f lower) stack.old.frames) stack.old stack.new (told result) }
{
    match offset_from(stack, 0, bounds) {
        Some(o) => leave_fixed(stack, bounds.len() as u32, 31, o as i64),
        None => Did::Trapped(Trap::Index),
    }
}

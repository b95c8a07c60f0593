// Variables of the module. The caller hands in a leaf's first slot, since adding up the leaves before it
// would take as long as there are leaves.

ghost use Rattle.std.specs.Prelude.{◌≡◌, ◌+◌, ◌<◌, ◌≤◌, slice_get};
ghost use Rattle.pearl_instructions.specs.Cells.{reads as reads_row, writes as writes_row, slot_reference};
ghost use Rattle.pearl_instructions.specs.Steps.{given as given_row, popped as popped_row, within as within_row};
ghost use Rattle.pearl_instructions.specs.Slots.{IsLeafAt};
ghost use Rattle.pearl_silent.specs.Steps.{on_top, Does, Applies, IsHere};
ghost use Rattle.pearl_exchange.specs.Offers.{action_of};
ghost use Rattle.pearl_solo.specs.Gives.{gave};

use crate::stepped::{Gave, tell};
use pearl_cells::put::put_copy;
use pearl_exchange::offer::{Offer, What};
use pearl_instructions::object::Leaf;
use pearl_instructions::valid::Valid;
use pearl_silent::elements::offset;
use pearl_silent::top::{finish, operand};
use pearl_stack::stack::{Frame, Loaded};
use pearl_value::cell::{Cell, Place};
use pearl_value::trap::Trap;

// Read.
pub fn read(
    code: &Valid,
    stack: &Loaded,
    here: &Frame,
    v: u64,
    leaf: &Leaf,
    first: u32,
    into: &mut Offer,
) -> Gave
    requires here { IsHere here.now stack.now.frames }
    requires leaf { IsLeafAt code.now v leaf.now first }
    ensures { Does (on_top (λ f lower. given_row (slice_get code.now.leaves v) (λ leaf. reads_row code.now v 0 f lower f.operands)) stack.now.frames) stack.now stack.now (gave result (action_of into.new)) }
{
    into.what = What::Read(first);
    Gave::Offered
}

// Write: offers the value on top, which is copied since it stays there up to the answer.
pub fn write(
    code: &Valid,
    stack: &Loaded,
    here: &Frame,
    v: u64,
    leaf: &Leaf,
    first: u32,
    into: &mut Offer,
) -> Gave
    requires here { IsHere here.now stack.now.frames }
    requires leaf { IsLeafAt code.now v leaf.now first }
    requires ready { Applies (on_top (λ f lower. given_row (slice_get code.now.leaves v) (λ leaf. popped_row f.operands (λ x left. writes_row code.now v 0 x f lower left))) stack.now.frames) stack.now.room }
    ensures { Does (on_top (λ f lower. given_row (slice_get code.now.leaves v) (λ leaf. popped_row f.operands (λ x left. writes_row code.now v 0 x f lower left))) stack.now.frames) stack.now stack.now (gave result (action_of into.new)) }
{
    put_copy(&mut into.value, operand(stack, here, 0));
    into.what = What::Write(first);
    Gave::Offered
}

// RefSlot.
pub fn ref_slot(
    code: &Valid,
    stack: &mut Loaded,
    here: &Frame,
    v: u64,
    leaf: &Leaf,
    first: u32,
    into: &mut Offer,
) -> Gave
    requires here { IsHere here.now stack.old.frames }
    requires leaf { IsLeafAt code.now v leaf.now first }
    requires ready { Applies (on_top (λ f lower. given_row (slice_get code.now.leaves v) (λ leaf. slot_reference code.now v leaf 0 f lower f.operands)) stack.old.frames) stack.old.room }
    ensures { Does (on_top (λ f lower. given_row (slice_get code.now.leaves v) (λ leaf. slot_reference code.now v leaf 0 f lower f.operands)) stack.old.frames) stack.old stack.new (gave result (action_of into.new)) }
{
    let of = leaf.kind;
    let place = Place::Slot(first);
    tell(
        finish(stack, here, 0, Ok(Cell::Ref { kind: of, place })),
        into,
    )
}

// The slot at an offset.
fn slot(leaf: &Leaf, first: u32, o: u64) -> u32
    requires few { first + leaf.now.slots ≤ 65536 }
    requires within { o < leaf.now.slots }
    ensures { result ≡ first + o }
{
    first + o as u32
}

// ReadAt.
pub fn read_at(
    code: &Valid,
    stack: &Loaded,
    here: &Frame,
    v: u64,
    leaf: &Leaf,
    first: u32,
    into: &mut Offer,
) -> Gave
    requires here { IsHere here.now stack.now.frames }
    requires leaf { IsLeafAt code.now v leaf.now first }
    requires ready { Applies (on_top (λ f lower. given_row (slice_get code.now.leaves v) (λ leaf. popped_row f.operands (λ n left. within_row leaf.slots n f lower (λ n. reads_row code.now v n f lower left)))) stack.now.frames) stack.now.room }
    ensures { Does (on_top (λ f lower. given_row (slice_get code.now.leaves v) (λ leaf. popped_row f.operands (λ n left. within_row leaf.slots n f lower (λ n. reads_row code.now v n f lower left)))) stack.now.frames) stack.now stack.now (gave result (action_of into.new)) }
{
    match offset(operand(stack, here, 0), leaf.slots as u64) {
        Some(o) => {
            let at = slot(leaf, first, o);
            into.what = What::Read(at);
            Gave::Offered
        }
        None => {
            into.what = What::Trap(Trap::Index);
            Gave::Offered
        }
    }
}

// WriteAt: offers the value on top, which is copied since it stays there up to the answer.
pub fn write_at(
    code: &Valid,
    stack: &Loaded,
    here: &Frame,
    v: u64,
    leaf: &Leaf,
    first: u32,
    into: &mut Offer,
) -> Gave
    requires here { IsHere here.now stack.now.frames }
    requires leaf { IsLeafAt code.now v leaf.now first }
    requires ready { Applies (on_top (λ f lower. given_row (slice_get code.now.leaves v) (λ leaf. popped_row f.operands (λ x more. popped_row more (λ n left. within_row leaf.slots n f lower (λ n. writes_row code.now v n x f lower left))))) stack.now.frames) stack.now.room }
    ensures { Does (on_top (λ f lower. given_row (slice_get code.now.leaves v) (λ leaf. popped_row f.operands (λ x more. popped_row more (λ n left. within_row leaf.slots n f lower (λ n. writes_row code.now v n x f lower left))))) stack.now.frames) stack.now stack.now (gave result (action_of into.new)) }
{
    match offset(operand(stack, here, 1), leaf.slots as u64) {
        Some(o) => {
            let at = slot(leaf, first, o);
            put_copy(&mut into.value, operand(stack, here, 0));
            into.what = What::Write(at);
            Gave::Offered
        }
        None => {
            into.what = What::Trap(Trap::Index);
            Gave::Offered
        }
    }
}

// RefSlotAt.
pub fn ref_slot_at(
    code: &Valid,
    stack: &mut Loaded,
    here: &Frame,
    v: u64,
    leaf: &Leaf,
    first: u32,
    into: &mut Offer,
) -> Gave
    requires here { IsHere here.now stack.old.frames }
    requires leaf { IsLeafAt code.now v leaf.now first }
    requires ready { Applies (on_top (λ f lower. given_row (slice_get code.now.leaves v) (λ leaf. popped_row f.operands (λ n left. within_row leaf.slots n f lower (λ n. slot_reference code.now v leaf n f lower left)))) stack.old.frames) stack.old.room }
    ensures { Does (on_top (λ f lower. given_row (slice_get code.now.leaves v) (λ leaf. popped_row f.operands (λ n left. within_row leaf.slots n f lower (λ n. slot_reference code.now v leaf n f lower left)))) stack.old.frames) stack.old stack.new (gave result (action_of into.new)) }
{
    match offset(operand(stack, here, 0), leaf.slots as u64) {
        Some(o) => {
            let of = leaf.kind;
            let at = slot(leaf, first, o);
            let place = Place::Slot(at);
            tell(
                finish(stack, here, 1, Ok(Cell::Ref { kind: of, place })),
                into,
            )
        }
        None => {
            into.what = What::Trap(Trap::Index);
            Gave::Offered
        }
    }
}

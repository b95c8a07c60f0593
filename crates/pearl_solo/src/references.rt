// Variables that are named by references.

ghost use Rattle.std.specs.Prelude.{◌≡◌, IsSome, Some};
ghost use Rattle.pearl_instructions.specs.Cells.{read_reference, write_reference};
ghost use Rattle.pearl_instructions.specs.Steps.{popped as popped_row};
ghost use Rattle.pearl_solo.specs.Answered.{place_in};
ghost use Rattle.pearl_silent.specs.Steps.{on_top, Does, Applies, IsHere};
ghost use Rattle.pearl_exchange.specs.Offers.{action_of};
ghost use Rattle.pearl_solo.specs.Gives.{gave};

use crate::stepped::Gave;
use pearl_cells::put::put_copy;
use pearl_exchange::offer::{Offer, What};
use pearl_silent::top::operand;
use pearl_stack::stack::{Frame, Loaded};
use pearl_value::cell::{Cell, Place};

// What a reference names.
fn referred(x: &Cell) -> Place
    requires { IsSome (place_in x.now) }
    ensures { place_in x.now ≡ Some result }
{
    match x {
        Cell::Ref { place, .. } => *place,
        _ => unreachable!(),
    }
}

// ReadRef.
pub fn read_ref(stack: &mut Loaded, here: &Frame, into: &mut Offer) -> Gave
    requires here { IsHere here.now stack.old.frames }
    requires ready { Applies (on_top (λ f lower. popped_row f.operands (λ r left. read_reference f lower left r)) stack.old.frames) stack.old.room }
    ensures { Does (on_top (λ f lower. popped_row f.operands (λ r left. read_reference f lower left r)) stack.old.frames) stack.old stack.new (gave result (action_of into.new)) }
{
    let place = referred(operand(stack, here, 0));
    match place {
        Place::Slot(slot) => {
            into.what = What::Read(slot);
            Gave::Offered
        }
        Place::Cell(frame, cell) => {
            stack.drop_top(1);
            stack.push_cell(frame, cell);
            stack.go(here.instruction + 1);
            Gave::Silent
        }
    }
}

// WriteRef.
pub fn write_ref(stack: &mut Loaded, here: &Frame, into: &mut Offer) -> Gave
    requires here { IsHere here.now stack.old.frames }
    requires ready { Applies (on_top (λ f lower. popped_row f.operands (λ x more. popped_row more (λ r left. write_reference x f lower left r))) stack.old.frames) stack.old.room }
    ensures { Does (on_top (λ f lower. popped_row f.operands (λ x more. popped_row more (λ r left. write_reference x f lower left r))) stack.old.frames) stack.old stack.new (gave result (action_of into.new)) }
{
    let place = referred(operand(stack, here, 1));
    match place {
        Place::Slot(slot) => {
            put_copy(&mut into.value, operand(stack, here, 0));
            into.what = What::Write(slot);
            Gave::Offered
        }
        Place::Cell(frame, cell) => {
            stack.store_top(frame, cell);
            stack.drop_top(1);
            stack.go(here.instruction + 1);
            Gave::Silent
        }
    }
}

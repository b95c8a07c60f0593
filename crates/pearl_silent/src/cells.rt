// Instructions on cells and operands.

ghost use Rattle.std.specs.Prelude.{◌≡◌, ◌≢◌, ◌+◌, ◌<◌, ◌≤◌, [], ◌∷◌, IsSome, length, slice_get};
ghost use Rattle.pearl_value.specs.Kinds.{IsKind};
ghost use Rattle.pearl_stack.specs.Frames.{top_operands, used, pushed};
ghost use Rattle.pearl_instructions.specs.Steps.{popped as popped_row, leaves as leaves_row, within as within_row};
ghost use Rattle.pearl_instructions.specs.Cells.{load as load_row, store as store_row, fill as fill_row, load_at as load_at_row, store_at as store_at_row, filled, cell_reference};
ghost use Rattle.pearl_silent.specs.Steps.{on_top, stored_on, referred_on, with_cells, top_cells, Does, Applies, HasNext, told};

use crate::elements::offset;
use crate::outcomes::{leave, leave_cell, leave_none, leave_stored};
use crate::own::{behind, own, set_own_blank};
use crate::stepped::Did;
use pearl_instructions::constant::{Constant, Seen};
use pearl_stack::stack::Loaded;
use pearl_value::cell::{Cell, Place};
use pearl_value::conversion::kind;
use pearl_value::kind::Kind;
use pearl_value::trap::Trap;

// Puts the value of a literal on the top frame, as a whole cell. Out of line, since the cell is large.
#[inline(never)]
fn push_whole(stack: &mut Loaded, x: &Constant)
    requires some { stack.old.frames ≢ [] }
    requires room { used stack.old.frames < stack.old.room }
    ensures { stack.new ≡ record stack.old { frames = pushed x.now stack.old.frames } }
{
    stack.push_copy(&x.cell());
}

// Puts the value of a literal on the top frame. Numbers and texts are written where they are to lie.
#[inline]
fn push_literal(stack: &mut Loaded, x: &Constant)
    requires some { stack.old.frames ≢ [] }
    requires room { used stack.old.frames < stack.old.room }
    ensures { stack.new ≡ record stack.old { frames = pushed x.now stack.old.frames } }
{
    match x.seen() {
        Seen::Fixed { len, value } => stack.push_fixed(len, value),
        Seen::Bits { len, value } => stack.push_bits(len, value),
        Seen::Chars(text) => stack.push_chars(text),
        _ => push_whole(stack, x),
    }
}

// Const.
pub fn literal(stack: &mut Loaded, x: &Constant) -> Did
    requires next { HasNext stack.old.frames }
    requires ready { Applies (on_top (λ f lower. leaves_row f lower (x.now ∷ f.operands)) stack.old.frames) stack.old.room }
    ensures { Does (on_top (λ f lower. leaves_row f lower (x.now ∷ f.operands)) stack.old.frames) stack.old stack.new (told result) }
{
    push_literal(stack, x);
    stack.go_on();
    Did::Silent
}

// Load.
pub fn load(stack: &mut Loaded, c: u64) -> Did
    requires next { HasNext stack.old.frames }
    requires ready { Applies (on_top (λ f lower. load_row c f lower f.operands) stack.old.frames) stack.old.room }
    ensures { Does (on_top (λ f lower. load_row c f lower f.operands) stack.old.frames) stack.old stack.new (told result) }
{
    leave_cell(stack, 0, c)
}

// Store.
pub fn store(stack: &mut Loaded, c: u64) -> Did
    requires next { HasNext stack.old.frames }
    requires ready { Applies (on_top (λ f lower. popped_row f.operands (λ x left. store_row c x f lower left)) stack.old.frames) stack.old.room }
    ensures { Does (on_top (λ f lower. popped_row f.operands (λ x left. store_row c x f lower left)) stack.old.frames) stack.old stack.new (told result) }
{
    leave_stored(stack, c, 0)
}

// Drop.
pub fn drop_one(stack: &mut Loaded) -> Did
    requires next { HasNext stack.old.frames }
    requires ready { Applies (on_top (λ f lower. popped_row f.operands (λ x left. leaves_row f lower left)) stack.old.frames) stack.old.room }
    ensures { Does (on_top (λ f lower. popped_row f.operands (λ x left. leaves_row f lower left)) stack.old.frames) stack.old stack.new (told result) }
{
    leave_none(stack, 1)
}

// LoadAt.
pub fn load_at(stack: &mut Loaded, first: u64, count: u64) -> Did
    requires next { HasNext stack.old.frames }
    requires ready { Applies (on_top (λ f lower. load_at_row first count f lower) stack.old.frames) stack.old.room }
    ensures { Does (on_top (λ f lower. load_at_row first count f lower) stack.old.frames) stack.old stack.new (told result) }
{
    match offset(stack.top(0), count) {
        Some(o) => {
            let c = behind(stack, first, o);
            leave_cell(stack, 1, c)
        }
        None => Did::Trapped(Trap::Index),
    }
}

// StoreAt.
pub fn store_at(stack: &mut Loaded, first: u64, count: u64) -> Did
    requires next { HasNext stack.old.frames }
    requires ready { Applies (on_top (λ f lower. store_at_row first count f lower) stack.old.frames) stack.old.room }
    ensures { Does (on_top (λ f lower. store_at_row first count f lower) stack.old.frames) stack.old stack.new (told result) }
{
    match offset(stack.top(1), count) {
        Some(o) => {
            let c = behind(stack, first, o);
            leave_stored(stack, c, 1)
        }
        None => Did::Trapped(Trap::Index),
    }
}

// Puts what is unset of the kind into so many cells.
fn fill_cells(stack: &mut Loaded, first: u64, count: u64, kind: Kind)
    requires kind { IsKind kind }
    requires there { first + count ≤ length (top_cells stack.old.frames) }
    ensures { stack.new ≡ record stack.old { frames = with_cells (filled (top_cells stack.old.frames) first count kind) stack.old.frames } }
{
    let _size = stack.size();
    for i in 0..count {
        set_own_blank(stack, first + i, kind);
    }
}

// Fill.
pub fn fill(stack: &mut Loaded, first: u64, count: u64, kind: Kind) -> Did
    requires kind { IsKind kind }
    requires next { HasNext stack.old.frames }
    requires ready { Applies (on_top (λ f lower. fill_row first count kind f lower) stack.old.frames) stack.old.room }
    ensures { Does (on_top (λ f lower. fill_row first count kind f lower) stack.old.frames) stack.old stack.new (told result) }
{
    fill_cells(stack, first, count, kind);
    stack.go_on();
    Did::Silent
}

// Puts a reference to a cell in the place of so many operands.
fn refer(stack: &mut Loaded, c: u64, taken: u32) -> Did
    requires next { HasNext stack.old.frames }
    requires there { taken ≤ length (top_operands stack.old.frames) }
    requires ready { Applies (referred_on c taken stack.old.frames) stack.old.room }
    ensures { Does (referred_on c taken stack.old.frames) stack.old stack.new (told result) }
{
    let _size = stack.size();
    let of = kind(own(stack, c));
    let place = Place::Cell(stack.frames() - 1, c as u32);
    leave(stack, taken, Ok(Cell::Ref { kind: of, place }))
}

// RefCell.
pub fn ref_cell(stack: &mut Loaded, c: u64) -> Did
    requires next { HasNext stack.old.frames }
    requires ready { Applies (on_top (λ f lower. cell_reference c f lower f.operands) stack.old.frames) stack.old.room }
    ensures { Does (on_top (λ f lower. cell_reference c f lower f.operands) stack.old.frames) stack.old stack.new (told result) }
{
    refer(stack, c, 0)
}

// RefCellAt.
pub fn ref_cell_at(stack: &mut Loaded, first: u64, count: u64) -> Did
    requires next { HasNext stack.old.frames }
    requires ready { Applies (on_top (λ f lower. popped_row f.operands (λ n left. within_row count n f lower (λ n. cell_reference (first + n) f lower left))) stack.old.frames) stack.old.room }
    ensures { Does (on_top (λ f lower. popped_row f.operands (λ n left. within_row count n f lower (λ n. cell_reference (first + n) f lower left))) stack.old.frames) stack.old stack.new (told result) }
{
    match offset(stack.top(0), count) {
        Some(o) => {
            let c = behind(stack, first, o);
            refer(stack, c, 1)
        }
        None => Did::Trapped(Trap::Index),
    }
}

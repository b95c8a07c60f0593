// Texts and values of terminals.

ghost use Rattle.std.specs.Prelude.{◌≡◌, ◌<◌, ◌≤◌, ◌^◌, Some, IsSome, IfSome, length, take, reverse, option_and_then};
ghost use Rattle.pearl_format.specs.Items.{data_count as count_of, data_here as count_here};
ghost use Rattle.pearl_format.specs.Texts.{text_of};
ghost use Rattle.pearl_stack.specs.Frames.{top_operands};
ghost use Rattle.pearl_instructions.specs.Objects.{items_at as items_of};
ghost use Rattle.pearl_instructions.specs.Offers.{value_kinds, cells_from, put_values as put_row, get_values as get_row};
ghost use Rattle.pearl_solo.specs.Texts.{text_offered, HasText, MakesText};
ghost use Rattle.pearl_silent.specs.Steps.{on_top, Does, Applies, IsHere, top_cells};
ghost use Rattle.pearl_exchange.specs.Offers.{action_of};
ghost use Rattle.pearl_solo.specs.Gives.{gave};

use crate::stepped::Gave;
use crate::values::top_values;
use arrayvec::ArrayVec;
use pearl_exchange::offer::{Offer, What};
use pearl_format::item::{Item, ItemCode};
use pearl_format::put::put_text;
use pearl_instructions::instr::Reading;
use pearl_instructions::valid::Valid;
use pearl_silent::top::{operand, own_cell};
use pearl_stack::stack::{Frame, Loaded};
use pearl_value::cell::Cell;
use pearl_value::conversion::kind;
use pearl_value::kind::Kind;
use std::slice;

// The items of a format.
pub fn items_at(code: &Valid, format: u64) -> &[Item]
    requires { IsSome (items_of code.now format) }
    ensures { items_of code.now format ≡ Some result.now }
{
    code.object().formats.as_slice()[format as usize].as_slice()
}

// How many values an item takes.
fn data_here(code: ItemCode) -> u32
    ensures { result ≡ count_here code }
{
    match code {
        ItemCode::X => 0,
        ItemCode::Skip => 0,
        _ => 1,
    }
}

// How many of the items take a value.
pub fn data_count(items: &[Item]) -> u32
    requires { count_of items.now ≤ 64 }
    ensures { result ≡ count_of items.now }
{
    let mut count: u32 = 0;
    for item in items {
        count += data_here(item.code);
    }
    count
}

// Offers the text of a Put, or its trap.
fn offer_text(items: &[Item], values: &[Cell], device: u32, into: &mut Offer)
    requires { HasText items.now values.now }
    ensures { action_of into.new ≡ text_offered device (text_of items.now values.now) }
{
    match put_text(items, values, &mut into.text) {
        Ok(()) => into.what = What::Put(device),
        Err(trap) => into.what = What::Trap(trap),
    }
}

// Offers the text of the top operands, which are copied into a row, since they stay up to the answer.
#[inline(never)]
fn offer_texts(
    stack: &Loaded,
    here: &Frame,
    items: &[Item],
    count: u32,
    device: u32,
    into: &mut Offer,
)
    requires here { IsHere here.now stack.now.frames }
    requires there { count ≤ length (top_operands stack.now.frames) }
    requires few { count ≤ 64 }
    requires text { HasText items.now (reverse (take count (top_operands stack.now.frames))) }
    ensures { action_of into.new ≡ text_offered device (text_of items.now (reverse (take count (top_operands stack.now.frames)))) }
{
    let values = top_values(stack, here, count);
    offer_text(items, values.as_slice(), device, into);
}

// Put.
#[inline(never)]
pub fn put(
    code: &Valid,
    stack: &Loaded,
    here: &Frame,
    device: u64,
    format: u64,
    into: &mut Offer,
) -> Gave
    requires here { IsHere here.now stack.now.frames }
    requires device { device < 2 ^ 32 }
    requires text { MakesText (items_of code.now format) (top_operands stack.now.frames) }
    requires ready { Applies (on_top (λ f lower. put_row code.now device format f lower) stack.now.frames) stack.now.room }
    ensures { Does (on_top (λ f lower. put_row code.now device format f lower) stack.now.frames) stack.now stack.now (gave result (action_of into.new)) }
{
    let items = items_at(code, format);
    let count = data_count(items);
    if count == 1 {
        let x = operand(stack, here, 0);
        offer_text(items, slice::from_ref(x), device as u32, into);
        return Gave::Offered;
    }
    offer_texts(stack, here, items, count, device as u32, into);
    Gave::Offered
}

// The kinds of so many cells of the top frame.
fn kinds_from(stack: &Loaded, here: &Frame, first: u64, count: u32, kinds: &mut ArrayVec<Kind, 64>)
    requires here { IsHere here.now stack.now.frames }
    requires few { count ≤ 64 }
    requires there { IsSome (option_and_then value_kinds (cells_from (top_cells stack.now.frames) first count)) }
    ensures { option_and_then value_kinds (cells_from (top_cells stack.now.frames) first count) ≡ Some kinds.new.items }
{
    let _cells = here.cells;
    kinds.clear();
    for i in 0..count {
        kinds.push(kind(own_cell(stack, here, first + i as u64)));
    }
}

// Get.
#[inline(never)]
pub fn get_values(
    code: &Valid,
    stack: &Loaded,
    here: &Frame,
    reading: &Reading,
    into: &mut Offer,
) -> Gave
    requires here { IsHere here.now stack.now.frames }
    requires device { reading.now.device < 2 ^ 32 }
    requires format { reading.now.format < 2 ^ 32 }
    requires few { IfSome (items_of code.now reading.now.format) (λ items. count_of items ≤ 64) }
    requires ready { Applies (on_top (λ f lower. get_row code.now reading.now f lower) stack.now.frames) stack.now.room }
    ensures { Does (on_top (λ f lower. get_row code.now reading.now f lower) stack.now.frames) stack.now stack.now (gave result (action_of into.new)) }
{
    let items = items_at(code, reading.format);
    let count = data_count(items);
    kinds_from(stack, here, reading.first, count, &mut into.kinds);
    into.what = What::Get {
        device: reading.device as u32,
        format: reading.format as u32,
    };
    Gave::Offered
}

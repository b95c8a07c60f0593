// Stacks, call by call.

ghost use Rattle.std.specs.Prelude.{◌≡◌, IsSome, Some, option_map};
ghost use Rattle.pearl_stack.specs.Frames.{frame_at, sizes};

use crate::operands::is_number;
use pearl_stack::stack::{Frame, Loaded, Parked};
use pearl_value::cell::{Cell, Place};
use pearl_value::kind::Kind;
use std::alloc::{AllocError, Global};
use std::test::Fail;

/// A frame as a row of a table: where it stands, the numbers in its cells, and its operands from the first one pushed.
struct Row {
    routine: u32,
    instruction: u64,
    cells: &'static [i64],
    operands: &'static [i64],
}

/// Frames, the lowest one first.
macro_rules! frames {
    ($($routine:literal at $instruction:literal: $cells:tt then $operands:tt;)*) => {
        &[$(Row { routine: $routine, instruction: $instruction, cells: &$cells, operands: &$operands }),*]
    };
}

fn number(value: i64) -> Cell {
    Cell::Fixed { len: 31, value }
}

fn has_cells(stack: &Loaded, f: u32, frame: &Frame, wanted: &[i64]) -> bool
    requires { option_map sizes (frame_at stack.now.frames f) ≡ Some frame.now }
{
    if frame.cells as usize != wanted.len() {
        return false;
    }
    for c in 0..frame.cells {
        if !is_number(stack.cell(f, c), wanted[c as usize]) {
            return false;
        }
    }
    true
}

fn has_operands(stack: &Loaded, f: u32, frame: &Frame, wanted: &[i64]) -> bool
    requires { option_map sizes (frame_at stack.now.frames f) ≡ Some frame.now }
{
    if frame.operands as usize != wanted.len() {
        return false;
    }
    for at in 0..frame.operands {
        if !is_number(stack.operand(f, at), wanted[at as usize]) {
            return false;
        }
    }
    true
}

fn is_frame(stack: &Loaded, f: u32, row: &Row) -> bool
    requires { IsSome (frame_at stack.now.frames f) }
{
    let frame = stack.frame(f);
    frame.routine == row.routine
        && frame.instruction == row.instruction
        && has_cells(stack, f, &frame, row.cells)
        && has_operands(stack, f, &frame, row.operands)
}

/// Whether the stack has these frames, the lowest one first.
fn shows(stack: &Loaded, rows: &[Row]) -> bool {
    if stack.frames() as usize != rows.len() {
        return false;
    }
    for f in 0..stack.frames() {
        if !is_frame(stack, f, &rows[f as usize]) {
            return false;
        }
    }
    true
}

fn arguments_become_the_first_cells_in_order(alloc: Global) -> Result<bool, AllocError> {
    let mut stack = Parked::new(alloc, 8, 2)?.load();
    stack.enter(4, 0, 1);
    stack.push(number(7));
    stack.push(number(8));
    stack.push(number(9));
    stack.enter(2, 2, 3);
    Ok(shows(
        &stack,
        frames! { 4 at 0: [0] then [7]; 2 at 0: [8, 9, 0] then []; },
    ))
}

fn a_caller_is_left_as_it_was_at_its_call(alloc: Global) -> Result<bool, AllocError> {
    let mut stack = Parked::new(alloc, 8, 2)?.load();
    stack.enter(4, 0, 1);
    stack.push(number(7));
    stack.push(number(8));
    stack.go(5);
    stack.enter(2, 1, 2);
    stack.push(number(3));
    stack.go(6);
    let is_above = shows(
        &stack,
        frames! { 4 at 5: [0] then [7]; 2 at 6: [8, 0] then [3]; },
    );
    stack.leave();
    Ok(is_above && shows(&stack, frames! { 4 at 5: [0] then [7]; }))
}

fn a_parked_stack_keeps_all(alloc: Global) -> Result<bool, AllocError> {
    let mut stack = Parked::new(alloc, 8, 2)?.load();
    stack.enter(4, 0, 2);
    stack.set_cell(0, 1, number(-1));
    stack.push(number(7));
    stack.enter(2, 1, 1);
    stack.go(9);
    stack.push(number(8));
    let stack = stack.park().load();
    Ok(shows(
        &stack,
        frames! { 4 at 0: [0, -1] then []; 2 at 9: [7] then [8]; },
    ))
}

fn a_cell_of_a_lower_frame_is_written(alloc: Global) -> Result<bool, AllocError> {
    let mut stack = Parked::new(alloc, 8, 3)?.load();
    stack.enter(9, 0, 2);
    stack.enter(5, 0, 2);
    stack.enter(1, 0, 2);
    stack.set_cell(1, 1, number(6));
    stack.set_cell(0, 0, number(4));
    Ok(shows(
        &stack,
        frames! { 9 at 0: [4, 0] then []; 5 at 0: [0, 6] then []; 1 at 0: [0, 0] then []; },
    ))
}

fn operands_are_popped_in_the_other_order(alloc: Global) -> Result<bool, AllocError> {
    let mut stack = Parked::new(alloc, 3, 1)?.load();
    stack.enter(0, 0, 0);
    stack.push(number(1));
    stack.push(number(2));
    stack.push(number(3));
    let top = is_number(&stack.pop(), 3);
    let next = is_number(&stack.pop(), 2);
    Ok(top && next && shows(&stack, frames! { 0 at 0: [] then [1]; }))
}

fn a_cleared_stack_has_its_whole_room(alloc: Global) -> Result<bool, AllocError> {
    let mut stack = Parked::new(alloc, 3, 1)?.load();
    stack.enter(0, 0, 2);
    stack.push(number(1));
    stack.clear();
    let is_clear = shows(&stack, frames! {});
    stack.enter(1, 0, 3);
    Ok(is_clear && shows(&stack, frames! { 1 at 0: [0, 0, 0] then []; }))
}

fn cells_may_be_of_any_kind(alloc: Global) -> Result<bool, AllocError> {
    let mut stack = Parked::new(alloc, 2, 1)?.load();
    stack.enter(0, 0, 1);
    stack.set_cell(0, 0, Cell::Clock(5));
    stack.push(Cell::Ref {
        kind: Kind::Clock,
        place: Place::Cell(0, 0),
    });
    let is_clock = matches!(stack.cell(0, 0), Cell::Clock(5));
    let is_reference = matches!(
        stack.operand(0, 0),
        Cell::Ref {
            place: Place::Cell(0, 0),
            ..
        }
    );
    Ok(is_clock && is_reference)
}

fn a_stack_may_have_no_room(alloc: Global) -> Result<bool, AllocError> {
    let stack = Parked::new(alloc, 0, 0)?.load();
    Ok(stack.frames() == 0)
}

#[test]
fn frames_are_entered_and_left(rt: HostRuntime) -> Result<(), Fail> {
    let alloc = rt.alloc();
    assert!(rt; arguments_become_the_first_cells_in_order(alloc)?);
    assert!(rt; a_caller_is_left_as_it_was_at_its_call(alloc)?);
    assert!(rt; a_parked_stack_keeps_all(alloc)?);
    assert!(rt; a_cell_of_a_lower_frame_is_written(alloc)?);
    Ok(())
}

#[test]
fn operands_are_pushed_and_popped(rt: HostRuntime) -> Result<(), Fail> {
    let alloc = rt.alloc();
    assert!(rt; operands_are_popped_in_the_other_order(alloc)?);
    assert!(rt; a_cleared_stack_has_its_whole_room(alloc)?);
    assert!(rt; cells_may_be_of_any_kind(alloc)?);
    assert!(rt; a_stack_may_have_no_room(alloc)?);
    Ok(())
}

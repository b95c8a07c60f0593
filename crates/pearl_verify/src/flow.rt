// How a routine goes on: shapes where control flows to, jumps, calls and ends.

ghost use Rattle.std.specs.Prelude.{◌≡◌, ◌<◌, ◌+◌, ◌^◌, [], true, Some, length, slice_get, OnOk, IsTrue};
ghost use Rattle.std.specs.List.{list_all};
ghost use Rattle.pearl_instructions.specs.Operands.{same_shape};
ghost use Rattle.pearl_instructions.specs.Objects.{is_task, result_of};
ghost use Rattle.pearl_instructions.specs.Kinds.{shape_after};
ghost use Rattle.pearl_instructions.specs.Named.{v1};
ghost use Rattle.pearl_instructions.specs.Valid.{goes_on, targets, is_named, stated, shape_before, v6, is_turn, v7, v8, result_shape, v10, call_fits, v11};
ghost use Rattle.std.specs.Prelude.{nat_lt, ◌||◌};
ghost use Rattle.pearl_verify.specs.Jumps.{HoldsJumps, AllNamed, ComesBefore};
ghost use Rattle.pearl_verify.specs.Numbers.{IsNumbered};

use crate::jumps::JumpTable;
use crate::kinds::Kinds;
use crate::running::Running;
use crate::table::{is_task, result_of};
use pearl_instructions::instr::Instr;
use pearl_instructions::object::{Code, Parts};
use pearl_value::kind::{CellKind, Kind};
use std::alloc::AllocError as NoMemory;

pub(crate) fn goes_on(instr: &Instr) -> bool
    ensures { result ≡ goes_on instr.now }
{
    match instr {
        Instr::Jump(_) => false,
        Instr::Return => false,
        Instr::End => false,
        Instr::Trap(_) => false,
        Instr::TerminateOwn => false,
        _ => true,
    }
}

/// Whether these are the kinds before an instruction that a jump names.
fn lands(
    object: &Parts,
    routine: usize,
    code: &Code,
    jumps: &JumpTable,
    to: u64,
    running: &Running,
) -> bool
    requires table { HoldsJumps code.now jumps.now }
    requires numbered { IsNumbered jumps.now.tree.edges running.now }
    requires within { to < length code.now.instructions }
    requires named { is_named code.now.instructions to ≡ true }
    ensures { result ≡ same_shape (shape_before object.now routine code.now to) running.now.kinds }
{
    if to == 0 {
        return running.kinds.are(&[]);
    }
    match jumps.number(code, to as usize) {
        Some(number) => running.has_number(number),
        None => running.kinds.are(&[]),
    }
}

fn all_land(
    object: &Parts,
    routine: usize,
    code: &Code,
    jumps: &JumpTable,
    list: &[u64],
    running: &Running,
) -> bool
    requires table { HoldsJumps code.now jumps.now }
    requires numbered { IsNumbered jumps.now.tree.edges running.now }
    requires named { AllNamed code.now.instructions list.now }
    ensures { result ≡ list_all (λ t. same_shape (shape_before object.now routine code.now t) running.now.kinds) list.now }
{
    for to in list {
        if !lands(object, routine, code, jumps, *to, running) {
            return false;
        }
    }
    true
}

/// Whether these are the kinds before each instruction to which this one jumps.
fn arrives(
    object: &Parts,
    routine: usize,
    code: &Code,
    jumps: &JumpTable,
    instr: &Instr,
    running: &Running,
) -> bool
    requires table { HoldsJumps code.now jumps.now }
    requires numbered { IsNumbered jumps.now.tree.edges running.now }
    requires named { AllNamed code.now.instructions (targets instr.now) }
    ensures { result ≡ list_all (λ t. same_shape (shape_before object.now routine code.now t) running.now.kinds) (targets instr.now) }
{
    match instr {
        Instr::Jump(to) => lands(object, routine, code, jumps, *to, running),
        Instr::JumpZero(to) => lands(object, routine, code, jumps, *to, running),
        Instr::Case(list) => all_land(object, routine, code, jumps, list.get().as_slice(), running),
        Instr::Advance { past, .. } => lands(object, routine, code, jumps, *past, running),
        _ => true,
    }
}

/// Whether these are the kinds before the next instruction, to which this one goes on.
fn follows(
    object: &Parts,
    routine: usize,
    code: &Code,
    jumps: &JumpTable,
    i: usize,
    running: &Running,
) -> bool
    requires table { HoldsJumps code.now jumps.now }
    requires numbered { IsNumbered jumps.now.tree.edges running.now }
    requires within { i + 1 < length code.now.instructions }
    requires after { ComesBefore object.now routine code.now (i + 1) running.now.kinds }
    ensures { result ≡ same_shape (shape_before object.now routine code.now (i + 1)) running.now.kinds }
{
    match jumps.number(code, i + 1) {
        Some(number) => running.has_number(number),
        None => {
            if jumps.is_named(code, i + 1) {
                running.kinds.are(&[])
            } else {
                true
            }
        }
    }
}

/// Whether an instruction goes on and jumps with the kinds before where it goes (V6). The kinds are those behind it.
pub(crate) fn flows(
    object: &Parts,
    routine: usize,
    code: &Code,
    jumps: &JumpTable,
    i: usize,
    instr: &Instr,
    running: &Running,
) -> bool
    requires table { HoldsJumps code.now jumps.now }
    requires numbered { IsNumbered jumps.now.tree.edges running.now }
    requires at { slice_get code.now.instructions i ≡ Some instr.now }
    requires names { v1 object.now code.now instr.now ≡ true }
    requires next { i + 1 < 2 ^ 64 }
    requires after { running.now.kinds ≡ shape_after object.now routine code.now instr.now (shape_before object.now routine code.now i) }
    ensures { result ≡ v6 object.now routine code.now i instr.now running.now.kinds }
{
    if !arrives(object, routine, code, jumps, instr, running) {
        return false;
    }
    if goes_on(instr) {
        if i + 1 < code.instructions.as_slice().len() {
            return follows(object, routine, code, jumps, i, running);
        }
    }
    true
}

/// Makes the kinds behind an instruction those before the next one.
pub(crate) fn advance(
    object: &Parts,
    routine: usize,
    code: &Code,
    jumps: &JumpTable,
    i: usize,
    instr: &Instr,
    running: &mut Running,
) -> Result<(), NoMemory>
    requires table { HoldsJumps code.now jumps.now }
    requires numbered { IsNumbered jumps.now.tree.edges running.old }
    requires within { i + 1 < length code.now.instructions }
    requires at { slice_get code.now.instructions i ≡ Some instr.now }
    requires after { running.old.kinds ≡ shape_after object.now routine code.now instr.now (shape_before object.now routine code.now i) }
    ensures kinds { OnOk result (running.new.kinds ≡ shape_before object.now routine code.now (i + 1)) }
    ensures numbered { OnOk result (IsNumbered jumps.now.tree.edges running.new) }
{
    match jumps.stated(code, i + 1) {
        Some(stated) => running.become_these(&jumps.tree, stated)?,
        None => {
            if jumps.is_named(code, i + 1) || !goes_on(instr) {
                running.clear();
            }
        }
    }
    Ok(())
}

fn is_turn(code: &Code, instruction: u64) -> bool
    ensures { result ≡ is_turn (slice_get code.now.instructions instruction) }
{
    match code.instructions.as_slice().get(instruction as usize) {
        Some(Instr::Turn) => true,
        _ => false,
    }
}

fn may_go_to(code: &Code, i: usize, to: u64) -> bool
    ensures { result ≡ nat_lt i to || is_turn (slice_get code.now.instructions to) }
{
    (i as u64) < to || is_turn(code, to)
}

fn may_go_to_all(code: &Code, i: usize, list: &[u64]) -> bool
    ensures { result ≡ list_all (λ t. nat_lt i t || is_turn (slice_get code.now.instructions t)) list.now }
{
    for to in list {
        if !may_go_to(code, i, *to) {
            return false;
        }
    }
    true
}

/// Whether each jump goes forward, or to a Turn (V7).
pub(crate) fn goes_forward(code: &Code, i: usize, instr: &Instr) -> bool
    ensures { result ≡ v7 code.now i instr.now }
{
    match instr {
        Instr::Jump(to) => may_go_to(code, i, *to),
        Instr::JumpZero(to) => may_go_to(code, i, *to),
        Instr::Case(list) => may_go_to_all(code, i, list.get().as_slice()),
        Instr::Advance { past, .. } => may_go_to(code, i, *past),
        _ => true,
    }
}

/// Whether a procedure calls smaller ones alone (V8).
pub(crate) fn calls_smaller(object: &Parts, routine: usize, instr: &Instr) -> bool
    ensures { result ≡ v8 object.now routine instr.now }
{
    match instr {
        Instr::Call(procedure) => is_task(object, routine) || *procedure < routine as u64,
        _ => true,
    }
}

fn is_result(of: Option<Kind>, kinds: &Kinds) -> bool
    ensures { result ≡ same_shape kinds.now (result_shape of) }
{
    match of {
        Some(of) => kinds.are(&[CellKind::Plain(of)]),
        None => kinds.are(&[]),
    }
}

/// Whether a procedure returns just its result, and a task ends with no operand (V10).
pub(crate) fn ends_well(object: &Parts, routine: usize, instr: &Instr, kinds: &Kinds) -> bool
    ensures { result ≡ v10 object.now routine instr.now kinds.now }
{
    match instr {
        Instr::Return => {
            !is_task(object, routine) && is_result(result_of(object, routine), kinds)
        }
        Instr::End => is_task(object, routine) && kinds.are(&[]),
        _ => true,
    }
}

/// Whether the cells, the operands below the arguments and the callee's depth stay within the depth.
fn call_fits(object: &Parts, code: &Code, procedure: u64, kinds: &Kinds) -> bool
    ensures { result ≡ call_fits code.now (slice_get object.now.procedures procedure) kinds.now }
{
    match object.procedures.as_slice().get(procedure as usize) {
        Some(callee) => {
            let below = kinds.len().saturating_sub(callee.params as usize);
            let cells = code.cells.as_slice().len();
            cells as u128 + below as u128 + callee.code.depth as u128 <= code.depth as u128
        }
        None => true,
    }
}

/// Whether cells and operands stay within the stated depth, also over calls (V11).
pub(crate) fn keeps_depth(object: &Parts, code: &Code, instr: &Instr, kinds: &Kinds) -> bool
    ensures { result ≡ v11 object.now code.now instr.now kinds.now }
{
    let cells = code.cells.as_slice().len();
    if cells as u128 + kinds.len() as u128 > code.depth as u128 {
        return false;
    }
    match instr {
        Instr::Call(procedure) => call_fits(object, code, *procedure, kinds),
        _ => true,
    }
}

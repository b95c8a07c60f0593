// The least rule that fails at an instruction.

ghost use Rattle.std.specs.Prelude.{◌≡◌, ◌++◌, ◌+◌, ◌<◌, ◌^◌, true, Some, None, drop, length, map, option_to_list, slice_get, IfOk, OnOk};
ghost use Rattle.pearl_instructions.specs.Operands.{asked, v2};
ghost use Rattle.pearl_instructions.specs.Named.{v1};
ghost use Rattle.pearl_instructions.specs.Kinds.{v3, v4, v5, shape_after};
ghost use Rattle.pearl_instructions.specs.Valid.{keep, shape_before, v7, v8, v10, v11, v12, judged};
ghost use Rattle.pearl_verify.specs.Runs.{HoldsRuns};
ghost use Rattle.pearl_verify.specs.Jumps.{HoldsJumps};
ghost use Rattle.pearl_verify.specs.Numbers.{IsNumbered};
ghost use Rattle.pearl_verify.specs.Verdicts.{first_rules, last_rules};
ghost use Rattle.pearl_verify.specs.Formats.{format_row};

use crate::exact::{is_exact, names_values};
use crate::flow::{advance, calls_smaller, ends_well, flows, goes_forward, keeps_depth};
use crate::formats::FormatRow;
use crate::jumps::JumpTable;
use crate::kinds::Kinds;
use crate::limits::keeps_limits;
use crate::named::names_all;
use crate::operands::{are_operands, operand_count};
use crate::pushed::{has_row, pushed_kind};
use crate::rule::{V1, V2, V3, V4, V5, V6, V7, V8, V10, V11, V12};
use crate::running::Running;
use crate::runs::CellRuns;
use crate::tree::ShapeTree;
use pearl_instructions::instr::Instr;
use pearl_instructions::object::{Code, Parts};
use std::alloc::AllocError as NoMemory;

// The least of the rules on numbers and kinds that fails.
fn first_rule(
    object: &Parts,
    formats: &[FormatRow],
    routine: usize,
    code: &Code,
    runs: &CellRuns,
    instr: &Instr,
    kinds: &Kinds,
) -> Option<u8>
    requires formats { formats.now ≡ map format_row object.now.formats }
    requires runs { HoldsRuns code.now.cells runs.now }
    ensures { result ≡ first_rules object.now routine code.now instr.now kinds.now }
{
    if !names_all(object, code, formats, instr) {
        return Some(V1);
    }
    if !are_operands(object, formats, routine, instr, kinds) {
        return Some(V2);
    }
    if !has_row(instr, kinds) {
        return Some(V3);
    }
    if !is_exact(object, code, runs, instr, kinds) {
        return Some(V4);
    }
    if !names_values(object, code, formats, runs, instr) {
        return Some(V5);
    }
    None
}

// The least of the rules on jumps, calls, ends, depths and limits that fails.
fn last_rule(
    object: &Parts,
    formats: &[FormatRow],
    routine: usize,
    code: &Code,
    i: usize,
    instr: &Instr,
    kinds: &Kinds,
) -> Option<u8>
    requires { formats.now ≡ map format_row object.now.formats }
    ensures { result ≡ last_rules object.now routine code.now i instr.now kinds.now }
{
    if !goes_forward(code, i, instr) {
        return Some(V7);
    }
    if !calls_smaller(object, routine, instr) {
        return Some(V8);
    }
    if !ends_well(object, routine, instr, kinds) {
        return Some(V10);
    }
    if !keeps_depth(object, code, instr, kinds) {
        return Some(V11);
    }
    if !keeps_limits(object, code, formats, instr, kinds) {
        return Some(V12);
    }
    None
}

/// Makes the kinds before an instruction those behind it.
pub(crate) fn carry_out(
    object: &Parts,
    formats: &[FormatRow],
    routine: usize,
    code: &Code,
    tree: &ShapeTree,
    instr: &Instr,
    running: &mut Running,
) -> Result<(), NoMemory>
    requires formats { formats.now ≡ map format_row object.now.formats }
    requires numbered { IsNumbered tree.now.edges running.old }
    ensures kinds { OnOk result (running.new.kinds ≡ shape_after object.now routine code.now instr.now running.old.kinds) }
    ensures numbered { OnOk result (IsNumbered tree.now.edges running.new) }
{
    let pushed = pushed_kind(object, code, instr, &running.kinds);
    running.drop_top(operand_count(object, formats, routine, instr) as usize);
    match pushed {
        Some(kind) => running.push(tree, kind),
        None => Ok(()),
    }
}

/// The least rule that fails at an instruction, from the kinds before it. Where none fails they become those before the
/// next instruction.
pub(crate) fn judge(
    object: &Parts,
    formats: &[FormatRow],
    routine: usize,
    code: &Code,
    runs: &CellRuns,
    jumps: &JumpTable,
    i: usize,
    instr: &Instr,
    running: &mut Running,
) -> Result<Option<u8>, NoMemory>
    requires formats { formats.now ≡ map format_row object.now.formats }
    requires runs { HoldsRuns code.now.cells runs.now }
    requires jumps { HoldsJumps code.now jumps.now }
    requires at { slice_get code.now.instructions i ≡ Some instr.now }
    requires next { i + 1 < 2 ^ 64 }
    requires before { running.old.kinds ≡ shape_before object.now routine code.now i }
    requires numbered { IsNumbered jumps.now.tree.edges running.old }
    ensures rule { IfOk result (λ rule. rule ≡ judged object.now routine code.now i instr.now (shape_before object.now routine code.now i)) }
    ensures next { IfOk result (λ rule. rule ≡ None → i + 1 < length code.now.instructions → running.new.kinds ≡ shape_before object.now routine code.now (i + 1)) }
    ensures numbered { IfOk result (λ rule. rule ≡ None → i + 1 < length code.now.instructions → IsNumbered jumps.now.tree.edges running.new) }
{
    if let Some(rule) = first_rule(object, formats, routine, code, runs, instr, &running.kinds) {
        return Ok(Some(rule));
    }
    let last = last_rule(object, formats, routine, code, i, instr, &running.kinds);
    carry_out(object, formats, routine, code, &jumps.tree, instr, running)?;
    if !flows(object, routine, code, jumps, i, instr, running) {
        return Ok(Some(V6));
    }
    if i + 1 < code.instructions.as_slice().len() {
        advance(object, routine, code, jumps, i, instr, running)?;
    }
    Ok(last)
}

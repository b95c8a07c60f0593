// The first instruction of a routine at which a rule fails.

ghost use Rattle.std.specs.Prelude.{◌≡◌, map, IfOk, MatchOption, nat_lt, length};
ghost use Rattle.std.specs.List.{list_all};
ghost use Rattle.pearl_instructions.specs.Valid.{is_closed, judged_whole};
ghost use Rattle.pearl_verify.specs.Verdicts.{IsKept, IsBroken};
ghost use Rattle.pearl_verify.specs.Formats.{format_row};

use crate::flow::goes_on;
use crate::formats::FormatRow;
use crate::judge::judge;
use crate::jumps::JumpTable;
use crate::rule::{V1, V9, V11};
use crate::running::Running;
use crate::runs::CellRuns;
use pearl_instructions::instr::Instr;
use pearl_instructions::object::{Code, Parts, Shape};
use std::alloc::{AllocError as NoMemory, Global};

/// A rule that fails, and the instruction at which it does.
#[derive(Drop)]
pub(crate) struct Broken {
    pub instruction: usize,
    pub rule: u8,
}

/// Whether each stated shape is one of so many instructions.
fn all_name(shapes: &[Shape], count: usize) -> bool
    ensures { result ≡ list_all (λ s. nat_lt s.instruction count) shapes.now }
{
    for shape in shapes {
        if shape.instruction >= count as u64 {
            return false;
        }
    }
    true
}

/// Whether there is a last instruction, and it doesn't go on.
fn is_closed(instrs: &[Instr]) -> bool
    ensures { result ≡ is_closed instrs.now }
{
    match instrs.last() {
        Some(instr) => !goes_on(instr),
        None => false,
    }
}

/// The least of the rules on the whole routine that fails.
fn judge_whole(code: &Code) -> Option<u8>
    ensures { result ≡ judged_whole code.now }
{
    if !all_name(code.shapes.as_slice(), code.instructions.as_slice().len()) {
        return Some(V1);
    }
    if !is_closed(code.instructions.as_slice()) {
        return Some(V9);
    }
    if code.depth > 4096 {
        return Some(V11);
    }
    None
}

/// The first instruction of a routine at which a rule fails, and the least one that does.
pub(crate) fn judge_routine(
    alloc: Global,
    object: &Parts,
    formats: &[FormatRow],
    routine: usize,
    code: &Code,
) -> Result<Option<Broken>, NoMemory>
    requires { formats.now ≡ map format_row object.now.formats }
    ensures { IfOk result (λ found. MatchOption found (IsKept object.now routine code.now) (IsBroken object.now routine code.now)) }
{
    let runs = CellRuns::new(alloc, code.cells.as_slice())?;
    let jumps = JumpTable::new(alloc, code)?;
    let mut running = Running::none(alloc);
    for (i, instr) in code.instructions.as_slice().iter().enumerate() {
        if let Some(rule) = judge(
            object,
            formats,
            routine,
            code,
            &runs,
            &jumps,
            i,
            instr,
            &mut running,
        )? {
            return Ok(Some(Broken {
                instruction: i,
                rule,
            }));
        }
    }
    match judge_whole(code) {
        Some(rule) => Ok(Some(Broken {
            instruction: code.instructions.as_slice().len(),
            rule,
        })),
        None => Ok(None),
    }
}

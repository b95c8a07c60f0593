// The validator.

ghost use Rattle.std.specs.Prelude.{◌≡◌, ◌+◌, ◌<◌, ◌^◌, ℕ, Some, None, length, map, IfOk, IfErr, IfSome, MatchOption};
ghost use Rattle.pearl_instructions.specs.Objects.{routine_at};
ghost use Rattle.pearl_instructions.specs.Valid.{unsound, IsValid};
ghost use Rattle.pearl_verify.specs.Verdicts.{BreaksFirst, IsFirst, IsLeast};
ghost use Rattle.pearl_verify.specs.Formats.{format_row};

use crate::formats::{FormatRow, format_rows};
use crate::routine::judge_routine;
use pearl_instructions::object::{Code, Object, Parts};
use pearl_instructions::valid::Valid;
use std::alloc::{AllocError as NoMemory, Global};
use thiserror::Error;

/// Why there is no valid object.
#[derive(Clone, Copy, PartialEq, Eq, Debug, Error)]
pub enum VerifyFault {
    /// The least routine, instruction and rule that fails. Routines are numbered with the procedures first; a rule on a
    /// whole routine is told behind its last instruction.
    #[error("Unsound")]
    Unsound {
        routine: u32,
        instruction: u64,
        rule: u8,
    },
    #[error("NoMemory")]
    NoMemory,
}

/// A rule that fails in the code of a routine, and the instruction at which it does.
#[derive(Clone, Copy, PartialEq, Eq, Debug)]
pub struct BrokenRule {
    pub routine: usize,
    pub instruction: usize,
    pub rule: u8,
}

/// The code of a routine: the procedures come first, and then the tasks.
pub fn code_at(object: &Parts, routine: usize) -> Option<&Code>
    ensures code { MatchOption result (routine_at object.now routine ≡ None) (λ code. routine_at object.now routine ≡ Some code.now) }
    ensures few { IfSome result (λ code. routine < length object.now.procedures + length object.now.tasks) }
    ensures next { IfSome result (λ code. routine + 1 < 2 ^ 64) }
{
    let procedures = object.procedures.as_slice();
    if routine < procedures.len() {
        return Some(&procedures[routine].code);
    }
    match object.tasks.as_slice().get(routine - procedures.len()) {
        Some(task) => Some(&task.code),
        None => None,
    }
}

fn judge_at(
    alloc: Global,
    object: &Parts,
    formats: &[FormatRow],
    routine: usize,
    code: &Code,
) -> Result<Option<BrokenRule>, NoMemory>
    requires formats { formats.now ≡ map format_row object.now.formats }
    requires code { routine_at object.now routine ≡ Some code.now }
    ensures { IfOk result (λ found. MatchOption found ((i : ℕ) → unsound object.now routine i ≡ None) (BreaksFirst object.now routine)) }
{
    match judge_routine(alloc, object, formats, routine, code)? {
        None => Ok(None),
        Some(broken) => Ok(Some(BrokenRule {
            routine,
            instruction: broken.instruction,
            rule: broken.rule,
        })),
    }
}

/// Judges all routines, up to the first in which a rule fails.
fn judge_all(
    alloc: Global,
    object: &Parts,
    formats: &[FormatRow],
) -> Result<Option<BrokenRule>, NoMemory>
    requires { formats.now ≡ map format_row object.now.formats }
    ensures { IfOk result (λ found. MatchOption found (IsValid object.now) (IsFirst object.now)) }
{
    let mut routine = 0;
    'routines: while let Some(code) = code_at(object, routine) {
        if let Some(broken) = judge_at(alloc, object, formats, routine, code)? {
            return Ok(Some(broken));
        }
        routine += 1;
    }
    Ok(None)
}

/// The least routine, instruction and rule that fails, or nothing where none does. The parts need not be those of an object.
///
/// What it takes grows with the object as written, times the logarithm of a routine's stated shapes: each of these gets a
/// number once, so that at a jump two numbers are compared, and of a PUT's or GET's format at most 65 items are looked at.
pub fn judge_object(alloc: Global, object: &Parts) -> Result<Option<BrokenRule>, NoMemory>
    ensures { IfOk result (λ found. MatchOption found (IsValid object.now) (IsFirst object.now)) }
{
    let formats = format_rows(alloc, object.formats.as_slice())?;
    judge_all(alloc, object, formats.as_slice())
}

/// The same object as a valid one, or the least routine, instruction and rule that fails. It costs what `judge_object`
/// does.
pub fn verify(alloc: Global, object: Object) -> Result<Valid, VerifyFault>
    ensures ok { IfOk result (λ valid. (valid ≡ object) × IsValid object) }
    ensures err { IfErr result (IsLeast object) }
{
    match judge_object(alloc, object.parts()) {
        Ok(None) => {}
        Ok(Some(broken)) => return Err(VerifyFault::Unsound {
            routine: broken.routine as u32,
            instruction: broken.instruction as u64,
            rule: broken.rule,
        }),
        Err(_) => return Err(VerifyFault::NoMemory),
    }
    match Valid::new(alloc, object) {
        Ok(valid) => Ok(valid),
        Err(_) => Err(VerifyFault::NoMemory),
    }
}

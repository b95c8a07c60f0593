// What numbers name in an object.

ghost use Rattle.std.specs.Prelude.{◌≡◌, ◌+◌, ◌<◌, ◌^◌, Some, IsSome, option_and_then, slice_get};
ghost use Rattle.pearl_instructions.specs.Objects.{routine_at, result_of as result_kind};

use pearl_instructions::instr::Instr;
use pearl_instructions::object::{Code, Parts};
use pearl_instructions::valid::Valid;
use pearl_stack::stack::Frame;
use pearl_value::kind::Kind;

// The code of a routine.
pub(crate) fn code_at(object: &Parts, routine: u32) -> &Code
    requires { IsSome (routine_at object.now routine) }
    ensures { routine_at object.now routine ≡ Some result.now }
{
    let procedures = object.procedures.as_slice();
    let number = routine as usize;
    if number < procedures.len() {
        &procedures[number].code
    } else {
        &object.tasks.as_slice()[number - procedures.len()].code
    }
}

/// The instruction at which a frame is. Another one can stand behind it.
pub fn instr_at<'a>(code: &'a Valid, at: &Frame) -> &'a Instr
    requires { IsSome (option_and_then (λ code. slice_get code.instructions at.now.instruction) (routine_at code.now at.now.routine)) }
    ensures instr { option_and_then (λ code. slice_get code.instructions at.now.instruction) (routine_at code.now at.now.routine) ≡ Some result.now }
    ensures next { at.now.instruction + 1 < 2 ^ 64 }
{
    let instructions = code_at(code.object(), at.routine).instructions.as_slice();
    &instructions[at.instruction as usize]
}

// The kind of a routine's result, where it has one.
pub(crate) fn result_of(code: &Valid, routine: u32) -> Option<Kind>
    ensures { result ≡ result_kind code.now routine }
{
    match code.object().procedures.as_slice().get(routine as usize) {
        Some(procedure) => procedure.result,
        None => None,
    }
}

// From an object to a machine with its code.

ghost use Rattle.std.specs.Prelude.{IfOk, IfErr};
ghost use Rattle.pearl_verify.specs.Verdicts.{IsLeast};
ghost use Rattle.pearl_top.specs.Ready.{IsReadyWith};

use crate::laws::valid_objects_run;
use pearl_instructions::object::Object;
use pearl_machine::Machine;
use pearl_verify::verify::{VerifyFault, verify};
use std::alloc::Global;

/// Validates an object, and loads a machine with its code.
pub fn load(alloc: Global, object: Object) -> Result<Machine, VerifyFault>
    ensures ok { IfOk result (IsReadyWith object) }
    ensures err { IfErr result (IsLeast object) }
{
    let _parts = object.parts();
    let code = verify(alloc, object)?;
    valid_objects_run();
    match Machine::load(alloc, code) {
        Ok(machine) => Ok(machine),
        Err(_) => Err(VerifyFault::NoMemory),
    }
}

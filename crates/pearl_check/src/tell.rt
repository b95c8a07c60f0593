// Broken rules, as they are found.

ghost use Rattle.std.specs.Prelude.{◌≡◌, ◌++◌, OnOk};
ghost use Rattle.pearl_tree.specs.Faults as spec;

use pearl_tree::fault::RuleFault;
use std::alloc::AllocError as NoMemory;

pub(crate) fn tell_if(
    faults: &mut Vec<RuleFault>,
    broken: bool,
    place: u32,
    rule: u8,
) -> Result<(), NoMemory>
    ensures { OnOk result (faults.new.items ≡ faults.old.items ++ spec.fault_if broken place rule) }
{
    if broken {
        faults.push(RuleFault { place, rule })?;
    }
    Ok(())
}

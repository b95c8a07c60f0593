// The devices of a module, and the static rules on them.
#![tactic(auto)]

ghost use Rattle.std.specs.Prelude.{◌≡◌, IfOk};
ghost use Rattle.pearl_tree.specs.Faults.{ListFaults};
ghost use Rattle.pearl_tree.specs.ShownModules.{shown_tree};
ghost use Rattle.pearl_system.specs.Devices.{devices_of, device_key, IsDevice};
ghost use Rattle.pearl_system.specs.Rising.{Lists};
ghost use Rattle.pearl_system.specs.Rules.{broken};

pub mod device;
mod first;
pub mod laws;
mod rising;
mod rules;
pub mod specified;

use crate::device::{Devices, found_devices};
use crate::rules::{add_s10, add_s11, add_s12, add_s13, add_s14};
use crate::specified::specified_names;
use pearl_tree::declaration::Device;
use pearl_tree::fault::{RuleFault, in_order};
use pearl_tree::tree::Tree;
use std::alloc::{AllocError as NoMemory, Global};

fn system_part(tree: &Tree) -> &[Device]
    ensures { result.now ≡ devices_of (shown_tree tree.now) }
{
    match &tree.system {
        Some(part) => part.as_slice(),
        None => &[],
    }
}

/// The devices that a module specifies, and its broken rules S10 to S14, by place and then by rule.
///
/// A device has the name by which it is specified. Where rules are broken, the devices are those of the names that
/// break none of S11, S13 and S14, and of several names for one word and number the first.
pub fn system(alloc: Global, tree: &Tree) -> Result<(Devices, Vec<RuleFault>), NoMemory>
    ensures devices { IfOk result (λ found. Lists device_key (IsDevice (shown_tree tree.now)) found.0) }
    ensures faults { IfOk result (λ found. ListFaults (broken (shown_tree tree.now)) found.1.items) }
{
    let part = system_part(tree);
    let names = specified_names(alloc, tree)?;
    let mut faults = Vec::new(alloc);
    let first = add_s10(alloc, &mut faults, part)?;
    add_s11(&mut faults, part)?;
    add_s12(alloc, &mut faults, part)?;
    add_s13(&mut faults, part, &first, names.as_slice())?;
    add_s14(&mut faults, part, &first, names.as_slice())?;
    let devices = found_devices(alloc, part, &first, names.as_slice())?;
    Ok((devices, in_order(faults)))
}

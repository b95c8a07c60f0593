// What is known of a module that breaks no rule.

ghost use Rattle.std.specs.Prelude.{◌≡◌, [], IfOk, IfErr};
ghost use Rattle.pearl_calls.specs.Numberings.{IsNumbering};
ghost use Rattle.pearl_names.specs.Holding.{HoldsTable};
ghost use Rattle.pearl_names.specs.Tables.{table_of};
ghost use Rattle.pearl_system.specs.Devices.{IsDevice, device_key};
ghost use Rattle.pearl_system.specs.Rising.{Lists};
ghost use Rattle.pearl_tree.specs.ShownModules.{shown_tree};
ghost use Rattle.pearl_check.specs.Checks as spec;
ghost use Rattle.pearl_check.specs.Rules.{all_broken};

use crate::fault::CheckFault;
use crate::first::{Judged, judge};
use crate::sizes::Sizes;
use pearl_calls::numbering::Numbering;
use pearl_names::table::SenseTable;
use pearl_system::device::Devices;
use pearl_tree::tree::Tree;
use std::alloc::Global;

/// What is known of a module that breaks none of the rules S1 to S34.
#[derive(Drop)]
pub struct Accepted {
    /// How much it declares.
    pub sizes: Sizes,
    /// What each name stands for.
    pub table: SenseTable,
    /// The devices that it specifies.
    pub devices: Devices,
    /// The numbers of its procedures, so that each calls only those with smaller ones.
    pub numbering: Numbering,
}

/// What is known of a module that breaks none of the rules S1 to S34, or the first rule that it breaks.
pub fn accept(alloc: Global, tree: &Tree) -> Result<Accepted, CheckFault>
    ensures accepted { IfOk result (λ accepted. all_broken (shown_tree tree.now) ≡ []) }
    ensures sizes { IfOk result (λ accepted. accepted.sizes ≡ spec.sizes_of (shown_tree tree.now)) }
    ensures table { IfOk result (λ accepted. HoldsTable accepted.table (table_of (shown_tree tree.now))) }
    ensures devices { IfOk result (λ accepted. Lists device_key (IsDevice (shown_tree tree.now)) accepted.devices) }
    ensures numbering { IfOk result (λ accepted. IsNumbering (spec.module_callers (shown_tree tree.now)) accepted.numbering) }
    ensures refused { IfErr result (λ fault. spec.IsRefused (shown_tree tree.now) fault) }
{
    let judged = judge(alloc, tree)?;
    let Judged {
        told,
        sizes,
        table,
        devices,
        numbering,
    } = judged;
    if let Some(fault) = told {
        return Err(CheckFault::Refused(fault));
    }
    let Some(numbering) = numbering else {
        unreachable!()
    };
    Ok(Accepted {
        sizes,
        table,
        devices,
        numbering,
    })
}

// Which of the static rules on names, types and declarations (S1 to S9) a module breaks.
#![tactic(auto)]

ghost use Rattle.std.specs.Prelude.{IfOk};
ghost use Rattle.pearl_tree.specs.Faults.{ListFaults};
ghost use Rattle.pearl_tree.specs.ShownModules.{shown_tree};
ghost use Rattle.pearl_names.specs.Holding.{HoldsTable};
ghost use Rattle.pearl_names.specs.Tables as tables;
ghost use Rattle.pearl_scope.specs.Rules.{broken};

mod init;
pub mod laws;
pub mod module_part;
pub mod part;
pub mod places;
mod rules;
mod statement_part;

use crate::rules::broken_rules;
use pearl_names::table::{SenseTable, table_of};
use pearl_tree::fault::RuleFault;
use pearl_tree::tree::Tree;
use std::alloc::{AllocError as NoMemory, Global};

/// What each name of a module stands for, and the broken rules S1 to S9, by place and then by rule.
///
/// A form or kind is missing in the table where a rule is broken in it.
pub fn scopes(alloc: Global, tree: &Tree) -> Result<(SenseTable, Vec<RuleFault>), NoMemory>
    ensures table { IfOk result (λ found. HoldsTable found.0 (tables.table_of (shown_tree tree.now))) }
    ensures faults { IfOk result (λ found. ListFaults (broken (shown_tree tree.now)) found.1.items) }
{
    let faults = broken_rules(alloc, tree)?;
    let table = table_of(alloc, tree)?;
    Ok((table, faults))
}

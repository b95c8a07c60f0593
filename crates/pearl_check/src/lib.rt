// The static rules on statements, tasks and sizes: S23 to S34, and with those of names, devices and expressions all rules
// that a module breaks.
#![tactic(auto)]

ghost use Rattle.std.specs.Prelude.{◌≡◌, [], IfOk, IfErr};
ghost use Rattle.pearl_tree.specs.ShownModules.{shown_tree};
ghost use Rattle.pearl_check.specs.Checks as spec;
ghost use Rattle.pearl_check.specs.Rules.{all_broken};

pub mod accept;
pub mod asked;
pub mod callers;
mod cut;
mod dations;
pub mod fault;
mod findings;
mod first;
mod formats;
pub mod laws;
pub mod limit;
pub mod pieces;
pub mod procedures;
mod roles;
pub mod routine;
pub mod rules;
mod semaphores;
pub mod sizes;
mod statements;
pub mod tally;
mod tell;

use crate::accept::accept;
use crate::fault::CheckFault;
use crate::sizes::Sizes;
use pearl_tree::tree::Tree;
use std::alloc::Global;

/// The sizes of a module that breaks none of the rules S1 to S34, or the first rule that it breaks.
pub fn check(alloc: Global, tree: &Tree) -> Result<Sizes, CheckFault>
    ensures accepted { IfOk result (λ sizes. all_broken (shown_tree tree.now) ≡ []) }
    ensures sizes { IfOk result (λ sizes. sizes ≡ spec.sizes_of (shown_tree tree.now)) }
    ensures refused { IfErr result (λ fault. spec.IsRefused (shown_tree tree.now) fault) }
{
    let accepted = accept(alloc, tree)?;
    Ok(accepted.sizes)
}

// The program of a module that breaks no rule.

ghost use Rattle.std.specs.Prelude.{◌≡◌, [], IfOk, IfErr};
ghost use Rattle.pearl_calls.specs.Numbers.{AreNumbers};
ghost use Rattle.pearl_check.specs.Checks.{IsRefused};
ghost use Rattle.pearl_check.specs.Rules.{all_broken};
ghost use Rattle.pearl_program.specs.PlainPrograms.{plain_prog};
ghost use Rattle.pearl_sound.specs.KnownParts.{NamesSemaphores};
ghost use Rattle.pearl_tree.specs.Lawful.{IsLawful};
ghost use Rattle.pearl_tree.specs.ShownModules.{shown_tree};
ghost use Rattle.pearl_top.specs.Programs.{IsProgramOf};

use pearl_calls::numbering::Numbering;
use pearl_check::accept::accept;
use pearl_check::fault::CheckFault;
use pearl_program::prog::Prog;
use pearl_resolve::program::resolve;
use pearl_tree::tree::Tree;
use std::alloc::{AllocError, Global};

/// The program that a module means, or the first rule that it breaks.
pub fn program_of(alloc: Global, tree: &Tree) -> Result<Prog, CheckFault>
    requires named { NamesSemaphores (shown_tree tree.now) }
    requires lawful { IsLawful tree.now }
    ensures accepted { IfOk result (λ program. all_broken (shown_tree tree.now) ≡ []) }
    ensures program { IfOk result (λ program. IsProgramOf (shown_tree tree.now) (plain_prog program)) }
    ensures refused { IfErr result (λ fault. IsRefused (shown_tree tree.now) fault) }
{
    let accepted = accept(alloc, tree)?;
    let procedures = numbers_of(alloc, &accepted.numbering)?;
    let program = resolve(
        alloc,
        accepted.table,
        accepted.devices.as_slice(),
        procedures.as_slice(),
        tree,
    )?;
    Ok(Prog::new(program))
}

// The numbers of procedures in order of declaration, each in 32 bits.
fn numbers_of(alloc: Global, numbering: &Numbering) -> Result<Vec<u32>, AllocError>
    ensures { IfOk result (λ numbers. AreNumbers numbering.now numbers.items) }
{
    let mut numbers = Vec::new(alloc);
    for number in numbering.numbers() {
        let number = u32::try_from(*number).map_err(|_| AllocError)?;
        numbers.push(number)?;
    }
    Ok(numbers)
}

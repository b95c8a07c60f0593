// From a source to the object of its program, to the bytes of that, and to a machine with its code.

ghost use Rattle.std.specs.Prelude.{◌≤◌, length, IfOk, IfErr};
ghost use Rattle.pearl_program.specs.PlainPrograms.{PlainProg, plain_prog};
ghost use Rattle.pearl_top.specs.CompileDue.{CompileDue, IsCompiled, IsObjectOf};
ghost use Rattle.pearl_top.specs.Failures.{IsDue};
ghost use Rattle.pearl_top.specs.RunDue.{IsSource, SourceDue};
ghost use Rattle.pearl_top.specs.Ready.{IsReadyFor};

use crate::failure::Failure;
use crate::limits::SOURCE_LIMIT;
use crate::load::load;
use crate::program::program_of;
use crate::source::tree_of;
use pearl_generate::generate;
use pearl_instructions::object::Object;
use pearl_machine::Machine;
use pearl_object::object::write;
use pearl_program::prog::Prog;
use std::alloc::Global;

/// Compiles a source, and loads a machine with its code, once that is validated: no rule of the validator fails in it.
pub fn machine_of(alloc: Global, source: &[u8]) -> Result<Machine, Failure>
    requires { length source.now ≤ SOURCE_LIMIT }
    ensures ok { IfOk result (λ machine. (p : PlainProg) × IsSource source.now p × IsReadyFor p machine) }
    ensures err { IfErr result (IsDue (SourceDue source.now ⊥)) }
{
    let object = object_of(alloc, source)?;
    let machine = load(alloc, object)?;
    Ok(machine)
}

/// The bytes of the object that a source becomes.
pub fn compiled(alloc: Global, source: &[u8]) -> Result<Vec<u8>, Failure>
    requires { length source.now ≤ SOURCE_LIMIT }
    ensures ok { IfOk result (λ bytes. IsCompiled source.now bytes.items) }
    ensures err { IfErr result (IsDue (CompileDue source.now ⊥)) }
{
    let object = object_of(alloc, source)?;
    let bytes = write(alloc, &object)?;
    Ok(bytes)
}

// The object that a source becomes.
fn object_of(alloc: Global, source: &[u8]) -> Result<Object, Failure>
    requires { length source.now ≤ SOURCE_LIMIT }
    ensures ok { IfOk result (IsObjectOf source.now) }
    ensures err { IfErr result (IsDue (SourceDue source.now ⊥)) }
{
    let program = program(alloc, source)?;
    let object = generate(alloc, &program)?;
    Ok(object)
}

// The program of a source that breaks no rule.
fn program(alloc: Global, source: &[u8]) -> Result<Prog, Failure>
    requires { length source.now ≤ SOURCE_LIMIT }
    ensures source { IfOk result (λ program. IsSource source.now (plain_prog program)) }
    ensures err { IfErr result (IsDue (SourceDue source.now ⊥)) }
{
    let tree = tree_of(alloc, source)?;
    let program = program_of(alloc, &tree)?;
    Ok(program)
}

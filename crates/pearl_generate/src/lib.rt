// The object of a sound program.
#![tactic(auto)]

ghost use Rattle.std.specs.Prelude.{◌<◌, ◌^◌, length, IfOk};
ghost use Rattle.pearl_program.specs.PlainPrograms.{plain_prog};
ghost use Rattle.pearl_instructions.specs.Valid.{IsValid};
ghost use Rattle.pearl_gen_stmt.specs.Generated.{IsGenerated};
ghost use Rattle.pearl_faithful.specs.Faithful.{IsFaithfulTo};

pub mod expression;
pub mod need;
pub mod routine;
pub mod schedule;
pub mod statement;
pub mod tables;
pub mod weight;

use crate::routine::{procedures_of, tasks_of};
use crate::tables::{devices_of, formats_of, leaves_of};
use crate::weight::weights_of;
use pearl_faithful::laws::{faithful_programs, generated_is_valid};
use pearl_instructions::object::{Object, Parts};
use pearl_program::prog::Prog;
use pearl_value::listing::Listing;
use std::alloc::{AllocError as NoMemory, Global};

/// The object that does what a program means; no rule of the validator fails in it. Each routine's code is made in one pass
/// over its statements, and stays where it was made; its weight takes another pass, in which nothing is kept but a number
/// for each procedure. Of the program's tables there is a copy in the object. As an action names its format in 32 bits,
/// more than 2^32 - 1 formats count as want of memory.
pub fn generate(alloc: Global, program: &Prog) -> Result<Object, NoMemory>
    ensures generated { IfOk result (IsGenerated (plain_prog program.now)) }
    ensures valid { IfOk result IsValid }
    ensures faithful { IfOk result (IsFaithfulTo (plain_prog program.now)) }
{
    let _sound = program.parts();
    generated_is_valid();
    faithful_programs();
    let parts = parts_of(alloc, program)?;
    Ok(Object::new(parts))
}

fn parts_of(alloc: Global, program: &Prog) -> Result<Parts, NoMemory>
    ensures generated { IfOk result (IsGenerated (plain_prog program.now)) }
    ensures few_formats { IfOk result (λ made. length made.formats < 2 ^ 32) }
{
    let parts = program.parts();
    let formats = formats_of(alloc, parts.formats.as_slice())?;
    if u32::try_from(formats.len()).is_err() {
        return Err(NoMemory);
    }
    let leaves = leaves_of(alloc, parts.leaves.as_slice())?;
    let semaphores = Vec::from_slice(alloc, parts.semaphores.as_slice())?;
    let devices = devices_of(alloc, parts.devices.as_slice())?;
    let weights = weights_of(alloc, parts.procedures.as_slice())?;
    let procedures = procedures_of(alloc, parts, weights.as_slice())?;
    let tasks = tasks_of(alloc, parts, weights.as_slice())?;
    Ok(Parts {
        devices: Listing::new(devices),
        semaphores: Listing::new(semaphores),
        leaves: Listing::new(leaves),
        formats: Listing::new(formats),
        procedures: Listing::new(procedures),
        tasks: Listing::new(tasks),
    })
}

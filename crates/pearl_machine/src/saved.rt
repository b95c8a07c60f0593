//! The stacks of a machine that is saved, and of one that goes on from what was saved.

ghost use Rattle.std.specs.Prelude.{◌≡◌, [], IfOk, length};
ghost use Rattle.std.specs.List.{AllByRecursion};
ghost use Rattle.pearl_saved.specs.Rules.{HasStack, HasStacks, AllRefer};
ghost use Rattle.pearl_machine.specs.Parts.{HasMemory, HasMemories};
ghost use Rattle.pearl_machine.specs.Resumed.{saved_frames, stacks_of, filled, AreFilled};

use crate::known::laws_hold;
use crate::part::{Part, new_parts};
use pearl_instructions::valid::Valid;
use pearl_records::record::{Standing, TaskRecord};
use pearl_saved::saved::FrameRecord;
use pearl_saved::stacks::{recorded_stack, refill};
use pearl_value::listing::Listing;
use std::alloc::{AllocError as NoMemory, Global};

// What is saved of a task's stack.
fn saved_stack(
    alloc: Global,
    part: &Part,
    row: &TaskRecord,
) -> Result<Listing<FrameRecord>, NoMemory>
    ensures { IfOk result (λ frames. frames ≡ saved_frames row.now.standing part.now.stack.frames) }
{
    match &row.standing {
        Standing::Dormant => Ok(Listing::new(Vec::new(alloc))),
        Standing::Active { .. } => recorded_stack(alloc, &part.stack),
    }
}

/// What is saved of the stacks of tasks that stand so.
pub fn saved_stacks(
    alloc: Global,
    parts: &[Part],
    rows: &[TaskRecord],
) -> Result<Listing<Listing<FrameRecord>>, NoMemory>
    requires { length parts.now ≡ length rows.now }
    ensures { IfOk result (λ stacks. stacks ≡ stacks_of rows.now parts.now) }
{
    let mut stacks = Vec::with_capacity(alloc, rows.len())?;
    for task in 0..rows.len() {
        stacks.push(saved_stack(alloc, &parts[task], &rows[task])?)?;
    }
    Ok(Listing::new(stacks))
}

// Puts a task's frames on its stack, with which it is under way then.
fn fill_part(code: &Valid, task: u32, part: &mut Part, row: &TaskRecord, frames: &[FrameRecord])
    requires memory { HasMemory code.now task part.old }
    requires empty { part.old.stack.frames ≡ [] }
    requires stack { HasStack code.now task row.now.standing frames.now }
    requires refer { AllRefer code.now [] frames.now }
    ensures { part.new ≡ filled row.now.standing frames.now part.old }
{
    match &row.standing {
        Standing::Dormant => {}
        Standing::Active { .. } => {
            refill(code, task, &mut part.stack, frames);
            part.going = true;
        }
    }
}

/// The stacks of the object's tasks, which stand so, with these frames.
pub fn filled_parts(
    alloc: Global,
    code: &Valid,
    rows: &[TaskRecord],
    stacks: &[Listing<FrameRecord>],
) -> Result<Vec<Part>, NoMemory>
    requires tasks { length rows.now ≡ length code.now.tasks }
    requires stand { HasStacks code.now 0 rows.now stacks.now }
    requires refer { AllByRecursion (AllRefer code.now []) stacks.now }
    ensures each { IfOk result (λ parts. length parts.items ≡ length code.now.tasks) }
    ensures memory { IfOk result (λ parts. HasMemories code.now parts.items) }
    ensures filled { IfOk result (λ parts. AreFilled rows.now stacks.now parts.items) }
{
    laws_hold(code);
    let mut parts = new_parts(alloc, code)?;
    for task in 0..rows.len() {
        fill_part(
            code,
            task as u32,
            &mut parts[task],
            &rows[task],
            stacks[task].as_slice(),
        );
    }
    Ok(parts)
}

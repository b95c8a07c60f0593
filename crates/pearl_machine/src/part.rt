//! The row of the tasks' stacks.

ghost use Rattle.std.specs.Prelude.{◌≡◌, ℕ, ◌+◌, ◌≤◌, ◌<◌, ◌^◌, [], Bool, true, false, Some, None, IfSome, IfOk, length, map, slice_get, slice_set};
ghost use Rattle.std.specs.List.{AllByRecursion};
ghost use Rattle.pearl_rules.specs.Slots.{Fits};
ghost use Rattle.pearl_instructions.specs.Rows.{row};
ghost use Rattle.pearl_instructions.specs.Stacks.{room as room_of};
ghost use Rattle.pearl_instructions.specs.Engines.{engine};
ghost use Rattle.pearl_instructions.specs.Owners.{IsStackOf};
ghost use Rattle.pearl_instructions.specs.Setups.{setup_of};
ghost use Rattle.pearl_exchange.specs.declared.offer.Offer as Offering;
ghost use Rattle.pearl_exchange.specs.Heard.{answer_of};
ghost use Rattle.pearl_exchange.specs.Offers.{action_of};
ghost use Rattle.pearl_solo.specs.Answered.{CanHear};
ghost use Rattle.pearl_solo.specs.Settling.{Settles};
ghost use Rattle.pearl_machine.specs.Parts.{HasMemory, HasMemories, IsShallow, Does, StepsPart, SettlesPart, is_none_offered, offered_by, is_going, going_frames, stack_in, start_of, first_part as first_part_of, heard_by, heard_part};

use crate::known::laws_hold;
use pearl_exchange::heard::{Beside, Heard};
use pearl_exchange::offer::Offer;
use pearl_instructions::object::Task;
use pearl_instructions::valid::Valid;
use pearl_solo::answers::answer;
use pearl_solo::frames::begin;
use pearl_solo::settle::settle;
use pearl_solo::step::step;
use pearl_solo::stepped::Gave;
use pearl_stack::stack::{Loaded, Parked};
use std::alloc::{AllocError as NoMemory, Global};

/// A task's stack, and whether the task is under way to its next action.
#[derive(Drop)]
pub struct Part {
    pub stack: Loaded,
    pub going: bool,
}

// Lets a task that has offered nothing go on. One that isn't under way to its action begins afresh.
fn go(code: &Valid, task: u32, part: &mut Part)
    requires there { task < length code.now.tasks }
    requires memory { HasMemory code.now task part.old }
    ensures frames { part.new.stack.frames ≡ going_frames (start_of code.now task) (Some part.old) }
    ensures memory { HasMemory code.now task part.new }
{
    if !part.going {
        begin(code, task, &mut part.stack);
    }
}

// Whether an instruction offered nothing.
fn is_silent(gave: Gave) -> bool
    ensures { (offer : Offering.Offer) → result ≡ is_none_offered (offered_by gave offer) }
{
    match gave {
        Gave::Silent => true,
        Gave::Offered => false,
    }
}

// One instruction on a task's stack.
fn step_stack(code: &Valid, task: u32, stack: &mut Loaded, into: &mut Offer) -> Gave
    requires own { IsStackOf code.now task stack.old.frames }
    requires room { room_of code.now (start_of code.now task) ≤ stack.old.room }
    ensures does { Does code.now task stack.old.frames stack.new.frames (offered_by result into.new) }
    ensures own { IsStackOf code.now task stack.new.frames }
    ensures memory { (stack.new.room ≡ stack.old.room) × (stack.new.most ≡ stack.old.most) }
    ensures fits { IfSome (offered_by result into.new) (Fits (setup_of code.now)) }
{
    laws_hold(code);
    match step(code, stack, into) {
        Gave::Silent => Gave::Silent,
        Gave::Offered => Gave::Offered,
    }
}

// All instructions on a task's stack up to its next action.
fn settle_stack(code: &Valid, task: u32, stack: &mut Loaded, into: &mut Offer)
    requires own { IsStackOf code.now task stack.old.frames }
    requires room { room_of code.now (start_of code.now task) ≤ stack.old.room }
    ensures settles { Settles code.now stack.old.frames stack.new.frames (action_of into.new) }
    ensures own { IsStackOf code.now task stack.new.frames }
    ensures memory { (stack.new.room ≡ stack.old.room) × (stack.new.most ≡ stack.old.most) }
    ensures fits { Fits (setup_of code.now) (action_of into.new) }
{
    laws_hold(code);
    settle(code, stack, into);
}

// One instruction of a task that has offered nothing.
fn step_here(code: &Valid, task: u32, part: &mut Part, into: &mut Offer) -> Gave
    requires there { task < length code.now.tasks }
    requires memory { HasMemory code.now task part.old }
    requires own { IsStackOf code.now task (going_frames (start_of code.now task) (Some part.old)) }
    ensures does { Does code.now task (going_frames (start_of code.now task) (Some part.old)) part.new.stack.frames (offered_by result into.new) }
    ensures going { part.new.going ≡ is_none_offered (offered_by result into.new) }
    ensures own { IsStackOf code.now task part.new.stack.frames }
    ensures memory { HasMemory code.now task part.new }
    ensures fits { IfSome (offered_by result into.new) (Fits (setup_of code.now)) }
{
    go(code, task, part);
    let gave = step_stack(code, task, &mut part.stack, into);
    part.going = is_silent(gave);
    gave
}

/// One instruction of a task that has offered nothing.
pub fn step_part(code: &Valid, parts: &mut Vec<Part>, task: u32, into: &mut Offer) -> Gave
    requires there { task < length code.now.tasks }
    requires same { length parts.old.items ≡ length code.now.tasks }
    requires memory { HasMemories code.now parts.old.items }
    requires own { IsStackOf code.now task (going_frames (start_of code.now task) (slice_get parts.old.items task)) }
    ensures steps { StepsPart code.now parts.old.items task parts.new.items (offered_by result into.new) }
    ensures memory { HasMemories code.now parts.new.items }
    ensures fits { IfSome (offered_by result into.new) (Fits (setup_of code.now)) }
{
    step_here(code, task, &mut parts[task as usize], into)
}

// A task that has offered nothing goes on to its next action.
fn settle_here(code: &Valid, task: u32, part: &mut Part, into: &mut Offer)
    requires there { task < length code.now.tasks }
    requires memory { HasMemory code.now task part.old }
    requires own { IsStackOf code.now task (going_frames (start_of code.now task) (Some part.old)) }
    ensures settles { Settles code.now (going_frames (start_of code.now task) (Some part.old)) part.new.stack.frames (action_of into.new) }
    ensures still { part.new.going ≡ false }
    ensures own { IsStackOf code.now task part.new.stack.frames }
    ensures memory { HasMemory code.now task part.new }
    ensures fits { Fits (setup_of code.now) (action_of into.new) }
{
    go(code, task, part);
    settle_stack(code, task, &mut part.stack, into);
    part.going = false;
}

/// A task that has offered nothing goes on to its next action.
#[inline(never)]
pub fn settle_part(code: &Valid, parts: &mut Vec<Part>, task: u32, into: &mut Offer)
    requires there { task < length code.now.tasks }
    requires same { length parts.old.items ≡ length code.now.tasks }
    requires memory { HasMemories code.now parts.old.items }
    requires own { IsStackOf code.now task (going_frames (start_of code.now task) (slice_get parts.old.items task)) }
    ensures settles { SettlesPart code.now parts.old.items task parts.new.items (action_of into.new) }
    ensures memory { HasMemories code.now parts.new.items }
    ensures fits { Fits (setup_of code.now) (action_of into.new) }
{
    settle_here(code, task, &mut parts[task as usize], into);
}

// A task hears what came of the action that it has offered.
fn answer_here(code: &Valid, task: u32, part: &mut Part, heard: Heard, beside: &Beside)
    requires memory { HasMemory code.now task part.old }
    requires own { IsStackOf code.now task part.old.stack.frames }
    requires suits { CanHear code.now task (row code.now part.old.stack.frames) (answer_of heard beside.now) }
    ensures heard { part.new ≡ heard_by code.now task part.old.stack (answer_of heard beside.now) }
    ensures own { IsStackOf code.now task part.new.stack.frames }
    ensures memory { HasMemory code.now task part.new }
{
    answer(code, &mut part.stack, heard, beside);
    part.going = true;
}

/// A task hears what came of the action that it has offered.
pub fn answer_part(code: &Valid, parts: &mut Vec<Part>, task: u32, heard: Heard, beside: &Beside)
    requires there { task < length code.now.tasks }
    requires same { length parts.old.items ≡ length code.now.tasks }
    requires memory { HasMemories code.now parts.old.items }
    requires own { IsStackOf code.now task (stack_in (slice_get parts.old.items task)).frames }
    requires suits { CanHear code.now task (row code.now (stack_in (slice_get parts.old.items task)).frames) (answer_of heard beside.now) }
    ensures heard { parts.new.items ≡ slice_set parts.old.items task (heard_part code.now parts.old.items task (answer_of heard beside.now)) }
    ensures own { IsStackOf code.now task
        ((engine code.now).answer task (stack_in (slice_get parts.old.items task)).frames (answer_of heard beside.now)) }
    ensures memory { HasMemories code.now parts.new.items }
{
    answer_here(code, task, &mut parts[task as usize], heard, beside);
}

// Memory for the stacks of these tasks.
fn first_parts(alloc: Global, tasks: &[Task], frames: usize) -> Result<Vec<Part>, NoMemory>
    requires shallow { AllByRecursion IsShallow tasks.now }
    requires few { frames < 2 ^ 32 }
    ensures { IfOk result (λ parts. parts.items ≡ map (first_part_of frames) tasks.now) }
{
    let mut parts = Vec::with_capacity(alloc, tasks.len())?;
    for task in tasks {
        let stack = Parked::new(alloc, task.code.depth as usize, frames)?.load();
        parts.push(Part {
            stack,
            going: false,
        })?;
    }
    Ok(parts)
}

/// Memory for the stacks of the object's tasks, of which none is under way.
pub fn new_parts(alloc: Global, code: &Valid) -> Result<Vec<Part>, NoMemory>
    ensures each { IfOk result (λ parts. length parts.items ≡ length code.now.tasks) }
    ensures memory { IfOk result (λ parts. HasMemories code.now parts.items) }
    ensures still { IfOk result (λ parts. (t : ℕ) → is_going (slice_get parts.items t) ≡ false) }
    ensures empty { IfOk result (λ parts. (t : ℕ) → (stack_in (slice_get parts.items t)).frames ≡ []) }
{
    laws_hold(code);
    let object = code.object();
    let frames = object.procedures.as_slice().len() + 1;
    let parts = first_parts(alloc, object.tasks.as_slice(), frames)?;
    Ok(parts)
}

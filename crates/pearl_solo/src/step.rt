// One instruction.

ghost use Rattle.std.specs.Prelude.{◌≡◌, ◌≤◌, None, Some};
ghost use Rattle.pearl_instructions.specs.Rows.{row};
ghost use Rattle.pearl_instructions.specs.Stacks.{IsStack, task_of, room};
ghost use Rattle.pearl_silent.specs.Settling.{Ends};
ghost use Rattle.pearl_silent.specs.Standing.{act_on, family, instr_of, StandsAt};
ghost use Rattle.pearl_silent.specs.Steps.{Does, HasNext};
ghost use Rattle.pearl_exchange.specs.Offers.{action_of};
ghost use Rattle.pearl_solo.specs.Gives.{gave};

use crate::own::own_task;
use crate::stepped::{Gave, tell};
use crate::table::{leaf_at, semaphores};
use crate::{devices, offers, plans, references, variables};
use pearl_exchange::offer::{Offer, What};
use pearl_instructions::instr::Instr;
use pearl_instructions::valid::Valid;
use pearl_silent::known::laws_hold;
use pearl_silent::run::quick_step;
use pearl_silent::table::instr_at;
use pearl_stack::stack::{Frame, Loaded};

// Calls, ends and references, and then the others.
fn on_ways(code: &Valid, stack: &mut Loaded, here: &Frame, instr: &Instr, into: &mut Offer) -> Gave
    requires at { StandsAt code.now instr.now here.now stack.old }
    requires family { 2 ≤ family instr.now }
    ensures { Does (act_on code.now instr.now stack.old.frames) stack.old stack.new (gave result (action_of into.new)) }
{
    match instr {
        Instr::Turn => offers::acts(stack, What::Turn, into),
        Instr::Call(p) => offers::call(code, stack, *p, into),
        Instr::End => offers::stops(stack, What::End, into),
        Instr::Trap(trap) => offers::stops(stack, What::Trap(*trap), into),
        Instr::ReadRef => references::read_ref(stack, here, into),
        Instr::WriteRef => references::write_ref(stack, here, into),
        _ => on_variables(code, stack, here, instr, into),
    }
}

// Variables of the module, and then the others.
fn on_variables(
    code: &Valid,
    stack: &mut Loaded,
    here: &Frame,
    instr: &Instr,
    into: &mut Offer,
) -> Gave
    requires at { StandsAt code.now instr.now here.now stack.old }
    requires family { 3 ≤ family instr.now }
    ensures { Does (act_on code.now instr.now stack.old.frames) stack.old stack.new (gave result (action_of into.new)) }
{
    match instr {
        Instr::Read(v) => {
            let (leaf, first) = leaf_at(code, *v);
            variables::read(code, stack, here, *v, leaf, first, into)
        }
        Instr::Write(v) => {
            let (leaf, first) = leaf_at(code, *v);
            variables::write(code, stack, here, *v, leaf, first, into)
        }
        Instr::ReadAt(v) => {
            let (leaf, first) = leaf_at(code, *v);
            variables::read_at(code, stack, here, *v, leaf, first, into)
        }
        Instr::WriteAt(v) => {
            let (leaf, first) = leaf_at(code, *v);
            variables::write_at(code, stack, here, *v, leaf, first, into)
        }
        Instr::RefSlot(v) => {
            let (leaf, first) = leaf_at(code, *v);
            variables::ref_slot(code, stack, here, *v, leaf, first, into)
        }
        Instr::RefSlotAt(v) => {
            let (leaf, first) = leaf_at(code, *v);
            variables::ref_slot_at(code, stack, here, *v, leaf, first, into)
        }
        _ => on_tasks(code, stack, here, instr, into),
    }
}

// Actions on tasks, and then the others.
fn on_tasks(code: &Valid, stack: &mut Loaded, here: &Frame, instr: &Instr, into: &mut Offer) -> Gave
    requires at { StandsAt code.now instr.now here.now stack.old }
    requires family { 4 ≤ family instr.now }
    ensures { Does (act_on code.now instr.now stack.old.frames) stack.old stack.new (gave result (action_of into.new)) }
{
    match instr {
        Instr::Activate(a) => plans::activate(stack, here, a.get(), into),
        Instr::Continue(c) => plans::go_on_later(stack, here, c.get(), into),
        Instr::Resume(form) => plans::resume(stack, here, *form, into),
        Instr::Suspend(t) => offers::acts(stack, What::Suspend(*t as u32), into),
        Instr::Terminate(t) => offers::acts(stack, What::Terminate(*t as u32), into),
        Instr::Prevent(t) => offers::acts(stack, What::Prevent(*t as u32), into),
        Instr::SuspendOwn => {
            let own = own_task(code, stack);
            offers::acts(stack, What::Suspend(own), into)
        }
        Instr::TerminateOwn => {
            let own = own_task(code, stack);
            offers::stops(stack, What::Terminate(own), into)
        }
        Instr::PreventOwn => {
            let own = own_task(code, stack);
            offers::acts(stack, What::Prevent(own), into)
        }
        _ => on_devices(code, stack, here, instr, into),
    }
}

// The clock, semaphores and devices.
fn on_devices(
    code: &Valid,
    stack: &mut Loaded,
    here: &Frame,
    instr: &Instr,
    into: &mut Offer,
) -> Gave
    requires at { StandsAt code.now instr.now here.now stack.old }
    requires family { 5 ≤ family instr.now }
    ensures { Does (act_on code.now instr.now stack.old.frames) stack.old stack.new (gave result (action_of into.new)) }
{
    match instr {
        Instr::Now => offers::asks(stack, What::Now, into),
        Instr::Request(list) => {
            semaphores(list.get().as_slice(), &mut into.list);
            offers::acts(stack, What::Request, into)
        }
        Instr::Release(list) => {
            semaphores(list.get().as_slice(), &mut into.list);
            offers::acts(stack, What::Release, into)
        }
        Instr::Try(s) => offers::asks(stack, What::Try(*s as u16), into),
        Instr::Enable(d) => offers::acts(stack, What::Enable(*d as u32), into),
        Instr::Disable(d) => offers::acts(stack, What::Disable(*d as u32), into),
        Instr::Trigger(d) => offers::acts(stack, What::Trigger(*d as u32), into),
        Instr::Put { device, format } => devices::put(code, stack, here, *device, *format, into),
        Instr::Get(reading) => devices::get_values(code, stack, here, reading.get(), into),
        Instr::Take(d) => offers::asks(stack, What::Take(*d as u32), into),
        Instr::Send(d) => offers::send(stack, here, *d as u32, into),
        _ => unreachable!(),
    }
}

// Carries out this instruction, at which the stack stands and which may offer another action than a trap, or leaves the
// action beside the stack and changes nothing else.
pub(crate) fn step_at(code: &Valid, stack: &mut Loaded, instr: &Instr, into: &mut Offer) -> Gave
    requires stack { IsStack code.now stack.old.frames }
    requires room { room code.now stack.old.frames ≤ stack.old.room }
    requires there { instr_of code.now stack.old.frames ≡ Some instr.now }
    requires family { 2 ≤ family instr.now }
    requires next { HasNext stack.old.frames }
    ensures does { Does (row code.now stack.old.frames) stack.old stack.new (gave result (action_of into.new)) }
    ensures stack { IsStack code.now stack.new.frames }
    ensures room { room code.now stack.new.frames ≤ stack.new.room }
    ensures task { task_of code.now stack.new.frames ≡ task_of code.now stack.old.frames }
{
    laws_hold(code);
    let here = stack.frame(stack.frames() - 1);
    on_ways(code, stack, &here, instr, into)
}

// The same for the instruction at which the stack stands.
fn step_other(code: &Valid, stack: &mut Loaded, into: &mut Offer) -> Gave
    requires stack { IsStack code.now stack.old.frames }
    requires room { room code.now stack.old.frames ≤ stack.old.room }
    requires other { Ends code.now stack.old.frames None }
    ensures does { Does (row code.now stack.old.frames) stack.old stack.new (gave result (action_of into.new)) }
    ensures stack { IsStack code.now stack.new.frames }
    ensures room { room code.now stack.new.frames ≤ stack.new.room }
    ensures task { task_of code.now stack.new.frames ≡ task_of code.now stack.old.frames }
{
    laws_hold(code);
    let here = stack.frame(stack.frames() - 1);
    let instr = instr_at(code, &here);
    step_at(code, stack, instr, into)
}

/// Carries out one instruction, or leaves the action at which the task stands beside it and changes nothing else.
pub fn step(code: &Valid, stack: &mut Loaded, into: &mut Offer) -> Gave
    requires stack { IsStack code.now stack.old.frames }
    requires room { room code.now stack.old.frames ≤ stack.old.room }
    ensures does { Does (row code.now stack.old.frames) stack.old stack.new (gave result (action_of into.new)) }
    ensures stack { IsStack code.now stack.new.frames }
    ensures room { room code.now stack.new.frames ≤ stack.new.room }
    ensures task { task_of code.now stack.new.frames ≡ task_of code.now stack.old.frames }
{
    match quick_step(code, stack) {
        Some(did) => tell(did, into),
        None => step_other(code, stack, into),
    }
}

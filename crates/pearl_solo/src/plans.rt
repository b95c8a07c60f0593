// Actions at a planned time.

ghost use Rattle.std.specs.Prelude.{◌≡◌, ◌<◌, ◌≤◌, ◌^◌, [], ◌∷◌, IsSome, IfErr, OnOk, Some, Ok, Err, length};
ghost use Rattle.pearl_rules.specs.declared.action.Action.{Action};
ghost use Rattle.pearl_stack.specs.Frames.{top_operands};
ghost use Rattle.pearl_instructions.specs.Offers.{as_start as as_start_of, start_or_free as start_or_free_of, start_kinds, repeat_kinds, activation_count as count_of, activate as activate_row, continue as continue_row};
ghost use Rattle.pearl_solo.specs.Plans.{begins_with, repeats_with, urgent_with, activation_of, planned_on, span_of, clock_of, NamesSmall};
ghost use Rattle.pearl_silent.specs.Steps.{on_top, Does, Applies, IsHere};
ghost use Rattle.pearl_exchange.specs.Offers.{action_of};
ghost use Rattle.pearl_solo.specs.Gives.{gave};

use crate::stepped::Gave;
use crate::values::top_values;
use pearl_exchange::offer::{Offer, What};
use pearl_instructions::instr::{Activation, Continuation};
use pearl_instructions::schedule::{OnceForm, RepeatForm, StartForm};
use pearl_rules::action::{Repeat, Start};
use pearl_silent::top::operand;
use pearl_stack::stack::{Frame, Loaded};
use pearl_value::cell::Cell;
use pearl_value::trap::Trap;

// When a plan begins that needs a value.
fn start_at(form: StartForm, x: &Cell) -> Result<Start, Trap>
    requires small { NamesSmall form }
    requires some { IsSome (begins_with form (x.now ∷ [])) }
    ensures { begins_with form (x.now ∷ []) ≡ Some result }
{
    match (form, x) {
        (StartForm::Free, _) => Ok(Start::Free),
        (StartForm::When(device), _) => Ok(Start::When(device as u32)),
        (StartForm::At, Cell::Clock(time)) => Ok(Start::At(*time)),
        (StartForm::After, Cell::Span(time)) => {
            if *time < 0 {
                Err(Trap::Range)
            } else {
                Ok(Start::After(*time))
            }
        }
        (StartForm::WhenAfter(device), Cell::Span(time)) => {
            if *time < 0 {
                Err(Trap::Range)
            } else {
                Ok(Start::WhenAfter(device as u32, *time))
            }
        }
        _ => unreachable!(),
    }
}

// When a plan begins.
fn start(stack: &Loaded, here: &Frame, form: StartForm) -> Result<Start, Trap>
    requires here { IsHere here.now stack.now.frames }
    requires small { NamesSmall form }
    requires some { IsSome (begins_with form (top_operands stack.now.frames)) }
    ensures { begins_with form (top_operands stack.now.frames) ≡ Some result }
{
    match form {
        StartForm::Free => Ok(Start::Free),
        StartForm::When(device) => Ok(Start::When(device as u32)),
        StartForm::At => start_at(StartForm::At, operand(stack, here, 0)),
        StartForm::After => start_at(StartForm::After, operand(stack, here, 0)),
        StartForm::WhenAfter(device) => start_at(
            StartForm::WhenAfter(device),
            operand(stack, here, 0),
        ),
    }
}

// A task goes on once.
pub fn as_start(form: OnceForm) -> StartForm
    ensures { result ≡ as_start_of form }
{
    match form {
        OnceForm::At => StartForm::At,
        OnceForm::After => StartForm::After,
        OnceForm::When(device) => StartForm::When(device),
    }
}

// Resume.
pub fn resume(stack: &Loaded, here: &Frame, form: OnceForm, into: &mut Offer) -> Gave
    requires here { IsHere here.now stack.now.frames }
    requires small { NamesSmall (as_start_of form) }
    requires ready { Applies (planned_on (λ when. Action.Resume when) (as_start_of form) stack.now.frames) stack.now.room }
    ensures { Does (planned_on (λ when. Action.Resume when) (as_start_of form) stack.now.frames) stack.now stack.now (gave result (action_of into.new)) }
{
    match start(stack, here, as_start(form)) {
        Ok(when) => {
            into.start = when;
            into.what = What::Resume;
            Gave::Offered
        }
        Err(trap) => {
            into.what = What::Trap(trap);
            Gave::Offered
        }
    }
}

// Continue, of a task by its number.
fn continue_task(stack: &Loaded, here: &Frame, task: u32, form: StartForm, into: &mut Offer) -> Gave
    requires here { IsHere here.now stack.now.frames }
    requires small { NamesSmall form }
    requires ready { Applies (planned_on (λ when. Action.Continue task when) form stack.now.frames) stack.now.room }
    ensures { Does (planned_on (λ when. Action.Continue task when) form stack.now.frames) stack.now stack.now (gave result (action_of into.new)) }
{
    match start(stack, here, form) {
        Ok(when) => {
            into.start = when;
            into.what = What::Continue(task);
            Gave::Offered
        }
        Err(trap) => {
            into.what = What::Trap(trap);
            Gave::Offered
        }
    }
}

pub fn start_or_free(form: Option<OnceForm>) -> StartForm
    ensures { result ≡ start_or_free_of form }
{
    match form {
        Some(form) => as_start(form),
        None => StartForm::Free,
    }
}

// Continue.
pub fn go_on_later(stack: &Loaded, here: &Frame, c: &Continuation, into: &mut Offer) -> Gave
    requires here { IsHere here.now stack.now.frames }
    requires task { c.now.task < 2 ^ 32 }
    requires small { NamesSmall (start_or_free_of c.now.once) }
    requires ready { Applies (on_top (λ f lower. continue_row c.now f lower) stack.now.frames) stack.now.room }
    ensures { Does (on_top (λ f lower. continue_row c.now f lower) stack.now.frames) stack.now stack.now (gave result (action_of into.new)) }
{
    continue_task(stack, here, c.task as u32, start_or_free(c.once), into)
}

// A length of time.
fn span(x: &Cell) -> i64
    requires { IsSome (span_of x.now) }
    ensures { span_of x.now ≡ Some result }
{
    match x {
        Cell::Span(time) => *time,
        _ => unreachable!(),
    }
}

// A time of day.
fn clock(x: &Cell) -> u32
    requires { IsSome (clock_of x.now) }
    ensures { clock_of x.now ≡ Some result }
{
    match x {
        Cell::Clock(time) => *time,
        _ => unreachable!(),
    }
}

// When a plan begins, by the values that lie for it.
fn beginning(form: StartForm, values: &[Cell]) -> Result<Start, Trap>
    requires small { NamesSmall form }
    requires some { IsSome (begins_with form values.now) }
    ensures { begins_with form values.now ≡ Some result }
{
    match form {
        StartForm::Free => Ok(Start::Free),
        StartForm::When(device) => Ok(Start::When(device as u32)),
        StartForm::At => start_at(StartForm::At, &values[0]),
        StartForm::After => start_at(StartForm::After, &values[0]),
        StartForm::WhenAfter(device) => start_at(StartForm::WhenAfter(device), &values[0]),
    }
}

// How it goes on.
fn repetition(form: RepeatForm, values: &[Cell]) -> Result<Repeat, Trap>
    requires { IsSome (repeats_with form values.now) }
    ensures { repeats_with form values.now ≡ Some result }
{
    match form {
        RepeatForm::Once => Ok(Repeat::Once),
        RepeatForm::All => {
            let period = span(&values[0]);
            if period < 1 {
                Err(Trap::Range)
            } else {
                Ok(Repeat::All(period))
            }
        }
        RepeatForm::Until => {
            let period = span(&values[0]);
            let end = clock(&values[1]);
            if period < 1 {
                Err(Trap::Range)
            } else {
                Ok(Repeat::Until(period, end))
            }
        }
        RepeatForm::During => {
            let period = span(&values[0]);
            let time = span(&values[1]);
            if period < 1 || time < 0 {
                Err(Trap::Range)
            } else {
                Ok(Repeat::During(period, time))
            }
        }
    }
}

// A priority from 1 to 255, where one is given.
fn urgency(given: bool, values: &[Cell]) -> Result<Option<u8>, Trap>
    requires { IsSome (urgent_with given values.now) }
    ensures { urgent_with given values.now ≡ Some result }
{
    if !given {
        return Ok(None);
    }
    match &values[0] {
        Cell::Fixed { value, .. } => {
            if *value < 1 || *value > 255 {
                Err(Trap::Range)
            } else {
                Ok(Some(*value as u8))
            }
        }
        _ => unreachable!(),
    }
}

// How many values a start takes, and a repetition.
pub fn start_count(form: StartForm) -> u32
    ensures { result ≡ length (start_kinds form) }
{
    match form {
        StartForm::Free => 0,
        StartForm::When(_) => 0,
        StartForm::At => 1,
        StartForm::After => 1,
        StartForm::WhenAfter(_) => 1,
    }
}

fn repeat_count(form: RepeatForm) -> u32
    ensures { result ≡ length (repeat_kinds form) }
{
    match form {
        RepeatForm::Once => 0,
        RepeatForm::All => 1,
        RepeatForm::Until => 2,
        RepeatForm::During => 2,
    }
}

// How many values ACTIVATE takes.
pub fn activation_count(a: &Activation) -> u32
    ensures value { result ≡ count_of a.now }
    ensures few { result ≤ 4 }
{
    start_count(a.start) + repeat_count(a.repeat) + if a.priority { 1 } else { 0 }
}

// Offers the activation, by the values that lie for it.
fn activation(a: &Activation, values: &[Cell], into: &mut Offer) -> Result<(), Trap>
    requires task { a.now.task < 2 ^ 32 }
    requires small { NamesSmall a.now.start }
    requires long { length values.now ≡ count_of a.now }
    requires some { IsSome (activation_of a.now values.now) }
    ensures ok { OnOk result (activation_of a.now values.now ≡ Some (Ok (action_of into.new))) }
    ensures err { IfErr result (λ trap. activation_of a.now values.now ≡ Some (Err trap)) }
{
    let behind = &values[start_count(a.start) as usize..];
    let last = &behind[repeat_count(a.repeat) as usize..];
    into.start = beginning(a.start, values)?;
    into.repeat = repetition(a.repeat, behind)?;
    let priority = urgency(a.priority, last)?;
    into.what = What::Activate {
        task: a.task as u32,
        priority,
    };
    Ok(())
}

// Activate.
#[inline(never)]
pub fn activate(stack: &Loaded, here: &Frame, a: &Activation, into: &mut Offer) -> Gave
    requires here { IsHere here.now stack.now.frames }
    requires task { a.now.task < 2 ^ 32 }
    requires small { NamesSmall a.now.start }
    requires ready { Applies (on_top (λ f lower. activate_row a.now f lower) stack.now.frames) stack.now.room }
    ensures { Does (on_top (λ f lower. activate_row a.now f lower) stack.now.frames) stack.now stack.now (gave result (action_of into.new)) }
{
    let values = top_values(stack, here, activation_count(a));
    match activation(a, values.as_slice(), into) {
        Ok(()) => Gave::Offered,
        Err(trap) => {
            into.what = What::Trap(trap);
            Gave::Offered
        }
    }
}

// The action that a task offers.

ghost use Rattle.std.specs.Prelude.{◌≡◌};
ghost use Rattle.pearl_rules.specs.declared.action.Action.TheVariants.{Turn};
ghost use Rattle.pearl_exchange.specs.Offers.{action_of};

use arrayvec::ArrayVec;
use pearl_rules::action::{Repeat, Start};
use pearl_value::cell::Cell;
use pearl_value::kind::Kind;
use pearl_value::trap::Trap;

/// Which action it is, with its numbers. Slots, semaphores, tasks, devices and formats are numbered as in the `Setup`.
#[derive(Clone, Copy, PartialEq, Eq, Debug)]
pub enum What {
    /// Asks for the value of a slot.
    Read(u32),
    /// Puts the offer's value into a slot.
    Write(u32),
    /// Begins the next turn of a loop.
    Turn,
    /// Enters a procedure.
    Enter,
    /// Asks for the time of day.
    Now,
    /// Lowers the count of each semaphore of the offer's list by 1, once all of them are above 0.
    Request,
    /// Raises the count of each semaphore of the offer's list by 1.
    Release,
    /// Lowers a semaphore's count by 1 where it is above 0, and asks whether it was.
    Try(u16),
    /// Starts a task, or plans its starts as the offer says. No priority means the declared one.
    Activate { task: u32, priority: Option<u8> },
    /// Lets a suspended task go on, or plans it as the offer says.
    Continue(u32),
    /// Suspends the own task, and plans that it goes on as the offer says.
    Resume,
    /// Suspends a task.
    Suspend(u32),
    /// Ends a task from outside.
    Terminate(u32),
    /// Removes the plans of a task.
    Prevent(u32),
    /// Lets an interrupt through.
    Enable(u32),
    /// Masks an interrupt.
    Disable(u32),
    /// Makes an interrupt occur.
    Trigger(u32),
    /// Writes the offer's text to a terminal.
    Put(u32),
    /// Reads values of the offer's kinds from a terminal, as a format says.
    Get { device: u32, format: u32 },
    /// Takes the oldest value of an input.
    Take(u32),
    /// Sends the offer's value to an output.
    Send(u32),
    /// Ends the task.
    End,
    /// Breaks the task off.
    Trap(Trap),
}

/// An action that is offered. Its large parts lie in places of their own, of which `what` says which count.
#[derive(Drop)]
pub struct Offer {
    pub what: What,
    pub value: Cell,
    pub list: ArrayVec<u16, 16>,
    pub start: Start,
    pub repeat: Repeat,
    pub text: ArrayVec<u8, 1024>,
    pub kinds: ArrayVec<Kind, 64>,
}

impl Offer {
    /// A place for actions.
    pub fn new() -> Offer
        ensures { action_of result ≡ Turn }
    {
        Offer {
            what: What::Turn,
            value: Cell::default(),
            list: ArrayVec::new(),
            start: Start::Free,
            repeat: Repeat::Once,
            text: ArrayVec::new(),
            kinds: ArrayVec::new(),
        }
    }
}

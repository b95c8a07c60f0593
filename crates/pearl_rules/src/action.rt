// What a task does next, and what it hears.

use arrayvec::ArrayVec;
use pearl_value::cell::Cell;
use pearl_value::kind::Kind;
use pearl_value::trap::Trap;

/// When a plan begins. A time of day is in milliseconds since midnight, below 86,400,000; a length of time is in
/// milliseconds, from 0 to 2^40; an interrupt is named by its device's number.
#[derive(Clone, Copy, PartialEq, Eq, Debug)]
pub enum Start {
    /// Now.
    Free,
    /// At the next moment of this time of day.
    At(u32),
    /// After this length of time.
    After(i64),
    /// At each occurrence of an interrupt.
    When(u32),
    /// After this length of time from each occurrence of an interrupt.
    WhenAfter(u32, i64),
}

/// How a plan goes on after its beginning. The first number is the period in milliseconds, from 1 to 2^40.
#[derive(Clone, Copy, PartialEq, Eq, Debug)]
pub enum Repeat {
    Once,
    /// Without an end.
    All(i64),
    /// Up to the next moment of this time of day, in milliseconds since midnight, below 86,400,000.
    Until(i64, u32),
    /// For this length of time from its beginning, in milliseconds, from 0 to 2^40.
    During(i64, i64),
}

/// The next action of an active task. Slots, semaphores, tasks, devices and formats are numbered as in the `Setup`. An
/// action on the own task has the own task's number.
#[derive(Drop)]
pub enum Action {
    /// Asks for the value of a slot.
    Read(u32),
    /// Puts a value into a slot.
    Write(u32, Cell),
    /// Begins the next turn of a loop.
    Turn,
    /// Enters a procedure.
    Enter,
    /// Asks for the time of day.
    Now,
    /// Lowers the count of each of these semaphores by 1, once all of them are above 0. None is named twice.
    Request(ArrayVec<u16, 16>),
    /// Raises the count of each of these semaphores by 1. None is named twice.
    Release(ArrayVec<u16, 16>),
    /// Lowers a semaphore's count by 1 where it is above 0, and asks whether it was.
    Try(u16),
    /// Starts a task, or plans its starts. A smaller number is a more urgent priority, from 1 to 255; none means the
    /// declared one.
    Activate {
        task: u32,
        start: Start,
        repeat: Repeat,
        priority: Option<u8>,
    },
    /// Lets a suspended task go on, or plans it.
    Continue {
        task: u32,
        start: Start,
    },
    /// Suspends the own task, and plans that it goes on.
    Resume(Start),
    /// Suspends a task.
    Suspend(u32),
    /// Ends a task from outside.
    Terminate(u32),
    /// Removes the plans of a task.
    Prevent(u32),
    /// Lets an interrupt through.
    Enable(u32),
    /// Masks an interrupt.
    Disable(u32),
    /// Makes an interrupt occur.
    Trigger(u32),
    /// Writes a text to a terminal.
    Put {
        device: u32,
        text: ArrayVec<u8, 1024>,
    },
    /// Reads values of these kinds from a terminal, as a format says.
    Get {
        device: u32,
        format: u32,
        kinds: ArrayVec<Kind, 64>,
    },
    /// Takes the oldest value of an input.
    Take(u32),
    /// Sends a value to an output.
    Send(u32, Cell),
    /// Ends the task.
    End,
    /// Breaks the task off.
    Trap(Trap),
}

/// What a task hears after its action.
#[derive(Drop)]
pub enum Answer {
    Nothing,
    One(Cell),
    /// The values of a GET, in order.
    Many(ArrayVec<Cell, 64>),
}

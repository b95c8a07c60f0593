// What happens in a run, and how a task stands.

use arrayvec::ArrayVec;
use pearl_value::cell::Cell;
use pearl_value::trap::Trap;

/// What happened. Tasks and devices are numbered as in the `Setup`. A smaller number is a more urgent priority, from 1 to 255.
#[derive(Drop)]
pub enum Event {
    /// A task was started.
    Start {
        task: u32,
        priority: u8,
    },
    /// A task reached its end.
    End(u32),
    /// A task was ended from outside.
    Stop(u32),
    /// A task was broken off.
    Trap {
        task: u32,
        trap: Trap,
    },
    /// A task was to be started while it was active, and keeps the start: it keeps so many now, from 1 to 3.
    Kept {
        task: u32,
        number: u8,
    },
    /// A task was to be started while it was active and kept three starts: this one is lost.
    Overrun(u32),
    /// A masked interrupt occurred.
    Masked(u32),
    /// There was no room for what came in at a terminal or an input.
    Lost(u32),
    /// A text was written to a terminal.
    Out {
        device: u32,
        text: ArrayVec<u8, 1024>,
    },
    /// A value was sent to an output.
    Send {
        device: u32,
        value: Cell,
    },
}

/// How a task stands, with its priority where it is active.
#[derive(Clone, Copy, PartialEq, Eq, Debug)]
pub enum Shown {
    Dormant,
    Suspended(u8),
    /// Its action can't be done now.
    Blocked(u8),
    /// It is the task that acts next.
    Running(u8),
    Runnable(u8),
}

// What a journal's line means.

use arrayvec::ArrayVec;
use pearl_value::cell::Cell;

/// One line of a journal. Tasks and devices are numbered as in the `Setup`. A text has bytes from 32 to 126.
#[derive(Drop)]
pub enum Entry {
    /// The time of day at the start, in milliseconds since midnight, below 86,400,000.
    Clock(u32),
    /// Up to so many picks, fewer where no task is eligible.
    Run(u64),
    /// So many milliseconds without picks.
    Tick(u64),
    /// So many times one millisecond and then up to so many picks.
    Pass {
        times: u64,
        picks: u64,
    },
    /// An interrupt occurs.
    Irpt(u32),
    /// Bytes come in at a terminal.
    Chars {
        device: u32,
        text: ArrayVec<u8, 1024>,
    },
    /// Bytes come in at a terminal, and byte 10 after them, which isn't among these.
    Line {
        device: u32,
        text: ArrayVec<u8, 1024>,
    },
    /// A value comes in at an input.
    Value {
        device: u32,
        value: Cell,
    },
    /// A task becomes the one that acted last, where it might act next.
    Turn(u32),
    /// Tells how each task stands.
    State,
}

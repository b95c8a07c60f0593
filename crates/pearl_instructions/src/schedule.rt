// How an instruction says when something is to happen. Times of day and lengths of time lie on the stack.

/// When a task goes on.
#[derive(Clone, Copy, PartialEq, Eq, Debug)]
pub enum OnceForm {
    /// At a time of day.
    At,
    /// After a length of time.
    After,
    /// At the next occurrence of the interrupt with this device number.
    When(u64),
}

/// When a plan begins.
#[derive(Clone, Copy, PartialEq, Eq, Debug)]
pub enum StartForm {
    /// Now.
    Free,
    /// At a time of day.
    At,
    /// After a length of time.
    After,
    /// At each occurrence of the interrupt with this device number.
    When(u64),
    /// After a length of time from each occurrence of the interrupt.
    WhenAfter(u64),
}

/// How a plan goes on after its beginning.
#[derive(Clone, Copy, PartialEq, Eq, Debug)]
pub enum RepeatForm {
    Once,
    /// Each time after a length of time, without an end.
    All,
    /// The same up to a time of day.
    Until,
    /// The same for a length of time.
    During,
}

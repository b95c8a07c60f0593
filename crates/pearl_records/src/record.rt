// What is saved of the core of a run. Numbers are as they were read: which of them a run can have, rules on the whole state say.

use pearl_value::cell::Cell;
use pearl_value::listing::Listing;

/// Where the series of a plan end.
#[derive(Clone, Copy)]
pub enum EndRecord {
    /// Nowhere.
    Never,
    /// At the next moment of this time of day, in milliseconds since midnight; lawful below 86,400,000.
    Until(u64),
    /// This length of time after their first moment, in milliseconds; lawful up to 2^40.
    During(u64),
}

/// Moments that are a period apart, in milliseconds since the start.
#[derive(Clone, Copy)]
pub struct SeriesRecord {
    /// The first moment; lawful up to 2^42.
    pub first: u64,
    /// The period in milliseconds, 0 where there is the first moment alone; lawful up to 2^40.
    pub period: u64,
    /// The last moment, below 2^64 - 1, or none where the series goes on for ever.
    pub last: Option<u64>,
}

/// A plan, and the moments at which it serves. Lengths of time are in milliseconds; lawful up to 2^40.
#[derive(Clone, Copy)]
pub struct PlanRecord {
    /// The interrupt at each of whose occurrences a series begins, by its number in the object's list of devices, below
    /// 2^64 - 1; none where a series began when the plan was made.
    pub when: Option<u64>,
    /// How long after that the first moment comes, 0 where nothing is written.
    pub after: u64,
    /// The period, 0 where there is none.
    pub period: u64,
    pub end: EndRecord,
    /// The series that began last. A plan that waits for its interrupt may have none.
    pub series: Option<SeriesRecord>,
}

/// A plan by which a task is started, with the priority that it then has; lawful from 1 to 255.
#[derive(Clone, Copy)]
pub struct ActivationRecord {
    pub plan: PlanRecord,
    pub priority: u8,
}

/// How a task stands.
#[derive(Drop)]
pub enum Standing {
    Dormant,
    Active {
        /// Its priority; lawful from 1 to 255, and a smaller number is more urgent.
        priority: u8,
        suspended: bool,
        /// The priorities of the starts that it keeps, from the oldest on: at most three, lawful from 1 to 255.
        kept: Listing<u8>,
    },
}

/// What the core knows of one task.
#[derive(Drop)]
pub struct TaskRecord {
    pub standing: Standing,
    /// The plan by which it goes on.
    pub continuation: Option<PlanRecord>,
    /// The plan by which it is started.
    pub activation: Option<ActivationRecord>,
}

/// The core of a run without what it has told. Slots, semaphores, devices and tasks are in the object's order, devices of
/// one sort in that of its list.
#[derive(Drop)]
pub struct CoreRecord {
    /// Milliseconds since the start; lawful up to 2^40.
    pub moment: u64,
    /// The time of day at the start, in milliseconds since midnight; lawful below 86,400,000.
    pub clock: u64,
    /// The task that acted last, by its number, below 2^64 - 1; none where none has acted.
    pub last: Option<u64>,
    /// What the module's variables hold: at most 65,536 values, of which none is a reference.
    pub slots: Listing<Cell>,
    /// The counts of the semaphores: at most 1,000, lawful below 2^31.
    pub counts: Listing<u64>,
    /// Which interrupts are let through: at most 99.
    pub switches: Listing<bool>,
    /// The bytes that wait at each terminal, the oldest first: at most 4,096 at each of at most 99. Lawful are 10 and 32 to
    /// 126.
    pub terminals: Listing<Listing<u8>>,
    /// The values that wait at each input, the oldest first: at most 256 at each of at most 99.
    pub inputs: Listing<Listing<Cell>>,
    /// How each task stands: at most 200.
    pub tasks: Listing<TaskRecord>,
}

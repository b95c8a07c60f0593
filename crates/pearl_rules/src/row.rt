// How one task stands in the core, and what is planned for it.

ghost use Rattle.std.specs.Prelude.{◌≡◌, length};
ghost use Rattle.pearl_rules.specs.Plans.{priorities, and_one, oldest};

use crate::series::Series;

/// Whether a task is active. A smaller number is a more urgent priority, from 1 to 255.
#[derive(Clone, Copy, PartialEq, Eq, Debug)]
pub enum Mode {
    Dormant,
    Active { priority: u8, suspended: bool },
}

/// The priorities of the starts that an active task keeps, from the oldest on: at most three.
#[derive(Clone, Copy, PartialEq, Eq, Debug)]
pub enum Kept {
    Nothing,
    One(u8),
    Two(u8, u8),
    Three(u8, u8, u8),
}

impl Kept {
    /// How many starts these are.
    pub fn count(self) -> u8
        ensures { result ≡ length (priorities self) }
    {
        match self {
            Kept::Nothing => 0,
            Kept::One(_) => 1,
            Kept::Two(..) => 2,
            Kept::Three(..) => 3,
        }
    }

    /// The same and one more behind them, where there are fewer than three.
    pub fn and_one(self, priority: u8) -> Option<Kept>
        ensures { result ≡ and_one self priority }
    {
        match self {
            Kept::Nothing => Some(Kept::One(priority)),
            Kept::One(first) => Some(Kept::Two(first, priority)),
            Kept::Two(first, second) => Some(Kept::Three(first, second, priority)),
            Kept::Three(..) => None,
        }
    }

    /// The priority of the oldest, and those behind it.
    pub fn oldest(self) -> Option<(u8, Kept)>
        ensures { result ≡ oldest self }
    {
        match self {
            Kept::Nothing => None,
            Kept::One(first) => Some((first, Kept::Nothing)),
            Kept::Two(first, second) => Some((first, Kept::One(second))),
            Kept::Three(first, second, third) => Some((first, Kept::Two(second, third))),
        }
    }
}

/// Where the series of a plan end.
#[derive(Clone, Copy, PartialEq, Eq, Debug)]
pub enum End {
    /// Nowhere.
    Never,
    /// At the next moment of this time of day, in milliseconds since midnight, below 86,400,000.
    Until(u32),
    /// This length of time after their first moment, in milliseconds, from 0 to 2^40.
    During(u64),
}

/// A plan, and the moments at which it serves. Lengths of time are in milliseconds, from 0 to 2^40.
#[derive(Clone, Copy, PartialEq, Eq, Debug)]
pub struct Plan {
    /// The interrupt at each of whose occurrences a series begins, by its device's number; none where a series begins
    /// when the plan is made.
    pub when: Option<u32>,
    /// How long after that the first moment comes, 0 where nothing is written. A time of day is the first moment of the
    /// first series alone, and isn't kept.
    pub after: u64,
    /// The period, 0 where there is none.
    pub period: u64,
    pub end: End,
    /// The series that began last. A plan that waits for an interrupt has none until that occurs.
    pub series: Option<Series>,
}

/// A plan by which a task is started, with the priority that it then has, from 1 to 255.
#[derive(Clone, Copy, PartialEq, Eq, Debug)]
pub struct Activation {
    pub plan: Plan,
    pub priority: u8,
}

/// One task's row in the core.
#[derive(Clone, Copy, PartialEq, Eq, Debug)]
pub struct TaskRow {
    pub mode: Mode,
    /// The priority that the task is started with where a start names none. It never changes.
    pub declared: u8,
    /// The starts that it keeps; a dormant task keeps none.
    pub kept: Kept,
    /// The plan by which the task goes on.
    pub continuation: Option<Plan>,
    pub activation: Option<Activation>,
}

// When the tasks' plans serve, and what comes of it.

ghost use Rattle.std.specs.Prelude.{◌≡◌, ◌^◌, ◌<◌, ◌≤◌, [], Some, length};
ghost use Rattle.pearl_rules.specs.Plans.{time_at, next_at, milliseconds, interrupt_of, after_of, period_of, end_of};
ghost use Rattle.pearl_rules.specs.Plans.{written, last_moment, series_from, begun};
ghost use Rattle.pearl_rules.specs.Plans.{first_moment, planned, kept_of, made_active, late_by, started, with_mark};
ghost use Rattle.pearl_rules.specs.Plans.{with_continuation, with_activation, continued, serves_if, serve_continuation};
ghost use Rattle.pearl_rules.specs.Plans.{serve_activation, plan_continuation, plan_activation, served};
ghost use Rattle.pearl_rules.specs.Plans.{waits_for, continuation_began, begin_activation, activation_of, reached, occurred};
ghost use Rattle.pearl_rules.specs.Devices.{interrupted};
ghost use Rattle.pearl_kernel.specs.Changes.{Stirs};
ghost use Rattle.pearl_kernel.specs.Timing.{IsTimely, IsTimelyStart, IsTimelyRepeat, IsTimelyEnd, IsTimelyPlan};

use crate::changes::Changed;
use crate::state::State;
use pearl_rules::action::{Repeat, Start};
use pearl_rules::event::Event;
use pearl_rules::row::{Activation, End, Kept, Mode, Plan};
use pearl_rules::series::Series;

// The milliseconds of a day.
const DAY: u64 = 86_400_000;

// STARTS AND SUSPENDED TASKS

impl State {
    /// A dormant task becomes active with this priority. An active one keeps the start as its last, where it keeps fewer
    /// than three; else that it is lost is told.
    pub fn start(&mut self, task: u32, priority: u8)
        requires there { task < length self.old.core.tasks }
        requires room { length self.old.core.told < 200 }
        ensures { self.new ≡ record self.old { core = started self.old.core task priority } }
    {
        match self.mode(task) {
            Mode::Dormant => self.make_active(task, priority, Kept::Nothing),
            Mode::Active { .. } => self.keep(task, self.kept(task).and_one(priority)),
        }
    }

    /// A dormant task becomes active with this priority, and keeps these starts.
    pub fn make_active(&mut self, task: u32, priority: u8, kept: Kept)
        requires there { task < length self.old.core.tasks }
        requires room { length self.old.core.told < 200 }
        ensures { self.new ≡ record self.old { core = made_active self.old.core task priority kept } }
    {
        let mut row = self.row(task);
        row.mode = Mode::Active {
            priority,
            suspended: false,
        };
        row.kept = kept;
        self.set_row(task, row);
        self.note(Event::Start { task, priority });
    }

    // An active task keeps these starts, the last of which is a new one; none where it had no room for that.
    fn keep(&mut self, task: u32, more: Option<Kept>)
        requires there { task < length self.old.core.tasks }
        requires room { length self.old.core.told < 200 }
        ensures { self.new ≡ record self.old { core = late_by more self.old.core task } }
    {
        match more {
            None => self.note(Event::Overrun(task)),
            Some(kept) => {
                let mut row = self.row(task);
                row.kept = kept;
                self.set_row(task, row);
                let number = kept.count();
                self.note(Event::Kept { task, number });
            }
        }
    }

    /// The starts that a task keeps.
    pub fn kept(&self, task: u32) -> Kept
        requires { task < length self.now.core.tasks }
        ensures { result ≡ kept_of self.now.core task }
    {
        self.row(task).kept
    }

    /// An active task has this mark of suspension from now on.
    pub fn mark(&mut self, task: u32, suspended: bool)
        requires { task < length self.old.core.tasks }
        ensures { self.new ≡ record self.old { core = with_mark self.old.core task suspended } }
    {
        let mode = match self.mode(task) {
            Mode::Dormant => Mode::Dormant,
            Mode::Active { priority, .. } => Mode::Active {
                priority,
                suspended,
            },
        };
        self.set_mode(task, mode);
    }
}

// MOMENTS

impl State {
    /// The time of day at a moment, in milliseconds since midnight.
    pub fn time_at(&self, moment: u64) -> u32
        requires clock { self.now.core.clock < 86400000 }
        requires near { moment < 2 ^ 63 }
        ensures { result ≡ time_at self.now.core moment }
    {
        ((u64::from(self.clock()) + moment) % DAY) as u32
    }

    // The least moment from this one on at which it is this time of day.
    fn next_at(&self, time: u32, moment: u64) -> u64
        requires clock { self.now.core.clock < 86400000 }
        requires near { moment < 2 ^ 63 }
        ensures { result ≡ next_at self.now.core time moment }
    {
        let wait = u64::from(time) + (DAY - u64::from(self.time_at(moment)));
        moment + wait % DAY
    }

    fn last_moment(&self, first: u64, end: End) -> u64
        requires clock { self.now.core.clock < 86400000 }
        requires near { first ≤ 2 ^ 42 }
        requires end { IsTimelyEnd end }
        ensures { result ≡ last_moment self.now.core first end }
    {
        match end {
            End::Never => u64::MAX,
            End::Until(time) => self.next_at(time, first),
            End::During(time) => first + time,
        }
    }

    // The series of a plan that has this first moment.
    fn series_from(&self, first: u64, plan: Plan) -> Series
        requires clock { self.now.core.clock < 86400000 }
        requires near { first ≤ 2 ^ 42 }
        requires plan { IsTimelyPlan plan }
        ensures { result ≡ series_from self.now.core first plan }
    {
        Series {
            first,
            period: plan.period,
            last: self.last_moment(first, plan.end),
        }
    }

    // The same plan with a series that begins now.
    fn begun(&self, plan: Plan) -> Plan
        requires timely { IsTimely self.now.core }
        requires plan { IsTimelyPlan plan }
        ensures { result ≡ begun self.now.core plan }
    {
        let series = Some(self.series_from(self.now() + plan.after, plan));
        Plan { series, ..plan }
    }

    fn first_moment(&self, start: Start) -> u64
        requires clock { self.now.core.clock < 86400000 }
        requires near { self.now.core.moment ≤ 2 ^ 40 }
        requires start { IsTimelyStart start }
        ensures first { result ≡ first_moment self.now.core start }
        ensures near { result ≤ 2 ^ 42 }
    {
        match start {
            Start::At(time) => self.next_at(time, self.now()),
            Start::Free | Start::When(_) => self.now(),
            Start::After(time) => self.now() + milliseconds(time),
            Start::WhenAfter(_, time) => self.now() + milliseconds(time),
        }
    }

    /// A plan that is made now; its series begins at once, but where it waits for an interrupt.
    pub fn planned(&self, start: Start, repeat: Repeat) -> Plan
        requires timely { IsTimely self.now.core }
        requires plan { IsTimelyStart start × IsTimelyRepeat repeat }
        ensures { result ≡ planned self.now.core start repeat }
    {
        let plan = written(start, repeat);
        let series = match start {
            Start::When(_) | Start::WhenAfter(..) => None,
            Start::Free | Start::At(_) | Start::After(_) => {
                Some(self.series_from(self.first_moment(start), plan))
            }
        };
        Plan { series, ..plan }
    }
}

// A plan as it is written.
fn written(start: Start, repeat: Repeat) -> Plan
    requires plan { IsTimelyStart start × IsTimelyRepeat repeat }
    ensures written { result ≡ written start repeat }
    ensures timely { IsTimelyPlan result }
{
    Plan {
        when: interrupt_of(start),
        after: after_of(start),
        period: period_of(repeat),
        end: end_of(repeat),
        series: None,
    }
}

// A length of time; one below 0 counts as none.
fn milliseconds(time: i64) -> u64
    ensures { result ≡ milliseconds time }
{
    if time < 0 { 0 } else { time as u64 }
}

fn interrupt_of(start: Start) -> Option<u32>
    ensures { result ≡ interrupt_of start }
{
    match start {
        Start::When(interrupt) | Start::WhenAfter(interrupt, _) => Some(interrupt),
        Start::Free | Start::At(_) | Start::After(_) => None,
    }
}

fn after_of(start: Start) -> u64
    requires start { IsTimelyStart start }
    ensures value { result ≡ after_of start }
    ensures near { result ≤ 2 ^ 40 }
{
    match start {
        Start::After(time) => milliseconds(time),
        Start::WhenAfter(_, time) => milliseconds(time),
        Start::Free | Start::At(_) | Start::When(_) => 0,
    }
}

fn period_of(repeat: Repeat) -> u64
    ensures { result ≡ period_of repeat }
{
    match repeat {
        Repeat::Once => 0,
        Repeat::All(period) => milliseconds(period),
        Repeat::Until(period, _) => milliseconds(period),
        Repeat::During(period, _) => milliseconds(period),
    }
}

fn end_of(repeat: Repeat) -> End
    requires repeat { IsTimelyRepeat repeat }
    ensures value { result ≡ end_of repeat }
    ensures timely { IsTimelyEnd result }
{
    match repeat {
        Repeat::Once | Repeat::All(_) => End::Never,
        Repeat::Until(_, time) => End::Until(time),
        Repeat::During(_, time) => End::During(milliseconds(time)),
    }
}

fn waits_for(interrupt: u32, when: Option<u32>) -> bool
    ensures { result ≡ waits_for interrupt when }
{
    match when {
        None => false,
        Some(other) => interrupt == other,
    }
}

// PLANS THAT SERVE

impl State {
    fn set_continuation(&mut self, task: u32, plan: Option<Plan>)
        requires { task < length self.old.core.tasks }
        ensures { self.new ≡ record self.old { core = with_continuation self.old.core task plan } }
    {
        let mut row = self.row(task);
        row.continuation = plan;
        self.set_row(task, row);
    }

    fn set_activation(&mut self, task: u32, activation: Option<Activation>)
        requires { task < length self.old.core.tasks }
        ensures { self.new ≡ record self.old { core = with_activation self.old.core task activation } }
    {
        let mut row = self.row(task);
        row.activation = activation;
        self.set_row(task, row);
    }

    fn serves(&self, plan: Option<Plan>) -> bool
        ensures { result ≡ serves_if self.now.core plan }
    {
        let Some(plan) = plan else {
            return false;
        };
        match plan.series {
            None => false,
            Some(series) => series.fires(self.now()),
        }
    }

    // The task goes on, where the series of its plan fires now; the plan is gone then.
    fn serve_continuation(&mut self, task: u32)
        requires { task < length self.old.core.tasks }
        ensures { self.new ≡ record self.old { core = serve_continuation self.old.core task } }
    {
        if self.serves(self.row(task).continuation) {
            self.go_on(task);
        }
    }

    // A task goes on by its plan, which is gone then.
    fn go_on(&mut self, task: u32)
        requires { task < length self.old.core.tasks }
        ensures { self.new ≡ record self.old { core = continued self.old.core task } }
    {
        self.mark(task, false);
        self.set_continuation(task, None);
    }

    // The task is started, where the series of its plan fires now.
    fn serve_activation(&mut self, task: u32)
        requires there { task < length self.old.core.tasks }
        requires room { length self.old.core.told < 200 }
        ensures { self.new ≡ record self.old { core = serve_activation self.old.core task } }
    {
        let Some(activation) = self.row(task).activation else {
            return;
        };
        if self.serves(Some(activation.plan)) {
            self.start(task, activation.priority);
        }
    }

    /// A new plan by which a task goes on, in place of the one that it has; it serves at once where it fires now.
    pub fn plan_continuation(&mut self, task: u32, plan: Plan)
        requires { task < length self.old.core.tasks }
        ensures { self.new ≡ record self.old { core = plan_continuation self.old.core task plan } }
    {
        self.set_continuation(task, Some(plan));
        self.serve_continuation(task);
    }

    /// A new plan by which a task is started, in place of the one that it has; it serves at once where it fires now.
    pub fn plan_activation(&mut self, task: u32, activation: Activation)
        requires there { task < length self.old.core.tasks }
        requires room { length self.old.core.told < 200 }
        ensures { self.new ≡ record self.old { core = plan_activation self.old.core task activation } }
    {
        self.set_activation(task, Some(activation));
        self.serve_activation(task);
    }
}

// PLANS THAT FIRE, AND INTERRUPTS

impl State {
    /// The plans of a task that fire now serve.
    pub fn serve(&mut self, task: u32)
        requires there { task < length self.old.core.tasks }
        requires room { length self.old.core.told < 200 }
        ensures { self.new ≡ record self.old { core = served self.old.core task } }
    {
        self.serve_continuation(task);
        self.serve_activation(task);
    }

    /// An interrupt occurs; that a masked one did is told. The answer tells what may have changed of all that offers wait
    /// for: none where no task is touched.
    pub fn interrupted(&mut self, device: u32) -> Option<Changed>
        requires few { length self.old.core.tasks ≤ 200 }
        requires told { self.old.core.told ≡ [] }
        requires timely { IsTimely self.old.core }
        ensures occurs { self.new ≡ record self.old { core = interrupted self.old.core device } }
        ensures stirs { Stirs self.old.core self.new.core result }
    {
        if self.is_enabled(device) {
            self.occur(device);
            return Some(Changed::Nothing);
        }
        self.note(Event::Masked(device));
        None
    }

    // An interrupt reaches the tasks whose plans wait for it.
    fn occur(&mut self, interrupt: u32)
        requires few { length self.old.core.tasks ≤ 200 }
        requires told { self.old.core.told ≡ [] }
        requires timely { IsTimely self.old.core }
        ensures { self.new ≡ record self.old { core = occurred self.old.core interrupt } }
    {
        let count = self.tasks() as u32;
        for task in 0..count {
            self.reach(interrupt, task);
        }
    }

    fn reach(&mut self, interrupt: u32, task: u32)
        requires there { task < length self.old.core.tasks }
        requires room { length self.old.core.told < 200 }
        requires timely { IsTimely self.old.core }
        ensures { self.new ≡ record self.old { core = reached interrupt self.old.core task } }
    {
        self.begin_continuation(interrupt, task);
        self.begin_activation(interrupt, task);
    }

    // The plan by which a task goes on begins where it waits for this interrupt.
    fn begin_continuation(&mut self, interrupt: u32, task: u32)
        requires there { task < length self.old.core.tasks }
        requires timely { IsTimely self.old.core }
        ensures { self.new ≡ record self.old { core = continuation_began interrupt self.old.core task } }
    {
        let Some(plan) = self.row(task).continuation else {
            return;
        };
        if waits_for(interrupt, plan.when) {
            self.plan_continuation(task, self.begun(plan));
        }
    }

    // The plan by which a task is started begins where it waits for this interrupt.
    fn begin_activation(&mut self, interrupt: u32, task: u32)
        requires there { task < length self.old.core.tasks }
        requires room { length self.old.core.told < 200 }
        requires timely { IsTimely self.old.core }
        ensures { let core = self.old.core in
            self.new ≡ record self.old { core = begin_activation interrupt (activation_of core task) core task } }
    {
        let Some(activation) = self.row(task).activation else {
            return;
        };
        if waits_for(interrupt, activation.plan.when) {
            let plan = self.begun(activation.plan);
            self.plan_activation(task, Activation { plan, ..activation });
        }
    }
}

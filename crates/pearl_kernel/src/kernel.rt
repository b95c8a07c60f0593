// The core's steps, one call for each.

ghost use Rattle.std.specs.Prelude.{◌≡◌, ◌≢◌, ◌<◌, ◌≤◌, ◌+◌, [], ◌∷◌, Some, None, true, false};
ghost use Rattle.std.specs.Prelude.{IfOk, IfSome, MatchOption, length, slice_get, slice_set};
ghost use Rattle.pearl_value.specs.WellFormed.{IsValue};
ghost use Rattle.pearl_rules.specs.declared.setup.Setup as Tables;
ghost use Rattle.pearl_timer.specs.Next.{IsNext, NoneIsNext};
ghost use Rattle.pearl_timer.specs.Timetable.{IsDue};
ghost use Rattle.pearl_rules.specs.declared.entry.Entry.TheVariants.{Clock, Irpt};
ghost use Rattle.pearl_rules.specs.Core.{Happened, value_at};
ghost use Rattle.pearl_rules.specs.Devices.{arrived};
ghost use Rattle.pearl_rules.specs.Entries.{EntryFits, last_moment_of_all};
ghost use Rattle.pearl_rules.specs.Plans.{millisecond};
ghost use Rattle.pearl_rules.specs.Pick.{pick, turned, can_turn as can_turn_in, shown_of};
ghost use Rattle.pearl_rules.specs.Slots.{Fits};
ghost use Rattle.pearl_rules.specs.Tables.{IsSetup, IsInterrupt};
ghost use Rattle.pearl_exchange.specs.Offers.{action_of};
ghost use Rattle.pearl_records.specs.States.{IsRecord};
ghost use Rattle.pearl_records.specs.Records.{record_of, core_made, untold};
ghost use Rattle.pearl_kernel.specs.Kept.{at_start, from_record, offered as offered_of, taken, IsLawful, IsToldNext, Marks, NamesWhatIsThere};
ghost use Rattle.pearl_kernel.specs.Kept.{is_unsettled as is_unsettled_in, IsFirst, AllSettled};
ghost use Rattle.pearl_kernel.specs.Eligible.{possible, entry};
ghost use Rattle.pearl_rules.specs.Laws.{passed};
ghost use Rattle.pearl_kernel.specs.Timing.{timetable, IsQuiet};

use crate::due::serve_due;
use crate::standing::Standing;
use crate::state::State;
use pearl_exchange::heard::{Beside, Heard};
use pearl_exchange::offer::Offer;
use pearl_records::laws::{
    cores_stay_recordable, made_cores_are_recordable, records_make_the_same_core,
    what_is_recorded_is_lawful,
};
use pearl_records::record::CoreRecord;
use pearl_rules::entry::Entry;
use pearl_rules::event::{Event, Shown};
use pearl_rules::row::Mode;
use pearl_rules::setup::Setup;
use pearl_value::cell::Cell;
use std::alloc::{AllocError, Global};
use std::marker::Model;

/// What became of the task that was to act.
#[derive(Clone, Copy)]
pub enum Acted {
    /// No task can act.
    Idle,
    /// It goes on, and hears this.
    Went(u32, Heard),
    /// It ended.
    Ended(u32),
}

/// The core, with the actions that the tasks offer. Contracts see both, and of what was told what wasn't taken yet.
#[derive(Drop)]
pub struct Kernel {
    state: State,
    standing: Standing,
    // The place of the action that is being done.
    acting: Box<Offer>,
}

impl Model for Kernel {
    ghost use Rattle.pearl_kernel.specs.Kept.{Kept};
    ghost use Rattle.pearl_kernel.specs.Whole.{IsWhole};

    ghost Value = { Kept };

    ghost view = { λ k. k.state };

    ghost invariant = { λ k. IsWhole k.state k.standing };
}

impl Kernel {
    /// The kernel at the start of a run. It takes all the memory that the run needs.
    pub fn new(alloc: Global, setup: &Setup) -> Result<Kernel, AllocError>
        requires { IsSetup setup.now }
        ensures opening { IfOk result (λ k. k ≡ at_start setup.now) }
        ensures lawful { IfOk result (IsLawful setup.now) }
    {
        let state = State::new(alloc, setup)?;
        let standing = Standing::new(alloc, state.tasks())?;
        let acting = Box::new(alloc, Offer::new())?;
        Ok(Kernel {
            state,
            standing,
            acting,
        })
    }

    /// The kernel that is made of a record, over some tables. It takes all the memory that the run needs.
    pub fn from_record(
        alloc: Global,
        setup: &Setup,
        core: &CoreRecord,
    ) -> Result<Kernel, AllocError>
        requires setup { IsSetup setup.now }
        requires record { IsRecord setup.now core.now }
        ensures restored { IfOk result (λ k. k ≡ from_record setup.now core.now) }
        ensures lawful { IfOk result (IsLawful setup.now) }
    {
        made_cores_are_recordable();
        let state = State::from_record(alloc, setup, core)?;
        let standing = Standing::new(alloc, state.tasks())?;
        let acting = Box::new(alloc, Offer::new())?;
        Ok(Kernel {
            state,
            standing,
            acting,
        })
    }

    /// What is recorded of the core: of what is still to be told nothing is, nor of what tasks have offered.
    pub fn recorded(&self, alloc: Global) -> Result<CoreRecord, AllocError>
        ensures record { IfOk result (λ core. core ≡ record_of self.now.core) }
        ensures lawful { IfOk result (λ core. (setup : Tables.Setup) → IsLawful setup self.now →
            IsRecord setup core × (core_made setup core ≡ untold self.now.core)) }
    {
        records_make_the_same_core();
        what_is_recorded_is_lawful();
        self.state.recorded(alloc)
    }

    /// The first active task that has offered nothing.
    pub fn unsettled(&self) -> Option<u32>
        ensures { MatchOption result (AllSettled self.now) (IsFirst self.now) }
    {
        self.state.unsettled()
    }

    /// A task offers its next action. It is taken out of its place, and what lies there then doesn't matter.
    pub fn offered(&mut self, task: u32, offer: &mut Box<Offer>)
        requires unsettled { is_unsettled_in self.old task ≡ true }
        requires fits { (setup : Tables.Setup) × IsLawful setup self.old × Fits setup (action_of offer.old.value) }
        ensures offers { self.new ≡ record self.old { offers = slice_set self.old.offers task (Some (action_of offer.old.value)) } }
        ensures lawful { (setup : Tables.Setup) → IsLawful setup self.old → Fits setup (action_of offer.old.value) →
            IsLawful setup self.new }
    {
        self.state.set_offer(task, offer);
        self.standing.offered(&self.state, task);
    }

    /// The task that acts next does its action. It is called once every active task has offered one; it doesn't ask for
    /// that, and goes by those that have. The values that it hears come to lie in `beside`.
    pub fn act(&mut self, beside: &mut Beside) -> Acted
        requires { self.old.core.told ≡ [] }
        ensures acted { Marks self.old self.new result beside.new }
        ensures lawful { (setup : Tables.Setup) → IsLawful setup self.old → IsLawful setup self.new }
    {
        cores_stay_recordable();
        let Some(task) = self.picked() else {
            return Acted::Idle;
        };
        if !self.state.take_offer(task, &mut self.acting) {
            return Acted::Idle;
        }
        let done = self.state.act(task, &self.acting, beside);
        let list = self.acting.list.as_slice();
        self.standing.renew(&self.state, task, list, done.touched);
        done.acted
    }

    /// The task that acts next.
    pub fn picked(&self) -> Option<u32>
        ensures picked { result ≡ pick self.now.core (offered_of self.now) }
        ensures there { IfSome result (λ t. t < length self.now.core.tasks) }
    {
        let task = self.standing.best(self.state.last())?;
        Some(task as u32)
    }

    /// It is a task's turn, where it can be: the task counts as the one that acted last.
    pub fn turn(&mut self, task: u32)
        ensures turned { self.new ≡ record self.old { core = turned self.old.core (offered_of self.old) task } }
        ensures lawful { (setup : Tables.Setup) → IsLawful setup self.old → IsLawful setup self.new }
    {
        if self.can_turn(task) {
            self.state.set_last(task);
        }
    }

    fn can_turn(&self, task: u32) -> bool
        ensures { result ≡ can_turn_in self.now.core (offered_of self.now) task }
    {
        let Some(best) = self.picked() else {
            return false;
        };
        match self.entry(task) {
            None => false,
            entry => entry == self.entry(best),
        }
    }

    // Whether what a task has offered can be done.
    fn is_possible(&self, task: u32) -> bool
        ensures { result ≡ possible self.now task }
    {
        self.standing.is_able(task)
    }

    // The priority number of a task that can act.
    fn entry(&self, task: u32) -> Option<u8>
        ensures { result ≡ entry self.now task }
    {
        self.state.entry_if(task, self.is_possible(task))
    }

    /// The time of day at the start is this one, in milliseconds since midnight.
    pub fn clock(&mut self, time: u32)
        requires { time < 86400000 }
        ensures set { self.new ≡ record self.old { core = arrived self.old.core (Clock time) } }
        ensures lawful { (setup : Tables.Setup) → IsLawful setup self.old → IsLawful setup self.new }
    {
        self.state.set_clock(time);
    }

    /// An interrupt occurs, which is named by its device's number.
    pub fn interrupt(&mut self, device: u32)
        requires told { self.old.core.told ≡ [] }
        requires there { (setup : Tables.Setup) × IsLawful setup self.old × IsInterrupt (slice_get setup.devices device) }
        ensures arrived { self.new ≡ record self.old { core = arrived self.old.core (Irpt device) } }
        ensures lawful { (setup : Tables.Setup) → IsLawful setup self.old → IsLawful setup self.new }
    {
        cores_stay_recordable();
        let changed = self.state.interrupted(device);
        self.standing.renew_if(&self.state, changed);
    }

    /// What an entry of a journal does by itself, whoever could act: the clock is set, an interrupt occurs, or bytes or
    /// a value come in.
    pub fn input(&mut self, entry: &Entry)
        requires told { self.old.core.told ≡ [] }
        requires fits { (setup : Tables.Setup) × IsLawful setup self.old × EntryFits setup self.old.core.moment entry.now }
        ensures arrived { self.new ≡ record self.old { core = arrived self.old.core entry.now } }
        ensures lawful { (setup : Tables.Setup) → IsLawful setup self.old →
            EntryFits setup self.old.core.moment entry.now → IsLawful setup self.new }
    {
        cores_stay_recordable();
        let changed = self.state.arrive(entry);
        self.standing.renew_if(&self.state, changed);
    }

    /// A millisecond passes.
    pub fn tick(&mut self)
        requires told { self.old.core.told ≡ [] }
        requires later { self.old.core.moment + 1 ≤ last_moment_of_all }
        ensures passed { self.new ≡ record self.old { core = millisecond self.old.core } }
        ensures lawful { (setup : Tables.Setup) → IsLawful setup self.old → IsLawful setup self.new }
    {
        cores_stay_recordable();
        self.state.set_moment(self.state.now() + 1);
        serve_due(&mut self.state, &mut self.standing);
    }

    /// So many milliseconds pass, in which no plan fires.
    pub fn skip(&mut self, n: u64)
        requires told { self.old.core.told ≡ [] }
        requires later { self.old.core.moment + n ≤ last_moment_of_all }
        requires quiet { IsQuiet self.old.core n }
        ensures passed { self.new ≡ record self.old { core = passed n self.old.core } }
        ensures lawful { (setup : Tables.Setup) → IsLawful setup self.old → IsLawful setup self.new }
    {
        self.state.skip(n);
    }

    /// The least later moment at which a plan fires.
    pub fn next_due(&mut self) -> Option<u64>
        ensures next { MatchOption result
            (NoneIsNext (IsDue (timetable self.old.core.tasks)) self.old.core.moment)
            (IsNext (IsDue (timetable self.old.core.tasks)) self.old.core.moment) }
        ensures same { self.new ≡ self.old }
    {
        self.state.next_due()
    }

    /// How a task stands; a number that names none is told to be dormant.
    pub fn shown(&self, task: u32) -> Shown
        ensures { result ≡ shown_of self.now.core (offered_of self.now) task }
    {
        self.shown_beside(task, self.picked())
    }

    /// The same beside the task that acts next, so that this one is sought once for all tasks.
    pub fn shown_beside(&self, task: u32, picked: Option<u32>) -> Shown
        requires { picked ≡ pick self.now.core (offered_of self.now) }
        ensures { result ≡ shown_of self.now.core (offered_of self.now) task }
    {
        match self.state.mode(task) {
            Mode::Dormant => Shown::Dormant,
            Mode::Active {
                priority,
                suspended: true,
            } => Shown::Suspended(priority),
            Mode::Active { priority, .. } => {
                if !self.is_possible(task) {
                    Shown::Blocked(priority)
                } else if picked == Some(task) {
                    Shown::Running(priority)
                } else {
                    Shown::Runnable(priority)
                }
            }
        }
    }

    /// A slot's value.
    pub fn slot(&self, slot: u32) -> &Cell
        requires { slot < length self.now.core.slots }
        ensures value { result.now ≡ value_at self.now.core.slots slot }
        ensures is_value { IsValue result.now }
    {
        self.state.slot(slot)
    }

    /// Whether each event was taken.
    pub fn is_told(&self) -> bool
        ensures told { result ≡ true → self.now.core.told ≡ [] }
        ensures left { result ≡ false → self.now.core.told ≢ [] }
    {
        self.state.is_told()
    }

    /// The next event that wasn't taken yet. It stays until [`Kernel::drop_event`].
    pub fn event(&self) -> Option<&Event>
        ensures next { MatchOption result (self.now.core.told ≡ []) (λ event. IsToldNext self.now.core event.now) }
        ensures named { (setup : Tables.Setup) → IsLawful setup self.now →
            IfSome result (λ event. NamesWhatIsThere setup event.now) }
    {
        self.state.event()
    }

    /// The next event is taken, if there is one.
    pub fn drop_event(&mut self)
        ensures taken { self.new ≡ record self.old { core = taken self.old.core } }
        ensures lawful { (setup : Tables.Setup) → IsLawful setup self.old → IsLawful setup self.new }
    {
        self.state.drop_event();
    }

    /// Takes the next event that wasn't taken yet.
    pub fn next_event(&mut self) -> Option<Event>
        ensures rest { MatchOption result ((self.old.core.told ≡ []) × (self.new ≡ self.old))
            (λ e. self.old.core.told ≡ (self.old.core.moment, Happened e) ∷ self.new.core.told) }
        ensures same { self.new ≡ record self.old { core = record self.old.core { told = self.new.core.told } } }
        ensures named { (setup : Tables.Setup) → IsLawful setup self.old → IfSome result (NamesWhatIsThere setup) }
        ensures lawful { (setup : Tables.Setup) → IsLawful setup self.old → IsLawful setup self.new }
    {
        self.state.next_event()
    }

    /// The moment, in milliseconds since the start.
    pub fn now(&self) -> u64
        ensures { result ≡ self.now.core.moment }
    {
        self.state.now()
    }

    /// How many tasks there are.
    pub fn tasks(&self) -> u32
        ensures { result ≡ length self.now.core.tasks }
    {
        self.state.tasks() as u32
    }
}

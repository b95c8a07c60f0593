// The core's state with the offered actions, and its small changes.

ghost use Rattle.std.specs.Prelude.{◌≡◌, ◌≢◌, ◌<◌, ◌≤◌, [], ◌∷◌, ◌++◌, Some, None, true, false};
ghost use Rattle.std.specs.Prelude.{All, IsTrue, IfOk, IfSome, MatchOption, length, nat_le, nat_lt, slice_get, slice_set, if◌then◌else◌};
ghost use Rattle.std.specs.List.{AllByRecursion};
ghost use Rattle.pearl_rules.specs.declared.action.Action as Acting;
ghost use Rattle.pearl_rules.specs.declared.event.Event.TheVariants.{Out};
ghost use Rattle.pearl_timer.specs.Next.{IsNext, NoneIsNext, IsFirstFrom, NoneFrom};
ghost use Rattle.pearl_timer.specs.Timetable.{IsDue, IsTaskDue};
ghost use Rattle.pearl_rules.specs.Core.{Happened, note as noted, is_active as is_active_in, mode_of, row_of, value_at};
ghost use Rattle.pearl_rules.specs.Core.{Switch, Bytes, with_row};
ghost use Rattle.pearl_rules.specs.Counts.{all_free, all_below_most, lowered, raised};
ghost use Rattle.pearl_rules.specs.Devices.{is_enabled as is_enabled_in, channel_of, with_channel, items_of, bytes_at};
ghost use Rattle.pearl_rules.specs.Devices.{without_bytes, values_at, without_value, terminal_room, input_room};
ghost use Rattle.pearl_rules.specs.Scan.{scan as scan_spec};
ghost use Rattle.pearl_rules.specs.Plans.{with_mode};
ghost use Rattle.pearl_rules.specs.Pick.{is_possible as is_possible_in, is_some_value, guard};
ghost use Rattle.pearl_value.specs.Counts.{IsPreset};
ghost use Rattle.pearl_value.specs.WellFormed.{IsTyped};
ghost use Rattle.pearl_sema.specs.Waiting.{AreThere, IsNext as IsNextWaiter, NoneIsNext as NoneIsNextWaiter};
ghost use Rattle.pearl_value.specs.Kinds.{IsKind};
ghost use Rattle.pearl_exchange.specs.Offers.{action_of};
ghost use Rattle.pearl_kernel.specs.Channels.{HasSwitch, HasBytes, HasValuesFor, taken_in_of};
ghost use Rattle.pearl_scan.specs.Answers.{told};
ghost use Rattle.pearl_records.specs.States.{AllEnd, IsRecord};
ghost use Rattle.pearl_records.specs.Records.{record_of};
ghost use Rattle.pearl_rules.specs.Tables.{IsSetup};
ghost use Rattle.pearl_kernel.specs.Kept.{at_start, from_record, offered as offered_of, taken, IsToldNext};
ghost use Rattle.pearl_kernel.specs.Kept.{is_silent as is_silent_in, AllSettled, IsFirst as IsFirstUnsettled};
ghost use Rattle.pearl_kernel.specs.Names.{Names};
ghost use Rattle.pearl_kernel.specs.Timing.{timetable};
ghost use Rattle.pearl_kernel.specs.Requests.{requests};
ghost use Rattle.pearl_kernel.specs.Listening.{IsNextListener, NoneListens};
ghost use Rattle.pearl_kernel.specs.Eligible.{entry_if};
ghost use Rattle.pearl_kernel.specs.Changes.{renewed, renewed_offer};

use crate::bid::Bid;
use crate::changes::{Changed, looks_at};
use crate::channel::Channel;
use crate::gets::{add_at, ask_each, ask_first, bytes_of, drop_at, items_of};
use crate::happened::Told;
use crate::listening::{awaited, device_of, leave, listen, next_at};
use crate::mirror::{keep_request, keep_row};
use crate::opening::{
    copied_formats, copied_values, first_channels, first_rows, no_offers, no_progress, tell_starts,
};
use crate::recorded::{
    channels_made, counts_made, counts_recorded, inputs_recorded, switches_recorded,
    terminals_recorded, timer_of,
};
use crate::unsettled::{first_bits, is_awake, put};
use arrayvec::ArrayVec;
use pearl_bits::words::{clear, first, lower};
use pearl_cells::put::put_copy;
use pearl_exchange::offer::{Offer, What};
use pearl_format::item::Item;
use pearl_records::record::CoreRecord;
use pearl_records::rows::{rows_made, rows_recorded};
use pearl_rules::event::Event;
use pearl_rules::row::{Mode, TaskRow};
use pearl_rules::setup::Setup;
use pearl_scan::progress::Progress;
use pearl_scan::scan::{Scanned, scan};
use pearl_sema::semas::Semas;
use pearl_timer::timer::Timer;
use pearl_value::cell::Cell;
use pearl_value::kind::Kind;
use pearl_value::listing::Listing;
use std::alloc::{AllocError, Global};
use std::marker::Model;

/// The core, and of each task the action that it has offered.
#[derive(Drop)]
pub struct State {
    rows: Vec<TaskRow>,
    // The series of the rows' plans.
    timer: Timer,
    offers: Vec<Bid>,
    // A bit for each task, which is set where it is active and has offered nothing.
    unsettled: Vec<u64>,
    slots: Vec<Cell>,
    // Of each task it notes the semaphores that its request names.
    semas: Semas,
    channels: Vec<Channel>,
    formats: Vec<Listing<Item>>,
    // Of each task that offers a GET how far that has come in the bytes that wait.
    progress: Vec<Progress>,
    // Four words of bits for each device, in which a task's bit is set where its offer waits there.
    listening: Vec<u64>,
    last: Option<usize>,
    moment: u64,
    clock: u32,
    events: Told,
}

impl Model for State {
    ghost use Rattle.std.specs.Prelude.{◌≡◌, length};
    ghost use Rattle.pearl_kernel.specs.Kept.{Kept, stamped};
    ghost use Rattle.pearl_kernel.specs.Timing.{timetable};
    ghost use Rattle.pearl_kernel.specs.Requests.{requests};
    ghost use Rattle.pearl_kernel.specs.Unsettled.{AreUnsettled};
    ghost use Rattle.pearl_kernel.specs.Gets.{AreAsked};
    ghost use Rattle.pearl_kernel.specs.Listening.{AreListening};

    ghost Value = { Kept };

    ghost view = { λ s. record {
      core = record {
        moment = s.moment;
        clock = s.clock;
        tasks = s.rows.items;
        slots = s.slots.items;
        counts = s.semas.counts;
        channels = s.channels.items;
        formats = s.formats.items;
        last = s.last;
        told = stamped s.moment s.events;
      };
      offers = s.offers.items;
    } };

    ghost invariant = { λ s. (s.timer ≡ timetable s.rows.items) × (s.semas.waiting ≡ requests s.offers.items)
        × AreUnsettled s.rows.items s.offers.items s.unsettled.items
        × AreAsked s.offers.items s.formats.items s.channels.items s.progress.items
        × AreListening (length s.channels.items) s.offers.items s.listening.items };
}

impl State {
    /// The state at the start of a run.
    pub fn new(alloc: Global, setup: &Setup) -> Result<State, AllocError>
        requires tasks { length setup.now.tasks ≤ 200 }
        requires semaphores { AllByRecursion IsPreset setup.now.semaphores }
        requires devices { length setup.now.devices ≤ 396 }
        ensures { IfOk result (λ s. s ≡ at_start setup.now) }
    {
        let tasks = setup.tasks.as_slice();
        let rows = first_rows(alloc, tasks)?;
        let timer = Timer::new(alloc, tasks.len())?;
        let offers = no_offers(alloc, tasks.len())?;
        let unsettled = first_bits(alloc, rows.as_slice())?;
        let slots = copied_values(alloc, setup.slots.as_slice())?;
        let semas = Semas::new(alloc, setup.semaphores.as_slice(), tasks.len())?;
        let channels = first_channels(alloc, setup.devices.as_slice())?;
        let formats = copied_formats(alloc, setup.formats.as_slice())?;
        let progress = no_progress(alloc, tasks.len())?;
        let listening = clear(alloc, channels.len() * 4)?;
        let mut events = Told::new(alloc)?;
        tell_starts(tasks, &mut events);
        Ok(State {
            rows,
            timer,
            offers,
            unsettled,
            slots,
            semas,
            channels,
            formats,
            progress,
            listening,
            last: None,
            moment: 0,
            clock: 0,
            events,
        })
    }

    /// The state that is made of a record, over some tables. Nothing is told, and nothing is offered.
    pub fn from_record(alloc: Global, setup: &Setup, core: &CoreRecord) -> Result<State, AllocError>
        requires setup { IsSetup setup.now }
        requires record { IsRecord setup.now core.now }
        ensures { IfOk result (λ s. s ≡ from_record setup.now core.now) }
    {
        let tasks = setup.tasks.as_slice().len();
        let rows = rows_made(alloc, setup, core.tasks.as_slice())?;
        let timer = timer_of(alloc, rows.as_slice())?;
        let offers = no_offers(alloc, tasks)?;
        let unsettled = first_bits(alloc, rows.as_slice())?;
        let slots = copied_values(alloc, core.slots.as_slice())?;
        let counts = counts_made(alloc, core.counts.as_slice())?;
        let semas = Semas::new(alloc, counts.as_slice(), tasks)?;
        let channels = channels_made(alloc, setup, core)?;
        let formats = copied_formats(alloc, setup.formats.as_slice())?;
        let progress = no_progress(alloc, tasks)?;
        let listening = clear(alloc, channels.len() * 4)?;
        let events = Told::new(alloc)?;
        let last = match core.last {
            None => None,
            Some(task) => Some(task as usize),
        };
        Ok(State {
            rows,
            timer,
            offers,
            unsettled,
            slots,
            semas,
            channels,
            formats,
            progress,
            listening,
            last,
            moment: core.moment,
            clock: core.clock as u32,
            events,
        })
    }

    /// What is recorded of the core.
    pub fn recorded(&self, alloc: Global) -> Result<CoreRecord, AllocError>
        ensures record { IfOk result (λ core. core ≡ record_of self.now.core) }
        ensures ends { IfOk result AllEnd }
    {
        let channels = self.channels.as_slice();
        let last = match self.last {
            None => None,
            Some(task) => Some(task as u64),
        };
        Ok(CoreRecord {
            moment: self.moment,
            clock: self.clock as u64,
            last,
            slots: Listing::new(copied_values(alloc, self.slots.as_slice())?),
            counts: counts_recorded(alloc, self.semas.counts())?,
            switches: switches_recorded(alloc, channels)?,
            terminals: terminals_recorded(alloc, channels)?,
            inputs: inputs_recorded(alloc, channels)?,
            tasks: rows_recorded(alloc, self.rows.as_slice())?,
        })
    }

    /// How many tasks there are.
    pub fn tasks(&self) -> usize
        ensures { result ≡ length self.now.core.tasks }
    {
        self.rows.len()
    }

    /// How a task stands.
    pub fn mode(&self, task: u32) -> Mode
        ensures { result ≡ mode_of self.now.core task }
    {
        match self.rows.get(task as usize) {
            None => Mode::Dormant,
            Some(row) => row.mode,
        }
    }

    /// Whether a task is active.
    pub fn is_active(&self, task: u32) -> bool
        ensures { result ≡ is_active_in self.now.core task }
    {
        match self.rows.get(task as usize) {
            None => false,
            Some(row) => row.mode != Mode::Dormant,
        }
    }

    /// The first task that is active and has offered nothing. It looks at four words, however many tasks there are.
    pub fn unsettled(&self) -> Option<u32>
        ensures { MatchOption result (AllSettled self.now) (IsFirstUnsettled self.now) }
    {
        match first(self.unsettled.as_slice(), 0, 4) {
            None => None,
            Some(task) => Some(task as u32),
        }
    }

    fn is_silent(&self, task: u32) -> bool
        ensures { result ≡ is_silent_in (offered_of self.now task) }
    {
        match self.offer(task) {
            None => true,
            Some(_) => false,
        }
    }

    // What a task has offered.
    fn offer(&self, task: u32) -> Option<&Offer>
        ensures { MatchOption result (offered_of self.now task ≡ None)
            (λ offer. offered_of self.now task ≡ Some (action_of offer.now)) }
    {
        self.offers.get(task as usize)?.offer()
    }

    /// A task's row.
    pub fn row(&self, task: u32) -> TaskRow
        requires { task < length self.now.core.tasks }
        ensures { row_of self.now.core task ≡ Some result }
    {
        self.rows[task as usize]
    }

    /// A task has this row from now on.
    pub fn set_row(&mut self, task: u32, row: TaskRow)
        requires { task < length self.old.core.tasks }
        ensures { self.new ≡ record self.old { core = with_row self.old.core task row } }
    {
        let place = task as usize;
        let silent = self.is_silent(task);
        keep_row(&mut self.timer, place, &row);
        put(&mut self.unsettled, place, is_awake(row.mode), silent);
        self.rows[place] = row;
    }

    /// A task stands so from now on.
    pub fn set_mode(&mut self, task: u32, mode: Mode)
        requires { task < length self.old.core.tasks }
        ensures { self.new ≡ record self.old { core = with_mode self.old.core task mode } }
    {
        let mut row = self.row(task);
        row.mode = mode;
        self.set_row(task, row);
    }

    /// The least later moment at which a plan fires.
    pub fn next_due(&mut self) -> Option<u64>
        ensures next { MatchOption result
            (NoneIsNext (IsDue (timetable self.old.core.tasks)) self.old.core.moment)
            (IsNext (IsDue (timetable self.old.core.tasks)) self.old.core.moment) }
        ensures same { self.new ≡ self.old }
    {
        self.timer.next_due(self.moment)
    }

    /// The first task from one on of which a plan fires now.
    pub fn due_task(&self, from: usize) -> Option<usize>
        ensures { let core = self.now.core in
            MatchOption result (NoneFrom (IsTaskDue (timetable core.tasks) core.moment) from)
            (IsFirstFrom (IsTaskDue (timetable core.tasks) core.moment) from) }
    {
        self.timer.next_task(from, self.moment)
    }

    /// One more event.
    pub fn note(&mut self, event: Event)
        requires { length self.old.core.told < 200 }
        ensures { self.new ≡ record self.old { core = noted self.old.core event } }
    {
        self.events.note(event);
    }

    /// One more event: a text was written to a terminal.
    pub fn note_text(&mut self, device: u32, text: &ArrayVec<u8, 1024>)
        requires { length self.old.core.told < 200 }
        ensures { self.new ≡ record self.old { core = noted self.old.core (Out device text.now) } }
    {
        self.events.note_text(device, text);
    }

    pub fn set_last(&mut self, task: u32)
        ensures { self.new ≡ record self.old { core = record self.old.core { last = Some task } } }
    {
        self.last = Some(task as usize);
    }

    /// A task offers this action. What lies in its place then doesn't matter.
    pub fn set_offer(&mut self, task: u32, offer: &mut Box<Offer>)
        requires task { task < length self.old.offers }
        requires names { Names self.old.core (action_of offer.old.value) }
        ensures { self.new ≡ record self.old { offers = slice_set self.old.offers task (Some (action_of offer.old.value)) } }
    {
        let place = task as usize;
        keep_request(&mut self.semas, place, offer);
        lower(&mut self.unsettled, place);
        let formats = self.formats.as_slice();
        let channels = self.channels.as_slice();
        ask_first(&mut self.progress, place, offer, formats, channels);
        leave(&mut self.listening, place, awaited(&self.offers[place]));
        listen(&mut self.listening, place, device_of(offer));
        self.offers[place].put(offer);
    }

    /// What a task has offered is gone.
    pub fn clear_offer(&mut self, task: u32)
        requires { task < length self.old.offers }
        ensures { self.new ≡ record self.old { offers = slice_set self.old.offers task None } }
    {
        let active = self.is_active(task);
        self.semas.forget(task as usize);
        put(&mut self.unsettled, task as usize, active, true);
        let device = awaited(&self.offers[task as usize]);
        leave(&mut self.listening, task as usize, device);
        self.offers[task as usize].clear();
    }

    /// What a task has offered is in this place from now on. The answer tells whether it had offered anything.
    pub fn take_offer(&mut self, task: u32, into: &mut Box<Offer>) -> bool
        requires { task < length self.old.offers }
        ensures taken { result ≡ true → offered_of self.old task ≡ Some (action_of into.new.value) }
        ensures none { result ≡ false → offered_of self.old task ≡ None }
        ensures rest { self.new ≡ record self.old { offers = slice_set self.old.offers task None } }
    {
        let place = task as usize;
        let active = self.is_active(task);
        self.semas.forget(place);
        put(&mut self.unsettled, place, active, true);
        leave(&mut self.listening, place, awaited(&self.offers[place]));
        self.offers[place].take(into)
    }

    /// The first task whose request names a semaphore among those behind `after`, or among all.
    pub fn waiter(&self, semaphore: u16, after: Option<usize>) -> Option<usize>
        ensures { MatchOption result (NoneIsNextWaiter (requests self.now.offers) semaphore after)
            (IsNextWaiter (requests self.now.offers) semaphore after) }
    {
        self.semas.waiting(semaphore, after)
    }

    /// The first task whose offer waits at a device among those behind `after`, or among all.
    pub fn listener(&self, device: u32, after: Option<usize>) -> Option<usize>
        ensures { MatchOption result (NoneListens self.now.offers device after)
            (IsNextListener self.now.offers device after) }
    {
        next_at(self.listening.as_slice(), device, after)
    }

    /// A slot's value.
    pub fn slot(&self, slot: u32) -> &Cell
        requires { slot < length self.now.core.slots }
        ensures { result.now ≡ value_at self.now.core.slots slot }
    {
        &self.slots[slot as usize]
    }

    /// Puts a slot's value there.
    pub fn read_slot(&self, slot: u32, into: &mut Cell)
        requires { slot < length self.now.core.slots }
        ensures { into.new ≡ value_at self.now.core.slots slot }
    {
        put_copy(into, &self.slots[slot as usize]);
    }

    /// A slot has this value from now on.
    pub fn write_slot(&mut self, slot: u32, value: &Cell)
        requires { slot < length self.old.core.slots }
        ensures { let core = self.old.core in
            self.new ≡ record self.old { core = record core { slots = slice_set core.slots slot value.now } } }
    {
        put_copy(&mut self.slots[slot as usize], value);
    }

    /// Whether each of these semaphores has a count above 0.
    pub fn is_free(&self, list: &ArrayVec<u16, 16>) -> bool
        requires { AreThere self.now.core.counts list.now.items }
        ensures { result ≡ all_free self.now.core.counts list.now.items }
    {
        self.semas.free(list)
    }

    /// Each of these counts is lower by 1.
    pub fn lower(&mut self, list: &ArrayVec<u16, 16>)
        requires list { AreThere self.old.core.counts list.now.items }
        requires free { IsTrue (all_free self.old.core.counts list.now.items) }
        ensures { let core = self.old.core in
            self.new ≡ record self.old { core = record core { counts = lowered core.counts list.now.items } } }
    {
        self.semas.lower(list);
    }

    /// Each of these counts is higher by 1, or where one can't be raised none is.
    pub fn raise(&mut self, list: &ArrayVec<u16, 16>) -> bool
        requires { AreThere self.old.core.counts list.now.items }
        ensures answer { result ≡ all_below_most self.old.core.counts list.now.items }
        ensures raised { let core = self.old.core in
            result ≡ true →
            self.new ≡ record self.old { core = record core { counts = raised core.counts list.now.items } } }
        ensures full { result ≡ false → self.new ≡ self.old }
    {
        self.semas.raise(list)
    }

    /// Whether what a task has offered can be done now.
    pub fn is_possible(&self, task: u32) -> bool
        requires { (a : Acting.Action) → offered_of self.now task ≡ Some a → Names self.now.core a }
        ensures { result ≡ is_possible_in self.now.core (offered_of self.now task) }
    {
        match self.offer(task) {
            None => false,
            Some(offer) => self.can_do(task, offer),
        }
    }

    fn can_do(&self, task: u32, offer: &Offer) -> bool
        requires names { Names self.now.core (action_of offer.now) }
        requires offered { offered_of self.now task ≡ Some (action_of offer.now) }
        ensures { result ≡ guard self.now.core (action_of offer.now) }
    {
        match offer.what {
            What::Request => self.is_free(&offer.list),
            What::Get { .. } => self.progress[task as usize].is_complete(),
            What::Take(device) => self.has_value(device),
            _ => true,
        }
    }

    /// Whether what a task has offered can be done, where this was so before and at most this changed since of what offers
    /// wait for. A task whose offer is gone has none that can be done.
    pub fn renewed(&self, task: u32, changed: Changed, before: bool) -> bool
        requires { (a : Acting.Action) → offered_of self.now task ≡ Some a → Names self.now.core a }
        ensures { result ≡ renewed changed self.now task before }
    {
        match self.offer(task) {
            None => false,
            Some(offer) => self.renewed_action(task, offer, changed, before),
        }
    }

    fn renewed_action(&self, task: u32, offer: &Offer, changed: Changed, before: bool) -> bool
        requires names { Names self.now.core (action_of offer.now) }
        requires offered { offered_of self.now task ≡ Some (action_of offer.now) }
        ensures { result ≡ renewed_offer changed self.now.core (Some (action_of offer.now)) before }
    {
        if looks_at(changed, offer) {
            self.can_do(task, offer)
        } else {
            before
        }
    }

    /// The priority number of a task that can act, where `able` is whether what it has offered can be done.
    pub fn entry_if(&self, task: u32, able: bool) -> Option<u8>
        ensures { result ≡ entry_if self.now task able }
    {
        match self.mode(task) {
            Mode::Active {
                priority,
                suspended: false,
            } => { if able { Some(priority) } else { None } }
            _ => None,
        }
    }

    /// Whether each event was taken.
    pub fn is_told(&self) -> bool
        ensures told { result ≡ true → self.now.core.told ≡ [] }
        ensures left { result ≡ false → self.now.core.told ≢ [] }
    {
        self.events.is_empty()
    }

    /// The next event that wasn't taken.
    pub fn event(&self) -> Option<&Event>
        ensures { MatchOption result (self.now.core.told ≡ []) (λ event. IsToldNext self.now.core event.now) }
    {
        self.events.first()
    }

    /// The next event is taken, if there is one.
    pub fn drop_event(&mut self)
        ensures { self.new ≡ record self.old { core = taken self.old.core } }
    {
        self.events.drop_first();
    }

    /// Takes the next event.
    pub fn next_event(&mut self) -> Option<Event>
        ensures rest { MatchOption result ((self.old.core.told ≡ []) × (self.new ≡ self.old))
            (λ e. self.old.core.told ≡ (self.old.core.moment, Happened e) ∷ self.new.core.told) }
        ensures same { self.new ≡ record self.old { core = record self.old.core { told = self.new.core.told } } }
    {
        self.events.take_first()
    }

    /// The moment.
    pub fn now(&self) -> u64
        ensures { result ≡ self.now.core.moment }
    {
        self.moment
    }

    /// The time of day at the start, in milliseconds since midnight.
    pub fn clock(&self) -> u32
        ensures { result ≡ self.now.core.clock }
    {
        self.clock
    }

    pub fn set_clock(&mut self, time: u32)
        ensures { self.new ≡ record self.old { core = record self.old.core { clock = time } } }
    {
        self.clock = time;
    }

    /// Another moment, where nothing is to be told that happened before.
    pub fn set_moment(&mut self, moment: u64)
        requires { self.old.core.told ≡ [] }
        ensures { self.new ≡ record self.old { core = record self.old.core { moment = moment } } }
    {
        self.moment = moment;
    }

    /// The task that acted last.
    pub fn last(&self) -> Option<usize>
        ensures { result ≡ self.now.core.last }
    {
        self.last
    }

    /// Whether an interrupt is let through.
    pub fn is_enabled(&self, device: u32) -> bool
        ensures { result ≡ is_enabled_in self.now.core device }
    {
        match self.channels.get(device as usize) {
            None => false,
            Some(channel) => channel.is_on(),
        }
    }

    /// How a device stands.
    pub fn channel(&self, device: u32) -> Option<&Channel>
        ensures { MatchOption result (channel_of self.now.core device ≡ None)
            (λ channel. channel_of self.now.core device ≡ Some channel.now) }
    {
        self.channels.get(device as usize)
    }

    /// An interrupt is let through or masked from now on.
    pub fn set_switch(&mut self, device: u32, enabled: bool)
        requires { HasSwitch (channel_of self.old.core device) }
        ensures { self.new ≡ record self.old { core = with_channel self.old.core device (Switch enabled) } }
    {
        self.channels[device as usize] = Channel::switch(enabled);
    }

    /// The oldest bytes of a terminal, so many of them, are gone.
    pub fn drop_bytes(&mut self, device: u32, used: usize)
        requires { HasBytes (channel_of self.old.core device) }
        ensures { self.new ≡ record self.old { core = without_bytes self.old.core device used } }
    {
        drop_at(&mut self.channels, device, used);
        let formats = self.formats.as_slice();
        let channels = self.channels.as_slice();
        ask_each(
            &mut self.progress,
            self.offers.as_slice(),
            self.listening.as_slice(),
            formats,
            channels,
            device,
            true,
        );
    }

    /// Takes the oldest value of an input; none exactly where nothing waits.
    pub fn next_value(&mut self, device: u32) -> Option<Cell>
        requires { device < length self.old.core.channels }
        ensures oldest { result ≡ slice_get (values_at self.old.core device) 0 }
        ensures waiting { self.new ≡ record self.old { core = without_value self.old.core device } }
    {
        self.channels[device as usize].next()
    }

    /// Bytes come in at a terminal, where there is room for all of them. The answer tells whether there is.
    pub fn add_bytes(&mut self, device: u32, text: &[u8]) -> bool
        requires terminal { HasBytes (channel_of self.old.core device) }
        requires typed { All IsTyped text.now }
        ensures room { result ≡ nat_le (length (bytes_at self.old.core device ++ text.now)) terminal_room }
        ensures waiting { self.new ≡ (if result then record self.old {
          core = with_channel self.old.core device (Bytes (bytes_at self.old.core device ++ text.now));
        } else self.old) }
    {
        let kept = add_at(&mut self.channels, device, text);
        let formats = self.formats.as_slice();
        let channels = self.channels.as_slice();
        ask_each(
            &mut self.progress,
            self.offers.as_slice(),
            self.listening.as_slice(),
            formats,
            channels,
            device,
            false,
        );
        kept
    }

    /// A value comes in at an input, where there is room. The answer tells whether there is.
    pub fn take_in(&mut self, device: u32, value: &Cell) -> bool
        requires { HasValuesFor value.now (channel_of self.old.core device) }
        ensures room { result ≡ nat_lt (length (values_at self.old.core device)) input_room }
        ensures waiting { self.new ≡ (if result then record self.old {
          core = with_channel self.old.core device (taken_in_of (channel_of self.old.core device) value.now);
        } else self.old) }
    {
        self.channels[device as usize].take_in(value)
    }

    // The bytes that wait at a terminal.
    fn bytes(&self, device: u32) -> &[u8]
        ensures bytes { result.now ≡ bytes_at self.now.core device }
        ensures within { length result.now ≤ 4096 }
    {
        bytes_of(self.channels.as_slice(), device)
    }

    // The items of a format.
    fn items(&self, format: u32) -> &[Item]
        ensures { result.now ≡ items_of self.now.core format }
    {
        items_of(self.formats.as_slice(), format)
    }

    /// What GET reads from the bytes that wait at a terminal.
    #[inline(never)]
    pub fn scanned(&self, device: u32, format: u32, kinds: &[Kind]) -> Scanned
        requires few { length kinds.now ≤ 64 }
        requires are { AllByRecursion IsKind kinds.now }
        ensures { told result ≡ scan_spec (items_of self.now.core format) kinds.now (bytes_at self.now.core device) }
    {
        scan(self.items(format), kinds, self.bytes(device))
    }

    // Whether a value waits at an input.
    fn has_value(&self, device: u32) -> bool
        ensures { result ≡ is_some_value (values_at self.now.core device) }
    {
        match self.channels.get(device as usize) {
            None => false,
            Some(channel) => channel.has_value(),
        }
    }
}

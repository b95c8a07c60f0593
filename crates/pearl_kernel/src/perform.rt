// What an action does.

ghost use Rattle.std.specs.List.{AllByRecursion};
ghost use Rattle.std.specs.Prelude.{◌≡◌, ℕ, ◌<◌, ◌≤◌, List, [], ◌∷◌, None, IsTrue, true, length, nat_lt};
ghost use Rattle.pearl_rules.specs.Counts.{all_below_most, all_free, count_at, lowered};
ghost use Rattle.pearl_rules.specs.Effect.{Hears, effect, effect_of, finished, again, ending, activated, priority_or_declared, is_at_once};
ghost use Rattle.pearl_rules.specs.Effect.{continues, resuming, prevented, stopping, releasing, trying, getting, taking};
ghost use Rattle.pearl_rules.specs.Devices.{channel_of, interrupted, items_of, bytes_at, values_at, without_bytes};
ghost use Rattle.pearl_rules.specs.Plans.{with_mark, time_at};
ghost use Rattle.pearl_rules.specs.Pick.{guard, is_complete, is_some_value};
ghost use Rattle.pearl_rules.specs.Scan.{scan};
ghost use Rattle.pearl_sema.specs.Waiting.{AreThere};
ghost use Rattle.pearl_rules.specs.declared.action.Answer.TheVariants as answer;
ghost use Rattle.pearl_rules.specs.declared.event.Event.TheVariants as event;
ghost use Rattle.pearl_exchange.specs.declared.heard.Heard.TheVariants.{Nothing, One};
ghost use Rattle.pearl_exchange.specs.declared.heard.Beside as places;
ghost use Rattle.pearl_exchange.specs.Offers.{action_of};
ghost use Rattle.pearl_rules.specs.Core.{note as noted, value_at};
ghost use Rattle.pearl_value.specs.declared.cell.Cell.TheVariants.{Clock};
ghost use Rattle.pearl_kernel.specs.declared.kernel.Acted.TheVariants.{Went};
ghost use Rattle.pearl_kernel.specs.Kept.{after, Replied};
ghost use Rattle.pearl_kernel.specs.Changes.{Stirs};
ghost use Rattle.pearl_kernel.specs.Touched.{reach_of, Leaves};
ghost use Rattle.pearl_value.specs.Kinds.{IsKind};
ghost use Rattle.pearl_kernel.specs.Channels.{HasBytes};
ghost use Rattle.pearl_kernel.specs.Names.{Names};
ghost use Rattle.pearl_kernel.specs.Timing.{IsTimely, IsTimelyStart, IsTimelyRepeat};
ghost use Rattle.pearl_kernel.specs.Whole.{HasRoom};

use crate::changes::{Changed, Touched, touched_if};
use crate::kernel::Acted;
use crate::state::State;
use arrayvec::ArrayVec;
use pearl_cells::put::put_bits;
use pearl_exchange::heard::{Beside, Heard};
use pearl_exchange::offer::{Offer, What};
use pearl_rules::action::{Repeat, Start};
use pearl_rules::event::Event;
use pearl_rules::row::{Activation, Kept, Mode};
use pearl_scan::scan::Scanned;
use pearl_value::cell::{Cell, copy_of};
use pearl_value::kind::Kind;
use pearl_value::trap::Trap;

/// What an action did: what became of its task, and which tasks besides it are touched.
#[derive(Clone, Copy)]
pub struct Done {
    pub acted: Acted,
    pub touched: Touched,
}

impl State {
    /// Does an action of the task `own`, which acted last from now on.
    #[tactic(auto, unfolding(pearl_rules::specs::Effect::effect))]
    pub fn act(&mut self, own: u32, offer: &Offer, beside: &mut Beside) -> Done
        requires room { HasRoom self.old own }
        requires names { Names self.old.core (action_of offer.now) }
        requires able { guard self.old.core (action_of offer.now) ≡ true }
        ensures state { self.new ≡ after self.old (effect self.old.core own (action_of offer.now)) }
        ensures reply { Replied own (effect self.old.core own (action_of offer.now)).reply result.acted beside.new }
        ensures leaves { Leaves own self.old self.new (reach_of offer.now.list.items result.touched) }
    {
        self.set_last(own);
        self.perform(own, offer, beside)
    }

    // One arm for each row of the actions. Those that don't return here touch no other task, and their task hears
    // nothing.
    fn perform(&mut self, own: u32, offer: &Offer, beside: &mut Beside) -> Done
        requires room { HasRoom self.old own }
        requires names { Names self.old.core (action_of offer.now) }
        requires able { guard self.old.core (action_of offer.now) ≡ true }
        ensures state { self.new ≡ after self.old (effect_of self.old.core own (action_of offer.now)) }
        ensures reply { Replied own (effect_of self.old.core own (action_of offer.now)).reply result.acted beside.new }
        ensures leaves { Leaves own self.old self.new (reach_of offer.now.list.items result.touched) }
    {
        match offer.what {
            What::Read(slot) => return self.read(own, slot, beside),
            What::Write(slot) => self.write_slot(slot, &offer.value),
            What::Turn | What::Enter => {}
            What::Now => return self.tell_time(own, beside),
            What::Request => return self.request(own, &offer.list),
            What::Release => return self.release(own, &offer.list),
            What::Try(semaphore) => return self.attempt(own, semaphore, beside),
            What::Activate { task, priority } => {
                return self.activate(own, task, offer.start, offer.repeat, priority);
            }
            What::Continue(task) => return self.continue_task(own, task, offer.start),
            What::Resume => self.resume(own, offer.start),
            What::Suspend(task) => return self.suspend(own, task),
            What::Terminate(task) => return self.stop(own, task),
            What::Prevent(task) => return self.prevent(own, task),
            What::Enable(device) => self.set_switch(device, true),
            What::Disable(device) => self.set_switch(device, false),
            What::Trigger(device) => return self.trigger(own, device),
            What::Put(device) => self.write_out(device, &offer.text),
            What::End => return self.end(own, Event::End(own)),
            What::Trap(trap) => return self.end(own, Event::Trap { task: own, trap }),
            What::Get { device, format } => {
                return self.get(own, device, format, offer.kinds.as_slice(), beside);
            }
            What::Take(device) => return self.take(own, device, beside),
            What::Send(device) => self.send(device, &offer.value),
        }
        goes_on(own, Touched::Own)
    }

    // A slot's value.
    fn read(&mut self, own: u32, slot: u32, beside: &mut Beside) -> Done
        requires { slot < length self.old.core.slots }
        ensures state { self.new ≡ self.old }
        ensures reply { Replied own (Hears (answer.One (value_at self.old.core.slots slot))) result.acted beside.new }
        ensures leaves { (list : List ℕ) → Leaves own self.old self.new (reach_of list result.touched) }
    {
        self.read_slot(slot, &mut beside.one);
        hears(own, Touched::Own)
    }

    // The time of day.
    fn tell_time(&mut self, own: u32, beside: &mut Beside) -> Done
        requires { IsTimely self.old.core }
        ensures state { self.new ≡ self.old }
        ensures reply { Replied own (Hears (answer.One (Clock (time_at self.old.core self.old.core.moment)))) result.acted beside.new }
        ensures leaves { (list : List ℕ) → Leaves own self.old self.new (reach_of list result.touched) }
    {
        beside.one = Cell::Clock(self.time_at(self.now()));
        hears(own, Touched::Own)
    }

    // A text is written to a terminal.
    fn write_out(&mut self, device: u32, text: &ArrayVec<u8, 1024>)
        requires { length self.old.core.told < 200 }
        ensures { self.new ≡ record self.old { core = noted self.old.core (event.Out device text.now) } }
    {
        self.note_text(device, text);
    }

    // A value is sent to an output.
    fn send(&mut self, device: u32, value: &Cell)
        requires { length self.old.core.told < 200 }
        ensures { self.new ≡ record self.old { core = noted self.old.core (event.Send device value.now) } }
    {
        let value = copy_of(value);
        self.note(Event::Send { device, value });
    }

    // The task ends, and this event tells it.
    fn end(&mut self, own: u32, event: Event) -> Done
        requires { HasRoom self.old own }
        ensures state { self.new ≡ after self.old (ending self.old.core own event) }
        ensures reply { (beside : places.Beside) → Replied own (ending self.old.core own event).reply result.acted beside }
        ensures leaves { (list : List ℕ) → Leaves own self.old self.new (reach_of list result.touched) }
    {
        self.finish(own, event);
        Done {
            acted: Acted::Ended(own),
            touched: Touched::Own,
        }
    }

    // A task ends, and its offer is gone. Where it kept starts it is started with the oldest.
    fn finish(&mut self, task: u32, event: Event)
        requires { HasRoom self.old task }
        ensures { self.new ≡ after self.old (ending self.old.core task event) }
    {
        let kept = self.kept(task);
        self.clear_offer(task);
        self.make_dormant(task, event);
        self.start_again(task, kept);
    }

    // A task becomes dormant, which this event tells. What it kept is gone, and so is the plan by which it goes on.
    fn make_dormant(&mut self, task: u32, event: Event)
        requires there { task < length self.old.core.tasks }
        requires room { self.old.core.told ≡ [] }
        ensures state { self.new ≡ record self.old { core = noted (finished self.old.core task) event } }
        ensures there { task < length self.new.core.tasks }
        ensures room { length self.new.core.told ≡ 1 }
    {
        let mut row = self.row(task);
        row.mode = Mode::Dormant;
        row.kept = Kept::Nothing;
        row.continuation = None;
        self.set_row(task, row);
        self.note(event);
    }

    // A dormant task is started with the oldest of these, if there is one, and keeps the others.
    fn start_again(&mut self, task: u32, kept: Kept)
        requires there { task < length self.old.core.tasks }
        requires room { length self.old.core.told ≡ 1 }
        ensures { self.new ≡ record self.old { core = again kept self.old.core task } }
    {
        if let Some((first, others)) = kept.oldest() {
            self.make_active(task, first, others);
        }
    }

    // A start of a task, now or by a plan, with this priority or with the declared one.
    fn activate(
        &mut self,
        own: u32,
        task: u32,
        start: Start,
        repeat: Repeat,
        priority: Option<u8>,
    ) -> Done
        requires task { task < length self.old.core.tasks }
        requires room { self.old.core.told ≡ [] }
        requires timely { IsTimely self.old.core }
        requires plan { IsTimelyStart start × IsTimelyRepeat repeat }
        ensures state { let core = self.old.core in
            self.new ≡ record self.old { core = activated core task start repeat (priority_or_declared core task priority) } }
        ensures reply { result.acted ≡ Went own Nothing }
        ensures leaves { (list : List ℕ) → Leaves own self.old self.new (reach_of list result.touched) }
    {
        let priority = match priority {
            None => self.row(task).declared,
            Some(priority) => priority,
        };
        self.begin(task, start, repeat, priority);
        goes_on(own, Touched::Other(task))
    }

    // A start of a task with this priority, now or by a plan.
    fn begin(&mut self, task: u32, start: Start, repeat: Repeat, priority: u8)
        requires task { task < length self.old.core.tasks }
        requires room { self.old.core.told ≡ [] }
        requires timely { IsTimely self.old.core }
        requires plan { IsTimelyStart start × IsTimelyRepeat repeat }
        ensures { self.new ≡ record self.old { core = activated self.old.core task start repeat priority } }
    {
        if is_at_once(start, repeat) {
            self.start(task, priority);
        } else {
            let plan = self.planned(start, repeat);
            self.plan_activation(task, Activation { plan, priority });
        }
    }

    // A suspended task goes on, now or by a plan.
    fn continue_task(&mut self, own: u32, task: u32, start: Start) -> Done
        requires task { task < length self.old.core.tasks }
        requires timely { IsTimely self.old.core }
        requires plan { IsTimelyStart start }
        ensures state { self.new ≡ record self.old { core = continues self.old.core task start } }
        ensures reply { result.acted ≡ Went own Nothing }
        ensures leaves { (list : List ℕ) → Leaves own self.old self.new (reach_of list result.touched) }
    {
        self.go_on_from(task, start);
        goes_on(own, Touched::Other(task))
    }

    fn go_on_from(&mut self, task: u32, start: Start)
        requires task { task < length self.old.core.tasks }
        requires timely { IsTimely self.old.core }
        requires plan { IsTimelyStart start }
        ensures { self.new ≡ record self.old { core = continues self.old.core task start } }
    {
        if is_at_once(start, Repeat::Once) {
            self.mark(task, false);
        } else if self.is_active(task) {
            let plan = self.planned(start, Repeat::Once);
            self.plan_continuation(task, plan);
        }
    }

    // A task suspends itself, and goes on by a plan.
    fn resume(&mut self, own: u32, start: Start)
        requires task { own < length self.old.core.tasks }
        requires timely { IsTimely self.old.core }
        requires plan { IsTimelyStart start }
        ensures { self.new ≡ record self.old { core = resuming self.old.core own start } }
    {
        let plan = self.planned(start, Repeat::Once);
        self.mark(own, true);
        self.plan_continuation(own, plan);
    }

    // A task is suspended.
    fn suspend(&mut self, own: u32, task: u32) -> Done
        requires { task < length self.old.core.tasks }
        ensures state { self.new ≡ record self.old { core = with_mark self.old.core task true } }
        ensures reply { result.acted ≡ Went own Nothing }
        ensures leaves { (list : List ℕ) → Leaves own self.old self.new (reach_of list result.touched) }
    {
        self.mark(task, true);
        goes_on(own, Touched::Other(task))
    }

    // Both plans of a task are gone, and all starts that it kept.
    fn prevent(&mut self, own: u32, task: u32) -> Done
        requires { task < length self.old.core.tasks }
        ensures state { self.new ≡ record self.old { core = prevented self.old.core task } }
        ensures reply { result.acted ≡ Went own Nothing }
        ensures leaves { (list : List ℕ) → Leaves own self.old self.new (reach_of list result.touched) }
    {
        let mut row = self.row(task);
        row.kept = Kept::Nothing;
        row.continuation = None;
        row.activation = None;
        self.set_row(task, row);
        goes_on(own, Touched::Other(task))
    }

    // An end from outside.
    fn stop(&mut self, own: u32, task: u32) -> Done
        requires { HasRoom self.old task }
        ensures state { self.new ≡ after self.old (stopping self.old.core own task) }
        ensures reply { (beside : places.Beside) → Replied own (stopping self.old.core own task).reply result.acted beside }
        ensures leaves { (list : List ℕ) → Leaves own self.old self.new (reach_of list result.touched) }
    {
        match self.mode(task) {
            Mode::Dormant => {}
            Mode::Active { .. } => self.finish(task, Event::Stop(task)),
        }
        Done {
            acted: if task == own {
                Acted::Ended(own)
            } else {
                Acted::Went(own, Heard::Nothing)
            },
            touched: Touched::Other(task),
        }
    }

    // Each of these counts is lower by 1.
    fn request(&mut self, own: u32, list: &ArrayVec<u16, 16>) -> Done
        requires list { AreThere self.old.core.counts list.now.items }
        requires free { IsTrue (all_free self.old.core.counts list.now.items) }
        ensures state { let core = self.old.core in
            self.new ≡ record self.old { core = record core { counts = lowered core.counts list.now.items } } }
        ensures reply { result.acted ≡ Went own Nothing }
        ensures leaves { Leaves own self.old self.new (reach_of list.now.items result.touched) }
    {
        self.lower(list);
        goes_on(own, Touched::Named)
    }

    // Each of these counts is higher by 1, or where one can't be raised none is, and the task is broken off.
    fn release(&mut self, own: u32, list: &ArrayVec<u16, 16>) -> Done
        requires room { HasRoom self.old own }
        requires list { AreThere self.old.core.counts list.now.items }
        ensures state { let can_raise = all_below_most self.old.core.counts list.now.items in
            self.new ≡ after self.old (releasing self.old.core own list.now.items can_raise) }
        ensures reply { let can_raise = all_below_most self.old.core.counts list.now.items in
            (beside : places.Beside) → Replied own (releasing self.old.core own list.now.items can_raise).reply result.acted beside }
        ensures leaves { Leaves own self.old self.new (reach_of list.now.items result.touched) }
    {
        if self.raise(list) {
            return goes_on(own, Touched::Named);
        }
        let trap = Trap::SemaLimit;
        self.end(own, Event::Trap { task: own, trap })
    }

    // A semaphore's count is lower by 1 where it is above 0, and the answer tells whether it was.
    fn attempt(&mut self, own: u32, semaphore: u16, beside: &mut Beside) -> Done
        requires { semaphore < length self.old.core.counts }
        ensures state { let free = nat_lt 0 (count_at self.old.core.counts semaphore) in
            self.new ≡ after self.old (trying self.old.core semaphore free) }
        ensures reply { let free = nat_lt 0 (count_at self.old.core.counts semaphore) in
            Replied own (trying self.old.core semaphore free).reply result.acted beside.new }
        ensures leaves { (list : List ℕ) → Leaves own self.old self.new (reach_of list result.touched) }
    {
        let mut list = ArrayVec::new();
        list.push(semaphore);
        if !self.is_free(&list) {
            put_bits(&mut beside.one, 1, 0);
            return hears(own, Touched::Own);
        }
        self.lower(&list);
        put_bits(&mut beside.one, 1, 1);
        hears(own, Touched::One(semaphore))
    }

    // An interrupt occurs; a masked one touches no task.
    fn trigger(&mut self, own: u32, device: u32) -> Done
        requires few { length self.old.core.tasks ≤ 200 }
        requires told { self.old.core.told ≡ [] }
        requires timely { IsTimely self.old.core }
        ensures state { self.new ≡ record self.old { core = interrupted self.old.core device } }
        ensures reply { result.acted ≡ Went own Nothing }
        ensures leaves { (list : List ℕ) → Leaves own self.old self.new (reach_of list result.touched) }
    {
        let changed = self.interrupted(device);
        goes_on(own, touched_if(changed))
    }

    // The values that a terminal's bytes give, or the task is broken off.
    #[inline(never)]
    fn get(
        &mut self,
        own: u32,
        device: u32,
        format: u32,
        kinds: &[Kind],
        beside: &mut Beside,
    ) -> Done
        requires room { HasRoom self.old own }
        requires terminal { HasBytes (channel_of self.old.core device) }
        requires few { length kinds.now ≤ 64 }
        requires are { AllByRecursion IsKind kinds.now }
        requires able { is_complete (scan (items_of self.old.core format) kinds.now (bytes_at self.old.core device)) ≡ true }
        ensures state { self.new ≡ after self.old (getting self.old.core own device
            (scan (items_of self.old.core format) kinds.now (bytes_at self.old.core device))) }
        ensures reply { Replied own (getting self.old.core own device
            (scan (items_of self.old.core format) kinds.now (bytes_at self.old.core device))).reply result.acted beside.new }
        ensures leaves { (list : List ℕ) → Leaves own self.old self.new (reach_of list result.touched) }
    {
        match self.scanned(device, format, kinds) {
            Scanned::Short => unreachable!(),
            Scanned::Bad(used) => {
                let changed = self.use_up(device, used);
                let trap = Trap::Format;
                self.finish(own, Event::Trap { task: own, trap });
                Done {
                    acted: Acted::Ended(own),
                    touched: touched_if(changed),
                }
            }
            Scanned::Got(used, values) => {
                let changed = self.use_up(device, used);
                beside.many = values;
                Done {
                    acted: Acted::Went(own, Heard::Many),
                    touched: touched_if(changed),
                }
            }
        }
    }

    // The oldest bytes of a terminal, so many of them, are gone. The answer tells what may have changed of all that
    // offers wait for.
    fn use_up(&mut self, device: u32, used: usize) -> Option<Changed>
        requires { HasBytes (channel_of self.old.core device) }
        ensures used { self.new ≡ record self.old { core = without_bytes self.old.core device used } }
        ensures stirs { Stirs self.old.core self.new.core result }
        ensures quiet { used ≡ 0 → result ≡ None }
    {
        if used == 0 {
            return None;
        }
        self.drop_bytes(device, used);
        Some(Changed::Device(device))
    }

    // The oldest value of an input.
    fn take(&mut self, own: u32, device: u32, beside: &mut Beside) -> Done
        requires there { device < length self.old.core.channels }
        requires able { is_some_value (values_at self.old.core device) ≡ true }
        ensures state { self.new ≡ after self.old (taking self.old.core own device (values_at self.old.core device)) }
        ensures reply { Replied own (taking self.old.core own device (values_at self.old.core device)).reply result.acted beside.new }
        ensures leaves { (list : List ℕ) → Leaves own self.old self.new (reach_of list result.touched) }
    {
        match self.next_value(device) {
            None => unreachable!(),
            Some(value) => {
                beside.one = value;
                hears(own, Touched::After(Changed::Device(device)))
            }
        }
    }
}

// The task goes on and hears nothing.
fn goes_on(own: u32, touched: Touched) -> Done
    ensures { result ≡ record { acted = Went own Nothing; touched = touched } }
{
    Done {
        acted: Acted::Went(own, Heard::Nothing),
        touched,
    }
}

// The task goes on and hears one value.
fn hears(own: u32, touched: Touched) -> Done
    ensures { result ≡ record { acted = Went own One; touched = touched } }
{
    Done {
        acted: Acted::Went(own, Heard::One),
        touched,
    }
}

// Whether what is written so is done now, and isn't a plan.
fn is_at_once(start: Start, repeat: Repeat) -> bool
    ensures { result ≡ is_at_once start repeat }
{
    match (start, repeat) {
        (Start::Free, Repeat::Once) => true,
        _ => false,
    }
}

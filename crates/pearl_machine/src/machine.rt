//! The machine, from the start of a run to its end.

ghost use Rattle.std.specs.Prelude.{◌≡◌, ◌≢◌, ◌⊎◌, ℕ, ◌+◌, ◌<◌, ◌≤◌, List, [], ◌∷◌, ◌++◌, None, true};
ghost use Rattle.std.specs.Prelude.{IfOk, IfSome, OnOk, OnErr, is_none, is_some, length};
ghost use Rattle.pearl_value.specs.WellFormed.{IsValue};
ghost use Rattle.pearl_rules.specs.Core.{Report, value_at};
ghost use Rattle.pearl_rules.specs.Pick.{states};
ghost use Rattle.pearl_rules.specs.declared.entry.Entry.{Entry};
ghost use Rattle.pearl_rules.specs.declared.entry.Entry.TheVariants.{Run, Tick, Pass};
ghost use Rattle.pearl_rules.specs.Entries.{last_moment_of_all, moment_after, EntryFits};
ghost use Rattle.pearl_rules.specs.Runs.{machine_start, machine_step, machine_offers, unsettled};
ghost use Rattle.pearl_rules.specs.Runs.{Tells, Turns, Passes, Arrives};
ghost use Rattle.pearl_instructions.specs.Actions.{IsSlotNumber};
ghost use Rattle.pearl_instructions.specs.Engines.{engine};
ghost use Rattle.pearl_instructions.specs.Setups.{setup_of};
ghost use Rattle.pearl_io.specs.Outside.{Takes, TakesFront, WriteFailed};
ghost use Rattle.pearl_script.specs.Lines.{close_line as line_of_close, lines_of};
ghost use Rattle.pearl_kernel.specs.Timing.{IsQuiet};
ghost use Rattle.pearl_machine.specs.Seen.{Seen, Handles, SettledBy, ActedBy, Makes, TakesNext};
ghost use Rattle.pearl_machine.specs.Seen.{NobodyActs, Skips, PassesSome, picked, retold};
ghost use Rattle.pearl_records.specs.States.{AllEnd};
ghost use Rattle.pearl_saved.specs.Rules.{IsMachineState};
ghost use Rattle.pearl_machine.specs.Resumed.{saved_of, resumed, before_offers};
ghost use Rattle.pearl_machine.specs.Told.{IsCutOff, IsCutBehind, IsCutInLastMark};

use crate::known::laws_hold;
use crate::lines::{known_pick, state_of};
use crate::part::{Part, answer_part, new_parts, settle_part, step_part};
use crate::saved::{filled_parts, saved_stacks};
use crate::tables::setup;
use arrayvec::ArrayVec;
use pearl_exchange::heard::Beside;
use pearl_exchange::offer::Offer;
use pearl_instructions::valid::Valid;
use pearl_io::{Sink, WriteFault, put_all};
use pearl_kernel::{Acted, Kernel};
use pearl_rules::entry::Entry;
use pearl_rules::setup::Setup;
use pearl_saved::laws::{stacks_are_split, stacks_come_back};
use pearl_saved::saved::Saved;
use pearl_script::transcript::{close_line, event_line};
use pearl_solo::stepped::Gave;
use pearl_value::cell::Cell;
use std::alloc::{AllocError, Global};
use std::marker::Model;

/// Executes a valid object. Contracts see the object, and a state of its run that has
/// told only what isn't written yet.
#[derive(Drop)]
pub struct Machine {
    code: Valid,
    setup: Setup,
    kernel: Kernel,
    parts: Vec<Part>,
    // The place of the action that a task offers, and of the values that it hears.
    offer: Box<Offer>,
    beside: Beside,
    // The task of which a state line comes next; where none is due, how many tasks there are.
    due: u32,
}

impl Model for Machine {
    ghost use Rattle.pearl_machine.specs.Seen.{Seen};
    ghost use Rattle.pearl_machine.specs.Ready.{IsReady, seen_of};

    ghost Value = { Seen };

    ghost view = { λ m. seen_of m.code m.kernel m.parts.items m.due };

    ghost invariant = { λ m. IsReady m.code m.setup m.kernel m.parts.items m.due };
}

impl Machine {
    /// The machine at the start of a run. It takes all the memory that the run needs.
    pub fn load(alloc: Global, code: Valid) -> Result<Machine, AllocError>
        ensures object { IfOk result (λ machine. machine.object ≡ code) }
        ensures start { IfOk result (λ machine. machine.state ≡ machine_start (engine code) (setup_of code) []) }
    {
        laws_hold(&code);
        let setup = setup(alloc, &code)?;
        let kernel = Kernel::new(alloc, &setup)?;
        let parts = new_parts(alloc, &code)?;
        let offer = Box::new(alloc, Offer::new())?;
        let due = kernel.tasks();
        Ok(Machine {
            code,
            setup,
            kernel,
            parts,
            offer,
            beside: Beside::new(),
            due,
        })
    }

    /// The machine that goes on from a saved state of an object. It takes all the memory that the run needs.
    pub fn restored(alloc: Global, object: Valid, saved: Saved) -> Result<Machine, AllocError>
        requires state { IsMachineState object saved }
        requires ends { AllEnd saved.core }
        ensures { IfOk result (λ machine. machine ≡ resumed object saved) }
    {
        laws_hold(&object);
        stacks_are_split();
        let setup = setup(alloc, &object)?;
        let kernel = Kernel::from_record(alloc, &setup, &saved.core)?;
        let rows = saved.core.tasks.as_slice();
        let parts = filled_parts(alloc, &object, rows, saved.stacks.as_slice())?;
        let offer = Box::new(alloc, Offer::new())?;
        let due = kernel.tasks();
        Ok(Machine {
            code: object,
            setup,
            kernel,
            parts,
            offer,
            beside: Beside::new(),
            due,
        })
    }

    /// The object.
    pub fn object(&self) -> &Valid
        ensures { result.now ≡ self.now.object }
    {
        &self.code
    }

    /// The tables of the object.
    pub fn setup(&self) -> &Setup
        ensures value { result.now ≡ setup_of self.now.object }
        ensures few { length result.now.tasks ≤ 200 }
        ensures few_devices { length result.now.devices ≤ 396 }
    {
        &self.setup
    }

    /// The moment, in milliseconds since the start.
    pub fn now(&self) -> u64
        ensures { result ≡ self.now.state.core.moment }
    {
        self.kernel.now()
    }

    /// Whether the run's next step is an instruction.
    pub fn unsettled(&self) -> bool
        ensures { result ≡ is_some (unsettled self.now.state) }
    {
        self.kernel.unsettled().is_some()
    }

    /// One instruction of the first task that has offered nothing.
    pub fn instruction(&mut self)
        requires { unsettled self.old.state ≢ None }
        ensures { self.new ≡ record self.old { state = machine_step (engine self.old.object) self.old.state } }
    {
        let task = self.kernel.unsettled().unwrap();
        match step_part(&self.code, &mut self.parts, task, &mut self.offer) {
            Gave::Silent => {}
            Gave::Offered => self.kernel.offered(task, &mut self.offer),
        }
    }

    /// A slot's value.
    pub fn slot(&self, slot: u32) -> &Cell
        requires { IsSlotNumber self.now.object slot }
        ensures value { result.now ≡ value_at self.now.state.core.slots slot }
        ensures is_value { IsValue result.now }
    {
        self.kernel.slot(slot)
    }

    /// Whether nobody can act. Every active task goes on to its next action first, which doesn't change the core.
    pub fn idle(&mut self) -> bool
        ensures idle { result ≡ is_none (picked self.new) }
        ensures object { self.new.object ≡ self.old.object }
        ensures core { self.new.state.core ≡ self.old.state.core }
        ensures settled { unsettled self.new.state ≡ None }
        ensures still { unsettled self.old.state ≡ None → self.new ≡ self.old }
        ensures handles { (from : List Entry) → Handles self.old from from self.new [] }
    {
        self.settle();
        self.nobody_acts()
    }

    // Whether nobody is picked of those that have offered an action.
    fn nobody_acts(&self) -> bool
        ensures { result ≡ is_none (picked self.now) }
    {
        self.kernel.picked().is_none()
    }

    /// Hands the sink the lines of what is told and not written: behind [`Machine::load`] those that open a run. Tests
    /// hold that each line is one piece.
    ///
    /// After [`WriteFault`] some lines were taken whole, of the next one less than all, and the later ones are left.
    pub fn begin<K: Sink>(&mut self, sink: &mut K) -> Result<(), WriteFault>
        ensures same { self.new ≡ retold self.old self.new.state.core.told }
        ensures ok { OnOk result (Takes (K.taken sink.old) (K.taken sink.new)
            (lines_of (setup_of self.old.object) self.old.state.core.told)) }
        ensures all { OnOk result (self.new.state.core.told ≡ []) }
        ensures err { OnErr result (IsCutOff (setup_of self.old.object) (K.taken sink.old) (K.taken sink.new)
            self.old.state.core.told self.new.state.core.told) }
        ensures cause { OnErr result (WriteFailed (K.faults sink.old) (K.faults sink.new) (K.full sink.new)) }
        ensures later { K.faults sink.old ≤ K.faults sink.new }
    {
        self.tell(sink)
    }

    /// Makes all marks of one entry, and hands the sink the lines of what they tell. Tests hold that each line is one
    /// piece.
    ///
    /// After [`WriteFault`] the machine stands right behind a mark of the entry, the last that was made: the lines of
    /// all marks before it were taken whole, and some of its own, of the next one less than all, and the later ones
    /// are left.
    pub fn entry<K: Sink>(&mut self, entry: &Entry, sink: &mut K) -> Result<(), WriteFault>
        requires taken { self.old.state.core.told ≡ [] }
        requires fits { EntryFits (setup_of self.old.object) self.old.state.core.moment entry.now }
        ensures object { self.new.object ≡ self.old.object }
        ensures ok { OnOk result ((told : List (ℕ × Report)) × Handles self.old (entry.now ∷ []) [] self.new told
            × Takes (K.taken sink.old) (K.taken sink.new) (lines_of (setup_of self.old.object) told)) }
        ensures settled { OnOk result (unsettled self.new.state ≡ None) }
        ensures all { OnOk result (self.new.state.core.told ≡ []) }
        ensures moment { OnOk result
            (self.new.state.core.moment ≡ moment_after self.old.state.core.moment entry.now) }
        ensures err { OnErr result ((told : List (ℕ × Report)) × (left : List Entry)
            × Handles self.old (entry.now ∷ []) left self.new told
            × IsCutOff (setup_of self.old.object) (K.taken sink.old) (K.taken sink.new) told self.new.state.core.told) }
        ensures last { OnErr result
            (IsCutInLastMark self.old (entry.now ∷ []) self.new (K.taken sink.old) (K.taken sink.new)) }
        ensures cause { OnErr result (WriteFailed (K.faults sink.old) (K.faults sink.new) (K.full sink.new)) }
        ensures later { K.faults sink.old ≤ K.faults sink.new }
    {
        self.settle();
        match entry {
            Entry::Run(count) => self.run(*count, sink),
            Entry::Tick(count) => self.tick(*count, sink),
            Entry::Pass { times, picks } => self.pass(*times, *picks, sink),
            Entry::Turn(task) => {
                self.turn(*task);
                Ok(())
            }
            Entry::State => {
                self.show();
                self.tell(sink)
            }
            // The others come from outside.
            _ => {
                self.arrive(entry);
                self.finish(sink)
            }
        }
    }

    /// Hands the sink the last lines: how each task stands, and that the run is closed. Tests hold that each line is
    /// one piece.
    ///
    /// After [`WriteFault`] a front of these bytes was taken, and not all, and the lines of states behind the one that
    /// was cut are left. Every active task has gone on to its next action all the same.
    pub fn close<K: Sink>(&mut self, sink: &mut K) -> Result<(), WriteFault>
        requires taken { self.old.state.core.told ≡ [] }
        ensures object { self.new.object ≡ self.old.object }
        ensures settled { unsettled self.new.state ≡ None }
        ensures handles { (from : List Entry) → Handles self.old from from self.new [] }
        ensures ok { OnOk result (Takes (K.taken sink.old) (K.taken sink.new)
            (lines_of (setup_of self.old.object) (states self.new.state.core (machine_offers self.new.state))
            ++ line_of_close self.new.state.core.moment)) }
        ensures all { OnOk result (self.new.state.core.told ≡ []) }
        ensures err { OnErr result (TakesFront (K.taken sink.old) (K.taken sink.new)
            (lines_of (setup_of self.old.object) (states self.new.state.core (machine_offers self.new.state))
            ++ line_of_close self.new.state.core.moment)) }
        ensures left { OnErr result (
            IsCutOff (setup_of self.old.object) (K.taken sink.old) (K.taken sink.new)
            (states self.new.state.core (machine_offers self.new.state)) self.new.state.core.told
            ⊎ IsCutBehind (setup_of self.old.object) (K.taken sink.old) (K.taken sink.new)
            (states self.new.state.core (machine_offers self.new.state)) self.new.state.core.told
            (line_of_close self.new.state.core.moment)) }
        ensures cause { OnErr result (WriteFailed (K.faults sink.old) (K.faults sink.new) (K.full sink.new)) }
        ensures later { K.faults sink.old ≤ K.faults sink.new }
    {
        self.settle();
        self.show();
        self.tell(sink)?;
        let mut line = ArrayVec::new();
        close_line(self.now(), &mut line);
        put_all(sink, line.as_slice())
    }

    // The first task that has offered nothing goes on to its next action, if there is one.
    fn settle_first(&mut self) -> bool
        ensures { SettledBy self.old self.new result }
    {
        let Some(task) = self.kernel.unsettled() else {
            return false;
        };
        settle_part(&self.code, &mut self.parts, task, &mut self.offer);
        self.kernel.offered(task, &mut self.offer);
        true
    }

    /// What is saved of the machine. Every active task goes on to its next action first, which doesn't change the core.
    pub fn saved(&mut self, alloc: Global) -> Result<Saved, AllocError>
        requires taken { self.old.state.core.told ≡ [] }
        ensures object { self.new.object ≡ self.old.object }
        ensures core { self.new.state.core ≡ self.old.state.core }
        ensures settled { unsettled self.new.state ≡ None }
        ensures still { unsettled self.old.state ≡ None → self.new ≡ self.old }
        ensures handles { (from : List Entry) → Handles self.old from from self.new [] }
        ensures saved { IfOk result (λ saved. saved ≡ saved_of self.new.state) }
        // The run can go on from it,
        ensures state { IfOk result (IsMachineState self.new.object) }
        ensures ends { IfOk result (λ saved. AllEnd saved.core) }
        // with the same core and the same stacks.
        ensures again { IfOk result (λ saved. resumed self.new.object saved ≡ before_offers self.new) }
    {
        self.settle();
        self.record(alloc)
    }

    // What is saved of it, where each active task has offered its action.
    fn record(&self, alloc: Global) -> Result<Saved, AllocError>
        requires settled { unsettled self.now.state ≡ None }
        requires taken { self.now.state.core.told ≡ [] }
        ensures saved { IfOk result (λ saved. saved ≡ saved_of self.now.state) }
        ensures state { IfOk result (IsMachineState self.now.object) }
        ensures ends { IfOk result (λ saved. AllEnd saved.core) }
        ensures again { IfOk result (λ saved. resumed self.now.object saved ≡ before_offers self.now) }
    {
        stacks_are_split();
        stacks_come_back();
        let core = self.kernel.recorded(alloc)?;
        let stacks = saved_stacks(alloc, self.parts.as_slice(), core.tasks.as_slice())?;
        Ok(Saved { core, stacks })
    }

    // Every active task goes on to its next action.
    fn settle(&mut self)
        ensures object { self.new.object ≡ self.old.object }
        ensures core { self.new.state.core ≡ self.old.state.core }
        ensures told { self.new.state.core.told ≡ self.old.state.core.told }
        ensures moment { self.new.state.core.moment ≡ self.old.state.core.moment }
        ensures settled { unsettled self.new.state ≡ None }
        ensures still { unsettled self.old.state ≡ None → self.new ≡ self.old }
        ensures handles { (from : List Entry) → Handles self.old from from self.new [] }
    {
        while self.settle_first() {}
    }

    // The task that acts next does its action, if there is one.
    fn act(&mut self) -> bool
        requires settled { unsettled self.old.state ≡ None }
        requires taken { self.old.state.core.told ≡ [] }
        ensures object { self.new.object ≡ self.old.object }
        ensures moment { self.new.state.core.moment ≡ self.old.state.core.moment }
        ensures acted { ActedBy self.old self.new result }
    {
        laws_hold(&self.code);
        match self.kernel.act(&mut self.beside) {
            Acted::Idle => false,
            Acted::Went(task, heard) => {
                answer_part(&self.code, &mut self.parts, task, heard, &self.beside);
                true
            }
            Acted::Ended(_) => true,
        }
    }

    // Up to so many marks, with the lines of each.
    fn run<K: Sink>(&mut self, count: u64, sink: &mut K) -> Result<(), WriteFault>
        requires settled { unsettled self.old.state ≡ None }
        requires taken { self.old.state.core.told ≡ [] }
        ensures object { self.new.object ≡ self.old.object }
        ensures ok { OnOk result ((told : List (ℕ × Report)) × Handles self.old (Run count ∷ []) [] self.new told
            × Takes (K.taken sink.old) (K.taken sink.new) (lines_of (setup_of self.old.object) told)) }
        ensures settled { OnOk result (unsettled self.new.state ≡ None) }
        ensures all { OnOk result (self.new.state.core.told ≡ []) }
        ensures moment { OnOk result (self.new.state.core.moment ≡ self.old.state.core.moment) }
        ensures last { OnErr result
            (IsCutInLastMark self.old (Run count ∷ []) self.new (K.taken sink.old) (K.taken sink.new)) }
        ensures cause { OnErr result (WriteFailed (K.faults sink.old) (K.faults sink.new) (K.full sink.new)) }
        ensures later { K.faults sink.old ≤ K.faults sink.new }
    {
        let mut left = count;
        while left > 0 {
            if !self.act() {
                return Ok(());
            }
            left -= 1;
            self.tell(sink)?;
            self.settle();
        }
        Ok(())
    }

    // So many milliseconds, with the lines of each; nobody acts.
    fn tick<K: Sink>(&mut self, count: u64, sink: &mut K) -> Result<(), WriteFault>
        requires settled { unsettled self.old.state ≡ None }
        requires taken { self.old.state.core.told ≡ [] }
        requires later { self.old.state.core.moment + count ≤ last_moment_of_all }
        ensures object { self.new.object ≡ self.old.object }
        ensures ok { OnOk result ((told : List (ℕ × Report)) × Handles self.old (Tick count ∷ []) [] self.new told
            × Takes (K.taken sink.old) (K.taken sink.new) (lines_of (setup_of self.old.object) told)) }
        ensures settled { OnOk result (unsettled self.new.state ≡ None) }
        ensures all { OnOk result (self.new.state.core.told ≡ []) }
        ensures moment { OnOk result (self.new.state.core.moment ≡ self.old.state.core.moment + count) }
        ensures last { OnErr result
            (IsCutInLastMark self.old (Tick count ∷ []) self.new (K.taken sink.old) (K.taken sink.new)) }
        ensures cause { OnErr result (WriteFailed (K.faults sink.old) (K.faults sink.new) (K.full sink.new)) }
        ensures later { K.faults sink.old ≤ K.faults sink.new }
    {
        let mut left = count;
        while left > 0 {
            left -= self.pass_some(left);
            self.finish(sink)?;
        }
        Ok(())
    }

    // So many times a millisecond and then up to so many picks, with the lines of each.
    fn pass<K: Sink>(&mut self, times: u64, picks: u64, sink: &mut K) -> Result<(), WriteFault>
        requires settled { unsettled self.old.state ≡ None }
        requires taken { self.old.state.core.told ≡ [] }
        requires later { self.old.state.core.moment + times ≤ last_moment_of_all }
        ensures object { self.new.object ≡ self.old.object }
        ensures ok { OnOk result ((told : List (ℕ × Report)) × Handles self.old (Pass times picks ∷ []) [] self.new told
            × Takes (K.taken sink.old) (K.taken sink.new) (lines_of (setup_of self.old.object) told)) }
        ensures settled { OnOk result (unsettled self.new.state ≡ None) }
        ensures all { OnOk result (self.new.state.core.told ≡ []) }
        ensures moment { OnOk result (self.new.state.core.moment ≡ self.old.state.core.moment + times) }
        ensures last { OnErr result
            (IsCutInLastMark self.old (Pass times picks ∷ []) self.new (K.taken sink.old) (K.taken sink.new)) }
        ensures cause { OnErr result (WriteFailed (K.faults sink.old) (K.faults sink.new) (K.full sink.new)) }
        ensures later { K.faults sink.old ≤ K.faults sink.new }
    {
        let mut left = times;
        while left > 0 {
            left -= self.pass_some(self.at_once(left, picks));
            self.finish(sink)?;
            self.run(picks, sink)?;
        }
        Ok(())
    }

    // How many of the milliseconds that are left may pass at once: all where nobody acts in so many picks, else one.
    fn at_once(&self, left: u64, picks: u64) -> u64
        requires { 0 < left }
        ensures some { 0 < result }
        ensures few { result ≤ left }
        ensures free { (result ≡ 1) ⊎ NobodyActs self.now picks }
    {
        if picks == 0 {
            return left;
        }
        match self.kernel.picked() {
            None => left,
            Some(_) => 1,
        }
    }

    // Up to so many milliseconds pass: those in which no plan fires, or else the next one.
    fn pass_some(&mut self, most: u64) -> u64
        requires some { 0 < most }
        requires settled { unsettled self.old.state ≡ None }
        requires taken { self.old.state.core.told ≡ [] }
        requires later { self.old.state.core.moment + most ≤ last_moment_of_all }
        ensures few { result ≤ most }
        ensures passes { PassesSome self.old result self.new }
    {
        let quiet = self.quiet(most);
        if quiet > 0 {
            self.skip(quiet);
            return quiet;
        }
        self.millisecond();
        1
    }

    // In how many of the next milliseconds no plan fires, up to so many.
    fn quiet(&mut self, most: u64) -> u64
        ensures same { self.new ≡ self.old }
        ensures few { result ≤ most }
        ensures quiet { IsQuiet self.old.state.core result }
    {
        match self.kernel.next_due() {
            None => most,
            Some(moment) => most.min(moment - self.kernel.now() - 1),
        }
    }

    // So many milliseconds pass, in which no plan fires.
    fn skip(&mut self, n: u64)
        requires settled { unsettled self.old.state ≡ None }
        requires taken { self.old.state.core.told ≡ [] }
        requires later { self.old.state.core.moment + n ≤ last_moment_of_all }
        requires quiet { IsQuiet self.old.state.core n }
        ensures { Skips self.old n self.new }
    {
        laws_hold(&self.code);
        self.kernel.skip(n);
    }

    // A millisecond passes.
    fn millisecond(&mut self)
        requires settled { unsettled self.old.state ≡ None }
        requires taken { self.old.state.core.told ≡ [] }
        requires later { self.old.state.core.moment + 1 ≤ last_moment_of_all }
        ensures object { self.new.object ≡ self.old.object }
        ensures moment { self.new.state.core.moment ≡ self.old.state.core.moment + 1 }
        ensures passes { Makes self.old Passes self.new }
    {
        laws_hold(&self.code);
        self.kernel.tick();
    }

    // What an entry does by itself: the clock is set, or something comes in.
    fn arrive(&mut self, entry: &Entry)
        requires settled { unsettled self.old.state ≡ None }
        requires taken { self.old.state.core.told ≡ [] }
        requires fits { EntryFits (setup_of self.old.object) self.old.state.core.moment entry.now }
        ensures object { self.new.object ≡ self.old.object }
        ensures moment { self.new.state.core.moment ≡ self.old.state.core.moment }
        ensures arrives { Makes self.old (Arrives entry.now) self.new }
    {
        laws_hold(&self.code);
        self.kernel.input(entry);
    }

    // Hands the sink the lines of a mark; then every active task goes on to its next action.
    fn finish<K: Sink>(&mut self, sink: &mut K) -> Result<(), WriteFault>
        ensures object { self.new.object ≡ self.old.object }
        ensures moment { self.new.state.core.moment ≡ self.old.state.core.moment }
        ensures ok { OnOk result (Takes (K.taken sink.old) (K.taken sink.new)
            (lines_of (setup_of self.old.object) self.old.state.core.told)) }
        ensures settled { OnOk result (unsettled self.new.state ≡ None) }
        ensures all { OnOk result (self.new.state.core.told ≡ []) }
        ensures handles { (a : Seen) (from left : List Entry) (told : List (ℕ × Report)) →
            self.old.object ≡ a.object → Handles a from left self.old told → Handles a from left self.new told }
        ensures stays { OnErr result (self.new ≡ retold self.old self.new.state.core.told) }
        ensures err { OnErr result (IsCutOff (setup_of self.old.object) (K.taken sink.old) (K.taken sink.new)
            self.old.state.core.told self.new.state.core.told) }
        ensures cause { OnErr result (WriteFailed (K.faults sink.old) (K.faults sink.new) (K.full sink.new)) }
        ensures later { K.faults sink.old ≤ K.faults sink.new }
    {
        self.tell(sink)?;
        self.settle();
        Ok(())
    }

    // It becomes a task's turn, where it can.
    fn turn(&mut self, task: u32)
        requires settled { unsettled self.old.state ≡ None }
        requires taken { self.old.state.core.told ≡ [] }
        ensures object { self.new.object ≡ self.old.object }
        ensures settled { unsettled self.new.state ≡ None }
        ensures taken { self.new.state.core.told ≡ [] }
        ensures moment { self.new.state.core.moment ≡ self.old.state.core.moment }
        ensures turns { Makes self.old (Turns task) self.new }
    {
        self.kernel.turn(task);
    }

    // How each task stands is told.
    fn show(&mut self)
        requires settled { unsettled self.old.state ≡ None }
        requires taken { self.old.state.core.told ≡ [] }
        ensures same { self.new ≡ retold self.old (states self.old.state.core (machine_offers self.old.state)) }
        ensures tells { Makes self.old Tells self.new }
    {
        self.due = 0;
    }

    // Makes `into` the line of what is told next, if something is left to tell. The task that acts next is sought for
    // the first line of a task's state, and known for the others.
    fn next_line(&mut self, known: &mut Option<Option<u32>>, into: &mut ArrayVec<u8, 2304>) -> bool
        requires { IfSome known.old (λ task. task ≡ picked self.old) }
        ensures known { IfSome known.new (λ task. task ≡ picked self.new) }
        ensures same { self.new ≡ retold self.old self.new.state.core.told }
        ensures next { TakesNext self.old self.new into.new.items result }
    {
        match self.kernel.event() {
            Some(event) => {
                event_line(self.kernel.now(), event, &self.setup, into);
                self.kernel.drop_event();
                true
            }
            None => {
                if self.due >= self.kernel.tasks() {
                    return false;
                }
                let picked = known_pick(&self.kernel, known);
                state_of(&self.kernel, &self.setup, self.due, picked, into);
                self.due += 1;
                true
            }
        }
    }

    // Whether nothing is told that isn't written.
    fn is_told(&self) -> bool
        ensures { result ≡ true → self.now.state.core.told ≡ [] }
    {
        if self.due < self.kernel.tasks() {
            return false;
        }
        self.kernel.is_told()
    }

    // Hands the sink the line of all that is told and not written.
    #[inline]
    fn tell<K: Sink>(&mut self, sink: &mut K) -> Result<(), WriteFault>
        ensures same { self.new ≡ retold self.old self.new.state.core.told }
        ensures ok { OnOk result (Takes (K.taken sink.old) (K.taken sink.new)
            (lines_of (setup_of self.old.object) self.old.state.core.told)) }
        ensures all { OnOk result (self.new.state.core.told ≡ []) }
        ensures err { OnErr result (IsCutOff (setup_of self.old.object) (K.taken sink.old) (K.taken sink.new)
            self.old.state.core.told self.new.state.core.told) }
        ensures cause { OnErr result (WriteFailed (K.faults sink.old) (K.faults sink.new) (K.full sink.new)) }
        ensures later { K.faults sink.old ≤ K.faults sink.new }
    {
        if self.is_told() {
            return Ok(());
        }
        self.tell_lines(sink)
    }

    // The same, where something may be told. Out of line, so that a mark that tells nothing costs little.
    #[inline(never)]
    fn tell_lines<K: Sink>(&mut self, sink: &mut K) -> Result<(), WriteFault>
        ensures same { self.new ≡ retold self.old self.new.state.core.told }
        ensures ok { OnOk result (Takes (K.taken sink.old) (K.taken sink.new)
            (lines_of (setup_of self.old.object) self.old.state.core.told)) }
        ensures all { OnOk result (self.new.state.core.told ≡ []) }
        ensures err { OnErr result (IsCutOff (setup_of self.old.object) (K.taken sink.old) (K.taken sink.new)
            self.old.state.core.told self.new.state.core.told) }
        ensures cause { OnErr result (WriteFailed (K.faults sink.old) (K.faults sink.new) (K.full sink.new)) }
        ensures later { K.faults sink.old ≤ K.faults sink.new }
    {
        let mut line = ArrayVec::new();
        let mut known = None;
        while self.next_line(&mut known, &mut line) {
            put_all(sink, line.as_slice())?;
        }
        Ok(())
    }
}

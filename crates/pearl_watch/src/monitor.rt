// A machine of which the watched slots are told, mark by mark.

ghost use Rattle.std.specs.Prelude.{◌≡◌, ◌≤◌, ◌+◌, ℕ, List, [], ◌∷◌, Option, Some, None, IfOk, IfErr, OnOk, OnErr, length, map, string_bytes};
ghost use Rattle.pearl_instructions.specs.Setups.{setup_of};
ghost use Rattle.pearl_io.specs.Outside.{Takes, TakesFront, WriteFailed};
ghost use Rattle.pearl_machine.specs.Seen.{picked};
ghost use Rattle.pearl_rules.specs.Core.{Core};
ghost use Rattle.pearl_rules.specs.Entries.{EntryFits, moment_after};
ghost use Rattle.pearl_rules.specs.Runs.{Coming, next_mark, unsettled};
ghost use Rattle.pearl_rules.specs.declared.entry.Entry.{Entry};
ghost use Rattle.pearl_rules.specs.declared.entry.Entry.TheVariants.{Tick};
ghost use Rattle.pearl_watch.specs.Changes.{change_lines, last_line as line_at_end, shown};
ghost use Rattle.pearl_watch.specs.Lines.{begun};
ghost use Rattle.pearl_watch.specs.Marks.{alone};
ghost use Rattle.pearl_watch.specs.Monitored.{IsTold, Watches, started};
ghost use Rattle.pearl_watch.specs.Watched.{AreAccepted, IsCause};

use crate::fault::WatchFault;
use crate::line::last_line;
use crate::silent::{begin, enter};
use crate::steps::Steps;
use crate::tell::tell_changes;
use crate::watch::Watch;
use arrayvec::ArrayVec;
use pearl_instructions::valid::Valid;
use pearl_io::{Sink, WriteFault, put_all};
use pearl_machine::Machine;
use pearl_machine::laws::{makes_the_mark_that_comes, settles_without_a_mark};
use pearl_rules::entry::Entry;
use pearl_rules::setup::Setup;
use std::alloc::Global;
use std::marker::Model;

/// A machine that tells of its run how the watched slots change, mark by mark, and nothing else.
///
/// [`Monitor::load`] takes all the memory that the run needs. [`Monitor::tell`] comes first, [`Monitor::entry`] once
/// for each entry, and [`Monitor::close`] last.
#[derive(Drop)]
pub struct Monitor {
    machine: Machine,
    watch: Watch,
    // the marks so far, where the greatest number stands for more
    marks: u64,
}

impl Model for Monitor {
    ghost use Rattle.pearl_watch.specs.Monitored.{IsAtRest, Monitored};

    ghost Value = { Monitored };

    ghost view = { λ m. record { machine = m.machine; watch = m.watch; marks = m.marks } };

    ghost invariant = { λ m. IsAtRest (record { machine = m.machine; watch = m.watch; marks = m.marks }) };
}

impl Monitor {
    /// The start of a run, of which all slots of the named leaves are watched and none was told. Every active task has
    /// gone on to its first action.
    pub fn load(alloc: Global, code: Valid, names: &[String]) -> Result<Monitor, WatchFault>
        ensures watch { IfOk result (λ monitor. monitor.watch ≡ begun code.leaves (map string_bytes names.now)) }
        ensures core { IfOk result (λ monitor.
            monitor.machine.state.core ≡ (started code (map string_bytes names.now)).machine.state.core) }
        ensures marks { IfOk result (λ monitor. monitor.marks ≡ 0) }
        ensures settled { IfOk result (λ monitor. unsettled monitor.machine.state ≡ None) }
        ensures start { IfOk result (λ monitor. (from : List Entry) → Watches (started code (map string_bytes names.now)) from from monitor []) }
        ensures accepted { OnOk result (AreAccepted code.leaves (map string_bytes names.now)) }
        ensures cause { IfErr result (λ fault. IsCause code.leaves (map string_bytes names.now) fault) }
    {
        let watch = Watch::new(alloc, &code, names)?;
        let mut machine = Machine::load(alloc, code)?;
        begin(&mut machine);
        settles_without_a_mark();
        machine.idle();
        Ok(Monitor {
            machine,
            watch,
            marks: 0,
        })
    }

    /// The tables of the object.
    pub fn setup(&self) -> &Setup
        ensures value { result.now ≡ setup_of self.now.machine.object }
        ensures few { length result.now.tasks ≤ 200 }
        ensures few_devices { length result.now.devices ≤ 396 }
    {
        self.machine.setup()
    }

    /// The moment, in milliseconds since the start.
    pub fn now(&self) -> u64
        ensures { result ≡ self.now.machine.state.core.moment }
    {
        self.machine.now()
    }

    /// Hands the sink a line for each watched slot whose value isn't the one that was told last; behind
    /// [`Monitor::load`] these are all. Tests hold that each line is one piece.
    ///
    /// After [`WriteFault`] a front of these lines was taken, and not all.
    pub fn tell<K: Sink>(&mut self, sink: &mut K) -> Result<(), WriteFault>
        ensures machine { self.new.machine ≡ self.old.machine }
        ensures marks { self.new.marks ≡ self.old.marks }
        ensures names { self.new.watch.names ≡ self.old.watch.names }
        ensures watched { self.new.watch.watched ≡ self.old.watch.watched }
        ensures ok { (before : Option Core) → IsTold self.old.watch before →
            OnOk result (Takes (K.taken sink.old) (K.taken sink.new)
            (change_lines self.old.watch.names self.old.watch.watched self.old.marks before self.old.machine.state.core)) }
        ensures told { OnOk result (IsTold self.new.watch (Some self.new.machine.state.core)) }
        ensures err { (before : Option Core) → IsTold self.old.watch before →
            OnErr result (TakesFront (K.taken sink.old) (K.taken sink.new)
            (change_lines self.old.watch.names self.old.watch.watched self.old.marks before self.old.machine.state.core)) }
        ensures cause { OnErr result (WriteFailed (K.faults sink.old) (K.faults sink.new) (K.full sink.new)) }
        ensures later { K.faults sink.old ≤ K.faults sink.new }
    {
        tell_changes(&self.machine, &mut self.watch, self.marks, sink)
    }

    /// Makes all marks of one entry, and hands the sink after each the lines of the watched slots that it changed. Tests
    /// hold that each line is one piece.
    ///
    /// After [`WriteFault`] the monitor stands behind a mark of the entry, the last that was made. Of the lines up to
    /// and with those of that mark a front was taken, and not all.
    pub fn entry<K: Sink>(&mut self, entry: Entry, sink: &mut K) -> Result<(), WriteFault>
        requires told { IsTold self.old.watch (Some self.old.machine.state.core) }
        requires fits { EntryFits (setup_of self.old.machine.object) self.old.machine.state.core.moment entry }
        ensures ok { OnOk result ((text : List ℕ) × Watches self.old (entry ∷ []) [] self.new text
            × Takes (K.taken sink.old) (K.taken sink.new) text) }
        ensures told { OnOk result (IsTold self.new.watch (Some self.new.machine.state.core)) }
        ensures moment { OnOk result
            (self.new.machine.state.core.moment ≡ moment_after self.old.machine.state.core.moment entry) }
        ensures err { OnErr result ((text : List ℕ) × (left : List Entry) × Watches self.old (entry ∷ []) left self.new text
            × TakesFront (K.taken sink.old) (K.taken sink.new) text) }
        ensures settled { unsettled self.new.machine.state ≡ None }
        ensures cause { OnErr result (WriteFailed (K.faults sink.old) (K.faults sink.new) (K.full sink.new)) }
        ensures later { K.faults sink.old ≤ K.faults sink.new }
    {
        let mut steps = Steps::new(entry);
        'marks: loop {
            let idle = self.machine.idle();
            let Some(one) = steps.next(idle) else {
                return Ok(());
            };
            self.mark(&one, sink)?;
        }
    }

    // Makes the mark of an entry of one mark, and hands the sink the lines of the watched slots that it changed.
    fn mark<K: Sink>(&mut self, one: &Entry, sink: &mut K) -> Result<(), WriteFault>
        requires told { IsTold self.old.watch (Some self.old.machine.state.core) }
        requires fits { EntryFits (setup_of self.old.machine.object) self.old.machine.state.core.moment one.now }
        ensures watches { (from : List Entry) (coming : Coming) → next_mark (picked self.old.machine) from ≡ Some coming →
            one.now ≡ alone coming.mark → Watches self.old from coming.rest self.new
            (change_lines self.old.watch.names self.old.watch.watched (self.old.marks + 1) (Some self.old.machine.state.core) self.new.machine.state.core) }
        ensures moment { self.new.machine.state.core.moment ≡ moment_after self.old.machine.state.core.moment one.now }
        ensures settled { unsettled self.new.machine.state ≡ None }
        ensures ok { OnOk result (Takes (K.taken sink.old) (K.taken sink.new)
            (change_lines self.old.watch.names self.old.watch.watched (self.old.marks + 1) (Some self.old.machine.state.core) self.new.machine.state.core)) }
        ensures told { OnOk result (IsTold self.new.watch (Some self.new.machine.state.core)) }
        ensures err { OnErr result (TakesFront (K.taken sink.old) (K.taken sink.new)
            (change_lines self.old.watch.names self.old.watch.watched (self.old.marks + 1) (Some self.old.machine.state.core) self.new.machine.state.core)) }
        ensures cause { OnErr result (WriteFailed (K.faults sink.old) (K.faults sink.new) (K.full sink.new)) }
        ensures later { K.faults sink.old ≤ K.faults sink.new }
    {
        self.step(one);
        // A millisecond changes no slot.
        if let Entry::Tick(count) = one
            && *count == 1
        {
            return Ok(());
        }
        self.tell(sink)
    }

    // Makes the mark of an entry of one mark.
    fn step(&mut self, one: &Entry)
        requires { EntryFits (setup_of self.old.machine.object) self.old.machine.state.core.moment one.now }
        ensures watches { (from : List Entry) (coming : Coming) → next_mark (picked self.old.machine) from ≡ Some coming →
            one.now ≡ alone coming.mark → Watches self.old from coming.rest self.new
            (change_lines self.old.watch.names self.old.watch.watched (self.old.marks + 1) (Some self.old.machine.state.core) self.new.machine.state.core) }
        ensures watch { self.new.watch ≡ self.old.watch }
        ensures marks { self.new.marks ≡ shown (self.old.marks + 1) }
        ensures moment { self.new.machine.state.core.moment ≡ moment_after self.old.machine.state.core.moment one.now }
        ensures settled { unsettled self.new.machine.state ≡ None }
        ensures slots { one.now ≡ Tick 1 → self.new.machine.state.core.slots ≡ self.old.machine.state.core.slots }
    {
        makes_the_mark_that_comes();
        enter(&mut self.machine, one);
        self.marks = self.marks.saturating_add(1);
    }

    /// Hands the sink the last line, as one piece.
    pub fn close<K: Sink>(&self, sink: &mut K) -> Result<(), WriteFault>
        ensures ok { OnOk result (Takes (K.taken sink.old) (K.taken sink.new)
            (line_at_end self.now.marks self.now.machine.state.core.moment)) }
        ensures err { OnErr result (TakesFront (K.taken sink.old) (K.taken sink.new)
            (line_at_end self.now.marks self.now.machine.state.core.moment)) }
        ensures cause { OnErr result (WriteFailed (K.faults sink.old) (K.faults sink.new) (K.full sink.new)) }
        ensures later { K.faults sink.old ≤ K.faults sink.new }
    {
        let mut line = ArrayVec::new();
        last_line(self.marks, self.machine.now(), &mut line);
        put_all(sink, line.as_slice())
    }
}

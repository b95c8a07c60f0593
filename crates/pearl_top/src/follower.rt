// What goes over a journal.

ghost use Rattle.std.specs.Prelude.{◌≡◌, ◌≤◌, ℕ, List, [], ◌∷◌, OnErr, OnOk, length};
ghost use Rattle.pearl_io.specs.Outside.{Takes, TakesFront, WriteFailed};
ghost use Rattle.pearl_rules.specs.Entries.{EntryFits, moment_after};
ghost use Rattle.pearl_rules.specs.declared.entry.Entry.{Entry};
ghost use Rattle.pearl_top.specs.Going.{Going, GoesInTurn, WritesItsRun};

use pearl_io::{Sink, WriteFault};
use pearl_machine::Machine;
use pearl_rules::entry::Entry;
use pearl_rules::setup::Setup;
use pearl_watch::monitor::Monitor;

/// What goes over the entries of a journal, one after the other, and writes what comes of them.
pub trait Follower {
    // How contracts see it.
    ghost going: { Going Self };

    /// Writes what comes before the first entry.
    fn open<K: Sink>(&mut self, sink: &mut K) -> Result<(), WriteFault>
        requires { going.starts self.old }
        ensures ok { OnOk result (Takes (K.taken sink.old) (K.taken sink.new) (going.opening self.old)) }
        ensures goes { OnOk result ((from : List Entry) → going.writes self.old from from self.new []) }
        ensures rests { OnOk result (going.rests self.new) }
        ensures moment { OnOk result (going.moment self.new ≡ going.moment self.old) }
        ensures err { OnErr result (TakesFront (K.taken sink.old) (K.taken sink.new) (going.opening self.old)) }
        ensures cause { OnErr result (WriteFailed (K.faults sink.old) (K.faults sink.new) (K.full sink.new)) }
        ensures later { K.faults sink.old ≤ K.faults sink.new };

    /// The tables by which the journal is read.
    fn tables(&self) -> &Setup
        ensures value { result.now ≡ going.tables self.now }
        ensures few { length result.now.tasks ≤ 200 }
        ensures few_devices { length result.now.devices ≤ 396 };

    /// The moment, in milliseconds since the start.
    fn moment(&self) -> u64
        ensures { result ≡ going.moment self.now };

    /// Goes over an entry, and writes what comes of it.
    fn follow<K: Sink>(&mut self, entry: Entry, sink: &mut K) -> Result<(), WriteFault>
        requires rests { going.rests self.old }
        requires fits { EntryFits (going.tables self.old) (going.moment self.old) entry }
        ensures ok { OnOk result ((text : List ℕ) × going.writes self.old (entry ∷ []) [] self.new text
            × Takes (K.taken sink.old) (K.taken sink.new) text) }
        ensures rests { OnOk result (going.rests self.new) }
        ensures moment { OnOk result (going.moment self.new ≡ moment_after (going.moment self.old) entry) }
        ensures err { OnErr result ((text : List ℕ) × (left : List Entry) × going.writes self.old (entry ∷ []) left self.new text
            × TakesFront (K.taken sink.old) (K.taken sink.new) text) }
        ensures cause { OnErr result (WriteFailed (K.faults sink.old) (K.faults sink.new) (K.full sink.new)) }
        ensures later { K.faults sink.old ≤ K.faults sink.new };

    /// Writes what comes behind the last entry.
    fn finish<K: Sink>(&mut self, sink: &mut K) -> Result<(), WriteFault>
        requires { going.rests self.old }
        ensures ok { OnOk result ((text : List ℕ) × going.closes self.old text × Takes (K.taken sink.old) (K.taken sink.new) text) }
        ensures err { OnErr result ((text : List ℕ) × going.closes self.old text
            × TakesFront (K.taken sink.old) (K.taken sink.new) text) }
        ensures cause { OnErr result (WriteFailed (K.faults sink.old) (K.faults sink.new) (K.full sink.new)) }
        ensures later { K.faults sink.old ≤ K.faults sink.new };

    /// What is written of one part after another is what the whole run is due. It does nothing.
    fn laws(&self)
        ensures in_turn { GoesInTurn going }
        ensures run { WritesItsRun going };
}

impl Follower for Machine {
    ghost use Rattle.pearl_top.specs.Followers.{machine_going};

    ghost going = { machine_going };

    fn open<K: Sink>(&mut self, sink: &mut K) -> Result<(), WriteFault> {
        self.begin(sink)
    }

    fn tables(&self) -> &Setup {
        self.setup()
    }

    fn moment(&self) -> u64 {
        self.now()
    }

    fn follow<K: Sink>(&mut self, entry: Entry, sink: &mut K) -> Result<(), WriteFault> {
        self.entry(&entry, sink)
    }

    fn finish<K: Sink>(&mut self, sink: &mut K) -> Result<(), WriteFault> {
        self.close(sink)
    }

    fn laws(&self) {}
}

impl Follower for Monitor {
    ghost use Rattle.pearl_top.specs.Followers.{monitor_going};

    ghost going = { monitor_going };

    fn open<K: Sink>(&mut self, sink: &mut K) -> Result<(), WriteFault> {
        self.tell(sink)
    }

    fn tables(&self) -> &Setup {
        self.setup()
    }

    fn moment(&self) -> u64 {
        self.now()
    }

    fn follow<K: Sink>(&mut self, entry: Entry, sink: &mut K) -> Result<(), WriteFault> {
        self.entry(entry, sink)
    }

    fn finish<K: Sink>(&mut self, sink: &mut K) -> Result<(), WriteFault> {
        self.close(sink)
    }

    fn laws(&self) {}
}

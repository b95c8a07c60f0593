// From the bytes of a snapshot's file to the machine that goes on from its state.

ghost use Rattle.std.specs.Prelude.{◌≤◌, length, IfOk, IfErr};
ghost use Rattle.pearl_top.specs.Failures.{IsDue};
ghost use Rattle.pearl_top.specs.ResumeDue.{SnapshotDue};
ghost use Rattle.pearl_top.specs.Resumed.{IsResumedOf};

use crate::failure::Failure;
use crate::follower::Follower;
use crate::limits::SNAPSHOT_LIMIT;
use pearl_io::{Sink, WriteFault};
use pearl_machine::Machine;
use pearl_rules::entry::Entry;
use pearl_rules::setup::Setup;
use pearl_saved_laws::laws::restored_runs_end;
use pearl_snap::restore::restore;
use std::alloc::Global;
use std::marker::Model;

/// A machine that goes on from a saved state. Contracts see it as the machine.
#[derive(Drop)]
pub struct Resumed {
    machine: Machine,
}

impl Model for Resumed {
    ghost use Rattle.pearl_machine.specs.Seen.{Seen};

    ghost Value = { Seen };

    ghost view = { λ r. r.machine };
}

impl Follower for Resumed {
    ghost use Rattle.pearl_top.specs.Resumed.{resumed_going};

    ghost going = { resumed_going };

    // Nothing opens a run that goes on.
    fn open<K: Sink>(&mut self, _sink: &mut K) -> Result<(), WriteFault> {
        Ok(())
    }

    fn tables(&self) -> &Setup {
        self.machine.setup()
    }

    fn moment(&self) -> u64 {
        self.machine.now()
    }

    fn follow<K: Sink>(&mut self, entry: Entry, sink: &mut K) -> Result<(), WriteFault> {
        self.machine.entry(&entry, sink)
    }

    fn finish<K: Sink>(&mut self, sink: &mut K) -> Result<(), WriteFault> {
        self.machine.close(sink)
    }

    fn laws(&self) {
        restored_runs_end();
    }
}

/// The machine that goes on from the state that a file has, which is judged first.
pub fn resumed_in(alloc: Global, file: &[u8]) -> Result<Resumed, Failure>
    requires { length file.now ≤ SNAPSHOT_LIMIT }
    ensures ok { IfOk result (IsResumedOf file.now) }
    ensures err { IfErr result (IsDue (SnapshotDue file.now ⊥)) }
{
    let (object, state) = restore(alloc, file)?;
    let machine = Machine::restored(alloc, object, state)?;
    Ok(Resumed { machine })
}

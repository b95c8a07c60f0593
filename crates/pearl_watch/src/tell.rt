// The lines of the watched slots of a machine.

ghost use Rattle.std.specs.Prelude.{◌≡◌, ◌≤◌, ◌<◌, Option, Some, OnOk, OnErr, length};
ghost use Rattle.pearl_io.specs.Outside.{Takes, TakesFront, WriteFailed};
ghost use Rattle.pearl_rules.specs.Core.{Core};
ghost use Rattle.pearl_watch.specs.Changes.{change_lines};
ghost use Rattle.pearl_watch.specs.Monitored.{AreSlots, IsTold, TellsPlace, place_line};

use crate::watch::Watch;
use arrayvec::ArrayVec;
use pearl_io::{Sink, WriteFault, put_all};
use pearl_machine::Machine;

/// Hands the sink a line for each watched slot whose value isn't the one that was told last, after so many marks.
pub(crate) fn tell_changes<K: Sink>(
    machine: &Machine,
    watch: &mut Watch,
    marks: u64,
    sink: &mut K,
) -> Result<(), WriteFault>
    requires { AreSlots machine.now.object watch.old.watched }
    ensures names { watch.new.names ≡ watch.old.names }
    ensures watched { watch.new.watched ≡ watch.old.watched }
    ensures ok { (before : Option Core) → IsTold watch.old before → OnOk result (Takes (K.taken sink.old) (K.taken sink.new)
        (change_lines watch.old.names watch.old.watched marks before machine.now.state.core)) }
    ensures told { OnOk result (IsTold watch.new (Some machine.now.state.core)) }
    ensures err { (before : Option Core) → IsTold watch.old before → OnErr result (TakesFront (K.taken sink.old) (K.taken sink.new)
        (change_lines watch.old.names watch.old.watched marks before machine.now.state.core)) }
    ensures cause { OnErr result (WriteFailed (K.faults sink.old) (K.faults sink.new) (K.full sink.new)) }
    ensures later { K.faults sink.old ≤ K.faults sink.new }
{
    let mut line = ArrayVec::new();
    let count = watch.slots().len();
    for place in 0..count {
        tell_place(machine, watch, marks, place, &mut line, sink)?;
    }
    Ok(())
}

// The line of one watched slot, unless its value was told last.
fn tell_place<K: Sink>(
    machine: &Machine,
    watch: &mut Watch,
    marks: u64,
    place: usize,
    line: &mut ArrayVec<u8, 2304>,
    sink: &mut K,
) -> Result<(), WriteFault>
    requires within { place < length watch.old.watched }
    requires slots { AreSlots machine.now.object watch.old.watched }
    ensures tells { TellsPlace watch.old watch.new machine.now.state.core place }
    ensures ok { OnOk result (Takes (K.taken sink.old) (K.taken sink.new) (place_line watch.old marks machine.now.state.core place)) }
    ensures err { OnErr result (TakesFront (K.taken sink.old) (K.taken sink.new) (place_line watch.old marks machine.now.state.core place)) }
    ensures cause { OnErr result (WriteFailed (K.faults sink.old) (K.faults sink.new) (K.full sink.new)) }
    ensures later { K.faults sink.old ≤ K.faults sink.new }
{
    let value = machine.slot(watch.slots()[place]);
    if watch.line(marks, machine.now(), place, value, line) {
        put_all(sink, line.as_slice())?;
    }
    Ok(())
}

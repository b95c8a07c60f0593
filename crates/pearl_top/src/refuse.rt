// The line with which a call ends early.

ghost use Rattle.std.specs.Prelude.{◌≡◌, ◌≤◌, ◌⊎◌};
ghost use Rattle.pearl_io.specs.Outside.{WriteFailed};
ghost use Rattle.pearl_script.specs.Refusals.{refusal_line as line_of_refusal};
ghost use Rattle.pearl_top.specs.Status.{status_of as status_of_refusal};
ghost use Rattle.pearl_top.specs.Taken.{Concludes, Ends, OnlyDue};

use crate::failure::Failure;
use crate::status::{Status, status_of};
use arrayvec::ArrayVec;
use pearl_io::{Sink, WriteFault, put_all};
use pearl_script::refusal::{Refusal, refusal_line};

/// Answers how a call ends whose command ended so, after the line of the refusal where it was refused.
pub fn conclude<K: Sink>(ended: Result<(), Failure>, sink: &mut K) -> Status
    ensures ends { Concludes (K.taken sink.old) (K.taken sink.new) ended result }
    ensures write { result ≡ Status.WriteFault →
        ((ended ≡ Err Failure.WriteFault) × (sink.new ≡ sink.old))
        ⊎ WriteFailed (K.faults sink.old) (K.faults sink.new) (K.full sink.new) }
    ensures later { K.faults sink.old ≤ K.faults sink.new }
{
    match ended {
        Ok(()) => Status::Done,
        Err(Failure::Refused(refusal)) => refuse(&refusal, sink),
        Err(Failure::WriteFault) => Status::WriteFault,
    }
}

// Writes the line of a refusal, and answers its status, or that of a write fault.
fn refuse<K: Sink>(refusal: &Refusal, sink: &mut K) -> Status
    ensures ends { Ends (K.taken sink.old) (K.taken sink.new)
        (OnlyDue (status_of_refusal refusal.now) (line_of_refusal refusal.now)) result }
    ensures write { result ≡ Status.WriteFault → WriteFailed (K.faults sink.old) (K.faults sink.new) (K.full sink.new) }
    ensures later { K.faults sink.old ≤ K.faults sink.new }
{
    let mut line = ArrayVec::new();
    refusal_line(refusal, &mut line);
    match put_all(sink, line.as_slice()) {
        Ok(()) => status_of(refusal),
        Err(WriteFault) => Status::WriteFault,
    }
}

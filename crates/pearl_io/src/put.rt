//! Writing a whole piece.

ghost use Rattle.std.specs.Prelude.{◌≤◌, OnOk, OnErr};
ghost use Rattle.pearl_io.specs.Outside.{Takes, TakesFront, WriteFailed};

use crate::outside::{Sink, WriteFault};

/// Offers `piece` to the sink, and what is left of it again, until all is taken. A sink that takes
/// nothing of what is left has failed as well as one whose call fails.
///
/// After [`WriteFault`] bytes from the front of `piece` were taken, and not all. An empty piece is
/// never offered.
pub fn put_all<K: Sink>(sink: &mut K, piece: &[u8]) -> Result<(), WriteFault>
    ensures ok { OnOk result (Takes (K.taken sink.old) (K.taken sink.new) piece.now) }
    ensures err { OnErr result (TakesFront (K.taken sink.old) (K.taken sink.new) piece.now) }
    ensures cause { OnErr result (WriteFailed (K.faults sink.old) (K.faults sink.new) (K.full sink.new)) }
    ensures later { K.faults sink.old ≤ K.faults sink.new }
{
    let mut done = 0;
    while done < piece.len() {
        match sink.put(&piece[done..]) {
            Ok(0) | Err(_) => return Err(WriteFault),
            Ok(count) => done += count,
        }
    }
    Ok(())
}

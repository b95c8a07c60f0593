// Standard output as a sink.

ghost use Rattle.std.specs.Prelude.{◌≡◌, ◌<◌, ◌≤◌, None, IfOk, OnErr, length};
ghost use Rattle.pearl_io.specs.Outside.{CountRose};

use pearl_io::{Failed, Sink};
use std::alloc::Global;
use std::io::Print;

// How many bytes may wait to be written.
const ROOM: usize = 65536;

/// Standard output. Bytes wait until there are many, or until they are flushed; where there is no memory for them, none
/// waits. What it took is not told; an error counts as one fault, and so does a write of no byte.
#[derive(Drop)]
pub struct OutSink<'a, R: Print> {
    rt: &'a R,
    waiting: Vec<u8>,
    room: usize,
    faults: u64,
}

impl<'a, R: Print> OutSink<'a, R> {
    /// The standard output of this runtime, with no fault so far.
    pub fn new(alloc: Global, rt: &'a R) -> Self
        ensures { result.faults ≡ 0 }
    {
        let (waiting, room) = match Vec::with_capacity(alloc, ROOM) {
            Ok(waiting) => (waiting, ROOM),
            Err(_) => (Vec::new(alloc), 0),
        };
        OutSink {
            rt,
            waiting,
            room,
            faults: 0,
        }
    }

    /// Writes the bytes that wait. After [`Failed`] none waits.
    pub fn flush(&mut self) -> Result<(), Failed>
        ensures cause { OnErr result (CountRose self.old.faults self.new.faults) }
        ensures later { self.old.faults ≤ self.new.faults }
    {
        let written = self.rt.write_all(self.waiting.as_slice());
        self.waiting.clear();
        match written {
            Ok(()) => Ok(()),
            Err(_) => Err(self.failed()),
        }
    }

    // Writes bytes that are too many to wait.
    fn write(&mut self, piece: &[u8]) -> Result<usize, Failed>
        ensures some { IfOk result (λ count. 0 < count) }
        ensures bound { IfOk result (λ count. count ≤ length piece.now) }
        ensures cause { OnErr result (CountRose self.old.faults self.new.faults) }
        ensures later { self.old.faults ≤ self.new.faults }
    {
        match self.rt.write_some(piece) {
            Ok(count) if count > 0 => Ok(count),
            _ => Err(self.failed()),
        }
    }

    // Lets bytes wait.
    fn keep(&mut self, piece: &[u8]) -> Result<usize, Failed>
        ensures all { IfOk result (λ count. count ≡ length piece.now) }
        ensures cause { OnErr result (CountRose self.old.faults self.new.faults) }
        ensures later { self.old.faults ≤ self.new.faults }
    {
        match self.waiting.extend_from_slice(piece) {
            Ok(()) => Ok(piece.len()),
            Err(_) => Err(self.failed()),
        }
    }

    fn failed(&mut self) -> Failed
        ensures cause { CountRose self.old.faults self.new.faults }
        ensures later { self.old.faults ≤ self.new.faults }
    {
        self.faults = self.faults.saturating_add(1);
        Failed
    }
}

impl<'a, R: Print> Sink for OutSink<'a, R> {
    ghost taken = { λ _. None };

    ghost faults = { λ sink. sink.faults };

    ghost full = { λ _. ⊥ };

    fn put(&mut self, piece: &[u8]) -> Result<usize, Failed> {
        if piece.len() > self.room.saturating_sub(self.waiting.len()) {
            self.flush()?;
        }
        if piece.len() > self.room {
            return self.write(piece);
        }
        self.keep(piece)
    }
}

#[cfg(test)]
mod tests {
    use super::*;

    #[test]
    fn writes_pieces(rt: HostRuntime) {
        let mut sink = OutSink::new(rt.alloc(), &rt);
        assert!(rt; matches!(sink.put(b"# a piece\n"), Ok(10)));
        assert!(rt; matches!(sink.put(b"# another\n"), Ok(10)));
        assert!(rt; sink.waiting.len() == 20);
        assert!(rt; sink.flush().is_ok());
        assert!(rt; sink.waiting.len() == 0);
        assert!(rt; sink.faults == 0);
    }
}

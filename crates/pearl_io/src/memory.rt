//! A shelf and a sink in memory that fail at chosen calls.

ghost use Rattle.std.specs.Prelude.{◌≡◌, ◌-◌, ◌<◌, ◌≤◌, ◌↔◌, [], ◌++◌, min, length, take, Contains, IsErr, IfOk, OnOk, OnErr, Some};
ghost use Rattle.pearl_io.specs.Outside.{content, following, IsPiece, CountRose};

use crate::files::{File, content_of, copy_piece};
use crate::outside::{Failed, Shelf, Sink};
use std::alloc::Global;
use std::marker::Model;

/// Files in memory. Chosen calls fail, and no call gives more than a chosen number of bytes.
#[derive(Drop)]
pub struct MemoryShelf {
    files: Vec<File>,
    failing: Vec<u64>,
    most: usize,
    calls: u64,
    faults: u64,
}

impl Model for MemoryShelf {
    ghost use Rattle.std.specs.Prelude.{◌<◌};
    ghost use Rattle.pearl_io.specs.Memory.{ShelfState};

    ghost Value = { ShelfState };

    ghost view = { λ shelf. record {
      files = shelf.files.items;
      failing = shelf.failing.items;
      most = shelf.most;
      calls = shelf.calls;
      faults = shelf.faults;
    } };

    ghost invariant = { λ shelf. 0 < shelf.most };
}

impl MemoryShelf {
    /// A shelf that holds these files. Its calls are numbered 1, 2 and so on, and those whose
    /// number is in `failing` fail. Each gives at most `most` bytes, which is not 0.
    ///
    /// A name that no file has reads as an empty file. There is one count of faults for all names.
    pub fn new(files: Vec<File>, failing: Vec<u64>, most: usize) -> MemoryShelf
        requires { 0 < most }
        ensures { result ≡ record {
          files = files.items;
          failing = failing.items;
          most = most;
          calls = 0;
          faults = 0;
        } }
    {
        MemoryShelf {
            files,
            failing,
            most,
            calls: 0,
            faults: 0,
        }
    }
}

impl Shelf for MemoryShelf {
    ghost holds = { λ shelf. Some shelf.files };

    ghost faults = { λ shelf _. shelf.faults };

    fn fetch(&mut self, name: &str, at: u64, into: &mut [u8]) -> Result<usize, Failed>
        requires { 0 < length into.old }
        ensures failed { IsErr result ↔ Contains self.old.failing (following self.old.calls) }
        ensures ok { OnOk result (self.new ≡ record self.old { calls = following self.old.calls }) }
        ensures err { OnErr result (self.new ≡ record self.old {
          calls = following self.old.calls;
          faults = following self.old.faults;
        }) }
        ensures count { let left = length (content self.old.files name.now) - at in
            IfOk result (λ count. count ≡ min self.old.most (min (length into.old) left)) }
        ensures piece { IfOk result (λ count. IsPiece (content self.old.files name.now) at count into.new) }
        ensures cause { OnErr result (CountRose self.old.faults self.new.faults) }
        ensures later { self.old.faults ≤ self.new.faults }
    {
        self.calls = self.calls.saturating_add(1);
        if self.failing.contains(&self.calls) {
            self.faults = self.faults.saturating_add(1);
            return Err(Failed);
        }
        let bytes = content_of(&self.files, name);
        Ok(copy_piece(bytes, at, self.most, into))
    }
}

/// A sink in memory. Chosen calls fail, and no call takes more than a chosen number of bytes.
#[derive(Drop)]
pub struct MemorySink {
    bytes: Vec<u8>,
    failing: Vec<u64>,
    most: usize,
    calls: u64,
    faults: u64,
}

impl Model for MemorySink {
    ghost use Rattle.pearl_io.specs.Memory.{SinkState};

    ghost Value = { SinkState };

    ghost view = { λ sink. record {
      bytes = sink.bytes.items;
      failing = sink.failing.items;
      most = sink.most;
      calls = sink.calls;
      faults = sink.faults;
    } };
}

impl MemorySink {
    /// An empty sink. Its calls are numbered 1, 2 and so on, and those whose number is in
    /// `failing` fail. Each takes at most `most` bytes; where `most` is 0 the sink is full.
    ///
    /// A call for whose bytes no memory is found fails too.
    pub fn new(alloc: Global, failing: Vec<u64>, most: usize) -> MemorySink
        ensures { result ≡ record {
          bytes = [];
          failing = failing.items;
          most = most;
          calls = 0;
          faults = 0;
        } }
    {
        MemorySink {
            bytes: Vec::new(alloc),
            failing,
            most,
            calls: 0,
            faults: 0,
        }
    }

    /// All bytes taken so far.
    pub fn bytes(&self) -> &[u8]
        ensures { result.now ≡ self.now.bytes }
    {
        self.bytes.as_slice()
    }
}

impl Sink for MemorySink {
    ghost taken = { λ sink. Some sink.bytes };

    ghost faults = { λ sink. sink.faults };

    ghost full = { λ sink. sink.most ≡ 0 };

    fn put(&mut self, piece: &[u8]) -> Result<usize, Failed>
        ensures failed { Contains self.old.failing (following self.old.calls) → IsErr result }
        ensures ok { IfOk result (λ count. self.new ≡ record self.old {
          bytes = self.old.bytes ++ take count piece.now;
          calls = following self.old.calls;
        }) }
        ensures err { OnErr result (self.new ≡ record self.old {
          calls = following self.old.calls;
          faults = following self.old.faults;
        }) }
        ensures count { IfOk result (λ count. count ≡ min self.old.most (length piece.now)) }
        ensures cause { OnErr result (CountRose self.old.faults self.new.faults) }
        ensures later { self.old.faults ≤ self.new.faults }
    {
        self.calls = self.calls.saturating_add(1);
        let count = self.most.min(piece.len());
        if self.failing.contains(&self.calls)
            || self.bytes.extend_from_slice(&piece[..count]).is_err()
        {
            self.faults = self.faults.saturating_add(1);
            return Err(Failed);
        }
        Ok(count)
    }
}

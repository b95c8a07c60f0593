//! A shelf and sinks that never fail.

ghost use Rattle.std.specs.Prelude.{◌≡◌, ◌-◌, ◌<◌, ◌≤◌, [], ◌++◌, min, length, take, IfOk, IsOk, Some, None};
ghost use Rattle.pearl_io.specs.Outside.{content, IsPiece};

use crate::files::{File, content_of, copy_piece};
use crate::outside::{Failed, Shelf, Sink};
use std::alloc::{AllocError as NoMemory, Global};
use std::marker::Model;

/// Files in memory that can always be fetched. Contracts see it as its files.
#[derive(Drop)]
pub struct SureShelf {
    files: Vec<File>,
}

impl Model for SureShelf {
    ghost use Rattle.pearl_io.specs.Outside.{Files};

    ghost Value = { Files };

    ghost view = { λ shelf. shelf.files.items };
}

impl SureShelf {
    /// A shelf that holds these files. A name that no file has reads as an empty file.
    pub fn new(files: Vec<File>) -> SureShelf
        ensures { result ≡ files.items }
    {
        SureShelf { files }
    }
}

impl Shelf for SureShelf {
    ghost holds = { λ shelf. Some shelf };

    ghost faults = { λ _ _. 0 };

    fn fetch(&mut self, name: &str, at: u64, into: &mut [u8]) -> Result<usize, Failed>
        requires { 0 < length into.old }
        ensures sure { IsOk result }
        ensures held { self.new ≡ self.old }
        ensures count { let left = length (content self.old name.now) - at in
            IfOk result (λ count. count ≡ min (length into.old) left) }
        ensures piece { IfOk result (λ count. IsPiece (content self.old name.now) at count into.new) }
    {
        let bytes = content_of(&self.files, name);
        let most = into.len();
        Ok(copy_piece(bytes, at, most, into))
    }
}

/// A sink whose room is made beforehand. It takes what fits, and is full once its room is used up.
#[derive(Drop)]
pub struct SureSink {
    bytes: Vec<u8>,
    room: usize,
}

impl Model for SureSink {
    ghost use Rattle.std.specs.Prelude.{◌≤◌, vec_len, vec_capacity};
    ghost use Rattle.pearl_io.specs.Memory.{RoomState};

    ghost Value = { RoomState };

    ghost view = { λ sink. record { bytes = sink.bytes.items; room = sink.room } };

    ghost invariant = { λ sink. (vec_len sink.bytes ≤ sink.room) × (sink.room ≤ vec_capacity sink.bytes) };
}

impl SureSink {
    /// An empty sink with room for `room` bytes. The error is that there is no memory for them.
    pub fn new(alloc: Global, room: usize) -> Result<SureSink, NoMemory>
        ensures { IfOk result (λ sink. sink ≡ record { bytes = []; room = room }) }
    {
        let bytes = Vec::with_capacity(alloc, room)?;
        Ok(SureSink { bytes, room })
    }

    /// All bytes taken so far.
    pub fn bytes(&self) -> &[u8]
        ensures taken { result.now ≡ self.now.bytes }
        ensures within { length self.now.bytes ≤ self.now.room }
    {
        self.bytes.as_slice()
    }
}

impl Sink for SureSink {
    ghost taken = { λ sink. Some sink.bytes };

    ghost faults = { λ _. 0 };

    ghost full = { λ sink. length sink.bytes ≡ sink.room };

    fn put(&mut self, piece: &[u8]) -> Result<usize, Failed>
        ensures sure { IsOk result }
        ensures within { length self.old.bytes ≤ self.old.room }
        ensures ok { IfOk result (λ count. self.new ≡ record self.old {
          bytes = self.old.bytes ++ take count piece.now;
        }) }
        ensures count { let left = self.old.room - length self.old.bytes in
            IfOk result (λ count. count ≡ min left (length piece.now)) }
    {
        let left = self.room - self.bytes.len();
        let count = left.min(piece.len());
        self.bytes.extend_from_slice(&piece[..count]).unwrap();
        Ok(count)
    }
}

/// A sink that takes all bytes and tells none of them. It is never full.
pub struct VoidSink;

impl Sink for VoidSink {
    ghost taken = { λ _. None };

    ghost faults = { λ _. 0 };

    ghost full = { λ _. ⊥ };

    fn put(&mut self, piece: &[u8]) -> Result<usize, Failed>
        ensures sure { IsOk result }
        ensures all { IfOk result (λ count. count ≡ length piece.now) }
    {
        Ok(piece.len())
    }
}

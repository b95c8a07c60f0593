// The bytes that came in at a terminal and wait there.

ghost use Rattle.std.specs.Prelude.{◌≡◌, ◌↔◌, ◌+◌, ◌-◌, ◌<◌, ◌≤◌, [], ◌++◌, Some, IsFalse, IfOk, if◌then◌else◌, All};
ghost use Rattle.std.specs.Prelude.{length, drop, slice_get, vec_len, vec_capacity};
ghost use Rattle.std.specs.Borrow.{sem};
ghost use Rattle.std.specs.Io.BufRead.{Rests};
ghost use Rattle.pearl_value.specs.WellFormed.{IsTyped};
ghost use Rattle.pearl_port.specs.Pending.{free};

use std::alloc::{AllocError as NoMemory, Global};
use std::marker::Model;

const ROOM: usize = 4096;

/// What waits at one terminal, from the oldest byte on: at most 4,096 bytes, each 10 or from 32 to 126.
#[derive(Drop)]
pub struct Terminal {
    bytes: Vec<u8>,
    // How many of them, at the front, don't wait any longer.
    taken: usize,
}

impl Model for Terminal {
    ghost use Rattle.std.specs.Prelude.{◌≡◌, ◌≤◌, ℕ, List, All, length, drop, vec_capacity};
    ghost use Rattle.pearl_value.specs.WellFormed.{IsTyped};

    ghost Value = { List ℕ };

    ghost view = { λ t. drop t.taken t.bytes.items };

    ghost invariant = { λ t. (t.taken ≤ length t.bytes.items) × (length t.bytes.items ≤ 4096)
        × (4096 ≤ vec_capacity t.bytes) × All IsTyped t.bytes.items };
}

impl Terminal {
    ghost use Rattle.pearl_port.specs.contracts.terminal.Terminal.{the_row};

    /// A terminal at which nothing waits. It takes all the memory that it will ever need.
    pub fn new(alloc: Global) -> Result<Terminal, NoMemory>
        ensures { IfOk result (λ terminal. terminal ≡ []) }
    {
        let bytes = Vec::with_capacity(alloc, ROOM)?;
        Ok(Terminal { bytes, taken: 0 })
    }

    /// How many bytes wait.
    pub fn len(&self) -> usize
        ensures len { result ≡ length self.now }
        ensures within { result ≤ 4096 }
    {
        self.bytes.len() - self.taken
    }

    /// One of the bytes that wait; the oldest one has the number 0.
    pub fn byte(&self, at: usize) -> u8
        requires { at < length self.now }
        ensures byte { slice_get self.now at ≡ Some result }
        ensures typed { IsTyped result }
    {
        self.waiting()[at]
    }

    /// Bytes come in: they wait behind all others, or, where there isn't room for all of them, none is kept. The answer
    /// tells whether they wait.
    pub fn add(&mut self, bytes: &[u8]) -> bool
        requires { All IsTyped bytes.now }
        ensures room { IsFalse result ↔ (free self.old < length bytes.now) }
        ensures waiting { self.new ≡ (if result then self.old ++ bytes.now else self.old) }
    {
        if ROOM - (self.bytes.len() - self.taken) < bytes.len() {
            return false;
        }
        self.taken = make_room(&mut self.bytes, self.taken, bytes.len());
        self.bytes.extend_from_slice(bytes).unwrap();
        true
    }

    /// All bytes that wait; they go on waiting.
    pub fn pending(&mut self) -> &[u8]
        ensures bytes { result.now ≡ self.old }
        ensures* same { sem 𝓛 (Rests the_row self.entry (λ new. new ≡ self.old)) }
        ensures within { length result.now ≤ 4096 }
        ensures typed { All IsTyped result.now }
    {
        self.waiting()
    }

    /// All bytes that wait.
    pub fn waiting(&self) -> &[u8]
        ensures bytes { result.now ≡ self.now }
        ensures within { length result.now ≤ 4096 }
        ensures typed { All IsTyped result.now }
    {
        &self.bytes[self.taken..]
    }

    /// Takes the oldest bytes, so many of them.
    pub fn drop_front(&mut self, n: usize)
        requires { n ≤ length self.old }
        ensures { self.new ≡ drop n self.old }
    {
        self.taken += n;
    }
}

// Where there is no room for so many more bytes behind the others, those that don't wait are taken away, and the others
// move to the front. The answer tells how many that don't wait are left.
fn make_room(bytes: &mut Vec<u8>, taken: usize, more: usize) -> usize
    requires taken { taken ≤ length bytes.old.items }
    requires within { length bytes.old.items ≤ 4096 }
    requires free { length bytes.old.items - taken + more ≤ 4096 }
    requires typed { All IsTyped bytes.old.items }
    ensures waiting { drop result bytes.new.items ≡ drop taken bytes.old.items }
    ensures taken { result ≤ length bytes.new.items }
    ensures room { length bytes.new.items + more ≤ 4096 }
    ensures typed { All IsTyped bytes.new.items }
    ensures capacity { vec_capacity bytes.new ≡ vec_capacity bytes.old }
{
    if more <= ROOM - bytes.len() {
        return taken;
    }
    drop_first(bytes, taken);
    0
}

// Takes the first bytes away, so many of them, and moves the others to the front.
fn drop_first(bytes: &mut Vec<u8>, n: usize)
    requires { n ≤ vec_len bytes.old }
    ensures items { bytes.new.items ≡ drop n bytes.old.items }
    ensures room { vec_capacity bytes.new ≡ vec_capacity bytes.old }
{
    let left = bytes.len() - n;
    bytes.rotate_left(n);
    bytes.truncate(left);
}

#[cfg(test)]
mod tests {
    use super::*;
    use std::test::Fail;

    #[test]
    fn the_oldest_bytes_are_dropped_first(rt: HostRuntime) -> Result<(), Fail> {
        let mut terminal = Terminal::new(rt.alloc())?;
        assert!(rt; terminal.add(&[b'4', b'2', 10]));
        terminal.drop_front(2);
        assert!(rt; terminal.add(&[b'7']));
        assert_eq!(rt; terminal.len(), 2);
        assert_eq!(rt; terminal.pending().get(..2), Some([10, b'7'].as_slice()));
        assert_eq!(rt; terminal.byte(1), b'7');
        Ok(())
    }
}

//! Reading a whole file.

ghost use Rattle.std.specs.Prelude.{◌≡◌, ℕ, ◌^◌, ◌<◌, ◌≤◌, List};
ghost use Rattle.pearl_io.specs.Outside.{Files, content, CountRose};
ghost use Rattle.pearl_io.specs.Fetched.{IsReadOf, IsWithin, OnFault};

use crate::outside::{Failed, Shelf};
use std::alloc::Global;

// How many bytes are fetched at once.
const PIECE: usize = 4096;

/// What came of reading a whole file up to a limit.
#[derive(Debug, Drop)]
pub enum Fetched {
    /// All bytes of the file.
    Whole(Vec<u8>),
    /// The file has more bytes than the limit, and these are its first ones, as many as the limit.
    TooLong(Vec<u8>),
    /// A call of the shelf failed after these bytes of the file.
    Fault(Vec<u8>),
    /// There was no memory for the bytes.
    NoMemory,
}

/// Reads the named file whole, if it has at most `limit` bytes. At most `limit` + 1 bytes are
/// fetched: the last of them shows that the file is too long.
///
/// `limit` is below 2^40 bytes. [`Fetched::Fault`] comes only where the shelf's count of faults
/// for this name rose, and [`Fetched::NoMemory`] may come at any time. The contract doesn't count
/// the calls of the shelf.
pub fn fetch_all<S: Shelf>(alloc: Global, shelf: &mut S, name: &str, limit: u64) -> Fetched
    requires { limit < 2 ^ 40 }
    ensures within { IsWithin limit result }
    ensures read { (files : Files) → S.holds shelf.old ≡ Some files →
        IsReadOf (content files name.now) limit result }
    ensures cause { OnFault result (CountRose (S.faults shelf.old name.now) (S.faults shelf.new name.now)) }
    ensures held { S.holds shelf.new ≡ S.holds shelf.old }
    ensures later { (other : List ℕ) → S.faults shelf.old other ≤ S.faults shelf.new other }
{
    let mut bytes = Vec::new(alloc);
    let mut buffer = [0; PIECE];
    loop {
        let left = limit as usize - bytes.len();
        let wanted = PIECE.min(left + 1);
        let count = match shelf.fetch(name, bytes.len() as u64, &mut buffer[..wanted]) {
            Ok(0) => return Fetched::Whole(bytes),
            Ok(count) => count,
            Err(Failed) => return Fetched::Fault(bytes),
        };
        let Ok(()) = bytes.extend_from_slice(&buffer[..count.min(left)]) else {
            return Fetched::NoMemory;
        };
        if count > left {
            return Fetched::TooLong(bytes);
        }
    }
}

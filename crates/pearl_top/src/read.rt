// The reading of a whole file.

ghost use Rattle.std.specs.Prelude.{◌≡◌, ◌<◌, ◌≤◌, ◌^◌, ℕ, List};
ghost use Rattle.pearl_io.specs.Outside.{CountRose};
ghost use Rattle.pearl_top.specs.Reading.{IsReadWhole, MayHave};

use crate::failure::Failure;
use pearl_io::{Fetched, Shelf, fetch_all};
use pearl_script::refusal::Refusal;
use std::alloc::Global;

/// The bytes of the named file, if it has at most `limit` bytes.
pub fn read_whole<S: Shelf>(
    alloc: Global,
    shelf: &mut S,
    name: &str,
    limit: u64,
) -> Result<Vec<u8>, Failure>
    requires { limit < 2 ^ 40 }
    ensures read { let rose = CountRose (S.faults shelf.old name.now) (S.faults shelf.new name.now) in
        (file : List ℕ) × MayHave (S.holds shelf.old) name.now file × IsReadWhole file limit rose result }
    ensures held { S.holds shelf.new ≡ S.holds shelf.old }
    ensures later { (other : List ℕ) → S.faults shelf.old other ≤ S.faults shelf.new other }
{
    match fetch_all(alloc, shelf, name, limit) {
        Fetched::Whole(bytes) => Ok(bytes),
        Fetched::TooLong(_) => Err(Failure::Refused(Refusal::TooLong(limit + 1))),
        Fetched::Fault(_) => Err(Failure::Refused(Refusal::Read)),
        Fetched::NoMemory => Err(Failure::Refused(Refusal::Memory)),
    }
}

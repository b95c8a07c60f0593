// Parts of a format that stand in lists, and the lists.

ghost use Rattle.std.specs.Prelude.{◌≡◌, ◌++◌, ℕ, List, length, OnOk};
ghost use Rattle.pearl_fields.specs.Codec.{Codec, number, number_bytes, counted, rolled, all_bytes};
ghost use Rattle.pearl_fields.specs.Reads.{Reads, ReadsList};

use crate::fault::ReadFault;
use crate::reader::Reader;
use crate::writer::put_number;
use std::alloc::{AllocError, Global};

/// A part that may stand in a list. What is read may depend on what is known of the members before it.
pub trait Part<S: Copy>: Drop {
    /// Its bytes, the same behind whatever members.
    ghost spelled: { Self → List ℕ };

    /// What it is behind members of which so much is known.
    ghost part: { S → Codec Self };

    /// What is known behind it.
    ghost after: { S → Self → S };

    /// Reads one behind members of which so much is known.
    fn read(reader: &mut Reader, alloc: Global, state: S) -> Result<Self, ReadFault>
        ensures { Reads (part state) reader.old reader.new result };

    /// What is known behind this member.
    fn next(&self, state: S) -> S
        ensures { result ≡ after state self.now };

    /// Appends its bytes.
    fn put(&self, out: &mut Vec<u8>) -> Result<(), AllocError>
        ensures { OnOk result (out.new.items ≡ out.old.items ++ spelled self.now) };
}

impl Part<()> for u64 {
    ghost spelled = { number_bytes };

    ghost part = { λ s. number };

    ghost after = { λ s x. s };

    fn read(reader: &mut Reader, _alloc: Global, _state: ()) -> Result<u64, ReadFault> {
        reader.number()
    }

    fn next(&self, _state: ()) {}

    fn put(&self, out: &mut Vec<u8>) -> Result<(), AllocError> {
        put_number(out, *self)?;
        Ok(())
    }
}

fn members<S: Copy, T: Part<S>>(
    reader: &mut Reader,
    alloc: Global,
    count: u64,
    state: S,
) -> Result<Vec<T>, ReadFault>
    ensures { ReadsList (rolled T.spelled T.part T.after state count) reader.old reader.new result }
{
    let mut items = Vec::new(alloc);
    let mut now = state;
    for _ in 0..count {
        let item = T::read(reader, alloc, now)?;
        now = item.next(now);
        items.push(item)?;
    }
    Ok(items)
}

/// A list behind its length, which is within bounds. Room is taken only for members that were read.
pub fn list<S: Copy, T: Part<S>>(
    reader: &mut Reader,
    alloc: Global,
    low: u64,
    high: u64,
    state: S,
) -> Result<Vec<T>, ReadFault>
    ensures { ReadsList (counted low high T.spelled T.part T.after state) reader.old reader.new result }
{
    let count = reader.number_in(low, high)?;
    let items = members(reader, alloc, count, state)?;
    Ok(items)
}

/// Appends a list behind its length.
pub fn put_list<S: Copy, T: Part<S>>(items: &[T], out: &mut Vec<u8>) -> Result<(), AllocError>
    ensures { OnOk result (out.new.items ≡ out.old.items ++ (number_bytes (length items.now) ++ all_bytes T.spelled items.now)) }
{
    put_number(out, items.len() as u64)?;
    for item in items {
        item.put(out)?;
    }
    Ok(())
}

// The bytes of snapshots, both ways.

ghost use Rattle.std.specs.Prelude.{◌≡◌, ◌<◌, ◌^◌, length, IfOk};
ghost use Rattle.pearl_fields.specs.Codec.{whole_read};
ghost use Rattle.pearl_fields.specs.Reads.{Reads};
ghost use Rattle.pearl_instructions.specs.Lawful.{IsObject};
ghost use Rattle.pearl_object.specs.Objects.{object, object_bytes};
ghost use Rattle.pearl_snap.specs.declared.snapshot.Snapshot as state;
ghost use Rattle.pearl_snap.specs.States.{saved};
ghost use Rattle.pearl_snap.specs.Snapshots.{embedded, snapshot, GivesWhole, IsThis, IsBad, snapshot_bytes};

use crate::fault::ReadFail;
use crate::state::{put_saved, read_saved};
use pearl_fields::fault::ReadFault;
use pearl_fields::part::put_list;
use pearl_fields::reader::Reader;
use pearl_fields::writer::put_number;
use pearl_instructions::object::{Object, Parts};
use pearl_object::fault::ReadFail as ObjectFail;
use pearl_object::object;
use pearl_object::states::{Alone, Before, Room};
use pearl_saved::saved::Saved;
use std::alloc::{AllocError as NoMemory, Global};

/// An object, and the state of a run of it.
#[derive(Drop)]
pub struct Snapshot {
    pub object: Object,
    pub saved: Saved,
}

// An object behind the number of its bytes.
fn read_object(reader: &mut Reader, alloc: Global) -> Result<Object, ReadFault>
    requires { length reader.old < 2 ^ 32 }
    ensures { Reads (embedded object) reader.old reader.new result }
{
    let field = reader.left();
    let count = reader.number()?;
    if (reader.left() as u64) < count {
        return Err(ReadFault::Bad(0));
    }
    let bytes = reader.take(count as usize);
    match object::read(alloc, bytes) {
        Ok(object) => Ok(object),
        Err(ObjectFail::BadObject(_)) => Err(ReadFault::Bad(field)),
        Err(ObjectFail::NoMemory) => Err(ReadFault::NoMemory),
    }
}

#[tactic(auto, unfolding(crate::specs::Snapshots::snapshot))]
fn whole(alloc: Global, bytes: &[u8]) -> Result<Snapshot, ReadFault>
    requires { length bytes.now < 2 ^ 32 }
    ensures { GivesWhole (whole_read snapshot bytes.now) result }
{
    let mut reader = Reader::new(bytes);
    reader.exactly(bytes.len(), &[80, 82, 83, 49])?;
    let object = read_object(&mut reader, alloc)?;
    let saved = read_saved(&mut reader, alloc)?;
    let left = reader.left();
    if left != 0 {
        return Err(ReadFault::Bad(left));
    }
    Ok(Snapshot { object, saved })
}

/// The object and the state that have these bytes. The place of a fault is a number of 32 bits, so there are fewer bytes than
/// 2^32.
pub fn read(alloc: Global, bytes: &[u8]) -> Result<Snapshot, ReadFail>
    requires { length bytes.now < 2 ^ 32 }
    // What is read has these bytes.
    ensures read { IfOk result (λ s. (bytes.now ≡ snapshot_bytes s.object s.saved) × saved.fits s.saved) }
    // A snapshot with these bytes is read, unless memory runs out.
    ensures only { (s : state.Snapshot) → IsObject s.object → saved.fits s.saved → bytes.now ≡ snapshot_bytes s.object s.saved → IsThis s result }
    // Else the place is that of the first bad field.
    ensures bad { IsBad bytes.now result }
{
    match whole(alloc, bytes) {
        Ok(snapshot) => Ok(snapshot),
        Err(ReadFault::Bad(left)) => Err(ReadFail::BadBytes(
            bytes.len().saturating_sub(left) as u32,
        )),
        Err(ReadFault::NoMemory) => Err(ReadFail::NoMemory),
    }
}

// As `object::write`, which asks for an `Object`.
#[tactic(auto, unfolding(pearl_object::specs::Objects::object, pearl_object::specs::Objects::parts))]
fn object_bytes(alloc: Global, object: &Parts) -> Result<Vec<u8>, NoMemory>
    ensures { IfOk result (λ bytes. bytes.items ≡ object_bytes object.now) }
{
    let mut out = Vec::new(alloc);
    out.extend_from_slice(&[80, 82, 76, 49])?;
    put_list::<Before, _>(object.devices.as_slice(), &mut out)?;
    put_list::<Alone, _>(object.semaphores.as_slice(), &mut out)?;
    put_list::<Room, _>(object.leaves.as_slice(), &mut out)?;
    put_list::<Alone, _>(object.formats.as_slice(), &mut out)?;
    put_list::<Alone, _>(object.procedures.as_slice(), &mut out)?;
    put_list::<Alone, _>(object.tasks.as_slice(), &mut out)?;
    Ok(out)
}

/// The bytes of an object and a state.
#[tactic(auto, unfolding(crate::specs::Snapshots::snapshot))]
pub fn write(alloc: Global, object: &Parts, saved: &Saved) -> Result<Vec<u8>, NoMemory>
    ensures { IfOk result (λ bytes. bytes.items ≡ snapshot_bytes object.now saved.now) }
{
    let inner = object_bytes(alloc, object)?;
    let mut out = Vec::new(alloc);
    out.extend_from_slice(&[80, 82, 83, 49])?;
    put_number(&mut out, inner.len() as u64)?;
    out.extend_from_slice(inner.as_slice())?;
    put_saved(&mut out, saved)?;
    Ok(out)
}

// The bytes of objects, both ways.

ghost use Rattle.std.specs.Prelude.{◌≡◌, ◌<◌, ◌++◌, ◌^◌, length, ℕ, List, IfOk, OnOk, Ok, Err};
ghost use Rattle.pearl_instructions.specs.declared.object.Parts.{Parts};
ghost use Rattle.pearl_instructions.specs.Lawful.{IsObject};
ghost use Rattle.pearl_object.specs.Objects.{parts, object, object_bytes, GivesWhole, IsThis, IsBad};
ghost use Rattle.pearl_fields.specs.Codec.{whole_read, IsBytes};
ghost use Rattle.pearl_fields.specs.Reads.{Reads};

use crate::codes::listed;
use crate::fault::ReadFail;
use crate::states::{Alone, Before, Room};
use pearl_fields::fault::ReadFault;
use pearl_fields::part::put_list;
use pearl_fields::reader::Reader;
use pearl_format::item::Item;
use pearl_instructions::object::{Leaf, Object, Parts, Procedure, Task};
use pearl_value::device::Device;
use pearl_value::listing::Listing;
use std::alloc::{AllocError as NoMemory, Global};

#[tactic(auto, unfolding(crate::specs::Objects::parts))]
fn read_parts(reader: &mut Reader, alloc: Global) -> Result<Parts, ReadFault>
    ensures { Reads parts reader.old reader.new result }
{
    let devices = listed::<Before, Device>(reader, alloc, 0, 396, Before { device: None })?;
    let semaphores = listed::<Alone, u32>(reader, alloc, 0, 1000, Alone {})?;
    let leaves = listed::<Room, Leaf>(reader, alloc, 0, u64::MAX, Room { left: 65536 })?;
    let formats = listed::<Alone, Listing<Item>>(reader, alloc, 0, u64::MAX, Alone {})?;
    let procedures = listed::<Alone, Procedure>(reader, alloc, 0, 200, Alone {})?;
    let tasks = listed::<Alone, Task>(reader, alloc, 0, 200, Alone {})?;
    Ok(Parts {
        devices,
        semaphores,
        leaves,
        formats,
        procedures,
        tasks,
    })
}

#[tactic(auto, unfolding(crate::specs::Objects::parts))]
fn put_parts(out: &mut Vec<u8>, value: &Parts) -> Result<(), NoMemory>
    ensures { OnOk result (out.new.items ≡ out.old.items ++ parts.bytes value.now) }
{
    put_list::<Before, Device>(value.devices.as_slice(), out)?;
    put_list::<Alone, u32>(value.semaphores.as_slice(), out)?;
    put_list::<Room, Leaf>(value.leaves.as_slice(), out)?;
    put_list::<Alone, Listing<Item>>(value.formats.as_slice(), out)?;
    put_list::<Alone, Procedure>(value.procedures.as_slice(), out)?;
    put_list::<Alone, Task>(value.tasks.as_slice(), out)?;
    Ok(())
}

#[tactic(auto, unfolding(crate::specs::Objects::object))]
fn whole(alloc: Global, bytes: &[u8]) -> Result<Parts, ReadFault>
    ensures { GivesWhole (whole_read object bytes.now) result }
{
    let mut reader = Reader::new(bytes);
    reader.exactly(bytes.len(), &[80, 82, 76, 49])?;
    let parts = read_parts(&mut reader, alloc)?;
    let left = reader.left();
    if left != 0 {
        return Err(ReadFault::Bad(left));
    }
    Ok(parts)
}

/// The object that has these bytes. The place of a fault is a number of 32 bits, so there are fewer bytes than 2^32.
pub fn read(alloc: Global, bytes: &[u8]) -> Result<Object, ReadFail>
    requires { length bytes.now < 2 ^ 32 }
    // What is read has these bytes.
    ensures read { IfOk result (λ o. bytes.now ≡ object_bytes o) }
    // It is what all of them are read as.
    ensures whole { IfOk result (λ o. whole_read object bytes.now ≡ Ok o) }
    // An object with these bytes is read, unless memory runs out.
    ensures only { (o : Parts) → IsObject o → bytes.now ≡ object_bytes o → IsThis o result }
    // Else the place is that of the first bad field.
    ensures bad { IsBad bytes.now result }
{
    match whole(alloc, bytes) {
        Ok(parts) => Ok(Object::new(parts)),
        Err(ReadFault::Bad(left)) => Err(ReadFail::BadObject(
            bytes.len().saturating_sub(left) as u32,
        )),
        Err(ReadFault::NoMemory) => Err(ReadFail::NoMemory),
    }
}

/// The bytes of an object.
#[tactic(auto, unfolding(crate::specs::Objects::object))]
pub fn write(alloc: Global, object: &Object) -> Result<Vec<u8>, NoMemory>
    ensures { IfOk result (λ bytes. bytes.items ≡ object_bytes object.now) }
{
    let mut out = Vec::new(alloc);
    out.extend_from_slice(&[80, 82, 76, 49])?;
    put_parts(&mut out, object.parts())?;
    Ok(out)
}

/// Two objects with the same bytes are one, and no object's bytes begin another's.
pub fn one_object()
    ensures { (o p : Parts) (more rest : List ℕ) → IsObject o → IsObject p → IsBytes (object_bytes o ++ more) → object_bytes o ++ more ≡ object_bytes p ++ rest → (o ≡ p) × (more ≡ rest) }
{}

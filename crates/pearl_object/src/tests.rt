// Objects' bytes by hand.

use crate::fault::ReadFail;
use crate::object::{read, write};
use std::alloc::{AllocError as NoMemory, Global};

// The place of the fault; none where the bytes, which are few, are an object's, and are written back as they were.
fn fault(alloc: Global, bytes: &[u8]) -> Result<Option<u32>, NoMemory> {
    if bytes.len() > 100 {
        return Ok(Some(u32::MAX));
    }
    match read(alloc, bytes) {
        Ok(object) => {
            let again = write(alloc, &object)?;
            let same = again.as_slice() == bytes;
            Ok(if same { None } else { Some(u32::MAX) })
        }
        Err(ReadFail::BadObject(place)) => Ok(Some(place)),
        Err(ReadFail::NoMemory) => Ok(Some(u32::MAX)),
    }
}

// Bytes, and the place of the fault.
type Row = (&'static [u8], Option<u32>);

static FIELDS: [Row; 11] = [
    // Nothing in it.
    (&[80, 82, 76, 49, 0, 0, 0, 0, 0, 0], None),
    // A task `t` of priority 255, with Const FIXED(31) 1, Jump 2 and End.
    (
        &[
            80, 82, 76, 49, 0, 0, 0, 0, 0, 1, 1, 116, 255, 1, 1, 0, 1, 3, 0, 0, 31, 2, 19, 2, 25, 0,
        ],
        None,
    ),
    // The first four bytes.
    (&[80, 82, 77], Some(0)),
    // A byte behind.
    (&[80, 82, 76, 49, 0, 0, 0, 0, 0, 0, 0], Some(10)),
    // Too many devices.
    (&[80, 82, 76, 49, 141, 131, 1], Some(4)),
    // A number that is cut.
    (&[80, 82, 76, 49, 141, 131], Some(6)),
    // A device's number.
    (&[80, 82, 76, 49, 2, 3, 1, 0, 31, 1, 1], Some(10)),
    // A longer spelling.
    (&[80, 82, 76, 49, 0, 129, 0], Some(5)),
    // More leaves than slots.
    (&[80, 82, 76, 49, 0, 0, 129, 128, 4], Some(9)),
    // No room is taken for what isn't there.
    (
        &[
            80, 82, 76, 49, 0, 0, 255, 255, 255, 255, 255, 255, 255, 255, 127,
        ],
        Some(15),
    ),
    // A constant of another kind.
    (
        &[80, 82, 76, 49, 0, 0, 1, 1, 97, 3, 1, 1, 0, 31, 0],
        Some(13),
    ),
];

/// An object with one task of this name, whose bytes are said to be so many.
macro_rules! named {
    ($count:literal: $($byte:literal)*) => {
        &[80, 82, 76, 49, 0, 0, 0, 0, 0, 1, $count, $($byte,)* 1, 1, 0, 0, 1, 25, 0]
    };
}

static NAMES: [Row; 10] = [
    (named!(0:), Some(10)),
    (named!(64: b'A'), Some(10)),
    (named!(2: b'9' b'A'), Some(11)),
    (named!(3: b'A' b'-' b'B'), Some(12)),
    (named!(3: b'A' b'9' b'_'), None),
    (named!(4: b'T' b'A' b'S' b'K'), Some(14)),
    (named!(2: b'I' b'N'), Some(12)),
    (named!(3: b'T' b'A' b'S'), None),
    (named!(5: b'T' b'A' b'S' b'K' b'S'), None),
    (named!(4: b't' b'a' b's' b'k'), None),
];

// A cut object is bad at its length.
static CUT: [Row; 10] = [
    (&[], Some(0)),
    (&[80], Some(1)),
    (&[80, 82], Some(2)),
    (&[80, 82, 76], Some(3)),
    (&[80, 82, 76, 49], Some(4)),
    (&[80, 82, 76, 49, 0], Some(5)),
    (&[80, 82, 76, 49, 0, 0], Some(6)),
    (&[80, 82, 76, 49, 0, 0, 0], Some(7)),
    (&[80, 82, 76, 49, 0, 0, 0, 0], Some(8)),
    (&[80, 82, 76, 49, 0, 0, 0, 0, 0], Some(9)),
];

// The first row whose place is another one.
fn first_other(alloc: Global, rows: &[Row]) -> Result<Option<usize>, NoMemory> {
    for (number, (bytes, place)) in rows.iter().enumerate() {
        if fault(alloc, bytes)? != *place {
            return Ok(Some(number));
        }
    }
    Ok(None)
}

#[test]
fn faults_have_the_place_of_their_field(rt: HostRuntime) -> Result<(), NoMemory> {
    for (name, rows) in [
        ("fields", FIELDS.as_slice()),
        ("names", NAMES.as_slice()),
        ("cut", CUT.as_slice()),
    ] {
        if let Some(number) = first_other(rt.alloc(), rows)? {
            assert!(rt; false, "row {number} of {name}");
        }
    }
    Ok(())
}

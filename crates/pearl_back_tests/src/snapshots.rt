// Snapshots' bytes by hand: that of an empty object, and that of a plant whose tasks are called, suspended and planned.

use pearl_snap::fault::ReadFail;
use pearl_snap::snapshot::{read, write};
use std::alloc::{AllocError as NoMemory, Global};

// The place of the fault; none where the bytes, which are few, are a snapshot's, and are written back as they were.
fn fault(alloc: Global, bytes: &[u8]) -> Result<Option<u32>, NoMemory> {
    if bytes.len() > 1000 {
        return Ok(Some(u32::MAX));
    }
    match read(alloc, bytes) {
        Ok(snapshot) => {
            let again = write(alloc, snapshot.object.parts(), &snapshot.saved)?;
            let same = again.as_slice() == bytes;
            Ok(if same { None } else { Some(u32::MAX) })
        }
        Err(ReadFail::BadBytes(place)) => Ok(Some(place)),
        Err(ReadFail::NoMemory) => Ok(Some(u32::MAX)),
    }
}

// An object with nothing in it, at rest.
pub(crate) const EMPTY: [u8; 24] = [
    80, 82, 83, 49, 10, 80, 82, 76, 49, 0, 0, 0, 0, 0, 0, 0, 0, 0, 0, 0, 0, 0, 0, 0,
];

// At 5.1 s task `a` waits in a procedure, which refers to a cell of `a`; `b` starts at 7 s, 2 s after an interrupt that has
// come; `c` is suspended, goes on at 7 s, keeps two starts, and is started each 5 s up to 20 s. A text and a value wait.
pub(crate) const PLANT: [u8; 254] = [
    80, 82, 83, 49, 150, 1, 80, 82, 76, 49, 3, 0, 1, 1, 1, 3, 2, 2, 0, 31, 1, 0, 1, 1, 110, 0, 31,
    1, 1, 0, 31, 14, 0, 1, 1, 0, 1, 5, 0, 31, 4, 8, 1, 0, 1, 0, 17, 0, 0, 31, 2, 40, 18, 54, 1, 0,
    24, 0, 3, 1, 97, 3, 1, 1, 0, 31, 5, 14, 3, 0, 1, 0, 31, 66, 0, 0, 4, 160, 31, 0, 0, 31, 18, 57,
    1, 4, 0, 0, 1, 0, 4, 144, 78, 0, 4, 192, 184, 2, 57, 2, 0, 3, 0, 57, 2, 0, 0, 0, 0, 0, 31, 8,
    2, 0, 15, 0, 23, 0, 25, 0, 1, 98, 4, 0, 0, 2, 5, 9, 0, 0, 0, 31, 2, 40, 10, 0, 25, 0, 1, 99, 5,
    0, 0, 1, 4, 0, 4, 176, 109, 59, 2, 54, 1, 0, 25, 0, 236, 39, 0, 3, 1, 0, 31, 14, 1, 0, 1, 1, 1,
    2, 104, 105, 1, 1, 0, 31, 10, 3, 1, 3, 0, 0, 0, 2, 1, 12, 1, 0, 0, 31, 10, 0, 0, 6, 1, 1, 0,
    31, 1, 0, 0, 0, 0, 0, 1, 1, 208, 15, 0, 0, 1, 216, 54, 0, 0, 9, 2, 5, 2, 5, 5, 1, 0, 216, 54,
    0, 0, 1, 216, 54, 0, 0, 1, 0, 0, 136, 39, 2, 160, 156, 1, 1, 0, 136, 39, 161, 156, 1, 5, 1, 3,
    2, 0, 0,
];

// Bytes at a place of a snapshot in place of the byte there, if any, and the place of the fault.
struct Change {
    at: usize,
    bytes: &'static [u8],
    place: Option<u32>,
}

/// Rows of changes.
macro_rules! changes {
    ($($at:literal: $bytes:tt => $place:expr;)*) => {
        [$(Change { at: $at, bytes: &$bytes, place: $place },)*]
    };
}

// None, and a byte behind.
static BEHIND_EMPTY: [Change; 2] = changes! {
    24: [] => None;
    24: [0] => Some(24);
};

// None, and those of one byte.
static CHANGES: [Change; 43] = changes! {
    254: [] => None;
    0: [81] => Some(0);
    4: [149] => Some(4);
    4: [151] => Some(4);
    6: [81] => Some(4);
    157: [0] => Some(156);
    158: [1] => None;
    159: [9] => None;
    160: [129, 128, 4] => Some(160);
    161: [5] => Some(161);
    162: [64] => Some(162);
    163: [15] => None;
    164: [233, 7] => Some(164);
    166: [100] => Some(166);
    167: [2] => Some(167);
    168: [100] => Some(168);
    169: [129, 32] => Some(169);
    170: [7] => None;
    172: [100] => Some(172);
    173: [129, 2] => Some(173);
    174: [6] => Some(174);
    177: [201] => Some(177);
    178: [3] => Some(178);
    179: [0] => None;
    180: [4] => Some(180);
    181: [2] => Some(181);
    182: [2] => Some(182);
    183: [202] => Some(183);
    184: [2] => None;
    186: [129, 32] => Some(186);
    187: [3] => Some(187);
    191: [128, 32] => Some(191);
    196: [5] => Some(196);
    198: [2] => Some(198);
    199: [1] => None;
    201: [255] => Some(201);
    205: [2] => None;
    209: [3] => Some(209);
    210: [2] => Some(210);
    237: [3] => Some(237);
    241: [2] => Some(241);
    248: [0] => None;
    249: [202, 1] => Some(249);
};

fn with_change(alloc: Global, bytes: &[u8], change: &Change) -> Result<Vec<u8>, NoMemory> {
    let mut changed = Vec::new(alloc);
    for (at, byte) in bytes.iter().enumerate() {
        if at == change.at {
            changed.extend_from_slice(change.bytes)?;
        } else {
            changed.push(*byte)?;
        }
    }
    if change.at >= bytes.len() {
        changed.extend_from_slice(change.bytes)?;
    }
    Ok(changed)
}

// The first change of the bytes of which the fault is at another place.
fn first_other(alloc: Global, bytes: &[u8], changes: &[Change]) -> Result<Option<usize>, NoMemory> {
    for (number, change) in changes.iter().enumerate() {
        let changed = with_change(alloc, bytes, change)?;
        if fault(alloc, changed.as_slice())? != change.place {
            return Ok(Some(number));
        }
    }
    Ok(None)
}

// The least length at which the bytes, cut, aren't bad at their length.
fn first_other_cut(alloc: Global, bytes: &[u8]) -> Result<Option<u32>, NoMemory> {
    let mut front = Vec::new(alloc);
    let mut len: u32 = 0;
    for byte in bytes {
        if fault(alloc, front.as_slice())? != Some(len) {
            return Ok(Some(len));
        }
        front.push(*byte)?;
        len = len.saturating_add(1);
    }
    Ok(None)
}

#[test]
fn faults_of_snapshots_have_the_place_of_their_field(rt: HostRuntime) -> Result<(), NoMemory> {
    for (name, bytes, changes) in [
        (
            "the empty object",
            EMPTY.as_slice(),
            BEHIND_EMPTY.as_slice(),
        ),
        ("the plant", PLANT.as_slice(), CHANGES.as_slice()),
    ] {
        if let Some(number) = first_other(rt.alloc(), bytes, changes)? {
            assert!(rt; false, "row {number} of {name}");
        }
        if let Some(len) = first_other_cut(rt.alloc(), bytes)? {
            assert!(rt; false, "{name} cut at {len}");
        }
    }
    Ok(())
}

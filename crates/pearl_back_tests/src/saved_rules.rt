// What bytes are restored to: those of the plant, cut, and with parts of its snapshot changed.

use crate::snapshots::{EMPTY, PLANT};
use pearl_snap::fault::SnapFault;
use pearl_snap::restore::{restore, save};
use pearl_snap::state_rule::StateRule;
use std::alloc::{AllocError as NoMemory, Global};

#[derive(Clone, Copy, PartialEq, Eq)]
enum Verdict {
    /// No snapshot has the bytes.
    Bad(u32),
    Breaks(StateRule),
    /// They are restored, and what is restored is saved as the same bytes.
    Lawful,
    /// It is saved as others, or the bytes are many.
    Other,
}

fn judged(alloc: Global, bytes: &[u8]) -> Result<Verdict, NoMemory> {
    if bytes.len() > 1000 {
        return Ok(Verdict::Other);
    }
    Ok(match restore(alloc, bytes) {
        Ok((object, saved)) => {
            let again = save(alloc, &object, &saved)?;
            let same = again.as_slice() == bytes;
            if same {
                Verdict::Lawful
            } else {
                Verdict::Other
            }
        }
        Err(SnapFault::BadBytes(place)) => Verdict::Bad(place),
        Err(SnapFault::BadState(rule)) => Verdict::Breaks(rule),
        Err(SnapFault::NoMemory) => return Err(NoMemory),
    })
}

// So many bytes of the plant's snapshot, from one on, and what stands in their place.
struct Edit {
    from: usize,
    count: usize,
    bytes: &'static [u8],
}

const NO_EDIT: Edit = Edit {
    from: 0,
    count: 0,
    bytes: &[],
};

impl Edit {
    fn covers(&self, at: usize) -> bool {
        at >= self.from && at - self.from < self.count
    }

    fn begin(&self, out: &mut Vec<u8>, at: usize) -> Result<(), NoMemory> {
        if at == self.from {
            out.extend_from_slice(self.bytes)?;
        }
        Ok(())
    }
}

struct Row {
    first: Edit,
    second: Edit,
    verdict: Verdict,
}

/// Rows of one edit.
macro_rules! rows {
    ($($from:literal, $count:literal: $bytes:tt => $verdict:expr;)*) => {
        [$(Row {
            first: Edit { from: $from, count: $count, bytes: &$bytes },
            second: NO_EDIT,
            verdict: $verdict,
        },)*]
    };
}

/// Rows of two edits.
macro_rules! pairs {
    ($($from:literal, $count:literal: $bytes:tt and $later:literal, $more:literal: $others:tt => $verdict:expr;)*) => {
        [$(Row {
            first: Edit { from: $from, count: $count, bytes: &$bytes },
            second: Edit { from: $later, count: $more, bytes: &$others },
            verdict: $verdict,
        },)*]
    };
}

const LAWFUL: Verdict = Verdict::Lawful;

const N1: Verdict = Verdict::Breaks(StateRule::Validity);

const N2: Verdict = Verdict::Breaks(StateRule::Parts);

const N3: Verdict = Verdict::Breaks(StateRule::Numbers);

const N4: Verdict = Verdict::Breaks(StateRule::Plans);

const N5: Verdict = Verdict::Breaks(StateRule::Stacks);

const N6: Verdict = Verdict::Breaks(StateRule::References);

// No edit, instructions that break a rule of the validator, and bytes of an object that are none.
static OBJECTS: [Row; 9] = rows! {
    0, 0: [] => LAWFUL;
    40, 1: [3] => N1;
    46, 1: [4] => N1;
    56, 1: [25] => N1;
    84, 1: [3] => N1;
    118, 1: [24] => N1;
    6, 1: [81] => Verdict::Bad(4);
    118, 1: [73] => Verdict::Bad(4);
    5, 151: [255, 255, 255, 255, 15] => Verdict::Bad(108);
};

// Slots, counts, switches, terminals and inputs: how many there are, and what they hold.
static PARTS: [Row; 22] = rows! {
    160, 4: [0] => N2;
    160, 4: [2, 0, 31, 14, 0, 31, 14] => N2;
    161, 1: [1] => N2;
    162, 1: [3] => N2;
    164, 2: [0] => N2;
    164, 2: [2, 0, 0] => N2;
    165, 1: [128, 128, 128, 128, 8] => N2;
    165, 1: [255, 255, 255, 255, 7] => LAWFUL;
    166, 2: [0] => N2;
    166, 2: [2, 1, 1] => N2;
    168, 4: [0] => N2;
    168, 4: [2, 2, 104, 105, 0] => N2;
    170, 1: [9] => N2;
    170, 1: [10] => LAWFUL;
    170, 1: [31] => N2;
    170, 1: [32] => LAWFUL;
    170, 1: [126] => LAWFUL;
    170, 1: [127] => N2;
    172, 5: [0] => N2;
    172, 5: [2, 1, 0, 31, 10, 0] => N2;
    174, 1: [1] => N2;
    175, 1: [30] => N2;
};

// The moment, the clock, who acted last, priorities and kept starts.
static NUMBERS: [Row; 12] = rows! {
    156, 2: [129, 128, 128, 128, 128, 32] => N3;
    156, 2: [128, 128, 128, 128, 128, 32] => LAWFUL;
    158, 1: [128, 184, 153, 41] => N3;
    158, 1: [255, 183, 153, 41] => LAWFUL;
    159, 1: [4] => N3;
    159, 1: [0] => LAWFUL;
    179, 1: [0] => N3;
    179, 1: [255] => LAWFUL;
    217, 1: [0] => N3;
    219, 1: [0] => N3;
    218, 1: [3, 5] => LAWFUL;
    248, 1: [0] => N3;
};

// What plans wait for, their lengths of time, their ends and their series.
static PLANS: [Row; 17] = rows! {
    203, 1: [1, 0, 5, 0, 0, 1, 7, 0, 0] => N4;
    205, 1: [2] => N4;
    205, 1: [9] => N4;
    205, 1: [0] => LAWFUL;
    206, 2: [129, 128, 128, 128, 128, 32] => N4;
    206, 2: [128, 128, 128, 128, 128, 32] => LAWFUL;
    208, 1: [129, 128, 128, 128, 128, 32] => N4;
    209, 1: [1, 128, 184, 153, 41] => N4;
    209, 1: [1, 255, 183, 153, 41] => LAWFUL;
    210, 5: [0] => LAWFUL;
    211, 2: [129, 128, 128, 128, 128, 128, 1] => N4;
    211, 2: [128, 128, 128, 128, 128, 128, 1] => LAWFUL;
    213, 1: [129, 128, 128, 128, 128, 32] => N4;
    214, 1: [129, 128, 128, 128, 128, 32] => LAWFUL;
    238, 3: [129, 128, 128, 128, 128, 32] => N4;
    238, 3: [128, 128, 128, 128, 128, 32] => LAWFUL;
    241, 7: [0] => N4;
};

// Frames at other places, of other routines, with other cells; exchanged, missing, and one too many.
static FRAMES: [Row; 24] = rows! {
    183, 19: [0] => N5;
    183, 19: [1, 1, 12, 1, 0, 0, 31, 10, 0] => N5;
    183, 19: [1, 1, 13, 1, 0, 0, 31, 10, 0] => LAWFUL;
    183, 19: [1, 1, 12, 1, 0, 0, 31, 10, 1, 1, 0, 31, 1, 0, 0] => LAWFUL;
    183, 19: [1, 0, 6, 1, 1, 0, 31, 1, 0, 0, 0] => N5;
    184, 18: [0, 6, 1, 1, 0, 31, 1, 0, 0, 0, 1, 12, 1, 0, 0, 31, 10, 0] => N5;
    184, 1: [2] => N5;
    184, 1: [4] => N5;
    185, 1: [11] => N5;
    186, 5: [0] => N5;
    187, 4: [1, 0, 31, 1, 0, 0] => N5;
    189, 1: [30] => N5;
    191, 1: [1, 1, 0, 31, 1, 0, 0] => N5;
    192, 1: [1] => N5;
    193, 1: [7] => LAWFUL;
    193, 1: [8] => N5;
    193, 1: [1] => N5;
    194, 7: [0] => N5;
    195, 6: [0, 0, 31, 10] => N5;
    195, 6: [2, 0, 31, 1, 0, 0, 1, 2, 2] => N5;
    201, 1: [1, 1, 0, 31, 1, 0, 0] => N5;
    251, 1: [1] => N5;
    251, 1: [3] => LAWFUL;
    251, 1: [4] => N5;
};

// Operands: those of the place, one missing, one of another kind, in another order, one too many.
static OPERANDS: [Row; 9] = pairs! {
    193, 1: [1] and 201, 1: [1, 1, 0, 31, 1, 0, 0] => LAWFUL;
    193, 1: [1] and 201, 1: [1, 0, 0, 31, 10] => N5;
    193, 1: [1] and 201, 1: [1, 1, 0, 30, 1, 0, 0] => N5;
    193, 1: [1] and 201, 1: [1, 2, 0, 31, 1, 0, 0, 1, 2, 2] => N5;
    193, 1: [1] and 201, 1: [2, 1, 0, 31, 1, 0, 0, 1, 0, 31, 1, 0, 0] => N5;
    193, 1: [3] and 201, 1: [2, 1, 0, 31, 1, 0, 0, 0, 0, 31, 10] => LAWFUL;
    193, 1: [3] and 201, 1: [2, 0, 0, 31, 10, 1, 0, 31, 1, 0, 0] => N5;
    193, 1: [3] and 201, 1: [1, 1, 0, 31, 1, 0, 0] => N5;
    251, 1: [1] and 253, 1: [1, 0, 4, 20] => LAWFUL;
};

// References of cells and of operands.
static REFERENCES: [Row; 8] = pairs! {
    198, 3: [0, 0] and 0, 0: [] => LAWFUL;
    198, 3: [0, 1] and 0, 0: [] => N6;
    199, 1: [1] and 0, 0: [] => N6;
    200, 1: [1] and 0, 0: [] => N6;
    193, 1: [1] and 201, 1: [1, 1, 0, 31, 1, 1, 0] => N6;
    193, 1: [1] and 201, 1: [1, 1, 0, 31, 1, 2, 0] => N6;
    193, 1: [1] and 201, 1: [1, 1, 0, 31, 0, 0] => LAWFUL;
    183, 19: [1, 1, 12, 1, 0, 0, 31, 10, 1, 1, 0, 31, 1, 1, 0] and 0, 0: [] => N6;
};

// Two rules that are broken.
static BOTH: [Row; 14] = pairs! {
    118, 1: [24] and 161, 1: [5] => Verdict::Bad(161);
    118, 1: [24] and 165, 1: [128, 128, 128, 128, 8] => N1;
    118, 1: [24] and 193, 1: [1] => N1;
    165, 1: [128, 128, 128, 128, 8] and 249, 1: [202, 1] => Verdict::Bad(253);
    165, 1: [128, 128, 128, 128, 8] and 158, 1: [128, 184, 153, 41] => N2;
    162, 1: [3] and 205, 1: [2] => N2;
    165, 1: [128, 128, 128, 128, 8] and 193, 1: [1] => N2;
    162, 1: [3] and 199, 1: [1] => N2;
    158, 1: [128, 184, 153, 41] and 205, 1: [2] => N3;
    219, 1: [0] and 193, 1: [1] => N3;
    219, 1: [0] and 200, 1: [9] => N3;
    205, 1: [2] and 193, 1: [1] => N4;
    205, 1: [2] and 199, 1: [1] => N4;
    193, 1: [1] and 199, 1: [1] => N5;
};

fn with_edits(alloc: Global, row: &Row) -> Result<Vec<u8>, NoMemory> {
    let mut bytes = Vec::new(alloc);
    for (at, byte) in PLANT.iter().enumerate() {
        row.first.begin(&mut bytes, at)?;
        row.second.begin(&mut bytes, at)?;
        if !row.first.covers(at) && !row.second.covers(at) {
            bytes.push(*byte)?;
        }
    }
    Ok(bytes)
}

// The first row whose verdict is another one.
fn first_other(alloc: Global, rows: &[Row]) -> Result<Option<usize>, NoMemory> {
    for (number, row) in rows.iter().enumerate() {
        let bytes = with_edits(alloc, row)?;
        if judged(alloc, bytes.as_slice())? != row.verdict {
            return Ok(Some(number));
        }
    }
    Ok(None)
}

#[test]
fn the_least_broken_rule_is_told(rt: HostRuntime) -> Result<(), NoMemory> {
    for (name, rows) in [
        ("objects", OBJECTS.as_slice()),
        ("parts", PARTS.as_slice()),
        ("numbers", NUMBERS.as_slice()),
        ("plans", PLANS.as_slice()),
        ("frames", FRAMES.as_slice()),
        ("operands", OPERANDS.as_slice()),
        ("references", REFERENCES.as_slice()),
        ("both", BOTH.as_slice()),
    ] {
        if let Some(number) = first_other(rt.alloc(), rows)? {
            assert!(rt; false, "row {number} of {name}");
        }
    }
    Ok(())
}

// The least length at which the bytes, cut, aren't bad at their length.
fn first_other_cut(alloc: Global, bytes: &[u8]) -> Result<Option<u32>, NoMemory> {
    let mut front = Vec::new(alloc);
    let mut len: u32 = 0;
    for byte in bytes {
        if judged(alloc, front.as_slice())? != Verdict::Bad(len) {
            return Ok(Some(len));
        }
        front.push(*byte)?;
        len = len.saturating_add(1);
    }
    Ok(None)
}

#[test]
fn a_cut_snapshot_is_not_restored(rt: HostRuntime) -> Result<(), NoMemory> {
    for (name, bytes) in [
        ("the empty object", EMPTY.as_slice()),
        ("the plant", PLANT.as_slice()),
    ] {
        if judged(rt.alloc(), bytes)? != LAWFUL {
            assert!(rt; false, "{name}");
        }
        if let Some(len) = first_other_cut(rt.alloc(), bytes)? {
            assert!(rt; false, "{name} cut at {len}");
        }
    }
    Ok(())
}

#[test]
fn rules_have_their_numbers(rt: HostRuntime) {
    assert!(rt; StateRule::Validity.number() == 1);
    assert!(rt; StateRule::Parts.number() == 2);
    assert!(rt; StateRule::References.number() == 6);
}

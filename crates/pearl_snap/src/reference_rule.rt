// What the references of a run must name.

ghost use Rattle.std.specs.Prelude.{◌≡◌, ◌↔◌, ◌+◌, ◌<◌, [], IsTrue, Some, length, get_or, option_map, slice_get, take};
ghost use Rattle.std.specs.List.{AllByRecursion};
ghost use Rattle.pearl_value.specs.Cells.{kind_of};
ghost use Rattle.pearl_instructions.specs.declared.object.Parts.{Parts as Object};
ghost use Rattle.pearl_saved.specs.Rules.{own_kind, HasStacks, AllRefer};
ghost use Rattle.pearl_snap.specs.Parts.{HasParts};
ghost use Rattle.pearl_snap.specs.Leads.{Leads, AllLead};

use pearl_saved::saved::{FrameRecord, Saved, SavedCell, Target};
use pearl_value::cell::Cell;
use pearl_value::conversion;
use pearl_value::kind::Kind;
use pearl_value::listing::Listing;

fn is_slot_of(slots: &[Cell], kind: Kind, slot: u64) -> bool
    ensures { IsTrue result ↔ (option_map kind_of (slice_get slots.now slot) ≡ Some kind) }
{
    match slots.get(slot as usize) {
        Some(value) => conversion::kind(value) == kind,
        None => false,
    }
}

fn is_own_of(frames: &[FrameRecord], kind: Kind, frame: u64, cell: u64) -> bool
    ensures { IsTrue result ↔ (own_kind frames.now frame cell ≡ Some kind) }
{
    match frames.get(frame as usize) {
        Some(frame) => match frame.cells.as_slice().get(cell as usize) {
            Some(SavedCell::Value(value)) => conversion::kind(value) == kind,
            _ => false,
        },
        None => false,
    }
}

fn leads(slots: &[Cell], frames: &[FrameRecord], cell: &SavedCell) -> bool
    ensures { IsTrue result ↔ Leads slots.now frames.now cell.now }
{
    match cell {
        SavedCell::Value(_) => true,
        SavedCell::Variable(reference) => match reference.target {
            Target::Slot(slot) => is_slot_of(slots, reference.kind, slot),
            Target::Own { frame, cell } => is_own_of(frames, reference.kind, frame, cell),
        },
        SavedCell::Array(_) => false,
    }
}

fn all_lead(slots: &[Cell], frames: &[FrameRecord], cells: &[SavedCell]) -> bool
    ensures { IsTrue result ↔ AllByRecursion (Leads slots.now frames.now) cells.now }
{
    for cell in cells {
        if !leads(slots, frames, cell) {
            return false;
        }
    }
    true
}

/// Whether the references of a stack lead to values of their kinds, the lowest frame standing first.
pub fn stack_leads(slots: &[Cell], frames: &[FrameRecord]) -> bool
    ensures { IsTrue result ↔ AllLead slots.now [] frames.now }
{
    for at in 0..frames.len() {
        let frame = &frames[at];
        if !all_lead(slots, &frames[..at], frame.cells.as_slice()) {
            return false;
        }
        if !all_lead(slots, &frames[..at + 1], frame.operands.as_slice()) {
            return false;
        }
    }
    true
}

fn stacks_lead(slots: &[Cell], stacks: &[Listing<FrameRecord>]) -> bool
    ensures { IsTrue result ↔ AllByRecursion (AllLead slots.now []) stacks.now }
{
    for frames in stacks {
        if !stack_leads(slots, frames.as_slice()) {
            return false;
        }
    }
    true
}

/// Whether the references in all stacks lead to values of their kinds: in a state that keeps N2 and N5, whether they name what
/// is there (N6).
pub fn references_lead(saved: &Saved) -> bool
    ensures value { IsTrue result ↔ AllByRecursion (AllLead saved.now.core.slots []) saved.now.stacks }
    ensures rule { (o : Object) → HasParts o saved.now.core → HasStacks o 0 saved.now.core.tasks saved.now.stacks → IsTrue result ↔ AllByRecursion (AllRefer o []) saved.now.stacks }
{
    stacks_lead(saved.core.slots.as_slice(), saved.stacks.as_slice())
}

// What is saved of a run: its core, and the stack of each task.

use pearl_instructions::instr::Bounds;
use pearl_records::record::CoreRecord;
use pearl_value::cell::Cell;
use pearl_value::kind::Kind;
use pearl_value::listing::Listing;

/// What a reference leads to. Numbers are as they were read: a rule on the whole state says which of them name something.
#[derive(Clone, Copy)]
pub enum Target {
    /// A slot of the module.
    Slot(u64),
    /// A cell of a frame of the task's own stack, whose lowest frame is 0.
    Own { frame: u64, cell: u64 },
}

/// A reference to a variable of this kind.
#[derive(Clone, Copy)]
pub struct Reference {
    pub kind: Kind,
    pub target: Target,
}

/// A reference to an array: to its first element, and the bounds of its dimensions.
#[derive(Drop)]
pub struct ArrayReference {
    pub first: Reference,
    pub bounds: Listing<Bounds>,
}

/// What a cell of a frame holds, or an operand.
#[derive(Drop)]
pub enum SavedCell {
    /// A value, which is no reference.
    Value(Cell),
    Variable(Reference),
    Array(ArrayReference),
}

/// A routine that was entered and hasn't ended.
#[derive(Drop)]
pub struct FrameRecord {
    /// The routine by its number: the procedures come first, then the tasks.
    pub routine: u64,
    /// The instruction at which it goes on, from 0; where it has called another routine, that call.
    pub place: u64,
    pub cells: Listing<SavedCell>,
    /// The operands, the one that was pushed first coming first.
    pub operands: Listing<SavedCell>,
}

/// What is saved of a run: its core, and for each task its stack, the lowest frame first. A task's frames are at most 201,
/// and they have at most 4,096 cells and operands together; a dormant task has none.
#[derive(Drop)]
pub struct Saved {
    pub core: CoreRecord,
    pub stacks: Listing<Listing<FrameRecord>>,
}

// What is known of the members of a list that stand before one; and what stands together in the list of tasks.

use pearl_records::record::TaskRecord;
use pearl_saved::saved::FrameRecord;
use pearl_value::listing::Listing;

/// Nothing need be known.
#[derive(Clone, Copy)]
pub struct Free {}

/// How many cells and operands a task's frames may still have.
#[derive(Clone, Copy)]
pub struct CellRoom {
    pub left: u64,
}

/// A task with its stack, the lowest frame first.
#[derive(Drop)]
pub struct SavedTask {
    pub row: TaskRecord,
    pub frames: Listing<FrameRecord>,
}

/// Tasks, and their stacks.
#[derive(Drop)]
pub struct TaskLists {
    pub rows: Listing<TaskRecord>,
    pub stacks: Listing<Listing<FrameRecord>>,
}

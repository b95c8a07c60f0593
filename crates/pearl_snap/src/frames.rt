// The bytes of tasks with their stacks, both ways.

ghost use Rattle.std.specs.Prelude.{◌≡◌, ◌≤◌, ◌++◌, OnOk};
ghost use Rattle.pearl_fields.specs.Codec.{arm_at, shaped};
ghost use Rattle.pearl_fields.specs.Reads.{Reads};
ghost use Rattle.pearl_snap.specs.Tasks.{frame, all_cells, after_frame, active_fields, made_active, acting, active_tag, task, task_arms};

use crate::parts::listed;
use crate::plans::{put_activation, put_continuation, read_activation, read_continuation};
use crate::states::{CellRoom, Free, SavedTask};
use pearl_fields::fault::ReadFault;
use pearl_fields::part::{Part, put_list};
use pearl_fields::reader::Reader;
use pearl_fields::writer::put_number;
use pearl_records::record::{Standing, TaskRecord};
use pearl_saved::saved::{FrameRecord, SavedCell};
use pearl_value::listing::Listing;
use std::alloc::{AllocError, Global};

/// Reads a frame for whose cells and operands there is so much room.
#[tactic(auto, unfolding(crate::specs::Tasks::frame))]
pub fn read_frame(
    reader: &mut Reader,
    alloc: Global,
    room: CellRoom,
) -> Result<FrameRecord, ReadFault>
    ensures { Reads (frame room) reader.old reader.new result }
{
    let routine = reader.number()?;
    let place = reader.number()?;
    let cells = listed::<Free, SavedCell>(reader, alloc, 0, room.left, Free {})?;
    let left = room.left.saturating_sub(cells.as_slice().len() as u64);
    let operands = listed::<Free, SavedCell>(reader, alloc, 0, left, Free {})?;
    Ok(FrameRecord {
        routine,
        place,
        cells,
        operands,
    })
}

/// Appends a frame.
#[tactic(auto, unfolding(crate::specs::Tasks::frame))]
pub fn put_frame(out: &mut Vec<u8>, value: &FrameRecord) -> Result<(), AllocError>
    ensures { OnOk result (out.new.items ≡ out.old.items ++ (frame all_cells).bytes value.now) }
{
    put_number(out, value.routine)?;
    put_number(out, value.place)?;
    put_list::<Free, SavedCell>(value.cells.as_slice(), out)?;
    put_list::<Free, SavedCell>(value.operands.as_slice(), out)?;
    Ok(())
}

impl Part<CellRoom> for FrameRecord {
    ghost spelled = { (frame all_cells).bytes };

    ghost part = { frame };

    ghost after = { after_frame };

    fn read(reader: &mut Reader, alloc: Global, room: CellRoom) -> Result<FrameRecord, ReadFault> {
        read_frame(reader, alloc, room)
    }

    fn next(&self, room: CellRoom) -> CellRoom {
        let left = room.left.saturating_sub(self.cells.as_slice().len() as u64);
        CellRoom {
            left: left.saturating_sub(self.operands.as_slice().len() as u64),
        }
    }

    fn put(&self, out: &mut Vec<u8>) -> Result<(), AllocError> {
        put_frame(out, self)?;
        Ok(())
    }
}

#[tactic(auto, unfolding(crate::specs::Tasks::acting))]
fn read_active(reader: &mut Reader, alloc: Global, suspended: bool) -> Result<SavedTask, ReadFault>
    ensures { Reads (shaped active_fields (made_active suspended) acting) reader.old reader.new result }
{
    let priority = reader.byte()?;
    let kept = listed::<Free, u8>(reader, alloc, 0, 3, Free {})?;
    let continuation = read_continuation(reader)?;
    let activation = read_activation(reader)?;
    let frames = listed::<CellRoom, FrameRecord>(reader, alloc, 0, 201, CellRoom { left: 4096 })?;
    let standing = Standing::Active {
        priority,
        suspended,
        kept,
    };
    Ok(SavedTask {
        row: TaskRecord {
            standing,
            continuation,
            activation,
        },
        frames,
    })
}

/// Reads a task with its stack.
#[tactic(auto, unfolding(crate::specs::Tasks::task))]
pub fn read_task(reader: &mut Reader, alloc: Global) -> Result<SavedTask, ReadFault>
    ensures { Reads task reader.old reader.new result }
{
    let tag = reader.byte_in(0, 2)?;
    task_at(reader, alloc, tag)
}

fn task_at(reader: &mut Reader, alloc: Global, tag: u8) -> Result<SavedTask, ReadFault>
    requires { tag ≤ 2 }
    ensures { Reads (arm_at task_arms tag) reader.old reader.new result }
{
    match tag {
        0 => {
            let continuation = read_continuation(reader)?;
            let activation = read_activation(reader)?;
            Ok(SavedTask {
                row: TaskRecord {
                    standing: Standing::Dormant,
                    continuation,
                    activation,
                },
                frames: Listing::new(Vec::new(alloc)),
            })
        }
        1 => read_active(reader, alloc, false),
        2 => read_active(reader, alloc, true),
        _ => unreachable!(),
    }
}

fn active_tag(suspended: bool) -> u8
    ensures { result ≡ active_tag suspended }
{
    if suspended { 2 } else { 1 }
}

// What stands behind the first byte of a task that isn't dormant.
#[tactic(auto, unfolding(crate::specs::Tasks::acting))]
fn put_acting(
    out: &mut Vec<u8>,
    priority: u8,
    kept: &[u8],
    row: &TaskRecord,
    frames: &[FrameRecord],
) -> Result<(), AllocError>
    ensures { OnOk result (out.new.items ≡ out.old.items ++ acting.bytes (priority, (kept.now, (row.now.continuation, (row.now.activation, frames.now))))) }
{
    out.push(priority)?;
    put_list::<Free, u8>(kept, out)?;
    put_continuation(out, row.continuation)?;
    put_activation(out, row.activation)?;
    put_list::<CellRoom, FrameRecord>(frames, out)?;
    Ok(())
}

/// Appends a task with its stack; a dormant one has none.
#[tactic(auto, unfolding(crate::specs::Tasks::task))]
pub fn put_task(
    out: &mut Vec<u8>,
    row: &TaskRecord,
    frames: &[FrameRecord],
) -> Result<(), AllocError>
    ensures { OnOk result (out.new.items ≡ out.old.items ++ task.bytes (record { row = row.now; frames = frames.now })) }
{
    match &row.standing {
        Standing::Dormant => {
            out.push(0)?;
            put_continuation(out, row.continuation)?;
            put_activation(out, row.activation)?;
        }
        Standing::Active {
            priority,
            suspended,
            kept,
        } => {
            out.push(active_tag(*suspended))?;
            put_acting(out, *priority, kept.as_slice(), row, frames)?;
        }
    }
    Ok(())
}

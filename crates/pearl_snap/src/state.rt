// The bytes of the state of a run, both ways.

ghost use Rattle.std.specs.Prelude.{◌≡◌, ◌++◌, OnOk};
ghost use Rattle.pearl_fields.specs.Codec.{rolled};
ghost use Rattle.pearl_fields.specs.Reads.{Reads};
ghost use Rattle.pearl_snap.specs.declared.states.Free.{Free};
ghost use Rattle.pearl_snap.specs.Lists.{free};
ghost use Rattle.pearl_snap.specs.Tasks.{task};
ghost use Rattle.pearl_snap.specs.States.{slots, counts, switches, terminals, inputs, tasks_of, tasks, saved, GivesTasks};

use crate::frames::{put_task, read_task};
use crate::parts::{listed, put_maybe_number, read_maybe_number};
use crate::states::{Free, TaskLists};
use pearl_fields::fault::ReadFault;
use pearl_fields::part::put_list;
use pearl_fields::reader::Reader;
use pearl_fields::writer::put_number;
use pearl_records::record::{CoreRecord, TaskRecord};
use pearl_saved::saved::{FrameRecord, Saved};
use pearl_value::cell::Cell;
use pearl_value::listing::Listing;
use std::alloc::{AllocError, Global};

// So many tasks with their stacks.
fn read_rows(reader: &mut Reader, alloc: Global, count: u64) -> Result<TaskLists, ReadFault>
    ensures { GivesTasks ((rolled task.bytes (λ (s : Free). task) (λ s x. s) free count).read reader.old) reader.new result }
{
    let mut rows = Vec::new(alloc);
    let mut stacks = Vec::new(alloc);
    for _ in 0..count {
        let task = read_task(reader, alloc)?;
        rows.push(task.row)?;
        stacks.push(task.frames)?;
    }
    Ok(TaskLists {
        rows: Listing::new(rows),
        stacks: Listing::new(stacks),
    })
}

fn read_tasks(reader: &mut Reader, alloc: Global) -> Result<TaskLists, ReadFault>
    ensures { GivesTasks (tasks.read reader.old) reader.new result }
{
    let count = reader.number_in(0, 200)?;
    read_rows(reader, alloc, count)
}

fn put_tasks(
    out: &mut Vec<u8>,
    rows: &[TaskRecord],
    stacks: &[Listing<FrameRecord>],
) -> Result<(), AllocError>
    ensures { OnOk result (out.new.items ≡ out.old.items ++ tasks.bytes (tasks_of rows.now stacks.now)) }
{
    let count = rows.len().min(stacks.len());
    put_number(out, count as u64)?;
    for i in 0..count {
        put_task(out, &rows[i], stacks[i].as_slice())?;
    }
    Ok(())
}

/// Reads the state of a run.
#[tactic(auto, unfolding(crate::specs::States::saved))]
pub fn read_saved(reader: &mut Reader, alloc: Global) -> Result<Saved, ReadFault>
    ensures { Reads saved reader.old reader.new result }
{
    let moment = reader.number()?;
    let clock = reader.number()?;
    let last = read_maybe_number(reader)?;
    let slots = listed::<Free, Cell>(reader, alloc, 0, 65536, Free {})?;
    let counts = listed::<Free, u64>(reader, alloc, 0, 1000, Free {})?;
    let switches = listed::<Free, bool>(reader, alloc, 0, 99, Free {})?;
    let terminals = listed::<Free, Listing<u8>>(reader, alloc, 0, 99, Free {})?;
    let inputs = listed::<Free, Listing<Cell>>(reader, alloc, 0, 99, Free {})?;
    let lists = read_tasks(reader, alloc)?;
    Ok(Saved {
        core: CoreRecord {
            moment,
            clock,
            last,
            slots,
            counts,
            switches,
            terminals,
            inputs,
            tasks: lists.rows,
        },
        stacks: lists.stacks,
    })
}

/// Appends what the module's variables, semaphores and devices hold.
pub fn put_held(out: &mut Vec<u8>, core: &CoreRecord) -> Result<(), AllocError>
    ensures { OnOk result (out.new.items ≡ out.old.items ++ (slots.bytes core.now.slots ++ (counts.bytes core.now.counts ++ (switches.bytes core.now.switches ++ (terminals.bytes core.now.terminals ++ inputs.bytes core.now.inputs))))) }
{
    put_list::<Free, Cell>(core.slots.as_slice(), out)?;
    put_list::<Free, u64>(core.counts.as_slice(), out)?;
    put_list::<Free, bool>(core.switches.as_slice(), out)?;
    put_list::<Free, Listing<u8>>(core.terminals.as_slice(), out)?;
    put_list::<Free, Listing<Cell>>(core.inputs.as_slice(), out)?;
    Ok(())
}

/// Appends the state of a run. Where there are more tasks than stacks, or the other way round, those are left out that lack
/// theirs.
#[tactic(auto, unfolding(crate::specs::States::saved))]
pub fn put_saved(out: &mut Vec<u8>, value: &Saved) -> Result<(), AllocError>
    ensures { OnOk result (out.new.items ≡ out.old.items ++ saved.bytes value.now) }
{
    let core = &value.core;
    put_number(out, core.moment)?;
    put_number(out, core.clock)?;
    put_maybe_number(out, core.last)?;
    put_held(out, core)?;
    put_tasks(out, core.tasks.as_slice(), value.stacks.as_slice())?;
    Ok(())
}

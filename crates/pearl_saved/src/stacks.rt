// What is recorded of a task's stack, and the stack of a record.

ghost use Rattle.std.specs.Prelude.{◌≡◌, ◌+◌, ◌<◌, ◌≤◌, [], ◌∷◌, IfOk, IsSome, Some, length, map, option_map};
ghost use Rattle.std.specs.List.{AllByRecursion};
ghost use Rattle.pearl_stack.specs.Frames.{frame_at, used};
ghost use Rattle.pearl_stack.specs.Laws.{all_pushed};
ghost use Rattle.pearl_instructions.specs.Rows.{begun};
ghost use Rattle.pearl_instructions.specs.Stacks.{room};
ghost use Rattle.pearl_saved.specs.Rules.{IsStackOf, AllRefer};
ghost use Rattle.pearl_saved.specs.Stacks.{target_of, cell_record, frame_record, stack_record, place_of, cell_made, frame_made, frames_made};
ghost use Rattle.pearl_saved.specs.Filling.{cells_in, operands_in, top_cells, with_cells, IsSmallTarget, IsSmallCell, IsSmallFrame};

use crate::saved::{FrameRecord, Reference, SavedCell, Target};
use pearl_instructions::valid::Valid;
use pearl_stack::stack::Loaded;
use pearl_value::cell::{Cell, Place, copy_of};
use pearl_value::listing::Listing;
use std::alloc::{AllocError as NoMemory, Global};

// What is recorded of where a reference leads.
fn recorded_target(place: Place) -> Target
    ensures { result ≡ target_of place }
{
    match place {
        Place::Slot(slot) => Target::Slot(slot as u64),
        Place::Cell(frame, cell) => Target::Own {
            frame: frame as u64,
            cell: cell as u64,
        },
    }
}

// What is recorded of a cell.
fn recorded(cell: &Cell) -> SavedCell
    ensures { result ≡ cell_record cell.now }
{
    match cell {
        Cell::Ref { kind, place } => SavedCell::Variable(Reference {
            kind: *kind,
            target: recorded_target(*place),
        }),
        Cell::Fixed { .. } => SavedCell::Value(copy_of(cell)),
        Cell::Bits { .. } => SavedCell::Value(copy_of(cell)),
        Cell::Chars(_) => SavedCell::Value(copy_of(cell)),
        Cell::Clock(_) => SavedCell::Value(copy_of(cell)),
        Cell::Span(_) => SavedCell::Value(copy_of(cell)),
    }
}

// The cells of a frame, of which there are so many.
fn recorded_cells(
    alloc: Global,
    stack: &Loaded,
    frame: u32,
    count: u32,
) -> Result<Listing<SavedCell>, NoMemory>
    requires { count ≡ length (cells_in (frame_at stack.now.frames frame)) }
    ensures { IfOk result (λ cells. cells ≡ map cell_record (cells_in (frame_at stack.now.frames frame))) }
{
    let mut cells = Vec::with_capacity(alloc, count as usize)?;
    for c in 0..count {
        cells.push(recorded(stack.cell(frame, c)))?;
    }
    Ok(Listing::new(cells))
}

// The operands of a frame, of which there are so many, the one that was pushed first coming first.
fn recorded_operands(
    alloc: Global,
    stack: &Loaded,
    frame: u32,
    count: u32,
) -> Result<Listing<SavedCell>, NoMemory>
    requires { count ≡ length (operands_in (frame_at stack.now.frames frame)) }
    ensures { IfOk result (λ operands. operands ≡ map cell_record (operands_in (frame_at stack.now.frames frame))) }
{
    let mut operands = Vec::with_capacity(alloc, count as usize)?;
    for at in 0..count {
        operands.push(recorded(stack.operand(frame, at)))?;
    }
    Ok(Listing::new(operands))
}

// A frame by its number.
fn recorded_frame(alloc: Global, stack: &Loaded, frame: u32) -> Result<FrameRecord, NoMemory>
    requires { IsSome (frame_at stack.now.frames frame) }
    ensures { IfOk result (λ saved. option_map frame_record (frame_at stack.now.frames frame) ≡ Some saved) }
{
    let size = stack.frame(frame);
    let cells = recorded_cells(alloc, stack, frame, size.cells)?;
    let operands = recorded_operands(alloc, stack, frame, size.operands)?;
    Ok(FrameRecord {
        routine: size.routine as u64,
        place: size.instruction,
        cells,
        operands,
    })
}

/// What is recorded of a stack.
pub fn recorded_stack(alloc: Global, stack: &Loaded) -> Result<Listing<FrameRecord>, NoMemory>
    ensures { IfOk result (λ frames. frames ≡ stack_record stack.now.frames) }
{
    let count = stack.frames();
    let mut frames = Vec::with_capacity(alloc, count as usize)?;
    for frame in 0..count {
        frames.push(recorded_frame(alloc, stack, frame)?)?;
    }
    Ok(Listing::new(frames))
}

// Where a reference leads whose numbers are small.
fn place(target: Target) -> Place
    requires { IsSmallTarget target }
    ensures { result ≡ place_of target }
{
    match target {
        Target::Slot(slot) => Place::Slot(slot as u32),
        Target::Own { frame, cell } => Place::Cell(frame as u32, cell as u32),
    }
}

// The cell of which this is recorded.
fn made(cell: &SavedCell) -> Cell
    requires { IsSmallCell cell.now }
    ensures { result ≡ cell_made cell.now }
{
    match cell {
        SavedCell::Value(value) => copy_of(value),
        SavedCell::Variable(reference) => Cell::Ref {
            kind: reference.kind,
            place: place(reference.target),
        },
        SavedCell::Array(_) => Cell::Fixed { len: 31, value: 0 },
    }
}

// Writes all cells of the top frame.
fn set_cells(stack: &mut Loaded, cells: &[SavedCell])
    requires some { 0 < length stack.old.frames }
    requires same { length (top_cells stack.old.frames) ≡ length cells.now }
    requires small { AllByRecursion IsSmallCell cells.now }
    ensures { stack.new ≡ record stack.old { frames = with_cells (map cell_made cells.now) stack.old.frames } }
{
    let top = stack.frames() - 1;
    let count = stack.frame(top).cells;
    for c in 0..count {
        stack.set_cell(top, c, made(&cells[c as usize]));
    }
}

// Puts operands on the top frame, one after the other.
fn push_all(stack: &mut Loaded, operands: &[SavedCell])
    requires some { 0 < length stack.old.frames }
    requires room { used stack.old.frames + length operands.now ≤ stack.old.room }
    requires small { AllByRecursion IsSmallCell operands.now }
    ensures { stack.new ≡ record stack.old { frames = all_pushed (map cell_made operands.now) stack.old.frames } }
{
    for operand in operands {
        stack.push(made(operand));
    }
}

// Puts a frame on.
fn put_frame(stack: &mut Loaded, frame: &FrameRecord)
    requires room { used (frame_made frame.now ∷ stack.old.frames) ≤ stack.old.room }
    requires most { length stack.old.frames < stack.old.most }
    requires small { IsSmallFrame frame.now }
    ensures { stack.new ≡ record stack.old { frames = frame_made frame.now ∷ stack.old.frames } }
{
    let cells = frame.cells.as_slice();
    stack.enter(frame.routine as u32, 0, cells.len() as u32);
    set_cells(stack, cells);
    stack.go(frame.place);
    push_all(stack, frame.operands.as_slice());
}

// Puts frames on a stack that has none.
fn put_frames(stack: &mut Loaded, frames: &[FrameRecord])
    requires empty { stack.old.frames ≡ [] }
    requires room { used (frames_made frames.now) ≤ stack.old.room }
    requires most { length frames.now ≤ stack.old.most }
    requires small { AllByRecursion IsSmallFrame frames.now }
    ensures { stack.new ≡ record stack.old { frames = frames_made frames.now } }
{
    for frame in frames {
        put_frame(stack, frame);
    }
}

/// Puts the frames of a task that keep N5 and N6, the lowest first, on a stack that has none, and has memory for all that comes
/// on that of the task.
pub fn refill(code: &Valid, task: u32, stack: &mut Loaded, frames: &[FrameRecord])
    requires empty { stack.old.frames ≡ [] }
    requires room { room code.now (begun code.now (length code.now.procedures + task)) ≤ stack.old.room }
    requires most { length code.now.procedures + 1 ≤ stack.old.most }
    requires frames { IsStackOf code.now (length code.now.procedures + task) frames.now }
    requires refer { AllRefer code.now [] frames.now }
    ensures { stack.new ≡ record stack.old { frames = frames_made frames.now } }
{
    code.object();
    put_frames(stack, frames);
}

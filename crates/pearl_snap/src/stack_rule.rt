// What the stacks of a run must be.

ghost use Rattle.std.specs.Prelude.{◌≡◌, ◌↔◌, ◌+◌, ℕ, IsTrue, IfOk, Some, length, slice_get};
ghost use Rattle.std.specs.List.{AllByRecursion};
ghost use Rattle.pearl_instructions.specs.declared.instr.Instr.TheVariants.{Call};
ghost use Rattle.pearl_snap.specs.Asking.{IsMet, AreMet, Asks};
ghost use Rattle.pearl_saved.specs.Rules.{kind_held, AreOf, HoldsHeld, IsAtPlace, IsAtCall, IsStackOf, HasStack, HasStacks};
ghost use Rattle.pearl_snap.specs.Parts.{FramesHold};

use pearl_instructions::instr::Instr;
use pearl_instructions::object::{Code, Parts};
use pearl_records::record::{Standing, TaskRecord};
use pearl_saved::saved::{FrameRecord, Saved, SavedCell};
use pearl_value::conversion;
use pearl_value::kind::CellKind;
use pearl_value::listing::Listing;
use pearl_verify::lookup::Shapes;
use pearl_verify::verify::code_at;
use std::alloc::{AllocError as NoMemory, Global};

/// That a frame's operands have the kinds of those before its place, but for so many on top, which it has passed on.
#[derive(Clone, Copy)]
struct Asked<'a> {
    frame: &'a FrameRecord,
    arguments: u64,
}

fn is_of(kind: CellKind, cell: &SavedCell) -> bool
    ensures { IsTrue result ↔ (kind_held cell.now ≡ Some kind) }
{
    match cell {
        SavedCell::Value(value) => CellKind::Plain(conversion::kind(value)) == kind,
        SavedCell::Variable(reference) => CellKind::RefTo(reference.kind) == kind,
        SavedCell::Array(_) => false,
    }
}

fn are_of(kinds: &[CellKind], cells: &[SavedCell]) -> bool
    ensures { IsTrue result ↔ AreOf kinds.now cells.now }
{
    if kinds.len() != cells.len() {
        return false;
    }
    for at in 0..kinds.len() {
        if !is_of(kinds[at], &cells[at]) {
            return false;
        }
    }
    true
}

fn calls(code: &Code, place: u64, procedure: u64) -> bool
    ensures { IsTrue result ↔ (slice_get code.now.instructions place ≡ Some (Call procedure)) }
{
    match code.instructions.as_slice().get(place as usize) {
        Some(Instr::Call(callee)) => *callee == procedure,
        _ => false,
    }
}

// Asks for the operands of a top frame. Where it answers false, nothing asked for could make it one.
fn ask_top<'a>(
    object: &Parts,
    asked: &mut Vec<Asked<'a>>,
    frame: &'a FrameRecord,
) -> Result<bool, NoMemory>
    requires { HoldsHeld frame.now }
    ensures { IfOk result (Asks object.now asked.old.items asked.new.items (IsAtPlace object.now frame.now)) }
{
    let Some(code) = code_at(object, frame.routine as usize) else {
        return Ok(false);
    };
    if !are_of(code.cells.as_slice(), frame.cells.as_slice()) {
        return Ok(false);
    }
    asked.push(Asked {
        frame,
        arguments: 0,
    })?;
    Ok(true)
}

// Asks for the operands of a frame that has called a procedure.
fn ask_call<'a>(
    object: &Parts,
    asked: &mut Vec<Asked<'a>>,
    frame: &'a FrameRecord,
    procedure: u64,
) -> Result<bool, NoMemory>
    requires { HoldsHeld frame.now }
    ensures { IfOk result (Asks object.now asked.old.items asked.new.items (IsAtCall object.now procedure frame.now)) }
{
    let Some(code) = code_at(object, frame.routine as usize) else {
        return Ok(false);
    };
    let Some(callee) = object.procedures.as_slice().get(procedure as usize) else {
        return Ok(false);
    };
    if !calls(code, frame.place, procedure) {
        return Ok(false);
    }
    if !are_of(code.cells.as_slice(), frame.cells.as_slice()) {
        return Ok(false);
    }
    asked.push(Asked {
        frame,
        arguments: callee.params,
    })?;
    Ok(true)
}

// Asks for the operands of all frames of a stack, the lowest being of this routine.
fn ask_stack<'a>(
    object: &Parts,
    asked: &mut Vec<Asked<'a>>,
    routine: u64,
    frames: &'a [FrameRecord],
) -> Result<bool, NoMemory>
    requires { AllByRecursion HoldsHeld frames.now }
    ensures { IfOk result (Asks object.now asked.old.items asked.new.items (IsStackOf object.now routine frames.now)) }
{
    let mut wanted = routine;
    for at in 0..frames.len() {
        let frame = &frames[at];
        if frame.routine != wanted {
            return Ok(false);
        }
        if at + 1 == frames.len() {
            return ask_top(object, asked, frame);
        }
        wanted = frames[at + 1].routine;
        if !ask_call(object, asked, frame, wanted)? {
            return Ok(false);
        }
    }
    Ok(false)
}

fn ask_task<'a>(
    object: &Parts,
    asked: &mut Vec<Asked<'a>>,
    routine: u64,
    standing: &Standing,
    frames: &'a [FrameRecord],
) -> Result<bool, NoMemory>
    requires { AllByRecursion HoldsHeld frames.now }
    ensures { (task : ℕ) → routine ≡ length object.now.procedures + task → IfOk result (Asks object.now asked.old.items asked.new.items (HasStack object.now task standing.now frames.now)) }
{
    match standing {
        Standing::Dormant => Ok(frames.is_empty()),
        Standing::Active { .. } => ask_stack(object, asked, routine, frames),
    }
}

// Asks for the operands of all frames of all tasks.
fn ask_tasks<'a>(
    object: &Parts,
    asked: &mut Vec<Asked<'a>>,
    rows: &[TaskRecord],
    stacks: &'a [Listing<FrameRecord>],
) -> Result<bool, NoMemory>
    requires { FramesHold stacks.now }
    ensures { IfOk result (Asks object.now asked.old.items asked.new.items (HasStacks object.now 0 rows.now stacks.now)) }
{
    if rows.len() != stacks.len() {
        return Ok(false);
    }
    let procedures = object.procedures.as_slice().len();
    for task in 0..rows.len() {
        let routine = procedures + task;
        let frames = stacks[task].as_slice();
        if !ask_task(object, asked, routine as u64, &rows[task].standing, frames)? {
            return Ok(false);
        }
    }
    Ok(true)
}

fn is_met(alloc: Global, shapes: &mut Shapes<'_>, asked: Asked<'_>) -> Result<bool, NoMemory>
    ensures object { shapes.new.object ≡ shapes.old.object }
    ensures met { IfOk result (λ met. IsTrue met ↔ IsMet shapes.old.object asked.entry) }
{
    let frame = asked.frame;
    if !shapes.go(alloc, frame.routine as usize, frame.place as usize)? {
        return Ok(false);
    }
    let kinds = shapes.below(asked.arguments as usize);
    Ok(are_of(kinds, frame.operands.as_slice()))
}

fn are_met(alloc: Global, object: &Parts, asked: &[Asked<'_>]) -> Result<bool, NoMemory>
    ensures { IfOk result (λ met. IsTrue met ↔ AreMet object.now asked.now) }
{
    let mut shapes = Shapes::new(alloc, object)?;
    for one in asked {
        if !is_met(alloc, &mut shapes, *one)? {
            return Ok(false);
        }
    }
    Ok(true)
}

/// Whether each task that isn't dormant has a stack of its routine, and each frame the operands of its place (N5).
///
/// It takes what the validator takes for the routines that frames are of, each once, and sorts the frames.
pub fn has_stacks(alloc: Global, object: &Parts, saved: &Saved) -> Result<bool, NoMemory>
    requires { FramesHold saved.now.stacks }
    ensures { IfOk result (λ has. IsTrue has ↔ HasStacks object.now 0 saved.now.core.tasks saved.now.stacks) }
{
    let rows = saved.core.tasks.as_slice();
    let mut asked = Vec::new(alloc);
    if !ask_tasks(object, &mut asked, rows, saved.stacks.as_slice())? {
        return Ok(false);
    }
    asked.sort_unstable_by_key(|one| (one.frame.routine, one.frame.place));
    are_met(alloc, object, asked.as_slice())
}

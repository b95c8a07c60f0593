// A task's first frame, and what is unset of the kinds of cells.

ghost use Rattle.std.specs.Prelude.{◌≡◌, ◌≢◌, ◌+◌, ◌<◌, ◌≤◌, ◌^◌, [], ◌++◌, Some, IsSome, length, map, take, drop, option_map, slice_get};
ghost use Rattle.std.specs.List.{AllByRecursion};
ghost use Rattle.pearl_value.specs.Blanks.{blank_of};
ghost use Rattle.pearl_value.specs.Kinds.{IsKind};
ghost use Rattle.pearl_instructions.specs.Flow.{fresh as fresh_of};
ghost use Rattle.pearl_instructions.specs.Lawful.{IsCellKind};
ghost use Rattle.pearl_instructions.specs.Rows.{begun};
ghost use Rattle.pearl_instructions.specs.Stacks.{IsStack, task_of, room};
ghost use Rattle.pearl_silent.specs.Steps.{top_cells, with_top_cell, with_cells};

use pearl_instructions::laws;
use pearl_instructions::valid::Valid;
use pearl_silent::known::laws_hold;
use pearl_stack::stack::Loaded;
use pearl_value::kind::{CellKind, Kind};

// The kind of what is unset in a cell of this kind.
fn unset_kind(kind: CellKind) -> Kind
    requires { IsCellKind kind }
    ensures kind { IsKind result }
    ensures fresh { fresh_of kind ≡ blank_of result }
{
    match kind {
        CellKind::Plain(of) => of,
        CellKind::RefTo(of) => of,
    }
}

// Puts what is unset of the kind into cell `c` of the top frame.
fn set_fresh_cell(stack: &mut Loaded, c: u32, kind: CellKind)
    requires cell { IsSome (slice_get (top_cells stack.old.frames) c) }
    requires kind { IsCellKind kind }
    ensures { stack.new ≡ record stack.old { frames = with_top_cell c (fresh_of kind) stack.old.frames } }
{
    let of = unset_kind(kind);
    stack.set_cell_blank(stack.frames() - 1, c, of);
}

// The kind at a number.
fn kind_at(kinds: &[CellKind], i: usize) -> CellKind
    requires { i < length kinds.now }
    ensures { slice_get kinds.now i ≡ Some result }
{
    kinds[i]
}

// Puts what is unset of their kinds into the cells of the top frame, from cell `from` on.
pub(crate) fn set_fresh(stack: &mut Loaded, kinds: &[CellKind], from: u32)
    requires kinds { AllByRecursion IsCellKind kinds.now }
    requires cells { length (top_cells stack.old.frames) ≡ length kinds.now }
    requires few { length kinds.now < 2 ^ 32 }
    requires from { from ≤ length kinds.now }
    requires some { stack.old.frames ≢ [] }
    ensures { stack.new ≡ record stack.old { frames = with_cells (take from (top_cells stack.old.frames) ++ map fresh_of (drop from kinds.now)) stack.old.frames } }
{
    for i in from as usize..kinds.len() {
        let kind = kind_at(kinds, i);
        set_fresh_cell(stack, i as u32, kind);
    }
}

// The kinds of a task's cells.
fn task_kinds(code: &Valid, task: u32) -> &[CellKind]
    requires { task < length code.now.tasks }
    ensures { option_map (λ t. t.code.cells) (slice_get code.now.tasks task) ≡ Some result.now }
{
    let tasks = code.object().tasks.as_slice();
    tasks[task as usize].code.cells.as_slice()
}

// The number of a task's routine.
fn task_routine(code: &Valid, task: u32) -> u32
    requires procedures { length code.now.procedures ≤ 200 }
    requires task { task < 200 }
    ensures { result ≡ length code.now.procedures + task }
{
    code.object().procedures.as_slice().len() as u32 + task
}

/// Leaves the one frame of a task's routine at its first instruction, with unset cells.
#[inline(never)]
pub fn begin(code: &Valid, task: u32, stack: &mut Loaded)
    requires task { task < length code.now.tasks }
    requires room { room code.now (begun code.now (length code.now.procedures + task)) ≤ stack.old.room }
    requires most { length code.now.procedures + 1 ≤ stack.old.most }
    ensures frames { stack.new ≡ record stack.old { frames = begun code.now (length code.now.procedures + task) } }
    ensures stack { IsStack code.now stack.new.frames }
    ensures room { room code.now stack.new.frames ≤ stack.new.room }
    ensures task { task_of code.now stack.new.frames ≡ task }
{
    laws_hold(code);
    laws::tasks_begin_with_a_stack();
    let kinds = task_kinds(code, task);
    let routine = task_routine(code, task);
    stack.clear();
    stack.enter(routine, 0, kinds.len() as u32);
    set_fresh(stack, kinds, 0);
}

// The kinds of the operands before one instruction after another.

ghost use Rattle.std.specs.Prelude.{◌≡◌, ◌+◌, ◌<◌, ◌≤◌, Some, None, drop, length, map, reverse, if◌then◌else◌, IfOk, IfSome, OnOk};
ghost use Rattle.pearl_instructions.specs.declared.object.Parts.{Parts as Object};
ghost use Rattle.pearl_instructions.specs.Objects.{routine_at};
ghost use Rattle.pearl_instructions.specs.Valid.{shape_before};
ghost use Rattle.pearl_verify.specs.Formats.{format_row};
ghost use Rattle.pearl_verify.specs.Jumps.{HoldsJumps};
ghost use Rattle.pearl_verify.specs.Numbers.{IsNumbered};
ghost use Rattle.pearl_verify.specs.Shapes.{shape_at, Keeps, IsWalk};

use crate::flow::advance;
use crate::formats::{FormatRow, format_rows};
use crate::judge::carry_out;
use crate::jumps::JumpTable;
use crate::running::Running;
use crate::verify::code_at;
use pearl_instructions::object::{Code, Parts};
use pearl_value::kind::CellKind;
use std::alloc::{AllocError as NoMemory, Global};
use std::marker::Model;

/// An instruction of a routine with the kinds before it, and what it takes to go on from there.
#[derive(Drop)]
pub(crate) struct Walk {
    pub routine: usize,
    pub place: usize,
    pub jumps: JumpTable,
    pub running: Running,
}

/// Makes the kinds before an instruction those before the next one.
fn step(
    object: &Parts,
    formats: &[FormatRow],
    routine: usize,
    code: &Code,
    jumps: &JumpTable,
    place: usize,
    running: &mut Running,
) -> Result<(), NoMemory>
    requires formats { formats.now ≡ map format_row object.now.formats }
    requires jumps { HoldsJumps code.now jumps.now }
    requires within { place + 1 < length code.now.instructions }
    requires kinds { running.old.kinds ≡ shape_before object.now routine code.now place }
    requires numbered { IsNumbered jumps.now.tree.edges running.old }
    ensures kinds { OnOk result (running.new.kinds ≡ shape_before object.now routine code.now (place + 1)) }
    ensures numbered { OnOk result (IsNumbered jumps.now.tree.edges running.new) }
{
    let instr = &code.instructions.as_slice()[place];
    carry_out(object, formats, routine, code, &jumps.tree, instr, running)?;
    advance(object, routine, code, jumps, place, instr, running)
}

/// A routine's first instruction.
fn begin(alloc: Global, routine: usize, code: &Code) -> Result<Walk, NoMemory>
    ensures keeps { IfOk result (λ walk. (o : Object) → Keeps o code.now walk) }
    ensures routine { IfOk result (λ walk. walk.routine ≡ routine) }
    ensures place { IfOk result (λ walk. walk.place ≡ 0) }
{
    let jumps = JumpTable::new(alloc, code)?;
    Ok(Walk {
        routine,
        place: 0,
        jumps,
        running: Running::none(alloc),
    })
}

/// The instruction that was looked up last, where it is one of the routine and none behind the place; else the routine's first.
fn before(
    alloc: Global,
    object: &Parts,
    last: Option<Walk>,
    routine: usize,
    code: &Code,
    place: usize,
) -> Result<Walk, NoMemory>
    requires last { IfSome last (IsWalk object.now) }
    requires code { routine_at object.now routine ≡ Some code.now }
    ensures keeps { IfOk result (λ walk. Keeps object.now code.now walk) }
    ensures routine { IfOk result (λ walk. walk.routine ≡ routine) }
    ensures place { IfOk result (λ walk. walk.place ≤ place) }
{
    match last {
        Some(walk) => {
            if walk.routine == routine && walk.place <= place {
                Ok(walk)
            } else {
                begin(alloc, routine, code)
            }
        }
        None => begin(alloc, routine, code),
    }
}

/// Goes on to a later instruction of the routine.
fn forward(
    object: &Parts,
    formats: &[FormatRow],
    code: &Code,
    walk: Walk,
    place: usize,
) -> Result<Walk, NoMemory>
    requires formats { formats.now ≡ map format_row object.now.formats }
    requires keeps { Keeps object.now code.now walk }
    requires later { walk.place ≤ place }
    requires within { place < length code.now.instructions }
    ensures keeps { IfOk result (λ there. Keeps object.now code.now there) }
    ensures routine { IfOk result (λ there. there.routine ≡ walk.routine) }
    ensures place { IfOk result (λ there. there.place ≡ place) }
{
    let routine = walk.routine;
    let from = walk.place;
    let jumps = walk.jumps;
    let mut running = walk.running;
    for at in from..place {
        step(object, formats, routine, code, &jumps, at, &mut running)?;
    }
    Ok(Walk {
        routine,
        place,
        jumps,
        running,
    })
}

/// An object, with the instruction of it that was looked up last.
#[derive(Drop)]
pub struct Shapes<'a> {
    object: &'a Parts,
    formats: Vec<FormatRow>,
    last: Option<Walk>,
}

impl<'a> Model for Shapes<'a> {
    ghost use Rattle.std.specs.Prelude.{◌≡◌, map, IfSome};
    ghost use Rattle.pearl_verify.specs.Formats.{format_row};
    ghost use Rattle.pearl_verify.specs.Shapes.{Sight, IsWalk, shape_kept};

    ghost Value = { Sight };

    ghost view = { λ s. record { object = s.object.now; shape = shape_kept s.last } };

    ghost invariant = { λ s. (s.formats.items ≡ map format_row s.object.now.formats) × IfSome s.last (IsWalk s.object.now) };
}

impl<'a> Shapes<'a> {
    /// No instruction was looked up yet.
    pub fn new(alloc: Global, object: &'a Parts) -> Result<Shapes<'a>, NoMemory>
        ensures { IfOk result (λ shapes. shapes.object ≡ object.now) }
    {
        let formats = format_rows(alloc, object.formats.as_slice())?;
        Ok(Shapes {
            object,
            formats,
            last: None,
        })
    }

    /// Looks up an instruction of a routine, the procedures being numbered first: whether there is one. Going forward within
    /// a routine costs as much as the validator takes for the instructions between, and else for those before it. So places
    /// are best asked for in order.
    pub fn go(
        &mut self,
        alloc: Global,
        routine: usize,
        instruction: usize,
    ) -> Result<bool, NoMemory>
        ensures object { self.new.object ≡ self.old.object }
        ensures shape { IfOk result (λ there. shape_at self.old.object routine instruction ≡ (if there then Some self.new.shape else None)) }
    {
        let object = self.object;
        let Some(code) = code_at(object, routine) else {
            return Ok(false);
        };
        if instruction >= code.instructions.as_slice().len() {
            return Ok(false);
        }
        let last = self.last.take();
        let walk = before(alloc, object, last, routine, code, instruction)?;
        let there = forward(object, self.formats.as_slice(), code, walk, instruction)?;
        self.last = Some(there);
        Ok(true)
    }

    /// The kinds of the operands before the instruction that was looked up last, but for so many on top; the top one last.
    pub fn below(&self, count: usize) -> &[CellKind]
        ensures { result.now ≡ reverse (drop count self.now.shape) }
    {
        match &self.last {
            Some(walk) => walk.running.kinds.below(count),
            None => &[],
        }
    }
}

// For each instruction whether a jump names it, and which shape is stated for it, with its number.

ghost use Rattle.std.specs.Prelude.{◌≡◌, ◌<◌, true, false, Some, None, length, reverse, slice_get, slice_set, IfOk, OnOk, MatchOption};
ghost use Rattle.pearl_instructions.specs.Valid.{is_named, stated, targets};
ghost use Rattle.pearl_verify.specs.Jumps.{HoldsJumps, marked, AreNamed, AreStated, AreNone, AreNumbered, IsStatedNumber};
ghost use Rattle.pearl_verify.specs.Numbers.{IsTree};

use crate::tree::ShapeTree;
use pearl_instructions::instr::Instr;
use pearl_instructions::object::{Code, Shape};
use pearl_value::kind::CellKind;
use std::alloc::{AllocError as NoMemory, Global};

/// The instructions that jumps name, and for each instruction which of the stated shapes is its own. Each of these has a
/// number in the tree.
#[derive(Drop)]
pub(crate) struct JumpTable {
    pub named: Vec<bool>,
    pub stated: Vec<Option<usize>>,
    pub tree: ShapeTree,
    pub numbers: Vec<usize>,
}

fn mark(marks: &mut Vec<bool>, number: u64)
    ensures { marks.new.items ≡ slice_set marks.old.items number true }
{
    let number = number as usize;
    if number < marks.len() {
        marks[number] = true;
    }
}

fn mark_all(marks: &mut Vec<bool>, numbers: &[u64])
    ensures { marks.new.items ≡ marked numbers.now marks.old.items }
{
    for number in numbers {
        mark(marks, *number);
    }
}

fn mark_targets(marks: &mut Vec<bool>, instr: &Instr)
    ensures { marks.new.items ≡ marked (targets instr.now) marks.old.items }
{
    match instr {
        Instr::Jump(to) => mark(marks, *to),
        Instr::JumpZero(to) => mark(marks, *to),
        Instr::Case(list) => mark_all(marks, list.get().as_slice()),
        Instr::Advance { past, .. } => mark(marks, *past),
        _ => {}
    }
}

fn named_by_jumps(alloc: Global, instrs: &[Instr]) -> Result<Vec<bool>, NoMemory>
    ensures { IfOk result (λ named. AreNamed instrs.now named.items) }
{
    let mut marks = vec![in alloc; false; instrs.len()]?;
    for instr in instrs {
        mark_targets(&mut marks, instr);
    }
    Ok(marks)
}

fn note(numbers: &mut Vec<Option<usize>>, instruction: u64, number: usize)
    ensures { numbers.new.items ≡ slice_set numbers.old.items instruction (Some number) }
{
    let instruction = instruction as usize;
    if instruction < numbers.len() {
        numbers[instruction] = Some(number);
    }
}

fn none_stated(alloc: Global, count: usize) -> Result<Vec<Option<usize>>, NoMemory>
    ensures { IfOk result (λ numbers. AreNone count numbers.items) }
{
    let mut numbers = Vec::with_capacity(alloc, count)?;
    'instructions: for _ in 0..count {
        numbers.push(None)?;
    }
    Ok(numbers)
}

// The first shape for an instruction counts, so they are taken from the last one on.
fn stated_shapes(
    alloc: Global,
    count: usize,
    shapes: &[Shape],
) -> Result<Vec<Option<usize>>, NoMemory>
    ensures { IfOk result (λ numbers. AreStated count shapes.now numbers.items) }
{
    let mut numbers = none_stated(alloc, count)?;
    let mut from = shapes.len();
    'shapes: while from > 0 {
        from -= 1;
        note(&mut numbers, shapes[from].instruction, from);
    }
    Ok(numbers)
}

// The number of each stated shape.
fn shape_numbers(
    alloc: Global,
    tree: &mut ShapeTree,
    shapes: &[Shape],
) -> Result<Vec<usize>, NoMemory>
    requires { IsTree tree.old.edges }
    ensures tree { OnOk result (IsTree tree.new.edges) }
    ensures numbers { IfOk result (λ numbers. AreNumbered tree.new.edges shapes.now numbers.items) }
{
    let mut numbers = Vec::with_capacity(alloc, shapes.len())?;
    for shape in shapes {
        numbers.push(tree.add(shape.kinds.as_slice())?)?;
    }
    Ok(numbers)
}

fn number_at(numbers: &[usize], shape: usize) -> Option<usize>
    ensures { result ≡ slice_get numbers.now shape }
{
    numbers.get(shape).copied()
}

impl JumpTable {
    pub(crate) fn new(alloc: Global, code: &Code) -> Result<JumpTable, NoMemory>
        ensures { IfOk result (λ table. HoldsJumps code.now table) }
    {
        let instrs = code.instructions.as_slice();
        let named = named_by_jumps(alloc, instrs)?;
        let stated = stated_shapes(alloc, instrs.len(), code.shapes.as_slice())?;
        let mut tree = ShapeTree::new(alloc);
        let numbers = shape_numbers(alloc, &mut tree, code.shapes.as_slice())?;
        Ok(JumpTable {
            named,
            stated,
            tree,
            numbers,
        })
    }

    /// Whether a jump names this instruction.
    pub(crate) fn is_named(&self, code: &Code, instruction: usize) -> bool
        requires table { HoldsJumps code.now self.now }
        requires within { instruction < length code.now.instructions }
        ensures { result ≡ is_named code.now.instructions instruction }
    {
        self.named[instruction]
    }

    /// The kinds that are stated for this instruction, the top one last.
    pub(crate) fn stated<'a>(&self, code: &'a Code, instruction: usize) -> Option<&'a [CellKind]>
        requires table { HoldsJumps code.now self.now }
        requires within { instruction < length code.now.instructions }
        ensures { MatchOption result (stated code.now.shapes instruction ≡ None) (λ kinds. stated code.now.shapes instruction ≡ Some (reverse kinds.now)) }
    {
        match self.stated[instruction] {
            Some(number) => match code.shapes.as_slice().get(number) {
                Some(shape) => Some(shape.kinds.as_slice()),
                None => None,
            },
            None => None,
        }
    }
    /// The number of the shape that is stated for this instruction.
    pub(crate) fn number(&self, code: &Code, instruction: usize) -> Option<usize>
        requires table { HoldsJumps code.now self.now }
        requires within { instruction < length code.now.instructions }
        ensures { MatchOption result (stated code.now.shapes instruction ≡ None) (IsStatedNumber self.now.tree.edges code.now instruction) }
    {
        match self.stated[instruction] {
            Some(shape) => number_at(self.numbers.as_slice(), shape),
            None => None,
        }
    }
}

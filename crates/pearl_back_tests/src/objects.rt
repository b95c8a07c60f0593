// Objects as plain data, and what is told of them.

ghost use Rattle.std.specs.Prelude.{IfOk};
ghost use Rattle.std.specs.List.{AllByRecursion};
ghost use Rattle.pearl_value.specs.declared.kind.Kind.{Kind};
ghost use Rattle.pearl_value.specs.WellFormed.{IsValue, IsValueOf};
ghost use Rattle.pearl_tree.specs.Tokens.{IsId};
ghost use Rattle.pearl_instructions.specs.Lawful.{IsInstr};

use arrayvec::ArrayVec;
use pearl_format::item::{Item, ItemCode};
use pearl_instructions::boxed::Boxed;
use pearl_instructions::constant::Constant;
use pearl_instructions::instr::{Bounds, Instr, Reading};
use pearl_instructions::object::{Code, Leaf, Parts, Procedure, Shape, Task};
use pearl_value::cell::Cell;
use pearl_value::device::{Device, Direction};
use pearl_value::kind::{CellKind, Kind};
use pearl_value::listing::Listing;
use pearl_value::operator::Dyad;
use pearl_verify::verify::judge_object;
use std::alloc::{AllocError, Global};

/// An instruction.
#[derive(Clone, Copy)]
pub enum Line {
    /// The literal 1 of FIXED(31).
    Number,
    /// A literal of FIXED(31).
    Value(i32),
    /// A literal of BIT(1).
    Bit,
    /// So many literals of FIXED(31), one after the other.
    Numbers(usize),
    Load(u64),
    Store(u64),
    Drop,
    /// To BIT(2).
    ToBits,
    /// To FIXED(2).
    ToFixed,
    Index(&'static [Bounds]),
    LoadAt { first: u64, count: u64 },
    Read(u64),
    Write(u64),
    ReadAt(u64),
    WriteAt(u64),
    RefSlot(u64),
    RefCell(u64),
    ReadRef,
    WriteRef,
    Jump(u64),
    JumpZero(u64),
    Case(&'static [u64]),
    Turn,
    Call(u64),
    Return,
    End,
    Within(u64),
    Advance { first: u64, past: u64 },
    NonZero,
    Dyadic(Dyad),
    Request(&'static [u64]),
    Try(u64),
    Suspend(u64),
    Enable(u64),
    Put { device: u64, format: u64 },
    Get(Reading),
    Take(u64),
    Send(u64),
}

/// A shape that is stated for an instruction, the top kind last.
#[derive(Clone, Copy)]
pub struct Stated {
    pub instruction: u64,
    pub kinds: &'static [CellKind],
}

/// The code of a routine.
#[derive(Clone, Copy)]
pub struct Routine {
    pub cells: &'static [CellKind],
    pub depth: u64,
    pub lines: &'static [Line],
    pub shapes: &'static [Stated],
}

/// A procedure, all of whose cells are parameters.
#[derive(Clone, Copy)]
pub struct Proc {
    pub result: Option<Kind>,
    pub code: Routine,
}

/// An object with one task, and the routine, instruction and rule that is told of it, or none where it is valid.
#[derive(Clone, Copy)]
pub struct Row {
    pub procedures: &'static [Proc],
    pub task: Routine,
    pub told: Option<(usize, usize, u8)>,
}

fn numbers(alloc: Global, list: &[u64]) -> Result<Boxed<Listing<u64>>, AllocError> {
    let mut copy = Vec::new(alloc);
    copy.extend_from_slice(list)?;
    Ok(Boxed::new(alloc, Listing::new(copy))?)
}

fn bounds(alloc: Global, list: &[Bounds]) -> Result<Boxed<Listing<Bounds>>, AllocError> {
    let mut copy = Vec::new(alloc);
    copy.extend_from_slice(list)?;
    Ok(Boxed::new(alloc, Listing::new(copy))?)
}

fn literal(alloc: Global, cell: Cell) -> Result<Instr, AllocError>
    requires { IsValue cell }
    ensures { IfOk result IsInstr }
{
    Ok(Instr::Const(Constant::new(alloc, &cell)?))
}

/// The name of a task, one letter.
pub fn letter() -> ArrayVec<u8, 63>
    ensures { IsId result.items }
{
    let mut name = ArrayVec::new();
    name.push(b'T');
    name
}

/// A number of FIXED(31).
pub fn number(value: i32) -> Cell
    ensures { IsValueOf (Kind.Fixed 31) result }
{
    Cell::Fixed {
        len: 31,
        value: value as i64,
    }
}

fn instruction(alloc: Global, line: Line) -> Result<Instr, AllocError>
    ensures { IfOk result IsInstr }
{
    match line {
        Line::Number | Line::Numbers(_) => literal(alloc, number(1)),
        Line::Value(value) => literal(alloc, number(value)),
        Line::Bit => literal(alloc, Cell::Bits { len: 1, value: 1 }),
        Line::Load(cell) => Ok(Instr::Load(cell)),
        Line::Store(cell) => Ok(Instr::Store(cell)),
        Line::Drop => Ok(Instr::Drop),
        Line::ToBits => Ok(Instr::Conv(Kind::Bits(2))),
        Line::ToFixed => Ok(Instr::Conv(Kind::Fixed(2))),
        Line::Index(list) => Ok(Instr::Index(bounds(alloc, list)?)),
        Line::LoadAt { first, count } => Ok(Instr::LoadAt { first, count }),
        Line::Read(leaf) => Ok(Instr::Read(leaf)),
        Line::Write(leaf) => Ok(Instr::Write(leaf)),
        Line::ReadAt(leaf) => Ok(Instr::ReadAt(leaf)),
        Line::WriteAt(leaf) => Ok(Instr::WriteAt(leaf)),
        Line::RefSlot(leaf) => Ok(Instr::RefSlot(leaf)),
        Line::RefCell(cell) => Ok(Instr::RefCell(cell)),
        Line::ReadRef => Ok(Instr::ReadRef),
        Line::WriteRef => Ok(Instr::WriteRef),
        Line::Jump(to) => Ok(Instr::Jump(to)),
        Line::JumpZero(to) => Ok(Instr::JumpZero(to)),
        Line::Case(list) => Ok(Instr::Case(numbers(alloc, list)?)),
        Line::Turn => Ok(Instr::Turn),
        Line::Call(procedure) => Ok(Instr::Call(procedure)),
        Line::Return => Ok(Instr::Return),
        Line::End => Ok(Instr::End),
        Line::Within(first) => Ok(Instr::Within(first)),
        Line::Advance { first, past } => Ok(Instr::Advance { first, past }),
        Line::NonZero => Ok(Instr::NonZero),
        Line::Dyadic(operator) => Ok(Instr::Dyadic(operator)),
        Line::Request(list) => Ok(Instr::Request(numbers(alloc, list)?)),
        Line::Try(semaphore) => Ok(Instr::Try(semaphore)),
        Line::Suspend(task) => Ok(Instr::Suspend(task)),
        Line::Enable(device) => Ok(Instr::Enable(device)),
        Line::Put { device, format } => Ok(Instr::Put { device, format }),
        Line::Get(reading) => Ok(Instr::Get(Boxed::new(alloc, reading)?)),
        Line::Take(device) => Ok(Instr::Take(device)),
        Line::Send(device) => Ok(Instr::Send(device)),
    }
}

// How many instructions a line stands for.
fn times(line: Line) -> usize {
    match line {
        Line::Numbers(count) => count,
        _ => 1,
    }
}

/// The instructions of a routine.
pub fn instructions(alloc: Global, lines: &[Line]) -> Result<Listing<Instr>, AllocError>
    ensures { IfOk result (AllByRecursion IsInstr) }
{
    let mut list = Vec::new(alloc);
    for line in lines {
        for _ in 0..times(*line) {
            list.push(instruction(alloc, *line)?)?;
        }
    }
    Ok(Listing::new(list))
}

fn kinds(alloc: Global, kinds: &[CellKind]) -> Result<Listing<CellKind>, AllocError> {
    let mut list = Vec::new(alloc);
    list.extend_from_slice(kinds)?;
    Ok(Listing::new(list))
}

fn shapes(alloc: Global, stated: &[Stated]) -> Result<Listing<Shape>, AllocError> {
    let mut list = Vec::new(alloc);
    for shape in stated {
        list.push(Shape {
            instruction: shape.instruction,
            kinds: kinds(alloc, shape.kinds)?,
        })?;
    }
    Ok(Listing::new(list))
}

fn code(alloc: Global, routine: Routine) -> Result<Code, AllocError> {
    Ok(Code {
        cells: kinds(alloc, routine.cells)?,
        depth: routine.depth,
        instructions: instructions(alloc, routine.lines)?,
        shapes: shapes(alloc, routine.shapes)?,
    })
}

fn procedures(alloc: Global, rows: &[Proc]) -> Result<Listing<Procedure>, AllocError> {
    let mut list = Vec::new(alloc);
    for row in rows {
        list.push(Procedure {
            params: row.code.cells.len() as u64,
            result: row.result,
            code: code(alloc, row.code)?,
        })?;
    }
    Ok(Listing::new(list))
}

fn tasks(alloc: Global, routine: Routine) -> Result<Listing<Task>, AllocError> {
    let mut list = Vec::new(alloc);
    list.push(Task {
        name: ArrayVec::new(),
        priority: 1,
        main: true,
        code: code(alloc, routine)?,
    })?;
    Ok(Listing::new(list))
}

// One leaf of two slots of FIXED.
fn leaves(alloc: Global) -> Result<Listing<Leaf>, AllocError> {
    let mut list = Vec::new(alloc);
    list.push(Leaf {
        name: Listing::new(Vec::new(alloc)),
        kind: Kind::Fixed(31),
        slots: 2,
        constants: Listing::new(Vec::new(alloc)),
    })?;
    Ok(Listing::new(list))
}

// A terminal, an interrupt, an input and an output of FIXED, a terminal that takes texts and one that gives them.
fn devices(alloc: Global) -> Result<Listing<Device>, AllocError> {
    let list = vec![in alloc;
        Device::Terminal {
            number: 1,
            direction: Direction::InOut
        },
        Device::Interrupt { number: 1 },
        Device::Input {
            number: 1,
            kind: Kind::Fixed(31)
        },
        Device::Output {
            number: 1,
            kind: Kind::Fixed(31)
        },
        Device::Terminal {
            number: 2,
            direction: Direction::Out
        },
        Device::Terminal {
            number: 3,
            direction: Direction::In
        },
    ]?;
    Ok(Listing::new(list))
}

fn items(
    alloc: Global,
    code: ItemCode,
    width: u8,
    count: usize,
) -> Result<Listing<Item>, AllocError> {
    let mut list = Vec::new(alloc);
    for _ in 0..count {
        list.push(Item { code, width })?;
    }
    Ok(Listing::new(list))
}

// One F(3), and 65 of F(1); 1,024 blanks one by one, and one more; 64 of F(1).
fn formats(alloc: Global) -> Result<Listing<Listing<Item>>, AllocError> {
    let mut list = Vec::new(alloc);
    for (code, width, count) in [
        (ItemCode::F, 3, 1),
        (ItemCode::F, 1, 65),
        (ItemCode::X, 0, 1024),
        (ItemCode::X, 0, 1025),
        (ItemCode::F, 1, 64),
    ] {
        list.push(items(alloc, code, width, count)?)?;
    }
    Ok(Listing::new(list))
}

// It has 17 semaphores.
fn object(alloc: Global, row: Row) -> Result<Parts, AllocError> {
    let counts = vec![in alloc; 1; 17]?;
    Ok(Parts {
        devices: devices(alloc)?,
        semaphores: Listing::new(counts),
        leaves: leaves(alloc)?,
        formats: formats(alloc)?,
        procedures: procedures(alloc, row.procedures)?,
        tasks: tasks(alloc, row.task)?,
    })
}

/// The routine, instruction and rule that is told of an object, or none where no rule fails.
pub fn told(alloc: Global, object: &Parts) -> Result<Option<(usize, usize, u8)>, AllocError> {
    match judge_object(alloc, object)? {
        None => Ok(None),
        Some(broken) => Ok(Some((broken.routine, broken.instruction, broken.rule))),
    }
}

/// The first of the rows of which something else is told.
pub fn first_other(alloc: Global, rows: &[Row]) -> Result<Option<usize>, AllocError> {
    for (number, row) in rows.iter().enumerate() {
        let object = object(alloc, *row)?;
        if told(alloc, &object)? != row.told {
            return Ok(Some(number));
        }
    }
    Ok(None)
}

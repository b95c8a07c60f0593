// Objects: compiled programs.

ghost use Rattle.std.specs.Prelude.{◌≡◌};
ghost use Rattle.pearl_instructions.specs.Lawful.{IsObject};

use crate::instr::Instr;
use arrayvec::ArrayVec;
use pearl_format::item::Item;
use pearl_value::cell::Cell;
use pearl_value::device::Device;
use pearl_value::kind::{CellKind, Kind};
use pearl_value::listing::Listing;
use std::marker::Model;

/// The slots of a module's variable, or of one of its components, which have one kind.
#[derive(Drop)]
pub struct Leaf {
    /// The path from the variable on, as `plant.temp`.
    pub name: Listing<u8>,
    pub kind: Kind,
    /// How many slots there are, from 1 to 65,536.
    pub slots: u32,
    /// The first values; the last one stands for all slots that are left.
    pub constants: Listing<Cell>,
}

/// The kinds of the operands before an instruction, the top one last.
#[derive(Drop)]
pub struct Shape {
    pub instruction: u64,
    pub kinds: Listing<CellKind>,
}

/// The code of a routine.
#[derive(Drop)]
pub struct Code {
    /// The kinds of its cells, the parameters first.
    pub cells: Listing<CellKind>,
    /// How many cells and operands there are at most, with those of the procedures that are called.
    pub depth: u64,
    pub instructions: Listing<Instr>,
    /// The shapes that are stated, each instruction's at most once.
    pub shapes: Listing<Shape>,
}

/// A procedure, which calls only those before it.
#[derive(Drop)]
pub struct Procedure {
    pub params: u64,
    pub result: Option<Kind>,
    pub code: Code,
}

/// A task. A smaller number is a more urgent priority, from 1 to 255.
#[derive(Drop)]
pub struct Task {
    pub name: ArrayVec<u8, 63>,
    pub priority: u8,
    /// Whether the task is started when the run begins.
    pub main: bool,
    pub code: Code,
}

/// What an object is made of. Its routines are the procedures, and then the tasks.
#[derive(Drop)]
pub struct Parts {
    pub devices: Listing<Device>,
    /// The first count of each semaphore, at most 2^31 - 1.
    pub semaphores: Listing<u32>,
    pub leaves: Listing<Leaf>,
    pub formats: Listing<Listing<Item>>,
    pub procedures: Listing<Procedure>,
    pub tasks: Listing<Task>,
}

/// A compiled program, as each is to be: lengths, counts, kinds, names and numbers are in their ranges.
#[derive(Drop)]
pub struct Object {
    parts: Parts,
}

impl Model for Object {
    ghost use Rattle.pearl_instructions.specs.declared.object.Parts.{Parts};
    ghost use Rattle.pearl_instructions.specs.Lawful.{IsObject};

    ghost Value = { Parts };

    ghost view = { λ o. o.parts };

    ghost invariant = { λ o. IsObject o.parts };
}

impl Object {
    /// The object of these parts.
    pub fn new(parts: Parts) -> Object
        requires { IsObject parts }
        ensures { result ≡ parts }
    {
        Object { parts }
    }

    /// The object's parts.
    pub fn parts(&self) -> &Parts
        ensures value { result.now ≡ self.now }
        ensures object { IsObject result.now }
    {
        &self.parts
    }

    /// The object's parts, which may be changed then.
    pub fn into_parts(self) -> Parts
        ensures value { result ≡ self }
        ensures object { IsObject result }
    {
        self.parts
    }
}

// Programs.

use crate::statement::Stmt;
use crate::table::Leaf;
use arrayvec::ArrayVec;
use pearl_format::item::Item;
use pearl_value::device::Device;
use pearl_value::kind::{CellKind, Kind};
use pearl_value::listing::Listing;

/// The cells and the statements of a task or a procedure. The cells are those of the parameters, and then in the order of
/// the text those of the local variables, three of each loop that counts, and two for each target of a GET.
#[derive(Drop)]
pub struct Routine {
    pub cells: Listing<CellKind>,
    pub body: Vec<Stmt>,
}

/// A procedure. Its first cells are its parameters; one with IDENT is a reference.
#[derive(Drop)]
pub struct Procedure {
    /// How many parameters there are.
    pub params: u32,
    /// The kind of RETURNS.
    pub result: Option<Kind>,
    pub routine: Routine,
}

/// A task.
#[derive(Drop)]
pub struct Task {
    pub name: ArrayVec<u8, 63>,
    /// From 1 to 255; a smaller number is more urgent.
    pub priority: u8,
    /// Whether it is started when a run begins.
    pub main: bool,
    pub routine: Routine,
}

/// The resolved program. Procedures are numbered so that each calls smaller numbers alone, devices by their sort and then
/// by their number, formats as PUT and GET stand in the text, and all others in order of declaration.
#[derive(Drop)]
pub struct Program {
    pub leaves: Listing<Leaf>,
    /// What each semaphore has at first.
    pub semaphores: Listing<u32>,
    pub devices: Listing<Device>,
    pub formats: Listing<Listing<Item>>,
    pub procedures: Listing<Procedure>,
    pub tasks: Listing<Task>,
}

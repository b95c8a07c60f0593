// The instructions of the stack machine.

use crate::boxed::Boxed;
use crate::constant::Constant;
use crate::schedule::{OnceForm, RepeatForm, StartForm};
use pearl_value::kind::Kind;
use pearl_value::listing::Listing;
use pearl_value::operator::{Dyad, Monad};
use pearl_value::trap::Trap;

/// The bounds of one dimension of an array.
#[derive(Clone, Copy, PartialEq, Eq, Debug)]
pub struct Bounds {
    pub low: i32,
    pub high: i32,
}

/// A task to start. On the stack lie, from below, the values of the start, those of the repetition, and the priority.
#[derive(Clone, Copy, PartialEq, Eq, Debug)]
pub struct Activation {
    pub task: u64,
    pub start: StartForm,
    pub repeat: RepeatForm,
    /// Whether a priority is given.
    pub priority: bool,
}

/// A task that goes on, at once where it isn't said when.
#[derive(Clone, Copy, PartialEq, Eq, Debug)]
pub struct Continuation {
    pub task: u64,
    pub once: Option<OnceForm>,
}

/// A terminal from which values are read, and the first of the cells that they become.
#[derive(Clone, Copy, PartialEq, Eq, Debug)]
pub struct Reading {
    pub device: u64,
    pub format: u64,
    pub first: u64,
}

/// One instruction of a routine. Cells are numbered as in the routine, procedures, tasks, leaves, semaphores, devices and
/// formats as in the object; an instruction is named by its number in the routine.
#[derive(Drop)]
pub enum Instr {
    /// Pushes a literal.
    Const(Constant),
    /// Pushes a copy of a cell.
    Load(u64),
    /// Takes a value off into a cell.
    Store(u64),
    /// Puts what is unset of a kind into so many cells.
    Fill { first: u64, count: u64, kind: Kind },
    /// Takes a value off.
    Drop,
    /// Converts the value on top to a kind.
    Conv(Kind),
    /// Takes a subscript for each dimension off, and pushes the offset of the element.
    Index(Boxed<Listing<Bounds>>),
    /// Pushes a copy of the cell at an offset, which is taken off, among so many.
    LoadAt { first: u64, count: u64 },
    /// Takes a value and an offset off, and puts the value into the cell at the offset.
    StoreAt { first: u64, count: u64 },
    /// Asks for the first value of a leaf.
    Read(u64),
    /// Puts the value on top into the first slot of a leaf.
    Write(u64),
    /// Asks for the value of a leaf's slot at an offset.
    ReadAt(u64),
    /// Puts the value on top into a leaf's slot at the offset below it.
    WriteAt(u64),
    /// Pushes a reference to the first slot of a leaf.
    RefSlot(u64),
    /// Pushes a reference to a leaf's slot at an offset.
    RefSlotAt(u64),
    /// Pushes a reference to an own cell.
    RefCell(u64),
    /// Pushes a reference to the own cell at an offset among so many.
    RefCellAt { first: u64, count: u64 },
    /// The value of the variable that the reference on top names.
    ReadRef,
    /// Puts the value on top into the variable that the reference below it names.
    WriteRef,
    /// Goes to an instruction.
    Jump(u64),
    /// Goes to an instruction where the bit on top is 0.
    JumpZero(u64),
    /// Goes to the x-th of these instructions, x being the number on top, where there is one.
    Case(Boxed<Listing<u64>>),
    /// Begins the next turn of a loop.
    Turn,
    /// Calls a procedure.
    Call(u64),
    /// Goes back to the caller, with the result.
    Return,
    /// Ends the task.
    End,
    /// Breaks the task off.
    Trap(Trap),
    /// Pushes whether a loop goes on: three cells are its control, step and limit.
    Within(u64),
    /// Adds the step to the control, or goes to an instruction where the sum leaves its kind.
    Advance { first: u64, past: u64 },
    /// Traps Range where the number on top is 0.
    NonZero,
    Monadic(Monad),
    /// The right operand lies above the left one.
    Dyadic(Dyad),
    /// Asks for the time of day.
    Now,
    Request(Boxed<Listing<u64>>),
    Release(Boxed<Listing<u64>>),
    Try(u64),
    Activate(Boxed<Activation>),
    Continue(Boxed<Continuation>),
    /// Suspends the own task, and plans that it goes on.
    Resume(OnceForm),
    Suspend(u64),
    Terminate(u64),
    Prevent(u64),
    SuspendOwn,
    TerminateOwn,
    PreventOwn,
    Enable(u64),
    Disable(u64),
    Trigger(u64),
    /// Takes the values of a format's items and writes their text.
    Put { device: u64, format: u64 },
    /// Reads values into cells.
    Get(Boxed<Reading>),
    /// Asks for the oldest value of an input.
    Take(u64),
    /// Sends the value on top to an output.
    Send(u64),
}

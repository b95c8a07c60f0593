// Statements.

use crate::expression::{Argument, Call, Expr, Variable};
use crate::schedule::{Once, Period, Start};
use crate::table::FirstValues;
use arrayvec::ArrayVec;

/// A statement. BEGIN is no statement here: its variables get their first values, and its statements follow. Nor is the
/// empty statement one. Tasks, semaphores, devices and formats are numbered as in the program's tables.
#[cycle(statement)]
#[derive(Drop)]
pub enum Stmt {
    /// A local variable gets its first values.
    Renew(Box<Renewal>),
    Assign(Box<Assign>),
    /// A result is dropped.
    Call(Box<Call>),
    If(Box<If>),
    Case(Box<Case>),
    Repeat(Box<Repeat>),
    Exit,
    Return(Box<Return>),
    Activate(Box<Activate>),
    Continue(Box<Continue>),
    Resume(Box<Once>),
    /// These three name a task, or none and mean the own one.
    Suspend(Option<u32>),
    Terminate(Option<u32>),
    Prevent(Option<u32>),
    Request(Box<ArrayVec<u16, 16>>),
    Release(Box<ArrayVec<u16, 16>>),
    Enable(u32),
    Disable(u32),
    Trigger(u32),
    Put(Box<Put>),
    Get(Box<Get>),
    Send(Box<Send>),
    Take(Box<Take>),
}

/// The cells from this one on get their first values.
#[derive(Drop)]
pub struct Renewal {
    pub cell: u32,
    pub values: FirstValues,
}

/// The value is put into the target.
#[derive(Drop)]
pub struct Assign {
    pub target: Variable,
    pub value: Expr,
}

/// IF. Without ELSE the second list is empty.
#[cycle(statement)]
#[derive(Drop)]
pub struct If {
    pub condition: Expr,
    pub statements: Vec<Stmt>,
    pub otherwise: Vec<Stmt>,
}

/// The statements of one ALT.
#[cycle(statement)]
#[derive(Drop)]
pub struct Branch {
    pub statements: Vec<Stmt>,
}

/// CASE. Without OUT the last list is empty.
#[cycle(statement)]
#[derive(Drop)]
pub struct Case {
    pub selector: Expr,
    pub alternatives: Vec<Branch>,
    pub otherwise: Vec<Stmt>,
}

/// FROM, BY and TO of a loop that counts. From this cell on stand its control variable, its step and its limit.
#[derive(Drop)]
pub struct Counter {
    pub cell: u32,
    pub begin: Option<Expr>,
    pub step: Option<Expr>,
    pub end: Option<Expr>,
}

/// REPEAT, with a counter where one of FOR, FROM, BY and TO stands, and the condition of WHILE.
#[cycle(statement)]
#[derive(Drop)]
pub struct Repeat {
    pub counter: Option<Counter>,
    pub condition: Option<Expr>,
    pub statements: Vec<Stmt>,
}

#[derive(Drop)]
pub struct Return {
    pub value: Option<Expr>,
}

#[derive(Drop)]
pub struct Activate {
    pub task: u32,
    pub start: Option<Start>,
    pub period: Option<Period>,
    pub priority: Option<Expr>,
}

#[derive(Drop)]
pub struct Continue {
    pub task: u32,
    pub once: Option<Once>,
}

#[derive(Drop)]
pub struct Put {
    pub values: Vec<Expr>,
    pub device: u32,
    pub format: u32,
}

/// GET. From this cell on stand the values that come in, one for each target, and behind them for each target how far its
/// element lies behind the first one.
#[derive(Drop)]
pub struct Get {
    pub targets: Vec<Variable>,
    pub device: u32,
    pub format: u32,
    pub cell: u32,
}

#[derive(Drop)]
pub struct Send {
    pub value: Expr,
    pub device: u32,
}

#[derive(Drop)]
pub struct Take {
    pub target: Variable,
    pub device: u32,
}

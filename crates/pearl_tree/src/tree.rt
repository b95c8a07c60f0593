// Modules and their declarations.

use crate::declaration::{Declared, Device, Param, Prio, Spec};
use crate::name::{Name, Number};
use crate::parts::Parts;
use crate::statement::Body;
use crate::typing::{Basic, Sort, Typing};

/// `[ prio ] [ MAIN ] | MAIN prio` of a task
#[derive(Clone, Copy)]
pub enum TaskHead {
    PrioFirst { prio: Option<Prio>, main: bool },
    MainFirst { prio: Prio },
}

/// The rule `decl`.
#[derive(Drop)]
pub enum Decl {
    /// `LENGTH ( FIXED | BIT | CHAR ) "(" number ")" ";"`
    Length {
        sort: Sort,
        number: Number,
        place: u32,
    },
    /// `TYPE id type ";"`
    Type {
        name: Name,
        typing: Typing,
        place: u32,
    },
    /// `DCL ( item | sema ) { "," ( item | sema ) } ";"`
    Declare {
        declared: Parts<Declared>,
        place: u32,
    },
    /// `SPC spec { "," spec } ";"`
    Specify {
        specs: Parts<Spec>,
        place: u32,
    },
    /// `id ":" TASK ( [ prio ] [ MAIN ] | MAIN prio ) ";" body END ";"`
    Task {
        name: Name,
        head: TaskHead,
        body: Body,
        place: u32,
    },
    /// `id ":" PROC [ "(" param { "," param } ")" ] [ RETURNS "(" basic ")" ] ";" body END ";"`. Without brackets the
    /// list is empty.
    Proc {
        name: Name,
        params: Parts<Param>,
        returns: Option<Basic>,
        body: Body,
        place: u32,
    },
}

/// `"(" id ")" | id` after MODULE
#[derive(Drop)]
pub enum ModuleName {
    Bracketed(Name),
    Bare(Name),
}

/// The rule `module`: `MODULE [ "(" id ")" | id ] ";" [ SYSTEM ";" { device } ] PROBLEM ";" { decl } MODEND [ ";" ]`
#[derive(Drop)]
pub struct Tree {
    pub name: Option<ModuleName>,
    /// The devices of the system part, if there is one.
    pub system: Option<Parts<Device>>,
    pub declarations: Parts<Decl>,
    /// The place of MODEND.
    pub modend: u32,
    /// Whether a semicolon ends the module.
    pub semicolon: bool,
    pub place: u32,
}

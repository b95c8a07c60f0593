// Declarations other than those that have a body, and devices.

use crate::literal::Const;
use crate::name::{Name, Names, Number};
use crate::parts::Parts;
use crate::typing::{Basic, Bound, Typing};
use pearl_value::device::Direction;

/// `id | INTERRUPT` in a device
#[derive(Drop)]
pub enum DeviceWord {
    Id(Name),
    Interrupt { place: u32 },
}

/// The rule `device`: `id ":" ( id | INTERRUPT ) "(" number ")" ";"`
#[derive(Drop)]
pub struct Device {
    pub name: Name,
    pub word: DeviceWord,
    pub number: Number,
    pub place: u32,
}

/// The rule `prio`: `PRIO number`
#[derive(Clone, Copy)]
pub struct Prio {
    pub number: Number,
    pub place: u32,
}

/// The rule `item`: `names [ bounds ] [ INV ] type [ INIT "(" const { "," const } ")" ]`. Without bounds, or without
/// INIT, the list is empty.
#[derive(Drop)]
pub struct Item {
    pub names: Names,
    pub bounds: Parts<Bound>,
    pub inv: bool,
    pub typing: Typing,
    pub init: Parts<Const>,
    pub place: u32,
}

/// The rule `sema`: `names SEMA [ PRESET "(" number { "," number } ")" ]`. Without PRESET the list is empty.
#[derive(Drop)]
pub struct Sema {
    pub names: Names,
    pub preset: Parts<Number>,
    pub place: u32,
}

/// `item | sema` in a declaration
#[derive(Drop)]
pub enum Declared {
    Item(Item),
    Sema(Sema),
}

/// `ALPHIC | BASIC basic`
#[derive(Clone, Copy)]
pub enum Class {
    Alphic { place: u32 },
    Basic { basic: Basic, place: u32 },
}

/// The rule `spec`.
#[derive(Drop)]
pub enum Spec {
    /// `names INTERRUPT`
    Interrupt {
        names: Names,
        place: u32,
    },
    /// `names DATION ( IN | OUT | INOUT ) ( ALPHIC | BASIC basic ) [ "CONTROL" "(" ALL ")" ]`
    Dation {
        names: Names,
        direction: Direction,
        class: Class,
        control: bool,
        place: u32,
    },
}

/// The rule `param`: `names basic [ IDENT ]`
#[derive(Drop)]
pub struct Param {
    pub names: Names,
    pub basic: Basic,
    pub ident: bool,
    pub place: u32,
}

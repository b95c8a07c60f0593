// What declares the names of a scope.

use pearl_tree::declaration::{Class, Item, Param};
use pearl_tree::name::Name;
use pearl_tree::parts::Parts;
use pearl_tree::typing::Basic;
use pearl_value::device::Direction;

/// What declares a name.
#[derive(Clone, Copy)]
pub enum Meaning<'a> {
    /// An item, before which so many TYPEs stand.
    Variable {
        item: &'a Item,
        types: u32,
    },
    /// The loop at this place.
    Control(u32),
    Parameter {
        basic: Basic,
        ident: bool,
    },
    /// The TYPE of this number.
    NewType(u32),
    Semaphore,
    Interrupt,
    Dation {
        direction: Direction,
        class: Class,
    },
    Task,
    Procedure {
        params: &'a Parts<Param>,
        returns: Option<Basic>,
    },
}

/// Names that are declared together.
#[derive(Clone, Copy)]
pub struct Group<'a> {
    pub names: &'a [Name],
    pub meaning: Meaning<'a>,
}

/// A scope, by what declares its names in order.
#[derive(Drop)]
pub struct ScopeGroups<'a> {
    pub outer: Option<u32>,
    pub groups: Vec<Group<'a>>,
}

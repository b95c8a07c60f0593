// What names are, and from where they are seen.

use pearl_tree::name::Name;

/// What sort of thing a name means.
#[derive(Clone, Copy, PartialEq, Eq, Debug)]
pub enum NameSort {
    Variable,
    /// A control variable of a loop.
    Control,
    Parameter,
    /// A type, with its number among the TYPEs of the module.
    NewType(u32),
    Semaphore,
    Interrupt,
    Dation,
    Task,
    Procedure,
}

/// A name that a scope declares, at the place where it is declared.
#[derive(Drop)]
pub struct SortedName {
    pub name: Name,
    pub sort: NameSort,
}

/// From where a name is seen.
#[derive(Clone, Copy, PartialEq, Eq, Debug)]
pub enum View {
    /// Within the scope of this number.
    Within(u32),
    /// In the WHILE of the loop whose body is the scope of this number: of its names the control variable alone is
    /// visible there.
    WhileOf(u32),
}

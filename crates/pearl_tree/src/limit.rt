// The limits of the grammar. Definitions and readers cite them from here.

/// How many dyadic operators an expression may have outside further brackets.
pub const DYADS_MAX: usize = 100;

/// How many monadic operators may stand before one primary.
pub const MONADS_MAX: usize = 8;

/// How many brackets of one expression may stand within one another.
pub const BRACKETS_MAX: u8 = 32;

/// How many brackets may stand within one another in a reference of a statement's own: its own ones aren't counted.
pub const OWN_BRACKETS_MAX: u8 = BRACKETS_MAX + 1;

/// How many STRUCTs may stand within one another.
pub const STRUCTS_MAX: u8 = 8;

/// How many IF, CASE, REPEAT and BEGIN may stand within one another.
pub const NESTED_MAX: u8 = 32;

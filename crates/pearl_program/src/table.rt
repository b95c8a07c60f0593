// The tables of a program.

use crate::literal::Literal;
use pearl_value::kind::Kind;
use pearl_value::listing::Listing;

/// What some slots or cells of one kind hold at first: the constants in order, the last of them as often as needed.
/// Without constants they are unset.
#[derive(Drop)]
pub struct FirstValues {
    pub kind: Kind,
    /// How many slots or cells there are.
    pub count: u32,
    pub constants: Listing<Literal>,
}

/// A part of the module's variables that lies in slots of its own.
#[derive(Drop)]
pub struct Leaf {
    /// The variable's name, and those of the fields that lead to the leaf, with points between them.
    pub name: Listing<u8>,
    pub values: FirstValues,
}

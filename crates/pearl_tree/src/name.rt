// Names and numbers, the parts that most rules have.

ghost use Rattle.std.specs.Prelude.{◌≡◌};
ghost use Rattle.pearl_tree.specs.ShownDeclarations.{shown_names};
ghost use Rattle.pearl_tree.specs.Names.{names_of};

use crate::parts::Parts;
use arrayvec::ArrayVec;
use std::slice;

/// An id, and the place where it stands.
#[derive(Drop)]
pub struct Name {
    pub text: ArrayVec<u8, 63>,
    pub place: u32,
}

/// A number, and the place where it stands.
#[derive(Clone, Copy)]
pub struct Number {
    pub value: u64,
    pub place: u32,
}

/// The rule `names`.
#[derive(Drop)]
pub enum Names {
    /// `id`
    One(Name),
    /// `"(" id { "," id } ")"`
    Several { names: Parts<Name>, place: u32 },
}

impl Names {
    /// The names, in order.
    pub fn as_slice(&self) -> &[Name]
        ensures { result.now ≡ names_of (shown_names self.now) }
    {
        match self {
            Names::One(name) => slice::from_ref(name),
            Names::Several { names, .. } => names.as_slice(),
        }
    }
}

// What the expressions of a statement need.

ghost use Rattle.std.specs.Prelude.{◌≡◌, ◌+◌, IfOk};
ghost use Rattle.pearl_generate.specs.Needs.{need_of, both_needs, greater_need};

use std::alloc::AllocError as NoMemory;

/// How many values stand in some expressions, and the greatest weight of a procedure that they call.
#[derive(Clone, Copy)]
pub struct Need {
    pub values: u64,
    pub deepest: u64,
}

/// The sum. One that has no room counts as want of memory.
pub fn sum(one: u64, other: u64) -> Result<u64, NoMemory>
    ensures { IfOk result (λ both. both ≡ one + other) }
{
    match one.checked_add(other) {
        Some(both) => Ok(both),
        None => Err(NoMemory),
    }
}

impl Need {
    pub const NONE: Need = Need {
        values: 0,
        deepest: 0,
    };

    pub const VALUE: Need = Need {
        values: 1,
        deepest: 0,
    };

    /// Of two parts of a statement's expressions. Too many values count as want of memory.
    pub fn with(self, other: Need) -> Result<Need, NoMemory>
        ensures { IfOk result (λ need. need ≡ both_needs self other) }
    {
        let values = sum(self.values, other.values)?;
        Ok(Need {
            values,
            deepest: self.deepest.max(other.deepest),
        })
    }

    /// The greatest of two statements.
    pub fn or(self, other: Need) -> Need
        ensures { result ≡ greater_need self other }
    {
        Need {
            values: self.values.max(other.values),
            deepest: self.deepest.max(other.deepest),
        }
    }
}

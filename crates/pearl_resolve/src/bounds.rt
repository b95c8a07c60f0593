// The bounds of arrays.

ghost use Rattle.std.specs.Prelude.{◌≡◌, ◌+◌, ◌++◌, ◌-ℤ◌, unsigned_abs, map, IfOk, OnOk};
ghost use Rattle.pearl_names.specs.Forms.{pair_of};
ghost use Rattle.pearl_program.specs.Typing as typing;
ghost use Rattle.pearl_resolve.specs.Expressions.{bound_of};

use crate::counts::product;
use pearl_names::sense::Bounds;
use pearl_program::expression::Bound;
use std::alloc::AllocError;

fn bound_in(bounds: Bounds) -> Bound
    ensures { result ≡ bound_of (pair_of bounds) }
{
    Bound {
        lower: bounds.lower,
        upper: bounds.upper,
    }
}

/// Adds bounds behind others.
pub(crate) fn add_bounds(into: &mut Vec<Bound>, bounds: &[Bounds]) -> Result<(), AllocError>
    ensures { OnOk result (into.new.items ≡ into.old.items ++ map bound_of (map pair_of bounds.now)) }
{
    into.reserve_exact(bounds.len())?;
    for own in bounds {
        into.push(bound_in(*own))?;
    }
    Ok(())
}

fn extent(bound: Bound) -> u64
    ensures { result ≡ unsigned_abs (bound.upper -ℤ bound.lower) + 1 }
{
    (i64::from(bound.upper) - i64::from(bound.lower)).unsigned_abs() + 1
}

/// How many elements there are within some bounds. More than memory can hold count as want of memory.
pub(crate) fn elements(bounds: &[Bound]) -> Result<u64, AllocError>
    ensures { IfOk result (λ count. count ≡ typing.elements bounds.now) }
{
    let mut count: u64 = 1;
    for bound in bounds {
        count = product(count, extent(*bound))?;
    }
    Ok(count)
}

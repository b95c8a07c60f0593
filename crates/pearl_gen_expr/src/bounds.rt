// Bounds of arrays, and how many elements there are within them.

ghost use Rattle.std.specs.Prelude.{◌≡◌, ◌+◌, ◌-ℤ◌, map, unsigned_abs, IfOk, IfSome};
ghost use Rattle.pearl_program.specs.Typing.{elements};
ghost use Rattle.pearl_gen_expr.specs.ExprCode.{bounds_of};

use pearl_instructions::instr::Bounds;
use pearl_program::expression::Bound;
use std::alloc::{AllocError as NoMemory, Global};

fn extent(bound: Bound) -> u64
    ensures { result ≡ unsigned_abs (bound.upper -ℤ bound.lower) + 1 }
{
    (i64::from(bound.upper) - i64::from(bound.lower)).unsigned_abs() + 1
}

/// How many elements there are within some bounds. Too many count as want of memory.
pub fn element_count(bounds: &[Bound]) -> Result<u64, NoMemory>
    ensures { IfOk result (λ count. count ≡ elements bounds.now) }
{
    let mut count: u64 = 1;
    for bound in bounds {
        count = match count.checked_mul(extent(*bound)) {
            Some(more) => more,
            None => return Err(NoMemory),
        };
    }
    Ok(count)
}

/// The bounds as an instruction has them.
pub fn index_bounds(alloc: Global, bounds: &[Bound]) -> Result<Vec<Bounds>, NoMemory>
    ensures { IfOk result (λ list. list.items ≡ map bounds_of bounds.now) }
{
    let mut list = Vec::new(alloc);
    for bound in bounds {
        list.push(Bounds {
            low: bound.lower,
            high: bound.upper,
        })?;
    }
    Ok(list)
}

// Counts of elements that are whole.

ghost use Rattle.std.specs.Prelude.{◌≡◌, ◌+◌, ◌*◌, ℕ, [], ◌∷◌, map, IfOk};
ghost use Rattle.pearl_names.specs.Counts.{cut};
ghost use Rattle.pearl_names.specs.Forms.{pair_of};
ghost use Rattle.pearl_names.specs.Layout.{elements};

use pearl_names::sense::Bounds;
use std::alloc::AllocError;

/// A count that is not cut off. Too large a one counts as want of memory.
pub fn whole(count: u32) -> Result<u32, AllocError>
    ensures { IfOk result (λ found. (n : ℕ) → count ≡ cut n → found ≡ n) }
{
    if count < 1 << 31 {
        Ok(count)
    } else {
        Err(AllocError)
    }
}

/// A sum of counts. Too large a one counts as want of memory.
pub fn sum(a: u32, b: u32) -> Result<u32, AllocError>
    ensures { IfOk result (λ sum. sum ≡ a + b) }
{
    match a.checked_add(b) {
        Some(sum) => Ok(sum),
        None => Err(AllocError),
    }
}

/// A product of counts. Too large a one counts as want of memory.
pub fn product(a: u32, b: u32) -> Result<u32, AllocError>
    ensures { IfOk result (λ product. product ≡ a * b) }
{
    match a.checked_mul(b) {
        Some(product) => Ok(product),
        None => Err(AllocError),
    }
}

fn elements_within(bounds: Bounds) -> Result<u32, AllocError>
    ensures { IfOk result (λ count. count ≡ elements (pair_of bounds ∷ [])) }
{
    let last = (i64::from(bounds.upper) - i64::from(bounds.lower)).unsigned_abs();
    match u32::try_from(last + 1) {
        Ok(count) => Ok(count),
        Err(_) => Err(AllocError),
    }
}

/// How many elements there are within some bounds.
pub(crate) fn all_elements(bounds: &[Bounds]) -> Result<u32, AllocError>
    ensures { IfOk result (λ count. count ≡ elements (map pair_of bounds.now)) }
{
    let mut count = 1;
    for own in bounds {
        count = product(count, elements_within(*own)?)?;
    }
    Ok(count)
}

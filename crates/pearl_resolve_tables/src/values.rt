// What slots of one kind hold at first, and which constants are left for those behind.

ghost use Rattle.std.specs.Prelude.{◌≡◌, map, take, IfOk};
ghost use Rattle.pearl_program.specs.PlainExpressions.{cell_of};
ghost use Rattle.pearl_program.specs.PlainStatements.{plain_values};
ghost use Rattle.pearl_tree.specs.ShownLiterals.{shown_const};
ghost use Rattle.pearl_resolve_tables.specs.Laying as spec;

use crate::constant::constant_in;
use pearl_program::literal::Literal;
use pearl_program::table::FirstValues;
use pearl_tree::literal::Const;
use pearl_value::kind::Kind;
use pearl_value::listing::Listing;
use std::alloc::{AllocError, Global};

fn first_constants(count: u32, constants: &[Const]) -> &[Const]
    ensures { result.now ≡ take count constants.now }
{
    let count = count as usize;
    if count <= constants.len() {
        &constants[..count]
    } else {
        constants
    }
}

fn values_in(alloc: Global, kind: Kind, constants: &[Const]) -> Result<Vec<Literal>, AllocError>
    ensures { IfOk result (λ made. map cell_of made.items ≡ map (spec.constant_in kind) (map shown_const constants.now)) }
{
    let mut made = Vec::new(alloc);
    made.reserve_exact(constants.len())?;
    for constant in constants {
        made.push(constant_in(alloc, kind, constant)?)?;
    }
    Ok(made)
}

/// What so many slots or cells of one kind hold at first, where these constants are left for them.
pub(crate) fn first_values(
    alloc: Global,
    kind: Kind,
    count: u32,
    constants: &[Const],
) -> Result<FirstValues, AllocError>
    ensures { IfOk result (λ made. plain_values made ≡ record {
      kind = kind;
      count = count;
      constants = map (spec.constant_in kind) (take count (map shown_const constants.now));
    }) }
{
    let values = values_in(alloc, kind, first_constants(count, constants))?;
    Ok(FirstValues {
        kind,
        count,
        constants: Listing::new(values),
    })
}

/// The constants that are left behind so many slots: the last one stays.
pub fn left_behind(count: u32, constants: &[Const]) -> &[Const]
    ensures { map shown_const result.now ≡ spec.left_behind count (map shown_const constants.now) }
{
    let last = constants.len().saturating_sub(1);
    &constants[usize::min(count as usize, last)..]
}

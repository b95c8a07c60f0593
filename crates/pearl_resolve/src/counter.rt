// The counters of loops.

ghost use Rattle.std.specs.Prelude.{◌≡◌, option_map, IfOk};
ghost use Rattle.pearl_program.specs.PlainStatements.{plain_counter};
ghost use Rattle.pearl_tree.specs.ShownExpressions.{shown_expr};
ghost use Rattle.pearl_resolve.specs.Holding.{Becomes, at_in};
ghost use Rattle.pearl_resolve.specs.Numbers as numbers;
ghost use Rattle.pearl_resolve.specs.Statements as spec;

use crate::numbered::NumberedTable;
use crate::numbers::At;
use crate::schedule::value_if;
use pearl_names::scope::View;
use pearl_program::statement::Counter;
use pearl_tree::statement::Repeat;
use std::alloc::{AllocError, Global};

/// Whether a loop counts.
pub(crate) fn counts(part: &Repeat) -> bool
    ensures { result ≡ numbers.counts part.now.control part.now.begin part.now.step part.now.end }
{
    part.control.is_some() || part.begin.is_some() || part.step.is_some() || part.end.is_some()
}

/// How many cells a loop has before those of its body.
pub(crate) fn loop_cells(part: &Repeat) -> u32
    ensures { result ≡ numbers.loop_cells part.now.control part.now.begin part.now.step part.now.end }
{
    if counts(part) { 3 } else { 0 }
}

/// The counter of a loop that counts.
pub(crate) fn counter_in(
    alloc: Global,
    numbered: &NumberedTable,
    scope: u32,
    at: At,
    part: &Repeat,
) -> Result<Option<Counter>, AllocError>
    ensures { IfOk result (λ counter. Becomes numbered.now (option_map plain_counter counter) (λ of. spec.counter_in of scope (at_in at) part.now.control
        (option_map shown_expr part.now.begin) (option_map shown_expr part.now.step) (option_map shown_expr part.now.end))) }
{
    if counts(part) {
        let begin = value_if(alloc, numbered, View::Within(scope), &part.begin)?;
        let step = value_if(alloc, numbered, View::Within(scope), &part.step)?;
        let end = value_if(alloc, numbered, View::Within(scope), &part.end)?;
        Ok(Some(Counter {
            cell: at.cell,
            begin,
            step,
            end,
        }))
    } else {
        Ok(None)
    }
}

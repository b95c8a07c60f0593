// What follows the id of a reference, where no bracket encloses it.

ghost use Rattle.std.specs.Prelude.{◌≢◌, ℕ, ◌≤◌, length, IfErr};
ghost use Rattle.pearl_tree.specs.Standing.{HasSymbol};
ghost use Rattle.pearl_tree.specs.Expressions as grammar;
ghost use Rattle.pearl_tree.specs.declared.symbol.TheConstants as s;
ghost use Rattle.pearl_parse_expr.specs.declared.reading.Halt.{Halt};
ghost use Rattle.pearl_parse_expr.specs.Reads.{ReadsOnly};

use crate::reading::{Halt, Reading};
use crate::standing::{name_at, place_at};
use pearl_tree::expression::Selector;
use pearl_tree::token::Token;

/// A component, from its period on.
pub fn component(tokens: &[Token], from: usize) -> Result<Reading<Selector>, Halt>
    requires within { from ≤ length tokens.now }
    requires period { HasSymbol tokens.now from s.PERIOD }
    ensures reads { (depth : ℕ) → ReadsOnly 16 (λ tokens. grammar.SpellsSelector tokens depth) tokens.now from result }
    ensures memory { IfErr result (λ halt. halt ≢ Halt.NoMemory) }
{
    match name_at(tokens, from + 1) {
        Some(name) => Ok(Reading {
            part: Selector::Component {
                name,
                place: place_at(tokens, from),
            },
            end: from + 2,
            stop: from + 2,
        }),
        None => Err(Halt::Refused(from + 1)),
    }
}

// Names, and names that may be missing.

ghost use Rattle.std.specs.Prelude.{◌≡◌, ◌+◌, ◌<◌, ◌≤◌, length, IfOk, IfErr, Ok};
ghost use Rattle.pearl_tree.specs.Standing.{IsName, SpellsName, SpellsMaybe};
ghost use Rattle.pearl_parse_expr.specs.Stops.{is_name};
ghost use Rattle.pearl_parse_expr.specs.Reads.{ReadsOnlyMaybe};
ghost use Rattle.pearl_parse.specs.Stops as spec;

use pearl_parse_expr::reading::{Halt, Reading};
use pearl_parse_expr::standing::name_at;
use pearl_tree::name::Name;
use pearl_tree::token::Token;

/// A name.
pub fn name(tokens: &[Token], at: usize, stop: usize) -> Result<Name, Halt>
    ensures stands { IfOk result (λ name. IsName tokens.now at name) }
    ensures within { IfOk result (λ _. at < length tokens.now) }
    ensures missing { IfErr result (λ halt. spec.IsMissing tokens.now is_name at stop halt) }
{
    match name_at(tokens, at) {
        Some(name) => Ok(name),
        None => Err(Halt::Refused(stop.max(at))),
    }
}

/// A name that may be missing.
pub fn maybe_name(tokens: &[Token], from: usize) -> Reading<Option<Name>>
    requires { from ≤ length tokens.now }
    ensures reads { ReadsOnlyMaybe 8 (λ tokens. SpellsMaybe (SpellsName tokens)) (spec.SpellsOptional is_name SpellsName) (λ tokens. SpellsMaybe (SpellsName tokens)) tokens.now from (Ok result) }
    ensures close { result.stop ≡ result.end }
{
    match name_at(tokens, from) {
        Some(name) => Reading {
            part: Some(name),
            end: from + 1,
            stop: from + 1,
        },
        None => Reading {
            part: None,
            end: from,
            stop: from,
        },
    }
}

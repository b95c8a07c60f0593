// Primaries that no bracket encloses, and what stands before the array of LWB and UPB.

ghost use Rattle.std.specs.Prelude.{◌≡◌, ◌≢◌, ℕ, ◌<◌, ◌≤◌, length, IfErr, IfSome, None, false};
ghost use Rattle.pearl_tree.specs.Standing.{what_at, HasWord, SpellsMaybe, SpellsNumber};
ghost use Rattle.pearl_tree.specs.Expressions as grammar;
ghost use Rattle.pearl_tree.specs.declared.word_code.TheConstants as w;
ghost use Rattle.pearl_tree.specs.declared.symbol.TheConstants as s;
ghost use Rattle.pearl_parse_expr.specs.declared.reading.Halt.{Halt};
ghost use Rattle.pearl_parse_expr.specs.Stops as spec;
ghost use Rattle.pearl_parse_expr.specs.Reads.{Reads};

use crate::literal::literal;
use crate::operator::side_at;
use crate::reading::{Halt, Reading};
use crate::standing::{name_at, number_at, place_at};
use pearl_tree::expression::{Primary, Side};
use pearl_tree::name::Number;
use pearl_tree::token::Token;
use std::alloc::Global;

/// LWB or UPB, with the number before it.
#[derive(Clone, Copy)]
pub struct LimitHead {
    pub dimension: Option<Number>,
    pub side: Side,
    pub word: usize,
}

/// The beginning of a question for a bound of an array.
pub fn limit_head(tokens: &[Token], from: usize) -> Option<LimitHead>
    ensures dimension { IfSome result (λ head. SpellsMaybe (SpellsNumber tokens.now) from head.dimension head.word) }
    ensures word { IfSome result (λ head. HasWord tokens.now head.word (grammar.side_word head.side)) }
    ensures none { result ≡ None → spec.begins_limit tokens.now from ≡ false }
    ensures within { IfSome result (λ head. (from ≤ head.word) × (head.word < length tokens.now)) }
{
    if let Some(side) = side_at(tokens, from) {
        return Some(LimitHead {
            dimension: None,
            side,
            word: from,
        });
    }
    match number_at(tokens, from) {
        Some(number) => match side_at(tokens, from + 1) {
            Some(side) => Some(LimitHead {
                dimension: Some(number),
                side,
                word: from + 1,
            }),
            None => None,
        },
        None => None,
    }
}

/// `TRY` with its semaphore.
pub fn availability(tokens: &[Token], from: usize) -> Result<Reading<Primary>, Halt>
    requires within { from ≤ length tokens.now }
    requires word { HasWord tokens.now from w.TRY }
    ensures reads { (depth : ℕ) → Reads 16 (λ tokens. grammar.SpellsPrimary tokens depth) spec.extends_operand
        tokens.now from result }
    ensures memory { IfErr result (λ halt. halt ≢ Halt.NoMemory) }
{
    match name_at(tokens, from + 1) {
        Some(name) => Ok(Reading {
            part: Primary::Try {
                name,
                place: place_at(tokens, from),
            },
            end: from + 2,
            stop: from + 2,
        }),
        None => Err(Halt::Refused(from + 1)),
    }
}

/// The longest literal that begins here, where no other primary does.
pub fn literal_primary(
    alloc: Global,
    tokens: &[Token],
    from: usize,
) -> Result<Reading<Primary>, Halt>
    requires within { from ≤ length tokens.now }
    requires group { spec.is_symbol s.LEFT_ROUND (what_at tokens.now from) ≡ false }
    requires name { spec.is_name (what_at tokens.now from) ≡ false }
    requires now_word { spec.is_word w.NOW (what_at tokens.now from) ≡ false }
    requires try_word { spec.is_word w.TRY (what_at tokens.now from) ≡ false }
    requires limit { spec.begins_limit tokens.now from ≡ false }
    ensures { (depth : ℕ) → Reads 16 (λ tokens. grammar.SpellsPrimary tokens depth) spec.extends_operand
        tokens.now from result }
{
    match literal(alloc, tokens, from) {
        Ok(literal) => Ok(Reading {
            part: Primary::Literal(literal.part),
            end: literal.end,
            stop: literal.stop,
        }),
        Err(halt) => Err(halt),
    }
}

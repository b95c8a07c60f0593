// Constants.

ghost use Rattle.std.specs.Prelude.{◌≡◌, ◌+◌, ◌≤◌, Some, None, length, refl};
ghost use Rattle.pearl_tree.specs.Standing.{SpellsMaybe};
ghost use Rattle.pearl_tree.specs.Expressions as grammar;
ghost use Rattle.pearl_parse_expr.specs.Stops as stops;
ghost use Rattle.pearl_parse_expr.specs.Reads.{Reads};
ghost use Rattle.pearl_parse_expr.proofs.Offered as parts;
ghost use Rattle.pearl_parse_decl.specs.Readings as spec;

use crate::list::{Readable, behind};
use pearl_parse_expr::literal::literal;
use pearl_parse_expr::reading::{Halt, Reading};
use pearl_parse_expr::standing::{is_symbol, place_at};
use pearl_tree::literal::{Const, Sign};
use pearl_tree::symbol::{MINUS, PLUS};
use pearl_tree::token::Token;
use std::alloc::Global;

// `[ "+" | "-" ]`
fn sign(tokens: &[Token], from: usize) -> Reading<Option<Sign>>
    requires { from ≤ length tokens.now }
    ensures reads { spec.ReadsMaybePart 16 (λ tokens. SpellsMaybe (grammar.SpellsSign tokens)) spec.is_sign tokens.now from (Ok result) }
    ensures once { result.stop ≡ result.end }
{
    if is_symbol(tokens, from, PLUS) {
        return Reading {
            part: Some(Sign::Plus),
            end: from + 1,
            stop: from + 1,
        };
    }
    if is_symbol(tokens, from, MINUS) {
        return Reading {
            part: Some(Sign::Minus),
            end: from + 1,
            stop: from + 1,
        };
    }
    Reading {
        part: None,
        end: from,
        stop: from,
    }
}

/// `[ "+" | "-" ] literal`
pub fn constant(alloc: Global, tokens: &[Token], from: usize) -> Result<Reading<Const>, Halt>
    requires { from ≤ length tokens.now }
    ensures { Reads 16 grammar.SpellsConst stops.extends_operand tokens.now from result }
{
    let sign = sign(tokens, from);
    match literal(alloc, tokens, sign.end) {
        Ok(literal) => Ok(Reading {
            part: Const {
                sign: sign.part,
                literal: literal.part,
                place: place_at(tokens, from),
            },
            end: literal.end,
            stop: literal.stop.max(sign.stop),
        }),
        Err(halt) => Err(behind(halt, sign.stop)),
    }
}

impl Readable for Const {
    ghost spelling = { grammar.SpellsConst };

    ghost extends = { stops.extends_operand };

    fn read(alloc: Global, tokens: &[Token], from: usize) -> Result<Reading<Const>, Halt> {
        constant(alloc, tokens, from)
    }

    ghost begins = { parts.consts_begin };

    ghost stops_at_comma = { refl };

    ghost stops_at_bracket = { refl };
}

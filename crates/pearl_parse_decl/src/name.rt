// Names, and numbers in brackets.

ghost use Rattle.std.specs.Prelude.{◌≡◌, ◌≢◌, ◌+◌, ◌≤◌, Some, None, Ok, length, IfOk, IfErr, refl};
ghost use Rattle.pearl_tree.specs.Standing.{SpellsName, SpellsNumber, SpellsMaybe, SpellsBracketedNumber};
ghost use Rattle.pearl_tree.specs.Types as grammar;
ghost use Rattle.pearl_parse_expr.specs.declared.reading.Halt.{Halt};
ghost use Rattle.pearl_parse_expr.specs.Reads.{ReadsOnly};
ghost use Rattle.pearl_parse_expr.proofs.Offered as parts;
ghost use Rattle.pearl_parse_decl.specs.Readings as spec;

use crate::flag::optional;
use crate::list::{Readable, bracketed};
use pearl_parse_expr::reading::{Halt, Reading};
use pearl_parse_expr::standing::{is_symbol, name_at, number_at, place_at};
use pearl_tree::name::{Name, Names, Number};
use pearl_tree::parts::Parts;
use pearl_tree::symbol::{LEFT_ROUND, RIGHT_ROUND};
use pearl_tree::token::Token;
use std::alloc::Global;

/// The name that stands here.
pub fn name(tokens: &[Token], from: usize) -> Result<Reading<Name>, Halt>
    requires { from ≤ length tokens.now }
    ensures reads { ReadsOnly 16 SpellsName tokens.now from result }
    ensures memory { IfErr result (λ halt. halt ≢ Halt.NoMemory) }
{
    match name_at(tokens, from) {
        Some(part) => Ok(Reading {
            part,
            end: from + 1,
            stop: from + 1,
        }),
        None => Err(Halt::Refused(from)),
    }
}

/// The number that stands here.
pub fn number(tokens: &[Token], from: usize) -> Result<Reading<Number>, Halt>
    requires { from ≤ length tokens.now }
    ensures reads { ReadsOnly 16 SpellsNumber tokens.now from result }
    ensures memory { IfErr result (λ halt. halt ≢ Halt.NoMemory) }
{
    match number_at(tokens, from) {
        Some(part) => Ok(Reading {
            part,
            end: from + 1,
            stop: from + 1,
        }),
        None => Err(Halt::Refused(from)),
    }
}

impl Readable for Name {
    ghost spelling = { SpellsName };

    ghost extends = { spec.never };

    fn read(_alloc: Global, tokens: &[Token], from: usize) -> Result<Reading<Name>, Halt> {
        name(tokens, from)
    }

    ghost begins = { parts.names_begin };

    ghost stops_at_comma = { refl };

    ghost stops_at_bracket = { refl };
}

impl Readable for Number {
    ghost spelling = { SpellsNumber };

    ghost extends = { spec.never };

    fn read(_alloc: Global, tokens: &[Token], from: usize) -> Result<Reading<Number>, Halt> {
        number(tokens, from)
    }

    ghost begins = { parts.numbers_begin };

    ghost stops_at_comma = { refl };

    ghost stops_at_bracket = { refl };
}

/// The number that stands here in brackets.
pub fn bracketed_number(tokens: &[Token], from: usize) -> Result<Reading<Number>, Halt>
    requires { from ≤ length tokens.now }
    ensures reads { ReadsOnly 16 SpellsBracketedNumber tokens.now from result }
    ensures once { IfOk result (λ reading. reading.stop ≡ reading.end) }
    ensures memory { IfErr result (λ halt. halt ≢ Halt.NoMemory) }
{
    if !is_symbol(tokens, from, LEFT_ROUND) {
        return Err(Halt::Refused(from));
    }
    let part = match number_at(tokens, from + 1) {
        Some(number) => number,
        None => return Err(Halt::Refused(from + 1)),
    };
    if !is_symbol(tokens, from + 2, RIGHT_ROUND) {
        return Err(Halt::Refused(from + 2));
    }
    Ok(Reading {
        part,
        end: from + 3,
        stop: from + 3,
    })
}

/// The number that stands here in brackets, if one does.
pub fn maybe_number(tokens: &[Token], from: usize) -> Reading<Option<Number>>
    requires { from ≤ length tokens.now }
    ensures { spec.ReadsMaybePart 16 (λ tokens. SpellsMaybe (SpellsBracketedNumber tokens)) spec.by_bracket tokens.now from (Ok result) }
{
    optional(bracketed_number(tokens, from), from)
}

/// `id | "(" id { "," id } ")"`
pub fn names(alloc: Global, tokens: &[Token], from: usize) -> Result<Reading<Names>, Halt>
    requires { from ≤ length tokens.now }
    ensures { ReadsOnly 9 grammar.SpellsNames tokens.now from result }
{
    match name_at(tokens, from) {
        Some(name) => Ok(Reading {
            part: Names::One(name),
            end: from + 1,
            stop: from + 1,
        }),
        None => match bracketed(alloc, tokens, from) {
            Ok(list) => Ok(Reading {
                part: Names::Several {
                    names: Parts::new(list.part),
                    place: place_at(tokens, from),
                },
                end: list.end,
                stop: list.stop,
            }),
            Err(halt) => Err(halt),
        },
    }
}

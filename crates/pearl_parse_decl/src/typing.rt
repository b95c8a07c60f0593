// Bounds and types.

ghost use Rattle.std.specs.Prelude.{◌≡◌, ◌≢◌, ◌+◌, ◌-◌, ◌<◌, ◌≤◌, Option, Some, None, length, IfOk, IfErr, IfSome, refl, true, false};
ghost use Rattle.pearl_tree.specs.Standing.{HasWord, SpellsMaybe, SpellsList};
ghost use Rattle.pearl_tree.specs.Types as grammar;
ghost use Rattle.pearl_tree.specs.declared.typing.Sort.{Sort};
ghost use Rattle.pearl_tree.specs.declared.typing.Field.{Field};
ghost use Rattle.pearl_tree.specs.declared.word_code.TheConstants as w;
ghost use Rattle.pearl_parse_expr.specs.declared.reading.Halt.{Halt};
ghost use Rattle.pearl_parse_expr.specs.Reads.{Reads, ReadsOnly, ReadsList};
ghost use Rattle.pearl_parse_expr.proofs.Offered as parts;
ghost use Rattle.pearl_parse_decl.specs.Readings as spec;

use crate::flag::optional;
use crate::list::{Readable, behind, maybe_bracketed};
use crate::name::{maybe_number, names};
use pearl_parse_expr::reading::{Halt, Reading};
use pearl_parse_expr::standing::{is_symbol, is_word, name_at, number_at, place_at};
use pearl_tree::name::Name;
use pearl_tree::parts::Parts;
use pearl_tree::symbol::{COLON, COMMA, LEFT_SQUARE, MINUS, RIGHT_SQUARE};
use pearl_tree::token::Token;
use pearl_tree::typing::{Basic, Bound, Field, Int, Sort, Typing};
use pearl_tree::word_code::{BIT, CHAR, CLOCK, DURATION, FIXED, STRUCT};
use std::alloc::Global;

/// `[ "-" ] number`
pub fn int(tokens: &[Token], from: usize) -> Result<Reading<Int>, Halt>
    requires { from ≤ length tokens.now }
    ensures reads { ReadsOnly 16 grammar.SpellsInt tokens.now from result }
    ensures once { IfOk result (λ reading. reading.stop ≡ reading.end) }
    ensures memory { IfErr result (λ halt. halt ≢ Halt.NoMemory) }
{
    if let Some(number) = number_at(tokens, from) {
        return Ok(Reading {
            part: Int {
                minus: false,
                number,
                place: number.place,
            },
            end: from + 1,
            stop: from + 1,
        });
    }
    if !is_symbol(tokens, from, MINUS) {
        return Err(Halt::Refused(from));
    }
    match number_at(tokens, from + 1) {
        Some(number) => Ok(Reading {
            part: Int {
                minus: true,
                number,
                place: place_at(tokens, from),
            },
            end: from + 2,
            stop: from + 2,
        }),
        None => Err(Halt::Refused(from + 1)),
    }
}

// `[ ":" int ]`
fn upper(tokens: &[Token], from: usize) -> Reading<Option<Int>>
    requires { from ≤ length tokens.now }
    ensures { spec.ReadsMaybePart 16 (λ tokens. SpellsMaybe (grammar.SpellsUpper tokens)) spec.by_colon tokens.now from (Ok result) }
{
    if !is_symbol(tokens, from, COLON) {
        return Reading {
            part: None,
            end: from,
            stop: from,
        };
    }
    optional(int(tokens, from + 1), from)
}

/// `int [ ":" int ]`
pub fn bound(tokens: &[Token], from: usize) -> Result<Reading<Bound>, Halt>
    requires { from ≤ length tokens.now }
    ensures reads { Reads 16 grammar.SpellsBound spec.by_colon tokens.now from result }
    ensures memory { IfErr result (λ halt. halt ≢ Halt.NoMemory) }
{
    let first = int(tokens, from)?;
    let second = upper(tokens, first.end);
    Ok(Reading {
        part: Bound {
            first: first.part,
            second: second.part,
            place: first.part.place,
        },
        end: second.end,
        stop: second.stop.max(first.stop),
    })
}

impl Readable for Bound {
    ghost spelling = { grammar.SpellsBound };

    ghost extends = { spec.by_colon };

    fn read(_alloc: Global, tokens: &[Token], from: usize) -> Result<Reading<Bound>, Halt> {
        bound(tokens, from)
    }

    ghost begins = { parts.bounds_begin };

    ghost stops_at_comma = { refl };

    ghost stops_at_bracket = { refl };
}

/// The bounds that begin here, if any do.
pub fn bounds(alloc: Global, tokens: &[Token], from: usize) -> Result<Reading<Parts<Bound>>, Halt>
    requires { from ≤ length tokens.now }
    ensures reads { spec.ReadsMaybePart 9 grammar.SpellsBounds spec.by_bracket tokens.now from result }
    ensures memory { IfErr result (λ halt. halt ≡ Halt.NoMemory) }
{
    match maybe_bracketed(alloc, tokens, from) {
        Ok(list) => Ok(Reading {
            part: Parts::new(list.part),
            end: list.end,
            stop: list.stop,
        }),
        Err(halt) => Err(halt),
    }
}

/// FIXED, BIT or CHAR.
pub fn sort_at(tokens: &[Token], at: usize) -> Option<Sort>
    ensures some { IfSome result (λ sort. HasWord tokens.now at (grammar.sort_word sort)) }
    ensures none { result ≡ None → (sort : Sort) → HasWord tokens.now at (grammar.sort_word sort) → ⊥ }
    ensures within { IfSome result (λ _. at < length tokens.now) }
{
    if is_word(tokens, at, FIXED) {
        return Some(Sort::Fixed);
    }
    if is_word(tokens, at, BIT) {
        return Some(Sort::Bit);
    }
    if is_word(tokens, at, CHAR) {
        return Some(Sort::Char);
    }
    None
}

/// The basic type that begins here.
pub fn basic(tokens: &[Token], from: usize) -> Result<Reading<Basic>, Halt>
    requires { from ≤ length tokens.now }
    ensures reads { Reads 16 grammar.SpellsBasic spec.by_bracket tokens.now from result }
    ensures held { IfErr result (λ halt. halt ≡ Halt.Refused from) }
{
    if let Some(sort) = sort_at(tokens, from) {
        let number = maybe_number(tokens, from + 1);
        return Ok(Reading {
            part: Basic::Sized {
                sort,
                number: number.part,
                place: place_at(tokens, from),
            },
            end: number.end,
            stop: number.stop,
        });
    }
    if is_word(tokens, from, CLOCK) {
        return Ok(Reading {
            part: Basic::Clock {
                place: place_at(tokens, from),
            },
            end: from + 1,
            stop: from + 1,
        });
    }
    if is_word(tokens, from, DURATION) {
        return Ok(Reading {
            part: Basic::Duration {
                place: place_at(tokens, from),
            },
            end: from + 1,
            stop: from + 1,
        });
    }
    Err(Halt::Refused(from))
}

/// The type that begins here, with at most `depth` STRUCTs within one another.
#[cycle(typing)]
pub fn typing(
    alloc: Global,
    tokens: &[Token],
    from: usize,
    depth: u8,
) -> Result<Reading<Typing>, Halt>
    requires { from ≤ length tokens.now }
    ensures { Reads 16 (λ tokens. grammar.SpellsTyping tokens depth) spec.by_bracket tokens.now from result }
{
    if is_word(tokens, from, STRUCT) {
        return structure(alloc, tokens, from, depth);
    }
    match name_at(tokens, from) {
        Some(name) => Ok(Reading {
            part: Typing::Named(name),
            end: from + 1,
            stop: from + 1,
        }),
        None => match basic(tokens, from) {
            Ok(basic) => Ok(Reading {
                part: Typing::Basic(basic.part),
                end: basic.end,
                stop: basic.stop,
            }),
            Err(halt) => Err(halt),
        },
    }
}

#[cycle(typing)]
fn structure(
    alloc: Global,
    tokens: &[Token],
    from: usize,
    depth: u8,
) -> Result<Reading<Typing>, Halt>
    requires within { from ≤ length tokens.now }
    requires word { HasWord tokens.now from w.STRUCT }
    ensures { Reads 16 (λ tokens. grammar.SpellsTyping tokens depth) spec.by_bracket tokens.now from result }
{
    if depth == 0 {
        return Err(Halt::Refused(from));
    }
    if !is_symbol(tokens, from + 1, LEFT_SQUARE) {
        return Err(Halt::Refused(from + 1));
    }
    let inner = fields(alloc, tokens, from + 2, depth - 1)?;
    if !is_symbol(tokens, inner.end, RIGHT_SQUARE) {
        return Err(Halt::Refused(inner.stop));
    }
    let closed = inner.past(1);
    Ok(Reading {
        part: Typing::Struct {
            fields: Parts::new(closed.part),
            place: place_at(tokens, from),
        },
        end: closed.end,
        stop: closed.stop,
    })
}

#[cycle(typing)]
fn fields(
    alloc: Global,
    tokens: &[Token],
    from: usize,
    depth: u8,
) -> Result<Reading<Vec<Field>>, Halt>
    requires { from ≤ length tokens.now }
    ensures { ReadsList 16 (λ tokens. SpellsList tokens (grammar.SpellsField tokens depth)) (spec.by_comma spec.by_bracket) tokens.now from result }
{
    let first = field(alloc, tokens, from, depth)?;
    let mut list = Reading::one(alloc, first)?;
    'each: while is_symbol(tokens, list.end, COMMA) {
        match field(alloc, tokens, list.end + 1, depth) {
            Ok(next) => list.add(next)?,
            Err(halt) => return list.ended(halt),
        }
    }
    Ok(list)
}

#[cycle(typing)]
fn field(alloc: Global, tokens: &[Token], from: usize, depth: u8) -> Result<Reading<Field>, Halt>
    requires { from ≤ length tokens.now }
    ensures { Reads 16 (λ tokens. grammar.SpellsField tokens depth) spec.by_bracket tokens.now from result }
{
    let names = names(alloc, tokens, from)?;
    let bounds = bounds(alloc, tokens, names.end)?;
    let stop = names.stop.max(bounds.stop);
    let typing = match typing(alloc, tokens, bounds.end, depth) {
        Ok(typing) => typing,
        Err(halt) => return Err(behind(halt, stop)),
    };
    Ok(Reading {
        part: Field {
            names: names.part,
            bounds: bounds.part,
            typing: typing.part,
            place: place_at(tokens, from),
        },
        end: typing.end,
        stop: typing.stop.max(stop),
    })
}

// Expressions and references. Only a bracket begins another level of them.

ghost use Rattle.std.specs.Prelude.{◌≡◌, ℕ, ◌+◌, ◌-◌, ◌<◌, ◌≤◌, ◌⊎◌, length, max, IfOk, IfErr, Some, None};
ghost use Rattle.pearl_tree.specs.declared.token.Token.{Token};
ghost use Rattle.pearl_tree.specs.declared.expression.Expr.{Expr};
ghost use Rattle.pearl_tree.specs.Standing.{HasWord, HasSymbol, SpellsMaybe, SpellsNumber};
ghost use Rattle.pearl_tree.specs.Expressions as grammar;
ghost use Rattle.pearl_tree.specs.Following.{lengthens_expr, HasOneOf};
ghost use Rattle.pearl_tree.specs.declared.symbol.TheConstants as s;
ghost use Rattle.pearl_parse_expr.specs.declared.reading.Halt.{Halt};
ghost use Rattle.pearl_parse_expr.specs.Stops as spec;
ghost use Rattle.pearl_parse_expr.specs.Reads.{Reads, ReadsAs, ReadsList, ReadsMaybeList, ReadsOnly};

use crate::dyadic::with_operand;
use crate::fault::ParseFault;
use crate::operator::{dyadic_at, monadics};
use crate::primary::{LimitHead, availability, limit_head, literal_primary};
use crate::reading::{Halt, Reading, boxed};
use crate::selector::component;
use crate::standing::{is_name, is_symbol, is_word, name_at, place_at};
use pearl_tree::expression::{Expr, Operand, Primary, Ref, Selector};
use pearl_tree::limit::{BRACKETS_MAX, DYADS_MAX};
use pearl_tree::literal::Literal;
use pearl_tree::parts::Parts;
use pearl_tree::symbol::{COMMA, LEFT_ROUND, PERIOD, RIGHT_ROUND};
use pearl_tree::token::Token;
use pearl_tree::word_code::{NOW, TRY};
use std::alloc::Global;

// The place that is told where the tokens run out.
const NO_PLACE: u32 = u32::MAX;

#[cycle(expression)]
fn subscripts(
    alloc: Global,
    tokens: &[Token],
    from: usize,
    depth: u8,
) -> Result<Reading<Vec<Expr>>, Halt>
    requires { from ≤ length tokens.now }
    ensures { ReadsList 16 (λ tokens. spec.SpellsSubscriptsList tokens depth) spec.extends_list tokens.now from result }
{
    let first = expression_at_depth(alloc, tokens, from, depth)?;
    let mut list = Reading::one(alloc, first)?;
    'each: while is_symbol(tokens, list.end, COMMA) {
        match expression_at_depth(alloc, tokens, list.end + 1, depth) {
            Ok(next) => list.add(next)?,
            Err(halt) => return list.ended(halt),
        }
    }
    Ok(list)
}

#[cycle(expression)]
fn bracketed(
    alloc: Global,
    tokens: &[Token],
    from: usize,
    depth: u8,
) -> Result<Reading<Selector>, Halt>
    requires within { from ≤ length tokens.now }
    requires bracket { HasSymbol tokens.now from s.LEFT_ROUND }
    requires deep { 0 < depth }
    ensures { ReadsOnly 16 (λ tokens. grammar.SpellsSelector tokens depth) tokens.now from result }
{
    let inner = subscripts(alloc, tokens, from + 1, depth - 1)?;
    if !is_symbol(tokens, inner.end, RIGHT_ROUND) {
        return Err(Halt::Refused(inner.stop));
    }
    let closed = inner.past(1);
    Ok(Reading {
        part: Selector::Subscripts {
            subscripts: Parts::new(closed.part),
            place: place_at(tokens, from),
        },
        end: closed.end,
        stop: closed.stop,
    })
}

#[cycle(expression)]
fn selector(
    alloc: Global,
    tokens: &[Token],
    from: usize,
    depth: u8,
) -> Result<Reading<Selector>, Halt>
    requires { from ≤ length tokens.now }
    ensures { ReadsOnly 16 (λ tokens. grammar.SpellsSelector tokens depth) tokens.now from result }
{
    if is_symbol(tokens, from, PERIOD) {
        return component(tokens, from);
    }
    if depth > 0 && is_symbol(tokens, from, LEFT_ROUND) {
        return bracketed(alloc, tokens, from, depth);
    }
    Err(Halt::Refused(from))
}

#[cycle(expression)]
fn selectors(
    alloc: Global,
    tokens: &[Token],
    from: usize,
    depth: u8,
) -> Result<Reading<Vec<Selector>>, Halt>
    requires { from ≤ length tokens.now }
    ensures reads { ReadsMaybeList 16 (λ tokens. spec.SpellsSelectorsList tokens depth) spec.extends_operand
        tokens.now from result }
    ensures memory { IfErr result (λ halt. halt ≡ Halt.NoMemory) }
{
    let mut list = Reading::none(alloc, from, from);
    'each: loop {
        match selector(alloc, tokens, list.end, depth) {
            Ok(next) => list.add(next)?,
            Err(halt) => return list.ended(halt),
        }
    }
}

/// The longest reference that begins here.
#[cycle(expression)]
pub fn reference(
    alloc: Global,
    tokens: &[Token],
    from: usize,
    depth: u8,
) -> Result<Reading<Ref>, Halt>
    requires { from ≤ length tokens.now }
    ensures { ReadsAs 16 (λ tokens. grammar.SpellsRef tokens depth) (λ tokens. spec.SpellsNamed tokens depth)
        spec.extends_operand tokens.now from result }
{
    match name_at(tokens, from) {
        Some(name) => {
            let place = name.place;
            let selectors = selectors(alloc, tokens, from + 1, depth)?;
            Ok(Reading {
                part: Ref {
                    name,
                    selectors: Parts::new(selectors.part),
                    place,
                },
                end: selectors.end,
                stop: selectors.stop,
            })
        }
        None => Err(Halt::Refused(from)),
    }
}

#[cycle(expression)]
fn group(alloc: Global, tokens: &[Token], from: usize, depth: u8) -> Result<Reading<Primary>, Halt>
    requires within { from ≤ length tokens.now }
    requires bracket { HasSymbol tokens.now from s.LEFT_ROUND }
    ensures { Reads 16 (λ tokens. grammar.SpellsPrimary tokens depth) spec.extends_operand tokens.now from result }
{
    if depth == 0 {
        return Err(Halt::Refused(from));
    }
    let inner = expression_at_depth(alloc, tokens, from + 1, depth - 1)?;
    if !is_symbol(tokens, inner.end, RIGHT_ROUND) {
        return Err(Halt::Refused(inner.stop));
    }
    let closed = inner.past(1);
    Ok(Reading {
        part: Primary::Group {
            inner: boxed(alloc, closed.part)?,
            place: place_at(tokens, from),
        },
        end: closed.end,
        stop: closed.stop,
    })
}

#[cycle(expression)]
fn limit(
    alloc: Global,
    tokens: &[Token],
    from: usize,
    head: LimitHead,
    depth: u8,
) -> Result<Reading<Primary>, Halt>
    requires within { from ≤ length tokens.now }
    requires dimension { SpellsMaybe (SpellsNumber tokens.now) from head.dimension head.word }
    requires word { HasWord tokens.now head.word (grammar.side_word head.side) }
    requires after { from ≤ head.word }
    ensures { Reads 16 (λ tokens. grammar.SpellsPrimary tokens depth) spec.extends_operand tokens.now from result }
{
    match reference(alloc, tokens, head.word + 1, depth) {
        Ok(read) => {
            let array = boxed(alloc, read.part)?;
            Ok(Reading {
                part: Primary::Limit {
                    dimension: head.dimension,
                    side: head.side,
                    array,
                    place: place_at(tokens, from),
                },
                end: read.end,
                stop: read.stop,
            })
        }
        Err(halt) => match halt {
            Halt::Refused(stop) => match head.dimension {
                Some(number) => Ok(Reading {
                    part: Primary::Literal(Literal::Number(number)),
                    end: from + 1,
                    stop,
                }),
                None => Err(Halt::Refused(stop)),
            },
            Halt::NoMemory => Err(Halt::NoMemory),
        },
    }
}

#[cycle(expression)]
fn primary(
    alloc: Global,
    tokens: &[Token],
    from: usize,
    depth: u8,
) -> Result<Reading<Primary>, Halt>
    requires { from ≤ length tokens.now }
    ensures { Reads 16 (λ tokens. grammar.SpellsPrimary tokens depth) spec.extends_operand tokens.now from result }
{
    if is_symbol(tokens, from, LEFT_ROUND) {
        return group(alloc, tokens, from, depth);
    }
    if is_name(tokens, from) {
        return match reference(alloc, tokens, from, depth) {
            Ok(reference) => Ok(Reading {
                part: Primary::Ref(reference.part),
                end: reference.end,
                stop: reference.stop,
            }),
            Err(halt) => Err(halt),
        };
    }
    if is_word(tokens, from, NOW) {
        return Ok(Reading {
            part: Primary::Now {
                place: place_at(tokens, from),
            },
            end: from + 1,
            stop: from + 1,
        });
    }
    if is_word(tokens, from, TRY) {
        return availability(tokens, from);
    }
    match limit_head(tokens, from) {
        Some(head) => limit(alloc, tokens, from, head, depth),
        None => literal_primary(alloc, tokens, from),
    }
}

#[cycle(expression)]
fn operand(
    alloc: Global,
    tokens: &[Token],
    from: usize,
    depth: u8,
) -> Result<Reading<Operand>, Halt>
    requires { from ≤ length tokens.now }
    ensures { ReadsAs 16 (λ tokens. spec.SpellsOperand tokens depth) (λ tokens. spec.SpellsSigned tokens depth)
        spec.extends_operand tokens.now from result }
{
    let monadics = monadics(alloc, tokens, from)?;
    match primary(alloc, tokens, monadics.end, depth) {
        Ok(primary) => Ok(Reading {
            part: Operand {
                monadics: Parts::new(monadics.part),
                primary: primary.part,
                place: place_at(tokens, from),
            },
            end: primary.end,
            stop: primary.stop,
        }),
        Err(halt) => Err(halt),
    }
}

/// The longest expression that begins here, with at most `depth` brackets within one another.
#[cycle(expression)]
pub fn expression_at_depth(
    alloc: Global,
    tokens: &[Token],
    from: usize,
    depth: u8,
) -> Result<Reading<Expr>, Halt>
    requires { from ≤ length tokens.now }
    ensures { Reads 16 (λ tokens. grammar.SpellsExpr tokens depth) spec.extends_expression tokens.now from result }
{
    let first = operand(alloc, tokens, from, depth)?;
    let mut read = Reading {
        part: Expr::Operand(first.part),
        end: first.end,
        stop: first.stop,
    };
    let mut count = 0;
    'each: while count < DYADS_MAX {
        let dyadic = match dyadic_at(tokens, read.end) {
            Some(dyadic) => dyadic,
            None => return Ok(read),
        };
        match operand(alloc, tokens, read.end + 1, depth) {
            Ok(next) => {
                read.part = with_operand(alloc, read.part, dyadic, next.part)?;
                read.end = next.end;
                read.stop = read.stop.max(next.stop);
                count += 1;
            }
            Err(halt) => return read.ended(halt),
        }
    }
    Ok(read)
}

fn stop_place(tokens: &[Token], stop: usize) -> u32
    ensures { result ≡ spec.stop_place tokens.now stop }
{
    match tokens.get(stop) {
        Some(token) => token.place,
        None => NO_PLACE,
    }
}

/// The longest expression that begins at a token, the number of the token after it, and a stop: the place of the first
/// token past which no expression goes that begins there.
pub fn expression(
    alloc: Global,
    tokens: &[Token],
    from: usize,
) -> Result<(Expr, usize, u32), ParseFault>
    ensures spells { IfOk result (λ found. grammar.SpellsWhole tokens.now from found.0 found.1) }
    ensures longest { IfOk result (λ found. (expr : Expr) (to : ℕ) → grammar.SpellsWhole tokens.now from expr to →
        (to ≡ found.1) ⊎ ((to < found.1) × HasOneOf lengthens_expr tokens.now to)) }
    ensures stop { IfOk result (λ found. spec.IsStop tokens.now from found.2) }
    ensures refused { IfErr result (λ fault. spec.IsRefused tokens.now from fault) }
    ensures within { IfOk result (λ found. (from < found.1) × (found.1 ≤ length tokens.now)) }
{
    if from > tokens.len() {
        return Err(ParseFault::Refused(NO_PLACE));
    }
    match expression_at_depth(alloc, tokens, from, BRACKETS_MAX) {
        Ok(reading) => Ok((reading.part, reading.end, stop_place(tokens, reading.stop))),
        Err(halt) => match halt {
            Halt::Refused(stop) => Err(ParseFault::Refused(stop_place(tokens, stop))),
            Halt::NoMemory => Err(ParseFault::NoMemory),
        },
    }
}

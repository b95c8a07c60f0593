// Times and periods, and expressions behind words.

ghost use Rattle.std.specs.Prelude.{◌+◌, ◌<◌, ◌≤◌, length, IfOk, Ok};
ghost use Rattle.pearl_tree.specs.Standing.{HasWord, SpellsMaybe};
ghost use Rattle.pearl_tree.specs.Statements.{SpellsAfter, SpellsPeriodEnd, SpellsPeriod};
ghost use Rattle.pearl_parse_expr.specs.Stops.{extends_expression, is_word};
ghost use Rattle.pearl_parse.specs.Reads.{ReadsBehind};
ghost use Rattle.pearl_parse_expr.specs.declared.reading.Halt.{Halt};
ghost use Rattle.pearl_parse.specs.Stops as spec;
ghost use Rattle.pearl_tree.specs.declared.word_code.TheConstants as w;
ghost use Rattle.pearl_parse.specs.Schedules as schedules;

use crate::expression::expr;
use crate::token::word;
use pearl_parse_expr::reading::{Halt, Reading};
use pearl_parse_expr::standing::{is_word, place_at};
use pearl_tree::expression::Expr;
use pearl_tree::statement::{Period, PeriodEnd};
use pearl_tree::token::Token;
use pearl_tree::word_code::*;
use std::alloc::Global;

/// A word that stands here, and an expression.
pub fn after(
    alloc: Global,
    tokens: &[Token],
    from: usize,
    least_stop: usize,
    word: u8,
) -> Result<Reading<Expr>, Halt>
    requires from { from < length tokens.now }
    requires least_stop { least_stop ≤ length tokens.now }
    requires word { HasWord tokens.now from word }
    ensures { ReadsBehind 8 (λ tokens. SpellsAfter tokens word) (λ tokens. SpellsAfter tokens word) (λ tokens. SpellsAfter tokens word) extends_expression tokens.now from (from + 1) least_stop result }
{
    match expr(alloc, tokens, from + 1, least_stop) {
        Ok(read) => Ok(read),
        Err(halt) => Err(halt),
    }
}

/// A word with an expression, where the word stands.
pub fn maybe_after(
    alloc: Global,
    tokens: &[Token],
    from: usize,
    least_stop: usize,
    word: u8,
) -> Result<Reading<Option<Expr>>, Halt>
    requires from { from ≤ length tokens.now }
    requires least_stop { least_stop ≤ length tokens.now }
    ensures { ReadsBehind 8 (λ tokens. SpellsMaybe (SpellsAfter tokens word)) (spec.SpellsOptional (is_word word) (λ tokens. SpellsAfter tokens word)) (λ tokens. SpellsMaybe (SpellsAfter tokens word)) extends_expression tokens.now from from least_stop result }
{
    if !is_word(tokens, from, word) {
        return Ok(Reading {
            part: None,
            end: from,
            stop: from.max(least_stop),
        });
    }
    Ok(after(alloc, tokens, from, least_stop, word)?.map(Some))
}

/// `[ UNTIL expr | DURING expr ]`
fn maybe_end(
    alloc: Global,
    tokens: &[Token],
    from: usize,
    least_stop: usize,
) -> Result<Reading<Option<PeriodEnd>>, Halt>
    requires from { from ≤ length tokens.now }
    requires least_stop { least_stop ≤ length tokens.now }
    ensures reads { ReadsBehind 8 (λ tokens. SpellsMaybe (SpellsPeriodEnd tokens)) schedules.SpellsOptionalEnd (λ tokens. SpellsMaybe (SpellsPeriodEnd tokens)) extends_expression tokens.now from from least_stop result }
    ensures optional { IfOk result (λ reading. schedules.SpellsOptionalEnd tokens.now from reading.part reading.end) }
{
    if is_word(tokens, from, UNTIL) {
        let time = after(alloc, tokens, from, least_stop, UNTIL)?;
        let place = place_at(tokens, from);
        return Ok(time.map(|time| Some(PeriodEnd::Until { time, place })));
    }
    if is_word(tokens, from, DURING) {
        let duration = after(alloc, tokens, from, least_stop, DURING)?;
        let place = place_at(tokens, from);
        return Ok(duration.map(|duration| Some(PeriodEnd::During { duration, place })));
    }
    Ok(Reading {
        part: None,
        end: from,
        stop: from.max(least_stop),
    })
}

/// `ALL expr [ UNTIL expr | DURING expr ]`
pub fn period(
    alloc: Global,
    tokens: &[Token],
    from: usize,
    least_stop: usize,
) -> Result<Reading<Period>, Halt>
    requires from { from < length tokens.now }
    requires least_stop { least_stop ≤ length tokens.now }
    requires word { HasWord tokens.now from w.ALL }
    ensures { ReadsBehind 16 SpellsPeriod schedules.SpellsLongPeriod SpellsPeriod extends_expression tokens.now from (from + 1) least_stop result }
{
    let duration = after(alloc, tokens, from, least_stop, ALL)?;
    let end = maybe_end(alloc, tokens, duration.end, duration.stop)?;
    let place = place_at(tokens, from);
    Ok(end.map(|end| Period {
        duration: duration.part,
        end,
        place,
    }))
}

/// `[ ALL expr [ UNTIL expr | DURING expr ] ]`
pub fn maybe_period(
    alloc: Global,
    tokens: &[Token],
    from: usize,
    least_stop: usize,
) -> Result<Reading<Option<Period>>, Halt>
    requires from { from ≤ length tokens.now }
    requires least_stop { least_stop ≤ length tokens.now }
    ensures { ReadsBehind 16 (λ tokens. SpellsMaybe (SpellsPeriod tokens)) schedules.SpellsOptionalPeriod (λ tokens. SpellsMaybe (SpellsPeriod tokens)) extends_expression tokens.now from from least_stop result }
{
    if !is_word(tokens, from, ALL) {
        return Ok(Reading {
            part: None,
            end: from,
            stop: from.max(least_stop),
        });
    }
    Ok(period(alloc, tokens, from, least_stop)?.map(Some))
}

// Literals and durations.

ghost use Rattle.std.specs.Prelude.{◌≡◌, ◌≢◌, ◌+◌, ◌<◌, ◌≤◌, length, IfOk, IfErr, IfSome, Some, None, Ok, true, false};
ghost use Rattle.pearl_tree.specs.Standing.{what_at, IsNumber, HasWord};
ghost use Rattle.pearl_tree.specs.Expressions.{SpellsSecs, SpellsSeconds, SpellsDuration, SpellsLiteral};
ghost use Rattle.pearl_tree.specs.declared.word_code.TheConstants as w;
ghost use Rattle.pearl_tree.specs.declared.literal.Duration.{Duration};
ghost use Rattle.pearl_parse_expr.specs.declared.reading.Halt.{Halt};
ghost use Rattle.pearl_parse_expr.specs.Reads.{Reads, ReadsMaybe};
ghost use Rattle.pearl_parse_expr.specs.Stops.{IsToldBy, extends_operand, is_plain, is_secs, is_counted};
ghost use Rattle.pearl_parse_expr.specs.Stops.{SpellsMaybeSeconds};

use crate::reading::{Halt, Reading, boxed};
use crate::standing::{is_word, number_at, place_at};
use pearl_tree::literal::{Duration, Literal, Secs};
use pearl_tree::name::Number;
use pearl_tree::token::{Token, What};
use pearl_tree::word_code::{HRS, MIN, SEC};
use std::alloc::Global;

// A literal of one token.
fn plain_at(alloc: Global, tokens: &[Token], at: usize) -> Result<Option<Literal>, Halt>
    ensures some { IfOk result (λ found. IfSome found (λ part. SpellsLiteral tokens.now at part (at + 1))) }
    ensures none { IfOk result (λ found. found ≡ None → is_plain (what_at tokens.now at) ≡ false) }
    ensures within { IfOk result (λ found. IfSome found (λ _. at < length tokens.now)) }
    ensures fault { IfErr result (λ halt. halt ≡ Halt.NoMemory) }
{
    let token = match tokens.get(at) {
        Some(token) => token,
        None => return Ok(None),
    };
    let place = token.place;
    match &token.what {
        What::Number(value) => Ok(Some(Literal::Number(Number {
            value: *value,
            place,
        }))),
        What::Bits { len, value } => Ok(Some(Literal::Bits {
            len: *len,
            value: *value,
            place,
        })),
        What::Text(text) => {
            let text = boxed(alloc, text.clone().unwrap())?;
            Ok(Some(Literal::Text { text, place }))
        }
        What::Clock(milliseconds) => Ok(Some(Literal::Clock {
            milliseconds: *milliseconds,
            place,
        })),
        _ => Ok(None),
    }
}

fn secs_at(tokens: &[Token], at: usize) -> Option<Secs>
    ensures some { IfSome result (λ part. SpellsSecs tokens.now at part (at + 1)) }
    ensures none { result ≡ None → is_secs (what_at tokens.now at) ≡ false }
    ensures within { IfSome result (λ _. at < length tokens.now) }
{
    match tokens.get(at) {
        Some(token) => match token.what {
            What::Number(value) => Some(Secs::Number(Number {
                value,
                place: token.place,
            })),
            What::Decimal { whole, thousandths } => Some(Secs::Decimal {
                whole,
                thousandths,
                place: token.place,
            }),
            _ => None,
        },
        None => None,
    }
}

// The seconds that may end a duration.
fn seconds_at(tokens: &[Token], at: usize) -> Reading<Option<Secs>>
    requires { at ≤ length tokens.now }
    ensures reads { ReadsMaybe 16 SpellsMaybeSeconds SpellsMaybeSeconds SpellsSeconds extends_operand
        tokens.now at (Ok result) }
    ensures near { result.part ≡ None → result.stop ≤ at + 1 }
    ensures far { is_secs (what_at tokens.now at) ≡ true → at + 1 ≤ result.stop }
{
    match secs_at(tokens, at) {
        Some(secs) => {
            if is_word(tokens, at + 1, SEC) {
                Reading {
                    part: Some(secs),
                    end: at + 2,
                    stop: at + 2,
                }
            } else {
                Reading {
                    part: None,
                    end: at,
                    stop: at + 1,
                }
            }
        }
        None => Reading {
            part: None,
            end: at,
            stop: at,
        },
    }
}

// A number with its word.
fn counted_at(tokens: &[Token], at: usize, word: u8) -> Option<Number>
    ensures some { IfSome result (λ number. IsNumber tokens.now at number × HasWord tokens.now (at + 1) word) }
    ensures none { result ≡ None → is_counted word tokens.now at ≡ false }
    ensures within { IfSome result (λ _. at + 2 ≤ length tokens.now) }
{
    match number_at(tokens, at) {
        Some(number) => {
            if is_word(tokens, at + 1, word) {
                Some(number)
            } else {
                None
            }
        }
        None => None,
    }
}

// Hours, with the minutes and the seconds behind them.
fn hours_of(
    hours: Number,
    minutes: Option<Number>,
    seconds: Reading<Option<Secs>>,
) -> Reading<Duration>
    ensures part { result.part ≡ Duration.Hours hours minutes seconds.part hours.place }
    ensures end { result.end ≡ seconds.end }
    ensures stop { result.stop ≡ seconds.stop }
{
    Reading {
        part: Duration::Hours {
            hours,
            minutes,
            seconds: seconds.part,
            place: hours.place,
        },
        end: seconds.end,
        stop: seconds.stop,
    }
}

fn from_hours(tokens: &[Token], from: usize, hours: Number) -> Reading<Duration>
    requires within { from + 2 ≤ length tokens.now }
    requires number { IsNumber tokens.now from hours }
    requires word { HasWord tokens.now (from + 1) w.HRS }
    ensures { Reads 16 SpellsDuration extends_operand tokens.now from (Ok result) }
{
    match counted_at(tokens, from + 2, MIN) {
        Some(minutes) => hours_of(hours, Some(minutes), seconds_at(tokens, from + 4)),
        None => hours_of(hours, None, seconds_at(tokens, from + 2)),
    }
}

fn from_minutes(tokens: &[Token], from: usize, minutes: Number) -> Reading<Duration>
    requires within { from + 2 ≤ length tokens.now }
    requires number { IsNumber tokens.now from minutes }
    requires word { HasWord tokens.now (from + 1) w.MIN }
    ensures { Reads 16 SpellsDuration extends_operand tokens.now from (Ok result) }
{
    let seconds = seconds_at(tokens, from + 2);
    Reading {
        part: Duration::Minutes {
            minutes,
            seconds: seconds.part,
            place: minutes.place,
        },
        end: seconds.end,
        stop: seconds.stop,
    }
}

fn from_seconds(tokens: &[Token], from: usize) -> Result<Reading<Duration>, Halt>
    requires within { from ≤ length tokens.now }
    requires hours { is_counted w.HRS tokens.now from ≡ false }
    requires minutes { is_counted w.MIN tokens.now from ≡ false }
    ensures reads { Reads 16 SpellsDuration extends_operand tokens.now from result }
    ensures close { IfErr result (λ halt. IsToldBy (from + 1) halt) }
{
    let seconds = seconds_at(tokens, from);
    match seconds.part {
        Some(seconds) => Ok(Reading {
            part: Duration::Seconds {
                seconds,
                place: place_at(tokens, from),
            },
            end: from + 2,
            stop: from + 2,
        }),
        None => Err(Halt::Refused(seconds.stop)),
    }
}

fn duration(tokens: &[Token], from: usize) -> Result<Reading<Duration>, Halt>
    requires { from ≤ length tokens.now }
    ensures reads { Reads 16 SpellsDuration extends_operand tokens.now from result }
    ensures close { IfErr result (λ halt. IsToldBy (from + 1) halt) }
{
    if let Some(hours) = counted_at(tokens, from, HRS) {
        return Ok(from_hours(tokens, from, hours));
    }
    if let Some(minutes) = counted_at(tokens, from, MIN) {
        return Ok(from_minutes(tokens, from, minutes));
    }
    from_seconds(tokens, from)
}

/// The longest literal that begins here.
pub fn literal(alloc: Global, tokens: &[Token], from: usize) -> Result<Reading<Literal>, Halt>
    requires { from ≤ length tokens.now }
    ensures reads { Reads 16 SpellsLiteral extends_operand tokens.now from result }
    ensures none { IfErr result (λ halt. halt ≢ Halt.NoMemory → is_plain (what_at tokens.now from) ≡ false) }
{
    match duration(tokens, from) {
        Ok(duration) => Ok(Reading {
            part: Literal::Duration(boxed(alloc, duration.part)?),
            end: duration.end,
            stop: duration.stop,
        }),
        Err(halt) => match plain_at(alloc, tokens, from)? {
            Some(part) => Ok(Reading {
                part,
                end: from + 1,
                stop: from + 1,
            }),
            None => Err(halt),
        },
    }
}

// The operators of expressions.

ghost use Rattle.std.specs.Prelude.{◌≡◌, ◌+◌, ◌<◌, ◌≤◌, length, IfOk, IfErr, IfSome, Some, None, false};
ghost use Rattle.std.specs.Option.{option_and_then};
ghost use Rattle.pearl_tree.specs.Standing.{what_at, IsAt, HasWord};
ghost use Rattle.pearl_tree.specs.Expressions as grammar;
ghost use Rattle.pearl_parse_expr.specs.declared.reading.Halt.{Halt};
ghost use Rattle.pearl_parse_expr.specs.Stops as spec;
ghost use Rattle.pearl_parse_expr.specs.Reads.{ReadsMaybeList};

use crate::reading::{Halt, Reading};
use pearl_tree::expression::{Dyadic, Monadic, Side};
use pearl_tree::limit::MONADS_MAX;
use pearl_tree::symbol::*;
use pearl_tree::token::{Token, What};
use pearl_tree::word_code::*;
use pearl_value::operator::{Dyad, Monad};
use std::alloc::Global;

fn dyad_of_symbol(symbol: u8) -> Option<Dyad>
    ensures { result ≡ grammar.dyad_in grammar.dyad_symbols symbol }
{
    match symbol {
        POWER => Some(Dyad::Pow),
        TIMES => Some(Dyad::Mul),
        DIVIDE => Some(Dyad::Div),
        CONCATENATE => Some(Dyad::Cat),
        PLUS => Some(Dyad::Add),
        MINUS => Some(Dyad::Sub),
        ROTATE => Some(Dyad::Cshift),
        LESS => Some(Dyad::Lt),
        GREATER => Some(Dyad::Gt),
        AT_MOST => Some(Dyad::Le),
        AT_LEAST => Some(Dyad::Ge),
        EQUAL => Some(Dyad::Eq),
        UNEQUAL => Some(Dyad::Ne),
        _ => None,
    }
}

fn dyad_of_word(word: u8) -> Option<Dyad>
    ensures { result ≡ grammar.dyad_in grammar.dyad_words word }
{
    match word {
        REM => Some(Dyad::Rem),
        CAT => Some(Dyad::Cat),
        CSHIFT => Some(Dyad::Cshift),
        SHIFT => Some(Dyad::Shift),
        LT => Some(Dyad::Lt),
        GT => Some(Dyad::Gt),
        LE => Some(Dyad::Le),
        GE => Some(Dyad::Ge),
        EQ => Some(Dyad::Eq),
        NE => Some(Dyad::Ne),
        AND => Some(Dyad::And),
        OR => Some(Dyad::Or),
        EXOR => Some(Dyad::Exor),
        _ => None,
    }
}

fn dyad_of(what: &What) -> Option<Dyad>
    ensures { result ≡ grammar.dyad_of what.now }
{
    match *what {
        What::Symbol(symbol) => dyad_of_symbol(symbol),
        What::Word(word) => dyad_of_word(word),
        _ => None,
    }
}

/// The dyadic operator that the token is.
pub fn dyadic_at(tokens: &[Token], at: usize) -> Option<Dyadic>
    ensures some { IfSome result (λ dyadic. grammar.HasDyad tokens.now at dyadic.operator) }
    ensures place { IfSome result (λ dyadic. IsAt tokens.now at dyadic.place) }
    ensures none { result ≡ None → option_and_then grammar.dyad_of (what_at tokens.now at) ≡ None }
    ensures within { IfSome result (λ _. at < length tokens.now) }
{
    match tokens.get(at) {
        Some(token) => match dyad_of(&token.what) {
            Some(operator) => Some(Dyadic {
                operator,
                place: token.place,
            }),
            None => None,
        },
        None => None,
    }
}

fn monad_of(what: &What) -> Option<Monad>
    ensures value { result ≡ spec.monad_of what.now }
    ensures some { IfSome result (λ operator. what.now ≡ grammar.monad_what operator) }
{
    match *what {
        What::Symbol(PLUS) => Some(Monad::Plus),
        What::Symbol(MINUS) => Some(Monad::Minus),
        What::Word(ABS) => Some(Monad::Abs),
        What::Word(SIGN) => Some(Monad::Sign),
        What::Word(NOT) => Some(Monad::Not),
        _ => None,
    }
}

/// The monadic operator that the token is.
pub fn monadic_at(tokens: &[Token], at: usize) -> Option<Monadic>
    ensures some { IfSome result (λ monadic. grammar.SpellsMonadic tokens.now at monadic (at + 1)) }
    ensures none { result ≡ None → option_and_then spec.monad_of (what_at tokens.now at) ≡ None }
    ensures within { IfSome result (λ _. at < length tokens.now) }
{
    match tokens.get(at) {
        Some(token) => match monad_of(&token.what) {
            Some(operator) => Some(Monadic {
                operator,
                place: token.place,
            }),
            None => None,
        },
        None => None,
    }
}

/// The monadic operators that begin here, as many as may stand before one primary.
pub fn monadics(alloc: Global, tokens: &[Token], from: usize) -> Result<Reading<Vec<Monadic>>, Halt>
    requires { from ≤ length tokens.now }
    ensures reads { ReadsMaybeList 16 spec.SpellsMonadics spec.extends_monadics tokens.now from result }
    ensures once { IfOk result (λ reading. reading.stop ≡ reading.end) }
    ensures memory { IfErr result (λ halt. halt ≡ Halt.NoMemory) }
{
    let mut list = Reading::none(alloc, from, from);
    'each: while list.part.len() < MONADS_MAX {
        match monadic_at(tokens, list.end) {
            Some(part) => {
                let end = list.end + 1;
                list.add(Reading {
                    part,
                    end,
                    stop: end,
                })?;
            }
            None => return Ok(list),
        }
    }
    Ok(list)
}

/// Which bound of an array the token asks for.
pub fn side_at(tokens: &[Token], at: usize) -> Option<Side>
    ensures some { IfSome result (λ side. HasWord tokens.now at (grammar.side_word side)) }
    ensures none { result ≡ None → spec.is_side (what_at tokens.now at) ≡ false }
    ensures within { IfSome result (λ _. at < length tokens.now) }
{
    match tokens.get(at) {
        Some(token) => match token.what {
            What::Word(LWB) => Some(Side::Lower),
            What::Word(UPB) => Some(Side::Upper),
            _ => None,
        },
        None => None,
    }
}

// Assignments, calls and returns.

ghost use Rattle.std.specs.Prelude.{◌≡◌, ◌+◌, ◌<◌, ◌≤◌, length, true};
ghost use Rattle.pearl_tree.specs.Standing.{what_at, HasWord, HasSymbol, SpellsMaybe};
ghost use Rattle.pearl_tree.specs.Statements.{SpellsValue, HasBecomes};
ghost use Rattle.pearl_tree.specs.declared.word_code.TheConstants as w;
ghost use Rattle.pearl_tree.specs.declared.symbol.TheConstants as s;
ghost use Rattle.pearl_parse_expr.specs.Stops.{is_name, is_symbol};
ghost use Rattle.pearl_parse.specs.Calls as calls;
ghost use Rattle.pearl_parse_expr.specs.Reads.{ReadsOnly, ReadsOnlyMaybe};
ghost use Rattle.pearl_parse.specs.Reads.{ReadsStatement};

use crate::expression::expr;
use crate::name::name;
use crate::token::symbol;
use pearl_parse_decl::expression::own_reference;
use pearl_parse_decl::list::maybe_bracketed;
use pearl_parse_expr::reading::{Halt, Reading};
use pearl_parse_expr::standing::{is_symbol, place_at};
use pearl_tree::expression::Expr;
use pearl_tree::parts::Parts;
use pearl_tree::statement::{Assign, Call, Return, Stmt};
use pearl_tree::symbol::{BECOMES, EQUALS_SIGN, LEFT_ROUND, RIGHT_ROUND, SEMICOLON};
use pearl_tree::token::Token;
use std::alloc::Global;

/// `"(" expr ")"`
fn value(alloc: Global, tokens: &[Token], from: usize) -> Result<Reading<Expr>, Halt>
    requires within { from < length tokens.now }
    requires bracket { HasSymbol tokens.now from s.LEFT_ROUND }
    ensures { ReadsOnly 16 SpellsValue tokens.now from result }
{
    let value = expr(alloc, tokens, from + 1, from)?;
    symbol(tokens, value.end, value.stop, RIGHT_ROUND)?;
    Ok(value.past(1))
}

/// `[ "(" expr ")" ]`
fn maybe_value(alloc: Global, tokens: &[Token], from: usize) -> Result<Reading<Option<Expr>>, Halt>
    requires within { from ≤ length tokens.now }
    ensures { ReadsOnlyMaybe 16 (λ tokens. SpellsMaybe (SpellsValue tokens)) calls.SpellsOptionalValue (λ tokens. SpellsMaybe (SpellsValue tokens)) tokens.now from result }
{
    if !is_symbol(tokens, from, LEFT_ROUND) {
        return Ok(Reading {
            part: None,
            end: from,
            stop: from,
        });
    }
    Ok(value(alloc, tokens, from)?.map(Some))
}

/// `RETURN [ "(" expr ")" ] ";"`
pub fn return_(alloc: Global, tokens: &[Token], from: usize) -> Result<Reading<Stmt>, Halt>
    requires within { from < length tokens.now }
    requires word { HasWord tokens.now from w.RETURN }
    ensures { ReadsStatement tokens.now from result }
{
    let value = maybe_value(alloc, tokens, from + 1)?;
    symbol(tokens, value.end, value.stop, SEMICOLON)?;
    let place = place_at(tokens, from);
    let returned = value.past(1).map(|value| Return { value, place });
    Ok(returned.boxed(alloc)?.map(Stmt::Return))
}

/// `CALL id [ "(" expr { "," expr } ")" ] ";"`
pub fn call(alloc: Global, tokens: &[Token], from: usize) -> Result<Reading<Stmt>, Halt>
    requires within { from < length tokens.now }
    requires word { HasWord tokens.now from w.CALL }
    ensures { ReadsStatement tokens.now from result }
{
    let called = name(tokens, from + 1, from)?;
    let arguments = maybe_bracketed(alloc, tokens, from + 2)?;
    symbol(tokens, arguments.end, arguments.stop, SEMICOLON)?;
    let place = place_at(tokens, from);
    let call = arguments.past(1).map(Parts::new).map(|arguments| Call {
        call: true,
        name: called,
        arguments,
        place,
    });
    Ok(call.boxed(alloc)?.map(Stmt::Call))
}

// Whether the token is `:=` or `=`.
fn becomes(tokens: &[Token], at: usize) -> bool
    ensures value { result ≡ calls.is_becomes (what_at tokens.now at) }
    ensures stands { result ≡ true → HasBecomes tokens.now at }
    ensures within { result ≡ true → at < length tokens.now }
{
    if is_symbol(tokens, at, BECOMES) {
        return true;
    }
    is_symbol(tokens, at, EQUALS_SIGN)
}

/// `ref ":=" expr ";"`, or `id [ "(" expr { "," expr } ")" ] ";"`: a reference is read, and the token behind it
/// decides.
pub fn named(alloc: Global, tokens: &[Token], from: usize) -> Result<Reading<Stmt>, Halt>
    requires within { from < length tokens.now }
    requires name { is_name (what_at tokens.now from) ≡ true }
    ensures { ReadsStatement tokens.now from result }
{
    let target = own_reference(alloc, tokens, from)?;
    let place = place_at(tokens, from);
    if becomes(tokens, target.end) {
        let value = expr(alloc, tokens, target.end + 1, target.stop)?;
        symbol(tokens, value.end, value.stop, SEMICOLON)?;
        let assign = value.past(1).map(|value| Assign {
            target: target.part,
            value,
            place,
        });
        return Ok(assign.boxed(alloc)?.map(Stmt::Assign));
    }
    let stop = target.stop;
    // The reference holds the arguments as its selectors: it goes before they are read as a call's.
    drop(target);
    let called = name(tokens, from, stop)?;
    let arguments = maybe_bracketed(alloc, tokens, from + 1)?.no_earlier(stop);
    symbol(tokens, arguments.end, arguments.stop, SEMICOLON)?;
    let call = arguments.past(1).map(Parts::new).map(|arguments| Call {
        call: false,
        name: called,
        arguments,
        place,
    });
    Ok(call.boxed(alloc)?.map(Stmt::Call))
}

// Lists of parts with commas between them.

ghost use Rattle.std.specs.Prelude.{◌≡◌, ◌≢◌, ◌+◌, ◌≤◌, List, Bool, Option, Some, length, IfErr, false};
ghost use Rattle.pearl_tree.specs.declared.token.Token.{Token};
ghost use Rattle.pearl_tree.specs.declared.token.What.{What};
ghost use Rattle.pearl_tree.specs.declared.token.What.TheVariants as what;
ghost use Rattle.pearl_tree.specs.Standing.{Spelling, SpellsList, SpellsBracketed, SpellsMaybeBracketed, SpellsMaybeHeaded};
ghost use Rattle.pearl_tree.specs.declared.symbol.TheConstants as s;
ghost use Rattle.pearl_parse_expr.specs.declared.reading.Halt.{Halt};
ghost use Rattle.pearl_parse_expr.specs.Stops as stops;
ghost use Rattle.pearl_parse_expr.specs.Reads.{Reads, ReadsList, ReadsOnlyList, ReadsMaybeList};
ghost use Rattle.pearl_parse_decl.specs.Readings as spec;

use pearl_parse_expr::reading::{Halt, Reading};
use pearl_parse_expr::standing::{is_symbol, is_word};
use pearl_tree::symbol::{COMMA, LEFT_ROUND, RIGHT_ROUND};
use pearl_tree::token::Token;
use std::alloc::Global;

/// What can be read from the tokens that begin at a place.
pub trait Readable: Drop {
    // The tokens that a part spells.
    ghost spelling: { List Token → Spelling Self };

    // The tokens that go on with a part that could end before them.
    ghost extends: { Option What → Bool };

    /// The longest part that begins here.
    fn read(alloc: Global, tokens: &[Token], from: usize) -> Result<Reading<Self>, Halt>
        requires { from ≤ length tokens.now }
        ensures reads { Reads 16 spelling extends tokens.now from result }
        ensures contained { spec.IsSelfContained spelling };

    // Of each kind a list in brackets may stand anywhere.
    ghost begins: { spec.BeginsAnywhere (λ tokens. SpellsBracketed tokens (spelling tokens)) };

    // Behind a part a comma or a closing bracket may stand.
    ghost stops_at_comma: { extends (Some (what.Symbol s.COMMA)) ≡ false };

    ghost stops_at_bracket: { extends (Some (what.Symbol s.RIGHT_ROUND)) ≡ false };
}

/// The same want of memory, or the later one of two tokens.
pub fn behind(halt: Halt, stop: usize) -> Halt
    ensures same { result ≡ spec.behind halt stop }
    ensures memory { halt ≢ Halt.NoMemory → result ≢ Halt.NoMemory }
{
    match halt {
        Halt::Refused(at) => Halt::Refused(at.max(stop)),
        Halt::NoMemory => Halt::NoMemory,
    }
}

/// The longest `part { "," part }` that begins here.
pub fn list<P: Readable>(
    alloc: Global,
    tokens: &[Token],
    from: usize,
) -> Result<Reading<Vec<P>>, Halt>
    requires { from ≤ length tokens.now }
    ensures reads { ReadsList 16 (λ tokens. SpellsList tokens (P.spelling tokens)) (spec.by_comma P.extends) tokens.now from result }
    ensures contained { spec.IsSelfContained P.spelling }
{
    let first = P::read(alloc, tokens, from)?;
    let mut list = Reading::one(alloc, first)?;
    'each: while is_symbol(tokens, list.end, COMMA) {
        match P::read(alloc, tokens, list.end + 1) {
            Ok(next) => list.add(next)?,
            Err(halt) => return list.ended(halt),
        }
    }
    Ok(list)
}

// A list in brackets has room 9 in place of 16: the opening bracket pays for eight tokens, and one more closes the list.

/// `"(" part { "," part } ")"`
pub fn bracketed<P: Readable>(
    alloc: Global,
    tokens: &[Token],
    from: usize,
) -> Result<Reading<Vec<P>>, Halt>
    requires { from ≤ length tokens.now }
    ensures { ReadsOnlyList 9 (λ tokens. SpellsBracketed tokens (P.spelling tokens)) tokens.now from result }
{
    if !is_symbol(tokens, from, LEFT_ROUND) {
        return Err(Halt::Refused(from));
    }
    let inner = list(alloc, tokens, from + 1)?;
    if !is_symbol(tokens, inner.end, RIGHT_ROUND) {
        return Err(Halt::Refused(inner.stop));
    }
    Ok(inner.past(1))
}

/// `[ "(" part { "," part } ")" ]`: without brackets, or where no list in brackets begins, nothing is read.
pub fn maybe_bracketed<P: Readable>(
    alloc: Global,
    tokens: &[Token],
    from: usize,
) -> Result<Reading<Vec<P>>, Halt>
    requires { from ≤ length tokens.now }
    ensures reads { ReadsMaybeList 9 (λ tokens. SpellsMaybeBracketed tokens (P.spelling tokens)) spec.by_bracket tokens.now from result }
    ensures memory { IfErr result (λ halt. halt ≡ Halt.NoMemory) }
{
    match bracketed(alloc, tokens, from) {
        Ok(list) => Ok(list),
        Err(halt) => match halt {
            Halt::Refused(stop) => Ok(Reading::none(alloc, from, stop)),
            Halt::NoMemory => Err(Halt::NoMemory),
        },
    }
}

/// `[ word "(" part { "," part } ")" ]`: without the word, or where no list in brackets follows it, nothing is read.
pub fn maybe_headed<P: Readable>(
    alloc: Global,
    tokens: &[Token],
    from: usize,
    word: u8,
) -> Result<Reading<Vec<P>>, Halt>
    requires { from ≤ length tokens.now }
    ensures reads { ReadsMaybeList 9 (λ tokens. SpellsMaybeHeaded tokens word (P.spelling tokens)) (stops.is_word word) tokens.now from result }
    ensures memory { IfErr result (λ halt. halt ≡ Halt.NoMemory) }
{
    if !is_word(tokens, from, word) {
        return Ok(Reading::none(alloc, from, from));
    }
    match bracketed(alloc, tokens, from + 1) {
        Ok(list) => Ok(list),
        Err(halt) => match halt {
            Halt::Refused(stop) => Ok(Reading::none(alloc, from, stop)),
            Halt::NoMemory => Err(Halt::NoMemory),
        },
    }
}

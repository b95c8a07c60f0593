// Parts that stand one after the other with nothing between them, and lists that may be missing in front of a word.

ghost use Rattle.std.specs.Prelude.{◌≡◌, ℕ, ◌+◌, ◌<◌, ◌≤◌, List, Bool, Option, length, IfErr, true};
ghost use Rattle.pearl_tree.specs.declared.token.Token.{Token};
ghost use Rattle.pearl_tree.specs.declared.token.What.{What};
ghost use Rattle.pearl_tree.specs.Standing.{Spelling, SpellsEach, what_at};
ghost use Rattle.pearl_parse_expr.specs.declared.reading.Halt.{Halt};
ghost use Rattle.pearl_parse_expr.specs.Reads.{ReadsOnly, ReadsMaybe};
ghost use Rattle.pearl_parse_decl.specs.Readings.{IsSelfContained};
ghost use Rattle.pearl_parse.specs.Reads.{ReadsUnless};

use pearl_parse_decl::list::{Readable, list};
use pearl_parse_expr::reading::{Halt, Reading};
use pearl_parse_expr::standing::is_word;
use pearl_tree::token::Token;
use std::alloc::Global;

/// What may stand any number of times. It begins with a token of one kind, and ends at one place whatever follows.
pub trait Repeated: Drop {
    // The tokens that a part spells.
    ghost spelling: { List Token → Spelling Self };

    // The first token of a part.
    ghost begins: { Option What → Bool };

    /// The part that begins here.
    fn read(alloc: Global, tokens: &[Token], from: usize) -> Result<Reading<Self>, Halt>
        requires { from ≤ length tokens.now }
        ensures reads { ReadsOnly 24 spelling tokens.now from result }
        ensures contained { IsSelfContained spelling };

    // Every part begins with such a token.
    ghost first: { (tokens : List Token) (from : ℕ) (x : Self) (to : ℕ) → spelling tokens from x to → begins (what_at tokens from) ≡ true };
}

/// The longest `{ part }` that begins here. It ends before the first token with which no part begins.
pub fn each<P: Repeated>(
    alloc: Global,
    tokens: &[Token],
    from: usize,
) -> Result<Reading<Vec<P>>, Halt>
    requires { from ≤ length tokens.now }
    ensures reads { ReadsMaybe 24 (λ tokens from list to. SpellsEach (P.spelling tokens) from list.items to) (λ tokens. SpellsEach (P.spelling tokens)) (λ tokens. SpellsEach (P.spelling tokens)) P.begins tokens.now from result }
    ensures memory { IfErr result (λ halt. halt ≡ Halt.NoMemory) }
{
    let mut list = Reading::none(alloc, from, from);
    'each: loop {
        match P::read(alloc, tokens, list.end) {
            Ok(next) => list.add(next)?,
            Err(halt) => return list.ended(halt),
        }
    }
}

/// `[ part { "," part } ]` in front of a word: none where the word stands, and elsewhere the longest list.
pub fn unless<P: Readable>(
    alloc: Global,
    tokens: &[Token],
    from: usize,
    word: u8,
) -> Result<Reading<Vec<P>>, Halt>
    requires { from ≤ length tokens.now }
    ensures { ReadsUnless word P.spelling P.extends tokens.now from result }
{
    if is_word(tokens, from, word) {
        return Ok(Reading::none(alloc, from, from));
    }
    list(alloc, tokens, from)
}

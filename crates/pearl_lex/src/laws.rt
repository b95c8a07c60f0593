// The definitions determine what a source gives, and take what the language spells.

ghost use Rattle.pearl_lex.specs.Laws.{HasOneReading, HasOnePlace, IsNeverBoth, HasLawfulTokens, TakesTheLongest, TakesNone, PassesSpaces, BitsAreTheirDigits, TakesBitsInOrder};

/// A source has at most one list of tokens.
pub fn one_reading()
    ensures { HasOneReading }
{}

/// A source has no tokens at one place at most.
pub fn one_place()
    ensures { HasOnePlace }
{}

/// No source both has tokens and is refused.
pub fn never_both()
    ensures { IsNeverBoth }
{}

/// What a source lexes to is lawful, as each call that takes tokens asks.
pub fn tokens_are_lawful()
    ensures { HasLawfulTokens }
{}

/// What is taken of some bytes is the longest token that begins them, and nothing is taken where none does or where they
/// begin a form that is no token.
pub fn fronts_are_longest()
    ensures longest { TakesTheLongest }
    ensures none { TakesNone }
{}

/// What is passed over between tokens is a blank or a comment.
pub fn spaces_are_spelled()
    ensures { PassesSpaces }
{}

/// A bit literal has the truth values of its digits, the first digit's first.
pub fn bits_are_in_order()
    ensures digits { BitsAreTheirDigits }
    ensures taken { TakesBitsInOrder }
{}

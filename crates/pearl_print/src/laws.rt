// What the text of tokens is read as, which tokens a tree has, in which order bits stand, and that printing a printed text
// changes nothing.

ghost use Rattle.pearl_print.specs.Canonical.{PrintsAgain, SourcePrintsAgain};
ghost use Rattle.pearl_print.specs.Reading.{LawfulTextReads, LawfulTokens, DigitsAreTheBits};
ghost use Rattle.pearl_print.specs.ShownText.{HasOneText, SourceHasOneText, PlainHasOneText};

/// The text of lawful tokens has exactly these tokens.
pub fn text_reads()
    ensures { LawfulTextReads }
{}

/// The tokens of a lawful tree are lawful, unless a duration in it has 2^63 hours or more.
pub fn lawful_tokens()
    ensures { LawfulTokens }
{}

/// The digits of a bit literal are its truth values, the first one first.
pub fn bits_are_written_in_order()
    ensures { DigitsAreTheBits }
{}

/// Two trees that say the same, wherever their parts lie in memory, have the same tokens.
pub fn one_text()
    ensures { HasOneText }
{}

/// The tokens of a source have one canonical text: each tree that they spell has the same tokens.
pub fn source_has_one_text()
    ensures { SourceHasOneText }
{}

/// Two trees that say the same, but for their places and for what printing settles, have the same tokens.
pub fn plain_has_one_text()
    ensures { PlainHasOneText }
{}

/// A printed text is printed again to the same bytes: the text of a lawful tree that spells tokens has itself tokens that
/// a tree spells, and each tree that spells them has this text, unless a duration in the first tree has 2^63 hours or more.
pub fn prints_again()
    ensures { PrintsAgain }
{}

/// Printing a source and then the printed text gives the printed text: where bytes lex to tokens that a tree spells, the
/// tree's text lexes to tokens that a tree spells, and each such tree has this text, unless a duration in the source has
/// 2^63 hours or more.
pub fn source_prints_again()
    ensures { SourcePrintsAgain }
{}

// What the tables of the language have.

ghost use Rattle.std.specs.Prelude.{◌≡◌, IsTrue, length};
ghost use Rattle.pearl_tree.specs.Rising.{rises};
ghost use Rattle.pearl_tree.specs.Operators.{key_before};
ghost use Rattle.pearl_tree.specs.Words.{meanings, code_count};
ghost use Rattle.pearl_tree.specs.Symbols.{symbol_texts, symbol_count};
ghost use Rattle.pearl_tree.specs.TableLaws.{AreTheOperators, HaveOneRowEach, HaveTheKinds, HaveBothKinds};

use crate::operator::OPS;

/// Every meaning of a word has a code, and so has every symbol.
pub fn words_are_counted()
    ensures words { length meanings ≡ code_count }
    ensures symbols { length symbol_texts ≡ symbol_count }
{}

/// The keys of the table of operators rise strictly, as its look-up asks.
pub fn operators_rise()
    ensures { IsTrue (rises key_before OPS) }
{}

/// The table of operators has exactly the rows that the operators have for the kinds that they take.
pub fn operators_are_the_language()
    ensures rows { AreTheOperators OPS }
    ensures one_each { HaveOneRowEach OPS }
{}

/// An operator has a row for the families of its operands exactly where it takes operands of their kinds. The joined
/// lengths of CAT are no matter of the table.
pub fn operators_take_their_kinds()
    ensures one { HaveTheKinds OPS }
    ensures two { HaveBothKinds OPS }
{}

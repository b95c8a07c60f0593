// The call that prints a tree.

ghost use Rattle.std.specs.Prelude.{◌≡◌, List, IfOk};
ghost use Rattle.pearl_print.specs.Modules.{tokens_of};
ghost use Rattle.pearl_print.specs.Plain.{IsPrintOf};
ghost use Rattle.pearl_print.specs.Reading.{FitsHours, Reads};
ghost use Rattle.pearl_print.specs.Spelled.{text_of_tokens};
ghost use Rattle.pearl_tree.specs.Lawful.{IsLawful};
ghost use Rattle.pearl_tree.specs.Modules.{Spells};
ghost use Rattle.pearl_tree.specs.declared.token.Token.{Token};

use crate::module::put_tree;
use pearl_tree::tree::Tree;
use std::alloc::{AllocError as NoMemory, Global};

/// The canonical text of a tree: one blank between two tokens, and a line end after each `;`. Of words and symbols that
/// mean the same it has those that the grammar names, and of operators the symbols. The text of a lawful tree is read
/// as exactly these tokens, unless a duration in it has 2^63 hours or more. Where the tree was read from tokens, a tree
/// spells these which says the same but for its places and for what printing settles: the module's name stands in
/// brackets, a semicolon ends the module, each call has CALL, PRIO stands before MAIN, CONTROL is left out, and a duration
/// has hours, minutes and seconds with thousandths. Comments aren't in the tree, so they are gone. Want of memory is
/// answered only where the text couldn't grow.
pub fn print(alloc: Global, tree: &Tree) -> Result<Vec<u8>, NoMemory>
    ensures spells { IfOk result (λ text. text.items ≡ text_of_tokens (tokens_of tree.now)) }
    ensures reads { IsLawful tree.now → FitsHours tree.now → IfOk result (λ text. Reads text.items (tokens_of tree.now)) }
    ensures same { IsLawful tree.now → FitsHours tree.now → (tokens : List Token) → Spells tree.now tokens → IfOk result (λ text. IsPrintOf tree.now text.items) }
{
    let mut text = Vec::new(alloc);
    put_tree(&mut text, tree)?;
    Ok(text)
}

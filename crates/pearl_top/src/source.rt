// From a source's bytes to its tree.

ghost use Rattle.std.specs.Prelude.{◌≤◌, length, IfOk, IfErr};
ghost use Rattle.pearl_sound.specs.KnownParts.{NamesSemaphores};
ghost use Rattle.pearl_tree.specs.Lawful.{IsLawful};
ghost use Rattle.pearl_tree.specs.ShownModules.{shown_tree};
ghost use Rattle.pearl_top.specs.Failures.{IsDue};
ghost use Rattle.pearl_top.specs.Sources.{IsTree, SyntaxDue};

use crate::failure::Failure;
use crate::limits::SOURCE_LIMIT;
use pearl_lex::lexer::tokens;
use pearl_parse::parse::parse;
use pearl_tree::tree::Tree;
use std::alloc::Global;

/// The tree that spells a source's tokens.
pub fn tree_of(alloc: Global, source: &[u8]) -> Result<Tree, Failure>
    requires { length source.now ≤ SOURCE_LIMIT }
    ensures tree { IfOk result (IsTree source.now) }
    ensures lawful { IfOk result IsLawful }
    ensures named { IfOk result (λ tree. NamesSemaphores (shown_tree tree)) }
    ensures err { IfErr result (IsDue (SyntaxDue source.now)) }
{
    let tokens = tokens(alloc, source)?;
    let tree = parse(alloc, tokens.as_slice(), source.len() as u32)?;
    Ok(tree)
}

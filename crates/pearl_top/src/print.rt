// The canonical text of a source.

ghost use Rattle.std.specs.Prelude.{◌≤◌, length, IfOk, IfErr};
ghost use Rattle.pearl_top.specs.Failures.{IsDue};
ghost use Rattle.pearl_top.specs.PrintDue.{IsPrinted, PrintDue};

use crate::failure::Failure;
use crate::limits::SOURCE_LIMIT;
use crate::source::tree_of;
use pearl_print::print::print;
use std::alloc::Global;

/// The canonical text of a source.
pub fn canonical_text(alloc: Global, source: &[u8]) -> Result<Vec<u8>, Failure>
    requires { length source.now ≤ SOURCE_LIMIT }
    ensures ok { IfOk result (λ text. IsPrinted source.now text.items) }
    ensures err { IfErr result (IsDue (PrintDue source.now ⊥)) }
{
    let tree = tree_of(alloc, source)?;
    let text = print(alloc, &tree)?;
    Ok(text)
}

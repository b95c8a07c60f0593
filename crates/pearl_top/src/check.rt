// The sizes of a source that breaks no rule.

ghost use Rattle.std.specs.Prelude.{◌≡◌, ◌+◌, ◌≤◌, ◌++◌, length, IfOk, IfErr};
ghost use Rattle.std.specs.Fmt.{decimal};
ghost use Rattle.pearl_top.specs.CheckDue.{CheckDue, IsAccepted, accepted_line};
ghost use Rattle.pearl_top.specs.Failures.{IsDue};

use crate::failure::Failure;
use crate::limits::SOURCE_LIMIT;
use crate::source::tree_of;
use arrayvec::ArrayVec;
use itoa::Buffer;
use pearl_check::check;
use pearl_check::sizes::Sizes;
use std::alloc::Global;

/// The sizes of a source in which no rule is broken.
pub fn sizes_of(alloc: Global, source: &[u8]) -> Result<Sizes, Failure>
    requires { length source.now ≤ SOURCE_LIMIT }
    ensures ok { IfOk result (λ sizes. IsAccepted source.now (accepted_line sizes)) }
    ensures err { IfErr result (IsDue (CheckDue source.now ⊥)) }
{
    let tree = tree_of(alloc, source)?;
    let sizes = check(alloc, &tree)?;
    Ok(sizes)
}

/// The line of a source that has these sizes.
pub fn line_of(sizes: &Sizes) -> ArrayVec<u8, 80>
    ensures { result.items ≡ accepted_line sizes.now }
{
    let mut line = ArrayVec::new();
    push_word(b"accepted ", &mut line);
    push_number(sizes.tasks, &mut line);
    push_word(b" ", &mut line);
    push_number(sizes.procedures, &mut line);
    push_word(b" ", &mut line);
    push_number(sizes.slots, &mut line);
    push_word(b"\n", &mut line);
    line
}

// Appends a word.
fn push_word(word: &[u8], into: &mut ArrayVec<u8, 80>)
    requires { length into.old.items + length word.now ≤ 80 }
    ensures text { into.new.items ≡ into.old.items ++ word.now }
    ensures len { length into.new.items ≡ length into.old.items + length word.now }
{
    into.try_extend_from_slice(word).unwrap();
}

// Appends a number in decimal.
fn push_number(number: u32, into: &mut ArrayVec<u8, 80>)
    requires { length into.old.items + 20 ≤ 80 }
    ensures text { into.new.items ≡ into.old.items ++ decimal number }
    ensures len { length into.new.items ≤ length into.old.items + 20 }
{
    let mut buffer = Buffer::new();
    push_word(buffer.format(number).as_bytes(), into);
}

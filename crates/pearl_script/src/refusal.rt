// The lines that tell why nothing more was done.

ghost use Rattle.std.specs.Prelude.{◌≡◌, ◌+◌, ◌≤◌, ◌++◌, codes, length};
ghost use Rattle.std.specs.Fmt.{decimal};
ghost use Rattle.pearl_script.specs.Refusals.{refusal_line};

use crate::piece::{push_bytes, push_number};
use arrayvec::ArrayVec;

/// Why nothing more was done.
#[derive(Clone, Copy, PartialEq, Eq, Debug)]
pub enum Refusal {
    /// The words are no command.
    Usage,
    /// At this byte the source is no program.
    Syntax(u32),
    /// At this byte a rule of this number is broken.
    Source {
        place: u32,
        rule: u8,
    },
    /// At this byte the bytes are no object.
    Object(u32),
    /// In an object the rule of this number fails at this instruction of this routine, both counted from 0.
    Unsound {
        routine: u32,
        instruction: u64,
        rule: u8,
    },
    /// At this byte the bytes are no saved run.
    Snapshot(u32),
    /// In a saved run the rule of this number fails.
    State(u8),
    /// A journal's line, the first being 1, is refused for the reason with this number.
    Journal {
        line: u64,
        code: u8,
    },
    /// A file could not be read.
    Read,
    /// There is no memory left.
    Memory,
    /// A file has at least so many bytes, which is too many.
    TooLong(u64),
    /// The name of this number, the first being 1, can't be watched.
    Name(u32),
}

/// Makes `into` the line of a refusal, whatever it held before.
pub fn refusal_line(refusal: &Refusal, into: &mut ArrayVec<u8, 2304>)
    ensures { into.new.items ≡ refusal_line refusal.now }
{
    into.clear();
    match *refusal {
        Refusal::Usage => push_bytes(b"error usage\n", into),
        Refusal::Syntax(place) => push_told(b"error syntax ", u64::from(place), into),
        Refusal::Source { place, rule } => {
            push_named(b"error source ", u64::from(place), into);
            push_told(b" S", u64::from(rule), into);
        }
        Refusal::Object(place) => push_told(b"error object ", u64::from(place), into),
        Refusal::Unsound {
            routine,
            instruction,
            rule,
        } => {
            push_instruction(routine, instruction, into);
            push_told(b" V", u64::from(rule), into);
        }
        Refusal::Snapshot(place) => push_told(b"error snapshot ", u64::from(place), into),
        Refusal::State(rule) => push_told(b"error snapshot state N", u64::from(rule), into),
        Refusal::Journal { line, code } => {
            push_named(b"error journal ", line, into);
            push_told(b" ", u64::from(code), into);
        }
        Refusal::Read => push_bytes(b"error read\n", into),
        Refusal::Memory => push_bytes(b"error memory\n", into),
        Refusal::TooLong(count) => push_told(b"error too long ", count, into),
        Refusal::Name(number) => push_told(b"error name ", u64::from(number), into),
    }
}

// Appends where an object has an instruction.
fn push_instruction(routine: u32, instruction: u64, into: &mut ArrayVec<u8, 2304>)
    requires { length into.old.items + 80 ≤ 2304 }
    ensures text { into.new.items ≡
        into.old.items ++ codes "error object routine " ++ decimal routine ++ codes " instruction " ++ decimal instruction }
    ensures len { length into.new.items ≤ length into.old.items + 80 }
{
    push_named(b"error object routine ", u64::from(routine), into);
    push_named(b" instruction ", instruction, into);
}

// Appends a word and a number.
fn push_named(word: &[u8], number: u64, into: &mut ArrayVec<u8, 2304>)
    requires { length into.old.items + length word.now + 20 ≤ 2304 }
    ensures text { into.new.items ≡ into.old.items ++ word.now ++ decimal number }
    ensures len { length into.new.items ≤ length into.old.items + length word.now + 20 }
{
    push_bytes(word, into);
    push_number(number, into);
}

// Appends a word, a number and the line end.
fn push_told(word: &[u8], number: u64, into: &mut ArrayVec<u8, 2304>)
    requires { length into.old.items + length word.now + 21 ≤ 2304 }
    ensures { into.new.items ≡ into.old.items ++ word.now ++ decimal number ++ codes "\n" }
{
    push_named(word, number, into);
    push_bytes(b"\n", into);
}

// The line that sums up what a run of the workload wrote.

ghost use Rattle.std.specs.Prelude.{◌≡◌, ◌+◌, ◌≤◌, ◌++◌, length};
ghost use Rattle.std.specs.Fmt.{decimal};
ghost use Rattle.pearl_bench.specs.Counts.{behind_blank as behind_first_blank, count_of, summary_of, tells};

use arrayvec::ArrayVec;
use itoa::Buffer;

/// The line that tells how often tasks were started and ended, and how many starts were lost, by a transcript of the workload
/// with this many tasks.
pub fn summary(n: u8, transcript: &[u8]) -> ArrayVec<u8, 112>
    ensures { result.items ≡ summary_of n transcript.now }
{
    let mut line = ArrayVec::new();
    push_told(b"bench ", u64::from(n), &mut line);
    push_told(b" starts ", count(b"start ", transcript), &mut line);
    push_told(b" ends ", count(b"end ", transcript), &mut line);
    push_told(b" overruns ", count(b"overrun ", transcript), &mut line);
    line.push(b'\n');
    line
}

// How many lines of the transcript have this word behind their moment.
fn count(word: &[u8], transcript: &[u8]) -> u64
    ensures { result ≡ count_of word.now transcript.now }
{
    transcript
        .split(|byte| *byte == b'\n')
        .filter(|line| has_word(word, line))
        .count() as u64
}

// Whether this word stands behind a line's first blank.
fn has_word(word: &[u8], line: &[u8]) -> bool
    ensures { result ≡ tells word.now line.now }
{
    behind_blank(line).starts_with(word)
}

// What stands behind the first blank of a line.
fn behind_blank(line: &[u8]) -> &[u8]
    ensures { result.now ≡ behind_first_blank line.now }
{
    let mut rest = line;
    'bytes: while !rest.is_empty() {
        let byte = rest[0];
        rest = &rest[1..];
        if byte == b' ' {
            return rest;
        }
    }
    rest
}

// Appends a word and a number.
fn push_told(word: &[u8], number: u64, line: &mut ArrayVec<u8, 112>)
    requires { length line.old.items + length word.now + 20 ≤ 112 }
    ensures text { line.new.items ≡ line.old.items ++ word.now ++ decimal number }
    ensures len { length line.new.items ≤ length line.old.items + length word.now + 20 }
{
    let mut buffer = Buffer::new();
    line.try_extend_from_slice(word).unwrap();
    line.try_extend_from_slice(buffer.format(number).as_bytes())
        .unwrap();
}

//! The lines of a journal that is read in pieces.

ghost use Rattle.std.specs.Prelude.{◌≡◌, ◌↔◌, ℕ, ◌+◌, ◌<◌, ◌≤◌, ◌^◌, List, [], ◌++◌, Bool, false, length, take, vec_len, vec_capacity, IfOk, OnOk};
ghost use Rattle.pearl_rules.specs.declared.setup.Setup.{Setup};
ghost use Rattle.pearl_rules.specs.Entries.{EntryFits};
ghost use Rattle.pearl_journal.specs.Lines.{line_end};
ghost use Rattle.pearl_journal.specs.Lines as spec;
ghost use Rattle.pearl_journal.specs.Pieces.{HasNoWhole, IfEntry, IsPartial, answer_of, begin, begin_later, ended_on, fed, finished, kept_after, moment_said, read_on, said, taken};

use crate::limits::LINE_ROOM;
use crate::reading::{Line, meaning_of};
use pearl_rules::entry::Entry;
use pearl_rules::setup::Setup;
use std::alloc::{AllocError as NoMemory, Global};
use std::marker::Model;

/// What stands next in a journal.
#[derive(Drop)]
pub enum Next {
    /// A line that is accepted.
    Entry(Entry),
    /// A line that is skipped.
    Blank,
    /// No whole line.
    Partial,
}

/// A line that is refused.
#[derive(Clone, Copy, PartialEq, Eq, Debug)]
pub struct BadLine {
    /// Its number, counted from 1.
    pub line: u64,
    pub code: u8,
}

/// The lines of a journal whose bytes come in pieces, one standing at a time. Contracts see it as what it keeps.
#[derive(Drop)]
pub struct Lines {
    lines: u64,
    is_first: bool,
    standing: Vec<u8>,
    is_whole: bool,
    is_finished: bool,
    refused: Option<BadLine>,
}

impl Model for Lines {
    ghost use Rattle.std.specs.Prelude.{◌≤◌, vec_capacity};
    ghost use Rattle.pearl_journal.specs.declared.limits.TheConstants.{LINE_ROOM};
    ghost use Rattle.pearl_journal.specs.Pieces.{IsKept, Kept};

    ghost Value = { Kept };

    ghost view = { λ l. record { lines = l.lines; is_first = l.is_first; standing = l.standing.items; is_whole = l.is_whole; is_finished = l.is_finished; refused = l.refused } };

    ghost invariant = { λ l. IsKept (record { lines = l.lines; is_first = l.is_first; standing = l.standing.items; is_whole = l.is_whole; is_finished = l.is_finished; refused = l.refused }) × (LINE_ROOM ≤ vec_capacity l.standing) };
}

impl Lines {
    /// Nothing was read. All memory is taken here that is ever needed; the error is that there is none.
    pub fn new(alloc: Global) -> Result<Lines, NoMemory>
        ensures { IfOk result (λ lines. lines ≡ begin) }
    {
        let standing = Vec::with_capacity(alloc, LINE_ROOM)?;
        Ok(Lines {
            lines: 0,
            is_first: true,
            standing,
            is_whole: false,
            is_finished: false,
            refused: None,
        })
    }

    /// Nothing was read of a journal that goes on with a run: its lines count anew, and a `clock` is refused, also as the
    /// first. All memory is taken here that is ever needed; the error is that there is none.
    pub fn later(alloc: Global) -> Result<Lines, NoMemory>
        ensures { IfOk result (λ lines. lines ≡ begin_later) }
    {
        let mut lines = Lines::new(alloc)?;
        lines.is_first = false;
        Ok(lines)
    }

    /// Takes bytes up to and with the first byte 10, or all, and tells how many. Whatever follows, the entries are those
    /// that follow if the bytes come all at once. Behind a line that is refused nothing is taken: it goes on standing.
    pub fn feed(&mut self, piece: &[u8]) -> usize
        requires partial { self.old.is_whole ≡ false }
        requires unfinished { self.old.is_finished ≡ false }
        ensures count { result ≡ taken piece.now }
        ensures fed { self.new ≡ fed self.old piece.now }
        ensures read { (setup : Setup) (now : ℕ) (rest : List ℕ) →
            read_on setup self.new now rest ≡ read_on setup self.old now (take result piece.now ++ rest) }
        ensures ended { (setup : Setup) (now : ℕ) (rest : List ℕ) →
            ended_on setup self.new now rest ≡ ended_on setup self.old now (take result piece.now ++ rest) }
    {
        let end = line_length(piece);
        put_behind(&mut self.standing, &piece[..end]);
        self.is_whole = end < piece.len();
        if end < piece.len() { end + 1 } else { end }
    }

    /// The journal ends here: bytes that stand are its last line.
    pub fn finish(&mut self)
        ensures finished { self.new ≡ finished self.old }
        ensures read { (setup : Setup) (now : ℕ) → read_on setup self.new now [] ≡ read_on setup self.old now [] }
    {
        self.is_whole = self.is_whole || !self.standing.is_empty();
        self.is_finished = true;
    }

    /// Takes the whole line that stands, and tells what it means at the moment `now`. A line that is refused goes on
    /// standing, and the same is told of it again.
    pub fn entry(&mut self, setup: &Setup, now: u64) -> Result<Next, BadLine>
        requires counted { self.old.lines + 1 < 2 ^ 64 }
        requires few_tasks { length setup.now.tasks < 2 ^ 32 }
        requires few_devices { length setup.now.devices < 2 ^ 32 }
        ensures answer { result ≡ answer_of setup.now self.old now }
        ensures after { self.new ≡ kept_after self.old result }
        ensures read { (rest : List ℕ) →
            read_on setup.now self.old now rest ≡ said result (read_on setup.now self.new (moment_said now result) rest) }
        ensures ended { (rest : List ℕ) →
            ended_on setup.now self.old now rest ≡ said result (ended_on setup.now self.new (moment_said now result) rest) }
        ensures partial { IsPartial result ↔ (self.old.is_whole ≡ false) }
        ensures none { OnOk result (HasNoWhole self.new) }
        ensures fits { IfEntry result (EntryFits setup.now now) }
    {
        if let Some(bad) = self.refused {
            return Err(bad);
        }
        if !self.is_whole {
            return Ok(Next::Partial);
        }
        match meaning_of(setup, self.is_first, now, self.standing.as_slice()) {
            Line::Blank => {
                self.take_line();
                Ok(Next::Blank)
            }
            Line::Item(entry) => {
                self.is_first = false;
                self.take_line();
                Ok(Next::Entry(entry))
            }
            Line::Wrong(code) => {
                let bad = BadLine {
                    line: self.lines + 1,
                    code,
                };
                self.refused = Some(bad);
                Err(bad)
            }
        }
    }

    // The line that stands is taken.
    fn take_line(&mut self)
        requires counted { self.old.lines + 1 < 2 ^ 64 }
        requires unrefused { self.old.refused ≡ None }
        ensures { self.new ≡ record self.old { lines = self.old.lines + 1; standing = []; is_whole = false } }
    {
        self.lines += 1;
        self.standing.clear();
        self.is_whole = false;
    }
}

// Puts bytes behind those of a line; more than make it too long are not kept.
fn put_behind(line: &mut Vec<u8>, bytes: &[u8])
    requires short { vec_len line.old ≤ LINE_ROOM }
    requires room { LINE_ROOM ≤ vec_capacity line.old }
    ensures items { line.new.items ≡ take LINE_ROOM (line.old.items ++ bytes.now) }
    ensures room { LINE_ROOM ≤ vec_capacity line.new }
{
    let room = LINE_ROOM - line.len();
    let count = room.min(bytes.len());
    line.extend_from_slice(&bytes[..count]).unwrap();
}

// How many bytes come before the first byte 10.
fn line_length(bytes: &[u8]) -> usize
    ensures value { result ≡ line_end bytes.now }
    ensures within { result ≤ length bytes.now }
{
    let mut end = 0;
    'each: while end < bytes.len() && bytes[end] != 10 {
        end += 1;
    }
    end
}

/// A line without the byte 13 at its end, where one stands there.
pub(crate) fn without_return(line: &[u8]) -> &[u8]
    ensures { result.now ≡ spec.without_return line.now }
{
    let Some((last, front)) = line.split_last() else {
        return line;
    };
    if *last == b'\r' { front } else { line }
}

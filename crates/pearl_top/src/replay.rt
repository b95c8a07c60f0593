// A run over a journal.

ghost use Rattle.std.specs.Prelude.{◌≡◌, ◌+◌, ◌^◌, ◌<◌, ◌≤◌, ℕ, List, [], length, false, IfErr, OnOk};
ghost use Rattle.pearl_io.specs.Outside.{CountRose, WriteFailed};
ghost use Rattle.pearl_journal.specs.Pieces.{HasNoWhole, reading_at};
ghost use Rattle.pearl_top.specs.JournalDue.{JournalDue};
ghost use Rattle.pearl_top.specs.Reading.{MayHave};
ghost use Rattle.pearl_top.specs.Replay.{Carried, CarriesOut, IsFailure, IsUnread};
ghost use Rattle.pearl_top.specs.Taken.{Leaves};

use crate::failure::Failure;
use crate::follower::Follower;
use crate::limits::JOURNAL_LIMIT;
use pearl_io::{Failed, Shelf, Sink};
use pearl_journal::lines::{Lines, Next};
use pearl_script::refusal::Refusal;

// How many bytes of the journal are fetched at once.
const PIECE: usize = 4096;

/// Goes over the journal from the start of a run, whose first lines come before the journal is read. It is read piece by piece,
/// and each line is carried out as soon as its end was read.
pub fn replay<F: Follower, S: Shelf, K: Sink>(
    follower: &mut F,
    lines: &mut Lines,
    journal: &str,
    shelf: &mut S,
    sink: &mut K,
) -> Result<(), Failure>
    requires starts { F.going.starts follower.old }
    requires unread { IsUnread lines.old }
    requires first { reading_at lines.old (F.going.moment follower.old) ≡ (F.going.runner follower.old).first }
    ensures ends { let rose = CountRose (S.faults shelf.old journal.now) (S.faults shelf.new journal.now) in
        let failed = WriteFailed (K.faults sink.old) (K.faults sink.new) (K.full sink.new) in
        (file : List ℕ) × MayHave (S.holds shelf.old) journal.now file
        × Leaves (K.taken sink.old) (K.taken sink.new) failed (JournalDue (F.going.runner follower.old) file rose) result }
    ensures held { S.holds shelf.new ≡ S.holds shelf.old }
    ensures shelf_later { (name : List ℕ) → S.faults shelf.old name ≤ S.faults shelf.new name }
    ensures sink_later { K.faults sink.old ≤ K.faults sink.new }
{
    follower.laws();
    follower.open(sink)?;
    carry_out(follower, lines, journal, shelf, sink)?;
    follower.finish(sink)?;
    Ok(())
}

/// Carries out the journal, one piece after another.
pub(crate) fn carry_out<F: Follower, S: Shelf, K: Sink>(
    follower: &mut F,
    lines: &mut Lines,
    journal: &str,
    shelf: &mut S,
    sink: &mut K,
) -> Result<(), Failure>
    requires unread { IsUnread lines.old }
    requires rests { F.going.rests follower.old }
    ensures ends { let rose = CountRose (S.faults shelf.old journal.now) (S.faults shelf.new journal.now) in
        let failed = WriteFailed (K.faults sink.old) (K.faults sink.new) (K.full sink.new) in
        let first = reading_at lines.old (F.going.moment follower.old) in
        (file : List ℕ) × MayHave (S.holds shelf.old) journal.now file
        × CarriesOut F.going result first file rose failed follower.old follower.new (K.taken sink.old) (K.taken sink.new) }
    ensures held { S.holds shelf.new ≡ S.holds shelf.old }
    ensures shelf_later { (name : List ℕ) → S.faults shelf.old name ≤ S.faults shelf.new name }
    ensures sink_later { K.faults sink.old ≤ K.faults sink.new }
{
    follower.laws();
    let mut buffer = [0; PIECE];
    let mut place = 0;
    'pieces: loop {
        let left = (JOURNAL_LIMIT - place) as usize;
        let wanted = PIECE.min(left + 1);
        let count = match shelf.fetch(journal, place, &mut buffer[..wanted]) {
            Ok(count) => count,
            Err(Failed) => return Err(Failure::Refused(Refusal::Read)),
        };
        if count == 0 {
            lines.finish();
            return carry_out_line(follower, lines, sink);
        }
        carry_out_piece(follower, lines, &buffer[..count.min(left)], sink)?;
        if count > left {
            return Err(Failure::Refused(Refusal::TooLong(JOURNAL_LIMIT + 1)));
        }
        place += count as u64;
    }
}

// Carries out the lines that end in a piece.
fn carry_out_piece<F: Follower, K: Sink>(
    follower: &mut F,
    lines: &mut Lines,
    piece: &[u8],
    sink: &mut K,
) -> Result<(), Failure>
    requires counted { lines.old.lines + length piece.now < 2 ^ 64 }
    requires no_whole { HasNoWhole lines.old }
    requires unfinished { lines.old.is_finished ≡ false }
    requires rests { F.going.rests follower.old }
    ensures ok { OnOk result (Carried F.going lines.old follower.old piece.now lines.new follower.new (K.taken sink.old) (K.taken sink.new)) }
    ensures err { let failed = WriteFailed (K.faults sink.old) (K.faults sink.new) (K.full sink.new) in
        IfErr result (λ failure. IsFailure F.going failure lines.old follower.old piece.now follower.new
        (K.taken sink.old) (K.taken sink.new) failed) }
    ensures no_whole { OnOk result (HasNoWhole lines.new) }
    ensures unfinished { lines.new.is_finished ≡ false }
    ensures counted { OnOk result (lines.new.lines ≤ lines.old.lines + length piece.now) }
    ensures later { K.faults sink.old ≤ K.faults sink.new }
{
    follower.laws();
    let mut left = piece;
    'lines: while !left.is_empty() {
        let count = lines.feed(left);
        carry_out_line(follower, lines, sink)?;
        left = &left[count..];
    }
    Ok(())
}

// Carries out the line that stands whole, if one does.
fn carry_out_line<F: Follower, K: Sink>(
    follower: &mut F,
    lines: &mut Lines,
    sink: &mut K,
) -> Result<(), Failure>
    requires counted { lines.old.lines + 1 < 2 ^ 64 }
    requires rests { F.going.rests follower.old }
    ensures ok { OnOk result (Carried F.going lines.old follower.old [] lines.new follower.new (K.taken sink.old) (K.taken sink.new)) }
    ensures err { let failed = WriteFailed (K.faults sink.old) (K.faults sink.new) (K.full sink.new) in
        IfErr result (λ failure. IsFailure F.going failure lines.old follower.old [] follower.new
        (K.taken sink.old) (K.taken sink.new) failed) }
    ensures no_whole { OnOk result (HasNoWhole lines.new) }
    ensures finished { lines.new.is_finished ≡ lines.old.is_finished }
    ensures counted { lines.new.lines ≤ lines.old.lines + 1 }
    ensures later { K.faults sink.old ≤ K.faults sink.new }
{
    follower.laws();
    match lines.entry(follower.tables(), follower.moment())? {
        Next::Entry(entry) => {
            follower.follow(entry, sink)?;
            Ok(())
        }
        Next::Blank | Next::Partial => Ok(()),
    }
}

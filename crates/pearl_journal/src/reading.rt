//! What a line of a journal means.

ghost use Rattle.std.specs.Prelude.{◌≡◌, ℕ, ◌<◌, ◌^◌, length};
ghost use Rattle.pearl_journal.specs.Entries.{IfItem};
ghost use Rattle.pearl_journal.specs.Meaning.{is_skipped as is_skipped_text, meaning, text_meaning};
ghost use Rattle.pearl_rules.specs.Entries.{EntryFits};

use crate::forms::entry_of;
use crate::limits::{LINE_LIMIT, NO_FORM};
use crate::lines::without_return;
use crate::words::trimmed;
use pearl_rules::entry::Entry;
use pearl_rules::setup::Setup;

/// What a line of a journal means.
#[derive(Drop)]
pub enum Line {
    /// It is skipped.
    Blank,
    Item(Entry),
    /// It is refused with this code.
    Wrong(u8),
}

/// What a line means at a moment, where no entry was accepted yet or one was, however many lines came before.
pub(crate) fn meaning_of(setup: &Setup, is_first: bool, moment: u64, line: &[u8]) -> Line
    requires few_tasks { length setup.now.tasks < 2 ^ 32 }
    requires few_devices { length setup.now.devices < 2 ^ 32 }
    ensures meaning { (lines : ℕ) →
        result ≡ meaning setup.now (record { lines = lines; is_first = is_first; moment = moment }) line.now }
    ensures fits { IfItem result (EntryFits setup.now moment) }
{
    let line = without_return(line);
    if line.len() > LINE_LIMIT {
        return Line::Wrong(NO_FORM);
    }
    meaning_of_text(setup, is_first, moment, trimmed(line))
}

// What a text without blanks at its ends means.
fn meaning_of_text(setup: &Setup, is_first: bool, moment: u64, text: &[u8]) -> Line
    requires few_tasks { length setup.now.tasks < 2 ^ 32 }
    requires few_devices { length setup.now.devices < 2 ^ 32 }
    ensures { (lines : ℕ) →
        result ≡ text_meaning setup.now (record { lines = lines; is_first = is_first; moment = moment }) text.now }
{
    if is_skipped(text) {
        return Line::Blank;
    }
    match entry_of(setup, is_first, moment, text) {
        Ok(entry) => Line::Item(entry),
        Err(code) => Line::Wrong(code),
    }
}

// Whether a text without blanks at its ends is empty or a comment.
fn is_skipped(text: &[u8]) -> bool
    ensures { result ≡ is_skipped_text text.now }
{
    match text.first() {
        Some(first) => *first == b'#',
        None => true,
    }
}

// The forms of lines, and the entries that they have.

ghost use Rattle.std.specs.Prelude.{◌≡◌, ◌+◌, ◌<◌, ◌≤◌, ◌^◌, ℕ, length, IfSome};
ghost use Rattle.pearl_rules.specs.Entries.{moment_after};
ghost use Rattle.pearl_journal.specs.Meaning as spec;
ghost use Rattle.pearl_journal.specs.Words.{behind_word, first_word, task_named};

use crate::devices::{input_of, interrupt_of, kind_at, terminal_of};
use crate::limits::{LAST_MOMENT, NO_FIT, NO_FORM, NOT_DECLARED, TOO_LATE};
use crate::literals::{coming_in, spelled_by};
use crate::texts::{quoted, text_literal, widened};
use crate::words::{is_name, number_of, split_word};
use pearl_rules::entry::Entry;
use pearl_rules::setup::{Setup, TaskEntry};
use pearl_scan::clock::clock_literal;

/// The entry of a text without blanks at its ends, or the code of its refusal, at a moment and where no entry was
/// accepted yet or one was.
pub(crate) fn entry_of(setup: &Setup, is_first: bool, moment: u64, text: &[u8]) -> Result<Entry, u8>
    requires tasks { length setup.now.tasks < 2 ^ 32 }
    requires devices { length setup.now.devices < 2 ^ 32 }
    ensures { result ≡ spec.in_time moment (spec.form_of setup.now is_first (first_word text.now) (behind_word text.now)) }
{
    let entry = form_of(setup, is_first, text)?;
    if moment <= LAST_MOMENT && milliseconds_of(&entry) <= LAST_MOMENT - moment {
        Ok(entry)
    } else {
        Err(TOO_LATE)
    }
}

// How many milliseconds an entry leads on.
fn milliseconds_of(entry: &Entry) -> u64
    ensures { (moment : ℕ) → moment_after moment entry.now ≡ moment + result }
{
    match entry {
        Entry::Tick(milliseconds) => *milliseconds,
        Entry::Pass { times, .. } => *times,
        _ => 0,
    }
}

// The form of a text without blanks at its ends.
fn form_of(setup: &Setup, is_first: bool, text: &[u8]) -> Result<Entry, u8>
    requires tasks { length setup.now.tasks < 2 ^ 32 }
    requires devices { length setup.now.devices < 2 ^ 32 }
    ensures { result ≡ spec.form_of setup.now is_first (first_word text.now) (behind_word text.now) }
{
    let (word, rest) = split_word(text);
    if word == b"clock".as_slice() {
        clock_entry(is_first, rest)
    } else if word == b"run".as_slice() {
        run_entry(rest)
    } else if word == b"tick".as_slice() {
        tick_entry(rest)
    } else if word == b"pass".as_slice() {
        pass_entry(rest)
    } else {
        arriving_form(setup, word, rest)
    }
}

// The form of a line that tells of something that comes in, or one of a task's.
fn arriving_form(setup: &Setup, word: &[u8], rest: &[u8]) -> Result<Entry, u8>
    requires tasks { length setup.now.tasks < 2 ^ 32 }
    requires devices { length setup.now.devices < 2 ^ 32 }
    ensures { result ≡ spec.arriving_form setup.now word.now rest.now }
{
    if word == b"irpt".as_slice() {
        irpt_entry(setup, rest)
    } else if word == b"chars".as_slice() {
        chars_entry(setup, rest)
    } else if word == b"line".as_slice() {
        line_entry(setup, rest)
    } else if word == b"value".as_slice() {
        value_entry(setup, rest)
    } else {
        task_form(setup, word, rest)
    }
}

// The form of a line that tells of tasks.
fn task_form(setup: &Setup, word: &[u8], rest: &[u8]) -> Result<Entry, u8>
    requires { length setup.now.tasks < 2 ^ 32 }
    ensures { result ≡ spec.task_form setup.now word.now rest.now }
{
    if word == b"turn".as_slice() {
        turn_entry(setup, rest)
    } else if word == b"state".as_slice() {
        state_entry(rest)
    } else {
        Err(NO_FORM)
    }
}

// `clock C`, which is only the first entry
fn clock_entry(is_first: bool, rest: &[u8]) -> Result<Entry, u8>
    ensures { result ≡ spec.clock_entry is_first rest.now }
{
    if !is_first {
        return Err(NO_FORM);
    }
    let time = clock_literal(rest).ok_or(NO_FORM)?;
    Ok(Entry::Clock(time))
}

// `run N`
fn run_entry(rest: &[u8]) -> Result<Entry, u8>
    ensures { result ≡ spec.run_entry rest.now }
{
    let picks = number_of(rest).ok_or(NO_FORM)?;
    Ok(Entry::Run(picks))
}

// `tick N`
fn tick_entry(rest: &[u8]) -> Result<Entry, u8>
    ensures { result ≡ spec.tick_entry rest.now }
{
    let milliseconds = number_of(rest).ok_or(NO_FORM)?;
    Ok(Entry::Tick(milliseconds))
}

// `pass D N`
fn pass_entry(rest: &[u8]) -> Result<Entry, u8>
    ensures { result ≡ spec.pass_entry rest.now }
{
    let (times, picks) = split_word(rest);
    let times = number_of(times).ok_or(NO_FORM)?;
    let picks = number_of(picks).ok_or(NO_FORM)?;
    Ok(Entry::Pass { times, picks })
}

// `irpt K`
fn irpt_entry(setup: &Setup, rest: &[u8]) -> Result<Entry, u8>
    requires { length setup.now.devices < 2 ^ 32 }
    ensures { result ≡ spec.irpt_entry setup.now rest.now }
{
    let number = number_of(rest).ok_or(NO_FORM)?;
    let device = interrupt_of(setup.devices.as_slice(), number).ok_or(NOT_DECLARED)?;
    Ok(Entry::Irpt(device))
}

// `chars K 'text'`
fn chars_entry(setup: &Setup, rest: &[u8]) -> Result<Entry, u8>
    requires { length setup.now.devices < 2 ^ 32 }
    ensures { result ≡ spec.chars_entry setup.now rest.now }
{
    let (number, text) = split_word(rest);
    let number = number_of(number).ok_or(NO_FORM)?;
    let text = text_literal(text).ok_or(NO_FORM)?;
    let device = terminal_of(setup.devices.as_slice(), number).ok_or(NOT_DECLARED)?;
    Ok(Entry::Chars {
        device,
        text: widened(&text),
    })
}

// `line K 'text'`, the text perhaps empty
fn line_entry(setup: &Setup, rest: &[u8]) -> Result<Entry, u8>
    requires { length setup.now.devices < 2 ^ 32 }
    ensures { result ≡ spec.line_entry setup.now rest.now }
{
    let (number, text) = split_word(rest);
    let number = number_of(number).ok_or(NO_FORM)?;
    let text = quoted(text).ok_or(NO_FORM)?;
    let device = terminal_of(setup.devices.as_slice(), number).ok_or(NOT_DECLARED)?;
    Ok(Entry::Line {
        device,
        text: widened(&text),
    })
}

// `value K V`
fn value_entry(setup: &Setup, rest: &[u8]) -> Result<Entry, u8>
    requires { length setup.now.devices < 2 ^ 32 }
    ensures { result ≡ spec.value_entry setup.now rest.now }
{
    let (number, text) = split_word(rest);
    let number = number_of(number).ok_or(NO_FORM)?;
    let spelled = spelled_by(text).ok_or(NO_FORM)?;
    let device = input_of(setup.devices.as_slice(), number).ok_or(NOT_DECLARED)?;
    let kind = kind_at(setup.devices.as_slice(), device);
    let value = coming_in(kind, spelled).ok_or(NO_FIT)?;
    Ok(Entry::Value { device, value })
}

// `turn NAME`
fn turn_entry(setup: &Setup, rest: &[u8]) -> Result<Entry, u8>
    requires { length setup.now.tasks < 2 ^ 32 }
    ensures { result ≡ spec.turn_entry setup.now rest.now }
{
    if !is_name(rest) {
        return Err(NO_FORM);
    }
    let task = task_of(setup, rest).ok_or(NOT_DECLARED)?;
    Ok(Entry::Turn(task))
}

// The first of the tasks that has this name.
fn task_of(setup: &Setup, name: &[u8]) -> Option<u32>
    requires { length setup.now.tasks < 2 ^ 32 }
    ensures { result ≡ task_named setup.now.tasks name.now }
{
    match place_of(setup.tasks.as_slice(), name) {
        Some(place) => Some(place as u32),
        None => None,
    }
}

// The place of the first of the tasks that has this name.
fn place_of(tasks: &[TaskEntry], name: &[u8]) -> Option<usize>
    ensures value { result ≡ task_named tasks.now name.now }
    ensures within { IfSome result (λ place. place < length tasks.now) }
{
    tasks.iter().position(|task| task.name.as_slice() == name)
}

// `state`
fn state_entry(rest: &[u8]) -> Result<Entry, u8>
    ensures { result ≡ spec.state_entry rest.now }
{
    if rest.is_empty() {
        Ok(Entry::State)
    } else {
        Err(NO_FORM)
    }
}

// Journals by hand.

ghost use Rattle.std.specs.Prelude.{◌≡◌, ◌+◌, ◌<◌, ◌≤◌, ◌^◌, false, IfOk, IsTrue, length};

use crate::journal_inputs::{
    BITS_AND_TEXTS, NUMBERS, TEXTS, TIMES, VALUES_ELSEWHERE, first_other_text,
};
use arrayvec::ArrayVec;
use pearl_journal::lines::{BadLine, Lines, Next};
use pearl_rules::entry::Entry;
use pearl_rules::setup::{Setup, TaskEntry};
use pearl_value::cell::Cell;
use pearl_value::device::{Device, Direction};
use pearl_value::kind::Kind;
use pearl_value::listing::Listing;
use std::alloc::{AllocError, Global};
use std::process::Abort;
use std::test::Fail;

// A value that came in. Of a text it says how long it is.
#[derive(Clone, Copy, PartialEq, Eq)]
pub enum Given {
    Fixed(i64),
    Bits(u8, u64),
    Text(usize),
    Clock(u32),
    Span(i64),
    Ref,
}

// What a line was read as. Of a text it says how long it is.
#[derive(Clone, Copy, PartialEq, Eq)]
pub enum Told {
    Blank,
    Clock(u32),
    Run(u64),
    Tick(u64),
    Pass(u64, u64),
    Irpt(u32),
    Chars(u32, usize),
    Line(u32, usize),
    Value(u32, Given),
    Turn(u32),
    State,
    Unread,
    Wrong(u8),
}

/// A line, and what it is read as.
pub type Row = (&'static [u8], Told);

fn as_given(value: &Cell) -> Given {
    match value {
        Cell::Fixed { value, .. } => Given::Fixed(*value),
        Cell::Bits { len, value } => Given::Bits(*len, *value),
        Cell::Chars(text) => Given::Text(text.len()),
        Cell::Clock(time) => Given::Clock(*time),
        Cell::Span(time) => Given::Span(*time),
        Cell::Ref { .. } => Given::Ref,
    }
}

fn as_told_entry(entry: &Entry) -> Told {
    match entry {
        Entry::Clock(time) => Told::Clock(*time),
        Entry::Run(picks) => Told::Run(*picks),
        Entry::Tick(milliseconds) => Told::Tick(*milliseconds),
        Entry::Pass { times, picks } => Told::Pass(*times, *picks),
        Entry::Irpt(device) => Told::Irpt(*device),
        Entry::Chars { device, text } => Told::Chars(*device, text.len()),
        Entry::Line { device, text } => Told::Line(*device, text.len()),
        Entry::Value { device, value } => Told::Value(*device, as_given(value)),
        Entry::Turn(task) => Told::Turn(*task),
        Entry::State => Told::State,
    }
}

fn as_told(answer: &Result<Next, BadLine>) -> Told {
    match answer {
        Ok(Next::Entry(entry)) => as_told_entry(entry),
        Ok(Next::Blank) => Told::Blank,
        Ok(Next::Partial) => Told::Unread,
        Err(bad) => Told::Wrong(bad.code),
    }
}

/// An entry of a task with this name.
pub fn task(name: &[u8]) -> TaskEntry {
    let mut entry = TaskEntry {
        name: ArrayVec::new(),
        priority: 9,
        main: false,
    };
    let _ = entry.name.try_extend_from_slice(name);
    entry
}

fn interrupt(number: u8) -> Device {
    Device::Interrupt { number }
}

fn terminal(number: u8, direction: Direction) -> Device {
    Device::Terminal { number, direction }
}

fn input(number: u8, kind: Kind) -> Device {
    Device::Input { number, kind }
}

// Interrupts 3 and 99; terminals, inputs and an output of other numbers.
fn twelve_devices(alloc: Global) -> Result<Listing<Device>, AllocError>
    ensures { IfOk result (λ devices. length devices ≡ 12) }
{
    let devices = vec![in alloc;
        interrupt(3),
        interrupt(99),
        terminal(1, Direction::InOut),
        terminal(2, Direction::Out),
        terminal(3, Direction::In),
        input(1, Kind::Fixed(15)),
        input(2, Kind::Bits(9)),
        input(3, Kind::Chars(5)),
        input(4, Kind::Clock),
        input(5, Kind::Span),
        input(6, Kind::Fixed(63)),
        Device::Output {
            number: 7,
            kind: Kind::Span,
        },
    ]?;
    Ok(Listing::new(devices))
}

// Five tasks. Two have one name, as an object's may, one the longest name, and one that of a word in small letters.
fn tables(alloc: Global) -> Result<Setup, AllocError>
    ensures tasks { IfOk result (λ setup. length setup.tasks ≡ 5) }
    ensures devices { IfOk result (λ setup. length setup.devices ≡ 12) }
{
    let tasks = vec![in alloc;
        task(b"PUMP"),
        task(b"VALVE_2"),
        task(b"PUMP"),
        task(&[b'p'; 63]),
        task(b"task"),
    ]?;
    Ok(Setup {
        tasks: Listing::new(tasks),
        slots: Listing::new(Vec::new(alloc)),
        semaphores: Listing::new(Vec::new(alloc)),
        devices: twelve_devices(alloc)?,
        formats: Listing::new(Vec::new(alloc)),
    })
}

/// What is answered to a line by itself.
pub fn alone(alloc: Global, setup: &Setup, line: &[u8]) -> Result<Result<Next, BadLine>, AllocError>
    requires tasks { length setup.now.tasks < 2 ^ 32 }
    requires devices { length setup.now.devices < 2 ^ 32 }
{
    let mut lines = Lines::new(alloc)?;
    lines.feed(line);
    lines.finish();
    Ok(lines.entry(setup, 0))
}

static SKIPPED: [Row; 7] = [
    (b" ", Told::Blank),
    (b"\t \t", Told::Blank),
    (b"\r", Told::Blank),
    (b" \r", Told::Blank),
    (b"#", Told::Blank),
    (b"# run 5", Told::Blank),
    (b" \t#run x", Told::Blank),
];

static RUNS: [Row; 10] = [
    (b"run 0", Told::Run(0)),
    (b"run 5", Told::Run(5)),
    (b"run\t5", Told::Run(5)),
    (b" run 5 ", Told::Run(5)),
    (b"\trun \t 5\t ", Told::Run(5)),
    (b"run 5\r", Told::Run(5)),
    (b"run 5 \r", Told::Run(5)),
    (b"run 007", Told::Run(7)),
    (
        b"run 9223372036854775807",
        Told::Run(9_223_372_036_854_775_807),
    ),
    (b"run 00000000000000000000000001", Told::Run(1)),
];

static NO_RUNS: [Row; 18] = [
    (b"run", Told::Wrong(1)),
    (b"run ", Told::Wrong(1)),
    (b"run x", Told::Wrong(1)),
    (b"run -1", Told::Wrong(1)),
    (b"run +1", Told::Wrong(1)),
    (b"run 5 5", Told::Wrong(1)),
    (b"RUN 5", Told::Wrong(1)),
    (b"run5", Told::Wrong(1)),
    (b"run 5x", Told::Wrong(1)),
    (b"run 5 #", Told::Wrong(1)),
    (b"run #", Told::Wrong(1)),
    (b"run 5\r\r", Told::Wrong(1)),
    (b"run 5\x0b", Told::Wrong(1)),
    (b"run\x0c5", Told::Wrong(1)),
    (b"run \xff", Told::Wrong(1)),
    (b"run 9223372036854775808", Told::Wrong(1)),
    (b"run 18446744073709551617", Told::Wrong(1)),
    (b"jump 3", Told::Wrong(1)),
];

static TURNS: [Row; 13] = [
    (b"turn PUMP", Told::Turn(0)),
    (b"turn VALVE_2", Told::Turn(1)),
    (b"\tturn \tVALVE_2 \r", Told::Turn(1)),
    (b"turn task", Told::Turn(4)),
    // A word of the language has the letters of a name.
    (b"turn TASK", Told::Wrong(2)),
    (b"turn pump", Told::Wrong(2)),
    (b"turn PUM", Told::Wrong(2)),
    (b"turn PUMPS", Told::Wrong(2)),
    (b"turn", Told::Wrong(1)),
    (b"turn 2PUMP", Told::Wrong(1)),
    (b"turn _PUMP", Told::Wrong(1)),
    (b"turn PU-MP", Told::Wrong(1)),
    (b"turn PUMP PUMP", Told::Wrong(1)),
];

static STATES: [Row; 8] = [
    (b"state", Told::State),
    (b" state\t", Told::State),
    (b"state\r", Told::State),
    (b"state 1", Told::Wrong(1)),
    (b"state PUMP", Told::Wrong(1)),
    (b"state #", Told::Wrong(1)),
    (b"states", Told::Wrong(1)),
    (b"STATE", Told::Wrong(1)),
];

static CLOCKS: [Row; 10] = [
    (b"clock 0:0:0", Told::Clock(0)),
    (b" clock\t23:59:59.999 \r", Told::Clock(86_399_999)),
    (b"clock 001:2:003.5", Told::Clock(3_723_500)),
    (b"clock", Told::Wrong(1)),
    (b"clock 1:00", Told::Wrong(1)),
    (b"clock 24:0:0", Told::Wrong(1)),
    (b"clock 0:0:60", Told::Wrong(1)),
    (b"clock 1:0:0.1234", Told::Wrong(1)),
    (b"clock 1:0: 0", Told::Wrong(1)),
    (b"clock 1:0:0 1:0:0", Told::Wrong(1)),
];

static TICKS: [Row; 10] = [
    (b"tick 0", Told::Tick(0)),
    (b"\ttick \t5 \r", Told::Tick(5)),
    (b"tick 1099511627776", Told::Tick(1_099_511_627_776)),
    (b"tick 1099511627777", Told::Wrong(3)),
    (b"tick 9223372036854775807", Told::Wrong(3)),
    (b"tick 9223372036854775808", Told::Wrong(1)),
    (b"tick", Told::Wrong(1)),
    (b"tick x", Told::Wrong(1)),
    (b"tick 1 2", Told::Wrong(1)),
    (b"ticks 1", Told::Wrong(1)),
];

// That it isn't in the grammar is told before that it would lead too far.
static PASSES: [Row; 12] = [
    (b"pass 5 3", Told::Pass(5, 3)),
    (b"pass\t 0 \t07\t", Told::Pass(0, 7)),
    (
        b"pass 1099511627776 9223372036854775807",
        Told::Pass(1_099_511_627_776, 9_223_372_036_854_775_807),
    ),
    (b"pass 1099511627777 0", Told::Wrong(3)),
    (b"pass 9223372036854775807 1", Told::Wrong(3)),
    (b"pass 1099511627777 x", Told::Wrong(1)),
    (b"pass 9223372036854775808 1", Told::Wrong(1)),
    (b"pass 1 9223372036854775808", Told::Wrong(1)),
    (b"pass", Told::Wrong(1)),
    (b"pass 1", Told::Wrong(1)),
    (b"pass x 1", Told::Wrong(1)),
    (b"pass 1 2 3", Told::Wrong(1)),
];

static IRPTS: [Row; 12] = [
    (b"irpt 3", Told::Irpt(0)),
    (b"irpt 003", Told::Irpt(0)),
    (b"irpt 99", Told::Irpt(1)),
    // Numbers that no interrupt has, also where another device has them.
    (b"irpt 0", Told::Wrong(2)),
    (b"irpt 1", Told::Wrong(2)),
    (b"irpt 100", Told::Wrong(2)),
    (b"irpt 259", Told::Wrong(2)),
    (b"irpt 9223372036854775807", Told::Wrong(2)),
    (b"irpt 9223372036854775808", Told::Wrong(1)),
    (b"irpt", Told::Wrong(1)),
    (b"irpt -3", Told::Wrong(1)),
    (b"irpt 3 3", Told::Wrong(1)),
];

// All tables of single lines, with their names.
fn tables_of_lines() -> [(&'static str, &'static [Row]); 14] {
    [
        ("skipped", &SKIPPED),
        ("runs", &RUNS),
        ("no runs", &NO_RUNS),
        ("turns", &TURNS),
        ("states", &STATES),
        ("clocks", &CLOCKS),
        ("ticks", &TICKS),
        ("passes", &PASSES),
        ("irpts", &IRPTS),
        ("texts", &TEXTS),
        ("numbers", &NUMBERS),
        ("bits and texts", &BITS_AND_TEXTS),
        ("times", &TIMES),
        ("values elsewhere", &VALUES_ELSEWHERE),
    ]
}

// The number of the first of these rows that is read as something else.
fn first_other(alloc: Global, setup: &Setup, rows: &[Row]) -> Result<Option<usize>, AllocError>
    requires tasks { length setup.now.tasks < 2 ^ 32 }
    requires devices { length setup.now.devices < 2 ^ 32 }
{
    for (number, (line, want)) in rows.iter().enumerate() {
        if as_told(&alone(alloc, setup, line)?) != *want {
            return Ok(Some(number));
        }
    }
    Ok(None)
}

// A line of a front, one byte so many times, and an end.
fn padded(
    alloc: Global,
    front: &[u8],
    byte: u8,
    count: usize,
    end: &[u8],
) -> Result<Vec<u8>, AllocError> {
    let mut line = Vec::new(alloc);
    line.extend_from_slice(front)?;
    for _ in 0..count {
        line.push(byte)?;
    }
    line.extend_from_slice(end)?;
    Ok(line)
}

// Each line has a front, one byte so many times, and an end.
static LONG_LINES: [(&[u8], u8, usize, &[u8], Told); 23] = [
    (b"run ", b'0', 1019, b"7", Told::Run(7)),
    (b"run ", b'0', 1020, b"7", Told::Wrong(1)),
    (b"run ", b'0', 1019, b"7\r", Told::Run(7)),
    (b"run ", b'0', 1019, b"7\r\r", Told::Wrong(1)),
    (b"#", b'x', 1023, b"", Told::Blank),
    (b"#", b'x', 1024, b"", Told::Wrong(1)),
    (b"#", b'x', 1023, b"\r\n", Told::Blank),
    (b"#", b'x', 1024, b"\r\n", Told::Wrong(1)),
    (b"#", b'x', 1023, b"\r\r\n", Told::Wrong(1)),
    (b"#", b'x', 1023, b"\ry\n", Told::Wrong(1)),
    (b"#", b'x', 1100, b"\n", Told::Wrong(1)),
    (b"", b' ', 1024, b"", Told::Blank),
    (b"", b' ', 1024, b"\r", Told::Blank),
    (b"", b' ', 1025, b"", Told::Wrong(1)),
    (b"turn ", b'p', 63, b"", Told::Turn(3)),
    (b"turn ", b'q', 63, b"", Told::Wrong(2)),
    (b"turn ", b'p', 64, b"", Told::Wrong(1)),
    (b"chars 1 '", b'x', 255, b"'", Told::Chars(2, 255)),
    (b"chars 1 '", b'x', 256, b"'", Told::Wrong(1)),
    (b"line 1 '", b'x', 255, b"'", Told::Line(2, 255)),
    (b"line 1 '", b'x', 256, b"'", Told::Wrong(1)),
    (b"line 1 '", b'x', 253, b"'''''", Told::Line(2, 255)),
    (b"line 1 '", b'x', 254, b"'''''", Told::Wrong(1)),
];

// What was read of a journal: what its lines mean up to the first that is refused, the number of that one, and the
// moment.
#[derive(Drop)]
struct Story {
    told: Vec<Told>,
    bad: Option<u64>,
    now: u64,
}

fn later(now: u64, told: Told) -> u64 {
    match told {
        Told::Tick(milliseconds) => now.saturating_add(milliseconds),
        Told::Pass(times, _) => now.saturating_add(times),
        _ => now,
    }
}

impl Story {
    // Takes the line that stands, if it is whole. False where it is refused.
    fn take(&mut self, lines: &mut Lines, setup: &Setup) -> Result<bool, AllocError>
        requires counted { lines.old.lines + 1 < 2 ^ 64 }
        requires tasks { length setup.now.tasks < 2 ^ 32 }
        requires devices { length setup.now.devices < 2 ^ 32 }
        ensures taken { IfOk result (λ goes_on. IsTrue goes_on → lines.new.is_whole ≡ false) }
        ensures finished { lines.new.is_finished ≡ lines.old.is_finished }
        ensures counted { lines.new.lines ≤ lines.old.lines + 1 }
    {
        let answer = lines.entry(setup, self.now);
        let told = as_told(&answer);
        if told != Told::Unread {
            self.told.push(told)?;
        }
        self.now = later(self.now, told);
        match answer {
            Ok(_) => Ok(true),
            Err(bad) => {
                self.bad = Some(bad.line);
                Ok(false)
            }
        }
    }
}

// Reads a journal in pieces of at most so many bytes.
fn in_pieces(alloc: Global, setup: &Setup, journal: &[u8], size: usize) -> Result<Story, AllocError>
    requires size { 0 < size }
    requires tasks { length setup.now.tasks < 2 ^ 32 }
    requires devices { length setup.now.devices < 2 ^ 32 }
{
    let mut story = Story {
        told: Vec::new(alloc),
        bad: None,
        now: 0,
    };
    let mut lines = Lines::new(alloc)?;
    let mut left = journal;
    'pieces: while !left.is_empty() {
        let count = lines.feed(&left[..size.min(left.len())]);
        if !story.take(&mut lines, setup)? {
            return Ok(story);
        }
        left = &left[count..];
    }
    lines.finish();
    story.take(&mut lines, setup)?;
    Ok(story)
}

// Whether a journal means this, and a line of this number is refused, whatever size its pieces have from this one on.
fn means_so(
    alloc: Global,
    setup: &Setup,
    journal: &[u8],
    least: usize,
    want: &[Told],
    bad: Option<u64>,
) -> Result<bool, AllocError>
    requires least { 0 < least }
    requires tasks { length setup.now.tasks < 2 ^ 32 }
    requires devices { length setup.now.devices < 2 ^ 32 }
{
    for size in least..journal.len() + 2 {
        let story = in_pieces(alloc, setup, journal, size)?;
        if story.told.as_slice() != want || story.bad != bad {
            return Ok(false);
        }
    }
    Ok(true)
}

// The number of the first of these lines that is read as something else, cut at a place near its end or not.
fn first_other_long_line(alloc: Global, setup: &Setup) -> Result<Option<usize>, AllocError>
    requires tasks { length setup.now.tasks < 2 ^ 32 }
    requires devices { length setup.now.devices < 2 ^ 32 }
{
    for (number, &(front, byte, count, end, want)) in LONG_LINES.iter().enumerate() {
        let line = padded(alloc, front, byte, count, end)?;
        let bad = match want {
            Told::Wrong(_) => Some(1),
            _ => None,
        };
        if !means_so(alloc, setup, line.as_slice(), 1020, &[want], bad)? {
            return Ok(Some(number));
        }
    }
    Ok(None)
}

// In the last six the clock is set by the first entry alone, and no entry leads past the last moment.
static JOURNALS: [(&[u8], &[Told], Option<u64>); 14] = [
    (b"", &[], None),
    (b"\n", &[Told::Blank], None),
    (b"run 5", &[Told::Run(5)], None),
    (b"run 5\n", &[Told::Run(5)], None),
    (
        b"# a plant\r\n\r\nturn PUMP\r\nrun 1\r\nstate\r",
        &[
            Told::Blank,
            Told::Blank,
            Told::Turn(0),
            Told::Run(1),
            Told::State,
        ],
        None,
    ),
    (
        b"\n#\nrun 1\nturn TANK\nrun 1\n",
        &[Told::Blank, Told::Blank, Told::Run(1), Told::Wrong(2)],
        Some(4),
    ),
    (
        b"state\n\nrun",
        &[Told::State, Told::Blank, Told::Wrong(1)],
        Some(3),
    ),
    (
        b"run 1\r\n# x\n\nrun x",
        &[Told::Run(1), Told::Blank, Told::Blank, Told::Wrong(1)],
        Some(4),
    ),
    (
        b"# x\n\n \nclock 1:0:0\nrun 1",
        &[
            Told::Blank,
            Told::Blank,
            Told::Blank,
            Told::Clock(3_600_000),
            Told::Run(1),
        ],
        None,
    ),
    (
        b"clock 1:0:0\nclock 1:0:0\n",
        &[Told::Clock(3_600_000), Told::Wrong(1)],
        Some(2),
    ),
    (
        b"run 0\nclock 1:0:0\n",
        &[Told::Run(0), Told::Wrong(1)],
        Some(2),
    ),
    (
        b"clock 1:0:0\nrun 1\nclock x",
        &[Told::Clock(3_600_000), Told::Run(1), Told::Wrong(1)],
        Some(3),
    ),
    (
        b"tick 1099511627775\npass 1 5\ntick 0\npass 0 1\nrun 1\nstate\ntick 1",
        &[
            Told::Tick(1_099_511_627_775),
            Told::Pass(1, 5),
            Told::Tick(0),
            Told::Pass(0, 1),
            Told::Run(1),
            Told::State,
            Told::Wrong(3),
        ],
        Some(7),
    ),
    (
        b"pass 1099511627000 0\ntick 700\npass 77 1",
        &[
            Told::Pass(1_099_511_627_000, 0),
            Told::Tick(700),
            Told::Wrong(3),
        ],
        Some(3),
    ),
];

// The number of the first of these journals that means something else, wherever it is cut.
fn first_other_journal(alloc: Global, setup: &Setup) -> Result<Option<usize>, AllocError>
    requires tasks { length setup.now.tasks < 2 ^ 32 }
    requires devices { length setup.now.devices < 2 ^ 32 }
{
    for (number, &(journal, want, bad)) in JOURNALS.iter().enumerate() {
        if !means_so(alloc, setup, journal, 1, want, bad)? {
            return Ok(Some(number));
        }
    }
    Ok(None)
}

// Each table of lines and journals is read so.
fn all_are_so(rt: &impl Abort, alloc: Global, setup: &Setup) -> Result<(), Fail>
    requires tasks { length setup.now.tasks < 2 ^ 32 }
    requires devices { length setup.now.devices < 2 ^ 32 }
{
    for (name, rows) in tables_of_lines() {
        if let Some(number) = first_other(alloc, setup, rows)? {
            assert!(rt; false, "row {number} of {name}");
        }
    }
    if let Some(number) = first_other_long_line(alloc, setup)? {
        assert!(rt; false, "long line {number}");
    }
    if let Some(number) = first_other_journal(alloc, setup)? {
        assert!(rt; false, "journal {number}");
    }
    if let Some(number) = first_other_text(alloc, setup)? {
        assert!(rt; false, "text {number}");
    }
    Ok(())
}

#[test]
fn lines_and_journals_mean_what_their_tables_say(rt: HostRuntime) -> Result<(), Fail> {
    let setup = tables(rt.alloc())?;
    all_are_so(&rt, rt.alloc(), &setup)
}

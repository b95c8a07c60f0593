// The monitor of variables by hand: entries cut into those of one mark, names that are refused, lines, and a run.

ghost use Rattle.std.specs.Prelude.{Some, OnOk};
ghost use Rattle.pearl_value.specs.WellFormed.{IsValue};
ghost use Rattle.pearl_watch.specs.Monitored.{IsTold};

use arrayvec::ArrayVec;
use pearl_instructions::valid::Valid;
use pearl_io::{MemorySink, WriteFault};
use pearl_object::object::read;
use pearl_rules::entry::Entry;
use pearl_value::cell::Cell;
use pearl_verify::verify::verify;
use pearl_watch::fault::WatchFault;
use pearl_watch::monitor::Monitor;
use pearl_watch::steps::Steps;
use pearl_watch::watch::Watch;
use std::alloc::{AllocError as NoMemory, Global};
use std::test::Fail;

// An entry; one that brings a text brings `ab`.
#[derive(Clone, Copy)]
enum Row {
    Clock(u32),
    Run(u64),
    Tick(u64),
    Pass(u64, u64),
    Irpt(u32),
    Chars(u32),
    Line(u32),
    Value(u32),
    Turn(u32),
    State,
}

fn letters() -> ArrayVec<u8, 1024> {
    let mut text = ArrayVec::new();
    text.push(b'a');
    text.push(b'b');
    text
}

fn entry_of(row: Row) -> Entry {
    match row {
        Row::Clock(time) => Entry::Clock(time),
        Row::Run(picks) => Entry::Run(picks),
        Row::Tick(times) => Entry::Tick(times),
        Row::Pass(times, picks) => Entry::Pass { times, picks },
        Row::Irpt(device) => Entry::Irpt(device),
        Row::Chars(device) => Entry::Chars {
            device,
            text: letters(),
        },
        Row::Line(device) => Entry::Line {
            device,
            text: letters(),
        },
        Row::Value(device) => Entry::Value {
            device,
            value: Cell::Clock(7),
        },
        Row::Turn(task) => Entry::Turn(task),
        Row::State => Entry::State,
    }
}

fn is_entry_of(entry: &Entry, row: Row) -> bool {
    match (entry, row) {
        (Entry::Clock(time), Row::Clock(want)) => *time == want,
        (Entry::Run(picks), Row::Run(want)) => *picks == want,
        (Entry::Tick(times), Row::Tick(want)) => *times == want,
        (Entry::Irpt(device), Row::Irpt(want)) => *device == want,
        (Entry::Chars { device, text }, Row::Chars(want)) => {
            *device == want && text.as_slice() == b"ab".as_slice()
        }
        (Entry::Line { device, text }, Row::Line(want)) => {
            *device == want && text.as_slice() == b"ab".as_slice()
        }
        (
            Entry::Value {
                device,
                value: Cell::Clock(7),
            },
            Row::Value(want),
        ) => *device == want,
        (Entry::Turn(task), Row::Turn(want)) => *task == want,
        (Entry::State, Row::State) => true,
        _ => false,
    }
}

fn is_given(entry: &Option<Entry>, want: Option<Row>) -> bool {
    match (entry, want) {
        (Some(entry), Some(row)) => is_entry_of(entry, row),
        (None, None) => true,
        _ => false,
    }
}

// An entry, and what is given of it one after the other, where nobody can act or somebody can.
struct Cut {
    entry: Row,
    steps: &'static [(bool, Option<Row>)],
}

const PICK: Option<Row> = Some(Row::Run(1));

const MILLISECOND: Option<Row> = Some(Row::Tick(1));

const BUSY: bool = false;

const IDLE: bool = true;

/// Rows of entries that are cut.
macro_rules! cuts {
    ($($entry:expr => [$($idle:ident $want:expr),*];)*) => {
        [$(Cut { entry: $entry, steps: &[$(($idle, $want)),*] }),*]
    };
}

static CUTS: [Cut; 20] = cuts! {
    Row::Run(0) => [BUSY None, IDLE None];
    Row::Run(2) => [BUSY PICK, BUSY PICK, BUSY None, BUSY None];
    Row::Run(2) => [BUSY PICK, IDLE None];
    Row::Run(2) => [IDLE None, BUSY PICK, IDLE None, BUSY PICK, BUSY None];
    Row::Run(18446744073709551615) => [BUSY PICK, BUSY PICK, IDLE None];
    Row::Tick(0) => [BUSY None, IDLE None];
    Row::Tick(2) => [IDLE MILLISECOND, BUSY MILLISECOND, BUSY None];
    Row::Tick(18446744073709551615) => [BUSY MILLISECOND, IDLE MILLISECOND];
    Row::Pass(0, 5) => [BUSY None, IDLE None];
    Row::Pass(2, 0) => [BUSY MILLISECOND, BUSY MILLISECOND, BUSY None];
    Row::Pass(2, 2) => [BUSY MILLISECOND, BUSY PICK, BUSY PICK, BUSY MILLISECOND, BUSY PICK, BUSY PICK, BUSY None];
    Row::Pass(2, 2) => [IDLE MILLISECOND, BUSY PICK, IDLE MILLISECOND, BUSY PICK, IDLE None];
    Row::Pass(2, 1) => [BUSY MILLISECOND, IDLE MILLISECOND, BUSY PICK, BUSY None];
    Row::Clock(86399999) => [IDLE Some(Row::Clock(86399999)), IDLE None];
    Row::Irpt(3) => [BUSY Some(Row::Irpt(3)), BUSY None];
    Row::Chars(4) => [IDLE Some(Row::Chars(4)), BUSY None];
    Row::Line(5) => [BUSY Some(Row::Line(5)), IDLE None];
    Row::Value(6) => [IDLE Some(Row::Value(6)), IDLE None];
    Row::Turn(7) => [BUSY Some(Row::Turn(7)), BUSY None];
    Row::State => [IDLE Some(Row::State), BUSY None];
};

// The first step at which another entry is given.
fn first_other_step(cut: &Cut) -> Option<usize> {
    let mut steps = Steps::new(entry_of(cut.entry));
    for (step, (idle, want)) in cut.steps.iter().enumerate() {
        let given = steps.next(*idle);
        if !is_given(&given, *want) {
            return Some(step);
        }
    }
    None
}

#[test]
fn entries_are_cut_into_marks(rt: HostRuntime) -> Result<(), Fail> {
    for (number, cut) in CUTS.iter().enumerate() {
        if let Some(step) = first_other_step(cut) {
            assert!(rt; false, "row {number}, step {step}");
        }
    }
    Ok(())
}

// An object without tasks: `x` of one slot, `y` of two, `x` once more of three, `big` of 1,023 and `vast` of 1,025.
const OBJECT: [u8; 47] = [
    80, 82, 76, 49, 0, 0, 5, 1, 120, 0, 31, 1, 0, 1, 121, 0, 31, 2, 0, 1, 120, 0, 31, 3, 0, 3, 98,
    105, 103, 0, 31, 255, 7, 0, 4, 118, 97, 115, 116, 0, 31, 129, 8, 0, 0, 0, 0,
];

fn object(alloc: Global, bytes: &[u8]) -> Result<Option<Valid>, NoMemory> {
    if bytes.len() > 1000 {
        return Ok(None);
    }
    match read(alloc, bytes) {
        Ok(object) => Ok(verify(alloc, object).ok()),
        Err(_) => Ok(None),
    }
}

fn texts(alloc: Global, names: &[&str]) -> Result<Vec<String>, NoMemory> {
    let mut texts = Vec::new(alloc);
    for name in names {
        texts.push(String::from_str(alloc, name)?)?;
    }
    Ok(texts)
}

// How many slots these names watch, or which of them is refused.
#[derive(Clone, Copy, PartialEq, Eq)]
enum Told {
    Slots(usize),
    Bad(u32),
}

fn answer_to(alloc: Global, names: &[&str]) -> Result<Option<Told>, NoMemory> {
    let names = texts(alloc, names)?;
    let Some(object) = object(alloc, &OBJECT)? else {
        return Ok(None);
    };
    match Watch::new(alloc, &object, names.as_slice()) {
        Ok(watch) => Ok(Some(Told::Slots(watch.slots().len()))),
        Err(WatchFault::BadName(number)) => Ok(Some(Told::Bad(number))),
        Err(WatchFault::NoMemory) => Err(NoMemory),
    }
}

static NAMES: [(&[&str], Told); 19] = [
    (&[], Told::Slots(0)),
    (&["x"], Told::Slots(1)),
    (&["y", "x"], Told::Slots(3)),
    (&["z"], Told::Bad(1)),
    (&[""], Told::Bad(1)),
    (&["X"], Told::Bad(1)),
    (&["x "], Told::Bad(1)),
    (&["x", "z"], Told::Bad(2)),
    (&["x", "x"], Told::Bad(2)),
    (&["y", "x", "y", "z"], Told::Bad(3)),
    (&["x", "z", "x"], Told::Bad(2)),
    (&["x", "big"], Told::Slots(1024)),
    (&["big", "x"], Told::Slots(1024)),
    (&["big", "y"], Told::Bad(2)),
    (&["x", "big", "y"], Told::Bad(3)),
    (&["big", "big"], Told::Bad(2)),
    (&["big", "y", "z"], Told::Bad(2)),
    (&["vast"], Told::Bad(1)),
    (&["y", "vast"], Told::Bad(2)),
];

// The first row of which another answer is given.
fn first_other_answer(alloc: Global) -> Result<Option<usize>, NoMemory> {
    for (number, (names, want)) in NAMES.iter().enumerate() {
        if answer_to(alloc, names)? != Some(*want) {
            return Ok(Some(number));
        }
    }
    Ok(None)
}

#[test]
fn the_first_bad_name_is_refused(rt: HostRuntime) -> Result<(), NoMemory> {
    if let Some(number) = first_other_answer(rt.alloc())? {
        assert!(rt; false, "row {number}");
    }
    Ok(())
}

// The value of a watched slot after so many marks, at a moment, and its line; none where the value was told last.
struct Said {
    marks: u64,
    now: u64,
    at: usize,
    value: i32,
    line: &'static [u8],
}

/// Rows of values.
macro_rules! said {
    ($($marks:literal at $now:literal, $at:literal: $value:literal => $line:literal;)*) => {
        [$(Said { marks: $marks, now: $now, at: $at, value: $value, line: $line },)*]
    };
}

// `y` and `x` are watched, in this order.
static SAID: [Said; 11] = said! {
    0 at 0, 0: 0 => b"0 0 value y 0 0\n";
    0 at 0, 2: 0 => b"0 0 value x 0 0\n";
    0 at 0, 1: -5 => b"0 0 value y 1 -5\n";
    1 at 0, 1: -5 => b"";
    2 at 7, 0: 0 => b"";
    3 at 7, 0: 1 => b"3 7 value y 0 1\n";
    4 at 7, 1: 1 => b"4 7 value y 1 1\n";
    5 at 7, 0: 1 => b"";
    6 at 8, 0: 0 => b"6 8 value y 0 0\n";
    18446744073709551615 at 1099511627776, 2: -2147483648 => b"18446744073709551615 1099511627776 value x 0 -2147483648\n";
    18446744073709551615 at 1099511627776, 2: -2147483648 => b"";
};

fn fixed(value: i32) -> Cell
    ensures { IsValue result }
{
    Cell::Fixed {
        len: 31,
        value: i64::from(value),
    }
}

// The first row of which another line is made.
fn first_other(watch: &mut Watch) -> Option<usize> {
    let mut line = ArrayVec::new();
    for (number, row) in SAID.iter().enumerate() {
        if row.at >= watch.slots().len() {
            return Some(number);
        }
        let value = fixed(row.value);
        let is_told = watch.line(row.marks, row.now, row.at, &value, &mut line);
        if is_told == row.line.is_empty() || line.as_slice() != row.line {
            return Some(number);
        }
    }
    None
}

// The same where `y` and `x` are watched, in this order; the number of rows where other slots are watched, or none.
fn first_other_line(alloc: Global) -> Result<Option<usize>, NoMemory> {
    let names = texts(alloc, &["y", "x"])?;
    if let Some(object) = object(alloc, &OBJECT)?
        && let Ok(mut watch) = Watch::new(alloc, &object, names.as_slice())
        && watch.slots() == [1u32, 2, 0].as_slice()
    {
        return Ok(first_other(&mut watch));
    }
    Ok(Some(SAID.len()))
}

#[test]
fn changes_are_told(rt: HostRuntime) -> Result<(), NoMemory> {
    if let Some(number) = first_other_line(rt.alloc())? {
        assert!(rt; false, "row {number}");
    }
    Ok(())
}

// Tasks `a` and `b` of the same priority add 1 to `x`; then `a` puts it.
const TASKS: [u8; 63] = [
    80, 82, 76, 49, 1, 1, 1, 2, 0, 1, 1, 120, 0, 31, 1, 0, 1, 1, 5, 2, 0, 2, 1, 97, 5, 1, 0, 2, 7,
    9, 0, 0, 0, 31, 2, 40, 10, 0, 9, 0, 69, 0, 0, 25, 0, 1, 98, 5, 1, 0, 2, 5, 9, 0, 0, 0, 31, 2,
    40, 10, 0, 25, 0,
];

// The second task has its turn, where there is one.
fn turn_second(monitor: &mut Monitor, sink: &mut MemorySink) -> Result<(), WriteFault>
    requires { IsTold monitor.old.watch (Some monitor.old.machine.state.core) }
    ensures { OnOk result (IsTold monitor.new.watch (Some monitor.new.machine.state.core)) }
{
    if monitor.setup().tasks.as_slice().len() < 2 {
        return Ok(());
    }
    monitor.entry(Entry::Turn(1), sink)
}

// A run in which `a` has read `x` when `b` has its turn; then milliseconds pass.
fn run(monitor: &mut Monitor, sink: &mut MemorySink) -> Result<(), WriteFault> {
    monitor.tell(sink)?;
    monitor.entry(Entry::Run(1), sink)?;
    turn_second(monitor, sink)?;
    monitor.entry(Entry::Run(10), sink)?;
    if monitor.now() < 1000 {
        monitor.entry(Entry::Tick(3), sink)?;
    }
    monitor.close(sink)
}

// Whether a sink takes these bytes of the run, of whose calls one fails, unless its number is 0.
fn takes(alloc: Global, failing: u64, want: &[u8]) -> Result<bool, NoMemory> {
    let mut calls = Vec::new(alloc);
    calls.push(failing)?;
    let mut sink = MemorySink::new(alloc, calls, 4096);
    let names = texts(alloc, &["x"])?;
    let Some(code) = object(alloc, &TASKS)? else {
        return Ok(false);
    };
    match Monitor::load(alloc, code, names.as_slice()) {
        Ok(mut monitor) => {
            let ended = run(&mut monitor, &mut sink);
            Ok(ended.is_ok() == (failing == 0) && sink.bytes() == want)
        }
        Err(WatchFault::NoMemory) => Err(NoMemory),
        Err(WatchFault::BadName(_)) => Ok(false),
    }
}

// The number of the call that fails, and what is taken: each line is one piece.
static TAKEN: [(u64, &[u8]); 4] = [
    (0, b"0 0 value x 0 0\n4 0 value x 0 1\n12 3 close\n"),
    (1, b""),
    (2, b"0 0 value x 0 0\n"),
    (3, b"0 0 value x 0 0\n4 0 value x 0 1\n"),
];

#[test]
fn a_run_is_watched(rt: HostRuntime) -> Result<(), NoMemory> {
    for (failing, want) in &TAKEN {
        assert!(rt; takes(rt.alloc(), *failing, want)?, "{failing}");
    }
    Ok(())
}

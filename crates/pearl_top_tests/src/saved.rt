// What `save` writes of a run, and how `resume` goes on from it.

use crate::case::{
    COMPILE, EXEC, End, Ended, Failure, RESUME, ROOM, SAVE, end_of, failed, first_other_failure,
};
use crate::kept::{EMPTY, JUMP};
use crate::whole::{HEAD, TAIL};
use pearl_top::status::Status;
use std::alloc::{AllocError, Global};
use std::test::Fail;

/// Words that are no command.
pub static OTHER_WORDS: [&[&str]; 8] = [
    &["save"],
    &["save", "s"],
    &["save", "s", "j", "x"],
    &["Save", "s", "j"],
    &["resume"],
    &["resume", "s"],
    &["resume", "s", "j", "x"],
    &["Resume", "s", "j"],
];

// The snapshot of a module without anything, at the start of its run.
const NOTHING: [u8; 24] = [
    0x50, 0x52, 0x53, 0x31, 0x0a, 0x50, 0x52, 0x4c, 0x31, 0, 0, 0, 0, 0, 0, 0, 0, 0, 0, 0, 0, 0, 0,
    0,
];

/// Rows of commands over these bytes as s and over a journal.
macro_rules! ends {
    ($($words:expr, $bytes:expr, $journal:literal => $status:ident $text:expr;)*) => {
        [$(End { words: $words, bytes: $bytes, journal: $journal, status: Status::$status, text: $text }),*]
    };
}

/// An empty run has 24 bytes. Snapshots that are cut are refused, and a refusal is all that is written for `save`.
pub static SNAPSHOTS: [End; 14] = ends![
    SAVE, &EMPTY, "" => Done &NOTHING;
    RESUME, &NOTHING, "" => Done b"0 close\n";
    RESUME, &[], "run 9" => BadObject b"error snapshot 0\n";
    RESUME, &[0x50], "run 9" => BadObject b"error snapshot 1\n";
    RESUME, &[0x50, 0x52], "run 9" => BadObject b"error snapshot 2\n";
    RESUME, &[0x50, 0x52, 0x53], "run 9" => BadObject b"error snapshot 3\n";
    RESUME, &[
        0x50, 0x52, 0x53, 0x31, 0x0a, 0x50, 0x52, 0x4c, 0x31, 0, 0, 0, 0, 0, 0, 0, 0, 0, 0, 0, 0, 0, 0,
    ], "run 9" => BadObject b"error snapshot 23\n";
    RESUME, &[
        0x50, 0x52, 0x53, 0x31, 0x0a, 0x50, 0x52, 0x4c, 0x31, 0, 0, 0, 0, 0, 0, 0, 0, 0, 0, 0, 0, 0, 0,
        0, 0,
    ], "run 9" => BadObject b"error snapshot 24\n";
    RESUME, &EMPTY, "run 9" => BadObject b"error snapshot 0\n";
    SAVE, &EMPTY, "tick 1\nrun x\ntick 1\n" => BadJournal b"error journal 2 1\n";
    SAVE, &EMPTY, "tick 1\nturn a" => BadJournal b"error journal 2 2\n";
    SAVE, &JUMP, "run x" => BadObject b"error object routine 0 instruction 1 V6\n";
    SAVE, &[], "" => BadObject b"error object 0\n";
    SAVE, &NOTHING, "" => BadObject b"error object 0\n";
];

// An object's length and bytes in a snapshot, what stands behind them, and the line with which that is refused.
struct Broken {
    length: u8,
    object: &'static [u8],
    state: &'static [u8],
    line: &'static str,
}

static STATES: [Broken; 4] = [
    Broken {
        length: 26,
        object: &JUMP,
        state: &[0, 0, 0, 0, 0, 0, 0, 0, 1, 0, 0, 0],
        line: "error snapshot state N1\n",
    },
    Broken {
        length: 10,
        object: &EMPTY,
        state: &[0, 0, 0, 0, 0, 0, 0, 0, 1, 0, 0, 0],
        line: "error snapshot state N2\n",
    },
    Broken {
        length: 10,
        object: &EMPTY,
        state: &[0, 0, 1, 0, 0, 0, 0, 0, 0],
        line: "error snapshot state N3\n",
    },
    Broken {
        length: 10,
        object: &[0x50, 0x52, 0x4c, 0x32, 0, 0, 0, 0, 0, 0],
        state: &[0, 0, 0, 0, 0, 0, 0, 0, 0],
        line: "error snapshot 4\n",
    },
];

fn is_broken_so(alloc: Global, broken: &Broken) -> Result<bool, AllocError> {
    let mut bytes = Vec::from_slice(alloc, b"PRS1".as_slice())?;
    bytes.push(broken.length)?;
    bytes.extend_from_slice(broken.object)?;
    bytes.extend_from_slice(broken.state)?;
    let ended = end_of(alloc, RESUME, bytes.as_slice(), "run 9", ROOM)?;
    Ok(ended.is(Status::BadObject, broken.line.as_bytes()))
}

#[test]
fn states_that_break_a_rule_are_refused(rt: HostRuntime) -> Result<(), Fail> {
    for (number, broken) in STATES.iter().enumerate() {
        assert!(rt; is_broken_so(rt.alloc(), broken)?, "row {number}");
    }
    Ok(())
}

// What stands between the head and MODEND, a journal behind which the run is saved, one with which it goes on, and what is
// written then.
struct Row {
    part: &'static str,
    first: &'static str,
    second: &'static str,
    status: Status,
    text: &'static str,
}

macro_rules! rows {
    ($($part:expr, $first:literal, $second:literal => $status:ident $told:literal;)*) => {
        [$(Row { part: $part, first: $first, second: $second, status: Status::$status, text: $told }),*]
    };
}

// A task that waits, and one that prevents it and waits too.
const WAITING: &str =
    "a: TASK PRIO 1 MAIN; AFTER 5 SEC RESUME; PUT 'on' TO tty BY A; END; b: TASK PRIO 2 MAIN; \
    PREVENT a; AFTER 6 SEC RESUME; AFTER 1 SEC CONTINUE a; END;";

// Nothing opens a run that goes on. Its lines count anew, and a `clock` is none of them.
static GOING_ON: [Row; 8] = rows![
    WAITING, "run 10\ntick 6000\n", "state\nrun 10\ntick 1000\nrun 10"
        => Done "6000 state a suspended 1\n6000 state b running 2\n6000 end b\n7000 out 1 'on'\n7000 end a\n\
            7000 state a dormant\n7000 state b dormant\n7000 close\n";
    WAITING, "run 10\r\n# x\ntick 6000", ""
        => Done "6000 state a suspended 1\n6000 state b running 2\n6000 close\n";
    WAITING, "", "run 2\nstate\nrun 99"
        => Done "0 state a suspended 1\n0 state b running 2\n0 state a suspended 1\n0 state b suspended 2\n0 close\n";
    "", "tick 7\n", "tick 3\nstate" => Done "10 close\n";
    "", "clock 12:00:00\n", "tick 1" => Done "1 close\n";
    WAITING, "", "clock 12:00:00\nrun 9" => BadJournal "error journal 1 1\n";
    WAITING, "run 9\n", "# x\nclock 12:00:00" => BadJournal "error journal 2 1\n";
    WAITING, "run 9\ntick 6000\n", "run 9\nrun x\nrun 9"
        => BadJournal "6000 end b\nerror journal 2 1\n";
];

fn object_of(alloc: Global, part: &str) -> Result<Vec<u8>, AllocError> {
    let source = format!(in alloc; "{HEAD}{part}{TAIL}")?;
    Ok(end_of(alloc, COMPILE, source.as_bytes(), "", ROOM)?.bytes)
}

// How the run of a source that is saved behind the first journal goes on over the second.
fn resumed(alloc: Global, part: &str, first: &str, second: &str) -> Result<Ended, AllocError> {
    let object = object_of(alloc, part)?;
    let saved = end_of(alloc, SAVE, object.as_slice(), first, ROOM)?;
    end_of(alloc, RESUME, saved.bytes.as_slice(), second, ROOM)
}

fn goes_on_so(alloc: Global, row: &Row) -> Result<bool, AllocError> {
    let ended = resumed(alloc, row.part, row.first, row.second)?;
    Ok(ended.is(row.status, row.text.as_bytes()))
}

#[test]
fn runs_go_on_where_they_were_saved(rt: HostRuntime) -> Result<(), Fail> {
    for (number, row) in GOING_ON.iter().enumerate() {
        assert!(rt; goes_on_so(rt.alloc(), row)?, "row {number}");
    }
    Ok(())
}

// A procedure that is called twice, while a plan starts another task that calls it too, and a task that waits for input.
const CALLS: &str =
    "DCL n FIXED; p: PROC(k FIXED IDENT); k := k + 1; PUT k TO tty BY F(3); END; a: TASK MAIN; ALL 2 \
    SEC ACTIVATE b; p(n); AFTER 1 SEC RESUME; p(n); GET n FROM tty BY F(2); p(n); END; b: TASK PRIO 2; n := n + 10; \
    p(n); END; c: TASK; WHEN irq RESUME; END;";

// Two journals, and the lines that close the transcript of the first.
static CUTS: [(&str, &str, usize); 16] = [
    ("", "run 99\ntick 5000\nrun 99\nstate\n", 4),
    ("run 1\n", "run 99\ntick 5000\nrun 99\n", 4),
    ("run 2\n", "run 99\ntick 5000\nrun 99\n", 4),
    ("run 3\n", "run 99\ntick 5000\nrun 99\n", 4),
    ("run 4\n", "run 99\ntick 5000\nrun 99\n", 4),
    ("run 5\n", "run 99\ntick 5000\nrun 99\n", 4),
    ("run 6\n", "run 99\ntick 5000\nrun 99\n", 4),
    ("run 7\n", "run 99\ntick 5000\nrun 99\n", 4),
    ("run 8\n", "run 99\ntick 5000\nrun 99\n", 4),
    ("run 9\n", "run 99\ntick 5000\nrun 99\n", 4),
    ("turn c\nrun 99\n", "irpt 3\nrun 9\nstate\n", 4),
    ("turn c\nrun 99\ntick 1999\n", "tick 1\nrun 3\nstate", 4),
    ("pass 1000 9\n", "pass 1500 9\nline 1 '7'\nrun 99\n", 4),
    ("run 99\ntick 999\nline 1 '41'\n", "pass 4000 20\n", 4),
    (
        "clock 23:59:59\npass 2000 20\n",
        "irpt 3\nrun 99\npass 4000 99",
        4,
    ),
    (
        "run 99\nchars 1 '1'\n",
        "tick 1000\nrun 99\nline 1 '2'\nrun 99\n",
        4,
    ),
];

// What was written but for so many last lines.
fn without_last(text: &[u8], lines: usize) -> &[u8] {
    let mut left = lines;
    let mut end = text.len();
    while end > 0 {
        if text[end - 1] == b'\n' {
            if left == 0 {
                return &text[..end];
            }
            left -= 1;
        }
        end -= 1;
    }
    &text[..0]
}

// What is written of the first journal but for what closes it, of the second where the run goes on behind it, and of both
// as one.
struct Cut {
    front: Vec<u8>,
    rest: Ended,
    whole: Ended,
}

fn written(alloc: Global, first: &str, second: &str, last: usize) -> Result<Cut, AllocError> {
    let object = object_of(alloc, CALLS)?;
    let run = end_of(alloc, EXEC, object.as_slice(), first, ROOM)?;
    let rest = resumed(alloc, CALLS, first, second)?;
    let journal = format!(in alloc; "{first}{second}")?;
    let whole = end_of(alloc, EXEC, object.as_slice(), journal.as_str(), ROOM)?;
    Ok(Cut {
        front: Vec::from_slice(alloc, without_last(run.bytes.as_slice(), last))?,
        rest,
        whole,
    })
}

// Whether the second stands behind the first in both as one.
fn is_cut_so(alloc: Global, first: &str, second: &str, last: usize) -> Result<bool, AllocError> {
    let Cut { front, rest, whole } = written(alloc, first, second, last)?;
    let mut text = front;
    text.extend_from_slice(rest.bytes.as_slice())?;
    Ok(rest.status == Status::Done && whole.is(Status::Done, text.as_slice()))
}

#[test]
fn a_run_may_be_saved_behind_each_mark(rt: HostRuntime) -> Result<(), Fail> {
    for (number, (first, second, last)) in CUTS.iter().enumerate() {
        assert!(rt;
            is_cut_so(rt.alloc(), first, second, *last)?,
            "row {number}"
        );
    }
    Ok(())
}

// Whether a refused line has its number in the second journal where the run goes on, and in both as one. The lines of the
// second journal count anew.
fn is_numbered_so(alloc: Global) -> Result<bool, AllocError> {
    let second = "tick 1000\nrun 99\nline 1 '2'\nrun 99\nrun x\n";
    let Cut { front, rest, whole } = written(alloc, "run 99\nchars 1 '1'\n", second, 4)?;
    let lines = without_last(rest.bytes.as_slice(), 1);
    let mut told = Vec::from_slice(alloc, lines)?;
    told.extend_from_slice(b"error journal 5 1\n".as_slice())?;
    let mut text = front;
    text.extend_from_slice(lines)?;
    text.extend_from_slice(b"error journal 7 1\n".as_slice())?;
    Ok(
        rest.is(Status::BadJournal, told.as_slice())
            && whole.is(Status::BadJournal, text.as_slice()),
    )
}

#[test]
fn a_refused_line_has_its_number_in_its_own_journal(rt: HostRuntime) -> Result<(), Fail> {
    assert!(rt; is_numbered_so(rt.alloc())?);
    Ok(())
}

/// Rows of commands of which calls fail.
macro_rules! failures {
    ($($words:ident, $fetches:tt $puts:tt => $status:ident $text:expr;)*) => {
        [$(Failure { words: $words, fetches: &$fetches, puts: &$puts, status: Status::$status, text: $text }),*]
    };
}

// Where a read fails, nothing but the line of that is written for `save`; and nothing at all, where the write does.
static SAVING: [Failure; 6] = failures![
    SAVE, [1] [] => ReadFault Some("error read\n");
    SAVE, [2] [] => ReadFault Some("error read\n");
    SAVE, [3] [] => ReadFault Some("error read\n");
    SAVE, [4] [] => ReadFault Some("error read\n");
    SAVE, [] [1] => WriteFault Some("");
    SAVE, [5] [2] => Done None;
];

// The lines of a run that goes on, as far as the journal that was read.
static READING: [Failure; 4] = failures![
    RESUME, [1] [] => ReadFault Some("error read\n");
    RESUME, [2] [] => ReadFault Some("error read\n");
    RESUME, [3] [] => ReadFault Some("error read\n");
    RESUME, [4] []
        => ReadFault Some("6000 state a suspended 1\n6000 state b running 2\n6000 end b\nerror read\n");
];

const WAITED: &str = "run 10\ntick 6000\n";

fn first_other_while_saved(alloc: Global) -> Result<Option<usize>, AllocError> {
    let object = object_of(alloc, WAITING)?;
    first_other_failure(alloc, object.as_slice(), WAITED, &SAVING)
}

#[test]
fn each_call_may_fail_while_a_run_is_saved(rt: HostRuntime) -> Result<(), Fail> {
    if let Some(number) = first_other_while_saved(rt.alloc())? {
        assert!(rt; false, "row {number}");
    }
    Ok(())
}

// The snapshot of the run that waits.
fn snapshot(alloc: Global) -> Result<Vec<u8>, AllocError> {
    let object = object_of(alloc, WAITING)?;
    Ok(end_of(alloc, SAVE, object.as_slice(), WAITED, ROOM)?.bytes)
}

fn first_other_while_read(alloc: Global, second: &str) -> Result<Option<usize>, AllocError> {
    let saved = snapshot(alloc)?;
    first_other_failure(alloc, saved.as_slice(), second, &READING)
}

// The number of the first call for a line of a run that goes on that may fail with another end than that those before it
// are taken.
fn first_other_line(alloc: Global, second: &str, text: &str) -> Result<Option<u64>, AllocError> {
    let saved = snapshot(alloc)?;
    let mut taken = String::new(alloc);
    let mut call: u64 = 1;
    for line in text.split_inclusive('\n') {
        let ended = failed(alloc, RESUME, saved.as_slice(), second, &[], &[call])?;
        if !ended.is(Status::WriteFault, taken.as_bytes()) {
            return Ok(Some(call));
        }
        taken.push_str(line)?;
        call = call.saturating_add(1);
    }
    Ok(None)
}

#[test]
fn each_call_may_fail_while_a_run_goes_on(rt: HostRuntime) -> Result<(), Fail> {
    let row = &GOING_ON[0];
    if let Some(number) = first_other_while_read(rt.alloc(), row.second)? {
        assert!(rt; false, "row {number}");
    }
    if let Some(call) = first_other_line(rt.alloc(), row.second, row.text)? {
        assert!(rt; false, "call {call}");
    }
    Ok(())
}

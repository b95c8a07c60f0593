// Commands that read one file, and those that read an object and a journal, each of whose calls fails in turn.

use crate::case::{
    CHECK, COMPILE, EXEC, Ended, LIST, PRINT, ROOM, RUN, WATCH, end_of, owned, two_files,
};
use crate::pieces::{MONITORED, READ, RUNS, Run, WRITTEN, journal_of, transcript_of, written_of};
use crate::run::FIRST;
use pearl_io::{MemoryShelf, MemorySink};
use pearl_top::status::Status;
use pearl_top::top::pearl;
use std::alloc::{AllocError, Global};
use std::test::Fail;

// A command over the bytes of s and over j.
#[derive(Clone, Copy)]
struct Command<'a> {
    words: &'a [&'a str],
    bytes: &'a [u8],
    journal: &'a str,
}

// How it ends where these calls fail, of the shelf and of the sink, counted from 1, and each moves a few bytes.
fn broken_off(alloc: Global, of: Command, fetch: u64, put: u64) -> Result<Ended, AllocError> {
    let words = owned(alloc, of.words)?;
    let files = two_files(alloc, of.bytes, of.journal.as_bytes())?;
    let mut shelf = MemoryShelf::new(files, Vec::from_slice(alloc, &[fetch])?, READ);
    let mut sink = MemorySink::new(alloc, Vec::from_slice(alloc, &[put])?, WRITTEN);
    let status = pearl(alloc, words.as_slice(), &mut shelf, &mut sink);
    Ok(Ended {
        status,
        bytes: Vec::from_slice(alloc, sink.bytes())?,
    })
}

// How many calls a file of so many bytes takes. The last one gives nothing.
fn calls_for(length: usize) -> u64 {
    (length.div_ceil(READ) as u64).saturating_add(1)
}

// The number of the first call for the bytes of s that may fail with another end than the line of a read fault.
fn first_other_fetch(alloc: Global, of: Command) -> Result<Option<u64>, AllocError> {
    for call in 1..=calls_for(of.bytes.len()) {
        let fault = broken_off(alloc, of, call, 0)?;
        if !fault.is(Status::ReadFault, b"error read\n".as_slice()) {
            return Ok(Some(call));
        }
    }
    Ok(None)
}

// The number of the first call for what is written that may fail with another end than that all before it is taken.
fn first_other_put(alloc: Global, of: Command) -> Result<Option<u64>, AllocError> {
    let whole = end_of(alloc, of.words, of.bytes, of.journal, ROOM)?;
    let mut taken = Vec::new(alloc);
    let mut call: u64 = 0;
    for piece in whole.bytes.as_slice().chunks(WRITTEN) {
        call = call.saturating_add(1);
        let fault = broken_off(alloc, of, 0, call)?;
        if !fault.is(Status::WriteFault, taken.as_slice()) {
            return Ok(Some(call));
        }
        taken.extend_from_slice(piece)?;
    }
    let last = broken_off(alloc, of, 0, call.saturating_add(1))?;
    Ok((!last.is(Status::Done, whole.bytes.as_slice())).then_some(call))
}

// Whether each call of a command that reads one file and writes one piece may fail.
fn may_fail(alloc: Global, words: &[&str], bytes: &[u8]) -> Result<bool, AllocError> {
    let of = Command {
        words,
        bytes,
        journal: "",
    };
    Ok(first_other_fetch(alloc, of)?.is_none() && first_other_put(alloc, of)?.is_none())
}

fn listing_may_fail(alloc: Global) -> Result<bool, AllocError> {
    let object = end_of(alloc, COMPILE, FIRST.as_bytes(), "", ROOM)?.bytes;
    may_fail(alloc, LIST, object.as_slice())
}

#[test]
fn each_call_of_a_command_on_one_file_may_fail(rt: HostRuntime) -> Result<(), Fail> {
    for (name, words) in [("check", CHECK), ("print", PRINT), ("compile", COMPILE)] {
        assert!(rt; may_fail(rt.alloc(), words, FIRST.as_bytes())?, "{name}");
    }
    assert!(rt; listing_may_fail(rt.alloc())?, "list");
    Ok(())
}

// Whether an execution whose k-th call fails ends as the run of the source does, each with as many calls before the
// journal as its file takes.
fn fails_alike(alloc: Global, run: Command, exec: Command) -> Result<bool, AllocError> {
    let whole = end_of(alloc, run.words, run.bytes, run.journal, ROOM)?;
    for put in 1..=whole.bytes.len() as u64 {
        let wanted = broken_off(alloc, run, 0, put)?;
        let made = broken_off(alloc, exec, 0, put)?;
        if !made.is(wanted.status, wanted.bytes.as_slice()) {
            return Ok(false);
        }
    }
    for fetch in 1..=calls_for(run.journal.len()) {
        let behind_source = calls_for(run.bytes.len()).saturating_add(fetch);
        let behind_object = calls_for(exec.bytes.len()).saturating_add(fetch);
        let wanted = broken_off(alloc, run, behind_source, 0)?;
        let made = broken_off(alloc, exec, behind_object, 0)?;
        if !made.is(wanted.status, wanted.bytes.as_slice()) {
            return Ok(false);
        }
    }
    Ok(first_other_fetch(alloc, exec)?.is_none())
}

fn executes_alike(alloc: Global, run: &Run) -> Result<bool, AllocError> {
    let journal = journal_of(alloc, run)?;
    let object = end_of(alloc, COMPILE, run.source.as_bytes(), "", ROOM)?.bytes;
    let source = Command {
        words: RUN,
        bytes: run.source.as_bytes(),
        journal: journal.as_str(),
    };
    let exec = Command {
        words: EXEC,
        bytes: object.as_slice(),
        journal: journal.as_str(),
    };
    fails_alike(alloc, source, exec)
}

// Whether each call for what is written may fail where each line is one piece: all before it is taken.
fn lines_may_fail(alloc: Global, of: Command, text: &str) -> Result<bool, AllocError> {
    let mut taken = Vec::new(alloc);
    let mut call: u64 = 0;
    for line in text.split_inclusive('\n') {
        for piece in line.as_bytes().chunks(WRITTEN) {
            call = call.saturating_add(1);
            let fault = broken_off(alloc, of, 0, call)?;
            if !fault.is(Status::WriteFault, taken.as_slice()) {
                return Ok(false);
            }
            taken.extend_from_slice(piece)?;
        }
    }
    let last = broken_off(alloc, of, 0, call.saturating_add(1))?;
    Ok(last.is(Status::Done, text.as_bytes()))
}

// Whether each call of a monitor may fail: those for the object, those for the journal, behind the lines that were read
// whole, and those for what is written.
fn monitor_may_fail(alloc: Global, run: &Run) -> Result<bool, AllocError> {
    let journal = journal_of(alloc, run)?;
    let object = end_of(alloc, COMPILE, run.source.as_bytes(), "", ROOM)?.bytes;
    let of = Command {
        words: WATCH,
        bytes: object.as_slice(),
        journal: journal.as_str(),
    };
    for before in 0..calls_for(journal.len()) {
        let text = written_of(alloc, run, (before as usize).saturating_mul(READ))?;
        let call = calls_for(object.len()).saturating_add(before);
        let fault = broken_off(alloc, of, call.saturating_add(1), 0)?;
        if !fault.is(Status::ReadFault, text.as_bytes()) {
            return Ok(false);
        }
    }
    let text = transcript_of(alloc, run)?;
    Ok(first_other_fetch(alloc, of)?.is_none() && lines_may_fail(alloc, of, text.as_str())?)
}

#[test]
fn each_call_of_a_monitor_may_fail(rt: HostRuntime) -> Result<(), Fail> {
    assert!(rt; monitor_may_fail(rt.alloc(), &MONITORED)?);
    Ok(())
}

#[test]
fn an_execution_fails_where_a_run_does(rt: HostRuntime) -> Result<(), Fail> {
    let alloc = rt.alloc();
    assert!(rt; executes_alike(alloc, &RUNS[0])?, "a refused journal");
    assert!(rt; executes_alike(alloc, &RUNS[1])?, "an accepted journal");
    Ok(())
}

// Runs whose journal comes in pieces: cut anywhere, broken off after any call, and as long as a journal may be.

use crate::case::{Fault, Parts, RUN, fails_so};
use crate::check::PLANT;
use crate::mark::joined;
use crate::run::FIRST;
use pearl_top::status::Status;
use std::alloc::{AllocError, Global};
use std::test::Fail;

/// A source, what is written before its journal, the lines of that with what each writes, how the run ends, and what is
/// written at the journal's end.
pub struct Run {
    pub source: &'static str,
    begin: &'static str,
    lines: &'static [(&'static str, &'static str)],
    status: Status,
    end: &'static str,
}

// A run of the first task.
macro_rules! first {
    ($($line:literal $told:literal)* => $status:ident $end:literal) => {
        Run {
            source: FIRST,
            begin: "0 start main 255\n",
            lines: &[$(($line, $told)),*],
            status: Status::$status,
            end: $end,
        }
    };
}

/// Runs of short journals, the first of which is refused, and of a longer one.
pub static RUNS: [Run; 5] = [
    first![
        "run 1\r\n" "0 out 1 '   17\\n'\n"
        "# x\n" ""
        "\n" ""
        "run x" "error journal 4 1\n"
        => BadJournal ""
    ],
    first![
        "run 1\n" "0 out 1 '   17\\n'\n"
        "\r\n" ""
        "state\r\n" "0 state main running 255\n"
        " run\t9\n" "0 end main\n"
        => Done "0 state main dormant\n0 close\n"
    ],
    first![
        "run 1\n" "0 out 1 '   17\\n'\n"
        "run 9" "0 end main\n"
        => Done "0 state main dormant\n0 close\n"
    ],
    first![
        "run 1\n" "0 out 1 '   17\\n'\n"
        "run 9\r" "0 end main\n"
        => Done "0 state main dormant\n0 close\n"
    ],
    Run {
        source: PLANT,
        begin: "0 start init 1\n",
        lines: &[
            ("clock 12:00:00\n", ""),
            (
                "run 100\n",
                "0 start sampler 10\n0 start operator 30\n0 end init\n",
            ),
            ("value 2 75\n", ""),
            (
                "pass 1000 20\n",
                "1000 start logger 20\n1000 out 1 '12:00:01   75\\n'\n1000 end logger\n",
            ),
            ("line 1 '  70'\n", ""),
            (
                "pass 1000 20\n",
                "2000 start logger 20\n2000 out 1 '12:00:02   75\\n'\n2000 end logger\n",
            ),
            ("value 2 75\n", ""),
            (
                "pass 1000 20\n",
                "2001 start shut 2\n2001 send 7 '0011'B\n2001 end shut\n\
                3000 start logger 20\n3000 out 1 '12:00:03   75\\n'\n3000 end logger\n",
            ),
            ("irpt 4\n", "3000 start shut 2\n"),
            ("run 100", "3000 send 7 '0011'B\n3000 end shut\n"),
        ],
        status: Status::Done,
        end: "3000 state init dormant\n3000 state sampler blocked 10\n3000 state shut dormant\n\
            3000 state logger dormant\n3000 state operator blocked 30\n3000 close\n",
    },
];

/// A monitor of x, the source being that of its object, over a journal that is accepted.
pub static MONITORED: Run = Run {
    source: "MODULE;PROBLEM;DCL x FIXED;a:TASK MAIN;x:=x+1;AFTER 1 SEC RESUME;x:=9;END;MODEND",
    begin: "0 0 value x 0 0\n",
    lines: &[
        ("# x\n", ""),
        ("run 1\n", ""),
        ("run 9\r\n", "2 0 value x 0 1\n"),
        ("state\n", ""),
        ("pass 1002 9\n", "1005 1000 value x 0 9\n"),
        ("run 9", ""),
    ],
    status: Status::Done,
    end: "1008 1002 close\n",
};

/// The lines of its journal.
pub fn journal_of(alloc: Global, run: &Run) -> Result<String, AllocError> {
    let mut journal = String::new(alloc);
    for (line, _) in run.lines {
        journal.push_str(line)?;
    }
    Ok(journal)
}

/// All that is written of it.
pub fn transcript_of(alloc: Global, run: &Run) -> Result<String, AllocError> {
    let mut transcript = String::from_str(alloc, run.begin)?;
    for (_, told) in run.lines {
        transcript.push_str(told)?;
    }
    transcript.push_str(run.end)?;
    Ok(transcript)
}

// The first length of pieces with which the run ends otherwise.
fn first_other_length(alloc: Global, run: &Run) -> Result<Option<usize>, AllocError> {
    let journal = journal_of(alloc, run)?;
    let transcript = transcript_of(alloc, run)?;
    for most in 1..=journal.len() {
        let fault = Fault {
            words: RUN,
            source: run.source,
            journal: journal.as_str(),
            fetches: &[],
            puts: &[],
            most,
            status: run.status,
            text: transcript.as_str(),
        };
        if !fails_so(alloc, &fault)? {
            return Ok(Some(most));
        }
    }
    Ok(None)
}

#[test]
fn a_journal_may_be_cut_anywhere(rt: HostRuntime) -> Result<(), Fail> {
    for (number, run) in RUNS.iter().enumerate() {
        if let Some(length) = first_other_length(rt.alloc(), run)? {
            assert!(rt; false, "row {number} by {length} bytes");
        }
    }
    Ok(())
}

/// How many bytes a call of the shelf moves where each of them may fail.
pub const READ: usize = 7;

/// How many a call of the sink.
pub const WRITTEN: usize = 5;

// The number of the first call of the sink that may fail with another end than that all before it is taken.
fn first_other_put(alloc: Global, run: &Run) -> Result<Option<u64>, AllocError> {
    let journal = journal_of(alloc, run)?;
    let transcript = transcript_of(alloc, run)?;
    let mut taken = String::new(alloc);
    let mut call: u64 = 0;
    for line in transcript.as_str().split_inclusive('\n') {
        for piece in line.as_bytes().chunks(WRITTEN) {
            call = call.saturating_add(1);
            let fault = Fault {
                words: RUN,
                source: run.source,
                journal: journal.as_str(),
                fetches: &[],
                puts: &[call],
                most: WRITTEN,
                status: Status::WriteFault,
                text: taken.as_str(),
            };
            if !fails_so(alloc, &fault)? {
                return Ok(Some(call));
            }
            for &byte in piece {
                taken.push(char::from(byte))?;
            }
        }
    }
    Ok(None)
}

#[test]
fn a_write_may_fail_within_each_line(rt: HostRuntime) -> Result<(), Fail> {
    for (number, run) in RUNS.iter().enumerate() {
        if let Some(call) = first_other_put(rt.alloc(), run)? {
            assert!(rt; false, "row {number} at call {call}");
        }
    }
    Ok(())
}

/// What is written where the shelf gives so many bytes of the journal and then fails.
pub fn written_of(alloc: Global, run: &Run, given: usize) -> Result<String, AllocError> {
    let mut text = String::from_str(alloc, run.begin)?;
    let mut at: usize = 0;
    for (line, told) in run.lines {
        at = at.saturating_add(line.len());
        if at <= given && line.ends_with('\n') {
            text.push_str(told)?;
        }
    }
    text.push_str("error read\n")?;
    Ok(text)
}

// The number of the first call of the shelf that may fail with another end.
fn first_other_fetch(alloc: Global, run: &Run) -> Result<Option<usize>, AllocError> {
    let journal = journal_of(alloc, run)?;
    // The last call for a file gives nothing.
    let of_source = run.source.len().div_ceil(READ) + 1;
    let of_journal = journal.len().div_ceil(READ) + 1;
    for before in 0..of_source.saturating_add(of_journal) {
        let text = if before < of_source {
            String::from_str(alloc, "error read\n")?
        } else {
            written_of(alloc, run, (before - of_source).saturating_mul(READ))?
        };
        let fault = Fault {
            words: RUN,
            source: run.source,
            journal: journal.as_str(),
            fetches: &[(before as u64).saturating_add(1)],
            puts: &[],
            most: READ,
            status: Status::ReadFault,
            text: text.as_str(),
        };
        if !fails_so(alloc, &fault)? {
            return Ok(Some(before));
        }
    }
    Ok(None)
}

#[test]
fn a_read_may_fail_within_each_line(rt: HostRuntime) -> Result<(), Fail> {
    for (number, run) in RUNS.iter().enumerate() {
        if let Some(call) = first_other_fetch(rt.alloc(), run)? {
            assert!(rt; false, "row {number} behind call {call}");
        }
    }
    Ok(())
}

// The end of a journal of 67,108,864 bytes or one more, which begins with comments, and how its run ends.
struct Long {
    last: Parts,
    status: Status,
    text: &'static str,
}

// A line that doesn't end within the limit isn't carried out.
static LONGEST: [Long; 4] = [
    Long {
        last: &[(" ", 1018), ("run 9\n", 1)],
        status: Status::Done,
        text: "0 start main 255\n0 out 1 '   17\\n'\n0 end main\n0 state main dormant\n0 close\n",
    },
    Long {
        last: &[(" ", 1019), ("run 9", 1)],
        status: Status::Done,
        text: "0 start main 255\n0 out 1 '   17\\n'\n0 end main\n0 state main dormant\n0 close\n",
    },
    Long {
        last: &[(" ", 1018), ("run 9\n", 2)],
        status: Status::TooLong,
        text: "0 start main 255\n0 out 1 '   17\\n'\n0 end main\nerror too long 67108865\n",
    },
    Long {
        last: &[(" ", 1019), ("run 9\n", 1)],
        status: Status::TooLong,
        text: "0 start main 255\nerror too long 67108865\n",
    },
];

fn long_ends_so(alloc: Global, comments: &str, long: &Long) -> Result<bool, AllocError> {
    let mut journal = String::from_str(alloc, comments)?;
    journal.push_str(joined(alloc, long.last)?.as_str())?;
    let fault = Fault {
        words: RUN,
        source: FIRST,
        journal: journal.as_str(),
        fetches: &[],
        puts: &[],
        most: usize::MAX,
        status: long.status,
        text: long.text,
    };
    fails_so(alloc, &fault)
}

fn first_other_long(alloc: Global) -> Result<Option<usize>, AllocError> {
    let comment = joined(alloc, &[("#", 1), ("x", 1022), ("\n", 1)])?;
    let comments = comment.as_str().repeat(alloc, 65_535)?;
    for (number, long) in LONGEST.iter().enumerate() {
        if !long_ends_so(alloc, comments.as_str(), long)? {
            return Ok(Some(number));
        }
    }
    Ok(None)
}

#[test]
fn a_journal_has_at_most_67108864_bytes(rt: HostRuntime) -> Result<(), Fail> {
    if let Some(number) = first_other_long(rt.alloc())? {
        assert!(rt; false, "row {number}");
    }
    Ok(())
}

// Each case ends as its table says.

use crate::case::{
    Case, End, Fault, Long, RUN, Table, ends_so, fails_so, first_other, first_other_end,
    long_ends_so,
};
use crate::mark::joined;
use crate::{bench, check, kept, print, run, saved, tasks, timed, typed, watch, whole};
use pearl_top::status::Status;
use std::alloc::{AllocError, Global};
use std::process::Abort;
use std::test::Fail;

// All tables of short cases, with their names.
fn tables() -> [(&'static str, &'static Table); 18] {
    [
        ("check, accepted", &check::ACCEPTED),
        ("check, refused", &check::REFUSED),
        ("print, modules", &print::MODULES),
        ("print, declarations", &print::DECLARATIONS),
        ("print, statements", &print::STATEMENTS),
        ("print, expressions", &print::EXPRESSIONS),
        ("print, refused", &print::REFUSED),
        ("run, variables", &run::VARIABLES),
        ("run, refused", &run::REFUSED),
        ("bodies", &whole::BODIES),
        ("tasks", &tasks::PLANTS),
        ("turns, refused", &tasks::REFUSED),
        ("time", &timed::PLANTS),
        ("interrupts", &timed::INTERRUPTS),
        ("lines on time, refused", &timed::REFUSED),
        ("texts", &typed::TEXTS),
        ("values", &typed::VALUES),
        ("inputs, refused", &typed::REFUSED),
    ]
}

#[test]
fn rows_end_as_their_tables_say(rt: HostRuntime) -> Result<(), Fail> {
    for (name, table) in tables() {
        if let Some(number) = first_other(rt.alloc(), table)? {
            assert!(rt; false, "row {number} of {name}");
        }
    }
    Ok(())
}

// Commands over objects and snapshots.
fn ends() -> [(&'static str, &'static [End]); 3] {
    [
        ("objects", &kept::OBJECTS),
        ("snapshots", &saved::SNAPSHOTS),
        ("objects that are watched", &watch::OBJECTS),
    ]
}

#[test]
fn commands_over_bytes_end_as_their_rows_say(rt: HostRuntime) -> Result<(), Fail> {
    for (name, table) in ends() {
        if let Some(number) = first_other_end(rt.alloc(), table)? {
            assert!(rt; false, "row {number} of {name}");
        }
    }
    Ok(())
}

// Each of these cases ends so.
fn all_end_so(rt: &impl Abort, alloc: Global, longs: &[Long]) -> Result<(), Fail> {
    for (number, long) in longs.iter().enumerate() {
        assert!(rt; long_ends_so(alloc, long)?, "row {number}");
    }
    Ok(())
}

#[test]
fn check_keeps_its_limits(rt: HostRuntime) -> Result<(), Fail> {
    all_end_so(&rt, rt.alloc(), &check::LONGS)
}

#[test]
fn a_source_full_of_statements_is_checked(rt: HostRuntime) -> Result<(), Fail> {
    all_end_so(&rt, rt.alloc(), &check::LONGEST)
}

#[test]
fn print_goes_up_to_its_limits(rt: HostRuntime) -> Result<(), Fail> {
    all_end_so(&rt, rt.alloc(), &print::LONGS)
}

#[test]
fn print_refuses_what_passes_its_limits(rt: HostRuntime) -> Result<(), Fail> {
    all_end_so(&rt, rt.alloc(), &print::LONGS_REFUSED)
}

#[test]
fn the_longest_source_is_printed(rt: HostRuntime) -> Result<(), Fail> {
    all_end_so(&rt, rt.alloc(), &print::LONGEST)
}

#[test]
fn run_keeps_its_limits(rt: HostRuntime) -> Result<(), Fail> {
    all_end_so(&rt, rt.alloc(), &run::LONGS)
}

#[test]
fn full_sources_have_nearly_1048576_bytes(rt: HostRuntime) -> Result<(), Fail> {
    for parts in [check::FULL, print::FULL] {
        let length = joined(rt.alloc(), parts)?.len();
        assert!(rt; length > 1_048_500 && length <= 1_048_576);
    }
    Ok(())
}

// Commands where something outside fails, or each call moves few bytes.
fn faults() -> [(&'static str, &'static [Fault<'static>]); 5] {
    [
        ("commands", &run::COMMANDS[0]),
        ("commands by one byte", &run::COMMANDS[1]),
        ("faults of check", &check::FAULTS),
        ("faults of print", &print::FAULTS),
        ("faults of run", &run::FAULTS),
    ]
}

// The number of the first of these rows that ends otherwise.
fn first_other_fault(alloc: Global, faults: &[Fault]) -> Result<Option<usize>, AllocError> {
    for (number, fault) in faults.iter().enumerate() {
        if !fails_so(alloc, fault)? {
            return Ok(Some(number));
        }
    }
    Ok(None)
}

#[test]
fn faults_outside_end_a_command(rt: HostRuntime) -> Result<(), Fail> {
    for (name, table) in faults() {
        if let Some(number) = first_other_fault(rt.alloc(), table)? {
            assert!(rt; false, "row {number} of {name}");
        }
    }
    Ok(())
}

// The number of the first of these lines of a transcript whose write may fail with another end than that those before
// it are written.
fn first_other_line(
    alloc: Global,
    source: &str,
    journal: &str,
    lines: &[&str],
) -> Result<Option<usize>, AllocError> {
    let mut before = String::new(alloc);
    for (number, line) in lines.iter().enumerate() {
        let puts = [(number as u64).saturating_add(1)];
        let fault = Fault {
            words: RUN,
            source,
            journal,
            fetches: &[],
            puts: &puts,
            most: usize::MAX,
            status: Status::WriteFault,
            text: before.as_str(),
        };
        if !fails_so(alloc, &fault)? {
            return Ok(Some(number));
        }
        before.push_str(line)?;
    }
    Ok(None)
}

// The same of a run with a line in each mark, or with several.
fn first_other_line_of(alloc: Global, marks: bool) -> Result<Option<usize>, AllocError> {
    if marks {
        let journal = "run 20\ntick 1000\nrun 20\nirpt 3\nrun 9\n";
        first_other_line(alloc, timed::MARKS, journal, &timed::MARKS_LINES)
    } else {
        let journal = "run 2\nstate\nrun 20";
        first_other_line(alloc, tasks::WATCHED, journal, &tasks::WATCHED_LINES)
    }
}

#[test]
fn a_write_may_fail_at_each_line(rt: HostRuntime) -> Result<(), Fail> {
    for marks in [false, true] {
        if let Some(number) = first_other_line_of(rt.alloc(), marks)? {
            assert!(rt; false, "line {number}, {marks}");
        }
    }
    Ok(())
}

#[test]
fn a_day_is_one_line(rt: HostRuntime) -> Result<(), Fail> {
    for (journal, times, last) in [
        ("pass 3600000 1000", 59, 3_600_000),
        ("pass 86400000 1000", 1439, 86_400_000),
    ] {
        assert!(rt;
            timed::passes(rt.alloc(), journal, times, last)?,
            "{journal}"
        );
    }
    Ok(())
}

fn is_no_command(alloc: Global, words: &[&str]) -> Result<bool, AllocError> {
    let case = Case {
        words,
        source: "MODULE;PROBLEM;MODEND",
        journal: "",
        room: 4096,
        again: false,
        status: Status::Usage,
        text: "error usage\n",
    };
    ends_so(alloc, &case)
}

// The number of the first of these words that are a command.
fn first_command(alloc: Global, table: &[&[&str]]) -> Result<Option<usize>, AllocError> {
    for (number, words) in table.iter().enumerate() {
        if !is_no_command(alloc, words)? {
            return Ok(Some(number));
        }
    }
    Ok(None)
}

// Words that are no command, with their tables' names.
fn other_words() -> [(&'static str, &'static [&'static [&'static str]]); 6] {
    [
        ("check", &check::OTHER_WORDS),
        ("print", &print::OTHER_WORDS),
        ("kept", &kept::OTHER_WORDS),
        ("watch", &watch::OTHER_WORDS),
        ("saved", &saved::OTHER_WORDS),
        ("bench", &bench::OTHER_WORDS),
    ]
}

#[test]
fn other_words_are_no_command(rt: HostRuntime) -> Result<(), Fail> {
    for (name, table) in other_words() {
        if let Some(number) = first_command(rt.alloc(), table)? {
            assert!(rt; false, "row {number} of {name}");
        }
    }
    Ok(())
}

#[test]
fn workloads_are_summed_up(rt: HostRuntime) -> Result<(), Fail> {
    for (number, line) in bench::LINES {
        assert!(rt; bench::writes(rt.alloc(), number, line)?, "{number}");
    }
    Ok(())
}

#[test]
fn workloads_are_accepted(rt: HostRuntime) -> Result<(), Fail> {
    for n in 1..=100 {
        assert!(rt; bench::is_accepted(rt.alloc(), n)?, "{n}");
    }
    Ok(())
}

#[test]
fn statuses_have_their_codes(rt: HostRuntime) {
    for (code, status) in [
        Status::Done,
        Status::Usage,
        Status::Refused,
        Status::BadObject,
        Status::BadJournal,
        Status::ReadFault,
        Status::WriteFault,
        Status::NoMemory,
        Status::TooLong,
        Status::BadName,
    ]
    .into_iter()
    .enumerate()
    {
        assert!(rt; usize::from(status.code()) == code, "{code}");
    }
}

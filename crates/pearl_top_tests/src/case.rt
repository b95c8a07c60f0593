// Commands over two files, s and j, and how they end.

use crate::mark::{joined, told, unmarked};
use pearl_io::{File, MemoryShelf, MemorySink, SureShelf, SureSink};
use pearl_top::status::Status;
use pearl_top::top::pearl;
use std::alloc::{AllocError, Global};

/// The words of a check of s.
pub const CHECK: &[&str] = &["check", "s"];

/// The words of a print of s.
pub const PRINT: &[&str] = &["print", "s"];

/// The words of a run of s over j.
pub const RUN: &[&str] = &["run", "s", "j"];

/// The words of a compilation of s.
pub const COMPILE: &[&str] = &["compile", "s"];

/// The words of an execution of s over j.
pub const EXEC: &[&str] = &["exec", "s", "j"];

/// The words of a monitor of x in s over j.
pub const WATCH: &[&str] = &["watch", "s", "j", "x"];

/// The words of a saved run of s over j.
pub const SAVE: &[&str] = &["save", "s", "j"];

/// The words of a run that goes on from s over j.
pub const RESUME: &[&str] = &["resume", "s", "j"];

/// The words of a listing of s.
pub const LIST: &[&str] = &["list", "s"];

/// As many bytes as most cases may write.
pub const ROOM: usize = 65_536;

/// A command where nothing outside fails, and how it ends.
#[derive(Clone, Copy)]
pub struct Case<'a> {
    pub words: &'a [&'a str],
    /// A mark stands before the place that is told.
    pub source: &'a str,
    pub journal: &'a str,
    /// How many bytes are taken.
    pub room: usize,
    /// Whether what is written is itself a source of which the same is written.
    pub again: bool,
    pub status: Status,
    /// A mark stands for the place.
    pub text: &'a str,
}

/// A command where these calls fail, of the shelf and of the sink, each moving so many bytes at most, but one at least,
/// and how it ends.
#[derive(Clone, Copy)]
pub struct Fault<'a> {
    pub words: &'a [&'a str],
    pub source: &'a str,
    pub journal: &'a str,
    pub fetches: &'a [u64],
    pub puts: &'a [u64],
    pub most: usize,
    pub status: Status,
    pub text: &'a str,
}

/// A part of a source, a journal, and a part of what is written.
pub type Row = (&'static str, &'static str, &'static str);

/// Cases that differ in what their rows tell.
pub struct Table {
    pub words: &'static [&'static str],
    /// What stands before and behind the part of the source.
    pub around: (&'static str, &'static str),
    pub again: bool,
    pub status: Status,
    /// What stands before and behind the part of what is written.
    pub about: (&'static str, &'static str),
    pub rows: &'static [Row],
}

/// Parts of a text, each so many times.
pub type Parts = &'static [(&'static str, usize)];

/// A case whose texts are made of parts.
pub struct Long {
    pub words: &'static [&'static str],
    pub source: Parts,
    pub journal: Parts,
    pub room: usize,
    pub again: bool,
    pub status: Status,
    pub text: Parts,
}

/// These words, as a command has them.
pub fn owned(alloc: Global, words: &[&str]) -> Result<Vec<String>, AllocError> {
    let mut owned = Vec::new(alloc);
    for word in words {
        owned.push(String::from_str(alloc, word)?)?;
    }
    Ok(owned)
}

fn file(alloc: Global, name: &str, bytes: &[u8]) -> Result<File, AllocError> {
    Ok(File {
        name: String::from_str(alloc, name)?,
        bytes: Vec::from_slice(alloc, bytes)?,
    })
}

/// A shelf's files, s and j.
pub fn two_files(alloc: Global, source: &[u8], journal: &[u8]) -> Result<Vec<File>, AllocError> {
    let mut files = Vec::new(alloc);
    for (name, bytes) in [("s", source), ("j", journal)] {
        files.push(file(alloc, name, bytes)?)?;
    }
    Ok(files)
}

/// How a command ended, and what it wrote.
#[derive(Drop)]
pub struct Ended {
    pub status: Status,
    pub bytes: Vec<u8>,
}

impl Ended {
    /// Whether it ended so.
    pub fn is(&self, status: Status, text: &[u8]) -> bool {
        self.status == status && self.bytes.as_slice() == text
    }
}

/// How the command of these words over s and j ends, where nothing outside fails and so many bytes are taken.
pub fn end_of(
    alloc: Global,
    words: &[&str],
    source: &[u8],
    journal: &str,
    room: usize,
) -> Result<Ended, AllocError> {
    let words = owned(alloc, words)?;
    let mut shelf = SureShelf::new(two_files(alloc, source, journal.as_bytes())?);
    let mut sink = SureSink::new(alloc, room)?;
    let status = pearl(alloc, words.as_slice(), &mut shelf, &mut sink);
    Ok(Ended {
        status,
        bytes: Vec::from_slice(alloc, sink.bytes())?,
    })
}

// Whether the case's command over this source writes this.
fn writes(alloc: Global, case: &Case, source: &[u8], text: &[u8]) -> Result<bool, AllocError> {
    let ended = end_of(alloc, case.words, source, case.journal, case.room)?;
    Ok(ended.is(case.status, text))
}

/// Whether the case ends so.
pub fn ends_so(alloc: Global, case: &Case) -> Result<bool, AllocError> {
    let (source, place) = unmarked(alloc, case.source)?;
    let text = told(alloc, case.text, place)?;
    if case.again && !writes(alloc, case, text.as_bytes(), text.as_bytes())? {
        return Ok(false);
    }
    writes(alloc, case, source.as_slice(), text.as_bytes())
}

/// Whether the command ends so.
pub fn fails_so(alloc: Global, fault: &Fault) -> Result<bool, AllocError> {
    let words = owned(alloc, fault.words)?;
    let files = two_files(alloc, fault.source.as_bytes(), fault.journal.as_bytes())?;
    let most = fault.most.max(1);
    let mut shelf = MemoryShelf::new(files, Vec::from_slice(alloc, fault.fetches)?, most);
    let mut sink = MemorySink::new(alloc, Vec::from_slice(alloc, fault.puts)?, most);
    let status = pearl(alloc, words.as_slice(), &mut shelf, &mut sink);
    Ok(status == fault.status && sink.bytes() == fault.text.as_bytes())
}

/// How the command of these words over the bytes of s and j ends, where these calls fail, of the shelf and of the sink.
pub fn failed(
    alloc: Global,
    words: &[&str],
    source: &[u8],
    journal: &str,
    fetches: &[u64],
    puts: &[u64],
) -> Result<Ended, AllocError> {
    let words = owned(alloc, words)?;
    let files = two_files(alloc, source, journal.as_bytes())?;
    let mut shelf = MemoryShelf::new(files, Vec::from_slice(alloc, fetches)?, usize::MAX);
    let mut sink = MemorySink::new(alloc, Vec::from_slice(alloc, puts)?, usize::MAX);
    let status = pearl(alloc, words.as_slice(), &mut shelf, &mut sink);
    Ok(Ended {
        status,
        bytes: Vec::from_slice(alloc, sink.bytes())?,
    })
}

/// A command over these bytes as s and over j, and how it ends.
pub struct End {
    pub words: &'static [&'static str],
    pub bytes: &'static [u8],
    pub journal: &'static str,
    pub status: Status,
    pub text: &'static [u8],
}

/// The number of the first of these that ends otherwise.
pub fn first_other_end(alloc: Global, ends: &[End]) -> Result<Option<usize>, AllocError> {
    for (number, end) in ends.iter().enumerate() {
        let ended = end_of(alloc, end.words, end.bytes, end.journal, ROOM)?;
        if !ended.is(end.status, end.text) {
            return Ok(Some(number));
        }
    }
    Ok(None)
}

/// A command where these calls fail, of the shelf and of the sink, and how it ends; of which what is written counts only
/// where it is told.
pub struct Failure {
    pub words: &'static [&'static str],
    pub fetches: &'static [u64],
    pub puts: &'static [u64],
    pub status: Status,
    pub text: Option<&'static str>,
}

fn is_failure(ended: &Ended, failure: &Failure) -> bool {
    match failure.text {
        Some(text) => ended.is(failure.status, text.as_bytes()),
        None => ended.status == failure.status,
    }
}

/// The number of the first of these that ends otherwise over these bytes as s and over j.
pub fn first_other_failure(
    alloc: Global,
    bytes: &[u8],
    journal: &str,
    failures: &[Failure],
) -> Result<Option<usize>, AllocError> {
    for (number, of) in failures.iter().enumerate() {
        let ended = failed(alloc, of.words, bytes, journal, of.fetches, of.puts)?;
        if !is_failure(&ended, of) {
            return Ok(Some(number));
        }
    }
    Ok(None)
}

// Whether the row's source is compiled, and the object then ends so that is executed over its journal.
fn row_executes_so(alloc: Global, table: &Table, row: Row) -> Result<bool, AllocError> {
    let (part, journal, told) = row;
    let source = format!(in alloc; "{}{part}{}", table.around.0, table.around.1)?;
    let text = format!(in alloc; "{}{told}{}", table.about.0, table.about.1)?;
    let made = end_of(alloc, COMPILE, source.as_bytes(), "", ROOM)?;
    let run = end_of(alloc, EXEC, made.bytes.as_slice(), journal, ROOM)?;
    Ok(made.status == Status::Done && run.is(table.status, text.as_bytes()))
}

/// The number of the first row whose object is executed otherwise.
pub fn first_executed_otherwise(alloc: Global, table: &Table) -> Result<Option<usize>, AllocError> {
    for (number, row) in table.rows.iter().enumerate() {
        if !row_executes_so(alloc, table, *row)? {
            return Ok(Some(number));
        }
    }
    Ok(None)
}

fn row_ends_so(alloc: Global, table: &Table, row: Row) -> Result<bool, AllocError> {
    let (part, journal, told) = row;
    let source = format!(in alloc; "{}{part}{}", table.around.0, table.around.1)?;
    let text = format!(in alloc; "{}{told}{}", table.about.0, table.about.1)?;
    let case = Case {
        words: table.words,
        source: source.as_str(),
        journal,
        room: ROOM,
        again: table.again,
        status: table.status,
        text: text.as_str(),
    };
    ends_so(alloc, &case)
}

/// The number of the first row that ends otherwise.
pub fn first_other(alloc: Global, table: &Table) -> Result<Option<usize>, AllocError> {
    for (number, row) in table.rows.iter().enumerate() {
        if !row_ends_so(alloc, table, *row)? {
            return Ok(Some(number));
        }
    }
    Ok(None)
}

/// Whether the case ends so.
pub fn long_ends_so(alloc: Global, long: &Long) -> Result<bool, AllocError> {
    let source = joined(alloc, long.source)?;
    let journal = joined(alloc, long.journal)?;
    let text = joined(alloc, long.text)?;
    let case = Case {
        words: long.words,
        source: source.as_str(),
        journal: journal.as_str(),
        room: long.room,
        again: long.again,
        status: long.status,
        text: text.as_str(),
    };
    ends_so(alloc, &case)
}

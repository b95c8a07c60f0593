// Objects that are kept in files: what `compile`, `exec` and `list` write.

use crate::case::{
    COMPILE, EXEC, End, Ended, Failure, LIST, PRINT, ROOM, RUN, Table, WATCH, end_of, failed,
    first_executed_otherwise, first_other_failure,
};
use crate::check::PLANT;
use crate::run::FIRST;
use crate::{run, tasks, timed, typed, whole};
use pearl_top::status::Status;
use std::alloc::{AllocError, Global};
use std::test::Fail;

/// Words that are no command.
pub static OTHER_WORDS: [&[&str]; 10] = [
    &["compile"],
    &["compile", "s", "j"],
    &["Compile", "s"],
    &["exec", "s"],
    &["exec", "s", "j", "j"],
    &["exec"],
    &["list"],
    &["list", "s", "j"],
    &["listing", "s"],
    &["s", "exec", "j"],
];

/// The object of a module without anything.
pub const EMPTY: [u8; 10] = [0x50, 0x52, 0x4c, 0x31, 0, 0, 0, 0, 0, 0];

/// A task with a constant and a jump over nothing, behind which an operand is left.
pub const JUMP: [u8; 26] = [
    0x50, 0x52, 0x4c, 0x31, 0, 0, 0, 0, 0, 1, 1, 0x74, 0xff, 1, 1, 0, 1, 3, 0, 0, 0x1f, 2, 0x13, 2,
    0x19, 0,
];

// What becomes of its bytes from one place up to another, and the line with which it is refused then.
struct Change {
    from: usize,
    to: usize,
    bytes: &'static [u8],
    line: &'static str,
}

macro_rules! changes {
    ($($from:literal $to:literal $bytes:expr => $line:literal;)*) => {
        [$(Change { from: $from, to: $to, bytes: &$bytes, line: $line }),*]
    };
}

static CHANGES: [Change; 9] = changes![
    12 14 [0xff, 0x81, 0x00] => "error object 12\n";
    12 13 [0x00] => "error object 12\n";
    14 15 [0x02] => "error object 14\n";
    22 23 [0x7f] => "error object 22\n";
    9 10 [0xc9, 0x01] => "error object 9\n";
    17 18 [0xff, 0xff, 0xff, 0xff, 0x0f] => "error object 30\n";
    23 24 [0x05] => "error object routine 0 instruction 1 V1\n";
    23 24 [0x01] => "error object routine 0 instruction 0 V6\n";
    26 26 [] => "error object routine 0 instruction 1 V6\n";
];

fn changed(alloc: Global, change: &Change) -> Result<Vec<u8>, AllocError> {
    let mut bytes = Vec::new(alloc);
    for (place, byte) in JUMP.iter().enumerate() {
        if place == change.from {
            bytes.extend_from_slice(change.bytes)?;
        }
        if place < change.from || place >= change.to {
            bytes.push(*byte)?;
        }
    }
    Ok(bytes)
}

/// Rows of commands over these bytes as s, without a journal.
macro_rules! ends {
    ($($words:expr, $bytes:expr => $status:ident $text:expr;)*) => {
        [$(End { words: $words, bytes: $bytes, journal: "", status: Status::$status, text: $text }),*]
    };
}

/// An empty module has ten bytes, and they are an object. Bytes that are cut are refused at their length. An object is
/// listed that isn't valid.
pub static OBJECTS: [End; 16] = ends![
    COMPILE, b"MODULE(m);PROBLEM;MODEND;" => Done &EMPTY;
    EXEC, &EMPTY => Done b"0 close\n";
    EXEC, &[] => BadObject b"error object 0\n";
    EXEC, &[0x50] => BadObject b"error object 1\n";
    EXEC, &[0x50, 0x52] => BadObject b"error object 2\n";
    EXEC, &[0x50, 0x52, 0x4c] => BadObject b"error object 3\n";
    EXEC, &[0x50, 0x52, 0x4c, 0x31] => BadObject b"error object 4\n";
    EXEC, &[0x50, 0x52, 0x4c, 0x31, 0] => BadObject b"error object 5\n";
    EXEC, &[0x50, 0x52, 0x4c, 0x31, 0, 0] => BadObject b"error object 6\n";
    EXEC, &[0x50, 0x52, 0x4c, 0x31, 0, 0, 0] => BadObject b"error object 7\n";
    EXEC, &[0x50, 0x52, 0x4c, 0x31, 0, 0, 0, 0] => BadObject b"error object 8\n";
    EXEC, &[0x50, 0x52, 0x4c, 0x31, 0, 0, 0, 0, 0] => BadObject b"error object 9\n";
    EXEC, &[0x50, 0x52, 0x4c, 0x31, 0, 0, 0, 0, 0, 0, 0] => BadObject b"error object 10\n";
    LIST, &JUMP => Done b"task t prio 255 main cells 0 depth 1\n0 Const FIXED(31) 1\n1 Jump 2\n2 End\n";
    LIST, &EMPTY => Done b"";
    LIST, b"PRL2" => BadObject b"error object 0\n";
];

// Whether the changed bytes are refused with the line where they are executed.
fn is_refused(alloc: Global, change: &Change) -> Result<bool, AllocError> {
    let bytes = changed(alloc, change)?;
    let ended = end_of(alloc, EXEC, bytes.as_slice(), "", ROOM)?;
    Ok(ended.is(Status::BadObject, change.line.as_bytes()))
}

#[test]
fn bytes_that_are_changed_are_refused(rt: HostRuntime) -> Result<(), Fail> {
    for (number, change) in CHANGES.iter().enumerate() {
        assert!(rt; is_refused(rt.alloc(), change)?, "row {number}");
    }
    Ok(())
}

// Tables whose sources are compiled, with their names: what is compiled is executed as `run` runs them.
fn tables() -> [(&'static str, &'static Table); 10] {
    [
        ("variables", &run::VARIABLES),
        ("bodies", &whole::BODIES),
        ("tasks", &tasks::PLANTS),
        ("turns", &tasks::REFUSED),
        ("time", &timed::PLANTS),
        ("interrupts", &timed::INTERRUPTS),
        ("lines on time", &timed::REFUSED),
        ("texts", &typed::TEXTS),
        ("values", &typed::VALUES),
        ("inputs", &typed::REFUSED),
    ]
}

#[test]
fn what_is_compiled_is_executed_as_it_runs(rt: HostRuntime) -> Result<(), Fail> {
    for (name, table) in tables() {
        if let Some(number) = first_executed_otherwise(rt.alloc(), table)? {
            assert!(rt; false, "row {number} of {name}");
        }
    }
    Ok(())
}

// The object of a source.
fn compiled(alloc: Global, source: &str) -> Result<Ended, AllocError> {
    end_of(alloc, COMPILE, source.as_bytes(), "", ROOM)
}

// Whether `compile` refuses the source as `run` does.
fn is_refused_alike(alloc: Global, source: &str) -> Result<bool, AllocError> {
    let made = compiled(alloc, source)?;
    let run = end_of(alloc, RUN, source.as_bytes(), "", ROOM)?;
    Ok(made.status == Status::Refused && made.is(run.status, run.bytes.as_slice()))
}

#[test]
fn sources_are_refused_alike(rt: HostRuntime) -> Result<(), Fail> {
    for source in [
        "",
        "MODULE;PROBLEM;t:TASK;EXIT;END;MODEND",
        "MODULE;PROBLEM;t:TASK;x:=%;END;MODEND",
    ] {
        assert!(rt; is_refused_alike(rt.alloc(), source)?, "{source}");
    }
    Ok(())
}

/// Rows of commands of which calls fail.
macro_rules! failures {
    ($($words:ident, $fetches:tt $puts:tt => $status:ident $text:expr;)*) => {
        [$(Failure { words: $words, fetches: &$fetches, puts: &$puts, status: Status::$status, text: Some($text) }),*]
    };
}

static OF_OBJECTS: [Failure; 7] = failures![
    EXEC, [1] [] => ReadFault "error read\n";
    EXEC, [] [1] => WriteFault "";
    LIST, [1] [] => ReadFault "error read\n";
    LIST, [] [1] => WriteFault "";
    WATCH, [1] [] => ReadFault "error read\n";
    WATCH, [] [1] => WriteFault "";
    EXEC, [3] [] => ReadFault "0 start main 255\nerror read\n";
];

static OF_SOURCES: [Failure; 2] = failures![
    COMPILE, [2] [] => ReadFault "error read\n";
    COMPILE, [] [1] => WriteFault "";
];

fn first_other_on_an_object(alloc: Global) -> Result<Option<usize>, AllocError> {
    let object = compiled(alloc, FIRST)?.bytes;
    first_other_failure(alloc, object.as_slice(), "run 9\n", &OF_OBJECTS)
}

#[test]
fn faults_outside_end_a_command_on_objects(rt: HostRuntime) -> Result<(), Fail> {
    if let Some(number) = first_other_on_an_object(rt.alloc())? {
        assert!(rt; false, "row {number} of objects");
    }
    if let Some(number) = first_other_failure(rt.alloc(), FIRST.as_bytes(), "", &OF_SOURCES)? {
        assert!(rt; false, "row {number} of sources");
    }
    Ok(())
}

// Whether the command of these words over these bytes as s writes all of it by one call of the sink.
fn is_one_piece(alloc: Global, words: &[&str], bytes: &[u8]) -> Result<bool, AllocError> {
    let whole = end_of(alloc, words, bytes, "", ROOM)?;
    let once = failed(alloc, words, bytes, "", &[], &[2])?;
    Ok(once.is(Status::Done, whole.bytes.as_slice()))
}

// Whether the plant's object is listed by one call.
fn is_listed_in_one_piece(alloc: Global) -> Result<bool, AllocError> {
    let object = compiled(alloc, PLANT)?.bytes;
    is_one_piece(alloc, LIST, object.as_slice())
}

#[test]
fn texts_objects_listings_and_summaries_are_one_piece(rt: HostRuntime) -> Result<(), Fail> {
    assert!(rt; is_one_piece(rt.alloc(), COMPILE, PLANT.as_bytes())?);
    assert!(rt; is_one_piece(rt.alloc(), PRINT, PLANT.as_bytes())?);
    assert!(rt; is_one_piece(rt.alloc(), &["bench", "1"], b"".as_slice())?);
    assert!(rt; is_listed_in_one_piece(rt.alloc())?);
    Ok(())
}

// Whether each command over so many bytes of 0 as an object ends so.
fn all_end_so(
    alloc: Global,
    count: usize,
    status: Status,
    text: &[u8],
) -> Result<bool, AllocError> {
    let bytes = vec![in alloc; 0; count]?;
    for words in [EXEC, LIST, WATCH] {
        let ended = end_of(alloc, words, bytes.as_slice(), "", ROOM)?;
        if !ended.is(status, text) {
            return Ok(false);
        }
    }
    Ok(true)
}

#[test]
fn an_object_has_at_most_16777216_bytes(rt: HostRuntime) -> Result<(), Fail> {
    let no_object = b"error object 0\n".as_slice();
    assert!(rt; all_end_so(rt.alloc(), 16_777_216, Status::BadObject, no_object)?);
    let too_long = b"error too long 16777217\n".as_slice();
    assert!(rt; all_end_so(rt.alloc(), 16_777_217, Status::TooLong, too_long)?);
    Ok(())
}

fn is_compiled_alike(alloc: Global, source: &str) -> Result<bool, AllocError> {
    let one = compiled(alloc, source)?;
    let two = compiled(alloc, source)?;
    Ok(one.is(Status::Done, two.bytes.as_slice()))
}

#[test]
fn a_plant_is_compiled_again_to_the_same_bytes(rt: HostRuntime) -> Result<(), Fail> {
    assert!(rt; is_compiled_alike(rt.alloc(), PLANT)?);
    Ok(())
}

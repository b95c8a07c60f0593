// What `watch` writes: how the leaves that are named change, mark by mark.

use crate::case::{COMPILE, End, Ended, Parts, ROOM, WATCH, end_of, failed};
use crate::kept::{EMPTY, JUMP};
use crate::mark::joined;
use crate::whole::{HEAD, TAIL};
use pearl_top::status::Status;
use std::alloc::{AllocError, Global};
use std::test::Fail;

/// Words that are no command.
pub static OTHER_WORDS: [&[&str]; 5] = [
    &["watch"],
    &["watch", "s"],
    &["watch", "s", "j"],
    &["Watch", "s", "j", "x"],
    &["exec", "s", "j", "x"],
];

// What stands between the head and MODEND, a journal, the names that are watched, and what is written.
type Row = (
    &'static str,
    &'static str,
    &'static [&'static str],
    &'static str,
);

macro_rules! rows {
    ($($part:expr, $journal:literal, [$($name:literal),*] => $told:literal;)*) => {
        [$(($part, $journal, &[$($name),*], $told)),*]
    };
}

// Two tasks that count up.
const TWO: &str =
    "DCL x FIXED; a: TASK PRIO 5 MAIN; x := x + 1; PUT x TO tty BY F(2); END; b: TASK PRIO 5 \
    MAIN; x := x + 1; END;";

// Arrays and structures.
const PARTS: &str =
    "DCL v(2:4) FIXED INIT(7,-8),r(2) STRUCT[u CHAR(2),w(2) BIT],n FIXED INIT(3); a: TASK \
    MAIN; v(n) := 9; r(2).w(1) := '1'B; v(2) := v(3); r(1).u := '''x'; END;";

// A variable of each kind.
const KINDS: &str =
    "DCL b BIT(5) INIT('01'B),t CLOCK INIT(23:59:59.5),d DURATION INIT(-1 SEC),c CHAR(4) \
    INIT('it''s'),f FIXED(63); a: TASK MAIN; f := 9000000000000000000; b := NOT b; t := t + 1 SEC; d := d - 1.5 \
    SEC; c := 'x'; f := -f; END;";

// A count that goes up each two seconds.
const COUNT: &str =
    "DCL n FIXED,last BIT; a: TASK MAIN; ALL 2 SEC ACTIVATE b; END; b: TASK PRIO 2; n := n + \
    1; IF n == 3 THEN last := '1'B; FIN; END;";

// As many slots as can be watched, one more, and one array with too many.
const WIDE: &str = "DCL v(1024) FIXED,w FIXED,u(1025) FIXED;";

// What is written of runs that are accepted.
static VALUES: [Row; 12] = rows![
    TWO, "run 1\nturn b\nrun 10", ["x"] => "0 0 value x 0 0\n4 0 value x 0 1\n9 0 close\n";
    TWO, "", ["x"] => "0 0 value x 0 0\n0 0 close\n";
    TWO, "clock 12:00:00\nstate\n# x\nrun 3\nstate\ntick 5\nrun 99", ["x"]
        => "0 0 value x 0 0\n4 0 value x 0 1\n15 5 value x 0 2\n16 5 close\n";
    PARTS, "run 99", ["r.w", "v", "r.u"]
        => "0 0 value r.w 0 '0'B\n0 0 value r.w 1 '0'B\n0 0 value r.w 2 '0'B\n0 0 value r.w 3 '0'B\n\
            0 0 value v 0 7\n0 0 value v 1 -8\n0 0 value v 2 -8\n0 0 value r.u 0 '  '\n\
            0 0 value r.u 1 '  '\n2 0 value v 1 9\n3 0 value r.w 2 '1'B\n5 0 value v 0 9\n\
            6 0 value r.u 0 '''x'\n7 0 close\n";
    PARTS, "run 3", ["n"] => "0 0 value n 0 3\n3 0 close\n";
    KINDS, "run 99", ["b", "c", "d", "f", "t"]
        => "0 0 value b 0 '01000'B\n0 0 value c 0 'it''s'\n0 0 value d 0 -0 HRS 00 MIN 01.000 SEC\n\
            0 0 value f 0 0\n0 0 value t 0 23:59:59.500\n1 0 value f 0 9000000000000000000\n\
            3 0 value b 0 '10111'B\n5 0 value t 0 00:00:00.500\n7 0 value d 0 -0 HRS 00 MIN 02.500 SEC\n\
            8 0 value c 0 'x   '\n10 0 value f 0 -9000000000000000000\n11 0 close\n";
    KINDS, "run 3", ["t", "f"]
        => "0 0 value t 0 23:59:59.500\n0 0 value f 0 0\n1 0 value f 0 9000000000000000000\n3 0 close\n";
    COUNT, "run 9\npass 5000 9\npass 2000 1\nrun 9", ["last", "n"]
        => "0 0 value last 0 '0'B\n0 0 value n 0 0\n3 0 value n 0 1\n2008 2000 value n 0 2\n\
            4012 4000 value n 0 3\n4014 4000 value last 0 '1'B\n6018 6001 value n 0 4\n7019 7000 close\n";
    COUNT, "tick 4000\nrun 4\ntick 1\nrun 99", ["n"]
        => "0 0 value n 0 0\n4003 4000 value n 0 1\n4007 4001 close\n";
    "DCL n FIXED INIT(5),k FIXED; a: TASK MAIN; WHEN irq ACTIVATE b; ENABLE irq; REPEAT GET n FROM tty BY \
            F(2); END; END; b: TASK; k := k + 1; END;",
        "run 9\nchars 1 '71'\nrun 1\nstate\nrun 9\nline 1 ' 7'\nirpt 3\nrun 99\nline 1 'x'\nrun 9", ["n", "k"]
        => "0 0 value n 0 5\n0 0 value k 0 0\n7 0 value n 0 71\n12 0 value n 0 7\n16 0 value k 0 1\n\
            18 0 close\n";
    "DCL x FIXED INIT(4),y FIXED INIT(4); a: TASK MAIN; x := y; y := 4; x := 2 * y; x := 8; x := 1 // 0; x \
            := 9; END;",
        "run 99", ["y", "x"] => "0 0 value y 0 4\n0 0 value x 0 4\n5 0 value x 0 8\n7 0 close\n";
    "DCL x FIXED; p: PROC(k FIXED IDENT, m FIXED); k := m; k := k + m; END; a: TASK MAIN; p(x, 6); END;",
        "run 99", ["x"] => "0 0 value x 0 0\n2 0 value x 0 6\n4 0 value x 0 12\n5 0 close\n";
];

// Names that are refused.
static NAMES: [Row; 15] = rows![
    TWO, "run 9", ["y"] => "error name 1\n";
    TWO, "run 9", ["x", "y"] => "error name 2\n";
    TWO, "run 9", ["x", "x"] => "error name 2\n";
    TWO, "run 9", ["X"] => "error name 1\n";
    TWO, "run 9", ["a"] => "error name 1\n";
    TWO, "run 9", ["tty"] => "error name 1\n";
    TWO, "run 9", [""] => "error name 1\n";
    TWO, "run 9", ["x ", "x"] => "error name 1\n";
    PARTS, "run 9", ["n", "r"] => "error name 2\n";
    PARTS, "run 9", ["r.w", "v", "r.w", "y"] => "error name 3\n";
    PARTS, "run 9", ["v(2)"] => "error name 1\n";
    WIDE, "run 9", ["v", "w"] => "error name 2\n";
    WIDE, "run 9", ["w", "v"] => "error name 2\n";
    WIDE, "run 9", ["u"] => "error name 1\n";
    WIDE, "run 9", ["v", "v", "w"] => "error name 2\n";
];

// Lines of journals that are refused.
static LINES: [Row; 6] = rows![
    TWO, "run 1\nturn b\nrun 5\nrun x\nrun 9", ["x"]
        => "0 0 value x 0 0\n4 0 value x 0 1\nerror journal 4 1\n";
    TWO, "turn c", ["x"] => "0 0 value x 0 0\nerror journal 1 2\n";
    TWO, "# x\n\nstate 1", ["x"] => "0 0 value x 0 0\nerror journal 3 1\n";
    KINDS, "run 9\ntick 1099511627777\nrun 9", ["f"]
        => "0 0 value f 0 0\n1 0 value f 0 9000000000000000000\nerror journal 2 3\n";
    COUNT, "run 9\npass 3000 9\nirpt 4", ["n"]
        => "0 0 value n 0 0\n3 0 value n 0 1\n2008 2000 value n 0 2\nerror journal 3 2\n";
    TWO, "run 9\nclock 1:00:00", ["x"]
        => "0 0 value x 0 0\n2 0 value x 0 1\n7 0 value x 0 2\nerror journal 2 1\n";
];

// How the monitor of these words over the object of a source and over a journal ends.
fn watched(
    alloc: Global,
    source: &str,
    journal: &str,
    words: &[&str],
) -> Result<Ended, AllocError> {
    let made = end_of(alloc, COMPILE, source.as_bytes(), "", ROOM)?;
    end_of(alloc, words, made.bytes.as_slice(), journal, ROOM)
}

fn is_watched_so(alloc: Global, status: Status, row: &Row) -> Result<bool, AllocError> {
    let (part, journal, names, text) = row;
    let source = format!(in alloc; "{HEAD}{part}{TAIL}")?;
    let mut words = Vec::from_slice(alloc, &["watch", "s", "j"])?;
    words.extend_from_slice(names)?;
    let ended = watched(alloc, source.as_str(), journal, words.as_slice())?;
    Ok(ended.is(status, text.as_bytes()))
}

fn first_other(alloc: Global, status: Status, rows: &[Row]) -> Result<Option<usize>, AllocError> {
    for (number, row) in rows.iter().enumerate() {
        if !is_watched_so(alloc, status, row)? {
            return Ok(Some(number));
        }
    }
    Ok(None)
}

// Values are told mark by mark; names are refused; a refused line stands in place of the last.
#[test]
fn objects_are_watched_as_their_rows_say(rt: HostRuntime) -> Result<(), Fail> {
    for (name, status, rows) in [
        ("values", Status::Done, VALUES.as_slice()),
        ("names", Status::BadName, NAMES.as_slice()),
        ("lines", Status::BadJournal, LINES.as_slice()),
    ] {
        if let Some(number) = first_other(rt.alloc(), status, rows)? {
            assert!(rt; false, "row {number} of {name}");
        }
    }
    Ok(())
}

// Rows of an object's bytes, the names that are watched, how the monitor ends, and what is written.
macro_rules! objects {
    ($($bytes:expr, [$($name:literal),*] => $status:ident $told:literal;)*) => {
        [$(End {
            words: &["watch", "s", "j", $($name),*],
            bytes: $bytes,
            journal: "run 9",
            status: Status::$status,
            text: $told,
        }),*]
    };
}

// The object of `DCL x FIXED INIT(1),y FIXED INIT(2); t: TASK MAIN; y := x + 4; END;`, where the second leaf too is
// named x.
const ALIKE: &[u8] = &[
    0x50, 0x52, 0x4c, 0x31, 0, 0, 2, 1, 0x78, 0, 0x1f, 1, 1, 0, 0x1f, 2, 1, 0x78, 0, 0x1f, 1, 1, 0,
    0x1f, 4, 0, 0, 1, 1, 0x74, 0xff, 1, 1, 0, 2, 5, 9, 0, 0, 0, 0x1f, 8, 0x28, 0x0a, 1, 0x19, 0,
];

// The same, where its name is empty.
const UNNAMED: &[u8] = &[
    0x50, 0x52, 0x4c, 0x31, 0, 0, 2, 1, 0x78, 0, 0x1f, 1, 1, 0, 0x1f, 2, 0, 0, 0x1f, 1, 1, 0, 0x1f,
    4, 0, 0, 1, 1, 0x74, 0xff, 1, 1, 0, 2, 5, 9, 0, 0, 0, 0x1f, 8, 0x28, 0x0a, 1, 0x19, 0,
];

/// An object is refused before a name, and a name before a line of the journal. A name means the first leaf that has it.
pub static OBJECTS: [End; 8] = objects![
    ALIKE, ["x"] => Done b"0 0 value x 0 1\n3 0 close\n";
    ALIKE, ["y"] => BadName b"error name 1\n";
    UNNAMED, ["", "x"] => Done b"0 0 value  0 2\n0 0 value x 0 1\n2 0 value  0 5\n3 0 close\n";
    &EMPTY, ["x"] => BadName b"error name 1\n";
    &JUMP, ["x"] => BadObject b"error object routine 0 instruction 1 V6\n";
    &[], ["x"] => BadObject b"error object 0\n";
    &[0x50, 0x52, 0x4c, 0x31], ["x"] => BadObject b"error object 4\n";
    &[0x50, 0x52, 0x4c, 0x32], ["x"] => BadObject b"error object 0\n";
];

// Words, a source, how their monitor ends over a journal of one line, and what is written.
struct Many {
    words: Parts,
    source: Parts,
    status: Status,
    text: Parts,
}

// There are 64 names and 1,024 slots at most.
static MOST: [Many; 4] = [
    Many {
        words: &[("watch s j", 1), (" v@", 64)],
        source: &[
            ("MODULE;PROBLEM;DCL ", 1),
            ("v@ FIXED,", 65),
            ("w FIXED;t:TASK MAIN;v64:=3;END;MODEND", 1),
        ],
        status: Status::Done,
        text: &[
            ("0 0 value v@ 0 0\n", 64),
            ("1 0 value v64 0 3\n2 0 close\n", 1),
        ],
    },
    Many {
        words: &[("watch s j", 1), (" v@", 65)],
        source: &[("MODULE;PROBLEM;DCL v1 FIXED;MODEND", 1)],
        status: Status::Usage,
        text: &[("error usage\n", 1)],
    },
    Many {
        words: &[("watch s j v", 1)],
        source: &[(
            "MODULE;PROBLEM;DCL v(1024) FIXED;t:TASK MAIN;v(1024):=3;v(7):=0;v(1):=4;END;MODEND",
            1,
        )],
        status: Status::Done,
        text: &[
            ("0 0 value v & 0\n", 1024),
            ("1 0 value v 1023 3\n3 0 value v 0 4\n4 0 close\n", 1),
        ],
    },
    Many {
        words: &[("watch s j v w", 1)],
        source: &[(
            "MODULE;PROBLEM;DCL v(1023) BIT,w BIT;t:TASK MAIN;w:='1'B;END;MODEND",
            1,
        )],
        status: Status::Done,
        text: &[
            ("0 0 value v & '0'B\n", 1023),
            ("0 0 value w 0 '0'B\n1 0 value w 0 '1'B\n2 0 close\n", 1),
        ],
    },
];

fn many_end_so(alloc: Global, many: &Many) -> Result<bool, AllocError> {
    let words = joined(alloc, many.words)?;
    let mut owned = Vec::new(alloc);
    for word in words.as_str().split(' ') {
        owned.push(word)?;
    }
    let source = joined(alloc, many.source)?;
    let text = joined(alloc, many.text)?;
    let ended = watched(alloc, source.as_str(), "run 9", owned.as_slice())?;
    Ok(ended.is(many.status, text.as_bytes()))
}

#[test]
fn there_are_64_names_and_1024_slots(rt: HostRuntime) -> Result<(), Fail> {
    for (number, many) in MOST.iter().enumerate() {
        assert!(rt; many_end_so(rt.alloc(), many)?, "row {number}");
    }
    Ok(())
}

// A line that doesn't end within the limit isn't carried out.
fn longest_ends_so(alloc: Global) -> Result<bool, AllocError> {
    let source = format!(in alloc; "{HEAD}{TWO}{TAIL}")?;
    let object = end_of(alloc, COMPILE, source.as_bytes(), "", ROOM)?.bytes;
    let comment = joined(alloc, &[("#", 1), ("x", 1022), ("\n", 1)])?;
    let mut journal = comment.as_str().repeat(alloc, 65_535)?;
    journal.push_str(joined(alloc, &[(" ", 1018), ("run 9\n", 2)])?.as_str())?;
    let ended = failed(alloc, WATCH, object.as_slice(), journal.as_str(), &[], &[])?;
    let text = "0 0 value x 0 0\n2 0 value x 0 1\n7 0 value x 0 2\nerror too long 67108865\n";
    Ok(ended.is(Status::TooLong, text.as_bytes()))
}

#[test]
fn a_monitor_reads_at_most_67108864_bytes(rt: HostRuntime) -> Result<(), Fail> {
    assert!(rt; longest_ends_so(rt.alloc())?);
    Ok(())
}

// Runs at the edges of what the language and its journal allow, and one step past them.

use crate::case::{COMPILE, EXEC, Long, RUN, end_of, long_ends_so};
use crate::check::PLANT;
use crate::mark::joined;
use crate::run::FIRST;
use crate::whole::{HEAD, TAIL};
use pearl_top::status::Status;
use std::alloc::{AllocError, Global};
use std::test::Fail;

// Parts of a source, parts of a journal, and the transcript or the refusal.
macro_rules! edges {
    ($($source:tt, $journal:tt => $status:ident $text:tt;)*) => {
        [$(Long {
            words: RUN,
            source: &$source,
            journal: &$journal,
            room: 65_536,
            again: false,
            status: Status::$status,
            text: &$text,
        }),*]
    };
}

// As many bytes as an object here may have.
const OBJECT: usize = 4_194_304;

// How a transcript begins and ends whose task `main` comes to its end, or is broken off.
const BEGIN: &str = "0 start main 255\n0 out 1 '";

const END: &str = "'\n0 end main\n0 state main dormant\n0 close\n";

const INDEX: &str = "'\n0 trap main Index\n0 state main dormant\n0 close\n";

// The module has 65,536 slots: leaves of one structure, or elements of one leaf. Bounds and values go from -2^31 to
// 2^31 - 1.
static DATA: [Long; 10] = edges![
    [
        (HEAD, 1),
        ("DCL r STRUCT[", 1),
        ("f@ FIXED,", 65_535),
        (
            "f65536 FIXED];\nmain: TASK MAIN; r.f1 := 7; r.f65536 := r.f1 + 1; r.f32768 := 3; PUT r.f1, \
                r.f32768, r.f65536, r.f2 TO tty BY F(2), F(2), F(2), F(2); END;",
            1,
        ),
        (TAIL, 1),
    ], [("run 99", 1)] => Done [(BEGIN, 1), (" 7 3 8 0", 1), (END, 1)];
    [
        (HEAD, 1),
        ("DCL ^r STRUCT[", 1),
        ("f@ FIXED,", 65_536),
        ("g FIXED];\nmain: TASK MAIN; END;", 1),
        (TAIL, 1),
    ], [("run 99", 1)] => Refused [("error source ^ S34\n", 1)];
    [
        (HEAD, 1),
        (
            "DCL a(65536) FIXED; main: TASK MAIN; a(1) := 4; a(65536) := 5; PUT a(1), a(2), a(65536) TO tty BY \
                F(2), F(2), F(2); a(65537) := 1; END;",
            1,
        ),
        (TAIL, 1),
    ], [("run 99", 1)] => Done [(BEGIN, 1), (" 4 0 5", 1), (INDEX, 1)];
    [
        (HEAD, 1),
        (
            "DCL a(16, 64, 64) FIXED; main: TASK MAIN; a(16, 64, 64) := 9; a(1, 1, 1) := 8; PUT a(16, 64, 64), \
                a(16, 64, 63), a(1, 1, 1) TO tty BY F(2), F(2), F(2); a(16, 64, 65) := 1; END;",
            1,
        ),
        (TAIL, 1),
    ], [("run 99", 1)] => Done [(BEGIN, 1), (" 9 0 8", 1), (INDEX, 1)];
    [(HEAD, 1), ("DCL ^a(65537) FIXED; main: TASK MAIN; END;", 1), (TAIL, 1)], [("run 99", 1)]
        => Refused [("error source ^ S5\n", 1)];
    [
        (HEAD, 1),
        (
            "DCL a(-2147483648:-2147418113) FIXED; main: TASK MAIN; a(LWB a) := 4; a(-2147418113) := 5; PUT \
                a(-2147483648), a(UPB a), LWB a, UPB a TO tty BY F(2), F(2), F(12), F(12); a(-2147483649) := 1; END;",
            1,
        ),
        (TAIL, 1),
    ], [("run 99", 1)] => Done [(BEGIN, 1), (" 4 5 -2147483648 -2147418113", 1), (INDEX, 1)];
    [
        (HEAD, 1),
        (
            "DCL a(2147418112:2147483647) FIXED; main: TASK MAIN; a(UPB a) := 4; a(2147418112) := 5; PUT \
                a(2147483647), a(LWB a), LWB a, UPB a TO tty BY F(2), F(2), F(12), F(12); a(2147483648) := 1; END;",
            1,
        ),
        (TAIL, 1),
    ], [("run 99", 1)] => Done [(BEGIN, 1), (" 4 5  2147418112  2147483647", 1), (INDEX, 1)];
    [(HEAD, 1), ("DCL a(^2147483647:2147483648) FIXED; main: TASK MAIN; END;", 1), (TAIL, 1)], [("run 99", 1)]
        => Refused [("error source ^ S5\n", 1)];
    [(HEAD, 1), ("DCL a(^-2147483649:0) FIXED; main: TASK MAIN; END;", 1), (TAIL, 1)], [("run 99", 1)]
        => Refused [("error source ^ S5\n", 1)];
    [
        (HEAD, 1),
        (
            "DCL (l, h) FIXED INIT(-2147483648, 2147483647); main: TASK MAIN; PUT l, h, l + h TO tty BY F(12), \
                F(12), F(3); l := l - 1; END;",
            1,
        ),
        (TAIL, 1),
    ], [("run 99", 1)]
        => Done [
            (BEGIN, 1),
            (" -2147483648  2147483647 -1'\n0 trap main Overflow\n0 state main dormant\n0 close\n", 1),
        ];
];

// There are 99 devices of each sort, 200 tasks, each of which calls 200 procedures deep, and 1,000 semaphores. A task
// weighs 4,096. A REQUEST or RELEASE has 16 semaphores, of which none is raised where one can't be.
static COUNTS: [Long; 9] = edges![
    [
        ("MODULE; SYSTEM;\n", 1),
        ("q@: INTERRUPT(@); t@: TERMINAL(@); i@: INPUT(@); o@: OUTPUT(@);\n", 99),
        ("PROBLEM;\n", 1),
        (
            "SPC q@ INTERRUPT, t@ DATION INOUT ALPHIC, i@ DATION IN BASIC FIXED(15), o@ DATION OUT BASIC FIXED(15);\n",
            99,
        ),
        ("a: TASK MAIN; DCL n FIXED; WHEN q99 ACTIVATE b;\n", 1),
        ("TAKE n FROM i@; SEND n TO o@; GET n FROM t@ BY F(3); PUT n TO t@ BY F(3); ENABLE q@;\n", 99),
        ("END; b: TASK; END;", 1),
        (TAIL, 1),
    ], [("value @ ~\n", 99), ("chars @ '$'\n", 99), ("run 900\n", 1), ("irpt @\n", 99), ("run 9\n", 1)]
        => Done [
            ("0 start a 255\n", 1),
            ("0 send @ ~\n0 out @ '$'\n", 99),
            ("0 end a\n0 start b 255\n0 end b\n0 state a dormant\n0 state b dormant\n0 close\n", 1),
        ];
    [
        (HEAD, 1),
        ("p0: PROC RETURNS(FIXED); RETURN(1); END;\n", 1),
        ("p@: PROC RETURNS(FIXED); RETURN(p& + 1); END;\n", 199),
        ("t@: TASK PRIO ~ MAIN; PUT p199, @ TO tty BY F(3), F(3); END;\n", 200),
        (TAIL, 1),
    ], [("run 99999\n", 1)]
        => Done [
            ("0 start t@ ~\n", 200),
            ("0 out 1 '200$'\n0 end t~\n", 200),
            ("0 state t@ dormant\n", 200),
            ("0 close\n", 1),
        ];
    [(HEAD, 1), ("p@: PROC; END;\n", 200), ("^q: PROC; END;", 1), (TAIL, 1)], [("run 99", 1)]
        => Refused [("error source ^ S34\n", 1)];
    [
        (HEAD, 1),
        ("main: TASK MAIN; DCL u(4092) FIXED; u(4092) := 7; PUT u(4092) TO tty BY F(2); END;", 1),
        (TAIL, 1),
    ], [("run 99", 1)] => Done [(BEGIN, 1), (" 7", 1), (END, 1)];
    [
        (HEAD, 1),
        ("^main: TASK MAIN; DCL u(4093) FIXED; u(4092) := 7; PUT u(4092) TO tty BY F(2); END;", 1),
        (TAIL, 1),
    ], [("run 99", 1)] => Refused [("error source ^ S34\n", 1)];
    [
        (HEAD, 1),
        ("DCL s@ SEMA PRESET(&);\n", 1000),
        ("a: TASK PRIO 1 MAIN;\n", 1),
        ("REQUEST s@;\n", 1000),
        (
            "PUT TRY s2, TRY s3, TRY s1000 TO tty BY B, B, B; END;\nb: TASK PRIO 2 MAIN; RELEASE s1; END;",
            1,
        ),
        (TAIL, 1),
    ], [("run 2000", 1)]
        => Done [
            ("0 start a 1\n0 start b 2\n0 out 1 '011'\n0 end a\n0 end b\n", 1),
            ("0 state a dormant\n0 state b dormant\n0 close\n", 1),
        ];
    [(HEAD, 1), ("DCL s@ SEMA;\n", 1000), ("DCL ^s SEMA; main: TASK MAIN; END;", 1), (TAIL, 1)], [("run 99", 1)]
        => Refused [("error source ^ S34\n", 1)];
    [
        (HEAD, 1),
        ("DCL (", 1),
        ("s@, ", 15),
        ("s16) SEMA PRESET(", 1),
        ("0, ", 15),
        ("2147483646);\na: TASK PRIO 1 MAIN; RELEASE ", 1),
        ("s@, ", 15),
        ("s16; REQUEST ", 1),
        ("s@, ", 15),
        ("s16; RELEASE s16; RELEASE ", 1),
        ("s@, ", 15),
        (
            "s16; END;\nb: TASK PRIO 2 MAIN; PUT TRY s1, TRY s15, TRY s16 TO tty BY B, B, B; END;",
            1,
        ),
        (TAIL, 1),
    ], [("run 99", 1)]
        => Done [
            ("0 start a 1\n0 start b 2\n0 trap a SemaLimit\n0 out 1 '001'\n0 end b\n", 1),
            ("0 state a dormant\n0 state b dormant\n0 close\n", 1),
        ];
    [
        (HEAD, 1),
        ("DCL s@ SEMA;\n", 17),
        ("main: TASK MAIN; RELEASE ", 1),
        ("s@, ", 16),
        ("^s17; END;", 1),
        (TAIL, 1),
    ], [("run 99", 1)] => Refused [("error source ^ S31\n", 1)];
];

// A PUT or GET has 64 data items, and widths of 1,024 together. There are more than 1,000 formats.
static TRANSFERS: [Long; 7] = edges![
    [
        (HEAD, 1),
        ("DCL v(64) FIXED; main: TASK MAIN; FOR k TO 64 REPEAT v(k) := 65 - k; END; PUT ", 1),
        ("v(@), ", 63),
        ("v(64) TO tty BY ", 1),
        ("F(15), ", 64),
        ("X(64); END;", 1),
        (TAIL, 1),
    ], [("run 999", 1)]
        => Done [
            (BEGIN, 1),
            ("            $", 64),
            (" ", 64),
            (END, 1),
        ];
    [
        (HEAD, 1),
        ("main: TASK MAIN; ^PUT ", 1),
        ("@, ", 64),
        ("65 TO tty BY ", 1),
        ("F(3), ", 64),
        ("F(3); END;", 1),
        (TAIL, 1),
    ], [("run 99", 1)] => Refused [("error source ^ S33\n", 1)];
    [
        (HEAD, 1),
        ("DCL v(64) FIXED; main: TASK MAIN; GET ", 1),
        ("v(@), ", 63),
        ("v(64) FROM tty BY ", 1),
        ("F(16), ", 63),
        (
            "F(16); PUT v(1), v(32), v(33), v(64) TO tty BY F(3), F(3), F(3), F(3); END;",
            1,
        ),
        (TAIL, 1),
    ],
        [
            ("chars 1 '              12'\n", 32),
            ("run 9\n", 1),
            ("chars 1 '             -34'\n", 32),
            ("run 999", 1),
        ]
        => Done [(BEGIN, 1), (" 12 12-34-34", 1), (END, 1)];
    [
        (HEAD, 1),
        (
            "main: TASK MAIN; PUT 1, 2, 3, 4 TO tty BY F(255), F(255), F(255), F(255), X(4); END;",
            1,
        ),
        (TAIL, 1),
    ], [("run 99", 1)]
        => Done [
            (BEGIN, 1),
            (" ", 254),
            ("1", 1),
            (" ", 254),
            ("2", 1),
            (" ", 254),
            ("3", 1),
            (" ", 254),
            ("4    ", 1),
            (END, 1),
        ];
    [
        (HEAD, 1),
        (
            "main: TASK MAIN; ^PUT 1, 2, 3, 4 TO tty BY F(255), F(255), F(255), F(255), X(5); END;",
            1,
        ),
        (TAIL, 1),
    ], [("run 99", 1)] => Refused [("error source ^ S33\n", 1)];
    [
        (HEAD, 1),
        (
            "DCL c CHAR(255) INIT('a'); main: TASK MAIN; PUT c, c, c, c TO tty BY A, A, A, A, X(3), SKIP; END;",
            1,
        ),
        (TAIL, 1),
    ], [("run 99", 1)]
        => Done [
            (BEGIN, 1),
            ("a", 1),
            (" ", 254),
            ("a", 1),
            (" ", 254),
            ("a", 1),
            (" ", 254),
            ("a", 1),
            (" ", 257),
            ("\\n", 1),
            (END, 1),
        ];
    [
        (HEAD, 1),
        ("main: TASK MAIN;\n", 1),
        ("PUT ~ TO tty BY F(3);\n", 999),
        ("PUT ~ TO tty BY F(3), X;\n", 501),
        ("END;", 1),
        (TAIL, 1),
    ], [("run 9999", 1)]
        => Done [
            ("0 start main 255\n", 1),
            ("0 out 1 '$'\n", 999),
            ("0 out 1 '$ '\n", 501),
            ("0 end main\n0 state main dormant\n0 close\n", 1),
        ];
];

// A leaf's name has 1,024 bytes. 32 brackets stand one within another, 8 operators with one operand before each, and 100
// with two in each and behind all. A comment of a journal has 1,024 bytes. An input holds 256 values.
static LENGTHS: [Long; 8] = edges![
    [
        (HEAD, 1),
        ("TYPE t0 STRUCT[g FIXED];\n", 1),
        (
            "TYPE t@ STRUCT[\
                fffffffffffffffffffffffffffffffffffffffffffffffffffffffffffffff t&];\n",
            15,
        ),
        (
            "DCL vvvvvvvvvvvvvvvvvvvvvvvvvvvvvvvvvvvvvvvvvvvvvvvvvvvvvvvvvvvvvv t15;\n\
                main: TASK MAIN; vvvvvvvvvvvvvvvvvvvvvvvvvvvvvvvvvvvvvvvvvvvvvvvvvvvvvvvvvvvvvv",
            1,
        ),
        (".fffffffffffffffffffffffffffffffffffffffffffffffffffffffffffffff", 15),
        (".g := 7; PUT vvvvvvvvvvvvvvvvvvvvvvvvvvvvvvvvvvvvvvvvvvvvvvvvvvvvvvvvvvvvvv", 1),
        (".fffffffffffffffffffffffffffffffffffffffffffffffffffffffffffffff", 15),
        (".g TO tty BY F(2); END;", 1),
        (TAIL, 1),
    ], [("run 99", 1)] => Done [(BEGIN, 1), (" 7", 1), (END, 1)];
    [
        (HEAD, 1),
        ("TYPE t0 STRUCT[g FIXED];\n", 1),
        (
            "TYPE t@ STRUCT[\
                fffffffffffffffffffffffffffffffffffffffffffffffffffffffffffffff t&];\n",
            15,
        ),
        (
            "DCL ^vvvvvvvvvvvvvvvvvvvvvvvvvvvvvvvvvvvvvvvvvvvvvvvvvvvvvvvvvvvvvvv t15; main: TASK MAIN; END;",
            1,
        ),
        (TAIL, 1),
    ], [("run 99", 1)] => Refused [("error source ^ S34\n", 1)];
    [
        (HEAD, 1),
        ("main: TASK MAIN; PUT ", 1),
        ("--------(", 32),
        ("--------1", 1),
        (
            "+1+1+1+1+1+1+1+1+1+1+1+1+1+1+1+1+1+1+1+1+1+1+1+1+1+1+1+1+1+1+1+1+1+1+1+1+1+1+1+1+1+1+1+1+1+1+1+1+1+1\
                +1+1+1+1+1+1+1+1+1+1+1+1+1+1+1+1+1+1+1+1+1+1+1+1+1+1+1+1+1+1+1+1+1+1+1+1+1+1+1+1+1+1+1+1+1+1+1+1+1+1)",
            32,
        ),
        ("+1", 100),
        (" TO tty BY F(5); END;", 1),
        (TAIL, 1),
    ], [("run 99", 1)] => Done [(BEGIN, 1), (" 3301", 1), (END, 1)];
    [(FIRST, 1)], [("#", 1), ("x", 1023), ("\nrun 99\n", 1)] => Done [(BEGIN, 1), ("   17\\n", 1), (END, 1)];
    [(FIRST, 1)], [("#", 1), ("x", 1024), ("\nrun 99\n", 1)]
        => BadJournal [("0 start main 255\nerror journal 1 1\n", 1)];
    [(PLANT, 1)], [("value 2 1\n", 257)]
        => Done [
            ("0 start init 1\n0 lost input 2\n0 state init running 1\n0 state sampler dormant\n", 1),
            ("0 state shut dormant\n0 state logger dormant\n0 state operator dormant\n0 close\n", 1),
        ];
    [(PLANT, 1)], [("value 2 40000\n", 1)] => BadJournal [("0 start init 1\nerror journal 1 4\n", 1)];
    [(PLANT, 1)], [("value 3 1\n", 1)] => BadJournal [("0 start init 1\nerror journal 1 2\n", 1)];
];

// Statements stand 32 deep. EXIT leaves the innermost loop, whatever stands around it and behind it, and what is chosen by
// CASE goes on behind it. There are 200 tasks. A GET has 64 data items and widths of 1,024 together, a REQUEST 16
// semaphores.
static NESTED: [Long; 8] = edges![
    [
        (HEAD, 1),
        ("DCL n FIXED; main: TASK MAIN; ", 1),
        ("REPEAT n := n + 1; ", 32),
        ("EXIT; n := 99; END; n := n + 1; ", 31),
        ("EXIT; END; PUT n TO tty BY F(3); END;", 1),
        (TAIL, 1),
    ], [("run 9999", 1)] => Done [(BEGIN, 1), (" 63", 1), (END, 1)];
    [
        (HEAD, 1),
        ("DCL n FIXED; main: TASK MAIN; ", 1),
        ("REPEAT ", 32),
        ("^REPEAT EXIT; END; ", 1),
        ("END; ", 32),
        ("END;", 1),
        (TAIL, 1),
    ], [("run 99", 1)] => Refused [("error syntax ^\n", 1)];
    [
        (HEAD, 1),
        ("DCL n FIXED; main: TASK MAIN; ", 1),
        ("CASE 2 ALT n := 99; ALT ", 32),
        ("n := n + 1; ALT n := 99; OUT n := 99; FIN; ", 32),
        ("PUT n TO tty BY F(3); END;", 1),
        (TAIL, 1),
    ], [("run 9999", 1)] => Done [(BEGIN, 1), (" 32", 1), (END, 1)];
    [
        (HEAD, 1),
        ("DCL n FIXED; main: TASK MAIN; ", 1),
        ("FOR i TO 3 WHILE i < 3 REPEAT CASE i ALT n := n + 1; ALT ", 16),
        ("n := n + 1; EXIT; OUT n := 99; FIN; END; ", 16),
        ("PUT n TO tty BY F(3); END;", 1),
        (TAIL, 1),
    ], [("run 9999", 1)] => Done [(BEGIN, 1), (" 32", 1), (END, 1)];
    [(HEAD, 1), ("t@: TASK; END;\n", 200), ("^u: TASK; END;", 1), (TAIL, 1)], [("run 99", 1)]
        => Refused [("error source ^ S34\n", 1)];
    [
        (HEAD, 1),
        ("DCL v(65) FIXED; main: TASK MAIN; ^GET ", 1),
        ("v(@), ", 64),
        ("v(65) FROM tty BY ", 1),
        ("F(3), ", 64),
        ("F(3); END;", 1),
        (TAIL, 1),
    ], [("run 99", 1)] => Refused [("error source ^ S33\n", 1)];
    [
        (HEAD, 1),
        ("DCL v FIXED; main: TASK MAIN; ^GET v, v, v, v FROM tty BY ", 1),
        ("F(255), ", 4),
        ("X(5); END;", 1),
        (TAIL, 1),
    ], [("run 99", 1)] => Refused [("error source ^ S33\n", 1)];
    [
        (HEAD, 1),
        ("DCL s@ SEMA;\n", 17),
        ("main: TASK MAIN; REQUEST ", 1),
        ("s@, ", 16),
        ("^s17; END;", 1),
        (TAIL, 1),
    ], [("run 99", 1)] => Refused [("error source ^ S31\n", 1)];
];

// Whether the case ends so where its source is compiled, and the object is executed over its journal.
fn executes_so(alloc: Global, long: &Long) -> Result<bool, AllocError> {
    if long.status == Status::Refused {
        return Ok(true);
    }
    let source = joined(alloc, long.source)?;
    let journal = joined(alloc, long.journal)?;
    let text = joined(alloc, long.text)?;
    let made = end_of(alloc, COMPILE, source.as_str().as_bytes(), "", OBJECT)?;
    let run = end_of(
        alloc,
        EXEC,
        made.bytes.as_slice(),
        journal.as_str(),
        long.room,
    )?;
    Ok(made.status == Status::Done && run.is(long.status, text.as_bytes()))
}

// The number of the first of these cases that ends otherwise.
fn first_other(alloc: Global, edges: &[Long]) -> Result<Option<usize>, AllocError> {
    for (number, long) in edges.iter().enumerate() {
        if !long_ends_so(alloc, long)? || !executes_so(alloc, long)? {
            return Ok(Some(number));
        }
    }
    Ok(None)
}

#[test]
fn sources_keep_their_limits(rt: HostRuntime) -> Result<(), Fail> {
    for (name, edges) in [
        ("data", DATA.as_slice()),
        ("counts", COUNTS.as_slice()),
        ("transfers", TRANSFERS.as_slice()),
        ("lengths", LENGTHS.as_slice()),
    ] {
        if let Some(number) = first_other(rt.alloc(), edges)? {
            assert!(rt; false, "row {number} of {name}");
        }
    }
    Ok(())
}

#[test]
fn statements_keep_their_limits(rt: HostRuntime) -> Result<(), Fail> {
    if let Some(number) = first_other(rt.alloc(), &NESTED)? {
        assert!(rt; false, "row {number}");
    }
    Ok(())
}

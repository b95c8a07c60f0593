// What `run` writes.

use crate::case::{Fault, Long, RUN, Table};
use crate::typed;
use crate::whole::{BEGIN, END, HEAD, TAIL};
use pearl_top::status::Status;

// A module with this between its head and MODEND.
macro_rules! module {
    ($body:literal) => {
        concat!(
            "MODULE(m); SYSTEM; tty: TERMINAL(1); irq: INTERRUPT(3);\n\
            PROBLEM; SPC tty DATION INOUT ALPHIC, irq INTERRUPT;\n",
            $body,
            "\nMODEND;\n"
        )
    };
}

/// A task that writes a text of five characters.
pub const FIRST: &str = module!("main: TASK MAIN; PUT 17 TO tty BY F(5), SKIP; END;");

// The number is longer than its width.
const NARROW: &str = module!("main: TASK MAIN; PUT 1000 TO tty BY F(3); END;");

// The transcript of the first task over `run 10`.
const WHOLE: &str =
    "0 start main 255\n0 out 1 '   17\\n'\n0 end main\n0 state main dormant\n0 close\n";

/// Declarations and a task with a journal, and the transcript between the start of the task and the close.
pub static VARIABLES: Table = Table {
    words: RUN,
    around: (HEAD, TAIL),
    again: false,
    status: Status::Done,
    about: (BEGIN, END),
    rows: runs![
        "DCL inflow FIXED;\nDCL level FIXED;\nmain: TASK MAIN;\n  inflow := 40;\n  \
            level := level + inflow - 3;\n  PUT level TO tty BY F(5), SKIP;\n  \
            level := 2147483647 + level;\nEND;", "run 6\nrun 10\n"
            => "0 out 1 '   37\\n'\n0 trap main Overflow\n0 state main dormant\n";
        "DCL x FIXED; main: TASK MAIN; x := 2147483647 + 1; END;", "run 10"
            => "0 trap main Overflow\n0 state main dormant\n";
        "DCL x FIXED; DCL y FIXED; main: TASK MAIN; x := y; PUT x TO tty BY F(3); END;", "run 10"
            => "0 out 1 '  0'\n0 end main\n0 state main dormant\n";
        "DCL x FIXED; main: TASK MAIN; x := 10 - 2 - 3; PUT x + 1 TO tty BY F(3), SKIP; END;",
            "run 10"
            => "0 out 1 '  6\\n'\n0 end main\n0 state main dormant\n";
        "DCL x FIXED; main: TASK MAIN; x := 7; x := 3000000000; END;", "run 10"
            => "0 trap main Overflow\n0 state main dormant\n";
        "DCL x FIXED; main: TASK MAIN; PUT x - 3000000000 TO tty BY F(11); END;", "run 10"
            => "0 out 1 '-3000000000'\n0 end main\n0 state main dormant\n";
        "DCL x FIXED; main: TASK MAIN; x := x + x; END;", "run 3"
            => "0 state main running 255\n";
        "DCL x FIXED; main: TASK MAIN; x := x + x; END;", "run 3\nrun 1"
            => "0 end main\n0 state main dormant\n";
        "DCL x FIXED; main: TASK MAIN; x := 5; PUT x TO tty BY F(1); \
            x := 0 - x; PUT x TO tty BY F(1); END;", "run 100"
            => "0 out 1 '5'\n0 trap main Format\n0 state main dormant\n";
    ],
};

// Refusals of a run.
macro_rules! refusals {
    ($($body:literal => $line:literal;)*) => { &[$(($body, "run 10", $line)),*] };
}

/// Declarations and a task with a mark before the place that is told, and the line.
pub static REFUSED: Table = Table {
    words: RUN,
    around: (HEAD, TAIL),
    again: false,
    status: Status::Refused,
    about: ("", ""),
    rows: refusals![
        "DCL x FIXED; DCL ^x FIXED; main: TASK MAIN; END;" => "error source ^ S1\n";
        "DCL x FIXED; ^x: TASK MAIN; END;" => "error source ^ S1\n";
        "DCL x FIXED; main: TASK MAIN; x := x + ^y; END;" => "error source ^ S2\n";
        "DCL x FIXED; main: TASK MAIN; x := ^irq; END;" => "error source ^ S16\n";
        "DCL x FIXED; main: TASK MAIN; ^main := x; END;" => "error source ^ S16\n";
        "main: TASK MAIN; PUT 17 TO ^irq BY F(5), SKIP; END;" => "error source ^ S16\n";
        "main: TASK MAIN; PUT 17 TO tty BY ^F(256), SKIP; END;" => "error source ^ S33\n";
        "main: TASK MAIN; ^PUT 17 TO tty BY F(1024), SKIP; END;" => "error source ^ S33\n";
        "DCL x FIXED; main: TASK MAIN; x := 1 + ^; END;" => "error syntax ^\n";
        "main: TASK MAIN; PUT ^9223372036854775808 TO tty BY F(5); END;" => "error syntax ^\n";
    ],
};

// Words, a source and a journal, where each call moves so many bytes at most, and how that ends.
macro_rules! commands {
    ($most:expr; $([$($name:literal)*] $source:expr, $journal:literal => $status:ident $text:expr;)*) => {
        [$(Fault {
            words: &[$($name),*],
            source: $source,
            journal: $journal,
            fetches: &[],
            puts: &[],
            most: $most,
            status: Status::$status,
            text: $text,
        }),*]
    };
}

// Commands of which all calls move so many bytes at most.
macro_rules! by {
    ($most:expr) => {
        commands![
            $most;
            ["run" "s" "j"] FIRST, "run 10\n" => Done WHOLE;
            ["run" "s" "j"] FIRST, "run 0\nrun 1000000" => Done WHOLE;
            ["run" "s" "j"] FIRST, "run 9223372036854775807" => Done WHOLE;
            ["run" "s" "j"] FIRST, "" => Done "0 start main 255\n0 state main running 255\n0 close\n";
            ["run" "s" "j"] NARROW, "run 10\n"
                => Done "0 start main 255\n0 trap main Format\n0 state main dormant\n0 close\n";
            ["run" "s" "j"] FIRST, "run 1\n\nrun x"
                => BadJournal "0 start main 255\n0 out 1 '   17\\n'\nerror journal 3 1\n";
            ["run" "s" "j"] FIRST, "run 9223372036854775808\n"
                => BadJournal "0 start main 255\nerror journal 1 1\n";
            ["run" "s" "j"] "", "run 10\n" => Refused "error syntax 0\n";
            ["run" "s"] FIRST, "" => Usage "error usage\n";
            ["walk" "s" "j"] FIRST, "" => Usage "error usage\n";
            [] FIRST, "" => Usage "error usage\n";
        ]
    };
}

/// Status and transcript are due, whether each call moves all bytes that it can or one.
pub static COMMANDS: [[Fault; 11]; 2] = [by!(usize::MAX), by!(1)];

// A run of the first task where something outside fails.
macro_rules! faults {
    ($($fetches:tt $puts:tt => $status:ident $text:literal;)*) => {
        [$(Fault {
            words: RUN,
            source: FIRST,
            journal: "run 1\nrun 10",
            fetches: &$fetches,
            puts: &$puts,
            most: usize::MAX,
            status: Status::$status,
            text: $text,
        }),*]
    };
}

pub static FAULTS: [Fault; 6] = faults![
    [] [1] => WriteFault "";
    [] [2] => WriteFault "0 start main 255\n";
    [1] [] => ReadFault "error read\n";
    [2] [] => ReadFault "error read\n";
    [2] [1] => WriteFault "";
    [4] [] => ReadFault "0 start main 255\n0 out 1 '   17\\n'\nerror read\n";
];

// Runs with as much room as this.
macro_rules! longs {
    ($($source:tt, $journal:tt in $room:literal => $status:ident $text:tt;)*) => {
        [$(Long {
            words: RUN,
            source: &$source,
            journal: &$journal,
            room: $room,
            again: false,
            status: Status::$status,
            text: &$text,
        }),*]
    };
}

// 255 letters that come in.
const LETTERS: &str = "chars 1 '\
    xxxxxxxxxxxxxxxxxxxxxxxxxxxxxxxxxxxxxxxxxxxxxxxxxxxxxxxxxxxxxxxxxxxxxxxxxxxxxxxxxxxxx\
    xxxxxxxxxxxxxxxxxxxxxxxxxxxxxxxxxxxxxxxxxxxxxxxxxxxxxxxxxxxxxxxxxxxxxxxxxxxxxxxxxxxxx\
    xxxxxxxxxxxxxxxxxxxxxxxxxxxxxxxxxxxxxxxxxxxxxxxxxxxxxxxxxxxxxxxxxxxxxxxxxxxxxxxxxxxxx'\n";

/// A room is filled and no more, and a source has at most 1,048,576 bytes. 200 tasks start, a later one more urgent, each
/// of which writes its number, and calls stand 200 deep. A line of a journal has 1,024 bytes without its end. An input
/// holds 256 values; a terminal holds 4,096 bytes and drops whole texts.
pub static LONGS: [Long; 12] = longs![
    [(FIRST, 1)], [("run 10\n", 1)] in 4096 => Done [(WHOLE, 1)];
    [(FIRST, 1)], [("run 10\n", 1)] in 20 => WriteFault [("0 start main 255\n0 o", 1)];
    [(FIRST, 1), (" ", 1048408)], [("run 10\n", 1)] in 4096 => Done [(WHOLE, 1)];
    [(FIRST, 1), (" ", 1048409)], [("run 10\n", 1)] in 4096 => TooLong [("error too long 1048577\n", 1)];
    [(HEAD, 1), ("t@: TASK PRIO ~ MAIN; PUT @ TO tty BY F(3); END;\n", 200), ("MODEND;\n", 1)],
        [("run 1000\n", 1)] in 65536
        => Done [
            ("0 start t@ ~\n", 200),
            ("0 out 1 '$'\n0 end t~\n", 200),
            ("0 state t@ dormant\n", 200),
            ("0 close\n", 1),
        ];
    [
        (HEAD, 1),
        ("p0: PROC RETURNS(FIXED); RETURN(1); END;\n", 1),
        ("p@: PROC RETURNS(FIXED); RETURN(p& + 1); END;\n", 199),
        ("main: TASK MAIN; PUT p199 TO tty BY F(5); END;\nMODEND;\n", 1),
    ], [("run 300\n", 1)] in 4096
        => Done [("0 start main 255\n0 out 1 '  200'\n0 end main\n0 state main dormant\n0 close\n", 1)];
    [(HEAD, 1), ("a: TASK MAIN; END;\nMODEND;\n", 1)], [(" ", 1019), ("run 9", 1)] in 4096
        => Done [("0 start a 255\n0 end a\n0 state a dormant\n0 close\n", 1)];
    [(HEAD, 1), ("a: TASK MAIN; END;\nMODEND;\n", 1)], [(" ", 1019), ("run 9\r\n", 1)] in 4096
        => Done [("0 start a 255\n0 end a\n0 state a dormant\n0 close\n", 1)];
    [(HEAD, 1), ("a: TASK MAIN; END;\nMODEND;\n", 1)], [(" ", 1020), ("run 9", 1)] in 4096
        => BadJournal [("0 start a 255\nerror journal 1 1\n", 1)];
    [(HEAD, 1), ("a: TASK MAIN; END;\nMODEND;\n", 1)], [(" ", 1020), ("run 9\n", 1)] in 4096
        => BadJournal [("0 start a 255\nerror journal 1 1\n", 1)];
    [
        (typed::HEAD, 1),
        (
            "a: TASK MAIN; DCL n FIXED; AFTER 1 SEC RESUME; TAKE n FROM level; PUT n TO tty BY \
                F(4); END;",
            1,
        ),
        (TAIL, 1),
    ],
        [
            ("run 9\n", 1),
            ("value 1 @\n", 258),
            ("tick 1000\nrun 3\nvalue 1 8\nvalue 1 9\n", 1),
        ] in 4096
        => Done [(
            "0 start a 255\n0 lost input 1\n0 lost input 1\n1000 out 1 '   1'\n1000 end a\n\
                1000 lost input 1\n1000 state a dormant\n1000 close\n",
            1,
        )];
    [
        (typed::HEAD, 1),
        (
            "a: TASK MAIN; DCL s CHAR(6); TO 16 REPEAT GET FROM tty BY X(255); END;\nGET s FROM tty \
                BY X(10), A; PUT s TO tty BY A; END;",
            1,
        ),
        (TAIL, 1),
    ],
        [
            (LETTERS, 16),
            ("chars 1 'xxxxxxxxxx'\n", 1),
            ("chars 1 'abcdefg'\nchars 1 'abcdef'\nline 1 ''\nrun 99\nline 1 'abc'\nrun 9\n", 1),
        ] in 4096
        => Done [(
            "0 start a 255\n0 lost terminal 1\n0 lost terminal 1\n0 out 1 'abcdef'\n0 end a\n\
                0 state a dormant\n0 close\n",
            1,
        )];
];

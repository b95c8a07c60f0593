// What `check` writes.

use crate::case::{CHECK, Fault, Long, Parts, ROOM, Table};
use pearl_top::status::Status;

/// A plant with devices, a guarded variable and five tasks.
pub const PLANT: &str = "MODULE(plant);\n\
    SYSTEM;\n\
    alarm: INTERRUPT(4);  term: TERMINAL(1);\n\
    probe: INPUT(2);      valve: OUTPUT(7);\n\
    PROBLEM;\n\
    SPC alarm INTERRUPT;\n\
    SPC term DATION INOUT ALPHIC CONTROL(ALL);\n\
    SPC probe DATION IN BASIC FIXED(15), valve DATION OUT BASIC BIT(4);\n\
    DCL temp FIXED(15), limit FIXED(15) INIT(80), guard SEMA PRESET(1);\n\
    init: TASK PRIO 1 MAIN;\n\
    ENABLE alarm;\n\
    WHEN alarm ACTIVATE shut PRIO 2;\n\
    AFTER 1 SEC ALL 1 SEC UNTIL 12:00:03 ACTIVATE logger;\n\
    ACTIVATE sampler; ACTIVATE operator;\n\
    END;\n\
    sampler: TASK PRIO 10;\n\
    REPEAT\n\
    DCL v FIXED(15);\n\
    TAKE v FROM probe;\n\
    REQUEST guard; temp := v; RELEASE guard;\n\
    IF v > limit THEN TRIGGER alarm; FIN;\n\
    END;\n\
    END;\n\
    shut: TASK PRIO 3; SEND '0011'B TO valve; END;\n\
    logger: TASK PRIO 20; PUT NOW, temp TO term BY T(8), X, F(4), SKIP; END;\n\
    operator: TASK PRIO 30; REPEAT GET limit FROM term BY F(4), SKIP; END; END;\n\
    MODEND;\n";

/// Sources that break no rule, each with the line that tells its tasks, procedures and slots.
pub static ACCEPTED: Table = Table {
    words: CHECK,
    around: ("", ""),
    again: false,
    status: Status::Done,
    about: ("", ""),
    rows: table![
        "MODULE(m);PROBLEM;DCL c CHAR(3);t:TASK;c:='ab';END;MODEND;" => "accepted 1 0 1\n";
        PLANT => "accepted 5 0 2\n";
        "MODULE;PROBLEM;MODEND" => "accepted 0 0 0\n";
        "MODULE;PROBLEM;DCL (a,b)(3) FIXED;p:PROC(n FIXED);DCL u(4) FIXED;u(n):=1;END;\
            t:TASK;CALL p(a(2));END;s:TASK;DCL v BIT;v:='1'B;END;MODEND" => "accepted 2 1 6\n";
        "MODULE;PROBLEM;DCL r(2,3) STRUCT[x FIXED,y(4) BIT],s SEMA;MODEND" => "accepted 0 0 30\n";
        "MODULE;PROBLEM;DCL a(65535) FIXED,b CHAR(255);MODEND" => "accepted 0 0 65536\n";
        "MODULE;PROBLEM;p:PROC RETURNS(FIXED);RETURN(1);END;q:PROC;END;r:PROC;CALL q;END;MODEND"
            => "accepted 0 3 0\n";
    ],
};

/// Sources that are refused, each with a mark before the place that is told, and the line. The last one shows that places
/// are counted from 0.
pub static REFUSED: Table = Table {
    words: CHECK,
    around: ("", ""),
    again: false,
    status: Status::Refused,
    about: ("", ""),
    rows: table![
        "MODULE(m);PROBLEM;DCL c CHAR(3);t:TASK;^c:='abcde';END;MODEND;" => "error source ^ S24\n";
        "MODULE(m);PROBLEM;^p:PROC;CALL q;END;q:PROC;CALL p;END;MODEND;" => "error source ^ S28\n";
        "MODULE;PROBLEM;DCL a(65535) FIXED,b FIXED,^c FIXED;MODEND" => "error source ^ S34\n";
        "MODULE;PROBLEM;^t:TASK;DCL u(4096) FIXED;END;MODEND" => "error source ^ S34\n";
        "^" => "error syntax ^\n";
        "MODULE;PROBLEM;t:TASK;x:=^%;END;MODEND" => "error syntax ^\n";
        "MODULE;PROBLEM;t:TASK;a ^EQ 1;END;MODEND;" => "error syntax ^\n";
        "MODULE;PROBLEM;t:TASK;EXIT;END;MODEND;^x" => "error syntax ^\n";
        "MODULE;PROBLEM;t:TASK;^x:=1;EXIT;END;MODEND" => "error source ^ S2\n";
        "MODULE;PROBLEM;t:TASK;^EXIT;x:=1;END;MODEND" => "error source ^ S26\n";
        "MODULE;PROBLEM;t:TASK;^EXIT;END;p:PROC;CALL p;END;MODEND" => "error source ^ S26\n";
        "MODULE;PROBLEM;^p:PROC;CALL p;EXIT;END;MODEND" => "error source ^ S28\n";
        "MODULE;SYSTEM;k:TERMINAL(1);^k:TERMINAL(1);PROBLEM;DCL a FIXED(64);MODEND"
            => "error source ^ S10\n";
        "MODULE;SYSTEM;k:^TERMINAL(100);PROBLEM;DCL a FIXED(64);MODEND" => "error source ^ S11\n";
        "MODULE(m);PROBLEM;DCL c CHAR(3);t:TASK;c:='abcde';END;MODEND;" => "error source 39 S24\n";
    ],
};

/// Words that are no command.
pub static OTHER_WORDS: [&[&str]; 4] = [
    &["check"],
    &["check", "s", "j"],
    &["checks", "s"],
    &["CHECK", "s"],
];

// Checks of a source where something outside fails.
macro_rules! faults {
    ($($source:literal $fetches:tt $puts:tt $most:expr => $status:ident $text:literal;)*) => {
        [$(Fault {
            words: CHECK,
            source: $source,
            journal: "",
            fetches: &$fetches,
            puts: &$puts,
            most: $most,
            status: Status::$status,
            text: $text,
        }),*]
    };
}

pub static FAULTS: [Fault; 8] = faults![
    "MODULE;PROBLEM;MODEND" [] [] 1 => Done "accepted 0 0 0\n";
    "MODULE;PROBLEM;MODEND" [1] [] usize::MAX => ReadFault "error read\n";
    "MODULE;PROBLEM;MODEND" [9] [] 1 => ReadFault "error read\n";
    "MODULE;PROBLEM;MODEND" [] [1] usize::MAX => WriteFault "";
    "MODULE;PROBLEM;MODEND" [] [2] usize::MAX => Done "accepted 0 0 0\n";
    "MODULE;PROBLEM;MODEND" [] [4] 1 => WriteFault "acc";
    "MODULE;PROBLEM;MODEND" [1] [1] usize::MAX => WriteFault "";
    "MODULE;PROBLEM;t:TASK;EXIT;END;MODEND" [] [14] 1 => WriteFault "error source ";
];

// Checks of long sources.
macro_rules! longs {
    ($($source:tt => $status:ident $text:tt;)*) => {
        [$(Long {
            words: CHECK,
            source: &$source,
            journal: &[],
            room: ROOM,
            again: false,
            status: Status::$status,
            text: &$text,
        }),*]
    };
}

/// A source of nearly 1,048,576 bytes.
pub const FULL: Parts = &[
    ("MODULE;PROBLEM;DCL x FIXED;t:TASK;", 1),
    ("x:=1;", 209_700),
    ("END;MODEND", 1),
];

/// A source has at most 1,048,576 bytes and 200 tasks.
pub static LONGS: [Long; 4] = longs![
    [("MODULE;PROBLEM;t:TASK;END;MODEND", 1), (" ", 1_048_544)] => Done [("accepted 1 0 0\n", 1)];
    [("MODULE;PROBLEM;t:TASK;END;MODEND", 1), (" ", 1_048_545)] => TooLong [("error too long 1048577\n", 1)];
    [("MODULE;PROBLEM;", 1), ("t@:TASK;END;", 200), ("MODEND", 1)] => Done [("accepted 200 0 0\n", 1)];
    [("MODULE;PROBLEM;", 1), ("t@:TASK;END;", 200), ("^u:TASK;END;MODEND", 1)]
        => Refused [("error source ^ S34\n", 1)];
];

/// That source.
pub static LONGEST: [Long; 1] = longs![
    [("MODULE;PROBLEM;DCL x FIXED;t:TASK;", 1), ("x:=1;", 209_700), ("END;MODEND", 1)]
        => Done [("accepted 1 0 1\n", 1)];
];

// What `print` writes.

use crate::case::{Fault, Long, PRINT, Parts, ROOM, Table};
use pearl_top::status::Status;

// What stands before and behind the statements of a task.
const HEAD: &str = "MODULE(m);PROBLEM;t:TASK;";

const TAIL: &str = "END;MODEND;";

const PRINTED_HEAD: &str = "MODULE ( m ) ;\nPROBLEM ;\nt : TASK ;\n";

const PRINTED_TAIL: &str = "END ;\nMODEND ;\n";

/// Whole sources. The last but one is a valve, that of crates/pearl/data/valve.pearl.
pub static MODULES: Table = Table {
    words: PRINT,
    around: ("", ""),
    again: true,
    status: Status::Done,
    about: ("", ""),
    rows: table![
        "MODULE;PROBLEM;MODEND" => "MODULE ;\nPROBLEM ;\nMODEND ;\n";
        "MODULE(pump); PROBLEM; MODEND;" => "MODULE ( pump ) ;\nPROBLEM ;\nMODEND ;\n";
        "MODULE pump; SYSTEM; PROBLEM; MODEND;"
            => "MODULE ( pump ) ;\nSYSTEM ;\nPROBLEM ;\nMODEND ;\n";
        "MODULE;SYSTEM;tty: TERMINAL(1); irq: IRPT(3);PROBLEM;MODEND;"
            => "MODULE ;\nSYSTEM ;\ntty : TERMINAL ( 1 ) ;\nirq : INTERRUPT ( 3 ) ;\nPROBLEM ;\n\
                MODEND ;\n";
        "/* one */ MODULE ! two\n;\tPROBLEM;\n\nMODEND/**/ ;" => "MODULE ;\nPROBLEM ;\nMODEND ;\n";
        "MODULE m; PROBLEM; /* a valve, by hand and by time */\n\
            DCL level FIXED(15) INIT(0), (open, shut) BIT(1);\n\
            watch: TASK MAIN PRIO 7;\n  \
            IF level GE 100 AND NOT open THEN close(2); ELSE AFTER 90 SEC RESUME; FIN;\n\
            END; MODEND\n"
            => "MODULE ( m ) ;\nPROBLEM ;\n\
                DCL level FIXED ( 15 ) INIT ( 0 ) , ( open , shut ) BIT ( 1 ) ;\n\
                watch : TASK PRIO 7 MAIN ;\n\
                IF level >= 100 AND NOT open THEN CALL close ( 2 ) ;\n\
                ELSE AFTER 0 HRS 1 MIN 30.000 SEC RESUME ;\n\
                FIN ;\nEND ;\nMODEND ;\n";
        "MODULE(m);PROBLEM;t:TASK;IF a EQ 1 THEN FIN;END;MODEND;"
            => "MODULE ( m ) ;\nPROBLEM ;\nt : TASK ;\nIF a == 1 THEN FIN ;\nEND ;\nMODEND ;\n";
    ],
};

/// Declarations.
pub static DECLARATIONS: Table = Table {
    words: PRINT,
    around: ("MODULE;PROBLEM;", "MODEND"),
    again: true,
    status: Status::Done,
    about: ("MODULE ;\nPROBLEM ;\n", "MODEND ;\n"),
    rows: table![
        "LENGTH FIXED(15);" => "LENGTH FIXED ( 15 ) ;\n";
        "LENGTH BIT(8);LENGTH CHARACTER(20);" => "LENGTH BIT ( 8 ) ;\nLENGTH CHAR ( 20 ) ;\n";
        "TYPE point STRUCT[(x, y) FIXED];" => "TYPE point STRUCT [ ( x , y ) FIXED ] ;\n";
        "TYPE level FIXED(7);TYPE other level;" => "TYPE level FIXED ( 7 ) ;\nTYPE other level ;\n";
        "DCL n FIXED, s SEMA PRESET(1);" => "DCL n FIXED , s SEMA PRESET ( 1 ) ;\n";
        "DECLARE s SEMA, (full, empty) SEMA PRESET(0, 8);"
            => "DCL s SEMA , ( full , empty ) SEMA PRESET ( 0 , 8 ) ;\n";
        "DCL level(3) INV FIXED INIT(10, 20, 30);"
            => "DCL level ( 3 ) INV FIXED INIT ( 10 , 20 , 30 ) ;\n";
        "DCL (x, y, z)(0:9, 3, -5:-1) point, (u) BIT;"
            => "DCL ( x , y , z ) ( 0 : 9 , 3 , - 5 : - 1 ) point , ( u ) BIT ;\n";
        "DCL a BIT(16), b CHAR, c CLOCK, d DUR, e CHARACTER(8), f DURATION, g FIXED(63);"
            => "DCL a BIT ( 16 ) , b CHAR , c CLOCK , d DURATION , e CHAR ( 8 ) , f DURATION , \
                g FIXED ( 63 ) ;\n";
        "DCL p STRUCT[name CHAR(8), at point, (x, y)(10) FIXED(15), in STRUCT[z CLOCK]];"
            => "DCL p STRUCT [ name CHAR ( 8 ) , at point , ( x , y ) ( 10 ) FIXED ( 15 ) , \
                in STRUCT [ z CLOCK ] ] ;\n";
        "DCL c INV FIXED INIT(-40, +7, 0042);" => "DCL c INV FIXED INIT ( - 40 , + 7 , 42 ) ;\n";
        "DCL b BIT(8) INIT('1010'B, '01'B1, '3'B2, '17'B3, 'FF'B4);"
            => "DCL b BIT ( 8 ) INIT ( '1010'B , '01'B , '11'B , '001111'B , '11111111'B ) ;\n";
        "DCL t CHAR(5) INIT('it''s'), k CLOCK INIT(9:05:07.05, 23:59:59);"
            => "DCL t CHAR ( 5 ) INIT ( 'it''s' ) , k CLOCK INIT ( 09:05:07.050 , 23:59:59 ) ;\n";
        "DCL d DUR INIT(1 HRS, 1 HRS 30 MIN, 1 HRS 30 MIN 0.5 SEC, 2 HRS 3 SEC);"
            => "DCL d DURATION INIT ( 1 HRS 0 MIN 0.000 SEC , 1 HRS 30 MIN 0.000 SEC , \
                1 HRS 30 MIN 0.500 SEC , 2 HRS 0 MIN 3.000 SEC ) ;\n";
        "DCL d DUR INIT(90 MIN, 5 MIN 61 SEC, 2.25 SEC, 7 SEC);"
            => "DCL d DURATION INIT ( 1 HRS 30 MIN 0.000 SEC , 0 HRS 6 MIN 1.000 SEC , \
                0 HRS 0 MIN 2.250 SEC , 0 HRS 0 MIN 7.000 SEC ) ;\n";
        "SPC tty DATION INOUT ALPHIC, irq INTERRUPT;"
            => "SPC tty DATION INOUT ALPHIC , irq INTERRUPT ;\n";
        "SPECIFY (stop, go) IRPT, valve DATION OUT BASIC BIT(8), \
            keys DATION IN ALPHIC CONTROL(ALL);"
            => "SPC ( stop , go ) INTERRUPT , valve DATION OUT BASIC BIT ( 8 ) , \
                keys DATION IN ALPHIC ;\n";
        "main: TASK PRIO 5 MAIN; SUSPEND; END;" => "main : TASK PRIO 5 MAIN ;\nSUSPEND ;\nEND ;\n";
        "a: TASK; END; b: TASK MAIN; END; c: TASK PRIORITY 10; END; d: TASK MAIN PRIO 3; END;"
            => "a : TASK ;\nEND ;\nb : TASK MAIN ;\nEND ;\nc : TASK PRIO 10 ;\nEND ;\n\
                d : TASK PRIO 3 MAIN ;\nEND ;\n";
        "twice: PROC(n FIXED) RETURNS(FIXED); RETURN(2 * n); END;"
            => "twice : PROC ( n FIXED ) RETURNS ( FIXED ) ;\nRETURN ( 2 * n ) ;\nEND ;\n";
        "p: PROCEDURE; END; q: PROC((a, b) FIXED IDENTICAL, c CHAR(3)); END; \
            r: PROC RETURNS(BIT(4)); END;"
            => "p : PROC ;\nEND ;\nq : PROC ( ( a , b ) FIXED IDENT , c CHAR ( 3 ) ) ;\nEND ;\n\
                r : PROC RETURNS ( BIT ( 4 ) ) ;\nEND ;\n";
        "t: TASK; DCL i FIXED; DCL j FIXED INIT(2), k(3) BIT; i := 1; j := i + j; END;"
            => "t : TASK ;\nDCL i FIXED ;\nDCL j FIXED INIT ( 2 ) , k ( 3 ) BIT ;\ni := 1 ;\n\
                j := i + j ;\nEND ;\n";
    ],
};

/// Statements of a task.
pub static STATEMENTS: Table = Table {
    words: PRINT,
    around: (HEAD, TAIL),
    again: true,
    status: Status::Done,
    about: (PRINTED_HEAD, PRINTED_TAIL),
    rows: table![
        ";" => ";\n";
        "level(2) := level(1) + 1;" => "level ( 2 ) := level ( 1 ) + 1 ;\n";
        "plant.tank(2, i + 1).level = 3;" => "plant . tank ( 2 , i + 1 ) . level := 3 ;\n";
        "CALL fill(3, 10 SEC);" => "CALL fill ( 3 , 0 HRS 0 MIN 10.000 SEC ) ;\n";
        "fill(n);CALL empty;empty;" => "CALL fill ( n ) ;\nCALL empty ;\nCALL empty ;\n";
        "IF n > 3 THEN n := 0; ELSE n := n + 1; FIN;"
            => "IF n > 3 THEN n := 0 ;\nELSE n := n + 1 ;\nFIN ;\n";
        "IF a THEN FIN;IF a THEN ELSE FIN;" => "IF a THEN FIN ;\nIF a THEN ELSE FIN ;\n";
        "CASE n ALT a := 1; ALT a := 2; OUT a := 0; FIN;"
            => "CASE n ALT a := 1 ;\nALT a := 2 ;\nOUT a := 0 ;\nFIN ;\n";
        "CASE n ALT FIN;CASE n ALT ALT OUT FIN;" => "CASE n ALT FIN ;\nCASE n ALT ALT OUT FIN ;\n";
        "FOR i FROM 1 TO 10 REPEAT s := s + i; END;"
            => "FOR i FROM 1 TO 10 REPEAT s := s + i ;\nEND ;\n";
        "FOR i FROM 1 BY 2 TO 9 WHILE a LT 3 REPEAT DCL k FIXED; k := i; EXIT; END;"
            => "FOR i FROM 1 BY 2 TO 9 WHILE a < 3 REPEAT DCL k FIXED ;\nk := i ;\nEXIT ;\nEND ;\
                \n";
        "REPEAT END;FROM 1 REPEAT END;BY 1 REPEAT END;TO 1 REPEAT END;WHILE a REPEAT END;"
            => "REPEAT END ;\nFROM 1 REPEAT END ;\nBY 1 REPEAT END ;\nTO 1 REPEAT END ;\n\
                WHILE a REPEAT END ;\n";
        "BEGIN DCL k FIXED; k := 2; END;BEGIN END;"
            => "BEGIN DCL k FIXED ;\nk := 2 ;\nEND ;\nBEGIN END ;\n";
        "RETURN(n * n);RETURN;" => "RETURN ( n * n ) ;\nRETURN ;\n";
        "ACTIVATE pump;ACTIVATE pump PRIO 3;" => "ACTIVATE pump ;\nACTIVATE pump PRIO 3 ;\n";
        "AFTER 5 SEC ALL 1 MIN ACTIVATE pump PRIORITY 3;"
            => "AFTER 0 HRS 0 MIN 5.000 SEC ALL 0 HRS 1 MIN 0.000 SEC ACTIVATE pump PRIO 3 ;\n";
        "AT 12:30:00 ACTIVATE t;AT a ALL b ACTIVATE t;AFTER a ACTIVATE t;"
            => "AT 12:30:00 ACTIVATE t ;\nAT a ALL b ACTIVATE t ;\nAFTER a ACTIVATE t ;\n";
        "WHEN go AFTER a ALL b UNTIL 18:00:00 ACTIVATE t;WHEN go ACTIVATE t;\
            WHEN go ALL b ACTIVATE t;"
            => "WHEN go AFTER a ALL b UNTIL 18:00:00 ACTIVATE t ;\nWHEN go ACTIVATE t ;\n\
                WHEN go ALL b ACTIVATE t ;\n";
        "ALL a DURING 2 HRS ACTIVATE t;ALL a ACTIVATE t;"
            => "ALL a DURING 2 HRS 0 MIN 0.000 SEC ACTIVATE t ;\nALL a ACTIVATE t ;\n";
        "CONTINUE pump;WHEN go CONTINUE pump;AT 12:30:00 CONTINUE pump;AFTER a CONTINUE pump;"
            => "CONTINUE pump ;\nWHEN go CONTINUE pump ;\nAT 12:30:00 CONTINUE pump ;\n\
                AFTER a CONTINUE pump ;\n";
        "AFTER 200 MIN RESUME;AT a RESUME;WHEN go RESUME;"
            => "AFTER 3 HRS 20 MIN 0.000 SEC RESUME ;\nAT a RESUME ;\nWHEN go RESUME ;\n";
        "SUSPEND;SUSPEND pump;TERMINATE;TERMINATE pump;PREVENT;PREVENT pump;"
            => "SUSPEND ;\nSUSPEND pump ;\nTERMINATE ;\nTERMINATE pump ;\nPREVENT ;\n\
                PREVENT pump ;\n";
        "REQUEST full, key;RELEASE key;" => "REQUEST full , key ;\nRELEASE key ;\n";
        "ENABLE stop;DISABLE stop;TRIGGER stop;"
            => "ENABLE stop ;\nDISABLE stop ;\nTRIGGER stop ;\n";
        "PUT 'level', n TO tty BY A, F(6), SKIP;PUT TO tty BY X(3), A(2), B, B1, B2(4), B3, B4, \
            T(8), D(26), SKIP(2);"
            => "PUT 'level' , n TO tty BY A , F ( 6 ) , SKIP ;\nPUT TO tty BY X ( 3 ) , \
                A ( 2 ) , B , B1 , B2 ( 4 ) , B3 , B4 , T ( 8 ) , D ( 26 ) , SKIP ( 2 ) ;\n";
        "GET n FROM tty BY F(4), SKIP;GET FROM tty BY X;GET a.b, c(1) FROM tty BY A, A;"
            => "GET n FROM tty BY F ( 4 ) , SKIP ;\nGET FROM tty BY X ;\nGET a . b , \
                c ( 1 ) FROM tty BY A , A ;\n";
        "SEND 'FF'B4 TO valve;TAKE n FROM sensor;"
            => "SEND '11111111'B TO valve ;\nTAKE n FROM sensor ;\n";
    ],
};

/// Values that a task puts into a variable.
pub static EXPRESSIONS: Table = Table {
    words: PRINT,
    around: ("MODULE(m);PROBLEM;t:TASK;x:=", ";END;MODEND;"),
    again: true,
    status: Status::Done,
    about: (
        "MODULE ( m ) ;\nPROBLEM ;\nt : TASK ;\nx := ",
        " ;\nEND ;\nMODEND ;\n",
    ),
    rows: table![
        "a + b * c ** 2" => "a + b * c ** 2";
        "a ** b // c REM d >< e CAT f" => "a ** b // c REM d >< e >< f";
        "a - b <> c CSHIFT d SHIFT e" => "a - b <> c <> d SHIFT e";
        "a LT b < c GT d > e LE f <= g GE h >= i" => "a < b < c > d > e <= f <= g >= h >= i";
        "a EQ b == c NE d /= e" => "a == b == c /= d /= e";
        "a AND b OR c EXOR d" => "a AND b OR c EXOR d";
        "- ABS n - + SIGN NOT b" => "- ABS n - + SIGN NOT b";
        "(NOW - start) + 2 UPB table" => "( NOW - start ) + 2 UPB table";
        "LWB table(1).b + UPB t - TRY key" => "LWB table ( 1 ) . b + UPB t - TRY key";
        "f(a, (b))(c).d(1 SEC)" => "f ( a , ( b ) ) ( c ) . d ( 0 HRS 0 MIN 1.000 SEC )";
        "007 == '01'B AND 'x' == 1:02:03" => "7 == '01'B AND 'x' == 01:02:03";
    ],
};

// Sources without tokens or a tree.
macro_rules! refused {
    ($($source:literal,)*) => { &[$(($source, "", "error syntax ^\n")),*] };
}

/// Sources that are refused, each with a mark before the refused byte or token.
pub static REFUSED: Table = Table {
    words: PRINT,
    around: ("", ""),
    again: false,
    status: Status::Refused,
    about: ("", ""),
    rows: refused![
        "^",
        " ! nothing\n^",
        "MODULE(m);PROBLEM;t:TASK;x:=^25:00:00;END;MODEND;",
        "MODULE(m); ^/* PROBLEM;",
        "MODULE(m);PROBLEM;MODEND;^%",
        "MODEND MODULE ^$",
        "^PROBLEM;MODEND;",
        "MODULE(m);PROBLEM;^",
        "MODULE(m);PROBLEM;  ^",
        "MODULE(m);PROBLEM;MODEND;^;",
        "MODULE(m);PROBLEM;MODEND ^x",
        "MODULE(m^;PROBLEM;MODEND;",
        "MODULE;PROBLEM;DCL x^;MODEND;",
        "MODULE;PROBLEM;t:TASK;a ^EQ 1;END;MODEND;",
        "MODULE;PROBLEM;t:TASK;IF a THEN ^END;",
        "MODULE;PROBLEM;t:TASK;^BOLT;END;MODEND;",
    ],
};

/// Words that are no command.
pub static OTHER_WORDS: [&[&str]; 5] = [
    &["print"],
    &["print", "s", "j"],
    &["prints", "s"],
    &["PRINT", "s"],
    &["run", "s"],
];

// Prints of a source where something outside fails.
macro_rules! faults {
    ($($source:literal $fetches:tt $puts:tt $most:expr => $status:ident $text:literal;)*) => {
        [$(Fault {
            words: PRINT,
            source: $source,
            journal: "",
            fetches: &$fetches,
            puts: &$puts,
            most: $most,
            status: Status::$status,
            text: $text,
        }),*]
    };
}

pub static FAULTS: [Fault; 8] = faults![
    "MODULE;PROBLEM;MODEND" [] [] 1 => Done "MODULE ;\nPROBLEM ;\nMODEND ;\n";
    "MODULE;PROBLEM;MODEND" [1] [] usize::MAX => ReadFault "error read\n";
    "MODULE;PROBLEM;MODEND" [9] [] 1 => ReadFault "error read\n";
    "MODULE;PROBLEM;MODEND" [] [1] usize::MAX => WriteFault "";
    "MODULE;PROBLEM;MODEND" [] [4] 1 => WriteFault "MOD";
    "MODULE;PROBLEM;MODEND" [1] [1] usize::MAX => WriteFault "";
    "" [] [1] usize::MAX => WriteFault "";
    "%" [] [7] 1 => WriteFault "error ";
];

// Long sources with their texts, each of which is printed as itself.
macro_rules! printed {
    ($($source:tt => $text:tt;)*) => {
        [$(Long {
            words: PRINT,
            source: &$source,
            journal: &[],
            room: 2_097_152,
            again: true,
            status: Status::Done,
            text: &$text,
        }),*]
    };
}

// Long sources that are refused at their marks.
macro_rules! refused_long {
    ($($source:tt;)*) => {
        [$(Long {
            words: PRINT,
            source: &$source,
            journal: &[],
            room: ROOM,
            again: false,
            status: Status::Refused,
            text: &[("error syntax ^\n", 1)],
        }),*]
    };
}

/// Levels of statements, the operators of an expression, and the bytes of a source, as many as there may be.
pub static LONGS: [Long; 10] = printed![
    [(HEAD, 1), ("IF a THEN ", 32), ("FIN;", 32), (TAIL, 1)]
        => [(PRINTED_HEAD, 1), ("IF a THEN ", 32), ("FIN ;\n", 32), (PRINTED_TAIL, 1)];
    [(HEAD, 1), ("IF a THEN ELSE ", 32), ("FIN;", 32), (TAIL, 1)]
        => [(PRINTED_HEAD, 1), ("IF a THEN ELSE ", 32), ("FIN ;\n", 32), (PRINTED_TAIL, 1)];
    [(HEAD, 1), ("CASE a ALT ", 32), ("FIN;", 32), (TAIL, 1)]
        => [(PRINTED_HEAD, 1), ("CASE a ALT ", 32), ("FIN ;\n", 32), (PRINTED_TAIL, 1)];
    [(HEAD, 1), ("CASE a ALT OUT ", 32), ("FIN;", 32), (TAIL, 1)]
        => [(PRINTED_HEAD, 1), ("CASE a ALT OUT ", 32), ("FIN ;\n", 32), (PRINTED_TAIL, 1)];
    [(HEAD, 1), ("REPEAT ", 32), ("END;", 32), (TAIL, 1)]
        => [(PRINTED_HEAD, 1), ("REPEAT ", 32), ("END ;\n", 32), (PRINTED_TAIL, 1)];
    [(HEAD, 1), ("FOR i TO a REPEAT ", 32), ("END;", 32), (TAIL, 1)]
        => [(PRINTED_HEAD, 1), ("FOR i TO a REPEAT ", 32), ("END ;\n", 32), (PRINTED_TAIL, 1)];
    [(HEAD, 1), ("BEGIN ", 32), ("END;", 32), (TAIL, 1)]
        => [(PRINTED_HEAD, 1), ("BEGIN ", 32), ("END ;\n", 32), (PRINTED_TAIL, 1)];
    [(HEAD, 1), ("IF a THEN CASE a ALT REPEAT BEGIN ", 8), ("END;END;FIN;FIN;", 8), (TAIL, 1)]
        => [
            (PRINTED_HEAD, 1),
            ("IF a THEN CASE a ALT REPEAT BEGIN ", 8),
            ("END ;\nEND ;\nFIN ;\nFIN ;\n", 8),
            (PRINTED_TAIL, 1),
        ];
    [(HEAD, 1), ("x:=1", 1), ("+1", 100), (";", 1), (TAIL, 1)]
        => [(PRINTED_HEAD, 1), ("x := 1", 1), (" + 1", 100), (" ;\n", 1), (PRINTED_TAIL, 1)];
    [("MODULE;PROBLEM;MODEND", 1), (" ", 1_048_555)] => [("MODULE ;\nPROBLEM ;\nMODEND ;\n", 1)];
];

/// What passes these limits.
pub static LONGS_REFUSED: [Long; 9] = refused_long![
    [(HEAD, 1), ("IF a THEN ", 32), ("^IF a THEN ", 1), ("FIN;", 33), (TAIL, 1)];
    [(HEAD, 1), ("IF a THEN ELSE ", 32), ("^IF a THEN ELSE ", 1), ("FIN;", 33), (TAIL, 1)];
    [(HEAD, 1), ("CASE a ALT ", 32), ("^CASE a ALT ", 1), ("FIN;", 33), (TAIL, 1)];
    [(HEAD, 1), ("CASE a ALT OUT ", 32), ("^CASE a ALT OUT ", 1), ("FIN;", 33), (TAIL, 1)];
    [(HEAD, 1), ("REPEAT ", 32), ("^REPEAT ", 1), ("END;", 33), (TAIL, 1)];
    [(HEAD, 1), ("FOR i TO a REPEAT ", 32), ("^FOR i TO a REPEAT ", 1), ("END;", 33), (TAIL, 1)];
    [(HEAD, 1), ("BEGIN ", 32), ("^BEGIN ", 1), ("END;", 33), (TAIL, 1)];
    [
        (HEAD, 1),
        ("IF a THEN CASE a ALT REPEAT BEGIN ", 8),
        ("^BEGIN END;", 1),
        ("END;END;FIN;FIN;", 8),
        (TAIL, 1)
    ];
    [(HEAD, 1), ("x:=1", 1), ("+1", 100), ("^+1;", 1), (TAIL, 1)];
];

/// A source of nearly 1,048,576 bytes.
pub const FULL: Parts = &[(HEAD, 1), ("x:=1;", 209_700), (TAIL, 1)];

/// That source, and one that is too long.
pub static LONGEST: [Long; 2] = [
    Long {
        words: PRINT,
        source: FULL,
        journal: &[],
        room: 2_097_152,
        again: false,
        status: Status::Done,
        text: &[
            (PRINTED_HEAD, 1),
            ("x := 1 ;\n", 209_700),
            (PRINTED_TAIL, 1),
        ],
    },
    Long {
        words: PRINT,
        source: &[("MODULE;PROBLEM;MODEND", 1), (" ", 1_048_556)],
        journal: &[],
        room: ROOM,
        again: false,
        status: Status::TooLong,
        text: &[("error too long 1048577\n", 1)],
    },
];

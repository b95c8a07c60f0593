// What `run` writes of time and interrupts: plans, series, clocks, and a journal's lines that move time.

use crate::case::{Case, RUN, Table, ends_so};
use crate::whole::{HEAD, TAIL};
use pearl_top::status::Status;
use std::alloc::{AllocError, Global};

/// What stands between the head and MODEND, a journal, and the whole transcript.
pub static PLANTS: Table = Table {
    words: RUN,
    around: (HEAD, TAIL),
    again: false,
    status: Status::Done,
    about: ("", ""),
    rows: runs![
        "a: TASK PRIO 1 MAIN; ALL 1 SEC DURING 3 SEC ACTIVATE b; END; b: TASK PRIO 2; PUT 'x' TO tty BY \
            A; END;",
            "run 10\ntick 3000\nrun 10\ntick 2000\nrun 10" =>
                "0 start a 1\n0 start b 2\n0 end a\n0 out 1 'x'\n0 end b\n1000 start b 2\n\
                2000 kept b 1\n3000 kept b 2\n3000 out 1 'x'\n3000 end b\n3000 start b 2\n\
                3000 out 1 'x'\n3000 end b\n3000 start b 2\n3000 out 1 'x'\n3000 end b\n\
                5000 state a dormant\n5000 state b dormant\n5000 close\n";
        "a: TASK PRIO 1 MAIN; AT 8:00:00 ACTIVATE b; AT 7:59:59 ACTIVATE c; END; b: TASK; END; c: TASK; \
            END;",
            "clock 08:00:00\nrun 10\ntick 86399000\nrun 10" =>
                "0 start a 1\n0 start b 255\n0 end a\n0 end b\n86399000 start c 255\n86399000 end c\n\
                86399000 state a dormant\n86399000 state b dormant\n86399000 state c dormant\n\
                86399000 close\n";
        "a: TASK PRIO 1 MAIN; AFTER 6 HRS ALL 6 HRS UNTIL 1:00:00 ACTIVATE b; END; b: TASK PRIO 2; END;",
            "clock 00:30:00\nrun 10\npass 172800000 10" =>
                "0 start a 1\n0 end a\n21600000 start b 2\n21600000 end b\n43200000 start b 2\n\
                43200000 end b\n64800000 start b 2\n64800000 end b\n86400000 start b 2\n86400000 end b\n\
                172800000 state a dormant\n172800000 state b dormant\n172800000 close\n";
        "a: TASK PRIO 1 MAIN; AFTER 2 SEC ALL 2 SEC UNTIL 12:00:06 ACTIVATE b; END; b: TASK PRIO 2; END;",
            "clock 12:00:00\nrun 10\npass 86400000 10" =>
                "0 start a 1\n0 end a\n2000 start b 2\n2000 end b\n4000 start b 2\n4000 end b\n\
                6000 start b 2\n6000 end b\n86400000 state a dormant\n86400000 state b dormant\n\
                86400000 close\n";
        "a: TASK PRIO 1 MAIN; AT 12:00:01 ALL 2 SEC DURING 3.999 SEC ACTIVATE b PRIO 7; END; b: TASK \
            PRIO 2; END;",
            "clock 12:00:00\nrun 10\npass 10000 10" =>
                "0 start a 1\n0 end a\n1000 start b 7\n1000 end b\n3000 start b 7\n3000 end b\n\
                10000 state a dormant\n10000 state b dormant\n10000 close\n";
        "a: TASK PRIO 1 MAIN; ALL 0.001 SEC DURING 0.002 SEC ACTIVATE b; END; b: TASK PRIO 2; END;",
            "run 9\npass 5 9" =>
                "0 start a 1\n0 start b 2\n0 end a\n0 end b\n1 start b 2\n1 end b\n2 start b 2\n2 end b\n\
                5 state a dormant\n5 state b dormant\n5 close\n";
        "a: TASK PRIO 1 MAIN; AFTER 0 SEC ACTIVATE b; ALL 5 SEC DURING 0 SEC ACTIVATE c; END; b: TASK \
            PRIO 2; END; c: TASK; END;",
            "run 9\npass 20000 9" =>
                "0 start a 1\n0 start b 2\n0 start c 255\n0 end a\n0 end b\n0 end c\n\
                20000 state a dormant\n20000 state b dormant\n20000 state c dormant\n20000 close\n";
        "a: TASK PRIO 1 MAIN; ALL 1 SEC ACTIVATE b; AFTER 2 SEC ACTIVATE b PRIO 9; END; b: TASK PRIO 2; \
            END;",
            "run 9\npass 5000 9" =>
                "0 start a 1\n0 start b 2\n0 end a\n0 end b\n2000 start b 9\n2000 end b\n\
                5000 state a dormant\n5000 state b dormant\n5000 close\n";
        "a: TASK PRIO 1 MAIN; AFTER 1 SEC ALL 1 SEC ACTIVATE b; AFTER 2500 * 0.001 SEC RESUME; PREVENT \
            b; END; b: TASK PRIO 2; END;",
            "run 9\npass 9000 9" =>
                "0 start a 1\n1000 start b 2\n1000 end b\n2000 start b 2\n2000 end b\n2500 end a\n\
                9000 state a dormant\n9000 state b dormant\n9000 close\n";
        "a: TASK PRIO 1 MAIN; ALL 1 SEC ACTIVATE b; END; b: TASK PRIO 2; DCL n FIXED; n := n + 1; IF NOW \
            > 0:00:01 THEN PREVENT; FIN; END;",
            "run 9\npass 9000 9" =>
                "0 start a 1\n0 start b 2\n0 end a\n0 end b\n1000 start b 2\n1000 end b\n2000 start b 2\n\
                2000 end b\n9000 state a dormant\n9000 state b dormant\n9000 close\n";
        "a: TASK PRIO 1 MAIN; PUT NOW TO tty BY T(12), SKIP; AFTER 0.5 SEC RESUME; PUT NOW, NOW - \
            23:59:59 TO tty BY T(12), X, D(26); END;",
            "clock 23:59:59.5\nrun 9\npass 1000 9" =>
                "0 start a 1\n0 out 1 '23:59:59.500\\n'\n\
                500 out 1 '00:00:00.000  -23 HRS 59 MIN 59.000 SEC'\n500 end a\n1000 state a dormant\n\
                1000 close\n";
        "a: TASK PRIO 1 MAIN; AFTER 0.25 SEC RESUME; PUT NOW TO tty BY T(12); END;",
            "run 9\ntick 300\nrun 9" =>
                "0 start a 1\n300 out 1 '00:00:00.300'\n300 end a\n300 state a dormant\n300 close\n";
        "a: TASK PRIO 1 MAIN; AFTER 5 SEC RESUME; PUT 'on' TO tty BY A; END; b: TASK PRIO 2 MAIN; \
            PREVENT a; AFTER 6 SEC RESUME; AFTER 1 SEC CONTINUE a; END;",
            "run 10\ntick 6000\nstate\nrun 10\ntick 1000\nrun 10" =>
                "0 start a 1\n0 start b 2\n6000 state a suspended 1\n6000 state b running 2\n6000 end b\n\
                7000 out 1 'on'\n7000 end a\n7000 state a dormant\n7000 state b dormant\n7000 close\n";
        "a: TASK PRIO 1 MAIN; AFTER 0 SEC RESUME; PUT 1 TO tty BY F(1); AT 0:00:00 RESUME; PUT 2 TO tty \
            BY F(1); AT 0:00:01 RESUME; END;",
            "run 9\nstate\npass 1000 9" =>
                "0 start a 1\n0 out 1 '1'\n0 out 1 '2'\n0 state a suspended 1\n1000 end a\n\
                1000 state a dormant\n1000 close\n";
        "a: TASK PRIO 1 MAIN; AFTER 1 SEC RESUME; SUSPEND; PUT 1 TO tty BY F(1); END; b: TASK PRIO 2 \
            MAIN; CONTINUE a; END;",
            "run 9\nstate\npass 2000 9" =>
                "0 start a 1\n0 start b 2\n0 end b\n0 state a suspended 1\n0 state b dormant\n\
                1000 out 1 '1'\n1000 end a\n2000 state a dormant\n2000 state b dormant\n2000 close\n";
        "a: TASK PRIO 1 MAIN; AFTER 1 SEC CONTINUE b; ACTIVATE b; END; b: TASK PRIO 2; SUSPEND; END;",
            "run 9\npass 3000 9" =>
                "0 start a 1\n0 start b 2\n0 end a\n3000 state a dormant\n3000 state b suspended 2\n\
                3000 close\n";
        "a: TASK PRIO 1 MAIN; ACTIVATE b; AFTER 1 SEC RESUME; TERMINATE b; ACTIVATE b; END; b: TASK PRIO \
            2; AFTER 3 SEC RESUME; PUT NOW TO tty BY T(8); END;",
            "run 9\npass 5000 9" =>
                "0 start a 1\n0 start b 2\n1000 stop b\n1000 start b 2\n1000 end a\n\
                4000 out 1 '00:00:04'\n4000 end b\n5000 state a dormant\n5000 state b dormant\n\
                5000 close\n";
        "a: TASK PRIO 1 MAIN; ACTIVATE b; AFTER 1 SEC CONTINUE b; AFTER 2 SEC CONTINUE b; END; b: TASK \
            PRIO 2; SUSPEND; PUT NOW TO tty BY T(8); END;",
            "run 9\npass 5000 9" =>
                "0 start a 1\n0 start b 2\n0 end a\n2000 out 1 '00:00:02'\n2000 end b\n\
                5000 state a dormant\n5000 state b dormant\n5000 close\n";
    ],
};

/// Likewise, of interrupts: what stands between the head and MODEND, a journal, and the whole transcript.
pub static INTERRUPTS: Table = Table {
    words: RUN,
    around: (HEAD, TAIL),
    again: false,
    status: Status::Done,
    about: ("", ""),
    rows: runs![
        "DCL (p, q) FIXED; a: TASK PRIO 9 MAIN; ENABLE irq; WHEN irq ACTIVATE b; PUT p + q TO tty BY \
            F(3); END; b: TASK PRIO 1; p := 10; q := 5; END;",
            "run 3\nirpt 3\nrun 10" =>
                "0 start a 9\n0 start b 1\n0 end b\n0 out 1 '  5'\n0 end a\n0 state a dormant\n\
                0 state b dormant\n0 close\n";
        "a: TASK PRIO 1 MAIN; WHEN irq AFTER 1 SEC ALL 2 SEC ACTIVATE b; AFTER 1 SEC RESUME; ENABLE irq; \
            END; b: TASK PRIO 2; END;",
            "run 10\nirpt 3\npass 1000 5\nirpt 3\npass 2500 5\nirpt 3\npass 3500 5" =>
                "0 start a 1\n0 masked 3\n1000 end a\n2000 start b 2\n2000 end b\n4500 start b 2\n\
                4500 end b\n6500 start b 2\n6500 end b\n7000 state a dormant\n7000 state b dormant\n\
                7000 close\n";
        "a: TASK PRIO 1 MAIN; ENABLE irq; WHEN irq ALL 1 SEC DURING 1 SEC ACTIVATE b PRIO 7; END; b: \
            TASK PRIO 2; END;",
            "run 9\npass 1500 9\nirpt 3\nrun 9\npass 3000 9\nirpt 3\npass 500 9" =>
                "0 start a 1\n0 end a\n1500 start b 7\n1500 end b\n2500 start b 7\n2500 end b\n\
                4500 start b 7\n4501 end b\n5000 state a dormant\n5000 state b dormant\n5000 close\n";
        "a: TASK PRIO 1 MAIN; ENABLE irq; WHEN irq RESUME; PUT 1 TO tty BY F(1); DISABLE irq; WHEN irq \
            RESUME; END;",
            "run 9\nirpt 3\nirpt 3\nrun 9\nirpt 3\nrun 9" =>
                "0 start a 1\n0 out 1 '1'\n0 masked 3\n0 state a suspended 1\n0 close\n";
        "a: TASK PRIO 1 MAIN; ENABLE irq; ACTIVATE b; ACTIVATE c; WHEN irq CONTINUE c; WHEN irq CONTINUE \
            b; WHEN irq ACTIVATE b; END; b: TASK PRIO 2; SUSPEND; PUT 'b' TO tty BY A; SUSPEND; END; c: \
            TASK PRIO 2; SUSPEND; PUT 'c' TO tty BY A; END;",
            "run 20\nirpt 3\nrun 20\nirpt 3\nrun 20" =>
                "0 start a 1\n0 start b 2\n0 start c 2\n0 end a\n0 kept b 1\n0 out 1 'c'\n0 end c\n\
                0 out 1 'b'\n0 kept b 2\n0 state a dormant\n0 state b suspended 2\n0 state c dormant\n\
                0 close\n";
        "a: TASK PRIO 1 MAIN; TRIGGER irq; ENABLE irq; WHEN irq ACTIVATE c; WHEN irq AFTER 1 SEC \
            ACTIVATE b; TRIGGER irq; TRIGGER irq; END; b: TASK PRIO 2; END; c: TASK; END;",
            "run 20\npass 3000 9" =>
                "0 start a 1\n0 masked 3\n0 start c 255\n0 kept c 1\n0 end a\n0 end c\n0 start c 255\n\
                0 end c\n1000 start b 2\n1000 end b\n3000 state a dormant\n3000 state b dormant\n\
                3000 state c dormant\n3000 close\n";
        "a: TASK PRIO 1 MAIN; ENABLE irq; WHEN irq ACTIVATE b; PREVENT b; END; b: TASK PRIO 2; END;",
            "run 9\nirpt 3\nrun 9" =>
                "0 start a 1\n0 end a\n0 state a dormant\n0 state b dormant\n0 close\n";
        "a: TASK PRIO 1 MAIN; FOR i TO 3 REPEAT PUT i TO tty BY F(1); END; END;",
            "pass 20 1" =>
                "0 start a 1\n2 out 1 '1'\n4 out 1 '2'\n6 out 1 '3'\n8 end a\n20 state a dormant\n\
                20 close\n";
        "a: TASK PRIO 1 MAIN; FOR i TO 3 REPEAT PUT i TO tty BY F(1); END; END;",
            "pass 2 3\npass 0 9\ntick 0\nrun 1\ntick 7\nrun 9" =>
                "0 start a 1\n1 out 1 '1'\n2 out 1 '2'\n2 out 1 '3'\n9 end a\n9 state a dormant\n\
                9 close\n";
        "a: TASK PRIO 1 MAIN; AFTER 1 SEC ALL 1 SEC ACTIVATE b; END; b: TASK PRIO 2; FOR i TO 4 REPEAT \
            END; END;",
            "run 9\npass 3000 2\nrun 1" =>
                "0 start a 1\n0 end a\n1000 start b 2\n1002 end b\n2000 start b 2\n2002 end b\n\
                3000 start b 2\n3000 state a dormant\n3000 state b running 2\n3000 close\n";
        "DCL x FIXED; d: PROC(n FIXED) RETURNS(DURATION); x := x * 10 + n; RETURN(n * 1 SEC); END; p: \
            PROC(n FIXED) RETURNS(FIXED); x := x * 10 + n; RETURN(n); END; a: TASK MAIN; AFTER d(1) ALL \
            d(2) DURING d(3) ACTIVATE b PRIO p(4); PUT x TO tty BY F(5); END; b: TASK PRIO 2; END;",
            "run 60\npass 6000 9" =>
                "0 start a 255\n0 out 1 ' 1234'\n0 end a\n1000 start b 4\n1000 end b\n3000 start b 4\n\
                3000 end b\n6000 state a dormant\n6000 state b dormant\n6000 close\n";
        "DCL x FIXED; d: PROC(n FIXED) RETURNS(DURATION); x := n; RETURN(n * 1 SEC); END; a: TASK PRIO 1 \
            MAIN; AFTER d(-1) ALL d(-2) ACTIVATE b; END; b: TASK PRIO 2 MAIN; PUT x TO tty BY F(3); END;",
            "run 60" =>
                "0 start a 1\n0 start b 2\n0 trap a Range\n0 out 1 ' -2'\n0 end b\n0 state a dormant\n\
                0 state b dormant\n0 close\n";
        "a: TASK MAIN; AFTER -1 SEC RESUME; END;",
            "run 10" =>
                "0 start a 255\n0 trap a Range\n0 state a dormant\n0 close\n";
        "a: TASK MAIN; AFTER -0.001 SEC ACTIVATE a; END;",
            "run 10" =>
                "0 start a 255\n0 trap a Range\n0 state a dormant\n0 close\n";
        "a: TASK MAIN; ALL 0 SEC ACTIVATE a; END;",
            "run 10" =>
                "0 start a 255\n0 trap a Range\n0 state a dormant\n0 close\n";
        "a: TASK MAIN; ALL 1 SEC DURING -1 SEC ACTIVATE a; END;",
            "run 10" =>
                "0 start a 255\n0 trap a Range\n0 state a dormant\n0 close\n";
        "a: TASK MAIN; WHEN irq AFTER -1 SEC ACTIVATE a; END;",
            "run 10" =>
                "0 start a 255\n0 trap a Range\n0 state a dormant\n0 close\n";
        "a: TASK MAIN; AFTER 1 SEC ACTIVATE a PRIO 256; END;",
            "run 10" =>
                "0 start a 255\n0 trap a Range\n0 state a dormant\n0 close\n";
        "a: TASK MAIN; AFTER 1 SEC ACTIVATE a PRIO 0; END;",
            "run 10" =>
                "0 start a 255\n0 trap a Range\n0 state a dormant\n0 close\n";
        "DCL d DURATION INIT(-1 SEC); a: TASK MAIN; AFTER d CONTINUE a; END;",
            "run 10" =>
                "0 start a 255\n0 trap a Range\n0 state a dormant\n0 close\n";
        "main: TASK MAIN; PUT 17 TO tty BY F(5), SKIP; END;",
            "\t# first\n\n \t\nclock 1:00:00.25\r\n  run\t1 \r\n#\n\trun 9" =>
                "0 start main 255\n0 out 1 '   17\\n'\n0 end main\n0 state main dormant\n0 close\n";
        "a: TASK MAIN; END;",
            "run 9\ntick 1099511627776" =>
                "0 start a 255\n0 end a\n1099511627776 state a dormant\n1099511627776 close\n";
        "a: TASK MAIN; END;",
            "pass 1099511627775 1\ntick 1" =>
                "0 start a 255\n1 end a\n1099511627776 state a dormant\n1099511627776 close\n";
    ],
};

/// A line of a journal is refused by its code.
pub static REFUSED: Table = Table {
    words: RUN,
    around: (HEAD, TAIL),
    again: false,
    status: Status::BadJournal,
    about: ("", ""),
    rows: runs![
        "main: TASK MAIN; PUT 17 TO tty BY F(5), SKIP; END;",
            "run 1\r\n# x\n\nrun x" =>
                "0 start main 255\n0 out 1 '   17\\n'\nerror journal 4 1\n";
        "a: TASK MAIN; END;",
            "run 1\nclock 1:00:00" =>
                "0 start a 255\n0 end a\nerror journal 2 1\n";
        "a: TASK MAIN; END;",
            "clock 1:00:00\nclock 1:00:00" =>
                "0 start a 255\nerror journal 2 1\n";
        "a: TASK MAIN; END;",
            "clock 24:00:00" =>
                "0 start a 255\nerror journal 1 1\n";
        "a: TASK MAIN; END;",
            "clock 1:00" =>
                "0 start a 255\nerror journal 1 1\n";
        "a: TASK MAIN; END;",
            "irpt 4" =>
                "0 start a 255\nerror journal 1 2\n";
        "a: TASK MAIN; END;",
            "irpt 1" =>
                "0 start a 255\nerror journal 1 2\n";
        "a: TASK MAIN; END;",
            "irpt" =>
                "0 start a 255\nerror journal 1 1\n";
        "a: TASK MAIN; END;",
            "pass 5" =>
                "0 start a 255\nerror journal 1 1\n";
        "a: TASK MAIN; END;",
            "tick 1 1" =>
                "0 start a 255\nerror journal 1 1\n";
        "a: TASK MAIN; END;",
            "tick 9223372036854775808" =>
                "0 start a 255\nerror journal 1 1\n";
        "a: TASK MAIN; END;",
            "tick 9223372036854775807" =>
                "0 start a 255\nerror journal 1 3\n";
        "a: TASK MAIN; END;",
            "tick 1099511627777" =>
                "0 start a 255\nerror journal 1 3\n";
        "a: TASK MAIN; END;",
            "run 5\ntick 1099511627776\nirpt 3\ntick 1" =>
                "0 start a 255\n0 end a\n1099511627776 masked 3\nerror journal 4 3\n";
        "a: TASK MAIN; END;",
            "run 5\ntick 1099511627776\npass 0 0\npass 1 0" =>
                "0 start a 255\n0 end a\nerror journal 4 3\n";
        "a: TASK MAIN; END;",
            "tick 1 # x" =>
                "0 start a 255\nerror journal 1 1\n";
    ],
};

const MINUTES: &str =
    "DCL n FIXED; a: TASK PRIO 1 MAIN; AFTER 1 MIN ALL 1 MIN ACTIVATE b; END; b: TASK PRIO 2; n := n + 1; END;";

// The transcript of a run of so many milliseconds in which b was started so often. The task a acts in the first.
fn minutes(alloc: Global, times: u64, last: u64) -> Result<String, AllocError> {
    let mut text = String::from_str(alloc, "0 start a 1\n1 end a\n")?;
    let mut moment = 1u64;
    for _ in 0..times {
        moment = moment.saturating_add(60_000);
        write!(text, "{moment} start b 2\n{moment} end b\n")?;
    }
    write!(
        text,
        "{last} state a dormant\n{last} state b dormant\n{last} close\n"
    )?;
    Ok(text)
}

/// Whether a run of so many milliseconds, in which b is started so often, writes its transcript.
pub fn passes(alloc: Global, journal: &str, times: u64, last: u64) -> Result<bool, AllocError> {
    let source = format!(in alloc; "{HEAD}{MINUTES}{TAIL}")?;
    let text = minutes(alloc, times, last)?;
    let case = Case {
        words: RUN,
        source: source.as_str(),
        journal,
        room: 131_072,
        again: false,
        status: Status::Done,
        text: text.as_str(),
    };
    ends_so(alloc, &case)
}

/// One millisecond and one interrupt with several lines each.
pub const MARKS: &str = "MODULE(m); SYSTEM; irq: INTERRUPT(3);\nPROBLEM; SPC irq INTERRUPT;\n\
    a: TASK PRIO 1 MAIN; AFTER 1 SEC ACTIVATE b; AFTER 1 SEC ACTIVATE c; AFTER 1 SEC ACTIVATE d; ENABLE irq;\n\
    WHEN irq ACTIVATE a; AFTER 1 SEC RESUME; WHEN irq ACTIVATE b; WHEN irq ACTIVATE d; SUSPEND; END;\n\
    b: TASK PRIO 2; END;\nc: TASK PRIO 3; END;\nd: TASK PRIO 4; SUSPEND; END;\nMODEND;\n";

pub const MARKS_LINES: [&str; 15] = [
    "0 start a 1\n",
    "1000 start b 2\n",
    "1000 start c 3\n",
    "1000 start d 4\n",
    "1000 end b\n",
    "1000 end c\n",
    "1000 kept a 1\n",
    "1000 start b 2\n",
    "1000 kept d 1\n",
    "1000 end b\n",
    "1000 state a suspended 1\n",
    "1000 state b dormant\n",
    "1000 state c dormant\n",
    "1000 state d suspended 4\n",
    "1000 close\n",
];

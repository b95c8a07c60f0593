// What `run` writes of several tasks: who acts next, starts, ends and suspensions, semaphores, and whose turn it is.

use crate::case::{RUN, Table};
use crate::whole::{HEAD, TAIL};
use pearl_top::status::Status;

/// What stands between the head and MODEND, a journal, and the whole transcript.
pub static PLANTS: Table = Table {
    words: RUN,
    around: (HEAD, TAIL),
    again: false,
    status: Status::Done,
    about: ("", ""),
    rows: runs![
        "DCL x FIXED(63) INIT(9223372036854775807); a: TASK PRIO 1 MAIN; x := x + 1; END; b: TASK PRIO 2 \
            MAIN; PUT 1 TO tty BY F(1); END;",
            "run 10" =>
                "0 start a 1\n0 start b 2\n0 trap a Overflow\n0 out 1 '1'\n0 end b\n\
                0 state a dormant\n0 state b dormant\n0 close\n";
        "DCL x FIXED; a: TASK PRIO 5 MAIN; x := x + 1; PUT x TO tty BY F(2); END; b: TASK PRIO 5 MAIN; x \
            := x + 1; END;",
            "run 1\nturn b\nrun 10" =>
                "0 start a 5\n0 start b 5\n0 end b\n0 out 1 ' 1'\n0 end a\n\
                0 state a dormant\n0 state b dormant\n0 close\n";
        "DCL s SEMA PRESET(1), t SEMA; a: TASK PRIO 3 MAIN; REQUEST s, t; PUT 'a' TO tty BY A; END; b: \
            TASK PRIO 2; REQUEST t; PUT 'b' TO tty BY A; END; c: TASK PRIO 4 MAIN; ACTIVATE b; RELEASE t; \
            PUT TRY s TO tty BY B; RELEASE s, t; END;",
            "run 1\nstate\nrun 20" =>
                "0 start a 3\n0 start c 4\n0 start b 2\n0 state a blocked 3\n\
                0 state b blocked 2\n0 state c running 4\n0 out 1 'b'\n0 end b\n\
                0 out 1 '1'\n0 out 1 'a'\n0 end a\n0 end c\n0 state a dormant\n\
                0 state b dormant\n0 state c dormant\n0 close\n";
        "DCL s SEMA PRESET(2147483647), t SEMA; a: TASK PRIO 1 MAIN; RELEASE t, s; END; b: TASK PRIO 2 \
            MAIN; PUT TRY t, TRY s TO tty BY B, B; END;",
            "run 10" =>
                "0 start a 1\n0 start b 2\n0 trap a SemaLimit\n0 out 1 '01'\n0 end b\n\
                0 state a dormant\n0 state b dormant\n0 close\n";
        "a: TASK PRIO 5 MAIN; PUT 1 TO tty BY F(1); ACTIVATE b; PUT 2 TO tty BY F(1); END; b: TASK PRIO \
            4; PUT 3 TO tty BY F(1); END;",
            "run 10" =>
                "0 start a 5\n0 out 1 '1'\n0 start b 4\n0 out 1 '3'\n0 end b\n\
                0 out 1 '2'\n0 end a\n0 state a dormant\n0 state b dormant\n0 close\n";
        "a: TASK PRIO 5 MAIN; ACTIVATE b; PUT 2 TO tty BY F(1); END; b: TASK PRIO 6; PUT 3 TO tty BY \
            F(1); END;",
            "run 10" =>
                "0 start a 5\n0 start b 6\n0 out 1 '2'\n0 end a\n0 out 1 '3'\n0 end b\n\
                0 state a dormant\n0 state b dormant\n0 close\n";
        "b: TASK PRIO 5; PUT 3 TO tty BY F(1); END; a: TASK PRIO 5 MAIN; ACTIVATE b; PUT 2 TO tty BY \
            F(1); END;",
            "run 2\nstate\nrun 10" =>
                "0 start a 5\n0 start b 5\n0 out 1 '2'\n0 state b runnable 5\n\
                0 state a running 5\n0 end a\n0 out 1 '3'\n0 end b\n\
                0 state b dormant\n0 state a dormant\n0 close\n";
        "a: TASK PRIO 5 MAIN; ACTIVATE a; ACTIVATE b; ACTIVATE b PRIO 3; PUT 1 TO tty BY F(1); END; b: \
            TASK PRIO 9; PUT 2 TO tty BY F(1); END;",
            "run 10" =>
                "0 start a 5\n0 kept a 1\n0 start b 9\n0 kept b 1\n0 out 1 '1'\n0 end a\n\
                0 start a 5\n0 kept a 1\n0 kept b 2\n0 kept b 3\n0 out 1 '1'\n0 end a\n\
                0 start a 5\n0 state a running 5\n0 state b runnable 9\n0 close\n";
        "a: TASK PRIO 1 MAIN; ACTIVATE b; ACTIVATE b; ACTIVATE b; ACTIVATE b; ACTIVATE b; TERMINATE b; \
            PREVENT b; END; b: TASK PRIO 2; PUT 'x' TO tty BY A; END;",
            "run 20" =>
                "0 start a 1\n0 start b 2\n0 kept b 1\n0 kept b 2\n0 kept b 3\n0 overrun b\n\
                0 stop b\n0 start b 2\n0 end a\n0 out 1 'x'\n0 end b\n0 state a dormant\n\
                0 state b dormant\n0 close\n";
        "a: TASK PRIO 5 MAIN; ACTIVATE b PRIO 9; ACTIVATE b PRIO 3; ACTIVATE b; PUT 'a' TO tty BY A; END; \
            b: TASK PRIO 6; DCL n FIXED INIT(1); PUT n TO tty BY F(1); n := n + 1; PUT n TO tty BY F(1); END;",
            "run 4\nstate\nrun 20" =>
                "0 start a 5\n0 start b 9\n0 kept b 1\n0 kept b 2\n0 out 1 'a'\n0 state a running 5\n\
                0 state b runnable 9\n0 end a\n0 out 1 '1'\n0 out 1 '2'\n0 end b\n0 start b 3\n\
                0 out 1 '1'\n0 out 1 '2'\n0 end b\n0 start b 6\n0 out 1 '1'\n0 out 1 '2'\n0 end b\n\
                0 state a dormant\n0 state b dormant\n0 close\n";
        "a: TASK PRIO 5 MAIN; ACTIVATE b PRIO 3; PUT 1 TO tty BY F(1); ACTIVATE b; ACTIVATE b PRIO 256; \
            END; b: TASK PRIO 7; PUT 2 TO tty BY F(1); END;",
            "run 20" =>
                "0 start a 5\n0 start b 3\n0 out 1 '2'\n0 end b\n0 out 1 '1'\n\
                0 start b 7\n0 trap a Range\n0 out 1 '2'\n0 end b\n0 state a dormant\n\
                0 state b dormant\n0 close\n";
        "DCL p FIXED; a: TASK MAIN; ACTIVATE b PRIO p; END; b: TASK; END;",
            "run 20" =>
                "0 start a 255\n0 trap a Range\n0 state a dormant\n0 state b dormant\n\
                0 close\n";
        "a: TASK PRIO 5 MAIN; SUSPEND b; ACTIVATE b; SUSPEND b; PUT 1 TO tty BY F(1); CONTINUE b; \
            CONTINUE c; PUT 2 TO tty BY F(1); END; b: TASK PRIO 7; PUT 3 TO tty BY F(1); END; c: TASK; PUT \
            4 TO tty BY F(1); END;",
            "run 4\nstate\nrun 20" =>
                "0 start a 5\n0 start b 7\n0 out 1 '1'\n0 state a running 5\n\
                0 state b suspended 7\n0 state c dormant\n0 out 1 '2'\n0 end a\n\
                0 out 1 '3'\n0 end b\n0 state a dormant\n0 state b dormant\n\
                0 state c dormant\n0 close\n";
        "a: TASK PRIO 1 MAIN; ACTIVATE b; SUSPEND; PUT 1 TO tty BY F(1); END; b: TASK PRIO 2; PUT 2 TO \
            tty BY F(1); CONTINUE a; PUT 3 TO tty BY F(1); END;",
            "run 3\nstate\nrun 20" =>
                "0 start a 1\n0 start b 2\n0 out 1 '2'\n0 state a suspended 1\n\
                0 state b running 2\n0 out 1 '1'\n0 end a\n0 out 1 '3'\n0 end b\n\
                0 state a dormant\n0 state b dormant\n0 close\n";
        "a: TASK PRIO 5 MAIN; ACTIVATE b; FOR i TO 2 REPEAT END; TERMINATE b; TERMINATE b; ACTIVATE b; \
            END; b: TASK PRIO 5; DCL n FIXED INIT(1); PUT n TO tty BY F(1); n := 2; FOR i TO 2 REPEAT PUT n \
            TO tty BY F(1); n := 3; END; END;",
            "run 2\nturn b\nrun 3\nstate\nturn a\nrun 6\nrun 40" =>
                "0 start a 5\n0 start b 5\n0 out 1 '1'\n0 out 1 '2'\n\
                0 state a runnable 5\n0 state b running 5\n0 stop b\n0 start b 5\n\
                0 end a\n0 out 1 '1'\n0 out 1 '2'\n0 out 1 '3'\n0 end b\n\
                0 state a dormant\n0 state b dormant\n0 close\n";
        "p: PROC; TERMINATE; END; a: TASK PRIO 5 MAIN; CALL p; PUT 1 TO tty BY F(1); END; b: TASK PRIO 6 \
            MAIN; TERMINATE b; PUT 1 TO tty BY F(1); END;",
            "run 10" =>
                "0 start a 5\n0 start b 6\n0 stop a\n0 stop b\n0 state a dormant\n\
                0 state b dormant\n0 close\n";
        "a: TASK PRIO 5 MAIN; ACTIVATE b; TERMINATE a; END; b: TASK PRIO 6; ACTIVATE a; PUT 2 TO tty BY \
            F(1); END;",
            "run 5\nrun 3" =>
                "0 start a 5\n0 start b 6\n0 stop a\n0 start a 5\n0 kept b 1\n0 stop a\n\
                0 out 1 '2'\n0 end b\n0 start b 6\n0 start a 5\n0 state a running 5\n\
                0 state b runnable 6\n0 close\n";
        "DCL s SEMA; a: TASK PRIO 3 MAIN; ACTIVATE e; SUSPEND d; REQUEST s; END; b: TASK PRIO 4 MAIN; \
            PUT 1 TO tty BY F(1); END; c: TASK PRIO 5 MAIN; PUT 2 TO tty BY F(1); END; d: TASK PRIO 6 MAIN; \
            REQUEST s; END; e: TASK PRIO 2; REQUEST s; END; f: TASK; END;",
            "run 2\nstate\nrun 1" =>
                "0 start a 3\n0 start b 4\n0 start c 5\n0 start d 6\n0 start e 2\n\
                0 state a blocked 3\n0 state b running 4\n0 state c runnable 5\n\
                0 state d suspended 6\n0 state e blocked 2\n0 state f dormant\n\
                0 out 1 '1'\n0 state a blocked 3\n0 state b running 4\n\
                0 state c runnable 5\n0 state d suspended 6\n0 state e blocked 2\n\
                0 state f dormant\n0 close\n";
        "DCL s SEMA; a: TASK PRIO 3 MAIN; PUT 1 TO tty BY F(1); END; b: TASK PRIO 3 MAIN; REQUEST s; \
            END; c: TASK PRIO 4 MAIN; PUT 2 TO tty BY F(1); END; d: TASK PRIO 3; END;",
            "turn b\nturn c\nturn d\nrun 1\nstate\nrun 9" =>
                "0 start a 3\n0 start b 3\n0 start c 4\n0 out 1 '1'\n\
                0 state a running 3\n0 state b blocked 3\n0 state c runnable 4\n\
                0 state d dormant\n0 end a\n0 out 1 '2'\n0 end c\n0 state a dormant\n\
                0 state b blocked 3\n0 state c dormant\n0 state d dormant\n0 close\n";
        "DCL s SEMA; a: TASK PRIO 4 MAIN; REQUEST s; PUT 'a' TO tty BY A; END; b: TASK PRIO 3 MAIN; \
            REQUEST s; PUT 'b' TO tty BY A; RELEASE s; END; c: TASK PRIO 9 MAIN; RELEASE s; PUT 'c' TO tty \
            BY A; END;",
            "run 1\nstate\nrun 20" =>
                "0 start a 4\n0 start b 3\n0 start c 9\n0 state a runnable 4\n\
                0 state b running 3\n0 state c runnable 9\n0 out 1 'b'\n0 end b\n\
                0 out 1 'a'\n0 end a\n0 out 1 'c'\n0 end c\n0 state a dormant\n\
                0 state b dormant\n0 state c dormant\n0 close\n";
        "DCL s SEMA PRESET(1); a: TASK PRIO 1 MAIN; REQUEST s; END; b: TASK PRIO 2 MAIN; PUT TRY s TO \
            tty BY B; REQUEST s; END;",
            "run 20" =>
                "0 start a 1\n0 start b 2\n0 end a\n0 out 1 '0'\n0 state a dormant\n\
                0 state b blocked 2\n0 close\n";
        "DCL (s, t) SEMA PRESET(1, 0); a: TASK PRIO 1 MAIN; IF TRY t OR TRY s THEN PUT 'y' TO tty BY A; \
            FIN; IF TRY s THEN PUT 'z' TO tty BY A; FIN; END;",
            "run 20" =>
                "0 start a 1\n0 out 1 'y'\n0 end a\n0 state a dormant\n0 close\n";
        "DCL x FIXED; DCL s SEMA; a: TASK PRIO 2 MAIN; FOR i TO 2 REPEAT x := x + 10; RELEASE s; END; \
            END; b: TASK PRIO 1 MAIN; FOR i TO 3 REPEAT REQUEST s; PUT x TO tty BY F(3); END; END;",
            "run 50" =>
                "0 start a 2\n0 start b 1\n0 out 1 ' 10'\n0 out 1 ' 20'\n0 end a\n\
                0 state a dormant\n0 state b blocked 1\n0 close\n";
        "DCL x FIXED;",
            "run 5\nstate" =>
                "0 close\n";
        "a: TASK; END;",
            "state\nrun 5" =>
                "0 state a dormant\n0 state a dormant\n0 close\n";
        "a: TASK PRIO 2 MAIN; PUT 1 TO tty BY F(1); PUT 2 TO tty BY F(1); END; b: TASK PRIO 3 MAIN; PUT \
            3 TO tty BY F(1); END;",
            "run 1" =>
                "0 start a 2\n0 start b 3\n0 out 1 '1'\n0 state a running 2\n\
                0 state b runnable 3\n0 close\n";
    ],
};

/// Only a declared task has its turn.
pub static REFUSED: Table = Table {
    words: RUN,
    around: (HEAD, TAIL),
    again: false,
    status: Status::BadJournal,
    about: ("", ""),
    rows: runs![
        "a: TASK MAIN; END;",
            "run 1\n\nturn b\nrun 1" =>
                "0 start a 255\n0 end a\nerror journal 3 2\n";
        "DCL s SEMA; a: TASK MAIN; END;",
            "turn s" =>
                "0 start a 255\nerror journal 1 2\n";
    ],
};

/// A module of whose transcript each line may fail to be written.
pub const WATCHED: &str =
    "MODULE(m); SYSTEM; tty: TERMINAL(1);\nPROBLEM; SPC tty DATION OUT ALPHIC;\n\
    DCL s SEMA;\n\
    a: TASK PRIO 1 MAIN; ACTIVATE b; REQUEST s; PUT 'a' TO tty BY A; TERMINATE b; END;\n\
    b: TASK PRIO 2; PUT 'b' TO tty BY A; RELEASE s; REPEAT END; END;\nMODEND;\n";

pub const WATCHED_LINES: [&str; 11] = [
    "0 start a 1\n",
    "0 start b 2\n",
    "0 out 1 'b'\n",
    "0 state a blocked 1\n",
    "0 state b running 2\n",
    "0 out 1 'a'\n",
    "0 stop b\n",
    "0 end a\n",
    "0 state a dormant\n",
    "0 state b dormant\n",
    "0 close\n",
];

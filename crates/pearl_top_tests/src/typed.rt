// What `run` writes of inputs and outputs with a kind: GET, TAKE, SEND, and the lines of a journal that bring inputs.

use crate::case::{RUN, Table};
use crate::whole::TAIL;
use pearl_top::status::Status;

/// What stands before the declarations of a module with devices of all kinds.
pub const HEAD: &str =
    "MODULE(m); SYSTEM; tty: TERMINAL(1); dial: TERMINAL(2); lamp: TERMINAL(3);\n\
    level: INPUT(1); door: INPUT(2); code: INPUT(3); hour: INPUT(4); span: INPUT(5);\n\
    pump: OUTPUT(1); gate: OUTPUT(2); sign: OUTPUT(3); bell: OUTPUT(4); wait: OUTPUT(5);\n\
    PROBLEM; SPC tty DATION INOUT ALPHIC, dial DATION IN ALPHIC, lamp DATION OUT ALPHIC;\n\
    SPC level DATION IN BASIC FIXED(15), door DATION IN BASIC BIT(4), code DATION IN BASIC CHAR(3);\n\
    SPC hour DATION IN BASIC CLOCK, span DATION IN BASIC DURATION, pump DATION OUT BASIC FIXED(15);\n\
    SPC gate DATION OUT BASIC BIT(4), sign DATION OUT BASIC CHAR(3), bell DATION OUT BASIC CLOCK;\n\
    SPC wait DATION OUT BASIC DURATION;\n";

/// Texts that come in at terminals.
pub static TEXTS: Table = Table {
    words: RUN,
    around: (HEAD, TAIL),
    again: false,
    status: Status::Done,
    about: ("", ""),
    rows: runs![
        "a: TASK MAIN; DCL n FIXED; REPEAT GET n FROM tty BY F(3); PUT n + 1 TO tty BY F(4), SKIP; END; \
            END;",
            "run 10\nchars 1 '12'\nrun 10\nstate\nchars 1 '3'\nrun 10\nchars 1 '1x2'\nrun 10" =>
                "0 start a 255\n0 state a blocked 255\n0 out 1 ' 124\\n'\n0 trap a Format\n\
                0 state a dormant\n0 close\n";
        "a: TASK MAIN; DCL n FIXED, m FIXED; GET n, m FROM tty BY F(3), SKIP, F(4), SKIP; PUT n, m TO \
            tty BY F(3), F(4); END;",
            "run 9\nline 1 '12'\nstate\nline 1 ' -7 rest'\nrun 9" =>
                "0 start a 255\n0 state a blocked 255\n0 out 1 ' 12  -7'\n0 end a\n0 state a dormant\n\
                0 close\n";
        "a: TASK PRIO 1 MAIN; DCL (n, m) FIXED; GET n, m FROM tty BY F(3), F(3); END; b: TASK PRIO 2 \
            MAIN; DCL s CHAR(2); GET s FROM tty BY SKIP, A; PUT s TO tty BY A; END;",
            "run 9\nline 1 '12'\nchars 1 'ab'\nrun 9" =>
                "0 start a 1\n0 start b 2\n0 trap a Format\n0 out 1 'ab'\n0 end b\n0 state a dormant\n\
                0 state b dormant\n0 close\n";
        "a: TASK PRIO 1 MAIN; DCL (n, m) FIXED; GET n, m FROM tty BY F(2), F(2); END; b: TASK PRIO 2 \
            MAIN; DCL s CHAR(3); GET s FROM tty BY A(3); PUT s TO tty BY A; END;",
            "run 9\nchars 1 '1xabc'\nrun 9" =>
                "0 start a 1\n0 start b 2\n0 trap a Format\n0 out 1 'abc'\n0 end b\n0 state a dormant\n\
                0 state b dormant\n0 close\n";
        "a: TASK PRIO 1 MAIN; DCL (n, m) FIXED; GET n, m FROM tty BY F(2), F(2); PUT n + m TO tty BY \
            F(3); END;",
            "run 9\nchars 1 '1'\nrun 9\nstate\nchars 1 ' x'\nrun 9\nstate\nchars 1 ' '\nrun 9" =>
                "0 start a 1\n0 state a blocked 1\n0 state a blocked 1\n0 trap a Format\n\
                0 state a dormant\n0 close\n";
        "a: TASK MAIN; DCL c CHAR(2), d CHAR(4), e CHAR(3); GET c, d, e FROM tty BY A(4), A(1), A; PUT \
            c, d, e TO tty BY A, A, A; END;",
            "run 9\nchars 1 'abcdefgh'\nrun 9" =>
                "0 start a 255\n0 out 1 'abe   fgh'\n0 end a\n0 state a dormant\n0 close\n";
        "a: TASK MAIN; DCL c CHAR(3), d CHAR(3); GET c, d FROM tty BY A, SKIP, A, SKIP; PUT c, d TO tty \
            BY A, A; END;",
            "run 9\nline 1 'it''s'\nline 1 ''\nrun 9" =>
                "0 start a 255\n0 out 1 'it''   '\n0 end a\n0 state a dormant\n0 close\n";
        "a: TASK MAIN; DCL b BIT(3), d BIT(8); GET b, d FROM tty BY B(5), B4(2); PUT b, d TO tty BY B, \
            B4; END;",
            "run 9\nchars 1 '110  A1'\nrun 9" =>
                "0 start a 255\n0 out 1 '110A1'\n0 end a\n0 state a dormant\n0 close\n";
        "a: TASK MAIN; DCL b BIT(3); GET b FROM tty BY B4; PUT b TO tty BY B; END;",
            "run 9\nchars 1 'E'\nrun 9" =>
                "0 start a 255\n0 out 1 '111'\n0 end a\n0 state a dormant\n0 close\n";
        "a: TASK MAIN; DCL b BIT(3); GET b FROM tty BY B4; END;",
            "run 9\nchars 1 'F'\nrun 9" =>
                "0 start a 255\n0 trap a Format\n0 state a dormant\n0 close\n";
        "a: TASK MAIN; DCL t CLOCK, d DURATION; GET t, d FROM tty BY T(12), SKIP, D(30), SKIP; PUT t, d \
            TO tty BY T(12), X, D(26); END;",
            "run 9\nline 1 ' 9:05:07.05'\nline 1 '- 1 HRS  2 MIN 0.5 SEC'\nrun 9" =>
                "0 start a 255\n0 out 1 '09:05:07.050   -1 HRS 02 MIN 00.500 SEC'\n0 end a\n\
                0 state a dormant\n0 close\n";
        "a: TASK MAIN; DCL t CLOCK; GET t FROM tty BY T(8); END;",
            "run 9\nchars 1 '24:00:00'\nrun 9" =>
                "0 start a 255\n0 trap a Format\n0 state a dormant\n0 close\n";
        "a: TASK MAIN; DCL n FIXED(15); GET n FROM tty BY F(5); END;",
            "run 9\nchars 1 '32768'\nrun 9" =>
                "0 start a 255\n0 trap a Format\n0 state a dormant\n0 close\n";
        "a: TASK MAIN; DCL n FIXED(15); GET n FROM tty BY F(6); PUT n TO tty BY F(6); END;",
            "run 9\nchars 1 '-32768'\nrun 9" =>
                "0 start a 255\n0 out 1 '-32768'\n0 end a\n0 state a dormant\n0 close\n";
        "a: TASK MAIN; DCL n FIXED, m FIXED; GET n, m FROM tty BY F(4), X(2), F(3); PUT n, m TO tty BY \
            F(3), F(3); END;",
            "run 9\nchars 1 '+17 xx 08'\nrun 9" =>
                "0 start a 255\n0 out 1 ' 17  8'\n0 end a\n0 state a dormant\n0 close\n";
        "a: TASK MAIN; DCL n FIXED; GET n FROM tty BY F(3), SKIP; END;",
            "run 9\nline 1 ''\nrun 9" =>
                "0 start a 255\n0 trap a Format\n0 state a dormant\n0 close\n";
        "a: TASK MAIN; GET FROM tty BY SKIP(2); PUT 'on' TO tty BY A; END;",
            "run 9\nline 1 'x'\nrun 9\nstate\nline 1 ''\nrun 9" =>
                "0 start a 255\n0 state a blocked 255\n0 out 1 'on'\n0 end a\n0 state a dormant\n\
                0 close\n";
        "DCL v(3) FIXED, i FIXED INIT(2); a: TASK MAIN; GET i, v(i), i FROM tty BY F(1), F(1), F(1); PUT \
            i, v(1), v(2), v(3) TO tty BY F(2), F(2), F(2), F(2); END;",
            "run 9\nchars 1 '135'\nrun 9" =>
                "0 start a 255\n0 out 1 ' 5 0 3 0'\n0 state a running 255\n0 close\n";
        "DCL v(3) FIXED, x FIXED; f: PROC(n FIXED) RETURNS(FIXED); x := x * 10 + n; RETURN(n); END; a: \
            TASK PRIO 1 MAIN; GET v(f(1)), v(f(2)), v(f(9)) FROM tty BY F(1), F(1), F(1); END; b: TASK PRIO \
            2 MAIN; PUT x, v(1) TO tty BY F(4), F(2); END;",
            "run 9\nchars 1 '777'\nrun 60" =>
                "0 start a 1\n0 start b 2\n0 trap a Index\n0 out 1 ' 129 0'\n0 end b\n0 state a dormant\n\
                0 state b dormant\n0 close\n";
        "a: TASK PRIO 5 MAIN; DCL s CHAR(1); REPEAT GET s FROM tty BY A; PUT 'a', s TO tty BY A, A; END; \
            END; b: TASK PRIO 4 MAIN; DCL s CHAR(2); GET s FROM tty BY A; PUT 'b', s TO tty BY A, A; END;",
            "run 9\nchars 1 'x'\nrun 9\nchars 1 'yz'\nrun 2\nchars 1 'w'\nrun 9" =>
                "0 start a 5\n0 start b 4\n0 out 1 'ax'\n0 out 1 'byz'\n0 end b\n0 out 1 'aw'\n\
                0 state a blocked 5\n0 state b dormant\n0 close\n";
        "a: TASK MAIN; DCL (s, t) CHAR(1); GET s FROM dial BY A; GET t FROM tty BY A; PUT s, t TO lamp \
            BY A, A, SKIP; END;",
            "chars 1 'x'\nrun 9\nchars 2 'y'\nrun 9" =>
                "0 start a 255\n0 out 3 'yx\\n'\n0 end a\n0 state a dormant\n0 close\n";
    ],
};

/// Values that are taken and sent.
pub static VALUES: Table = Table {
    words: RUN,
    around: (HEAD, TAIL),
    again: false,
    status: Status::Done,
    about: ("", ""),
    rows: runs![
        "a: TASK MAIN; DCL n FIXED; TO 3 REPEAT TAKE n FROM level; PUT n TO tty BY F(7); END; END;",
            "value 1 7\nvalue 1 -32768\nrun 20\nstate\nvalue 1 - 7\nrun 9" =>
                "0 start a 255\n0 out 1 '      7'\n0 out 1 ' -32768'\n0 state a blocked 255\n\
                0 out 1 '     -7'\n0 end a\n0 state a dormant\n0 close\n";
        "a: TASK MAIN; DCL b BIT(5); TAKE b FROM door; PUT b TO tty BY B; TAKE b FROM door; PUT b TO tty \
            BY B; END;",
            "value 2 '1'B\nvalue 2 'F'B4\nrun 9" =>
                "0 start a 255\n0 out 1 '10000'\n0 out 1 '11110'\n0 end a\n0 state a dormant\n0 close\n";
        "a: TASK MAIN; DCL c CHAR(4); TO 2 REPEAT TAKE c FROM code; PUT c TO tty BY A; END; END;",
            "value 3 'a'\nvalue 3 'o''k'\nrun 20" =>
                "0 start a 255\n0 out 1 'a   '\n0 out 1 'o''k '\n0 end a\n0 state a dormant\n0 close\n";
        "a: TASK MAIN; DCL c CLOCK, d DURATION; TAKE c FROM hour; TAKE d FROM span; PUT c, d TO tty BY \
            T(12), X, D(26); END;",
            "value 4 9:05:07.05\nvalue 5 - 1 HRS \t 61 MIN 0.5 SEC\nrun 9" =>
                "0 start a 255\n0 out 1 '09:05:07.050   -2 HRS 01 MIN 00.500 SEC'\n0 end a\n\
                0 state a dormant\n0 close\n";
        "DCL v(3) FIXED(15); a: TASK PRIO 1 MAIN; FOR k TO 3 REPEAT TAKE v(k) FROM level; END; TAKE v(4) \
            FROM level; END; b: TASK PRIO 2 MAIN; PUT v(1), v(2), v(3) TO tty BY F(3), F(3), F(3); END;",
            "run 40\nvalue 1 1\nvalue 1 2\nvalue 1 3\nrun 40" =>
                "0 start a 1\n0 start b 2\n0 out 1 '  0  0  0'\n0 end b\n0 trap a Index\n\
                0 state a dormant\n0 state b dormant\n0 close\n";
        "DCL n FIXED(7); a: TASK MAIN; END; b: TASK PRIO 3 MAIN; TAKE n FROM level; END;",
            "value 1 127\nrun 9" =>
                "0 start a 255\n0 start b 3\n0 end b\n0 end a\n0 state a dormant\n0 state b dormant\n\
                0 close\n";
        "DCL n FIXED(7); a: TASK PRIO 3 MAIN; TAKE n FROM level; END; b: TASK PRIO 4 MAIN; TAKE n FROM \
            level; PUT n TO tty BY F(4); END;",
            "value 1 128\nvalue 1 5\nrun 9" =>
                "0 start a 3\n0 start b 4\n0 trap a Overflow\n0 out 1 '   5'\n0 end b\n\
                0 state a dormant\n0 state b dormant\n0 close\n";
        "DCL x FIXED INIT(-32768); a: TASK MAIN; SEND x TO pump; SEND 17 TO pump; SEND '1'B TO gate; \
            SEND 'it''' TO sign; SEND 'a' TO sign; SEND 9:05:07.05 TO bell; SEND NOW TO bell; SEND 90 MIN \
            TO wait; SEND -1 HRS TO wait; SEND x - 1 TO pump; END;",
            "clock 23:59:59\nrun 20\n" =>
                "0 start a 255\n0 send 1 -32768\n0 send 1 17\n0 send 2 '1000'B\n0 send 3 'it'''\n\
                0 send 3 'a  '\n0 send 4 09:05:07.050\n0 send 4 23:59:59\n\
                0 send 5 1 HRS 30 MIN 00.000 SEC\n0 send 5 -1 HRS 00 MIN 00.000 SEC\n0 trap a Overflow\n\
                0 state a dormant\n0 close\n";
        "a: TASK PRIO 2 MAIN; REPEAT DCL n FIXED; TAKE n FROM level; SEND n // 2 TO pump; END; END; b: \
            TASK PRIO 1; SEND 0 TO pump; END; c: TASK PRIO 3 MAIN; AFTER 1 SEC ALL 1 SEC DURING 1 SEC \
            ACTIVATE b; END;",
            "run 9\nvalue 1 100\nvalue 1 50\npass 1500 9\nvalue 1 7\nrun 9\npass 1000 9" =>
                "0 start a 2\n0 start c 3\n0 end c\n1 send 1 50\n1 send 1 25\n1000 start b 1\n\
                1000 send 1 0\n1000 end b\n1500 send 1 3\n2000 start b 1\n2000 send 1 0\n2000 end b\n\
                2500 state a blocked 2\n2500 state b dormant\n2500 state c dormant\n2500 close\n";
    ],
};

/// An input that is none is refused.
pub static REFUSED: Table = Table {
    words: RUN,
    around: (HEAD, TAIL),
    again: false,
    status: Status::BadJournal,
    about: ("", ""),
    rows: runs![
        "a: TASK; END;",
            "value 9 1" =>
                "error journal 1 2\n";
        "a: TASK; END;",
            "value 1 40000" =>
                "error journal 1 4\n";
        "a: TASK; END;",
            "value 1 -32769" =>
                "error journal 1 4\n";
        "a: TASK; END;",
            "value 1 'a'" =>
                "error journal 1 4\n";
        "a: TASK; END;",
            "value 1 '1'B" =>
                "error journal 1 4\n";
        "a: TASK; END;",
            "value 1 1 SEC" =>
                "error journal 1 4\n";
        "a: TASK; END;",
            "value 2 '10000'B" =>
                "error journal 1 4\n";
        "a: TASK; END;",
            "value 3 'abcd'" =>
                "error journal 1 4\n";
        "a: TASK; END;",
            "value 4 24:00:00" =>
                "error journal 1 1\n";
        "a: TASK; END;",
            "value 5 400000 HRS" =>
                "error journal 1 4\n";
        "a: TASK; END;",
            "value 1 1 1" =>
                "error journal 1 1\n";
        "a: TASK; END;",
            "value 1" =>
                "error journal 1 1\n";
        "a: TASK; END;",
            "value 1 + 1" =>
                "error journal 1 1\n";
        "a: TASK; END;",
            "value 1 9223372036854775808" =>
                "error journal 1 1\n";
        "a: TASK; END;",
            "value 3 ''" =>
                "error journal 1 1\n";
        "a: TASK; END;",
            "value 6 'a'" =>
                "error journal 1 2\n";
        "a: TASK; END;",
            "chars 9 'a'" =>
                "error journal 1 2\n";
        "a: TASK; END;",
            "chars 3 'a'" =>
                "error journal 1 2\n";
        "a: TASK; END;",
            "line 3 ''" =>
                "error journal 1 2\n";
        "a: TASK; END;",
            "chars 1 ''" =>
                "error journal 1 1\n";
        "a: TASK; END;",
            "chars 1 a" =>
                "error journal 1 1\n";
        "a: TASK; END;",
            "chars 1 'a' 'b'" =>
                "error journal 1 1\n";
        "a: TASK; END;",
            "chars 1 'a" =>
                "error journal 1 1\n";
        "a: TASK; END;",
            "chars 1" =>
                "error journal 1 1\n";
        "a: TASK; END;",
            "line 1" =>
                "error journal 1 1\n";
        "a: TASK; END;",
            "value 5 1 SEC2 MIN" =>
                "error journal 1 1\n";
        "a: TASK; END;",
            "value 5 1 HRS2 MIN" =>
                "error journal 1 1\n";
        "a: TASK; END;",
            "value 9 'a'" =>
                "error journal 1 2\n";
        "a: TASK MAIN; DCL n FIXED; TAKE n FROM level; PUT n TO tty BY F(3); END;",
            "value 1 5\nrun 9\nvalue 1 32768\nrun 9" =>
                "0 start a 255\n0 out 1 '  5'\n0 end a\nerror journal 3 4\n";
    ],
};

// What `run` writes of one task with all kinds of statements, expressions, procedures, arrays and structures.

use crate::case::{RUN, Table};
use pearl_top::status::Status;

/// What stands before the declarations of a module with a terminal and an interrupt.
pub const HEAD: &str = "MODULE(m); SYSTEM; tty: TERMINAL(1); irq: INTERRUPT(3);\n\
    PROBLEM; SPC tty DATION INOUT ALPHIC, irq INTERRUPT;\n";

/// What stands behind the declarations of a module.
pub const TAIL: &str = "\nMODEND;\n";

/// How the transcript of the task `main` begins.
pub const BEGIN: &str = "0 start main 255\n";

/// How a transcript ends in the first millisecond.
pub const END: &str = "0 close\n";

/// What stands between the head and MODEND with a journal, and the transcript between the start of `main` and the close.
pub static BODIES: Table = Table {
    words: RUN,
    around: (HEAD, TAIL),
    again: false,
    status: Status::Done,
    about: (BEGIN, END),
    rows: runs![
        "main: TASK MAIN; FOR i FROM 2147483646 TO 2147483647 REPEAT PUT i TO tty BY \
            F(10); END; END;",
            "run 10" => "0 out 1 '2147483646'\n0 out 1 '2147483647'\n0 end main\n0 state main dormant\n";
        "main: TASK MAIN; FOR i FROM 2147483646 REPEAT PUT i TO tty BY F(10); END; END;",
            "run 10" => "0 out 1 '2147483646'\n0 out 1 '2147483647'\n0 trap main Overflow\n0 state main dormant\n";
        "main: TASK MAIN; FOR i BY 0 TO 3 REPEAT END; END;",
            "run 10" => "0 trap main Range\n0 state main dormant\n";
        "main: TASK MAIN; FOR i FROM 3 BY -1 TO 1 REPEAT PUT i TO tty BY F(1); END; END;",
            "run 20" => "0 out 1 '3'\n0 out 1 '2'\n0 out 1 '1'\n0 end main\n0 state main dormant\n";
        "DCL x FIXED; main: TASK MAIN; WHILE x < 3 REPEAT x := x + 1; PUT x TO tty BY \
            F(1); END; END;",
            "run 50" => "0 out 1 '1'\n0 out 1 '2'\n0 out 1 '3'\n0 end main\n0 state main dormant\n";
        "DCL x FIXED; main: TASK MAIN; REPEAT REPEAT x := x + 1; IF x > 1 THEN EXIT; FIN; \
            END; IF x > 4 THEN EXIT; FIN; x := 4; END; PUT x TO tty BY F(2); END;",
            "run 100" => "0 out 1 ' 5'\n0 end main\n0 state main dormant\n";
        "DCL x FIXED; main: TASK MAIN; REPEAT CASE 9 ALT x := 8; OUT EXIT; FIN; x := 9; END; \
            PUT x TO tty BY F(2); END;",
            "run 10" => "0 out 1 ' 0'\n0 end main\n0 state main dormant\n";
        "DCL x FIXED INIT(2); main: TASK MAIN; IF x EQ 1 THEN PUT 'a' TO tty BY A; ELSE \
            PUT 'b' TO tty BY A; FIN; END;",
            "run 10" => "0 out 1 'b'\n0 end main\n0 state main dormant\n";
        "main: TASK MAIN; FOR i FROM 0 TO 3 REPEAT CASE i ALT PUT 'a' TO tty BY A; ALT \
            PUT 'b' TO tty BY A; OUT PUT 'o' TO tty BY A; FIN; END; END;",
            "run 20" => "0 out 1 'o'\n0 out 1 'a'\n0 out 1 'b'\n0 out 1 'o'\n0 end main\n0 state main dormant\n";
        "main: TASK MAIN; CASE 3 ALT ; ALT ; FIN; PUT 'x' TO tty BY A; END;",
            "run 20" => "0 out 1 'x'\n0 end main\n0 state main dormant\n";
        "main: TASK MAIN; PUT -7 // 2, -7 REM 2, 7 // -2, 7 REM -2 TO tty BY F(3), F(3), \
            F(3), F(3); END;",
            "run 5" => "0 out 1 ' -3 -1 -3  1'\n0 end main\n0 state main dormant\n";
        "main: TASK MAIN; PUT 1 // 0 TO tty BY F(3); END;",
            "run 5" => "0 trap main ZeroDivide\n0 state main dormant\n";
        "main: TASK MAIN; PUT 23:59:59.5 + 1 SEC TO tty BY T(12); PUT 1 HRS 2 MIN 3 SEC \
            TO tty BY D(20); END;",
            "run 5" => "0 out 1 '00:00:00.500'\n0 trap main Format\n0 state main dormant\n";
        "DCL x FIXED; main: TASK MAIN; PUT (x > 0) AND (1 // x > 0) TO tty BY B; END;",
            "run 5" => "0 trap main ZeroDivide\n0 state main dormant\n";
        "DCL v(3) FIXED; main: TASK MAIN; v(4) := 1; END;",
            "run 5" => "0 trap main Index\n0 state main dormant\n";
        "DCL v(-1:1, 2) FIXED; main: TASK MAIN; FOR i FROM -1 TO 1 REPEAT FOR j TO 2 \
            REPEAT v(i, j) := 10 * i + j; END; END; PUT v(-1, 2), v(1, 1), LWB v, 2 UPB v TO \
            tty BY F(4), F(4), F(3), F(3); END;",
            "run 100" => "0 out 1 '  -8  11 -1  2'\n0 end main\n0 state main dormant\n";
        "DCL r(2) STRUCT[n FIXED, h(2) STRUCT[a FIXED, b CHAR(3)]]; main: TASK MAIN; \
            r(2).h(1).a := 5; r(2).h(1).b := 'abc'; r(1).n := r(2).h(1).a + 1; PUT r(1).n, \
            r(2).h(1).b, r(2).h(2).a TO tty BY F(2), A, F(2); END;",
            "run 20" => "0 out 1 ' 6abc 0'\n0 end main\n0 state main dormant\n";
        "DCL (p, q) FIXED INIT(3, 4); sw: PROC((x, y) FIXED IDENT); DCL h FIXED; h := x; \
            x := y; y := h; END; main: TASK MAIN; CALL sw(p, q); PUT p, q TO tty BY F(2), \
            F(2); END;",
            "run 20" => "0 out 1 ' 4 3'\n0 end main\n0 state main dormant\n";
        "DCL (p, q) FIXED INIT(3, 4); sw: PROC((x, y) FIXED IDENT); DCL h FIXED; h := x; \
            x := y; y := h; END; main: TASK MAIN; CALL sw(p, q); PUT p, q TO tty BY F(2), \
            F(2); END;",
            "run 8" => "0 out 1 ' 4 3'\n0 state main running 255\n";
        "f: PROC(n FIXED) RETURNS(FIXED); IF n < 2 THEN RETURN(1); FIN; RETURN(n * g(n - \
            1)); END; g: PROC(n FIXED) RETURNS(FIXED); RETURN(n + 10); END; main: TASK MAIN; \
            PUT f(1), f(5) TO tty BY F(4), F(4); END;",
            "run 20" => "0 out 1 '   1  70'\n0 end main\n0 state main dormant\n";
        "f: PROC RETURNS(FIXED); END; main: TASK MAIN; PUT f TO tty BY F(4); END;",
            "run 20" => "0 trap main Range\n0 state main dormant\n";
        "f: PROC(n FIXED(7)) RETURNS(FIXED(7)); RETURN(n + 100); END; main: TASK MAIN; \
            PUT f(27) TO tty BY F(4); PUT f(28) TO tty BY F(4); END;",
            "run 20" => "0 out 1 ' 127'\n0 trap main Overflow\n0 state main dormant\n";
        "in: PROC(e FIXED IDENT); e := e + 1; END; mid: PROC(e FIXED IDENT); CALL in(e); \
            CALL in(e); END; main: TASK MAIN; DCL a(3) FIXED INIT(1, 2, 3); CALL mid(a(2)); \
            PUT a(1), a(2), a(3) TO tty BY F(2), F(2), F(2); END;",
            "run 30" => "0 out 1 ' 1 4 3'\n0 end main\n0 state main dormant\n";
        "c: PROC; DCL n FIXED INIT(1); n := n + 1; PUT n TO tty BY F(2); END; main: TASK \
            MAIN; CALL c; CALL c; TO 2 REPEAT DCL k FIXED; k := k + 1; PUT k TO tty BY F(2); \
            END; END;",
            "run 30" => "0 out 1 ' 2'\n0 out 1 ' 2'\n0 out 1 ' 1'\n0 out 1 ' 1'\n0 end main\n0 state main dormant\n";
        "DCL x FIXED; f: PROC(n FIXED) RETURNS(FIXED); x := x * 10 + n; RETURN(n); END; \
            DCL v(9) FIXED; main: TASK MAIN; v(f(1)) := f(2) - f(3) * f(4); PUT x TO tty BY \
            F(5); END;",
            "run 40" => "0 out 1 ' 1234'\n0 end main\n0 state main dormant\n";
        "DCL b BIT(8) INIT('0F'B4); main: TASK MAIN; PUT b AND '00110011'B, NOT b, b CAT \
            '1'B TO tty BY B(8), B(8), B(9); END;",
            "run 10" => "0 out 1 '0000001111110000000011111'\n0 end main\n0 state main dormant\n";
        "LENGTH FIXED(15); DCL k INV FIXED INIT(7), t INV CHAR(2) INIT('ab'); DCL c \
            CHAR(5); main: TASK MAIN; c := t >< 'cd'; PUT c, k TO tty BY A, F(3); BEGIN DCL \
            k FIXED INIT(32767); k := k + 1; END; END;",
            "run 20" => "0 out 1 'abcd   7'\n0 trap main Overflow\n0 state main dormant\n";
        "main: TASK MAIN; PUT 12:30:00 + 2 HRS 5 MIN 3.5 SEC, 1:00:00 - 2:00:00 TO tty BY \
            T(12), SKIP, D(24); END;",
            "run 10" => "0 out 1 '14:35:03.500\\n-1 HRS 00 MIN 00.000 SEC'\n0 end main\n0 state main dormant\n";
        "DCL n FIXED INIT(2); main: TASK MAIN; TO n REPEAT n := n + 5; PUT n TO tty BY \
            F(3); END; END;",
            "run 40" => "0 out 1 '  7'\n0 out 1 ' 12'\n0 end main\n0 state main dormant\n";
        "main: TASK MAIN; REPEAT END; END;",
            "run 3" => "0 state main running 255\n";
        "main: TASK MAIN; CASE 1 ALT PUT 'a' TO tty BY A; OUT PUT 'o' TO tty BY A; FIN; \
            END;",
            "run 20" => "0 out 1 'a'\n0 end main\n0 state main dormant\n";
        "f: PROC RETURNS(FIXED); PUT 'f' TO tty BY A; RETURN(1); END; main: TASK MAIN; \
            CALL f; f; END;",
            "run 20" => "0 out 1 'f'\n0 out 1 'f'\n0 end main\n0 state main dormant\n";
    ],
};

// Small modules with the code of their routines, worked out by hand.

use crate::instruction_text::code_text;
use crate::source::{Made, made_of};
use std::alloc::{AllocError, Global};
use std::test::Fail;

// A table with a case in each line: the parts of a module, and the code of its routines.
macro_rules! codes {
    ($($parts:literal => $code:literal;)*) => { &[$(($parts, $code)),*] };
}

fn modules() -> &'static [(&'static str, &'static str)] {
    codes![
        "PROBLEM;DCL x FIXED,v(2:4) FIXED,i FIXED;t:TASK MAIN;x:=v(i)+1;END;"
            => "read 2;index 2:4;readat 1;FIXED31:1;Add;conv FIXED31;write 0;end;|";
        "PROBLEM;t:TASK MAIN;DCL x FIXED,v(2:4) FIXED INIT(8),i FIXED INIT(3);v(i):=x;END;"
            => "fill 0*1 FIXED31;FIXED31:8;store 1;load 1;store 2;load 2;store 3;FIXED31:3;store 4;load 4;index 2:4;load 0;conv FIXED31;storeat 1*3;end;|";
        "PROBLEM;DCL n FIXED,b BIT;t:TASK MAIN;FOR k TO 3 REPEAT n:=k;IF b THEN EXIT;FIN;END;END;"
            => "FIXED31:1;conv FIXED31;store 0;FIXED31:1;conv FIXED31;nonzero;store 1;FIXED31:3;conv FIXED31;store 2;turn;within 0;jumpzero 21;load 0;conv FIXED31;write 0;read 1;jumpzero 19;jump 21;advance 0 past 21;jump 10;end;|";
        "PROBLEM;DCL b BIT;t:TASK MAIN;FOR k FROM 5 BY -2 WHILE b REPEAT END;END;"
            => "FIXED31:5;conv FIXED31;store 0;FIXED31:2;Minus;conv FIXED31;nonzero;store 1;turn;read 0;jumpzero 14;advance 0 past 13;jump 8;Overflow;end;|";
        "PROBLEM;DCL n FIXED,b BIT;t:TASK MAIN;WHILE b REPEAT IF b THEN n:=1;ELSE n:=2;FIN;END;END;"
            => "turn;read 1;jumpzero 13;read 1;jumpzero 9;FIXED31:1;conv FIXED31;write 0;jump 12;FIXED31:2;conv FIXED31;write 0;jump 0;end;|";
        "PROBLEM;DCL n FIXED;t:TASK MAIN;CASE n ALT n:=1;ALT OUT n:=3;FIN;END;"
            => "read 0;case 6 10;FIXED31:3;conv FIXED31;write 0;jump 11;FIXED31:1;conv FIXED31;write 0;jump 11;jump 11;end;|";
        "SYSTEM;tty:TERMINAL(1);PROBLEM;SPC tty DATION INOUT ALPHIC;DCL n FIXED,a(2,3) CHAR(4);p:PROC(x FIXED IDENT);GET x,a(1,x) FROM tty BY F(3),A(4);END;t:TASK MAIN;p(n);PUT 'x',n TO tty BY A,F(2);END;"
            => "FIXED31:0;store 3;FIXED31:1;load 0;readref;index 1:2 1:3;store 4;fill 1*1 FIXED31;fill 2*1 CHAR4;get 0 0 into 1;load 0;load 1;writeref;load 4;load 2;writeat 1;return;|refslot 0;call 0;'x';read 0;put 0 1;end;|";
        "SYSTEM;irq:INTERRUPT(4);PROBLEM;SPC irq INTERRUPT;DCL d DURATION,c CLOCK;t:TASK MAIN;WHEN irq AFTER 1 SEC ALL d UNTIL 12:0:0 ACTIVATE u PRIO 3;ACTIVATE t;CONTINUE u;AT c RESUME;PREVENT;SUSPEND u;END;u:TASK;TERMINATE;END;"
            => "DURATION:1000;read 0;CLOCK:43200000;FIXED31:3;activate 1 WhenAfter(0) Until prio;activate 0 Free Once;continue 1;read 1;resume At;prevent;suspend 1;end;|terminate;end;|";
        "SYSTEM;h:OUTPUT(1);irq:INTERRUPT(4);m:INPUT(7);PROBLEM;SPC h DATION OUT BASIC CHAR(3),m DATION IN BASIC FIXED(9),irq INTERRUPT;DCL r SEMA,s SEMA PRESET(1),b BIT,v(2) FIXED;t:TASK MAIN;REQUEST s,r;RELEASE r;b:=TRY s;SEND 'a' TO h;TAKE v(2) FROM m;ENABLE irq;TRIGGER irq;END;"
            => "request 1 0;release 0;try 1;conv BIT1;write 0;'a';conv CHAR3;send 2;FIXED31:2;index 1:2;take 1;conv FIXED31;writeat 1;enable 0;trigger 0;end;|";
        "PROBLEM;DCL a FIXED;p:PROC(x FIXED(40),y BIT(2) IDENT)RETURNS(FIXED(7));y:='1'B;RETURN(x);END;t:TASK MAIN;DCL e(0:3) BIT(2);p(a,e(a));a:=p(1,e(0));END;"
            => "load 1;BIT1:1;conv BIT2;writeref;load 0;conv FIXED7;return;Range;|fill 0*4 BIT2;read 0;conv FIXED40;read 0;index 0:3;refcellat 0*4;call 0;drop;FIXED31:1;conv FIXED40;FIXED31:0;index 0:3;refcellat 0*4;call 0;conv FIXED31;write 0;end;|";
    ]
}

fn told(alloc: Global, parts: &str) -> Result<String, AllocError> {
    let source = format!(in alloc; "MODULE;{parts}MODEND")?;
    match made_of(alloc, source.as_str().as_bytes())? {
        Made::Object(object) => code_text(alloc, object.parts()),
        _ => String::from_str(alloc, "no object"),
    }
}

fn is_told(alloc: Global, parts: &str, expected: &str) -> Result<bool, AllocError> {
    let found = told(alloc, parts)?;
    Ok(found.as_str() == expected)
}

#[test]
fn small_modules_have_this_code(rt: HostRuntime) -> Result<(), Fail> {
    for &(parts, expected) in modules() {
        assert!(rt; is_told(rt.alloc(), parts, expected)?, "{parts}");
    }
    Ok(())
}

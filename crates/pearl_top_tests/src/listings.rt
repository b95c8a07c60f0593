// What `list` writes of the objects of small modules, worked out by hand.

use crate::case::{COMPILE, LIST, ROOM, end_of};
use pearl_top::status::Status;
use std::alloc::{AllocError, Global};
use std::test::Fail;

// A table with a case in each line: the parts of a module, and its listing.
macro_rules! listings {
    ($($parts:literal => $text:literal;)*) => { [$(($parts, $text)),*] };
}

static LISTINGS: [(&str, &str); 8] = listings![
    "SYSTEM;button:INTERRUPT(1);light:OUTPUT(2);PROBLEM;SPC button INTERRUPT;\
        SPC light DATION OUT BASIC BIT(1);DCL count FIXED INIT(3);\
        start:TASK MAIN;WHEN button ACTIVATE flash;ENABLE button;END;\
        flash:TASK PRIO 5;count:=count-1;SEND '1'B TO light;END;"
        => "device INTERRUPT 1\ndevice OUTPUT 2\nleaf 0 count FIXED(31) 1\n\
            task start prio 255 main cells 0 depth 2\n0 Activate 1 3 0 0 0\n1 Enable 0\n2 End\n\
            task flash prio 5 cells 0 depth 4\n0 Read 0\n1 Const FIXED(31) 1\n2 Sub\n3 Conv FIXED(31)\n4 Write 0\n\
            5 Const BIT(1) '1'B\n6 Conv BIT(1)\n7 Send 1\n8 End\n";
    "PROBLEM;DCL x FIXED,v(2:4) FIXED,i FIXED;t:TASK MAIN;x:=v(i)+1;END;"
        => "leaf 0 x FIXED(31) 1\nleaf 1 v FIXED(31) 3\nleaf 2 i FIXED(31) 1\n\
            task t prio 255 main cells 0 depth 5\n0 Read 2\n1 Index 2 4\n2 ReadAt 1\n3 Const FIXED(31) 1\n4 Add\n\
            5 Conv FIXED(31)\n6 Write 0\n7 End\n";
    "PROBLEM;DCL a FIXED;p:PROC(x FIXED(40),y BIT(2) IDENT)RETURNS(FIXED(7));y:='1'B;RETURN(x);END;\
        t:TASK MAIN;DCL e(0:3) BIT(2);p(a,e(a));a:=p(1,e(0));END;"
        => "leaf 0 a FIXED(31) 1\n\
            procedure 0 cells 2 depth 5\n0 Load 1\n1 Const BIT(1) '1'B\n2 Conv BIT(2)\n3 WriteRef\n4 Load 0\n\
            5 Conv FIXED(7)\n6 Return\n7 Trap 4\n\
            task t prio 255 main cells 4 depth 15\n0 Fill 0 4 BIT(2)\n1 Read 0\n2 Conv FIXED(40)\n3 Read 0\n\
            4 Index 0 3\n5 RefCellAt 0 4\n6 Call 0\n7 Drop\n8 Const FIXED(31) 1\n9 Conv FIXED(40)\n\
            10 Const FIXED(31) 0\n11 Index 0 3\n12 RefCellAt 0 4\n13 Call 0\n14 Conv FIXED(31)\n15 Write 0\n16 End\n";
    "SYSTEM;irq:INTERRUPT(4);PROBLEM;SPC irq INTERRUPT;DCL d DURATION,c CLOCK;\
        t:TASK MAIN;WHEN irq AFTER 1 SEC ALL d UNTIL 12:0:0 ACTIVATE u PRIO 3;ACTIVATE t;CONTINUE u;AT c RESUME;\
        PREVENT;SUSPEND u;END;u:TASK;TERMINATE;END;"
        => "device INTERRUPT 4\nleaf 0 d DURATION 1\nleaf 1 c CLOCK 1\n\
            task t prio 255 main cells 0 depth 6\n0 Const DURATION 0 HRS 00 MIN 01.000 SEC\n1 Read 0\n\
            2 Const CLOCK 12:00:00\n3 Const FIXED(31) 3\n4 Activate 1 4 0 2 1\n5 Activate 0 0 0 0\n6 Continue 1 0\n\
            7 Read 1\n8 Resume 1\n9 PreventOwn\n10 Suspend 1\n11 End\n\
            task u prio 255 cells 0 depth 2\n0 TerminateOwn\n1 End\n";
    "SYSTEM;h:OUTPUT(1);irq:INTERRUPT(4);m:INPUT(7);PROBLEM;SPC h DATION OUT BASIC CHAR(3),\
        m DATION IN BASIC FIXED(9),irq INTERRUPT;DCL r SEMA,s SEMA PRESET(1),b BIT,v(2) FIXED;\
        t:TASK MAIN;REQUEST s,r;RELEASE r;b:=TRY s;SEND 'a' TO h;TAKE v(2) FROM m;ENABLE irq;TRIGGER irq;END;"
        => "device INTERRUPT 4\ndevice INPUT 7\ndevice OUTPUT 1\nsemaphore 0 0\nsemaphore 1 1\n\
            leaf 0 b BIT(1) 1\nleaf 1 v FIXED(31) 2\n\
            task t prio 255 main cells 0 depth 3\n0 Request 1 0\n1 Release 0\n2 Try 1\n3 Conv BIT(1)\n4 Write 0\n\
            5 Const CHAR(1) 'a'\n6 Conv CHAR(3)\n7 Send 2\n8 Const FIXED(31) 2\n9 Index 1 2\n10 Take 1\n\
            11 Conv FIXED(31)\n12 WriteAt 1\n13 Enable 0\n14 Trigger 0\n15 End\n";
    "SYSTEM;tty:TERMINAL(1);PROBLEM;SPC tty DATION INOUT ALPHIC;DCL n FIXED,a(2,3) CHAR(4);\
        p:PROC(x FIXED IDENT);GET x,a(1,x) FROM tty BY F(3),A(4);END;\
        t:TASK MAIN;p(n);PUT 'x',n TO tty BY A,F(2);END;"
        => "device TERMINAL 1\nleaf 0 n FIXED(31) 1\nleaf 1 a CHAR(4) 6\nformat 0 F(3) A(4)\nformat 1 A F(2)\n\
            procedure 0 cells 5 depth 9\n0 Const FIXED(31) 0\n1 Store 3\n2 Const FIXED(31) 1\n3 Load 0\n4 ReadRef\n\
            5 Index 1 2 1 3\n6 Store 4\n7 Fill 1 1 FIXED(31)\n8 Fill 2 1 CHAR(4)\n9 Get 0 0 1\n10 Load 0\n11 Load 1\n\
            12 WriteRef\n13 Load 4\n14 Load 2\n15 WriteAt 1\n16 Return\n\
            task t prio 255 main cells 0 depth 13\n0 RefSlot 0\n1 Call 0\n2 Const CHAR(1) 'x'\n3 Read 0\n4 Put 0 1\n\
            5 End\n";
    "PROBLEM;DCL n FIXED,b BIT;t:TASK MAIN;FOR k TO 3 REPEAT n:=k;IF b THEN EXIT;FIN;END;END;"
        => "leaf 0 n FIXED(31) 1\nleaf 1 b BIT(1) 1\n\
            task t prio 255 main cells 3 depth 6\n0 Const FIXED(31) 1\n1 Conv FIXED(31)\n2 Store 0\n\
            3 Const FIXED(31) 1\n4 Conv FIXED(31)\n5 NonZero\n6 Store 1\n7 Const FIXED(31) 3\n8 Conv FIXED(31)\n\
            9 Store 2\n10 Turn\n11 Within 0\n12 JumpZero 21\n13 Load 0\n14 Conv FIXED(31)\n15 Write 0\n16 Read 1\n\
            17 JumpZero 19\n18 Jump 21\n19 Advance 0 21\n20 Jump 10\n21 End\n";
    "PROBLEM;DCL n FIXED;t:TASK MAIN;CASE n ALT n:=1;ALT OUT n:=3;FIN;END;"
        => "leaf 0 n FIXED(31) 1\ntask t prio 255 main cells 0 depth 3\n0 Read 0\n1 Case 6 10\n2 Const FIXED(31) 3\n\
            3 Conv FIXED(31)\n4 Write 0\n5 Jump 11\n6 Const FIXED(31) 1\n7 Conv FIXED(31)\n8 Write 0\n9 Jump 11\n\
            10 Jump 11\n11 End\n";
];

// Whether a module of these parts has this listing.
fn is_listed_so(alloc: Global, parts: &str, text: &str) -> Result<bool, AllocError> {
    let source = format!(in alloc; "MODULE;{parts}MODEND")?;
    let made = end_of(alloc, COMPILE, source.as_bytes(), "", ROOM)?;
    let listed = end_of(alloc, LIST, made.bytes.as_slice(), "", ROOM)?;
    Ok(made.status == Status::Done && listed.is(Status::Done, text.as_bytes()))
}

#[test]
fn small_modules_are_listed(rt: HostRuntime) -> Result<(), Fail> {
    for (number, (parts, text)) in LISTINGS.iter().enumerate() {
        assert!(rt; is_listed_so(rt.alloc(), parts, text)?, "row {number}");
    }
    Ok(())
}

// Names, types and declarations of small modules, worked out by hand: the rules that are broken at their marks.

use crate::cases::{STOP, expect, places_of, show_faults, tree_of};
use pearl_scope::scopes;
use std::alloc::{AllocError, Global};
use std::test::Fail;

// Each module with the rules that are broken at its marks. A module of one fault is followed by one at its edge.
static MODULES: [(&str, &str); 45] = table![
    "MODULE;PROBLEM;MODEND" => "";
    "MODULE;PROBLEM;DCL (a,^a) FIXED;MODEND" => "S1 ";
    "MODULE;PROBLEM;DCL a FIXED;p:PROC(a FIXED);END;MODEND" => "";
    "MODULE;PROBLEM;p:PROC(a FIXED);DCL ^a BIT;END;MODEND" => "S1 ";
    "MODULE;PROBLEM;p:PROC;^a:=1;END;MODEND" => "S2 ";
    "MODULE;PROBLEM;p:PROC;a:=1;END;DCL a FIXED;MODEND" => "";
    "MODULE;PROBLEM;p:PROC;FOR i WHILE i<1 REPEAT END;END;MODEND" => "";
    "MODULE;PROBLEM;p:PROC;FOR i FROM ^i REPEAT END;END;MODEND" => "S2 ";
    "MODULE;PROBLEM;p:PROC;WHILE ^a<1 REPEAT DCL a FIXED;END;END;MODEND" => "S2 ";
    "MODULE;PROBLEM;DCL a ^t;TYPE t FIXED;MODEND" => "S3 ";
    "MODULE;PROBLEM;TYPE t FIXED;DCL a t;MODEND" => "";
    "MODULE;PROBLEM;DCL (b,c) FIXED,a ^b;MODEND" => "S3 ";
    "MODULE;PROBLEM;TYPE t FIXED;p:PROC;DCL t FIXED,a ^t;END;MODEND" => "S3 ";
    "MODULE;PROBLEM;LENGTH FIXED(^64);LENGTH BIT(64);LENGTH CHAR(255);MODEND" => "S4 ";
    "MODULE;PROBLEM;DCL a FIXED(^0),b BIT(^65),c CHAR(^256),d FIXED(63);MODEND" => "S4 S4 S4 ";
    "MODULE;PROBLEM;DCL a DURATION INIT(^305420 HRS),b DURATION INIT(305419 HRS);MODEND" => "S4 ";
    "MODULE;PROBLEM;DCL a(^2:1) FIXED,b(2:2) FIXED;MODEND" => "S5 ";
    "MODULE;PROBLEM;DCL a(-2147483648:-2147483648) FIXED,b(^2147483648:2147483648) FIXED;MODEND" => "S5 ";
    "MODULE;PROBLEM;DCL ^a(256,257) FIXED,b(256,256) FIXED,^c(2,2,2,2) FIXED,d(2,2,2) FIXED;MODEND"
        => "S5 S5 ";
    "MODULE;PROBLEM;TYPE t STRUCT[(a,b)(256) FIXED];DCL ^c(257) t,d(256) t;MODEND" => "S5 ";
    "MODULE;PROBLEM;TYPE t STRUCT[a FIXED,^a BIT];MODEND" => "S6 ";
    "MODULE;PROBLEM;TYPE t STRUCT[a FIXED,b STRUCT[a FIXED]];DCL a t;MODEND" => "";
    "MODULE;PROBLEM;DCL (a,b) FIXED INIT(1,2,^3,^4),c(2) BIT INIT('1'B,'1'B,^'1'B);MODEND" => "S7 S7 S7 ";
    "MODULE;PROBLEM;DCL (a,b)(2) FIXED INIT(1,2,3,4);MODEND" => "";
    "MODULE;PROBLEM;DCL a FIXED(3) INIT(7),b FIXED(3) INIT(-8),c FIXED(3) INIT(^8),d FIXED(3) INIT(^-9);MODEND"
        => "S7 S7 ";
    "MODULE;PROBLEM;DCL a BIT(3) INIT('111'B),b BIT(2) INIT(^'111'B),c BIT(3) INIT('1'B);MODEND" => "S7 ";
    "MODULE;PROBLEM;DCL a CHAR(3) INIT('ab'),b CHAR(3) INIT('abc'),c CHAR(3) INIT(^'abcd');MODEND" => "S7 ";
    "MODULE;PROBLEM;DCL a FIXED INIT(^'1'B),b BIT INIT(^1),c CHAR INIT(^1 SEC),d CLOCK INIT(^'a');MODEND"
        => "S7 S7 S7 S7 ";
    "MODULE;PROBLEM;DCL a CLOCK INIT(12:00:00),b DURATION INIT(1 SEC),c CLOCK INIT(^1 SEC),d DURATION INIT(^12:00:00);MODEND"
        => "S7 S7 ";
    "MODULE;PROBLEM;DCL a FIXED INIT(-1,^+1),b DURATION INIT(-1 SEC),c DURATION INIT(+1 SEC);MODEND" => "S7 ";
    "MODULE;PROBLEM;DCL a BIT INIT(^-'1'B),b CHAR INIT(^+'a'),c CLOCK INIT(^-12:00:00);MODEND" => "S7 S7 S7 ";
    "MODULE;PROBLEM;DCL a STRUCT[(b,c) FIXED,d CHAR(2),e FIXED(3)] INIT(1,2,'ab',7);MODEND" => "";
    "MODULE;PROBLEM;DCL a STRUCT[b CHAR(2),(c,d) FIXED] INIT('a',1);MODEND" => "";
    "MODULE;PROBLEM;DCL a STRUCT[b FIXED,c CHAR(2),d FIXED] INIT(^1);MODEND" => "S7 ";
    "MODULE;PROBLEM;DCL a STRUCT[b FIXED,c FIXED(3)] INIT(1,7),d STRUCT[b FIXED,c FIXED(3)] INIT(^8);MODEND" => "S7 ";
    "MODULE;PROBLEM;DCL a(2) STRUCT[b FIXED,c CHAR] INIT(1,2,'a');MODEND" => "";
    "MODULE;PROBLEM;DCL a(2) STRUCT[b FIXED,c CHAR] INIT(1,^'a',^2,'a');MODEND" => "S7 S7 ";
    "MODULE;PROBLEM;TYPE t STRUCT[b(2) FIXED,c CHAR];DCL (x,y) STRUCT[d(2) t,e BIT] INIT(1,2,3,4,'a','b','1'B,^'1'B);MODEND"
        => "S7 ";
    "MODULE;PROBLEM;TYPE t STRUCT[b(2) FIXED,c CHAR];DCL (x,y) STRUCT[d(2) t,e BIT] INIT(1,2,3,4,'a','b','1'B,^5);MODEND"
        => "S7 ";
    "MODULE;PROBLEM;DCL (x,y) STRUCT[b FIXED,c CHAR] INIT(1,'a',2,'b'),(z,u) STRUCT[b FIXED,c CHAR] INIT(1,^'a');MODEND"
        => "S7 ";
    "MODULE;PROBLEM;TYPE t STRUCT[b(2) FIXED,c CHAR];DCL ^x(300,300) t INIT('a');MODEND" => "S5 ";
    "MODULE;PROBLEM;DCL (^a,b) INV FIXED;MODEND" => "S8 ";
    "MODULE;PROBLEM;DCL (a,b) INV FIXED INIT(1);MODEND" => "";
    "MODULE;PROBLEM;DCL (a,b) SEMA PRESET(1,2,^3);MODEND" => "S9 ";
    "MODULE;PROBLEM;DCL (a,b) SEMA PRESET(2147483647,^2147483648);MODEND" => "S9 ";
];

// Statements in which nothing declares the marked names. Each place at which a statement or an expression has a name stands
// once.
static STATEMENTS: [&str; 24] = [
    "^a:=^b;",
    "^a(^i,^j).c:=^b(^k).c(^l);",
    "CALL ^f(^a,^b(^c));^g;",
    "IF ^a THEN ^b:=1;ELSE ^c:=1;FIN;",
    "CASE ^a ALT ^b:=1;ALT ^c:=1;OUT ^d:=1;FIN;",
    "FROM ^a BY ^b TO ^c WHILE ^d REPEAT ^e:=1;END;",
    "BEGIN ^a:=1;END;",
    "RETURN(^a);",
    "AT ^a ALL ^b UNTIL ^c ACTIVATE ^d PRIO ^e;",
    "AFTER ^a ALL ^b DURING ^c ACTIVATE ^d;",
    "WHEN ^a AFTER ^b ALL ^c ACTIVATE ^d;",
    "ALL ^a ACTIVATE ^b;",
    "AT ^a CONTINUE ^b;AFTER ^c CONTINUE ^d;WHEN ^e CONTINUE ^f;",
    "AT ^a RESUME;AFTER ^b RESUME;WHEN ^c RESUME;",
    "SUSPEND ^a;TERMINATE ^b;PREVENT ^c;",
    "REQUEST ^a,^b;RELEASE ^c,^d;",
    "ENABLE ^a;DISABLE ^b;TRIGGER ^c;",
    "PUT ^a,^b TO ^c BY F(1);",
    "GET ^a,^b(^c) FROM ^d BY F(1);",
    "SEND ^a TO ^b;",
    "TAKE ^a(^b).c FROM ^d;",
    "^a:=-^b+NOT(^c*ABS ^d);",
    "^a:=TRY ^b;",
    "^a:=LWB ^b+2 UPB ^c(^d).e;",
];

// Whether a task of these statements alone breaks S2 at the marks and no other rule.
fn breaks_s2(alloc: Global, case: &str) -> Result<bool, AllocError> {
    let mut module = String::new(alloc);
    write!(module, "MODULE;PROBLEM;t:TASK;{case}END;MODEND")?;
    let found = shown(alloc, module.as_bytes())?;
    let mut wanted = String::new(alloc);
    for &byte in case.as_bytes() {
        if byte == STOP {
            wanted.push_str("S2 ")?;
        }
    }
    Ok(found.as_str() == wanted.as_str())
}

#[test]
fn names_are_asked_wherever_they_stand(rt: HostRuntime) -> Result<(), Fail> {
    for &case in &STATEMENTS {
        expect(&rt, breaks_s2(rt.alloc(), case)?, case);
    }
    Ok(())
}

// The broken rules of a module, each with a blank behind it, or what it has in place of them. A rule that isn't told at its
// mark has its place in front.
fn shown(alloc: Global, case: &[u8]) -> Result<String, AllocError> {
    let Some(tree) = tree_of(alloc, case) else {
        return String::from_str(alloc, "no tree");
    };
    let places = places_of(alloc, case, STOP)?;
    let mut text = String::new(alloc);
    let (_, faults) = scopes(alloc, &tree)?;
    show_faults(&mut text, faults.as_slice(), places.as_slice())?;
    Ok(text)
}

#[test]
fn modules_break_the_rules_at_their_marks(rt: HostRuntime) -> Result<(), Fail> {
    for &(case, expected) in &MODULES {
        let found = shown(rt.alloc(), case.as_bytes())?;
        expect(&rt, found.as_str() == expected, case);
    }
    Ok(())
}

// Statements of small modules, worked out by hand: the rules on statements that are broken at their marks.

use crate::cases::{STOP, expect, places_of, show_faults, tree_of};
use pearl_check::rules::statement_faults;
use pearl_names::table::table_of;
use pearl_tree::fault::RuleFault;
use pearl_tree::tree::Tree;
use std::alloc::{AllocError, Global};
use std::test::Fail;

// Each module with the rules that its statements break. What breaks a rule is mostly followed by what stands at its edge.
static MODULES: [(&str, &str); 37] = table![
    "DCL b BIT;t:TASK;IF ^1 THEN FIN;IF b THEN FIN;END;" => "S23 ";
    "DCL b BIT(2);t:TASK;IF ^b THEN FIN;CASE ^b ALT FIN;CASE 1 ALT FIN;END;" => "S23 S23 ";
    "DCL c CHAR(2);t:TASK;FOR i FROM 1 BY ^c TO ^'1'B1 WHILE ^i REPEAT END;END;" => "S23 S23 S23 ";
    "DCL b(2) BIT;t:TASK;WHILE ^b(1,1) REPEAT END;WHILE b(2) REPEAT END;END;" => "S17 ";
    "DCL b BIT;t:TASK;WHILE b REPEAT DCL b FIXED;END;END;" => "";
    "DCL a FIXED;t:TASK;BEGIN DCL a BIT;IF a THEN FIN;END;IF ^a THEN FIN;END;" => "S23 ";
    "p:PROC;BEGIN DCL a FIXED;END;END;q:PROC;DCL a BIT;IF a THEN FIN;BEGIN DCL a FIXED;IF ^a THEN FIN;END;END;"
        => "S23 ";
    "DCL a FIXED,b BIT;t:TASK;IF b THEN CASE ^b ALT a:=b ^+ 1;OUT ^t;FIN;ELSE REPEAT IF ^a THEN FIN;END;FIN;END;"
        => "S23 S15 S16 S23 ";
    "DCL c CHAR(2),a FIXED;t:TASK;^c:='abc';c:='ab';^a:='1'B1;a:=x;END;" => "S24 S24 ";
    "DCL a FIXED(15),b BIT(2),r DURATION;t:TASK;a:=1;^b:='111'B1;b:='11'B1;^r:=NOW;r:=1 SEC;END;" => "S24 S24 ";
    "t:TASK;REPEAT BEGIN IF '1'B1 THEN EXIT;FIN;END;END;BEGIN ^EXIT;END;END;" => "S26 ";
    "DCL i INV FIXED INIT(1),a FIXED;t:TASK;^i:=a;FOR j TO 2 REPEAT ^j:=2;a:=j;END;END;" => "S25 S25 ";
    "SPC d DATION IN ALPHIC,e DATION IN BASIC FIXED;DCL i INV FIXED INIT(1),a FIXED;t:TASK;GET a,^i FROM d BY F(2),F(2);TAKE ^i FROM e;END;"
        => "S25 S25 ";
    "DCL a FIXED;t:TASK;AT ^a ACTIVATE t;AFTER 1 SEC ALL ^2 DURING ^a ACTIVATE t PRIO ^'1'B1;AFTER ^1:0:0 RESUME;END;"
        => "S29 S29 S29 S29 S29 ";
    "DCL a FIXED;t:TASK;AT 1:0:0 ALL 1 SEC UNTIL 2:0:0 ACTIVATE t PRIO a;AT ^1 SEC CONTINUE t;END;" => "S29 ";
    "DCL a FIXED,s SEMA;t:TASK;ACTIVATE ^s;ACTIVATE t;SUSPEND ^a;REQUEST s,^t;ENABLE ^s;SEND a TO ^t;END;"
        => "S16 S16 S16 S16 S16 ";
    "SPC e INTERRUPT;t:TASK;WHEN ^t RESUME;WHEN e AFTER ^1 ACTIVATE t;DISABLE e;TERMINATE;END;" => "S16 S29 ";
    "t:TASK;ACTIVATE x;CALL x;REQUEST x;END;" => "";
    "t:TASK;^t;CALL p;PUT TO ^p BY SKIP;END;p:PROC;END;" => "S16 S16 ";
    "DCL a FIXED;p:PROC RETURNS(FIXED);RETURN(^q);RETURN(a);END;q:PROC;END;" => "S22 ";
    "t:TASK;^RETURN;^RETURN(1);END;" => "S27 S27 ";
    "p:PROC;RETURN;^RETURN(1);BEGIN RETURN;END;END;" => "S27 ";
    "p:PROC RETURNS(CHAR(2));^RETURN;RETURN('ab');^RETURN('abc');^RETURN(1);END;" => "S27 S27 S27 ";
    "p:PROC RETURNS(FIXED);REPEAT ^RETURN('a');END;RETURN(x);END;q:PROC RETURNS(FIXED(64));RETURN('a');END;"
        => "S27 ";
    "t:TASK PRIO ^0;END;u:TASK PRIO 1;END;v:TASK PRIO 255 MAIN;END;w:TASK MAIN PRIO ^256;END;" => "S30 S30 ";
    "DCL (a,b) SEMA;t:TASK;REQUEST a,b,^a,^a;RELEASE a,b;RELEASE ^t,^t,x,x;END;" => "S31 S31 S16 S16 ";
    "DCL (a,b,c,d,e,f,g,h,i,j,k,l,m,n,o,p,q) SEMA;t:TASK;REQUEST a,b,c,d,e,f,g,h,i,j,k,l,m,n,o,p;RELEASE a,b,c,d,e,f,g,h,i,j,k,l,m,n,o,p,^q;RELEASE a,b,c,d,e,f,g,h,i,j,k,l,m,n,o,p,^a;REQUEST a,b,c,d,e,f,g,h,i,j,k,l,m,n,o,p,^q,^q;REQUEST ^t,a,b,c,d,e,f,g,h,i,j,k,l,m,n,o,^p;END;"
        => "S31 S31 S31 S31 S16 S31 ";
    "SPC i DATION IN ALPHIC,o DATION OUT ALPHIC,x DATION INOUT ALPHIC;DCL a FIXED;t:TASK;PUT a TO ^i BY F(3);PUT a TO o BY F(3);PUT a TO x BY F(3);GET a FROM i BY F(3);GET a FROM ^o BY F(3);GET a FROM x BY F(3);SEND a TO ^o;TAKE a FROM ^i;SEND a TO ^x;TAKE a FROM ^x;END;"
        => "S32 S32 S32 S32 S32 S32 ";
    "SPC i DATION IN BASIC FIXED,o DATION OUT BASIC FIXED,x DATION INOUT BASIC CHAR(2);DCL a FIXED,c CHAR(2);t:TASK;SEND a TO ^i;SEND a TO o;SEND c TO x;TAKE a FROM i;TAKE a FROM ^o;TAKE c FROM x;PUT a TO ^o BY F(3);GET a FROM ^i BY F(3);PUT c TO ^x BY A;GET c FROM ^x BY A;END;"
        => "S32 S32 S32 S32 S32 S32 ";
    "SPC x DATION INOUT BASIC CHAR(2);DCL a FIXED,b CHAR,c CHAR(3);t:TASK;SEND a TO ^x;SEND b TO x;SEND c TO ^x;TAKE a FROM ^x;TAKE b FROM ^x;TAKE c FROM x;SEND y TO x;TAKE y FROM x;END;"
        => "S32 S32 S32 S32 ";
    "SPC x DATION INOUT ALPHIC;DCL a FIXED;t:TASK;PUT a,a,a,a TO x BY ^F(0),F(1),F(255),^F(256);GET a FROM x BY ^X(0),X(1),X(255),^SKIP(256),F(1);END;"
        => "S33 S33 S33 S33 ";
    "SPC x DATION INOUT ALPHIC;DCL k CLOCK,d DURATION;t:TASK;PUT k,k TO x BY ^T(7),T(8);GET d,d,d FROM x BY ^D(0),D(1),^D(256);PUT d TO x BY ^T(8);PUT k TO x BY ^D(8);END;"
        => "S33 S33 S33 S33 S33 ";
    "SPC x DATION INOUT ALPHIC;DCL a FIXED,b BIT(7),c CHAR(9);t:TASK;PUT a TO x BY ^A(1);PUT c,c TO x BY A,^B(9);PUT b,b,b,b,b TO x BY B,B1,B2,B3,B4;GET a FROM x BY ^B4;PUT b TO x BY ^F(7);PUT y TO x BY A;END;"
        => "S33 S33 S33 S33 ";
    "SPC x DATION INOUT ALPHIC;DCL a FIXED;t:TASK;^PUT a TO x BY F(1),F(1);^PUT a,a TO x BY F(1);PUT a TO x BY X,F(1),SKIP;PUT TO x BY SKIP;^PUT TO x BY F(1);^GET FROM x BY F(1);^GET y FROM x BY X;END;"
        => "S33 S33 S33 S33 S33 ";
    "SPC x DATION INOUT ALPHIC;DCL a FIXED;t:TASK;PUT a,a,a,a TO x BY F(255),F(255),F(255),F(255),X(4);^PUT a,a,a,a TO x BY F(255),F(255),F(255),F(255),X(5);END;"
        => "S33 ";
    "SPC x DATION INOUT ALPHIC;DCL b BIT(7),c CHAR(4);t:TASK;PUT c TO x BY A,X(255),X(255),X(255),X(255);^GET c FROM x BY A,X(255),X(255),X(255),X(255),X;PUT b TO x BY B3,X(255),X(255),X(255),X(255),X;^PUT b TO x BY B3,X(255),X(255),X(255),X(255),X,SKIP;END;"
        => "S33 S33 ";
    "SPC x DATION INOUT ALPHIC;DCL b BIT(7);t:TASK;PUT b TO x BY B2,X(255),X(255),X(255),X(255);^PUT b TO x BY B2,X(255),X(255),X(255),X(255),SKIP;PUT b TO x BY B4,X(255),X(255),X(255),X(255),X(2);^PUT b TO x BY B4,X(255),X(255),X(255),X(255),X(3);^PUT b TO x BY B1,X(255),X(255),X(255),X(255);END;"
        => "S33 S33 S33 ";
];

fn faults_of(alloc: Global, tree: &Tree) -> Result<Vec<RuleFault>, AllocError> {
    let table = table_of(alloc, tree)?;
    statement_faults(alloc, &table, tree)
}

// The broken rules of a module, each with a blank behind it, or what it has in place of them. A rule that isn't told at its
// mark has its place in front.
fn shown(alloc: Global, case: &str) -> Result<String, AllocError> {
    let mut text = String::new(alloc);
    let case = format!(in alloc; "MODULE;PROBLEM;{case}MODEND")?;
    let places = places_of(alloc, case.as_bytes(), STOP)?;
    let Some(tree) = tree_of(alloc, case.as_bytes()) else {
        text.push_str("no tree")?;
        return Ok(text);
    };
    let faults = faults_of(alloc, &tree)?;
    show_faults(&mut text, faults.as_slice(), places.as_slice())?;
    Ok(text)
}

#[test]
fn statements_break_the_rules_at_their_marks(rt: HostRuntime) -> Result<(), Fail> {
    for &(case, expected) in &MODULES {
        let found = shown(rt.alloc(), case)?;
        expect(&rt, found.as_str() == expected, case);
    }
    Ok(())
}

// Whether a PUT of so many values, marked, with an item for each, comes to this.
fn put_is(alloc: Global, count: usize, expected: &str) -> Result<bool, AllocError> {
    let mut text = String::new(alloc);
    text.push_str("SPC x DATION OUT ALPHIC;t:TASK;^PUT 1")?;
    for _ in 1..count {
        text.push_str(",1")?;
    }
    text.push_str(" TO x BY F(1)")?;
    for _ in 1..count {
        text.push_str(",F(1)")?;
    }
    text.push_str(";END;")?;
    let found = shown(alloc, text.as_str())?;
    Ok(found.as_str() == expected)
}

#[test]
fn sixty_four_data_items_may_stand(rt: HostRuntime) -> Result<(), Fail> {
    assert!(rt; put_is(rt.alloc(), 64, "a mark too many ")?);
    assert!(rt; put_is(rt.alloc(), 65, "S33 ")?);
    Ok(())
}

// Small modules with what their programs say, or with the first rule that they break, worked out by hand.

use crate::cases::tree_of;
use crate::program_text::text_of;
use pearl_calls::numbering::Numbering;
use pearl_check::accept::accept;
use pearl_check::fault::CheckFault;
use pearl_program::program::Program;
use pearl_resolve::program::resolve;
use pearl_tree::tree::Tree;
use std::alloc::{AllocError, Global};
use std::test::Fail;

static MODULES: [(&str, &str); 15] = table![
    "PROBLEM;DCL a(2:4) FIXED INIT(1,-2),(b,c) CHAR(3) INIT('x'),k CLOCK INIT(0:0:1),r DURATION INIT(-2 SEC);"
        => "a F31*3=F31:1=F31:-2;b C3*1='x  ';c C3*1='x  ';k T*1=T:1000;r D*1=D:-2000;";
    "PROBLEM;TYPE y STRUCT[u FIXED(7),v(2) BIT(3)];DCL w(2) STRUCT[m y,n CHAR] INIT(5,6,'1'B,'01'B,'111'B,'0'B,'a');"
        => "w.m.u F7*2=F7:5=F7:6;w.m.v B3*4=B3:4=B3:2=B3:7=B3:0;w.n C1*2='a';";
    "PROBLEM;LENGTH FIXED(15);DCL a FIXED;LENGTH FIXED(20);DCL b FIXED INIT(1);t:TASK;b:=5;END;"
        => "a F15*1;b F20*1=F20:1;task t 255[]{L1:=F20:5;}";
    "PROBLEM;DCL (s,u) SEMA PRESET(2,5),v SEMA,x FIXED,w SEMA PRESET(1);t:TASK;REQUEST v,u;RELEASE w;END;"
        => "x F31*1;sema 2;sema 5;sema 0;sema 1;task t 255[]{request s2,s1,;release s3,;}";
    "SYSTEM;v:OUTPUT(2);tty:TERMINAL(7);irq:INTERRUPT(9);go:INTERRUPT(3);m:INPUT(1);PROBLEM;SPC tty DATION INOUT ALPHIC,v DATION OUT BASIC BIT(8),m DATION IN BASIC FIXED(15),(irq,go) INTERRUPT;DCL a FIXED;t:TASK;SEND '1'B TO v;TAKE a FROM m;ENABLE go;DISABLE irq;TRIGGER go;END;"
        => "a F31*1;interrupt 3;interrupt 9;terminal 7 InOut;input 1 F15;output 2 B8;task t 255[]{send d4 of B1:1;take d3 L0;enable d0;disable d1;trigger d0;}";
    "PROBLEM;DCL a FIXED,b BIT;t:TASK MAIN;IF b THEN a:=1;ELSE a:=2;;FIN;CASE a ALT a:=3;ALT OUT a:=4;FIN;END;"
        => "a F31*1;b B1*1;task t 255 main[]{if L1{L0:=F31:1;} else{L0:=F31:2;};case L0{L0:=F31:3;}{} out{L0:=F31:4;};}";
    "PROBLEM;t:TASK PRIO 7;DCL u BIT(2);FOR i FROM 2 BY 3 TO 9 WHILE i<5 REPEAT DCL v(2) FIXED INIT(4);EXIT;v(2):=i;END;WHILE '1'B REPEAT END;TO 3 REPEAT BEGIN DCL w CHAR(2);w:='a';END;END;END;"
        => "task t 7[B2,F31,F31,F31,F31,F31,F31,F31,F31,C2,]{new O0 B2*1;loop O1 from F31:2 by F31:3 to F31:9 while Lt(O1,F31:5){new O4 F31*2=F31:4;exit;O4(1:2,)[F31:2,]:=O1;};loop while B1:1{};loop O6 to F31:3{new O9 C2*1;O9:='a';};}";
    "SYSTEM;tty:TERMINAL(1);PROBLEM;SPC tty DATION INOUT ALPHIC;DCL a(0:1,3) FIXED,c CHAR(4);t:TASK;DCL d DURATION;PUT 'x',a(1,2) TO tty BY A(3),X(2),F(6),SKIP;GET a(0,1),c,d FROM tty BY F(5),A,D(9);d:=1 SEC;BEGIN DCL e FIXED;PUT e TO tty BY F(1);END;END;"
        => "a F31*6;c C4*1;terminal 1 InOut;format A(3),X(2),F(6),Skip(0),;format F(5),A(0),D(9),;format F(1),;task t 255[D,F31,C4,D,F31,F31,F31,F31,]{new O0 D*1;put d0 f0 'x',L0(0:1,1:3,)[F31:1,F31:2,],;get d0 f1 O1 L0(0:1,1:3,)[F31:0,F31:1,],L1,O0,;O0:=D:1000;new O7 F31*1;put d0 f2 O7,;}";
    "PROBLEM;DCL a(2) BIT(3);p:PROC(x FIXED,y BIT(3) IDENT)RETURNS(FIXED);CALL q(y);RETURN(x);END;q:PROC(z BIT(3) IDENT);r;z:='1'B;RETURN;END;r:PROC;END;t:TASK;DCL k FIXED;k:=p(2,a(1))+p(k,a(2));p(1,a(1));END;"
        => "a B3*2;proc 0[]{}proc 1[&B3,]{p0();P0:=B1:1;return;}proc 2 F31[F31,&B3,]{p1(&P1,);return with O0;}task t 255[F31,]{new O0 F31*1;O0:=Add(p2(F31:2,&L0(1:2,)[F31:1,],),p2(O0,&L0(1:2,)[F31:2,],));p2(F31:1,&L0(1:2,)[F31:1,],);}";
    "PROBLEM;TYPE y STRUCT[u FIXED,v(3) BIT];DCL g STRUCT[m CHAR,n(4) y];p:PROC;DCL w(2) STRUCT[m CHAR,n y];w(2).n.v(3):=g.n(4).v(1);END;"
        => "g.m C1*1;g.n.u F31*4;g.n.v B1*12;proc 0[C1,C1,F31,F31,B1,B1,B1,B1,B1,B1,]{new O0 C1*2;new O2 F31*2;new O4 B1*6;O4(1:2,1:3,)[F31:2,F31:3,]:=L2(1:4,1:3,)[F31:4,F31:1,];}";
    "PROBLEM;t:TASK;DCL r STRUCT[a FIXED,b(2) FIXED,c CHAR(2),(d,e) CHAR(2),f FIXED],s STRUCT[a BIT,b STRUCT[(c,d) BIT]] INIT('1'B);END;"
        => "task t 255[F31,F31,F31,C2,C2,C2,F31,B1,B1,B1,]{new O0 F31*3;new O3 C2*3;new O6 F31*1;new O7 B1*3=B1:1;}";
    "PROBLEM;t:TASK;DCL (r,s) STRUCT[a FIXED,b(2) FIXED,(c,d) CHAR(2)] INIT(1,2,3,'x','y',4,5,6,'z');END;"
        => "task t 255[F31,F31,F31,C2,C2,F31,F31,F31,C2,C2,]{new O0 F31*3=F31:1=F31:2=F31:3;new O3 C2*2='x '='y ';new O5 F31*3=F31:4=F31:5=F31:6;new O8 C2*2='z ';}";
    "PROBLEM;DCL a(-2:5,3) FIXED,b BIT,c CLOCK,s SEMA,f FIXED(63);t:TASK;a(1,1):=-ABS a(LWB a,2 UPB a)**2;b:=NOT TRY s OR b AND '1'B;c:=NOW+1 MIN;f:=5000000000-f-1;END;"
        => "a F31*24;b B1*1;c T*1;f F63*1;sema 0;task t 255[]{L0(-2:5,1:3,)[F31:1,F31:1,]:=Pow(Minus(Abs(L0(-2:5,1:3,)[F31:-2,F31:3,])),F31:2);L1:=Or(Not(TRY s0),And(L1,B1:1));L2:=Add(NOW,D:60000);L3:=Sub(Sub(F63:5000000000,L3),F31:1);}";
    "SYSTEM;irq:INTERRUPT(2);PROBLEM;SPC irq INTERRUPT;t:TASK;AT 1:0:0 ALL 1 SEC UNTIL 2:0:0 ACTIVATE u PRIO 3;AFTER 5 SEC ACTIVATE t;WHEN irq AFTER 1 SEC ALL 2 SEC DURING 9 SEC ACTIVATE u;WHEN irq ACTIVATE t;WHEN irq CONTINUE u;CONTINUE t;AFTER 1 SEC RESUME;AT 3:0:0 RESUME;SUSPEND;SUSPEND u;TERMINATE u;PREVENT;END;u:TASK PRIO 2;ALL 1 SEC ACTIVATE u;END;"
        => "interrupt 2;task t 255[]{activate t1 at T:3600000 all D:1000 until T:7200000 prio F31:3;activate t0 after D:5000;activate t1 when d0 after D:1000 all D:2000 during D:9000;activate t0 when d0;continue t1 when d0;continue t0;resume after D:1000;resume at T:10800000;suspend;suspend t1;terminate t1;prevent;}task u 2[]{activate t1 all D:1000;}";
    "PROBLEM;DCL a FIXED;p:PROC(a BIT);BEGIN DCL a CHAR;a:='x';END;a:='1'B;END;t:TASK;a:=1;FOR a TO 2 REPEAT DCL b FIXED;b:=a;END;END;"
        => "a F31*1;proc 1[B1,C1,]{new O1 C1*1;O1:='x';O0:=B1:1;}task t 255[F31,F31,F31,F31,]{L0:=F31:1;loop O0 to F31:2{new O3 F31*1;O3:=O0;};}";
];

static BROKEN_MODULES: [(&str, &str); 6] = table![
    "PROBLEM;DCL a FIXED;t:TASK;b:=a;END;" => "S2 at 34";
    "PROBLEM;t:TASK PRIO 0;x:=1;END;" => "S30 at 27";
    "PROBLEM;DCL i INV FIXED INIT(1);t:TASK;i:='a';END;" => "S24 at 46";
    "PROBLEM;p:PROC;q;END;q:PROC;p;END;" => "S28 at 15";
    "SYSTEM;d:INPUT(1);PROBLEM;SPC d DATION OUT BASIC BIT;" => "S14 at 37";
    "PROBLEM;DCL a(65535) FIXED,b FIXED,c FIXED;" => "S34 at 42";
];

fn numbers_of(alloc: Global, numbering: &Numbering) -> Result<Vec<u32>, AllocError> {
    let mut numbers = Vec::new(alloc);
    for number in numbering.numbers() {
        numbers.push(u32::try_from(*number).map_err(|_| AllocError)?)?;
    }
    Ok(numbers)
}

// The program of a module, or the first rule that it breaks.
fn resolved(alloc: Global, tree: &Tree) -> Result<Program, CheckFault> {
    let accepted = accept(alloc, tree)?;
    let numbers = numbers_of(alloc, &accepted.numbering)?;
    let program = resolve(
        alloc,
        accepted.table,
        accepted.devices.as_slice(),
        numbers.as_slice(),
        tree,
    )?;
    Ok(program)
}

// What the program of a source says, or the rule that it breaks, with its place.
fn told(alloc: Global, source: &str) -> Result<String, AllocError> {
    let Some(tree) = tree_of(alloc, source.as_bytes()) else {
        return String::from_str(alloc, "no tree");
    };
    match resolved(alloc, &tree) {
        Ok(program) => text_of(alloc, &program),
        Err(CheckFault::Refused(fault)) => format!(in alloc; "S{} at {}", fault.rule, fault.place),
        Err(CheckFault::NoMemory) => Err(AllocError),
    }
}

// Whether a source means the program that says this, or breaks the rule that is told so.
fn means(alloc: Global, source: &str, expected: &str) -> Result<bool, AllocError> {
    let found = told(alloc, source)?;
    Ok(found.as_str() == expected)
}

// The same of a module of these parts.
fn is_told(alloc: Global, parts: &str, expected: &str) -> Result<bool, AllocError> {
    let source = format!(in alloc; "MODULE;{parts}MODEND")?;
    means(alloc, source.as_str(), expected)
}

#[test]
fn modules_mean_these_programs(rt: HostRuntime) -> Result<(), Fail> {
    for &(parts, expected) in &MODULES {
        assert!(rt; is_told(rt.alloc(), parts, expected)?, "{parts}");
    }
    Ok(())
}

#[test]
fn broken_modules_tell_their_first_fault(rt: HostRuntime) -> Result<(), Fail> {
    for &(parts, expected) in &BROKEN_MODULES {
        assert!(rt; is_told(rt.alloc(), parts, expected)?, "{parts}");
    }
    Ok(())
}

#[test]
fn layout_and_spelling_change_nothing(rt: HostRuntime) -> Result<(), Fail> {
    let short = "MODULE;PROBLEM;DCL c CHAR(2),b BIT;t:TASK;IF b==('1'B) THEN c:='a';FIN;END;MODEND";
    let long =
        "MODULE ( m ) ; /* the same */ PROBLEM;\n\n  DECLARE c CHARACTER (2), b BIT(1); ! two\nt : TASK ;\n\tIF b EQ '1'B1 THEN c = 'a' ; FIN;\nEND;\nMODEND;\n";
    let text = "c C2*1;b B1*1;task t 255[]{if Eq(L1,B1:1){L0:='a';} else{};}";
    assert!(rt; means(rt.alloc(), short, text)?);
    assert!(rt; means(rt.alloc(), long, text)?);
    Ok(())
}

// Modules that break no rule. Together they have each statement and each form of expression, with variables of the
// module, own ones and parameters, with subscripts and without.

use crate::source::judged;
use std::alloc::{AllocError, Global};
use std::test::Fail;

const ASSIGNMENTS: &str = "MODULE;PROBLEM;
DCL (m,n) FIXED,a(-1:2,3) FIXED,r(2) STRUCT[u CHAR(3),v(2) BIT(4)];LENGTH FIXED(15);DCL l(2) INV FIXED INIT(7);
p:PROC(x FIXED,y FIXED(31) IDENT,z BIT(4) IDENT,s CHAR(2))RETURNS(FIXED);
  DCL k FIXED INIT(4),w(0:1) FIXED INIT(5,6),q(3) STRUCT[i CHAR(2),j(2) BIT(4)];
  x:=y;y:=k;k:=w(0);w(x):=a(y,k)+1;z:='1'B;q(2).j(1):=z;q(3).i:='ab';r(k).u:=s;a(x,y):=l(1);s:=q(k).i;x:=l(2);
  RETURN(y);
END;
t:TASK;DCL o FIXED(31),e(2,2) FIXED;m:=n;n:=o;o:=m;e(1,2):=a(m,o);a(-1,n):=e(a(0,1),2);o:=p(m,o,r(1).v(2),'c');END;
MODEND";

const CALLS: &str = "MODULE;PROBLEM;
DCL m FIXED,a(3) FIXED,b(2) BIT(3),c CLOCK;
p:PROC(x FIXED,y FIXED IDENT)RETURNS(FIXED);IF x>y THEN RETURN(x);FIN;y:=q(y,m)+q(x,y);END;
q:PROC(x FIXED(40),y FIXED IDENT)RETURNS(FIXED(40));r;CALL r;y:=1;END;
r:PROC;RETURN;END;
s:PROC((x,y) BIT(3) IDENT,z CLOCK);BEGIN DCL k FIXED;k:=p(k,k);x:=y;RETURN;END;z:=z+1 SEC;CALL u(x,y,'1'B);END;
u:PROC(x BIT(3) IDENT,y BIT(3),z BIT(3));END;
t:TASK;DCL k FIXED,e(2) FIXED,f(2) BIT(3);
  k:=p(m,k)+p(k,m)*p(a(1),a(k))-p(e(2),e(m));p(1,e(1));CALL s(b(k),f(m),c);CALL r;u(f(1),b(1),f(2));
END;
MODEND";

const BRANCHES: &str = "MODULE;PROBLEM;
DCL i FIXED,b BIT;
t:TASK MAIN PRIO 3;
  IF b THEN FIN;IF b THEN i:=1;FIN;IF b THEN ELSE i:=2;FIN;IF b THEN i:=1;ELSE i:=2;i:=3;FIN;
  CASE i ALT FIN;CASE i ALT i:=1;ALT ALT i:=2;FIN;CASE i ALT i:=1;ALT i:=2;OUT i:=3;FIN;CASE i ALT OUT FIN;
  BEGIN END;BEGIN DCL k FIXED;BEGIN DCL k BIT;k:=b;END;k:=i;END;;
END;
MODEND";

const LOOPS: &str = "MODULE;PROBLEM;
DCL i FIXED,b BIT,a(4) FIXED;
p:PROC(x FIXED IDENT)RETURNS(FIXED);TO x REPEAT RETURN(x);END;WHILE b REPEAT EXIT;RETURN(1);END;RETURN(2);END;
t:TASK;
  REPEAT EXIT;END;REPEAT END;WHILE b REPEAT b:=NOT b;END;TO 3 REPEAT i:=i+1;END;BY 2 TO i REPEAT END;
  FROM i REPEAT EXIT;END;FOR k REPEAT i:=k;END;FOR k TO 4 REPEAT DCL z FIXED INIT(9),y(2) CHAR;a(k):=z;END;
  FOR k FROM 4 BY -1 TO 1 WHILE a(k)>0 REPEAT IF b THEN EXIT;FIN;REPEAT CASE k ALT EXIT;OUT i:=k;FIN;END;END;
  FOR k BY p(i) REPEAT FOR k FROM k TO k+1 REPEAT EXIT;END;EXIT;END;
END;
MODEND";

const TEXTS: &str = "MODULE;SYSTEM;tty:TERMINAL(1);in:TERMINAL(2);PROBLEM;
SPC tty DATION INOUT ALPHIC,in DATION IN ALPHIC CONTROL(ALL);
DCL n FIXED,a(2,2) FIXED,c(3) CHAR(4),b BIT(9),k CLOCK,d DURATION;
p:PROC(x FIXED IDENT,y CHAR(4) IDENT,z CLOCK);DCL w(3) FIXED,v CHAR(2);
  GET x,y,z FROM tty BY F(3),A,T(8);GET w(x),x,a(x,x),v FROM in BY F(1),F(2),F(3),A(1);
  PUT x,y,w(1) TO tty BY F(9),A,F(9);
END;
t:TASK;DCL w(2) FIXED,u FIXED,s(2) CHAR;
  PUT TO tty BY SKIP;PUT TO tty BY X,SKIP(2);GET FROM in BY SKIP;GET n FROM tty BY F(2);GET u FROM tty BY F(2);
  PUT n,u+1,w(n),'text',c(1),b,b,b,b,b,k,d TO tty BY F(3),X(2),F(4),F(5),A,A(2),B,B1(9),B2,B3,B4(3),T(12),D(26),SKIP;
  GET n,a(1,n),c(u),b,b,k,d FROM in BY F(3),X,F(4),A,B,B4(3),T(12),D(26),SKIP;
  GET w(1),u,w(u),s(2) FROM tty BY F(1),F(1),F(1),A;
  REPEAT DCL z FIXED;GET z FROM tty BY F(3);p(z,c(z),k);END;
END;
MODEND";

const VALUES: &str = "MODULE;SYSTEM;m:INPUT(1);o:OUTPUT(2);h:OUTPUT(3);PROBLEM;
SPC m DATION IN BASIC FIXED(15),o DATION OUT BASIC BIT(8),h DATION OUT BASIC CHAR(3);
DCL n FIXED(20),a(2) FIXED;
p:PROC(x FIXED IDENT);DCL w(2) FIXED,v FIXED(15);TAKE x FROM m;TAKE w(x) FROM m;TAKE v FROM m;TAKE a(x) FROM m;END;
t:TASK;DCL k FIXED,w(0:2,2) FIXED;
  TAKE n FROM m;TAKE a(k) FROM m;TAKE k FROM m;TAKE w(0,n) FROM m;SEND '101'B TO o;SEND 'ab' TO h;p(k);
END;
MODEND";

const SCHEDULES: &str = "MODULE;SYSTEM;irq:INTERRUPT(1);other:INTERRUPT(2);PROBLEM;
SPC (other,irq) INTERRUPT;DCL c CLOCK,d DURATION,n FIXED;
t:TASK PRIO 5;
  ACTIVATE u;ACTIVATE u PRIO n+1;AT c ACTIVATE u;AT 12:0:0 ALL d ACTIVATE u PRIO 3;AT c ALL d UNTIL c+d ACTIVATE t;
  AT c ALL d DURING 1 HRS ACTIVATE u;AFTER d ACTIVATE u;AFTER 1 SEC ALL d ACTIVATE u PRIO n;
  AFTER d ALL d UNTIL NOW ACTIVATE u;AFTER d ALL d DURING d+d ACTIVATE u;WHEN irq ACTIVATE u;
  WHEN other ALL d ACTIVATE u;WHEN irq ALL d UNTIL c ACTIVATE u;WHEN irq ALL d DURING d ACTIVATE u PRIO 7;
  WHEN irq AFTER d ACTIVATE u;WHEN other AFTER d ALL d ACTIVATE u;WHEN irq AFTER d ALL d UNTIL c ACTIVATE u;
  WHEN irq AFTER d ALL d DURING d ACTIVATE u PRIO n;ALL d ACTIVATE u;ALL d UNTIL c ACTIVATE u;
  ALL d DURING d ACTIVATE u PRIO 1;
END;
u:TASK PRIO 9;
  CONTINUE t;AT c CONTINUE t;AFTER d CONTINUE u;WHEN irq CONTINUE t;AT c+d RESUME;AFTER d RESUME;WHEN other RESUME;
END;
MODEND";

const SIGNALS: &str = "MODULE;SYSTEM;irq:INTERRUPT(1);other:INTERRUPT(2);PROBLEM;
SPC (other,irq) INTERRUPT;DCL (r,s) SEMA PRESET(1,2),b BIT,v SEMA;
p:PROC;IF TRY s THEN RELEASE s;FIN;SUSPEND;SUSPEND t;TERMINATE t;PREVENT;PREVENT t;TERMINATE;END;
t:TASK;
  REQUEST s;REQUEST v,r,s;RELEASE r;RELEASE s,v;b:=TRY r OR TRY v;ENABLE irq;DISABLE other;TRIGGER irq;DISABLE irq;
  ENABLE other;SUSPEND u;TERMINATE u;PREVENT u;PREVENT;p;SUSPEND;TERMINATE;
END;
u:TASK;CALL p;WHILE TRY s REPEAT TERMINATE t;END;END;
MODEND";

const OPERATORS: &str = "MODULE;PROBLEM;
DCL (i,j) FIXED,v(-3:3,2,4) FIXED,(b,c) BIT(5),(x,y) CHAR(2),w CHAR(4),e BIT(10),(f,g) CLOCK,
  (h,d) DURATION,q BIT,l FIXED(63);
p:PROC((i,u) FIXED,s CHAR(2) IDENT)RETURNS(BIT(5));
  i:=+i-(-u)*ABS i//SIGN u REM 3**2;s:=s;u:=LWB v+2 UPB v;RETURN(b OR c AND NOT b EXOR '11'B);END;
t:TASK;DCL o(2:5) FIXED,k CHAR(2);
  i:=+i;i:=-j;i:=ABS j;i:=SIGN j;h:=+d;h:=-d;h:=ABS d;i:=SIGN d;b:=NOT c;i:=i**j;i:=i*j;h:=i*d;h:=d*j;i:=i//j;h:=d//i;
  l:=h//d;i:=i REM j;w:=x><y;e:=b><c;i:=i+j;h:=h+d;f:=g+d;f:=d+g;i:=i-j;h:=h-d;f:=g-d;h:=f-g;b:=b<>1;b:=b SHIFT -i;
  q:=i<j;q:=x<y;q:=f<g;q:=h<d;q:=i>j;q:=x<=y;q:=f>=g;q:=i==j;q:=b==c;q:=x==y;q:=f/=g;q:=b/=c;b:=b AND c;b:=b OR c;
  b:=b EXOR c;
  i:=LWB o+UPB o+3 UPB v+2 LWB v;f:=NOW;h:=NOW-12:30:00.5;d:=1 HRS 2 MIN 3.25 SEC;l:=9000000000000000000-l;w:='it''s';
  e:=p(v(i,j,o(2)),o(UPB o),x)><p(1,i+1,k);v(-3,1,4):=o(v(1,1,1));
END;
MODEND";

const DECLARATIONS: &str = "MODULE(all);SYSTEM;irq:INTERRUPT(9);PROBLEM;SPC irq INTERRUPT;
TYPE y STRUCT[u FIXED(7),v(2) BIT(3)];DCL w(2) STRUCT[m y,n CHAR] INIT(5,6,'1'B,'01'B,'111'B,'0'B,'a');
DCL i(3) INV FIXED INIT(1,-2),s SEMA,k CLOCK INIT(1:2:3),d DURATION INIT(-1 SEC);
p:PROC;DCL (a,b)(3) FIXED INIT(1,2),c(2) y,e CHAR(3) INIT('x'),f(3) DURATION INIT(2 SEC),g CLOCK INIT(0:0:1),h(2) BIT;
  END;
main:TASK PRIO 1 MAIN;DCL a(300) FIXED,r(2) STRUCT[m(2) FIXED(7),n y] INIT(1,2,3,4,5,6,'1'B);p;
  REPEAT DCL a(2) BIT(3) INIT('101'B),l(2,2) CLOCK INIT(1:0:0,2:0:0);BEGIN DCL b FIXED INIT(3);p;END;END;
END;
second:TASK MAIN;END;third:TASK PRIO 255;END;
MODEND";

const EMPTY: &str = "MODULE;PROBLEM;MODEND";

fn is_valid(alloc: Global, source: &str) -> Result<bool, AllocError> {
    let found = judged(alloc, source.as_bytes())?;
    Ok(found.as_str() == "valid")
}

#[test]
fn each_form_has_valid_code(rt: HostRuntime) -> Result<(), Fail> {
    for (name, source) in [
        ("assignments", ASSIGNMENTS),
        ("calls", CALLS),
        ("branches", BRANCHES),
        ("loops", LOOPS),
        ("texts", TEXTS),
        ("values", VALUES),
        ("schedules", SCHEDULES),
        ("signals", SIGNALS),
        ("operators", OPERATORS),
        ("declarations", DECLARATIONS),
        ("empty", EMPTY),
    ] {
        assert!(rt; is_valid(rt.alloc(), source)?, "{name}");
    }
    Ok(())
}

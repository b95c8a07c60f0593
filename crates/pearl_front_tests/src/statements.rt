// Statements and bodies, worked out by hand. Each stands in the body of a module's task.

use crate::cases::{STOP, expect, tokens_of};
use crate::modules::refuses;
use pearl_parse::parse::parse;
use pearl_tree::statement::{Body, Stmt};
use pearl_tree::tree::{Decl, Tree};
use std::alloc::{AllocError, Global};
use std::fmt;

const HEAD: &[u8] = b"MODULE m;PROBLEM;t:TASK;";

const TAIL: &[u8] = b"END;MODEND;";

// Bodies that are read.
static READ: [&str; 55] = [
    "",
    ";",
    "EXIT;",
    "SUSPEND;",
    "TERMINATE t;",
    "PREVENT t;",
    "ENABLE i;",
    "DISABLE i;",
    "TRIGGER i;",
    "REQUEST a;",
    "RELEASE a, b, c;",
    "SEND a + 1 TO d;",
    "TAKE a(1).b FROM d;",
    "PUT TO d BY SKIP;",
    "PUT a, (b) TO d BY F(3), A, X(2);",
    "GET FROM d BY SKIP(2);",
    "GET a, b(1) FROM d BY F(3), D(9);",
    "RETURN;",
    "RETURN (a + 1);",
    "CALL p;",
    "CALL p(a, b + 1);",
    "p;",
    "p(a, b);",
    "a := 1 HRS 2 MIN;",
    "a(1).b(2) = c;",
    "ACTIVATE t;",
    "ACTIVATE t PRIO 3;",
    "ALL 1 SEC DURING 1 MIN ACTIVATE t;",
    "AT 1:2:3 ALL 1 SEC UNTIL 2:3:4 ACTIVATE t PRIO 2;",
    "AFTER 5 SEC ACTIVATE t;",
    "AFTER 5 SEC CONTINUE t;",
    "AT 1:2:3 RESUME;",
    "WHEN i AFTER 1 SEC ALL 1 SEC ACTIVATE t;",
    "WHEN i CONTINUE t;",
    "WHEN i RESUME;",
    "BEGIN ; END;",
    "IF a THEN FIN;",
    "IF a > b THEN c := 1; ; ELSE d := 2; FIN;",
    "IF a THEN ELSE FIN;",
    "IF a THEN IF b THEN c; ELSE d; FIN; ELSE e; FIN;",
    "CASE a ALT FIN;",
    "CASE a + 1 ALT b; ALT ; ALT c; d; OUT e; FIN;",
    "CASE a ALT CASE b ALT c; OUT d; FIN; ALT OUT FIN;",
    "REPEAT END;",
    "FOR i REPEAT END;",
    "FROM 1 TO 10 REPEAT ; END;",
    "BY 2 WHILE a < b REPEAT END;",
    "FOR i BY -1 REPEAT EXIT; END;",
    "FOR i FROM 1 BY 2 TO 9 WHILE a REPEAT DCL b FIXED; b := i; END;",
    "BEGIN END;",
    "BEGIN DCL a FIXED, b FLOAT; DECLARE (c, d) FIXED INIT(1, 2); a := c; END;",
    "BEGIN DCL a FIXED; BEGIN DCL a FLOAT; END; END;",
    "REPEAT IF a THEN EXIT; FIN; BEGIN CASE b ALT REPEAT END; FIN; END; END;",
    "DCL a FIXED;",
    "DCL a FIXED; DCL b FIXED; a := b; ;",
];

// What is no body of the task, with the refused token, which may be the first one behind it.
static REFUSED: [&str; 53] = [
    "^ELSE;",
    "^1;",
    "EXIT ^t;",
    "SUSPEND t ^u;",
    "ENABLE^;",
    "RELEASE a, ^;",
    "SEND ^TO d;",
    "SEND a TO^;",
    "TAKE ^1 FROM d;",
    "PUT a ^FROM d BY A;",
    "PUT a TO d^;",
    "PUT a, ^TO d BY A;",
    "GET a FROM d BY A ^",
    "GET a ^+ b FROM d BY A;",
    "RETURN (a^;",
    "RETURN (^);",
    "CALL p(^);",
    "CALL ^1;",
    "a.b^;",
    "p(a)(b)^;",
    "a := ^;",
    "AT 1:2:3 ^AFTER 1 SEC ACTIVATE t;",
    "AT 1:2:3 ^SUSPEND t;",
    "ALL 1 SEC ^CONTINUE t;",
    "^RESUME;",
    "CONTINUE t ^PRIO 1;",
    "^FIN;",
    "IF ^THEN FIN;",
    "IF a ^b; FIN;",
    "IF a THEN FIN ^",
    "IF a THEN b := ^; FIN;",
    "IF a THEN b; ^OUT c; FIN;",
    "IF a THEN b; ^END;",
    "IF a THEN b; ELSE c; ^ELSE d; FIN;",
    "IF a THEN ELSE ^DCL b FIXED; FIN;",
    "CASE a ^FIN;",
    "CASE a ^OUT b; FIN;",
    "CASE a ALT b; ^ELSE c; FIN;",
    "CASE a ALT b; OUT c; ^ALT d; FIN;",
    "CASE a ALT b ^",
    "FOR ^1 REPEAT END;",
    "FROM 1 ^FOR i REPEAT END;",
    "TO 9 ^BY 2 REPEAT END;",
    "WHILE a ^END;",
    "FOR i FROM ^REPEAT END;",
    "REPEAT a; ^FIN;",
    "BEGIN a; ^DCL b FIXED; END;",
    "BEGIN DCL a^; END;",
    "BEGIN DCL a FIXED, b^; END;",
    "END;^",
    "a := b; ^DCL a FIXED;",
    "DCL a FIXED; DCL b^; a;",
    "a; b ^c;",
];

// What opens a level, and what closes it.
static LEVELS: [(&str, &str); 6] = table![
    "IF a THEN " => "FIN; ";
    "IF a THEN ELSE " => "FIN; ";
    "CASE a ALT " => "FIN; ";
    "CASE a ALT OUT " => "FIN; ";
    "FOR i REPEAT " => "END; ";
    "BEGIN " => "END; ";
];

// A limit of the grammar: what stands before the counted part, that part as often as the limit allows, and what makes a
// body of both. Once more the part is refused, at its first token.
struct Limit {
    head: &'static str,
    part: &'static str,
    times: usize,
    rest: &'static str,
}

static LIMITS: [Limit; 4] = [
    Limit {
        head: "x := ",
        part: "(",
        times: 32,
        rest: "a))))))))))))))))))))))))))))))));",
    },
    Limit {
        head: "x := a ",
        part: "+ a ",
        times: 100,
        rest: ";",
    },
    Limit {
        head: "x := ",
        part: "- ",
        times: 8,
        rest: "a;",
    },
    Limit {
        head: "DCL x ",
        part: "STRUCT [ y ",
        times: 8,
        rest: "FIXED ] ] ] ] ] ] ] ];",
    },
];

// The part once more than it is allowed, or as often as it is.
fn limited(alloc: Global, limit: &Limit, once_more: bool) -> Result<Vec<u8>, AllocError> {
    let mut body = Vec::from_slice(alloc, limit.head.as_bytes())?;
    for _ in 0..limit.times {
        body.extend_from_slice(limit.part.as_bytes())?;
    }
    if once_more {
        body.push(STOP)?;
        body.extend_from_slice(limit.part.as_bytes())?;
    }
    body.extend_from_slice(limit.rest.as_bytes())?;
    Ok(body)
}

// The source of a module whose one task has this body.
fn module_of(alloc: Global, body: &[u8]) -> Result<Vec<u8>, AllocError> {
    let mut source = Vec::from_slice(alloc, HEAD)?;
    source.extend_from_slice(body)?;
    source.extend_from_slice(TAIL)?;
    Ok(source)
}

// This body within 32 levels.
fn nest(alloc: Global, open: &str, body: &str, close: &str) -> Result<Vec<u8>, AllocError> {
    let mut whole = Vec::new(alloc);
    for _ in 0..32 {
        whole.extend_from_slice(open.as_bytes())?;
    }
    whole.extend_from_slice(body.as_bytes())?;
    for _ in 0..32 {
        whole.extend_from_slice(close.as_bytes())?;
    }
    Ok(whole)
}

fn tree_of(alloc: Global, body: &[u8]) -> Option<Tree> {
    let source = module_of(alloc, body).ok()?;
    let (tokens, end) = tokens_of(alloc, source.as_slice())?;
    parse(alloc, tokens.as_slice(), end).ok()
}

fn refuses_body(alloc: Global, body: &[u8]) -> Option<bool> {
    let case = module_of(alloc, body).ok()?;
    refuses(alloc, case.as_slice())
}

fn body_of(tree: &Tree) -> Option<&Body> {
    match tree.declarations.as_slice().first() {
        Some(Decl::Task { body, .. }) => Some(body),
        _ => None,
    }
}

fn has_else(statement: &Stmt) -> bool {
    match statement {
        Stmt::If(choice) => choice.otherwise.is_some(),
        _ => false,
    }
}

// Whether the outer one of two IF has an ELSE, and whether the inner one has.
fn elses(statement: &Stmt) -> (bool, bool) {
    match statement {
        Stmt::If(choice) => match choice.statements.as_slice().first() {
            Some(inner) => (has_else(statement), has_else(inner)),
            None => (has_else(statement), false),
        },
        _ => (false, false),
    }
}

fn elses_of(alloc: Global, body: &[u8]) -> Option<(bool, bool)> {
    let tree = tree_of(alloc, body)?;
    let body = body_of(&tree)?;
    body.statements.as_slice().first().map(elses)
}

#[test]
fn bodies_are_read_to_their_ends(rt: HostRuntime) -> Result<(), fmt::Error> {
    for &body in &READ {
        expect(&rt, tree_of(rt.alloc(), body.as_bytes()).is_some(), body);
    }
    Ok(())
}

#[test]
fn a_token_that_fits_in_no_body_is_refused(rt: HostRuntime) -> Result<(), fmt::Error> {
    for &body in &REFUSED {
        expect(
            &rt,
            refuses_body(rt.alloc(), body.as_bytes()) == Some(true),
            body,
        );
    }
    Ok(())
}

#[test]
fn else_belongs_to_the_inner_if(rt: HostRuntime) -> Result<(), fmt::Error> {
    let alloc = rt.alloc();
    let inner = elses_of(alloc, b"IF a THEN IF b THEN c; ELSE d; FIN; FIN;");
    assert!(rt; inner == Some((false, true)));
    let outer = elses_of(alloc, b"IF a THEN IF b THEN c; FIN; ELSE d; FIN;");
    assert!(rt; outer == Some((true, false)));
    Ok(())
}

// Whether 32 levels are read, and one more is refused where it opens.
fn nests_so(alloc: Global, open: &str, close: &str) -> Result<bool, AllocError> {
    let deep = nest(alloc, open, "", close)?;
    let body = format!(in alloc; "^{open}{close}")?;
    let deeper = nest(alloc, open, body.as_str(), close)?;
    Ok(
        tree_of(alloc, deep.as_slice()).is_some()
            && refuses_body(alloc, deeper.as_slice()) == Some(true),
    )
}

#[test]
fn thirty_two_levels_are_read_and_no_more(rt: HostRuntime) -> Result<(), fmt::Error> {
    for &(open, close) in &LEVELS {
        expect(&rt, nests_so(rt.alloc(), open, close)?, open);
    }
    Ok(())
}

// Whether the limit itself is read, and what passes it is refused at its first token.
fn is_limited(alloc: Global, limit: &Limit) -> Result<bool, AllocError> {
    let most = limited(alloc, limit, false)?;
    let more = limited(alloc, limit, true)?;
    Ok(
        tree_of(alloc, most.as_slice()).is_some()
            && refuses_body(alloc, more.as_slice()) == Some(true),
    )
}

#[test]
fn what_passes_a_limit_is_refused_at_its_first_token(rt: HostRuntime) -> Result<(), fmt::Error> {
    for limit in &LIMITS {
        expect(&rt, is_limited(rt.alloc(), limit)?, limit.part);
    }
    Ok(())
}

// Modules that were worked out by hand, each shown by a mark for each of its parts.

use crate::cases::{STOP, expect, place_of, source_of, tokens_of};
use pearl_parse::parse::parse;
use pearl_parse_expr::fault::ParseFault;
use pearl_tree::declaration::Device;
use pearl_tree::parts::Parts;
use pearl_tree::token::Token;
use pearl_tree::tree::{Decl, ModuleName, Tree};
use std::alloc::{AllocError, Global};
use std::fmt;

// Each source, its MODEND marked, with the form of its name, a mark for each device behind that of its system part, one for each
// declaration, and its last semicolon.
static READ: [(&str, &str); 13] = table![
    "MODULE;PROBLEM;^MODEND" => "-/";
    "MODULE;PROBLEM;^MODEND;" => "-/;";
    "MODULE m;PROBLEM;^MODEND;" => "n/;";
    "MODULE(m);PROBLEM;^MODEND;" => "(/;";
    "MODULE;SYSTEM;PROBLEM;^MODEND" => "-s/";
    "MODULE(m); SYSTEM; tty: TERMINAL(1); irq: INTERRUPT(3); PROBLEM; ^MODEND;" => "(sdd/;";
    "MODULE m; PROBLEM; LENGTH FIXED(31); LENGTH BIT(8); ^MODEND" => "n/LL";
    "MODULE m; PROBLEM; TYPE t STRUCT [a FIXED, b CHAR]; DCL (a, b) t, s SEMA; ^MODEND" => "n/YD";
    "MODULE m; PROBLEM; SPC tty DATION INOUT ALPHIC, irq INTERRUPT; DCL a FIXED INIT(1); \
        ^MODEND;" => "n/SD;";
    "MODULE m;PROBLEM;t:TASK;END;^MODEND;" => "n/T;";
    "MODULE m; PROBLEM; t: TASK PRIO 5 MAIN; DCL a FIXED; a := 1; END; \
        u: TASK MAIN PRIO 2; END; v: TASK MAIN;;; END; ^MODEND" => "n/TTT";
    "MODULE m; PROBLEM; p: PROC; END; \
        q: PROC(a FIXED, (b, c) FIXED IDENT) RETURNS(FIXED); RETURN (a + b); END; \
        ^MODEND;" => "n/PP;";
    "MODULE(m); SYSTEM; tty: TERMINAL(1); PROBLEM; SPC tty DATION INOUT ALPHIC; DCL a FIXED; \
        t: TASK MAIN; a := a + 40 - 3; PUT a TO tty BY F(5), SKIP; END; \
        ^MODEND;" => "(sd/SDT;";
];

// Each source that is no module, with the refused token.
static REFUSED: [&str; 38] = [
    "^",
    "^PROBLEM;MODEND;",
    "MODULE^",
    "MODULE ^5;",
    "MODULE(^);",
    "MODULE(m^;",
    "MODULE m ^n;",
    "MODULE m;^MODEND;",
    "MODULE m;SYSTEM ^PROBLEM;",
    "MODULE m;SYSTEM;^5;PROBLEM;",
    "MODULE m;SYSTEM;a ^b(1);PROBLEM;",
    "MODULE m;SYSTEM;a:b(1)^PROBLEM;",
    "MODULE m;SYSTEM;a:b(1);a:c(^x);PROBLEM;",
    "MODULE m;SYSTEM;a:b(1);^MODEND;",
    "MODULE m;PROBLEM ^MODEND;",
    "MODULE m;PROBLEM;^",
    "MODULE m;PROBLEM;^EXIT;",
    "MODULE m;PROBLEM;^;MODEND;",
    "MODULE m;PROBLEM;t ^MODEND;",
    "MODULE m;PROBLEM;t:^FIXED;MODEND;",
    "MODULE m;PROBLEM;LENGTH FIXED(31)^MODEND;",
    "MODULE m;PROBLEM;DCL a FIXED,^;MODEND;",
    "MODULE m;PROBLEM;t:TASK PRIO ^x;END;MODEND;",
    "MODULE m;PROBLEM;p:PROC(a FIXED,^);END;MODEND;",
    "MODULE m;PROBLEM;p:PROC(^);END;MODEND;",
    "MODULE(m);PROBLEM;t:TASK;END;^",
    "MODULE m;PROBLEM;t:TASK;^MODEND;",
    "MODULE m;PROBLEM;t:TASK ^END;MODEND;",
    "MODULE m;PROBLEM;t:TASK;END ^MODEND;",
    "MODULE m;PROBLEM;t:TASK;a:=^;END;MODEND;",
    "MODULE m;PROBLEM;t:TASK;BEGIN END;^MODEND;",
    "MODULE m;PROBLEM;t:TASK;END;x^;MODEND;",
    "MODULE m;PROBLEM;t:TASK;DCL s ^SEMA;END;MODEND;",
    "MODULE m;PROBLEM;p:PROC RETURNS ^FIXED;END;MODEND;",
    "MODULE m;PROBLEM;p:PROC;IF a THEN b;^END;MODEND;",
    "MODULE m;PROBLEM;MODEND ^x",
    "MODULE m;PROBLEM;MODEND;^;",
    "MODULE m;PROBLEM;MODEND; ^DCL a FIXED;",
];

// The place of the token with which each source is refused, as a number. Tokens before it begin a module.
static TOLD: [(&str, u32); 6] = table![
    "MODULE(m);PROBLEM;" => 18;
    "MODULE(m);PROBLEM;MODEND;;" => 25;
    "MODULE(m);PROBLEM;t:TASK;IF a THEN END;MODEND;" => 35;
    "MODULE(m);PROBLEM;t:TASK;x(1 2):=3;END;MODEND;" => 29;
    "MODULE(m);PROBLEM;t:TASK;x := a + * b;END;MODEND;" => 34;
    "MODULE(m);PROBLEM;t:TASK;x((((((((((((((((((((((((((((((((((1)))))))))))))))))))))))))))))))))):=3;END;MODEND;" => 59;
];

// Sources in which the refused token ends another alternative than the one that is read up to there.
static ABANDONED: [&str; 26] = [
    "MODULE(m);PROBLEM;t:TASK;p(a).b^;END;MODEND;",
    "MODULE(m);PROBLEM;t:TASK;p(a, b ^c);END;MODEND;",
    "MODULE(m);PROBLEM;t:TASK;x(1, ^) := 3;END;MODEND;",
    "MODULE(m);PROBLEM;t:TASK;x := 1 HRS 2^;END;MODEND;",
    "MODULE(m);PROBLEM;t:TASK;x := 1 HRS 2 ^HRS;END;MODEND;",
    "MODULE(m);PROBLEM;t:TASK;x := 1 MIN 2.5 ^+ y;END;MODEND;",
    "MODULE(m);PROBLEM;t:TASK;x := 1 HRS 2 MIN 3^;END;MODEND;",
    "MODULE(m);PROBLEM;t:TASK;x := 2 UPB ^;END;MODEND;",
    "MODULE(m);PROBLEM;SPC d DATION IN ALPHIC ^c;MODEND;",
    "MODULE(m);PROBLEM;SPC d DATION IN ALPHIC CONTROL^;MODEND;",
    "MODULE(m);PROBLEM;SPC d DATION IN ALPHIC CONTROL(^c);MODEND;",
    "MODULE(m);PROBLEM;SPC d DATION OUT BASIC CHAR(^c);MODEND;",
    "MODULE(m);PROBLEM;t:TASK MAIN PRIO^;END;MODEND;",
    "MODULE(m);PROBLEM;t:TASK PRIO 5 MAIN ^PRIO 5;END;MODEND;",
    "MODULE(m);PROBLEM;t:TASK MAIN PRIO 5 ^MAIN;END;MODEND;",
    "MODULE(m);PROBLEM;DCL a FIXED(^c);MODEND;",
    "MODULE(m);PROBLEM;DCL a FIXED INIT(1 ^2);MODEND;",
    "MODULE(m);PROBLEM;DCL s SEMA PRESET(1^;MODEND;",
    "MODULE(m);PROBLEM;DCL a(1:^) FIXED;MODEND;",
    "MODULE(m);PROBLEM;p:PROC(a FIXED ^INIT);END;MODEND;",
    "MODULE(m);PROBLEM;p:PROC RETURNS(^t);END;MODEND;",
    "MODULE(m);PROBLEM;t:TASK;RETURN ^a;END;MODEND;",
    "MODULE(m);PROBLEM;t:TASK;CALL p(a)^(b);END;MODEND;",
    "MODULE(m);PROBLEM;t:TASK;PUT a TO d BY SKIP(^c);END;MODEND;",
    "MODULE(m);PROBLEM;t:TASK;PUT a TO d BY A(5^;END;MODEND;",
    "MODULE(m);PROBLEM;t:TASK;ALL 1 SEC UNTIL 2:0:0 ^DURING;END;MODEND;",
];

fn show_system(into: &mut Vec<u8>, system: &Option<Parts<Device>>) -> Result<(), AllocError> {
    if let Some(devices) = system {
        into.push(b's')?;
        for _ in devices.as_slice() {
            into.push(b'd')?;
        }
    }
    Ok(())
}

fn declaration_mark(declaration: &Decl) -> u8 {
    match declaration {
        Decl::Length { .. } => b'L',
        Decl::Type { .. } => b'Y',
        Decl::Declare { .. } => b'D',
        Decl::Specify { .. } => b'S',
        Decl::Task { .. } => b'T',
        Decl::Proc { .. } => b'P',
    }
}

fn show(into: &mut Vec<u8>, tree: &Tree) -> Result<(), AllocError> {
    let name = match &tree.name {
        Some(ModuleName::Bracketed(_)) => b'(',
        Some(ModuleName::Bare(_)) => b'n',
        None => b'-',
    };
    into.push(name)?;
    show_system(into, &tree.system)?;
    into.push(b'/')?;
    for declaration in tree.declarations.as_slice() {
        into.push(declaration_mark(declaration))?;
    }
    if tree.semicolon {
        into.push(b';')?;
    }
    Ok(())
}

fn is_shown(alloc: Global, tree: &Tree, text: &[u8]) -> bool {
    let mut shown = Vec::new(alloc);
    match show(&mut shown, tree) {
        Ok(()) => shown.as_slice() == text,
        Err(_) => false,
    }
}

// Whether the case is read as the module that the text shows, and MODEND where the mark stands.
fn reads(alloc: Global, case: &[u8], text: &[u8]) -> Option<bool> {
    let source = source_of(alloc, case).ok()?;
    let (tokens, end) = tokens_of(alloc, source.as_slice())?;
    let tree = parse(alloc, tokens.as_slice(), end).ok()?;
    Some(place_of(case, STOP) == Some(tree.modend) && is_shown(alloc, &tree, text))
}

fn is_refused(alloc: Global, tokens: &[Token], end: u32, stop: u32) -> bool {
    match parse(alloc, tokens, end) {
        Ok(_) => false,
        Err(fault) => match fault {
            ParseFault::Refused(place) => place == stop,
            ParseFault::NoMemory => false,
        },
    }
}

/// Whether this case is no module, and the token at its mark is told.
pub fn refuses(alloc: Global, case: &[u8]) -> Option<bool> {
    let source = source_of(alloc, case).ok()?;
    let (tokens, end) = tokens_of(alloc, source.as_slice())?;
    let stop = place_of(case, STOP)?;
    Some(is_refused(alloc, tokens.as_slice(), end, stop))
}

#[test]
fn modules_are_read_from_the_first_token_to_the_last(rt: HostRuntime) -> Result<(), fmt::Error> {
    for &(case, text) in &READ {
        let found = reads(rt.alloc(), case.as_bytes(), text.as_bytes());
        expect(&rt, found == Some(true), case);
    }
    Ok(())
}

#[test]
fn what_is_no_module_is_refused_where_it_stops(rt: HostRuntime) -> Result<(), fmt::Error> {
    for &case in &REFUSED {
        expect(
            &rt,
            refuses(rt.alloc(), case.as_bytes()) == Some(true),
            case,
        );
    }
    Ok(())
}

#[test]
fn the_first_token_with_which_no_module_begins_is_told(rt: HostRuntime) -> Result<(), fmt::Error> {
    for &(source, place) in &TOLD {
        let found = tokens_of(rt.alloc(), source.as_bytes());
        let told = match &found {
            Some((tokens, end)) => is_refused(rt.alloc(), tokens.as_slice(), *end, place),
            None => false,
        };
        expect(&rt, told, source);
    }
    Ok(())
}

#[test]
fn an_abandoned_alternative_is_told_where_it_stops(rt: HostRuntime) -> Result<(), fmt::Error> {
    for &case in &ABANDONED {
        expect(
            &rt,
            refuses(rt.alloc(), case.as_bytes()) == Some(true),
            case,
        );
    }
    Ok(())
}

#[test]
fn no_tokens_are_refused_at_the_end(rt: HostRuntime) -> Result<(), fmt::Error> {
    assert!(rt; is_refused(rt.alloc(), &[], 12, 12));
    assert!(rt; is_refused(rt.alloc(), &[], 0, 0));
    Ok(())
}

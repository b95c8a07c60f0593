// Statements of small modules, worked out by hand: the rules on the kinds of expressions that are broken at their marks.

use crate::cases::{STOP, expect, places_of, show_faults, tree_of};
use pearl_check_expr::subject::{Subject, kind_of};
use pearl_names::table::{SenseTable, table_of};
use pearl_tree::fault::{RuleFault, in_order};
use pearl_tree::statement::{Body, Stmt};
use pearl_tree::tree::{Decl, Tree};
use std::alloc::{AllocError, Global};
use std::test::Fail;

// Each module with the rules that are broken in its first procedure. What breaks a rule is mostly followed by what stands at
// its edge.
static MODULES: [(&str, &str); 13] = table![
    "DCL a FIXED,c CHAR(2);p:PROC;a:=a ^+ c;a:=a + 1;END;" => "S15 ";
    "DCL c CHAR(200),d CHAR(55);p:PROC;c:=c><d;c:=c><d^><'x';END;" => "S15 ";
    "DCL a FIXED;p:PROC;a:=^t;END;t:TASK;END;" => "S16 ";
    "DCL a FIXED;p:PROC;^a(1);q;END;q:PROC;END;" => "S16 ";
    "DCL b BIT,s SEMA;p:PROC;b:=TRY ^b;b:=TRY s;END;" => "S16 ";
    "DCL a FIXED,b(2) FIXED;p:PROC;a:=^b(1,1);a:=b(1);a:=^b('1'B1);END;" => "S17 S17 ";
    "DCL a FIXED,b(2) FIXED;p:PROC;a:=LWB ^a;a:=LWB b;a:=2 UPB ^b;END;" => "S17 S17 ";
    "TYPE u STRUCT[k FIXED];DCL a FIXED,s u,r(2) u;p:PROC;a:=s.k;a:=s.^j;a:=a.^k;a:=^r.k;END;" => "S18 S18 S17 ";
    "DCL a FIXED,b(2) FIXED;p:PROC;a:=^b;^b:=a;b(1):=a;END;" => "S19 S19 ";
    "DCL a FIXED;p:PROC;^q;q('abc');q('ab');q(^'abcd');^q('abc',a);END;q:PROC(x CHAR(3));END;" => "S20 S20 S20 ";
    "DCL a FIXED,i INV FIXED INIT(1),b FIXED(15);p:PROC;q(a);q(^i);q(^b);q(^(a));q(^1);END;q:PROC(x FIXED IDENT);END;"
        => "S21 S21 S21 S21 ";
    "DCL a FIXED;p:PROC;a:=^q;q;a:=r;END;q:PROC;END;r:PROC RETURNS(FIXED);END;" => "S22 ";
    "DCL a FIXED;p:PROC;a:=^r(1)(2);a:=r(1).^k;END;r:PROC(x FIXED) RETURNS(FIXED);END;" => "S17 S18 ";
];

// Asks a statement's parts. The first procedure's scope is that of number 1.
fn ask(
    alloc: Global,
    table: &SenseTable,
    statement: &Stmt,
    faults: &mut Vec<RuleFault>,
) -> Result<(), AllocError> {
    match statement {
        Stmt::Assign(assign) => {
            kind_of(alloc, table, 1, Subject::Target(&assign.target), faults)?;
            kind_of(alloc, table, 1, Subject::Value(&assign.value), faults)?;
        }
        Stmt::Call(call) => {
            kind_of(alloc, table, 1, Subject::Call(call), faults)?;
        }
        _ => {}
    }
    Ok(())
}

fn first_body(tree: &Tree) -> Option<&Body> {
    for decl in tree.declarations.as_slice() {
        if let Decl::Proc { body, .. } = decl {
            return Some(body);
        }
    }
    None
}

fn faults_of(alloc: Global, tree: &Tree) -> Result<Vec<RuleFault>, AllocError> {
    let table = table_of(alloc, tree)?;
    let mut faults = Vec::new(alloc);
    if let Some(body) = first_body(tree) {
        for statement in body.statements.as_slice() {
            ask(alloc, &table, statement, &mut faults)?;
        }
    }
    Ok(in_order(faults))
}

// The broken rules of a module, each with a blank behind it, or what it has in place of them. A rule that isn't told at its
// mark has its place in front.
fn shown(alloc: Global, case: &str) -> Result<String, AllocError> {
    let case = format!(in alloc; "MODULE;PROBLEM;{case}MODEND")?;
    let Some(tree) = tree_of(alloc, case.as_bytes()) else {
        return String::from_str(alloc, "no tree");
    };
    let places = places_of(alloc, case.as_bytes(), STOP)?;
    let mut text = String::new(alloc);
    let faults = faults_of(alloc, &tree)?;
    show_faults(&mut text, faults.as_slice(), places.as_slice())?;
    Ok(text)
}

#[test]
fn expressions_break_the_rules_at_their_marks(rt: HostRuntime) -> Result<(), Fail> {
    for &(case, expected) in &MODULES {
        let found = shown(rt.alloc(), case)?;
        expect(&rt, found.as_str() == expected, case);
    }
    Ok(())
}

// Modules worked out by hand, each with its sizes, tasks, procedures and slots, or with the first rule that it breaks, at its
// mark: cycles of calls, sizes and weights, and rules of all sorts beside each other.

use crate::cases::{STOP, expect, places_of, tree_of};
use pearl_check::check;
use pearl_check::fault::CheckFault;
use std::alloc::{AllocError, Global};
use std::test::Fail;

static MODULES: [(&str, &str); 24] = table![
    "" => "0 0 0";
    "DCL s(2) STRUCT [n FIXED,t(3) CHAR(2)];" => "0 0 8";
    "DCL c CHAR(3);t:TASK;c:='ab';END;" => "1 0 1";
    "DCL (a,b)(3) BIT,s SEMA;TYPE y STRUCT [u FIXED,v DURATION];DCL w y,z(2) y;" => "0 0 12";
    "p:PROC(x FIXED);DCL a(9) FIXED;END;t:TASK;DCL b FIXED;CALL p(1);END;q:PROC;END;u:TASK;END;" => "2 2 0";
    "DCL i INV FIXED INIT(1);t:TASK;FOR j TO i REPEAT END;END;" => "1 0 1";
    "^p:PROC;CALL q;END;q:PROC;CALL p;END;" => "S28";
    "p:PROC;CALL q;END;^q:PROC;CALL r;END;r:PROC;CALL s;END;s:PROC;CALL q;END;" => "S28";
    "DCL a FIXED;p:PROC RETURNS(FIXED);RETURN(1);END;t:TASK;a:=p;CALL p;END;" => "1 1 1";
    "DCL a(2) FIXED,b FIXED;^p:PROC RETURNS(FIXED);b:=LWB a(p);RETURN(1);END;" => "S28";
    "DCL a(65535) FIXED,b FIXED;" => "0 0 65536";
    "DCL a(65535) FIXED,b FIXED,^c FIXED;" => "S34";
    "p:PROC;DCL u(4092) FIXED;END;t:TASK;CALL p;END;" => "1 1 0";
    "p:PROC;DCL u(4093) FIXED;END;^t:TASK;CALL p;END;" => "S34";
    "^p:PROC;DCL u(5000) FIXED;CALL p;END;" => "S28";
    "p:PROC(x FIXED);DCL u(4093) FIXED;END;" => "0 1 0";
    "^p:PROC(x FIXED);DCL u(4094) FIXED;END;" => "S34";
    "DCL c CHAR(3);t:TASK;^c:='abcde';c:='abcdef';END;" => "S24";
    "t:TASK;^x:=1;END;t:TASK;END;" => "S2";
    "^p:PROC;CALL p;END;p:PROC;END;" => "S28";
    "DCL (a,^a) FIXED;" => "S1";
    "DCL ^k INV FIXED;" => "S8";
    "DCL x FIXED;t:TASK;x:=x^+'a';END;" => "S15";
    "DCL i INV FIXED INIT(1);t:TASK;^i:='a';END;" => "S24";
];

// What there is of a module, and the place of its fault, if it has one.
fn checked(alloc: Global, case: &[u8], text: &mut String) -> Result<Option<u32>, AllocError> {
    let Some(tree) = tree_of(alloc, case) else {
        text.push_str("no tree")?;
        return Ok(None);
    };
    match check(alloc, &tree) {
        Ok(sizes) => {
            write!(text, "{} {} {}", sizes.tasks, sizes.procedures, sizes.slots)?;
            Ok(None)
        }
        Err(CheckFault::Refused(fault)) => {
            write!(text, "S{}", fault.rule)?;
            Ok(Some(fault.place))
        }
        Err(CheckFault::NoMemory) => Err(AllocError),
    }
}

// The sizes or the rule, with its place in front where that isn't at the last mark.
fn shown(alloc: Global, case: &str) -> Result<String, AllocError> {
    let marked = format!(in alloc; "MODULE;PROBLEM;{case}MODEND")?;
    let places = places_of(alloc, marked.as_bytes(), STOP)?;
    let mut found = String::new(alloc);
    let place = checked(alloc, marked.as_bytes(), &mut found)?;
    match place {
        Some(place) if places.as_slice().last() != Some(&place) => {
            format!(in alloc; "{place}:{found}")
        }
        _ => Ok(found),
    }
}

#[test]
fn sizes_or_first_rules_are_told(rt: HostRuntime) -> Result<(), Fail> {
    for &(case, expected) in &MODULES {
        let found = shown(rt.alloc(), case)?;
        expect(&rt, found.as_str() == expected, case);
    }
    Ok(())
}

// So many declarations, each of a name of its own with a mark before it.
fn declared(alloc: Global, before: &str, behind: &str, count: u32) -> Result<String, AllocError> {
    let mut text = String::new(alloc);
    for number in 0..count {
        write!(text, "{before}^n{number}{behind}")?;
    }
    Ok(text)
}

// Whether so many declarations come to these sizes, and one more breaks S34.
fn is_limit(
    alloc: Global,
    before: &str,
    behind: &str,
    limit: u32,
    sizes: &str,
) -> Result<bool, AllocError> {
    let enough = declared(alloc, before, behind, limit)?;
    let within = shown(alloc, enough.as_str())?;
    let beyond = declared(alloc, before, behind, limit.saturating_add(1))?;
    let past = shown(alloc, beyond.as_str())?;
    Ok(within.as_str() == sizes && past.as_str() == "S34")
}

#[test]
fn limits_themselves_are_within(rt: HostRuntime) -> Result<(), Fail> {
    let limits: [(&str, &str, u32, &str); 4] = [
        ("", ":TASK;END;", 200, "200 0 0"),
        ("", ":PROC;END;", 200, "0 200 0"),
        ("DCL ", " SEMA;", 1000, "0 0 0"),
        ("DCL ", "(64) CLOCK;", 1024, "0 0 65536"),
    ];
    for &(before, behind, limit, sizes) in &limits {
        expect(
            &rt,
            is_limit(rt.alloc(), before, behind, limit, sizes)?,
            behind,
        );
    }
    Ok(())
}

// A variable of this name with a leaf below so many fields of 63 bytes and one of 1.
fn deep(alloc: Global, name: &str, fields: u32) -> Result<String, AllocError> {
    let mut text = format!(in alloc; "TYPE t0 STRUCT [g FIXED];")?;
    for number in 0..fields {
        let field = "fffffffffffffffffffffffffffffffffffffffffffffffffffffffffffffff";
        write!(text, "TYPE t{} STRUCT [{field} t{number}];", number + 1)?;
    }
    write!(text, "DCL ^{name} t{fields};")?;
    Ok(text)
}

// Whether a leaf below 15 such fields, of a variable of this name, comes to this.
fn deep_is(alloc: Global, name: &str, expected: &str) -> Result<bool, AllocError> {
    let case = deep(alloc, name, 15)?;
    let found = shown(alloc, case.as_str())?;
    Ok(found.as_str() == expected)
}

#[test]
fn names_of_leaves_have_1024_bytes(rt: HostRuntime) -> Result<(), Fail> {
    let name = "vvvvvvvvvvvvvvvvvvvvvvvvvvvvvvvvvvvvvvvvvvvvvvvvvvvvvvvvvvvvvv";
    let longer = "vvvvvvvvvvvvvvvvvvvvvvvvvvvvvvvvvvvvvvvvvvvvvvvvvvvvvvvvvvvvvvv";
    assert!(rt; deep_is(rt.alloc(), name, "0 0 1")?);
    assert!(rt; deep_is(rt.alloc(), longer, "S34")?);
    Ok(())
}

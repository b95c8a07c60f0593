// The deepest nesting that the language allows.

use crate::source::judged;
use std::alloc::{AllocError, Global};
use std::test::Fail;

fn put_times(into: &mut String, times: usize, words: &str) -> Result<(), AllocError> {
    for _ in 0..times {
        into.push_str(words)?;
    }
    Ok(())
}

// A number with so many brackets around it, each opened by these words.
fn put_within(into: &mut String, words: &str, depth: usize) -> Result<(), AllocError> {
    put_times(into, depth, words)?;
    into.push('1')?;
    put_times(into, depth, ")")
}

// An assignment and a call. The brackets of their own target and procedure aren't counted.
fn put_statements(into: &mut String, brackets: usize) -> Result<(), AllocError> {
    into.push_str("a(")?;
    put_within(into, "a(", brackets)?;
    into.push_str("):=")?;
    put_within(into, "p(", brackets)?;
    into.push_str("*")?;
    put_within(into, "(", brackets)?;
    into.push_str(";p(")?;
    put_within(into, "a(", brackets)?;
    into.push_str(");")
}

// A module whose statements stand within so many loops, with 24 other statements around them.
fn nested(alloc: Global, loops: usize, brackets: usize) -> Result<String, AllocError> {
    let mut text = String::new(alloc);
    text.push_str(
        "MODULE;PROBLEM;DCL a(2) FIXED,b BIT;p:PROC(x FIXED)RETURNS(FIXED);RETURN(x);END;t:TASK;",
    )?;
    put_times(&mut text, 8, "IF b THEN ")?;
    put_times(&mut text, 8, "CASE a(1) ALT ")?;
    put_times(&mut text, 8, "BEGIN ")?;
    put_times(&mut text, loops, "FOR i TO 2 WHILE b REPEAT ")?;
    put_statements(&mut text, brackets)?;
    put_times(&mut text, loops, "END;")?;
    put_times(&mut text, 8, "END;")?;
    put_times(&mut text, 16, "FIN;")?;
    text.push_str("END;MODEND")?;
    Ok(text)
}

// Whether such a module comes so far.
fn comes_to(alloc: Global, loops: usize, brackets: usize, end: &str) -> Result<bool, AllocError> {
    let source = nested(alloc, loops, brackets)?;
    let found = judged(alloc, source.as_str().as_bytes())?;
    Ok(found.as_str() == end)
}

#[test]
fn the_deepest_nesting_has_valid_code(rt: HostRuntime) -> Result<(), Fail> {
    let alloc = rt.alloc();
    assert!(rt; comes_to(alloc, 8, 32, "valid")?);
    assert!(rt; comes_to(alloc, 9, 32, "no tree")?, "one loop more");
    assert!(rt; comes_to(alloc, 8, 33, "no tree")?, "one bracket more");
    Ok(())
}

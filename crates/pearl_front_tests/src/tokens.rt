// Sources whose tokens were worked out by hand.

use crate::cases::{STOP, expect, place_of, places_of, source_of, tokens_of};
use pearl_lex::fault::LexFault;
use pearl_lex::lexer::tokens;
use pearl_tree::token::{Token, What};
use pearl_tree::word_code::{DCL, MODULE};
use std::alloc::{AllocError, Global};
use std::test::Fail;

#[derive(Clone, Copy)]
enum Want {
    Word(u8),
    Id(&'static str),
    Number(u64),
    Decimal(u64, u16),
    Clock(u32),
    Bits(u8, u64),
    Text(&'static str),
    Symbol(&'static str),
}

// A table with a source in each line, and the tokens that begin at its marks.
macro_rules! lexed {
    ($($source:literal => $($kind:ident($($value:expr),+))*;)*) => {
        [$(($source, &[$(Want::$kind($($value),+)),*])),*]
    };
}

static SOURCES: [(&str, &[Want]); 24] = lexed![
    "" =>;
    " \t\x0c\r\n! to the end" =>;
    "^a/* one */^b/*/*/!\n^c" => Id("a") Id("b") Id("c");
    "^DCL ^DECLARE ^DCLx" => Word(DCL) Word(DCL) Id("DCLx");
    "^MODULE^(^MODULES^)" => Word(MODULE) Symbol("(") Id("MODULES") Symbol(")");
    "^9223372036854775807 ^0012^ab" => Number(9223372036854775807) Number(12) Id("ab");
    "^1.5 ^2.07 ^3.141" => Decimal(1, 500) Decimal(2, 70) Decimal(3, 141);
    "^4^." => Number(4) Symbol(".");
    "^1^.^.^2" => Number(1) Symbol(".") Symbol(".") Number(2);
    "^23:59:59.999 ^0:0:1" => Clock(86_399_999) Clock(1_000);
    "^1^:^2" => Number(1) Symbol(":") Number(2);
    "^1^:^:^2" => Number(1) Symbol(":") Symbol(":") Number(2);
    "^'101'B ^'FF'B4 ^'31'B2" => Bits(3, 5) Bits(8, 255) Bits(4, 13);
    "^'7'B3 ^'0'B1" => Bits(3, 7) Bits(1, 0);
    "^'FFFFFFFFFFFFFFFF'B4" => Bits(64, 18446744073709551615);
    "^'1'^B5 ^'1'^Bx ^'1'^B_" => Text("1") Id("B5") Text("1") Id("Bx") Text("1") Id("B_");
    "^'''' ^'it''s'" => Text("'") Text("it's");
    "^(^)^[^]^,^;^:^.^:= ^= ^=="
        => Symbol("(") Symbol(")") Symbol("[") Symbol("]") Symbol(",") Symbol(";")
        Symbol(":") Symbol(".") Symbol(":=") Symbol("=") Symbol("==");
    "^/=^<>^<=^>=^><^<>^+^-^*^//^**"
        => Symbol("/=") Symbol("<>") Symbol("<=") Symbol(">=") Symbol("><") Symbol("<>")
        Symbol("+") Symbol("-") Symbol("*") Symbol("//") Symbol("**");
    "^: ^= ^<>^= ^**^*" => Symbol(":") Symbol("=") Symbol("<>") Symbol("=") Symbol("**") Symbol("*");
    "^< ^> ^<= ^>=" => Symbol("<") Symbol(">") Symbol("<=") Symbol(">=");
    "^a^/=^b" => Id("a") Symbol("/=") Id("b");
    "^==^=^a" => Symbol("==") Symbol("=") Id("a");
    "^a!b" => Id("a");
];

// The symbols by their codes, counted from 0.
static SYMBOLS: [&str; 23] = [
    "(", ")", "[", "]", ",", ";", ":", ".", ":=", "=", "==", "/=", "<", ">", "<=", ">=", "><",
    "<>", "+", "-", "*", "//", "**",
];

// Sources that have no tokens, with the place at which they have none.
static REFUSED: [&str; 23] = [
    "a ^_",
    "a ^/",
    "a ^\x0b",
    "a ^% b",
    "a ^/* never closed *",
    "a ^/*/",
    "*^/",
    "^9223372036854775808",
    "^9223372036854775808.5",
    "a ^1.2345",
    "a ^24:00:00",
    "a ^0:60:00",
    "a ^0:0:60",
    "a ^0:0:0.1234",
    "a ^'never closed",
    "a ^'line\nend'",
    "a ^'byte\x7f'",
    "a ^''",
    "a ^''B",
    "a ^'2'B",
    "a ^'f'B4",
    "a ^'1''1'B",
    "a ^'FFFFFFFFFFFFFFFF0'B4",
];

fn is_same(what: &What, want: Want) -> bool {
    match (what, want) {
        (What::Word(code), Want::Word(wanted)) => *code == wanted,
        (What::Id(text), Want::Id(wanted)) => text.as_slice() == wanted.as_bytes(),
        (What::Number(value), Want::Number(wanted)) => *value == wanted,
        (What::Decimal { whole, thousandths }, Want::Decimal(wanted, part)) => *whole == wanted
            && *thousandths == part,
        (What::Clock(value), Want::Clock(wanted)) => *value == wanted,
        (What::Bits { len, value }, Want::Bits(size, wanted)) => *len == size && *value == wanted,
        (What::Text(text), Want::Text(wanted)) => text.as_slice() == wanted.as_bytes(),
        (What::Symbol(code), Want::Symbol(wanted)) => SYMBOLS.get(usize::from(*code))
            == Some(&wanted),
        _ => false,
    }
}

fn are_same(tokens: &[Token], places: &[u32], wants: &[Want]) -> bool {
    if tokens.len() != places.len() || tokens.len() != wants.len() {
        return false;
    }
    for ((token, place), want) in tokens.iter().zip(places).zip(wants) {
        if token.place != *place || !is_same(&token.what, *want) {
            return false;
        }
    }
    true
}

fn has_tokens(alloc: Global, case: &str, wants: &[Want]) -> Result<bool, AllocError> {
    let source = source_of(alloc, case.as_bytes())?;
    let places = places_of(alloc, case.as_bytes(), STOP)?;
    match tokens_of(alloc, source.as_slice()) {
        Some((tokens, _)) => Ok(are_same(tokens.as_slice(), places.as_slice(), wants)),
        None => Ok(false),
    }
}

fn is_refused(alloc: Global, source: &[u8], place: Option<u32>) -> bool {
    if source.len() > 1_048_576 {
        return false;
    }
    match tokens(alloc, source) {
        Err(LexFault::Refused(at)) => place == Some(at),
        _ => false,
    }
}

fn refuses(alloc: Global, case: &str) -> Result<bool, AllocError> {
    let source = source_of(alloc, case.as_bytes())?;
    Ok(is_refused(alloc, source.as_slice(), place_of(case.as_bytes(), STOP)))
}

// The source has this many tokens, and each is this one.
fn has_only(alloc: Global, source: &[u8], want: Want, count: usize) -> bool {
    match tokens_of(alloc, source) {
        Some((tokens, _)) => tokens.len() == count
            && tokens.iter().all(|token| is_same(&token.what, want)),
        None => false,
    }
}

#[test]
fn sources_have_their_tokens(rt: HostRuntime) -> Result<(), Fail> {
    for &(case, wants) in &SOURCES {
        expect(&rt, has_tokens(rt.alloc(), case, wants)?, case);
    }
    Ok(())
}

#[test]
fn what_is_no_token_is_refused(rt: HostRuntime) -> Result<(), Fail> {
    for &case in &REFUSED {
        expect(&rt, refuses(rt.alloc(), case)?, case);
    }
    Ok(())
}

// A source that is one byte so many times.
fn repeated(alloc: Global, byte: u8, times: usize) -> Result<Vec<u8>, AllocError> {
    let mut bytes = Vec::new(alloc);
    bytes.resize(times, byte)?;
    Ok(bytes)
}

fn refuses_repeated(alloc: Global, byte: u8, times: usize) -> Result<bool, AllocError> {
    let source = repeated(alloc, byte, times)?;
    Ok(is_refused(alloc, source.as_slice(), Some(0)))
}

#[test]
fn what_is_too_long_is_refused(rt: HostRuntime) -> Result<(), Fail> {
    assert!(rt; refuses_repeated(rt.alloc(), b'n', 64)?);
    assert!(rt; refuses_repeated(rt.alloc(), b'9', 1_048_576)?);
    assert!(rt; refuses_repeated(rt.alloc(), b'\'', 1_048_576)?);
    Ok(())
}

// Whether one byte so many times is so many of one token.
fn reads_repeated(
    alloc: Global,
    byte: u8,
    times: usize,
    want: Want,
    count: usize,
) -> Result<bool, AllocError> {
    let source = repeated(alloc, byte, times)?;
    Ok(has_only(alloc, source.as_slice(), want, count))
}

// An id of 63 letters.
const LONGEST: &str = "nnnnnnnnnnnnnnnnnnnnnnnnnnnnnnnnnnnnnnnnnnnnnnnnnnnnnnnnnnnnnnn";

#[test]
fn long_sources_are_read(rt: HostRuntime) -> Result<(), Fail> {
    assert!(rt; reads_repeated(rt.alloc(), b'n', 63, Want::Id(LONGEST), 1)?);
    assert!(rt; reads_repeated(rt.alloc(), b'/', 1_048_576, Want::Symbol("//"), 524_288)?);
    Ok(())
}

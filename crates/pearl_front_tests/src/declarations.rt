// Parts that were worked out by hand, each with the place behind it and the token that ends it.

use crate::cases::{case_of, expect};
use pearl_parse_decl::declaration::{declare, length_of, specify, type_of};
use pearl_parse_decl::head::{returns, task_head};
use pearl_parse_decl::list::{Readable, list};
use pearl_parse_decl::specification::device;
use pearl_parse_expr::reading::{Halt, Reading};
use pearl_parse_expr::standing::is_word;
use pearl_tree::declaration::{Declared, Item, Param, Spec};
use pearl_tree::format::Fmt;
use pearl_tree::literal::Const;
use pearl_tree::name::{Name, Number};
use pearl_tree::token::Token;
use pearl_tree::typing::Bound;
use pearl_tree::word_code::{DCL, LENGTH, SPC, TYPE};
use std::alloc::{AllocError, Global};
use std::fmt;

// Each case is read up to `|`, or not at all. It is read no further because of the token at `^`, where that isn't
// the one at `|`.

fn shown<T: Drop>(found: Result<Reading<T>, Halt>) -> (Option<usize>, usize) {
    match found {
        Ok(reading) => (Some(reading.end), reading.stop),
        Err(halt) => match halt {
            Halt::Refused(stop) => (None, stop),
            Halt::NoMemory => (None, usize::MAX),
        },
    }
}

fn declaration(alloc: Global, tokens: &[Token]) -> (Option<usize>, usize) {
    if is_word(tokens, 0, LENGTH) {
        return shown(length_of(tokens, 0));
    }
    if is_word(tokens, 0, TYPE) {
        return shown(type_of(alloc, tokens, 0));
    }
    if is_word(tokens, 0, DCL) {
        return shown(declare(alloc, tokens, 0));
    }
    if is_word(tokens, 0, SPC) {
        return shown(specify(alloc, tokens, 0));
    }
    (None, 0)
}

// Which reader a source is for.
#[derive(Clone, Copy)]
enum Reader {
    Format,
    Bound,
    Constant,
    Item,
    Declared,
    Specified,
    Param,
    Head,
    Result,
    Device,
    Declaration,
    Names,
    Numbers,
}

fn read(alloc: Global, tokens: &[Token], reader: Reader) -> (Option<usize>, usize) {
    match reader {
        Reader::Format => shown(Fmt::read(alloc, tokens, 0)),
        Reader::Bound => shown(Bound::read(alloc, tokens, 0)),
        Reader::Constant => shown(Const::read(alloc, tokens, 0)),
        Reader::Item => shown(Item::read(alloc, tokens, 0)),
        Reader::Declared => shown(Declared::read(alloc, tokens, 0)),
        Reader::Specified => shown(Spec::read(alloc, tokens, 0)),
        Reader::Param => shown(Param::read(alloc, tokens, 0)),
        Reader::Head => {
            let head = task_head(tokens, 0);
            (Some(head.end), head.stop)
        }
        Reader::Result => {
            let kind = returns(tokens, 0);
            (Some(kind.end), kind.stop)
        }
        Reader::Device => shown(device(tokens, 0)),
        Reader::Declaration => declaration(alloc, tokens),
        Reader::Names => shown(list::<Name>(alloc, tokens, 0)),
        Reader::Numbers => shown(list::<Number>(alloc, tokens, 0)),
    }
}

// Sources by what reads them, each with a mark where what is read ends or stops.
static CASES: [(Reader, &[&str]); 13] = [
    (
        Reader::Format,
        &[
            "F(5)|",
            "A|",
            "A| 5",
            "B4(2)|,",
            "X|;",
            "SKIP|(^x)",
            "SKIP|(2^",
            "T(8)|",
            "D(26)|",
            "F^",
            "T ^8",
            "D(^)",
            "F(5^",
            "^B5",
            "^Q",
            "^5",
        ],
    ),
    (
        Reader::Bound,
        &[
            "1:5|",
            "-1 : -2| x",
            "5|",
            "- 5|:^",
            "1|:^",
            "1|:-^",
            "1|:- ^-",
            "-^",
            "^+ 1",
            "^x",
        ],
    ),
    (
        Reader::Constant,
        &[
            "- 5 SEC|",
            "+ 2 HRS| 3 ^x",
            "'ab'|",
            "- '1'B|",
            "1:2:3|",
            "- ^-",
            "+^",
            "1.5^",
            "^a",
        ],
    ),
    (
        Reader::Item,
        &[
            "a FIXED|",
            "a(1:3, -2:5) INV STRUCT [ x FIXED(15), (y, z) CHAR ] INIT(1, -2)|",
            "(a, b) t|",
            "a FIXED|(31^",
            "a FIXED| INIT ^5",
            "a DUR| INIT(1 MIN, ^)",
            "a DUR| INIT(^)",
            "(a ^b) FIXED",
            "(^) FIXED",
            "(a, ^) FIXED",
            "a ^SEMA",
            "a(1^",
            "a(1, ^)",
            "a STRUCT [ ^]",
            "a STRUCT [ x FIXED ^; ]",
            "a STRUCT ^x",
            "a INV ^INV BIT",
            "a^",
        ],
    ),
    (
        Reader::Declared,
        &[
            "s SEMA PRESET(1, 2)|",
            "(s, t) SEMA|",
            "s SEMA| PRESET(^x)",
            "s SEMA| PRESET(1^",
            "a CLOCK|",
            "a ^;",
            "^SEMA",
        ],
    ),
    (
        Reader::Specified,
        &[
            "i INTERRUPT|",
            "(i, j) IRPT|",
            "d DATION INOUT ALPHIC CONTROL(ALL)|",
            "d DATION OUT BASIC CHAR(3)|",
            "d DATION IN ALPHIC| CONTROL(^x",
            "d DATION IN ALPHIC| CONTROLS",
            "d DATION OUT BASIC CHAR|(^x)",
            "d DATION ^ALPHIC",
            "d DATION IN^",
            "d DATION IN BASIC ^t",
            "d ^FIXED",
        ],
    ),
    (
        Reader::Param,
        &[
            "a FIXED IDENT|",
            "a DUR IDENTICAL|",
            "(a, b) BIT(8)|",
            "a ^STRUCT",
            "a ^t",
            "^5",
        ],
    ),
    (
        Reader::Head,
        &[
            "PRIO 5 MAIN|",
            "MAIN PRIO 5|",
            "PRIO 5 MAIN| PRIO 5",
            "MAIN| PRIO^",
            "MAIN| PRIO ^x",
            "PRIO 5|",
            "|PRIO ^MAIN",
            "MAIN|",
            "|",
        ],
    ),
    (
        Reader::Result,
        &[
            "RETURNS(FIXED(15))|",
            "|RETURNS(FIXED(15)^",
            "|RETURNS ^FIXED",
            "|RETURNS(^t)",
            "|; RETURNS",
        ],
    ),
    (
        Reader::Device,
        &[
            "t : TERMINAL(1);|",
            "i : INTERRUPT(2);|",
            "t ^TERMINAL(1);",
            "t : ^5",
            "t : OUTPUT ^1",
            "t : OUTPUT(^x)",
            "t : OUTPUT(1^;",
            "t : OUTPUT(1) ^t",
            "^INTERRUPT",
        ],
    ),
    (
        Reader::Declaration,
        &[
            "LENGTH CHAR(15);|",
            "LENGTH ^CLOCK(15);",
            "LENGTH FIXED^;",
            "LENGTH BIT(8)^",
            "TYPE t STRUCT [ a FIXED ];|",
            "TYPE t u;|",
            "TYPE ^FIXED;",
            "TYPE t^;",
            "DCL a FIXED, s SEMA;|",
            "DCL a FIXED, b^;",
            "DCL a FIXED(^x;",
            "DCL ^;",
            "SPC i IRPT, d DATION IN ALPHIC;|",
            "SPC i IRPT ^d",
            "SPC i IRPT, ^;",
            "^MODEND",
        ],
    ),
    (Reader::Names, &["a, b|, ^5", "a| b", "^5"]),
    (Reader::Numbers, &["1, 2|", "1|, ^x"]),
];

// Whether the case is read up to its marks.
fn is_read(alloc: Global, reader: Reader, case: &[u8]) -> bool {
    match case_of(alloc, case) {
        Some(case) => read(alloc, case.tokens.as_slice(), reader) == (case.end, case.stop),
        None => false,
    }
}

#[test]
fn parts_end_where_the_grammar_says(rt: HostRuntime) -> Result<(), fmt::Error> {
    for &(reader, cases) in &CASES {
        for &case in cases {
            expect(&rt, is_read(rt.alloc(), reader, case.as_bytes()), case);
        }
    }
    Ok(())
}

// Whether a variable is read up to the marks whose type has 7 STRUCTs around this type, with this behind it.
fn reads_nested(alloc: Global, typing: &str, behind: &str) -> Result<bool, AllocError> {
    let mut case = Vec::from_slice(alloc, b"a ")?;
    for _ in 0..7 {
        case.extend_from_slice(b"STRUCT [ b ")?;
    }
    case.extend_from_slice(typing.as_bytes())?;
    for _ in 0..7 {
        case.extend_from_slice(b" ]")?;
    }
    case.extend_from_slice(behind.as_bytes())?;
    Ok(is_read(alloc, Reader::Item, case.as_slice()))
}

#[test]
fn structs_nest_8_deep(rt: HostRuntime) -> Result<(), AllocError> {
    assert!(rt; reads_nested(rt.alloc(), "STRUCT [ b FIXED ]", "|")?);
    assert!(rt; reads_nested(rt.alloc(), "STRUCT [ b ^STRUCT [ b FIXED ] ]", "")?);
    Ok(())
}

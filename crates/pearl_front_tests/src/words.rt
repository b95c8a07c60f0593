// Rows of the tables of words and operators by hand, and a list of parts.

use pearl_tree::family::*;
use pearl_tree::name::Number;
use pearl_tree::opcode::*;
use pearl_tree::operator::{OPS, find_op};
use pearl_tree::parts::Parts;
use pearl_tree::word::{WordRow, find_word, words};
use std::test::Fail;

// Texts with the codes of the words that they are.
static SPELLINGS: [(&[u8], Option<u8>); 16] = [
    (b"MODULE", Some(0)),
    (b"DECLARE", Some(4)),
    (b"DCL", Some(4)),
    (b"SPECIFY", Some(5)),
    (b"SPC", Some(5)),
    (b"INV", Some(6)),
    (b"CHAR", Some(14)),
    (b"CHARACTER", Some(14)),
    (b"IN", Some(20)),
    (b"INOUT", Some(22)),
    (b"LEAVE", Some(97)),
    (b"MOD", None),
    (b"MODULES", None),
    (b"module", None),
    (b"ZZZ", None),
    (b"", None),
];

// Whether the first of the rows with this text has this code.
fn has_word(rows: &[WordRow], text: &[u8], code: u8) -> bool {
    for row in rows {
        if row.text == text {
            return row.code == code;
        }
    }
    false
}

#[test]
fn words_have_the_codes_of_their_meanings(rt: HostRuntime) {
    for (number, &(text, code)) in SPELLINGS.iter().enumerate() {
        assert!(rt; find_word(words(), text) == code, "row {number}");
    }
    assert!(rt; has_word(words(), b"DCL", 4));
}

fn rank_and_result(code: u8, left: u8, right: u8) -> Option<(u8, u8)> {
    find_op(&OPS, code, left, right).map(|row| (row.rank, row.result))
}

// The operator, its left and right family, and the rank and the result's family where there is a row.
static ROWS: [(u8, u8, u8, Option<(u8, u8)>); 16] = [
    (PLUS, ABSENT, FIXED, Some((0, FIXED))),
    (SIGN, ABSENT, DURATION, Some((0, FIXED))),
    (NOT, ABSENT, FIXED, None),
    (POW, FIXED, FIXED, Some((1, FIXED))),
    (POW, DURATION, FIXED, None),
    (MUL, FIXED, DURATION, Some((2, DURATION))),
    (MUL, DURATION, DURATION, None),
    (DIV, DURATION, DURATION, Some((2, FIXED))),
    (DIV, FIXED, DURATION, None),
    (CAT, CHAR, BIT, None),
    (SUB, CLOCK, CLOCK, Some((3, DURATION))),
    (SUB, DURATION, CLOCK, None),
    (LT, BIT, BIT, None),
    (NE, BIT, BIT, Some((5, BIT))),
    (EXOR, BIT, BIT, Some((7, BIT))),
    (53, FIXED, FIXED, None),
];

#[test]
fn operators_have_rows_for_their_families(rt: HostRuntime) {
    for (number, &(code, left, right, expected)) in ROWS.iter().enumerate() {
        assert!(rt;
            rank_and_result(code, left, right) == expected,
            "row {number}"
        );
    }
}

#[test]
fn parts_show_their_items_in_order(rt: HostRuntime) -> Result<(), Fail> {
    let one = Number { value: 1, place: 4 };
    let two = Number { value: 2, place: 6 };
    let parts = Parts::new(Vec::from_array(rt.alloc(), [one, two])?);
    assert!(rt; parts.as_slice().len() == 2);
    assert!(rt; parts.as_slice()[0].place == 4);
    assert!(rt; parts.as_slice()[1].value == 2);
    Ok(())
}

// What GET finds in the bytes that wait, and how literals are read.

use pearl_format::item::{Item, ItemCode};
use pearl_scan::clock::clock_literal;
use pearl_scan::gap::Gap;
use pearl_scan::number::fixed_literal;
use pearl_scan::scan::{Scanned, scan};
use pearl_scan::span::span_literal;
use pearl_value::cell::Cell;
use pearl_value::kind::Kind;

// The bytes that are used and a value, or the bytes up to and with the first bad field, or nothing where more are
// awaited.
type Found<T> = Result<(usize, T), Option<usize>>;

// As many bytes as may wait.
const MOST: usize = 4096;

fn item(code: ItemCode, width: u8) -> Item {
    Item { code, width }
}

fn number(width: u8, bytes: &[u8]) -> Found<i64> {
    if bytes.len() > MOST {
        return Err(None);
    }
    match scan(&[item(ItemCode::F, width)], &[Kind::Fixed(7)], bytes) {
        Scanned::Short => Err(None),
        Scanned::Bad(used) => Err(Some(used)),
        Scanned::Got(used, values) => match values.first() {
            Some(Cell::Fixed { value, .. }) => Ok((used, *value)),
            _ => Err(Some(0)),
        },
    }
}

fn bits(code: ItemCode, width: u8, bytes: &[u8]) -> Found<u64> {
    if bytes.len() > MOST {
        return Err(None);
    }
    match scan(&[item(code, width)], &[Kind::Bits(6)], bytes) {
        Scanned::Short => Err(None),
        Scanned::Bad(used) => Err(Some(used)),
        Scanned::Got(used, values) => match values.first() {
            Some(Cell::Bits { value, .. }) => Ok((used, *value)),
            _ => Err(Some(0)),
        },
    }
}

fn span(width: u8, bytes: &[u8]) -> Found<i64> {
    if bytes.len() > MOST {
        return Err(None);
    }
    match scan(&[item(ItemCode::D, width)], &[Kind::Span], bytes) {
        Scanned::Short => Err(None),
        Scanned::Bad(used) => Err(Some(used)),
        Scanned::Got(used, values) => match values.first() {
            Some(Cell::Span(value)) => Ok((used, *value)),
            _ => Err(Some(0)),
        },
    }
}

// How many bytes two numbers and the end of their line use, and how many values there are.
fn two_numbers(bytes: &[u8]) -> Found<usize> {
    if bytes.len() > MOST {
        return Err(None);
    }
    let items = [
        item(ItemCode::F, 3),
        item(ItemCode::X, 0),
        item(ItemCode::F, 2),
        item(ItemCode::Skip, 0),
    ];
    match scan(&items, &[Kind::Fixed(15), Kind::Fixed(15)], bytes) {
        Scanned::Short => Err(None),
        Scanned::Bad(used) => Err(Some(used)),
        Scanned::Got(used, values) => Ok((used, values.len())),
    }
}

// Whether a text of CHAR(3) is found to be this, and uses so many bytes; where none is wanted, whether more are awaited.
fn is_text(width: u8, bytes: &[u8], want: Option<(usize, &[u8])>) -> bool {
    if bytes.len() > MOST {
        return false;
    }
    match (
        scan(&[item(ItemCode::A, width)], &[Kind::Chars(3)], bytes),
        want,
    ) {
        (Scanned::Short, None) => true,
        (Scanned::Got(used, values), Some((count, letters))) => match values.first() {
            Some(Cell::Chars(text)) => used == count && text.as_slice() == letters,
            _ => false,
        },
        _ => false,
    }
}

// The width, what waits, and what is found.
static NUMBERS: [(u8, &[u8], Found<i64>); 10] = [
    (3, b"12", Err(None)),
    (3, b"1x2", Err(Some(3))),
    (3, b" -7", Ok((3, -7))),
    (3, b"+12345", Ok((3, 12))),
    (5, b"7\n89", Ok((1, 7))),
    (5, b"\n", Err(Some(0))),
    (5, b"- 7  ", Err(Some(5))),
    (6, b"000127", Ok((6, 127))),
    (3, b"128", Err(Some(3))),
    (4, b"-128", Ok((4, -128))),
];

static BITS: [(ItemCode, u8, &[u8], Found<u64>); 8] = [
    (ItemCode::B1, 0, b"101101", Ok((6, 45))),
    (ItemCode::B1, 4, b"101 ", Ok((4, 40))),
    (ItemCode::B4, 0, b"BC", Ok((2, 47))),
    (ItemCode::B4, 2, b"BD", Err(Some(2))),
    (ItemCode::B4, 2, b"bC", Err(Some(2))),
    (ItemCode::B3, 5, b"57000", Ok((5, 47))),
    (ItemCode::B3, 3, b"571", Err(Some(3))),
    (ItemCode::B2, 0, b"3\n", Ok((1, 48))),
];

static TEXTS: [(u8, &[u8], Option<(usize, &[u8])>); 5] = [
    (0, b"ab\ncd", Some((2, b"ab "))),
    (5, b"abcdefg", Some((5, b"abc"))),
    (2, b"abc", Some((2, b"ab "))),
    (0, b"\nabc", Some((0, b"   "))),
    (0, b"ab", None),
];

static SPANS: [(u8, &[u8], Found<i64>); 6] = [
    (22, b"  1 HRS 02 MIN 03.5SEC", Ok((22, 3_723_500))),
    (6, b"- 5MIN", Ok((6, -300_000))),
    (10, b"1 HRS2 MIN", Err(Some(10))),
    (19, b"1099511627.776 SEC\n", Ok((18, 1_099_511_627_776))),
    (19, b"1099511627.777 SEC\n", Err(Some(18))),
    (7, b"2 SEC", Err(None)),
];

static PAIRS: [(&[u8], Found<usize>); 6] = [
    (b" 12 -4\nrest", Ok((7, 2))),
    (b"1x2", Err(Some(3))),
    (b" 12 x", Err(None)),
    (b" 12 -x", Err(Some(6))),
    (b" 12 -4", Err(None)),
    (b"5\n6\n", Err(Some(1))),
];

static CLOCKS: [(&[u8], Option<u32>); 5] = [
    (b"23:59:59.999", Some(86_399_999)),
    (b"001:2:003.5", Some(3_723_500)),
    (b"24:00:00", None),
    (b"12:30", None),
    (b"12:30:00.", None),
];

#[test]
fn numbers(rt: HostRuntime) {
    for (row, &(width, bytes, want)) in NUMBERS.iter().enumerate() {
        assert!(rt; number(width, bytes) == want, "row {row}");
    }
}

#[test]
fn bits_of_digits(rt: HostRuntime) {
    for (row, &(code, width, bytes, want)) in BITS.iter().enumerate() {
        assert!(rt; bits(code, width, bytes) == want, "row {row}");
    }
}

#[test]
fn texts(rt: HostRuntime) {
    for (row, &(width, bytes, want)) in TEXTS.iter().enumerate() {
        assert!(rt; is_text(width, bytes, want), "row {row}");
    }
}

#[test]
fn lengths_of_time(rt: HostRuntime) {
    for (row, &(width, bytes, want)) in SPANS.iter().enumerate() {
        assert!(rt; span(width, bytes) == want, "row {row}");
    }
}

#[test]
fn items_in_turn(rt: HostRuntime) {
    for (row, &(bytes, want)) in PAIRS.iter().enumerate() {
        assert!(rt; two_numbers(bytes) == want, "row {row}");
    }
}

#[test]
fn literals(rt: HostRuntime) {
    for (row, &(text, want)) in CLOCKS.iter().enumerate() {
        assert!(rt; clock_literal(text) == want, "row {row}");
    }
    assert!(rt; fixed_literal(Gap::BlanksAndTabs, b"-\t 12") == Some(-12));
    assert!(rt; fixed_literal(Gap::Blanks, b"-\t 12").is_none());
    assert!(rt; fixed_literal(Gap::Blanks, b"9223372036854775808").is_none());
    let long = span_literal(Gap::BlanksAndTabs, b"9223372036854775807\tHRS");
    assert!(rt; long == Some(33_204_139_332_677_192_905_200_000));
}

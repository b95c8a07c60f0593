// Texts by hand.

ghost use Rattle.pearl_value.specs.WellFormed.{IsValue};

use crate::operands::{Given, value_of};
use crate::values::{HIGH, LOW, MOST, of_two};
use arrayvec::ArrayVec;
use pearl_format::item::{Item, ItemCode};
use pearl_format::put::put_text;
use pearl_value::cell::Cell;
use pearl_value::operator::Dyad;
use pearl_value::trap::Trap;
use std::process::Abort;

/// What a row wants: a text, or a trap.
#[derive(Clone, Copy)]
enum Wanted {
    Text(&'static [u8]),
    Trap(Trap),
}

/// Rows of a value, an item and its width.
macro_rules! by_items {
    ($($given:ident $a:tt by $code:ident($width:literal) => $wanted:ident $b:tt;)+) => {
        [$((Given::$given $a, item!($code($width)), Wanted::$wanted $b)),+]
    };
}

/// Rows of an operator and its operands, and an item for the result.
macro_rules! results_by_items {
    ($($left:ident $a:tt $operator:ident $right:ident $b:tt by $code:ident($width:literal) => $wanted:ident $c:tt;)+) => {
        [$((Given::$left $a, Dyad::$operator, Given::$right $b, item!($code($width)), Wanted::$wanted $c)),+]
    };
}

/// Items with their widths.
macro_rules! item {
    ($code:ident($width:literal)) => {
        Item {
            code: ItemCode::$code,
            width: $width,
        }
    };
}

/// A text that was put, or the trap in its place.
type Put = Result<ArrayVec<u8, 1024>, Trap>;

fn is_wanted(found: Option<Put>, wanted: Wanted) -> bool {
    match (found, wanted) {
        (Some(Ok(text)), Wanted::Text(bytes)) => text.as_slice() == bytes,
        (Some(Err(trap)), Wanted::Trap(cause)) => trap == cause,
        _ => false,
    }
}

/// What the item makes of the value, after some other text; none where it doesn't suit.
fn put_one(item: Item, cell: Cell) -> Option<Put>
    requires { IsValue cell }
{
    let suits = match (item.code, &cell) {
        (ItemCode::A, Cell::Chars(_)) => true,
        (ItemCode::B1, Cell::Bits { .. }) => true,
        (ItemCode::B2, Cell::Bits { .. }) => true,
        (ItemCode::B3, Cell::Bits { .. }) => true,
        (ItemCode::B4, Cell::Bits { .. }) => true,
        (ItemCode::F, Cell::Fixed { .. }) => item.width > 0,
        (ItemCode::T, Cell::Clock(_)) => item.width >= 8,
        (ItemCode::D, Cell::Span(_)) => item.width > 0,
        _ => false,
    };
    if !suits {
        return None;
    }
    let mut text = ArrayVec::new();
    text.push(b'x');
    match put_text(&[item], &[cell], &mut text) {
        Ok(()) => Some(Ok(text)),
        Err(trap) => Some(Err(trap)),
    }
}

static BY_ITEMS: [(Given, Item, Wanted); 38] = by_items! {
    Chars(b"abc") by A(0) => Text(b"abc");
    Chars(b"abc") by A(2) => Text(b"ab");
    Chars(b"abc") by A(5) => Text(b"abc  ");
    Bits(5, 0b10111) by B1(0) => Text(b"10111");
    Bits(5, 0b10111) by B1(7) => Text(b"10111  ");
    Bits(5, 0b10111) by B1(4) => Trap(Trap::Format);
    Bits(5, 0b10111) by B2(0) => Text(b"232");
    Bits(5, 0b10111) by B3(0) => Text(b"56");
    Bits(5, 0b10111) by B4(0) => Text(b"B8");
    Bits(5, 0b10111) by B4(2) => Text(b"B8");
    Bits(5, 0b10111) by B4(1) => Trap(Trap::Format);
    Bits(8, 0xAF) by B4(3) => Text(b"AF ");
    Bits(63, 0x7FFF_FFFF_FFFF_FFFF) by B3(0) => Text(b"777777777777777777777");
    Bits(63, 0x7FFF_FFFF_FFFF_FFFF) by B4(0) => Text(b"FFFFFFFFFFFFFFFE");
    Bits(1, 0) by B1(0) => Text(b"0");
    Fixed(31, 17) by F(5) => Text(b"   17");
    Fixed(31, -17) by F(3) => Text(b"-17");
    Fixed(31, 1000) by F(3) => Trap(Trap::Format);
    Fixed(31, 1000) by F(4) => Text(b"1000");
    Fixed(31, -1) by F(1) => Trap(Trap::Format);
    Fixed(31, 0) by F(1) => Text(b"0");
    Fixed(63, HIGH) by F(19) => Text(b"9223372036854775807");
    Fixed(63, LOW) by F(20) => Text(b"-9223372036854775808");
    Fixed(63, LOW) by F(19) => Trap(Trap::Format);
    Clock(0) by T(8) => Text(b"00:00:00");
    Clock(86_399_999) by T(8) => Text(b"23:59:59");
    Clock(86_399_999) by T(11) => Text(b"   23:59:59");
    Clock(86_399_999) by T(12) => Text(b"23:59:59.999");
    Clock(52_503_500) by T(13) => Text(b" 14:35:03.500");
    Span(0) by D(23) => Text(b"0 HRS 00 MIN 00.000 SEC");
    Span(-1) by D(24) => Text(b"-0 HRS 00 MIN 00.001 SEC");
    Span(-1) by D(23) => Trap(Trap::Format);
    Span(-3_600_000) by D(24) => Text(b"-1 HRS 00 MIN 00.000 SEC");
    Span(360_000_000) by D(25) => Text(b"100 HRS 00 MIN 00.000 SEC");
    Span(3_723_004) by D(26) => Text(b"   1 HRS 02 MIN 03.004 SEC");
    Span(MOST) by D(28) => Text(b"305419 HRS 53 MIN 47.776 SEC");
    Span(-MOST) by D(29) => Text(b"-305419 HRS 53 MIN 47.776 SEC");
    Span(-MOST) by D(28) => Trap(Trap::Format);
};

fn is_so(rt: &impl Abort, given: Given, item: Item, wanted: Wanted) -> bool {
    is_wanted(put_one(item, value_of(rt, given)), wanted)
}

fn are_so(rt: &impl Abort, rows: &[(Given, Item, Wanted)]) {
    for (number, &(given, item, wanted)) in rows.iter().enumerate() {
        assert!(rt; is_so(rt, given, item, wanted), "row {number}");
    }
}

#[test]
fn one_item(rt: HostRuntime) {
    are_so(&rt, &BY_ITEMS);
}

#[test]
fn all_bits(rt: HostRuntime) {
    let longest = Cell::Bits {
        len: 64,
        value: u64::MAX,
    };
    assert!(rt;
        is_wanted(
            put_one(item!(B4(0)), longest),
            Wanted::Text(b"FFFFFFFFFFFFFFFF")
        )
    );
    let again = Cell::Bits {
        len: 64,
        value: u64::MAX,
    };
    assert!(rt;
        is_wanted(
            put_one(item!(B3(0)), again),
            Wanted::Text(b"7777777777777777777774")
        )
    );
}

#[test]
fn items_in_a_row(rt: HostRuntime) {
    let items = [
        item!(T(8)),
        item!(X(0)),
        item!(F(4)),
        item!(Skip(2)),
        item!(X(3)),
        item!(F(2)),
        item!(Skip(0)),
    ];
    let values = [
        Cell::Clock(43_201_000),
        Cell::Fixed { len: 15, value: 75 },
        Cell::Fixed { len: 31, value: -5 },
    ];
    let mut text = ArrayVec::new();
    assert!(rt; put_text(&items, &values, &mut text).is_ok());
    assert!(rt; text.as_slice() == b"12:00:01   75\n\n   -5\n".as_slice());
}

#[test]
fn nothing_is_left_after_a_trap(rt: HostRuntime) {
    let items = [item!(F(3)), item!(F(3))];
    let values = [
        Cell::Fixed { len: 31, value: 1 },
        Cell::Fixed {
            len: 31,
            value: 1000,
        },
    ];
    let mut text = ArrayVec::new();
    assert!(rt; put_text(&items, &values, &mut text) == Err(Trap::Format));
    assert!(rt; text.is_empty());
}

/// What the item makes of what the operator makes of the values; none where there is no row or it doesn't suit.
fn put_result(operator: Dyad, x: &Cell, y: &Cell, item: Item) -> Option<Put>
    requires left { IsValue x.now }
    requires right { IsValue y.now }
{
    match of_two(operator, x, y) {
        Some(Ok(cell)) => put_one(item, cell),
        Some(Err(trap)) => Some(Err(trap)),
        None => None,
    }
}

/// Two values, the operator between them, an item, and what is wanted.
type Row = (Given, Dyad, Given, Item, Wanted);

static RESULTS: [Row; 12] = results_by_items! {
    Fixed(3, 2) Pow Fixed(3, 3) by F(2) => Trap(Trap::Overflow);
    Fixed(3, -2) Pow Fixed(3, 3) by F(2) => Text(b"-8");
    Fixed(63, LOW) Div Fixed(63, -1) by F(20) => Trap(Trap::Overflow);
    Bits(4, 0b1011) Cshift Fixed(31, -1) by B1(0) => Text(b"1101");
    Bits(4, 0b1011) Shift Fixed(31, -2) by B1(0) => Text(b"0010");
    Clock(86_399_000) Add Span(2_000) by T(8) => Text(b"00:00:01");
    Clock(45_000_000) Add Span(7_503_500) by T(12) => Text(b"14:35:03.500");
    Clock(3_600_000) Sub Clock(7_200_000) by D(24) => Text(b"-1 HRS 00 MIN 00.000 SEC");
    Span(0) Sub Span(1) by D(24) => Text(b"-0 HRS 00 MIN 00.001 SEC");
    Span(0) Sub Span(1) by D(23) => Trap(Trap::Format);
    Bits(5, 0b10111) And Bits(5, 0b11111) by B4(0) => Text(b"B8");
    Bits(5, 0b10111) And Bits(5, 0b11111) by B4(1) => Trap(Trap::Format);
};

fn is_result_so(rt: &impl Abort, row: Row) -> bool {
    let (left, operator, right, item, wanted) = row;
    let x = value_of(rt, left);
    let y = value_of(rt, right);
    is_wanted(put_result(operator, &x, &y, item), wanted)
}

fn are_results_so(rt: &impl Abort, rows: &[Row]) {
    for (number, row) in rows.iter().enumerate() {
        assert!(rt; is_result_so(rt, *row), "row {number}");
    }
}

#[test]
fn operators_and_their_texts(rt: HostRuntime) {
    are_results_so(&rt, &RESULTS);
}

// The table of operators, by hand.

ghost use Rattle.std.specs.Prelude.{IfOk, IfSome};
ghost use Rattle.pearl_value.specs.WellFormed.{IsValue};

use crate::operands::{Given, value_of};
use pearl_value::apply::{apply1, apply2};
use pearl_value::cell::{Cell, Place};
use pearl_value::conversion::{blank, cell_kind, convert, kind, suits};
use pearl_value::kind::{CellKind, Kind};
use pearl_value::operator::{Dyad, Monad, result1, result2};
use pearl_value::trap::Trap;
use std::process::Abort;

/// What a row wants: a value, a trap, or nothing, as the kinds have no row.
#[derive(Clone, Copy)]
pub enum Wanted {
    Fixed(u8, i64),
    Bits(u8, u64),
    Chars(&'static [u8]),
    Clock(u32),
    Span(i64),
    Trap(Trap),
    NoRow,
}

/// Two values, the operator between them, and what is wanted.
type Row = (Given, Dyad, Given, Wanted);

/// Rows of the operators with two operands.
macro_rules! two_operands {
    ($($left:ident $a:tt $operator:ident $right:ident $b:tt => $wanted:ident $c:tt;)+) => {
        [$((Given::$left $a, Dyad::$operator, Given::$right $b, Wanted::$wanted $c)),+]
    };
}

/// Rows of the operators with one operand.
macro_rules! one_operand {
    ($($operator:ident $operand:ident $a:tt => $wanted:ident $b:tt;)+) => {
        [$((Monad::$operator, Given::$operand $a, Wanted::$wanted $b)),+]
    };
}

/// Rows of conversions.
macro_rules! conversions {
    ($($from:ident $a:tt, $to:expr => $wanted:ident $b:tt;)+) => {
        [$((Given::$from $a, $to, Wanted::$wanted $b)),+]
    };
}

/// Operators with two operands between values whose kinds have no row.
macro_rules! without_a_row {
    ($($left:ident $a:tt $operator:ident $right:ident $b:tt;)+) => {
        [$((Given::$left $a, Dyad::$operator, Given::$right $b, Wanted::NoRow)),+]
    };
}

fn is_wanted(found: &Result<Cell, Trap>, wanted: Wanted) -> bool {
    match (found, wanted) {
        (Ok(Cell::Fixed { len, value }), Wanted::Fixed(length, number)) => *len == length
            && *value == number,
        (Ok(Cell::Bits { len, value }), Wanted::Bits(length, number)) => *len == length
            && *value == number,
        (Ok(Cell::Chars(text)), Wanted::Chars(bytes)) => text.as_slice() == bytes,
        (Ok(Cell::Clock(time)), Wanted::Clock(number)) => *time == number,
        (Ok(Cell::Span(time)), Wanted::Span(number)) => *time == number,
        (Err(trap), Wanted::Trap(cause)) => *trap == cause,
        _ => false,
    }
}

/// What the operator makes of the value; none where there is no row.
fn of_one(operator: Monad, x: &Cell) -> Option<Result<Cell, Trap>>
    requires { IsValue x.now }
{
    match result1(operator, kind(x)) {
        Some(_) => Some(apply1(operator, x)),
        None => None,
    }
}

/// What the operator makes of the values; none where there is no row.
pub fn of_two(operator: Dyad, x: &Cell, y: &Cell) -> Option<Result<Cell, Trap>>
    requires left { IsValue x.now }
    requires right { IsValue y.now }
    ensures { IfSome result (λ found. IfOk found IsValue) }
{
    match result2(operator, kind(x), kind(y)) {
        Some(_) => Some(apply2(operator, x, y)),
        None => None,
    }
}

/// The value in a kind; none where the length is none, or the value doesn't suit.
fn in_kind(x: &Cell, to: Kind) -> Option<Result<Cell, Trap>>
    requires { IsValue x.now }
{
    let known = match to {
        Kind::Fixed(len) => 1 <= len && len <= 63,
        Kind::Bits(len) => 1 <= len && len <= 64,
        Kind::Chars(len) => 1 <= len,
        Kind::Clock | Kind::Span => true,
    };
    if known && suits(kind(x), to) {
        Some(convert(x, to))
    } else {
        None
    }
}

fn is_found(found: Option<Result<Cell, Trap>>, wanted: Wanted) -> bool {
    match (found, wanted) {
        (Some(result), _) => is_wanted(&result, wanted),
        (None, Wanted::NoRow) => true,
        (None, _) => false,
    }
}

/// The least number.
pub const LOW: i64 = i64::MIN;

/// The greatest number.
pub const HIGH: i64 = i64::MAX;

/// The longest DURATION.
pub const MOST: i64 = 1_099_511_627_776;

static NUMBERS: [Row; 39] = two_operands! {
    Fixed(31, 2147483647) Add Fixed(31, 1) => Trap(Trap::Overflow);
    Fixed(31, 2147483647) Add Fixed(32, 1) => Fixed(32, 2147483648);
    Fixed(63, HIGH) Add Fixed(63, 1) => Trap(Trap::Overflow);
    Fixed(63, LOW) Add Fixed(63, -1) => Trap(Trap::Overflow);
    Fixed(63, LOW) Add Fixed(63, HIGH) => Fixed(63, -1);
    Fixed(63, -1) Sub Fixed(63, HIGH) => Fixed(63, LOW);
    Fixed(63, 0) Sub Fixed(63, LOW) => Trap(Trap::Overflow);
    Fixed(1, 1) Sub Fixed(1, -2) => Trap(Trap::Overflow);
    Fixed(7, -128) Mul Fixed(7, -1) => Trap(Trap::Overflow);
    Fixed(7, -128) Mul Fixed(8, -1) => Fixed(8, 128);
    Fixed(63, LOW) Mul Fixed(63, LOW) => Trap(Trap::Overflow);
    Fixed(63, LOW) Div Fixed(63, -1) => Trap(Trap::Overflow);
    Fixed(31, -7) Div Fixed(31, 2) => Fixed(31, -3);
    Fixed(31, 7) Div Fixed(31, -2) => Fixed(31, -3);
    Fixed(31, 7) Div Fixed(31, 0) => Trap(Trap::ZeroDivide);
    Fixed(31, -7) Rem Fixed(31, 2) => Fixed(31, -1);
    Fixed(31, 7) Rem Fixed(31, -2) => Fixed(31, 1);
    Fixed(63, LOW) Rem Fixed(63, -1) => Fixed(63, 0);
    Fixed(31, 0) Rem Fixed(31, 0) => Trap(Trap::ZeroDivide);
    Fixed(3, 2) Pow Fixed(3, 3) => Trap(Trap::Overflow);
    Fixed(3, -2) Pow Fixed(3, 3) => Fixed(3, -8);
    Fixed(31, 0) Pow Fixed(31, 0) => Fixed(31, 1);
    Fixed(31, 2) Pow Fixed(31, 31) => Trap(Trap::Overflow);
    Fixed(63, -2) Pow Fixed(31, 63) => Fixed(63, LOW);
    Fixed(63, 2) Pow Fixed(31, 63) => Trap(Trap::Overflow);
    Fixed(31, -1) Pow Fixed(63, HIGH) => Fixed(31, -1);
    Fixed(31, 0) Pow Fixed(63, HIGH) => Fixed(31, 0);
    Fixed(31, 1) Pow Fixed(63, HIGH) => Fixed(31, 1);
    Fixed(31, 0) Pow Fixed(31, -1) => Trap(Trap::Range);
    Fixed(31, 1) Pow Fixed(31, -1) => Trap(Trap::Range);
    Fixed(31, -1) Pow Fixed(31, -1) => Trap(Trap::Range);
    Fixed(31, 2) Pow Fixed(63, LOW) => Trap(Trap::Range);
    Fixed(31, -1) Lt Fixed(63, 0) => Bits(1, 1);
    Fixed(31, 0) Lt Fixed(31, 0) => Bits(1, 0);
    Fixed(31, 0) Ge Fixed(31, 0) => Bits(1, 1);
    Fixed(31, 0) Gt Fixed(31, 0) => Bits(1, 0);
    Fixed(31, 1) Le Fixed(31, 0) => Bits(1, 0);
    Fixed(31, 5) Eq Fixed(63, 5) => Bits(1, 1);
    Fixed(31, 5) Ne Fixed(63, 5) => Bits(1, 0);
};

static STRINGS: [Row; 22] = two_operands! {
    Bits(2, 0b10) Cat Bits(4, 0b0101) => Bits(6, 0b100101);
    Bits(2, 0b10) And Bits(4, 0b0101) => Bits(4, 0b0000);
    Bits(2, 0b11) And Bits(4, 0b0101) => Bits(4, 0b0100);
    Bits(2, 0b10) Or Bits(4, 0b0101) => Bits(4, 0b1101);
    Bits(4, 0b0101) Exor Bits(2, 0b01) => Bits(4, 0b0001);
    Bits(2, 0b10) Eq Bits(4, 0b1000) => Bits(1, 1);
    Bits(2, 0b10) Eq Bits(4, 0b0010) => Bits(1, 0);
    Bits(2, 0b10) Ne Bits(4, 0b0010) => Bits(1, 1);
    Bits(4, 0b0110) Cshift Fixed(31, 1) => Bits(4, 0b1100);
    Bits(4, 0b0110) Cshift Fixed(31, -1) => Bits(4, 0b0011);
    Bits(4, 0b1011) Cshift Fixed(31, -1) => Bits(4, 0b1101);
    Bits(4, 0b0110) Cshift Fixed(31, 4) => Bits(4, 0b0110);
    Bits(4, 0b0110) Cshift Fixed(31, -9) => Bits(4, 0b0011);
    Bits(4, 0b0110) Shift Fixed(31, 2) => Bits(4, 0b1000);
    Bits(4, 0b0110) Shift Fixed(31, -1) => Bits(4, 0b0011);
    Bits(4, 0b1011) Shift Fixed(31, -2) => Bits(4, 0b0010);
    Bits(4, 0b0110) Shift Fixed(31, 4) => Bits(4, 0b0000);
    Bits(4, 0b0110) Shift Fixed(63, i64::MIN) => Bits(4, 0b0000);
    Chars(b"A") Cat Chars(b"AB") => Chars(b"AAB");
    Chars(b"A") Eq Chars(b"A ") => Bits(1, 1);
    Chars(b"A") Lt Chars(b"AB") => Bits(1, 1);
    Chars(b"B") Gt Chars(b"AB") => Bits(1, 1);
};

static TIMES: [Row; 11] = two_operands! {
    Clock(86_399_000) Add Span(2_000) => Clock(1_000);
    Clock(86_399_999) Add Span(1) => Clock(0);
    Span(1) Add Clock(86_399_999) => Clock(0);
    Clock(0) Sub Span(1) => Clock(86_399_999);
    Clock(0) Sub Clock(86_399_999) => Span(-86_399_999);
    Span(MOST) Add Span(1) => Trap(Trap::Overflow);
    Span(-MOST) Sub Span(1) => Trap(Trap::Overflow);
    Fixed(31, 2) Mul Span(MOST) => Trap(Trap::Overflow);
    Span(86_400_000) Mul Fixed(31, 2) => Span(172_800_000);
    Span(86_400_000) Div Fixed(31, 2) => Span(43_200_000);
    Span(MOST) Div Span(86_400_000) => Fixed(63, 12725);
};

static WITHOUT_A_ROW: [Row; 4] = without_a_row! {
    Fixed(31, 1) And Fixed(31, 1);
    Bits(33, 0) Cat Bits(32, 0);
    Bits(2, 0b10) Lt Bits(4, 0b0101);
    Span(1) Sub Clock(1);
};

// Whether a row's operator makes of its values what is wanted.
fn is_so(rt: &impl Abort, row: Row) -> bool {
    let (left, operator, right, wanted) = row;
    let x = value_of(rt, left);
    let y = value_of(rt, right);
    is_found(of_two(operator, &x, &y), wanted)
}

// The number of the first of these rows that isn't so.
fn first_other(rt: &impl Abort, rows: &[Row]) -> Option<usize> {
    for (number, row) in rows.iter().enumerate() {
        if !is_so(rt, *row) {
            return Some(number);
        }
    }
    None
}

#[test]
fn two_operands_have_their_results(rt: HostRuntime) {
    for (table, rows) in [
        ("numbers", NUMBERS.as_slice()),
        ("strings", &STRINGS),
        ("times", &TIMES),
        ("kinds without a row", &WITHOUT_A_ROW),
    ] {
        if let Some(number) = first_other(&rt, rows) {
            assert!(rt; false, "row {number} of {table}");
        }
    }
}

static ONE_OPERAND: [(Monad, Given, Wanted); 6] = one_operand! {
    Plus Fixed(7, -128) => Fixed(7, -128);
    Minus Fixed(7, -128) => Trap(Trap::Overflow);
    Abs Fixed(7, -128) => Trap(Trap::Overflow);
    Minus Span(-MOST) => Span(MOST);
    Sign Span(-MOST) => Fixed(31, -1);
    Not Bits(4, 0b0101) => Bits(4, 0b1010);
};

fn is_so_of_one(rt: &impl Abort, operator: Monad, operand: Given, wanted: Wanted) -> bool {
    let x = value_of(rt, operand);
    is_found(of_one(operator, &x), wanted)
}

fn are_so_of_one(rt: &impl Abort, rows: &[(Monad, Given, Wanted)]) {
    for (number, &(operator, operand, wanted)) in rows.iter().enumerate() {
        assert!(rt; is_so_of_one(rt, operator, operand, wanted), "row {number}");
    }
}

#[test]
fn single_operands(rt: HostRuntime) {
    are_so_of_one(&rt, &ONE_OPERAND);
}

static CONVERSIONS: [(Given, Kind, Wanted); 7] = conversions! {
    Fixed(31, -128), Kind::Fixed(7) => Fixed(7, -128);
    Fixed(31, 128), Kind::Fixed(7) => Trap(Trap::Overflow);
    Bits(2, 0b11), Kind::Bits(4) => Bits(4, 0b1100);
    Bits(2, 0b10), Kind::Bits(64) => Bits(64, 9223372036854775808);
    Chars(b"ab"), Kind::Chars(3) => Chars(b"ab ");
    Clock(1), Kind::Clock => Clock(1);
    Span(-1), Kind::Span => Span(-1);
};

fn is_so_in_kind(rt: &impl Abort, from: Given, to: Kind, wanted: Wanted) -> bool {
    let x = value_of(rt, from);
    is_found(in_kind(&x, to), wanted)
}

fn are_so_in_kind(rt: &impl Abort, rows: &[(Given, Kind, Wanted)]) {
    for (number, &(from, to, wanted)) in rows.iter().enumerate() {
        assert!(rt; is_so_in_kind(rt, from, to, wanted), "row {number}");
    }
}

#[test]
fn values_in_other_kinds(rt: HostRuntime) {
    are_so_in_kind(&rt, &CONVERSIONS);
}

#[test]
fn some_kinds_have_no_result(rt: HostRuntime) {
    assert!(rt; of_one(Monad::Plus, &Cell::Clock(0)).is_none());
    assert!(rt; in_kind(&Cell::Clock(1), Kind::Span).is_none());
    assert!(rt; in_kind(&Cell::Bits { len: 2, value: 2 }, Kind::Bits(1)).is_none());
}

#[test]
fn unset_values(rt: HostRuntime) {
    assert!(rt; is_wanted(&Ok(blank(Kind::Chars(2))), Wanted::Chars(b"  ")));
    assert!(rt; is_wanted(&Ok(Cell::default()), Wanted::Fixed(31, 0)));
    assert!(rt; Kind::default() == Kind::Fixed(31));
}

#[test]
fn a_reference_has_a_kind_of_its_own(rt: HostRuntime) {
    let reference = Cell::Ref {
        kind: Kind::Clock,
        place: Place::Slot(0),
    };
    assert!(rt; cell_kind(&reference) == CellKind::RefTo(Kind::Clock));
    assert!(rt; cell_kind(&Cell::Clock(0)) == CellKind::Plain(Kind::Clock));
}

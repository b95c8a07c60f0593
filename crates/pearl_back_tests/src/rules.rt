// For each rule of the validator an object that breaks it, and one at its edge.

use crate::objects::{Line, Proc, Routine, Row, Stated, first_other};
use pearl_instructions::instr::{Bounds, Reading};
use pearl_value::kind::{CellKind, Kind};
use pearl_value::operator::Dyad;
use pearl_verify::rule::{V1, V2, V3, V4, V5, V6, V7, V8, V9, V10, V11, V12};
use std::test::Fail;

const FIXED: CellKind = CellKind::Plain(Kind::Fixed(31));

const SHORT: CellKind = CellKind::Plain(Kind::Fixed(15));

const BIT: CellKind = CellKind::Plain(Kind::Bits(1));

const REFERENCE: CellKind = CellKind::RefTo(Kind::Fixed(31));

// A routine of these cells, this depth and this code, without stated shapes.
macro_rules! routine {
    ($cells:expr, $depth:expr, [$($line:expr),*]) => {
        Routine { cells: $cells, depth: $depth, lines: &[$($line),*], shapes: &[] }
    };
}

// Objects with a task of these cells, this depth, this code and these stated shapes, each with what is told of it.
macro_rules! tasks {
    ($($cells:expr, $depth:expr, [$($line:expr),*], $shapes:expr => $told:expr;)*) => {
        [$(Row {
            procedures: &[],
            task: Routine { cells: $cells, depth: $depth, lines: &[$($line),*], shapes: $shapes },
            told: $told,
        }),*]
    };
}

// Objects with these procedures and a task without cells of this depth and this code, each with what is told of it.
macro_rules! callers {
    ($($procedures:expr, $depth:expr, [$($line:expr),*] => $told:expr;)*) => {
        [$(Row {
            procedures: $procedures,
            task: routine!(&[], $depth, [$($line),*]),
            told: $told,
        }),*]
    };
}

static ENDS: [Row; 1] = tasks![
    &[], 0, [Line::End], &[] => None;
];

static CELLS_AND_RANGES: [Row; 6] = tasks![
    &[FIXED, FIXED], 3, [Line::Load(1), Line::Drop, Line::End], &[] => None;
    &[FIXED, FIXED], 3, [Line::Load(2), Line::Drop, Line::End], &[] => Some((0, 0, V1));
    &[FIXED, FIXED], 3,
        [Line::Number, Line::LoadAt { first: 0, count: 2 }, Line::Drop, Line::End], &[] => None;
    &[FIXED, FIXED], 3,
        [Line::Number, Line::LoadAt { first: 1, count: 2 }, Line::Drop, Line::End], &[]
        => Some((0, 1, V1));
    &[FIXED, FIXED], 3,
        [Line::Number, Line::LoadAt { first: 0, count: 0 }, Line::Drop, Line::End], &[]
        => Some((0, 1, V1));
    &[FIXED, FIXED], 3,
        [Line::Number, Line::LoadAt { first: 1, count: 18446744073709551615 }, Line::Drop, Line::End], &[]
        => Some((0, 1, V1));
];

// Devices of another sort or direction, cells of a GET that aren't the routine's, and a stated shape behind the last
// instruction.
static DEVICES_AND_STATED_SHAPES: [Row; 9] = tasks![
    &[], 0, [Line::Enable(1), Line::End], &[] => None;
    &[], 0, [Line::Enable(0), Line::End], &[] => Some((0, 0, V1));
    &[], 1, [Line::Number, Line::Put { device: 4, format: 0 }, Line::End], &[] => None;
    &[], 1, [Line::Number, Line::Put { device: 5, format: 0 }, Line::End], &[] => Some((0, 1, V1));
    &[FIXED], 1, [Line::Get(Reading { device: 5, format: 0, first: 0 }), Line::End], &[] => None;
    &[FIXED], 1, [Line::Get(Reading { device: 4, format: 0, first: 0 }), Line::End], &[]
        => Some((0, 0, V1));
    &[FIXED], 1, [Line::Get(Reading { device: 5, format: 0, first: 1 }), Line::End], &[]
        => Some((0, 0, V1));
    &[FIXED], 1, [Line::Get(Reading { device: 5, format: 2, first: 9 }), Line::End], &[] => None;
    &[], 0, [Line::End], &[Stated { instruction: 1, kinds: &[] }] => Some((0, 1, V1));
];

// A leaf, a semaphore, a task and a format behind the last one, and devices that give no values or take none.
static OTHER_NUMBERS: [Row; 13] = tasks![
    &[], 1, [Line::Read(0), Line::Drop, Line::End], &[] => None;
    &[], 1, [Line::Read(1), Line::Drop, Line::End], &[] => Some((0, 0, V1));
    &[], 1, [Line::Number, Line::Write(1), Line::End], &[] => Some((0, 1, V1));
    &[], 1, [Line::Try(16), Line::Drop, Line::End], &[] => None;
    &[], 1, [Line::Try(17), Line::Drop, Line::End], &[] => Some((0, 0, V1));
    &[], 0, [Line::Request(&[0, 17]), Line::End], &[] => Some((0, 0, V1));
    &[], 0, [Line::Suspend(0), Line::End], &[] => None;
    &[], 0, [Line::Suspend(1), Line::End], &[] => Some((0, 0, V1));
    &[], 0, [Line::Put { device: 0, format: 5 }, Line::End], &[] => Some((0, 0, V1));
    &[], 1, [Line::Take(2), Line::Drop, Line::End], &[] => None;
    &[], 1, [Line::Take(3), Line::Drop, Line::End], &[] => Some((0, 0, V1));
    &[], 1, [Line::Number, Line::Send(3), Line::End], &[] => None;
    &[], 1, [Line::Number, Line::Send(2), Line::End], &[] => Some((0, 1, V1));
];

static PROCEDURES: [Row; 2] = callers![
    &[Proc { result: None, code: routine!(&[], 0, [Line::Return]) }], 0, [Line::Call(0), Line::End] => None;
    &[Proc { result: None, code: routine!(&[], 0, [Line::Return]) }], 0, [Line::Call(1), Line::End]
        => Some((1, 0, V1));
];

static OPERANDS: [Row; 3] = tasks![
    &[], 1, [Line::Number, Line::Drop, Line::End], &[] => None;
    &[], 1, [Line::Drop, Line::End], &[] => Some((0, 0, V2));
    &[], 1, [Line::Bit, Line::ReadAt(0), Line::Drop, Line::End], &[] => Some((0, 1, V2));
];

static OPERATORS: [Row; 4] = tasks![
    &[], 2, [Line::Number, Line::Number, Line::Dyadic(Dyad::Add), Line::Drop, Line::End], &[] => None;
    &[], 2, [Line::Number, Line::Bit, Line::Dyadic(Dyad::Add), Line::Drop, Line::End], &[]
        => Some((0, 2, V3));
    &[], 1, [Line::Bit, Line::ToBits, Line::Drop, Line::End], &[] => None;
    &[], 1, [Line::Bit, Line::ToFixed, Line::Drop, Line::End], &[] => Some((0, 1, V3));
];

static EXACT_KINDS: [Row; 4] = tasks![
    &[FIXED], 2, [Line::Number, Line::Store(0), Line::End], &[] => None;
    &[SHORT], 2, [Line::Number, Line::Store(0), Line::End], &[] => Some((0, 1, V4));
    &[FIXED, FIXED, SHORT], 4,
        [Line::Number, Line::LoadAt { first: 0, count: 3 }, Line::Drop, Line::End], &[]
        => Some((0, 1, V4));
    &[FIXED, FIXED, SHORT], 4,
        [Line::Number, Line::LoadAt { first: 0, count: 2 }, Line::Drop, Line::End], &[] => None;
];

// What is sent or put into a leaf or through a reference.
static EXACT_VALUES: [Row; 5] = tasks![
    &[], 1, [Line::Number, Line::Write(0), Line::End], &[] => None;
    &[], 1, [Line::Bit, Line::Write(0), Line::End], &[] => Some((0, 1, V4));
    &[], 1, [Line::Bit, Line::Send(3), Line::End], &[] => Some((0, 1, V4));
    &[], 2, [Line::RefSlot(0), Line::Number, Line::WriteRef, Line::End], &[] => None;
    &[], 2, [Line::RefSlot(0), Line::Bit, Line::WriteRef, Line::End], &[] => Some((0, 2, V4));
];

// The three cells of a loop are of one kind of FIXED.
static LOOP_CELLS: [Row; 6] = tasks![
    &[FIXED, FIXED, FIXED], 4, [Line::Within(0), Line::Drop, Line::End], &[] => None;
    &[FIXED, FIXED, SHORT], 4, [Line::Within(0), Line::Drop, Line::End], &[] => Some((0, 0, V4));
    &[BIT, BIT, BIT], 4, [Line::Within(0), Line::Drop, Line::End], &[] => Some((0, 0, V4));
    &[SHORT, SHORT, SHORT], 3, [Line::Advance { first: 0, past: 1 }, Line::End], &[] => None;
    &[SHORT, FIXED, SHORT], 3, [Line::Advance { first: 0, past: 1 }, Line::End], &[]
        => Some((0, 0, V4));
    &[BIT, BIT, BIT], 3, [Line::Advance { first: 0, past: 1 }, Line::End], &[] => Some((0, 0, V4));
];

// Arguments stand in the order of the parameters, and a reference is told from its kind.
static ARGUMENTS: [Row; 4] = callers![
    &[Proc { result: None, code: routine!(&[BIT, FIXED], 2, [Line::Return]) }],
        2, [Line::Bit, Line::Number, Line::Call(0), Line::End] => None;
    &[Proc { result: None, code: routine!(&[FIXED, BIT], 2, [Line::Return]) }],
        2, [Line::Bit, Line::Number, Line::Call(0), Line::End] => Some((1, 2, V4));
    &[Proc { result: None, code: routine!(&[REFERENCE], 1, [Line::Return]) }],
        1, [Line::RefSlot(0), Line::Call(0), Line::End] => None;
    &[Proc { result: None, code: routine!(&[REFERENCE], 1, [Line::Return]) }],
        1, [Line::Number, Line::Call(0), Line::End] => Some((1, 1, V4));
];

static REFERENCES: [Row; 4] = tasks![
    &[FIXED], 2, [Line::RefCell(0), Line::Drop, Line::End], &[] => None;
    &[REFERENCE], 2, [Line::RefCell(0), Line::Drop, Line::End], &[] => Some((0, 0, V5));
    &[REFERENCE], 1, [Line::Get(Reading { device: 0, format: 0, first: 0 }), Line::End], &[]
        => Some((0, 0, V5));
    &[REFERENCE], 2, [Line::Number, Line::LoadAt { first: 0, count: 1 }, Line::Drop, Line::End], &[]
        => Some((0, 1, V5));
];

// The shape before instruction 0 is empty, whatever is stated for it.
static SHAPES_AT_TARGETS: [Row; 5] = tasks![
    &[], 1, [Line::Number, Line::Jump(2), Line::Drop, Line::End],
        &[Stated { instruction: 2, kinds: &[FIXED] }] => None;
    &[], 1, [Line::Number, Line::Jump(2), Line::Drop, Line::End], &[] => Some((0, 1, V6));
    &[], 1, [Line::Number, Line::Jump(2), Line::Drop, Line::End],
        &[Stated { instruction: 2, kinds: &[BIT] }] => Some((0, 1, V6));
    &[], 1, [Line::Turn, Line::Jump(0)], &[Stated { instruction: 0, kinds: &[FIXED] }] => None;
    &[], 1, [Line::Turn, Line::Number, Line::Jump(0)], &[Stated { instruction: 0, kinds: &[FIXED] }]
        => Some((0, 2, V6));
];

// Shapes of the same kinds in another order, of one kind more or less, and of a reference in place of its kind.
static DEEPER_SHAPES: [Row; 7] = tasks![
    &[], 3, [Line::Bit, Line::Number, Line::Number, Line::Case(&[4, 4]), Line::Drop, Line::Drop, Line::End],
        &[Stated { instruction: 4, kinds: &[BIT, FIXED] }] => None;
    &[], 3, [Line::Bit, Line::Number, Line::Number, Line::Case(&[4, 4]), Line::Drop, Line::Drop, Line::End],
        &[Stated { instruction: 4, kinds: &[FIXED, BIT] }] => Some((0, 3, V6));
    &[], 3, [Line::Bit, Line::Number, Line::Number, Line::Case(&[4, 5]), Line::Drop, Line::Drop, Line::End],
        &[Stated { instruction: 4, kinds: &[BIT, FIXED] }, Stated { instruction: 5, kinds: &[BIT] }]
        => Some((0, 3, V6));
    &[], 3, [Line::Number, Line::Bit, Line::JumpZero(5), Line::Bit, Line::JumpZero(5), Line::Drop, Line::End],
        &[Stated { instruction: 5, kinds: &[FIXED] }] => None;
    &[], 3, [Line::Number, Line::Bit, Line::JumpZero(4), Line::Number, Line::Drop, Line::Drop, Line::End],
        &[Stated { instruction: 4, kinds: &[FIXED, FIXED] }] => Some((0, 2, V6));
    &[FIXED], 2, [Line::RefCell(0), Line::Jump(2), Line::Drop, Line::End],
        &[Stated { instruction: 2, kinds: &[REFERENCE] }] => None;
    &[FIXED], 2, [Line::RefCell(0), Line::Jump(2), Line::Drop, Line::End],
        &[Stated { instruction: 2, kinds: &[FIXED] }] => Some((0, 1, V6));
];

static JUMPS_BACK: [Row; 3] = tasks![
    &[], 1, [Line::Turn, Line::Jump(0)], &[] => None;
    &[], 1, [Line::Jump(0)], &[] => Some((0, 0, V7));
    &[], 1, [Line::Number, Line::Drop, Line::Jump(0)], &[] => Some((0, 2, V7));
];

static CALLS: [Row; 3] = callers![
    &[
        Proc { result: None, code: routine!(&[], 1, [Line::Return]) },
        Proc { result: None, code: routine!(&[], 1, [Line::Call(0), Line::Return]) },
    ], 0, [Line::End] => None;
    &[
        Proc { result: None, code: routine!(&[], 1, [Line::Call(1), Line::Return]) },
        Proc { result: None, code: routine!(&[], 1, [Line::Return]) },
    ], 0, [Line::End] => Some((0, 0, V8));
    &[Proc { result: None, code: routine!(&[], 1, [Line::Call(0), Line::Return]) }], 0, [Line::End]
        => Some((0, 0, V8));
];

static LAST_INSTRUCTIONS: [Row; 2] = tasks![
    &[], 1, [], &[] => Some((0, 0, V9));
    &[], 1, [Line::Turn], &[] => Some((0, 1, V9));
];

static OPERANDS_AT_ENDS: [Row; 7] = callers![
    &[], 1, [Line::Number, Line::End] => Some((0, 1, V10));
    &[], 1, [Line::Return] => Some((0, 0, V10));
    &[Proc { result: Some(Kind::Fixed(31)), code: routine!(&[], 1, [Line::Number, Line::Return]) }],
        0, [Line::End] => None;
    &[Proc { result: Some(Kind::Fixed(15)), code: routine!(&[], 1, [Line::Number, Line::Return]) }],
        0, [Line::End] => Some((0, 1, V10));
    &[Proc { result: None, code: routine!(&[], 1, [Line::End]) }], 0, [Line::End] => Some((0, 0, V10));
    &[
        Proc {
            result: Some(Kind::Fixed(31)),
            code: routine!(&[], 2, [Line::Number, Line::Number, Line::Return])
        },
    ], 0, [Line::End] => Some((0, 2, V10));
    &[Proc { result: Some(Kind::Fixed(31)), code: routine!(&[], 1, [Line::Return]) }], 0, [Line::End]
        => Some((0, 0, V2));
];

static DEPTHS: [Row; 3] = tasks![
    &[FIXED], 1, [Line::Number, Line::Drop, Line::End], &[] => Some((0, 1, V11));
    &[], 4096, [Line::End], &[] => None;
    &[], 4097, [Line::End], &[] => Some((0, 1, V11));
];

// The arguments become cells of the callee, so they count once.
static DEPTHS_OVER_CALLS: [Row; 2] = callers![
    &[Proc { result: None, code: routine!(&[FIXED], 1, [Line::Return]) }],
        1, [Line::Number, Line::Call(0), Line::End] => None;
    &[Proc { result: None, code: routine!(&[FIXED], 2, [Line::Return]) }],
        1, [Line::Number, Line::Call(0), Line::End] => Some((1, 1, V11));
];

static SEMAPHORES: [Row; 4] = tasks![
    &[], 0, [Line::Request(&[0]), Line::End], &[] => None;
    &[], 0, [Line::Request(&[0, 0]), Line::End], &[] => Some((0, 0, V12));
    &[], 0, [Line::Request(&[15, 14, 13, 12, 11, 10, 9, 8, 7, 6, 5, 4, 3, 2, 1, 0]), Line::End], &[] => None;
    &[], 0, [Line::Request(&[0, 1, 2, 3, 4, 5, 6, 7, 8, 9, 10, 11, 12, 13, 14, 15, 16]), Line::End], &[]
        => Some((0, 0, V12));
];

const PAIR: Bounds = Bounds { low: 1, high: 2 };

static SUBSCRIPTS: [Row; 7] = tasks![
    &[], 1, [Line::Number, Line::Index(&[Bounds { low: 1, high: 65536 }]), Line::Drop, Line::End], &[] => None;
    &[], 1, [Line::Number, Line::Index(&[Bounds { low: 0, high: 65536 }]), Line::Drop, Line::End], &[]
        => Some((0, 1, V12));
    &[], 3,
        [Line::Number, Line::Number, Line::Number, Line::Index(&[PAIR, PAIR, PAIR]), Line::Drop, Line::End], &[]
        => None;
    &[], 4,
        [Line::Number, Line::Number, Line::Number, Line::Number, Line::Index(&[PAIR, PAIR, PAIR, PAIR]),
        Line::Drop, Line::End], &[] => Some((0, 4, V12));
    &[], 1, [Line::Index(&[]), Line::Drop, Line::End], &[] => Some((0, 0, V12));
    &[], 1, [Line::Number, Line::Index(&[Bounds { low: 2, high: 2 }]), Line::Drop, Line::End], &[] => None;
    &[], 1, [Line::Number, Line::Index(&[Bounds { low: 2, high: 1 }]), Line::Drop, Line::End], &[]
        => Some((0, 1, V12));
];

static FORMATS: [Row; 5] = tasks![
    &[], 1, [Line::Number, Line::Put { device: 0, format: 0 }, Line::End], &[] => None;
    &[], 1, [Line::Bit, Line::Put { device: 0, format: 0 }, Line::End], &[] => Some((0, 1, V12));
    &[], 1, [Line::RefSlot(0), Line::Put { device: 0, format: 0 }, Line::End], &[] => Some((0, 1, V12));
    &[], 0, [Line::Put { device: 0, format: 2 }, Line::End], &[] => None;
    &[], 0, [Line::Put { device: 0, format: 3 }, Line::End], &[] => Some((0, 0, V12));
];

// At most 64 values are written or read at once.
static COUNTS_OF_VALUES: [Row; 4] = tasks![
    &[], 64, [Line::Numbers(64), Line::Put { device: 0, format: 4 }, Line::End], &[] => None;
    &[], 65, [Line::Numbers(65), Line::Put { device: 0, format: 1 }, Line::End], &[] => Some((0, 65, V12));
    &[FIXED; 64], 64, [Line::Get(Reading { device: 0, format: 4, first: 0 }), Line::End], &[] => None;
    &[FIXED; 65], 65, [Line::Get(Reading { device: 0, format: 1, first: 0 }), Line::End], &[]
        => Some((0, 0, V12));
];

// All rows, by rule.
fn tables() -> [(&'static str, &'static [Row]); 24] {
    [
        ("ends", &ENDS),
        ("V1, cells and ranges", &CELLS_AND_RANGES),
        ("V1, devices and stated shapes", &DEVICES_AND_STATED_SHAPES),
        ("V1, other numbers", &OTHER_NUMBERS),
        ("V1, procedures", &PROCEDURES),
        ("V2", &OPERANDS),
        ("V3", &OPERATORS),
        ("V4", &EXACT_KINDS),
        ("V4, values", &EXACT_VALUES),
        ("V4, loops", &LOOP_CELLS),
        ("V4, arguments", &ARGUMENTS),
        ("V5", &REFERENCES),
        ("V6, targets", &SHAPES_AT_TARGETS),
        ("V6, deeper", &DEEPER_SHAPES),
        ("V7", &JUMPS_BACK),
        ("V8", &CALLS),
        ("V9", &LAST_INSTRUCTIONS),
        ("V10", &OPERANDS_AT_ENDS),
        ("V11", &DEPTHS),
        ("V11, calls", &DEPTHS_OVER_CALLS),
        ("V12, semaphores", &SEMAPHORES),
        ("V12, subscripts", &SUBSCRIPTS),
        ("V12, formats", &FORMATS),
        ("V12, values", &COUNTS_OF_VALUES),
    ]
}

#[test]
fn the_least_broken_rule_is_told(rt: HostRuntime) -> Result<(), Fail> {
    for (name, rows) in tables() {
        if let Some(number) = first_other(rt.alloc(), rows)? {
            assert!(rt; false, "row {number} of {name}");
        }
    }
    Ok(())
}

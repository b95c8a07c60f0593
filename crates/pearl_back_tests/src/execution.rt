// One task of a valid object: what it offers, and how it goes on after what it hears.

ghost use Rattle.std.specs.Prelude.{◌≡◌, ◌+◌, ◌<◌, ◌≤◌, ℕ, length, IfOk, IfSome};
ghost use Rattle.std.specs.List.{AllByRecursion};
ghost use Rattle.pearl_format.specs.Items.{IsFormat};
ghost use Rattle.pearl_instructions.specs.Lawful.{IsLeaf, IsProcedure, IsTask};
ghost use Rattle.pearl_instructions.specs.Objects.{slot_kind};
ghost use Rattle.pearl_instructions.specs.Rows.{begun};
ghost use Rattle.pearl_instructions.specs.Stacks.{IsStack, Answers, AreOf, room};
ghost use Rattle.pearl_exchange.specs.Heard.{answer_of};
ghost use Rattle.pearl_exchange.specs.Offers.{action_of};

use crate::objects::{Line, instructions, letter, number};
use crate::operands::is_number;
use pearl_exchange::heard::{Beside, Heard};
use pearl_exchange::offer::{Offer, What};
use pearl_format::item::{Item, ItemCode};
use pearl_instructions::instr::{Bounds, Reading};
use pearl_instructions::object::{Code, Leaf, Object, Parts, Procedure, Task};
use pearl_instructions::valid::Valid;
use pearl_solo::answers::answer;
use pearl_solo::frames::begin;
use pearl_solo::settle::settle;
use pearl_stack::stack::{Loaded, Parked};
use pearl_value::cell::Cell;
use pearl_value::device::{Device, Direction};
use pearl_value::kind::{CellKind, Kind};
use pearl_value::listing::Listing;
use pearl_value::operator::Dyad;
use pearl_value::trap::Trap;
use pearl_verify::verify::verify;
use std::alloc::{AllocError, Global};
use std::test::Fail;

const FIXED: CellKind = CellKind::Plain(Kind::Fixed(31));

const INDEX: Line = Line::Index(&[Bounds { low: 0, high: 1 }]);

/// An action that the task is to offer, and what it hears then.
#[derive(Clone, Copy)]
enum Row {
    Turn,
    Enter,
    Read { slot: u32, heard: i32 },
    Write { slot: u32, value: i64 },
    Put(&'static str),
    Get { heard: [i32; 2] },
    Trap(Trap),
}

// scaled: PROC(n FIXED, total FIXED IDENT) RETURNS(FIXED);
//   total := total + n;
//   RETURN(n * total);
static SCALED: [Line; 11] = [
    Line::Load(1),
    Line::Load(1),
    Line::ReadRef,
    Line::Load(0),
    Line::Dyadic(Dyad::Add),
    Line::WriteRef,
    Line::Load(0),
    Line::Load(1),
    Line::ReadRef,
    Line::Dyadic(Dyad::Mul),
    Line::Return,
];

// The cells are sum, i, its step and its limit, a and b.
// FOR i FROM 1 BY 2 TO 5 REPEAT
//   plant(1) := scaled(i, sum);
// END;
// a := scaled(2, plant(0));
// PUT a TO console BY F(3);
// PUT plant(1) + sum TO console BY F(3);
// GET a, b FROM console BY F(3), F(3);
// PUT a - b TO console BY F(3);
// plant(a) := 1;
static TASK: [Line; 40] = [
    Line::Value(1),
    Line::Store(1),
    Line::Value(2),
    Line::NonZero,
    Line::Store(2),
    Line::Value(5),
    Line::Store(3),
    Line::Turn,
    Line::Within(1),
    Line::JumpZero(18),
    Line::Value(1),
    INDEX,
    Line::Load(1),
    Line::RefCell(0),
    Line::Call(0),
    Line::WriteAt(0),
    Line::Advance { first: 1, past: 18 },
    Line::Jump(7),
    Line::Value(2),
    Line::RefSlot(0),
    Line::Call(0),
    Line::Store(4),
    Line::Load(4),
    Line::Put {
        device: 0,
        format: 0,
    },
    Line::Value(1),
    INDEX,
    Line::ReadAt(0),
    Line::Load(0),
    Line::Dyadic(Dyad::Add),
    Line::Put {
        device: 0,
        format: 0,
    },
    Line::Get(Reading {
        device: 0,
        format: 1,
        first: 4,
    }),
    Line::Load(4),
    Line::Load(5),
    Line::Dyadic(Dyad::Sub),
    Line::Put {
        device: 0,
        format: 0,
    },
    Line::Load(4),
    INDEX,
    Line::Value(1),
    Line::WriteAt(0),
    Line::End,
];

// The turn after the last one finds i past 5. Slot 0 holds 10 at first. What is got by F(3) is 7 and then 2, and 7 is no
// subscript in (0:1).
static ROWS: [Row; 20] = [
    Row::Turn,
    Row::Enter,
    Row::Write { slot: 1, value: 1 },
    Row::Turn,
    Row::Enter,
    Row::Write { slot: 1, value: 12 },
    Row::Turn,
    Row::Enter,
    Row::Write { slot: 1, value: 45 },
    Row::Turn,
    Row::Enter,
    Row::Read { slot: 0, heard: 10 },
    Row::Write { slot: 0, value: 12 },
    Row::Read { slot: 0, heard: 12 },
    Row::Put(" 24"),
    Row::Read { slot: 1, heard: 45 },
    Row::Put(" 54"),
    Row::Get { heard: [7, 2] },
    Row::Put("  5"),
    Row::Trap(Trap::Index),
];

// Its parameters are a value and a reference.
fn scaled(alloc: Global) -> Result<Procedure, AllocError>
    ensures { IfOk result IsProcedure }
{
    let lines = instructions(alloc, &SCALED)?;
    let cells = vec![in alloc; FIXED, CellKind::RefTo(Kind::Fixed(31))]?;
    Ok(Procedure {
        params: 2,
        result: Some(Kind::Fixed(31)),
        code: Code {
            cells: Listing::new(cells),
            depth: 5,
            instructions: lines,
            shapes: Listing::new(Vec::new(alloc)),
        },
    })
}

fn task(alloc: Global) -> Result<Task, AllocError>
    ensures { IfOk result IsTask }
{
    let lines = instructions(alloc, &TASK)?;
    let cells = vec![in alloc; FIXED, FIXED, FIXED, FIXED, FIXED, FIXED]?;
    Ok(Task {
        name: letter(),
        priority: 1,
        main: true,
        code: Code {
            cells: Listing::new(cells),
            depth: 12,
            instructions: lines,
            shapes: Listing::new(Vec::new(alloc)),
        },
    })
}

// plant(0:1) FIXED
fn plant(alloc: Global) -> Leaf
    ensures lawful { IsLeaf result }
    ensures slots { result.slots ≡ 2 }
{
    Leaf {
        name: Listing::new(Vec::new(alloc)),
        kind: Kind::Fixed(31),
        slots: 2,
        constants: Listing::new(Vec::new(alloc)),
    }
}

// F(3), and F(3), F(3)
fn formats(alloc: Global) -> Result<Listing<Listing<Item>>, AllocError>
    ensures lawful { IfOk result (AllByRecursion IsFormat) }
    ensures few { IfOk result (λ formats. length formats ≡ 2) }
{
    let item = Item {
        code: ItemCode::F,
        width: 3,
    };
    let one = Listing::new(vec![in alloc; item]?);
    let two = Listing::new(vec![in alloc; item, item]?);
    Ok(Listing::new(vec![in alloc; one, two]?))
}

fn object(alloc: Global) -> Result<Object, AllocError> {
    let console = Device::Terminal {
        number: 1,
        direction: Direction::InOut,
    };
    let devices = vec![in alloc; console]?;
    let leaves = vec![in alloc; plant(alloc)]?;
    let formats = formats(alloc)?;
    let procedures = vec![in alloc; scaled(alloc)?]?;
    let tasks = vec![in alloc; task(alloc)?]?;
    Ok(Object::new(Parts {
        devices: Listing::new(devices),
        semaphores: Listing::new(Vec::new(alloc)),
        leaves: Listing::new(leaves),
        formats,
        procedures: Listing::new(procedures),
        tasks: Listing::new(tasks),
    }))
}

// The kind of a slot.
fn kind_of_slot(leaves: &[Leaf], slot: u32) -> Option<Kind>
    ensures { result ≡ slot_kind leaves.now slot }
{
    let (leaf, others) = leaves.split_first()?;
    if slot < leaf.slots {
        return Some(leaf.kind);
    }
    kind_of_slot(others, slot - leaf.slots)
}

// The answer of these two values to a GET of two values of FIXED(31).
fn both(kinds: &[Kind], heard: [i32; 2], beside: &mut Beside) -> Option<Heard>
    ensures { IfSome result (λ heard. AreOf kinds.now (answer_of heard beside.new)) }
{
    let (first, others) = kinds.split_first()?;
    let (second, rest) = others.split_first()?;
    if *first != Kind::Fixed(31) || *second != Kind::Fixed(31) || !rest.is_empty() {
        return None;
    }
    beside.many.clear();
    beside.many.push(number(heard[0]));
    beside.many.push(number(heard[1]));
    Some(Heard::Many)
}

// What is heard after an action, where it is the row's and the task goes on.
fn heard(code: &Valid, offer: &Offer, row: Row, beside: &mut Beside) -> Option<Heard>
    ensures { IfSome result (λ heard. (own : ℕ) → Answers code.now own (action_of offer.now) (answer_of heard beside.new)) }
{
    match (offer.what, row) {
        (What::Turn, Row::Turn) | (What::Enter, Row::Enter) => Some(Heard::Nothing),
        (What::Read(slot), Row::Read { slot: want, heard }) => {
            let kind = kind_of_slot(code.object().leaves.as_slice(), slot);
            if slot == want && kind == Some(Kind::Fixed(31)) {
                beside.one = number(heard);
                Some(Heard::One)
            } else {
                None
            }
        }
        (What::Write(slot), Row::Write { slot: want, value }) => {
            if slot == want && is_number(&offer.value, value) {
                Some(Heard::Nothing)
            } else {
                None
            }
        }
        (What::Put(0), Row::Put(want)) => {
            if offer.text.as_slice() == want.as_bytes() {
                Some(Heard::Nothing)
            } else {
                None
            }
        }
        (
            What::Get {
                device: 0,
                format: 1,
            },
            Row::Get { heard },
        ) => both(offer.kinds.as_slice(), heard, beside),
        _ => None,
    }
}

fn traps(what: What, row: Row) -> bool {
    match (what, row) {
        (What::Trap(trap), Row::Trap(want)) => trap == want,
        _ => false,
    }
}

// How many rows are left from the first on that the task doesn't keep to; a trap is the last that it keeps to.
fn left(
    code: &Valid,
    stack: &mut Loaded,
    rows: &[Row],
    offer: &mut Offer,
    beside: &mut Beside,
) -> usize
    requires stack { IsStack code.now stack.old.frames }
    requires room { room code.now stack.old.frames ≤ stack.old.room }
    requires most { length code.now.procedures + 1 ≤ stack.old.most }
{
    let Some((row, others)) = rows.split_first() else {
        return 0;
    };
    settle(code, stack, offer);
    if traps(offer.what, *row) {
        return others.len();
    }
    match heard(code, offer, *row, beside) {
        Some(heard) => {
            answer(code, stack, heard, beside);
            left(code, stack, others, offer, beside)
        }
        None => rows.len(),
    }
}

// The depth that the first task states.
fn first_depth(code: &Valid) -> Option<u64>
    ensures task { IfSome result (λ depth. 0 < length code.now.tasks) }
    ensures depth { IfSome result (λ depth. room code.now (begun code.now (length code.now.procedures + 0)) ≡ depth) }
    ensures few { IfSome result (λ depth. depth ≤ 4096) }
{
    let (task, _) = code.object().tasks.as_slice().split_first()?;
    if task.code.depth <= 4096 {
        Some(task.code.depth)
    } else {
        None
    }
}

// How many of the rows are left where the first task is begun and answered as they say.
fn rows_left(alloc: Global, code: &Valid) -> Result<usize, AllocError> {
    let frames = code.object().procedures.as_slice().len() + 1;
    match first_depth(code) {
        Some(depth) => {
            let mut stack = Parked::new(alloc, depth as usize, frames)?.load();
            let mut offer = Offer::new();
            let mut beside = Beside::new();
            begin(code, 0, &mut stack);
            Ok(left(code, &mut stack, &ROWS, &mut offer, &mut beside))
        }
        None => Ok(ROWS.len()),
    }
}

#[test]
fn a_task_offers_what_its_instructions_mean(rt: HostRuntime) -> Result<(), Fail> {
    let alloc = rt.alloc();
    let mut rows = ROWS.len();
    if let Ok(code) = verify(alloc, object(alloc)?) {
        rows = rows_left(alloc, &code)?;
    }
    assert!(rt; rows == 0, "{rows} rows are left");
    Ok(())
}

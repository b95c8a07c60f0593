// Lines by hand.

ghost use Rattle.std.specs.Prelude.{◌≡◌, IfOk, length};
ghost use Rattle.pearl_script.specs.Lines.{IsEventOf};

use crate::journal::task;
use arrayvec::ArrayVec;
use pearl_rules::event::{Event, Shown};
use pearl_rules::setup::Setup;
use pearl_script::refusal::{Refusal, refusal_line};
use pearl_script::transcript::{close_line, event_line, state_line};
use pearl_value::device::{Device, Direction};
use pearl_value::listing::Listing;
use pearl_value::trap::Trap;
use std::alloc::{AllocError, Global};
use std::test::Fail;

// Two tasks, and two devices with other numbers than their places.
fn two_of_each(alloc: Global) -> Result<Setup, AllocError>
    ensures { IfOk result (λ setup. (length setup.tasks ≡ 2) × (length setup.devices ≡ 2)) }
{
    let tasks = vec![in alloc; task(b"PUMP"), task(b"VALVE")]?;
    let devices = vec![in alloc;
        Device::Interrupt { number: 7 },
        Device::Terminal {
            number: 12,
            direction: Direction::Out
        },
    ]?;
    Ok(Setup {
        tasks: Listing::new(tasks),
        slots: Listing::new(Vec::new(alloc)),
        semaphores: Listing::new(Vec::new(alloc)),
        devices: Listing::new(devices),
        formats: Listing::new(Vec::new(alloc)),
    })
}

// Whether this is the line of the event.
fn is_line_of(moment: u64, event: &Event, setup: &Setup, want: &[u8]) -> bool
    requires { IsEventOf setup.now event.now }
{
    let mut line = ArrayVec::new();
    line.push(b'x');
    event_line(moment, event, setup, &mut line);
    line.as_slice() == want
}

// Of each event whether its line is the one that it is to have.
fn events_are_so(alloc: Global) -> Result<[bool; 5], AllocError> {
    let setup = two_of_each(alloc)?;
    let start = Event::Start {
        task: 1,
        priority: 20,
    };
    let first = Event::Kept { task: 1, number: 1 };
    let last = Event::Kept { task: 0, number: 3 };
    let mut text = ArrayVec::new();
    let _ = text.try_extend_from_slice(b"it's\n\\ 5");
    let out = Event::Out { device: 1, text };
    let want: &[u8] = b"18446744073709551615 out 12 'it''s\\n\\\\ 5'\n";
    Ok([
        is_line_of(0, &start, &setup, b"0 start VALVE 20\n"),
        is_line_of(15, &Event::End(0), &setup, b"15 end PUMP\n"),
        is_line_of(15, &first, &setup, b"15 kept VALVE 1\n"),
        is_line_of(16, &last, &setup, b"16 kept PUMP 3\n"),
        is_line_of(u64::MAX, &out, &setup, want),
    ])
}

#[test]
fn events(rt: HostRuntime) -> Result<(), Fail> {
    let lines = events_are_so(rt.alloc())?;
    for (number, is_so) in lines.iter().enumerate() {
        assert!(rt; *is_so, "event {number}");
    }
    Ok(())
}

static TRAPS: [(Trap, &[u8]); 6] = [
    (Trap::Overflow, b"3 trap PUMP Overflow\n"),
    (Trap::ZeroDivide, b"3 trap PUMP ZeroDivide\n"),
    (Trap::Index, b"3 trap PUMP Index\n"),
    (Trap::Range, b"3 trap PUMP Range\n"),
    (Trap::Format, b"3 trap PUMP Format\n"),
    (Trap::SemaLimit, b"3 trap PUMP SemaLimit\n"),
];

// The first trap with another line.
fn first_other_trap(alloc: Global) -> Result<Option<usize>, AllocError> {
    let setup = two_of_each(alloc)?;
    for (number, &(trap, want)) in TRAPS.iter().enumerate() {
        let event = Event::Trap { task: 0, trap };
        if !is_line_of(3, &event, &setup, want) {
            return Ok(Some(number));
        }
    }
    Ok(None)
}

#[test]
fn traps(rt: HostRuntime) -> Result<(), Fail> {
    if let Some(number) = first_other_trap(rt.alloc())? {
        assert!(rt; false, "trap {number}");
    }
    Ok(())
}

// Whether this is the line of the task's state.
fn is_state_line(shown: &Shown, want: &[u8]) -> bool {
    let mut line = ArrayVec::new();
    line.push(b'x');
    state_line(100, b"PUMP", shown, &mut line);
    line.as_slice() == want
}

#[test]
fn states(rt: HostRuntime) {
    let table: [(Shown, &[u8]); 5] = [
        (Shown::Dormant, b"100 state PUMP dormant\n"),
        (Shown::Suspended(1), b"100 state PUMP suspended 1\n"),
        (Shown::Blocked(255), b"100 state PUMP blocked 255\n"),
        (Shown::Running(10), b"100 state PUMP running 10\n"),
        (Shown::Runnable(10), b"100 state PUMP runnable 10\n"),
    ];
    for (number, (shown, want)) in table.iter().enumerate() {
        assert!(rt; is_state_line(shown, want), "row {number}");
    }
}

#[test]
fn a_close(rt: HostRuntime) {
    let mut line = ArrayVec::new();
    line.push(b'x');
    close_line(86400000, &mut line);
    assert!(rt; line.as_slice() == b"86400000 close\n".as_slice());
}

// Whether this is the line of the refusal.
fn is_refusal_line(refusal: &Refusal, want: &[u8]) -> bool {
    let mut line = ArrayVec::new();
    line.push(b'x');
    refusal_line(refusal, &mut line);
    line.as_slice() == want
}

#[test]
fn refusals(rt: HostRuntime) {
    let table: [(Refusal, &[u8]); 10] = [
        (Refusal::Usage, b"error usage\n"),
        (Refusal::Syntax(0), b"error syntax 0\n"),
        (
            Refusal::Source {
                place: 120,
                rule: 9,
            },
            b"error source 120 S9\n",
        ),
        (
            Refusal::Journal { line: 4, code: 1 },
            b"error journal 4 1\n",
        ),
        (Refusal::Read, b"error read\n"),
        (Refusal::Memory, b"error memory\n"),
        (Refusal::TooLong(1_048_577), b"error too long 1048577\n"),
        (Refusal::Snapshot(23), b"error snapshot 23\n"),
        (Refusal::State(5), b"error snapshot state N5\n"),
        (Refusal::Name(2), b"error name 2\n"),
    ];
    for (number, (refusal, want)) in table.iter().enumerate() {
        assert!(rt; is_refusal_line(refusal, want), "row {number}");
    }
}

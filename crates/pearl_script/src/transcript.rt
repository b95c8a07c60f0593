// The lines of a transcript.

ghost use Rattle.std.specs.Prelude.{◌≡◌, ◌+◌, ◌<◌, ◌≤◌, ◌++◌, codes, length};
ghost use Rattle.std.specs.Fmt.{decimal};
ghost use Rattle.pearl_script.specs.Lines.{IsEventOf, close_line, event_line, state_line};
ghost use Rattle.pearl_script.specs.Words.{device_number, sort_word, task_name, trap_word};

use crate::literal::push_literal;
use crate::piece::{push_bytes, push_number, push_spelled};
use arrayvec::ArrayVec;
use pearl_rules::event::{Event, Shown};
use pearl_rules::setup::Setup;
use pearl_value::device::Device;
use pearl_value::trap::Trap;

/// Makes `into` the line of an event, whatever it held before.
pub fn event_line(moment: u64, event: &Event, setup: &Setup, into: &mut ArrayVec<u8, 2304>)
    requires { IsEventOf setup.now event.now }
    ensures { into.new.items ≡ event_line moment event.now setup.now }
{
    match event {
        Event::Start { task, priority } => {
            begin(moment, b" start ", into);
            push_bytes(name_of(setup, *task), into);
            push_last(b" ", *priority, into);
        }
        Event::End(task) => task_line(moment, b" end ", name_of(setup, *task), into),
        Event::Stop(task) => task_line(moment, b" stop ", name_of(setup, *task), into),
        Event::Trap { task, trap } => {
            begin(moment, b" trap ", into);
            push_bytes(name_of(setup, *task), into);
            push_bytes(b" ", into);
            push_bytes(word_of(*trap), into);
            push_bytes(b"\n", into);
        }
        Event::Kept { task, number } => {
            begin(moment, b" kept ", into);
            push_bytes(name_of(setup, *task), into);
            push_last(b" ", *number, into);
        }
        Event::Overrun(task) => task_line(moment, b" overrun ", name_of(setup, *task), into),
        Event::Masked(device) => {
            begin(moment, b" masked", into);
            push_last(b" ", number_at(setup, *device), into);
        }
        Event::Lost(device) => {
            begin(moment, b" lost ", into);
            push_bytes(sort_at(setup, *device), into);
            push_last(b" ", number_at(setup, *device), into);
        }
        Event::Out { device, text } => {
            begin(moment, b" out ", into);
            push_number(u64::from(number_at(setup, *device)), into);
            push_bytes(b" '", into);
            push_spelled(text.as_slice(), into);
            push_bytes(b"'\n", into);
        }
        Event::Send { device, value } => {
            begin(moment, b" send ", into);
            push_number(u64::from(number_at(setup, *device)), into);
            push_bytes(b" ", into);
            push_literal(value, into);
            push_bytes(b"\n", into);
        }
    }
}

/// Makes `into` the line that says how the task of this name stands, whatever it held before.
pub fn state_line(moment: u64, name: &[u8], shown: &Shown, into: &mut ArrayVec<u8, 2304>)
    requires { length name.now ≤ 63 }
    ensures { into.new.items ≡ state_line moment name.now shown.now }
{
    begin(moment, b" state ", into);
    push_bytes(name, into);
    match *shown {
        Shown::Dormant => push_bytes(b" dormant\n", into),
        Shown::Suspended(priority) => push_last(b" suspended ", priority, into),
        Shown::Blocked(priority) => push_last(b" blocked ", priority, into),
        Shown::Running(priority) => push_last(b" running ", priority, into),
        Shown::Runnable(priority) => push_last(b" runnable ", priority, into),
    }
}

/// Makes `into` the last line of a transcript, whatever it held before.
pub fn close_line(moment: u64, into: &mut ArrayVec<u8, 2304>)
    ensures { into.new.items ≡ close_line moment }
{
    begin(moment, b" close\n", into);
}

// Makes `into` the moment and a word.
fn begin(moment: u64, word: &[u8], into: &mut ArrayVec<u8, 2304>)
    requires { length word.now ≤ 20 }
    ensures text { into.new.items ≡ decimal moment ++ word.now }
    ensures len { length into.new.items ≤ 20 + length word.now }
{
    into.clear();
    push_number(moment, into);
    push_bytes(word, into);
}

// Makes `into` the moment, a word, a task's name and the line end.
fn task_line(moment: u64, word: &[u8], name: &[u8], into: &mut ArrayVec<u8, 2304>)
    requires short { length word.now ≤ 20 }
    requires fits { length name.now ≤ 63 }
    ensures { into.new.items ≡ decimal moment ++ word.now ++ name.now ++ codes "\n" }
{
    begin(moment, word, into);
    push_bytes(name, into);
    push_bytes(b"\n", into);
}

// Appends a word, a number and the line end.
fn push_last(word: &[u8], number: u8, into: &mut ArrayVec<u8, 2304>)
    requires { length into.old.items + length word.now + 21 ≤ 2304 }
    ensures { into.new.items ≡ into.old.items ++ word.now ++ decimal number ++ codes "\n" }
{
    push_bytes(word, into);
    push_number(u64::from(number), into);
    push_bytes(b"\n", into);
}

fn name_of(setup: &Setup, task: u32) -> &[u8]
    requires { task < length setup.now.tasks }
    ensures name { result.now ≡ task_name setup.now task }
    ensures fits { length result.now ≤ 63 }
{
    setup.tasks.as_slice()[task as usize].name.as_slice()
}

fn number_at(setup: &Setup, device: u32) -> u8
    requires { device < length setup.now.devices }
    ensures { result ≡ device_number setup.now device }
{
    match setup.devices.as_slice()[device as usize] {
        Device::Interrupt { number } => number,
        Device::Terminal { number, .. } => number,
        Device::Input { number, .. } => number,
        Device::Output { number, .. } => number,
    }
}

fn sort_at(setup: &Setup, device: u32) -> &'static [u8]
    requires { device < length setup.now.devices }
    ensures word { result.now ≡ sort_word setup.now device }
    ensures short { length result.now ≤ 10 }
{
    match setup.devices.as_slice()[device as usize] {
        Device::Interrupt { .. } => b"interrupt",
        Device::Terminal { .. } => b"terminal",
        Device::Input { .. } => b"input",
        Device::Output { .. } => b"output",
    }
}

fn word_of(trap: Trap) -> &'static [u8]
    ensures word { result.now ≡ trap_word trap }
    ensures short { length result.now ≤ 10 }
{
    match trap {
        Trap::Overflow => b"Overflow",
        Trap::ZeroDivide => b"ZeroDivide",
        Trap::Index => b"Index",
        Trap::Range => b"Range",
        Trap::Format => b"Format",
        Trap::SemaLimit => b"SemaLimit",
    }
}

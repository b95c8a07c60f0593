// Devices and the rules S10 to S14 of small modules, worked out by hand.

use crate::cases::{STOP, expect, places_of, show_faults, tree_of};
use pearl_system::device::{Role, SpecifiedDevice};
use pearl_system::system;
use pearl_tree::typing::{Basic, Sort};
use pearl_value::device::Direction;
use std::alloc::{AllocError, Global};
use std::test::Fail;

// Each module with the rules that are broken at its marks, and its devices, as `shown` writes them.
static MODULES: [(&str, &str); 26] = table![
    "MODULE;PROBLEM;MODEND" => "";
    "MODULE;SYSTEM;a:^FOO(1);PROBLEM;MODEND" => "S11 ";
    "MODULE;SYSTEM;a:^INPUT(0);PROBLEM;MODEND" => "S11 ";
    "MODULE;SYSTEM;a:^OUTPUT(100);PROBLEM;MODEND" => "S11 ";
    "MODULE;SYSTEM;a:IRPT(1);b:OUTPUT(99);PROBLEM;MODEND" => "";
    "MODULE;SYSTEM;a:INPUT(1);^a:INPUT(2);PROBLEM;MODEND" => "S10 ";
    "MODULE;SYSTEM;a:INPUT(1);^b:INPUT(1);PROBLEM;MODEND" => "S12 ";
    "MODULE;SYSTEM;a:INPUT(1);^b:INPUT(01);PROBLEM;MODEND" => "S12 ";
    "MODULE;SYSTEM;a:^FOO(1);^^a:^FOO(1);PROBLEM;MODEND" => "S11 S10 S12 S11 ";
    "MODULE;SYSTEM;a:INTERRUPT(7);^b:IRPT(7);PROBLEM;MODEND" => "S12 ";
    "MODULE;SYSTEM;a:INPUT(1);b:OUTPUT(1);PROBLEM;MODEND" => "";
    "MODULE;PROBLEM;SPC ^a INTERRUPT;MODEND" => "S13 ";
    "MODULE;SYSTEM;a:INPUT(1);PROBLEM;SPC ^a IRPT;MODEND" => "S13 ";
    "MODULE;SYSTEM;a:^FOO(1);PROBLEM;SPC ^a IRPT;MODEND" => "S11 S13 ";
    "MODULE;SYSTEM;a:^FOO(1);PROBLEM;SPC a DATION IN ALPHIC;MODEND" => "S11 ";
    "MODULE;SYSTEM;a:IRPT(1);PROBLEM;SPC ^a DATION IN ALPHIC;MODEND" => "S13 ";
    "MODULE;SYSTEM;a:TERMINAL(1);PROBLEM;SPC ^a DATION IN BASIC BIT;MODEND" => "S14 ";
    "MODULE;SYSTEM;a:INPUT(1);PROBLEM;SPC ^a DATION OUT BASIC BIT;MODEND" => "S14 ";
    "MODULE;SYSTEM;a:INPUT(1);PROBLEM;SPC ^a DATION IN ALPHIC;MODEND" => "S14 ";
    "MODULE;SYSTEM;a:OUTPUT(1);PROBLEM;SPC ^a DATION INOUT BASIC BIT;MODEND" => "S14 ";
    "MODULE;SYSTEM;a:OUTPUT(1);PROBLEM;SPC ^a DATION OUT ALPHIC;MODEND" => "S14 ";
    "MODULE;SYSTEM;a:IRPT(3);PROBLEM;SPC a IRPT;MODEND" => "a=I3 ";
    "MODULE;SYSTEM;b:OUTPUT(2);a:OUTPUT(1);t:TERMINAL(9);i:INPUT(5);q:IRPT(8);PROBLEM;\
        SPC (b,a) DATION OUT BASIC FIXED(15),t DATION INOUT ALPHIC;\
        SPC i DATION IN BASIC CLOCK,q INTERRUPT;MODEND"
        => "q=I8 t=T9+ i=R5clock a=W1fixed15 b=W2fixed15 ";
    "MODULE;SYSTEM;a:IRPT(3);^b:IRPT(3);PROBLEM;SPC (b,a) IRPT;MODEND" => "S12 b=I3 ";
    "MODULE;SYSTEM;a:IRPT(3);^a:TERMINAL(4);PROBLEM;SPC a IRPT;MODEND" => "S10 a=I3 ";
    "MODULE;SYSTEM;t:TERMINAL(1);PROBLEM;SPC (t,^u) DATION OUT ALPHIC,^v IRPT;MODEND"
        => "S13 S13 t=T1> ";
];

// Writes a basic type.
fn show_basic(into: &mut String, basic: Basic) -> Result<(), AllocError> {
    match basic {
        Basic::Sized { sort, number, .. } => {
            let word = match sort {
                Sort::Fixed => "fixed",
                Sort::Bit => "bit",
                Sort::Char => "char",
            };
            into.push_str(word)?;
            match number {
                Some(length) => write!(into, "{}", length.value),
                None => Ok(()),
            }
        }
        Basic::Clock { .. } => into.push_str("clock"),
        Basic::Duration { .. } => into.push_str("duration"),
    }
}

// Writes the name of one letter, what the device is, and its number.
fn show_device(into: &mut String, device: &SpecifiedDevice) -> Result<(), AllocError> {
    let letter = device.text.as_slice().first().copied().unwrap_or(b'?');
    write!(into, "{}=", char::from(letter))?;
    match device.role {
        Role::Interrupt => write!(into, "I{}", device.number)?,
        Role::Terminal { direction } => {
            let sign = match direction {
                Direction::In => "<",
                Direction::Out => ">",
                Direction::InOut => "+",
            };
            write!(into, "T{}{sign}", device.number)?;
        }
        Role::Input { basic } => {
            write!(into, "R{}", device.number)?;
            show_basic(into, basic)?;
        }
        Role::Output { basic } => {
            write!(into, "W{}", device.number)?;
            show_basic(into, basic)?;
        }
    }
    into.push_str(" ")
}

// The broken rules of a module and its devices, each with a blank behind it, or what it has in place of them. A rule that
// isn't told at its mark has its place in front.
fn shown(alloc: Global, case: &[u8]) -> Result<String, AllocError> {
    let Some(tree) = tree_of(alloc, case) else {
        return String::from_str(alloc, "no tree");
    };
    let places = places_of(alloc, case, STOP)?;
    let mut text = String::new(alloc);
    let Ok((devices, faults)) = system(alloc, &tree) else {
        return Err(AllocError);
    };
    show_faults(&mut text, faults.as_slice(), places.as_slice())?;
    for device in devices.as_slice() {
        show_device(&mut text, device)?;
    }
    Ok(text)
}

#[test]
fn modules_have_their_devices_and_faults(rt: HostRuntime) -> Result<(), Fail> {
    for &(case, expected) in &MODULES {
        let found = shown(rt.alloc(), case.as_bytes())?;
        expect(&rt, found.as_str() == expected, case);
    }
    Ok(())
}

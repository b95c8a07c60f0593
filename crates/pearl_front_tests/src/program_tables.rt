// The calls that make tables of a program, each by itself.

use crate::cases::tree_of;
use crate::program_text::{put_devices, put_formats, put_leaves, put_semaphores};
use pearl_names::table::table_of;
use pearl_resolve_tables::devices::program_devices;
use pearl_resolve_tables::formats::module_formats;
use pearl_resolve_tables::leaves::add_leaves;
use pearl_resolve_tables::presets::module_presets;
use pearl_resolve_tables::values::left_behind;
use pearl_system::system;
use pearl_tree::declaration::{Declared, Item};
use pearl_tree::tree::{Decl, Tree};
use std::alloc::Global;

// The first variables that a module declares.
fn first_item(tree: &Tree) -> Option<&Item> {
    match tree.declarations.as_slice().first()? {
        Decl::Declare { declared, .. } => match declared.as_slice().first()? {
            Declared::Item(item) => Some(item),
            Declared::Sema(_) => None,
        },
        _ => None,
    }
}

// The leaves of the first name of a module, how many slots they take, and how many constants are left behind two slots.
fn leaves_of(alloc: Global, source: &[u8]) -> Option<String> {
    let tree = tree_of(alloc, source)?;
    let table = table_of(alloc, &tree).ok()?;
    let sense = table.senses_in(0).first()?;
    let constants = first_item(&tree)?.init.as_slice();
    let mut leaves = Vec::new(alloc);
    let slots = add_leaves(alloc, table.forms(), sense, b"w", constants, &mut leaves).ok()?;
    let mut text = String::new(alloc);
    put_leaves(&mut text, leaves.as_slice()).ok()?;
    let left = left_behind(2, constants).len();
    write!(text, "{slots} slots, {left} left").ok()?;
    Some(text)
}

fn presets_of(alloc: Global, source: &[u8]) -> Option<String> {
    let tree = tree_of(alloc, source)?;
    let presets = module_presets(alloc, &tree).ok()?;
    let mut text = String::new(alloc);
    put_semaphores(&mut text, presets.as_slice()).ok()?;
    Some(text)
}

fn formats_of(alloc: Global, source: &[u8]) -> Option<String> {
    let tree = tree_of(alloc, source)?;
    let formats = module_formats(alloc, &tree).ok()?;
    let mut text = String::new(alloc);
    put_formats(&mut text, formats.as_slice()).ok()?;
    Some(text)
}

fn devices_of(alloc: Global, source: &[u8]) -> Option<String> {
    let tree = tree_of(alloc, source)?;
    let table = table_of(alloc, &tree).ok()?;
    let (specified, _) = system(alloc, &tree).ok()?;
    let devices = program_devices(alloc, table.lengths(), specified.as_slice()).ok()?;
    let mut text = String::new(alloc);
    put_devices(&mut text, devices.as_slice()).ok()?;
    Some(text)
}

// What is asked of a module.
#[derive(Clone, Copy)]
enum Of {
    Leaves,
    Presets,
    Formats,
    Devices,
}

// Leaves are filled in order, presets go by name, each transfer has a format, and devices are in order.
static ROWS: [(Of, &[u8], &str); 4] = [
    (
        Of::Leaves,
        b"MODULE;PROBLEM;DCL w(2) STRUCT[m FIXED,n CHAR] INIT(5,6,'a');MODEND",
        "w.m F31*2=F31:5=F31:6;w.n C1*2='a';4 slots, 1 left",
    ),
    (
        Of::Presets,
        b"MODULE;PROBLEM;DCL (s,u) SEMA PRESET(2,5),v SEMA;DCL w SEMA PRESET(7);MODEND",
        "sema 2;sema 5;sema 0;sema 7;",
    ),
    (
        Of::Formats,
        b"MODULE;PROBLEM;t:TASK;IF b THEN PUT a TO d BY F(3),B;ELSE GET a FROM d BY B4(2),SKIP(2);FIN;PUT TO d BY X;END;MODEND",
        "format F(3),B1(0),;format B4(2),Skip(2),;format X(0),;",
    ),
    (
        Of::Devices,
        b"MODULE;SYSTEM;o:OUTPUT(5);i:INPUT(4);y:TERMINAL(8);x:TERMINAL(3);q:INTERRUPT(1);PROBLEM;LENGTH CHAR(9);SPC o DATION OUT BASIC CHAR,i DATION IN BASIC CLOCK,(x,y) DATION IN ALPHIC,q INTERRUPT;MODEND",
        "interrupt 1;terminal 3 In;terminal 8 In;input 4 T;output 5 C9;",
    ),
];

fn is_told(alloc: Global, of: Of, source: &[u8], expected: &str) -> bool {
    let found = match of {
        Of::Leaves => leaves_of(alloc, source),
        Of::Presets => presets_of(alloc, source),
        Of::Formats => formats_of(alloc, source),
        Of::Devices => devices_of(alloc, source),
    };
    match found {
        Some(text) => text.as_str() == expected,
        None => false,
    }
}

#[test]
fn modules_have_these_tables(rt: HostRuntime) {
    for (number, &(of, source, expected)) in ROWS.iter().enumerate() {
        assert!(rt; is_told(rt.alloc(), of, source, expected), "row {number}");
    }
}

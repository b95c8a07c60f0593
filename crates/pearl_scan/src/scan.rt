// How GET reads values from the bytes that wait at a terminal.

ghost use Rattle.std.specs.Prelude.{◌≡◌, ◌≤◌, length};
ghost use Rattle.std.specs.List.{AllByRecursion};
ghost use Rattle.pearl_value.specs.Kinds.{IsKind};
ghost use Rattle.pearl_rules.specs.Scan as spec;
ghost use Rattle.pearl_scan.specs.Answers as answers;

use crate::item::{Found, scan_item};
use arrayvec::ArrayVec;
use pearl_format::item::Item;
use pearl_value::cell::Cell;
use pearl_value::kind::Kind;

/// What a GET finds in the bytes that wait.
#[derive(Drop)]
pub enum Scanned {
    /// A field or line ends aren't all there yet, and no field before them is bad.
    Short,
    /// The first bad field ends behind so many bytes.
    Bad(usize),
    /// The values of the targets, in order, in so many bytes.
    Got(usize, ArrayVec<Cell, 64>),
}

/// Reads values for targets of these kinds from the front of the bytes, item by item. An item that doesn't suit its
/// target finds a bad field.
pub fn scan(items: &[Item], kinds: &[Kind], bytes: &[u8]) -> Scanned
    requires few { length kinds.now ≤ 64 }
    requires are { AllByRecursion IsKind kinds.now }
    requires near { length bytes.now ≤ 4096 }
    ensures { answers.told result ≡ spec.scan items.now kinds.now bytes.now }
{
    let mut used = 0;
    let mut values = ArrayVec::new();
    for item in items {
        let rest = &kinds[values.len()..];
        match scan_item(item, rest, &bytes[used..]) {
            Found::Short => return Scanned::Short,
            Found::Bad(more) => return Scanned::Bad(used + more),
            Found::Passed(more) => used += more,
            Found::Value(more, value) => {
                used += more;
                values.push(value);
            }
        }
    }
    Scanned::Got(used, values)
}

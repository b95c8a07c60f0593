// What one item finds at the front of the bytes.

ghost use Rattle.std.specs.Prelude.{◌≡◌, ◌≢◌, ◌≤◌, ◌<◌, [], ◌∷◌, Option, Some, None, IfSome, IfNone, length, take, drop};
ghost use Rattle.std.specs.List.{AllByRecursion};
ghost use Rattle.pearl_value.specs.Kinds.{IsKind};
ghost use Rattle.pearl_format.specs.Items as items;
ghost use Rattle.pearl_format.specs.declared.item.ItemCode.TheVariants as code;
ghost use Rattle.pearl_format.specs.Fields as fields;
ghost use Rattle.pearl_rules.specs.Scan as spec;
ghost use Rattle.pearl_scan.specs.Answers as answers;

use crate::field::{field, field_value};
use crate::mark::place_of;
use pearl_format::item::{Item, ItemCode};
use pearl_value::cell::Cell;
use pearl_value::kind::Kind;

/// What one item finds.
#[derive(Drop)]
pub(crate) enum Found {
    /// The field, or the line ends, aren't all there yet.
    Short,
    /// A bad field, that ends behind so many bytes.
    Bad(usize),
    /// So many bytes, and no value.
    Passed(usize),
    /// A value, in so many bytes.
    Value(usize, Cell),
}

pub(crate) fn width_or(width: u8, own: usize) -> usize
    ensures { result ≡ fields.width_or width own }
{
    if width == 0 { own } else { width as usize }
}

fn bits_width(group: u8, width: u8, kinds: &[Kind]) -> usize
    requires { 0 < group }
    ensures { result ≡ items.bits_width group width kinds.now }
{
    match kinds.first() {
        Some(Kind::Bits(len)) => width_or(
            width,
            (*len as usize + (group as usize - 1)) / group as usize,
        ),
        _ => width as usize,
    }
}

// The width of an item for the targets that are left.
pub(crate) fn width_over(item: &Item, kinds: &[Kind]) -> usize
    ensures { result ≡ items.width_over item.now.code item.now.width kinds.now }
{
    match item.code {
        ItemCode::A => match kinds.first() {
            Some(Kind::Chars(len)) => width_or(item.width, *len as usize),
            _ => item.width as usize,
        },
        ItemCode::B1 => bits_width(1, item.width, kinds),
        ItemCode::B2 => bits_width(2, item.width, kinds),
        ItemCode::B3 => bits_width(3, item.width, kinds),
        ItemCode::B4 => bits_width(4, item.width, kinds),
        ItemCode::F | ItemCode::T | ItemCode::D => item.width as usize,
        ItemCode::X | ItemCode::Skip => width_or(item.width, 1),
    }
}

// How many bytes come up to and with so many line ends; none where these aren't all there yet.
fn lines_length(count: usize, bytes: &[u8]) -> Option<usize>
    ensures value { result ≡ spec.lines_length count bytes.now }
    ensures within { IfSome result (λ used. used ≤ length bytes.now) }
{
    let mut used = 0;
    for _ in 0..count {
        let rest = &bytes[used..];
        let end = place_of(b'\n', rest);
        if end == rest.len() {
            return None;
        }
        used += end + 1;
    }
    Some(used)
}

// What an item with a field finds.
fn in_field(item: &Item, kinds: &[Kind], bytes: &[u8]) -> Found
    requires are { AllByRecursion IsKind kinds.now }
    requires field { item.now.code ≢ code.Skip }
    ensures found { answers.found result ≡ spec.if_complete
        (spec.field (items.width_over item.now.code item.now.width kinds.now) bytes.now)
        (λ text. spec.field_values item.now.code kinds.now text) }
    ensures room { answers.HasRoom item.now.code (length kinds.now) (length bytes.now) result }
{
    let Some(text) = field(width_over(item, kinds), bytes) else {
        return Found::Short;
    };
    if item.code == ItemCode::X {
        return Found::Passed(text.len());
    }
    let Some(kind) = kinds.first() else {
        return Found::Bad(text.len());
    };
    match field_value(item.code, *kind, text) {
        Some(value) => Found::Value(text.len(), value),
        None => Found::Bad(text.len()),
    }
}

/// What one item finds at the front of the bytes, for the targets that are left.
pub(crate) fn scan_item(item: &Item, kinds: &[Kind], bytes: &[u8]) -> Found
    requires { AllByRecursion IsKind kinds.now }
    ensures found { answers.found result ≡ spec.scan_item item.now.code item.now.width kinds.now bytes.now }
    ensures room { answers.HasRoom item.now.code (length kinds.now) (length bytes.now) result }
{
    if item.code == ItemCode::Skip {
        return match lines_length(width_or(item.width, 1), bytes) {
            Some(used) => Found::Passed(used),
            None => Found::Short,
        };
    }
    in_field(item, kinds, bytes)
}

// The limits of lists of semaphores, of bounds and of formats.

ghost use Rattle.std.specs.Prelude.{◌≡◌, ◌≤◌, ◌<◌, ◌+◌, ◌-ℤ◌, unsigned_abs, int_le, List, length, map, nat_le, option_map};
ghost use Rattle.std.specs.List.{list_all};
ghost use Rattle.pearl_format.specs.Fields.{digit_count};
ghost use Rattle.pearl_format.specs.Items.{letters_width, bits_width, width_over};
ghost use Rattle.pearl_format.specs.declared.item.Item.{Item};
ghost use Rattle.pearl_instructions.specs.Offers.{item_suits, takes_kind};
ghost use Rattle.pearl_instructions.specs.Objects.{items_at};
ghost use Rattle.pearl_instructions.specs.Named.{read_cells};
ghost use Rattle.pearl_instructions.specs.Valid.{is_repeated, are_different, is_semaphore_list, extent, elements, is_array, plain_kinds, suits_format, values_suit, cells_suit, v12};
ghost use Rattle.pearl_verify.specs.Formats.{format_row, row_fits};

use crate::formats::{FormatRow, data_here, width_or};
use crate::kinds::Kinds;
use crate::table::cells_at;
use arrayvec::ArrayVec;
use pearl_format::item::{Item, ItemCode};
use pearl_instructions::instr::{Bounds, Instr, Reading};
use pearl_instructions::object::{Code, Parts};
use pearl_value::kind::{CellKind, Kind};

fn is_repeated(number: u64, numbers: &[u64]) -> bool
    ensures { result ≡ is_repeated number numbers.now }
{
    for other in numbers {
        if *other == number {
            return true;
        }
    }
    false
}

fn are_different(numbers: &[u64]) -> bool
    ensures { result ≡ are_different numbers.now }
{
    for i in 0..numbers.len() {
        if is_repeated(numbers[i], &numbers[i + 1..]) {
            return false;
        }
    }
    true
}

/// Whether a list has 1 to 16 numbers, none of them twice.
fn is_semaphore_list(numbers: &[u64]) -> bool
    ensures { result ≡ is_semaphore_list numbers.now }
{
    1 <= numbers.len() && numbers.len() <= 16 && are_different(numbers)
}

fn extent(bounds: Bounds) -> u64
    ensures value { result ≡ extent bounds }
    ensures most { result ≤ 4294967296 }
{
    (bounds.high as i64 - bounds.low as i64).unsigned_abs() + 1
}

fn are_ordered(bounds: &[Bounds]) -> bool
    ensures { result ≡ list_all (λ b. int_le b.low b.high) bounds.now }
{
    for pair in bounds {
        if pair.low > pair.high {
            return false;
        }
    }
    true
}

/// Whether there are at most 65,536 elements.
fn are_few(bounds: &[Bounds]) -> bool
    ensures { result ≡ nat_le (elements bounds.now) 65536 }
{
    let mut size = 1;
    for pair in bounds {
        size *= extent(*pair);
        if size > 65536 {
            return false;
        }
    }
    true
}

fn is_array(bounds: &[Bounds]) -> bool
    ensures { result ≡ is_array bounds.now }
{
    1 <= bounds.len() && bounds.len() <= 3 && are_ordered(bounds) && are_few(bounds)
}

fn takes_kind(code: ItemCode, kind: Kind) -> bool
    ensures { result ≡ takes_kind code kind }
{
    match (code, kind) {
        (ItemCode::A, Kind::Chars(_)) => true,
        (ItemCode::B1, Kind::Bits(_)) => true,
        (ItemCode::B2, Kind::Bits(_)) => true,
        (ItemCode::B3, Kind::Bits(_)) => true,
        (ItemCode::B4, Kind::Bits(_)) => true,
        (ItemCode::F, Kind::Fixed(_)) => true,
        (ItemCode::T, Kind::Clock) => true,
        (ItemCode::D, Kind::Span) => true,
        _ => false,
    }
}

/// How many digits of so many bits stand for so many bits.
fn digit_count(group: u8, len: u8) -> u8
    requires some { 0 < group }
    requires few { group ≤ 4 }
    ensures { result ≡ digit_count group len }
{
    ((len as u16 + (group as u16 - 1)) / group as u16) as u8
}

fn letters_width(width: u8, kinds: &[Kind]) -> u8
    ensures { result ≡ letters_width width kinds.now }
{
    match kinds.first() {
        Some(Kind::Chars(len)) => width_or(width, *len),
        _ => width,
    }
}

fn bits_width(group: u8, width: u8, kinds: &[Kind]) -> u8
    requires some { 0 < group }
    requires few { group ≤ 4 }
    ensures { result ≡ bits_width group width kinds.now }
{
    match kinds.first() {
        Some(Kind::Bits(len)) => width_or(width, digit_count(group, *len)),
        _ => width,
    }
}

/// The width of an item, the kinds that are left being these.
fn width_over(item: Item, kinds: &[Kind]) -> u8
    ensures { result ≡ width_over item.code item.width kinds.now }
{
    match item.code {
        ItemCode::A => letters_width(item.width, kinds),
        ItemCode::B1 => bits_width(1, item.width, kinds),
        ItemCode::B2 => bits_width(2, item.width, kinds),
        ItemCode::B3 => bits_width(3, item.width, kinds),
        ItemCode::B4 => bits_width(4, item.width, kinds),
        ItemCode::F => item.width,
        ItemCode::T => item.width,
        ItemCode::D => item.width,
        ItemCode::X => width_or(item.width, 1),
        ItemCode::Skip => width_or(item.width, 1),
    }
}

/// Whether the first of the kinds that are left suits the item, where it takes a value.
fn item_suits(code: ItemCode, kinds: &[Kind]) -> bool
    ensures { result ≡ item_suits code kinds.now }
{
    match code {
        ItemCode::X => true,
        ItemCode::Skip => true,
        _ => match kinds.first() {
            Some(kind) => takes_kind(code, *kind),
            None => false,
        },
    }
}

/// Whether the items with a value take just these kinds, and with the others they are at most 1,024 wide.
fn row_fits(row: &FormatRow, kinds: &[Kind]) -> bool
    ensures { result ≡ row_fits row.now kinds.now }
{
    if row.blank > 1024 {
        return false;
    }
    let mut width = row.blank as u32;
    let mut at = 0;
    for item in row.values.as_slice() {
        let rest = &kinds[at..];
        width += width_over(*item, rest) as u32;
        if width > 1024 || !item_suits(item.code, rest) {
            return false;
        }
        at += data_here(item.code);
    }
    at == kinds.len()
}

/// The kinds of cells, where none of them is a reference.
fn plain_kinds(cells: &[CellKind]) -> Option<ArrayVec<Kind, 64>>
    requires { length cells.now ≤ 64 }
    ensures { plain_kinds cells.now ≡ option_map (λ kinds. kinds.items) result }
{
    let mut kinds = ArrayVec::new();
    for cell in cells {
        match cell {
            CellKind::Plain(of) => kinds.try_push(*of).unwrap(),
            CellKind::RefTo(_) => return None,
        }
    }
    Some(kinds)
}

/// Whether a format's items suit these kinds, are at most 64 that take a value, and at most 1,024 wide together. At most
/// 65 items are looked at: each takes one of at most 64 kinds.
fn suits_format(row: &FormatRow, cells: &[CellKind]) -> bool
    ensures { (items : List Item) → row.now ≡ format_row items → result ≡ suits_format items (plain_kinds cells.now) }
{
    if cells.len() > 64 {
        return false;
    }
    match plain_kinds(cells) {
        Some(kinds) => row_fits(row, kinds.as_slice()),
        None => false,
    }
}

fn values_suit(object: &Parts, formats: &[FormatRow], format: u64, kinds: &Kinds) -> bool
    requires { formats.now ≡ map format_row object.now.formats }
    ensures { result ≡ values_suit (items_at object.now format) kinds.now }
{
    match formats.get(format as usize) {
        Some(row) => suits_format(row, kinds.top(row.count)),
        None => false,
    }
}

fn cells_suit(object: &Parts, code: &Code, formats: &[FormatRow], reading: Reading) -> bool
    requires { formats.now ≡ map format_row object.now.formats }
    ensures { result ≡ cells_suit (items_at object.now reading.format) (read_cells code.now reading.first (items_at object.now reading.format)) }
{
    match formats.get(reading.format as usize) {
        Some(row) => suits_format(row, cells_at(code, reading.first, row.count as u64)),
        None => false,
    }
}

/// Whether lists of semaphores, bounds and formats keep their limits (V12).
pub(crate) fn keeps_limits(
    object: &Parts,
    code: &Code,
    formats: &[FormatRow],
    instr: &Instr,
    kinds: &Kinds,
) -> bool
    requires { formats.now ≡ map format_row object.now.formats }
    ensures { result ≡ v12 object.now code.now instr.now kinds.now }
{
    match instr {
        Instr::Request(list) | Instr::Release(list) => is_semaphore_list(list.get().as_slice()),
        Instr::Index(bounds) => is_array(bounds.get().as_slice()),
        Instr::Put { format, .. } => values_suit(object, formats, *format, kinds),
        Instr::Get(reading) => cells_suit(object, code, formats, *reading.get()),
        _ => true,
    }
}

// What is kept of each format, so that an instruction that names it needn't look through it again.

ghost use Rattle.std.specs.Prelude.{◌≡◌, ◌≤◌, ◌+◌, ◌∷◌, ◌++◌, [], map, IfOk, OnOk, if◌then◌else◌};
ghost use Rattle.pearl_format.specs.Fields.{width_or};
ghost use Rattle.pearl_format.specs.Items.{data_here, data_count};
ghost use Rattle.pearl_verify.specs.Formats.{blank_here, blank_width, takes_value, value_items, format_row};

use pearl_format::item::{Item, ItemCode};
use pearl_value::listing::Listing;
use std::alloc::{AllocError as NoMemory, Global};

/// How many values a format takes, how wide its items without a value are together, and its items with one.
#[derive(Drop)]
pub(crate) struct FormatRow {
    pub count: usize,
    pub blank: u128,
    pub values: Listing<Item>,
}

/// The width, or else that of what it stands for.
pub(crate) fn width_or(width: u8, own: u8) -> u8
    ensures { result ≡ width_or width own }
{
    if width == 0 { own } else { width }
}

/// How many values an item takes.
pub(crate) fn data_here(code: ItemCode) -> usize
    ensures value { result ≡ data_here code }
    ensures few { result ≤ 1 }
{
    match code {
        ItemCode::X => 0,
        ItemCode::Skip => 0,
        _ => 1,
    }
}

fn takes_value(code: ItemCode) -> bool
    ensures { result ≡ takes_value code }
{
    match code {
        ItemCode::X => false,
        ItemCode::Skip => false,
        _ => true,
    }
}

/// The width of an item that takes no value.
fn blank_here(item: Item) -> u8
    ensures { result ≡ blank_here item.code item.width }
{
    match item.code {
        ItemCode::X => width_or(item.width, 1),
        ItemCode::Skip => width_or(item.width, 1),
        _ => 0,
    }
}

/// How many values the items take.
fn values_of(items: &[Item]) -> usize
    ensures { result ≡ data_count items.now }
{
    let mut count = 0;
    for item in items {
        count += data_here(item.code);
    }
    count
}

/// How wide the items without a value are together.
fn blank_width(items: &[Item]) -> u128
    ensures { result ≡ blank_width items.now }
{
    let mut width = 0;
    for item in items {
        width += blank_here(*item) as u128;
    }
    width
}

fn keep(values: &mut Vec<Item>, item: Item) -> Result<(), NoMemory>
    ensures { OnOk result (values.new.items ≡ (values.old.items ++ (if takes_value item.code then item ∷ [] else []))) }
{
    if takes_value(item.code) {
        values.push(item)?;
    }
    Ok(())
}

/// The items with a value.
fn value_items(alloc: Global, items: &[Item]) -> Result<Vec<Item>, NoMemory>
    ensures { IfOk result (λ values. values.items ≡ value_items items.now) }
{
    let mut values = Vec::new(alloc);
    for item in items {
        keep(&mut values, *item)?;
    }
    Ok(values)
}

fn format_row(alloc: Global, items: &[Item]) -> Result<FormatRow, NoMemory>
    ensures { IfOk result (λ row. row ≡ format_row items.now) }
{
    let values = value_items(alloc, items)?;
    Ok(FormatRow {
        count: values_of(items),
        blank: blank_width(items),
        values: Listing::new(values),
    })
}

/// What is kept of each format.
pub(crate) fn format_rows(
    alloc: Global,
    formats: &[Listing<Item>],
) -> Result<Vec<FormatRow>, NoMemory>
    ensures { IfOk result (λ rows. rows.items ≡ map format_row formats.now) }
{
    let mut rows = Vec::new(alloc);
    for items in formats {
        rows.push(format_row(alloc, items.as_slice())?)?;
    }
    Ok(rows)
}

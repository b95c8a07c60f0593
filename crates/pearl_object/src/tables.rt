// The bytes of an object's tables, both ways: devices, semaphores, leaves and formats.

ghost use Rattle.std.specs.Prelude.{◌≡◌, ◌≤◌, ◌-◌, ◌++◌, ◌∷◌, [], Option, None, OnOk};
ghost use Rattle.pearl_value.specs.Devices.{sort_rank, own_number};
ghost use Rattle.pearl_object.specs.Kinds.{kind};
ghost use Rattle.pearl_object.specs.Tables.{direction, direction_tag, direction_arms, is_behind, device, device_arms, after_device, first_device, leaf, after_leaf, all_slots, item_code, item_tag, item_arms, least_width, item, format};
ghost use Rattle.pearl_object.specs.Lists.{each};
ghost use Rattle.pearl_fields.specs.Codec.{arm_at, byte_in, number_bytes, number_in};
ghost use Rattle.pearl_fields.specs.Reads.{Reads};

use crate::codes::listed;
use crate::kinds::{put_kind, read_kind};
use crate::states::{Alone, Before, Room, Wanted};
use pearl_fields::fault::ReadFault;
use pearl_fields::part::{Part, put_list};
use pearl_fields::reader::Reader;
use pearl_fields::writer::put_number;
use pearl_format::item::{Item, ItemCode};
use pearl_instructions::object::Leaf;
use pearl_value::cell::Cell;
use pearl_value::device::{Device, Direction};
use pearl_value::listing::Listing;
use std::alloc::{AllocError, Global};

/// Reads which way the texts of a terminal go.
#[tactic(auto, unfolding(crate::specs::Tables::direction))]
pub fn read_direction(reader: &mut Reader) -> Result<Direction, ReadFault>
    ensures { Reads direction reader.old reader.new result }
{
    let tag = reader.byte_in(1, 3)?;
    direction_at(reader, tag)
}

fn direction_at(_reader: &mut Reader, tag: u8) -> Result<Direction, ReadFault>
    requires low { 1 ≤ tag }
    requires high { tag ≤ 3 }
    ensures { Reads (arm_at direction_arms tag) _reader.old _reader.new result }
{
    match tag {
        1 => Ok(Direction::In),
        2 => Ok(Direction::Out),
        3 => Ok(Direction::InOut),
        _ => unreachable!(),
    }
}

fn direction_tag(direction: Direction) -> u8
    ensures { result ≡ direction_tag direction }
{
    match direction {
        Direction::In => 1,
        Direction::Out => 2,
        Direction::InOut => 3,
    }
}

fn sort_rank(device: Device) -> u8
    ensures { result ≡ sort_rank device }
{
    match device {
        Device::Interrupt { .. } => 0,
        Device::Terminal { .. } => 1,
        Device::Input { .. } => 2,
        Device::Output { .. } => 3,
    }
}

pub(crate) fn own_number(device: Device) -> u8
    ensures { result ≡ own_number device }
{
    match device {
        Device::Interrupt { number } => number,
        Device::Terminal { number, .. } => number,
        Device::Input { number, .. } => number,
        Device::Output { number, .. } => number,
    }
}

fn is_behind(last: Option<Device>, sort: u8, number: u8) -> bool
    ensures { result ≡ is_behind last sort number }
{
    match last {
        None => true,
        Some(last) => {
            sort_rank(last) < sort || (sort_rank(last) == sort && own_number(last) < number)
        }
    }
}

/// Reads a device behind the last one.
#[tactic(auto, unfolding(crate::specs::Tables::device))]
pub fn read_device(reader: &mut Reader, last: Before) -> Result<Device, ReadFault>
    ensures { Reads (device last) reader.old reader.new result }
{
    let sort = reader.byte_in(0, 3)?;
    let left = reader.left();
    let number = reader.byte_in(1, 99)?;
    if !is_behind(last.device, sort, number) {
        return Err(ReadFault::Bad(left));
    }
    read_device_arm(reader, sort, number)
}

fn read_device_arm(reader: &mut Reader, sort: u8, number: u8) -> Result<Device, ReadFault>
    requires { sort ≤ 3 }
    ensures { Reads (arm_at (device_arms number) sort) reader.old reader.new result }
{
    match sort {
        0 => Ok(Device::Interrupt { number }),
        1 => {
            let direction = read_direction(reader)?;
            Ok(Device::Terminal { number, direction })
        }
        2 => {
            let kind = read_kind(reader, None)?;
            Ok(Device::Input { number, kind })
        }
        3 => {
            let kind = read_kind(reader, None)?;
            Ok(Device::Output { number, kind })
        }
        _ => unreachable!(),
    }
}

/// Appends a device.
#[tactic(auto, using(crate::proofs::Spellings::direction_bytes), unfolding(crate::specs::Tables::device))]
pub fn put_device(out: &mut Vec<u8>, value: Device) -> Result<(), AllocError>
    ensures { OnOk result (out.new.items ≡ out.old.items ++ (device first_device).bytes value) }
{
    match value {
        Device::Interrupt { number } => {
            out.push(0)?;
            out.push(number)?;
        }
        Device::Terminal { number, direction } => {
            out.push(1)?;
            out.push(number)?;
            out.push(direction_tag(direction))?;
        }
        Device::Input { number, kind } => {
            out.push(2)?;
            out.push(number)?;
            put_kind(out, kind)?;
        }
        Device::Output { number, kind } => {
            out.push(3)?;
            out.push(number)?;
            put_kind(out, kind)?;
        }
    }
    Ok(())
}

impl Part<Before> for Device {
    ghost spelled = { (device first_device).bytes };

    ghost part = { device };

    ghost after = { after_device };

    fn read(reader: &mut Reader, _alloc: Global, last: Before) -> Result<Device, ReadFault> {
        read_device(reader, last)
    }

    fn next(&self, _last: Before) -> Before {
        Before {
            device: Some(*self),
        }
    }

    fn put(&self, out: &mut Vec<u8>) -> Result<(), AllocError> {
        put_device(out, *self)?;
        Ok(())
    }
}

// The first count of a semaphore.
impl Part<Alone> for u32 {
    ghost use Rattle.std.specs.Prelude.{◌-◌, ◌^◌};

    ghost spelled = { number_bytes };

    ghost part = { λ s. number_in 0 (2 ^ 31 - 1) };

    ghost after = { λ s x. s };

    fn read(reader: &mut Reader, _alloc: Global, _state: Alone) -> Result<u32, ReadFault> {
        let count = reader.number_in(0, 2147483647)?;
        Ok(count as u32)
    }

    fn next(&self, state: Alone) -> Alone {
        state
    }

    fn put(&self, out: &mut Vec<u8>) -> Result<(), AllocError> {
        put_number(out, u64::from(*self))?;
        Ok(())
    }
}

// A letter of a leaf's name.
impl Part<Alone> for u8 {
    ghost spelled = { λ b. b ∷ [] };

    ghost part = { λ s. byte_in 32 126 };

    ghost after = { λ s b. s };

    fn read(reader: &mut Reader, _alloc: Global, _state: Alone) -> Result<u8, ReadFault> {
        reader.byte_in(32, 126)
    }

    fn next(&self, state: Alone) -> Alone {
        state
    }

    fn put(&self, out: &mut Vec<u8>) -> Result<(), AllocError> {
        out.push(*self)?;
        Ok(())
    }
}

/// Reads a leaf for which there is so much room.
#[tactic(auto, unfolding(crate::specs::Tables::leaf))]
pub fn read_leaf(reader: &mut Reader, alloc: Global, room: Room) -> Result<Leaf, ReadFault>
    ensures { Reads (leaf room) reader.old reader.new result }
{
    let name = listed::<Alone, u8>(reader, alloc, 0, 1024, Alone {})?;
    let kind = read_kind(reader, None)?;
    let slots = reader.number_in(1, u64::from(room.left))? as u32;
    let constants = listed::<Wanted, Cell>(reader, alloc, 0, u64::from(slots), Wanted { kind })?;
    Ok(Leaf {
        name,
        kind,
        slots,
        constants,
    })
}

/// Appends a leaf.
#[tactic(auto, unfolding(crate::specs::Tables::leaf))]
pub fn put_leaf(out: &mut Vec<u8>, value: &Leaf) -> Result<(), AllocError>
    ensures { OnOk result (out.new.items ≡ out.old.items ++ (leaf all_slots).bytes value.now) }
{
    put_list::<Alone, u8>(value.name.as_slice(), out)?;
    put_kind(out, value.kind)?;
    put_number(out, u64::from(value.slots))?;
    put_list::<Wanted, Cell>(value.constants.as_slice(), out)?;
    Ok(())
}

impl Part<Room> for Leaf {
    ghost spelled = { (leaf all_slots).bytes };

    ghost part = { leaf };

    ghost after = { after_leaf };

    fn read(reader: &mut Reader, alloc: Global, room: Room) -> Result<Leaf, ReadFault> {
        read_leaf(reader, alloc, room)
    }

    fn next(&self, room: Room) -> Room {
        Room {
            left: room.left.saturating_sub(self.slots),
        }
    }

    fn put(&self, out: &mut Vec<u8>) -> Result<(), AllocError> {
        put_leaf(out, self)?;
        Ok(())
    }
}

/// Reads what an item of a format writes.
#[tactic(auto, unfolding(crate::specs::Tables::item_code))]
pub fn read_item_code(reader: &mut Reader) -> Result<ItemCode, ReadFault>
    ensures { Reads item_code reader.old reader.new result }
{
    let tag = reader.byte_in(0, 9)?;
    item_code_at(reader, tag)
}

fn item_code_at(_reader: &mut Reader, tag: u8) -> Result<ItemCode, ReadFault>
    requires { tag ≤ 9 }
    ensures { Reads (arm_at item_arms tag) _reader.old _reader.new result }
{
    match tag {
        0 => Ok(ItemCode::A),
        1 => Ok(ItemCode::B1),
        2 => Ok(ItemCode::B2),
        3 => Ok(ItemCode::B3),
        4 => Ok(ItemCode::B4),
        5 => Ok(ItemCode::F),
        6 => Ok(ItemCode::T),
        7 => Ok(ItemCode::D),
        8 => Ok(ItemCode::X),
        9 => Ok(ItemCode::Skip),
        _ => unreachable!(),
    }
}

fn item_tag(code: ItemCode) -> u8
    ensures { result ≡ item_tag code }
{
    match code {
        ItemCode::A => 0,
        ItemCode::B1 => 1,
        ItemCode::B2 => 2,
        ItemCode::B3 => 3,
        ItemCode::B4 => 4,
        ItemCode::F => 5,
        ItemCode::T => 6,
        ItemCode::D => 7,
        ItemCode::X => 8,
        ItemCode::Skip => 9,
    }
}

fn least_width(code: ItemCode) -> u8
    ensures { result ≡ least_width code }
{
    match code {
        ItemCode::F => 1,
        ItemCode::T => 8,
        ItemCode::D => 1,
        _ => 0,
    }
}

/// Reads an item of a format.
#[tactic(auto, unfolding(crate::specs::Tables::item))]
pub fn read_item(reader: &mut Reader) -> Result<Item, ReadFault>
    ensures { Reads item reader.old reader.new result }
{
    let code = read_item_code(reader)?;
    let width = reader.byte_in(least_width(code), 255)?;
    Ok(Item { code, width })
}

/// Appends an item of a format.
#[tactic(auto, using(crate::proofs::Spellings::item_bytes))]
pub fn put_item(out: &mut Vec<u8>, value: Item) -> Result<(), AllocError>
    ensures { OnOk result (out.new.items ≡ out.old.items ++ item.bytes value) }
{
    out.push(item_tag(value.code))?;
    out.push(value.width)?;
    Ok(())
}

impl Part<Alone> for Item {
    ghost spelled = { item.bytes };

    ghost part = { λ s. item };

    ghost after = { λ s x. s };

    fn read(reader: &mut Reader, _alloc: Global, _state: Alone) -> Result<Item, ReadFault> {
        read_item(reader)
    }

    fn next(&self, state: Alone) -> Alone {
        state
    }

    fn put(&self, out: &mut Vec<u8>) -> Result<(), AllocError> {
        put_item(out, *self)?;
        Ok(())
    }
}

// A format.
impl Part<Alone> for Listing<Item> {
    ghost spelled = { format.bytes };

    ghost part = { λ s. format };

    ghost after = { λ s x. s };

    fn read(reader: &mut Reader, alloc: Global, _state: Alone) -> Result<Listing<Item>, ReadFault> {
        listed::<Alone, Item>(reader, alloc, 0, u64::MAX, Alone {})
    }

    fn next(&self, state: Alone) -> Alone {
        state
    }

    fn put(&self, out: &mut Vec<u8>) -> Result<(), AllocError> {
        put_list::<Alone, Item>(self.as_slice(), out)?;
        Ok(())
    }
}

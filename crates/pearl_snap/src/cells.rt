// The bytes of what cells hold, both ways.

ghost use Rattle.std.specs.Prelude.{◌≡◌, ◌≤◌, ◌++◌, OnOk};
ghost use Rattle.pearl_fields.specs.Codec.{arm_at};
ghost use Rattle.pearl_fields.specs.Reads.{Reads};
ghost use Rattle.pearl_snap.specs.Cells.{target, target_arms, reference, array, cell, cell_arms};

use crate::parts::listed;
use crate::states::Free;
use pearl_fields::fault::ReadFault;
use pearl_fields::part::{Part, put_list};
use pearl_fields::reader::Reader;
use pearl_fields::writer::put_number;
use pearl_instructions::instr::Bounds;
use pearl_object::kinds::{put_kind, read_kind};
use pearl_object::literals::{put_literal, read_literal};
use pearl_object::operands::{put_bounds, read_bounds};
use pearl_saved::saved::{ArrayReference, Reference, SavedCell, Target};
use std::alloc::{AllocError, Global};

// The bounds of a dimension.
impl Part<Free> for Bounds {
    ghost use Rattle.pearl_object.specs.Operands.{bounds};

    ghost spelled = { bounds.bytes };

    ghost part = { λ s. bounds };

    ghost after = { λ s x. s };

    fn read(reader: &mut Reader, _alloc: Global, _state: Free) -> Result<Bounds, ReadFault> {
        read_bounds(reader)
    }

    fn next(&self, state: Free) -> Free {
        state
    }

    fn put(&self, out: &mut Vec<u8>) -> Result<(), AllocError> {
        put_bounds(out, *self)?;
        Ok(())
    }
}

#[tactic(auto, unfolding(crate::specs::Cells::target))]
fn read_target(reader: &mut Reader) -> Result<Target, ReadFault>
    ensures { Reads target reader.old reader.new result }
{
    let tag = reader.byte_in(0, 1)?;
    target_at(reader, tag)
}

fn target_at(reader: &mut Reader, tag: u8) -> Result<Target, ReadFault>
    requires { tag ≤ 1 }
    ensures { Reads (arm_at target_arms tag) reader.old reader.new result }
{
    match tag {
        0 => {
            let slot = reader.number()?;
            Ok(Target::Slot(slot))
        }
        1 => {
            let frame = reader.number()?;
            let cell = reader.number()?;
            Ok(Target::Own { frame, cell })
        }
        _ => unreachable!(),
    }
}

#[tactic(auto, unfolding(crate::specs::Cells::target))]
fn put_target(out: &mut Vec<u8>, value: Target) -> Result<(), AllocError>
    ensures { OnOk result (out.new.items ≡ out.old.items ++ target.bytes value) }
{
    match value {
        Target::Slot(slot) => {
            out.push(0)?;
            put_number(out, slot)?;
        }
        Target::Own { frame, cell } => {
            out.push(1)?;
            put_number(out, frame)?;
            put_number(out, cell)?;
        }
    }
    Ok(())
}

#[tactic(auto, unfolding(crate::specs::Cells::reference))]
fn read_reference(reader: &mut Reader) -> Result<Reference, ReadFault>
    ensures { Reads reference reader.old reader.new result }
{
    let kind = read_kind(reader, None)?;
    let target = read_target(reader)?;
    Ok(Reference { kind, target })
}

#[tactic(auto, unfolding(crate::specs::Cells::reference))]
fn put_reference(out: &mut Vec<u8>, value: Reference) -> Result<(), AllocError>
    ensures { OnOk result (out.new.items ≡ out.old.items ++ reference.bytes value) }
{
    put_kind(out, value.kind)?;
    put_target(out, value.target)?;
    Ok(())
}

#[tactic(auto, unfolding(crate::specs::Cells::array))]
fn read_array(reader: &mut Reader, alloc: Global) -> Result<ArrayReference, ReadFault>
    ensures { Reads array reader.old reader.new result }
{
    let first = read_reference(reader)?;
    let bounds = listed::<Free, Bounds>(reader, alloc, 0, u64::MAX, Free {})?;
    Ok(ArrayReference { first, bounds })
}

#[tactic(auto, unfolding(crate::specs::Cells::array))]
fn put_array(out: &mut Vec<u8>, value: &ArrayReference) -> Result<(), AllocError>
    ensures { OnOk result (out.new.items ≡ out.old.items ++ array.bytes value.now) }
{
    put_reference(out, value.first)?;
    put_list::<Free, Bounds>(value.bounds.as_slice(), out)?;
    Ok(())
}

/// Reads what a cell holds.
#[tactic(auto, unfolding(crate::specs::Cells::cell))]
pub fn read_cell(reader: &mut Reader, alloc: Global) -> Result<SavedCell, ReadFault>
    ensures { Reads cell reader.old reader.new result }
{
    let tag = reader.byte_in(0, 2)?;
    cell_at(reader, alloc, tag)
}

fn cell_at(reader: &mut Reader, alloc: Global, tag: u8) -> Result<SavedCell, ReadFault>
    requires { tag ≤ 2 }
    ensures { Reads (arm_at cell_arms tag) reader.old reader.new result }
{
    match tag {
        0 => {
            let value = read_literal(reader, None)?;
            Ok(SavedCell::Value(value))
        }
        1 => {
            let reference = read_reference(reader)?;
            Ok(SavedCell::Variable(reference))
        }
        2 => {
            let array = read_array(reader, alloc)?;
            Ok(SavedCell::Array(array))
        }
        _ => unreachable!(),
    }
}

/// Appends what a cell holds.
#[tactic(auto, unfolding(crate::specs::Cells::cell))]
pub fn put_cell(out: &mut Vec<u8>, value: &SavedCell) -> Result<(), AllocError>
    ensures { OnOk result (out.new.items ≡ out.old.items ++ cell.bytes value.now) }
{
    match value {
        SavedCell::Value(value) => {
            out.push(0)?;
            put_literal(out, value)?;
        }
        SavedCell::Variable(reference) => {
            out.push(1)?;
            put_reference(out, *reference)?;
        }
        SavedCell::Array(array) => {
            out.push(2)?;
            put_array(out, array)?;
        }
    }
    Ok(())
}

impl Part<Free> for SavedCell {
    ghost spelled = { cell.bytes };

    ghost part = { λ s. cell };

    ghost after = { λ s x. s };

    fn read(reader: &mut Reader, alloc: Global, _state: Free) -> Result<SavedCell, ReadFault> {
        read_cell(reader, alloc)
    }

    fn next(&self, state: Free) -> Free {
        state
    }

    fn put(&self, out: &mut Vec<u8>) -> Result<(), AllocError> {
        put_cell(out, self)?;
        Ok(())
    }
}

// Parts that stand in lists: numbers, bytes, switches, values, and lists of these.

ghost use Rattle.std.specs.Prelude.{◌≡◌, ◌++◌, ◌%◌, OnOk, Some, None};
ghost use Rattle.pearl_fields.specs.Codec.{counted, number, number_bytes};
ghost use Rattle.pearl_fields.specs.Reads.{Reads};
ghost use Rattle.pearl_object.specs.Literals.{literal};
ghost use Rattle.pearl_object.specs.Operands.{flag};
ghost use Rattle.pearl_snap.specs.Lists.{any_byte, next_or_zero, before, maybe_number};
ghost use Rattle.pearl_snap.specs.States.{typed, values};

use crate::states::Free;
use pearl_fields::fault::ReadFault;
use pearl_fields::part::{Part, list, put_list};
use pearl_fields::reader::Reader;
use pearl_fields::writer::put_number;
use pearl_object::literals::{put_literal, read_literal};
use pearl_object::operands::{put_flag, read_flag};
use pearl_value::cell::Cell;
use pearl_value::listing::Listing;
use std::alloc::{AllocError, Global};

/// Reads a list whose length is within bounds.
pub(crate) fn listed<S: Copy, T: Part<S>>(
    reader: &mut Reader,
    alloc: Global,
    low: u64,
    high: u64,
    state: S,
) -> Result<Listing<T>, ReadFault>
    ensures { Reads (counted low high T.spelled T.part T.after state) reader.old reader.new result }
{
    let items = list::<S, T>(reader, alloc, low, high, state)?;
    Ok(Listing::new(items))
}

fn before(number: u64) -> Option<u64>
    ensures { result ≡ before number }
{
    if number == 0 { None } else { Some(number - 1) }
}

fn next_or_zero(value: Option<u64>) -> u64
    ensures { result ≡ next_or_zero value }
{
    match value {
        None => 0,
        Some(number) => number.wrapping_add(1),
    }
}

/// Reads a number that may be missing.
#[tactic(auto, unfolding(crate::specs::Lists::maybe_number))]
pub(crate) fn read_maybe_number(reader: &mut Reader) -> Result<Option<u64>, ReadFault>
    ensures { Reads maybe_number reader.old reader.new result }
{
    let number = reader.number()?;
    Ok(before(number))
}

/// Appends a number that may be missing.
#[tactic(auto, unfolding(crate::specs::Lists::maybe_number))]
pub(crate) fn put_maybe_number(out: &mut Vec<u8>, value: Option<u64>) -> Result<(), AllocError>
    ensures { OnOk result (out.new.items ≡ out.old.items ++ maybe_number.bytes value) }
{
    put_number(out, next_or_zero(value))?;
    Ok(())
}

// A count.
impl Part<Free> for u64 {
    ghost spelled = { number_bytes };

    ghost part = { λ s. number };

    ghost after = { λ s x. s };

    fn read(reader: &mut Reader, _alloc: Global, _state: Free) -> Result<u64, ReadFault> {
        reader.number()
    }

    fn next(&self, state: Free) -> Free {
        state
    }

    fn put(&self, out: &mut Vec<u8>) -> Result<(), AllocError> {
        put_number(out, *self)?;
        Ok(())
    }
}

// Any byte.
impl Part<Free> for u8 {
    ghost spelled = { any_byte.bytes };

    ghost part = { λ s. any_byte };

    ghost after = { λ s x. s };

    fn read(reader: &mut Reader, _alloc: Global, _state: Free) -> Result<u8, ReadFault> {
        reader.byte()
    }

    fn next(&self, state: Free) -> Free {
        state
    }

    fn put(&self, out: &mut Vec<u8>) -> Result<(), AllocError> {
        out.push(*self)?;
        Ok(())
    }
}

// A switch.
impl Part<Free> for bool {
    ghost spelled = { flag.bytes };

    ghost part = { λ s. flag };

    ghost after = { λ s x. s };

    fn read(reader: &mut Reader, _alloc: Global, _state: Free) -> Result<bool, ReadFault> {
        read_flag(reader)
    }

    fn next(&self, state: Free) -> Free {
        state
    }

    fn put(&self, out: &mut Vec<u8>) -> Result<(), AllocError> {
        put_flag(out, *self)?;
        Ok(())
    }
}

// A value of any kind.
impl Part<Free> for Cell {
    ghost spelled = { (literal None).bytes };

    ghost part = { λ s. literal None };

    ghost after = { λ s x. s };

    fn read(reader: &mut Reader, _alloc: Global, _state: Free) -> Result<Cell, ReadFault> {
        read_literal(reader, None)
    }

    fn next(&self, state: Free) -> Free {
        state
    }

    fn put(&self, out: &mut Vec<u8>) -> Result<(), AllocError> {
        put_literal(out, self)?;
        Ok(())
    }
}

// What waits at a terminal.
impl Part<Free> for Listing<u8> {
    ghost spelled = { typed.bytes };

    ghost part = { λ s. typed };

    ghost after = { λ s x. s };

    fn read(reader: &mut Reader, alloc: Global, _state: Free) -> Result<Listing<u8>, ReadFault> {
        listed::<Free, u8>(reader, alloc, 0, 4096, Free {})
    }

    fn next(&self, state: Free) -> Free {
        state
    }

    fn put(&self, out: &mut Vec<u8>) -> Result<(), AllocError> {
        put_list::<Free, u8>(self.as_slice(), out)?;
        Ok(())
    }
}

// What waits at an input.
impl Part<Free> for Listing<Cell> {
    ghost spelled = { values.bytes };

    ghost part = { λ s. values };

    ghost after = { λ s x. s };

    fn read(reader: &mut Reader, alloc: Global, _state: Free) -> Result<Listing<Cell>, ReadFault> {
        listed::<Free, Cell>(reader, alloc, 0, 256, Free {})
    }

    fn next(&self, state: Free) -> Free {
        state
    }

    fn put(&self, out: &mut Vec<u8>) -> Result<(), AllocError> {
        put_list::<Free, Cell>(self.as_slice(), out)?;
        Ok(())
    }
}

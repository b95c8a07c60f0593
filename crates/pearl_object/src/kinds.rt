// The bytes of kinds, both ways.

ghost use Rattle.std.specs.Prelude.{◌≡◌, ◌≤◌, ◌++◌, true, Option, None, Some, Ok, Err, IfOk, OnOk, if◌then◌else◌};
ghost use Rattle.pearl_value.specs.Kinds.{IsKind};
ghost use Rattle.pearl_object.specs.Kinds.{kind, suits, kind_arms, cell_kind, cell_kind_arms, most_cell_tag, cell_of, after_cell};
ghost use Rattle.pearl_fields.specs.Codec.{arm_at};
ghost use Rattle.pearl_fields.specs.Reads.{Reads};
ghost use Rattle.pearl_fields.specs.declared.fault.ReadFault.TheVariants.{Bad};

use crate::states::{Alone, Parameters};
use pearl_fields::fault::ReadFault;
use pearl_fields::part::Part;
use pearl_fields::reader::Reader;
use pearl_value::kind::{CellKind, Kind};
use std::alloc::{AllocError, Global};

fn fits(wanted: Option<Kind>, kind: Kind) -> bool
    ensures { result ≡ suits wanted kind }
{
    match wanted {
        None => true,
        Some(wanted) => match (wanted, kind) {
            (Kind::Fixed(m), Kind::Fixed(n)) => m == n,
            (Kind::Bits(m), Kind::Bits(n)) => m == n,
            (Kind::Chars(m), Kind::Chars(n)) => m == n,
            (Kind::Clock, Kind::Clock) => true,
            (Kind::Span, Kind::Span) => true,
            _ => false,
        },
    }
}

/// Reads a kind, the wanted one where one is wanted.
#[tactic(auto, unfolding(crate::specs::Kinds::kind))]
pub fn read_kind(reader: &mut Reader, wanted: Option<Kind>) -> Result<Kind, ReadFault>
    ensures reads { Reads (kind wanted) reader.old reader.new result }
    ensures sound { IfOk result IsKind }
{
    let left = reader.left();
    let tag = reader.byte_in(0, 4)?;
    let bare = if tag == 3 { Kind::Clock } else { Kind::Span };
    if tag > 2 && !fits(wanted, bare) {
        return Err(ReadFault::Bad(left));
    }
    read_kind_arm(reader, wanted, tag)
}

fn read_kind_arm(reader: &mut Reader, wanted: Option<Kind>, tag: u8) -> Result<Kind, ReadFault>
    requires { tag ≤ 4 }
    ensures reads { Reads (arm_at (kind_arms wanted) tag) reader.old reader.new result }
    ensures sound { IfOk result IsKind }
{
    let left = reader.left();
    match tag {
        0 => {
            let kind = Kind::Fixed(reader.byte_in(1, 63)?);
            the_wanted(wanted, kind, left)
        }
        1 => {
            let kind = Kind::Bits(reader.byte_in(1, 64)?);
            the_wanted(wanted, kind, left)
        }
        2 => {
            let kind = Kind::Chars(reader.byte_in(1, 255)?);
            the_wanted(wanted, kind, left)
        }
        3 => Ok(Kind::Clock),
        4 => Ok(Kind::Span),
        _ => unreachable!(),
    }
}

// The kind, if it suits; else the place where so many bytes are left.
fn the_wanted(wanted: Option<Kind>, kind: Kind, left: usize) -> Result<Kind, ReadFault>
    ensures { result ≡ if suits wanted kind then Ok kind else Err (Bad left) }
{
    if !fits(wanted, kind) {
        return Err(ReadFault::Bad(left));
    }
    Ok(kind)
}

/// Appends a kind.
#[tactic(auto, unfolding(crate::specs::Kinds::kind))]
pub fn put_kind(out: &mut Vec<u8>, value: Kind) -> Result<(), AllocError>
    ensures { OnOk result (out.new.items ≡ out.old.items ++ (kind None).bytes value) }
{
    match value {
        Kind::Fixed(len) => {
            out.push(0)?;
            out.push(len)?;
        }
        Kind::Bits(len) => {
            out.push(1)?;
            out.push(len)?;
        }
        Kind::Chars(len) => {
            out.push(2)?;
            out.push(len)?;
        }
        Kind::Clock => out.push(3)?,
        Kind::Span => out.push(4)?,
    }
    Ok(())
}

fn greatest_tag(free: bool) -> u8
    ensures { result ≡ most_cell_tag free }
{
    if free { 5 } else { 4 }
}

/// Reads the kind of a cell, which may be a reference where it is free to.
#[tactic(auto, unfolding(crate::specs::Kinds::cell_kind))]
pub fn read_cell_kind(reader: &mut Reader, free: bool) -> Result<CellKind, ReadFault>
    ensures { Reads (cell_kind free) reader.old reader.new result }
{
    let tag = reader.byte_in(0, greatest_tag(free))?;
    read_cell_kind_arm(reader, tag)
}

fn read_cell_kind_arm(reader: &mut Reader, tag: u8) -> Result<CellKind, ReadFault>
    requires { tag ≤ 5 }
    ensures { Reads (arm_at cell_kind_arms tag) reader.old reader.new result }
{
    match tag {
        0 => Ok(CellKind::Plain(Kind::Fixed(reader.byte_in(1, 63)?))),
        1 => Ok(CellKind::Plain(Kind::Bits(reader.byte_in(1, 64)?))),
        2 => Ok(CellKind::Plain(Kind::Chars(reader.byte_in(1, 255)?))),
        3 => Ok(CellKind::Plain(Kind::Clock)),
        4 => Ok(CellKind::Plain(Kind::Span)),
        5 => Ok(CellKind::RefTo(read_kind(reader, None)?)),
        _ => unreachable!(),
    }
}

/// Appends the kind of a cell.
#[tactic(auto, using(crate::proofs::Bytes::plain_bytes), unfolding(crate::specs::Kinds::cell_kind))]
pub fn put_cell_kind(out: &mut Vec<u8>, value: CellKind) -> Result<(), AllocError>
    ensures { OnOk result (out.new.items ≡ out.old.items ++ (cell_kind true).bytes value) }
{
    match value {
        CellKind::Plain(kind) => put_kind(out, kind)?,
        CellKind::RefTo(kind) => {
            out.push(5)?;
            put_kind(out, kind)?;
        }
    }
    Ok(())
}

// Of a shape.
impl Part<Alone> for CellKind {
    ghost spelled = { (cell_kind true).bytes };

    ghost part = { λ s. cell_kind true };

    ghost after = { λ s x. s };

    fn read(reader: &mut Reader, _alloc: Global, _state: Alone) -> Result<CellKind, ReadFault> {
        read_cell_kind(reader, true)
    }

    fn next(&self, state: Alone) -> Alone {
        state
    }

    fn put(&self, out: &mut Vec<u8>) -> Result<(), AllocError> {
        put_cell_kind(out, *self)?;
        Ok(())
    }
}

// Of a routine.
impl Part<Parameters> for CellKind {
    ghost spelled = { (cell_kind true).bytes };

    ghost part = { cell_of };

    ghost after = { after_cell };

    fn read(reader: &mut Reader, _alloc: Global, state: Parameters) -> Result<CellKind, ReadFault> {
        read_cell_kind(reader, state.left > 0)
    }

    fn next(&self, state: Parameters) -> Parameters {
        Parameters {
            left: state.left.saturating_sub(1),
        }
    }

    fn put(&self, out: &mut Vec<u8>) -> Result<(), AllocError> {
        put_cell_kind(out, *self)?;
        Ok(())
    }
}

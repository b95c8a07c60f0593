// The bytes of literals, both ways.

ghost use Rattle.std.specs.Prelude.{◌≡◌, ◌-◌, ◌^◌, ◌≤◌, ◌++◌, ◌∷◌, [], Some, None, IfOk, OnOk};
ghost use Rattle.pearl_value.specs.Kinds.{IsKind};
ghost use Rattle.pearl_value.specs.WellFormed.{IsValue};
ghost use Rattle.pearl_object.specs.Literals.{literal, value_of, ReadsText};
ghost use Rattle.pearl_fields.specs.Codec.{all_bytes, bytes_in};
ghost use Rattle.pearl_fields.specs.Reads.{Reads};

use crate::kinds::{put_kind, read_kind};
use crate::states::Wanted;
use arrayvec::ArrayVec;
use pearl_fields::fault::ReadFault;
use pearl_fields::part::Part;
use pearl_fields::reader::Reader;
use pearl_fields::writer::{put_number, put_signed};
use pearl_value::cell::Cell;
use pearl_value::kind::Kind;
use std::alloc::{AllocError, Global};

// 2^bits - 1
#[tactic(auto, using(crate::proofs::Bytes::pow_in_range, std::proofs::lemmas::Nat::pow_pos))]
fn greatest(bits: u8) -> u64
    requires { bits ≤ 64 }
    ensures { result ≡ 2 ^ bits - 1 }
{
    ((1u128 << bits) - 1) as u64
}

// So many bytes from 32 to 126.
fn read_text(reader: &mut Reader, len: u8) -> Result<ArrayVec<u8, 255>, ReadFault>
    ensures { ReadsText ((bytes_in 32 126 len).read reader.old) reader.new result }
{
    let mut text = ArrayVec::new();
    for _ in 0..len {
        let byte = reader.byte_in(32, 126)?;
        text.push(byte);
    }
    Ok(text)
}

/// Reads a literal, one of the wanted kind where one is wanted.
#[tactic(auto, unfolding(crate::specs::Literals::literal))]
pub fn read_literal(reader: &mut Reader, wanted: Option<Kind>) -> Result<Cell, ReadFault>
    ensures { Reads (literal wanted) reader.old reader.new result }
{
    let kind = read_kind(reader, wanted)?;
    read_value(reader, kind)
}

#[tactic(auto, unfolding(crate::specs::Literals::value_of))]
fn read_value(reader: &mut Reader, kind: Kind) -> Result<Cell, ReadFault>
    requires { IsKind kind }
    ensures { Reads (value_of kind) reader.old reader.new result }
{
    match kind {
        Kind::Fixed(len) => {
            let top = greatest(len) as i64;
            let value = reader.signed_in(-top - 1, top)?;
            Ok(Cell::Fixed { len, value })
        }
        Kind::Bits(len) => {
            let value = reader.number_in(0, greatest(len))?;
            Ok(Cell::Bits { len, value })
        }
        Kind::Chars(len) => Ok(Cell::Chars(read_text(reader, len)?)),
        Kind::Clock => Ok(Cell::Clock(reader.number_in(0, 86399999)? as u32)),
        Kind::Span => {
            let value = reader.signed_in(-1099511627776, 1099511627776)?;
            Ok(Cell::Span(value))
        }
    }
}

#[tactic(auto, using(crate::proofs::Bytes::all_ones))]
pub(crate) fn put_text(out: &mut Vec<u8>, text: &[u8]) -> Result<(), AllocError>
    ensures { OnOk result (out.new.items ≡ out.old.items ++ all_bytes (λ b. b ∷ []) text.now) }
{
    out.extend_from_slice(text)?;
    Ok(())
}

/// Appends a literal. A reference is none, and gets bytes that none has.
#[tactic(auto, using(crate::proofs::Bytes::all_ones), unfolding(crate::specs::Literals::literal, crate::specs::Literals::value_of))]
pub fn put_literal(out: &mut Vec<u8>, value: &Cell) -> Result<(), AllocError>
    ensures { OnOk result (out.new.items ≡ out.old.items ++ (literal None).bytes value.now) }
{
    match value {
        Cell::Fixed { len, value } => {
            put_kind(out, Kind::Fixed(*len))?;
            put_signed(out, *value)?;
        }
        Cell::Bits { len, value } => {
            put_kind(out, Kind::Bits(*len))?;
            put_number(out, *value)?;
        }
        Cell::Chars(text) => {
            put_kind(out, Kind::Chars(text.len() as u8))?;
            put_text(out, text.as_slice())?;
        }
        Cell::Clock(time) => {
            put_kind(out, Kind::Clock)?;
            put_number(out, u64::from(*time))?;
        }
        Cell::Span(time) => {
            put_kind(out, Kind::Span)?;
            put_signed(out, *time)?;
        }
        Cell::Ref { .. } => put_kind(out, Kind::Chars(0))?,
    }
    Ok(())
}

impl Part<Wanted> for Cell {
    ghost spelled = { (literal None).bytes };

    ghost part = { λ s. literal (Some s.kind) };

    ghost after = { λ s x. s };

    fn read(reader: &mut Reader, _alloc: Global, state: Wanted) -> Result<Cell, ReadFault> {
        read_literal(reader, Some(state.kind))
    }

    fn next(&self, state: Wanted) -> Wanted {
        state
    }

    fn put(&self, out: &mut Vec<u8>) -> Result<(), AllocError> {
        put_literal(out, self)?;
        Ok(())
    }
}

// The literal of an instruction, which contracts see as its value.

ghost use Rattle.std.specs.Prelude.{◌≡◌, ◌≤◌, length, IfOk};
ghost use Rattle.pearl_instructions.specs.Literals.{seen_cell, IsShort};

use crate::boxed::Boxed;
use arrayvec::ArrayVec;
use pearl_value::cell::{Cell, Place};
use pearl_value::kind::Kind;
use pearl_value::listing::Listing;
use std::alloc::{AllocError as NoMemory, Global};
use std::marker::Model;

// What is kept of a value: a text lies elsewhere, with as much room as it has bytes.
#[derive(Drop)]
enum Held {
    Fixed { len: u8, value: i64 },
    Bits { len: u8, value: u64 },
    Chars(Boxed<Listing<u8>>),
    Clock(u32),
    Span(i64),
    Ref { kind: Kind, place: Place },
}

/// The value of a literal, a text where it lies. A cell would be as large as the longest text.
#[derive(Clone, Copy)]
pub enum Seen<'a> {
    Fixed { len: u8, value: i64 },
    Bits { len: u8, value: u64 },
    Chars(&'a [u8]),
    Clock(u32),
    Span(i64),
    Ref { kind: Kind, place: Place },
}

/// A literal. It takes no more room than its value needs, and contracts see the value alone.
#[derive(Drop)]
pub struct Constant {
    held: Held,
}

impl Model for Constant {
    ghost use Rattle.pearl_value.specs.declared.cell.Cell.{Cell};
    ghost use Rattle.pearl_instructions.specs.Literals.{held_cell, IsShort};

    ghost Value = { Cell };

    ghost view = { λ l. held_cell l.held };

    ghost invariant = { λ l. IsShort (held_cell l.held) };
}

// The bytes of a text, elsewhere.
fn text_of(alloc: Global, text: &[u8]) -> Result<Boxed<Listing<u8>>, NoMemory>
    ensures { IfOk result (λ copy. copy ≡ text.now) }
{
    let mut copy = Vec::with_capacity(alloc, text.len())?;
    copy.extend_from_slice(text)?;
    Ok(Boxed::new(alloc, Listing::new(copy))?)
}

// A text of these bytes.
fn chars_of(text: &[u8]) -> ArrayVec<u8, 255>
    requires { length text.now ≤ 255 }
    ensures { result.items ≡ text.now }
{
    let mut chars = ArrayVec::new();
    chars.try_extend_from_slice(text).unwrap();
    chars
}

// The value that is seen, as a cell.
fn cell_of(seen: Seen<'_>) -> Cell
    requires { IsShort (seen_cell seen) }
    ensures { result ≡ seen_cell seen.entry }
{
    match seen {
        Seen::Fixed { len, value } => Cell::Fixed { len, value },
        Seen::Bits { len, value } => Cell::Bits { len, value },
        Seen::Chars(text) => Cell::Chars(chars_of(text)),
        Seen::Clock(time) => Cell::Clock(time),
        Seen::Span(time) => Cell::Span(time),
        Seen::Ref { kind, place } => Cell::Ref { kind, place },
    }
}

impl Constant {
    /// The literal of a value. For a text memory is taken, and none for another value.
    pub fn new(alloc: Global, value: &Cell) -> Result<Constant, NoMemory>
        ensures { IfOk result (λ constant. constant ≡ value.now) }
    {
        let held = match value {
            Cell::Fixed { len, value } => Held::Fixed {
                len: *len,
                value: *value,
            },
            Cell::Bits { len, value } => Held::Bits {
                len: *len,
                value: *value,
            },
            Cell::Chars(text) => Held::Chars(text_of(alloc, text.as_slice())?),
            Cell::Clock(time) => Held::Clock(*time),
            Cell::Span(time) => Held::Span(*time),
            Cell::Ref { kind, place } => Held::Ref {
                kind: *kind,
                place: *place,
            },
        };
        Ok(Constant { held })
    }

    /// The value, of which nothing is copied but a number, a time or a place.
    #[inline]
    pub fn seen(&self) -> Seen<'_>
        ensures value { seen_cell result ≡ self.now }
        ensures short { IsShort self.now }
    {
        match &self.held {
            Held::Fixed { len, value } => Seen::Fixed {
                len: *len,
                value: *value,
            },
            Held::Bits { len, value } => Seen::Bits {
                len: *len,
                value: *value,
            },
            Held::Chars(text) => Seen::Chars(text.get().as_slice()),
            Held::Clock(time) => Seen::Clock(*time),
            Held::Span(time) => Seen::Span(*time),
            Held::Ref { kind, place } => Seen::Ref {
                kind: *kind,
                place: *place,
            },
        }
    }

    /// The value.
    pub fn cell(&self) -> Cell
        ensures { result ≡ self.now }
    {
        cell_of(self.seen())
    }
}

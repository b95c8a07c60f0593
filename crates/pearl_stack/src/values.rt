// A row of values whose memory is full from the start: a value is written over an old one, where that lies.

ghost use Rattle.std.specs.Prelude.{◌≡◌, ◌+◌, ◌-◌, ◌≤◌, ◌<◌, ◌^◌, [], ◌∷◌, ◌++◌, IfOk, length, take, slice_get, slice_index_or, slice_set, option_map, Some};
ghost use Rattle.pearl_value.specs.declared.cell.Cell.{Cell};
ghost use Rattle.pearl_value.specs.Blanks.{blank_of};
ghost use Rattle.pearl_value.specs.Kinds.{IsKind};
ghost use Rattle.pearl_cells.specs.Filled.{filled};
ghost use Rattle.pearl_stack.specs.Held.{Held};

use pearl_cells::put::{fill_chars, put_bits, put_blank, put_chars, put_copy, put_fixed};
use pearl_value::cell::{Cell, copy_of};
use pearl_value::kind::Kind;
use std::alloc::{AllocError as NoMemory, Global};
use std::marker::Model;

/// The values in use, and for how many there is memory.
#[derive(Drop)]
pub struct Values {
    cells: Vec<Cell>,
    used: usize,
}

impl Model for Values {
    ghost use Rattle.std.specs.Prelude.{◌≤◌, length, take};
    ghost use Rattle.pearl_stack.specs.Held.{Held};

    ghost Value = { Held };

    ghost view = { λ v. record { items = take v.used v.cells.items; room = length v.cells.items } };

    ghost invariant = { λ v. v.used ≤ length v.cells.items };
}

impl Values {
    /// Memory for so many values, of which none is in use.
    pub fn new(alloc: Global, room: usize) -> Result<Values, NoMemory>
        requires { room < 2 ^ 32 }
        ensures { IfOk result (λ v. v ≡ record { items = []; room = room }) }
    {
        let mut cells = Vec::with_capacity(alloc, room)?;
        for _ in 0..room {
            cells.push(Cell::default()).unwrap();
        }
        Ok(Values { cells, used: 0 })
    }

    /// How many values are in use.
    #[inline]
    pub fn len(&self) -> usize
        ensures { result ≡ length self.now.items }
    {
        self.used
    }

    /// A value.
    #[inline]
    pub fn at(&self, i: usize) -> &Cell
        requires { i < length self.now.items }
        ensures { result.now ≡ slice_index_or self.now.items i result.now }
    {
        &self.cells[i]
    }

    /// A copy of a value, as one more.
    #[inline]
    pub fn push_copy(&mut self, x: &Cell)
        requires { length self.old.items < self.old.room }
        ensures { self.new ≡ record self.old { items = self.old.items ++ x.now ∷ [] } }
    {
        put_copy(&mut self.cells[self.used], x);
        self.used += 1;
    }

    /// A FIXED number, as one more.
    #[inline]
    pub fn push_fixed(&mut self, len: u8, value: i64)
        requires { length self.old.items < self.old.room }
        ensures { self.new ≡ record self.old { items = self.old.items ++ Cell.Fixed len value ∷ [] } }
    {
        put_fixed(&mut self.cells[self.used], len, value);
        self.used += 1;
    }

    /// A BIT, as one more.
    #[inline]
    pub fn push_bits(&mut self, len: u8, value: u64)
        requires { length self.old.items < self.old.room }
        ensures { self.new ≡ record self.old { items = self.old.items ++ Cell.Bits len value ∷ [] } }
    {
        put_bits(&mut self.cells[self.used], len, value);
        self.used += 1;
    }

    /// A CHAR, as one more.
    #[inline]
    pub fn push_chars(&mut self, text: &[u8])
        requires room { length self.old.items < self.old.room }
        requires text { length text.now ≤ 255 }
        ensures { self.new ≡ record self.old { items = self.old.items ++ Cell.Chars (record { items = text.now }) ∷ [] } }
    {
        put_chars(&mut self.cells[self.used], text);
        self.used += 1;
    }

    /// A copy of the value at a number, as one more.
    #[inline]
    pub fn push_again(&mut self, from: usize)
        requires there { from < length self.old.items }
        requires room { length self.old.items < self.old.room }
        ensures { option_map (λ x. record self.old { items = self.old.items ++ x ∷ [] }) (slice_get self.old.items from) ≡ Some self.new }
    {
        copy_at(&mut self.cells, from, self.used);
        self.used += 1;
    }

    /// Writes a copy of a value.
    #[inline]
    pub fn set_copy(&mut self, i: usize, x: &Cell)
        requires { i < length self.old.items }
        ensures { self.new ≡ record self.old { items = slice_set self.old.items i x.now } }
    {
        put_copy(&mut self.cells[i], x);
    }

    /// Writes a FIXED number.
    #[inline]
    pub fn set_fixed(&mut self, i: usize, len: u8, value: i64)
        requires { i < length self.old.items }
        ensures { self.new ≡ record self.old { items = slice_set self.old.items i (Cell.Fixed len value) } }
    {
        put_fixed(&mut self.cells[i], len, value);
    }

    /// Writes a BIT.
    #[inline]
    pub fn set_bits(&mut self, i: usize, len: u8, value: u64)
        requires { i < length self.old.items }
        ensures { self.new ≡ record self.old { items = slice_set self.old.items i (Cell.Bits len value) } }
    {
        put_bits(&mut self.cells[i], len, value);
    }

    /// Writes what is unset of the kind.
    #[inline]
    pub fn set_blank(&mut self, i: usize, kind: Kind)
        requires there { i < length self.old.items }
        requires kind { IsKind kind }
        ensures { self.new ≡ record self.old { items = slice_set self.old.items i (blank_of kind) } }
    {
        put_blank(&mut self.cells[i], kind);
    }

    /// Fills the value at a number, where it is a CHAR, with blanks on the right, up to so many bytes.
    #[inline]
    pub fn fill_chars(&mut self, i: usize, len: u8)
        requires { i < length self.old.items }
        ensures { option_map (λ x. record self.old { items = slice_set self.old.items i (filled len x) }) (slice_get self.old.items i) ≡ Some self.new }
    {
        fill_chars(&mut self.cells[i], len);
    }

    /// Writes a copy of the value at a number.
    #[inline]
    pub fn set_again(&mut self, i: usize, from: usize)
        requires there { i < length self.old.items }
        requires from { from < length self.old.items }
        ensures { option_map (λ x. record self.old { items = slice_set self.old.items i x }) (slice_get self.old.items from) ≡ Some self.new }
    {
        copy_at(&mut self.cells, from, i);
    }

    /// The last value, which is no longer in use.
    #[inline]
    pub fn pop(&mut self) -> Cell
        requires { 0 < length self.old.items }
        ensures value { result ≡ slice_index_or self.old.items (length self.old.items - 1) result }
        ensures rest { self.new ≡ record self.old { items = take (length self.old.items - 1) self.old.items } }
    {
        self.used -= 1;
        copy_of(&self.cells[self.used])
    }

    /// Leaves so many values in use.
    #[inline]
    pub fn truncate(&mut self, n: usize)
        requires { n ≤ length self.old.items }
        ensures { self.new ≡ record self.old { items = take n self.old.items } }
    {
        self.used = n;
    }
}

// Writes a copy of one cell over another.
#[inline]
fn copy_at(cells: &mut Vec<Cell>, from: usize, to: usize)
    requires from { from < length cells.old.items }
    requires to { to < length cells.old.items }
    ensures { option_map (λ x. slice_set cells.old.items to x) (slice_get cells.old.items from) ≡ Some cells.new.items }
{
    if from < to {
        let (low, high) = cells.split_at_mut(to);
        put_copy(&mut high[0], &low[from]);
    } else if to < from {
        let (low, high) = cells.split_at_mut(from);
        put_copy(&mut low[to], &high[0]);
    }
}

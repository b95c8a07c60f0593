// One task's stack: parked while other tasks act, loaded while its own does.

ghost use Rattle.std.specs.Prelude.{◌≡◌, ◌≢◌, ℕ, ◌+◌, ◌-◌, ◌≤◌, ◌<◌, ◌^◌, [], ◌++◌, IfOk, IsSome, Some, length, drop, reverse, replicate, option_map, slice_get, vec_capacity};
ghost use Rattle.pearl_value.specs.Blanks.{blank_of};
ghost use Rattle.pearl_value.specs.Kinds.{IsKind};
ghost use Rattle.pearl_value.specs.declared.cell.Cell.{Cell};
ghost use Rattle.pearl_cells.specs.Filled.{filled};
ghost use Rattle.pearl_stack.specs.Frames.{Stack, frame_at, cell_at, operand_at, top_operands, place_of, used, sizes, unset, pushed, popped, without, moved, with_cell, entered};
ghost use Rattle.pearl_stack.specs.Memory.{frames_of, first_or, Divides};

use crate::values::Values;
use pearl_value::cell::Cell;
use pearl_value::kind::Kind;
use std::alloc::{AllocError as NoMemory, Global};
use std::marker::Model;

/// How large one frame of a stack is, and where it stands.
#[derive(Clone, Copy, PartialEq, Eq, Debug)]
pub struct Frame {
    pub routine: u32,
    /// The number of the instruction that comes next; of a calling frame that of its call.
    pub instruction: u64,
    /// The number of its cells.
    pub cells: u32,
    /// The number of its operands.
    pub operands: u32,
}

// A frame in memory: its cells begin at `first`, and its operands lie behind them.
#[derive(Clone, Copy)]
struct Head {
    routine: u32,
    cells: u32,
    instruction: u64,
    first: usize,
}

/// A stack on which its task works.
#[derive(Drop)]
pub struct Loaded {
    // Cells and operands of all frames, those of the lowest first.
    values: Values,
    // The frames, the lowest first.
    heads: Vec<Head>,
    room: usize,
    most: usize,
}

impl Model for Loaded {
    ghost Value = { Stack };

    ghost view = { λ s. record { frames = frames_of (reverse s.heads.items) s.values.items; room = s.room; most = s.most } };

    ghost invariant = { λ s. (s.room ≤ s.values.room) × (s.most ≤ vec_capacity s.heads)
        × (s.room < 2 ^ 32) × (s.most < 2 ^ 32)
        × (length s.values.items ≤ s.room) × (length s.heads.items ≤ s.most)
        × Divides (reverse s.heads.items) (length s.values.items) };
}

/// A stack that waits in its task's row.
#[derive(Drop)]
pub struct Parked {
    stack: Loaded,
}

impl Model for Parked {
    ghost Value = { Stack };

    ghost view = { λ s. s.stack };
}

impl Parked {
    /// A stack with no frame, and with memory for so many cells and operands together, and so many frames.
    pub fn new(alloc: Global, cells: usize, frames: usize) -> Result<Parked, NoMemory>
        requires cells { cells < 2 ^ 32 }
        requires frames { frames < 2 ^ 32 }
        ensures { IfOk result (λ s. s ≡ record { frames = []; room = cells; most = frames }) }
    {
        let values = Values::new(alloc, cells)?;
        let heads = Vec::with_capacity(alloc, frames)?;
        Ok(Parked {
            stack: Loaded {
                values,
                heads,
                room: cells,
                most: frames,
            },
        })
    }

    /// The same stack, to work on.
    #[inline]
    pub fn load(self) -> Loaded
        ensures { result ≡ self }
    {
        self.stack
    }
}

impl Loaded {
    /// The same stack, to wait.
    #[inline]
    pub fn park(self) -> Parked
        ensures { result ≡ self }
    {
        Parked { stack: self }
    }

    /// Leaves no frame.
    pub fn clear(&mut self)
        ensures { self.new ≡ record self.old { frames = [] } }
    {
        self.values.truncate(0);
        self.heads.clear();
    }

    /// Puts an operand on the top frame.
    #[inline]
    pub fn push(&mut self, x: Cell)
        requires some { self.old.frames ≢ [] }
        requires room { used self.old.frames < self.old.room }
        ensures { self.new ≡ record self.old { frames = pushed x self.old.frames } }
    {
        self.values.push_copy(&x);
    }

    /// Puts a copy of a value on the top frame.
    #[inline]
    pub fn push_copy(&mut self, x: &Cell)
        requires some { self.old.frames ≢ [] }
        requires room { used self.old.frames < self.old.room }
        ensures { self.new ≡ record self.old { frames = pushed x.now self.old.frames } }
    {
        self.values.push_copy(x);
    }

    /// Puts a FIXED number on the top frame.
    #[inline]
    pub fn push_fixed(&mut self, len: u8, value: i64)
        requires some { self.old.frames ≢ [] }
        requires room { used self.old.frames < self.old.room }
        ensures { self.new ≡ record self.old { frames = pushed (Cell.Fixed len value) self.old.frames } }
    {
        self.values.push_fixed(len, value);
    }

    /// Puts a BIT on the top frame.
    #[inline]
    pub fn push_bits(&mut self, len: u8, value: u64)
        requires some { self.old.frames ≢ [] }
        requires room { used self.old.frames < self.old.room }
        ensures { self.new ≡ record self.old { frames = pushed (Cell.Bits len value) self.old.frames } }
    {
        self.values.push_bits(len, value);
    }

    /// Puts a CHAR of these bytes on the top frame.
    #[inline]
    pub fn push_chars(&mut self, text: &[u8])
        requires some { self.old.frames ≢ [] }
        requires room { used self.old.frames < self.old.room }
        requires text { length text.now ≤ 255 }
        ensures { self.new ≡ record self.old { frames = pushed (Cell.Chars (record { items = text.now })) self.old.frames } }
    {
        self.values.push_chars(text);
    }

    /// Puts a copy of cell `c` of frame `f` on the top frame; the lowest frame is 0.
    #[inline]
    pub fn push_cell(&mut self, f: u32, c: u32)
        requires cell { IsSome (cell_at self.old.frames f c) }
        requires room { used self.old.frames < self.old.room }
        ensures { option_map (λ x. record self.old { frames = pushed x self.old.frames }) (cell_at self.old.frames f c) ≡ Some self.new }
    {
        let from = self.heads[f as usize].first + c as usize;
        self.values.push_again(from);
    }

    /// Takes the top operand off the top frame.
    #[inline]
    pub fn pop(&mut self) -> Cell
        requires { top_operands self.old.frames ≢ [] }
        ensures operand { slice_get (top_operands self.old.frames) 0 ≡ Some result }
        ensures rest { self.new ≡ record self.old { frames = popped self.old.frames } }
    {
        self.values.pop()
    }

    /// Takes so many operands off the top frame.
    #[inline]
    pub fn drop_top(&mut self, count: u32)
        requires { count ≤ length (top_operands self.old.frames) }
        ensures { self.new ≡ record self.old { frames = without count self.old.frames } }
    {
        let left = self.values.len() - count as usize;
        self.values.truncate(left);
    }

    /// The operand of the top frame that has so many above it.
    #[inline]
    pub fn top(&self, above: u32) -> &Cell
        requires { above < length (top_operands self.now.frames) }
        ensures { slice_get (top_operands self.now.frames) above ≡ Some result.now }
    {
        self.values.at(self.values.len() - 1 - above as usize)
    }

    /// Makes the top operand this FIXED number.
    #[inline]
    pub fn put_top_fixed(&mut self, len: u8, value: i64)
        requires { 0 < length (top_operands self.old.frames) }
        ensures { self.new ≡ record self.old { frames = pushed (Cell.Fixed len value) (popped self.old.frames) } }
    {
        let last = self.values.len() - 1;
        self.values.set_fixed(last, len, value);
    }

    /// Makes the top operand this BIT.
    #[inline]
    pub fn put_top_bits(&mut self, len: u8, value: u64)
        requires { 0 < length (top_operands self.old.frames) }
        ensures { self.new ≡ record self.old { frames = pushed (Cell.Bits len value) (popped self.old.frames) } }
    {
        let last = self.values.len() - 1;
        self.values.set_bits(last, len, value);
    }

    /// Fills the top operand, where it is a CHAR, with blanks on the right, up to so many bytes.
    #[inline]
    pub fn fill_top(&mut self, len: u8)
        requires { 0 < length (top_operands self.old.frames) }
        ensures { option_map (λ x. record self.old { frames = pushed (filled len x) (popped self.old.frames) }) (slice_get (top_operands self.old.frames) 0) ≡ Some self.new }
    {
        let last = self.values.len() - 1;
        self.values.fill_chars(last, len);
    }

    /// The number of frames.
    #[inline]
    pub fn frames(&self) -> u32
        ensures { result ≡ length self.now.frames }
    {
        self.heads.len() as u32
    }

    /// The number of cells and operands of all frames.
    #[inline]
    pub fn size(&self) -> u32
        ensures { result ≡ used self.now.frames }
    {
        self.values.len() as u32
    }

    /// Where frame `f` stands, and how large it is; the lowest frame is 0.
    pub fn frame(&self, f: u32) -> Frame
        requires { IsSome (frame_at self.now.frames f) }
        ensures { option_map sizes (frame_at self.now.frames f) ≡ Some result }
    {
        let head = self.heads[f as usize];
        let end = values_end(self.heads.as_slice(), f, self.values.len());
        Frame {
            routine: head.routine,
            instruction: head.instruction,
            cells: head.cells,
            operands: (end - head.first) as u32 - head.cells,
        }
    }

    /// The number of the top frame's instruction.
    #[inline]
    pub fn place(&self) -> u64
        requires { self.now.frames ≢ [] }
        ensures { result ≡ place_of self.now.frames }
    {
        self.heads[self.heads.len() - 1].instruction
    }

    /// Sets the top frame's instruction.
    #[inline]
    pub fn go(&mut self, instruction: u64)
        requires { self.old.frames ≢ [] }
        ensures { self.new ≡ record self.old { frames = moved instruction self.old.frames } }
    {
        let last = self.heads.len() - 1;
        self.heads[last].instruction = instruction;
    }

    /// Goes on to the top frame's next instruction.
    #[inline]
    pub fn go_on(&mut self)
        requires some { self.old.frames ≢ [] }
        requires next { place_of self.old.frames + 1 < 2 ^ 64 }
        ensures { self.new ≡ record self.old { frames = moved (place_of self.old.frames + 1) self.old.frames } }
    {
        let next = self.place() + 1;
        self.go(next);
    }

    /// Cell `c` of frame `f`; the lowest frame is 0.
    #[inline]
    pub fn cell(&self, f: u32, c: u32) -> &Cell
        requires { IsSome (cell_at self.now.frames f c) }
        ensures { cell_at self.now.frames f c ≡ Some result.now }
    {
        self.values.at(self.heads[f as usize].first + c as usize)
    }

    /// Writes cell `c` of frame `f`; the lowest frame is 0.
    #[inline]
    pub fn set_cell(&mut self, f: u32, c: u32, x: Cell)
        requires { IsSome (cell_at self.old.frames f c) }
        ensures { self.new ≡ record self.old { frames = with_cell self.old.frames f c x } }
    {
        let spot = self.heads[f as usize].first + c as usize;
        self.values.set_copy(spot, &x);
    }

    /// Writes a copy of a value into cell `c` of frame `f`; the lowest frame is 0.
    #[inline]
    pub fn set_cell_copy(&mut self, f: u32, c: u32, x: &Cell)
        requires { IsSome (cell_at self.old.frames f c) }
        ensures { self.new ≡ record self.old { frames = with_cell self.old.frames f c x.now } }
    {
        let at = self.heads[f as usize].first + c as usize;
        self.values.set_copy(at, x);
    }

    /// Writes a FIXED number into cell `c` of frame `f`; the lowest frame is 0.
    #[inline]
    pub fn set_cell_fixed(&mut self, f: u32, c: u32, len: u8, value: i64)
        requires { IsSome (cell_at self.old.frames f c) }
        ensures { self.new ≡ record self.old { frames = with_cell self.old.frames f c (Cell.Fixed len value) } }
    {
        let at = self.heads[f as usize].first + c as usize;
        self.values.set_fixed(at, len, value);
    }

    /// Writes what is unset of the kind into cell `c` of frame `f`; the lowest frame is 0.
    #[inline]
    pub fn set_cell_blank(&mut self, f: u32, c: u32, kind: Kind)
        requires cell { IsSome (cell_at self.old.frames f c) }
        requires kind { IsKind kind }
        ensures { self.new ≡ record self.old { frames = with_cell self.old.frames f c (blank_of kind) } }
    {
        let at = self.heads[f as usize].first + c as usize;
        self.values.set_blank(at, kind);
    }

    // Copies the top operand into cell `c` of frame `f`.
    #[inline]
    fn copy_top(&mut self, f: u32, c: u32)
        requires operand { 0 < length (top_operands self.old.frames) }
        requires cell { IsSome (cell_at self.old.frames f c) }
        ensures { option_map (λ x. record self.old { frames = with_cell self.old.frames f c x }) (slice_get (top_operands self.old.frames) 0) ≡ Some self.new }
    {
        let at = self.heads[f as usize].first + c as usize;
        let last = self.values.len() - 1;
        self.values.set_again(at, last);
    }

    /// Puts the top operand of the top frame into cell `c` of frame `f`, and takes it off; the lowest frame is 0.
    #[inline]
    pub fn store_top(&mut self, f: u32, c: u32)
        requires operand { 0 < length (top_operands self.old.frames) }
        requires cell { IsSome (cell_at self.old.frames f c) }
        ensures { option_map (λ x. record self.old { frames = popped (with_cell self.old.frames f c x) }) (slice_get (top_operands self.old.frames) 0) ≡ Some self.new }
    {
        self.copy_top(f, c);
        self.drop_top(1);
    }

    /// Operand `at` of frame `f`, the one that was pushed first being 0; the lowest frame is 0.
    #[inline]
    pub fn operand(&self, f: u32, at: u32) -> &Cell
        requires { IsSome (operand_at self.now.frames f at) }
        ensures { operand_at self.now.frames f at ≡ Some result.now }
    {
        let head = self.heads[f as usize];
        self.values
            .at(head.first + head.cells as usize + at as usize)
    }

    /// Makes a new top frame at instruction 0. Its first cells are the top `params` operands, in the order in which
    /// they were pushed; they stay where they lie.
    pub fn enter(&mut self, routine: u32, params: u32, cells: u32)
        requires operands { params ≤ length (top_operands self.old.frames) }
        requires params { params ≤ cells }
        requires room { used self.old.frames + (cells - params) ≤ self.old.room }
        requires frame { length self.old.frames < self.old.most }
        ensures { self.new ≡ record self.old { frames = entered routine params cells self.old.frames } }
    {
        let head = Head {
            routine,
            cells,
            instruction: 0,
            first: self.values.len() - params as usize,
        };
        fill(&mut self.values, cells - params);
        self.heads.push(head).unwrap();
    }

    /// Drops the top frame, with its cells and operands.
    pub fn leave(&mut self)
        requires { self.old.frames ≢ [] }
        ensures { self.new ≡ record self.old { frames = drop 1 self.old.frames } }
    {
        let below = self.heads.len() - 1;
        self.values.truncate(self.heads[below].first);
        self.heads.truncate(below);
    }

    /// Drops the top frame but for its top operand, which the frame below has on top then.
    pub fn leave_with_top(&mut self)
        requires operand { 0 < length (top_operands self.old.frames) }
        requires below { drop 1 self.old.frames ≢ [] }
        ensures { option_map (λ x. record self.old { frames = pushed x (drop 1 self.old.frames) }) (slice_get (top_operands self.old.frames) 0) ≡ Some self.new }
    {
        let below = self.heads.len() - 1;
        let first = self.heads[below].first;
        let last = self.values.len() - 1;
        self.values.set_again(first, last);
        self.values.truncate(first + 1);
        self.heads.truncate(below);
    }
}

// Where the values of frame `f` end: where those of the frame above it begin, or at the end of all.
fn values_end(heads: &[Head], f: u32, all: usize) -> usize
    ensures { result ≡ first_or all (slice_get heads.now (f + 1)) }
{
    match heads.get(f as usize + 1) {
        Some(above) => above.first,
        None => all,
    }
}

// Appends what a cell holds before it is written.
fn fill(values: &mut Values, count: u32)
    requires { length values.old.items + count ≤ values.old.room }
    ensures items { values.new.items ≡ values.old.items ++ replicate count unset }
    ensures room { values.new.room ≡ values.old.room }
{
    for _ in 0..count {
        values.push_fixed(31, 0);
    }
}

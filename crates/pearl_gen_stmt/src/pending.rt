// Jumps to places that come later.

ghost use Rattle.std.specs.Prelude.{◌≡◌, ◌≢◌, ℕ, ◌+◌, ◌<◌, ◌≤◌, true, false, [], ◌∷◌, ◌++◌, length, Some, slice_get, OnOk, Contains};
ghost use Rattle.pearl_gen_expr.specs.ExprCode.{Is};
ghost use Rattle.pearl_gen_expr.specs.Emitting.{Extends};
ghost use Rattle.pearl_instructions.specs.declared.instr.Instr.{Instr as InstrOf};
ghost use Rattle.pearl_gen_stmt.specs.Emission.{pending as pending_of, instr_of, jump_to, Notes};

use pearl_instructions::instr::Instr;
use pearl_value::trap::Trap;
use std::alloc::AllocError as NoMemory;

/// A jump whose place isn't known yet. Until it is, an instruction that no statement has stands in its place.
#[derive(Clone, Copy, PartialEq, Eq, Debug)]
pub enum Pending {
    /// Behind the innermost loop.
    Exit,
    /// Behind the innermost loop where the bit on top is 0.
    Test,
    /// Behind IF or CASE.
    Branch,
}

impl Pending {
    /// What stands in its place.
    fn instr(self) -> Instr
        ensures { result ≡ instr_of self }
    {
        match self {
            Pending::Exit => Instr::End,
            Pending::Test => Instr::Trap(Trap::Index),
            Pending::Branch => Instr::Trap(Trap::Range),
        }
    }

    /// The jump to this place.
    fn jump(self, place: u64) -> Instr
        ensures { result ≡ jump_to self place }
    {
        match self {
            Pending::Exit => Instr::Jump(place),
            Pending::Test => Instr::JumpZero(place),
            Pending::Branch => Instr::Jump(place),
        }
    }
}

// Whether a jump of this sort stands here that isn't known yet.
fn is_pending(instr: &Instr, kind: Pending) -> bool
    ensures hit { result ≡ true → pending_of instr.now ≡ Some kind }
    ensures missed { result ≡ false → pending_of instr.now ≢ Some kind }
{
    match (kind, instr) {
        (Pending::Exit, Instr::End) => true,
        (Pending::Test, Instr::Trap(Trap::Index)) => true,
        (Pending::Branch, Instr::Trap(Trap::Range)) => true,
        _ => false,
    }
}

/// One more place is noted.
pub fn note(places: &mut Vec<usize>, place: usize) -> Result<(), NoMemory>
    ensures there { OnOk result (Contains places.new.items place) }
    ensures noted { Notes places.old.items places.new.items }
{
    places.push(place)?;
    Ok(())
}

/// One more instruction.
pub fn emit(code: &mut Vec<Instr>, instr: Instr) -> Result<(), NoMemory>
    ensures added { OnOk result (code.new.items ≡ code.old.items ++ instr ∷ []) }
    ensures kept { Extends code.old.items code.new.items }
{
    code.push(instr)?;
    Ok(())
}

/// One more jump whose place isn't known yet.
pub fn emit_pending(code: &mut Vec<Instr>, pending: Pending) -> Result<(), NoMemory>
    ensures added { OnOk result (code.new.items ≡ code.old.items ++ instr_of pending ∷ []) }
    ensures kept { Extends code.old.items code.new.items }
{
    emit(code, pending.instr())?;
    Ok(())
}

/// The instruction that stands here becomes this one.
pub fn put(code: &mut Vec<Instr>, place: usize, instr: Instr)
    requires { place < length code.old.items }
    ensures there { Is code.new.items place instr }
    ensures elsewhere { (k : ℕ) → k ≢ place → slice_get code.new.items k ≡ slice_get code.old.items k }
    ensures long { length code.new.items ≡ length code.old.items }
{
    code[place] = instr;
}

// If a jump of this sort stands here, it leads to this place now.
fn settle_one(code: &mut Vec<Instr>, place: usize, kind: Pending, to: u64)
    ensures settled { Is code.old.items place (instr_of kind) → Is code.new.items place (jump_to kind to) }
    ensures kept { (k : ℕ) (i : InstrOf) → Is code.old.items k i → pending_of i ≢ Some kind → Is code.new.items k i }
    ensures elsewhere { (k : ℕ) → k ≢ place → slice_get code.new.items k ≡ slice_get code.old.items k }
    ensures long { length code.new.items ≡ length code.old.items }
{
    if place < code.len() && is_pending(&code[place], kind) {
        put(code, place, kind.jump(to));
    }
}

/// The jumps of this sort that stand from `from` up to `until` lead to `to` now.
pub fn settle_between(code: &mut Vec<Instr>, from: usize, until: usize, kind: Pending, to: u64)
    ensures settled { (k : ℕ) → from ≤ k → k < until → Is code.old.items k (instr_of kind) → Is code.new.items k (jump_to kind to) }
    ensures kept { (k : ℕ) (i : InstrOf) → Is code.old.items k i → pending_of i ≢ Some kind → Is code.new.items k i }
    ensures before { (k : ℕ) → k < from → slice_get code.new.items k ≡ slice_get code.old.items k }
    ensures long { length code.new.items ≡ length code.old.items }
{
    for index in from..until {
        settle_one(code, index, kind, to);
    }
}

/// Of these places those from `from` on: a jump of this sort that stands there leads to `to` now.
pub fn settle_at(code: &mut Vec<Instr>, from: usize, places: &[usize], kind: Pending, to: u64)
    ensures settled { (k : ℕ) → from ≤ k → Contains places.now k → Is code.old.items k (instr_of kind) → Is code.new.items k (jump_to kind to) }
    ensures kept { (k : ℕ) (i : InstrOf) → Is code.old.items k i → pending_of i ≢ Some kind → Is code.new.items k i }
    ensures before { (k : ℕ) → k < from → slice_get code.new.items k ≡ slice_get code.old.items k }
    ensures long { length code.new.items ≡ length code.old.items }
{
    for place in places {
        if from <= *place {
            settle_one(code, *place, kind, to);
        }
    }
}

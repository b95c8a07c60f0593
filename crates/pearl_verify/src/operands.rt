// What instructions take off the operands.

ghost use Rattle.std.specs.Prelude.{◌≡◌, ◌≤◌, ◌++◌, [], ◌∷◌, length, drop, map, replicate, slice_get, nat_le};
ghost use Rattle.pearl_value.specs.declared.kind.Kind.{Kind};
ghost use Rattle.pearl_instructions.specs.Objects.{items_at};
ghost use Rattle.pearl_instructions.specs.Offers.{start_kinds, repeat_kinds, start_or_free, as_start};
ghost use Rattle.pearl_instructions.specs.Opcodes.{Anything, SomeFixed, SomeReference, Exactly, scheduled, priority_asked};
ghost use Rattle.pearl_instructions.specs.Operands.{asked, arguments_asked, values_asked, v2};
ghost use Rattle.pearl_verify.specs.Formats.{format_row};

use crate::formats::FormatRow;
use crate::kinds::Kinds;
use crate::named::{as_start, start_or_free};
use crate::same::{is_fixed, is_reference, same_cell};
use crate::table::{data_count, result_of};
use pearl_instructions::instr::{Activation, Instr};
use pearl_instructions::object::Parts;
use pearl_instructions::schedule::{RepeatForm, StartForm};
use pearl_value::kind::{CellKind, Kind};

fn is_fixed_at(kinds: &Kinds, below: usize) -> bool
    ensures { result ≡ v2 (SomeFixed ∷ []) (drop below kinds.now) }
{
    match kinds.at(below) {
        Some(kind) => is_fixed(kind),
        None => false,
    }
}

fn is_reference_at(kinds: &Kinds, below: usize) -> bool
    ensures { result ≡ v2 (SomeReference ∷ []) (drop below kinds.now) }
{
    match kinds.at(below) {
        Some(kind) => is_reference(kind),
        None => false,
    }
}

fn is_exactly_at(kinds: &Kinds, below: usize, of: Kind) -> bool
    ensures { result ≡ v2 (Exactly of ∷ []) (drop below kinds.now) }
{
    match kinds.at(below) {
        Some(kind) => same_cell(CellKind::Plain(of), kind),
        None => false,
    }
}

/// Whether there are so many operands.
fn has(kinds: &Kinds, count: u64) -> bool
    ensures { result ≡ v2 (replicate count Anything) kinds.now }
{
    count <= kinds.len() as u64
}

/// Whether the top ones are so many FIXED values.
fn are_fixed(kinds: &Kinds, count: usize) -> bool
    ensures { result ≡ v2 (replicate count SomeFixed) kinds.now }
{
    for below in 0..count {
        if !is_fixed_at(kinds, below) {
            return false;
        }
    }
    true
}

fn meets_start(kinds: &Kinds, below: usize, start: StartForm) -> bool
    ensures { result ≡ v2 (scheduled (start_kinds start)) (drop below kinds.now) }
{
    match start {
        StartForm::Free => true,
        StartForm::At => is_exactly_at(kinds, below, Kind::Clock),
        StartForm::After => is_exactly_at(kinds, below, Kind::Span),
        StartForm::When(_) => true,
        StartForm::WhenAfter(_) => is_exactly_at(kinds, below, Kind::Span),
    }
}

fn meets_repeat(kinds: &Kinds, below: usize, repeat: RepeatForm) -> bool
    requires { below ≤ 1 }
    ensures { result ≡ v2 (scheduled (repeat_kinds repeat)) (drop below kinds.now) }
{
    match repeat {
        RepeatForm::Once => true,
        RepeatForm::All => is_exactly_at(kinds, below, Kind::Span),
        RepeatForm::Until => {
            is_exactly_at(kinds, below, Kind::Clock) && is_exactly_at(kinds, below + 1, Kind::Span)
        }
        RepeatForm::During => {
            is_exactly_at(kinds, below, Kind::Span) && is_exactly_at(kinds, below + 1, Kind::Span)
        }
    }
}

/// How many values the start of a plan takes.
fn start_count(start: StartForm) -> usize
    ensures { result ≡ length (start_kinds start) }
{
    match start {
        StartForm::Free => 0,
        StartForm::At => 1,
        StartForm::After => 1,
        StartForm::When(_) => 0,
        StartForm::WhenAfter(_) => 1,
    }
}

/// How many values the repetition of a plan takes.
fn repeat_count(repeat: RepeatForm) -> usize
    ensures { result ≡ length (repeat_kinds repeat) }
{
    match repeat {
        RepeatForm::Once => 0,
        RepeatForm::All => 1,
        RepeatForm::Until => 2,
        RepeatForm::During => 2,
    }
}

fn meets_priority(kinds: &Kinds, priority: bool) -> bool
    ensures { result ≡ v2 (priority_asked priority) kinds.now }
{
    !priority || is_fixed_at(kinds, 0)
}

/// How many values the priority takes.
fn priority_count(priority: bool) -> usize
    ensures value { result ≡ length (priority_asked priority) }
    ensures few { result ≤ 1 }
{
    if priority { 1 } else { 0 }
}

fn meets_activation(kinds: &Kinds, a: Activation) -> bool
    ensures { result ≡ v2 (priority_asked a.priority ++ scheduled (start_kinds a.start ++ repeat_kinds a.repeat)) kinds.now }
{
    let above = priority_count(a.priority);
    let values = above + repeat_count(a.repeat);
    if !meets_priority(kinds, a.priority) {
        return false;
    }
    if !meets_repeat(kinds, above, a.repeat) {
        return false;
    }
    meets_start(kinds, values, a.start)
}

fn arguments_count(object: &Parts, procedure: u64) -> u64
    ensures { result ≡ length (arguments_asked (slice_get object.now.procedures procedure)) }
{
    match object.procedures.as_slice().get(procedure as usize) {
        Some(callee) => callee.params,
        None => 0,
    }
}

fn values_count(object: &Parts, formats: &[FormatRow], format: u64) -> usize
    requires { formats.now ≡ map format_row object.now.formats }
    ensures { result ≡ length (values_asked (items_at object.now format)) }
{
    data_count(object, formats, format).unwrap_or(0)
}

/// Whether the operands are what the instruction takes (V2).
pub(crate) fn are_operands(
    object: &Parts,
    formats: &[FormatRow],
    routine: usize,
    instr: &Instr,
    kinds: &Kinds,
) -> bool
    requires { formats.now ≡ map format_row object.now.formats }
    ensures { result ≡ v2 (asked object.now routine instr.now) kinds.now }
{
    match instr {
        Instr::Store(_) | Instr::Drop | Instr::Conv(_) | Instr::Write(_) | Instr::Monadic(_) => {
            has(kinds, 1)
        }
        Instr::Send(_) => has(kinds, 1),
        Instr::Dyadic(_) => has(kinds, 2),
        Instr::Index(bounds) => are_fixed(kinds, bounds.get().as_slice().len()),
        Instr::LoadAt { .. } | Instr::ReadAt(_) | Instr::RefSlotAt(_) | Instr::RefCellAt { .. } => {
            is_exactly_at(kinds, 0, Kind::Fixed(31))
        }
        Instr::StoreAt { .. } | Instr::WriteAt(_) => is_exactly_at(kinds, 1, Kind::Fixed(31)),
        Instr::ReadRef => is_reference_at(kinds, 0),
        Instr::WriteRef => is_reference_at(kinds, 1),
        Instr::JumpZero(_) => is_exactly_at(kinds, 0, Kind::Bits(1)),
        Instr::Case(_) | Instr::NonZero => is_fixed_at(kinds, 0),
        Instr::Call(procedure) => has(kinds, arguments_count(object, *procedure)),
        Instr::Return => result_of(object, routine).is_none() || has(kinds, 1),
        Instr::Activate(a) => meets_activation(kinds, *a.get()),
        Instr::Continue(c) => meets_start(kinds, 0, start_or_free(c.get().once)),
        Instr::Resume(form) => meets_start(kinds, 0, as_start(*form)),
        Instr::Put { format, .. } => has(kinds, values_count(object, formats, *format) as u64),
        _ => true,
    }
}

/// How many operands the instruction takes.
pub(crate) fn operand_count(
    object: &Parts,
    formats: &[FormatRow],
    routine: usize,
    instr: &Instr,
) -> u64
    requires { formats.now ≡ map format_row object.now.formats }
    ensures { result ≡ length (asked object.now routine instr.now) }
{
    match instr {
        Instr::Store(_) | Instr::Drop | Instr::Conv(_) | Instr::Write(_) | Instr::Monadic(_) => 1,
        Instr::Send(_) => 1,
        Instr::Dyadic(_) => 2,
        Instr::Index(bounds) => bounds.get().as_slice().len() as u64,
        Instr::LoadAt { .. } | Instr::ReadAt(_) | Instr::RefSlotAt(_) | Instr::RefCellAt { .. } =>
            1,
        Instr::StoreAt { .. } | Instr::WriteAt(_) | Instr::WriteRef => 2,
        Instr::ReadRef | Instr::JumpZero(_) | Instr::Case(_) | Instr::NonZero => 1,
        Instr::Call(procedure) => arguments_count(object, *procedure),
        Instr::Return => match result_of(object, routine) {
            Some(_) => 1,
            None => 0,
        },
        Instr::Activate(activation) => {
            let a = activation.get();
            let priorities = if a.priority { 1 } else { 0 };
            (priorities + start_count(a.start) + repeat_count(a.repeat)) as u64
        }
        Instr::Continue(c) => start_count(start_or_free(c.get().once)) as u64,
        Instr::Resume(form) => start_count(as_start(*form)) as u64,
        Instr::Put { format, .. } => values_count(object, formats, *format) as u64,
        _ => 0,
    }
}

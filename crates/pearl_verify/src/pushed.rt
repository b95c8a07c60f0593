// The kinds of what instructions push, and which kinds operators take.

ghost use Rattle.std.specs.Prelude.{◌≡◌, Option, option_map, slice_get};
ghost use Rattle.pearl_value.specs.declared.kind.CellKind.TheVariants.{Plain};
ghost use Rattle.pearl_instructions.specs.Kinds.{monadic_kind, dyadic_kind, converts, v3, reference_to, referred, pushed_kind};

use crate::kinds::Kinds;
use crate::same::{reference_to, referred};
use crate::table::{kind_taken, leaf_kind, result_of};
use pearl_instructions::instr::Instr;
use pearl_instructions::object::{Code, Parts};
use pearl_value::conversion::{cell_kind, suits};
use pearl_value::kind::{CellKind, Kind};
use pearl_value::operator::{Dyad, Monad, result1, result2};

fn monadic_kind(op: Monad, kinds: &Kinds) -> Option<Kind>
    ensures { result ≡ monadic_kind op kinds.now }
{
    match kinds.at(0) {
        Some(CellKind::Plain(of)) => result1(op, of),
        Some(CellKind::RefTo(_)) => None,
        None => None,
    }
}

fn dyadic_kind(op: Dyad, kinds: &Kinds) -> Option<Kind>
    ensures { result ≡ dyadic_kind op kinds.now }
{
    match (kinds.at(1), kinds.at(0)) {
        (Some(CellKind::Plain(of_x)), Some(CellKind::Plain(of_y))) => result2(op, of_x, of_y),
        _ => None,
    }
}

fn converts(to: Kind, kinds: &Kinds) -> bool
    ensures { result ≡ converts to kinds.now }
{
    match kinds.at(0) {
        Some(CellKind::Plain(from)) => suits(from, to),
        Some(CellKind::RefTo(_)) => false,
        None => false,
    }
}

/// Whether an operator has a row for the kinds, and a conversion's kinds suit (V3).
pub(crate) fn has_row(instr: &Instr, kinds: &Kinds) -> bool
    ensures { result ≡ v3 instr.now kinds.now }
{
    match instr {
        Instr::Conv(to) => converts(*to, kinds),
        Instr::Monadic(op) => monadic_kind(*op, kinds).is_some(),
        Instr::Dyadic(op) => dyadic_kind(*op, kinds).is_some(),
        _ => true,
    }
}

fn plain(kind: Option<Kind>) -> Option<CellKind>
    ensures { result ≡ option_map Plain kind }
{
    match kind {
        Some(of) => Some(CellKind::Plain(of)),
        None => None,
    }
}

fn reference(kind: Option<CellKind>) -> Option<CellKind>
    ensures { result ≡ option_map reference_to kind }
{
    match kind {
        Some(of) => Some(reference_to(of)),
        None => None,
    }
}

fn variable(kind: Option<CellKind>) -> Option<CellKind>
    ensures { result ≡ option_map referred kind }
{
    match kind {
        Some(of) => Some(referred(of)),
        None => None,
    }
}

fn cell_at(code: &Code, cell: u64) -> Option<CellKind>
    ensures { result ≡ slice_get code.now.cells cell }
{
    code.cells.as_slice().get(cell as usize).copied()
}

/// The kind of what the instruction pushes, where it pushes something.
pub(crate) fn pushed_kind(
    object: &Parts,
    code: &Code,
    instr: &Instr,
    kinds: &Kinds,
) -> Option<CellKind>
    ensures { result ≡ pushed_kind object.now code.now instr.now kinds.now }
{
    match instr {
        Instr::Const(literal) => Some(cell_kind(&literal.cell())),
        Instr::Load(cell) => cell_at(code, *cell),
        Instr::Conv(to) => Some(CellKind::Plain(*to)),
        Instr::Index(_) => Some(CellKind::Plain(Kind::Fixed(31))),
        Instr::LoadAt { first, .. } => cell_at(code, *first),
        Instr::Read(leaf) | Instr::ReadAt(leaf) => leaf_kind(object, *leaf),
        Instr::RefSlot(leaf) | Instr::RefSlotAt(leaf) => reference(leaf_kind(object, *leaf)),
        Instr::RefCell(cell) => reference(cell_at(code, *cell)),
        Instr::RefCellAt { first, .. } => reference(cell_at(code, *first)),
        Instr::ReadRef => variable(kinds.at(0)),
        Instr::Call(procedure) => plain(result_of(object, *procedure as usize)),
        Instr::Within(_) => Some(CellKind::Plain(Kind::Bits(1))),
        Instr::NonZero => kinds.at(0),
        Instr::Monadic(op) => plain(monadic_kind(*op, kinds)),
        Instr::Dyadic(op) => plain(dyadic_kind(*op, kinds)),
        Instr::Now => Some(CellKind::Plain(Kind::Clock)),
        Instr::Try(_) => Some(CellKind::Plain(Kind::Bits(1))),
        Instr::Take(device) => kind_taken(object, *device),
        _ => None,
    }
}

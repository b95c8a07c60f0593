// Comparisons of kinds.

ghost use Rattle.std.specs.Prelude.{◌≡◌, Bool};
ghost use Rattle.pearl_instructions.specs.Operands.{same_kind, same_cell, same_shape, is_fixed, is_reference};
ghost use Rattle.pearl_instructions.specs.Kinds.{plain_kind, referred, reference_to, is_kind};

use pearl_value::kind::{CellKind, Kind};

pub(crate) fn same_kind(one: Kind, other: Kind) -> bool
    ensures { result ≡ same_kind one other }
{
    match (one, other) {
        (Kind::Fixed(len), Kind::Fixed(length)) => len == length,
        (Kind::Bits(len), Kind::Bits(length)) => len == length,
        (Kind::Chars(len), Kind::Chars(length)) => len == length,
        (Kind::Clock, Kind::Clock) => true,
        (Kind::Span, Kind::Span) => true,
        _ => false,
    }
}

pub(crate) fn same_cell(one: CellKind, other: CellKind) -> bool
    ensures { result ≡ same_cell one other }
{
    match (one, other) {
        (CellKind::Plain(of), CellKind::Plain(other)) => same_kind(of, other),
        (CellKind::RefTo(of), CellKind::RefTo(other)) => same_kind(of, other),
        _ => false,
    }
}

/// Whether two lists have the same kinds in order.
pub(crate) fn same_list(one: &[CellKind], other: &[CellKind]) -> bool
    ensures { result ≡ same_shape one.now other.now }
{
    if one.len() != other.len() {
        return false;
    }
    for i in 0..one.len() {
        if !same_cell(one[i], other[i]) {
            return false;
        }
    }
    true
}

pub(crate) fn is_kind(kind: CellKind, want: Option<CellKind>) -> bool
    ensures { result ≡ is_kind kind want }
{
    match want {
        Some(other) => same_cell(kind, other),
        None => false,
    }
}

pub(crate) fn is_fixed(kind: CellKind) -> bool
    ensures { result ≡ is_fixed kind }
{
    match kind {
        CellKind::Plain(Kind::Fixed(_)) => true,
        _ => false,
    }
}

pub(crate) fn is_reference(kind: CellKind) -> bool
    ensures { result ≡ is_reference kind }
{
    match kind {
        CellKind::Plain(_) => false,
        CellKind::RefTo(_) => true,
    }
}

/// The kind of a variable that a reference of this kind names.
pub(crate) fn referred(kind: CellKind) -> CellKind
    ensures { result ≡ referred kind }
{
    match kind {
        CellKind::Plain(of) => CellKind::Plain(of),
        CellKind::RefTo(of) => CellKind::Plain(of),
    }
}

/// The kind of a reference to a cell of this kind.
pub(crate) fn reference_to(kind: CellKind) -> CellKind
    ensures { result ≡ reference_to kind }
{
    match kind {
        CellKind::Plain(of) => CellKind::RefTo(of),
        CellKind::RefTo(of) => CellKind::RefTo(of),
    }
}

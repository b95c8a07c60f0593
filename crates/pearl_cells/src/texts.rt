// The comparisons of two texts.

ghost use Rattle.std.specs.Prelude.{◌≡◌, ◌≤◌, ◌<◌, length, IfSome};
ghost use Rattle.pearl_value.specs.declared.cell.Cell.{Cell};
ghost use Rattle.pearl_value.specs.Comparisons.{text_cmp};
ghost use Rattle.pearl_value.specs.Applied.{applied2};
ghost use Rattle.pearl_cells.specs.Made.{result_of};

use crate::numbers::Made;
use crate::put::blanks;
use arrayvec::ArrayVec;
use pearl_value::operator::Dyad;
use std::cmp::Ordering;

// The order of a text and one that is no shorter.
fn order_of_shorter(text: &[u8], other: &[u8]) -> Ordering
    requires shorter { length text.now ≤ length other.now }
    requires room { length other.now ≤ 255 }
    ensures { result ≡ text_cmp text.now other.now }
{
    let (front, rest) = other.split_at(text.len());
    match text.cmp(front) {
        Ordering::Equal => blanks(rest.len()).cmp(rest),
        order => order,
    }
}

// The order of a text and a shorter one.
fn order_of_longer(text: &[u8], other: &[u8]) -> Ordering
    requires longer { length other.now < length text.now }
    requires room { length text.now ≤ 255 }
    ensures { result ≡ text_cmp text.now other.now }
{
    let (front, rest) = text.split_at(other.len());
    match front.cmp(other) {
        Ordering::Equal => rest.cmp(blanks(rest.len())),
        order => order,
    }
}

/// The order of two texts, byte by byte, the shorter filled with blanks on the right.
pub fn text_order(text: &ArrayVec<u8, 255>, other: &ArrayVec<u8, 255>) -> Ordering
    ensures { result ≡ text_cmp text.now.items other.now.items }
{
    let first = text.as_slice();
    let second = other.as_slice();
    if first.len() <= second.len() {
        order_of_shorter(first, second)
    } else {
        order_of_longer(first, second)
    }
}

/// What a comparison makes of two texts, in the order in which they are written.
pub fn of_texts(op: Dyad, text: &ArrayVec<u8, 255>, other: &ArrayVec<u8, 255>) -> Option<Made>
    ensures { IfSome result (λ made. result_of made ≡ applied2 op (Cell.Chars text.now) (Cell.Chars other.now)) }
{
    match op {
        Dyad::Lt => Some(Made::Truth(text_order(text, other).is_lt())),
        Dyad::Gt => Some(Made::Truth(text_order(text, other).is_gt())),
        Dyad::Le => Some(Made::Truth(text_order(text, other).is_le())),
        Dyad::Ge => Some(Made::Truth(text_order(text, other).is_ge())),
        Dyad::Eq => Some(Made::Truth(text_order(text, other).is_eq())),
        Dyad::Ne => Some(Made::Truth(text_order(text, other).is_ne())),
        _ => None,
    }
}

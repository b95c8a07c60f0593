// The kinds of literals.

ghost use Rattle.std.specs.Prelude.{◌≡◌, pos};
ghost use Rattle.pearl_value.specs.Conversions as conversions;
ghost use Rattle.pearl_tree.specs.ShownLiterals.{shown_literal};
ghost use Rattle.pearl_check_expr.specs.Literals as spec;

use pearl_names::duration::is_too_long;
use pearl_names::length::Lengths;
use pearl_tree::literal::{Duration, Literal};
use pearl_tree::typing::Sort;
use pearl_value::kind::Kind;

/// Whether a number lies below 2^len.
pub fn fits_fixed(len: u8, value: u64) -> bool
    ensures { result ≡ conversions.fits_fixed len (pos value) }
{
    if len < 64 { value < 1 << len } else { true }
}

/// The length of a number: the default one where the number fits, and else 63.
pub fn fixed_length(len: u8, value: u64) -> u8
    ensures { result ≡ spec.fixed_length len value }
{
    if fits_fixed(len, value) { len } else { 63 }
}

fn duration_kind(duration: &Duration) -> Option<Kind>
    ensures { result ≡ spec.duration_kind duration.now }
{
    if is_too_long(duration) {
        None
    } else {
        Some(Kind::Span)
    }
}

/// The kind of a literal. A duration that is too long has none.
pub fn literal_kind(lengths: &Lengths, literal: &Literal) -> Option<Kind>
    ensures { result ≡ spec.literal_kind lengths.now (shown_literal literal.now) }
{
    match literal {
        Literal::Number(number) => {
            let len = lengths.at(Sort::Fixed, number.place);
            Some(Kind::Fixed(fixed_length(len, number.value)))
        }
        Literal::Bits { len, .. } => Some(Kind::Bits(*len)),
        Literal::Text { text, .. } => Some(Kind::Chars(text.len() as u8)),
        Literal::Clock { .. } => Some(Kind::Clock),
        Literal::Duration(duration) => duration_kind(duration),
    }
}

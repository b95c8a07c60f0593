// Numbers that digits spell.

ghost use Rattle.std.specs.Prelude.{◌≡◌, ◌≤◌, ◌<◌, ◌+◌, ◌*◌, ◌^◌, Option, Some, None, IfSome, length, take, drop};
ghost use Rattle.pearl_value.specs.Kinds.{IsKind};
ghost use Rattle.pearl_value.specs.declared.kind.Kind.TheVariants as kind;
ghost use Rattle.pearl_value.specs.Conversions.{fits_fixed};
ghost use Rattle.pearl_rules.specs.Literals as spec;
ghost use Rattle.pearl_rules.specs.Scan.{if_fits};
ghost use Rattle.pearl_scan.specs.Gaps as gaps;
ghost use Rattle.pearl_scan.specs.Digits.{followed};

use crate::gap::{Gap, behind_minus};

// The number with one more digit, within a limit.
fn followed_by(limit: u64, value: u64, digit: u8) -> Option<u64>
    requires { value ≤ limit }
    ensures { result ≡ followed limit value digit }
{
    if !digit.is_ascii_digit() {
        return None;
    }
    let next = value as u128 * 10 + (digit - b'0') as u128;
    if next > limit as u128 {
        return None;
    }
    Some(next as u64)
}

/// The number that digits spell in decimal, where it is no greater than the limit; none where there is no digit, or
/// another byte.
pub(crate) fn number_up_to(limit: u64, digits: &[u8]) -> Option<u64>
    ensures value { result ≡ spec.number_up_to limit digits.now }
    ensures within { IfSome result (λ n. n ≤ limit) }
{
    if digits.is_empty() {
        return None;
    }
    let mut value = 0u64;
    for digit in digits {
        value = followed_by(limit, value, *digit)?;
    }
    Some(value)
}

/// A number: one or more digits, at most 2^63 - 1.
pub fn number_literal(digits: &[u8]) -> Option<u64>
    ensures value { result ≡ spec.number_literal digits.now }
    ensures within { IfSome result (λ n. n < 2 ^ 63) }
{
    number_up_to((1 << 63) - 1, digits)
}

/// A FIXED literal: a number, perhaps with `-` and any number of blanks in front.
pub fn fixed_literal(gap: Gap, text: &[u8]) -> Option<i64>
    ensures { result ≡ spec.fixed_literal (gaps.is_gap gap) text.now }
{
    match behind_minus(gap, text) {
        Some(digits) => Some(-(number_literal(digits)? as i64)),
        None => Some(number_literal(text)? as i64),
    }
}

/// One to three digits behind a point, in thousandths: those that are missing are zeros.
pub(crate) fn thousandths(digits: &[u8]) -> Option<u32>
    ensures value { result ≡ spec.thousandths digits.now }
    ensures within { IfSome result (λ n. n < 1000) }
{
    if digits.len() > 3 {
        return None;
    }
    let spelled = number_up_to(999, digits)? as u32;
    match digits.len() {
        1 => Some(spelled * 100),
        2 => Some(spelled * 10),
        _ => Some(spelled),
    }
}

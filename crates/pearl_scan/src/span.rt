// Lengths of time.

ghost use Rattle.std.specs.Prelude.{◌≡◌, ◌≤◌, ◌<◌, ◌+◌, ◌*◌, ◌^◌, ◌==◌, ℕ, List, Option, Some, None, IfSome, IfNone, codes, bytes_eq, take, drop, length};
ghost use Rattle.std.specs.List.{prefix_len};
ghost use Rattle.std.specs.Char.{is_ascii_digit};
ghost use Rattle.pearl_rules.specs.Literals as spec;
ghost use Rattle.pearl_scan.specs.Gaps as gaps;

use crate::gap::{Gap, behind_blanks, behind_gap, behind_minus};
use crate::number::{number_literal, thousandths};

// The digits at the front, and what stands behind them.
fn split_digits(text: &[u8]) -> (&[u8], &[u8])
    ensures front { result.0.now ≡ spec.front_digits text.now }
    ensures behind { result.1.now ≡ spec.behind_digits text.now }
{
    let mut end = 0;
    while end < text.len() && text[end].is_ascii_digit() {
        end += 1;
    }
    (&text[..end], &text[end..])
}

// What stands behind the word, where it comes next, behind any number of blanks.
fn behind_word<'a>(gap: Gap, word: &[u8; 3], text: &'a [u8]) -> Option<&'a [u8]>
    ensures some { IfSome result (λ rest. (n : ℕ) → spec.worded (gaps.is_gap gap) word.now (Some n) text.now
        ≡ Some (record { milliseconds = n; rest = rest.now })) }
    ensures none { IfNone result ((n : ℕ) → spec.worded (gaps.is_gap gap) word.now (Some n) text.now ≡ None) }
{
    let here = behind_blanks(gap, text);
    if here.len() < 3 || here[0] != word[0] || here[1] != word[1] || here[2] != word[2] {
        return None;
    }
    Some(&here[3..])
}

// A number and the word of a unit at the front: so many milliseconds, and what stands behind the word.
fn whole_amount<'a>(gap: Gap, word: &[u8; 3], unit: u32, text: &'a [u8]) -> Option<(u128, &'a [u8])>
    ensures some { IfSome result (λ found. spec.whole_amount (gaps.is_gap gap) word.now unit text.now
        ≡ Some (record { milliseconds = found.0; rest = found.1.now })) }
    ensures none { IfNone result (spec.whole_amount (gaps.is_gap gap) word.now unit text.now ≡ None) }
    ensures within { IfSome result (λ found. found.0 < 2 ^ 100) }
{
    let (digits, behind) = split_digits(text);
    let number = number_literal(digits)?;
    let rest = behind_word(gap, word, behind)?;
    Some((number as u128 * unit as u128, rest))
}

// The same of digits, a point that stands before `part`, and SEC.
fn decimal_amount<'a>(gap: Gap, whole: &[u8], part: &'a [u8]) -> Option<(u128, &'a [u8])>
    ensures some { IfSome result (λ found. spec.decimal_amount (gaps.is_gap gap) whole.now part.now
        ≡ Some (record { milliseconds = found.0; rest = found.1.now })) }
    ensures none { IfNone result (spec.decimal_amount (gaps.is_gap gap) whole.now part.now ≡ None) }
    ensures within { IfSome result (λ found. found.0 < 2 ^ 100) }
{
    let (digits, behind) = split_digits(part);
    let whole = number_literal(whole)?;
    let milliseconds = thousandths(digits)?;
    let rest = behind_word(gap, b"SEC", behind)?;
    Some((whole as u128 * 1000 + milliseconds as u128, rest))
}

// A number or a decimal, and SEC, at the front.
fn seconds_amount(gap: Gap, text: &[u8]) -> Option<(u128, &[u8])>
    ensures some { IfSome result (λ found. spec.seconds_amount (gaps.is_gap gap) text.now
        ≡ Some (record { milliseconds = found.0; rest = found.1.now })) }
    ensures none { IfNone result (spec.seconds_amount (gaps.is_gap gap) text.now ≡ None) }
    ensures within { IfSome result (λ found. found.0 < 2 ^ 100) }
{
    let (digits, behind) = split_digits(text);
    if behind.is_empty() || behind[0] != b'.' {
        return whole_amount(gap, b"SEC", 1000, text);
    }
    decimal_amount(gap, digits, &behind[1..])
}

fn from_seconds(gap: Gap, text: &[u8]) -> Option<u128>
    ensures value { result ≡ spec.from_seconds (gaps.is_gap gap) text.now }
    ensures within { IfSome result (λ n. n < 2 ^ 100) }
{
    let (seconds, rest) = seconds_amount(gap, text)?;
    if rest.is_empty() { Some(seconds) } else { None }
}

fn from_minutes(gap: Gap, text: &[u8]) -> Option<u128>
    ensures value { result ≡ spec.from_minutes (gaps.is_gap gap) text.now }
    ensures within { IfSome result (λ n. n < 2 ^ 101) }
{
    match whole_amount(gap, b"MIN", 60_000, text) {
        None => from_seconds(gap, text),
        Some((minutes, rest)) => {
            if rest.is_empty() {
                return Some(minutes);
            }
            Some(minutes + from_seconds(gap, behind_gap(gap, rest)?)?)
        }
    }
}

fn from_hours(gap: Gap, text: &[u8]) -> Option<u128>
    ensures value { result ≡ spec.from_hours (gaps.is_gap gap) text.now }
    ensures within { IfSome result (λ n. n < 2 ^ 102) }
{
    match whole_amount(gap, b"HRS", 3_600_000, text) {
        None => from_minutes(gap, text),
        Some((hours, rest)) => {
            if rest.is_empty() {
                return Some(hours);
            }
            Some(hours + from_minutes(gap, behind_gap(gap, rest)?)?)
        }
    }
}

/// A length of time of any size, in milliseconds: hours, minutes, and seconds that may be a decimal, of which not all
/// are missing, perhaps with `-` in front. Any number of blanks comes behind `-` and before a word, and one or more
/// between a word and the next number. None where the bytes are anything else, also where blanks are at their ends.
#[tactic(auto, unfolding(pearl_rules::specs::Literals::span_literal))]
pub fn span_literal(gap: Gap, text: &[u8]) -> Option<i128>
    ensures { result ≡ spec.span_literal (gaps.is_gap gap) text.now }
{
    match behind_minus(gap, text) {
        Some(rest) => Some(-(from_hours(gap, rest)? as i128)),
        None => Some(from_hours(gap, text)? as i128),
    }
}

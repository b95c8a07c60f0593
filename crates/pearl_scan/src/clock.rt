// Times of day.

ghost use Rattle.std.specs.Prelude.{◌≡◌, ◌≤◌, ◌<◌, ◌==◌, ℕ, List, [], ◌∷◌, Option, Some, None, IfSome, IfNone};
ghost use Rattle.std.specs.List.{slice_split};
ghost use Rattle.pearl_rules.specs.Literals as spec;

use crate::mark::place_of;
use crate::number::{number_up_to, thousandths};

// What stands before the first such byte, and what behind it, where there is one.
fn cut_at(mark: u8, text: &[u8]) -> Option<(&[u8], &[u8])>
    ensures some { IfSome result (λ parts. slice_split (λ byte. byte == mark) text.now
        ≡ parts.0.now ∷ slice_split (λ byte. byte == mark) parts.1.now) }
    ensures none { IfNone result (slice_split (λ byte. byte == mark) text.now ≡ text.now ∷ []) }
{
    let end = place_of(mark, text);
    if end < text.len() {
        Some((&text[..end], &text[end + 1..]))
    } else {
        None
    }
}

// The digits of the three parts, and how many milliseconds stand behind a point.
fn clock_of(hours: &[u8], minutes: &[u8], seconds: &[u8], milliseconds: u32) -> Option<u32>
    requires { milliseconds < 1000 }
    ensures { result ≡ spec.clock_of hours.now minutes.now seconds.now (Some milliseconds) }
{
    let hours = number_up_to(23, hours)? as u32;
    let minutes = number_up_to(59, minutes)? as u32;
    let seconds = number_up_to(59, seconds)? as u32;
    Some(((hours * 60 + minutes) * 60 + seconds) * 1000 + milliseconds)
}

fn with_point(hours: &[u8], minutes: &[u8], rest: &[u8]) -> Option<u32>
    ensures { result ≡ spec.with_point hours.now minutes.now (slice_split (λ byte. byte == 46) rest.now) }
{
    let Some((seconds, digits)) = cut_at(b'.', rest) else {
        return clock_of(hours, minutes, rest, 0);
    };
    match cut_at(b'.', digits) {
        Some(_) => None,
        None => clock_of(hours, minutes, seconds, thousandths(digits)?),
    }
}

/// A time of day, in milliseconds since midnight: hours up to 23, a colon, minutes up to 59, a colon, seconds up to 59,
/// each in any number of digits, and perhaps a point and one to three digits; none where the bytes are anything else.
#[tactic(auto, unfolding(pearl_rules::specs::Literals::clock_literal))]
pub fn clock_literal(text: &[u8]) -> Option<u32>
    ensures { result ≡ spec.clock_literal text.now }
{
    let (hours, rest) = cut_at(b':', text)?;
    let (minutes, seconds) = cut_at(b':', rest)?;
    match cut_at(b':', seconds) {
        Some(_) => None,
        None => with_point(hours, minutes, seconds),
    }
}

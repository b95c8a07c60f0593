// The words of a line, and numbers and names among them.

ghost use Rattle.std.specs.Prelude.{◌≡◌, ◌<◌, ◌≤◌, ◌^◌, length, slice_index};
ghost use Rattle.std.specs.Char.{is_ascii_alphabetic};
ghost use Rattle.std.specs.List.{list_all, position_or_len};
ghost use Rattle.pearl_value.specs.Names.{is_id, is_name_byte as is_id_byte};
ghost use Rattle.pearl_journal.specs.Words as spec;

use crate::limits::NAME_LIMIT;

fn is_blank(byte: u8) -> bool
    ensures { result ≡ spec.is_blank byte }
{
    byte == b' ' || byte == b'\t'
}

// A text without the blanks at its front.
fn behind_blanks(text: &[u8]) -> &[u8]
    ensures { result.now ≡ spec.behind_blanks text.now }
{
    let mut start = 0;
    while start < text.len() && is_blank(text[start]) {
        start += 1;
    }
    &text[start..]
}

// A text without the blanks at its end.
fn before_blanks(text: &[u8]) -> &[u8]
    ensures { result.now ≡ spec.before_blanks text.now }
{
    let mut end = text.len();
    while end > 0 && is_blank(text[end - 1]) {
        end -= 1;
    }
    &text[..end]
}

/// A text without the blanks at both ends.
pub(crate) fn trimmed(text: &[u8]) -> &[u8]
    ensures { result.now ≡ spec.before_blanks (spec.behind_blanks text.now) }
{
    before_blanks(behind_blanks(text))
}

// How many bytes come before the first blank.
fn word_length(text: &[u8]) -> usize
    ensures value { result ≡ position_or_len spec.is_blank text.now }
    ensures within { result ≤ length text.now }
{
    let mut end = 0;
    while end < text.len() && !is_blank(text[end]) {
        end += 1;
    }
    end
}

/// The first word of a text, and what stands behind it and the blanks after it.
pub(crate) fn split_word(text: &[u8]) -> (&[u8], &[u8])
    ensures word { result.0.now ≡ spec.first_word text.now }
    ensures rest { result.1.now ≡ spec.behind_word text.now }
{
    let end = word_length(text);
    if end < text.len() {
        (&text[..end], behind_blanks(&text[end + 1..]))
    } else {
        (text, &[])
    }
}

/// The number that digits spell in decimal, at most 2^63 - 1.
pub(crate) fn number_of(digits: &[u8]) -> Option<u64>
    ensures { result ≡ spec.number digits.now }
{
    if digits.is_empty() {
        return None;
    }
    let mut value = 0u64;
    for digit in digits {
        value = followed_by(value, *digit)?;
    }
    Some(value)
}

// The number with one more digit, below 2^63.
fn followed_by(value: u64, digit: u8) -> Option<u64>
    requires { value < 2 ^ 63 }
    ensures { result ≡ spec.followed value digit }
{
    if !digit.is_ascii_digit() {
        return None;
    }
    let next = value as u128 * 10 + (digit - b'0') as u128;
    if next < 1 << 63 {
        Some(next as u64)
    } else {
        None
    }
}

fn is_name_byte(byte: u8) -> bool
    ensures { result ≡ is_id_byte byte }
{
    byte.is_ascii_alphabetic() || byte.is_ascii_digit() || byte == b'_'
}

fn begins_with_letter(text: &[u8]) -> bool
    ensures { result ≡ is_ascii_alphabetic (slice_index text.now 0) }
{
    match text.first() {
        Some(first) => first.is_ascii_alphabetic(),
        None => false,
    }
}

fn has_name_bytes(text: &[u8]) -> bool
    ensures { result ≡ list_all is_id_byte text.now }
{
    text.iter().all(|byte| is_name_byte(*byte))
}

/// Whether a text has the letters and the length of a name.
pub(crate) fn is_name(text: &[u8]) -> bool
    ensures { result ≡ is_id text.now }
{
    begins_with_letter(text) && has_name_bytes(text) && text.len() <= NAME_LIMIT
}

// Texts between apostrophes.

ghost use Rattle.std.specs.Prelude.{◌≡◌, ◌<◌, ◌∷◌, [], length, codes, bytes_eq, option_map, if◌then◌else◌, Some, None, MatchOption};
ghost use Rattle.pearl_journal.specs.Texts as spec;

use arrayvec::ArrayVec;

pub(crate) const APOSTROPHE: u8 = b'\'';

fn is_letter(byte: u8) -> bool
    ensures { result ≡ spec.is_letter byte }
{
    32 <= byte && byte <= 126
}

// The character that the bytes begin with, and what is behind it; an apostrophe is written twice.
fn next_character(bytes: &[u8]) -> Option<(u8, &[u8])>
    ensures { MatchOption result
        (spec.characters bytes.now ≡ (if bytes_eq bytes.now (codes "'") then Some [] else None))
        (λ found. (spec.characters bytes.now ≡ option_map (λ text. found.0 ∷ text) (spec.characters found.1.now))
        × (length found.1.now < length bytes.now)) }
{
    match bytes {
        [APOSTROPHE, APOSTROPHE, behind @ ..] => Some((APOSTROPHE, behind)),
        [APOSTROPHE, ..] => None,
        [byte, behind @ ..] if is_letter(*byte) => Some((*byte, behind)),
        _ => None,
    }
}

// The characters up to an apostrophe that is the last byte, at most 255.
fn characters(bytes: &[u8]) -> Option<ArrayVec<u8, 255>>
    ensures { option_map (λ text. text.items) result ≡ spec.limited_text (spec.characters bytes.now) }
{
    let mut text = ArrayVec::new();
    let mut left = bytes;
    'each: while let Some((character, behind)) = next_character(left) {
        if text.try_push(character).is_err() {
            return None;
        }
        left = behind;
    }
    match left {
        [APOSTROPHE] => Some(text),
        _ => None,
    }
}

/// The characters between apostrophes, from none to 255.
pub(crate) fn quoted(text: &[u8]) -> Option<ArrayVec<u8, 255>>
    ensures { option_map (λ text. text.items) result ≡ spec.quoted text.now }
{
    match text {
        [APOSTROPHE, behind @ ..] => characters(behind),
        _ => None,
    }
}

/// The same with at least one character.
pub(crate) fn text_literal(text: &[u8]) -> Option<ArrayVec<u8, 255>>
    ensures { option_map (λ text. text.items) result ≡ spec.text_literal text.now }
{
    let characters = quoted(text)?;
    if characters.is_empty() {
        None
    } else {
        Some(characters)
    }
}

/// The text where there is room for more.
pub(crate) fn widened(text: &ArrayVec<u8, 255>) -> ArrayVec<u8, 1024>
    ensures { result.items ≡ text.now.items }
{
    let mut wide = ArrayVec::new();
    let _ = wide.try_extend_from_slice(text.as_slice());
    wide
}

// Blanks, comments, words, names and symbols.

ghost use Rattle.std.specs.Prelude.{◌≡◌, ◌≢◌, ◌+◌, ◌-◌, ◌<◌, ◌≤◌, ◌^◌, true, length, take, drop, slice_index, nat_le, IfSome, if◌then◌else◌, Some, None};
ghost use Rattle.std.specs.List.{prefix_len};
ghost use Rattle.pearl_tree.specs.Words.{words};
ghost use Rattle.pearl_lex.specs.Spelling as spec;

use crate::front::Front;
use arrayvec::ArrayVec;
use pearl_tree::symbol;
use pearl_tree::token::What;
use pearl_tree::word::{find_word, words};

const ID_MAX: usize = 63;

/// A letter, a digit or `_`.
pub fn is_id_byte(byte: u8) -> bool
    ensures { result ≡ spec.is_id_byte byte }
{
    byte.is_ascii_alphabetic() || byte.is_ascii_digit() || byte == b'_'
}

fn is_blank(byte: u8) -> bool
    ensures { result ≡ spec.is_blank byte }
{
    byte == b'\t' || byte == b'\n' || byte == 12 || byte == b'\r' || byte == b' '
}

/// The byte at this place, or 0 past the end.
pub fn byte_at(bytes: &[u8], at: usize) -> u8
    ensures value { result ≡ slice_index bytes.now at }
    ensures within { result ≢ 0 → at < length bytes.now }
{
    if at < bytes.len() { bytes[at] } else { 0 }
}

/// The first bytes.
pub fn front_of(bytes: &[u8], count: usize) -> &[u8]
    requires { count ≤ length bytes.now }
    ensures { result.now ≡ take count bytes.now }
{
    &bytes[..count]
}

/// What follows the first bytes.
pub fn rest_of(bytes: &[u8], count: usize) -> &[u8]
    requires { count ≤ length bytes.now }
    ensures { result.now ≡ drop count bytes.now }
{
    &bytes[count..]
}

/// What follows the first byte.
pub fn skip_one(bytes: &[u8]) -> &[u8]
    ensures { result.now ≡ drop 1 bytes.now }
{
    if bytes.is_empty() { bytes } else { &bytes[1..] }
}

fn id_count(bytes: &[u8]) -> usize
    ensures value { result ≡ prefix_len spec.is_id_byte bytes.now }
    ensures within { result ≤ length bytes.now }
{
    let mut count = 0;
    while count < bytes.len() && is_id_byte(bytes[count]) {
        count += 1;
    }
    count
}

fn line_count(bytes: &[u8]) -> usize
    ensures value { result ≡ prefix_len spec.is_in_line bytes.now }
    ensures within { result ≤ length bytes.now }
{
    let mut count = 0;
    while count < bytes.len() && bytes[count] != b'\n' {
        count += 1;
    }
    count
}

fn before_end(bytes: &[u8]) -> usize
    ensures value { result ≡ spec.before_end bytes.now }
    ensures within { result ≤ length bytes.now }
{
    let mut count = 0;
    while count < bytes.len() && !(bytes[count] == b'*' && byte_at(bytes, count + 1) == b'/') {
        count += 1;
    }
    count
}

fn enclosed_len(bytes: &[u8], inner: usize) -> usize
    requires { inner ≤ length bytes.now }
    ensures value { result ≡ spec.enclosed_len bytes.now inner }
    ensures within { result ≤ length bytes.now }
{
    let left = bytes.len() - inner;
    if 4 <= left { inner + 4 } else { 0 }
}

/// The size of the blank or the comment that begins the bytes, or 0 where neither does.
pub fn space_len(bytes: &[u8]) -> usize
    ensures value { result ≡ spec.space_len bytes.now }
    ensures within { result ≤ length bytes.now }
{
    let first = byte_at(bytes, 0);
    if is_blank(first) {
        return 1;
    }
    if first == b'!' {
        return 1 + line_count(rest_of(bytes, 1));
    }
    if first == b'/' && byte_at(bytes, 1) == b'*' {
        return enclosed_len(bytes, before_end(rest_of(bytes, 2)));
    }
    0
}

/// A token of this size, if there is one.
pub fn with_size(what: Option<What>, size: usize) -> Option<Front>
    ensures value { result ≡ spec.sized what size }
    ensures size { IfSome result (λ front. front.size ≡ size) }
{
    match what {
        Some(what) => Some(Front { what, size }),
        None => None,
    }
}

fn word_of(text: &[u8]) -> Option<u8>
    ensures { result ≡ spec.meaning words text.now }
{
    find_word(words(), text)
}

fn id_of(text: &[u8]) -> Option<What>
    ensures { result ≡ spec.id_of text.now }
{
    if text.len() > ID_MAX {
        return None;
    }
    let mut id = ArrayVec::new();
    id.try_extend_from_slice(text).unwrap();
    Some(What::Id(id))
}

fn name_of(text: &[u8]) -> Option<What>
    ensures { result ≡ spec.word_or_id (spec.meaning words text.now) text.now }
{
    match word_of(text) {
        Some(code) => Some(What::Word(code)),
        None => id_of(text),
    }
}

/// The word or the name that begins the bytes.
pub fn word_front(bytes: &[u8]) -> Option<Front>
    ensures value { result ≡ spec.sized (spec.word_or_id (spec.meaning words (take (prefix_len spec.is_id_byte bytes.now) bytes.now)) (take (prefix_len spec.is_id_byte bytes.now) bytes.now)) (prefix_len spec.is_id_byte bytes.now) }
    ensures size { IfSome result (λ front. front.size ≡ prefix_len spec.is_id_byte bytes.now) }
    ensures within { IfSome result (λ front. front.size ≤ length bytes.now) }
{
    let size = id_count(bytes);
    with_size(name_of(front_of(bytes, size)), size)
}

fn double_symbol(first: u8, second: u8) -> Option<u8>
    ensures value { result ≡ spec.double_symbol first second }
    ensures some { result ≢ None → second ≢ 0 }
{
    match (first, second) {
        (b':', b'=') => Some(symbol::BECOMES),
        (b'=', b'=') => Some(symbol::EQUAL),
        (b'/', b'=') => Some(symbol::UNEQUAL),
        (b'<', b'=') => Some(symbol::AT_MOST),
        (b'>', b'=') => Some(symbol::AT_LEAST),
        (b'>', b'<') => Some(symbol::CONCATENATE),
        (b'<', b'>') => Some(symbol::ROTATE),
        (b'/', b'/') => Some(symbol::DIVIDE),
        (b'*', b'*') => Some(symbol::POWER),
        _ => None,
    }
}

fn single_symbol(first: u8) -> Option<u8>
    ensures value { result ≡ spec.single_symbol first }
    ensures some { result ≢ None → first ≢ 0 }
{
    match first {
        b'(' => Some(symbol::LEFT_ROUND),
        b')' => Some(symbol::RIGHT_ROUND),
        b'[' => Some(symbol::LEFT_SQUARE),
        b']' => Some(symbol::RIGHT_SQUARE),
        b',' => Some(symbol::COMMA),
        b';' => Some(symbol::SEMICOLON),
        b':' => Some(symbol::COLON),
        b'.' => Some(symbol::PERIOD),
        b'=' => Some(symbol::EQUALS_SIGN),
        b'<' => Some(symbol::LESS),
        b'>' => Some(symbol::GREATER),
        b'+' => Some(symbol::PLUS),
        b'-' => Some(symbol::MINUS),
        b'*' => Some(symbol::TIMES),
        _ => None,
    }
}

/// The longest symbol that begins the bytes.
pub fn symbol_front(bytes: &[u8]) -> Option<Front>
    ensures value { result ≡ spec.symbol_front (slice_index bytes.now 0) (slice_index bytes.now 1) }
    ensures some { IfSome result (λ front. 0 < front.size) }
    ensures within { IfSome result (λ front. front.size ≤ length bytes.now) }
{
    let first = byte_at(bytes, 0);
    if let Some(double) = double_symbol(first, byte_at(bytes, 1)) {
        return Some(Front {
            what: What::Symbol(double),
            size: 2,
        });
    }
    match single_symbol(first) {
        Some(single) => Some(Front {
            what: What::Symbol(single),
            size: 1,
        }),
        None => None,
    }
}

// What begins with an apostrophe: bits and texts.

ghost use Rattle.std.specs.Prelude.{◌≡◌, ◌≢◌, ◌+◌, ◌-◌, ◌*◌, ◌<◌, ◌≤◌, ◌^◌, true, length, take, drop, slice_index, nat_le, IfSome, ◌==◌, if◌then◌else◌, Some, None};
ghost use Rattle.std.specs.List.{prefix_len, list_all};
ghost use Rattle.pearl_lex.specs.Quoted as spec;

use crate::front::Front;
use crate::spelling::{byte_at, front_of, is_id_byte, rest_of, skip_one, with_size};
use arrayvec::ArrayVec;
use pearl_tree::token::What;

const APOSTROPHE: u8 = 39;

fn char_len(first: u8, second: u8) -> usize
    ensures value { result ≡ spec.char_len first second }
    ensures one { 1 ≤ result → first ≢ 0 }
    ensures two { 2 ≤ result → second ≢ 0 }
    ensures few { result ≤ 2 }
{
    if first == APOSTROPHE {
        if second == APOSTROPHE { 2 } else { 0 }
    } else if (32..=126).contains(&first) {
        1
    } else {
        0
    }
}

fn next_char(bytes: &[u8]) -> usize
    ensures value { result ≡ spec.char_len (slice_index bytes.now 0) (slice_index bytes.now 1) }
    ensures within { result ≤ length bytes.now }
{
    char_len(byte_at(bytes, 0), byte_at(bytes, 1))
}

fn chars_len(bytes: &[u8]) -> usize
    ensures value { result ≡ spec.chars_len bytes.now }
    ensures within { result ≤ length bytes.now }
{
    let mut count = 0;
    let mut size = next_char(bytes);
    while size > 0 {
        count += size;
        size = next_char(rest_of(bytes, count));
    }
    count
}

fn after_char(first: u8, after: &[u8]) -> &[u8]
    ensures value { result.now ≡ (if first == 39 then drop 1 after.now else after.now) }
    ensures within { length result.now ≤ length after.now }
{
    if first == APOSTROPHE {
        skip_one(after)
    } else {
        after
    }
}

fn text_of(bytes: &[u8]) -> Option<What>
    ensures { result ≡ spec.quoted_text (spec.chars_of bytes.now) }
{
    let mut text: ArrayVec<u8, 255> = ArrayVec::new();
    let mut rest = bytes;
    while let [first, after @ ..] = rest {
        if text.try_push(*first).is_err() {
            return None;
        }
        rest = after_char(*first, after);
    }
    if text.is_empty() {
        return None;
    }
    Some(What::Text(text))
}

fn digit_width(bytes: &[u8]) -> u8
    ensures value { result ≡ spec.digit_width bytes.now }
    ensures few { result ≤ 4 }
    ensures some { result ≢ 0 → spec.suffix_len bytes.now ≤ length bytes.now }
{
    let second = byte_at(bytes, 1);
    if byte_at(bytes, 0) != b'B' {
        0
    } else if !is_id_byte(second) {
        1
    } else if 49 <= second && second <= 52 && !is_id_byte(byte_at(bytes, 2)) {
        second - 48
    } else {
        0
    }
}

fn suffix_len(bytes: &[u8]) -> usize
    ensures value { result ≡ spec.suffix_len bytes.now }
    ensures few { result ≤ 2 }
{
    if is_id_byte(byte_at(bytes, 1)) { 2 } else { 1 }
}

fn digit_value(digit: u8) -> u8
    ensures value { result ≡ spec.digit_value digit }
    ensures few { result ≤ 16 }
{
    if 48 <= digit && digit <= 57 {
        digit - 48
    } else if 65 <= digit && digit <= 70 {
        digit - 55
    } else {
        16
    }
}

fn base_of(width: u8) -> u8
    requires some { 1 ≤ width }
    requires few { width ≤ 4 }
    ensures value { result ≡ 2 ^ width }
    ensures few { result ≤ 16 }
{
    match width {
        1 => 2,
        2 => 4,
        3 => 8,
        _ => 16,
    }
}

fn are_digits(width: u8, base: u8, digits: &[u8]) -> bool
    requires { base ≡ 2 ^ width }
    ensures { result ≡ list_all (spec.is_digit_of width) digits.now }
{
    for digit in digits {
        if digit_value(*digit) >= base {
            return false;
        }
    }
    true
}

fn bits_value(width: u8, base: u8, digits: &[u8]) -> u64
    requires base { base ≡ 2 ^ width }
    requires digits { list_all (spec.is_digit_of width) digits.now ≡ true }
    requires few { length digits.now * width ≤ 64 }
    ensures { result ≡ spec.bits_value width digits.now }
{
    let mut value: u64 = 0;
    for digit in digits {
        value = value * u64::from(base) + u64::from(digit_value(*digit));
    }
    value
}

fn bits_of(width: u8, digits: &[u8]) -> Option<What>
    requires some { 1 ≤ width }
    requires few { width ≤ 4 }
    ensures { result ≡ spec.bits_of width digits.now }
{
    let base = base_of(width);
    if digits.is_empty() || digits.len() > 64 {
        return None;
    }
    let len = digits.len() as u16 * u16::from(width);
    if len > 64 || !are_digits(width, base, digits) {
        return None;
    }
    let value = bits_value(width, base, digits);
    Some(What::Bits {
        len: len as u8,
        value,
    })
}

fn closed(bytes: &[u8], size: usize, after: &[u8]) -> Option<Front>
    requires size { size ≤ length bytes.now }
    requires after { length after.now + size + 1 ≡ length bytes.now }
    ensures value { result ≡ spec.closed bytes.now size after.now }
    ensures some { IfSome result (λ front. 0 < front.size) }
    ensures within { IfSome result (λ front. front.size ≤ length bytes.now + 1) }
{
    let width = digit_width(after);
    let inner = front_of(bytes, size);
    if width == 0 {
        with_size(text_of(inner), size + 2)
    } else {
        with_size(bits_of(width, inner), size + 2 + suffix_len(after))
    }
}

/// The bits or the text whose bytes behind the opening apostrophe these are.
pub fn quoted(bytes: &[u8]) -> Option<Front>
    ensures value { result ≡ spec.quoted bytes.now }
    ensures some { IfSome result (λ front. 0 < front.size) }
    ensures within { IfSome result (λ front. front.size ≤ length bytes.now + 1) }
{
    let size = chars_len(bytes);
    if byte_at(bytes, size) == APOSTROPHE {
        closed(bytes, size, rest_of(bytes, size + 1))
    } else {
        None
    }
}

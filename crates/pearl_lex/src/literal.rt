// Numbers, decimals and clocks.

ghost use Rattle.std.specs.Prelude.{◌≡◌, ◌≢◌, ◌+◌, ◌-◌, ◌*◌, ◌<◌, ◌≤◌, ◌^◌, true, length, take, drop, slice_index, nat_le, IfSome, if◌then◌else◌, Some, None};
ghost use Rattle.std.specs.Char.{is_ascii_digit};
ghost use Rattle.std.specs.List.{prefix_len};
ghost use Rattle.pearl_lex.specs.Literals as spec;

use crate::front::Front;
use crate::spelling::{byte_at, front_of, rest_of, skip_one, with_size};
use pearl_tree::token::What;

const NUMBER_MAX: u64 = (1 << 63) - 1;

fn digit_count(bytes: &[u8]) -> usize
    ensures value { result ≡ spec.digit_count bytes.now }
    ensures within { result ≤ length bytes.now }
{
    let mut count = 0;
    while count < bytes.len() && bytes[count].is_ascii_digit() {
        count += 1;
    }
    count
}

fn digits_of(bytes: &[u8]) -> &[u8]
    ensures { result.now ≡ spec.digits_of bytes.now }
{
    front_of(bytes, digit_count(bytes))
}

fn after_digits(bytes: &[u8]) -> &[u8]
    ensures value { result.now ≡ spec.after_digits bytes.now }
    ensures size { length result.now + spec.digit_count bytes.now ≡ length bytes.now }
{
    rest_of(bytes, digit_count(bytes))
}

fn next_part(bytes: &[u8]) -> &[u8]
    ensures value { result.now ≡ spec.next_part bytes.now }
    ensures size { spec.digit_count bytes.now < length bytes.now → length result.now + spec.digit_count bytes.now + 1 ≡ length bytes.now }
{
    skip_one(after_digits(bytes))
}

fn begins_part(byte: u8, bytes: &[u8]) -> bool
    ensures value { result ≡ spec.begins_part byte bytes.now }
    ensures within { result ≡ true → 2 ≤ length bytes.now }
{
    byte_at(bytes, 0) == byte && byte_at(bytes, 1).is_ascii_digit()
}

fn decimals_of(bytes: &[u8]) -> &[u8]
    ensures { result.now ≡ spec.decimals_of bytes.now }
{
    if begins_part(b'.', bytes) {
        digits_of(skip_one(bytes))
    } else {
        &[]
    }
}

fn decimals_len(bytes: &[u8]) -> usize
    ensures value { result ≡ spec.decimals_len bytes.now }
    ensures within { result ≤ length bytes.now }
{
    if begins_part(b'.', bytes) {
        1 + digit_count(skip_one(bytes))
    } else {
        0
    }
}

fn digit(byte: u8) -> u16
    ensures value { result ≡ byte - 48 }
    ensures few { result < 2 ^ 8 }
{
    u16::from(byte.saturating_sub(b'0'))
}

fn thousandths(digits: &[u8]) -> Option<u16>
    ensures { result ≡ spec.thousandths digits.now }
{
    match digits {
        [] => Some(0),
        [a] => Some(100 * digit(*a)),
        [a, b] => Some(100 * digit(*a) + 10 * digit(*b)),
        [a, b, c] => Some(100 * digit(*a) + 10 * digit(*b) + digit(*c)),
        _ => None,
    }
}

fn value_within(digits: &[u8], max: u64) -> Option<u64>
    requires { max < 2 ^ 63 }
    ensures { result ≡ spec.value_within digits.now max }
{
    let mut value: u64 = 0;
    for digit in digits {
        let next = value
            .saturating_mul(10)
            .saturating_add(u64::from(digit.saturating_sub(b'0')));
        if next > max {
            return None;
        }
        value = next;
    }
    Some(value)
}

fn number_of(digits: &[u8]) -> Option<What>
    ensures { result ≡ spec.number_of digits.now }
{
    match value_within(digits, NUMBER_MAX) {
        Some(value) => Some(What::Number(value)),
        None => None,
    }
}

fn decimal_of(digits: &[u8], decimals: &[u8]) -> Option<What>
    ensures { result ≡ spec.decimal_of digits.now decimals.now }
{
    match value_within(digits, NUMBER_MAX) {
        Some(whole) => match thousandths(decimals) {
            Some(thousandths) => Some(What::Decimal { whole, thousandths }),
            None => None,
        },
        None => None,
    }
}

fn within_hour(digits: &[u8]) -> Option<u32>
    ensures value { result ≡ spec.value_within digits.now 59 }
    ensures few { IfSome result (λ value. value ≤ 59) }
{
    match value_within(digits, 59) {
        Some(value) => Some(value as u32),
        None => None,
    }
}

fn within_day(digits: &[u8]) -> Option<u32>
    ensures value { result ≡ spec.value_within digits.now 23 }
    ensures few { IfSome result (λ value. value ≤ 23) }
{
    match value_within(digits, 23) {
        Some(value) => Some(value as u32),
        None => None,
    }
}

fn clock_of(hours: &[u8], minutes: &[u8], seconds: &[u8], decimals: &[u8]) -> Option<What>
    ensures { result ≡ spec.clock_of hours.now minutes.now seconds.now decimals.now }
{
    match (
        within_day(hours),
        within_hour(minutes),
        within_hour(seconds),
        thousandths(decimals),
    ) {
        (Some(hours), Some(minutes), Some(seconds), Some(part)) => Some(What::Clock(
            1000 * (60 * (60 * hours + minutes) + seconds) + u32::from(part),
        )),
        _ => None,
    }
}

fn begins_clock(bytes: &[u8]) -> bool
    ensures value { result ≡ spec.begins_clock bytes.now }
    ensures within { result ≡ true → spec.digit_count bytes.now + 2 ≤ length bytes.now }
    ensures further { result ≡ true → spec.digit_count (spec.next_part bytes.now) + 2 ≤ length (spec.next_part bytes.now) }
{
    begins_part(b':', after_digits(bytes)) && begins_part(b':', after_digits(next_part(bytes)))
}

fn clock_front(bytes: &[u8]) -> Option<Front>
    requires within { spec.digit_count bytes.now + 2 ≤ length bytes.now }
    requires further { spec.digit_count (spec.next_part bytes.now) + 2 ≤ length (spec.next_part bytes.now) }
    ensures value { result ≡ spec.clock_front bytes.now }
    ensures some { IfSome result (λ front. 0 < front.size) }
    ensures within { IfSome result (λ front. front.size ≤ length bytes.now) }
{
    let minutes = next_part(bytes);
    let seconds = next_part(minutes);
    let after = after_digits(seconds);
    let clock = clock_of(
        digits_of(bytes),
        digits_of(minutes),
        digits_of(seconds),
        decimals_of(after),
    );
    let size = digit_count(bytes)
        + digit_count(minutes)
        + digit_count(seconds)
        + 2
        + decimals_len(after);
    with_size(clock, size)
}

fn decimal_front(bytes: &[u8]) -> Option<Front>
    ensures value { result ≡ spec.decimal_front bytes.now }
    ensures some { 0 < spec.digit_count bytes.now → IfSome result (λ front. 0 < front.size) }
    ensures within { IfSome result (λ front. front.size ≤ length bytes.now) }
{
    let after = after_digits(bytes);
    let decimal = decimal_of(digits_of(bytes), decimals_of(after));
    with_size(decimal, digit_count(bytes) + decimals_len(after))
}

fn number_front(bytes: &[u8]) -> Option<Front>
    ensures value { result ≡ spec.number_front bytes.now }
    ensures some { 0 < spec.digit_count bytes.now → IfSome result (λ front. 0 < front.size) }
    ensures within { IfSome result (λ front. front.size ≤ length bytes.now) }
{
    with_size(number_of(digits_of(bytes)), digit_count(bytes))
}

/// The clock, the decimal or the number that begins the bytes.
pub fn numeral(bytes: &[u8]) -> Option<Front>
    ensures value { result ≡ spec.numeral bytes.now }
    ensures some { 0 < spec.digit_count bytes.now → IfSome result (λ front. 0 < front.size) }
    ensures within { IfSome result (λ front. front.size ≤ length bytes.now) }
{
    if begins_clock(bytes) {
        clock_front(bytes)
    } else if begins_part(b'.', after_digits(bytes)) {
        decimal_front(bytes)
    } else {
        number_front(bytes)
    }
}

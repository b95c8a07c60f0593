// Digits of one to four bits each.

ghost use Rattle.std.specs.Prelude.{◌≡◌, ℕ, ◌≤◌, ◌<◌, ◌+◌, ◌*◌, ◌^◌, ◌==◌, Some, IfSome, IfNone, length, true, false};
ghost use Rattle.std.specs.Char.{digit_value as value_of_digit};
ghost use Rattle.std.specs.List.{list_all};
ghost use Rattle.pearl_rules.specs.Literals as spec;
ghost use Rattle.pearl_scan.specs.Digits.{bits_followed};

// The value of a digit of so many bits: 0 to 9 and A to F.
fn bit_digit(group: u8, byte: u8) -> Option<u8>
    requires { group ≤ 4 }
    ensures some { IfSome result (λ value. (spec.is_bit_digit group byte ≡ true) × (value ≡ value_of_digit byte)
        × (value < 2 ^ group)) }
    ensures none { IfNone result (spec.is_bit_digit group byte ≡ false) }
{
    let value = match byte {
        b'0'..=b'9' => byte - b'0',
        b'A'..=b'F' => byte - b'A' + 10,
        _ => return None,
    };
    if value < 1 << group {
        Some(value)
    } else {
        None
    }
}

// The number with one more digit.
fn followed_by(group: u8, value: u128, digit: u8) -> Option<u128>
    requires few { group ≤ 4 }
    requires small { value < 2 ^ 80 }
    ensures value { result ≡ bits_followed group value digit }
    ensures within { IfSome result (λ next. (count : ℕ) → value < 2 ^ (group * count) →
        next < 2 ^ (group * (count + 1))) }
{
    let digit = bit_digit(group, digit)?;
    Some(value * (1 << group) + digit as u128)
}

// The number that one or more digits spell, in at most 80 bits.
fn wide_number(group: u8, digits: &[u8]) -> Option<u128>
    requires few { group ≤ 4 }
    requires room { group * length digits.now ≤ 80 }
    ensures value { result ≡ spec.bits_number group digits.now }
    ensures within { IfSome result (λ n. n < 2 ^ (group * length digits.now)) }
{
    if digits.is_empty() {
        return None;
    }
    let mut value = 0u128;
    for digit in digits {
        value = followed_by(group, value, *digit)?;
    }
    Some(value)
}

/// The number that one or more digits of so many bits each spell; none where another byte stands there.
pub fn bits_number(group: u8, digits: &[u8]) -> Option<u64>
    requires few { group ≤ 4 }
    requires room { group * length digits.now ≤ 64 }
    ensures { result ≡ spec.bits_number group digits.now }
{
    Some(wide_number(group, digits)? as u64)
}

// How many digits stand for so many bits.
fn count_of(group: u8, len: u8) -> usize
    requires some { 0 < group }
    requires few { group ≤ 4 }
    ensures enough { len ≤ group * result }
    ensures tight { group * result ≤ len + 3 }
{
    (len as usize + (group as usize - 1)) / group as usize
}

fn are_zeros(digits: &[u8]) -> bool
    ensures { result ≡ list_all (λ byte. byte == 48) digits.now }
{
    digits.iter().all(|digit| *digit == b'0')
}

// The first `len` of `count` bits; none where one past them isn't zero.
fn first_bits(len: u8, count: usize, value: u128) -> Option<u64>
    requires some { 0 < count }
    requires few { len ≤ 64 }
    requires near { count ≤ len + 3 }
    requires within { value < 2 ^ count }
    ensures { result ≡ spec.bits_within len count (Some value) }
{
    if count <= len as usize {
        return Some((value as u64) << (len as usize - count));
    }
    let past = count - len as usize;
    if value % (1 << past) == 0 {
        Some((value >> past) as u64)
    } else {
        None
    }
}

/// What one or more digits of so many bits each are as a BIT of a length: fewer bits are filled with zeros on the
/// right, and bits past the length must be zeros.
pub(crate) fn bits_literal(group: u8, len: u8, digits: &[u8]) -> Option<u64>
    requires some { 0 < group }
    requires few { group ≤ 4 }
    requires long { 0 < len }
    requires short { len ≤ 64 }
    ensures { result ≡ spec.bits_literal group len digits.now }
{
    if digits.is_empty() {
        return None;
    }
    let count = count_of(group, len);
    if digits.len() <= count {
        let value = wide_number(group, digits)?;
        return first_bits(len, group as usize * digits.len(), value);
    }
    let (front, past) = digits.split_at(count);
    if !are_zeros(past) {
        return None;
    }
    let value = wide_number(group, front)?;
    first_bits(len, group as usize * count, value)
}

// The texts of single values, and the ways in which a text is put into a width.

ghost use Rattle.std.specs.Prelude.{◌≡◌, ◌+◌, ◌*◌, ◌/◌, ◌%◌, ◌^◌, ◌≤◌, ◌<◌, ◌++◌, ◌∷◌, [], IfErr, IfOk, OnOk, Some, None, true, length, replicate};
ghost use Rattle.pearl_value.specs.Blanks.{widened};
ghost use Rattle.pearl_format.specs.Fields.{width_or, right_field, left_field, cut_field, digit_count, last_digits, bits_text as text_of_bits, two_digits, three_digits, seconds_text, clock_text as text_of_clock, hours_text, span_text as text_of_span};
ghost use Rattle.std.specs.Fmt.{digit_glyph};
ghost use Rattle.pearl_format.specs.Texts.{joined_text};

use arrayvec::ArrayVec;
use itoa::Buffer;
use pearl_value::trap::Trap;

/// The width that an item has, or else that of what it stands for.
pub(crate) fn width_or(width: u8, own: usize) -> usize
    ensures { result ≡ width_or width own }
{
    if width == 0 { own } else { width as usize }
}

/// The same byte so many times.
pub(crate) fn push_copies(count: usize, byte: u8, into: &mut ArrayVec<u8, 1024>)
    requires { length into.old.items + count ≤ 1024 }
    ensures { into.new.items ≡ into.old.items ++ replicate count byte }
{
    for _ in 0..count {
        into.push(byte);
    }
}

/// All of a text.
fn push_all(text: &[u8], into: &mut ArrayVec<u8, 1024>)
    requires { length into.old.items + length text.now ≤ 1024 }
    ensures { into.new.items ≡ into.old.items ++ text.now }
{
    into.try_extend_from_slice(text).unwrap();
}

/// How many blanks a text of this length needs up to the width.
fn blanks_for(width: usize, len: usize) -> Result<usize, Trap>
    ensures ok { IfOk result (λ blanks. blanks + len ≡ width) }
    ensures err { IfErr result (λ trap. (trap ≡ Trap.Format) × (width < len)) }
{
    if len > width {
        return Err(Trap::Format);
    }
    Ok(width - len)
}

/// A text with blanks on its left.
pub(crate) fn put_right(
    width: usize,
    text: &[u8],
    into: &mut ArrayVec<u8, 1024>,
) -> Result<(), Trap>
    requires { length into.old.items + width ≤ 1024 }
    ensures ok { OnOk result
        (joined_text (Some into.old.items) (right_field width text.now) ≡ Some into.new.items) }
    ensures err { IfErr result (λ trap.
        (trap ≡ Trap.Format) × (right_field width text.now ≡ None)) }
{
    let before = blanks_for(width, text.len())?;
    push_copies(before, b' ', into);
    push_all(text, into);
    Ok(())
}

/// A text with blanks on its right.
pub(crate) fn put_left(width: usize, text: &[u8], into: &mut ArrayVec<u8, 1024>) -> Result<(), Trap>
    requires { length into.old.items + width ≤ 1024 }
    ensures ok { OnOk result
        (joined_text (Some into.old.items) (left_field width text.now) ≡ Some into.new.items) }
    ensures err { IfErr result (λ trap.
        (trap ≡ Trap.Format) × (left_field width text.now ≡ None)) }
{
    let after = blanks_for(width, text.len())?;
    push_all(text, into);
    push_copies(after, b' ', into);
    Ok(())
}

/// The first bytes of a text, with blanks on its right.
pub(crate) fn put_cut(width: usize, text: &[u8], into: &mut ArrayVec<u8, 1024>)
    requires { length into.old.items + width ≤ 1024 }
    ensures { into.new.items ≡ into.old.items ++ cut_field width text.now }
{
    if text.len() > width {
        push_all(&text[..width], into);
    } else {
        push_all(text, into);
        push_copies(width - text.len(), b' ', into);
    }
}

/// The digit that spells a number below 16.
fn glyph(digit: u8) -> u8
    requires { digit < 16 }
    ensures { result ≡ digit_glyph true digit }
{
    if digit < 10 {
        b'0' + digit
    } else {
        b'A' + (digit - 10)
    }
}

/// What stands above the last `places` bits.
fn above(value: u128, places: u32) -> u128
    ensures { result ≡ value / 2 ^ places }
{
    if places < 128 { value >> places } else { 0 }
}

/// The digit of `group` bits that stands above the last `places` bits.
fn digit_at(value: u128, places: u32, group: u8) -> u8
    requires { group ≤ 4 }
    ensures value { result ≡ value / 2 ^ places % 2 ^ group }
    ensures small { result < 16 }
{
    (above(value, places) % (1u128 << group)) as u8
}

/// How many digits of `group` bits stand for `len` bits.
fn digits_of(group: u8, len: u8) -> u8
    requires some { 0 < group }
    requires few { group ≤ 4 }
    ensures count { result ≡ digit_count group len }
    ensures enough { len ≤ group * result }
    ensures tight { group * result ≤ len + 3 }
{
    ((len as u32 + (group as u32 - 1)) / group as u32) as u8
}

/// A BIT in digits of `group` bits.
pub(crate) fn bits_text(group: u8, len: u8, value: u64) -> ArrayVec<u8, 255>
    requires some { 0 < group }
    requires few { group ≤ 4 }
    ensures text { result.items ≡ text_of_bits group len value }
    ensures count { length result.items ≡ digit_count group len }
{
    let count = digits_of(group, len);
    let whole = (value as u128) << (group as u32 * count as u32 - len as u32);
    let mut text = ArrayVec::new();
    let mut left = count;
    while left > 0 {
        left -= 1;
        text.push(glyph(digit_at(whole, group as u32 * left as u32, group)));
    }
    text
}

/// Two decimal digits.
fn push_two(n: u32, text: &mut ArrayVec<u8, 64>)
    requires small { n < 2000 }
    requires room { length text.old.items + 2 ≤ 64 }
    ensures { text.new.items ≡ text.old.items ++ two_digits n }
{
    text.push(b'0' + (n / 10) as u8);
    text.push(b'0' + (n % 10) as u8);
}

/// Three decimal digits.
fn push_three(n: u32, text: &mut ArrayVec<u8, 64>)
    requires small { n < 1000 }
    requires room { length text.old.items + 3 ≤ 64 }
    ensures { text.new.items ≡ text.old.items ++ three_digits n }
{
    text.push(b'0' + (n / 100) as u8);
    push_two(n % 100, text);
}

/// A CLOCK: hh:mm:ss.mmm where the width is at least 12, else hh:mm:ss.
pub(crate) fn clock_text(width: u8, time: u32) -> ArrayVec<u8, 64>
    ensures { result.items ≡ text_of_clock width time }
{
    let mut text = ArrayVec::new();
    push_two(time / 3_600_000, &mut text);
    text.push(b':');
    push_two(time / 60_000 % 60, &mut text);
    text.push(b':');
    push_two(time / 1_000 % 60, &mut text);
    if width >= 12 {
        text.push(b'.');
        push_three(time % 1_000, &mut text);
    }
    text
}

/// So many milliseconds: hours, minutes, seconds and milliseconds.
fn push_hours(n: u64, text: &mut ArrayVec<u8, 64>)
    requires { length text.old.items ≤ 1 }
    ensures { text.new.items ≡ text.old.items ++ hours_text n }
{
    let mut buffer = Buffer::new();
    text.try_extend_from_slice(buffer.format(n / 3_600_000).as_bytes())
        .unwrap();
    text.try_extend_from_slice(b" HRS ").unwrap();
    push_two((n / 60_000 % 60) as u32, text);
    text.try_extend_from_slice(b" MIN ").unwrap();
    push_two((n / 1_000 % 60) as u32, text);
    text.push(b'.');
    push_three((n % 1_000) as u32, text);
    text.try_extend_from_slice(b" SEC").unwrap();
}

/// A DURATION, with `-` in front where it is negative.
pub(crate) fn span_text(time: i64) -> ArrayVec<u8, 64>
    ensures { result.items ≡ text_of_span time }
{
    let mut text = ArrayVec::new();
    if time < 0 {
        text.push(b'-');
    }
    push_hours(time.unsigned_abs(), &mut text);
    text
}

// The pieces of a line.

ghost use Rattle.std.specs.Prelude.{◌≡◌, ◌+◌, ◌*◌, ◌≤◌, ◌++◌, length};
ghost use Rattle.std.specs.Fmt.{decimal};
ghost use Rattle.pearl_script.specs.Words.{spelled, spelled_byte};

use arrayvec::ArrayVec;
use itoa::Buffer;

// Appends these bytes.
pub(crate) fn push_bytes(bytes: &[u8], into: &mut ArrayVec<u8, 2304>)
    requires { length into.old.items + length bytes.now ≤ 2304 }
    ensures text { into.new.items ≡ into.old.items ++ bytes.now }
    ensures len { length into.new.items ≡ length into.old.items + length bytes.now }
{
    into.try_extend_from_slice(bytes).unwrap();
}

// Appends a number in decimal.
pub(crate) fn push_number(number: u64, into: &mut ArrayVec<u8, 2304>)
    requires { length into.old.items + 20 ≤ 2304 }
    ensures text { into.new.items ≡ into.old.items ++ decimal number }
    ensures len { length into.new.items ≤ length into.old.items + 20 }
{
    let mut buffer = Buffer::new();
    push_bytes(buffer.format(number).as_bytes(), into);
}

// Appends a text as it stands between the apostrophes of a line.
pub(crate) fn push_spelled(text: &[u8], into: &mut ArrayVec<u8, 2304>)
    requires { length into.old.items + 2 * length text.now ≤ 2304 }
    ensures text { into.new.items ≡ into.old.items ++ spelled text.now }
    ensures len { length into.new.items ≤ length into.old.items + 2 * length text.now }
{
    for byte in text {
        push_spelled_byte(*byte, into);
    }
}

fn push_spelled_byte(byte: u8, into: &mut ArrayVec<u8, 2304>)
    requires { length into.old.items + 2 ≤ 2304 }
    ensures text { into.new.items ≡ into.old.items ++ spelled_byte byte }
    ensures len { length into.new.items ≤ length into.old.items + 2 }
{
    if byte == b'\n' {
        push_bytes(b"\\n", into);
    } else if byte == b'\'' || byte == b'\\' {
        push_bytes(&[byte, byte], into);
    } else {
        into.push(byte);
    }
}

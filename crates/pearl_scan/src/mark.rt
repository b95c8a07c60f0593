// Where a byte first stands.

ghost use Rattle.std.specs.Prelude.{◌≡◌, ◌≤◌, ◌==◌, length};
ghost use Rattle.std.specs.List.{position_or_len};

/// How many bytes come before the first of this value.
pub(crate) fn place_of(mark: u8, bytes: &[u8]) -> usize
    ensures value { result ≡ position_or_len (λ byte. byte == mark) bytes.now }
    ensures within { result ≤ length bytes.now }
{
    let mut end = 0;
    while end < bytes.len() && bytes[end] != mark {
        end += 1;
    }
    end
}

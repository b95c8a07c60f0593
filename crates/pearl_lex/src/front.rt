// The token that begins some bytes.

ghost use Rattle.std.specs.Prelude.{◌≡◌, ◌≢◌, ◌+◌, ◌-◌, ◌<◌, ◌≤◌, ◌^◌, true, length, take, drop, slice_index, IfSome, Some, None};
ghost use Rattle.pearl_lex.specs.Front as spec;
ghost use Rattle.pearl_lex.specs.Quoted.{quoted};

use crate::literal::numeral;
use crate::quoted::quoted;
use crate::spelling::{byte_at, skip_one, symbol_front, word_front};
use pearl_tree::token::What;

/// The token that begins some bytes, and how many of them it takes.
#[derive(Drop)]
pub struct Front {
    pub what: What,
    pub size: usize,
}

fn quoted_front(bytes: &[u8]) -> Option<Front>
    requires { 0 < length bytes.now }
    ensures value { result ≡ quoted (drop 1 bytes.now) }
    ensures some { IfSome result (λ front. 0 < front.size) }
    ensures within { IfSome result (λ front. front.size ≤ length bytes.now) }
{
    quoted(skip_one(bytes))
}

/// The longest token that begins the bytes, if one does, unless they begin a form that is no token: `1.2345` gives none,
/// though `1` begins it.
pub fn begin(bytes: &[u8]) -> Option<Front>
    requires { length bytes.now < 2 ^ 32 }
    ensures value { result ≡ spec.front bytes.now }
    ensures some { IfSome result (λ front. 0 < front.size) }
    ensures within { IfSome result (λ front. front.size ≤ length bytes.now) }
{
    let first = byte_at(bytes, 0);
    if first.is_ascii_alphabetic() {
        return word_front(bytes);
    }
    if first.is_ascii_digit() {
        return numeral(bytes);
    }
    if first == b'\'' {
        return quoted_front(bytes);
    }
    symbol_front(bytes)
}

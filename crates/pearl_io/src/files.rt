//! Files in memory, and the reading of a piece of one.

ghost use Rattle.std.specs.Prelude.{◌≡◌, ◌-◌, ◌<◌, min, length};
ghost use Rattle.pearl_io.specs.Outside.{content, IsPiece};

use std::marker::Model;

/// A file in memory. Contracts see it as its name's bytes and its bytes.
#[derive(Drop)]
pub struct File {
    pub name: String,
    pub bytes: Vec<u8>,
}

impl Model for File {
    ghost use Rattle.std.specs.Prelude.{ℕ, List, string_bytes};

    ghost Value = { List ℕ × List ℕ };

    ghost view = { λ file. (string_bytes file.name, file.bytes.items) };
}

// The bytes of the first file of this name, none where there is none.
pub fn content_of<'a>(files: &'a [File], name: &str) -> &'a [u8]
    ensures { result.now ≡ content files.now name.now }
{
    for file in files {
        if file.name.as_str() == name {
            return file.bytes.as_slice();
        }
    }
    &[]
}

// Copies at most `most` bytes of `bytes`, from byte `at` on, to the front of `into`, as many as
// there are and fit, and answers how many.
pub fn copy_piece(bytes: &[u8], at: u64, most: usize, into: &mut [u8]) -> usize
    ensures count { result ≡ min most (min (length into.old) (length bytes.now - at)) }
    ensures piece { 0 < most → 0 < length into.old → IsPiece bytes.now at result into.new }
{
    let start = bytes.len().min(at as usize);
    let rest = &bytes[start..];
    let count = most.min(into.len().min(rest.len()));
    into[..count].copy_from_slice(&rest[..count]);
    count
}

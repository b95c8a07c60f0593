// Files as a shelf.

ghost use Rattle.std.specs.Prelude.{◌≤◌, ◌≡◌, None, length, IfOk};

use pearl_io::{Failed, Shelf};
use std::fs::File;
use std::io;
use std::os::unix::fs::FileExt;
use std::rt::Files;

/// The files of the system. What they hold is not told; each error counts as one fault, whatever its file.
#[derive(Drop)]
pub struct FileShelf<'a, R: Files<File = File>> {
    rt: &'a R,
    faults: u64,
}

impl<'a, R: Files<File = File>> FileShelf<'a, R> {
    /// The files that this runtime opens, with no fault so far.
    pub fn new(rt: &'a R) -> Self
        ensures { result.faults ≡ 0 }
    {
        FileShelf { rt, faults: 0 }
    }
}

impl<'a, R: Files<File = File>> Shelf for FileShelf<'a, R> {
    ghost holds = { λ _. None };

    ghost faults = { λ shelf name. shelf.faults };

    fn fetch(&mut self, name: &str, at: u64, into: &mut [u8]) -> Result<usize, Failed> {
        match read_piece(self.rt, name, at, into) {
            Ok(count) => Ok(count),
            Err(_) => {
                self.faults = self.faults.saturating_add(1);
                Err(Failed)
            }
        }
    }
}

// Reads bytes of the named file from byte `at` on.
fn read_piece<R: Files<File = File>>(
    rt: &R,
    name: &str,
    at: u64,
    into: &mut [u8],
) -> io::Result<usize>
    ensures { IfOk result (λ count. count ≤ length into.old) }
{
    File::open(rt, name)?.read_at(into, at)
}

#[cfg(test)]
mod tests {
    use super::*;

    #[test]
    fn reads_at_an_offset_and_counts_errors(rt: HostRuntime) {
        let mut shelf = FileShelf::new(&rt);
        let mut piece = [1u8; 4];
        assert!(rt; matches!(shelf.fetch("/dev/zero", 3, &mut piece), Ok(4)));
        assert!(rt; piece == [0u8; 4]);
        assert!(rt; matches!(shelf.fetch("/dev/null", 0, &mut piece), Ok(0)));
        assert!(rt; shelf.faults == 0);
        assert!(rt; matches!(shelf.fetch("/dev/null/none", 0, &mut piece), Err(Failed)));
        assert!(rt; shelf.faults == 1);
    }
}

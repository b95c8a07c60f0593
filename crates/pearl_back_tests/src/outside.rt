use pearl_io::{
    Fetched, File, MemoryShelf, MemorySink, Shelf, Sink, SureShelf, SureSink, fetch_all, put_all,
};
use std::alloc::{AllocError, Global};
use std::test::Fail;

fn file(alloc: Global, name: &str, bytes: &[u8]) -> Result<File, AllocError> {
    Ok(File {
        name: String::from_str(alloc, name)?,
        bytes: Vec::from_slice(alloc, bytes)?,
    })
}

fn two_files(alloc: Global) -> Result<Vec<File>, AllocError> {
    let mut files = Vec::new(alloc);
    files.push(file(alloc, "a", b"alpha")?)?;
    files.push(file(alloc, "b", b"")?)?;
    Ok(files)
}

/// What a row wants of a call that fetches.
#[derive(Clone, Copy)]
enum Wanted {
    Whole(&'static [u8]),
    TooLong(&'static [u8]),
    Fault(&'static [u8]),
}

fn is_wanted(fetched: &Fetched, wanted: Wanted) -> bool {
    match (fetched, wanted) {
        (Fetched::Whole(found), Wanted::Whole(bytes)) => found.as_slice() == bytes,
        (Fetched::TooLong(found), Wanted::TooLong(bytes)) => found.as_slice() == bytes,
        (Fetched::Fault(found), Wanted::Fault(bytes)) => found.as_slice() == bytes,
        _ => false,
    }
}

fn surely_gives(alloc: Global, name: &str, wanted: Wanted) -> Result<bool, AllocError> {
    let mut shelf = SureShelf::new(two_files(alloc)?);
    Ok(is_wanted(&fetch_all(alloc, &mut shelf, name, 99), wanted))
}

// A file that is fetched up to a limit, where these calls fail and each gives so many bytes at most.
struct Fetch {
    name: &'static str,
    limit: u32,
    failing: &'static [u64],
    most: usize,
    wanted: Wanted,
}

/// Rows of files that are fetched.
macro_rules! fetches {
    ($($name:literal to $limit:literal, $failing:tt, $most:literal => $wanted:ident($bytes:literal);)*) => {
        [$(Fetch {
            name: $name,
            limit: $limit,
            failing: &$failing,
            most: $most,
            wanted: Wanted::$wanted($bytes),
        }),*]
    };
}

static FETCHES: [Fetch; 8] = fetches! {
    "a" to 99, [], 2 => Whole(b"alpha");
    "b" to 99, [], 2 => Whole(b"");
    "c" to 99, [], 2 => Whole(b"");
    "a" to 5, [], 1 => Whole(b"alpha");
    "a" to 4, [], 1 => TooLong(b"alph");
    "a" to 0, [], 1 => TooLong(b"");
    "a" to 5, [2], 1 => Fault(b"a");
    "a" to 5, [6], 1 => Fault(b"alpha");
};

fn gives(alloc: Global, row: &Fetch) -> Result<bool, AllocError> {
    let failing = Vec::from_slice(alloc, row.failing)?;
    let mut shelf = MemoryShelf::new(two_files(alloc)?, failing, row.most.max(1));
    let fetched = fetch_all(alloc, &mut shelf, row.name, u64::from(row.limit));
    Ok(is_wanted(&fetched, row.wanted))
}

#[test]
fn a_sure_shelf_gives_its_files(rt: HostRuntime) -> Result<(), Fail> {
    for (name, bytes) in [("a", b"alpha".as_slice()), ("b", b""), ("c", b"")] {
        assert!(rt;
            surely_gives(rt.alloc(), name, Wanted::Whole(bytes))?,
            "{name}"
        );
    }
    Ok(())
}

#[test]
fn fetching_stops_at_a_fault_and_at_the_limit(rt: HostRuntime) -> Result<(), Fail> {
    for (number, row) in FETCHES.iter().enumerate() {
        assert!(rt; gives(rt.alloc(), row)?, "row {number}");
    }
    Ok(())
}

// Whether the piece is put whole or not, as this says, and this is taken of it.
fn surely_takes(
    alloc: Global,
    room: usize,
    piece: &[u8],
    is_whole: bool,
    taken: &[u8],
) -> Result<bool, AllocError> {
    let mut sink = SureSink::new(alloc, room)?;
    let is_put = put_all(&mut sink, piece).is_ok();
    Ok(is_put == is_whole && sink.bytes() == taken)
}

fn takes(
    alloc: Global,
    failing: &[u64],
    most: usize,
    is_whole: bool,
    taken: &[u8],
) -> Result<bool, AllocError> {
    let mut sink = MemorySink::new(alloc, Vec::from_slice(alloc, failing)?, most);
    let is_put = put_all(&mut sink, b"hello").is_ok();
    Ok(is_put == is_whole && sink.bytes() == taken)
}

#[test]
fn sinks_take_what_is_put(rt: HostRuntime) -> Result<(), Fail> {
    let cases: [(&[u64], usize, bool, &[u8]); 5] = [
        (&[], usize::MAX, true, b"hello"),
        (&[], 1, true, b"hello"),
        (&[], 0, false, b""),
        (&[3], 1, false, b"he"),
        (&[6], 1, true, b"hello"),
    ];
    for (failing, most, is_whole, taken) in cases {
        assert!(rt;
            takes(rt.alloc(), failing, most, is_whole, taken)?,
            "{is_whole} by {most}"
        );
    }
    Ok(())
}

#[test]
fn a_room_is_filled_and_no_more(rt: HostRuntime) -> Result<(), Fail> {
    let cases: [(usize, &[u8], bool, &[u8]); 8] = [
        (6, b"hello", true, b"hello"),
        (6, b"", true, b""),
        (5, b"hello", true, b"hello"),
        (5, b"", true, b""),
        (2, b"hello", false, b"he"),
        (2, b"", true, b""),
        (0, b"hello", false, b""),
        (0, b"", true, b""),
    ];
    for (room, piece, is_whole, taken) in cases {
        assert!(rt;
            surely_takes(rt.alloc(), room, piece, is_whole, taken)?,
            "{is_whole} in {room}"
        );
    }
    Ok(())
}

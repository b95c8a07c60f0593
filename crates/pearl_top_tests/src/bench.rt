// What `bench` writes.

use crate::case::{CHECK, Case, ends_so};
use pearl_bench::source;
use pearl_top::status::Status;
use std::alloc::{AllocError, Global};

/// Numbers of workloads, and what is written of each.
pub static LINES: [(&str, &str); 3] = [
    ("1", "bench 1 starts 61 ends 61 overruns 0\n"),
    ("2", "bench 2 starts 91 ends 91 overruns 0\n"),
    ("100", "bench 100 starts 350 ends 350 overruns 0\n"),
];

/// Words that are no command.
pub static OTHER_WORDS: [&[&str]; 12] = [
    &["bench"],
    &["bench", ""],
    &["bench", "0"],
    &["bench", "01"],
    &["bench", "101"],
    &["bench", "1000"],
    &["bench", "+1"],
    &["bench", "-1"],
    &["bench", "1 "],
    &["bench", "one"],
    &["bench", "1", "2"],
    &["1", "bench"],
];

/// Whether the workload of this number writes this.
pub fn writes(alloc: Global, number: &str, line: &str) -> Result<bool, AllocError> {
    let case = Case {
        words: &["bench", number],
        source: "",
        journal: "",
        room: 64,
        again: false,
        status: Status::Done,
        text: line,
    };
    ends_so(alloc, &case)
}

/// Whether the source of the workload with so many tasks is accepted.
pub fn is_accepted(alloc: Global, n: u8) -> Result<bool, AllocError> {
    let text = String::from_utf8(source(alloc, n.clamp(1, 100))?).unwrap_or(String::new(alloc));
    let line = format!(in alloc; "accepted {} 0 1\n", u32::from(n) + 1)?;
    let case = Case {
        words: CHECK,
        source: text.as_str(),
        journal: "",
        room: 64,
        again: false,
        status: Status::Done,
        text: line.as_str(),
    };
    ends_so(alloc, &case)
}

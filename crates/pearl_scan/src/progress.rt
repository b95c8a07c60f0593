// How far a GET has come in the bytes that wait, so that these aren't gone over again when more come in.

ghost use Rattle.std.specs.Prelude.{◌≡◌, ◌≤◌, ◌<◌, ℕ, true, List, IfSome, IsSome, length, take};
ghost use Rattle.std.specs.List.{AllByRecursion};
ghost use Rattle.pearl_value.specs.Kinds.{IsKind};
ghost use Rattle.pearl_value.specs.declared.kind.Kind as kind;
ghost use Rattle.pearl_format.specs.declared.item.Item as item;
ghost use Rattle.pearl_scan.specs.Progress as spec;

use crate::item::{Found, scan_item, width_or, width_over};
use pearl_format::item::{Item, ItemCode};
use pearl_value::kind::Kind;

// More bytes than wait at any terminal.
const NEVER: usize = 4097;

/// How far a GET has come.
#[derive(Clone, Copy)]
pub enum Progress {
    /// It finds all that it waits for, whatever else comes in: each field and line end is there, or a bad field before
    /// one that isn't.
    Complete,
    /// It doesn't yet.
    Short(Reached),
}

/// So many items found what they wait for, for so many targets, in so many bytes.
#[derive(Clone, Copy)]
pub struct Reached {
    items: usize,
    targets: usize,
    used: usize,
    // The next item isn't complete while fewer bytes wait than these, and fewer line ends among them than those.
    bytes: usize,
    lines: usize,
}

/// How many line ends there are.
pub fn line_ends(bytes: &[u8]) -> usize
    ensures { result ≡ spec.line_ends bytes.now }
{
    let mut count = 0;
    for byte in bytes {
        if *byte == b'\n' {
            count += 1;
        }
    }
    count
}

impl Progress {
    /// No byte was looked at yet.
    pub fn start() -> Progress
        ensures { (items : List item.Item) (kinds : List kind.Kind) (bytes : List ℕ) →
            spec.CanGoOn items kinds bytes result }
    {
        Progress::Short(Reached {
            items: 0,
            targets: 0,
            used: 0,
            bytes: 0,
            lines: 0,
        })
    }

    /// Whether the GET finds all that it waits for.
    pub fn is_complete(&self) -> bool
        ensures { result ≡ spec.is_whole self.now }
    {
        match self {
            Progress::Complete => true,
            Progress::Short(_) => false,
        }
    }

    /// Goes on from here. Where it is told how many line ends are among the bytes, it looks at none of them if too few
    /// came in.
    pub fn go_on(
        self,
        items: &[Item],
        kinds: &[Kind],
        bytes: &[u8],
        lines: Option<usize>,
    ) -> Progress
        requires few { length kinds.now ≤ 64 }
        requires are { AllByRecursion IsKind kinds.now }
        requires near { length bytes.now ≤ 4096 }
        requires lines { IfSome lines (λ n. n ≡ spec.line_ends bytes.now) }
        requires goes_on { spec.CanGoOn items.now kinds.now bytes.now self }
        ensures { spec.IsProgress items.now kinds.now bytes.now result }
    {
        match self {
            Progress::Complete => Progress::Complete,
            Progress::Short(reached) => {
                if reached.waits(bytes.len(), lines) {
                    Progress::Short(reached)
                } else {
                    reached.go_on(items, kinds, bytes, lines)
                }
            }
        }
    }
}

impl Reached {
    // Whether too few bytes and line ends came in for the next item.
    fn waits(&self, bytes: usize, lines: Option<usize>) -> bool
        ensures { result ≡ true → (bytes < self.now.bytes) × IsSome lines × IfSome lines (λ n. n < self.now.lines) }
    {
        match lines {
            None => false,
            Some(lines) => bytes < self.bytes && lines < self.lines,
        }
    }

    fn go_on(self, items: &[Item], kinds: &[Kind], bytes: &[u8], lines: Option<usize>) -> Progress
        requires few { length kinds.now ≤ 64 }
        requires are { AllByRecursion IsKind kinds.now }
        requires near { length bytes.now ≤ 4096 }
        requires lines { IfSome lines (λ n. n ≡ spec.line_ends bytes.now) }
        requires reached { spec.HasReached items.now kinds.now bytes.now self }
        ensures { spec.IsProgress items.now kinds.now bytes.now result }
    {
        let mut used = self.used;
        let mut targets = self.targets;
        for place in self.items..items.len() {
            let rest = &kinds[targets..];
            match scan_item(&items[place], rest, &bytes[used..]) {
                Found::Short => {
                    let lines = ends_before(bytes, used, lines) + lines_awaited(&items[place]);
                    return Progress::Short(Reached {
                        items: place,
                        targets,
                        used,
                        bytes: used + bytes_awaited(&items[place], rest),
                        lines,
                    });
                }
                Found::Bad(_) => return Progress::Complete,
                Found::Passed(more) => used += more,
                Found::Value(more, _) => {
                    used += more;
                    targets += 1;
                }
            }
        }
        Progress::Complete
    }
}

// How many line ends are among the first bytes, where it may be known how many are among all.
fn ends_before(bytes: &[u8], used: usize, lines: Option<usize>) -> usize
    requires used { used ≤ length bytes.now }
    requires lines { IfSome lines (λ n. n ≡ spec.line_ends bytes.now) }
    ensures { result ≡ spec.line_ends (take used bytes.now) }
{
    match lines {
        Some(lines) => lines - line_ends(&bytes[used..]),
        None => line_ends(&bytes[..used]),
    }
}

// An item isn't complete while there are fewer bytes than so many, and fewer line ends than it waits for.
fn bytes_awaited(item: &Item, kinds: &[Kind]) -> usize
    ensures short { result ≤ spec.bytes_awaited item.now.code item.now.width kinds.now }
    ensures few { result ≤ 4097 }
{
    if item.code == ItemCode::Skip {
        NEVER
    } else {
        width_over(item, kinds).min(NEVER)
    }
}

// How many line ends it waits for.
fn lines_awaited(item: &Item) -> usize
    ensures short { result ≤ spec.lines_awaited item.now.code item.now.width }
    ensures few { result ≤ 4097 }
{
    if item.code == ItemCode::Skip {
        width_or(item.width, 1).min(NEVER)
    } else {
        1
    }
}

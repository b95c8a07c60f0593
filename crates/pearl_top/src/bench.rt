// The workload, which is run from memory.

ghost use Rattle.std.specs.Prelude.{◌≡◌, ◌≤◌, codes, length, IfOk, IfErr};
ghost use Rattle.pearl_bench.specs.Texts.{journal_of};
ghost use Rattle.pearl_io.specs.Outside.{content};
ghost use Rattle.pearl_top.specs.BenchDue.{BenchDue, IsBench, IsWorked};
ghost use Rattle.pearl_top.specs.Failures.{IsDue};
ghost use Rattle.pearl_top.specs.RunDue.{SourceDue};

use crate::compile::machine_of;
use crate::failure::Failure;
use crate::limits::SOURCE_LIMIT;
use crate::replay::replay;
use arrayvec::ArrayVec;
use pearl_bench::{journal, source, summary};
use pearl_io::{File, MemorySink, SureShelf};
use pearl_journal::lines::Lines;
use pearl_script::refusal::Refusal;
use std::alloc::{AllocError as NoMemory, Global};

/// The line that sums up a run of the workload of this number.
pub fn bench_line(alloc: Global, n: u8) -> Result<ArrayVec<u8, 112>, Failure>
    requires some { 1 ≤ n }
    requires few { n ≤ 100 }
    ensures ok { IfOk result (λ line. IsBench n line.items) }
    ensures err { IfErr result (IsDue (BenchDue n)) }
{
    let source = source(alloc, n)?;
    let sink = worked(alloc, source.as_slice())?;
    Ok(summary(n, sink.bytes()))
}

// What a source writes over the workload's journal.
fn worked(alloc: Global, source: &[u8]) -> Result<MemorySink, Failure>
    requires { length source.now ≤ SOURCE_LIMIT }
    ensures ok { IfOk result (λ sink. IsWorked source.now sink.bytes) }
    ensures err { IfErr result (IsDue (SourceDue source.now ⊥)) }
{
    let mut machine = machine_of(alloc, source)?;
    let mut lines = Lines::new(alloc)?;
    let mut shelf = shelf_of(alloc)?;
    let mut sink = MemorySink::new(alloc, Vec::new(alloc), usize::MAX);
    match replay(&mut machine, &mut lines, "journal", &mut shelf, &mut sink) {
        Ok(()) => Ok(sink),
        // The sink fails where it finds no memory to grow, and nothing else here can fail.
        Err(_) => Err(Failure::Refused(Refusal::Memory)),
    }
}

// A shelf that holds the workload's journal.
fn shelf_of(alloc: Global) -> Result<SureShelf, NoMemory>
    ensures { IfOk result (λ shelf. content shelf (codes "journal") ≡ journal_of) }
{
    let name = String::from_str(alloc, "journal")?;
    let bytes = journal(alloc)?;
    let mut files = Vec::new(alloc);
    files.push(File { name, bytes })?;
    Ok(SureShelf::new(files))
}

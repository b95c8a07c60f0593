// The top call.

ghost use Rattle.std.specs.Prelude.{◌≡◌, ◌≢◌, ◌≤◌, ◌⊎◌, ℕ, List, Some, Any, map, string_bytes};
ghost use Rattle.std.specs.List.{AllZip};
ghost use Rattle.pearl_io.specs.Outside.{Files, CountRose, WriteFailed, content};
ghost use Rattle.pearl_script.specs.Refusals.{refusal_line};
ghost use Rattle.pearl_top.specs.BenchDue.{BenchDue};
ghost use Rattle.pearl_top.specs.CheckDue.{CheckDue};
ghost use Rattle.pearl_top.specs.Commands.{NoCommand, ReadsObject, command_of, names_of};
ghost use Rattle.pearl_top.specs.CompileDue.{CompileDue};
ghost use Rattle.pearl_top.specs.Complete.{IsInOrder};
ghost use Rattle.pearl_top.specs.ObjectDue.{ExecDue, ListDue};
ghost use Rattle.pearl_top.specs.Outcome.{Due, DueFor, IsOutcome};
ghost use Rattle.pearl_top.specs.ResumeDue.{ResumeDue};
ghost use Rattle.pearl_top.specs.RunDue.{RunDue};
ghost use Rattle.pearl_top.specs.SaveDue.{SaveDue};
ghost use Rattle.pearl_top.specs.PrintDue.{PrintDue};
ghost use Rattle.pearl_top.specs.Reading.{MayHave};
ghost use Rattle.pearl_top.specs.Taken.{Ends, Finishes, OnlyDue, Leaves};
ghost use Rattle.pearl_top.specs.WatchDue.{WatchDue};

use crate::bench::bench_line;
use crate::check::{line_of, sizes_of};
use crate::command::{Command, command_of_words};
use crate::compile::{compiled, machine_of};
use crate::failure::Failure;
use crate::limits::{OBJECT_LIMIT, SNAPSHOT_LIMIT, SOURCE_LIMIT};
use crate::object::{listing_in, machine_in, monitor_in};
use crate::print::canonical_text;
use crate::read::read_whole;
use crate::refuse::conclude;
use crate::replay::replay;
use crate::resumed::resumed_in;
use crate::save::{go_over, snapshot_of};
use crate::status::Status;
use pearl_io::{Shelf, Sink, put_all};
use pearl_journal::lines::Lines;
use pearl_script::refusal::Refusal;
use pearl_snap::laws::snapshots_are_read_as_they_are_spelled;
use std::alloc::Global;

/// Carries out the command of the words after the program's name: reads the files that it names from the shelf, and
/// writes what is due to the sink. Tests hold that each line is one piece, and that a printed text, an object, a listing
/// and a snapshot are one piece each.
///
/// Memory may run out only before anything is written: while a source, an object or a snapshot is read or checked, while the
/// text, the object, the listing or the machine is made of it, while the workload runs, and while a snapshot is made. Then the
/// line `error memory` alone is due. What is due otherwise, and with which status, is `Due`.
pub fn pearl<S: Shelf, K: Sink>(
    alloc: Global,
    words: &[String],
    shelf: &mut S,
    sink: &mut K,
) -> Status
    // What was taken is due with the status; after a write fault a front of what is due with some status, and not all.
    // The bytes of the files are those held, where the shelf tells them, and else some bytes that they may have.
    ensures due { let command = command_of (map string_bytes words.now) in
        let rose = λ (name : List ℕ). CountRose (S.faults shelf.old name) (S.faults shelf.new name) in
        (contents : List (List ℕ)) × AllZip (MayHave (S.holds shelf.old)) (names_of command) contents
        × Ends (K.taken sink.old) (K.taken sink.new) (DueFor command contents rose) result }
    ensures ends { let command = command_of (map string_bytes words.now) in
        let rose = λ (name : List ℕ). CountRose (S.faults shelf.old name) (S.faults shelf.new name) in
        (files : Files) → S.holds shelf.old ≡ Some files →
        Ends (K.taken sink.old) (K.taken sink.new) (Due command (content files) rose) result }

    // Where the status is none of those for which the outside or memory is the cause, what was taken is, with the status, an
    // outcome. That it is the only one say `laws::one_status` and `laws::one_text`.
    ensures outcome { let command = command_of (map string_bytes words.now) in
        (files : Files) → S.holds shelf.old ≡ Some files →
        result ≢ Status.NoMemory → result ≢ Status.ReadFault → result ≢ Status.WriteFault →
        Finishes (K.taken sink.old) (K.taken sink.new) (IsOutcome command (content files) result) }

    // Where the files that the words name are in order, the command is carried out to its end, unless memory is out, or reading or
    // writing failed.
    ensures complete { let command = command_of (map string_bytes words.now) in
        (files : Files) → S.holds shelf.old ≡ Some files → IsInOrder command (content files) →
        result ≢ Status.NoMemory → result ≢ Status.ReadFault → result ≢ Status.WriteFault → result ≡ Status.Done }

    // When each status comes that the files don't decide.
    ensures usage { result ≡ Status.Usage → command_of (map string_bytes words.now) ≡ NoCommand }
    ensures no_command { command_of (map string_bytes words.now) ≡ NoCommand →
        (result ≡ Status.Usage) ⊎ (result ≡ Status.WriteFault) }
    ensures no_line { command_of (map string_bytes words.now) ≡ NoCommand →
        Ends (K.taken sink.old) (K.taken sink.new) (OnlyDue Status.Usage (refusal_line Refusal.Usage)) result }
    ensures object { result ≡ Status.BadObject → ReadsObject (command_of (map string_bytes words.now)) }
    ensures read { let rose = λ (name : List ℕ). CountRose (S.faults shelf.old name) (S.faults shelf.new name) in
        result ≡ Status.ReadFault → Any rose (names_of (command_of (map string_bytes words.now))) }
    ensures write { result ≡ Status.WriteFault → WriteFailed (K.faults sink.old) (K.faults sink.new) (K.full sink.new) }

    // What stays the same.
    ensures held { S.holds shelf.new ≡ S.holds shelf.old }
    ensures shelf_later { (name : List ℕ) → S.faults shelf.old name ≤ S.faults shelf.new name }
    ensures sink_later { K.faults sink.old ≤ K.faults sink.new }
{
    snapshots_are_read_as_they_are_spelled();
    let ended = carry_out(alloc, words, shelf, sink);
    conclude(ended, sink)
}

// Carries out the command of the words, up to the line of a refusal.
fn carry_out<S: Shelf, K: Sink>(
    alloc: Global,
    words: &[String],
    shelf: &mut S,
    sink: &mut K,
) -> Result<(), Failure>
    ensures ends { let command = command_of (map string_bytes words.now) in
        let rose = λ (name : List ℕ). CountRose (S.faults shelf.old name) (S.faults shelf.new name) in
        let failed = WriteFailed (K.faults sink.old) (K.faults sink.new) (K.full sink.new) in
        (contents : List (List ℕ)) × AllZip (MayHave (S.holds shelf.old)) (names_of command) contents
        × Leaves (K.taken sink.old) (K.taken sink.new) failed (DueFor command contents rose) result }
    ensures held { S.holds shelf.new ≡ S.holds shelf.old }
    ensures shelf_later { (name : List ℕ) → S.faults shelf.old name ≤ S.faults shelf.new name }
    ensures sink_later { K.faults sink.old ≤ K.faults sink.new }
{
    match command_of_words(words) {
        Command::Run { source, journal } => run(alloc, source, journal, shelf, sink),
        Command::Check { source } => check(alloc, source, shelf, sink),
        Command::Print { source } => print(alloc, source, shelf, sink),
        Command::Compile { source } => compile(alloc, source, shelf, sink),
        Command::Exec { object, journal } => exec(alloc, object, journal, shelf, sink),
        Command::List { object } => list(alloc, object, shelf, sink),
        Command::Bench { n } => bench(alloc, n, sink),
        Command::Watch {
            object,
            journal,
            names,
        } => watch(alloc, object, journal, names, shelf, sink),
        Command::Save { object, journal } => save(alloc, object, journal, shelf, sink),
        Command::Resume { snapshot, journal } => resume(alloc, snapshot, journal, shelf, sink),
        Command::None => Err(Failure::Refused(Refusal::Usage)),
    }
}

// Carries out `run SOURCE JOURNAL`.
fn run<S: Shelf, K: Sink>(
    alloc: Global,
    source: &str,
    journal: &str,
    shelf: &mut S,
    sink: &mut K,
) -> Result<(), Failure>
    ensures ends { let rose = λ (name : List ℕ). CountRose (S.faults shelf.old name) (S.faults shelf.new name) in
        let failed = WriteFailed (K.faults sink.old) (K.faults sink.new) (K.full sink.new) in
        (first second : List ℕ) × MayHave (S.holds shelf.old) source.now first × MayHave (S.holds shelf.old) journal.now second
        × Leaves (K.taken sink.old) (K.taken sink.new) failed (RunDue first second (rose source.now) (rose journal.now)) result }
    ensures held { S.holds shelf.new ≡ S.holds shelf.old }
    ensures shelf_later { (name : List ℕ) → S.faults shelf.old name ≤ S.faults shelf.new name }
    ensures sink_later { K.faults sink.old ≤ K.faults sink.new }
{
    let bytes = read_whole(alloc, shelf, source, SOURCE_LIMIT)?;
    let mut machine = machine_of(alloc, bytes.as_slice())?;
    let mut lines = Lines::new(alloc)?;
    replay(&mut machine, &mut lines, journal, shelf, sink)
}

// Carries out `check SOURCE`.
fn check<S: Shelf, K: Sink>(
    alloc: Global,
    source: &str,
    shelf: &mut S,
    sink: &mut K,
) -> Result<(), Failure>
    ensures ends { let rose = CountRose (S.faults shelf.old source.now) (S.faults shelf.new source.now) in
        let failed = WriteFailed (K.faults sink.old) (K.faults sink.new) (K.full sink.new) in
        (file : List ℕ) × MayHave (S.holds shelf.old) source.now file
        × Leaves (K.taken sink.old) (K.taken sink.new) failed (CheckDue file rose) result }
    ensures held { S.holds shelf.new ≡ S.holds shelf.old }
    ensures shelf_later { (name : List ℕ) → S.faults shelf.old name ≤ S.faults shelf.new name }
    ensures sink_later { K.faults sink.old ≤ K.faults sink.new }
{
    let bytes = read_whole(alloc, shelf, source, SOURCE_LIMIT)?;
    let sizes = sizes_of(alloc, bytes.as_slice())?;
    put_all(sink, line_of(&sizes).as_slice())?;
    Ok(())
}

// Carries out `print SOURCE`.
fn print<S: Shelf, K: Sink>(
    alloc: Global,
    source: &str,
    shelf: &mut S,
    sink: &mut K,
) -> Result<(), Failure>
    ensures ends { let rose = CountRose (S.faults shelf.old source.now) (S.faults shelf.new source.now) in
        let failed = WriteFailed (K.faults sink.old) (K.faults sink.new) (K.full sink.new) in
        (file : List ℕ) × MayHave (S.holds shelf.old) source.now file
        × Leaves (K.taken sink.old) (K.taken sink.new) failed (PrintDue file rose) result }
    ensures held { S.holds shelf.new ≡ S.holds shelf.old }
    ensures shelf_later { (name : List ℕ) → S.faults shelf.old name ≤ S.faults shelf.new name }
    ensures sink_later { K.faults sink.old ≤ K.faults sink.new }
{
    let bytes = read_whole(alloc, shelf, source, SOURCE_LIMIT)?;
    let text = canonical_text(alloc, bytes.as_slice())?;
    put_all(sink, text.as_slice())?;
    Ok(())
}

// Carries out `compile SOURCE`.
fn compile<S: Shelf, K: Sink>(
    alloc: Global,
    source: &str,
    shelf: &mut S,
    sink: &mut K,
) -> Result<(), Failure>
    ensures ends { let rose = CountRose (S.faults shelf.old source.now) (S.faults shelf.new source.now) in
        let failed = WriteFailed (K.faults sink.old) (K.faults sink.new) (K.full sink.new) in
        (file : List ℕ) × MayHave (S.holds shelf.old) source.now file
        × Leaves (K.taken sink.old) (K.taken sink.new) failed (CompileDue file rose) result }
    ensures held { S.holds shelf.new ≡ S.holds shelf.old }
    ensures shelf_later { (name : List ℕ) → S.faults shelf.old name ≤ S.faults shelf.new name }
    ensures sink_later { K.faults sink.old ≤ K.faults sink.new }
{
    let bytes = read_whole(alloc, shelf, source, SOURCE_LIMIT)?;
    let object = compiled(alloc, bytes.as_slice())?;
    put_all(sink, object.as_slice())?;
    Ok(())
}

// Carries out `exec OBJECT JOURNAL`.
fn exec<S: Shelf, K: Sink>(
    alloc: Global,
    object: &str,
    journal: &str,
    shelf: &mut S,
    sink: &mut K,
) -> Result<(), Failure>
    ensures ends { let rose = λ (name : List ℕ). CountRose (S.faults shelf.old name) (S.faults shelf.new name) in
        let failed = WriteFailed (K.faults sink.old) (K.faults sink.new) (K.full sink.new) in
        (first second : List ℕ) × MayHave (S.holds shelf.old) object.now first × MayHave (S.holds shelf.old) journal.now second
        × Leaves (K.taken sink.old) (K.taken sink.new) failed (ExecDue first second (rose object.now) (rose journal.now)) result }
    ensures held { S.holds shelf.new ≡ S.holds shelf.old }
    ensures shelf_later { (name : List ℕ) → S.faults shelf.old name ≤ S.faults shelf.new name }
    ensures sink_later { K.faults sink.old ≤ K.faults sink.new }
{
    let bytes = read_whole(alloc, shelf, object, OBJECT_LIMIT)?;
    let mut machine = machine_in(alloc, bytes.as_slice())?;
    let mut lines = Lines::new(alloc)?;
    replay(&mut machine, &mut lines, journal, shelf, sink)
}

// Carries out `watch OBJECT JOURNAL NAME ..`.
fn watch<S: Shelf, K: Sink>(
    alloc: Global,
    object: &str,
    journal: &str,
    names: &[String],
    shelf: &mut S,
    sink: &mut K,
) -> Result<(), Failure>
    ensures ends { let rose = λ (name : List ℕ). CountRose (S.faults shelf.old name) (S.faults shelf.new name) in
        let failed = WriteFailed (K.faults sink.old) (K.faults sink.new) (K.full sink.new) in
        (first second : List ℕ) × MayHave (S.holds shelf.old) object.now first × MayHave (S.holds shelf.old) journal.now second
        × Leaves (K.taken sink.old) (K.taken sink.new) failed
        (WatchDue first (map string_bytes names.now) second (rose object.now) (rose journal.now)) result }
    ensures held { S.holds shelf.new ≡ S.holds shelf.old }
    ensures shelf_later { (name : List ℕ) → S.faults shelf.old name ≤ S.faults shelf.new name }
    ensures sink_later { K.faults sink.old ≤ K.faults sink.new }
{
    let bytes = read_whole(alloc, shelf, object, OBJECT_LIMIT)?;
    let mut monitor = monitor_in(alloc, bytes.as_slice(), names)?;
    let mut lines = Lines::new(alloc)?;
    replay(&mut monitor, &mut lines, journal, shelf, sink)
}

// Carries out `save OBJECT JOURNAL`.
fn save<S: Shelf, K: Sink>(
    alloc: Global,
    object: &str,
    journal: &str,
    shelf: &mut S,
    sink: &mut K,
) -> Result<(), Failure>
    ensures ends { let rose = λ (name : List ℕ). CountRose (S.faults shelf.old name) (S.faults shelf.new name) in
        let failed = WriteFailed (K.faults sink.old) (K.faults sink.new) (K.full sink.new) in
        (first second : List ℕ) × MayHave (S.holds shelf.old) object.now first × MayHave (S.holds shelf.old) journal.now second
        × Leaves (K.taken sink.old) (K.taken sink.new) failed (SaveDue first second (rose object.now) (rose journal.now)) result }
    ensures held { S.holds shelf.new ≡ S.holds shelf.old }
    ensures shelf_later { (name : List ℕ) → S.faults shelf.old name ≤ S.faults shelf.new name }
    ensures sink_later { K.faults sink.old ≤ K.faults sink.new }
{
    let bytes = read_whole(alloc, shelf, object, OBJECT_LIMIT)?;
    let mut machine = machine_in(alloc, bytes.as_slice())?;
    let mut lines = Lines::new(alloc)?;
    go_over(&mut machine, &mut lines, journal, shelf)?;
    let text = snapshot_of(alloc, &mut machine)?;
    put_all(sink, text.as_slice())?;
    Ok(())
}

// Carries out `resume SNAPSHOT JOURNAL`.
fn resume<S: Shelf, K: Sink>(
    alloc: Global,
    snapshot: &str,
    journal: &str,
    shelf: &mut S,
    sink: &mut K,
) -> Result<(), Failure>
    ensures ends { let rose = λ (name : List ℕ). CountRose (S.faults shelf.old name) (S.faults shelf.new name) in
        let failed = WriteFailed (K.faults sink.old) (K.faults sink.new) (K.full sink.new) in
        (first second : List ℕ) × MayHave (S.holds shelf.old) snapshot.now first × MayHave (S.holds shelf.old) journal.now second
        × Leaves (K.taken sink.old) (K.taken sink.new) failed (ResumeDue first second (rose snapshot.now) (rose journal.now)) result }
    ensures held { S.holds shelf.new ≡ S.holds shelf.old }
    ensures shelf_later { (name : List ℕ) → S.faults shelf.old name ≤ S.faults shelf.new name }
    ensures sink_later { K.faults sink.old ≤ K.faults sink.new }
{
    let bytes = read_whole(alloc, shelf, snapshot, SNAPSHOT_LIMIT)?;
    let mut machine = resumed_in(alloc, bytes.as_slice())?;
    let mut lines = Lines::later(alloc)?;
    replay(&mut machine, &mut lines, journal, shelf, sink)
}

// Carries out `list OBJECT`.
fn list<S: Shelf, K: Sink>(
    alloc: Global,
    object: &str,
    shelf: &mut S,
    sink: &mut K,
) -> Result<(), Failure>
    ensures ends { let rose = CountRose (S.faults shelf.old object.now) (S.faults shelf.new object.now) in
        let failed = WriteFailed (K.faults sink.old) (K.faults sink.new) (K.full sink.new) in
        (file : List ℕ) × MayHave (S.holds shelf.old) object.now file
        × Leaves (K.taken sink.old) (K.taken sink.new) failed (ListDue file rose) result }
    ensures held { S.holds shelf.new ≡ S.holds shelf.old }
    ensures shelf_later { (name : List ℕ) → S.faults shelf.old name ≤ S.faults shelf.new name }
    ensures sink_later { K.faults sink.old ≤ K.faults sink.new }
{
    let bytes = read_whole(alloc, shelf, object, OBJECT_LIMIT)?;
    let text = listing_in(alloc, bytes.as_slice())?;
    put_all(sink, text.as_slice())?;
    Ok(())
}

// Carries out `bench N`.
fn bench<K: Sink>(alloc: Global, n: u8, sink: &mut K) -> Result<(), Failure>
    requires some { 1 ≤ n }
    requires few { n ≤ 100 }
    ensures ends { let failed = WriteFailed (K.faults sink.old) (K.faults sink.new) (K.full sink.new) in
        Leaves (K.taken sink.old) (K.taken sink.new) failed (BenchDue n) result }
    ensures sink_later { K.faults sink.old ≤ K.faults sink.new }
{
    let line = bench_line(alloc, n)?;
    put_all(sink, line.as_slice())?;
    Ok(())
}

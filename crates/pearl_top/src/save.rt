// A run that is saved: over a journal without writing, and then the snapshot of where the machine stands.

ghost use Rattle.std.specs.Prelude.{◌≡◌, ◌≤◌, ℕ, List, [], IfErr, IfOk, OnOk};
ghost use Rattle.pearl_io.specs.Outside.{CountRose};
ghost use Rattle.pearl_machine.specs.Seen.{retold};
ghost use Rattle.pearl_script.specs.declared.refusal.Refusal.TheVariants as refusal;
ghost use Rattle.pearl_top.specs.declared.failure.Failure.TheVariants as failure;
ghost use Rattle.pearl_top.specs.Failures.{IsDue};
ghost use Rattle.pearl_top.specs.JournalDue.{JournalDue};
ghost use Rattle.pearl_top.specs.Reading.{MayHave};
ghost use Rattle.pearl_top.specs.Ready.{IsReady};
ghost use Rattle.pearl_top.specs.SaveDue.{by_save};
ghost use Rattle.pearl_top.specs.Saving.{HasRun, IsSnapshotOf};
ghost use Rattle.pearl_journal.specs.Pieces.{begin};

use crate::failure::Failure;
use crate::replay::carry_out;
use pearl_io::{Shelf, VoidSink};
use pearl_journal::lines::Lines;
use pearl_machine::Machine;
use pearl_snap::restore::save;
use std::alloc::Global;

// What opens a run is told, and not written.
fn pass_opening(machine: &mut Machine)
    ensures { machine.new ≡ retold machine.old [] }
{
    let mut void = VoidSink;
    // It takes all.
    let begun = machine.begin(&mut void);
    let VoidSink = void;
    let _ = begun;
}

/// Goes over the journal from the start of a run, of which nothing is written.
pub fn go_over<S: Shelf>(
    machine: &mut Machine,
    lines: &mut Lines,
    journal: &str,
    shelf: &mut S,
) -> Result<(), Failure>
    requires ready { IsReady machine.old }
    requires unread { lines.old ≡ begin }
    ensures ok { OnOk result ((file : List ℕ) × MayHave (S.holds shelf.old) journal.now file × HasRun machine.old file machine.new) }
    // Where the journal isn't carried out to its end, what is due is the line of that alone.
    ensures err { let rose = CountRose (S.faults shelf.old journal.now) (S.faults shelf.new journal.now) in
        IfErr result (λ why. (file : List ℕ) × MayHave (S.holds shelf.old) journal.now file
        × IsDue (JournalDue (by_save machine.old.object) file rose) why) }
    ensures held { S.holds shelf.new ≡ S.holds shelf.old }
    ensures shelf_later { (name : List ℕ) → S.faults shelf.old name ≤ S.faults shelf.new name }
{
    pass_opening(machine);
    let mut void = VoidSink;
    let done = carry_out(machine, lines, journal, shelf, &mut void);
    let VoidSink = void;
    done
}

/// The snapshot of a machine, of which every active task goes on to its next action first.
pub fn snapshot_of(alloc: Global, machine: &mut Machine) -> Result<Vec<u8>, Failure>
    requires { machine.old.state.core.told ≡ [] }
    ensures ok { IfOk result (λ text. IsSnapshotOf machine.old text.items) }
    ensures err { IfErr result (λ why. why ≡ failure.Refused refusal.Memory) }
{
    let saved = machine.saved(alloc)?;
    let text = save(alloc, machine.object(), &saved)?;
    Ok(text)
}

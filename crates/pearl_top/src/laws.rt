// The program of a module is sound, the definitions determine what a call brings about, what was compiled runs as its source
// does, and printing a printed text changes nothing.

ghost use Rattle.pearl_top.specs.Laws.{HasOneMeaning, HasOneTranscript, HasOneStatus, HasOneText};
ghost use Rattle.pearl_top.specs.Laws.{CompiledRunsAlike, FilesInOrderEndWell, ObjectsWriteAlike, PrintsItsText, ValidObjectsRun};
ghost use Rattle.pearl_top.specs.SavedRuns.{PartsWriteAlike, SavedRunsGoOn};
ghost use Rattle.pearl_top.specs.SoundPrograms.{BodiesRenewRight, ProgramsAreSound};

use pearl_instructions::runs::objects_run_as_they_offer;
use pearl_instructions_laws::laws::runs_end;
use pearl_journal_laws::journals::{journals_go_on, journals_join};
use pearl_rules::laws::time_passes;
use pearl_saved_laws::laws::{offers_come_again, restored_runs_end};
use pearl_snap::laws::snapshots_are_read_as_they_are_spelled;

/// What goes into the variables of tasks and procedures as first values suits them.
pub fn bodies_renew_right()
    ensures { BodiesRenewRight }
{}

/// The program of a lawful module that breaks no static rule, and whose REQUESTs and RELEASEs each name a semaphore, is
/// sound. A tree that was read has such ones alone.
pub fn programs_are_sound()
    ensures { ProgramsAreSound }
{}

/// A source means one program.
pub fn one_meaning()
    ensures { HasOneMeaning }
{}

/// A source writes one thing over the entries of a journal.
pub fn one_transcript()
    ensures { HasOneTranscript }
{}

/// The own machine of an object that does what a program means writes what the program's task rules write, over any
/// entries that fit.
pub fn objects_write_alike()
    ensures { ObjectsWriteAlike }
{}

/// A valid object runs as its own code offers, and its run over any entries that fit comes to its end.
pub fn valid_objects_run()
    ensures { ValidObjectsRun }
{
    objects_run_as_they_offer();
    runs_end();
}

/// A command and its files have at most one status, where nothing outside fails and memory is there.
pub fn one_status()
    ensures { HasOneStatus }
{
    valid_objects_run();
    snapshots_are_read_as_they_are_spelled();
}

/// And with it they have at most one list of bytes; but `compile` may write the bytes of any object that does what the
/// source means.
pub fn one_text()
    ensures { HasOneText }
{
    valid_objects_run();
    snapshots_are_read_as_they_are_spelled();
}

/// Where the files that a command names are in order, it is carried out to its end: there is something that it writes
/// then, and it ends in no other way, where nothing outside fails and memory is there. That there is some object that does
/// what an accepted source means is asked for `compile`, and some snapshot of the run for `save`.
pub fn files_in_order_end_well()
    ensures { FilesInOrderEndWell }
{
    valid_objects_run();
    restored_runs_end();
    snapshots_are_read_as_they_are_spelled();
}

/// What `compile` wrote, `exec` runs as `run` runs the source: with the same status and the same transcript, over any journal.
pub fn compiled_runs_alike()
    ensures { CompiledRunsAlike }
{
    valid_objects_run();
}

/// What `print` writes of a source, it writes again of a file that holds just that, where no duration of the source has 2^63
/// hours or more and what was written is no longer than a source may be.
pub fn prints_its_text()
    ensures { PrintsItsText }
{}

/// A run that was saved goes on as if it had not been stopped. Let `save` have written a snapshot of an object's run over a first
/// journal, of which each line is ended by byte 10, and let no line of a second journal set the clock. Then the transcript over the
/// first one, without its closing lines, followed by what `resume` writes of the snapshot over the second one, is the transcript over
/// both journals, one behind the other, and the status is the same; only the number of a refused line counts the lines of the first
/// journal too.
pub fn saved_runs_go_on()
    ensures { SavedRunsGoOn }
{
    time_passes();
    journals_join();
    journals_go_on();
    offers_come_again();
    snapshots_are_read_as_they_are_spelled();
}

/// Each mark can be the end of a first journal. Over `run`, `tick` or `pass` in two parts, wherever it stands, an object's own
/// machine writes what it writes over the whole of it.
pub fn parts_write_alike()
    ensures { PartsWriteAlike }
{}

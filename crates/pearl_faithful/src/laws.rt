// That the object of a program is valid and runs as the program means. Each function's contract is one theorem; none does anything.

ghost use Rattle.pearl_faithful.specs.Generated.{GeneratedIsValid, GeneratedOffers, GeneratedArrives};
ghost use Rattle.pearl_faithful.specs.Laws.{SameTables, SameRuns, TasksStand, TasksOfferSoon, FaithfulPrograms, SameActions, ObjectsFinish, ObjectsKeepKinds, ObjectsTell, ObjectsEndAlike};

use pearl_gen_stmt::laws::{code_arrives, tasks_offer};
use pearl_instructions::runs;
use pearl_instructions_laws::laws::{runs_end, runs_keep_kinds};

/// What a sound program becomes is as each object is to be, and no rule of the validator fails in it, where it has no
/// more formats than an object may have.
pub fn generated_is_valid()
    ensures { GeneratedIsValid }
{}

/// After all answers that a task can have, the code of what a sound program becomes offers what the task does next, under
/// the same premise.
pub fn generated_offers()
    ensures { GeneratedOffers }
{
    tasks_offer();
}

/// In what a sound program becomes the code of each expression, call, variable's subscripts and list of statements arrives
/// at what it means, each row being there, under the same premise.
pub fn generated_arrives()
    ensures { GeneratedArrives }
{
    code_arrives();
}

/// The tables from which an object's run starts are those of its program.
pub fn tables_are_the_programs()
    ensures { SameTables }
{}

/// The tasks' rules run from the object's tables as the program runs.
pub fn runs_are_the_programs()
    ensures { SameRuns }
{}

/// The code of each task stands where its answers lead, and offers there what the task does next, soon. So what of one
/// task at a time is enough for a whole run holds of the object.
pub fn tasks_stand()
    ensures alone { TasksStand }
    ensures soon { TasksOfferSoon }
{
    runs::tasks_begin();
    runs::stacks_stay_a_tasks();
    runs::answers_lead_to_stacks();
    runs::answers_suit();
    runs::offers_name_what_is_there();
    runs::offers_fit_the_tables();
    runs::actions_are_offered_soon();
    tasks_offer();
}

/// A valid object that a sound program becomes does what the program means: for any tasks, and any journal whose
/// entries fit its tables. Its formats are numbered as the program's, so its actions are the same to their numbers.
pub fn faithful_programs()
    ensures faithful { FaithfulPrograms }
    ensures actions { SameActions }
{
    runs::tables_are_lawful();
    tasks_stand();
}

/// The run of such an object over any such journal comes to its end, as the program's does, within a bound that the marks,
/// the tasks and the instructions give.
pub fn objects_finish()
    ensures { ObjectsFinish }
{
    runs::tables_are_lawful();
    tasks_stand();
    runs_end();
}

/// In such a run every variable of the module holds a value of its kind, and only such values wait at an input.
pub fn objects_keep_kinds()
    ensures { ObjectsKeepKinds }
{
    runs_keep_kinds();
}

/// An object that does what a program means tells what it does, step by step.
pub fn objects_tell_alike()
    ensures { ObjectsTell }
{}

/// Where its run is at its end, so is the program's, and both tell the same.
pub fn objects_end_alike()
    ensures { ObjectsEndAlike }
{}

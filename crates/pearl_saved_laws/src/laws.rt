// Laws of saved runs. Each function's contract is one theorem; none does anything.

ghost use Rattle.pearl_saved_laws.specs.Laws.{MomentsStay, StatesAreSaved, StatesComeBack, OffersComeAgain};
ghost use Rattle.pearl_saved_laws.specs.Laws.{RestoredRunsEnd};

use pearl_instructions::runs;
use pearl_instructions_laws::laws as states;
use pearl_records::laws as records;
use pearl_rules::laws as rules;
use pearl_saved::laws as stacks;

/// Over entries that fit one after the other a run comes to no moment behind the last that there is.
pub fn moments_stay()
    ensures { MomentsStay }
{
    runs::objects_run_as_they_offer();
    rules::entries_fit_one_after_the_other();
}

/// What is saved of a state of a run keeps the rules on saved states, so that a run can go on from it, and it has a
/// spelling: no series in it lasts up to 2^64 - 1.
pub fn states_are_saved()
    ensures { StatesAreSaved }
{
    states::active_tasks_alone_have_stacks();
    stacks::stacks_are_split();
    records::what_is_recorded_is_lawful();
    records::cores_stay_recordable();
    rules::time_passes();
    runs::tables_are_lawful();
    runs::tasks_begin();
    runs::stacks_stay_a_tasks();
    runs::answers_lead_to_stacks();
    runs::answers_suit();
    runs::offers_name_what_is_there();
    runs::offers_fit_the_tables();
    runs::actions_are_offered_soon();
}

/// What is saved of a state of a run makes the same core again, which has told nothing, and the same stack for each
/// active task. No task has offered its action then.
pub fn states_come_back()
    ensures { StatesComeBack }
{
    states::active_tasks_alone_have_stacks();
    stacks::stacks_come_back();
    records::records_make_the_same_core();
    records::cores_stay_recordable();
    rules::time_passes();
    runs::tables_are_lawful();
    runs::tasks_begin();
    runs::stacks_stay_a_tasks();
    runs::answers_lead_to_stacks();
    runs::answers_suit();
    runs::offers_name_what_is_there();
    runs::offers_fit_the_tables();
    runs::actions_are_offered_soon();
}

/// Where each active task had offered its action, a run that goes on from what was saved comes to the same state again,
/// each task having offered the same action, before it makes any mark. From there on it makes the marks that the run
/// would have made.
pub fn offers_come_again()
    ensures { OffersComeAgain }
{
    states_come_back();
    states::offers_are_those_of_the_next_row();
}

/// A run that goes on from any lawful state of an object, whoever made it, comes to its end, over any entries that fit.
pub fn restored_runs_end()
    ensures { RestoredRunsEnd }
{
    records::made_cores_are_recordable();
    stacks::stacks_are_split();
    runs::tables_are_lawful();
    runs::tasks_begin();
    runs::stacks_stay_a_tasks();
    runs::answers_lead_to_stacks();
    runs::answers_suit();
    runs::offers_name_what_is_there();
    runs::offers_fit_the_tables();
    runs::actions_are_offered_soon();
}

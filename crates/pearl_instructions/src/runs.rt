// What holds of the runs of valid objects. Each function's contract is one theorem; none does anything.

ghost use Rattle.pearl_instructions.specs.RunLaws.{AreTables, KnowsSlots, Begins, GoesOn, GoesOnAfter, HearsWhatSuits, OffersWhatIsThere, FitsTables, OffersSoon};
ghost use Rattle.pearl_instructions.specs.OwnOffers.{CodeStands, RunsAsOffered};

use crate::laws;

/// The tables from which an object's run starts are lawful.
pub fn tables_are_lawful()
    ensures { AreTables }
{}

/// A slot's kind in the tables is that of its leaf.
pub fn slots_keep_their_kinds()
    ensures { KnowsSlots }
{}

/// A task starts with a stack of its own.
pub fn tasks_begin()
    ensures { Begins }
{
    laws::tasks_begin_with_a_stack();
}

/// An instruction that offers nothing leaves a stack of the same task.
pub fn stacks_stay_a_tasks()
    ensures { GoesOn }
{
    laws::rows_lead_to_stacks();
    laws::stacks_are_a_tasks();
    laws::frames_stay();
}

/// So does an answer that suits the action.
pub fn answers_lead_to_stacks()
    ensures { GoesOnAfter }
{
    laws::rows_lead_to_stacks();
    laws::stacks_are_a_tasks();
    laws::frames_stay();
}

/// An answer that suits an action by the rules suits it by the object.
pub fn answers_suit()
    ensures { HearsWhatSuits }
{}

/// An action that is offered names what is there.
pub fn offers_name_what_is_there()
    ensures { OffersWhatIsThere }
{
    laws::offers_name_what_is_there();
}

/// An action that is offered fits the tables.
pub fn offers_fit_the_tables()
    ensures { FitsTables }
{
    laws::offers_name_what_is_there();
}

/// From wherever the code of a task stands it offers an action within as many rows as the object has instructions.
pub fn actions_are_offered_soon()
    ensures { OffersSoon }
{
    laws::actions_are_offered_soon();
}

/// The code of each task stands where its own offers and their answers lead. So what of one task at a time is enough for a
/// whole run holds of every valid object.
pub fn code_stands()
    ensures { CodeStands }
{
    laws::actions_are_offered_soon();
    tasks_begin();
    stacks_stay_a_tasks();
    answers_lead_to_stacks();
    answers_suit();
    offers_name_what_is_there();
    offers_fit_the_tables();
}

/// A valid object runs as its own code offers, over any journal whose entries fit its tables.
pub fn objects_run_as_they_offer()
    ensures { RunsAsOffered }
{
    tables_are_lawful();
    code_stands();
    actions_are_offered_soon();
}

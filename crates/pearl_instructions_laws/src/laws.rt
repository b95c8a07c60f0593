// Laws of the runs of valid objects, over any entries that fit. Each function's contract is one theorem; none does
// anything.

ghost use Rattle.pearl_instructions_laws.specs.Laws.{TasksHaveStacks, OffersAreNext, RunsStayInBounds, RunsKeepKinds, RunsEnd};

use pearl_instructions::{laws, runs};

/// In each state of any object's run exactly the active tasks have a stack.
pub fn active_tasks_alone_have_stacks()
    ensures { TasksHaveStacks }
{}

/// What a task has offered is what its next row offers, in each state of any object's run.
pub fn offers_are_those_of_the_next_row()
    ensures { OffersAreNext }
{}

/// In each state of a valid object's run the stack of each active task is in bounds: it is one of the object and the
/// task's own, the next row is there, and no more is used than the task states. What a task has offered names what is
/// there. So no instruction lacks an operand or finds one of another kind, none names what isn't there, and none leads
/// past the code.
pub fn runs_stay_in_bounds()
    ensures { RunsStayInBounds }
{
    active_tasks_alone_have_stacks();
    offers_are_those_of_the_next_row();
    runs::code_stands();
    runs::tables_are_lawful();
    laws::stacks_are_a_tasks();
    laws::rows_lead_to_stacks();
    laws::depth_is_kept();
    laws::frames_are_few();
    laws::offers_name_what_is_there();
}

/// In each state of a valid object's run the module's variables hold values of their kinds, and only such values wait
/// at inputs.
pub fn runs_keep_kinds()
    ensures { RunsKeepKinds }
{
    runs::code_stands();
    runs::tables_are_lawful();
}

/// A valid object's run comes to its end, within a bound for each mark.
pub fn runs_end()
    ensures { RunsEnd }
{
    runs::code_stands();
    runs::tables_are_lawful();
    runs::actions_are_offered_soon();
}

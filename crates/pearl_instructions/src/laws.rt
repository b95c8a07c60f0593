// What holds of every valid object. Each function's contract is one theorem; none does anything.

ghost use Rattle.pearl_instructions.specs.Laws.{Begins, Leads, OffersWhatIsThere, KeepsDepth, CountsFrames, OffersSoon, HasTask, NamesOwn, KeepsTask};

/// A task's code begins with a stack of the object.
pub fn tasks_begin_with_a_stack()
    ensures { Begins }
{}

/// At each stack of a valid object the next row is there: no operand is missing, none has another kind, and no number names
/// nothing. It leads to a stack of the object, and so does each answer that suits the action that is offered.
pub fn rows_lead_to_stacks()
    ensures { Leads }
{}

/// An action that is offered names what is there, of the right sort, direction and kind, within its limits.
pub fn offers_name_what_is_there()
    ensures { OffersWhatIsThere }
{}

/// Each stack is that of a task which is there: the one whose routine the lowest frame has.
pub fn stacks_are_a_tasks()
    ensures { HasTask }
{}

/// An instruction on the own task names the task whose stack it is, from whatever procedure.
pub fn own_task_is_named()
    ensures { NamesOwn }
{}

/// A stack stays that of its task, over each answer that suits: a call puts a frame on, a return takes one off, and any other
/// instruction moves the top frame within its routine, to the next instruction or to one that it names. No other frame moves.
pub fn frames_stay()
    ensures { KeepsTask }
{}

/// The stated depth isn't passed.
pub fn depth_is_kept()
    ensures { KeepsDepth }
{}

/// A stack has at most one frame more than the object has procedures.
pub fn frames_are_few()
    ensures { CountsFrames }
{}

/// An action is offered after at most as many rows as the object has instructions, the offering one counted.
pub fn actions_are_offered_soon()
    ensures { OffersSoon }
{}

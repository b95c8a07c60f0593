// What the code of statements, procedures and tasks does: what they mean, or it comes to where there is no row. Each
// function's contract is one theorem; none does anything.

ghost use Rattle.pearl_gen_stmt.specs.Laws.{StatementsCarry};
ghost use Rattle.pearl_gen_stmt.specs.Generated.{ProceduresCarry, TasksCome};
ghost use Rattle.pearl_gen_stmt.specs.Offering.{TasksOffer};
ghost use Rattle.pearl_gen_stmt.specs.Arriving.{CodeArrives, StacksStand};

use pearl_instructions::laws::{frames_stay, rows_lead_to_stacks, tasks_begin_with_a_stack};

/// The code of statements does what they mean, or comes to where there is no row, in whatever routine they stand and
/// whatever called it.
pub fn statements_carry()
    ensures { StatementsCarry }
{}

/// The code of each procedure does what calling it means, or comes to where there is no row.
pub fn procedures_carry()
    ensures { ProceduresCarry }
{}

/// The code of each task comes, over any answers, to what the task does next after them, or to where there is no row.
pub fn tasks_come()
    ensures { TasksCome }
{}

/// In a valid object the code of an expression arrives behind it with its value on the operands and the store as it leaves
/// it, over all answers that the expression can have, or offers exactly what it needs, or the trap. So does the code of a
/// call, with its result or with nothing, of a variable's subscripts, with the offset of its element, and of statements,
/// where the next one begins, behind the loop that they leave, or behind the call that they end.
pub fn code_arrives()
    ensures { CodeArrives }
{
    rows_lead_to_stacks();
    frames_stay();
}

/// Each stack of an object is that of a context with a store: so whatever stack is on the first instruction of a part, the
/// part's code arrives.
pub fn stacks_stand()
    ensures { StacksStand }
{}

/// After all answers that a task can have, the code of a valid object offers what the task does next.
pub fn tasks_offer()
    ensures { TasksOffer }
{
    tasks_begin_with_a_stack();
    rows_lead_to_stacks();
    frames_stay();
}

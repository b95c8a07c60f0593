// What holds of loops and calls.

ghost use Rattle.pearl_meaning.specs.Laws.{CallsRun, LoopsTurn, StatementsUseUp};

/// No statement gives back more answers than there were. With more answers behind these each does the same and leaves them,
/// or, where it needed an answer, uses one of them.
pub fn statements_use_up()
    ensures { StatementsUseUp }
{}

/// A loop is a turn and then the same loop again.
pub fn loops_turn()
    ensures { LoopsTurn }
{}

/// A call is what its procedure's statements do, in which calls mean the same.
pub fn calls_run()
    ensures { CallsRun }
{}

//! What holds of every machine. Each function's contract is one theorem; none does anything.

ghost use Rattle.pearl_machine.specs.Marked.{MakesWhatComes, SettlesAlone};

/// Where a mark comes next of some entries, an entry that makes this mark alone is handled as those entries are up to
/// what the mark leaves of them: it leads to the same core and the same stacks, and tells the same.
pub fn makes_the_mark_that_comes()
    ensures { MakesWhatComes }
{}

/// What is handled without an entry makes no mark, whatever entries come.
pub fn settles_without_a_mark()
    ensures { SettlesAlone }
{}

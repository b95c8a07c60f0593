// What holds of the numbers of procedures, of sizes and of tasks in the program of a module.

ghost use Rattle.pearl_sound_sizes.specs.Laws.{CellsAreCounted, HeldCallersHaveTheirCalls, NoneCallsItself, NumbersAreReadOff, NumbersAreWhole, ProceduresCallSmaller, RestMakesSound, SizesAreTold, SizesAreWithin, TasksAreNamed, TasksAreUrgent, WeightsAreNoMore};

/// The procedures that are held in memory have the module's calls.
pub fn held_callers_have_their_calls()
    ensures { HeldCallersHaveTheirCalls }
{}

/// In a module that breaks no static rule no procedure calls itself, directly or through others.
pub fn none_calls_itself()
    ensures { NoneCallsItself }
{}

/// What is read off a numbering are the numbers by the rule.
pub fn numbers_are_read_off()
    ensures { NumbersAreReadOff }
{}

/// By the rule there are as many numbers as procedures.
pub fn numbers_are_whole()
    ensures { NumbersAreWhole }
{}

/// In a module that breaks no static rule, where procedures have the numbers by the rule, each calls only smaller ones.
pub fn procedures_call_smaller()
    ensures { ProceduresCallSmaller }
{}

/// Each task or procedure has as many cells as the rule on weights counts.
pub fn cells_are_counted()
    ensures { CellsAreCounted }
{}

/// In a module that breaks no static rule tasks and procedures weigh no more than the rule says.
pub fn weights_are_no_more()
    ensures { WeightsAreNoMore }
{}

/// The program of a module that breaks no static rule has sizes and weights within their limits.
pub fn sizes_are_within()
    ensures { SizesAreWithin }
{}

/// The sizes that are told of a module are how many tasks, procedures and slots its program has.
pub fn sizes_are_told()
    ensures { SizesAreTold }
{}

/// The tasks of a module that breaks no static rule have priorities from 1 to 255.
pub fn tasks_are_urgent()
    ensures { TasksAreUrgent }
{}

/// The tasks of a lawful tree have ids as names.
pub fn tasks_are_named()
    ensures { TasksAreNamed }
{}

/// The program of a lawful tree that breaks no static rule is sound, once its leaves, presets, devices, formats and routines are.
pub fn rest_makes_sound()
    ensures { RestMakesSound }
{}

// Laws of the starts that tasks keep.

ghost use Rattle.std.specs.Prelude.{◌≡◌, ℕ, ◌<◌, List, ◌++◌, length, map};
ghost use Rattle.pearl_rules.specs.declared.action.Action.{Action};
ghost use Rattle.pearl_rules.specs.declared.action.Action.TheVariants as action;
ghost use Rattle.pearl_rules.specs.declared.entry.Entry.{Entry};
ghost use Rattle.pearl_rules.specs.declared.row.Kept.TheVariants as kept;
ghost use Rattle.pearl_rules.specs.declared.setup.Setup.{Setup};
ghost use Rattle.pearl_rules.specs.Core.{Core};
ghost use Rattle.pearl_rules.specs.Plans.{kept_of, millisecond};
ghost use Rattle.pearl_rules.specs.Devices.{arrived};
ghost use Rattle.pearl_rules.specs.Effect.{effect};
ghost use Rattle.pearl_rules.specs.Slots.{HasTimes};
ghost use Rattle.pearl_rules.specs.Runs.{Supplier, Source, source_start, source_after, source_run};
ghost use Rattle.pearl_rules_laws.specs.Kept.{DormantKeepNone, kept_list, KeepsAll, KeepsOrServes};
ghost use Rattle.pearl_rules_laws.specs.Queue.{AnswersStart, ServesOldest, start_of, kept_over, gone_over};

/// What a task keeps is a queue: each start that it keeps goes behind the others, there are three at most, and a task that ends
/// is started with the oldest, all of which is told. A PREVENT empties the queue of the task that it names; nothing else takes
/// from it. In a millisecond and by what comes in none is served.
///
/// What this comes to over a run `kept_starts_leave_in_order` says. That an end serves wherever a start is kept is
/// `ends_serve_the_oldest_start`, and that a start which finds three kept is told as an overrun
/// `starts_make_dormant_tasks_active`, `a_millisecond_serves_the_plans` and `interrupts_reach_those_that_wait`.
pub fn kept_starts_wait_in_order()
    ensures acts { (core : Core) (own : ℕ) (asked : Action) → DormantKeepNone core → KeepsOrServes core asked (effect core own asked).core }
    ensures prevents { (core : Core) (own t : ℕ) → kept_of (effect core own (action.Prevent t)).core t ≡ kept.Nothing }
    ensures passes { (core : Core) → DormantKeepNone core → KeepsAll core (millisecond core) }
    ensures arrives { (core : Core) (entry : Entry) → DormantKeepNone core → KeepsAll core (arrived core entry) }
    ensures always { (setup : Setup) (core : Core) → HasTimes setup core → DormantKeepNone core }
{}

/// Over a run, whatever the tasks do next and whatever comes in, no start of a declared task is lost unless that is told. Those of
/// MAIN tasks stand at the opening. Each mark is to start a task once at most: by an action, by a plan that serves in it, or not
/// at all. But for its ends, and a start right behind one, all that is told of the task is what became of this start: a dormant
/// task is told to be started with it; an active one that keeps fewer than three keeps it behind the others, which `kept` tells
/// with their number; where it keeps three, `overrun` tells that this one is lost. So `kept` is told only where what the task
/// keeps grows. No dormant task ever keeps a start.
pub fn each_start_is_answered()
    ensures runs { (offer : Supplier) (setup : Setup) (es : List Entry) (m t : ℕ) → t < length setup.tasks →
        AnswersStart offer (source_run offer setup es m) t }
    ensures from { (offer : Supplier) (s : Source) (t : ℕ) → DormantKeepNone s.core → t < length s.core.tasks →
        AnswersStart offer s t }
    ensures keeps_none { (offer : Supplier) (setup : Setup) (es : List Entry) (m : ℕ) →
        DormantKeepNone (source_run offer setup es m).core }
{}

/// Over a run, whatever the tasks do next and whatever comes in, the starts that a declared task kept leave in the order in which
/// they were kept, each once. Each end that is told serves the oldest, whether the task ends by itself, is broken off or is ended
/// from outside, and that it is started with it is told right behind the end; a PREVENT drops all and tells nothing. What neither
/// took is what the task keeps at last. So as many starts are served as were kept and neither dropped nor are kept still.
pub fn kept_starts_leave_in_order()
    ensures runs { (offer : Supplier) (setup : Setup) (es : List Entry) (m t : ℕ) → t < length setup.tasks →
        kept_over offer (source_start setup es) t m
        ≡ map start_of (gone_over offer (source_start setup es) t m) ++ kept_list (source_run offer setup es m).core t }
    ensures serves { (offer : Supplier) (setup : Setup) (es : List Entry) (m t : ℕ) → t < length setup.tasks →
        ServesOldest offer (source_run offer setup es m) t }
    ensures from { (offer : Supplier) (s : Source) (t m : ℕ) → DormantKeepNone s.core → t < length s.core.tasks →
        kept_list s.core t ++ kept_over offer s t m
        ≡ map start_of (gone_over offer s t m) ++ kept_list (source_after offer s m).core t }
{}

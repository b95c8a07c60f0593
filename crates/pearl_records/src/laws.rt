// Laws of records. Each function's contract is one theorem; none does anything.

ghost use Rattle.std.specs.Prelude.{◌≡◌, ℕ, ◌+◌, ◌<◌, ◌≤◌, ◌^◌, IsTrue, length};
ghost use Rattle.pearl_rules.specs.declared.action.Action.{Action};
ghost use Rattle.pearl_rules.specs.declared.entry.Entry.{Entry};
ghost use Rattle.pearl_rules.specs.declared.setup.Setup.{Setup};
ghost use Rattle.pearl_rules.specs.Core.{Core, is_active, opening};
ghost use Rattle.pearl_rules.specs.Plans.{millisecond};
ghost use Rattle.pearl_rules.specs.Devices.{arrived};
ghost use Rattle.pearl_rules.specs.Effect.{effect};
ghost use Rattle.pearl_rules.specs.Entries.{last_moment_of_all, IsFitting};
ghost use Rattle.pearl_rules.specs.Laws.{IsCoreOf};
ghost use Rattle.pearl_rules.specs.Pick.{Offered, turned};
ghost use Rattle.pearl_rules.specs.Slots.{Fits};
ghost use Rattle.pearl_rules.specs.Tables.{IsSetup};
ghost use Rattle.pearl_records.specs.declared.record.CoreRecord.{CoreRecord};
ghost use Rattle.pearl_records.specs.States.{AllEnd, IsRecord};
ghost use Rattle.pearl_records.specs.Records.{record_of, core_made, untold, IsRecordable};

use pearl_rules::laws;

/// What is recorded of a core makes the same core again, which has told nothing.
pub fn records_make_the_same_core()
    ensures { (setup : Setup) (core : Core) → IsRecordable setup core → core_made setup (record_of core) ≡ untold core }
{}

/// What is recorded of a core is a record from which a run can go on, where each last moment is below 2^64 - 1 or that of a series
/// which goes on for ever.
pub fn what_is_recorded_is_lawful()
    ensures { (setup : Setup) (core : Core) → IsRecordable setup core → AllEnd (record_of core) → IsRecord setup (record_of core) }
{}

/// The core that is made of a record has that record.
pub fn made_cores_have_their_record()
    ensures { (setup : Setup) (core : CoreRecord) → IsRecord setup core → record_of (core_made setup core) ≡ core }
{}

/// And it can be recorded.
pub fn made_cores_are_recordable()
    ensures { (setup : Setup) (core : CoreRecord) → IsSetup setup → IsRecord setup core → IsRecordable setup (core_made setup core) }
{}

/// Each core of a run can be recorded: the first one, and each after a mark up to the last moment that there is.
pub fn cores_stay_recordable()
    ensures opens { (setup : Setup) → IsSetup setup → IsRecordable setup (opening setup) }
    ensures acts { (setup : Setup) (core : Core) (own : ℕ) (action : Action) → own < length core.tasks → IsTrue (is_active core own) →
        Fits setup action → IsRecordable setup core → IsRecordable setup (effect core own action).core }
    ensures turns { (setup : Setup) (core : Core) (offers : Offered) (t : ℕ) → IsRecordable setup core →
        IsRecordable setup (turned core offers t) }
    ensures passes { (setup : Setup) (core : Core) → core.moment + 1 ≤ last_moment_of_all → IsRecordable setup core →
        IsRecordable setup (millisecond core) }
    ensures arrives { (setup : Setup) (core : Core) (entry : Entry) → IsFitting setup entry → IsRecordable setup core →
        IsRecordable setup (arrived core entry) }
    ensures is_of { (setup : Setup) (core : Core) → IsCoreOf setup core → core.moment ≤ last_moment_of_all → IsRecordable setup core }
{
    laws::keeps_kinds();
    laws::counts_stay_counts();
    laws::tasks_keep_their_declared_priority();
    laws::plans_have_their_series();
    laws::tasks_alone_act();
}

// Laws of tasks of which an action changes the mode or what they keep: their plans stay, and so do all other tasks.

ghost use Rattle.std.specs.Prelude.{◌≡◌, ℕ, ◌<◌, [], ◌∷◌, Bool, true, false, Option, Some, None, length};
ghost use Rattle.pearl_rules.specs.declared.action.Action.TheVariants as action;
ghost use Rattle.pearl_rules.specs.declared.action.Start.TheVariants.{Free};
ghost use Rattle.pearl_rules.specs.declared.action.Repeat.TheVariants.{Once};
ghost use Rattle.pearl_rules.specs.declared.action.Answer.TheVariants.{Nothing};
ghost use Rattle.pearl_rules.specs.declared.event.Event.TheVariants as event;
ghost use Rattle.pearl_rules.specs.declared.row.Kept.TheVariants as kept;
ghost use Rattle.pearl_rules.specs.declared.row.Mode.TheVariants.{Dormant, Active};
ghost use Rattle.pearl_rules.specs.declared.row.TaskRow.{TaskRow};
ghost use Rattle.pearl_rules.specs.Core.{Core, row_of};
ghost use Rattle.pearl_rules.specs.Plans.{priorities};
ghost use Rattle.pearl_rules.specs.Effect.{answering, priority_or_declared, effect};
ghost use Rattle.pearl_rules_laws.specs.Plans.{ChangesRow, KeepsOneMore};

/// A start at once makes a dormant task active, which keeps none then: both plans stay as they are. An active task that
/// keeps fewer than three starts keeps this one as its last, which is told with their number, and nothing else changes; where
/// it keeps three, that it was to be started is told, and nothing changes.
pub fn starts_at_once_keep_plans()
    ensures named { (core : Core) (own t : ℕ) (row : TaskRow) → row_of core t ≡ Some row → (priority : ℕ) → row.mode ≡ Dormant →
        ChangesRow (record core { last = Some own }) (effect core own (action.Activate t Free Once (Some priority))).core t
        (record row { mode = Active priority false; kept = kept.Nothing }) (event.Start t priority ∷ []) }
    ensures declared { (core : Core) (own t : ℕ) (row : TaskRow) → row_of core t ≡ Some row → row.mode ≡ Dormant →
        ChangesRow (record core { last = Some own }) (effect core own (action.Activate t Free Once None)).core t
        (record row { mode = Active row.declared false; kept = kept.Nothing }) (event.Start t row.declared ∷ []) }
    ensures keeps { (core : Core) (own t : ℕ) (row : TaskRow) → row_of core t ≡ Some row →
        (named : Option ℕ) (priority : ℕ) (suspended : Bool) → row.mode ≡ Active priority suspended →
        length (priorities row.kept) < 3 →
        KeepsOneMore (record core { last = Some own }) (effect core own (action.Activate t Free Once named)).core t row
        (priority_or_declared core t named) }
    ensures overruns { (core : Core) (own t : ℕ) (row : TaskRow) → row_of core t ≡ Some row →
        (named : Option ℕ) (priority : ℕ) (suspended : Bool) → row.mode ≡ Active priority suspended →
        length (priorities row.kept) ≡ 3 → ChangesRow (record core { last = Some own }) (effect core own (action.Activate t Free Once named)).core t
        row (event.Overrun t ∷ []) }
{}

/// A SUSPEND and a CONTINUE at once change the mark of suspension alone: the plan by which the task goes on stays, and
/// so does that by which it is started. On a dormant task neither does anything, nor does a TERMINATE.
pub fn marks_of_suspension_keep_plans()
    ensures suspends { (core : Core) (own t : ℕ) (row : TaskRow) → row_of core t ≡ Some row →
        (priority : ℕ) (before : Bool) → row.mode ≡ Active priority before →
        ChangesRow (record core { last = Some own }) (effect core own (action.Suspend t)).core t
        (record row { mode = Active priority true }) [] }
    ensures goes_on { (core : Core) (own t : ℕ) (row : TaskRow) → row_of core t ≡ Some row →
        (priority : ℕ) (before : Bool) → row.mode ≡ Active priority before →
        ChangesRow (record core { last = Some own }) (effect core own (action.Continue t Free)).core t
        (record row { mode = Active priority false }) [] }
    ensures dormant_suspended { (core : Core) (own t : ℕ) (row : TaskRow) → row_of core t ≡ Some row → row.mode ≡ Dormant →
        effect core own (action.Suspend t) ≡ answering (record core { last = Some own }) Nothing }
    ensures dormant_continued { (core : Core) (own t : ℕ) (row : TaskRow) → row_of core t ≡ Some row → row.mode ≡ Dormant →
        effect core own (action.Continue t Free) ≡ answering (record core { last = Some own }) Nothing }
    ensures dormant_stopped { (core : Core) (own t : ℕ) (row : TaskRow) → row_of core t ≡ Some row → row.mode ≡ Dormant →
        (effect core own (action.Terminate t)).core ≡ record core { last = Some own } }
    ensures none_ends { (core : Core) (own t : ℕ) (row : TaskRow) → row_of core t ≡ Some row → row.mode ≡ Dormant →
        (effect core own (action.Terminate t)).ended ≡ [] }
{}

// Laws of what comes in: what `clock` and `irpt` do by themselves, whoever could act.

ghost use Rattle.std.specs.Prelude.{◌≡◌, ℕ, ◌+◌, ◌^◌, ◌<◌, [], ◌∷◌, ◌++◌, Bool, true, false, Some, None, length};
ghost use Rattle.pearl_rules.specs.declared.entry.Entry.TheVariants.{Clock, Irpt};
ghost use Rattle.pearl_rules.specs.declared.event.Event.TheVariants as event;
ghost use Rattle.pearl_rules.specs.declared.row.Mode.TheVariants.{Dormant, Active};
ghost use Rattle.pearl_rules.specs.declared.row.Activation.{Activation};
ghost use Rattle.pearl_rules.specs.declared.row.Plan.{Plan};
ghost use Rattle.pearl_rules.specs.declared.row.TaskRow.{TaskRow};
ghost use Rattle.pearl_rules.specs.Core.{Core, row_of, mode_of};
ghost use Rattle.pearl_rules.specs.Devices.{is_enabled, arrived};
ghost use Rattle.pearl_rules.specs.Plans.{priorities, kept_of, time_at, begun, continuation_of, activation_of};
ghost use Rattle.pearl_rules_laws.specs.Plans.{ServesAtOnce, IsUntouchedBy, IsTold, IsToldLate};

/// `clock` says the time of day at moment 0, and changes nothing else.
pub fn clocks_say_the_time_of_day()
    ensures says { (core : Core) (time : ℕ) → time < 86400000 → time_at (arrived core (Clock time)) 0 ≡ time }
    ensures rest { (core : Core) (time : ℕ) →
        arrived core (Clock time) ≡ record core { clock = (arrived core (Clock time)).clock } }
{}

/// An interrupt that is let through lets the suspended tasks go on that wait for it, which then have no plan to go on,
/// and starts the dormant ones that are to be started at it, with the priority of their plan. An active one that was to be
/// started keeps the start as its last, where it keeps fewer than three, and else that is told as an overrun. An active task that isn't to go on at it stays suspended or not, as it was. The series of a plan
/// to go on some time after it begins then, and a task that is to be started some time after it stays dormant. A plan of
/// starts that waits for it begins anew; and a task none of whose plans waits for it stays as it is.
pub fn interrupts_serve_those_that_wait()
    ensures goes_on { (core : Core) (device t : ℕ) (row : TaskRow) → is_enabled core device ≡ true → row_of core t ≡ Some row →
        core.moment < 2 ^ 64 → (plan : Plan) (priority : ℕ) (suspended : Bool) → row.mode ≡ Active priority suspended →
        row.continuation ≡ Some plan → ServesAtOnce device plan →
        (mode_of (arrived core (Irpt device)) t ≡ Active priority false) × (continuation_of (arrived core (Irpt device)) t ≡ None) }
    ensures starts { (core : Core) (device t : ℕ) (row : TaskRow) → is_enabled core device ≡ true → row_of core t ≡ Some row →
        core.moment < 2 ^ 64 → (activation : Activation) → row.mode ≡ Dormant → row.activation ≡ Some activation →
        ServesAtOnce device activation.plan →
        (mode_of (arrived core (Irpt device)) t ≡ Active activation.priority false)
        × IsTold core (arrived core (Irpt device)) (event.Start t activation.priority) }
    ensures overruns { (core : Core) (device t : ℕ) (row : TaskRow) → is_enabled core device ≡ true →
        row_of core t ≡ Some row →
        core.moment < 2 ^ 64 → (activation : Activation) (priority : ℕ) (suspended : Bool) →
        row.mode ≡ Active priority suspended → row.activation ≡ Some activation →
        ServesAtOnce device activation.plan → length (priorities row.kept) ≡ 3 →
        IsTold core (arrived core (Irpt device)) (event.Overrun t) }
    ensures is_kept { (core : Core) (device t : ℕ) (row : TaskRow) → is_enabled core device ≡ true →
        row_of core t ≡ Some row →
        core.moment < 2 ^ 64 → (activation : Activation) (priority : ℕ) (suspended : Bool) →
        row.mode ≡ Active priority suspended → row.activation ≡ Some activation →
        ServesAtOnce device activation.plan → length (priorities row.kept) < 3 →
        (priorities (kept_of (arrived core (Irpt device)) t) ≡ priorities row.kept ++ activation.priority ∷ [])
        × IsTold core (arrived core (Irpt device)) (event.Kept t (length (priorities row.kept) + 1)) }
    ensures late { (core : Core) (device t : ℕ) (row : TaskRow) → is_enabled core device ≡ true →
        row_of core t ≡ Some row →
        core.moment < 2 ^ 64 → (activation : Activation) (priority : ℕ) (suspended : Bool) →
        row.mode ≡ Active priority suspended → row.activation ≡ Some activation →
        ServesAtOnce device activation.plan → IsToldLate core (arrived core (Irpt device)) t }
    ensures keeps { (core : Core) (device t : ℕ) (row : TaskRow) → is_enabled core device ≡ true →
        row_of core t ≡ Some row →
        (priority : ℕ) (suspended : Bool) → row.mode ≡ Active priority suspended →
        ((plan : Plan) → row.continuation ≡ Some plan → ServesAtOnce device plan → ⊥) →
        mode_of (arrived core (Irpt device)) t ≡ Active priority suspended }
    ensures begins { (core : Core) (device t : ℕ) (row : TaskRow) → is_enabled core device ≡ true →
        row_of core t ≡ Some row →
        (plan : Plan) → row.continuation ≡ Some plan → plan.when ≡ Some device → 0 < plan.after →
        continuation_of (arrived core (Irpt device)) t ≡ Some (begun core plan) }
    ensures later { (core : Core) (device t : ℕ) (row : TaskRow) → is_enabled core device ≡ true → row_of core t ≡ Some row →
        (activation : Activation) → row.mode ≡ Dormant → row.activation ≡ Some activation →
        activation.plan.when ≡ Some device → 0 < activation.plan.after →
        mode_of (arrived core (Irpt device)) t ≡ Dormant }
    ensures anew { (core : Core) (device t : ℕ) (row : TaskRow) → is_enabled core device ≡ true → row_of core t ≡ Some row →
        (activation : Activation) → row.activation ≡ Some activation → activation.plan.when ≡ Some device →
        activation_of (arrived core (Irpt device)) t ≡ Some (record activation { plan = begun core activation.plan }) }
    ensures others { (core : Core) (device t : ℕ) (row : TaskRow) → is_enabled core device ≡ true → row_of core t ≡ Some row →
        IsUntouchedBy device row → row_of (arrived core (Irpt device)) t ≡ Some row }
{}

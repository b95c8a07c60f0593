// Laws of schedules: what a plan keeps, for which interrupt it waits, and how the time of day goes on.

ghost use Rattle.std.specs.Prelude.{◌≡◌, ◌↔◌, ℕ, ◌+◌, ◌<◌, pos, Some, IsTrue};
ghost use Rattle.pearl_rules.specs.declared.action.Start.{Start};
ghost use Rattle.pearl_rules.specs.declared.action.Start.TheVariants.{Free, At, After, When, WhenAfter};
ghost use Rattle.pearl_rules.specs.declared.action.Repeat.{Repeat};
ghost use Rattle.pearl_rules.specs.declared.row.Plan.{Plan};
ghost use Rattle.pearl_rules.specs.Core.{Core};
ghost use Rattle.pearl_rules.specs.Plans.{time_at, interrupt_of, after_of, period_of};
ghost use Rattle.pearl_rules.specs.Plans.{end_of, written, planned, begun, waits_for};
ghost use Rattle.pearl_rules_laws.specs.Plans.{IsWrittenWith};

/// A plan keeps its interrupt, its time after that, its period and its end as they were written, also where a new
/// series begins.
pub fn plans_keep_what_was_written()
    ensures made { (core : Core) (start : Start) (repeat : Repeat) →
        ((planned core start repeat).when ≡ interrupt_of start) × ((planned core start repeat).after ≡ after_of start)
        × ((planned core start repeat).period ≡ period_of repeat) × ((planned core start repeat).end ≡ end_of repeat) }
    ensures begins { (core : Core) (plan : Plan) →
        ((begun core plan).when ≡ plan.when) × ((begun core plan).after ≡ plan.after)
        × ((begun core plan).period ≡ plan.period) × ((begun core plan).end ≡ plan.end) }
    ensures times { (interrupt n : ℕ) → (after_of Free ≡ 0) × (after_of (After (pos n)) ≡ n)
        × (after_of (When interrupt) ≡ 0) × (after_of (WhenAfter interrupt (pos n)) ≡ n) }
{}

/// A plan that is written without a condition is the same as one after no time, and as one at the time of day that it
/// is now. One at another time of day differs from these in its series alone.
pub fn plans_of_one_meaning_are_the_same()
    ensures no_time { (core : Core) (repeat : Repeat) → planned core (After (pos 0)) repeat ≡ planned core Free repeat }
    ensures this_time { (core : Core) (time : ℕ) (repeat : Repeat) → time < 86400000 → time_at core core.moment ≡ time →
        planned core (At time) repeat ≡ planned core Free repeat }
    ensures other_time { (time : ℕ) (repeat : Repeat) → written (At time) repeat ≡ written Free repeat }
    ensures other_series { (core : Core) (time : ℕ) (repeat : Repeat) → planned core (At time) repeat
        ≡ record (planned core Free repeat) { series = (planned core (At time) repeat).series } }
{}

/// A plan waits for an interrupt exactly where it is written with this one, without or with a time after it.
pub fn plans_wait_for_their_interrupt()
    ensures written { (core : Core) (interrupt : ℕ) (start : Start) (repeat : Repeat) →
        ((planned core start repeat).when ≡ Some interrupt) ↔ IsWrittenWith interrupt start }
    ensures waits { (interrupt : ℕ) (plan : Plan) →
        IsTrue (waits_for interrupt plan.when) ↔ (plan.when ≡ Some interrupt) }
{}

/// At the start the time of day is the clock's. A millisecond later it is one millisecond later, and after 23:59:59.999
/// midnight.
pub fn the_time_of_day_goes_on()
    ensures starts { (core : Core) → core.clock < 86400000 → time_at core 0 ≡ core.clock }
    ensures goes_on { (core : Core) (moment : ℕ) → time_at core moment < 86399999 →
        time_at core (moment + 1) ≡ time_at core moment + 1 }
    ensures midnight { (core : Core) (moment : ℕ) → time_at core moment ≡ 86399999 → time_at core (moment + 1) ≡ 0 }
    ensures within { (core : Core) (moment : ℕ) → time_at core moment < 86400000 }
{}

// Laws of the rules: what holds of every core, every run and every code. Each function's contract is one theorem; none does anything.

ghost use Rattle.std.specs.Prelude.{◌≡◌, ◌≢◌, ◌↔◌, ℕ, ◌+◌, ◌-◌, ◌*◌, ◌^◌, ◌<◌, ◌≤◌, ◌++◌, List, [], ◌∷◌, Bool, true, false, Option, Some, None, IsTrue, Contains, map, length, slice_get};
ghost use Rattle.std.specs.List.{AllByRecursion};
ghost use Rattle.arrayvec.specs.ArrayVec.{ArrayVec};
ghost use Rattle.pearl_value.specs.declared.cell.Cell.TheVariants.{Bits};
ghost use Rattle.pearl_value.specs.declared.trap.Trap as traps;
ghost use Rattle.pearl_value.specs.declared.trap.Trap.TheVariants.{SemaLimit};
ghost use Rattle.pearl_value.specs.WellFormed.{IsValue};
ghost use Rattle.pearl_rules.specs.declared.action.Action.{Action};
ghost use Rattle.pearl_rules.specs.declared.action.Action.TheVariants.{Request, Release, Try, Activate, Continue, Suspend, Terminate, End, Trap};
ghost use Rattle.pearl_rules.specs.declared.action.Start.TheVariants.{Free};
ghost use Rattle.pearl_rules.specs.declared.action.Repeat.TheVariants.{Once};
ghost use Rattle.pearl_rules.specs.declared.action.Answer.{Answer};
ghost use Rattle.pearl_rules.specs.declared.action.Answer.TheVariants.{Nothing, One};
ghost use Rattle.pearl_rules.specs.declared.entry.Entry.{Entry};
ghost use Rattle.pearl_rules.specs.declared.entry.Entry.TheVariants.{Clock, Run, Tick, Pass, Chars, Turn, State};
ghost use Rattle.pearl_rules.specs.declared.event.Event.TheVariants as event;
ghost use Rattle.pearl_rules.specs.declared.row.Kept.TheVariants as kept;
ghost use Rattle.pearl_rules.specs.declared.row.Mode.TheVariants.{Dormant, Active};
ghost use Rattle.pearl_rules.specs.declared.row.TaskRow.{TaskRow};
ghost use Rattle.pearl_rules.specs.declared.setup.Setup.{Setup};
ghost use Rattle.pearl_rules.specs.declared.setup.TaskEntry.{TaskEntry};
ghost use Rattle.pearl_rules.specs.Core.{Core, Report, mode_of, is_active, declared_of, first_events, opening, told_before};
ghost use Rattle.pearl_rules.specs.Counts.{count_at};
ghost use Rattle.pearl_rules.specs.Plans.{priorities, kept_of, millisecond};
ghost use Rattle.pearl_rules.specs.Devices.{arrived};
ghost use Rattle.pearl_rules.specs.Effect.{Hears, Ends, answering, priority_or_declared, effect};
ghost use Rattle.pearl_value.specs.Devices.{IsDevice};
ghost use Rattle.pearl_value.specs.Counts.{IsPreset};
ghost use Rattle.pearl_rules.specs.Tables.{IsTaskEntry, IsSetup};
ghost use Rattle.pearl_rules.specs.Slots.{Suits, Fits, HasKinds, HasCounts, HasUrgencies, HasPlans, HasEnds, HasTimes, HasLast};
ghost use Rattle.pearl_rules.specs.Entries.{last_moment_of_all, IsFitting, AreFitting, FitInTurn, time_in};
ghost use Rattle.pearl_rules.specs.Pick.{Offered, guard, is_eligible_by, is_eligible, pick_by, pick, IsPickedBy, IsPicked, can_turn_by, can_turn, turned_by, turned, shown_of, states_by, states, showing};
ghost use Rattle.pearl_rules.specs.Runs.{Acts, Turns, Tells, Passes, Arrives, Coming, next_mark, kept_at, Supplier, Source, Engine, source_offers, source_step, source_after, source_run, source_next, machine_run, marked};
ghost use Rattle.pearl_rules.specs.Faithful.{IsFaithful, Alone, Soon};
ghost use Rattle.pearl_rules.specs.Laws.{IsFirstInRankBy, IsFirstInRank, effect_told_before, TellsEnds, ServesAtEnds, ChangesTask, EndsTask, StartsLate, KeepsOne, ServesFirst, EndsItself, BeginsAfresh, ChangesCounts, HasEnded, EndsAlike, EndsSoon, EndsTelling, Comes, IsBeforeEnd, ComesIn, passed, with_more, machine_with_more, IsCoreOf, AreFirstStarts};

/// The task that acts next is the one that the rule of picking names, and there is none only where no task is eligible: whatever
/// tells which tasks' actions are possible, and so where their offers tell it.
pub fn picks_the_most_urgent()
    ensures picked_by { (core : Core) (possible : ℕ → Bool) (t : ℕ) → (pick_by core possible ≡ Some t) ↔ IsPickedBy core possible t }
    ensures none_by { (core : Core) (possible : ℕ → Bool) → pick_by core possible ≡ None → (t : ℕ) → is_eligible_by core possible t ≡ false }
    ensures picked { (core : Core) (offers : Offered) (t : ℕ) → (pick core offers ≡ Some t) ↔ IsPicked core offers t }
    ensures none { (core : Core) (offers : Offered) → pick core offers ≡ None → (t : ℕ) → is_eligible core offers t ≡ false }
{}

/// Who acts next, and how the tasks stand, depends only on the tasks' rows, on who acted last and on which tasks' actions are
/// possible; so on the counts, on what waits at terminals and inputs and on what each task offers. The moment is shown beside
/// it. The formats are always the tables'.
pub fn picks_alike()
    ensures pick_by { (core other : Core) (possible others : ℕ → Bool) → core.tasks ≡ other.tasks → core.last ≡ other.last →
        ((t : ℕ) → possible t ≡ others t) → pick_by core possible ≡ pick_by other others }
    ensures states_by { (core other : Core) (possible others : ℕ → Bool) → core.moment ≡ other.moment → core.tasks ≡ other.tasks →
        core.last ≡ other.last → ((t : ℕ) → possible t ≡ others t) → states_by core possible ≡ states_by other others }
    ensures pick { (core other : Core) (offers others : Offered) → core.tasks ≡ other.tasks → core.last ≡ other.last →
        core.counts ≡ other.counts → core.channels ≡ other.channels → core.formats ≡ other.formats →
        ((t : ℕ) → offers t ≡ others t) → pick core offers ≡ pick other others }
    ensures states { (core other : Core) (offers others : Offered) → core.moment ≡ other.moment → core.tasks ≡ other.tasks →
        core.last ≡ other.last → core.counts ≡ other.counts → core.channels ≡ other.channels → core.formats ≡ other.formats →
        ((t : ℕ) → offers t ≡ others t) → states core offers ≡ states other others }
{}

/// It can be a task's turn exactly where it is eligible and no eligible task has a smaller priority number. Then it counts as the
/// one that acted last, so that it acts next; else nothing changes.
pub fn turns_to_the_named()
    ensures exactly_by { (core : Core) (possible : ℕ → Bool) (t : ℕ) → IsTrue (can_turn_by core possible t) ↔ IsFirstInRankBy core possible t }
    ensures turns_by { (core : Core) (possible : ℕ → Bool) (t : ℕ) → IsFirstInRankBy core possible t →
        turned_by core possible t ≡ record core { last = Some t } }
    ensures next_by { (core : Core) (possible : ℕ → Bool) (t : ℕ) → IsFirstInRankBy core possible t →
        pick_by (turned_by core possible t) possible ≡ Some t }
    ensures stays_by { (core : Core) (possible : ℕ → Bool) (t : ℕ) → (IsFirstInRankBy core possible t → ⊥) → turned_by core possible t ≡ core }
    ensures exactly { (core : Core) (offers : Offered) (t : ℕ) → IsTrue (can_turn core offers t) ↔ IsFirstInRank core offers t }
    ensures turns { (core : Core) (offers : Offered) (t : ℕ) → IsFirstInRank core offers t → turned core offers t ≡ record core { last = Some t } }
    ensures next { (core : Core) (offers : Offered) (t : ℕ) → IsFirstInRank core offers t → pick (turned core offers t) offers ≡ Some t }
    ensures stays { (core : Core) (offers : Offered) (t : ℕ) → (IsFirstInRank core offers t → ⊥) → turned core offers t ≡ core }
{}

/// What was told before changes nothing: an action, a millisecond and whatever comes in have the same effect, turns and states are
/// the same, and what is told comes after what was told before.
pub fn tells_after()
    ensures acts { (before : List (ℕ × Report)) (core : Core) (own : ℕ) (action : Action) →
        effect (told_before before core) own action ≡ effect_told_before before (effect core own action) }
    ensures passes { (before : List (ℕ × Report)) (core : Core) →
        millisecond (told_before before core) ≡ told_before before (millisecond core) }
    ensures arrives { (before : List (ℕ × Report)) (core : Core) (entry : Entry) →
        arrived (told_before before core) entry ≡ told_before before (arrived core entry) }
    ensures turns { (before : List (ℕ × Report)) (core : Core) (offers : Offered) (t : ℕ) →
        turned (told_before before core) offers t ≡ told_before before (turned core offers t) }
    ensures shows { (before : List (ℕ × Report)) (core : Core) (offers : Offered) →
        showing (told_before before core) offers ≡ told_before before (showing core offers) }
    ensures picks { (before : List (ℕ × Report)) (core : Core) (offers : Offered) → pick (told_before before core) offers ≡ pick core offers }
    ensures states { (before : List (ℕ × Report)) (core : Core) (offers : Offered) → states (told_before before core) offers ≡ states core offers }
    ensures shown { (before : List (ℕ × Report)) (core : Core) (offers : Offered) (t : ℕ) →
        shown_of (told_before before core) offers t ≡ shown_of core offers t }
{}

/// Each task that an action makes dormant is among those that it ends, and what is kept of those begins afresh, also where one is
/// active anew; of all other active tasks the same is kept as before. The task that acts isn't among those where it hears an
/// answer, and stays active. A task that ends is dormant where it kept no start; else it is active anew with the oldest that it
/// kept. None ends in a millisecond, nor by what comes in.
pub fn ended_tasks_begin_afresh<X>()
    ensures ends { (core : Core) (own : ℕ) (action : Action) → TellsEnds core own (effect core own action) }
    ensures serves { (core : Core) (own : ℕ) (action : Action) → ServesAtEnds core own (effect core own action) }
    ensures passes { (core : Core) (t : ℕ) → IsTrue (is_active core t) → IsTrue (is_active (millisecond core) t) }
    ensures arrives { (core : Core) (entry : Entry) (t : ℕ) → IsTrue (is_active core t) → IsTrue (is_active (arrived core entry) t) }
    ensures keeps { (fresh : ℕ → X) (rows : List TaskRow) (ended : List ℕ) (before : List (Option X)) (t : ℕ) (row : TaskRow) →
        slice_get rows t ≡ Some row → BeginsAfresh fresh rows ended before t row }
{}

/// A start makes a dormant task active, with the priority that it names, or else the declared one, and not suspended. A task that
/// is active stays as it is, and one event tells what becomes of the start: fewer than three are kept, behind those that the task
/// keeps; where it keeps three the start is lost.
pub fn starts_make_dormant_tasks_active()
    ensures starts { (core : Core) (own t : ℕ) (priority : Option ℕ) → t < length core.tasks → mode_of core t ≡ Dormant →
        ChangesTask core own t (Active (priority_or_declared core t priority) false)
        (event.Start t (priority_or_declared core t priority) ∷ []) (Hears Nothing) (effect core own (Activate t Free Once priority)) }
    ensures keeps { (core : Core) (own t before : ℕ) (suspended : Bool) (priority : Option ℕ) → mode_of core t ≡ Active before suspended →
        length (priorities (kept_of core t)) < 3 → KeepsOne core own t (priority_or_declared core t priority) (Active before suspended)
        (effect core own (Activate t Free Once priority)) }
    ensures overruns { (core : Core) (own t before : ℕ) (suspended : Bool) (priority : Option ℕ) → mode_of core t ≡ Active before suspended →
        length (priorities (kept_of core t)) ≡ 3 →
        ChangesTask core own t (Active before suspended) (event.Overrun t ∷ []) (Hears Nothing) (effect core own (Activate t Free Once priority)) }
    ensures late { (core : Core) (own t before : ℕ) (suspended : Bool) (priority : Option ℕ) → mode_of core t ≡ Active before suspended →
        StartsLate core own t (Active before suspended) (effect core own (Activate t Free Once priority)) }
{}

/// An active task can be suspended and continued, with the priority that it has; on a dormant one neither does anything. A
/// suspended task doesn't act.
pub fn suspended_tasks_wait()
    ensures suspends { (core : Core) (own t priority : ℕ) (before : Bool) → mode_of core t ≡ Active priority before →
        ChangesTask core own t (Active priority true) [] (Hears Nothing) (effect core own (Suspend t)) }
    ensures continues { (core : Core) (own t priority : ℕ) (before : Bool) → mode_of core t ≡ Active priority before →
        ChangesTask core own t (Active priority false) [] (Hears Nothing) (effect core own (Continue t Free)) }
    ensures dormant_suspended { (core : Core) (own t : ℕ) → mode_of core t ≡ Dormant →
        ChangesTask core own t Dormant [] (Hears Nothing) (effect core own (Suspend t)) }
    ensures dormant_continued { (core : Core) (own t : ℕ) → mode_of core t ≡ Dormant →
        ChangesTask core own t Dormant [] (Hears Nothing) (effect core own (Continue t Free)) }
    ensures waits { (core : Core) (offers : Offered) (t priority : ℕ) → mode_of core t ≡ Active priority true → is_eligible core offers t ≡ false }
{}

/// A task that kept no start and ends, is broken off or is ended from outside becomes dormant, and that alone is told.
pub fn ends_make_tasks_dormant()
    ensures ends { (core : Core) (own : ℕ) → kept_of core own ≡ kept.Nothing →
        ChangesTask core own own Dormant (event.End own ∷ []) Ends (effect core own End) }
    ensures breaks_off { (core : Core) (own : ℕ) (trap : traps.Trap) → kept_of core own ≡ kept.Nothing →
        ChangesTask core own own Dormant (event.Trap own trap ∷ []) Ends (effect core own (Trap trap)) }
    ensures stops { (core : Core) (own t priority : ℕ) (suspended : Bool) → mode_of core t ≡ Active priority suspended → t ≢ own →
        kept_of core t ≡ kept.Nothing → ChangesTask core own t Dormant (event.Stop t ∷ []) (Hears Nothing) (effect core own (Terminate t)) }
    ensures stops_itself { (core : Core) (own priority : ℕ) (suspended : Bool) → mode_of core own ≡ Active priority suspended →
        kept_of core own ≡ kept.Nothing → ChangesTask core own own Dormant (event.Stop own ∷ []) Ends (effect core own (Terminate own)) }
    ensures dormant_stopped { (core : Core) (own t : ℕ) → mode_of core t ≡ Dormant → t ≢ own →
        ChangesTask core own t Dormant [] (Hears Nothing) (effect core own (Terminate t)) }
{}

/// A task that kept starts and ends, is broken off or is ended from outside is started at once with the oldest of them and its
/// priority, not suspended, which is told behind its end. It keeps the others, in their order.
pub fn ends_serve_the_oldest_start()
    ensures ends { (core : Core) (own first : ℕ) (others : List ℕ) → priorities (kept_of core own) ≡ first ∷ others →
        ServesFirst core own own (event.End own) Ends first others (effect core own End) }
    ensures breaks_off { (core : Core) (own : ℕ) (trap : traps.Trap) (first : ℕ) (others : List ℕ) →
        priorities (kept_of core own) ≡ first ∷ others →
        ServesFirst core own own (event.Trap own trap) Ends first others (effect core own (Trap trap)) }
    ensures stops { (core : Core) (own t priority : ℕ) (suspended : Bool) → mode_of core t ≡ Active priority suspended → t ≢ own →
        (first : ℕ) (others : List ℕ) → priorities (kept_of core t) ≡ first ∷ others →
        ServesFirst core own t (event.Stop t) (Hears Nothing) first others (effect core own (Terminate t)) }
    ensures stops_itself { (core : Core) (own priority : ℕ) (suspended : Bool) → mode_of core own ≡ Active priority suspended →
        (first : ℕ) (others : List ℕ) → priorities (kept_of core own) ≡ first ∷ others →
        ServesFirst core own own (event.Stop own) Ends first others (effect core own (Terminate own)) }
{}

/// The end of a task is told first. Then the task is dormant, or active anew, which is told next. It goes on by no plan, the plan
/// by which it is started stays, and nothing else changes.
pub fn ends_are_told_first()
    ensures ends { (core : Core) (own : ℕ) → EndsTask core own own (event.End own) Ends (effect core own End) }
    ensures breaks_off { (core : Core) (own : ℕ) (trap : traps.Trap) →
        EndsTask core own own (event.Trap own trap) Ends (effect core own (Trap trap)) }
    ensures stops { (core : Core) (own t priority : ℕ) (suspended : Bool) → mode_of core t ≡ Active priority suspended → t ≢ own →
        EndsTask core own t (event.Stop t) (Hears Nothing) (effect core own (Terminate t)) }
    ensures stops_itself { (core : Core) (own priority : ℕ) (suspended : Bool) → mode_of core own ≡ Active priority suspended →
        EndsTask core own own (event.Stop own) Ends (effect core own (Terminate own)) }
{}

/// Of the actions that fit the tables only these end the task that acts: its end, a trap, that it terminates itself, a release
/// where a count stands at 2^31 - 1, and a GET whose fields aren't all there and good, or a TAKE with no value there. Every other
/// one is answered.
pub fn only_ends_end()
    ensures { (setup : Setup) (core : Core) (own : ℕ) (action : Action) → Fits setup action →
        ((effect core own action).reply ≡ Ends) ↔ EndsItself core own action }
{}

/// A request can be done exactly where all counts that it names are above 0. Then it lowers each of these by 1 and changes
/// nothing else.
pub fn requests_lower_all_or_none()
    ensures possible { (core : Core) (list : ArrayVec ℕ) →
        IsTrue (guard core (Request list)) ↔ ((s : ℕ) → Contains list.items s → 0 < count_at core.counts s) }
    ensures lowers { (setup : Setup) (core : Core) (own : ℕ) (list : ArrayVec ℕ) → HasCounts setup core → Fits setup (Request list) →
        IsTrue (guard core (Request list)) →
        ChangesCounts core own list.items (λ before after. before ≡ after + 1) Nothing (effect core own (Request list)) }
{}

/// A release raises all counts that it names by 1 and changes nothing else; where one of them stands at 2^31 - 1 it raises none,
/// and the task is broken off.
pub fn releases_raise_all_or_none()
    ensures raises { (setup : Setup) (core : Core) (own : ℕ) (list : ArrayVec ℕ) → HasCounts setup core → Fits setup (Release list) →
        ((s : ℕ) → Contains list.items s → count_at core.counts s < 2 ^ 31 - 1) →
        ChangesCounts core own list.items (λ before after. after ≡ before + 1) Nothing (effect core own (Release list)) }
    ensures breaks { (core : Core) (own s : ℕ) (list : ArrayVec ℕ) → Contains list.items s → 2 ^ 31 - 1 ≤ count_at core.counts s →
        effect core own (Release list) ≡ effect core own (Trap SemaLimit) }
{}

/// A try lowers a count that is above 0 by 1 and answers that it did; else it changes nothing and answers that it didn't.
pub fn tries_tell_whether_they_lower()
    ensures lowers { (setup : Setup) (core : Core) (own s : ℕ) → HasCounts setup core → Fits setup (Try s) → 0 < count_at core.counts s →
        ChangesCounts core own (s ∷ []) (λ before after. before ≡ after + 1) (One (Bits 1 1)) (effect core own (Try s)) }
    ensures fails { (core : Core) (own s : ℕ) → count_at core.counts s ≡ 0 →
        effect core own (Try s) ≡ answering (record core { last = Some own }) (One (Bits 1 0)) }
{}

/// There are always as many counts as semaphores, each below 2^31.
pub fn counts_stay_counts()
    ensures opens { (setup : Setup) → AllByRecursion IsPreset setup.semaphores → HasCounts setup (opening setup) }
    ensures acts { (setup : Setup) (core : Core) (own : ℕ) (action : Action) → HasCounts setup core → Fits setup action →
        HasCounts setup (effect core own action).core }
    ensures turns { (setup : Setup) (core : Core) (offers : Offered) (t : ℕ) → HasCounts setup core → HasCounts setup (turned core offers t) }
    ensures passes { (setup : Setup) (core : Core) → HasCounts setup core → HasCounts setup (millisecond core) }
    ensures arrives { (setup : Setup) (core : Core) (entry : Entry) → HasCounts setup core → HasCounts setup (arrived core entry) }
{}

/// There are always the declared tasks with their declared priorities. Every active task's priority is from 1 to 255, and so are
/// those of the starts that it keeps, and that with which a plan starts a task.
pub fn tasks_keep_their_declared_priority()
    ensures opens { (setup : Setup) → map declared_of (opening setup).tasks ≡ map (λ task. task.priority) setup.tasks }
    ensures acts { (core : Core) (own : ℕ) (action : Action) → map declared_of (effect core own action).core.tasks ≡ map declared_of core.tasks }
    ensures turns { (core : Core) (offers : Offered) (t : ℕ) → (turned core offers t).tasks ≡ core.tasks }
    ensures passes { (core : Core) → map declared_of (millisecond core).tasks ≡ map declared_of core.tasks }
    ensures arrives { (core : Core) (entry : Entry) → map declared_of (arrived core entry).tasks ≡ map declared_of core.tasks }
    ensures urgent_at_start { (setup : Setup) → AllByRecursion IsTaskEntry setup.tasks → HasUrgencies (opening setup) }
    ensures urgent { (setup : Setup) (core : Core) (own : ℕ) (action : Action) → HasUrgencies core → Fits setup action →
        HasUrgencies (effect core own action).core }
    ensures urgent_later { (core : Core) → HasUrgencies core → HasUrgencies (millisecond core) }
    ensures urgent_then { (core : Core) (entry : Entry) → HasUrgencies core → HasUrgencies (arrived core entry) }
{}

/// Every plan is a lawful one, and the clock a time of day.
pub fn plans_stay_lawful()
    ensures opens { (setup : Setup) → HasPlans setup (opening setup) }
    ensures acts { (setup : Setup) (core : Core) (own : ℕ) (action : Action) → HasPlans setup core → Fits setup action →
        HasPlans setup (effect core own action).core }
    ensures turns { (setup : Setup) (core : Core) (offers : Offered) (t : ℕ) → HasPlans setup core → HasPlans setup (turned core offers t) }
    ensures passes { (setup : Setup) (core : Core) → HasPlans setup core → HasPlans setup (millisecond core) }
    ensures arrives { (setup : Setup) (core : Core) (entry : Entry) → HasPlans setup core → IsFitting setup entry →
        HasPlans setup (arrived core entry) }
{}

/// Periods alone have an end: no plan without a period has one.
pub fn periods_alone_have_an_end()
    ensures opens { (setup : Setup) → HasEnds (opening setup) }
    ensures acts { (setup : Setup) (core : Core) (own : ℕ) (action : Action) → HasEnds core → Fits setup action →
        HasEnds (effect core own action).core }
    ensures turns { (core : Core) (offers : Offered) (t : ℕ) → HasEnds core → HasEnds (turned core offers t) }
    ensures passes { (core : Core) → HasEnds core → HasEnds (millisecond core) }
    ensures arrives { (core : Core) (entry : Entry) → HasEnds core → HasEnds (arrived core entry) }
{}

/// A dormant task has no plan to go on and keeps no start. A plan that waits for no interrupt has a series, and no plan's first moment is
/// above 2^42, nor its period above 2^40 milliseconds.
pub fn plans_have_their_series()
    ensures opens { (setup : Setup) → HasTimes setup (opening setup) }
    ensures acts { (setup : Setup) (core : Core) (own : ℕ) (action : Action) → IsTrue (is_active core own) →
        HasTimes setup core →
        Fits setup action → HasTimes setup (effect core own action).core }
    ensures turns { (setup : Setup) (core : Core) (offers : Offered) (t : ℕ) → HasTimes setup core →
        HasTimes setup (turned core offers t) }
    ensures passes { (setup : Setup) (core : Core) → core.moment + 1 ≤ 2 ^ 40 → HasTimes setup core →
        HasTimes setup (millisecond core) }
    ensures arrives { (setup : Setup) (core : Core) (entry : Entry) → HasTimes setup core → IsFitting setup entry →
        HasTimes setup (arrived core entry) }
{}

/// Whoever acted last is a task, or nobody acted yet.
pub fn tasks_alone_act()
    ensures opens { (setup : Setup) → HasLast (opening setup) }
    ensures acts { (core : Core) (own : ℕ) (action : Action) → own < length core.tasks →
        HasLast (effect core own action).core }
    ensures turns { (core : Core) (offers : Offered) (t : ℕ) → HasLast core → HasLast (turned core offers t) }
    ensures passes { (core : Core) → HasLast core → HasLast (millisecond core) }
    ensures arrives { (core : Core) (entry : Entry) → HasLast core → HasLast (arrived core entry) }
{}

/// Time passes by milliseconds alone.
pub fn time_passes()
    ensures acts { (core : Core) (own : ℕ) (action : Action) → (effect core own action).core.moment ≡ core.moment }
    ensures passes { (core : Core) → (millisecond core).moment ≡ core.moment + 1 }
    ensures arrives { (core : Core) (entry : Entry) → (arrived core entry).moment ≡ core.moment }
{}

/// The module's variables and the inputs always hold values of their kinds, and an action that fits the tables is answered by what
/// suits it: a read by a value of its variable's kind, a GET by values of its targets' kinds.
pub fn keeps_kinds()
    ensures opens { (setup : Setup) → AllByRecursion IsValue setup.slots → AllByRecursion IsDevice setup.devices →
        HasKinds setup (opening setup) }
    ensures slots { (setup : Setup) (core : Core) (t : ℕ) (action : Action) → HasKinds setup core → Fits setup action →
        HasKinds setup (effect core t action).core }
    ensures passes { (setup : Setup) (core : Core) → HasKinds setup core → HasKinds setup (millisecond core) }
    ensures arrives { (setup : Setup) (core : Core) (entry : Entry) → HasKinds setup core → IsFitting setup entry →
        HasKinds setup (arrived core entry) }
    ensures answers { (setup : Setup) (core : Core) (t : ℕ) (action : Action) (answer : Answer) → HasKinds setup core → Fits setup action →
        (effect core t action).reply ≡ Hears answer → Suits setup t action answer }
{}

/// Which mark comes next of a journal's entries. Of `run` it is an action of the task that acts next. `run` where nobody can act,
/// `run 0`, `tick 0` and `pass 0` give none, and it comes of the later entries. `tick` and `pass` let a millisecond pass, and
/// `pass` leaves its picks before the other milliseconds. Each other entry is one mark.
pub fn entries_make_marks()
    ensures run { (t n : ℕ) (rest : List Entry) →
        next_mark (Some t) (Run (n + 1) ∷ rest) ≡ Some (record { mark = Acts t; rest = Run n ∷ rest }) }
    ensures idle { (n : ℕ) (rest : List Entry) → next_mark None (Run n ∷ rest) ≡ next_mark None rest }
    ensures no_run { (picked : Option ℕ) (rest : List Entry) → next_mark picked (Run 0 ∷ rest) ≡ next_mark picked rest }
    ensures tick { (picked : Option ℕ) (n : ℕ) (rest : List Entry) →
        next_mark picked (Tick (n + 1) ∷ rest) ≡ Some (record { mark = Passes; rest = Tick n ∷ rest }) }
    ensures no_tick { (picked : Option ℕ) (rest : List Entry) → next_mark picked (Tick 0 ∷ rest) ≡ next_mark picked rest }
    ensures pass { (picked : Option ℕ) (times picks : ℕ) (rest : List Entry) → next_mark picked (Pass (times + 1) picks ∷ rest) ≡
        Some (record { mark = Passes; rest = Run picks ∷ Pass times picks ∷ rest }) }
    ensures no_pass { (picked : Option ℕ) (picks : ℕ) (rest : List Entry) →
        next_mark picked (Pass 0 picks ∷ rest) ≡ next_mark picked rest }
    ensures turn { (picked : Option ℕ) (t : ℕ) (rest : List Entry) →
        next_mark picked (Turn t ∷ rest) ≡ Some (record { mark = Turns t; rest = rest }) }
    ensures state { (picked : Option ℕ) (rest : List Entry) →
        next_mark picked (State ∷ rest) ≡ Some (record { mark = Tells; rest = rest }) }
    ensures other { (picked : Option ℕ) (entry : Entry) (rest : List Entry) → ComesIn entry →
        next_mark picked (entry ∷ rest) ≡ Some (record { mark = Arrives entry; rest = rest }) }
    ensures end { (picked : Option ℕ) → next_mark picked [] ≡ None }
{}

/// What each mark does to the core, and which entries it leaves: a task that acts does what it does next after the answers that it
/// has heard. `tick` lets its milliseconds pass one by one, whoever could act.
pub fn marks_change_the_core()
    ensures acts { (offer : Supplier) (s : Source) (coming : Coming) (t : ℕ) (heard : List Answer) → source_next offer s ≡ Some coming →
        coming.mark ≡ Acts t → kept_at s.heard t ≡ Some heard → (source_step offer s).core ≡ (effect s.core t (offer t heard)).core }
    ensures turns { (offer : Supplier) (s : Source) (coming : Coming) (t : ℕ) → source_next offer s ≡ Some coming → coming.mark ≡ Turns t →
        (source_step offer s).core ≡ turned s.core (source_offers offer s) t }
    ensures tells { (offer : Supplier) (s : Source) (coming : Coming) → source_next offer s ≡ Some coming → coming.mark ≡ Tells →
        (source_step offer s).core ≡ showing s.core (source_offers offer s) }
    ensures leaves { (offer : Supplier) (s : Source) (coming : Coming) → source_next offer s ≡ Some coming →
        (source_step offer s).entries ≡ coming.rest }
    ensures passes { (offer : Supplier) (s : Source) (coming : Coming) → source_next offer s ≡ Some coming → coming.mark ≡ Passes →
        (source_step offer s).core ≡ millisecond s.core }
    ensures arrives { (offer : Supplier) (s : Source) (coming : Coming) (entry : Entry) → source_next offer s ≡ Some coming →
        coming.mark ≡ Arrives entry → (source_step offer s).core ≡ arrived s.core entry }
    ensures tick_passes { (offer : Supplier) (s : Source) (n more : ℕ) (rest : List Entry) → s.entries ≡ Tick (n + more) ∷ rest →
        (source_after offer s n).core ≡ passed n s.core }
    ensures tick_leaves { (offer : Supplier) (s : Source) (n more : ℕ) (rest : List Entry) → s.entries ≡ Tick (n + more) ∷ rest →
        (source_after offer s n).entries ≡ Tick more ∷ rest }
{}

/// Some code, with a relation that says where each task's code stands after its answers, and a weight that falls at each
/// instruction that offers nothing. `Self` is a task's stack.
pub trait Code {
    ghost offer: { Supplier };

    ghost engine: { Engine Self };

    ghost Stands: { ℕ → List Answer → Self → Type 0 };

    ghost weight: { ℕ → Self → ℕ };

    ghost rows: { ℕ };
}

/// What holds of one task at a time is enough for a whole run: where each task's code stands where its answers lead, and
/// offers its next action within a bound, the machine runs as the source's rules say, for any tasks and any journal of fitting
/// entries.
pub fn faithful_by_task<S: Code>()
    ensures { (setup : Setup) → AllByRecursion IsValue setup.slots → AllByRecursion IsDevice setup.devices → Alone setup S.offer S.engine S.Stands →
        Soon (length setup.tasks) S.engine S.Stands S.weight S.rows → IsFaithful S.offer S.engine setup (length setup.tasks) S.rows }
{}

/// Under the same conditions every variable of the module holds a value of its kind, and what waits at an input are values of its
/// kind, after any number of marks.
pub fn always_has_kinds<S: Code>()
    ensures { (setup : Setup) → AllByRecursion IsValue setup.slots → AllByRecursion IsDevice setup.devices → Alone setup S.offer S.engine S.Stands →
        (es : List Entry) → AreFitting setup es → (n : ℕ) →
        HasKinds setup (machine_run S.engine setup es n).core }
{}

/// Under the same conditions each core of a run is one over the tables: no count, no priority and no plan leaves its range. So it
/// is after any number of machine steps, and after any number of marks that come of the source's run.
pub fn always_keeps_its_ranges<S: Code>()
    ensures machine { (setup : Setup) → IsSetup setup → Alone setup S.offer S.engine S.Stands → (es : List Entry) → AreFitting setup es →
        (n : ℕ) → IsCoreOf setup (machine_run S.engine setup es n).core }
    ensures source { (setup : Setup) → IsSetup setup → Alone setup S.offer S.engine S.Stands →
        Soon (length setup.tasks) S.engine S.Stands S.weight S.rows → (es : List Entry) → AreFitting setup es → (m : ℕ) →
        Comes S.offer setup es m → IsCoreOf setup (source_run S.offer setup es m).core }
{}

/// The moment of a run and the time that is in the entries left come to the time in all entries; so at its end the moment is that.
pub fn time_is_in_the_entries()
    ensures always { (offer : Supplier) (setup : Setup) (es : List Entry) (m : ℕ) →
        (source_run offer setup es m).core.moment + time_in (source_run offer setup es m).entries ≡ time_in es }
    ensures ends { (offer : Supplier) (setup : Setup) (es : List Entry) (m : ℕ) → source_next offer (source_run offer setup es m) ≡ None →
        (source_run offer setup es m).core.moment ≡ time_in es }
{}

/// Entries that fit one after the other fit each for itself. In all they let no more time pass than leads to the last moment that
/// there is, and no run over them comes to a later one. The clock is set by the first of them or not at all, and bytes that come
/// in are one at least.
pub fn entries_fit_one_after_the_other()
    ensures each { (setup : Setup) (es : List Entry) → FitInTurn setup es → AreFitting setup es }
    ensures time { (setup : Setup) (es : List Entry) → FitInTurn setup es → time_in es ≤ last_moment_of_all }
    ensures moments { (offer : Supplier) (setup : Setup) (es : List Entry) (m : ℕ) → FitInTurn setup es →
        (source_run offer setup es m).core.moment ≤ last_moment_of_all }
    ensures clock { (setup : Setup) (front : List Entry) (time : ℕ) (rest : List Entry) → FitInTurn setup (front ++ Clock time ∷ rest) →
        front ≡ [] }
    ensures bytes { (setup : Setup) (front : List Entry) (device : ℕ) (text : ArrayVec ℕ) (rest : List Entry) →
        FitInTurn setup (front ++ Chars device text ∷ rest) → text.items ≢ [] }
{}

/// Where a faithful machine is at its end, so is the source's run after the same marks, and both tell the same at the same
/// moment, down to how each task stands.
pub fn ends_alike<S>()
    ensures { (offer : Supplier) (engine : Engine S) (setup : Setup) (count rows : ℕ) → IsFaithful offer engine setup count rows →
        (es : List Entry) → AreFitting setup es → (n : ℕ) → HasEnded engine setup es n → EndsAlike offer engine setup es n }
{}

/// Under the same conditions the machine comes to its end where the source's run does: after the m marks that come, within
/// m + 1 times the steps from one mark to the next.
pub fn ends_soon<S: Code>()
    ensures { (setup : Setup) → AllByRecursion IsValue setup.slots → AllByRecursion IsDevice setup.devices → Alone setup S.offer S.engine S.Stands →
        Soon (length setup.tasks) S.engine S.Stands S.weight S.rows → (es : List Entry) → AreFitting setup es → (m : ℕ) →
        Comes S.offer setup es m → source_next S.offer (source_run S.offer setup es m) ≡ None →
        EndsSoon S.engine setup es m ((m + 1) * (length setup.tasks * S.rows + 1)) }
{}

/// A run of the source has one last state.
pub fn ends_once()
    ensures { (offer : Supplier) (setup : Setup) (es : List Entry) (m n : ℕ) →
        source_next offer (source_run offer setup es m) ≡ None → source_next offer (source_run offer setup es n) ≡ None →
        source_run offer setup es m ≡ source_run offer setup es n }
{}

/// Every run of the source over a journal's entries comes to an end: after so many marks none comes any more.
pub fn always_ends()
    ensures { (offer : Supplier) (setup : Setup) (es : List Entry) → (m : ℕ) × (source_next offer (source_run offer setup es m) ≡ None) }
{}

/// What was told stays: later marks only tell more after it.
pub fn tells_more()
    ensures { (offer : Supplier) (setup : Setup) (es : List Entry) (m k : ℕ) →
        (more : List (ℕ × Report)) × ((source_run offer setup es (m + k)).core.told ≡ (source_run offer setup es m).core.told ++ more) }
{}

/// A run comes to an end at which all that was told after any number of marks stands first.
pub fn last_tells()
    ensures { (offer : Supplier) (setup : Setup) (es : List Entry) (m : ℕ) → EndsTelling offer setup es m }
{}

/// At its start a run has told the start of each MAIN task with its declared priority, in order of declaration, and nothing else;
/// and whatever it has told later begins with those.
pub fn opens_with()
    ensures main { (tasks : List TaskEntry) → AreFirstStarts tasks (first_events 0 tasks) }
    ensures at_start { (offer : Supplier) (setup : Setup) (es : List Entry) →
        (source_run offer setup es 0).core.told ≡ first_events 0 setup.tasks }
    ensures later { (offer : Supplier) (setup : Setup) (es : List Entry) (m : ℕ) →
        (more : List (ℕ × Report)) × ((source_run offer setup es m).core.told ≡ first_events 0 setup.tasks ++ more) }
{}

/// For as long as marks come of a journal's first entries, its run is the run over those, with the other entries still to come.
pub fn begins_alike()
    ensures { (offer : Supplier) (setup : Setup) (es more : List Entry) (m : ℕ) → Comes offer setup es m →
        source_run offer setup (es ++ more) m ≡ with_more (source_run offer setup es m) more }
{}

/// Until the machine is at its end over a journal's first entries, its run over the journal is the run over those, with the
/// other entries still to come, and with the same count of marks.
pub fn machine_begins_alike<S>()
    ensures state { (engine : Engine S) (setup : Setup) (es more : List Entry) (n : ℕ) → IsBeforeEnd engine setup es n →
        machine_run engine setup (es ++ more) n ≡ machine_with_more (machine_run engine setup es n) more }
    ensures marks { (engine : Engine S) (setup : Setup) (es more : List Entry) (n : ℕ) → IsBeforeEnd engine setup es n →
        marked engine setup (es ++ more) n ≡ marked engine setup es n }
{}

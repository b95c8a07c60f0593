// Laws of the core: who can act, what is shown, what starts and writes come to, how runs open, which marks come, what becomes
// of plans, of interrupts and of what comes in.

ghost use Rattle.std.specs.Prelude.{◌≡◌, ◌≢◌, ◌↔◌, ℕ, ◌+◌, ◌-◌, ◌^◌, ◌<◌, ◌≤◌, pos, ◌++◌, List, [], ◌∷◌, Bool, true, false, Option, Some, None, IsTrue, length, map, slice_get};
ghost use Rattle.arrayvec.specs.ArrayVec.{ArrayVec};
ghost use Rattle.pearl_value.specs.declared.cell.Cell.{Cell};
ghost use Rattle.pearl_value.specs.declared.cell.Cell.TheVariants.{Clock};
ghost use Rattle.pearl_value.specs.declared.kind.Kind.{Kind};
ghost use Rattle.pearl_value.specs.declared.device.Device.TheVariants as device;
ghost use Rattle.pearl_value.specs.declared.device.Direction.{Direction};
ghost use Rattle.pearl_value.specs.declared.trap.Trap as traps;
ghost use Rattle.pearl_rules.specs.Series.{fires_if};
ghost use Rattle.pearl_rules.specs.declared.action.Action.{Action};
ghost use Rattle.pearl_rules.specs.declared.action.Action.TheVariants as action;
ghost use Rattle.pearl_rules.specs.declared.action.Start.{Start};
ghost use Rattle.pearl_rules.specs.declared.action.Start.TheVariants.{Free, At, After, When, WhenAfter};
ghost use Rattle.pearl_rules.specs.declared.action.Repeat.{Repeat};
ghost use Rattle.pearl_rules.specs.declared.action.Repeat.TheVariants.{Once, All, Until, During};
ghost use Rattle.pearl_rules.specs.declared.action.Answer.TheVariants.{Nothing, One};
ghost use Rattle.pearl_rules.specs.declared.entry.Entry.{Entry};
ghost use Rattle.pearl_rules.specs.declared.entry.Entry.TheVariants.{Run, Turn, State, Irpt, Chars, Line};
ghost use Rattle.pearl_rules.specs.declared.event.Event.TheVariants as event;
ghost use Rattle.pearl_rules.specs.declared.event.Shown.TheVariants as shown;
ghost use Rattle.pearl_rules.specs.declared.row.Kept.TheVariants as kept;
ghost use Rattle.pearl_rules.specs.declared.row.Mode.TheVariants.{Dormant, Active};
ghost use Rattle.pearl_rules.specs.declared.row.Plan.{Plan};
ghost use Rattle.pearl_rules.specs.declared.row.TaskRow.{TaskRow};
ghost use Rattle.pearl_rules.specs.declared.setup.Setup.{Setup};
ghost use Rattle.pearl_rules.specs.declared.setup.TaskEntry.{TaskEntry};
ghost use Rattle.pearl_rules.specs.Core.{Core, Channel, Switch, Bytes, Values, Happened, Shows, mode_of, row_of, first_channel, opening};
ghost use Rattle.pearl_rules.specs.Devices.{channel_of, is_enabled, interrupted, with_bytes, arrived};
ghost use Rattle.pearl_rules.specs.Effect.{Hears, answering, is_at_once, effect};
ghost use Rattle.pearl_rules.specs.Laws.{ChangesTask, happened_at};
ghost use Rattle.pearl_rules.specs.Pick.{Offered, guard, is_eligible, pick, shown_of, states};
ghost use Rattle.pearl_rules.specs.Plans.{time_at, first_moment, period_of, end_of, last_moment};
ghost use Rattle.pearl_rules.specs.Plans.{begin_series, planned, begun, serves_if, millisecond};
ghost use Rattle.pearl_rules.specs.Runs.{Acts, Turns, Tells, Supplier, Source, source_offers, source_next};
ghost use Rattle.pearl_rules_laws.specs.Plans.{IsNextTime, IsMoment, Waits, ChangesRow, EndsRow, ChangesChannel, start_events, starts_now, new_activation, with_new_activation, with_new_continuation, served_row, served_events, reached_row, reached_events};
ghost use Rattle.pearl_rules_laws.specs.Laws.{CanAct, ChangesSlot, MayWait, StandsAsDeclared};

/// A task is eligible exactly where it is active, isn't suspended, and has offered an action that can be done now.
pub fn eligible_tasks_can_act()
    ensures { (core : Core) (offers : Offered) (t : ℕ) → IsTrue (is_eligible core offers t) ↔ CanAct core offers t }
{}

/// Nothing but a request, a GET and a TAKE ever waits: every other action can always be done.
pub fn others_never_wait()
    ensures { (core : Core) (asked : Action) → (MayWait asked → ⊥) → IsTrue (guard core asked) }
{}

/// A dormant task is shown as dormant, and so is a number that names none; a suspended one as suspended, whatever it
/// offers. Of the others one that can't act is blocked, the one that acts next is running, and each other is runnable.
pub fn tasks_are_shown_as_they_stand()
    ensures dormant { (core : Core) (offers : Offered) (t : ℕ) → mode_of core t ≡ Dormant →
        shown_of core offers t ≡ shown.Dormant }
    ensures suspended { (core : Core) (offers : Offered) (t priority : ℕ) → mode_of core t ≡ Active priority true →
        shown_of core offers t ≡ shown.Suspended priority }
    ensures blocked { (core : Core) (offers : Offered) (t priority : ℕ) → mode_of core t ≡ Active priority false →
        (CanAct core offers t → ⊥) → shown_of core offers t ≡ shown.Blocked priority }
    ensures running { (core : Core) (offers : Offered) (t priority : ℕ) → mode_of core t ≡ Active priority false →
        pick core offers ≡ Some t → shown_of core offers t ≡ shown.Running priority }
    ensures runnable { (core : Core) (offers : Offered) (t priority : ℕ) → mode_of core t ≡ Active priority false →
        CanAct core offers t → pick core offers ≢ Some t → shown_of core offers t ≡ shown.Runnable priority }
{}

/// The states are told in order of declaration: as many as there are tasks, each at this moment, at its task's number.
pub fn states_are_in_order()
    ensures as_many { (core : Core) (offers : Offered) → length (states core offers) ≡ length core.tasks }
    ensures each { (core : Core) (offers : Offered) (t : ℕ) → t < length core.tasks →
        slice_get (states core offers) t ≡ Some (core.moment, Shows t (shown_of core offers t)) }
{}

/// A start that names a priority gives a dormant task this one, and a start that names none the declared one; that it
/// was started is told with this priority.
pub fn starts_give_priorities()
    ensures named { (core : Core) (own t priority : ℕ) → t < length core.tasks → mode_of core t ≡ Dormant →
        ChangesTask core own t (Active priority false) (event.Start t priority ∷ []) (Hears Nothing)
        (effect core own (action.Activate t Free Once (Some priority))) }
    ensures declared { (core : Core) (own t : ℕ) (row : TaskRow) → row_of core t ≡ Some row → row.mode ≡ Dormant →
        ChangesTask core own t (Active row.declared false) (event.Start t row.declared ∷ []) (Hears Nothing)
        (effect core own (action.Activate t Free Once None)) }
{}

/// A write puts its value into the slot that it names; every other slot holds what it held.
pub fn writes_change_one_slot()
    ensures { (core : Core) (own slot : ℕ) (value : Cell) → slot < length core.slots →
        ChangesSlot core own slot value (effect core own (action.Write slot value)) }
{}

/// A read is answered by what the slot holds, and changes nothing.
pub fn reads_answer_the_value()
    ensures { (core : Core) (own slot : ℕ) (value : Cell) → slice_get core.slots slot ≡ Some value →
        effect core own (action.Read slot) ≡ answering (record core { last = Some own }) (One value) }
{}

/// A text that is put is told once, at this moment, after all that was told, and nothing else changes.
pub fn puts_tell_their_text()
    ensures { (core : Core) (own device : ℕ) (text : ArrayVec ℕ) → effect core own (action.Put device text) ≡ answering
        (record core { last = Some own; told = core.told ++ (core.moment, Happened (event.Out device text)) ∷ [] })
        Nothing }
{}

/// The next turn of a loop and the entry of a procedure change nothing.
pub fn turns_and_entries_change_nothing()
    ensures turns { (core : Core) (own : ℕ) →
        effect core own action.Turn ≡ answering (record core { last = Some own }) Nothing }
    ensures enters { (core : Core) (own : ℕ) →
        effect core own action.Enter ≡ answering (record core { last = Some own }) Nothing }
{}

/// At its start a run is at moment 0 and midnight, nobody has acted, nothing is planned or kept, variables and counts have their
/// first values, interrupts are masked and nothing waits at a device, and of the declared tasks those with MAIN are
/// active, with their declared priority and not suspended, and the others dormant.
pub fn runs_open_as_declared()
    ensures tasks { (setup : Setup) (t : ℕ) (task : TaskEntry) → slice_get setup.tasks t ≡ Some task →
        StandsAsDeclared (opening setup) t task }
    ensures as_many { (setup : Setup) → length (opening setup).tasks ≡ length setup.tasks }
    ensures moment { (setup : Setup) → (opening setup).moment ≡ 0 }
    ensures last { (setup : Setup) → (opening setup).last ≡ None }
    ensures slots { (setup : Setup) → (opening setup).slots ≡ setup.slots }
    ensures counts { (setup : Setup) → (opening setup).counts ≡ setup.semaphores }
    ensures clock { (setup : Setup) → (opening setup).clock ≡ 0 }
    ensures channels { (setup : Setup) → (opening setup).channels ≡ map first_channel setup.devices }
    ensures masked { (setup : Setup) (n number : ℕ) → slice_get setup.devices n ≡ Some (device.Interrupt number) →
        is_enabled (opening setup) n ≡ false }
    ensures no_bytes { (setup : Setup) (n number : ℕ) (direction : Direction) →
        slice_get setup.devices n ≡ Some (device.Terminal number direction) →
        channel_of (opening setup) n ≡ Some (Bytes []) }
    ensures no_values { (setup : Setup) (n number : ℕ) (kind : Kind) →
        slice_get setup.devices n ≡ Some (device.Input number kind) →
        channel_of (opening setup) n ≡ Some (Values kind []) }
{}

/// Over `run` with picks left the next mark is an action of the task that acts next, and one pick fewer is left; with
/// none left, or with nobody to act, the next mark is that of the entries behind it.
pub fn runs_pick_as_often_as_they_say()
    ensures acts { (offer : Supplier) (s : Source) (n t : ℕ) (rest : List Entry) → s.entries ≡ Run (n + 1) ∷ rest →
        pick s.core (source_offers offer s) ≡ Some t →
        source_next offer s ≡ Some (record { mark = Acts t; rest = Run n ∷ rest }) }
    ensures done { (offer : Supplier) (s : Source) (rest : List Entry) → s.entries ≡ Run 0 ∷ rest →
        source_next offer s ≡ source_next offer (record s { entries = rest }) }
    ensures idle { (offer : Supplier) (s : Source) (n : ℕ) (rest : List Entry) → s.entries ≡ Run n ∷ rest →
        pick s.core (source_offers offer s) ≡ None →
        source_next offer s ≡ source_next offer (record s { entries = rest }) }
{}

/// `turn` and `state` make one mark each, whoever acts next; where no entry is left there is none.
pub fn turns_and_states_are_one_mark()
    ensures turn { (offer : Supplier) (s : Source) (t : ℕ) (rest : List Entry) → s.entries ≡ Turn t ∷ rest →
        source_next offer s ≡ Some (record { mark = Turns t; rest = rest }) }
    ensures state { (offer : Supplier) (s : Source) (rest : List Entry) → s.entries ≡ State ∷ rest →
        source_next offer s ≡ Some (record { mark = Tells; rest = rest }) }
    ensures end { (offer : Supplier) (s : Source) → s.entries ≡ [] → source_next offer s ≡ None }
{}

/// A PREVENT drops both plans of a task and all starts that it keeps, and nothing else changes.
pub fn prevents_drop_both_plans()
    ensures { (core : Core) (own t : ℕ) (row : TaskRow) → row_of core t ≡ Some row →
        ChangesRow (record core { last = Some own }) (effect core own (action.Prevent t)).core t
        (record row { kept = kept.Nothing; continuation = None; activation = None }) [] }
{}

/// A task that ends, is broken off or is ended from outside goes on by no plan; the plan by which it is started stays. Where
/// it kept starts it is active anew with the oldest, which is told behind its end, and keeps the others; else it is dormant.
pub fn ends_keep_the_plan_of_starts()
    ensures ends { (core : Core) (own : ℕ) (row : TaskRow) → row_of core own ≡ Some row →
        EndsRow (record core { last = Some own }) (effect core own action.End).core own row (event.End own) }
    ensures breaks_off { (core : Core) (own : ℕ) (row : TaskRow) → row_of core own ≡ Some row → (trap : traps.Trap) →
        EndsRow (record core { last = Some own }) (effect core own (action.Trap trap)).core own row (event.Trap own trap) }
    ensures stops { (core : Core) (own t : ℕ) (row : TaskRow) → row_of core t ≡ Some row → (priority : ℕ) (suspended : Bool) →
        row.mode ≡ Active priority suspended →
        EndsRow (record core { last = Some own }) (effect core own (action.Terminate t)).core t row (event.Stop t) }
{}

/// A new plan takes the place of the old one of its kind, leaves the other one, and serves at once where its series fires
/// now: that by which a task is started stays then, that by which it goes on is gone. A dormant task gets no plan to go on.
pub fn new_plans_replace_old_ones()
    ensures starts { (core : Core) (own t : ℕ) (row : TaskRow) → row_of core t ≡ Some row →
        (start : Start) (repeat : Repeat) (priority : Option ℕ) → is_at_once start repeat ≡ false →
        ChangesRow (record core { last = Some own }) (effect core own (action.Activate t start repeat priority)).core t
        (with_new_activation core (new_activation core t start repeat priority) row)
        (start_events t (starts_now core (Some (new_activation core t start repeat priority))) row.mode row.kept) }
    ensures goes_on { (core : Core) (own t : ℕ) (row : TaskRow) → row_of core t ≡ Some row →
        (start : Start) (priority : ℕ) (suspended : Bool) → row.mode ≡ Active priority suspended → is_at_once start Once ≡ false →
        ChangesRow (record core { last = Some own }) (effect core own (action.Continue t start)).core t
        (with_new_continuation core (planned core start Once) row) [] }
    ensures dormant { (core : Core) (own t : ℕ) (row : TaskRow) → row_of core t ≡ Some row → (start : Start) → row.mode ≡ Dormant →
        is_at_once start Once ≡ false →
        effect core own (action.Continue t start) ≡ answering (record core { last = Some own }) Nothing }
{}

/// A RESUME suspends the task with a new plan to go on. Where this fires now, as after no time or at this time of day, the
/// task isn't suspended, and goes on by no plan.
pub fn resumed_tasks_go_on()
    ensures later { (core : Core) (own : ℕ) (row : TaskRow) → row_of core own ≡ Some row →
        (priority : ℕ) (before : Bool) (start : Start) → row.mode ≡ Active priority before →
        serves_if core (Some (planned core start Once)) ≡ false →
        ChangesRow (record core { last = Some own }) (effect core own (action.Resume start)).core own
        (record row { mode = Active priority true; continuation = Some (planned core start Once) }) [] }
    ensures at_once { (core : Core) (own : ℕ) (row : TaskRow) → row_of core own ≡ Some row →
        (priority : ℕ) (before : Bool) (start : Start) → row.mode ≡ Active priority before →
        serves_if core (Some (planned core start Once)) ≡ true →
        ChangesRow (record core { last = Some own }) (effect core own (action.Resume start)).core own
        (record row { mode = Active priority false; continuation = None }) [] }
    ensures after_no_time { (core : Core) → core.moment < 2 ^ 64 → IsTrue (serves_if core (Some (planned core (After (pos 0)) Once))) }
    ensures at_this_time { (core : Core) (time : ℕ) → core.moment < 2 ^ 64 → time < 86400000 → time_at core core.moment ≡ time →
        IsTrue (serves_if core (Some (planned core (At time) Once))) }
{}

/// A plan that waits for no interrupt serves at its first moment, and then each period after it, up to its last moment. One
/// that waits for an interrupt serves at no moment before that occurs, and from then on at those of a series that begins then.
pub fn plans_serve_at_their_moments()
    ensures serves { (core : Core) (start : Start) (repeat : Repeat) (u : ℕ) → (Waits start → ⊥) →
        IsTrue (fires_if (planned core start repeat).series u)
        ↔ IsMoment (first_moment core start) (period_of repeat)
        (last_moment core (first_moment core start) (end_of repeat)) u }
    ensures waits { (core : Core) (start : Start) (repeat : Repeat) (u : ℕ) → Waits start →
        fires_if (planned core start repeat).series u ≡ false }
    ensures begins { (core : Core) (plan : Plan) (u : ℕ) → IsTrue (fires_if (begun core plan).series u)
        ↔ IsMoment (core.moment + plan.after) plan.period (last_moment core (core.moment + plan.after) plan.end) u }
{}

/// A plan begins now, after its time, or at its time of day, and ends at a time of day from its first moment on or after a
/// time from it, or never. Without a period it has one moment.
pub fn plans_begin_and_end_as_written()
    ensures now { (core : Core) → first_moment core Free ≡ core.moment }
    ensures at { (core : Core) (time : ℕ) → time < 86400000 → IsNextTime core time core.moment (first_moment core (At time)) }
    ensures after { (core : Core) (n : ℕ) → first_moment core (After (pos n)) ≡ core.moment + n }
    ensures occurs { (made core : Core) (interrupt : ℕ) (repeat : Repeat) →
        (begin_series core (planned made (When interrupt) repeat)).first ≡ core.moment }
    ensures after_it { (made core : Core) (interrupt n : ℕ) (repeat : Repeat) →
        (begin_series core (planned made (WhenAfter interrupt (pos n)) repeat)).first ≡ core.moment + n }
    ensures periods { (n m time : ℕ) → (period_of Once ≡ 0) × (period_of (All (pos n)) ≡ n) × (period_of (Until (pos n) time) ≡ n)
        × (period_of (During (pos n) (pos m)) ≡ n) }
    ensures never_ends { (core : Core) (first n : ℕ) → (last_moment core first (end_of Once) ≡ 2 ^ 64 - 1)
        × (last_moment core first (end_of (All (pos n))) ≡ 2 ^ 64 - 1) }
    ensures until { (core : Core) (first n time : ℕ) → time < 86400000 →
        IsNextTime core time first (last_moment core first (end_of (Until (pos n) time))) }
    ensures during { (core : Core) (first n m : ℕ) →
        last_moment core first (end_of (During (pos n) (pos m))) ≡ first + m }
{}

/// In a millisecond the plans of all tasks serve that fire then, in order of declaration, and nothing else happens: a task
/// goes on and its plan to do so is gone, a dormant one is started, and an active one that was to be started keeps the start,
/// or where it keeps three is told as an overrun.
pub fn a_millisecond_serves_the_plans()
    ensures { (core : Core) → millisecond core ≡ record core {
      moment = core.moment + 1;
      tasks = map (served_row (record core { moment = core.moment + 1 })) core.tasks;
      told = core.told ++ happened_at (core.moment + 1) (served_events (record core { moment = core.moment + 1 }) 0 core.tasks);
    } }
{}

/// An interrupt that is masked tells that it was, and changes nothing. One that is let through begins a new series of each
/// plan that waits for it, and these serve at once where they fire now, in order of declaration; nothing else happens.
pub fn interrupts_reach_those_that_wait()
    ensures masked { (core : Core) (device : ℕ) → is_enabled core device ≡ false →
        interrupted core device ≡ record core { told = core.told ++ (core.moment, Happened (event.Masked device)) ∷ [] } }
    ensures occurs { (core : Core) (device : ℕ) → is_enabled core device ≡ true → interrupted core device ≡ record core {
      tasks = map (reached_row core device) core.tasks;
      told = core.told ++ happened_at core.moment (reached_events core device 0 core.tasks);
    } }
{}

/// An interrupt is let through after ENABLE and masked after DISABLE, and no other device changes. A TRIGGER does what
/// `irpt` does.
pub fn interrupts_are_let_through_or_masked()
    ensures enables { (core : Core) (own device : ℕ) (before : Channel) → channel_of core device ≡ Some before →
        ChangesChannel (record core { last = Some own }) (effect core own (action.Enable device)).core device (Switch true) }
    ensures disables { (core : Core) (own device : ℕ) (before : Channel) → channel_of core device ≡ Some before →
        ChangesChannel (record core { last = Some own }) (effect core own (action.Disable device)).core device (Switch false) }
    ensures triggers { (core : Core) (own device : ℕ) → effect core own (action.Trigger device)
        ≡ answering (arrived (record core { last = Some own }) (Irpt device)) Nothing }
{}

/// NOW is answered by the time of day, and changes nothing.
pub fn now_is_the_time_of_day()
    ensures { (core : Core) (own : ℕ) → effect core own action.Now
        ≡ answering (record core { last = Some own }) (One (Clock (time_at core core.moment))) }
{}

/// Bytes that come in at a terminal wait behind all others where there is room for all of them; else none is kept, and
/// that is told. `chars` brings exactly its bytes, and `line` its bytes with byte 10 behind them.
pub fn bytes_wait_in_order()
    ensures room { (core : Core) (device : ℕ) (pending text : List ℕ) → channel_of core device ≡ Some (Bytes pending) →
        length (pending ++ text) ≤ 4096 → ChangesChannel core (with_bytes core device text) device (Bytes (pending ++ text)) }
    ensures full { (core : Core) (device : ℕ) (pending text : List ℕ) → channel_of core device ≡ Some (Bytes pending) →
        4096 < length (pending ++ text) →
        with_bytes core device text ≡ record core { told = core.told ++ (core.moment, Happened (event.Lost device)) ∷ [] } }
    ensures chars { (core : Core) (device : ℕ) (text : ArrayVec ℕ) →
        arrived core (Chars device text) ≡ with_bytes core device text.items }
    ensures line { (core : Core) (device : ℕ) (text : ArrayVec ℕ) →
        arrived core (Line device text) ≡ with_bytes core device (text.items ++ 10 ∷ []) }
{}

/// A TAKE is answered by the oldest value that waits, which is gone then.
pub fn takes_answer_the_oldest_value()
    ensures { (core : Core) (own device : ℕ) (kind : Kind) (x : Cell) (later : List Cell) →
        channel_of core device ≡ Some (Values kind (x ∷ later)) →
        ((effect core own (action.Take device)).reply ≡ Hears (One x))
        × ChangesChannel (record core { last = Some own }) (effect core own (action.Take device)).core device (Values kind later) }
{}

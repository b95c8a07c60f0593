// Laws of `run`, `tick` and `pass` as whole entries, of what one mark of a run is, and of what tasks have heard.

ghost use Rattle.std.specs.Prelude.{◌≡◌, ◌≢◌, ℕ, ◌+◌, ◌<◌, List, [], ◌∷◌, ◌++◌, true, false, Some, None, IsTrue, slice_get};
ghost use Rattle.pearl_rules.specs.declared.entry.Entry.{Entry};
ghost use Rattle.pearl_rules.specs.declared.entry.Entry.TheVariants.{Run, Tick, Pass, Turn, State};
ghost use Rattle.pearl_rules.specs.declared.setup.Setup.{Setup};
ghost use Rattle.pearl_rules.specs.declared.setup.TaskEntry.{TaskEntry};
ghost use Rattle.pearl_rules.specs.Core.{is_active};
ghost use Rattle.pearl_rules.specs.Pick.{pick, turned, states};
ghost use Rattle.pearl_rules.specs.Runs.{Passes, Arrives, kept_at, Supplier, Source, source_offers, source_next, source_step, source_start, source_after, source_run};
ghost use Rattle.pearl_rules_laws.specs.Runs.{RunAlike, turns_of, HearsWhereActive, KeepsHeard, DoesOneAction};

/// Wherever it stands in a journal, `run` of so many picks and more is one run of the first and then one of the others,
/// also where it ends early; and so it is of `tick`.
pub fn runs_and_ticks_add_up()
    ensures runs { (front rest : List Entry) (n more : ℕ) →
        RunAlike (front ++ Run (n + more) ∷ rest) (front ++ Run n ∷ Run more ∷ rest) }
    ensures ticks { (front rest : List Entry) (n more : ℕ) →
        RunAlike (front ++ Tick (n + more) ∷ rest) (front ++ Tick n ∷ Tick more ∷ rest) }
    ensures no_run { (front rest : List Entry) → RunAlike (front ++ Run 0 ∷ rest) (front ++ rest) }
    ensures no_tick { (front rest : List Entry) → RunAlike (front ++ Tick 0 ∷ rest) (front ++ rest) }
{}

/// Wherever it stands in a journal, `pass` is so many times `tick 1` and then `run`.
pub fn passes_are_ticks_and_runs()
    ensures { (front rest : List Entry) (times picks : ℕ) →
        RunAlike (front ++ Pass times picks ∷ rest) (front ++ (turns_of times picks ++ rest)) }
{}

/// Over `run`, as long as somebody can act and picks are left, each mark is one action of the task that acts next; with
/// so many of them as many picks fewer are left.
pub fn runs_are_actions()
    ensures acts { (offer : Supplier) (s : Source) (n more : ℕ) (rest : List Entry) → s.entries ≡ Run (n + more) ∷ rest →
        ((k : ℕ) → k < n → pick (source_after offer s k).core (source_offers offer (source_after offer s k)) ≢ None) →
        (k t : ℕ) → k < n → pick (source_after offer s k).core (source_offers offer (source_after offer s k)) ≡ Some t →
        DoesOneAction offer (source_after offer s k) t }
    ensures leaves { (offer : Supplier) (s : Source) (n more : ℕ) (rest : List Entry) → s.entries ≡ Run (n + more) ∷ rest →
        ((k : ℕ) → k < n → pick (source_after offer s k).core (source_offers offer (source_after offer s k)) ≢ None) →
        (source_after offer s n).entries ≡ Run more ∷ rest }
{}

/// At the start the MAIN tasks have heard no answers, and nothing is kept of any other. In each state of a run exactly
/// the active tasks have heard something; and one that a mark makes active has heard no answers then.
pub fn active_tasks_alone_have_heard()
    ensures main { (setup : Setup) (es : List Entry) (t : ℕ) (task : TaskEntry) → slice_get setup.tasks t ≡ Some task →
        task.main ≡ true → kept_at (source_start setup es).heard t ≡ Some [] }
    ensures other { (setup : Setup) (es : List Entry) (t : ℕ) →
        ((task : TaskEntry) → slice_get setup.tasks t ≡ Some task → task.main ≡ false) →
        kept_at (source_start setup es).heard t ≡ None }
    ensures runs { (offer : Supplier) (setup : Setup) (es : List Entry) (m : ℕ) →
        HearsWhereActive (source_run offer setup es m) }
    ensures started { (offer : Supplier) (setup : Setup) (es : List Entry) (m t : ℕ) →
        is_active (source_run offer setup es m).core t ≡ false →
        IsTrue (is_active (source_step offer (source_run offer setup es m)).core t) →
        kept_at (source_step offer (source_run offer setup es m)).heard t ≡ Some [] }
{}

/// `turn` makes it the task's turn where it can be, and `state` tells all states behind what was told. Neither changes
/// more, and all tasks have heard the same.
pub fn turns_and_states_change_no_more()
    ensures turns { (offer : Supplier) (s : Source) (t : ℕ) (rest : List Entry) → s.entries ≡ Turn t ∷ rest →
        (source_step offer s).core ≡ turned s.core (source_offers offer s) t }
    ensures tells { (offer : Supplier) (s : Source) (rest : List Entry) → s.entries ≡ State ∷ rest →
        (source_step offer s).core ≡ record s.core { told = s.core.told ++ states s.core (source_offers offer s) } }
    ensures turns_heard { (offer : Supplier) (s : Source) (t : ℕ) (rest : List Entry) → s.entries ≡ Turn t ∷ rest →
        HearsWhereActive s → (u : ℕ) → kept_at (source_step offer s).heard u ≡ kept_at s.heard u }
    ensures tells_heard { (offer : Supplier) (s : Source) (rest : List Entry) → s.entries ≡ State ∷ rest →
        HearsWhereActive s → (u : ℕ) → kept_at (source_step offer s).heard u ≡ kept_at s.heard u }
{}

/// Over a millisecond and over what comes in each task that was active has heard the same, and one that is started has
/// heard no answers.
pub fn milliseconds_and_arrivals_keep_what_was_heard()
    ensures passes { (offer : Supplier) (s : Source) (rest : List Entry) →
        source_next offer s ≡ Some (record { mark = Passes; rest = rest }) → KeepsHeard s (source_step offer s) }
    ensures arrives { (offer : Supplier) (s : Source) (entry : Entry) (rest : List Entry) →
        source_next offer s ≡ Some (record { mark = Arrives entry; rest = rest }) → KeepsHeard s (source_step offer s) }
{}

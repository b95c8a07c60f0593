// Laws of the lines that tell of time and of tasks. Each function's contract is one theorem; none does anything.

ghost use Rattle.std.specs.Prelude.{◌≡◌, ◌≢◌, ◌+◌, ◌^◌, ◌<◌, ◌≤◌, ℕ, List, [], true, false, codes};
ghost use Rattle.pearl_rules.specs.declared.entry.Entry.TheVariants.{Clock, Run, Tick, Pass, Turn, State};
ghost use Rattle.pearl_rules.specs.declared.setup.Setup.{Setup};
ghost use Rattle.pearl_value.specs.Names.{is_id};
ghost use Rattle.pearl_journal.specs.declared.reading.Line.TheVariants.{Item, Wrong};
ghost use Rattle.pearl_journal.specs.Meaning.{meaning};
ghost use Rattle.pearl_journal.specs.Readings.{Reading};
ghost use Rattle.pearl_journal_laws.specs.Named.{IsFirst, IsNamed, IsNowhere};
ghost use Rattle.pearl_journal_laws.specs.Says.{IsNoNumber, IsNumber, Says, SaysMore};
ghost use Rattle.pearl_journal_laws.specs.Times.{IsTimeOfDay};

/// `clock C` says the time of day at the start, as the first entry alone: behind an entry it is refused with 1,
/// whatever stands behind the word, and so is one whose C is no time of day.
pub fn clocks_come_first()
    ensures first { (setup : Setup) (reading : Reading) (line text : List ℕ) (time : ℕ) →
        Says line (codes "clock") text → reading.is_first ≡ true → reading.moment ≤ 2 ^ 40 → IsTimeOfDay text time →
        meaning setup reading line ≡ Item (Clock time) }
    ensures later { (setup : Setup) (reading : Reading) (line text : List ℕ) → Says line (codes "clock") text →
        reading.is_first ≡ false → meaning setup reading line ≡ Wrong 1 }
    ensures form { (setup : Setup) (reading : Reading) (line text : List ℕ) → Says line (codes "clock") text →
        ((time : ℕ) → IsTimeOfDay text time → ⊥) → meaning setup reading line ≡ Wrong 1 }
{}

/// `run N` lets tasks act up to N times, at any moment. Where no number stands behind the word, it is refused with 1.
pub fn runs_let_tasks_act()
    ensures entry { (setup : Setup) (reading : Reading) (line digits : List ℕ) (n : ℕ) →
        Says line (codes "run") digits → reading.moment ≤ 2 ^ 40 → IsNumber digits n →
        meaning setup reading line ≡ Item (Run n) }
    ensures form { (setup : Setup) (reading : Reading) (line text : List ℕ) → Says line (codes "run") text →
        IsNoNumber text → meaning setup reading line ≡ Wrong 1 }
{}

/// `tick N` lets N milliseconds pass, up to the moment 2^40; past that it is refused with 3. Where no number stands
/// behind the word, it is refused with 1.
pub fn ticks_let_time_pass()
    ensures entry { (setup : Setup) (reading : Reading) (line digits : List ℕ) (n : ℕ) →
        Says line (codes "tick") digits → IsNumber digits n → reading.moment + n ≤ 2 ^ 40 →
        meaning setup reading line ≡ Item (Tick n) }
    ensures late { (setup : Setup) (reading : Reading) (line digits : List ℕ) (n : ℕ) →
        Says line (codes "tick") digits → IsNumber digits n → 2 ^ 40 < reading.moment + n →
        meaning setup reading line ≡ Wrong 3 }
    ensures form { (setup : Setup) (reading : Reading) (line text : List ℕ) → Says line (codes "tick") text →
        IsNoNumber text → meaning setup reading line ≡ Wrong 1 }
{}

/// `pass D N` lets D milliseconds pass and tasks act up to N times after each, up to the moment 2^40; where D
/// milliseconds lead past that it is refused with 3. Where D or N is no number, it is refused with 1.
pub fn passes_let_time_pass()
    ensures entry { (setup : Setup) (reading : Reading) (line first second : List ℕ) (d n : ℕ) →
        SaysMore line (codes "pass") first second → IsNumber first d → IsNumber second n →
        reading.moment + d ≤ 2 ^ 40 → meaning setup reading line ≡ Item (Pass d n) }
    ensures late { (setup : Setup) (reading : Reading) (line first second : List ℕ) (d n : ℕ) →
        SaysMore line (codes "pass") first second → IsNumber first d → IsNumber second n →
        2 ^ 40 < reading.moment + d → meaning setup reading line ≡ Wrong 3 }
    ensures times { (setup : Setup) (reading : Reading) (line first second : List ℕ) →
        SaysMore line (codes "pass") first second → IsNoNumber first → meaning setup reading line ≡ Wrong 1 }
    ensures picks { (setup : Setup) (reading : Reading) (line first second : List ℕ) →
        SaysMore line (codes "pass") first second → IsNoNumber second → meaning setup reading line ≡ Wrong 1 }
{}

/// `turn NAME` gives the turn to the first task that has the name. Where no task has it the line is refused with 2,
/// and with 1 where it hasn't the letters and the length of a name.
pub fn turns_name_a_task()
    ensures entry { (setup : Setup) (reading : Reading) (line name : List ℕ) (task : ℕ) →
        Says line (codes "turn") name → reading.moment ≤ 2 ^ 40 → is_id name ≡ true →
        IsFirst (IsNamed name) setup.tasks task → meaning setup reading line ≡ Item (Turn task) }
    ensures none { (setup : Setup) (reading : Reading) (line name : List ℕ) → Says line (codes "turn") name →
        is_id name ≡ true → IsNowhere (IsNamed name) setup.tasks → meaning setup reading line ≡ Wrong 2 }
    ensures form { (setup : Setup) (reading : Reading) (line name : List ℕ) → Says line (codes "turn") name →
        is_id name ≡ false → meaning setup reading line ≡ Wrong 1 }
{}

/// `state` tells how each task stands. Where more stands behind the word, it is refused with 1.
pub fn states_stand_alone()
    ensures entry { (setup : Setup) (reading : Reading) (line : List ℕ) → Says line (codes "state") [] →
        reading.moment ≤ 2 ^ 40 → meaning setup reading line ≡ Item State }
    ensures form { (setup : Setup) (reading : Reading) (line text : List ℕ) → Says line (codes "state") text →
        text ≢ [] → meaning setup reading line ≡ Wrong 1 }
{}

// Laws of journals that go on behind others. Each function's contract is one theorem; none does anything.

ghost use Rattle.std.specs.Prelude.{◌≡◌, ◌+◌, ◌^◌, ◌≤◌, ℕ, Bool, true, false, List, [], ◌∷◌, ◌++◌, length};
ghost use Rattle.pearl_rules.specs.declared.entry.Entry.{Entry};
ghost use Rattle.pearl_rules.specs.declared.entry.Entry.TheVariants.{Clock};
ghost use Rattle.pearl_rules.specs.declared.setup.Setup.{Setup};
ghost use Rattle.pearl_rules.specs.Entries.{time_in};
ghost use Rattle.pearl_journal.specs.declared.reading.Line.TheVariants.{Item, Wrong};
ghost use Rattle.pearl_journal.specs.Entries.{All, entries, entries_from};
ghost use Rattle.pearl_journal.specs.Lines.{ended_lines, journal_lines, without_return};
ghost use Rattle.pearl_journal.specs.Meaning.{meaning};
ghost use Rattle.pearl_journal.specs.Pieces.{begin_later, reading_at};
ghost use Rattle.pearl_journal.specs.Readings.{Reading};
ghost use Rattle.pearl_journal_laws.specs.Later.{EndsEachLine, HasNoClock, SetsClock, renumbered, with_front};
ghost use Rattle.pearl_journal_laws.specs.Readings.{behind_lines};

/// A journal with no bytes, or whose last one is 10, ends each of its lines. Behind such a journal the lines of another
/// one are the same as if it stands alone, and so are those that are ended.
pub fn journals_join()
    ensures empty { EndsEachLine [] }
    ensures last { (front : List ℕ) → EndsEachLine (front ++ 10 ∷ []) }
    ensures lines { (journal next : List ℕ) → EndsEachLine journal →
        journal_lines (journal ++ next) ≡ journal_lines journal ++ journal_lines next }
    ensures ended { (journal next : List ℕ) → EndsEachLine journal →
        ended_lines (journal ++ next) ≡ journal_lines journal ++ ended_lines next }
{}

/// Behind lines that are all accepted or skipped, the entries are those of the first lines and then those of the
/// others, read from where the first ones led.
pub fn entries_join()
    ensures { (setup : Setup) (reading : Reading) (lines more : List (List ℕ)) (found : List Entry) →
        entries_from setup reading lines ≡ record { accepted = found; ending = All } →
        entries_from setup reading (lines ++ more)
        ≡ with_front found (entries_from setup (behind_lines setup reading lines) more) }
{}

/// Behind lines that are all accepted or skipped, the moment is later by the milliseconds that their entries let pass.
pub fn entries_lead_on()
    ensures { (setup : Setup) (reading : Reading) (lines : List (List ℕ)) (found : List Entry) →
        entries_from setup reading lines ≡ record { accepted = found; ending = All } →
        (behind_lines setup reading lines).moment ≡ reading.moment + time_in found }
{}

/// A line `clock C` alone means something else where an entry came before: it sets the clock as the first entry, and is
/// refused with 1 behind another. Any other line means the same, be it the first or not, and however many lines came
/// before. So lines of which none sets the clock have the same entries there, and if one is refused, its number alone
/// is another.
pub fn clocks_alone_look_back()
    ensures clock { (setup : Setup) (reading : Reading) (line : List ℕ) (is : SetsClock line) →
        length (without_return line) ≤ 1024 → reading.moment ≤ 2 ^ 40 →
        (meaning setup (record reading { is_first = true }) line ≡ Item (Clock is.time))
        × (meaning setup (record reading { is_first = false }) line ≡ Wrong 1) }
    ensures line { (setup : Setup) (reading : Reading) (line : List ℕ) (count : ℕ) (first : Bool) →
        (SetsClock line → ⊥) →
        meaning setup (record reading { lines = count; is_first = first }) line ≡ meaning setup reading line }
    ensures lines { (setup : Setup) (reading : Reading) (lines : List (List ℕ)) (before : ℕ) (first : Bool) →
        HasNoClock lines →
        entries_from setup (record reading { lines = reading.lines + before; is_first = first }) lines
        ≡ renumbered before (entries_from setup reading lines) }
{}

/// Behind lines that are all accepted or skipped, lines of which none sets the clock are read as those of a journal
/// that goes on with a run, from the moment to which the first ones lead: they have the same entries, and if one is
/// refused, its number alone is another.
pub fn journals_go_on()
    ensures { (setup : Setup) (lines more : List (List ℕ)) (found : List Entry) →
        entries setup lines ≡ record { accepted = found; ending = All } → HasNoClock more →
        entries setup (lines ++ more) ≡ with_front found (renumbered (length lines)
        (entries_from setup (reading_at begin_later (time_in found)) more)) }
{}

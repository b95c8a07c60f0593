// What holds of every machine and of all values. Each function's contract is one theorem; none does anything.

ghost use Rattle.std.specs.Prelude.{◌≡◌, ◌↔◌, ℕ, List, ◌++◌, Option, Some, None, true};
ghost use Rattle.pearl_value.specs.WellFormed.{IsValue};
ghost use Rattle.pearl_value.specs.declared.cell.Cell.{Cell};
ghost use Rattle.pearl_rules.specs.declared.entry.Entry.{Entry};
ghost use Rattle.pearl_rules.specs.Runs.{Coming, Engine, Machine, next_mark, machine_after};
ghost use Rattle.pearl_watch.specs.Handing.{Handing, IsAlone, at_once, handing_after, with_more};
ghost use Rattle.pearl_watch.specs.declared.watched.Watched.{Watched};
ghost use Rattle.pearl_watch.specs.Changes.{core_lines, is_same, mark_cores, watch_lines};
ghost use Rattle.pearl_watch.specs.Monitored.{ShowsTheRun, WatchesBehind, WatchesInTurn, WatchesNothing};
ghost use Rattle.pearl_watch.specs.Marks.{alone};

/// A machine to which the entries are handed over one mark at a time runs as one that has them all at once, instruction
/// by instruction and mark by mark: the same core, the same stacks, and the same entries left. Each entry that is handed
/// over makes its mark and no other. Of entries that stand behind others a mark comes where those make none.
pub fn hands_over_mark_by_mark<S>()
    ensures same { (engine : Engine S) (h : Handing S) (n : ℕ) → at_once (handing_after engine h n) ≡ machine_after engine (at_once h) n }
    ensures alone { (picked : Option ℕ) (es : List Entry) (coming : Coming) → next_mark picked es ≡ Some coming →
        IsAlone picked coming.mark (alone coming.mark) }
    ensures behind { (picked : Option ℕ) (es more : List Entry) →
        next_mark picked (es ++ more) ≡ with_more (next_mark picked es) more (next_mark picked more) }
{}

/// What is written of a run step by step is, for each core after 0, 1, 2 .. marks, the lines of the watched slots that
/// differ from the core before: no other step has a line.
pub fn writes_mark_by_mark<S>()
    ensures { (engine : Engine S) (start : Machine S) (names : List (List ℕ)) (watched : List Watched) (steps : ℕ) →
        watch_lines names watched engine start steps ≡ core_lines names watched 0 None (mark_cores engine start steps) }
{}

/// A value counts as changed just where it is another one.
pub fn tells_values_apart()
    ensures { (x y : Cell) → IsValue y → (is_same x y ≡ true) ↔ (x ≡ y) }
{}

/// What a monitor writes of entries one after the other is what it writes of all.
pub fn writes_in_turn()
    ensures nothing { WatchesNothing }
    ensures behind { WatchesBehind }
    ensures in_turn { WatchesInTurn }
{}

/// What a monitor writes of all entries is how the named leaves' slots change, mark by mark of the object's own run, up to
/// its end.
pub fn shows_the_run()
    ensures { ShowsTheRun }
{}

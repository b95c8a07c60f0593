// Laws of what a line means, and of journals that come in pieces. Each function's contract is one theorem; none does
// anything.

ghost use Rattle.std.specs.Prelude.{◌≡◌, ◌≢◌, ◌+◌, ◌^◌, ◌<◌, ◌≤◌, ℕ, List, [], ◌∷◌, ◌++◌, Some, Err, length, take, codes};
ghost use Rattle.std.specs.List.{AllByRecursion, concat};
ghost use Rattle.pearl_rules.specs.declared.entry.Entry.TheVariants.{Tick};
ghost use Rattle.pearl_rules.specs.declared.setup.Setup.{Setup};
ghost use Rattle.pearl_rules.specs.Entries.{IsPrinted};
ghost use Rattle.pearl_journal.specs.declared.reading.Line.TheVariants.{Blank, Item, Wrong};
ghost use Rattle.pearl_journal.specs.Cuts.{fed_each, read_pieces, taken_of};
ghost use Rattle.pearl_journal.specs.Entries.{entries, entries_from};
ghost use Rattle.pearl_journal.specs.Laws.{EndsInNoReturn, IsComment, IsGap, NamesAlike, SaysThreeParts, SaysWordAndText, TakesTwoParts, in_apostrophes};
ghost use Rattle.pearl_journal.specs.Lines.{ended_lines, journal_lines};
ghost use Rattle.pearl_journal.specs.Meaning.{entry_of, line_of, meaning};
ghost use Rattle.pearl_journal.specs.Pieces.{HasNoWhole, Kept, answer_of, begin, begin_later, fed, reading_at};
ghost use Rattle.pearl_journal.specs.Readings.{Reading};
ghost use Rattle.pearl_journal.specs.Texts.{quoted};
ghost use Rattle.pearl_journal.specs.Words.{number};

/// Blanks and tabs at both ends of a line and between its first word and the text behind it change nothing, however
/// many stand there: the word and the text say what the line means.
pub fn blanks_are_free()
    ensures { (setup : Setup) (reading : Reading) (line word text : List ℕ) → SaysWordAndText line word text →
        EndsInNoReturn line → length line ≤ 1024 →
        meaning setup reading line ≡ line_of (entry_of setup reading word text) }
{}

/// Blanks and tabs between all words of `pass`, `chars`, `line` and `value` are free as well: lines that say the same
/// three parts mean the same, however many stand between them.
pub fn later_blanks_are_free()
    ensures { (setup : Setup) (reading : Reading) (line other word second text : List ℕ) → TakesTwoParts word →
        SaysThreeParts line word second text → SaysThreeParts other word second text →
        EndsInNoReturn line → EndsInNoReturn other → length line ≤ 1024 → length other ≤ 1024 →
        meaning setup reading line ≡ meaning setup reading other }
{}

/// A byte 13 behind a line changes nothing.
pub fn returns_are_dropped()
    ensures { (setup : Setup) (reading : Reading) (line : List ℕ) → EndsInNoReturn line →
        meaning setup reading (line ++ 13 ∷ []) ≡ meaning setup reading line }
{}

/// Lines without words and comments are skipped, and of all lines those are refused that are too long.
pub fn lines_are_skipped()
    ensures empty { (setup : Setup) (reading : Reading) (line : List ℕ) → IsGap line → length line ≤ 1024 →
        meaning setup reading line ≡ Blank }
    ensures comment { (setup : Setup) (reading : Reading) (line : List ℕ) → IsComment line → EndsInNoReturn line →
        length line ≤ 1024 → meaning setup reading line ≡ Blank }
    ensures long { (setup : Setup) (reading : Reading) (line : List ℕ) → EndsInNoReturn line →
        1024 < length line → meaning setup reading line ≡ Wrong 1 }
{}

/// A text of bytes from 32 to 126, at most 255 of them, stands between two apostrophes, each apostrophe in it written
/// twice; and whatever is read as a text is written so.
pub fn texts_stand_between_apostrophes()
    ensures read { (text : List ℕ) → AllByRecursion IsPrinted text → length text ≤ 255 →
        quoted (in_apostrophes text) ≡ Some text }
    ensures only { (bytes text : List ℕ) → quoted bytes ≡ Some text → bytes ≡ in_apostrophes text }
{}

/// The codes of refusals are 1 to 4. A line that is refused with 1 is so whatever is declared and however late it is;
/// one that is refused with 2 is so whatever the kinds of inputs are, and however late it is; and with all codes but 3 a
/// line is refused however late it is.
pub fn codes_are_tried_in_order()
    ensures four { (setup : Setup) (reading : Reading) (line : List ℕ) (code : ℕ) → meaning setup reading line ≡ Wrong code →
        (1 ≤ code) × (code ≤ 4) }
    ensures form { (setup other : Setup) (reading later : Reading) (line : List ℕ) → reading.is_first ≡ later.is_first →
        meaning setup reading line ≡ Wrong 1 → meaning other later line ≡ Wrong 1 }
    ensures names { (setup other : Setup) (reading later : Reading) (line : List ℕ) → NamesAlike setup other →
        reading.is_first ≡ later.is_first → meaning setup reading line ≡ Wrong 2 → meaning other later line ≡ Wrong 2 }
    ensures late { (setup : Setup) (reading later : Reading) (line : List ℕ) (code : ℕ) → code ≢ 3 →
        reading.is_first ≡ later.is_first → meaning setup reading line ≡ Wrong code → meaning setup later line ≡ Wrong code }
{}

/// The last moment is 2^40 milliseconds after the start: `tick` may lead up to it, and is refused with 3 where it would
/// lead past it.
pub fn moments_have_an_end()
    ensures up_to_it { (setup : Setup) (reading : Reading) (line digits : List ℕ) (n : ℕ) →
        SaysWordAndText line (codes "tick") digits → EndsInNoReturn line → length line ≤ 1024 → number digits ≡ Some n →
        reading.moment + n ≤ 2 ^ 40 → meaning setup reading line ≡ Item (Tick n) }
    ensures past_it { (setup : Setup) (reading : Reading) (line digits : List ℕ) (n : ℕ) →
        SaysWordAndText line (codes "tick") digits → EndsInNoReturn line → length line ≤ 1024 → number digits ≡ Some n →
        2 ^ 40 < reading.moment + n → meaning setup reading line ≡ Wrong 3 }
{}

/// Where a journal comes in pieces and one answer is taken behind each and one behind its end, its entries are those of
/// the bytes that were taken: whichever way they are cut, the entries are the same. So it is of a journal that goes on
/// with a run from a moment on.
pub fn cuts_change_nothing()
    ensures entries { (setup : Setup) (pieces : List (List ℕ)) →
        read_pieces setup begin 0 pieces ≡ entries setup (journal_lines (taken_of pieces)) }
    ensures same { (setup : Setup) (pieces others : List (List ℕ)) → taken_of pieces ≡ taken_of others →
        read_pieces setup begin 0 pieces ≡ read_pieces setup begin 0 others }
    ensures goes_on { (setup : Setup) (now : ℕ) (pieces : List (List ℕ)) →
        read_pieces setup begin_later now pieces ≡ entries_from setup (reading_at begin_later now) (journal_lines (taken_of pieces)) }
{}

/// A run has one `clock` at most: in a journal that goes on with it that line is refused with 1, also as the first.
pub fn runs_have_one_clock()
    ensures { (setup : Setup) (now : ℕ) (line text rest : List ℕ) → SaysWordAndText line (codes "clock") text →
        EndsInNoReturn line → length line ≤ 1024 → ended_lines line ≡ [] →
        answer_of setup (fed begin_later (line ++ 10 ∷ rest)) now ≡ Err (record { line = 1; code = 1 }) }
{}

/// A piece that ends within a line leaves no trace: what is kept is the same as where it comes together with the next.
/// So a byte 13 at its end counts by what follows it: before the byte 10 it is dropped, and before another byte it
/// stands in the line.
pub fn seams_leave_no_trace()
    ensures joined { (kept : Kept) (front back : List ℕ) → ended_lines front ≡ [] →
        fed (fed kept front) back ≡ fed kept (front ++ back) }
    ensures dropped { (setup : Setup) (kept : Kept) (now : ℕ) (bytes rest : List ℕ) → ended_lines bytes ≡ [] →
        EndsInNoReturn (kept.standing ++ bytes) →
        answer_of setup (fed (fed kept (bytes ++ 13 ∷ [])) (10 ∷ rest)) now ≡ answer_of setup (fed kept (bytes ++ 10 ∷ rest)) now }
    ensures stands { (kept : Kept) (bytes rest : List ℕ) (byte : ℕ) → ended_lines bytes ≡ [] → byte ≢ 10 →
        (fed (fed kept (bytes ++ 13 ∷ [])) (byte ∷ 10 ∷ rest)).standing ≡ take 1026 (kept.standing ++ (bytes ++ 13 ∷ byte ∷ [])) }
{}

/// A line of more than 1,024 bytes is refused whole, with its number and code 1, in whatever pieces it comes; and one of
/// at most 1,024 bytes stands whole.
pub fn long_lines_are_refused_whole()
    ensures refused { (setup : Setup) (kept : Kept) (now : ℕ) (pieces : List (List ℕ)) (rest : List ℕ) → HasNoWhole kept →
        kept.standing ≡ [] → ended_lines (concat pieces) ≡ [] → EndsInNoReturn (concat pieces) → 1024 < length (concat pieces) →
        answer_of setup (fed (fed_each kept pieces) (10 ∷ rest)) now ≡ Err (record { line = kept.lines + 1; code = 1 }) }
    ensures whole { (kept : Kept) (pieces : List (List ℕ)) (rest : List ℕ) → HasNoWhole kept →
        kept.standing ≡ [] → ended_lines (concat pieces) ≡ [] → length (concat pieces) ≤ 1024 →
        (fed (fed_each kept pieces) (10 ∷ rest)).standing ≡ concat pieces }
{}

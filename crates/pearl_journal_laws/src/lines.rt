// Laws of how lines say their parts, and of how reading goes on. Each function's contract is one theorem; none does
// anything.

ghost use Rattle.std.specs.Prelude.{◌≡◌, ◌≢◌, ◌⊎◌, ◌+◌, ◌^◌, ◌<◌, ◌≤◌, ℕ, List, [], ◌∷◌, ◌++◌, true, false, length};
ghost use Rattle.std.specs.List.{AllByRecursion};
ghost use Rattle.pearl_rules.specs.declared.entry.Entry.{Entry};
ghost use Rattle.pearl_rules.specs.declared.entry.Entry.TheVariants.{Tick, Pass};
ghost use Rattle.pearl_rules.specs.declared.setup.Setup.{Setup};
ghost use Rattle.pearl_journal.specs.declared.reading.Line.{Line};
ghost use Rattle.pearl_journal.specs.declared.reading.Line.TheVariants.{Blank, Item, Wrong};
ghost use Rattle.pearl_journal.specs.Entries.{All, Bad, after, entries, entries_from};
ghost use Rattle.pearl_journal.specs.Laws.{EndsInNoReturn, IsBare, IsComment, IsGap, IsWord, TakesTwoParts};
ghost use Rattle.pearl_journal.specs.Meaning.{meaning};
ghost use Rattle.pearl_journal.specs.Readings.{Reading, start};
ghost use Rattle.pearl_journal.specs.Words.{is_blank};
ghost use Rattle.pearl_journal_laws.specs.Readings.{behind_lines};
ghost use Rattle.pearl_journal_laws.specs.Says.{IsOther, Says, SaysMore};

/// A line that is a word, or a word, a blank and a text, says these; and one that is a word, a blank, a second word,
/// a blank and a text says these three, where it has at most 1,024 bytes and no byte 13 at its end.
pub fn lines_say_their_parts()
    ensures word { (word : List ℕ) → IsWord word → EndsInNoReturn word → length word ≤ 1024 → Says word word [] }
    ensures text { (word text : List ℕ) → IsWord word → IsBare text → text ≢ [] → EndsInNoReturn text →
        length (word ++ 32 ∷ text) ≤ 1024 → Says (word ++ 32 ∷ text) word text }
    ensures three { (word second text : List ℕ) → IsWord word → second ≢ [] →
        AllByRecursion (λ byte. is_blank byte ≡ false) second → IsBare text → text ≢ [] → EndsInNoReturn text →
        length (word ++ 32 ∷ (second ++ 32 ∷ text)) ≤ 1024 →
        SaysMore (word ++ 32 ∷ (second ++ 32 ∷ text)) word second text }
{}

/// These are all lines: each that has at most 1,024 bytes and no byte 13 at its end has nothing but blanks and tabs, or
/// is a comment, or says a word and a text. And behind each word the text has no blanks in it, or the line says three
/// parts.
pub fn each_line_says_its_parts()
    ensures parts { (line : List ℕ) → EndsInNoReturn line → length line ≤ 1024 →
        IsGap line ⊎ (IsComment line ⊎ ((word : List ℕ) × (text : List ℕ) × Says line word text)) }
    ensures three { (line word text : List ℕ) → Says line word text →
        AllByRecursion (λ byte. is_blank byte ≡ false) text
        ⊎ ((second : List ℕ) × (rest : List ℕ) × SaysMore line word second rest) }
{}

/// Of two bytes 13 at a line's end, or more, one is dropped: such a line is refused with 1, unless it is a comment. A
/// comment with a byte 13 that isn't dropped is skipped, where it has no more than 1,024 bytes with that, and refused
/// with 1 where it has more.
pub fn one_return_is_dropped()
    ensures form { (setup : Setup) (reading : Reading) (line : List ℕ) → (IsComment line → ⊥) →
        meaning setup reading (line ++ 13 ∷ 13 ∷ []) ≡ Wrong 1 }
    ensures comment { (setup : Setup) (reading : Reading) (line : List ℕ) → IsComment line → length line < 1024 →
        meaning setup reading (line ++ 13 ∷ 13 ∷ []) ≡ Blank }
    ensures long { (setup : Setup) (reading : Reading) (line : List ℕ) → 1024 ≤ length line →
        meaning setup reading (line ++ 13 ∷ 13 ∷ []) ≡ Wrong 1 }
{}

/// A journal begins before all lines and all entries, at moment 0. Each line is counted, whatever it means. A line that
/// is skipped changes nothing else; behind an entry no other is the first. An entry `tick` leads on by its milliseconds
/// and `pass` by its times; no other entry changes the moment. No moment is past 2^40: where a line is read at a moment
/// up to that, so is the next one.
pub fn reading_goes_on()
    ensures begins { (start.lines ≡ 0) × (start.is_first ≡ true) × (start.moment ≡ 0) }
    ensures counted { (reading : Reading) (means : Line) → (after reading means).lines ≡ reading.lines + 1 }
    ensures skipped { (reading : Reading) →
        ((after reading Blank).is_first ≡ reading.is_first) × ((after reading Blank).moment ≡ reading.moment) }
    ensures entry { (reading : Reading) (entry : Entry) → (after reading (Item entry)).is_first ≡ false }
    ensures tick { (reading : Reading) (n : ℕ) → (after reading (Item (Tick n))).moment ≡ reading.moment + n }
    ensures pass { (reading : Reading) (d n : ℕ) → (after reading (Item (Pass d n))).moment ≡ reading.moment + d }
    ensures stays { (reading : Reading) (entry : Entry) → ((n : ℕ) → entry ≢ Tick n) →
        ((d n : ℕ) → entry ≢ Pass d n) → (after reading (Item entry)).moment ≡ reading.moment }
    ensures within { (setup : Setup) (reading : Reading) (line : List ℕ) → reading.moment ≤ 2 ^ 40 →
        (after reading (meaning setup reading line)).moment ≤ 2 ^ 40 }
{}

/// The entries of a journal are those of its lines in their order, up to the first line that is refused: of that the
/// number and the code are told, and nothing behind it is read. The number is one more than how many lines came before,
/// those that are skipped among them.
pub fn entries_end_at_a_refusal()
    ensures begins { (setup : Setup) (lines : List (List ℕ)) → entries setup lines ≡ entries_from setup start lines }
    ensures all { (setup : Setup) (reading : Reading) →
        entries_from setup reading [] ≡ record { accepted = []; ending = All } }
    ensures skipped { (setup : Setup) (reading : Reading) (line : List ℕ) (later : List (List ℕ)) →
        meaning setup reading line ≡ Blank →
        entries_from setup reading (line ∷ later) ≡ entries_from setup (after reading Blank) later }
    ensures entry { (setup : Setup) (reading : Reading) (line : List ℕ) (later : List (List ℕ)) (entry : Entry) →
        meaning setup reading line ≡ Item entry → entries_from setup reading (line ∷ later) ≡ record {
          accepted = entry ∷ (entries_from setup (after reading (Item entry)) later).accepted;
          ending = (entries_from setup (after reading (Item entry)) later).ending;
        } }
    ensures refused { (setup : Setup) (reading : Reading) (line : List ℕ) (later : List (List ℕ)) (code : ℕ) →
        meaning setup reading line ≡ Wrong code → entries_from setup reading (line ∷ later)
        ≡ record { accepted = []; ending = Bad (reading.lines + 1) code } }
    ensures counted { (setup : Setup) (lines : List (List ℕ)) →
        (behind_lines setup start lines).lines ≡ length lines }
    ensures number { (setup : Setup) (before : List (List ℕ)) (line : List ℕ) (later : List (List ℕ)) (code : ℕ) →
        (entries setup before).ending ≡ All → meaning setup (behind_lines setup start before) line ≡ Wrong code →
        (entries setup (before ++ line ∷ later)).ending ≡ Bad (length before + 1) code }
{}

/// A line that begins with none of the ten words is refused with 1.
pub fn other_words_begin_no_entry()
    ensures { (setup : Setup) (reading : Reading) (line word text : List ℕ) → Says line word text → IsOther word →
        meaning setup reading line ≡ Wrong 1 }
{}

/// A line of `pass`, `chars`, `line` or `value` with one word behind it, or none, is refused with 1.
pub fn no_part_may_be_missing()
    ensures { (setup : Setup) (reading : Reading) (line word second : List ℕ) → TakesTwoParts word →
        Says line word second → AllByRecursion (λ byte. is_blank byte ≡ false) second →
        meaning setup reading line ≡ Wrong 1 }
{}

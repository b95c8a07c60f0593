// Laws of the lines that tell of what comes in. Each function's contract is one theorem; none does anything.

ghost use Rattle.std.specs.Prelude.{◌≡◌, ◌≢◌, ◌^◌, ◌≤◌, ℕ, List, [], Some, slice_get, codes};
ghost use Rattle.pearl_value.specs.declared.cell.Cell.{Cell};
ghost use Rattle.pearl_value.specs.declared.kind.Kind.{Kind};
ghost use Rattle.pearl_rules.specs.declared.entry.Entry.TheVariants.{Irpt, Chars, Line, Value};
ghost use Rattle.pearl_value.specs.declared.device.Device.TheVariants.{Input};
ghost use Rattle.pearl_rules.specs.declared.setup.Setup.{Setup};
ghost use Rattle.pearl_rules.specs.Entries.{Becomes};
ghost use Rattle.pearl_journal.specs.declared.reading.Line.TheVariants.{Item, Wrong};
ghost use Rattle.pearl_journal.specs.Meaning.{meaning};
ghost use Rattle.pearl_journal.specs.Readings.{Reading};
ghost use Rattle.pearl_journal_laws.specs.Literals.{IsLiteral, Spells, SpellsTooMuch};
ghost use Rattle.pearl_journal_laws.specs.Named.{IsFirst, IsInput, IsInterrupt, IsNowhere, IsReadable};
ghost use Rattle.pearl_journal_laws.specs.Says.{IsNoNumber, IsNumber, IsText, Says, SaysMore};

/// `irpt K` makes the interrupt occur that is declared with the number K. Where none is the line is refused with 2,
/// and with 1 where no number stands behind the word.
pub fn interrupts_are_declared()
    ensures entry { (setup : Setup) (reading : Reading) (line digits : List ℕ) (k d : ℕ) →
        Says line (codes "irpt") digits → reading.moment ≤ 2 ^ 40 → IsNumber digits k →
        IsFirst (IsInterrupt k) setup.devices d → meaning setup reading line ≡ Item (Irpt d) }
    ensures none { (setup : Setup) (reading : Reading) (line digits : List ℕ) (k : ℕ) →
        Says line (codes "irpt") digits → IsNumber digits k → IsNowhere (IsInterrupt k) setup.devices →
        meaning setup reading line ≡ Wrong 2 }
    ensures form { (setup : Setup) (reading : Reading) (line text : List ℕ) → Says line (codes "irpt") text →
        IsNoNumber text → meaning setup reading line ≡ Wrong 1 }
{}

/// `chars K 'TEXT'` lets the text's characters, at least one, come in at the terminal with the number K, where it is
/// of direction IN or INOUT. Where no such terminal is declared the line is refused with 2. It is refused with 1
/// where K is no number, and where no text of one character or more stands between apostrophes.
pub fn characters_come_in()
    ensures entry { (setup : Setup) (reading : Reading) (line digits spelled text : List ℕ) (k d : ℕ) →
        SaysMore line (codes "chars") digits spelled → reading.moment ≤ 2 ^ 40 → IsNumber digits k →
        IsText spelled text → text ≢ [] → IsFirst (IsReadable k) setup.devices d →
        meaning setup reading line ≡ Item (Chars d (record { items = text })) }
    ensures none { (setup : Setup) (reading : Reading) (line digits spelled text : List ℕ) (k : ℕ) →
        SaysMore line (codes "chars") digits spelled → IsNumber digits k → IsText spelled text → text ≢ [] →
        IsNowhere (IsReadable k) setup.devices → meaning setup reading line ≡ Wrong 2 }
    ensures form { (setup : Setup) (reading : Reading) (line digits spelled : List ℕ) →
        SaysMore line (codes "chars") digits spelled → ((text : List ℕ) → IsText spelled text → text ≡ []) →
        meaning setup reading line ≡ Wrong 1 }
    ensures number { (setup : Setup) (reading : Reading) (line text spelled : List ℕ) →
        SaysMore line (codes "chars") text spelled → IsNoNumber text → meaning setup reading line ≡ Wrong 1 }
{}

/// `line K 'TEXT'` does the same with a line's end behind the text, which may be empty here.
pub fn lines_come_in()
    ensures entry { (setup : Setup) (reading : Reading) (line digits spelled text : List ℕ) (k d : ℕ) →
        SaysMore line (codes "line") digits spelled → reading.moment ≤ 2 ^ 40 → IsNumber digits k →
        IsText spelled text → IsFirst (IsReadable k) setup.devices d →
        meaning setup reading line ≡ Item (Line d (record { items = text })) }
    ensures none { (setup : Setup) (reading : Reading) (line digits spelled text : List ℕ) (k : ℕ) →
        SaysMore line (codes "line") digits spelled → IsNumber digits k → IsText spelled text →
        IsNowhere (IsReadable k) setup.devices → meaning setup reading line ≡ Wrong 2 }
    ensures form { (setup : Setup) (reading : Reading) (line digits spelled : List ℕ) →
        SaysMore line (codes "line") digits spelled → ((text : List ℕ) → IsText spelled text → ⊥) →
        meaning setup reading line ≡ Wrong 1 }
    ensures number { (setup : Setup) (reading : Reading) (line text spelled : List ℕ) →
        SaysMore line (codes "line") text spelled → IsNoNumber text → meaning setup reading line ≡ Wrong 1 }
{}

/// `value K V` lets the value that the literal spells come in at the input with the number K, where it becomes one of
/// the kind of the input's values: its kind suits, and it fits. Where it doesn't the line is refused with 4, as it is
/// where the literal is a longer time than any DURATION. Where no such input is declared it is refused with 2, and
/// with 1 where K is no number, or V no literal.
pub fn values_come_in()
    ensures entry { (setup : Setup) (reading : Reading) (line digits spelled : List ℕ) (k d : ℕ)
        (kind : Kind) (x : Cell) → SaysMore line (codes "value") digits spelled → reading.moment ≤ 2 ^ 40 →
        IsNumber digits k → Spells spelled x → IsFirst (IsInput k) setup.devices d →
        slice_get setup.devices d ≡ Some (Input k kind) → Becomes kind x →
        meaning setup reading line ≡ Item (Value d x) }
    ensures unfit { (setup : Setup) (reading : Reading) (line digits spelled : List ℕ) (k d : ℕ)
        (kind : Kind) (x : Cell) → SaysMore line (codes "value") digits spelled → IsNumber digits k → Spells spelled x →
        IsFirst (IsInput k) setup.devices d → slice_get setup.devices d ≡ Some (Input k kind) → (Becomes kind x → ⊥) →
        meaning setup reading line ≡ Wrong 4 }
    ensures long { (setup : Setup) (reading : Reading) (line digits spelled : List ℕ) (k d : ℕ) →
        SaysMore line (codes "value") digits spelled → IsNumber digits k → SpellsTooMuch spelled →
        IsFirst (IsInput k) setup.devices d → meaning setup reading line ≡ Wrong 4 }
    ensures none { (setup : Setup) (reading : Reading) (line digits spelled : List ℕ) (k : ℕ) →
        SaysMore line (codes "value") digits spelled → IsNumber digits k → IsLiteral spelled →
        IsNowhere (IsInput k) setup.devices → meaning setup reading line ≡ Wrong 2 }
    ensures form { (setup : Setup) (reading : Reading) (line digits spelled : List ℕ) →
        SaysMore line (codes "value") digits spelled → (IsLiteral spelled → ⊥) →
        meaning setup reading line ≡ Wrong 1 }
    ensures number { (setup : Setup) (reading : Reading) (line text spelled : List ℕ) →
        SaysMore line (codes "value") text spelled → IsNoNumber text → meaning setup reading line ≡ Wrong 1 }
{}

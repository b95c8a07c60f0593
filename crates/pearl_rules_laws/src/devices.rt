// Laws of devices: for what a TAKE and a GET wait, what a SEND tells, how values come in, and what a GET removes.

ghost use Rattle.std.specs.Prelude.{◌≡◌, ◌≢◌, ◌↔◌, ℕ, ◌<◌, ◌≤◌, List, [], ◌∷◌, ◌++◌, Some, Ok, Err, IsTrue, length, drop};
ghost use Rattle.arrayvec.specs.ArrayVec.{ArrayVec};
ghost use Rattle.pearl_value.specs.declared.cell.Cell.{Cell};
ghost use Rattle.pearl_value.specs.declared.kind.Kind.{Kind};
ghost use Rattle.pearl_value.specs.declared.trap.Trap as traps;
ghost use Rattle.pearl_value.specs.declared.trap.Trap.TheVariants.{Format};
ghost use Rattle.pearl_value.specs.Conversions.{converted};
ghost use Rattle.pearl_rules.specs.declared.action.Action.TheVariants as action;
ghost use Rattle.pearl_rules.specs.declared.action.Answer.TheVariants.{Nothing, Many};
ghost use Rattle.pearl_rules.specs.declared.entry.Entry.TheVariants.{Value};
ghost use Rattle.pearl_rules.specs.declared.event.Event.TheVariants as event;
ghost use Rattle.pearl_rules.specs.declared.row.TaskRow.{TaskRow};
ghost use Rattle.pearl_rules.specs.Core.{Core, Bytes, Values, Happened, row_of};
ghost use Rattle.pearl_rules.specs.Devices.{channel_of, items_of, bytes_at, with_value, arrived};
ghost use Rattle.pearl_rules.specs.Effect.{Hears, answering, effect};
ghost use Rattle.pearl_rules.specs.Pick.{guard};
ghost use Rattle.pearl_rules.specs.Scan.{Short, Bad, Got, scan};
ghost use Rattle.pearl_rules_laws.specs.Plans.{ChangesChannel, ValueWaits, BreaksOff};

/// A TAKE can be done exactly where a value waits at its input.
pub fn takes_wait_for_a_value()
    ensures { (core : Core) (device : ℕ) → IsTrue (guard core (action.Take device)) ↔ ValueWaits core device }
{}

/// A value that is sent is told once, at this moment, after all that was told, and nothing else changes: no task starts or
/// ends, and none has another plan.
pub fn sends_tell_their_value()
    ensures { (core : Core) (own device : ℕ) (value : Cell) → effect core own (action.Send device value) ≡ answering
        (record core { last = Some own; told = core.told ++ (core.moment, Happened (event.Send device value)) ∷ [] })
        Nothing }
{}

/// A value that comes in at an input is converted to its kind and waits behind all others, where fewer than 256 wait; else
/// it isn't kept, and that is told. One that has no value in the kind changes nothing.
pub fn values_wait_in_order()
    ensures room { (core : Core) (device : ℕ) (kind : Kind) (pending : List Cell) (x y : Cell) →
        channel_of core device ≡ Some (Values kind pending) → length pending < 256 → converted x kind ≡ Ok y →
        ChangesChannel core (with_value core device x) device (Values kind (pending ++ y ∷ [])) }
    ensures full { (core : Core) (device : ℕ) (kind : Kind) (pending : List Cell) (x : Cell) →
        channel_of core device ≡ Some (Values kind pending) → 256 ≤ length pending →
        with_value core device x ≡ record core { told = core.told ++ (core.moment, Happened (event.Lost device)) ∷ [] } }
    ensures outside { (core : Core) (device : ℕ) (kind : Kind) (pending : List Cell) (x : Cell) (trap : traps.Trap) →
        channel_of core device ≡ Some (Values kind pending) → length pending < 256 → converted x kind ≡ Err trap →
        with_value core device x ≡ core }
    ensures entry { (core : Core) (device : ℕ) (x : Cell) → arrived core (Value device x) ≡ with_value core device x }
{}

/// A GET can be done exactly where the bytes that wait are enough for what its format reads.
pub fn gets_wait_for_enough()
    ensures { (core : Core) (device format : ℕ) (kinds : ArrayVec Kind) → IsTrue (guard core (action.Get device format kinds))
        ↔ (scan (items_of core format) kinds.items (bytes_at core device) ≢ Short) }
{}

/// A GET is answered by the values that it reads, and exactly the bytes of these are gone. Where a field is bad exactly the
/// bytes up to its end are gone, and the task is broken off.
pub fn gets_remove_what_they_use()
    ensures reads { (core : Core) (own device format : ℕ) (kinds : ArrayVec Kind) (pending : List ℕ) (used : ℕ) (values : List Cell) →
        channel_of core device ≡ Some (Bytes pending) → scan (items_of core format) kinds.items pending ≡ Got used values →
        ((effect core own (action.Get device format kinds)).reply ≡ Hears (Many (record { items = values })))
        × ChangesChannel (record core { last = Some own }) (effect core own (action.Get device format kinds)).core device
        (Bytes (drop used pending)) }
    ensures bad { (core : Core) (own device format : ℕ) (kinds : ArrayVec Kind) (pending : List ℕ) (used : ℕ) (row : TaskRow) →
        channel_of core device ≡ Some (Bytes pending) → row_of core own ≡ Some row →
        scan (items_of core format) kinds.items pending ≡ Bad used →
        BreaksOff core own device (Bytes (drop used pending)) row Format (effect core own (action.Get device format kinds)) }
{}

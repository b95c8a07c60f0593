// What a machine does whose own lines nobody reads.

ghost use Rattle.std.specs.Prelude.{◌≡◌, ℕ, List, [], ◌∷◌, None};
ghost use Rattle.pearl_instructions.specs.Setups.{setup_of};
ghost use Rattle.pearl_machine.specs.Seen.{Handles, retold};
ghost use Rattle.pearl_rules.specs.Core.{Report};
ghost use Rattle.pearl_rules.specs.Entries.{EntryFits, moment_after};
ghost use Rattle.pearl_rules.specs.Runs.{unsettled};

use pearl_io::{VoidSink, WriteFault};
use pearl_machine::Machine;
use pearl_rules::entry::Entry;

/// What is told and not written is dropped.
pub(crate) fn begin(machine: &mut Machine)
    ensures { machine.new ≡ retold machine.old [] }
{
    let mut void = VoidSink;
    let begun = machine.begin(&mut void);
    let VoidSink = void;
    match begun {
        Ok(()) => {}
        Err(WriteFault) => unreachable!(),
    }
}

/// All marks of an entry are made.
pub(crate) fn enter(machine: &mut Machine, entry: &Entry)
    requires taken { machine.old.state.core.told ≡ [] }
    requires fits { EntryFits (setup_of machine.old.object) machine.old.state.core.moment entry.now }
    ensures object { machine.new.object ≡ machine.old.object }
    ensures handles { (told : List (ℕ × Report)) × Handles machine.old (entry.now ∷ []) [] machine.new told }
    ensures settled { unsettled machine.new.state ≡ None }
    ensures taken { machine.new.state.core.told ≡ [] }
    ensures moment { machine.new.state.core.moment ≡ moment_after machine.old.state.core.moment entry.now }
{
    let mut void = VoidSink;
    let made = machine.entry(entry, &mut void);
    let VoidSink = void;
    match made {
        Ok(()) => {}
        Err(WriteFault) => unreachable!(),
    }
}

// Machines that go on from a saved state: the plant's, and what they are saved as.

ghost use Rattle.std.specs.Prelude.{◌≡◌, [], IfOk, IfSome, OnOk};

use crate::snapshots::{EMPTY, PLANT};
use pearl_io::{MemorySink, WriteFault};
use pearl_machine::Machine;
use pearl_rules::entry::Entry;
use pearl_snap::restore::{restore, save};
use std::alloc::{AllocError as NoMemory, Global};

// The machine that goes on from these bytes, which are few.
fn machine_of(alloc: Global, bytes: &[u8]) -> Result<Option<Machine>, NoMemory>
    ensures { IfOk result (λ machine. IfSome machine (λ machine. machine.state.core.told ≡ [])) }
{
    if bytes.len() > 1000 {
        return Ok(None);
    }
    match restore(alloc, bytes) {
        Ok((object, saved)) => Ok(Some(Machine::restored(alloc, object, saved)?)),
        Err(_) => Ok(None),
    }
}

// The bytes of what is saved of a machine.
fn bytes_of(alloc: Global, machine: &mut Machine) -> Result<Vec<u8>, NoMemory>
    requires { machine.old.state.core.told ≡ [] }
{
    let saved = machine.saved(alloc)?;
    save(alloc, machine.object(), &saved)
}

// Whether the machine that goes on from a snapshot is saved as the same.
fn is_saved_again(alloc: Global, bytes: &[u8]) -> Result<bool, NoMemory> {
    let Some(mut machine) = machine_of(alloc, bytes)? else {
        return Ok(false);
    };
    Ok(bytes_of(alloc, &mut machine)?.as_slice() == bytes)
}

// The states are told, and some milliseconds pass behind some picks.
fn go_on(machine: &mut Machine, sink: &mut MemorySink) -> Result<(), WriteFault>
    requires { machine.old.state.core.told ≡ [] }
    ensures { OnOk result (machine.new.state.core.told ≡ []) }
{
    machine.entry(&Entry::State, sink)?;
    machine.entry(&Entry::Run(10), sink)?;
    if machine.now() < 100_000 {
        machine.entry(&Entry::Tick(3000), sink)?;
    }
    Ok(())
}

// The machine itself, or the one that goes on from what is saved of it.
fn next(alloc: Global, machine: Machine, is_interrupted: bool) -> Result<Option<Machine>, NoMemory>
    requires { machine.state.core.told ≡ [] }
    ensures { IfOk result (λ machine. IfSome machine (λ machine. machine.state.core.told ≡ [])) }
{
    if !is_interrupted {
        return Ok(Some(machine));
    }
    let mut machine = machine;
    let bytes = bytes_of(alloc, &mut machine)?;
    machine_of(alloc, bytes.as_slice())
}

fn run(alloc: Global, sink: &mut MemorySink, is_interrupted: bool) -> Result<bool, NoMemory> {
    let Some(mut first) = machine_of(alloc, &PLANT)? else {
        return Ok(false);
    };
    if go_on(&mut first, sink).is_err() {
        return Ok(false);
    }
    let Some(mut second) = next(alloc, first, is_interrupted)? else {
        return Ok(false);
    };
    if go_on(&mut second, sink).is_err() {
        return Ok(false);
    }
    let Some(mut third) = next(alloc, second, is_interrupted)? else {
        return Ok(false);
    };
    Ok(go_on(&mut third, sink).is_ok() && third.close(sink).is_ok())
}

// What a run writes that goes on from the plant's snapshot.
const WRITTEN: &str = "5100 state a blocked 3
5100 state b dormant
5100 state c suspended 5
7000 start b 9
8100 state a blocked 3
8100 state b running 9
8100 state c blocked 5
8100 end b
10000 kept c 3
11100 state a blocked 3
11100 state b dormant
11100 state c blocked 5
14100 state a blocked 3
14100 state b dormant
14100 state c blocked 5
14100 close
";

#[test]
fn what_goes_on_is_saved_as_it_was(rt: HostRuntime) -> Result<(), NoMemory> {
    assert!(rt; is_saved_again(rt.alloc(), &EMPTY)?);
    assert!(rt; is_saved_again(rt.alloc(), &PLANT)?);
    Ok(())
}

fn writes_what_follows(alloc: Global, is_interrupted: bool) -> Result<bool, NoMemory> {
    let mut sink = MemorySink::new(alloc, Vec::new(alloc), 4096);
    Ok(run(alloc, &mut sink, is_interrupted)? && sink.bytes() == WRITTEN.as_bytes())
}

#[test]
fn a_saved_run_writes_what_follows(rt: HostRuntime) -> Result<(), NoMemory> {
    for is_interrupted in [false, true] {
        assert!(rt;
            writes_what_follows(rt.alloc(), is_interrupted)?,
            "{is_interrupted}"
        );
    }
    Ok(())
}

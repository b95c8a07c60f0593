// Going on from bytes: from an object and a state of it to their bytes, and back.

ghost use Rattle.std.specs.Prelude.{◌≡◌, ◌<◌, ◌^◌, length, IfErr, IfOk};
ghost use Rattle.pearl_instructions.specs.declared.object.Parts.{Parts as Object};
ghost use Rattle.pearl_saved.specs.declared.saved.Saved.{Saved as State};
ghost use Rattle.pearl_saved.specs.Rules.{IsMachineState};
ghost use Rattle.pearl_snap.specs.Snapshots.{snapshot_bytes};
ghost use Rattle.pearl_snap.specs.States.{saved};
ghost use Rattle.pearl_records.specs.States.{AllEnd};
ghost use Rattle.pearl_snap.specs.Restoring.{cause_of, IsSnapshot, IsRestored, IsCause, Restores};

use crate::fault::{ReadFail, SnapFault};
use crate::laws::states_hold_values;
use crate::snapshot::{Snapshot, read, write};
use crate::state_rule::{StateRule, least_broken};
use pearl_instructions::valid::Valid;
use pearl_saved::saved::Saved;
use pearl_verify::verify::{VerifyFault, verify};
use std::alloc::{AllocError as NoMemory, Global};

// What a state that was read of a valid object is restored to.
fn judged_state(alloc: Global, object: Valid, state: Saved) -> Result<(Valid, Saved), SnapFault>
    requires { saved.fits state }
    ensures { Restores object state result }
{
    states_hold_values();
    match least_broken(alloc, &object, &state) {
        Ok(None) => Ok((object, state)),
        Ok(Some(rule)) => Err(SnapFault::BadState(rule)),
        Err(_) => Err(SnapFault::NoMemory),
    }
}

// What a snapshot that was read is restored to.
fn judged(alloc: Global, snapshot: Snapshot) -> Result<(Valid, Saved), SnapFault>
    requires { saved.fits snapshot.saved }
    ensures { Restores snapshot.object snapshot.saved result }
{
    match verify(alloc, snapshot.object) {
        Ok(object) => judged_state(alloc, object, snapshot.saved),
        Err(VerifyFault::Unsound { .. }) => Err(SnapFault::BadState(StateRule::Validity)),
        Err(VerifyFault::NoMemory) => Err(SnapFault::NoMemory),
    }
}

// Why bytes that can't be read aren't restored.
fn cause(fail: ReadFail) -> SnapFault
    ensures { result ≡ cause_of fail }
{
    match fail {
        ReadFail::BadBytes(place) => SnapFault::BadBytes(place),
        ReadFail::NoMemory => SnapFault::NoMemory,
    }
}

/// The object and the state of a run of it that have these bytes, of which there are fewer than 2^32.
///
/// It takes what `verify` and `least_broken` take, and memory that grows with the bytes.
pub fn restore(alloc: Global, bytes: &[u8]) -> Result<(Valid, Saved), SnapFault>
    requires { length bytes.now < 2 ^ 32 }
    // What is restored has these bytes, and a run can go on from it.
    ensures ok { IfOk result (IsRestored bytes.now) }
    // No series of it lasts up to 2^64 - 1.
    ensures ends { IfOk result (λ p. AllEnd p.1.core) }
    // Else no snapshot has them, or its state breaks a rule.
    ensures err { IfErr result (IsCause bytes.now) }
    // From the bytes of an object and a state of it come both again.
    ensures only { (o : Object) (s : State) → IsSnapshot bytes.now o s → Restores o s result }
{
    match read(alloc, bytes) {
        Ok(snapshot) => {
            let _parts = snapshot.object.parts();
            judged(alloc, snapshot)
        }
        Err(fail) => Err(cause(fail)),
    }
}

// The bytes of an object and a state of it are those of a snapshot.
fn are_a_snapshot(bytes: &[u8], object: &Valid, saved: &Saved)
    requires same { bytes.now ≡ snapshot_bytes object.now saved.now }
    requires state { IsMachineState object.now saved.now }
    ensures { AllEnd saved.now.core → IsSnapshot bytes.now object.now saved.now }
{
    let _parts = object.object();
}

/// The bytes of an object and a state of it. A series whose last moment is 2^64 - 1 has no spelling of its own, and is written
/// as one that goes on for ever.
pub fn save(alloc: Global, object: &Valid, saved: &Saved) -> Result<Vec<u8>, NoMemory>
    requires { IsMachineState object.now saved.now }
    ensures bytes { IfOk result (λ bytes. bytes.items ≡ snapshot_bytes object.now saved.now) }
    // They are those of a snapshot, and so are restored, but for such a series.
    ensures snapshot { IfOk result (λ bytes. AllEnd saved.now.core → IsSnapshot bytes.items object.now saved.now) }
{
    let bytes = write(alloc, object.object(), saved)?;
    are_a_snapshot(bytes.as_slice(), object, saved);
    Ok(bytes)
}

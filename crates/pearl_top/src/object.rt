// From the bytes of an object's file to the object, to a machine with its code, and to its listing.

ghost use Rattle.std.specs.Prelude.{◌≡◌, ◌≤◌, length, map, string_bytes, IfOk, IfErr};
ghost use Rattle.pearl_top.specs.Failures.{IsDue};
ghost use Rattle.pearl_top.specs.ObjectDue.{IsCodeOf, IsFileOf, IsListed, IsNoObject, ListDue, ObjectDue};
ghost use Rattle.pearl_top.specs.Reading.{AnObject, DueAt};
ghost use Rattle.pearl_top.specs.Followers.{IsWatching};
ghost use Rattle.pearl_top.specs.Ready.{IsReady};
ghost use Rattle.pearl_top.specs.WatchDue.{CanBeWatched, NamesOrObjectDue};

use crate::failure::Failure;
use crate::laws::valid_objects_run;
use crate::limits::OBJECT_LIMIT;
use crate::load::load;
use pearl_instructions::object::Object;
use pearl_machine::Machine;
use pearl_object::listing::list;
use pearl_object::object::read;
use pearl_verify::verify::verify;
use pearl_watch::monitor::Monitor;
use std::alloc::Global;

/// A machine with the code of the object that a file has, which is validated.
pub fn machine_in(alloc: Global, file: &[u8]) -> Result<Machine, Failure>
    requires { length file.now ≤ OBJECT_LIMIT }
    ensures code { IfOk result (λ machine. IsCodeOf file.now machine.object) }
    ensures ready { IfOk result IsReady }
    ensures err { IfErr result (IsDue (ObjectDue file.now ⊥)) }
{
    let object = object_in(alloc, file)?;
    let machine = load(alloc, object)?;
    Ok(machine)
}

/// A monitor of the named leaves of the object that a file has, which is validated before the names are asked.
pub fn monitor_in(alloc: Global, file: &[u8], names: &[String]) -> Result<Monitor, Failure>
    requires { length file.now ≤ OBJECT_LIMIT }
    ensures object { IfOk result (λ monitor. CanBeWatched file.now (map string_bytes names.now) monitor.machine.object) }
    ensures names { IfOk result (λ monitor. monitor.watch.names ≡ map string_bytes names.now) }
    ensures ready { IfOk result IsWatching }
    ensures err { IfErr result (IsDue (NamesOrObjectDue file.now (map string_bytes names.now))) }
{
    let object = object_in(alloc, file)?;
    let code = verify(alloc, object)?;
    valid_objects_run();
    let monitor = Monitor::load(alloc, code, names)?;
    Ok(monitor)
}

/// The listing of the object that a file has, which is not validated.
pub fn listing_in(alloc: Global, file: &[u8]) -> Result<Vec<u8>, Failure>
    requires { length file.now ≤ OBJECT_LIMIT }
    ensures ok { IfOk result (λ text. IsListed file.now text.items) }
    ensures err { IfErr result (IsDue (ListDue file.now ⊥)) }
{
    let object = object_in(alloc, file)?;
    let text = list(alloc, &object)?;
    Ok(text)
}

// The object that a file has.
fn object_in(alloc: Global, file: &[u8]) -> Result<Object, Failure>
    requires { length file.now ≤ OBJECT_LIMIT }
    ensures ok { IfOk result (IsFileOf file.now) }
    ensures err { IfErr result (IsDue (DueAt AnObject file.now (λ bytes. ⊥) (IsNoObject file.now) ⊥)) }
{
    let object = read(alloc, file)?;
    let _parts = object.parts();
    Ok(object)
}

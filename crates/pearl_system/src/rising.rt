// Lists of devices in the order of their sorts and numbers, with each sort and number once.

ghost use Rattle.std.specs.Prelude.{◌≡◌, ◌⊎◌, ◌<◌, ◌≤◌, true, false, length, take, drop, All, Any, OnOk, IfNone, IfSome};
ghost use Rattle.pearl_system.specs.Devices as spec;
ghost use Rattle.pearl_system.specs.Devices.{device_key};
ghost use Rattle.pearl_system.specs.Rising.{IsLess, IsRising, Joins};

use crate::device::{Role, SpecifiedDevice};
use std::alloc::AllocError as NoMemory;

fn rank(role: Role) -> u32
    ensures { result ≡ spec.rank role }
{
    match role {
        Role::Interrupt => 0,
        Role::Terminal { .. } => 1,
        Role::Input { .. } => 2,
        Role::Output { .. } => 3,
    }
}

fn key_of(device: &SpecifiedDevice) -> (u32, u8)
    ensures { result ≡ device_key device.now }
{
    (rank(device.role), device.number)
}

fn is_less(a: (u32, u8), b: (u32, u8)) -> bool
    ensures yes { result ≡ true → IsLess a b }
    ensures no { result ≡ false → IsLess b a ⊎ (a ≡ b) }
{
    if a.0 == b.0 { a.1 < b.1 } else { a.0 < b.0 }
}

/// Where a key is to stand, or None where it stands already.
fn spot_of(items: &[SpecifiedDevice], key: (u32, u8)) -> Option<usize>
    requires { IsRising device_key items.now }
    ensures within { IfSome result (λ at. at ≤ length items.now) }
    ensures above { IfSome result (λ at. All (λ x. IsLess key (device_key x)) (drop at items.now)) }
    ensures below { IfSome result (λ at. All (λ x. IsLess (device_key x) key) (take at items.now)) }
    ensures taken { IfNone result (Any (λ x. device_key x ≡ key) items.now) }
{
    let mut low = 0;
    let mut high = items.len();
    while low < high {
        let middle = low + (high - low) / 2;
        let standing = key_of(&items[middle]);
        if is_less(standing, key) {
            low = middle + 1;
        } else if is_less(key, standing) {
            high = middle;
        } else {
            return None;
        }
    }
    Some(low)
}

/// Adds a device at its place, unless its sort and number stand already.
pub(crate) fn add(items: &mut Vec<SpecifiedDevice>, device: SpecifiedDevice) -> Result<(), NoMemory>
    requires { IsRising device_key items.old.items }
    ensures rising { OnOk result (IsRising device_key items.new.items) }
    ensures joins { OnOk result (Joins device_key device items.old.items items.new.items) }
{
    match spot_of(items.as_slice(), key_of(&device)) {
        Some(at) => {
            items.insert(at, device)?;
            Ok(())
        }
        None => Ok(()),
    }
}

// At which device each task's offer waits. Four words of bits for each device, one bit for each task.

ghost use Rattle.std.specs.Prelude.{◌≡◌, ℕ, ◌+◌, ◌*◌, ◌<◌, ◌^◌, List, Option, IfSome, MatchOption, length};
ghost use Rattle.pearl_rules.specs.declared.action.Action.{Action};
ghost use Rattle.pearl_exchange.specs.Offers.{action_of};
ghost use Rattle.pearl_kernel.specs.Listening.{awaited, device_of, AreListening, IsNextListener, Marks, NoneListens};

use crate::bid::Bid;
use pearl_bits::words::{first_from, lower, raise};
use pearl_exchange::offer::{Offer, What};

/// The device at which an action waits.
pub fn device_of(offer: &Offer) -> Option<u32>
    ensures { result ≡ device_of (action_of offer.now) }
{
    match offer.what {
        What::Get { device, .. } | What::Take(device) => Some(device),
        _ => None,
    }
}

/// The device at which what lies in a task's place waits.
pub fn awaited(bid: &Bid) -> Option<u32>
    ensures { result ≡ awaited bid.now }
{
    match bid.offer() {
        None => None,
        Some(offer) => device_of(offer),
    }
}

/// A task waits at this device from now on, if there is one.
pub fn listen(rows: &mut Vec<u64>, task: usize, device: Option<u32>)
    requires task { task < 256 }
    requires there { IfSome device (λ d. d * 4 + 3 < length rows.old.items) }
    ensures { Marks rows.old.items rows.new.items task 1 device }
{
    match device {
        None => {}
        Some(device) => raise(rows, device as usize * 256 + task),
    }
}

/// A task waits at this device no more, if there is one.
pub fn leave(rows: &mut Vec<u64>, task: usize, device: Option<u32>)
    requires task { task < 256 }
    requires there { IfSome device (λ d. d * 4 + 3 < length rows.old.items) }
    ensures { Marks rows.old.items rows.new.items task 0 device }
{
    match device {
        None => {}
        Some(device) => lower(rows, device as usize * 256 + task),
    }
}

/// The first task that waits at a device among those behind `after`, or among all.
pub fn next_at(rows: &[u64], device: u32, after: Option<usize>) -> Option<usize>
    requires { length rows.now < 2 ^ 32 }
    ensures { (devices : ℕ) (offers : List (Option Action)) → AreListening devices offers rows.now →
        MatchOption result (NoneListens offers device after) (IsNextListener offers device after) }
{
    let from = match after {
        None => 0,
        Some(task) => task.saturating_add(1),
    };
    let device = device as usize;
    if device >= rows.len() / 4 || from >= 256 {
        return None;
    }
    match first_from(rows, device * 256 + from, device * 4 + 4) {
        None => None,
        Some(bit) => Some(bit - device * 256),
    }
}

// What of all that decides whether an offer can be done may have changed, and which tasks that touches.

ghost use Rattle.std.specs.Prelude.{◌≡◌};
ghost use Rattle.pearl_exchange.specs.Offers.{action_of};
ghost use Rattle.pearl_kernel.specs.Changes.{looks_at, is_counts, is_device};
ghost use Rattle.pearl_kernel.specs.Touched.{touched_if};

use pearl_exchange::offer::{Offer, What};

/// Of the counts, and of what waits at terminals and inputs, what may have changed.
#[derive(Clone, Copy)]
pub enum Changed {
    Nothing,
    Counts,
    // What waits at this device.
    Device(u32),
}

/// Which tasks besides its own an action touches: they may be able to act where they were not, or the other way round.
#[derive(Clone, Copy)]
pub enum Touched {
    Own,
    Other(u32),
    // Those whose requests name this semaphore. Of what offers wait for no more than its count changed.
    One(u16),
    // Those whose requests name one of the semaphores that the action names. Of what offers wait for no more than the
    // counts of these changed.
    Named,
    // Those whose offers wait at a device, where what waits there changed; else all tasks. Of what offers wait for at most
    // this changed.
    After(Changed),
}

/// The tasks that an action touches besides its own: none where neither their rows nor what offers wait for changed, and
/// else those that this change touches.
pub fn touched_if(changed: Option<Changed>) -> Touched
    ensures { result ≡ touched_if changed }
{
    match changed {
        None => Touched::Own,
        Some(changed) => Touched::After(changed),
    }
}

/// Whether an action waits for what changed.
pub fn looks_at(changed: Changed, offer: &Offer) -> bool
    ensures { result ≡ looks_at changed (action_of offer.now) }
{
    match offer.what {
        What::Request => is_counts(changed),
        What::Get { device, .. } | What::Take(device) => is_device(changed, device),
        _ => false,
    }
}

fn is_counts(changed: Changed) -> bool
    ensures { result ≡ is_counts changed }
{
    match changed {
        Changed::Counts => true,
        _ => false,
    }
}

fn is_device(changed: Changed, device: u32) -> bool
    ensures { result ≡ is_device changed device }
{
    match changed {
        Changed::Device(other) => other == device,
        _ => false,
    }
}

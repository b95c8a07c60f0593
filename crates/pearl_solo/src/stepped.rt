// What an instruction did.

ghost use Rattle.std.specs.Prelude.{◌≡◌};
ghost use Rattle.pearl_exchange.specs.Offers.{action_of};
ghost use Rattle.pearl_silent.specs.Steps.{told};
ghost use Rattle.pearl_solo.specs.Gives.{gave};

use pearl_exchange::offer::{Offer, What};
use pearl_silent::stepped::Did;

/// What an instruction did: it left the stack with which its task goes on, or it offers an action, which lies beside
/// it, and nothing changed.
#[derive(Clone, Copy)]
pub enum Gave {
    Silent,
    Offered,
}

// What that is of what an instruction can do.
pub(crate) fn tell(did: Did, into: &mut Offer) -> Gave
    ensures { gave result (action_of into.new) ≡ told did }
{
    match did {
        Did::Silent => Gave::Silent,
        Did::Trapped(trap) => {
            into.what = What::Trap(trap);
            Gave::Offered
        }
    }
}

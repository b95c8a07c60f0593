// A task's place for the action that it offers.

ghost use Rattle.std.specs.Prelude.{◌≡◌, Some, None, true, false, IfOk, MatchOption};
ghost use Rattle.pearl_exchange.specs.Offers.{action_of};

use pearl_exchange::offer::Offer;
use std::alloc::{AllocError, Global};
use std::marker::Model;
use std::mem;

/// A task's place for the action that it offers. It is made at the start, and an offer is put there by a swap of places.
#[derive(Drop)]
pub struct Bid {
    stands: bool,
    offer: Box<Offer>,
}

impl Model for Bid {
    ghost use Rattle.std.specs.Prelude.{Option};
    ghost use Rattle.pearl_rules.specs.declared.action.Action.{Action};
    ghost use Rattle.pearl_kernel.specs.Bids.{offer_if};

    ghost Value = { Option Action };

    ghost view = { λ b. offer_if b.stands b.offer.value };
}

impl Bid {
    /// A place at which nothing is offered.
    pub fn new(alloc: Global) -> Result<Bid, AllocError>
        ensures { IfOk result (λ bid. bid ≡ None) }
    {
        let offer = Box::new(alloc, Offer::new())?;
        Ok(Bid {
            stands: false,
            offer,
        })
    }

    /// The action that is offered.
    pub fn offer(&self) -> Option<&Offer>
        ensures { MatchOption result (self.now ≡ None) (λ offer. self.now ≡ Some (action_of offer.now)) }
    {
        if self.stands { Some(&self.offer) } else { None }
    }

    /// This action is offered. The other place has what lay in this one.
    pub fn put(&mut self, offer: &mut Box<Offer>)
        ensures { self.new ≡ Some (action_of offer.old.value) }
    {
        mem::swap(&mut self.offer, offer);
        self.stands = true;
    }

    /// Nothing is offered any more.
    pub fn clear(&mut self)
        ensures { self.new ≡ None }
    {
        self.stands = false;
    }

    /// Nothing is offered any more, and what was is in the other place. The answer tells whether it was anything.
    pub fn take(&mut self, into: &mut Box<Offer>) -> bool
        ensures taken { result ≡ true → self.old ≡ Some (action_of into.new.value) }
        ensures none { result ≡ false → self.old ≡ None }
        ensures rest { self.new ≡ None }
    {
        mem::swap(&mut self.offer, into);
        mem::replace(&mut self.stands, false)
    }
}

// A task or procedure with the procedures that it calls.

ghost use Rattle.std.specs.Prelude.{◌≡◌, ◌<◌, Some, length, slice_get};
ghost use Rattle.pearl_calls.specs.Callers.{callees};

use std::marker::Model;

/// What a task or procedure weighs itself, and which procedures it calls.
///
/// Procedures have numbers in the order of the text, from 0. A call of a number that names none counts for nothing.
#[derive(Drop)]
pub struct Caller {
    own: u32,
    calls: Vec<u32>,
}

impl Model for Caller {
    ghost use Rattle.pearl_calls.specs.Callers as called;

    ghost Value = { called.Caller };

    ghost view = { λ s. record { own = s.own; calls = s.calls.items } };
}

impl Caller {
    pub fn new(own: u32, calls: Vec<u32>) -> Self
        ensures { result ≡ record { own = own; calls = calls.items } }
    {
        Caller { own, calls }
    }

    /// What it weighs itself.
    pub fn own(&self) -> u32
        ensures { result ≡ self.now.own }
    {
        self.own
    }

    /// The procedures that it calls, in the order of its text.
    pub fn calls(&self) -> &[u32]
        ensures { result.now ≡ self.now.calls }
    {
        self.calls.as_slice()
    }
}

/// The procedures that one of these calls.
pub fn callees(callers: &[Caller], number: usize) -> &[u32]
    ensures { result.now ≡ callees callers.now number }
{
    match callers.get(number) {
        Some(caller) => caller.calls(),
        None => &[],
    }
}

/// The one of a number.
pub fn caller_at(callers: &[Caller], number: usize) -> &Caller
    requires { number < length callers.now }
    ensures { slice_get callers.now number ≡ Some result.now }
{
    &callers[number]
}

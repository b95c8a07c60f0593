// Why a module isn't accepted.

ghost use Rattle.std.specs.Prelude.{◌≡◌};
ghost use Rattle.pearl_check.specs.declared.fault.CheckFault.TheVariants as fault;

use pearl_tree::fault::RuleFault;
use std::alloc::AllocError;
use thiserror::Error;

/// Why a module isn't accepted.
#[derive(Debug, Drop, Error)]
pub enum CheckFault {
    /// The first broken rule: that at the first place, and of several there that with the smallest number.
    #[error("Refused")]
    Refused(RuleFault),
    #[error("NoMemory")]
    NoMemory,
}

impl From<AllocError> for CheckFault {
    ghost from_gives = { λ _ e. e ≡ fault.NoMemory };

    fn from(_error: AllocError) -> CheckFault {
        CheckFault::NoMemory
    }
}

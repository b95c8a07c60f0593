// Why there is no watch.

ghost use Rattle.std.specs.Prelude.{◌≡◌};
ghost use Rattle.pearl_watch.specs.declared.fault.WatchFault.TheVariants as fault;

use std::alloc::AllocError;
use thiserror::Error;

/// Why there is no watch.
#[derive(Clone, Copy, PartialEq, Eq, Debug, Error)]
pub enum WatchFault {
    /// The name of this number, the first being 1, is the first that no leaf has, that stood before, or with which more
    /// than 1,024 slots are watched.
    #[error("BadName")]
    BadName(u32),
    #[error("NoMemory")]
    NoMemory,
}

impl From<AllocError> for WatchFault {
    ghost from_gives = { λ _ e. e ≡ fault.NoMemory };

    fn from(_error: AllocError) -> WatchFault {
        WatchFault::NoMemory
    }
}

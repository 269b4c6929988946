// The failures of devices.
ghost use Rattle.std.specs.Prelude.{◌≡◌};
ghost use Rattle.fg_io.specs.declared.error.FetchFault.TheVariants.{NoMemory as FetchNoMemory};

use std::alloc::{AllocError, AllocFailed};

/// The outside did not do what it was asked for.
#[derive(Clone, Copy, Debug, PartialEq, Eq, Hash)]
pub struct Failed;

/// Why a fetch has no contents to answer.
#[derive(Clone, Copy, Debug, PartialEq, Eq, Hash)]
pub enum FetchFault {
    /// The shelf failed, or has no such name.
    Failed,
    /// The contents are longer than the caller can take.
    TooLong,
    /// There was no memory for the name or the contents.
    NoMemory,
}

impl From<AllocError> for FetchFault {
    ghost from_gives = { λ _ fault. fault ≡ FetchNoMemory };

    fn from(_error: AllocError) -> Self {
        FetchFault::NoMemory
    }
}

impl<T: Drop> From<AllocFailed<T>> for FetchFault {
    ghost from_gives = { λ _ fault. fault ≡ FetchNoMemory };

    fn from(_error: AllocFailed<T>) -> Self {
        FetchFault::NoMemory
    }
}

// Why what is written gives no part of a dictionary.
ghost use Rattle.std.specs.Prelude.{◌≡◌};
ghost use Rattle.dict_source.specs.declared.read_fault.ReadFault.TheVariants as read_faults;

use std::alloc::{AllocError, AllocFailed};

/// Why what is written gives no part of a dictionary.
#[derive(Clone, Copy, Debug, PartialEq, Eq)]
pub enum ReadFault {
    /// It isn't of the form.
    Shape,
    /// There was no memory left.
    NoMemory,
}

impl From<AllocError> for ReadFault {
    ghost from_gives = { λ _ fault. fault ≡ read_faults.NoMemory };

    fn from(_error: AllocError) -> ReadFault {
        ReadFault::NoMemory
    }
}

impl<T: Drop> From<AllocFailed<T>> for ReadFault {
    ghost from_gives = { λ _ fault. fault ≡ read_faults.NoMemory };

    fn from(_error: AllocFailed<T>) -> ReadFault {
        ReadFault::NoMemory
    }
}

// Why a text is no name or path.
ghost use Rattle.std.specs.Prelude.{◌≡◌};
ghost use Rattle.fact_paths.specs.declared.fault.PathFault.TheVariants.{NoMemory};

use std::alloc::AllocError;

/// Why no name or path was read.
#[derive(Clone, Copy, Debug, PartialEq, Eq)]
pub enum PathFault {
    /// The text spells none.
    BadPath,
    /// No memory was left for a copy of a name.
    NoMemory,
}

impl From<AllocError> for PathFault {
    ghost from_gives = { λ _ fault. fault ≡ NoMemory };

    fn from(_error: AllocError) -> PathFault {
        PathFault::NoMemory
    }
}

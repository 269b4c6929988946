// Why an expression has no type.
ghost use Rattle.std.specs.Prelude.{◌≡◌};
ghost use Rattle.node_types.specs.declared.node_fault.NodeFault.TheVariants.{NoMemory};

use std::alloc::{AllocError, AllocFailed};

/// Why a fact's nodes have no types.
#[derive(Clone, Copy, Debug, PartialEq, Eq)]
pub enum NodeFault {
    /// The node with this number is at fault.
    IllTyped(u32),
    NoMemory,
}

impl From<AllocError> for NodeFault {
    ghost from_gives = { λ _ fault. fault ≡ NoMemory };

    fn from(_error: AllocError) -> NodeFault {
        NodeFault::NoMemory
    }
}

impl<T: Drop> From<AllocFailed<T>> for NodeFault {
    ghost from_gives = { λ _ fault. fault ≡ NoMemory };

    fn from(_error: AllocFailed<T>) -> NodeFault {
        NodeFault::NoMemory
    }
}

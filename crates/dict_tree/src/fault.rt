// Why bytes spell no dictionary.
ghost use Rattle.std.specs.Prelude.{◌≡◌};
ghost use Rattle.dict_tree.specs.declared.fault.TreeFault.TheVariants.{NoMemory};

use std::alloc::{AllocError, AllocFailed};

/// Why bytes spell no dictionary. Facts are numbered from 1.
#[derive(Clone, Copy, Debug, PartialEq, Eq)]
pub enum TreeFault {
    /// There are more than 8,388,608 bytes.
    TooLong,
    /// The bytes are no JSON.
    NotJson,
    /// The fact isn't of the form; 0 stands for what lies outside the list of facts.
    Shape(u32),
    /// More than the limit: 1 facts, 2 nodes, 3 writable collections, 4 enums, 5 options of an enum, 6 limits of a fact.
    TooMany(u32),
    /// An expression of the fact is deeper than 48.
    TooDeep(u32),
    /// There was no memory left.
    NoMemory,
}

impl From<AllocError> for TreeFault {
    ghost from_gives = { λ _ fault. fault ≡ NoMemory };

    fn from(_error: AllocError) -> TreeFault {
        TreeFault::NoMemory
    }
}

impl<T: Drop> From<AllocFailed<T>> for TreeFault {
    ghost from_gives = { λ _ fault. fault ≡ NoMemory };

    fn from(_error: AllocFailed<T>) -> TreeFault {
        TreeFault::NoMemory
    }
}

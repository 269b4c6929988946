// Why a dictionary is refused for its paths, types or limits.
ghost use Rattle.std.specs.Prelude.{◌≡◌};
ghost use Rattle.dict_rules.specs.declared.fault.TypeFault.TheVariants as faults;

use fact_values::NoMemory;
use std::alloc::{AllocError, AllocFailed};

/// Why a dictionary is refused for its paths, types or limits. Facts are numbered from 1.
#[derive(Clone, Copy, Debug, PartialEq, Eq)]
pub enum TypeFault {
    /// Its path is no path of a fact, or a use path or the path in its stated type is out of the grammar.
    BadPath(u32),
    /// An earlier fact has the same path.
    DuplicatePath(u32),
    /// A path has to name a collection or an item, and names none.
    NoCollection(u32),
    /// A use path in its place names no fact.
    UnknownPath(u32),
    /// A use path, a node or a path of a collection is out of its place.
    WrongPlace(u32),
    /// A limit names no check of the table.
    UnknownCheck(u32),
    /// The fact, and the first of its nodes at fault, from 1 in preorder; 0 stands for a stated enum that isn't declared.
    IllTyped(u32, u32),
    /// A limit doesn't fit the type, has no value, or is given twice.
    BadLimit(u32),
    NoMemory,
}

impl From<NoMemory> for TypeFault {
    ghost from_gives = { λ _ fault. fault ≡ faults.NoMemory };

    fn from(_error: NoMemory) -> TypeFault {
        TypeFault::NoMemory
    }
}

impl From<AllocError> for TypeFault {
    ghost from_gives = { λ _ fault. fault ≡ faults.NoMemory };

    fn from(_error: AllocError) -> TypeFault {
        TypeFault::NoMemory
    }
}

impl<T: Drop> From<AllocFailed<T>> for TypeFault {
    ghost from_gives = { λ _ fault. fault ≡ faults.NoMemory };

    fn from(_error: AllocFailed<T>) -> TypeFault {
        TypeFault::NoMemory
    }
}

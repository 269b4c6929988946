// The faults of dictionaries, in the order in which they are named.
ghost use Rattle.std.specs.Prelude.{◌≡◌};
ghost use Rattle.dictionary.specs.Faults.{of_trees, of_types};

use dict_rules::TypeFault;
use dict_tree::TreeFault;
use thiserror::Error;

/// Why a dictionary is refused: its first fault, by kind in this order. Facts are numbered from 1.
#[derive(Clone, Copy, Debug, PartialEq, Eq, Error)]
pub enum DictFault {
    /// There are more than 8,388,608 bytes.
    #[error("the dictionary is too long")]
    TooLong,
    /// The bytes are no JSON.
    #[error("the dictionary is no JSON")]
    NotJson,
    /// The fact isn't of the form; 0 stands for what lies outside the list of facts.
    #[error("fact {0} isn't of the form")]
    Shape(u32),
    /// More than the limit: 1 facts, 2 nodes, 3 writable collections, 4 enums, 5 options of an enum, 6 limits of a fact.
    #[error("there are too many of kind {0}")]
    TooMany(u32),
    /// An expression of the fact is deeper than 48.
    #[error("fact {0} is too deep")]
    TooDeep(u32),
    /// Its path is no path of a fact, or a use path or the path in its stated type is out of the grammar.
    #[error("fact {0} has a path that is none")]
    BadPath(u32),
    /// An earlier fact has the same path.
    #[error("fact {0} has the path of an earlier one")]
    DuplicatePath(u32),
    /// A path has to name a collection or an item, and names none.
    #[error("fact {0} names no collection")]
    NoCollection(u32),
    /// A use path in its place names no fact.
    #[error("fact {0} names no fact")]
    UnknownPath(u32),
    /// A use path, a node or a path of a collection is out of its place.
    #[error("fact {0} has a path out of its place")]
    WrongPlace(u32),
    /// A limit names no check of the table.
    #[error("fact {0} names no check")]
    UnknownCheck(u32),
    /// The fact, and the first of its nodes at fault, from 1 in preorder; 0 stands for a stated enum that isn't declared.
    #[error("fact {0} is ill typed at node {1}")]
    IllTyped(u32, u32),
    /// A limit doesn't fit the type, has no value, or is given twice.
    #[error("fact {0} has a limit that doesn't fit")]
    BadLimit(u32),
    /// The fact reaches itself by one or more mentions.
    #[error("fact {0} reaches itself")]
    Cycle(u32),
    /// There was no memory left.
    #[error("out of memory")]
    NoMemory,
}

/// The same fault of the bytes.
pub fn fault_of_trees(fault: TreeFault) -> DictFault
    ensures { result ≡ of_trees fault }
{
    match fault {
        TreeFault::TooLong => DictFault::TooLong,
        TreeFault::NotJson => DictFault::NotJson,
        TreeFault::Shape(fact) => DictFault::Shape(fact),
        TreeFault::TooMany(what) => DictFault::TooMany(what),
        TreeFault::TooDeep(fact) => DictFault::TooDeep(fact),
        TreeFault::NoMemory => DictFault::NoMemory,
    }
}

/// The same fault of paths, types or limits.
pub fn fault_of_types(fault: TypeFault) -> DictFault
    ensures { result ≡ of_types fault }
{
    match fault {
        TypeFault::BadPath(fact) => DictFault::BadPath(fact),
        TypeFault::DuplicatePath(fact) => DictFault::DuplicatePath(fact),
        TypeFault::NoCollection(fact) => DictFault::NoCollection(fact),
        TypeFault::UnknownPath(fact) => DictFault::UnknownPath(fact),
        TypeFault::WrongPlace(fact) => DictFault::WrongPlace(fact),
        TypeFault::UnknownCheck(fact) => DictFault::UnknownCheck(fact),
        TypeFault::IllTyped(fact, node) => DictFault::IllTyped(fact, node),
        TypeFault::BadLimit(fact) => DictFault::BadLimit(fact),
        TypeFault::NoMemory => DictFault::NoMemory,
    }
}

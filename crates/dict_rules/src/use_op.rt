// The operator that uses a path, for the rule of where a path may stand.
use dict_source::{PickOp, ReadOp};

/// The operator of a node that uses a path.
#[derive(Clone, Copy, PartialEq, Eq)]
pub enum UseOp {
    Read(ReadOp),
    /// The path of the collection whose members are picked.
    Pick(PickOp),
}

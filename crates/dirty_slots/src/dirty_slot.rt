// A slot that waits.

/// A slot that waits to be evaluated, with the rank of its fact.
#[derive(Clone, Copy, PartialEq, Eq, PartialOrd, Ord)]
pub struct DirtySlot {
    pub rank: u32,
    pub fact: u32,
    pub member: u32,
}

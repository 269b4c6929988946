// Slots: a fact, and the member that it is asked of.
/// The place of one value: a fact, and the member that it belongs to.
#[derive(Clone, Copy, Debug, PartialEq, Eq)]
pub struct Slot {
    /// The number of the fact.
    pub fact: u32,
    /// The member, or 0 for a fact that stands once.
    pub member: u32,
}

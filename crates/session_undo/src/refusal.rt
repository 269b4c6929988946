// Why nothing is undone or redone.
/// Why nothing was undone or redone.
#[derive(Clone, Copy, Debug, Drop, PartialEq, Eq)]
pub enum UndoRefusal {
    /// No change stands before.
    NothingToUndo,
    /// No change lies ahead.
    NothingToRedo,
    /// There was no memory left.
    NoMemory,
}

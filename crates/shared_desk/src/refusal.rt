// Why a desk refuses a line of a party.
use graph_session::Refusal;

/// Why a line of a party is refused. A refused line changes nothing.
#[derive(Clone, Copy, Debug, PartialEq, Eq)]
pub enum DeskRefusal {
    /// The session refuses the command.
    Session(Refusal),
    /// The change of this number, another party's, touched the slot after this party last looked at it.
    Stale(u64),
    /// The change that `undo` would take back, or `redo` make again, is this party's.
    NotYours(u32),
}

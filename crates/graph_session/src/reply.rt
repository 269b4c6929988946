// What a session answers to a command.
use fact_values::Slot;

/// What an accepted command answers.
#[derive(Clone, Copy, Debug, PartialEq, Eq)]
pub enum Reply {
    /// A change was made.
    Done,
    /// A member with this number was added.
    Added(u32),
    /// The slot's result is asked for.
    Answer(Slot),
    /// Whether the slot's result is final is asked for.
    FinalAsked(Slot),
    /// The number of the last change that touched the slot, and 0 if none did.
    Stamp(u64),
    /// How many slots the last change touched, and 0 before the first.
    Touched(u64),
    /// The missing answers of the slot are asked for.
    MissingAsked(Slot),
    /// A watch on the slot is asked for.
    WatchAsked(Slot),
    /// An end of a watch on the slot is asked for.
    UnwatchAsked(Slot),
    /// The end of the session is asked for.
    Quit,
}

/// Why a command is refused. A refused command changes nothing.
#[derive(Clone, Copy, Debug, PartialEq, Eq)]
pub enum Refusal {
    /// The dictionary has no such fact.
    UnknownFact,
    /// The path has a member that isn't in its collection, or the collection hasn't the member that is to be removed.
    NoMember,
    /// The command isn't one for a fact of this kind.
    WrongKind,
    /// The text spells no value of the fact's type.
    BadValue,
    /// The value breaks the limit at this place in the fact's list, from 1: the first that it breaks.
    Limit(u32),
    /// The check of the limit at this place, from 1, says no: the first that does.
    Check(u32),
    /// The collection has 100 members, or all members' numbers are given out.
    Full,
    /// The collection is open.
    AlreadyOpen,
    /// The slot has no answer.
    NotAnswered,
    /// The slot has no override.
    NoOverride,
    /// No change stands before.
    NothingToUndo,
    /// Nothing lies ahead.
    NothingToRedo,
    /// The engine keeps no stamps.
    NoStamps,
    /// There was no memory left.
    NoMemory,
}

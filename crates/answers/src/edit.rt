// Edits of answers.
use crate::entries::Entries;
use fact_values::{Slot, Value};
use std::marker::Model;

/// Which of the two values of a slot.
#[derive(Clone, Copy, Debug, PartialEq, Eq)]
pub enum Side {
    Answer,
    Override,
}

/// A change of answers.
#[derive(Drop)]
pub enum Edit {
    /// Answers a slot, or takes its answer away.
    Value(Slot, Option<Value>),
    /// Overrides a slot, or takes its override away.
    Override(Slot, Option<Value>),
    /// Opens a collection, without members.
    OpenList(u32),
    /// Closes a collection without members.
    CloseList(u32),
    /// Appends a new member to a collection, which it opens where it isn't open.
    AddNew(u32),
    /// Takes the newest member out of a collection, and closes the collection or not.
    TakeNew(u32, bool),
    /// Takes a member out of a collection, with all its answers and overrides.
    Remove(u32, u32),
    /// Puts a member that was taken out back into its collection.
    PutBack(u32, Gone),
}

/// There was no memory for an edit, which comes back.
#[derive(Drop)]
pub struct Unapplied {
    pub edit: Edit,
}

/// A member that was taken out, with all its answers and overrides. `Edit::Remove` alone makes it.
#[derive(Drop)]
pub struct Gone {
    taken: Taken,
}

impl Model for Gone {
    ghost use Rattle.std.specs.Prelude.{◌≤◌};
    ghost use Rattle.answers.specs.declared.edit.Taken.{Taken as Kept};
    ghost use Rattle.answers.specs.contracts.edit.Taken as kept;

    ghost Value = { Kept };

    ghost coded = { kept.the_row.coded };

    ghost view = { λ g. g.taken };

    ghost invariant = { λ g. 1 ≤ g.taken.member };
}

/// What a `Gone` holds.
#[derive(Drop)]
pub(crate) struct Taken {
    pub(crate) place: u32,
    pub(crate) member: u32,
    pub(crate) entries: Entries,
}

ghost use Rattle.std.specs.Prelude.{◌≡◌, ◌≤◌};

impl Gone {
    pub(crate) fn new(place: u32, member: u32, entries: Entries) -> Gone
        requires { 1 ≤ member }
        ensures { result ≡ record { place = place; member = member; entries = entries } }
    {
        Gone {
            taken: Taken {
                place,
                member,
                entries,
            },
        }
    }

    /// The place in its collection, from 0.
    pub fn place(&self) -> u32
        ensures { result ≡ self.now.place }
    {
        self.taken.place
    }

    /// The number of the member.
    pub fn member(&self) -> u32
        ensures number { result ≡ self.now.member }
        ensures from_one { 1 ≤ result }
    {
        self.taken.member
    }

    /// What it holds.
    pub(crate) fn into_taken(self) -> Taken
        ensures value { result ≡ self }
        ensures from_one { 1 ≤ result.member }
    {
        self.taken
    }
}

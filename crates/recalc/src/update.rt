// A change of the answers, as the engine is told of it.
use answers::{Answers, Edit};
use dictionary::Dictionary;

/// From the answers that an edit gives back to those that stand now.
#[derive(Clone, Copy)]
pub struct Update<'a> {
    pub dict: &'a Dictionary,
    pub answers: &'a Answers,
    /// The edit that gives the answers before.
    pub undo: &'a Edit,
    /// The member that the change took away.
    pub gone: Option<u32>,
    /// The number of the change.
    pub stamp: u64,
}

// A change of the answers, as the engine goes through it.
use answers::{Answers, Edit};
use dictionary::Dictionary;

/// From results before to those of the answers that stand now.
#[derive(Clone, Copy)]
pub struct Propagation<'a> {
    pub dict: &'a Dictionary,
    pub answers: &'a Answers,
    /// The edit that gives the answers before.
    pub undo: &'a Edit,
    /// Whether the answers extend those before.
    pub extended: bool,
    /// The member that the change took away.
    pub gone: Option<u32>,
    /// The number of the change.
    pub stamp: u64,
}

// Where the dictionary and the answers of a run come from.

use built_in::BuiltIn;

/// Where the dictionary of a run comes from.
#[derive(Clone, Copy)]
pub enum Origin<'a> {
    /// The file of this name.
    File(&'a str),
    /// The program, which brings it with it.
    BuiltIn(BuiltIn),
}

/// Where the answers at the start of a run come from.
#[derive(Clone, Copy)]
pub enum Beginning<'a> {
    /// Nothing is answered.
    Unanswered,
    /// The saved text of this name, which is one of the dictionary's own.
    Load(&'a str),
    /// What may stand of the saved text of this name.
    Carry(&'a str),
}

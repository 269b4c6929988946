// How far the lines of a piece were answered.
/// How far a script was answered.
#[derive(Clone, Copy, Debug, PartialEq, Eq)]
pub enum Progress {
    /// All was answered, and the script goes on.
    More,
    /// A line was `quit`.
    Over,
    /// A reply couldn't be written whole.
    Unwritten,
    /// There was no memory for a command.
    OutOfMemory,
}

// How the lines of a script are answered: by whom, and over which engine.

/// How the lines of a script are answered.
#[derive(Clone, Copy)]
pub enum Mode {
    /// By a session over the incremental engine, which numbers the changes and keeps stamps.
    Incremental,
    /// By a session over the whole table, made anew by each change, without stamps.
    Plain,
    /// By a desk of several parties, over the incremental engine.
    Desk,
}

// From which answers a session begins.

/// From which answers a session begins over a dictionary.
#[derive(Clone, Copy)]
pub enum Start {
    /// From none.
    Fresh,
    /// From those of the dictionary's own saved text.
    Loaded,
    /// From what may stand of a saved text of another dictionary.
    Carried,
    /// From what may be taken of a saved text that came from outside.
    Resumed,
}

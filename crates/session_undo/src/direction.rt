// The two ways of a step over changes.

/// Back over the last change that stands, or forth over the last that was undone.
#[derive(Clone, Copy)]
pub enum Direction {
    Back,
    Forth,
}

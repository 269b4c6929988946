// Why bytes are no saved text.
/// Why bytes give no answers.
#[derive(Clone, Copy, PartialEq, Eq)]
pub enum LoadFault {
    /// The bytes are no saved text. This is the number, from 1, of the first line with which no saved text begins; where all
    /// lines begin one it is one past the last.
    BadSaved(u32),
    /// No memory was left.
    NoMemory,
}

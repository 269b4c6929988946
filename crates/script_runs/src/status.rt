// How an interview ends: its exit status.
ghost use Rattle.std.specs.Prelude.{◌≡◌};
ghost use Rattle.script_runs.specs.Codes.{code_of, name_of};

/// How an interview ended.
#[derive(Clone, Copy, Debug, PartialEq, Eq)]
pub enum Status {
    /// The script was read to its end, or to `quit`; or a check or a `gen` ended.
    Done,
    /// The dictionary has a fault, which was printed.
    DictionaryRefused,
    /// The words of the command line have no form.
    Usage,
    /// The shelf failed to give a file that the words name.
    FetchFault,
    /// The script couldn't be read on.
    ReadFault,
    /// A reply couldn't be written whole.
    WriteFault,
    /// No `quit` ended within the limit of a script, and more bytes came.
    ScriptTooLong,
    /// There was no memory left.
    NoMemory,
    /// The dictionary is accepted, but the saved text is none, or none of the dictionary's own; the line was printed.
    SavedRefused,
}

impl Status {
    /// The exit status, from 0 to 8.
    pub fn code(self) -> u8
        ensures { result ≡ code_of self }
    {
        match self {
            Status::Done => 0,
            Status::DictionaryRefused => 1,
            Status::Usage => 2,
            Status::FetchFault => 3,
            Status::ReadFault => 4,
            Status::WriteFault => 5,
            Status::ScriptTooLong => 6,
            Status::NoMemory => 7,
            Status::SavedRefused => 8,
        }
    }

    /// The name, as standard error shows it.
    pub fn name(self) -> &'static str
        ensures { result.now ≡ name_of self }
    {
        match self {
            Status::Done => "Done",
            Status::DictionaryRefused => "DictionaryRefused",
            Status::Usage => "Usage",
            Status::FetchFault => "FetchFault",
            Status::ReadFault => "ReadFault",
            Status::WriteFault => "WriteFault",
            Status::ScriptTooLong => "ScriptTooLong",
            Status::NoMemory => "NoMemory",
            Status::SavedRefused => "SavedRefused",
        }
    }
}

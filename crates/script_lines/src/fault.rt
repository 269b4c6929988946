// Why a line is no command.
ghost use Rattle.std.specs.Prelude.{◌≡◌};
ghost use Rattle.script_lines.specs.declared.fault.LineFault.TheVariants.{NoMemory};

use std::alloc::AllocError;

/// Why a line gives no command.
#[derive(Clone, Copy, Debug, PartialEq, Eq)]
pub enum LineFault {
    /// The line has no form of a command, or isn't UTF-8.
    BadLine,
    /// No memory was left for what the command keeps.
    NoMemory,
}

impl From<AllocError> for LineFault {
    ghost from_gives = { λ _ fault. fault ≡ NoMemory };

    fn from(_error: AllocError) -> LineFault {
        LineFault::NoMemory
    }
}

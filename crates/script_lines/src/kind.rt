// What kind of command a command is.
ghost use Rattle.std.specs.Prelude.{◌≡◌};
ghost use Rattle.script_lines.specs.Kinds.{kind_of};

use crate::command::Command;

/// What a command is to whoever answers it.
#[derive(Clone, Copy)]
pub enum Kind {
    /// It changes the answers, or goes along the changes that were made.
    Change,
    /// It asks the session.
    Question,
    /// It lists what is missing.
    Missing,
    /// It puts a watch, or takes one out.
    Watch,
    /// It ends the script.
    Quit,
}

impl Command {
    /// What kind of command it is.
    #[inline(always)]
    pub fn kind(&self) -> Kind
        ensures { result ≡ kind_of self.now }
    {
        match self {
            Command::Set(..)
            | Command::Clear(_)
            | Command::OpenList(_)
            | Command::Add(_)
            | Command::Remove(..)
            | Command::Override(..)
            | Command::Release(_)
            | Command::Undo
            | Command::Redo => Kind::Change,
            Command::Get(_) | Command::Final(_) | Command::Stamp(_) | Command::Touched => {
                Kind::Question
            }
            Command::Missing(_) => Kind::Missing,
            Command::Watch(..) | Command::Unwatch(..) => Kind::Watch,
            Command::Quit => Kind::Quit,
        }
    }
}

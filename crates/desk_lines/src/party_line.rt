// Reads which party a line of a script is of, and what it says.
ghost use Rattle.std.specs.Prelude.{◌≡◌, ◌≤◌, IfOk, length};
ghost use Rattle.script_lines.specs.Commands.{without_return};
ghost use Rattle.script_lines.specs.Parsing.{command as of_command, heard_in};
ghost use Rattle.desk_lines.specs.PartyLines.{is_silent as is_silent_text, is_watching as watches, party_said_in, said_by};

use crate::mark::party_of;
use fact_values::NoMemory;
use script_lines::{Command, LineFault, command_of};
use std::alloc::Global;

/// What a line of a script says.
#[derive(Drop)]
pub enum PartyLine {
    /// Nothing, and it has no reply.
    Silent,
    /// It is no party's.
    NoParty,
    /// It is this party's, and has no form of a command that a desk knows.
    NoCommand(u32),
    /// This party gives the command.
    Asks(u32, Command),
}

// Whether a line has no reply: but for one final byte 13 it is empty, or it begins with `#`.
fn is_silent(line: &[u8]) -> bool
    ensures { result ≡ is_silent_text (without_return line.now) }
{
    match line.split_first() {
        None => true,
        Some((first, rest)) => *first == b'#' || (*first == b'\r' && rest.is_empty()),
    }
}

fn is_watching(command: &Command) -> bool
    ensures { result ≡ watches command.now }
{
    match command {
        Command::Watch(..) | Command::Unwatch(..) => true,
        Command::Set(..)
        | Command::Clear(_)
        | Command::OpenList(_)
        | Command::Add(_)
        | Command::Remove(..)
        | Command::Override(..)
        | Command::Release(_)
        | Command::Undo
        | Command::Redo
        | Command::Get(_)
        | Command::Final(_)
        | Command::Stamp(_)
        | Command::Touched
        | Command::Missing(_)
        | Command::Quit => false,
    }
}

// What a party says by a command.
fn said_of(party: u32, command: Command) -> PartyLine
    ensures { result ≡ said_by party (of_command command) }
{
    if is_watching(&command) {
        drop(command);
        PartyLine::NoCommand(party)
    } else {
        PartyLine::Asks(party, command)
    }
}

// What a party says by the text behind its mark.
fn said_behind(alloc: Global, party: u32, rest: &[u8]) -> Result<PartyLine, NoMemory>
    requires { length rest.now ≤ 4096 }
    ensures { IfOk result (λ said. said ≡ said_by party (heard_in rest.now)) }
{
    match command_of(alloc, rest) {
        Ok(None) => Ok(PartyLine::NoCommand(party)),
        Ok(Some(command)) => Ok(said_of(party, command)),
        Err(LineFault::BadLine) => Ok(PartyLine::NoCommand(party)),
        Err(LineFault::NoMemory) => Err(NoMemory),
    }
}

/// What a line of at most 4,096 bytes says, its newline left out.
pub fn read_party_line(alloc: Global, line: &[u8]) -> Result<PartyLine, NoMemory>
    requires { length line.now ≤ 4096 }
    ensures { IfOk result (λ said. said ≡ party_said_in line.now) }
{
    if is_silent(line) {
        return Ok(PartyLine::Silent);
    }
    match party_of(line) {
        None => Ok(PartyLine::NoParty),
        Some((party, rest)) => said_behind(alloc, party, rest),
    }
}

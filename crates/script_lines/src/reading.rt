// Reads a line as a command.
ghost use Rattle.std.specs.Prelude.{◌≡◌, ◌≤◌, length, MatchOption};
ghost use Rattle.std.specs.Char.{is_ascii};
ghost use Rattle.std.specs.List.{list_all};
ghost use Rattle.std.specs.Str.{IsUtf8};
ghost use Rattle.script_lines.specs.Commands.{without_return as shorn, ReadsLine};
ghost use Rattle.script_lines.specs.Parsing.{Gives, GivesHeard, command_alone, command_of_text, heard, heard_in};

use crate::behind_verb::read_with;
use crate::command::Command;
use crate::fault::LineFault;
use crate::parts::at_blank;
use crate::verb::verb_of;
use std::alloc::Global;

// A command of one word.
fn read_alone(word: &str) -> Result<Command, LineFault>
    ensures { Gives (command_alone word.now) result }
{
    match word {
        "undo" => Ok(Command::Undo),
        "redo" => Ok(Command::Redo),
        "touched" => Ok(Command::Touched),
        "quit" => Ok(Command::Quit),
        _ => Err(LineFault::BadLine),
    }
}

fn read_text(alloc: Global, text: &str) -> Result<Command, LineFault>
    ensures { Gives (command_of_text text.now) result }
{
    let Some((word, rest)) = at_blank(text) else {
        return read_alone(text);
    };
    match verb_of(word) {
        None => Err(LineFault::BadLine),
        Some(verb) => read_with(alloc, verb, rest),
    }
}

// The line without its final byte 13.
fn without_return(line: &[u8]) -> &[u8]
    ensures { result.now ≡ shorn line.now }
{
    let Some((last, front)) = line.split_last() else {
        return line;
    };
    if *last == b'\r' { front } else { line }
}

// Whether all bytes are ASCII. It goes byte by byte, which takes less for a short line than std's test does.
fn are_ascii(line: &[u8]) -> bool
    ensures { result ≡ list_all is_ascii line.now }
{
    line.iter().all(|byte| byte.is_ascii())
}

// The line as a text, where it is UTF-8. Nearly all lines are ASCII.
#[inline(always)]
fn text_of(line: &[u8]) -> Option<&str>
    ensures { MatchOption result (¬ (IsUtf8 line.now)) (λ text. (text.now ≡ line.now) × IsUtf8 line.now) }
{
    if are_ascii(line) {
        return Some(unsafe { str::from_utf8_unchecked(line) });
    }
    str::from_utf8(line).ok()
}

// Reads a line without its final byte 13.
fn read_shorn(alloc: Global, line: &[u8]) -> Result<Option<Command>, LineFault>
    ensures { GivesHeard (heard line.now) result }
{
    let Some(first) = line.first() else {
        return Ok(None);
    };
    if *first == b'#' {
        return Ok(None);
    }
    let Some(text) = text_of(line) else {
        return Err(LineFault::BadLine);
    };
    let command = read_text(alloc, text)?;
    Ok(Some(command))
}

/// The command that the line spells, its newline left out, or None where the line has no reply: where it is empty or
/// begins with `#`. One final byte 13 doesn't count. `BadLine` comes where the line is neither.
pub fn command_of(alloc: Global, line: &[u8]) -> Result<Option<Command>, LineFault>
    requires { length line.now ≤ 4096 }
    ensures line { ReadsLine line.now result }
    ensures heard { GivesHeard (heard_in line.now) result }
{
    read_shorn(alloc, without_return(line))
}

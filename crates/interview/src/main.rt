//! The program `interview`: runs a script of commands over a dictionary of facts, and prints a reply a command.
#![tactic(auto)]

ghost use Rattle.std.specs.Prelude.{◌≡◌, ◌+◌, ◌-◌, ◌≤◌, ◌<◌, ◌^◌, Bool, [], ◌∷◌, ◌++◌, ◌⊎◌, IfOk, OnErr, OnOk, length};
ghost use Rattle.std.specs.Process.{exit_status};
ghost use Rattle.text_checks.specs.Tables.{named_checks};
ghost use Rattle.fact_watch.specs.Tables.{named_relations};
ghost use Rattle.session_lines.specs.Tables.{standard_checks, standard_relations};
ghost use Rattle.script_runs.specs.Codes.{code_of};

mod laws;
mod save_run;
mod top;
mod words;

use fact_watch::WatchTable;
use fg_io::{FolderShelf, StdinSource, StdoutSink};
use script_runs::Status;
use session_lines::{standard_checks, standard_relations};
use std::alloc::{AllocError, Global};
use std::io::ErrorKind;
use std::process::ExitCode;
use std::{env, io};
use text_checks::CheckTable;
pub use top::interview;

/// The exit status where the words of the command line can't be had.
const WORDS_FAULT: u8 = 9;

// The words of the command line, without the program's name.
fn given_words(rt: &HostRuntime) -> io::Result<Vec<String>> {
    let mut words = Vec::new(rt.alloc());
    for word in env::args(rt)?.skip(1) {
        words.push(word)?;
    }
    Ok(words)
}

// Runs the program over the words, the current folder and the standard streams. A dictionary may name the four checks,
// and a slot may be watched by the four relations.
fn run_with(
    rt: HostRuntime,
    alloc: Global,
    words: &[String],
    checks: &CheckTable,
    table: &WatchTable,
) -> Status
    requires checks { named_checks checks.now ≡ standard_checks }
    requires relations { named_relations table.now ≡ standard_relations }
{
    let mut shelf = FolderShelf::new(rt, alloc);
    let mut script = StdinSource::new(rt.stdin());
    let mut out = StdoutSink::new(rt.stdout());
    interview(
        alloc,
        words,
        checks,
        table,
        &mut shelf,
        &mut script,
        &mut out,
    )
}

// Makes the table of relations, and runs the program.
fn run_checked(
    rt: HostRuntime,
    alloc: Global,
    words: &[String],
    checks: &CheckTable,
) -> Result<Status, AllocError>
    requires { named_checks checks.now ≡ standard_checks }
{
    let mut table = WatchTable::new(alloc);
    standard_relations!(alloc, table);
    Ok(run_with(rt, alloc, words, checks, &table))
}

// Makes the table of checks, and runs the program.
fn run(rt: HostRuntime) -> io::Result<Status> {
    let alloc = rt.alloc();
    let words = given_words(&rt)?;
    let mut checks = CheckTable::new(alloc);
    standard_checks!(alloc, checks);
    Ok(run_checked(rt, alloc, &words, &checks)?)
}

// Ends with the exit status of this ending. Standard error names it where no line of the text does, from 3 to 7.
fn end_with(rt: HostRuntime, status: Status) -> ExitCode
    ensures { exit_status result ≡ code_of status }
{
    let code = status.code();
    if (3..8).contains(&code) {
        let name = status.name();
        let _ = eprintln!(rt; "interview: {code} {name}");
    }
    ExitCode::from(code)
}

// Ends as the interview did. Where it wasn't begun, memory was wanting, or the words couldn't be had.
fn end_as(rt: HostRuntime, ended: io::Result<Status>) -> ExitCode
    ensures ended { IfOk ended (λ status. exit_status result ≡ code_of status) }
    ensures not_begun { OnErr ended ((exit_status result ≡ 7) ⊎ (exit_status result ≡ 9)) }
{
    match ended {
        Ok(status) => end_with(rt, status),
        Err(error) if error.kind() == ErrorKind::OutOfMemory => end_with(rt, Status::NoMemory),
        Err(_) => {
            let _ = eprintln!(rt; "interview: {WORDS_FAULT} WordsFault");
            ExitCode::from(WORDS_FAULT)
        }
    }
}

fn main(rt: HostRuntime) -> ExitCode {
    end_as(rt, run(rt))
}

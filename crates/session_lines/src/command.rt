// Answers a command.
ghost use Rattle.std.specs.Prelude.{◌≡◌, ◌≤◌, ◌<◌, ◌+◌, ◌^◌, false, IsTrue};
ghost use Rattle.text_checks.specs.Tables.{named_checks};
ghost use Rattle.graph_session.specs.Refusals.{SameChecks, asks_checks};
ghost use Rattle.graph_session.specs.Rules.{rules};
ghost use Rattle.session_lines.specs.Answering.{KeptAs, SteppedAs, state_by};
ghost use Rattle.session_lines.specs.Stepping.{is_session_command as known, step_command};
ghost use Rattle.session_lines.specs.Steps.{steps_of_command};

use crate::changing::answer_session_command;
use crate::listing::answer_missing;
use crate::mark::PartyMark;
use crate::progress::Progress;
use crate::tables::Tables;
use crate::watching::{answer_unwatch, answer_watch};
use dictionary::FactEngine;
use fact_watch::{WatchTable, Watches};
use fg_io::Sink;
use graph_session::Session;
use script_lines::{Command, Kind};
use std::alloc::Global;
use std::sync::ledger::Ledger;
use steps::Steps;

// Whether the session itself answers it.
fn is_session_command(command: &Command) -> bool
    ensures { result ≡ known command.now }
{
    match command.kind() {
        Kind::Change | Kind::Question => true,
        Kind::Missing | Kind::Watch | Kind::Quit => false,
    }
}

// Answers a command that the session itself doesn't answer.
fn answer_host_command<E: FactEngine, K: Sink>(
    alloc: Global,
    session: &Session<E>,
    watches: &mut Watches,
    table: &WatchTable,
    command: &Command,
    out: &mut K,
) -> Progress
    requires { known command.now ≡ false }
    ensures stepped { SteppedAs (K.output out.old) (K.output out.new)
        (step_command (rules session.now.dict) (state_by session.now table.now watches.old) command.now)
        (state_by session.now table.now watches.new) result }
    ensures kept { KeptAs (step_command (rules session.now.dict) (state_by session.now table.now watches.old)
        command.now).state (state_by session.now table.now watches.old) (state_by session.now table.now watches.new)
        result }
    ensures later { (K.output out.old).faults ≤ (K.output out.new).faults }
{
    match command {
        Command::Missing(path) => answer_missing(alloc, session, PartyMark::Unmarked, path, out),
        Command::Watch(name, path) => answer_watch(session, watches, table, name, path, out),
        Command::Unwatch(name, path) => answer_unwatch(session, watches, table, name, path, out),
        _ => Progress::Over,
    }
}

/// Answers a command.
pub fn answer_command<E: FactEngine, L: Ledger, K: Sink>(
    alloc: Global,
    session: &mut Session<E>,
    watches: &mut Watches,
    tables: &Tables<'_>,
    command: &Command,
    out: &mut K,
    steps: &mut Steps<L>,
) -> Progress
    requires same_checks { IsTrue (asks_checks command.now) → SameChecks (rules session.old.dict)
        (named_checks tables.now.checks.now) }
    requires few { session.old.changes < 2 ^ 63 }
    ensures stepped { SteppedAs (K.output out.old) (K.output out.new)
        (step_command (rules session.old.dict) (state_by session.old tables.now.relations.now watches.old) command.now)
        (state_by session.new tables.now.relations.now watches.new) result }
    ensures kept { KeptAs (step_command (rules session.old.dict) (state_by session.old tables.now.relations.now watches.old) command.now).state (state_by session.old tables.now.relations.now watches.old)
        (state_by session.new tables.now.relations.now watches.new) result }
    ensures dict { session.new.dict ≡ session.old.dict }
    ensures few { session.new.changes ≤ session.old.changes + 1 }
    ensures later { (K.output out.old).faults ≤ (K.output out.new).faults }
    ensures steps { steps.new ≤ steps.old + steps_of_command E.most (rules session.old.dict)
        (state_by session.old tables.now.relations.now watches.old) command.now }
{
    if is_session_command(command) {
        answer_session_command(
            session,
            watches,
            tables.relations,
            command,
            tables.checks,
            out,
            steps,
        )
    } else {
        answer_host_command(alloc, session, watches, tables.relations, command, out)
    }
}

// Answers the commands of the session, and tells the watches that fire behind a change.
ghost use Rattle.std.specs.Prelude.{◌≡◌, ◌≤◌, ◌<◌, ◌+◌, ◌^◌, ◌∷◌, [], true, if◌then◌else◌, IsTrue};
ghost use Rattle.text_checks.specs.Tables.{named_checks};
ghost use Rattle.dictionary.specs.AcceptedParts.{accepted};
ghost use Rattle.dict_meaning.specs.Plain.{plain};
ghost use Rattle.evaluation.specs.Results.{Results};
ghost use Rattle.fact_watch.specs.Tables.{named_relations};
ghost use Rattle.fact_watch.specs.Watching.{noted};
ghost use Rattle.graph_session.specs.Refusals.{SameChecks, asks_checks};
ghost use Rattle.graph_session.specs.Rules.{rules};
ghost use Rattle.graph_session.specs.Step.{is_change as changes};
ghost use Rattle.session_lines.specs.Answering.{KeptAs, SteppedAs, WrittenAs, replied, replied_and_fired, state_by};
ghost use Rattle.session_lines.specs.Stepping.{step_session_command};
ghost use Rattle.session_lines.specs.Steps.{steps_of_command};

use crate::firing::write_fired;
use crate::mark::PartyMark;
use crate::progress::Progress;
use crate::writing::{write_refusal, write_reply};
use dictionary::FactEngine;
use fact_values::NoMemory;
use fact_watch::{WatchTable, Watches};
use fg_io::Sink;
use graph_session::{Reply, Session};
use script_lines::{Command, Kind};
use std::sync::ledger::Ledger;
use steps::Steps;
use text_checks::CheckTable;

fn is_change(command: &Command) -> bool
    ensures { result ≡ changes command.now }
{
    match command.kind() {
        Kind::Change => true,
        Kind::Question | Kind::Missing | Kind::Watch | Kind::Quit => false,
    }
}

// Writes the reply of a change, and behind it the watches that fire.
fn write_change<E: FactEngine, K: Sink>(
    session: &Session<E>,
    watches: &Watches,
    table: &WatchTable,
    reply: Reply,
    out: &mut K,
) -> Progress
    requires noted { (before : Results) × (watches.now ≡ noted watches.now.watched before) }
    ensures written { (before : Results) → watches.now ≡ noted watches.now.watched before → WrittenAs (K.output out.old)
        (K.output out.new) (replied_and_fired session.now (named_relations table.now) before watches.now.watched reply)
        result }
    ensures later { (K.output out.old).faults ≤ (K.output out.new).faults }
{
    match write_reply(session, PartyMark::Unmarked, reply, out) {
        Progress::More => write_fired(session, watches, table, out),
        Progress::Over => Progress::Over,
        Progress::Unwritten => Progress::Unwritten,
        Progress::OutOfMemory => Progress::OutOfMemory,
    }
}

// Writes the reply of a command, and behind that of a change the watches that fire.
#[inline(always)]
fn write_said<E: FactEngine, K: Sink>(
    session: &Session<E>,
    watches: &Watches,
    table: &WatchTable,
    command: &Command,
    reply: Reply,
    out: &mut K,
) -> Progress
    requires noted { changes command.now ≡ true → (before : Results) × (watches.now ≡ noted watches.now.watched before) }
    ensures written { (before : Results) → (changes command.now ≡ true → watches.now ≡ noted watches.now.watched before)
        → WrittenAs (K.output out.old) (K.output out.new) (if changes command.now then replied_and_fired session.now
        (named_relations table.now) before watches.now.watched reply else replied session.now reply ∷ []) result }
    ensures later { (K.output out.old).faults ≤ (K.output out.new).faults }
{
    if is_change(command) {
        write_change(session, watches, table, reply, out)
    } else {
        write_reply(session, PartyMark::Unmarked, reply, out)
    }
}

// Answers a command. Before a change what is watched was noted.
#[inline(always)]
fn answer_noted<E: FactEngine, L: Ledger, K: Sink>(
    session: &mut Session<E>,
    watches: &Watches,
    table: &WatchTable,
    command: &Command,
    checks: &CheckTable,
    out: &mut K,
    steps: &mut Steps<L>,
) -> Progress
    requires noted { changes command.now ≡ true → watches.now ≡ noted watches.now.watched
        (plain (accepted session.old.dict) session.old.timeline.now) }
    requires same_checks { IsTrue (asks_checks command.now) → SameChecks (rules session.old.dict) (named_checks checks.now) }
    requires few { session.old.changes < 2 ^ 63 }
    ensures stepped { SteppedAs (K.output out.old) (K.output out.new) (step_session_command (rules session.old.dict)
        (state_by session.old table.now watches.now) command.now) (state_by session.new table.now watches.now) result }
    ensures kept { KeptAs (step_session_command (rules session.old.dict) (state_by session.old table.now watches.now)
        command.now).state (state_by session.old table.now watches.now) (state_by session.new table.now watches.now)
        result }
    ensures dict { session.new.dict ≡ session.old.dict }
    ensures few { session.new.changes ≤ session.old.changes + 1 }
    ensures later { (K.output out.old).faults ≤ (K.output out.new).faults }
    ensures steps { steps.new ≤ steps.old + steps_of_command E.most (rules session.old.dict)
        (state_by session.old table.now watches.now) command.now }
{
    match session.command(command, checks, steps) {
        Ok(reply) => write_said(session, watches, table, command, reply, out),
        Err(refusal) => write_refusal(PartyMark::Unmarked, refusal, out),
    }
}

// Answers a change. What is watched is noted before it.
fn answer_change<E: FactEngine, L: Ledger, K: Sink>(
    session: &mut Session<E>,
    watches: &mut Watches,
    table: &WatchTable,
    command: &Command,
    checks: &CheckTable,
    out: &mut K,
    steps: &mut Steps<L>,
) -> Progress
    requires is_change { changes command.now ≡ true }
    requires same_checks { IsTrue (asks_checks command.now) → SameChecks (rules session.old.dict) (named_checks checks.now) }
    requires few { session.old.changes < 2 ^ 63 }
    ensures stepped { SteppedAs (K.output out.old) (K.output out.new) (step_session_command (rules session.old.dict)
        (state_by session.old table.now watches.old) command.now) (state_by session.new table.now watches.new) result }
    ensures kept { KeptAs (step_session_command (rules session.old.dict) (state_by session.old table.now watches.old)
        command.now).state (state_by session.old table.now watches.old) (state_by session.new table.now watches.new)
        result }
    ensures dict { session.new.dict ≡ session.old.dict }
    ensures few { session.new.changes ≤ session.old.changes + 1 }
    ensures later { (K.output out.old).faults ≤ (K.output out.new).faults }
    ensures steps { steps.new ≤ steps.old + steps_of_command E.most (rules session.old.dict)
        (state_by session.old table.now watches.old) command.now }
{
    match watches.note(session) {
        Err(NoMemory) => Progress::OutOfMemory,
        Ok(()) => answer_noted(session, watches, table, command, checks, out, steps),
    }
}

/// Answers a command of the session.
pub fn answer_session_command<E: FactEngine, L: Ledger, K: Sink>(
    session: &mut Session<E>,
    watches: &mut Watches,
    table: &WatchTable,
    command: &Command,
    checks: &CheckTable,
    out: &mut K,
    steps: &mut Steps<L>,
) -> Progress
    requires same_checks { IsTrue (asks_checks command.now) → SameChecks (rules session.old.dict) (named_checks checks.now) }
    requires few { session.old.changes < 2 ^ 63 }
    ensures stepped { SteppedAs (K.output out.old) (K.output out.new) (step_session_command (rules session.old.dict)
        (state_by session.old table.now watches.old) command.now) (state_by session.new table.now watches.new) result }
    ensures kept { KeptAs (step_session_command (rules session.old.dict) (state_by session.old table.now watches.old)
        command.now).state (state_by session.old table.now watches.old) (state_by session.new table.now watches.new)
        result }
    ensures dict { session.new.dict ≡ session.old.dict }
    ensures few { session.new.changes ≤ session.old.changes + 1 }
    ensures later { (K.output out.old).faults ≤ (K.output out.new).faults }
    ensures steps { steps.new ≤ steps.old + steps_of_command E.most (rules session.old.dict)
        (state_by session.old table.now watches.old) command.now }
{
    if is_change(command) {
        answer_change(session, watches, table, command, checks, out, steps)
    } else {
        answer_noted(session, watches, table, command, checks, out, steps)
    }
}

// Answers a line of a script.
ghost use Rattle.std.specs.Prelude.{◌≡◌, ◌+◌, ◌<◌, ◌≤◌, ◌^◌, ◌∷◌, [], length, IsTrue};
ghost use Rattle.text_checks.specs.Tables.{named_checks};
ghost use Rattle.script_lines.specs.Lines.{ready_lines, whole};
ghost use Rattle.script_lines.specs.Parsing.{heard_in};
ghost use Rattle.graph_session.specs.Refusals.{SameChecks};
ghost use Rattle.graph_session.specs.Rules.{rules};
ghost use Rattle.session_lines.specs.Answering.{AnsweredAs, KeptAs, state_by};
ghost use Rattle.session_lines.specs.Stepping.{open_at, state_after};
ghost use Rattle.session_lines.specs.Steps.{steps_of_line, steps_of_lines};
ghost use Rattle.session_lines.specs.Tables.{heard_asks_checks, line_asks_checks};

use crate::at_once::reply_at_once;
use crate::command::answer_command;
use crate::mark::PartyMark;
use crate::progress::Progress;
use crate::tables::Tables;
use crate::writing::{write_ended, write_reply};
use dictionary::FactEngine;
use fact_watch::Watches;
use fg_io::Sink;
use graph_session::Session;
use script_lines::{LineFault, Ready, command_of};
use std::alloc::Global;
use std::sync::ledger::Ledger;
use steps::Steps;

// Answers a line of at most 4,096 bytes by the command that is read of it.
fn answer_read<E: FactEngine, L: Ledger, K: Sink>(
    alloc: Global,
    session: &mut Session<E>,
    watches: &mut Watches,
    tables: &Tables<'_>,
    line: &[u8],
    out: &mut K,
    steps: &mut Steps<L>,
) -> Progress
    requires short { length line.now ≤ 4096 }
    requires same_checks { IsTrue (heard_asks_checks (heard_in line.now)) → SameChecks (rules session.old.dict)
        (named_checks tables.now.checks.now) }
    requires few { session.old.changes < 2 ^ 63 }
    ensures answered { AnsweredAs (rules session.old.dict) (K.output out.old) (K.output out.new)
        (state_by session.old tables.now.relations.now watches.old) (state_by session.new tables.now.relations.now watches.new) (whole line.now ∷ []) result }
    ensures kept { KeptAs (state_after (rules session.old.dict)
        (open_at (state_by session.old tables.now.relations.now watches.old)) (whole line.now ∷ []))
        (state_by session.old tables.now.relations.now watches.old) (state_by session.new tables.now.relations.now watches.new) result }
    ensures dict { session.new.dict ≡ session.old.dict }
    ensures few { session.new.changes ≤ session.old.changes + 1 }
    ensures later { (K.output out.old).faults ≤ (K.output out.new).faults }
    ensures steps { steps.new ≤ steps.old + steps_of_line E.most (rules session.old.dict)
        (state_by session.old tables.now.relations.now watches.old) (whole line.now) }
{
    match command_of(alloc, line) {
        Ok(None) => Progress::More,
        Ok(Some(command)) => {
            let progress = answer_command(alloc, session, watches, tables, &command, out, steps);
            drop(command);
            progress
        }
        Err(LineFault::BadLine) => write_ended(b"refused 1 BadLine\n", out),
        Err(LineFault::NoMemory) => Progress::OutOfMemory,
    }
}

// Answers a line of at most 4,096 bytes.
fn answer_line<E: FactEngine, L: Ledger, K: Sink>(
    alloc: Global,
    session: &mut Session<E>,
    watches: &mut Watches,
    tables: &Tables<'_>,
    line: &[u8],
    out: &mut K,
    steps: &mut Steps<L>,
) -> Progress
    requires short { length line.now ≤ 4096 }
    requires same_checks { IsTrue (heard_asks_checks (heard_in line.now)) → SameChecks (rules session.old.dict)
        (named_checks tables.now.checks.now) }
    requires few { session.old.changes < 2 ^ 63 }
    ensures answered { AnsweredAs (rules session.old.dict) (K.output out.old) (K.output out.new)
        (state_by session.old tables.now.relations.now watches.old) (state_by session.new tables.now.relations.now watches.new) (whole line.now ∷ []) result }
    ensures kept { KeptAs (state_after (rules session.old.dict)
        (open_at (state_by session.old tables.now.relations.now watches.old)) (whole line.now ∷ []))
        (state_by session.old tables.now.relations.now watches.old) (state_by session.new tables.now.relations.now watches.new) result }
    ensures dict { session.new.dict ≡ session.old.dict }
    ensures few { session.new.changes ≤ session.old.changes + 1 }
    ensures later { (K.output out.old).faults ≤ (K.output out.new).faults }
    ensures steps { steps.new ≤ steps.old + steps_of_line E.most (rules session.old.dict)
        (state_by session.old tables.now.relations.now watches.old) (whole line.now) }
{
    match reply_at_once(session, line) {
        Some(reply) => write_reply(session, PartyMark::Unmarked, reply, out),
        None => answer_read(alloc, session, watches, tables, line, out, steps),
    }
}

/// Answers the line that is ready, if there is one.
pub fn answer_ready<E: FactEngine, L: Ledger, K: Sink>(
    alloc: Global,
    session: &mut Session<E>,
    watches: &mut Watches,
    tables: &Tables<'_>,
    ready: Ready,
    line: &[u8],
    out: &mut K,
    steps: &mut Steps<L>,
) -> Progress
    requires short { length line.now ≤ 4096 }
    requires same_checks { IsTrue (line_asks_checks ready line.now) → SameChecks (rules session.old.dict)
        (named_checks tables.now.checks.now) }
    requires few { session.old.changes < 2 ^ 63 }
    ensures answered { AnsweredAs (rules session.old.dict) (K.output out.old) (K.output out.new)
        (state_by session.old tables.now.relations.now watches.old) (state_by session.new tables.now.relations.now watches.new) (ready_lines ready line.now) result }
    ensures kept { KeptAs (state_after (rules session.old.dict)
        (open_at (state_by session.old tables.now.relations.now watches.old)) (ready_lines ready line.now))
        (state_by session.old tables.now.relations.now watches.old) (state_by session.new tables.now.relations.now watches.new) result }
    ensures dict { session.new.dict ≡ session.old.dict }
    ensures few { session.new.changes ≤ session.old.changes + 1 }
    ensures later { (K.output out.old).faults ≤ (K.output out.new).faults }
    ensures steps { steps.new ≤ steps.old + steps_of_lines E.most (rules session.old.dict)
        (open_at (state_by session.old tables.now.relations.now watches.old)) (ready_lines ready line.now) }
{
    match ready {
        Ready::NotYet => Progress::More,
        Ready::Whole => answer_line(alloc, session, watches, tables, line, out, steps),
        Ready::Long => write_ended(b"refused 2 LongLine\n", out),
    }
}

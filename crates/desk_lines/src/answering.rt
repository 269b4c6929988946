// Answers a line of a script of several parties.
ghost use Rattle.std.specs.Prelude.{◌≡◌, ◌+◌, ◌<◌, ◌≤◌, ◌^◌, ◌∷◌, [], length};
ghost use Rattle.script_lines.specs.Lines.{ready_lines, whole};
ghost use Rattle.text_checks.specs.Tables.{named_checks};
ghost use Rattle.graph_session.specs.Refusals.{SameChecks};
ghost use Rattle.graph_session.specs.SessionView.{session_state};
ghost use Rattle.shared_desk.specs.Desk.{Desk as Defined};
ghost use Rattle.shared_desk.specs.DeskView.{StandsFor, rules_of};
ghost use Rattle.desk_lines.specs.DeskAnswering.{DeskAnsweredAs, DeskOutput};
ghost use Rattle.desk_lines.specs.DeskStepping.{desk_open, step_said};
ghost use Rattle.desk_lines.specs.DeskSteps.{steps_of_desk_lines, steps_of_party_line, steps_of_said};

use crate::command::answer_command;
use crate::party_line::{PartyLine, read_party_line};
use dictionary::FactEngine;
use fact_values::NoMemory;
use fg_io::Sink;
use script_lines::Ready;
use session_lines::{PartyMark, Progress, write_ended, write_line};
use shared_desk::Desk;
use std::alloc::Global;
use std::sync::ledger::Ledger;
use steps::Steps;
use text_checks::CheckTable;
use value_text::Line;

// Answers what a line says.
fn answer_said<E: FactEngine, L: Ledger, K: Sink>(
    alloc: Global,
    desk: &mut Desk<E>,
    checks: &CheckTable,
    said: &PartyLine,
    out: &mut K,
    steps: &mut Steps<L>,
) -> Progress
    requires same_checks { SameChecks (rules_of desk.old) (named_checks checks.now) }
    requires few { desk.old.session.changes < 2 ^ 63 }
    ensures output { (d : Defined) → StandsFor desk.old d → DeskOutput (K.output out.old) (K.output out.new) desk.old
        desk.new (step_said (rules_of desk.old) d said.now).lines (step_said (rules_of desk.old) d said.now).state
        result }
    ensures dict { desk.new.session.dict ≡ desk.old.session.dict }
    ensures few { desk.new.session.changes ≤ desk.old.session.changes + 1 }
    ensures later { (K.output out.old).faults ≤ (K.output out.new).faults }
    ensures steps { steps.new ≤ steps.old + steps_of_said E.most (rules_of desk.old) (session_state desk.old.session)
        said.now }
{
    match said {
        PartyLine::Silent => Progress::More,
        PartyLine::NoParty => write_ended(b"refused 1 BadLine\n", out),
        PartyLine::NoCommand(party) => {
            let mut text = Line::new();
            text.push(b"refused 1 BadLine");
            write_line(PartyMark::Party(*party), &mut text, out)
        }
        PartyLine::Asks(party, command) => {
            answer_command(alloc, desk, *party, command, checks, out, steps)
        }
    }
}

// Answers a line of at most 4,096 bytes.
fn answer_line<E: FactEngine, L: Ledger, K: Sink>(
    alloc: Global,
    desk: &mut Desk<E>,
    checks: &CheckTable,
    line: &[u8],
    out: &mut K,
    steps: &mut Steps<L>,
) -> Progress
    requires short { length line.now ≤ 4096 }
    requires same_checks { SameChecks (rules_of desk.old) (named_checks checks.now) }
    requires few { desk.old.session.changes < 2 ^ 63 }
    ensures answered { (d : Defined) → StandsFor desk.old d → DeskAnsweredAs (rules_of desk.old) (K.output out.old)
        (K.output out.new) desk.old desk.new d (whole line.now ∷ []) result }
    ensures dict { desk.new.session.dict ≡ desk.old.session.dict }
    ensures few { desk.new.session.changes ≤ desk.old.session.changes + 1 }
    ensures later { (K.output out.old).faults ≤ (K.output out.new).faults }
    ensures steps { steps.new ≤ steps.old + steps_of_party_line E.most (rules_of desk.old)
        (session_state desk.old.session) (whole line.now) }
{
    match read_party_line(alloc, line) {
        Ok(said) => {
            let progress = answer_said(alloc, desk, checks, &said, out, steps);
            drop(said);
            progress
        }
        Err(NoMemory) => Progress::OutOfMemory,
    }
}

/// Answers the line that is ready, if there is one.
pub fn answer_ready<E: FactEngine, L: Ledger, K: Sink>(
    alloc: Global,
    desk: &mut Desk<E>,
    checks: &CheckTable,
    ready: Ready,
    line: &[u8],
    out: &mut K,
    steps: &mut Steps<L>,
) -> Progress
    requires short { length line.now ≤ 4096 }
    requires same_checks { SameChecks (rules_of desk.old) (named_checks checks.now) }
    requires few { desk.old.session.changes < 2 ^ 63 }
    ensures answered { (d : Defined) → StandsFor desk.old d → DeskAnsweredAs (rules_of desk.old) (K.output out.old)
        (K.output out.new) desk.old desk.new d (ready_lines ready line.now) result }
    ensures dict { desk.new.session.dict ≡ desk.old.session.dict }
    ensures few { desk.new.session.changes ≤ desk.old.session.changes + 1 }
    ensures later { (K.output out.old).faults ≤ (K.output out.new).faults }
    ensures steps { (d : Defined) → StandsFor desk.old d → steps.new ≤ steps.old + steps_of_desk_lines E.most
        (rules_of desk.old) (desk_open d) (ready_lines ready line.now) }
{
    match ready {
        Ready::NotYet => Progress::More,
        Ready::Whole => answer_line(alloc, desk, checks, line, out, steps),
        Ready::Long => write_ended(b"refused 2 LongLine\n", out),
    }
}

// Answers a party's command.
ghost use Rattle.std.specs.Prelude.{◌≡◌, ◌≤◌, ◌<◌, ◌+◌, ◌^◌, false};
ghost use Rattle.text_checks.specs.Tables.{named_checks};
ghost use Rattle.graph_session.specs.Refusals.{SameChecks};
ghost use Rattle.graph_session.specs.SessionView.{session_state};
ghost use Rattle.graph_session.specs.Step.{most_steps};
ghost use Rattle.shared_desk.specs.Desk.{Desk as Defined, desk_step};
ghost use Rattle.shared_desk.specs.DeskView.{StandsFor, rules_of};
ghost use Rattle.desk_lines.specs.DeskAnswering.{DeskOutput};
ghost use Rattle.desk_lines.specs.DeskStepping.{is_session_command as known, step_asked, step_decided};

use crate::writing::write_refusal;
use dictionary::FactEngine;
use fg_io::Sink;
use script_lines::{Command, Kind};
use session_lines::{PartyMark, Progress, answer_missing, write_reply};
use shared_desk::Desk;
use std::alloc::Global;
use std::sync::ledger::Ledger;
use steps::Steps;
use text_checks::CheckTable;

// Whether the desk itself answers it.
fn is_session_command(command: &Command) -> bool
    ensures { result ≡ known command.now }
{
    match command.kind() {
        Kind::Change | Kind::Question | Kind::Watch => true,
        Kind::Missing | Kind::Quit => false,
    }
}

// Answers a command of the desk.
fn answer_session_command<E: FactEngine, L: Ledger, K: Sink>(
    desk: &mut Desk<E>,
    party: u32,
    command: &Command,
    checks: &CheckTable,
    out: &mut K,
    steps: &mut Steps<L>,
) -> Progress
    requires same_checks { SameChecks (rules_of desk.old) (named_checks checks.now) }
    requires few { desk.old.session.changes < 2 ^ 63 }
    ensures output { (d : Defined) → StandsFor desk.old d → DeskOutput (K.output out.old) (K.output out.new) desk.old
        desk.new (step_decided (rules_of desk.old) d party (desk_step (rules_of desk.old) d party command.now)).lines
        (step_decided (rules_of desk.old) d party (desk_step (rules_of desk.old) d party command.now)).state result }
    ensures dict { desk.new.session.dict ≡ desk.old.session.dict }
    ensures few { desk.new.session.changes ≤ desk.old.session.changes + 1 }
    ensures later { (K.output out.old).faults ≤ (K.output out.new).faults }
    ensures steps { steps.new ≤ steps.old + most_steps (E.most (rules_of desk.old).accepted) (rules_of desk.old)
        (session_state desk.old.session) command.now }
{
    match desk.line(party, command, checks, steps) {
        Ok(reply) => write_reply(desk.session(), PartyMark::Party(party), reply, out),
        Err(refusal) => write_refusal(party, refusal, out),
    }
}

// Answers a command that the desk itself doesn't answer.
fn answer_host_command<E: FactEngine, K: Sink>(
    alloc: Global,
    desk: &Desk<E>,
    party: u32,
    command: &Command,
    out: &mut K,
) -> Progress
    requires { known command.now ≡ false }
    ensures output { (d : Defined) → StandsFor desk.now d → DeskOutput (K.output out.old) (K.output out.new) desk.now
        desk.now (step_asked (rules_of desk.now) d party command.now).lines
        (step_asked (rules_of desk.now) d party command.now).state result }
    ensures later { (K.output out.old).faults ≤ (K.output out.new).faults }
{
    match command {
        Command::Missing(path) => {
            answer_missing(alloc, desk.session(), PartyMark::Party(party), path, out)
        }
        _ => Progress::Over,
    }
}

/// Answers a party's command.
pub fn answer_command<E: FactEngine, L: Ledger, K: Sink>(
    alloc: Global,
    desk: &mut Desk<E>,
    party: u32,
    command: &Command,
    checks: &CheckTable,
    out: &mut K,
    steps: &mut Steps<L>,
) -> Progress
    requires same_checks { SameChecks (rules_of desk.old) (named_checks checks.now) }
    requires few { desk.old.session.changes < 2 ^ 63 }
    ensures output { (d : Defined) → StandsFor desk.old d → DeskOutput (K.output out.old) (K.output out.new) desk.old
        desk.new (step_asked (rules_of desk.old) d party command.now).lines
        (step_asked (rules_of desk.old) d party command.now).state result }
    ensures dict { desk.new.session.dict ≡ desk.old.session.dict }
    ensures few { desk.new.session.changes ≤ desk.old.session.changes + 1 }
    ensures later { (K.output out.old).faults ≤ (K.output out.new).faults }
    ensures steps { steps.new ≤ steps.old + most_steps (E.most (rules_of desk.old).accepted) (rules_of desk.old)
        (session_state desk.old.session) command.now }
{
    if is_session_command(command) {
        answer_session_command(desk, party, command, checks, out, steps)
    } else {
        answer_host_command(alloc, desk, party, command, out)
    }
}

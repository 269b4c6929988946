//! What tests of sessions begin with: a session over a dictionary, and commands that it carries out.
ghost use Rattle.std.specs.Prelude.{◌≡◌, ◌<◌};

use dictionary::{Dictionary, accept};
use graph_session::Session;
use plain_table::PlainTable;
use script_lines::{Command, command_of};
use std::alloc::Global;
use std::marker::Brand;
use std::sync::ledger::{Blank, Ledger};
use steps::Steps;
use text_checks::CheckTable;

/// The dictionary of this text: none where it isn't accepted, or memory is wanting.
pub fn accepted(alloc: Global, dict: &str) -> Option<Dictionary> {
    let checks = CheckTable::new(alloc);
    let dictionary = accept(alloc, dict.as_bytes(), &checks).ok();
    drop(checks);
    dictionary
}

/// The same, of which nothing is answered.
pub fn begin(alloc: Global, dict: &str) -> Option<Session<PlainTable>> {
    let dict = accepted(alloc, dict)?;
    Session::new(alloc, dict).ok()
}

fn carry_out_counted<L: Ledger>(
    session: &mut Session<PlainTable>,
    command: &Command,
    checks: &CheckTable,
    blank: Blank,
) -> bool
    requires name { blank.name ≡ L.name }
    requires parts { blank.parts ≡ L.parts }
    requires some { 0 < blank.parts }
{
    if !session.dict().same_checks(checks) || session.changes() > 1_000 {
        return false;
    }
    let mut steps = Steps::<L>::new(blank);
    session.command(command, checks, &mut steps).is_ok()
}

fn carry_out(alloc: Global, session: &mut Session<PlainTable>, command: &Command) -> bool {
    let checks = CheckTable::new(alloc);
    let is_carried_out = carry_out_counted::<Brand>(session, command, &checks, Blank::new(1));
    drop(checks);
    is_carried_out
}

/// The command of this line: none where it spells none, is longer than 100 bytes, or memory is wanting.
pub fn spelled(alloc: Global, line: &str) -> Option<Command> {
    if line.len() > 100 {
        return None;
    }
    command_of(alloc, line.as_bytes()).ok()?
}

fn carried_out(alloc: Global, session: &mut Session<PlainTable>, command: &Command) -> Option<()> {
    if carry_out(alloc, session, command) {
        Some(())
    } else {
        None
    }
}

/// Carries out the command of a line: none where it is refused, or memory is wanting.
pub fn obey(alloc: Global, session: &mut Session<PlainTable>, line: &str) -> Option<()> {
    match spelled(alloc, line) {
        Some(command) => {
            let end = carried_out(alloc, session, &command);
            drop(command);
            end
        }
        None => None,
    }
}

//! What a test of a desk begins with: a desk over a dictionary and the incremental engine, and lines of its parties.
ghost use Rattle.std.specs.Prelude.{◌≡◌, ◌<◌};

use crate::begun::{accepted, spelled};
use graph_session::{Refusal, Reply};
use recalc::Recalc;
use script_lines::Command;
use shared_desk::{Desk, DeskRefusal};
use std::alloc::Global;
use std::marker::Brand;
use std::sync::ledger::{Blank, Ledger};
use steps::Steps;
use text_checks::CheckTable;

/// What a party is answered.
pub type Said = Result<Reply, DeskRefusal>;

/// A desk at which nobody has done anything, over the dictionary of this text: none where it isn't accepted, or memory is
/// wanting.
pub fn begin(alloc: Global, dict: &str) -> Option<Desk<Recalc>> {
    let dict = accepted(alloc, dict)?;
    Desk::new(alloc, dict).ok()
}

fn said_counted<L: Ledger>(
    desk: &mut Desk<Recalc>,
    party: u32,
    command: &Command,
    checks: &CheckTable,
    blank: Blank,
) -> Said
    requires name { blank.name ≡ L.name }
    requires parts { blank.parts ≡ L.parts }
    requires some { 0 < blank.parts }
{
    if !desk.session().dict().same_checks(checks) || desk.session().changes() > 1_000 {
        return Err(DeskRefusal::Session(Refusal::NoMemory));
    }
    let mut steps = Steps::<L>::new(blank);
    desk.line(party, command, checks, &mut steps)
}

fn said(alloc: Global, desk: &mut Desk<Recalc>, party: u32, command: &Command) -> Said {
    let checks = CheckTable::new(alloc);
    let said = said_counted::<Brand>(desk, party, command, &checks, Blank::new(1));
    drop(checks);
    said
}

// Whether the party is answered so: none where memory is wanting.
fn is_answered(
    alloc: Global,
    desk: &mut Desk<Recalc>,
    party: u32,
    command: &Command,
    wanted: &Said,
) -> Option<bool> {
    match said(alloc, desk, party, command) {
        Err(DeskRefusal::Session(Refusal::NoMemory)) => None,
        said => Some(said == *wanted),
    }
}

/// Whether the party's line is answered so: none where memory is wanting.
pub fn is_said(
    alloc: Global,
    desk: &mut Desk<Recalc>,
    party: u32,
    line: &str,
    wanted: &Said,
) -> Option<bool> {
    match spelled(alloc, line) {
        Some(command) => {
            let is_answered = is_answered(alloc, desk, party, &command, wanted);
            drop(command);
            is_answered
        }
        None => None,
    }
}

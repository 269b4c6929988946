//! A test of `graph_session::run`.
ghost use Rattle.std.specs.Prelude.{◌≡◌, ◌<◌};

use crate::begun::begin;
use fact_paths::read_slot_path;
use fact_values::NoMemory;
use graph_session::{Refusal, Reply, Session, run};
use plain_table::PlainTable;
use script_lines::Command;
use std::alloc::Global;
use std::marker::Brand;
use std::sync::ledger::{Blank, Ledger};
use std::test::Fail;
use steps::Steps;
use text_checks::CheckTable;

const COLLECTION: &str = r#"{"version":"1","facts":[{"path":"/c","writable":"Collection"}]}"#;

fn run_counted<L: Ledger>(
    alloc: Global,
    session: &mut Session<PlainTable>,
    commands: &[Command],
    checks: &CheckTable,
    blank: Blank,
) -> Result<Vec<Result<Reply, Refusal>>, NoMemory>
    requires name { blank.name ≡ L.name }
    requires parts { blank.parts ≡ L.parts }
    requires some { 0 < blank.parts }
{
    if !session.dict().same_checks(checks) || session.changes() > 1_000 || commands.len() > 1_000 {
        return Err(NoMemory);
    }
    let mut steps = Steps::<L>::new(blank);
    run(alloc, session, commands, checks, &mut steps)
}

fn run_all(
    alloc: Global,
    session: &mut Session<PlainTable>,
    commands: &[Command],
) -> Result<Vec<Result<Reply, Refusal>>, NoMemory> {
    let checks = CheckTable::new(alloc);
    let all = run_counted::<Brand>(alloc, session, commands, &checks, Blank::new(1));
    drop(checks);
    all
}

fn is_first_added(reply: Reply) -> bool {
    match reply {
        Reply::Added(number) => number == 1,
        _ => false,
    }
}

fn is_added(said: &Result<Reply, Refusal>) -> bool {
    match said {
        Ok(reply) => is_first_added(*reply),
        Err(_) => false,
    }
}

fn is_nothing_to_undo(said: &Result<Reply, Refusal>) -> bool {
    match said {
        Ok(_) => false,
        Err(refusal) => *refusal == Refusal::NothingToUndo,
    }
}

// The first adds a member, the second undoes that, and the third has nothing to undo.
fn are_said(all: &[Result<Reply, Refusal>]) -> bool {
    all.len() == 3 && is_added(&all[0]) && all[1].is_ok() && is_nothing_to_undo(&all[2])
}

// Whether that is said: none where memory is wanting.
fn is_said(alloc: Global, session: &mut Session<PlainTable>, commands: &[Command]) -> Option<bool> {
    match run_all(alloc, session, commands) {
        Ok(all) => {
            let are_said = are_said(all.as_slice());
            drop(all);
            Some(are_said)
        }
        Err(NoMemory) => None,
    }
}

fn commands(alloc: Global) -> Option<Vec<Command>> {
    let path = read_slot_path(alloc, "/c").ok()?;
    Vec::from_array(alloc, [Command::Add(path), Command::Undo, Command::Undo]).ok()
}

fn add_and_undo(alloc: Global, session: &mut Session<PlainTable>) -> Option<bool> {
    match commands(alloc) {
        Some(commands) => {
            let is_said = is_said(alloc, session, commands.as_slice());
            drop(commands);
            is_said
        }
        None => None,
    }
}

fn is_answered(alloc: Global) -> Option<bool> {
    match begin(alloc, COLLECTION) {
        Some(mut session) => {
            let is_answered = add_and_undo(alloc, &mut session);
            drop(session);
            is_answered
        }
        None => None,
    }
}

#[test]
fn a_run_answers_each_command(rt: HostRuntime) -> Result<(), Fail> {
    let is_answered = is_answered(rt.alloc()).ok_or("no memory")?;
    assert!(rt; is_answered);
    Ok(())
}

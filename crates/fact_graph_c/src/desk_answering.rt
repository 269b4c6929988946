// Answers a host's line at a desk. Room for the reply is taken first.
ghost use Rattle.std.specs.Prelude.{◌≡◌, ◌<◌, ◌≤◌, ◌^◌, [], false, IfOk, OnErr};
ghost use Rattle.text_checks.specs.Tables.{named_checks};
ghost use Rattle.graph_session.specs.Refusals.{SameChecks};
ghost use Rattle.fact_graph_c.specs.DeskAnswers.{AnswersDesk, desk_rules, desk_said};
ghost use Rattle.fact_graph_c.specs.Room.{desk_room};
ghost use Rattle.fact_graph_c.specs.Sound.{IsSoundDesk};

use crate::answering::{MOST_CHANGES, readied};
use crate::desk_engine::DeskEngine;
use crate::outcome::Outcome;
use desk_lines::answer_ready;
use fact_values::NoMemory;
use session_lines::{Progress, standard_checks};
use std::alloc::{AllocError, Global};
use std::marker::Brand;
use std::sync::ledger::{Blank, Ledger};
use steps::Steps;
use text_checks::CheckTable;

/// So many bytes are taken for a reply before a line is answered: more than a line of a reply has.
const ROOM: usize = 1_100;

// What is true of a desk. Nothing is done.
fn know(engine: &DeskEngine)
    ensures { IsSoundDesk engine.now }
{
    let session = engine.desk.session();
    let _fit = session.answers();
    let accepted = session.dict().source();
    let _lists = accepted.enums().len();
}

// Answers a line of a script that goes on. Nothing is said yet.
fn answer_open<L: Ledger>(
    alloc: Global,
    engine: &mut DeskEngine,
    checks: &CheckTable,
    line: &[u8],
    steps: &mut Steps<L>,
) -> Outcome
    requires checks { SameChecks (desk_rules engine.old) (named_checks checks.now) }
    requires goes_on { engine.old.over ≡ false }
    requires empty { desk_said engine.old ≡ [] }
    requires roomy { desk_room ≤ engine.old.text.room }
    requires few { engine.old.desk.session.changes < 2 ^ 63 }
    ensures answered { AnswersDesk engine.old engine.new line.now result }
    ensures dict { engine.new.desk.session.dict ≡ engine.old.desk.session.dict }
{
    know(engine);
    let ready = readied(line);
    match answer_ready(
        alloc,
        &mut engine.desk,
        checks,
        ready.0,
        ready.1,
        &mut engine.text,
        steps,
    ) {
        Progress::More => Outcome::Said,
        Progress::Over => {
            engine.over = true;
            Outcome::Over
        }
        Progress::OutOfMemory => {
            engine.text.clear();
            Outcome::NoMemory
        }
        Progress::Unwritten => {
            engine.text.clear();
            Outcome::NoMemory
        }
    }
}

// The same with steps that are counted for nobody.
fn answer_uncounted<L: Ledger>(
    alloc: Global,
    engine: &mut DeskEngine,
    checks: &CheckTable,
    line: &[u8],
    blank: Blank,
) -> Outcome
    requires name { blank.name ≡ L.name }
    requires parts { blank.parts ≡ L.parts }
    requires some { 0 < blank.parts }
    requires checks { SameChecks (desk_rules engine.old) (named_checks checks.now) }
    requires goes_on { engine.old.over ≡ false }
    requires empty { desk_said engine.old ≡ [] }
    requires roomy { desk_room ≤ engine.old.text.room }
    requires few { engine.old.desk.session.changes < 2 ^ 63 }
    ensures answered { AnswersDesk engine.old engine.new line.now result }
    ensures dict { engine.new.desk.session.dict ≡ engine.old.desk.session.dict }
{
    let mut steps = Steps::<L>::new(blank);
    answer_open(alloc, engine, checks, line, &mut steps)
}

// Answers a line by these checks.
fn answer_by(alloc: Global, engine: &mut DeskEngine, checks: &CheckTable, line: &[u8]) -> Outcome
    requires { SameChecks (desk_rules engine.old) (named_checks checks.now) }
    ensures answered { AnswersDesk engine.old engine.new line.now result }
    ensures dict { engine.new.desk.session.dict ≡ engine.old.desk.session.dict }
{
    engine.text.clear();
    if engine.over {
        return Outcome::Over;
    }
    if engine.desk.session().changes() >= MOST_CHANGES {
        return Outcome::NoMemory;
    }
    match engine.text.make_room(ROOM) {
        Err(NoMemory) => Outcome::NoMemory,
        Ok(()) => answer_uncounted::<Brand>(alloc, engine, checks, line, Blank::new(1)),
    }
}

// Answers a line by the checks of the dictionary.
fn try_answer(alloc: Global, engine: &mut DeskEngine, line: &[u8]) -> Result<Outcome, AllocError>
    ensures answered { IfOk result (AnswersDesk engine.old engine.new line.now) }
    ensures dict { engine.new.desk.session.dict ≡ engine.old.desk.session.dict }
    ensures unchanged { OnErr result (engine.new ≡ engine.old) }
{
    let mut checks = CheckTable::new(alloc);
    if engine.desk.session().dict().same_checks(&checks) {
        return Ok(answer_by(alloc, engine, &checks, line));
    }
    standard_checks!(alloc, checks);
    Ok(answer_by(alloc, engine, &checks, line))
}

/// Answers a line, which has no newline.
pub fn answer_at_desk(alloc: Global, engine: &mut DeskEngine, line: &[u8]) -> Outcome
    ensures answered { AnswersDesk engine.old engine.new line.now result }
    ensures dict { engine.new.desk.session.dict ≡ engine.old.desk.session.dict }
{
    match try_answer(alloc, engine, line) {
        Ok(outcome) => outcome,
        Err(_) => {
            engine.text.clear();
            Outcome::NoMemory
        }
    }
}

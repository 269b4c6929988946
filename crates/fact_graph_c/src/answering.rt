// Answers a host's line at a session. Room for the reply is taken first.
ghost use Rattle.std.specs.Prelude.{◌≡◌, ◌+◌, ◌*◌, ◌-◌, ◌<◌, ◌≤◌, ◌^◌, ◌∷◌, [], ◌++◌, false, IfOk, IsTrue, OnErr, length};
ghost use Rattle.script_lines.specs.Lines.{ready_lines};
ghost use Rattle.script_lines.specs.Parsing.{heard_in};
ghost use Rattle.text_checks.specs.Tables.{named_checks};
ghost use Rattle.fact_watch.specs.Tables.{named_relations};
ghost use Rattle.graph_session.specs.Refusals.{SameChecks};
ghost use Rattle.fact_graph_c.specs.Answering.{Answers, line_given, rules_of, said};
ghost use Rattle.fact_graph_c.specs.Consulting.{Serves};
ghost use Rattle.fact_graph_c.specs.Room.{room_for};
ghost use Rattle.fact_graph_c.specs.Sound.{IsSound};
ghost use Rattle.session_lines.specs.Tables.{heard_asks_checks, line_asks_checks, standard_checks, standard_relations};

use crate::consulting::{asks_no_check, asks_no_relation};
use crate::engine::Engine;
use crate::outcome::Outcome;
use fact_values::NoMemory;
use fact_watch::WatchTable;
use script_lines::Ready;
use session_lines::{Progress, Tables, answer_ready, standard_checks, standard_relations};
use std::alloc::{AllocError, Global};
use std::marker::Brand;
use std::sync::ledger::{Blank, Ledger};
use steps::Steps;
use text_checks::CheckTable;

/// The most bytes of a line.
const LINE: usize = 4_096;

/// The most changes that a session makes.
pub const MOST_CHANGES: u64 = 1 << 62;

/// How the line is ready, and the line where it isn't too long.
pub fn readied(line: &[u8]) -> (Ready, &[u8])
    ensures lines { ready_lines result.0 result.1.now ≡ line_given line.now ∷ [] }
    ensures short { length result.1.now ≤ 4096 }
    ensures checks { IsTrue (line_asks_checks result.0 result.1.now) → IsTrue (heard_asks_checks (heard_in line.now)) }
{
    if line.len() > LINE {
        (Ready::Long, &[])
    } else {
        (Ready::Whole, line)
    }
}

// How many bytes a reply may take behind a change, where so many slots are watched.
fn room_of(watches: u32) -> usize
    requires { watches ≤ 1000 }
    ensures { result ≡ room_for watches }
{
    64 + 161 * watches as usize
}

// What is true of an engine. Nothing is done.
fn know(engine: &Engine)
    ensures { IsSound engine.now }
{
    let _accepted = engine.session.dict().source();
    let _fit = engine.session.answers();
    let _few = engine.watches.len();
}

// Answers a line of a script that goes on. Nothing is said yet.
fn answer_open<L: Ledger>(
    alloc: Global,
    engine: &mut Engine,
    checks: &CheckTable,
    relations: &WatchTable,
    line: &[u8],
    steps: &mut Steps<L>,
) -> Outcome
    requires checks { IsTrue (heard_asks_checks (heard_in line.now)) → SameChecks (rules_of engine.old)
        (named_checks checks.now) }
    requires relations { Serves (named_relations relations.now) engine.old.watches.watched line.now }
    requires goes_on { engine.old.over ≡ false }
    requires empty { said engine.old ≡ [] }
    requires roomy { room_for (length engine.old.watches.watched) ≤ engine.old.text.room }
    requires few { engine.old.session.changes < 2 ^ 63 }
    ensures answered { Answers engine.old engine.new line.now result }
    ensures dict { engine.new.session.dict ≡ engine.old.session.dict }
{
    know(engine);
    let ready = readied(line);
    let tables = Tables { checks, relations };
    match answer_ready(
        alloc,
        &mut engine.session,
        &mut engine.watches,
        &tables,
        ready.0,
        ready.1,
        &mut engine.text,
        steps,
    ) {
        Progress::More => Outcome::Said,
        Progress::Over => {
            engine.over = true;
            Outcome::Over
        }
        Progress::OutOfMemory => {
            engine.text.clear();
            Outcome::NoMemory
        }
        Progress::Unwritten => {
            know(engine);
            engine.text.clear();
            Outcome::NoMemory
        }
    }
}

// The same with steps that are counted for nobody.
fn answer_uncounted<L: Ledger>(
    alloc: Global,
    engine: &mut Engine,
    checks: &CheckTable,
    relations: &WatchTable,
    line: &[u8],
    blank: Blank,
) -> Outcome
    requires name { blank.name ≡ L.name }
    requires parts { blank.parts ≡ L.parts }
    requires some { 0 < blank.parts }
    requires checks { IsTrue (heard_asks_checks (heard_in line.now)) → SameChecks (rules_of engine.old)
        (named_checks checks.now) }
    requires relations { Serves (named_relations relations.now) engine.old.watches.watched line.now }
    requires goes_on { engine.old.over ≡ false }
    requires empty { said engine.old ≡ [] }
    requires roomy { room_for (length engine.old.watches.watched) ≤ engine.old.text.room }
    requires few { engine.old.session.changes < 2 ^ 63 }
    ensures answered { Answers engine.old engine.new line.now result }
    ensures dict { engine.new.session.dict ≡ engine.old.session.dict }
{
    let mut steps = Steps::<L>::new(blank);
    answer_open(alloc, engine, checks, relations, line, &mut steps)
}

// Answers a line.
fn answer_by(
    alloc: Global,
    engine: &mut Engine,
    checks: &CheckTable,
    relations: &WatchTable,
    line: &[u8],
) -> Outcome
    requires checks { IsTrue (heard_asks_checks (heard_in line.now)) → SameChecks (rules_of engine.old)
        (named_checks checks.now) }
    requires relations { Serves (named_relations relations.now) engine.old.watches.watched line.now }
    ensures answered { Answers engine.old engine.new line.now result }
    ensures dict { engine.new.session.dict ≡ engine.old.session.dict }
{
    engine.text.clear();
    if engine.over {
        return Outcome::Over;
    }
    if engine.session.changes() >= MOST_CHANGES {
        return Outcome::NoMemory;
    }
    match engine.text.make_room(room_of(engine.watches.len())) {
        Err(NoMemory) => Outcome::NoMemory,
        Ok(()) => {
            answer_uncounted::<Brand>(alloc, engine, checks, relations, line, Blank::new(1))
        }
    }
}

// Answers a line by these checks, and by the relations that it asks.
fn try_answer_by(
    alloc: Global,
    engine: &mut Engine,
    checks: &CheckTable,
    line: &[u8],
) -> Result<Outcome, AllocError>
    requires { IsTrue (heard_asks_checks (heard_in line.now)) → SameChecks (rules_of engine.old)
        (named_checks checks.now) }
    ensures answered { IfOk result (Answers engine.old engine.new line.now) }
    ensures dict { engine.new.session.dict ≡ engine.old.session.dict }
    ensures unchanged { OnErr result (engine.new ≡ engine.old) }
{
    let mut relations = WatchTable::new(alloc);
    if asks_no_relation(&engine.watches, line) {
        return Ok(answer_by(alloc, engine, checks, &relations, line));
    }
    standard_relations!(alloc, relations);
    Ok(answer_by(alloc, engine, checks, &relations, line))
}

// Answers a line by the checks and the relations that it asks.
fn try_answer(alloc: Global, engine: &mut Engine, line: &[u8]) -> Result<Outcome, AllocError>
    ensures answered { IfOk result (Answers engine.old engine.new line.now) }
    ensures dict { engine.new.session.dict ≡ engine.old.session.dict }
    ensures unchanged { OnErr result (engine.new ≡ engine.old) }
{
    let mut checks = CheckTable::new(alloc);
    if asks_no_check(line) {
        return try_answer_by(alloc, engine, &checks, line);
    }
    if engine.session.dict().same_checks(&checks) {
        return try_answer_by(alloc, engine, &checks, line);
    }
    standard_checks!(alloc, checks);
    try_answer_by(alloc, engine, &checks, line)
}

/// Answers a line, which has no newline.
pub fn answer(alloc: Global, engine: &mut Engine, line: &[u8]) -> Outcome
    ensures answered { Answers engine.old engine.new line.now result }
    ensures dict { engine.new.session.dict ≡ engine.old.session.dict }
{
    match try_answer(alloc, engine, line) {
        Ok(outcome) => outcome,
        Err(_) => {
            engine.text.clear();
            Outcome::NoMemory
        }
    }
}

// Writes the lines of the watches that fire.
ghost use Rattle.std.specs.Prelude.{◌≡◌, ◌≤◌, ◌+◌, ◌∷◌, ◌++◌, [], IsTrue, IfSome, length, slice_get};
ghost use Rattle.dictionary.specs.AcceptedParts.{accepted};
ghost use Rattle.dict_meaning.specs.Plain.{plain};
ghost use Rattle.evaluation.specs.Results.{Results};
ghost use Rattle.dict_meaning.specs.Slots.{stands};
ghost use Rattle.fact_watch.specs.Tables.{named_relations};
ghost use Rattle.fact_watch.specs.Watching.{code_at, noted, says_of_watch};
ghost use Rattle.session_lines.specs.Answering.{WrittenAs};
ghost use Rattle.session_lines.specs.Firing.{firing_lines, firing_lines_at, name_at, watch_line};
ghost use Rattle.session_lines.specs.Writing.{WroteAs};

use crate::progress::Progress;
use crate::writing::{as_progress, put_printed};
use dictionary::FactEngine;
use fact_values::Slot;
use fact_watch::{WatchTable, Watches};
use fg_io::{Failed, Sink};
use graph_session::Session;
use value_text::Line;

// Appends the name of the relation at a place.
#[tactic(auto, using(value_text::proofs::EnumLemmas::name_short))]
fn print_relation(table: &WatchTable, place: u32, line: &mut Line)
    requires { length line.old ≤ 100 }
    ensures text { line.new ≡ line.old ++ name_at (named_relations table.now) place }
    ensures short { length line.new ≤ length line.old + 64 }
{
    match table.name(place) {
        None => {}
        Some(name) => line.push(name.as_str().as_bytes()),
    }
}

// Puts the line of a watch whose slot stands.
fn put_line<E: FactEngine, K: Sink>(
    session: &Session<E>,
    table: &WatchTable,
    place: u32,
    slot: Slot,
    out: &mut K,
) -> Result<(), Failed>
    requires { IsTrue (stands (accepted session.now.dict).tree session.now.timeline.now slot) }
    ensures { WroteAs (K.output out.old) (K.output out.new) (watch_line (accepted session.now.dict).tree
        (named_relations table.now) (place, slot) ∷ []) result }
{
    let dict = session.dict();
    let _accepted = dict.source();
    let _fit = session.answers();
    let mut line = Line::new();
    line.push(b"watch ");
    print_relation(table, place, &mut line);
    line.push(b" ");
    dict.print_slot(slot, &mut line);
    put_printed(&mut line, out)
}

// Whether the watch at n fires, of what was noted and the result now.
fn fires<E: FactEngine>(session: &Session<E>, watches: &Watches, table: &WatchTable, n: u32) -> bool
    ensures { (before : Results) → watches.now ≡ noted watches.now.watched before → result
        ≡ says_of_watch (code_at (λ r. r.1) (named_relations table.now)) (slice_get watches.now.watched n) before
        (plain (accepted session.now.dict) session.now.timeline.now) }
{
    match watches.at(n) {
        None => false,
        Some(watch) => watch.0 < table.len() && watches.fires(table, session, n),
    }
}

// Puts the line of the watch at n, where it fires.
fn put_at<E: FactEngine, K: Sink>(
    session: &Session<E>,
    watches: &Watches,
    table: &WatchTable,
    n: u32,
    out: &mut K,
) -> Result<(), Failed>
    requires noted { (before : Results) × (watches.now ≡ noted watches.now.watched before) }
    ensures { (before : Results) → watches.now ≡ noted watches.now.watched before → WroteAs (K.output out.old)
        (K.output out.new) (firing_lines_at (accepted session.now.dict).tree (named_relations table.now) before
        (plain (accepted session.now.dict) session.now.timeline.now) (slice_get watches.now.watched n)) result }
{
    if !fires(session, watches, table, n) {
        return Ok(());
    }
    match watches.at(n) {
        None => Ok(()),
        Some(watch) => put_line(session, table, watch.0, watch.1, out),
    }
}

// Puts the lines of the watches that fire, in the order in which they were put.
fn put_fired<E: FactEngine, K: Sink>(
    session: &Session<E>,
    watches: &Watches,
    table: &WatchTable,
    out: &mut K,
) -> Result<(), Failed>
    requires noted { (before : Results) × (watches.now ≡ noted watches.now.watched before) }
    ensures { (before : Results) → watches.now ≡ noted watches.now.watched before → WroteAs (K.output out.old)
        (K.output out.new) (firing_lines (accepted session.now.dict).tree (named_relations table.now) before
        (plain (accepted session.now.dict) session.now.timeline.now) watches.now.watched) result }
{
    for n in 0..watches.len() {
        match put_at(session, watches, table, n, out) {
            Err(failed) => return Err(failed),
            Ok(()) => {}
        }
    }
    Ok(())
}

/// Writes the lines of the watches that fire, of what they noted and the results now. It takes no memory.
pub fn write_fired<E: FactEngine, K: Sink>(
    session: &Session<E>,
    watches: &Watches,
    table: &WatchTable,
    out: &mut K,
) -> Progress
    requires noted { (before : Results) × (watches.now ≡ noted watches.now.watched before) }
    ensures written { (before : Results) → watches.now ≡ noted watches.now.watched before → WrittenAs (K.output out.old)
        (K.output out.new) (firing_lines (accepted session.now.dict).tree (named_relations table.now) before
        (plain (accepted session.now.dict) session.now.timeline.now) watches.now.watched) result }
    ensures later { (K.output out.old).faults ≤ (K.output out.new).faults }
{
    as_progress(put_fired(session, watches, table, out))
}

// Answers the commands that put a watch and take it out.
ghost use Rattle.std.specs.Prelude.{◌≡◌, ◌≤◌, length};
ghost use Rattle.graph_session.specs.Refusals.{slot_found};
ghost use Rattle.graph_session.specs.Rules.{rules};
ghost use Rattle.session_lines.specs.Answering.{KeptAs, SteppedAs, WatchRefusedAs, state_by};
ghost use Rattle.session_lines.specs.Replies.{is_watch_memory, watch_refusal_name as name_of_refusal};
ghost use Rattle.session_lines.specs.Stepping.{cut_watch, put_watch};
ghost use Rattle.std.specs.Prelude.{Ok};

use crate::mark::PartyMark;
use crate::progress::Progress;
use crate::writing::{write_ended, write_line, write_refusal};
use dictionary::FactEngine;
use fact_paths::{Name, SlotPath};
use fact_values::Slot;
use fact_watch::{WatchRefusal, WatchTable, Watches, unwatch, watch};
use fg_io::Sink;
use graph_session::Session;
use value_text::Line;

fn refusal_name(refusal: WatchRefusal) -> &'static str
    ensures text { result.now ≡ name_of_refusal refusal }
    ensures short { length result.now ≤ 20 }
{
    match refusal {
        WatchRefusal::UnknownWatch => "16 UnknownWatch",
        WatchRefusal::WatchThere => "17 WatchThere",
        WatchRefusal::WatchesFull => "18 WatchesFull",
        WatchRefusal::NotWatched => "19 NotWatched",
        WatchRefusal::NoMemory => "",
    }
}

fn is_memory(refusal: WatchRefusal) -> bool
    ensures { result ≡ is_watch_memory refusal }
{
    match refusal {
        WatchRefusal::UnknownWatch => false,
        WatchRefusal::WatchThere => false,
        WatchRefusal::WatchesFull => false,
        WatchRefusal::NotWatched => false,
        WatchRefusal::NoMemory => true,
    }
}

// Writes why a watch isn't put, or isn't taken out.
fn write_watch_refusal<K: Sink>(refusal: WatchRefusal, out: &mut K) -> Progress
    ensures written { WatchRefusedAs (K.output out.old) (K.output out.new) refusal result }
    ensures later { (K.output out.old).faults ≤ (K.output out.new).faults }
{
    if is_memory(refusal) {
        return Progress::OutOfMemory;
    }
    let mut line = Line::new();
    line.push(b"refused ");
    line.push(refusal_name(refusal).as_bytes());
    write_line(PartyMark::Unmarked, &mut line, out)
}

// Puts a watch on a slot that stands.
fn watch_slot<E: FactEngine, K: Sink>(
    session: &Session<E>,
    watches: &mut Watches,
    table: &WatchTable,
    name: &Name,
    slot: Slot,
    out: &mut K,
) -> Progress
    ensures stepped { SteppedAs (K.output out.old) (K.output out.new)
        (put_watch (state_by session.now table.now watches.old) name.now (Ok slot))
        (state_by session.now table.now watches.new) result }
    ensures kept { KeptAs (put_watch (state_by session.now table.now watches.old) name.now (Ok slot)).state
        (state_by session.now table.now watches.old) (state_by session.now table.now watches.new) result }
    ensures later { (K.output out.old).faults ≤ (K.output out.new).faults }
{
    match watch(watches, table, name, slot) {
        Ok(()) => write_ended(b"ok\n", out),
        Err(refusal) => write_watch_refusal(refusal, out),
    }
}

/// Puts the watch of this name on the slot that the path names.
pub fn answer_watch<E: FactEngine, K: Sink>(
    session: &Session<E>,
    watches: &mut Watches,
    table: &WatchTable,
    name: &Name,
    path: &SlotPath,
    out: &mut K,
) -> Progress
    ensures stepped { SteppedAs (K.output out.old) (K.output out.new)
        (put_watch (state_by session.now table.now watches.old) name.now (slot_found (rules session.now.dict)
        session.now.timeline.now path.now)) (state_by session.now table.now watches.new) result }
    ensures kept { KeptAs (put_watch (state_by session.now table.now watches.old) name.now
        (slot_found (rules session.now.dict) session.now.timeline.now path.now)).state
        (state_by session.now table.now watches.old) (state_by session.now table.now watches.new) result }
    ensures later { (K.output out.old).faults ≤ (K.output out.new).faults }
{
    match session.slot_of(path) {
        Ok(slot) => watch_slot(session, watches, table, name, slot, out),
        Err(refusal) => write_refusal(PartyMark::Unmarked, refusal, out),
    }
}

// Ends the watch on a slot that stands.
fn unwatch_slot<E: FactEngine, K: Sink>(
    session: &Session<E>,
    watches: &mut Watches,
    table: &WatchTable,
    name: &Name,
    slot: Slot,
    out: &mut K,
) -> Progress
    ensures stepped { SteppedAs (K.output out.old) (K.output out.new)
        (cut_watch (state_by session.now table.now watches.old) name.now (Ok slot))
        (state_by session.now table.now watches.new) result }
    ensures kept { KeptAs (cut_watch (state_by session.now table.now watches.old) name.now (Ok slot)).state
        (state_by session.now table.now watches.old) (state_by session.now table.now watches.new) result }
    ensures later { (K.output out.old).faults ≤ (K.output out.new).faults }
{
    match unwatch(watches, table, name, slot) {
        Ok(()) => write_ended(b"ok\n", out),
        Err(refusal) => write_watch_refusal(refusal, out),
    }
}

/// Ends the watch of this name on the slot that the path names.
pub fn answer_unwatch<E: FactEngine, K: Sink>(
    session: &Session<E>,
    watches: &mut Watches,
    table: &WatchTable,
    name: &Name,
    path: &SlotPath,
    out: &mut K,
) -> Progress
    ensures stepped { SteppedAs (K.output out.old) (K.output out.new)
        (cut_watch (state_by session.now table.now watches.old) name.now (slot_found (rules session.now.dict)
        session.now.timeline.now path.now)) (state_by session.now table.now watches.new) result }
    ensures kept { KeptAs (cut_watch (state_by session.now table.now watches.old) name.now
        (slot_found (rules session.now.dict) session.now.timeline.now path.now)).state
        (state_by session.now table.now watches.old) (state_by session.now table.now watches.new) result }
    ensures later { (K.output out.old).faults ≤ (K.output out.new).faults }
{
    match session.slot_of(path) {
        Ok(slot) => unwatch_slot(session, watches, table, name, slot, out),
        Err(refusal) => write_refusal(PartyMark::Unmarked, refusal, out),
    }
}

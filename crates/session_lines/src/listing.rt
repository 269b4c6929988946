// Writes the reply of `missing`: how many slots there are, and each in a line.
ghost use Rattle.std.specs.Prelude.{◌≤◌, ◌∷◌, [], All, IsTrue, codes, map};
ghost use Rattle.dictionary.specs.AcceptedParts.{accepted};
ghost use Rattle.dict_meaning.specs.SlotText.{slot_text};
ghost use Rattle.dict_meaning.specs.Slots.{stands};
ghost use Rattle.graph_session.specs.Refusals.{slot_found};
ghost use Rattle.graph_session.specs.Rules.{rules};
ghost use Rattle.graph_session.specs.SessionView.{session_state};
ghost use Rattle.session_lines.specs.Answering.{OutputAs};
ghost use Rattle.session_lines.specs.Replies.{missing_count, missing_lines, missing_output, numbered};
ghost use Rattle.session_lines.specs.Marks.{marked, marked_lines};
ghost use Rattle.session_lines.specs.Writing.{WroteAs};

use crate::mark::PartyMark;
use crate::numbered::print_numbered;
use crate::progress::Progress;
use crate::writing::{as_progress, put_line, write_refusal};
use dictionary::FactEngine;
use explain::missing;
use fact_paths::SlotPath;
use fact_values::{NoMemory, Slot};
use fg_io::{Failed, Sink};
use graph_session::Session;
use std::alloc::Global;
use value_text::Line;

// Puts the path of a slot that stands.
fn put_slot<E: FactEngine, K: Sink>(
    session: &Session<E>,
    mark: PartyMark,
    slot: Slot,
    out: &mut K,
) -> Result<(), Failed>
    requires { IsTrue (stands (accepted session.now.dict).tree session.now.timeline.now slot) }
    ensures { WroteAs (K.output out.old) (K.output out.new)
        (marked mark (slot_text (accepted session.now.dict).tree slot) ∷ []) result }
{
    let dict = session.dict();
    let _accepted = dict.source();
    let _fit = session.answers();
    let mut path = Line::new();
    dict.print_slot(slot, &mut path);
    put_line(mark, &mut path, out)
}

/// Puts the paths of slots that stand, in order, each in a line.
pub fn put_slots<E: FactEngine, K: Sink>(
    session: &Session<E>,
    mark: PartyMark,
    slots: &[Slot],
    out: &mut K,
) -> Result<(), Failed>
    requires { All (λ s. IsTrue (stands (accepted session.now.dict).tree session.now.timeline.now s)) slots.now }
    ensures { WroteAs (K.output out.old) (K.output out.new)
        (map (λ s. marked mark (slot_text (accepted session.now.dict).tree s)) slots.now) result }
{
    for slot in slots {
        match put_slot(session, mark, *slot, out) {
            Err(failed) => return Err(failed),
            Ok(()) => {}
        }
    }
    Ok(())
}

// Puts how many they are.
fn put_count<K: Sink>(mark: PartyMark, count: usize, out: &mut K) -> Result<(), Failed>
    ensures { WroteAs (K.output out.old) (K.output out.new) (marked mark (numbered (codes "missing ") count) ∷ []) result }
{
    let mut line = Line::new();
    print_numbered("missing ", count as u64, &mut line);
    put_line(mark, &mut line, out)
}

// Puts how many they are, and their paths.
fn put_missing<E: FactEngine, K: Sink>(
    session: &Session<E>,
    mark: PartyMark,
    slots: &[Slot],
    out: &mut K,
) -> Result<(), Failed>
    requires { All (λ s. IsTrue (stands (accepted session.now.dict).tree session.now.timeline.now s)) slots.now }
    ensures { WroteAs (K.output out.old) (K.output out.new)
        (marked_lines mark (missing_count slots.now ∷ map (slot_text (accepted session.now.dict).tree) slots.now))
        result }
{
    match put_count(mark, slots.len(), out) {
        Err(failed) => Err(failed),
        Ok(()) => put_slots(session, mark, slots, out),
    }
}

// Writes what is missing of a slot that stands.
fn write_missing<E: FactEngine, K: Sink>(
    alloc: Global,
    session: &Session<E>,
    mark: PartyMark,
    slot: Slot,
    out: &mut K,
) -> Progress
    requires { IsTrue (stands (accepted session.now.dict).tree session.now.timeline.now slot) }
    ensures output { OutputAs (K.output out.old) (K.output out.new)
        (marked_lines mark (missing_lines (rules session.now.dict) (session_state session.now) slot)) result }
    ensures later { (K.output out.old).faults ≤ (K.output out.new).faults }
{
    match missing(alloc, session, slot) {
        Ok(slots) => as_progress(put_missing(session, mark, &slots, out)),
        Err(NoMemory) => Progress::OutOfMemory,
    }
}

/// Writes what is missing of the slot that the path names, or why the slot isn't there.
pub fn answer_missing<E: FactEngine, K: Sink>(
    alloc: Global,
    session: &Session<E>,
    mark: PartyMark,
    path: &SlotPath,
    out: &mut K,
) -> Progress
    ensures output { OutputAs (K.output out.old) (K.output out.new)
        (marked_lines mark (missing_output (rules session.now.dict) (session_state session.now)
        (slot_found (rules session.now.dict) session.now.timeline.now path.now))) result }
    ensures later { (K.output out.old).faults ≤ (K.output out.new).faults }
{
    match session.slot_of(path) {
        Ok(slot) => write_missing(alloc, session, mark, slot, out),
        Err(refusal) => write_refusal(mark, refusal, out),
    }
}

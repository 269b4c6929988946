// Answers which slots a slot reads: why its result is what it is.
ghost use Rattle.std.specs.Prelude.{◌≡◌, ◌≤◌, IsTrue};
ghost use Rattle.dictionary.specs.AcceptedParts.{accepted};
ghost use Rattle.dict_meaning.specs.Slots.{stands};
ghost use Rattle.graph_session.specs.Refusals.{slot_found};
ghost use Rattle.graph_session.specs.Rules.{rules};
ghost use Rattle.graph_session.specs.SessionView.{session_state};
ghost use Rattle.session_lines.specs.Answering.{OutputAs};
ghost use Rattle.session_lines.specs.SlotReads.{read_answer, read_lines};

use crate::listing::put_slots;
use crate::mark::PartyMark;
use crate::progress::Progress;
use crate::writing::{as_progress, write_refusal};
use dictionary::FactEngine;
use explain::reads;
use fact_paths::SlotPath;
use fact_values::{NoMemory, Slot};
use fg_io::Sink;
use graph_session::Session;
use std::alloc::Global;

// Writes what a slot that stands reads.
fn write_reads<E: FactEngine, K: Sink>(
    alloc: Global,
    session: &Session<E>,
    slot: Slot,
    out: &mut K,
) -> Progress
    requires { IsTrue (stands (accepted session.now.dict).tree session.now.timeline.now slot) }
    ensures output { OutputAs (K.output out.old) (K.output out.new)
        (read_lines (rules session.now.dict) (session_state session.now) slot) result }
    ensures later { (K.output out.old).faults ≤ (K.output out.new).faults }
{
    match reads(alloc, session, slot) {
        Ok(slots) => as_progress(put_slots(session, PartyMark::Unmarked, &slots, out)),
        Err(NoMemory) => Progress::OutOfMemory,
    }
}

/// Writes the slots that the evaluation of the slot itself reads, which the path names, each in a line, or why the slot isn't there.
pub fn answer_reads<E: FactEngine, K: Sink>(
    alloc: Global,
    session: &Session<E>,
    path: &SlotPath,
    out: &mut K,
) -> Progress
    ensures output { OutputAs (K.output out.old) (K.output out.new)
        (read_answer (rules session.now.dict) (session_state session.now)
        (slot_found (rules session.now.dict) session.now.timeline.now path.now)) result }
    ensures later { (K.output out.old).faults ≤ (K.output out.new).faults }
{
    match session.slot_of(path) {
        Ok(slot) => write_reads(alloc, session, slot, out),
        Err(refusal) => write_refusal(PartyMark::Unmarked, refusal, out),
    }
}

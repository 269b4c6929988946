// All that the evaluation of a slot reads, by way of other slots too.
ghost use Rattle.std.specs.Prelude.{◌≡◌, ◌∷◌, [], IfOk, IsTrue, OnOk};
ghost use Rattle.fact_values.specs.declared.slot.Slot.{Slot};
ghost use Rattle.dictionary.specs.AcceptedParts.{accepted};
ghost use Rattle.dict_meaning.specs.Slots.{stands};
ghost use Rattle.explain.specs.Found.{has};
ghost use Rattle.explain.specs.SessionContext.{tree_of};
ghost use Rattle.explain.specs.Reads.{is_read};
ghost use Rattle.explain.specs.Walk.{AddsReads};

use crate::found::{Found, push_if};
use crate::slots::slot_reads;
use dictionary::FactEngine;
use fact_values::{NoMemory, Slot};
use graph_session::Session;
use std::alloc::Global;
use std::sync::ledger::Ledger;
use steps::Steps;

// Finds a slot, where it stands. One that is new is to be walked.
fn find_one<E: FactEngine>(
    session: &Session<E>,
    slot: Slot,
    found: &mut Found,
    todo: &mut Vec<Slot>,
) -> Result<(), NoMemory>
    ensures { OnOk result (AddsReads (tree_of session.now) session.now.timeline.now (slot ∷ []) found.old found.new
        todo.old.items todo.new.items) }
{
    match session.result(slot) {
        None => Ok(()),
        Some(_) => {
            let fresh = found.add(slot)?;
            push_if(todo, fresh, slot)?;
            Ok(())
        }
    }
}

/// Finds those of the slots that stand. Those that are new are to be walked, in order.
pub fn find_all<E: FactEngine>(
    session: &Session<E>,
    slots: &[Slot],
    found: &mut Found,
    todo: &mut Vec<Slot>,
) -> Result<(), NoMemory>
    ensures { OnOk result (AddsReads (tree_of session.now) session.now.timeline.now slots.now found.old found.new
        todo.old.items todo.new.items) }
{
    for slot in slots {
        find_one(session, *slot, found, todo)?;
    }
    Ok(())
}

/// The slots that the evaluation of the slot reads, itself among them. Each is walked once.
pub fn find_reads<E: FactEngine, L: Ledger>(
    alloc: Global,
    session: &Session<E>,
    slot: Slot,
    steps: &mut Steps<L>,
) -> Result<Found, NoMemory>
    requires { IsTrue (stands (tree_of session.now) session.now.timeline.now slot) }
    ensures { IfOk result (λ f. (t : Slot) → has f t ≡ is_read (accepted session.now.dict) session.now.timeline.now slot
        t) }
{
    let dict = session.dict();
    let _accepted = dict.source();
    let mut found = Found::new(alloc);
    let mut todo = Vec::new(alloc);
    find_one(session, slot, &mut found, &mut todo)?;
    while let Some(next) = todo.pop() {
        let reads = slot_reads(alloc, session, next, steps)?;
        find_all(session, reads.as_slice(), &mut found, &mut todo)?;
    }
    Ok(found)
}

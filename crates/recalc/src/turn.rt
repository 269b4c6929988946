// One turn: a slot that waits gets its new result.
ghost use Rattle.std.specs.Prelude.{◌≡◌, ◌+◌, ◌≤◌, ◌&&◌, ◌||◌, false, IsTrue, OnOk};
ghost use Rattle.answers.specs.Meaning.{answered};
ghost use Rattle.answers.specs.WellFormed.{FromOne, WellFormed};
ghost use Rattle.dep_index.specs.Readers.{readers_of};
ghost use Rattle.dictionary.specs.AcceptedParts.{accepted};
ghost use Rattle.dict_meaning.specs.Plain.{IsPlainBelow, rank};
ghost use Rattle.dict_meaning.specs.Slots.{stands};
ghost use Rattle.dict_meaning.specs.Weights.{slot_weight};
ghost use Rattle.visit_counts.specs.SlotVisits.{slot_visits};
ghost use Rattle.recalc.specs.EngineInvariant.{IsGraphOf};
ghost use Rattle.recalc.specs.Propagations.{setting_of};
ghost use Rattle.recalc.specs.Replacing.{before, CanPutBack, entries};
ghost use Rattle.recalc.specs.Running.{HasTurned, is_that, let_by_all, live_results_in, slots_done};
ghost use Rattle.recalc.specs.Spread.{is_in};
ghost use Rattle.dirty_slots.specs.Waiting.{waits};
ghost use Rattle.dirty_slots.specs.declared.dirty_slot.DirtySlot.{DirtySlot};

use crate::dependency_graph::DependencyGraph;
use crate::engine_state::EngineState;
use crate::evaluating::new_result;
use crate::live_cells::LiveCells;
use crate::marking::mark;
use crate::propagation::Propagation;
use cell_store::Store;
use dirty_slots::DirtyQueue;
use fact_values::{NoMemory, Slot};
use std::alloc::Global;
use std::sync::ledger::Ledger;
use steps::Steps;

// Where a slot moved, the slots wait that it feeds.
fn mark_if(
    moved: bool,
    graph: &DependencyGraph,
    queue: &mut DirtyQueue,
    propagation: &Propagation,
    store: &Store,
    slot: Slot,
) -> Result<(), NoMemory>
    requires graph { IsGraphOf (accepted propagation.now.dict.now) graph.now }
    requires places { queue.old.places ≡ graph.now.places.value }
    requires stands { IsTrue (stands (accepted propagation.now.dict.now).tree (answered propagation.now.answers.now)
        slot) }
    ensures marked { OnOk result ((q : DirtySlot) → waits queue.new q ≡ (waits queue.old q
        || (moved
        && let_by_all (setting_of propagation.now) store.now.cells slot (readers_of graph.now.readers slot.fact) q))) }
    ensures places { queue.new.places ≡ queue.old.places }
{
    if moved {
        mark(graph, queue, propagation, store, slot)
    } else {
        Ok(())
    }
}

/// Puts the new result of a slot, keeps what was there, and where it moved lets those slots wait that
/// it feeds.
pub fn turn<L: Ledger>(
    alloc: Global,
    graph: &DependencyGraph,
    propagation: &Propagation,
    state: &mut EngineState,
    slot: Slot,
    steps: &mut Steps<L>,
) -> Result<(), NoMemory>
    requires graph { IsGraphOf (accepted propagation.now.dict.now) graph.now }
    requires places { state.old.queue.places ≡ graph.now.places.value }
    requires well { WellFormed (answered propagation.now.answers.now) }
    requires from_one { FromOne (answered propagation.now.answers.now) }
    requires stands { IsTrue (stands (accepted propagation.now.dict.now).tree (answered propagation.now.answers.now)
        slot) }
    requires stay { is_that propagation.now.gone slot.member ≡ false }
    requires below { IsPlainBelow (accepted propagation.now.dict.now) (answered propagation.now.answers.now)
        (rank (accepted propagation.now.dict.now) slot.fact) (live_results_in (setting_of propagation.now)
        state.old.store.cells) }
    requires fresh { is_in (slots_done state.old) slot ≡ false }
    ensures turned { OnOk result (HasTurned (setting_of propagation.now) (readers_of graph.now.readers slot.fact) slot
        state.old state.new) }
    ensures undo { before (entries state.new.log) state.new.store.cells
        ≡ before (entries state.old.log) state.old.store.cells }
    ensures can { CanPutBack (entries state.old.log) state.old.store.cells
        → CanPutBack (entries state.new.log) state.new.store.cells }
    ensures places { state.new.queue.places ≡ state.old.queue.places }
    ensures visits { OnOk result (steps.new ≡ steps.old + slot_visits (accepted propagation.now.dict.now)
        (answered propagation.now.answers.now) slot) }
    ensures most { steps.new ≤ steps.old + slot_weight (accepted propagation.now.dict.now)
        (answered propagation.now.answers.now) slot }
{
    let live_results = LiveCells {
        store: &state.store,
        gone: propagation.gone,
    };
    let res = new_result(
        alloc,
        &graph.nodes,
        propagation.dict,
        propagation.answers,
        &live_results,
        slot,
        steps,
    )?;
    let moved = state
        .log
        .put(&mut state.store, slot, res, propagation.stamp)?;
    mark_if(
        moved,
        graph,
        &mut state.queue,
        propagation,
        &state.store,
        slot,
    )
}

// The loop over the slots that wait, until none does.
ghost use Rattle.std.specs.Prelude.{◌≡◌, ◌+◌, ◌≤◌, [], OnOk};
ghost use Rattle.answers.specs.Meaning.{answered};
ghost use Rattle.answers.specs.WellFormed.{FromOne, WellFormed};
ghost use Rattle.dictionary.specs.AcceptedParts.{accepted};
ghost use Rattle.recalc.specs.EngineInvariant.{IsGraphOf};
ghost use Rattle.recalc.specs.Propagations.{setting_of, spread_of};
ghost use Rattle.recalc.specs.Replacing.{before, CanPutBack, entries};
ghost use Rattle.recalc.specs.Running.{propagation_visits, propagation_weight, HasRun, IsPropagation, IsRunning};

use crate::dependency_graph::DependencyGraph;
use crate::engine_state::EngineState;
use crate::propagation::Propagation;
use crate::turn::turn;
use fact_values::{NoMemory, Slot};
use std::alloc::Global;
use std::sync::ledger::Ledger;
use steps::Steps;

/// Gives each slot that waits, and each that then waits, its new result. What was replaced is kept,
/// also where memory is wanting.
pub fn run<L: Ledger>(
    alloc: Global,
    graph: &DependencyGraph,
    propagation: &Propagation,
    state: &mut EngineState,
    steps: &mut Steps<L>,
) -> Result<(), NoMemory>
    requires graph { IsGraphOf (accepted propagation.now.dict.now) graph.now }
    requires places { state.old.queue.places ≡ graph.now.places.value }
    requires well { WellFormed (answered propagation.now.answers.now) }
    requires from_one { FromOne (answered propagation.now.answers.now) }
    requires propagation { IsPropagation (setting_of propagation.now) (spread_of propagation.now)
        state.old.store.cells }
    requires start { IsRunning (setting_of propagation.now) (spread_of propagation.now) state.old.store.cells
        state.old }
    requires empty { entries state.old.log ≡ [] }
    ensures done { OnOk result (HasRun (setting_of propagation.now) (spread_of propagation.now) state.old.store.cells
        state.new) }
    ensures undo { before (entries state.new.log) state.new.store.cells ≡ state.old.store.cells }
    ensures can { CanPutBack (entries state.new.log) state.new.store.cells }
    ensures places { state.new.queue.places ≡ state.old.queue.places }
    ensures visits { OnOk result (steps.new ≡ steps.old + propagation_visits (setting_of propagation.now)
        (spread_of propagation.now)) }
    ensures most { steps.new ≤ steps.old + propagation_weight (setting_of propagation.now) (spread_of propagation.now) }
{
    while let Some(dirty) = state.queue.pop() {
        let slot = Slot {
            fact: dirty.fact,
            member: dirty.member,
        };
        turn(alloc, graph, propagation, state, slot, steps)?;
    }
    Ok(())
}

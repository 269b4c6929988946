// Leads from the results before a change of the answers to those after it.
ghost use Rattle.std.specs.Prelude.{◌≡◌, ◌+◌, ◌≤◌, IfOk, OnErr, OnOk};
ghost use Rattle.dict_meaning.specs.Touched.{touched_count};
ghost use Rattle.dict_meaning.specs.Weights.{touched_weight};
ghost use Rattle.visit_counts.specs.SlotVisits.{touched_visits};
ghost use Rattle.recalc.specs.EngineInvariant.{EngineInvariant, IsIdle};
ghost use Rattle.recalc.specs.Replacing.{before, CanPutBack, entries};
ghost use Rattle.recalc.specs.Running.{HasRun};
ghost use Rattle.recalc.specs.Updates.{AreStamped, IsUpdate, answers_after, answers_before, dict_of, update_setting, update_spread};

use crate::dependency_graph::DependencyGraph;
use crate::engine_state::EngineState;
use crate::forgetting::forget;
use crate::propagation::Propagation;
use crate::running::run;
use crate::seeding::seed;
use crate::undone::effect_of;
use crate::update::Update;
use fact_values::NoMemory;
use std::alloc::Global;
use std::sync::ledger::Ledger;
use steps::Steps;

/// The cells over the answers after a change, and how many slots it touched. For want of memory all cells are as they were.
pub fn change<L: Ledger>(
    alloc: Global,
    graph: &DependencyGraph,
    update: &Update,
    state: &mut EngineState,
    steps: &mut Steps<L>,
) -> Result<u64, NoMemory>
    requires update { IsUpdate update.now }
    requires before { EngineInvariant graph.now state.old (dict_of update.now) (answers_before update.now) }
    ensures stands { OnOk result (EngineInvariant graph.now state.new (dict_of update.now) (answers_after update.now)) }
    ensures stamps { OnOk result (AreStamped update.now state.old.store.cells state.new.store.cells) }
    ensures touched { IfOk result (λ n. n ≡ touched_count (dict_of update.now) (answers_before update.now)
        (answers_after update.now)) }
    ensures cells { OnErr result (state.new.store.cells ≡ state.old.store.cells) }
    ensures idle { OnErr result (IsIdle state.new) }
    ensures places { OnErr result (state.new.queue.places ≡ state.old.queue.places) }
    ensures visits { OnOk result (steps.new ≡ steps.old + touched_visits (dict_of update.now) (answers_before update.now)
        (answers_after update.now)) }
    ensures most { steps.new ≤ steps.old + touched_weight (dict_of update.now) (answers_before update.now)
        (answers_after update.now) }
{
    let _source = update.dict.source();
    match go_on(alloc, graph, update, state, steps) {
        Ok(()) => {
            forget(&mut state.store, update.gone, update.dict.by_rank());
            let touched = state.log.len() as u64;
            state.log.clear();
            Ok(touched)
        }
        Err(e) => {
            state.put_back();
            Err(e)
        }
    }
}

// The results of the touched slots, with the number of the change. The cells of a member that went are
// still there. What was replaced is kept, also where memory is wanting.
fn go_on<L: Ledger>(
    alloc: Global,
    graph: &DependencyGraph,
    update: &Update,
    state: &mut EngineState,
    steps: &mut Steps<L>,
) -> Result<(), NoMemory>
    requires update { IsUpdate update.now }
    requires before { EngineInvariant graph.now state.old (dict_of update.now) (answers_before update.now) }
    ensures done { OnOk result (HasRun (update_setting update.now) (update_spread update.now) state.old.store.cells
        state.new) }
    ensures undo { before (entries state.new.log) state.new.store.cells ≡ state.old.store.cells }
    ensures can { CanPutBack (entries state.new.log) state.new.store.cells }
    ensures places { state.new.queue.places ≡ state.old.queue.places }
    ensures visits { OnOk result (steps.new ≡ steps.old + touched_visits (dict_of update.now) (answers_before update.now)
        (answers_after update.now)) }
    ensures most { steps.new ≤ steps.old + touched_weight (dict_of update.now) (answers_before update.now)
        (answers_after update.now) }
{
    let _source = update.dict.source();
    let effect = effect_of(update.undo, update.answers);
    seed(
        &mut state.queue,
        update.dict,
        update.answers,
        update.undo,
        effect.own,
    )?;
    let propagation = Propagation {
        dict: update.dict,
        answers: update.answers,
        undo: update.undo,
        extended: effect.extended,
        gone: update.gone,
        stamp: update.stamp,
    };
    run(alloc, graph, &propagation, state, steps)
}

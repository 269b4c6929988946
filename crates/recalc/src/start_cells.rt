// The cells with which an engine begins, and copies of those at no answers.
ghost use Rattle.std.specs.Prelude.{◌≡◌, ◌+◌, ◌<◌, IfOk, OnOk};
ghost use Rattle.std.specs.FinMap as map;
ghost use Rattle.fact_values.specs.declared.slot.Slot.{Slot as OneSlot};
ghost use Rattle.answers.specs.Meaning.{answered};
ghost use Rattle.dict_meaning.specs.Fits.{AnswersFit};
ghost use Rattle.dictionary.specs.AcceptedParts.{accepted};
ghost use Rattle.visit_counts.specs.SlotVisits.{whole_visits};
ghost use Rattle.recalc.specs.EngineInvariant.{IsGraphOf, IsIdle, results_of};
ghost use Rattle.recalc.specs.Running.{stamped_cell};
ghost use Rattle.recalc.specs.Sharing.{AreAtStart, AreFirst, AreReady, global, with_copies, with_result_of};

use crate::dependency_graph::DependencyGraph;
use crate::engine_state::EngineState;
use crate::evaluating::new_result;
use crate::live_cells::LiveCells;
use answers::Answers;
use cell_store::Store;
use dictionary::Dictionary;
use fact_values::{NoMemory, Slot};
use full_evaluation::{ResultTable, fill};
use std::alloc::Global;
use std::marker::Brand;
use std::sync::ledger::{Blank, Ledger};
use steps::Steps;
use three_state::Res;

// Puts a result with the stamp 0.
fn put_first(store: &mut Store, slot: Slot, res: Res) -> Result<(), NoMemory>
    ensures { OnOk result (store.new.cells ≡ map.insert store.old.cells slot (stamped_cell 0 res)) }
{
    match store.reserve(1) {
        Err(NoMemory) => {
            drop(res);
            Err(NoMemory)
        }
        Ok(()) => {
            let _ = store.put(slot, res, 0);
            Ok(())
        }
    }
}

/// The cells of a start, while they are filled.
#[derive(Drop)]
pub struct StartCells<'a> {
    pub graph: &'a DependencyGraph,
    pub store: Store,
}

impl ResultTable for StartCells<'_> {
    ghost results = { λ t. results_of t.store.cells };

    ghost is_ready = { λ t d. AreReady t d };

    fn put_slot<L: Ledger>(
        &mut self,
        alloc: Global,
        dict: &Dictionary,
        answers: &Answers,
        slot: Slot,
        steps: &mut Steps<L>,
    ) -> Result<(), NoMemory> {
        let cells = LiveCells {
            store: &self.store,
            gone: None,
        };
        let nodes = &self.graph.nodes;
        let res = new_result(alloc, nodes, dict, answers, &cells, slot, steps)?;
        put_first(&mut self.store, slot, res)
    }
}

/// The cells at these answers, by full evaluation. A visit of a node is a step.
pub fn first_cells<L: Ledger>(
    alloc: Global,
    graph: &DependencyGraph,
    dict: &Dictionary,
    answers: &Answers,
    steps: &mut Steps<L>,
) -> Result<Store, NoMemory>
    requires graph { IsGraphOf (accepted dict.now) graph.now }
    requires fit { AnswersFit (accepted dict.now).tree (answered answers.now) }
    ensures first { IfOk result (λ store. AreFirst (accepted dict.now) (answered answers.now) store.cells) }
    ensures visits { OnOk result (steps.new ≡ steps.old + whole_visits (accepted dict.now) (answered answers.now)) }
{
    let store = Store::with_facts(alloc, dict.source().facts().len())?;
    let mut cells = StartCells { graph, store };
    fill(alloc, dict, answers, &mut cells, steps)?;
    let StartCells { store, .. } = cells;
    Ok(store)
}

/// The same, where the steps are counted for nobody.
pub fn first_cells_uncounted<L: Ledger>(
    alloc: Global,
    graph: &DependencyGraph,
    dict: &Dictionary,
    answers: &Answers,
    blank: Blank,
) -> Result<Store, NoMemory>
    requires graph { IsGraphOf (accepted dict.now) graph.now }
    requires fit { AnswersFit (accepted dict.now).tree (answered answers.now) }
    requires name { blank.name ≡ L.name }
    requires parts { blank.parts ≡ L.parts }
    requires some { 0 < blank.parts }
    ensures { IfOk result (λ store. AreFirst (accepted dict.now) (answered answers.now) store.cells) }
{
    let mut steps = Steps::<L>::new(blank);
    first_cells(alloc, graph, dict, answers, &mut steps)
}

/// The cells at no answers.
pub fn start_cells(
    alloc: Global,
    graph: &DependencyGraph,
    dict: &Dictionary,
) -> Result<Store, NoMemory>
    requires { IsGraphOf (accepted dict.now) graph.now }
    ensures { IfOk result (λ store. AreAtStart (accepted dict.now) store.cells) }
{
    let answers = Answers::new(alloc);
    first_cells_uncounted::<Brand>(alloc, graph, dict, &answers, Blank::new(1))
}

/// A state with copies of the cells at no answers.
pub fn copied_state(
    alloc: Global,
    graph: &DependencyGraph,
    from: &Store,
    dict: &Dictionary,
) -> Result<EngineState, NoMemory>
    requires { AreAtStart (accepted dict.now) from.now.cells }
    ensures cells { IfOk result (λ state. AreAtStart (accepted dict.now) state.store.cells) }
    ensures idle { IfOk result (λ state. IsIdle state) }
    ensures places { IfOk result (λ state. state.queue.places ≡ graph.now.places.value) }
{
    let _source = dict.source();
    let mut store = Store::with_facts(alloc, dict.source().facts().len())?;
    copy_cells(alloc, from, dict.by_rank(), &mut store)?;
    EngineState::new(alloc, dict, graph, store)
}

// Puts the results of other cells, with the stamp 0, over those of a store, at these global facts.
fn copy_cells(alloc: Global, from: &Store, facts: &[u32], store: &mut Store) -> Result<(), NoMemory>
    ensures { OnOk result ((s : OneSlot) → map.get store.new.cells s
        ≡ with_copies from.now.cells facts.now store.old.cells s) }
{
    for fact in facts {
        copy_cell(alloc, from, *fact, store)?;
    }
    Ok(())
}

fn copy_cell(alloc: Global, from: &Store, fact: u32, store: &mut Store) -> Result<(), NoMemory>
    ensures { OnOk result (store.new.cells
        ≡ with_result_of store.old.cells (global fact) (results_of from.now.cells (global fact))) }
{
    let slot = Slot { fact, member: 0 };
    let Some(res) = from.get(slot) else {
        return Ok(());
    };
    put_first(store, slot, res.copy(alloc)?)
}

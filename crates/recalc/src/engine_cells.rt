// The cells that an engine reads: those at no answers, which engines over one dictionary share, until it makes a change.
ghost use Rattle.std.specs.Prelude.{◌≡◌, ◌+◌, ◌≤◌, IfOk, OnErr, OnOk};
ghost use Rattle.answers.specs.Answered.{Answered};
ghost use Rattle.dict_meaning.specs.Accepted.{Accepted};
ghost use Rattle.dict_meaning.specs.Touched.{touched_count};
ghost use Rattle.dict_meaning.specs.Weights.{touched_weight};
ghost use Rattle.dictionary.specs.AcceptedParts.{accepted};
ghost use Rattle.visit_counts.specs.SlotVisits.{touched_visits};
ghost use Rattle.recalc.specs.EngineInvariant.{IsGraphOf};
ghost use Rattle.recalc.specs.Sharing.{AreAtStart, AreCellsOf, AreKept, read_cells};
ghost use Rattle.recalc.specs.Updates.{AreStamped, IsUpdate, answers_after, answers_before, dict_of};

use crate::changing::change;
use crate::dependency_graph::DependencyGraph;
use crate::engine_state::EngineState;
use crate::start_cells::{copied_state, start_cells};
use crate::update::Update;
use cell_store::Store;
use dictionary::Dictionary;
use fact_values::NoMemory;
use std::alloc::Global;
use std::sync::Arc;
use std::sync::ledger::Ledger;
use steps::Steps;

/// The cells of an engine that made a change, or began with answers.
#[derive(Drop)]
pub struct OwnCells {
    pub state: EngineState,
    /// The cells at no answers, once a further engine was begun.
    pub at_start: Option<Arc<Store>>,
}

impl OwnCells {
    // The cells at no answers. They are evaluated once, and then kept.
    fn kept_start(
        &mut self,
        alloc: Global,
        graph: &DependencyGraph,
        dict: &Dictionary,
    ) -> Result<Arc<Store>, NoMemory>
        requires graph { IsGraphOf (accepted dict.now) graph.now }
        requires kept { AreKept (accepted dict.now) self.old }
        ensures at_start { IfOk result (λ store. AreAtStart (accepted dict.now) store.value.cells) }
        ensures kept { AreKept (accepted dict.now) self.new }
        ensures others { self.new ≡ record self.old { at_start = self.new.at_start } }
    {
        if let Some(at_start) = &self.at_start {
            return Ok(at_start.clone()?);
        }
        let at_start = Arc::new(alloc, start_cells(alloc, graph, dict)?)?;
        let kept = at_start.clone()?;
        self.at_start = Some(kept);
        Ok(at_start)
    }
}

#[derive(Drop)]
pub enum EngineCells {
    /// Those at no answers.
    Shared(Arc<Store>),
    Own(OwnCells),
}

impl EngineCells {
    /// The cells at no answers, to be shared by a further engine.
    pub fn at_start(
        &mut self,
        alloc: Global,
        graph: &DependencyGraph,
        dict: &Dictionary,
    ) -> Result<Arc<Store>, NoMemory>
        requires { (a : Answered) × AreCellsOf self.old graph.now (accepted dict.now) a }
        ensures at_start { IfOk result (λ store. AreAtStart (accepted dict.now) store.value.cells) }
        ensures unchanged { (a : Answered) → AreCellsOf self.old graph.now (accepted dict.now) a
            → AreCellsOf self.new graph.now (accepted dict.now) a }
        ensures cells { read_cells self.new ≡ read_cells self.old }
    {
        match self {
            EngineCells::Shared(at_start) => Ok(at_start.clone()?),
            EngineCells::Own(own) => own.kept_start(alloc, graph, dict),
        }
    }

    /// Goes on to the answers after a change, in cells of its own, and says how many slots the change touched. For want of memory
    /// all is as it was.
    pub fn change<L: Ledger>(
        &mut self,
        alloc: Global,
        graph: &DependencyGraph,
        update: &Update,
        steps: &mut Steps<L>,
    ) -> Result<u64, NoMemory>
        requires update { IsUpdate update.now }
        requires before { AreCellsOf self.old graph.now (dict_of update.now) (answers_before update.now) }
        ensures stands { OnOk result (AreCellsOf self.new graph.now (dict_of update.now) (answers_after update.now)) }
        ensures stamps { OnOk result (AreStamped update.now (read_cells self.old) (read_cells self.new)) }
        ensures touched { IfOk result (λ n. n ≡ touched_count (dict_of update.now) (answers_before update.now)
            (answers_after update.now)) }
        ensures unchanged { OnErr result ((d : Accepted) (a : Answered) → AreCellsOf self.old graph.now d a
            → AreCellsOf self.new graph.now d a) }
        ensures cells { OnErr result (read_cells self.new ≡ read_cells self.old) }
        ensures visits { OnOk result (steps.new ≡ steps.old + touched_visits (dict_of update.now)
            (answers_before update.now) (answers_after update.now)) }
        ensures most { steps.new ≤ steps.old + touched_weight (dict_of update.now) (answers_before update.now)
            (answers_after update.now) }
    {
        match self {
            EngineCells::Own(own) => change(alloc, graph, update, &mut own.state, steps),
            EngineCells::Shared(at_start) => {
                let at_start = at_start.clone()?;
                let mut state = copied_state(alloc, graph, &at_start, update.dict)?;
                let touched = change(alloc, graph, update, &mut state, steps)?;
                *self = EngineCells::Own(OwnCells {
                    state,
                    at_start: Some(at_start),
                });
                Ok(touched)
            }
        }
    }
}

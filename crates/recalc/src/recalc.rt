// The incremental engine: its type, and how it begins and changes.
ghost use Rattle.std.specs.Prelude.{◌≡◌, ◌+◌, ◌<◌, ◌≤◌, ◌^◌, true, IfOk, None, OnErr, OnOk, Some, option_copied, if◌then◌else◌};
ghost use Rattle.answers.specs.Answered.{Answered, start as start_answers};
ghost use Rattle.answers.specs.Change.{Fits, applied};
ghost use Rattle.answers.specs.Meaning.{answered, change};
ghost use Rattle.dict_meaning.specs.Accepted.{Accepted};
ghost use Rattle.dictionary.specs.AcceptedParts.{accepted};
ghost use Rattle.dictionary.specs.Engines.{AreFresh, AreMarkedBy, AreSameMarks};
ghost use Rattle.dict_meaning.specs.Fits.{AnswersFit};
ghost use Rattle.dict_meaning.specs.Plain.{plain};
ghost use Rattle.dict_meaning.specs.Slots.{stands};
ghost use Rattle.dict_meaning.specs.Weights.{touched_weight};
ghost use Rattle.visit_counts.specs.SlotVisits.{touched_visits};
ghost use Rattle.recalc.specs.EngineInvariant.{stamp_in};
ghost use Rattle.recalc.specs.Sharing.{StandsFor, marks_of, read_cells};

use crate::dependency_graph::DependencyGraph;
use crate::engine_cells::{EngineCells, OwnCells};
use crate::engine_state::EngineState;
use crate::start_cells::first_cells_uncounted;
use crate::undone::gone;
use crate::update::Update;
use answers::{Answers, Edit};
use dictionary::{Dictionary, FactEngine};
use fact_values::{NoMemory, Slot};
use std::alloc::Global;
use std::marker::Brand;
use std::sync::Arc;
use std::sync::ledger::{Blank, Ledger};
use steps::Steps;
use three_state::Res;

/// Goes from answers to answers and evaluates the slots that the change touches, and no others. It
/// numbers the changes, and keeps with each result which of them was the last to touch the slot.
#[derive(Drop)]
pub struct Recalc {
    alloc: Global,
    graph: Arc<DependencyGraph>,
    cells: EngineCells,
    changes: u64,
    touched: u64,
}

// The clauses are those of `FactEngine`, of an engine that counts. Beside them `refresh` says exactly how many steps it takes.
impl FactEngine for Recalc {
    const STAMPS: bool = true;

    ghost STAMPS = { true };

    ghost stands_for = { λ e d a. StandsFor e d a };

    ghost marks = { λ e. marks_of e };

    ghost most = { λ d before after. touched_weight d before after };

    fn begin(alloc: Global, dict: &Dictionary, answers: &Answers) -> Result<Self, NoMemory>
        requires { AnswersFit (accepted dict.now).tree (answered answers.now) }
        ensures stands { IfOk result (λ e. StandsFor e (accepted dict.now) (answered answers.now)) }
        ensures fresh { IfOk result (λ e. AreFresh (marks_of e)) }
    {
        let graph = DependencyGraph::new(alloc, dict)?;
        let store = first_cells_uncounted::<Brand>(alloc, &graph, dict, answers, Blank::new(1))?;
        let state = EngineState::new(alloc, dict, &graph, store)?;
        Ok(Recalc {
            alloc,
            graph: Arc::new(alloc, graph)?,
            cells: EngineCells::Own(OwnCells {
                state,
                at_start: None,
            }),
            changes: 0,
            touched: 0,
        })
    }

    fn further(&mut self, alloc: Global, dict: &Dictionary) -> Result<Self, NoMemory>
        requires { (a : Answered) × StandsFor self.old (accepted dict.now) a }
        ensures stands { IfOk result (λ e. StandsFor e (accepted dict.now) start_answers) }
        ensures fresh { IfOk result (λ e. AreFresh (marks_of e)) }
        ensures unchanged { (a : Answered) → StandsFor self.old (accepted dict.now) a → StandsFor self.new (accepted dict.now) a }
        ensures same_marks { AreSameMarks (marks_of self.old) (marks_of self.new) }
    {
        let at_start = self.cells.at_start(self.alloc, &self.graph, dict)?;
        Ok(Recalc {
            alloc,
            graph: self.graph.clone()?,
            cells: EngineCells::Shared(at_start),
            changes: 0,
            touched: 0,
        })
    }

    fn refresh<L: Ledger>(
        &mut self,
        dict: &Dictionary,
        now: &Answers,
        undo: &Edit,
        steps: &mut Steps<L>,
    ) -> Result<(), NoMemory>
        requires undone { Fits (change undo.now) (answered now.now) }
        requires before { StandsFor self.old (accepted dict.now) (applied (change undo.now) (answered now.now)) }
        requires fit_before { AnswersFit (accepted dict.now).tree (applied (change undo.now) (answered now.now)) }
        requires fit_now { AnswersFit (accepted dict.now).tree (answered now.now) }
        requires few { self.old.changes < 2 ^ 63 }
        ensures stands { OnOk result (StandsFor self.new (accepted dict.now) (answered now.now)) }
        ensures marked { OnOk result (AreMarkedBy (accepted dict.now)
            (applied (change undo.now) (answered now.now)) (answered now.now) (marks_of self.old) (marks_of self.new)) }
        ensures unchanged { OnErr result ((d : Accepted) (a : Answered) → StandsFor self.old d a → StandsFor self.new d a) }
        ensures same_marks { OnErr result (AreSameMarks (marks_of self.old) (marks_of self.new)) }
        ensures visits { OnOk result (steps.new ≡ steps.old + touched_visits (accepted dict.now)
            (applied (change undo.now) (answered now.now)) (answered now.now)) }
        ensures steps { steps.new ≤ steps.old + touched_weight (accepted dict.now)
            (applied (change undo.now) (answered now.now)) (answered now.now) }
    {
        let _source = dict.source();
        let gone = gone(undo, now);
        let stamp = self.changes + 1;
        let update = Update {
            dict,
            answers: now,
            undo,
            gone,
            stamp,
        };
        self.touched = self.cells.change(self.alloc, &self.graph, &update, steps)?;
        self.changes = stamp;
        Ok(())
    }

    fn result(&self, slot: Slot) -> Option<&Res>
        ensures { (d : Accepted) (a : Answered) → StandsFor self.now d a → option_copied result ≡ plain d a slot }
    {
        match &self.cells {
            EngineCells::Shared(at_start) => at_start.get(slot),
            EngineCells::Own(own) => own.state.store.get(slot),
        }
    }

    fn stamp(&self, slot: Slot) -> Option<u64>
        ensures { (d : Accepted) (a : Answered) → StandsFor self.now d a
            → result ≡ (if stands d.tree a slot then Some (stamp_in (read_cells self.now.cells) slot) else None) }
    {
        match &self.cells {
            EngineCells::Shared(at_start) => at_start.stamp(slot),
            EngineCells::Own(own) => own.state.store.stamp(slot),
        }
    }

    fn touched(&self) -> Option<u64>
        ensures { result ≡ Some self.now.touched }
    {
        Some(self.touched)
    }
}

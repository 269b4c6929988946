// Engines: what keeps the results of all slots, from answers to answers.
ghost use Rattle.std.specs.Prelude.{◌≡◌, ◌+◌, ◌<◌, ◌≤◌, ◌^◌, ◌&&◌, ℕ, Bool, IsTrue, IfOk, OnOk, OnErr, Some, None, option_copied, if◌then◌else◌};
ghost use Rattle.fact_values.specs.declared.slot.Slot.{Slot};
ghost use Rattle.answers.specs.Answered.{Answered, start};
ghost use Rattle.answers.specs.Change.{Fits, applied};
ghost use Rattle.answers.specs.Meaning.{answered, change};
ghost use Rattle.dict_meaning.specs.Accepted.{Accepted};
ghost use Rattle.dictionary.specs.AcceptedParts.{accepted};
ghost use Rattle.dictionary.specs.Engines.{AreFresh, AreMarkedBy, AreSameMarks, Marks};
ghost use Rattle.dict_meaning.specs.Fits.{AnswersFit};
ghost use Rattle.dict_meaning.specs.Plain.{plain};
ghost use Rattle.dict_meaning.specs.Slots.{stands};

use crate::dictionary::Dictionary;
use answers::{Answers, Edit};
use fact_values::{NoMemory, Slot};
use std::alloc::Global;
use std::sync::ledger::Ledger;
use steps::Steps;
use three_state::Res;

/// Keeps the result of each slot of a dictionary over answers, which it is told of change by change. It stores neither the
/// dictionary nor the answers: who calls it hands in those that it stands for.
pub trait FactEngine: Drop {
    /// Whether it numbers changes, and keeps which was the last to touch each slot.
    const STAMPS: bool;

    ghost STAMPS: { Bool };

    /// The dictionary and the answers whose results it has.
    ghost stands_for: { Self → Accepted → Answered → Type 0 };

    /// The number of changes, the stamps, and how many slots the last change touched; free without stamps.
    ghost marks: { Self → Marks };

    /// The most steps that a change from answers to answers takes, where a step is one visit of a node.
    ghost most: { Accepted → Answered → Answered → ℕ };

    /// The results over these answers, before any change.
    fn begin(alloc: Global, dict: &Dictionary, answers: &Answers) -> Result<Self, NoMemory>
        requires { AnswersFit (accepted dict.now).tree (answered answers.now) }
        ensures stands { IfOk result (λ e. stands_for e (accepted dict.now) (answered answers.now)) }
        ensures fresh { IfOk result (λ e. IsTrue STAMPS → AreFresh (marks e)) };

    /// One more engine over the same dictionary, at no answers and before any change. What never changes may be shared. This engine
    /// stays as it is.
    fn further(&mut self, alloc: Global, dict: &Dictionary) -> Result<Self, NoMemory>
        requires { (a : Answered) × stands_for self.old (accepted dict.now) a }
        ensures stands { IfOk result (λ e. stands_for e (accepted dict.now) start) }
        ensures fresh { IfOk result (λ e. IsTrue STAMPS → AreFresh (marks e)) }
        ensures unchanged { (a : Answered) → stands_for self.old (accepted dict.now) a
            → stands_for self.new (accepted dict.now) a }
        ensures same_marks { IsTrue STAMPS → AreSameMarks (marks self.old) (marks self.new) };

    /// Goes on to the answers `now`; `undo` gives those before. For want of memory it is as before.
    fn refresh<L: Ledger>(
        &mut self,
        dict: &Dictionary,
        now: &Answers,
        undo: &Edit,
        steps: &mut Steps<L>,
    ) -> Result<(), NoMemory>
        requires undone { Fits (change undo.now) (answered now.now) }
        requires before { stands_for self.old (accepted dict.now) (applied (change undo.now) (answered now.now)) }
        requires fit_before { AnswersFit (accepted dict.now).tree (applied (change undo.now) (answered now.now)) }
        requires fit_now { AnswersFit (accepted dict.now).tree (answered now.now) }
        requires few { IsTrue STAMPS → (marks self.old).changes < 2 ^ 63 }
        ensures stands { OnOk result (stands_for self.new (accepted dict.now) (answered now.now)) }
        ensures marked { OnOk result (IsTrue STAMPS → AreMarkedBy (accepted dict.now)
            (applied (change undo.now) (answered now.now)) (answered now.now) (marks self.old) (marks self.new)) }
        ensures unchanged { OnErr result ((d : Accepted) (a : Answered) → stands_for self.old d a
            → stands_for self.new d a) }
        ensures same_marks { OnErr result (IsTrue STAMPS → AreSameMarks (marks self.old) (marks self.new)) }
        ensures steps { steps.new ≤ steps.old + most (accepted dict.now) (applied (change undo.now) (answered now.now))
            (answered now.now) };

    /// The result of a slot: plain evaluation, and none where the slot doesn't stand.
    fn result(&self, slot: Slot) -> Option<&Res>
        ensures { (d : Accepted) (a : Answered) → stands_for self.now d a → option_copied result ≡ plain d a slot };

    /// The number of the last change that touched the slot, and 0 if none did: none without stamps, or where it doesn't stand.
    fn stamp(&self, slot: Slot) -> Option<u64>
        ensures { (d : Accepted) (a : Answered) → stands_for self.now d a
            → result ≡ (if STAMPS && stands d.tree a slot then Some ((marks self.now).stamps slot) else None) };

    /// How many slots the last change touched, and 0 before the first: none without stamps.
    fn touched(&self) -> Option<u64>
        ensures { (d : Accepted) (a : Answered) → stands_for self.now d a → result
            ≡ (if STAMPS then Some (marks self.now).touched else None) };
}

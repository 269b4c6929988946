// The trait of what keeps results while they are evaluated.
ghost use Rattle.std.specs.Prelude.{◌≡◌, ◌+◌, ◌≤◌, IsTrue, OnOk};
ghost use Rattle.answers.specs.Meaning.{answered};
ghost use Rattle.answers.specs.WellFormed.{FromOne, WellFormed};
ghost use Rattle.dict_meaning.specs.Accepted.{Accepted};
ghost use Rattle.dict_meaning.specs.Plain.{IsPlainBelow, rank};
ghost use Rattle.dict_meaning.specs.Slots.{slot_same, stands};
ghost use Rattle.dict_meaning.specs.Weights.{slot_weight};
ghost use Rattle.dictionary.specs.AcceptedParts.{accepted};
ghost use Rattle.evaluation.specs.Results.{Results};
ghost use Rattle.visit_counts.specs.SlotVisits.{slot_visits};
ghost use Rattle.full_evaluation.specs.Filling.{IsFilled};

use answers::Answers;
use dictionary::Dictionary;
use fact_values::{NoMemory, Slot};
use std::alloc::Global;
use std::sync::ledger::Ledger;
use steps::Steps;

/// Keeps the results of slots, and evaluates one over those that it has.
pub trait ResultTable: Drop {
    /// The results that it has.
    ghost results: { Self → Results };

    /// It is ready for the facts of a dictionary: what it needs to evaluate them, and what it keeps of each slot beside its result.
    ghost is_ready: { Self → Accepted → Type 0 };

    /// Evaluates a slot that stands, over the results of all facts of lower rank, and keeps its result. A visit of a node is a step.
    fn put_slot<L: Ledger>(
        &mut self,
        alloc: Global,
        dict: &Dictionary,
        answers: &Answers,
        slot: Slot,
        steps: &mut Steps<L>,
    ) -> Result<(), NoMemory>
        requires ready { is_ready self.old (accepted dict.now) }
        requires well { WellFormed (answered answers.now) }
        requires from_one { FromOne (answered answers.now) }
        requires stands { IsTrue (stands (accepted dict.now).tree (answered answers.now) slot) }
        requires below { IsPlainBelow (accepted dict.now) (answered answers.now) (rank (accepted dict.now) slot.fact)
            (results self.old) }
        ensures ready { OnOk result (is_ready self.new (accepted dict.now)) }
        ensures filled { OnOk result (IsFilled (accepted dict.now) (answered answers.now) (results self.old)
            (λ t. slot_same t slot) (results self.new)) }
        ensures visits { OnOk result (steps.new ≡ steps.old + slot_visits (accepted dict.now) (answered answers.now) slot) }
        ensures most { steps.new ≤ steps.old + slot_weight (accepted dict.now) (answered answers.now) slot };
}

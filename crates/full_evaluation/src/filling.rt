// Fills a table with the results of all slots, fact by fact in the order of the ranks.
ghost use Rattle.std.specs.Prelude.{◌≡◌, ◌+◌, ◌≤◌, ℕ, IsTrue, None, OnOk, sum_by};
ghost use Rattle.fact_values.specs.declared.slot.Slot.{Slot as OneSlot};
ghost use Rattle.answers.specs.Meaning.{answered};
ghost use Rattle.answers.specs.WellFormed.{FromOne, WellFormed};
ghost use Rattle.dict_source.specs.Finding.{IsNumber};
ghost use Rattle.evaluation.specs.Agreement.{IsIn};
ghost use Rattle.dictionary.specs.AcceptedParts.{accepted};
ghost use Rattle.dict_meaning.specs.Homes.{home};
ghost use Rattle.dict_meaning.specs.Plain.{IsPlainBelow, rank};
ghost use Rattle.evaluation.specs.Results.{slot};
ghost use Rattle.dict_meaning.specs.Slots.{members_of_home, slots_of, stands};
ghost use Rattle.dict_meaning.specs.Weights.{slot_weight, whole_weight};
ghost use Rattle.visit_counts.specs.SlotVisits.{slot_visits, whole_visits};
ghost use Rattle.full_evaluation.specs.Filling.{HasAll, IsFilled, is_at};

use crate::result_table::ResultTable;
use answers::Answers;
use dictionary::{Dictionary, members_of_home};
use fact_values::{NoMemory, Slot};
use std::alloc::Global;
use std::sync::ledger::Ledger;
use steps::Steps;

// Puts the results of a fact's slots at these members.
fn put_members<T: ResultTable, L: Ledger>(
    alloc: Global,
    dict: &Dictionary,
    answers: &Answers,
    fact: u32,
    members: &[u32],
    table: &mut T,
    steps: &mut Steps<L>,
) -> Result<(), NoMemory>
    requires ready { T.is_ready table.old (accepted dict.now) }
    requires well { WellFormed (answered answers.now) }
    requires from_one { FromOne (answered answers.now) }
    requires stand { (m : ℕ) → IsIn members.now m → IsTrue (stands (accepted dict.now).tree (answered answers.now)
        (slot fact m)) }
    requires below { IsPlainBelow (accepted dict.now) (answered answers.now) (rank (accepted dict.now) fact)
        (T.results table.old) }
    ensures ready { OnOk result (T.is_ready table.new (accepted dict.now)) }
    ensures filled { OnOk result (IsFilled (accepted dict.now) (answered answers.now) (T.results table.old)
        (is_at fact members.now) (T.results table.new)) }
    ensures visits { OnOk result (steps.new ≡ steps.old + sum_by
        (λ m. slot_visits (accepted dict.now) (answered answers.now) (slot fact m)) members.now) }
    ensures most { steps.new ≤ steps.old + sum_by (λ m. slot_weight (accepted dict.now) (answered answers.now)
        (slot fact m)) members.now }
{
    for member in members {
        let slot = Slot {
            fact,
            member: *member,
        };
        table.put_slot(alloc, dict, answers, slot, steps)?;
    }
    Ok(())
}

// Puts the results of a fact's slots.
fn put_fact<T: ResultTable, L: Ledger>(
    alloc: Global,
    dict: &Dictionary,
    answers: &Answers,
    fact: u32,
    table: &mut T,
    steps: &mut Steps<L>,
) -> Result<(), NoMemory>
    requires ready { T.is_ready table.old (accepted dict.now) }
    requires well { WellFormed (answered answers.now) }
    requires from_one { FromOne (answered answers.now) }
    requires number { IsNumber (accepted dict.now).tree.facts fact }
    requires below { IsPlainBelow (accepted dict.now) (answered answers.now) (rank (accepted dict.now) fact)
        (T.results table.old) }
    ensures ready { OnOk result (T.is_ready table.new (accepted dict.now)) }
    ensures filled { OnOk result (IsFilled (accepted dict.now) (answered answers.now) (T.results table.old)
        (is_at fact (members_of_home (answered answers.now) (home (accepted dict.now).tree fact)))
        (T.results table.new)) }
    ensures visits { OnOk result (steps.new ≡ steps.old + sum_by
        (slot_visits (accepted dict.now) (answered answers.now))
        (slots_of (accepted dict.now).tree (answered answers.now) fact)) }
    ensures most { steps.new ≤ steps.old + sum_by (slot_weight (accepted dict.now) (answered answers.now))
        (slots_of (accepted dict.now).tree (answered answers.now) fact) }
{
    let home = dict.home(fact);
    let members = members_of_home(answers, home);
    put_members(alloc, dict, answers, fact, members, table, steps)
}

/// Fills an empty table with the results of all slots that stand. A visit of a node is a step.
pub fn fill<T: ResultTable, L: Ledger>(
    alloc: Global,
    dict: &Dictionary,
    answers: &Answers,
    table: &mut T,
    steps: &mut Steps<L>,
) -> Result<(), NoMemory>
    requires ready { T.is_ready table.old (accepted dict.now) }
    requires well { WellFormed (answered answers.now) }
    requires from_one { FromOne (answered answers.now) }
    requires empty { (s : OneSlot) → T.results table.old s ≡ None }
    ensures ready { OnOk result (T.is_ready table.new (accepted dict.now)) }
    ensures all { OnOk result (HasAll (accepted dict.now) (answered answers.now) (T.results table.new)) }
    ensures visits { OnOk result (steps.new ≡ steps.old + whole_visits (accepted dict.now) (answered answers.now)) }
    ensures most { steps.new ≤ steps.old + whole_weight (accepted dict.now) (answered answers.now) }
{
    let _source = dict.source();
    for fact in dict.by_rank() {
        put_fact(alloc, dict, answers, *fact, table, steps)?;
    }
    Ok(())
}

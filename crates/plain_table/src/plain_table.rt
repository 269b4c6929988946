// The plain engine: all results anew after each change.
ghost use Rattle.std.specs.Prelude.{◌≡◌, ◌+◌, ◌<◌, ◌≤◌, false, IfOk, IsTrue, None, OnErr, OnOk, option_copied};
ghost use Rattle.answers.specs.Answered.{Answered, start};
ghost use Rattle.answers.specs.Meaning.{answered};
ghost use Rattle.answers.specs.WellFormed.{FromOne, WellFormed};
ghost use Rattle.dict_meaning.specs.Accepted.{Accepted};
ghost use Rattle.dictionary.specs.AcceptedParts.{accepted};
ghost use Rattle.dict_meaning.specs.Plain.{plain};
ghost use Rattle.dict_meaning.specs.Weights.{whole_weight};
ghost use Rattle.visit_counts.specs.SlotVisits.{whole_visits};
ghost use Rattle.full_evaluation.specs.Filling.{HasAll};
ghost use Rattle.plain_table.specs.Table.{no_marks, results_of};

use crate::table::Table;
use answers::{Answers, Edit};
use dictionary::{Dictionary, FactEngine};
use fact_values::{NoMemory, Slot};
use full_evaluation::fill;
use std::alloc::Global;
use std::marker::Brand;
use std::sync::ledger::{Blank, Ledger};
use steps::Steps;
use three_state::Res;

/// Computes the results of all slots anew after each change, in the order of the ranks, from the
/// expressions as they are written. It numbers no changes.
#[derive(Drop)]
pub struct PlainTable {
    alloc: Global,
    table: Table,
}

// The results of all slots.
fn whole_table<L: Ledger>(
    alloc: Global,
    dict: &Dictionary,
    answers: &Answers,
    steps: &mut Steps<L>,
) -> Result<Table, NoMemory>
    requires well { WellFormed (answered answers.now) }
    requires from_one { FromOne (answered answers.now) }
    ensures all { IfOk result (λ t. HasAll (accepted dict.now) (answered answers.now) (results_of t)) }
    ensures visits { OnOk result (steps.new ≡ steps.old + whole_visits (accepted dict.now) (answered answers.now)) }
    ensures most { steps.new ≤ steps.old + whole_weight (accepted dict.now) (answered answers.now) }
{
    let mut table = Table::with_room(alloc, dict.source().facts().len())?;
    fill(alloc, dict, answers, &mut table, steps)?;
    Ok(table)
}

// The same, where the steps are counted for nobody.
fn first_table<L: Ledger>(
    alloc: Global,
    dict: &Dictionary,
    answers: &Answers,
    blank: Blank,
) -> Result<Table, NoMemory>
    requires well { WellFormed (answered answers.now) }
    requires from_one { FromOne (answered answers.now) }
    requires name { blank.name ≡ L.name }
    requires parts { blank.parts ≡ L.parts }
    requires some { 0 < blank.parts }
    ensures { IfOk result (λ t. HasAll (accepted dict.now) (answered answers.now) (results_of t)) }
{
    let mut steps = Steps::<L>::new(blank);
    whole_table(alloc, dict, answers, &mut steps)
}

impl FactEngine for PlainTable {
    const STAMPS: bool = false;

    ghost STAMPS = { false };

    ghost stands_for = { λ e d a. HasAll d a (results_of e.table) };

    ghost marks = { λ e. no_marks };

    ghost most = { λ d before after. whole_weight d after };

    fn begin(alloc: Global, dict: &Dictionary, answers: &Answers) -> Result<Self, NoMemory>
        requires well { WellFormed (answered answers.now) }
        requires from_one { FromOne (answered answers.now) }
        ensures stands { IfOk result (λ e. HasAll (accepted dict.now) (answered answers.now) (results_of e.table)) }
    {
        let table = first_table::<Brand>(alloc, dict, answers, Blank::new(1))?;
        Ok(PlainTable { alloc, table })
    }

    fn further(&mut self, alloc: Global, dict: &Dictionary) -> Result<Self, NoMemory>
        ensures stands { IfOk result (λ e. HasAll (accepted dict.now) start (results_of e.table)) }
        ensures unchanged { self.new ≡ self.old }
    {
        PlainTable::begin(alloc, dict, &Answers::new(alloc))
    }

    fn refresh<L: Ledger>(
        &mut self,
        dict: &Dictionary,
        now: &Answers,
        _undo: &Edit,
        steps: &mut Steps<L>,
    ) -> Result<(), NoMemory>
        requires well { WellFormed (answered now.now) }
        requires from_one { FromOne (answered now.now) }
        ensures stands { OnOk result (HasAll (accepted dict.now) (answered now.now) (results_of self.new.table)) }
        ensures unchanged { OnErr result ((d : Accepted) (a : Answered) → HasAll d a (results_of self.old.table)
            → HasAll d a (results_of self.new.table)) }
        ensures visits { OnOk result (steps.new ≡ steps.old + whole_visits (accepted dict.now) (answered now.now)) }
        ensures steps { steps.new ≤ steps.old + whole_weight (accepted dict.now) (answered now.now) }
    {
        let table = whole_table(self.alloc, dict, now, steps)?;
        self.table = table;
        Ok(())
    }

    fn result(&self, slot: Slot) -> Option<&Res>
        ensures { (d : Accepted) (a : Answered) → HasAll d a (results_of self.now.table) → option_copied result
            ≡ plain d a slot }
    {
        self.table.get(slot)
    }

    fn stamp(&self, _slot: Slot) -> Option<u64>
        ensures { result ≡ None }
    {
        None
    }

    fn touched(&self) -> Option<u64>
        ensures { result ≡ None }
    {
        None
    }
}

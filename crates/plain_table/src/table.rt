// The results of slots so far, and the next one from the expressions as they are written.
ghost use Rattle.std.specs.Prelude.{◌≡◌, IfOk, None, OnOk, option_copied};
ghost use Rattle.fact_values.specs.declared.slot.Slot.{Slot};
ghost use Rattle.three_state.specs.declared.res.Res.TheVariants.{Incomplete};

use crate::slots::slot_result;
use crate::table_context::TableContext;
use answers::Answers;
use dictionary::Dictionary;
use fact_values::{NoMemory, Slot};
use full_evaluation::ResultTable;
use std::alloc::Global;
use std::collections::HashMap;
use std::sync::ledger::Ledger;
use steps::Steps;
use three_state::Res;

/// The result of each slot that was computed, by its fact and its member.
#[derive(Drop)]
pub struct Table {
    cells: HashMap<(u32, u32), Res>,
    /// What is read of a slot that has no result.
    missing: Res,
    ghost missing_is_incomplete: { missing ≡ Incomplete },
}

impl Table {
    ghost use Rattle.evaluation.specs.Results.{result_at};
    ghost use Rattle.full_evaluation.specs.Filling.{with_result};
    ghost use Rattle.plain_table.specs.Table.{results_of};

    /// No slot was computed. There is room for so many.
    pub fn with_room(alloc: Global, count: usize) -> Result<Table, NoMemory>
        ensures { IfOk result (λ t. (s : Slot) → results_of t s ≡ None) }
    {
        Ok(Table {
            cells: HashMap::with_capacity(alloc, count)?,
            missing: Res::Incomplete,
        })
    }

    /// The result of a slot.
    pub fn get(&self, slot: Slot) -> Option<&Res>
        ensures { option_copied result ≡ results_of self.now slot }
    {
        self.cells.get(&(slot.fact, slot.member))
    }

    /// What is read of a fact at a member: a slot that has no result counts as incomplete.
    pub fn result_at(&self, fact: Option<u32>, member: u32) -> &Res
        ensures { result.now ≡ result_at (results_of self.now) fact member }
    {
        let Some(fact) = fact else {
            return &self.missing;
        };
        match self.get(Slot { fact, member }) {
            Some(res) => res,
            None => &self.missing,
        }
    }

    /// Keeps the result of a slot.
    pub fn put(&mut self, slot: Slot, res: Res) -> Result<(), NoMemory>
        ensures { OnOk result ((s : Slot) → results_of self.new s ≡ with_result (results_of self.old) slot res s) }
    {
        match self.cells.insert((slot.fact, slot.member), res) {
            Ok(_) => Ok(()),
            Err(_) => Err(NoMemory),
        }
    }
}

impl ResultTable for Table {
    ghost use Rattle.plain_table.specs.Table.{results_of};

    ghost results = { results_of };

    ghost is_ready = { λ t d. Unit {0} };

    fn put_slot<L: Ledger>(
        &mut self,
        alloc: Global,
        dict: &Dictionary,
        answers: &Answers,
        slot: Slot,
        steps: &mut Steps<L>,
    ) -> Result<(), NoMemory> {
        let source = dict.source();
        let Some(fact) = source.fact(slot.fact) else {
            return Ok(());
        };
        let context = TableContext {
            source,
            fact: slot.fact,
            table: self,
        };
        let res = slot_result(alloc, &context, answers, slot.member, fact, steps)?;
        self.put(slot, res)
    }
}

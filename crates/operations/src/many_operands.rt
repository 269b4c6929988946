// Nodes with many operands, seen one by one.
ghost use Rattle.std.specs.Prelude.{◌≡◌, ◌+◌, ◌<◌, ◌≤◌, ◌^◌, [], ◌∷◌, ◌++◌, List, IsErr, OnErr, OnOk};
ghost use Rattle.dict_source.specs.declared.operators.ManyOp.{ManyOp};
ghost use Rattle.evaluation.specs.Over.{many_of};
ghost use Rattle.operations.specs.ManyFolds.{AreSeen, many_end, many_start, saw};
ghost use Rattle.operations.specs.NumberRuns.{numbers_seen};
ghost use Rattle.fact_values.specs.Values.{HoldsMemory};
ghost use Rattle.three_state.specs.Results.{ValueHoldsMemory};
ghost use Rattle.three_state.specs.declared.res.Res.{Res};
ghost use Rattle.three_state.specs.declared.res.Res.TheVariants.{Complete};

use crate::accumulator::Accumulator;
use crate::gathered::Gathered;
use crate::sum::summed_as;
use dict_source::ManyOp;
use fact_values::{NoMemory, Total, Value};
use std::alloc::Global;
use std::marker::Model;
use three_state::{Res, Strict};

/// The operands of a node that has many, seen one by one in their order. Contracts see how many
/// were seen, and what is kept of them.
#[derive(Drop)]
pub struct ManyFold {
    count: u64,
    kept: Accumulator,
}

impl Model for ManyFold {
    ghost use Rattle.std.specs.Prelude.{◌≤◌};
    ghost use Rattle.operations.specs.ManyFolds.{ManySeen, calls_accumulated};

    ghost Value = { ManySeen };

    ghost view = { λ f. record { count = f.count; kept = f.kept } };

    ghost invariant = { λ f. calls_accumulated f.kept ≤ f.count };
}

impl ManyFold {
    /// No operand was seen.
    #[tactic(auto, unfolding(crate::specs::ManyFolds::accumulator_start))]
    pub fn new(op: ManyOp) -> ManyFold
        ensures { result ≡ many_start op }
    {
        ManyFold {
            count: 0,
            kept: Accumulator::new(op),
        }
    }

    /// An Add saw so many complete numbers of one type, of which this is the sum.
    pub(crate) fn of_numbers(count: u64, are_amounts: bool, total: Total) -> ManyFold
        requires { total.calls ≤ count }
        ensures { result ≡ numbers_seen count are_amounts total }
    {
        ManyFold {
            count,
            kept: Accumulator::Values(
                Strict::new(),
                Gathered::Added(summed_as(are_amounts, total)),
            ),
        }
    }

    /// Sees the next operand.
    #[tactic(auto, unfolding(crate::specs::ManyFolds::accumulator_next))]
    pub fn see(&mut self, operand: Res)
        requires few { self.old.count + 1 < 2 ^ 64 }
        ensures next { self.new ≡ saw self.old operand }
        ensures seen { (op : ManyOp) (rs : List Res) → AreSeen op rs self.old → AreSeen op (rs ++ operand ∷ [])
            self.new }
    {
        self.kept.see(operand);
        self.count += 1;
    }

    /// Sees the next operand, which stays where it is. It wants memory where a text or a list of members may be kept.
    #[inline(always)]
    #[tactic(auto, unfolding(crate::specs::ManyFolds::accumulator_next))]
    pub fn see_lent(&mut self, alloc: Global, operand: &Res) -> Result<(), NoMemory>
        requires few { self.old.count + 1 < 2 ^ 64 }
        ensures next { OnOk result (self.new ≡ saw self.old operand.now) }
        ensures unchanged { OnErr result (self.new ≡ self.old) }
        ensures seen { OnOk result ((op : ManyOp) (rs : List Res) → AreSeen op rs self.old
            → AreSeen op (rs ++ operand.now ∷ []) self.new) }
        ensures memory { IsErr result → ValueHoldsMemory operand.now }
    {
        self.kept.see_lent(alloc, operand)?;
        self.count += 1;
        Ok(())
    }

    /// Sees the next operand, a complete value that stays where it is. It wants memory where a text or a list of members is copied.
    #[inline(always)]
    #[tactic(auto, unfolding(crate::specs::ManyFolds::accumulator_next))]
    pub fn see_value(&mut self, alloc: Global, value: &Value) -> Result<(), NoMemory>
        requires few { self.old.count + 1 < 2 ^ 64 }
        ensures next { OnOk result (self.new ≡ saw self.old (Complete value.now)) }
        ensures unchanged { OnErr result (self.new ≡ self.old) }
        ensures memory { IsErr result → HoldsMemory value.now }
    {
        self.kept.see_value(alloc, value)?;
        self.count += 1;
        Ok(())
    }

    /// The result of the node.
    pub fn end(self) -> Res
        ensures value { result ≡ many_end self }
        ensures node { (op : ManyOp) (rs : List Res) → AreSeen op rs self → result ≡ many_of op rs }
    {
        self.kept.end()
    }
}

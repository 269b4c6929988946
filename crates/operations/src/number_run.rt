// The numbers at the front of a sum.
ghost use Rattle.std.specs.Prelude.{◌≡◌, ◌+◌, ◌<◌, ◌^◌, true};
ghost use Rattle.dict_source.specs.declared.operators.ManyOp.TheVariants as many_op;
ghost use Rattle.fact_values.specs.declared.value.Value.TheVariants as value;
ghost use Rattle.three_state.specs.declared.res.Res.TheVariants.{Complete};
ghost use Rattle.operations.specs.ManyFolds.{many_end, many_start, saw};
ghost use Rattle.operations.specs.NumberRuns.{are_amounts, are_wholes};

use crate::many_operands::ManyFold;
use crate::sum::{dollar_of, whole_of};
use crate::verdict::after_verdict;
use fact_values::{Dollar, Total, Whole};
use std::marker::Model;
use three_state::{Res, Strict};

/// What an Add keeps while all operands that it saw are complete numbers of one type, of which there is at least one. It is small
/// enough to stay in registers. Contracts see what a fold of these operands has, their count too: it is one more than the numbers
/// that were added to the first, so no field has it.
#[derive(Drop)]
pub struct NumberRun {
    /// Whether the numbers are amounts of money, in cents.
    are_amounts: bool,
    total: Total,
}

impl Model for NumberRun {
    ghost use Rattle.std.specs.Prelude.{◌+◌};
    ghost use Rattle.operations.specs.ManyFolds.{ManySeen};
    ghost use Rattle.operations.specs.NumberRuns.{numbers_seen};

    ghost Value = { ManySeen };

    ghost view = { λ run. numbers_seen (run.total.calls + 1) run.are_amounts run.total };
}

impl NumberRun {
    /// The first operand was seen, an amount of money.
    #[tactic(auto, unfolding(crate::specs::ManyFolds::accumulator_start, crate::specs::ManyFolds::accumulator_next))]
    pub fn of_amount(first: Dollar) -> NumberRun
        ensures seen { result ≡ saw (many_start many_op.Add) (Complete (value.Dollar first)) }
        ensures amounts { are_amounts result.kept ≡ true }
    {
        NumberRun {
            are_amounts: true,
            total: Total::new(first.cents()),
        }
    }

    /// The first operand was seen, a whole number.
    #[tactic(auto, unfolding(crate::specs::ManyFolds::accumulator_start, crate::specs::ManyFolds::accumulator_next))]
    pub fn of_whole(first: Whole) -> NumberRun
        ensures seen { result ≡ saw (many_start many_op.Add) (Complete (value.Int first)) }
        ensures wholes { are_wholes result.kept ≡ true }
    {
        NumberRun {
            are_amounts: false,
            total: Total::new(first.get()),
        }
    }

    /// Sees the next operand, an amount of money after others.
    #[inline(always)]
    #[tactic(auto, using(crate::proofs::RunLaws::runs))]
    pub fn see_amount(&mut self, amount: Dollar)
        requires few { self.old.count + 1 < 2 ^ 64 }
        requires amounts { are_amounts self.old.kept ≡ true }
        ensures seen { self.new ≡ saw self.old (Complete (value.Dollar amount)) }
        ensures amounts { are_amounts self.new.kept ≡ true }
    {
        self.total.plus(amount.cents());
    }

    /// Sees the next operand, a whole number after others.
    #[inline(always)]
    #[tactic(auto, using(crate::proofs::RunLaws::runs))]
    pub fn see_whole(&mut self, number: Whole)
        requires few { self.old.count + 1 < 2 ^ 64 }
        requires wholes { are_wholes self.old.kept ≡ true }
        ensures seen { self.new ≡ saw self.old (Complete (value.Int number)) }
        ensures wholes { are_wholes self.new.kept ≡ true }
    {
        self.total.plus(number.get());
    }

    /// The result of an Add that has no other operands.
    #[tactic(auto, unfolding(crate::specs::ManyFolds::accumulator_end))]
    pub fn end(self) -> Res
        ensures { result ≡ many_end self }
    {
        let sum = if self.are_amounts {
            dollar_of(&self.total)
        } else {
            whole_of(&self.total)
        };
        after_verdict(Strict::new().verdict(), sum)
    }

    /// The fold that saw them, which are so many.
    pub fn into_fold(self, count: u64) -> ManyFold
        requires { count ≡ self.count }
        ensures { result ≡ self }
    {
        let NumberRun { are_amounts, total } = self;
        ManyFold::of_numbers(count, are_amounts, total)
    }
}

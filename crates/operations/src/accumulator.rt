// What is kept of the operands seen by a node with many, for each kind of node.
ghost use Rattle.std.specs.Prelude.{◌≡◌, ◌<◌, ◌^◌, IsErr, OnErr, OnOk};
ghost use Rattle.three_state.specs.Folds.{verdict_next};
ghost use Rattle.fact_values.specs.Values.{HoldsMemory};
ghost use Rattle.three_state.specs.Results.{ValueHoldsMemory};
ghost use Rattle.three_state.specs.declared.res.Res.TheVariants.{Complete};
ghost use Rattle.operations.specs.ManyFolds.{accumulator_end, accumulator_next, accumulator_start, calls_accumulated, calls_of, gathered_after};

use crate::gathered::Gathered;
use crate::sum::Summed;
use crate::verdict::after_verdict;
use dict_source::ManyOp;
use fact_values::{NoMemory, Value};
use std::alloc::Global;
use three_state::{AllFold, AnyFold, Res, Strict};

/// What a node with many operands keeps of those seen.
#[derive(Drop)]
pub enum Accumulator {
    All(AllFold),
    Any(AnyFold),
    /// The verdict on them, and what is kept of their values.
    Values(Strict, Gathered),
}

impl Accumulator {
    #[tactic(auto, unfolding(crate::specs::ManyFolds::accumulator_start))]
    pub fn new(op: ManyOp) -> Accumulator
        ensures { result ≡ accumulator_start op }
    {
        match op {
            ManyOp::All => Accumulator::All(AllFold::new()),
            ManyOp::Any => Accumulator::Any(AnyFold::new()),
            ManyOp::Add => Accumulator::Values(Strict::new(), Gathered::Added(Summed::Nothing)),
            ManyOp::Subtract => {
                Accumulator::Values(Strict::new(), Gathered::Subtracted(Summed::Nothing))
            }
            ManyOp::GreaterOf => Accumulator::Values(Strict::new(), Gathered::Greatest(None)),
            ManyOp::LesserOf => Accumulator::Values(Strict::new(), Gathered::Least(None)),
        }
    }

    #[tactic(auto, unfolding(crate::specs::ManyFolds::accumulator_next))]
    pub fn see(&mut self, operand: Res)
        requires few { calls_accumulated self.old < 2 ^ 64 }
        ensures { self.new ≡ accumulator_next self.old operand }
    {
        match self {
            Accumulator::All(fold) => {
                fold.see(&operand);
                drop(operand);
            }
            Accumulator::Any(fold) => {
                fold.see(&operand);
                drop(operand);
            }
            Accumulator::Values(verdict, gathered) => {
                verdict.see(&operand);
                gather(gathered, operand);
            }
        }
    }

    #[inline(always)]
    #[tactic(auto, unfolding(crate::specs::ManyFolds::accumulator_next))]
    pub fn see_lent(&mut self, alloc: Global, operand: &Res) -> Result<(), NoMemory>
        requires few { calls_accumulated self.old < 2 ^ 64 }
        ensures ok { OnOk result (self.new ≡ accumulator_next self.old operand.now) }
        ensures unchanged { OnErr result (self.new ≡ self.old) }
        ensures memory { IsErr result → ValueHoldsMemory operand.now }
    {
        match self {
            Accumulator::All(fold) => {
                fold.see(operand);
                Ok(())
            }
            Accumulator::Any(fold) => {
                fold.see(operand);
                Ok(())
            }
            Accumulator::Values(verdict, gathered) => see_strict(alloc, verdict, gathered, operand),
        }
    }

    #[inline(always)]
    #[tactic(auto, unfolding(crate::specs::ManyFolds::accumulator_next), using(crate::proofs::ManyLaws::complete_leaves_verdict))]
    pub fn see_value(&mut self, alloc: Global, value: &Value) -> Result<(), NoMemory>
        requires few { calls_accumulated self.old < 2 ^ 64 }
        ensures ok { OnOk result (self.new ≡ accumulator_next self.old (Complete value.now)) }
        ensures unchanged { OnErr result (self.new ≡ self.old) }
        ensures memory { IsErr result → HoldsMemory value.now }
    {
        match self {
            Accumulator::All(fold) => {
                fold.see(&Res::Complete(value.copy(alloc)?));
                Ok(())
            }
            Accumulator::Any(fold) => {
                fold.see(&Res::Complete(value.copy(alloc)?));
                Ok(())
            }
            Accumulator::Values(_, gathered) => gathered.see_lent(alloc, value),
        }
    }

    #[tactic(auto, unfolding(crate::specs::ManyFolds::accumulator_end))]
    pub fn end(self) -> Res
        ensures { result ≡ accumulator_end self }
    {
        match self {
            Accumulator::All(fold) => fold.end(),
            Accumulator::Any(fold) => fold.end(),
            Accumulator::Values(verdict, gathered) => {
                after_verdict(verdict.verdict(), gathered.end())
            }
        }
    }
}

/// Sees the operand's value, if it has one.
fn gather(gathered: &mut Gathered, operand: Res)
    requires few { calls_of gathered.old < 2 ^ 64 }
    ensures { gathered.new ≡ gathered_after gathered.old operand }
{
    match operand {
        Res::Complete(v) => gathered.see(v),
        Res::Placeholder(v) => gathered.see(v),
        Res::Incomplete => {}
        Res::Fault(_) => {}
    }
}

/// Sees an operand of a strict operation, which stays where it is. One that is complete leaves the verdict as it was.
#[inline(always)]
#[tactic(auto, using(crate::proofs::ManyLaws::complete_leaves_verdict))]
fn see_strict(
    alloc: Global,
    verdict: &mut Strict,
    gathered: &mut Gathered,
    operand: &Res,
) -> Result<(), NoMemory>
    requires few { calls_of gathered.old < 2 ^ 64 }
    ensures verdict { OnOk result (verdict.new ≡ verdict_next verdict.old operand.now) }
    ensures gathered { OnOk result (gathered.new ≡ gathered_after gathered.old operand.now) }
    ensures unchanged { OnErr result ((verdict.new ≡ verdict.old) × (gathered.new ≡ gathered.old)) }
    ensures memory { IsErr result → ValueHoldsMemory operand.now }
{
    match operand {
        Res::Complete(v) => gathered.see_lent(alloc, v),
        _ => see_any(alloc, verdict, gathered, operand),
    }
}

/// The same of any operand. It stands apart, so that one that is complete doesn't keep room for it.
#[inline(never)]
fn see_any(
    alloc: Global,
    verdict: &mut Strict,
    gathered: &mut Gathered,
    operand: &Res,
) -> Result<(), NoMemory>
    requires few { calls_of gathered.old < 2 ^ 64 }
    ensures verdict { OnOk result (verdict.new ≡ verdict_next verdict.old operand.now) }
    ensures gathered { OnOk result (gathered.new ≡ gathered_after gathered.old operand.now) }
    ensures unchanged { OnErr result ((verdict.new ≡ verdict.old) × (gathered.new ≡ gathered.old)) }
    ensures memory { IsErr result → ValueHoldsMemory operand.now }
{
    match operand {
        Res::Complete(v) => gathered.see_lent(alloc, v)?,
        Res::Placeholder(v) => gathered.see_lent(alloc, v)?,
        Res::Incomplete => {}
        Res::Fault(_) => {}
    }
    verdict.see(operand);
    Ok(())
}

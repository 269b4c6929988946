// A node whose operands are all facts that stand once.
ghost use Rattle.std.specs.Prelude.{◌≡◌, ◌+◌, ◌<◌, ◌≤◌, ◌^◌, true, drop, fold, length, map, IfOk, IsErr, OnOk};
ghost use Rattle.evaluation.specs.Over.{many_of};
ghost use Rattle.dict_source.specs.declared.operators.ManyOp.TheVariants as many_op;
ghost use Rattle.fact_values.specs.declared.value.Value.TheVariants as value;
ghost use Rattle.three_state.specs.declared.res.Res.TheVariants.{Complete};
ghost use Rattle.operations.specs.ManyFolds.{many_from, many_start, saw};
ghost use Rattle.operations.specs.NumberRuns.{are_amounts, are_wholes};
ghost use Rattle.three_state.specs.Results.{ValueHoldsMemory};
ghost use Rattle.node_eval.specs.Globals.{SomeHoldsMemory, amount_of, global_result, leading, whole_of};

use crate::cells::Cells;
use crate::reads::see_cell;
use dict_source::ManyOp;
use fact_values::{Dollar, NoMemory, Whole};
use operations::{ManyFold, NumberRun};
use std::alloc::Global;
use std::sync::ledger::Ledger;
use steps::Steps;
use three_state::Res;

// Sees the result of a fact, which is a step.
#[inline(always)]
fn see_global<C: Cells, L: Ledger>(
    alloc: Global,
    cells: &C,
    fact: u32,
    fold: &mut ManyFold,
    steps: &mut Steps<L>,
) -> Result<(), NoMemory>
    requires few { fold.old.count + 1 < 2 ^ 64 }
    ensures next { OnOk result (fold.new ≡ saw fold.old (global_result (C.results cells.now) fact)) }
    ensures memory { IsErr result → ValueHoldsMemory (global_result (C.results cells.now) fact) }
    ensures step { steps.new ≡ steps.old + 1 }
{
    steps.tick();
    see_cell(alloc, cells, fact, 0, fold)
}

// The result of a node of which this was seen, once these facts are too.
fn see_globals<C: Cells, L: Ledger>(
    alloc: Global,
    cells: &C,
    seen: ManyFold,
    facts: &[u32],
    steps: &mut Steps<L>,
) -> Result<Res, NoMemory>
    requires few { seen.count + length facts.now < 2 ^ 64 }
    ensures value { IfOk result (λ r. r ≡ many_from seen (map (global_result (C.results cells.now)) facts.now)) }
    ensures steps { OnOk result (steps.new ≡ steps.old + length facts.now) }
    ensures most { steps.new ≤ steps.old + length facts.now }
    ensures least { steps.old ≤ steps.new }
    ensures memory { IsErr result → SomeHoldsMemory (C.results cells.now) facts.now }
{
    let mut fold = seen;
    for fact in facts {
        see_global(alloc, cells, *fact, &mut fold, steps)?;
    }
    Ok(fold.end())
}

// Sees the amounts of money at the front of these facts, each a step, and says how many there are.
#[inline(always)]
#[tactic(auto)]
fn see_amounts<C: Cells, L: Ledger>(
    cells: &C,
    facts: &[u32],
    run: &mut NumberRun,
    steps: &mut Steps<L>,
) -> usize
    requires few { run.old.count + length facts.now < 2 ^ 64 }
    requires amounts { are_amounts run.old.kept ≡ true }
    ensures front { result ≡ leading amount_of (map (global_result (C.results cells.now)) facts.now) }
    ensures within { result ≤ length facts.now }
    ensures seen { fold saw run.new (map (global_result (C.results cells.now)) (drop result facts.now))
        ≡ fold saw run.old (map (global_result (C.results cells.now)) facts.now) }
    ensures count { run.new.count ≡ run.old.count + result }
    ensures steps { steps.new ≡ steps.old + result }
{
    let mut seen = 0usize;
    while seen < facts.len() {
        let Some(amount) = cells.amount(facts[seen]) else {
            return seen;
        };
        run.see_amount(amount);
        steps.tick();
        seen += 1;
    }
    seen
}

// Sees the whole numbers at the front of these facts, each a step, and says how many there are.
#[inline(always)]
#[tactic(auto)]
fn see_wholes<C: Cells, L: Ledger>(
    cells: &C,
    facts: &[u32],
    run: &mut NumberRun,
    steps: &mut Steps<L>,
) -> usize
    requires few { run.old.count + length facts.now < 2 ^ 64 }
    requires wholes { are_wholes run.old.kept ≡ true }
    ensures front { result ≡ leading whole_of (map (global_result (C.results cells.now)) facts.now) }
    ensures within { result ≤ length facts.now }
    ensures seen { fold saw run.new (map (global_result (C.results cells.now)) (drop result facts.now))
        ≡ fold saw run.old (map (global_result (C.results cells.now)) facts.now) }
    ensures count { run.new.count ≡ run.old.count + result }
    ensures steps { steps.new ≡ steps.old + result }
{
    let mut seen = 0usize;
    while seen < facts.len() {
        let Some(number) = cells.whole(facts[seen]) else {
            return seen;
        };
        run.see_whole(number);
        steps.tick();
        seen += 1;
    }
    seen
}

// The result of an Add of which this was seen, so many operands, once these facts are too.
#[inline(always)]
fn see_rest<C: Cells, L: Ledger>(
    alloc: Global,
    cells: &C,
    run: NumberRun,
    count: u64,
    facts: &[u32],
    steps: &mut Steps<L>,
) -> Result<Res, NoMemory>
    requires seen { count ≡ run.count }
    requires few { run.count + length facts.now < 2 ^ 64 }
    ensures value { IfOk result (λ r. r ≡ many_from run (map (global_result (C.results cells.now)) facts.now)) }
    ensures steps { OnOk result (steps.new ≡ steps.old + length facts.now) }
    ensures most { steps.new ≤ steps.old + length facts.now }
    ensures least { steps.old ≤ steps.new }
    ensures memory { IsErr result → SomeHoldsMemory (C.results cells.now) facts.now }
{
    if facts.is_empty() {
        return Ok(run.end());
    }
    see_globals(alloc, cells, run.into_fold(count), facts, steps)
}

// An Add over an amount of money, which is a step, and these facts.
fn add_amounts<C: Cells, L: Ledger>(
    alloc: Global,
    cells: &C,
    first: Dollar,
    facts: &[u32],
    steps: &mut Steps<L>,
) -> Result<Res, NoMemory>
    requires few { 1 + length facts.now < 2 ^ 64 }
    ensures value { IfOk result (λ r. r ≡ many_from (saw (many_start many_op.Add) (Complete (value.Dollar first)))
        (map (global_result (C.results cells.now)) facts.now)) }
    ensures steps { OnOk result (steps.new ≡ steps.old + 1 + length facts.now) }
    ensures most { steps.new ≤ steps.old + 1 + length facts.now }
    ensures least { steps.old ≤ steps.new }
    ensures memory { IsErr result → SomeHoldsMemory (C.results cells.now) facts.now }
{
    steps.tick();
    let mut run = NumberRun::of_amount(first);
    let amounts = see_amounts(cells, facts, &mut run, steps);
    see_rest(
        alloc,
        cells,
        run,
        amounts as u64 + 1,
        &facts[amounts..],
        steps,
    )
}

// An Add over a whole number, which is a step, and these facts.
fn add_wholes<C: Cells, L: Ledger>(
    alloc: Global,
    cells: &C,
    first: Whole,
    facts: &[u32],
    steps: &mut Steps<L>,
) -> Result<Res, NoMemory>
    requires few { 1 + length facts.now < 2 ^ 64 }
    ensures value { IfOk result (λ r. r ≡ many_from (saw (many_start many_op.Add) (Complete (value.Int first)))
        (map (global_result (C.results cells.now)) facts.now)) }
    ensures steps { OnOk result (steps.new ≡ steps.old + 1 + length facts.now) }
    ensures most { steps.new ≤ steps.old + 1 + length facts.now }
    ensures least { steps.old ≤ steps.new }
    ensures memory { IsErr result → SomeHoldsMemory (C.results cells.now) facts.now }
{
    steps.tick();
    let mut run = NumberRun::of_whole(first);
    let wholes = see_wholes(cells, facts, &mut run, steps);
    see_rest(
        alloc,
        cells,
        run,
        wholes as u64 + 1,
        &facts[wholes..],
        steps,
    )
}

// An Add over these facts. Where the first of them is a number, those at the front that are numbers of its type are summed in
// registers.
#[tactic(auto, using(crate::proofs::FrontLaws::firsts))]
fn add_globals<C: Cells, L: Ledger>(
    alloc: Global,
    cells: &C,
    facts: &[u32],
    steps: &mut Steps<L>,
) -> Result<Res, NoMemory>
    ensures value { IfOk result (λ r. r ≡ many_from (many_start many_op.Add)
        (map (global_result (C.results cells.now)) facts.now)) }
    ensures steps { OnOk result (steps.new ≡ steps.old + length facts.now) }
    ensures most { steps.new ≤ steps.old + length facts.now }
    ensures least { steps.old ≤ steps.new }
    ensures memory { IsErr result → SomeHoldsMemory (C.results cells.now) facts.now }
{
    if let Some((fact, rest)) = facts.split_first() {
        if let Some(amount) = cells.amount(*fact) {
            return add_amounts(alloc, cells, amount, rest, steps);
        }
        if let Some(number) = cells.whole(*fact) {
            return add_wholes(alloc, cells, number, rest, steps);
        }
    }
    see_globals(alloc, cells, ManyFold::new(ManyOp::Add), facts, steps)
}

/// The result of the operation over these facts, each of which is a step. No operand is asked what kind of node it is.
#[inline(always)]
pub fn eval_globals<C: Cells, L: Ledger>(
    alloc: Global,
    cells: &C,
    op: ManyOp,
    facts: &[u32],
    steps: &mut Steps<L>,
) -> Result<Res, NoMemory>
    ensures value { IfOk result (λ r. r ≡ many_of op (map (global_result (C.results cells.now)) facts.now)) }
    ensures steps { OnOk result (steps.new ≡ steps.old + length facts.now) }
    ensures most { steps.new ≤ steps.old + length facts.now }
    ensures least { steps.old ≤ steps.new }
    ensures memory { IsErr result → SomeHoldsMemory (C.results cells.now) facts.now }
{
    if let ManyOp::Add = op {
        return add_globals(alloc, cells, facts, steps);
    }
    see_globals(alloc, cells, ManyFold::new(op), facts, steps)
}

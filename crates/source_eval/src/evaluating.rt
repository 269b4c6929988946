// The result of an expression as it is written, and what its evaluation reads.
ghost use Rattle.std.specs.Prelude.{◌≡◌, ◌+◌, ◌≤◌, [], ◌∷◌, ◌++◌, ℕ, List, flat_map, sum_by, if◌then◌else◌, IfOk, OnOk};
ghost use Rattle.dict_source.specs.View.{cases_view, trees_view, use_view, view};
ghost use Rattle.evaluation.specs.Over.{many_of, over, over_all, over_cases, pick_of, two_of, weight, weight_of_all, weight_of_cases};
ghost use Rattle.evaluation.specs.SlotsRead.{slots_read, slots_read_of_all, slots_read_of_cases, up_to_decider};
ghost use Rattle.evaluation.specs.Visits.{visits, visits_of_all, visits_of_cases};
ghost use Rattle.operations.specs.CaseSteps.{case_step as step_of_case, find_from};
ghost use Rattle.three_state.specs.Folds.{down_unless, kept_next, verdict_next};
ghost use Rattle.three_state.specs.Results.{filter_of, find_of, members_of, switch_of};
ghost use Rattle.source_eval.specs.Context.{condition_on, condition_reads, env_of, picked_at, picked_reads, reads_of, visits_on, visits_under, work_on};
ghost use Rattle.source_eval.specs.Noted.{Noted};

use crate::context::EvalContext;
use crate::notes::Notes;
use crate::reads::{base_under, read, read_constant, read_source};
use dict_meaning::EvalPosition;
use dict_source::{Case, Expr, ManyOp, PathUse, PickOp, TwoOp};
use fact_values::NoMemory;
use operations::{
    CaseStep, FilterFold, ManyFold, case_step, found, members, one, source_verdict, taken, two,
};
use std::alloc::Global;
use std::sync::ledger::Ledger;
use steps::Steps;
use three_state::{Res, Verdict};

/// The result of the expression. The slots that it reads are noted, and a visit of a node is a step; for want of memory fewer may
/// be read and visited.
#[cycle(eval)]
#[tactic(auto, using(dict_source::proofs::Views::views))]
pub fn eval<G: EvalContext, N: Notes, L: Ledger>(
    alloc: Global,
    context: &G,
    at: EvalPosition,
    expr: &Expr,
    notes: &mut N,
    steps: &mut Steps<L>,
) -> Result<Res, NoMemory>
    ensures value { IfOk result (λ r. r ≡ over (env_of (G.meaning context.now)) at (view expr.now)) }
    ensures reads { OnOk result (Noted N.keeps (N.noted notes.old) (slots_read (env_of (G.meaning context.now))
        (reads_of (G.meaning context.now)) at (view expr.now)) (N.noted notes.new)) }
    ensures visits { OnOk result (steps.new ≡ steps.old + visits (env_of (G.meaning context.now)) at (view expr.now)) }
    ensures most { steps.new ≤ steps.old + weight (env_of (G.meaning context.now)) at (view expr.now) }
{
    steps.tick();
    match expr {
        Expr::Const(constant) => read_constant(alloc, context, constant),
        Expr::Read(op, used) => read(alloc, context, at, *op, used, notes),
        Expr::Switch(cases) => eval_cases(alloc, context, at, cases.as_slice(), notes, steps),
        Expr::Many(op, operands) => eval_all(
            alloc,
            context,
            at,
            *op,
            operands.as_slice(),
            notes,
            steps,
        ),
        Expr::One(op, operand) => {
            let res = eval(alloc, context, at, operand, notes, steps)?;
            one(alloc, op, res)
        }
        Expr::Two(op, left, right) => {
            let first = eval(alloc, context, at, left, notes, steps)?;
            eval_second(alloc, context, at, *op, &first, right, notes, steps)
        }
        Expr::Pick(op, used, test) => eval_pick(alloc, context, at, *op, used, test, notes, steps),
    }
}

// A node with two operands, behind the first.
#[cycle(eval)]
fn eval_second<G: EvalContext, N: Notes, L: Ledger>(
    alloc: Global,
    context: &G,
    at: EvalPosition,
    op: TwoOp,
    first: &Res,
    right: &Expr,
    notes: &mut N,
    steps: &mut Steps<L>,
) -> Result<Res, NoMemory>
    ensures value { IfOk result (λ r. r ≡ two_of op first.now (over (env_of (G.meaning context.now)) at
        (view right.now))) }
    ensures reads { OnOk result (Noted N.keeps (N.noted notes.old) (slots_read (env_of (G.meaning context.now))
        (reads_of (G.meaning context.now)) at (view right.now)) (N.noted notes.new)) }
    ensures visits { OnOk result (steps.new ≡ steps.old + visits (env_of (G.meaning context.now)) at (view right.now)) }
    ensures most { steps.new ≤ steps.old + weight (env_of (G.meaning context.now)) at (view right.now) }
{
    let second = eval(alloc, context, at, right, notes, steps)?;
    Ok(two(op, first, &second))
}

// A node with a list of operands.
#[cycle(eval)]
fn eval_all<G: EvalContext, N: Notes, L: Ledger>(
    alloc: Global,
    context: &G,
    at: EvalPosition,
    op: ManyOp,
    operands: &[Expr],
    notes: &mut N,
    steps: &mut Steps<L>,
) -> Result<Res, NoMemory>
    ensures value { IfOk result (λ r. r ≡ many_of op (over_all (env_of (G.meaning context.now)) at
        (trees_view operands.now))) }
    ensures reads { OnOk result (Noted N.keeps (N.noted notes.old) (slots_read_of_all (env_of (G.meaning context.now))
        (reads_of (G.meaning context.now)) at (trees_view operands.now)) (N.noted notes.new)) }
    ensures visits { OnOk result (steps.new ≡ steps.old + visits_of_all (env_of (G.meaning context.now)) at
        (trees_view operands.now)) }
    ensures most { steps.new ≤ steps.old + weight_of_all (env_of (G.meaning context.now)) at (trees_view operands.now) }
{
    let mut fold = ManyFold::new(op);
    for operand in operands {
        let res = eval(alloc, context, at, operand, notes, steps)?;
        fold.see(res);
    }
    Ok(fold.end())
}

/// What the condition says of its case. The flag says that no condition before it rested on a placeholder.
#[cycle(eval)]
pub fn judge<G: EvalContext, N: Notes, L: Ledger>(
    alloc: Global,
    context: &G,
    at: EvalPosition,
    complete: bool,
    test: &Expr,
    notes: &mut N,
    steps: &mut Steps<L>,
) -> Result<CaseStep, NoMemory>
    ensures step { IfOk result (λ s. s ≡ step_of_case complete (over (env_of (G.meaning context.now)) at
        (view test.now))) }
    ensures reads { OnOk result (Noted N.keeps (N.noted notes.old) (slots_read (env_of (G.meaning context.now))
        (reads_of (G.meaning context.now)) at (view test.now)) (N.noted notes.new)) }
    ensures visits { OnOk result (steps.new ≡ steps.old + visits (env_of (G.meaning context.now)) at (view test.now)) }
    ensures most { steps.new ≤ steps.old + weight (env_of (G.meaning context.now)) at (view test.now) }
{
    let condition = eval(alloc, context, at, test, notes, steps)?;
    Ok(case_step(complete, &condition))
}

/// The result of a case that is taken. Unless the flag says so, it rests on a placeholder.
#[cycle(eval)]
pub fn take<G: EvalContext, N: Notes, L: Ledger>(
    alloc: Global,
    context: &G,
    at: EvalPosition,
    complete: bool,
    outcome: &Expr,
    notes: &mut N,
    steps: &mut Steps<L>,
) -> Result<Res, NoMemory>
    ensures value { IfOk result (λ r. r ≡ down_unless complete (over (env_of (G.meaning context.now)) at
        (view outcome.now))) }
    ensures reads { OnOk result (Noted N.keeps (N.noted notes.old) (slots_read (env_of (G.meaning context.now))
        (reads_of (G.meaning context.now)) at (view outcome.now)) (N.noted notes.new)) }
    ensures visits { OnOk result (steps.new ≡ steps.old + visits (env_of (G.meaning context.now)) at
        (view outcome.now)) }
    ensures most { steps.new ≤ steps.old + weight (env_of (G.meaning context.now)) at (view outcome.now) }
{
    let res = eval(alloc, context, at, outcome, notes, steps)?;
    Ok(taken(complete, res))
}

// A Switch: the cases in their order, up to the one that is taken.
#[cycle(eval)]
fn eval_cases<G: EvalContext, N: Notes, L: Ledger>(
    alloc: Global,
    context: &G,
    at: EvalPosition,
    cases: &[Case],
    notes: &mut N,
    steps: &mut Steps<L>,
) -> Result<Res, NoMemory>
    ensures value { IfOk result (λ r. r ≡ switch_of (over_cases (env_of (G.meaning context.now)) at
        (cases_view cases.now))) }
    ensures reads { OnOk result (Noted N.keeps (N.noted notes.old) (slots_read_of_cases (env_of (G.meaning context.now))
        (reads_of (G.meaning context.now)) at (cases_view cases.now)) (N.noted notes.new)) }
    ensures visits { OnOk result (steps.new ≡ steps.old + visits_of_cases (env_of (G.meaning context.now)) at
        (cases_view cases.now)) }
    ensures most { steps.new ≤ steps.old + weight_of_cases (env_of (G.meaning context.now)) at (cases_view cases.now) }
{
    let mut complete = true;
    for case in cases {
        let step = judge(alloc, context, at, complete, &case.test, notes, steps)?;
        match step {
            CaseStep::Next(still) => complete = still,
            CaseStep::Take(still) => {
                return take(alloc, context, at, still, &case.outcome, notes, steps);
            }
            CaseStep::End(res) => return Ok(res),
        }
    }
    Ok(Res::Incomplete)
}

// A Filter or a Find, from its path and its condition.
#[cycle(eval)]
fn eval_pick<G: EvalContext, N: Notes, L: Ledger>(
    alloc: Global,
    context: &G,
    at: EvalPosition,
    op: PickOp,
    used: &PathUse,
    test: &Expr,
    notes: &mut N,
    steps: &mut Steps<L>,
) -> Result<Res, NoMemory>
    ensures value { IfOk result (λ r. r ≡ pick_of op ((env_of (G.meaning context.now)).source at (use_view used.now))
        (picked_at (G.meaning context.now) at (use_view used.now) (view test.now))) }
    ensures reads { OnOk result (Noted N.keeps (N.noted notes.old)
        (picked_reads (G.meaning context.now) at op (use_view used.now) (view test.now)) (N.noted notes.new)) }
    ensures visits { OnOk result (steps.new ≡ steps.old + visits_under (G.meaning context.now) at op (use_view used.now)
        (view test.now)) }
    ensures most { steps.new ≤ steps.old + sum_by (λ m. weight (env_of (G.meaning context.now))
        ((env_of (G.meaning context.now)).enter at (use_view used.now) m) (view test.now))
        (members_of ((env_of (G.meaning context.now)).source at (use_view used.now))) }
{
    let source = read_source(context, at, used, notes)?;
    let under = at.under(base_under(context, at, used));
    match op {
        PickOp::Filter => eval_filter(alloc, context, under, source, test, notes, steps),
        PickOp::Find => eval_find(alloc, context, under, source, test, notes, steps),
    }
}

fn keep(kept: &mut Vec<u32>, is_kept: bool, member: u32) -> Result<(), NoMemory>
    ensures { OnOk result (kept.new.items ≡ (if is_kept then kept.old.items ++ member ∷ [] else kept.old.items)) }
{
    if !is_kept {
        return Ok(());
    }
    kept.push(member)?;
    Ok(())
}

// Folds one member, and keeps it where its condition is true.
#[cycle(eval)]
fn see_member<G: EvalContext, N: Notes, L: Ledger>(
    alloc: Global,
    context: &G,
    at: EvalPosition,
    test: &Expr,
    fold: &mut FilterFold,
    kept: &mut Vec<u32>,
    member: u32,
    notes: &mut N,
    steps: &mut Steps<L>,
) -> Result<(), NoMemory>
    ensures fold { OnOk result (fold.new ≡ verdict_next fold.old (over (env_of (G.meaning context.now)) at
        (view test.now))) }
    ensures kept { OnOk result (kept.new.items ≡ kept_next kept.old.items member
        (over (env_of (G.meaning context.now)) at (view test.now))) }
    ensures reads { OnOk result (Noted N.keeps (N.noted notes.old) (slots_read (env_of (G.meaning context.now))
        (reads_of (G.meaning context.now)) at (view test.now)) (N.noted notes.new)) }
    ensures visits { OnOk result (steps.new ≡ steps.old + visits (env_of (G.meaning context.now)) at (view test.now)) }
    ensures most { steps.new ≤ steps.old + weight (env_of (G.meaning context.now)) at (view test.now) }
{
    let condition = eval(alloc, context, at, test, notes, steps)?;
    let is_kept = fold.see(&condition);
    keep(kept, is_kept, member)
}

// The members of the collection at which the condition is true.
#[cycle(eval)]
fn eval_filter<G: EvalContext, N: Notes, L: Ledger>(
    alloc: Global,
    context: &G,
    under: EvalPosition,
    source: &Res,
    test: &Expr,
    notes: &mut N,
    steps: &mut Steps<L>,
) -> Result<Res, NoMemory>
    ensures value { IfOk result (λ r. r ≡ filter_of source.now (condition_on (G.meaning context.now) under
        (view test.now))) }
    ensures reads { OnOk result (Noted N.keeps (N.noted notes.old)
        (flat_map (condition_reads (G.meaning context.now) under (view test.now)) (members_of source.now))
        (N.noted notes.new)) }
    ensures visits { OnOk result (steps.new ≡ steps.old + sum_by (visits_on (G.meaning context.now) under
        (view test.now)) (members_of source.now)) }
    ensures most { steps.new ≤ steps.old + sum_by (work_on (G.meaning context.now) under (view test.now))
        (members_of source.now) }
{
    let mut fold = FilterFold::new(source);
    let mut kept = Vec::new(alloc);
    for member in members(source) {
        see_member(
            alloc,
            context,
            under.at(*member),
            test,
            &mut fold,
            &mut kept,
            *member,
            notes,
            steps,
        )?;
    }
    Ok(fold.end(kept))
}

// The first member of the collection at which the condition is true.
#[cycle(eval)]
fn eval_find<G: EvalContext, N: Notes, L: Ledger>(
    alloc: Global,
    context: &G,
    under: EvalPosition,
    source: &Res,
    test: &Expr,
    notes: &mut N,
    steps: &mut Steps<L>,
) -> Result<Res, NoMemory>
    ensures value { IfOk result (λ r. r ≡ find_of source.now (condition_on (G.meaning context.now) under
        (view test.now))) }
    ensures reads { OnOk result (Noted N.keeps (N.noted notes.old)
        (flat_map (condition_reads (G.meaning context.now) under (view test.now))
        (up_to_decider (condition_on (G.meaning context.now) under (view test.now)) (members_of source.now)))
        (N.noted notes.new)) }
    ensures visits { OnOk result (steps.new ≡ steps.old + sum_by (visits_on (G.meaning context.now) under
        (view test.now)) (up_to_decider (condition_on (G.meaning context.now) under (view test.now))
        (members_of source.now))) }
    ensures most { steps.new ≤ steps.old + sum_by (work_on (G.meaning context.now) under (view test.now))
        (members_of source.now) }
{
    match source_verdict(source) {
        Verdict::Go(complete) => {
            find_among(
                alloc,
                context,
                under,
                complete,
                members(source),
                test,
                notes,
                steps,
            )
        }
        Verdict::Incomplete => Ok(Res::Incomplete),
        Verdict::Fault(fault) => Ok(Res::Fault(fault)),
    }
}

// The same of these members. The flag says that the collection is complete.
#[cycle(eval)]
fn find_among<G: EvalContext, N: Notes, L: Ledger>(
    alloc: Global,
    context: &G,
    under: EvalPosition,
    complete: bool,
    members: &[u32],
    test: &Expr,
    notes: &mut N,
    steps: &mut Steps<L>,
) -> Result<Res, NoMemory>
    ensures value { IfOk result (λ r. r ≡ find_from (condition_on (G.meaning context.now) under (view test.now))
        complete members.now) }
    ensures reads { OnOk result (Noted N.keeps (N.noted notes.old)
        (flat_map (condition_reads (G.meaning context.now) under (view test.now))
        (up_to_decider (condition_on (G.meaning context.now) under (view test.now)) members.now)) (N.noted notes.new)) }
    ensures visits { OnOk result (steps.new ≡ steps.old + sum_by (visits_on (G.meaning context.now) under
        (view test.now)) (up_to_decider (condition_on (G.meaning context.now) under (view test.now)) members.now)) }
    ensures most { steps.new ≤ steps.old + sum_by (work_on (G.meaning context.now) under (view test.now)) members.now }
{
    let mut complete = complete;
    for member in members {
        let step = judge(
            alloc,
            context,
            under.at(*member),
            complete,
            test,
            notes,
            steps,
        )?;
        match step {
            CaseStep::Next(still) => complete = still,
            CaseStep::Take(still) => return Ok(found(still, *member)),
            CaseStep::End(none) => return Ok(none),
        }
    }
    Ok(Res::Incomplete)
}

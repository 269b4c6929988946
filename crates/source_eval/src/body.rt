// Evaluates the body of a derived fact.
ghost use Rattle.std.specs.Prelude.{◌≡◌, ◌+◌, ◌≤◌, option_map, IfOk, OnOk, Some};
ghost use Rattle.dict_source.specs.Facts.{conditional_view};
ghost use Rattle.dict_source.specs.View.{view};
ghost use Rattle.evaluation.specs.Over.{over, weight};
ghost use Rattle.evaluation.specs.SlotsRead.{slots_read};
ghost use Rattle.evaluation.specs.Visits.{visits};
ghost use Rattle.dict_meaning.specs.Plain.{conditional_body};
ghost use Rattle.source_eval.specs.Context.{env_of, reads_of};
ghost use Rattle.source_eval.specs.Noted.{Noted};

use crate::context::EvalContext;
use crate::evaluating::{eval, judge, take};
use crate::notes::Notes;
use dict_meaning::EvalPosition;
use dict_source::{Conditional, Expr};
use fact_values::NoMemory;
use operations::CaseStep;
use std::alloc::Global;
use std::sync::ledger::Ledger;
use steps::Steps;
use three_state::Res;

// The value of the conditional where its condition is true, else the main expression. It is a Switch
// of two cases, and the second condition is a constant, true: both count as nodes.
fn eval_conditional<G: EvalContext, N: Notes, L: Ledger>(
    alloc: Global,
    context: &G,
    at: EvalPosition,
    pair: &Conditional,
    main: &Expr,
    notes: &mut N,
    steps: &mut Steps<L>,
) -> Result<Res, NoMemory>
    ensures value { IfOk result (λ r. r ≡ over (env_of (G.meaning context.now)) at
        (conditional_body (Some (conditional_view pair.now)) (view main.now))) }
    ensures reads { OnOk result (Noted N.keeps (N.noted notes.old) (slots_read (env_of (G.meaning context.now))
        (reads_of (G.meaning context.now)) at (conditional_body (Some (conditional_view pair.now)) (view main.now)))
        (N.noted notes.new)) }
    ensures visits { OnOk result (steps.new ≡ steps.old + visits (env_of (G.meaning context.now)) at
        (conditional_body (Some (conditional_view pair.now)) (view main.now))) }
    ensures most { steps.new ≤ steps.old + weight (env_of (G.meaning context.now)) at
        (conditional_body (Some (conditional_view pair.now)) (view main.now)) }
{
    steps.tick();
    let step = judge(alloc, context, at, true, &pair.test, notes, steps)?;
    match step {
        CaseStep::Next(still) => {
            steps.tick();
            take(alloc, context, at, still, main, notes, steps)
        }
        CaseStep::Take(still) => take(alloc, context, at, still, &pair.value, notes, steps),
        CaseStep::End(res) => Ok(res),
    }
}

/// The result of the body of a derived fact, as [`eval`] gives it.
pub fn eval_body<G: EvalContext, N: Notes, L: Ledger>(
    alloc: Global,
    context: &G,
    at: EvalPosition,
    conditional: &Option<Conditional>,
    main: &Expr,
    notes: &mut N,
    steps: &mut Steps<L>,
) -> Result<Res, NoMemory>
    ensures value { IfOk result (λ r. r ≡ over (env_of (G.meaning context.now)) at
        (conditional_body (option_map conditional_view conditional.now) (view main.now))) }
    ensures reads { OnOk result (Noted N.keeps (N.noted notes.old) (slots_read (env_of (G.meaning context.now))
        (reads_of (G.meaning context.now)) at (conditional_body (option_map conditional_view conditional.now)
        (view main.now))) (N.noted notes.new)) }
    ensures visits { OnOk result (steps.new ≡ steps.old + visits (env_of (G.meaning context.now)) at
        (conditional_body (option_map conditional_view conditional.now) (view main.now))) }
    ensures most { steps.new ≤ steps.old + weight (env_of (G.meaning context.now)) at
        (conditional_body (option_map conditional_view conditional.now) (view main.now)) }
{
    match conditional {
        None => eval(alloc, context, at, main, notes, steps),
        Some(pair) => eval_conditional(alloc, context, at, pair, main, notes, steps),
    }
}

// Evaluates one slot over the results so far.
ghost use Rattle.std.specs.Prelude.{◌≡◌, ◌+◌, ◌≤◌, IfOk, OnOk, Some};
ghost use Rattle.std.specs.FinMap as map;
ghost use Rattle.answers.specs.Answered.{value_of};
ghost use Rattle.answers.specs.Meaning.{answered};
ghost use Rattle.answers.specs.WellFormed.{FromOne, WellFormed};
ghost use Rattle.answers.specs.declared.edit.Side.TheVariants.{Override};
ghost use Rattle.dict_source.specs.Facts.{fact_view, stated_view};
ghost use Rattle.dict_source.specs.View.{view};
ghost use Rattle.evaluation.specs.Over.{over, weight};
ghost use Rattle.dict_meaning.specs.Plain.{body, conditional_body, main_result, or_override, or_placeholder, slot_result};
ghost use Rattle.dict_meaning.specs.Dependencies.{outermost};
ghost use Rattle.evaluation.specs.Results.{slot};
ghost use Rattle.visit_counts.specs.SlotVisits.{body_visits, placeholder_visits, visits_over};
ghost use Rattle.plain_table.specs.TableContext.{context_on};
ghost use Rattle.source_eval.specs.Context.{env_of, option_weight};

use crate::table_context::TableContext;
use answers::Answers;
use dict_meaning::EvalPosition;
use dict_source::{Expr, FactSource};
use dictionary::given_result;
use fact_values::{NoMemory, Slot};
use source_eval::{Unnoted, eval, eval_body};
use std::alloc::Global;
use std::sync::ledger::Ledger;
use steps::Steps;
use three_state::{Res, down};

// The body of a derived fact, or the override that stands in its place.
fn derived_result<L: Ledger>(
    alloc: Global,
    context: &TableContext,
    answers: &Answers,
    member: u32,
    fact: &FactSource,
    main: &Expr,
    steps: &mut Steps<L>,
) -> Result<Res, NoMemory>
    ensures value { IfOk result (λ r. r ≡ or_override (value_of Override (answered answers.now)
        (slot context.now.fact member)) (over (env_of (context_on context.now)) (outermost member)
        (conditional_body (fact_view fact.now).conditional (view main.now)))) }
    ensures visits { OnOk result (steps.new ≡ steps.old + body_visits (context_on context.now).tree
        (answered answers.now) (context_on context.now).results (slot context.now.fact member)
        (Some (conditional_body (fact_view fact.now).conditional (view main.now)))) }
    ensures most { steps.new ≤ steps.old + weight (env_of (context_on context.now)) (outermost member)
        (conditional_body (fact_view fact.now).conditional (view main.now)) }
{
    let slot = Slot {
        fact: context.fact,
        member,
    };
    match answers.override_of(slot) {
        Some(value) => Ok(Res::Complete(value.copy(alloc)?)),
        None => {
            let at = EvalPosition::outermost(member);
            eval_body(
                alloc,
                context,
                at,
                &fact.conditional,
                main,
                &mut Unnoted,
                steps,
            )
        }
    }
}

// The result of a slot before its placeholder.
fn main_result<L: Ledger>(
    alloc: Global,
    context: &TableContext,
    answers: &Answers,
    member: u32,
    fact: &FactSource,
    steps: &mut Steps<L>,
) -> Result<Res, NoMemory>
    requires well { WellFormed (answered answers.now) }
    requires from_one { FromOne (answered answers.now) }
    ensures value { IfOk result (λ r. r ≡ main_result (context_on context.now).tree (answered answers.now)
        (context_on context.now).results (slot context.now.fact member) (stated_view fact.now.stated)
        (body (fact_view fact.now))) }
    ensures visits { OnOk result (steps.new ≡ steps.old + body_visits (context_on context.now).tree
        (answered answers.now) (context_on context.now).results (slot context.now.fact member)
        (body (fact_view fact.now))) }
    ensures most { steps.new ≤ steps.old + option_weight (context_on context.now) member (body (fact_view fact.now)) }
{
    match &fact.main {
        Some(main) => derived_result(alloc, context, answers, member, fact, main, steps),
        None => {
            let slot = Slot {
                fact: context.fact,
                member,
            };
            given_result(alloc, answers, slot, &fact.stated)
        }
    }
}

// An incomplete result gives way to the placeholder.
fn with_placeholder<L: Ledger>(
    alloc: Global,
    context: &TableContext,
    member: u32,
    placeholder: &Expr,
    res: Res,
    steps: &mut Steps<L>,
) -> Result<Res, NoMemory>
    ensures value { IfOk result (λ r. r ≡ or_placeholder (context_on context.now).tree (context_on context.now).results
        (slot context.now.fact member) (Some (view placeholder.now)) res) }
    ensures visits { OnOk result (steps.new ≡ steps.old + placeholder_visits (context_on context.now).tree
        (context_on context.now).results (slot context.now.fact member) (Some (view placeholder.now)) res) }
    ensures most { steps.new ≤ steps.old + weight (env_of (context_on context.now)) (outermost member)
        (view placeholder.now) }
{
    match res {
        Res::Incomplete => {
            let at = EvalPosition::outermost(member);
            let stand_in = eval(alloc, context, at, placeholder, &mut Unnoted, steps)?;
            Ok(down(stand_in))
        }
        Res::Complete(value) => Ok(Res::Complete(value)),
        Res::Placeholder(value) => Ok(Res::Placeholder(value)),
        Res::Fault(fault) => Ok(Res::Fault(fault)),
    }
}

/// The result of the fact's slot at a member, from the results that the context has.
pub fn slot_result<L: Ledger>(
    alloc: Global,
    context: &TableContext,
    answers: &Answers,
    member: u32,
    fact: &FactSource,
    steps: &mut Steps<L>,
) -> Result<Res, NoMemory>
    requires well { WellFormed (answered answers.now) }
    requires from_one { FromOne (answered answers.now) }
    ensures value { IfOk result (λ r. r ≡ slot_result (context_on context.now).tree (answered answers.now)
        (context_on context.now).results (slot context.now.fact member) (fact_view fact.now)) }
    ensures visits { OnOk result (steps.new ≡ steps.old + visits_over (context_on context.now).tree
        (answered answers.now) (context_on context.now).results (slot context.now.fact member) (fact_view fact.now)) }
    ensures most { steps.new ≤ steps.old + (option_weight (context_on context.now) member (body (fact_view fact.now))
        + option_weight (context_on context.now) member (fact_view fact.now).placeholder) }
{
    let res = main_result(alloc, context, answers, member, fact, steps)?;
    match &fact.placeholder {
        None => Ok(res),
        Some(placeholder) => with_placeholder(alloc, context, member, placeholder, res, steps),
    }
}

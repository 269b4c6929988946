// Which slots a slot reads, and whether it is unanswered.
ghost use Rattle.std.specs.Prelude.{◌≡◌, ◌++◌, is_none, option_map, IfOk, OnOk};
ghost use Rattle.answers.specs.Answered.{value_of};
ghost use Rattle.answers.specs.Meaning.{answered};
ghost use Rattle.answers.specs.declared.edit.Side.TheVariants.{Override};
ghost use Rattle.dict_source.specs.Facts.{fact_view, stated_view};
ghost use Rattle.dict_source.specs.View.{view};
ghost use Rattle.dictionary.specs.AcceptedParts.{accepted};
ghost use Rattle.dict_meaning.specs.Plain.{body, given_value, main_result};
ghost use Rattle.explain.specs.SessionContext.{results_of, tree_of};
ghost use Rattle.explain.specs.Missing.{is_unanswered as lacks};
ghost use Rattle.explain.specs.Reads.{fact_reads, main_reads, placeholder_reads, slot_reads as reads_of};
ghost use Rattle.three_state.specs.Results.{is_incomplete as incomplete};

use crate::context::{ReadSlots, SessionContext};
use answers::Answers;
use dict_meaning::EvalPosition;
use dict_source::{Expr, FactSource, TypeText};
use dictionary::FactEngine;
use fact_values::{NoMemory, Slot};
use graph_session::Session;
use source_eval::{eval, eval_body};
use std::alloc::Global;
use std::sync::ledger::Ledger;
use steps::Steps;
use three_state::Res;

fn is_incomplete(res: &Res) -> bool
    ensures { result ≡ incomplete res.now }
{
    match res {
        Res::Incomplete => true,
        Res::Complete(_) => false,
        Res::Placeholder(_) => false,
        Res::Fault(_) => false,
    }
}

// Whether nothing was given to the slot of a writable fact of this type.
fn lacks_value(answers: &Answers, slot: Slot, stated: &TypeText) -> bool
    ensures { result ≡ is_none (given_value (stated_view stated.now) (answered answers.now) slot) }
{
    match stated {
        TypeText::WritableList => answers.members(slot.fact).is_none(),
        TypeText::Scalar(_) => answers.value(slot).is_none(),
        TypeText::EnumOf(_) => answers.value(slot).is_none(),
        TypeText::ListOf(_) => answers.value(slot).is_none(),
        TypeText::ItemOf(_) => answers.value(slot).is_none(),
    }
}

/// Whether the slot is one of a writable fact that has no answer, or is a collection that isn't open.
pub fn is_unanswered<E: FactEngine>(session: &Session<E>, slot: Slot) -> bool
    ensures { result ≡ lacks (tree_of session.now) session.now.timeline.now slot }
{
    match session.dict().source().fact(slot.fact) {
        None => false,
        Some(fact) => fact.main.is_none() && lacks_value(session.answers(), slot, &fact.stated),
    }
}

// Whether the main result is incomplete. What it reads is added: nothing where it is overridden.
fn visit_main<E: FactEngine, L: Ledger>(
    alloc: Global,
    session: &Session<E>,
    slot: Slot,
    fact: &FactSource,
    reads: &mut ReadSlots,
    steps: &mut Steps<L>,
) -> Result<bool, NoMemory>
    ensures value { IfOk result (λ b. b ≡ incomplete (main_result (tree_of session.now) session.now.timeline.now
        (results_of session.now) slot (fact_view fact.now).stated (body (fact_view fact.now)))) }
    ensures reads { OnOk result (reads.new.slots.items ≡ reads.old.slots.items ++ main_reads (tree_of session.now)
        session.now.timeline.now (results_of session.now) slot (body (fact_view fact.now))) }
{
    match &fact.main {
        None => Ok(lacks_value(session.answers(), slot, &fact.stated)),
        Some(main) => {
            if session.answers().override_of(slot).is_some() {
                return Ok(false);
            }
            let at = EvalPosition::outermost(slot.member);
            let context = SessionContext::new(session, slot.fact);
            let res = eval_body(alloc, &context, at, &fact.conditional, main, reads, steps)?;
            Ok(is_incomplete(&res))
        }
    }
}

// What the placeholder reads, where it stands for the main result.
fn visit_placeholder<E: FactEngine, L: Ledger>(
    alloc: Global,
    session: &Session<E>,
    slot: Slot,
    placeholder: &Option<Expr>,
    stands_in: bool,
    reads: &mut ReadSlots,
    steps: &mut Steps<L>,
) -> Result<(), NoMemory>
    ensures { OnOk result (reads.new.slots.items ≡ reads.old.slots.items ++ placeholder_reads (tree_of session.now)
        (results_of session.now) slot (option_map view placeholder.now) stands_in) }
{
    let Some(expr) = placeholder else {
        return Ok(());
    };
    if !stands_in {
        return Ok(());
    }
    let at = EvalPosition::outermost(slot.member);
    let context = SessionContext::new(session, slot.fact);
    eval(alloc, &context, at, expr, reads, steps)?;
    Ok(())
}

// What a slot of the fact reads.
fn visit_fact<E: FactEngine, L: Ledger>(
    alloc: Global,
    session: &Session<E>,
    slot: Slot,
    fact: &FactSource,
    reads: &mut ReadSlots,
    steps: &mut Steps<L>,
) -> Result<(), NoMemory>
    ensures { OnOk result (reads.new.slots.items ≡ reads.old.slots.items ++ fact_reads (tree_of session.now)
        session.now.timeline.now (results_of session.now) slot (fact_view fact.now)) }
{
    let stands_in = visit_main(alloc, session, slot, fact, reads, steps)?;
    visit_placeholder(
        alloc,
        session,
        slot,
        &fact.placeholder,
        stands_in,
        reads,
        steps,
    )
}

/// The slots that the evaluation of the slot reads, in order, each as often as it reads it.
pub fn slot_reads<E: FactEngine, L: Ledger>(
    alloc: Global,
    session: &Session<E>,
    slot: Slot,
    steps: &mut Steps<L>,
) -> Result<Vec<Slot>, NoMemory>
    ensures { IfOk result (λ reads. reads.items ≡ reads_of (accepted session.now.dict) session.now.timeline.now slot) }
{
    let mut reads = ReadSlots {
        slots: Vec::new(alloc),
    };
    if let Some(fact) = session.dict().source().fact(slot.fact) {
        visit_fact(alloc, session, slot, fact, &mut reads, steps)?;
    }
    Ok(reads.slots)
}

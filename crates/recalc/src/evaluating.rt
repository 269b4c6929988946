// Evaluates the new result of a slot.
ghost use Rattle.std.specs.Prelude.{◌≡◌, ◌+◌, ◌≤◌, IfOk, IsTrue, OnOk, Some};
ghost use Rattle.answers.specs.Answered.{value_of};
ghost use Rattle.answers.specs.Meaning.{answered};
ghost use Rattle.answers.specs.WellFormed.{FromOne, WellFormed};
ghost use Rattle.answers.specs.declared.edit.Side.TheVariants.{Override};
ghost use Rattle.dict_source.specs.Facts.{stated_view};
ghost use Rattle.dictionary.specs.AcceptedParts.{accepted};
ghost use Rattle.dict_meaning.specs.Plain.{IsPlainBelow, or_override, plain, rank};
ghost use Rattle.dict_meaning.specs.Slots.{stands};
ghost use Rattle.dict_meaning.specs.Weights.{slot_weight};
ghost use Rattle.visit_counts.specs.SlotVisits.{slot_visits};
ghost use Rattle.node_compile.specs.Compiled.{IsCompiled, main_of, placeholder_of};
ghost use Rattle.node_compile.specs.Laws.{main_node_result, node_result, or_placeholder_node, result_by_nodes};
ghost use Rattle.node_compile.specs.Laws.{main_node_visits, node_visits, placeholder_node_visits, visits_by_nodes};
ghost use Rattle.node_compile.specs.Laws.{node_weight, weight_by_nodes};
ghost use Rattle.node_eval.specs.View.{view};
ghost use Rattle.recalc.specs.Running.{live_results};

use crate::live_cells::LiveCells;
use answers::Answers;
use dict_source::TypeText;
use dictionary::{Dictionary, given_result};
use fact_values::{NoMemory, Slot};
use node_compile::Compiled;
use node_eval::{Node, eval};
use std::alloc::Global;
use std::sync::ledger::Ledger;
use steps::Steps;
use three_state::{Res, down};

// The result of a node of the slot's fact.
fn node_result<L: Ledger>(
    alloc: Global,
    node: &Node,
    cells: &LiveCells,
    slot: Slot,
    steps: &mut Steps<L>,
) -> Result<Res, NoMemory>
    ensures value { IfOk result (λ r. r ≡ node_result (live_results cells.now.gone cells.now.store.now.cells) slot
        (view node.now)) }
    ensures visits { OnOk result (steps.new ≡ steps.old + node_visits
        (live_results cells.now.gone cells.now.store.now.cells) slot (view node.now)) }
    ensures most { steps.new ≤ steps.old + node_weight (live_results cells.now.gone cells.now.store.now.cells) slot
        (Some (view node.now)) }
{
    eval(alloc, node, cells, slot.member, 0, steps)
}

// The result of the body of a derived fact, or the override that stands in its place.
fn derived_result<L: Ledger>(
    alloc: Global,
    node: &Node,
    answers: &Answers,
    cells: &LiveCells,
    slot: Slot,
    steps: &mut Steps<L>,
) -> Result<Res, NoMemory>
    ensures value { IfOk result (λ r. r ≡ or_override (value_of Override (answered answers.now) slot)
        (node_result (live_results cells.now.gone cells.now.store.now.cells) slot (view node.now))) }
    ensures visits { OnOk result (steps.new ≡ steps.old + main_node_visits (answered answers.now)
        (live_results cells.now.gone cells.now.store.now.cells) slot (Some (view node.now))) }
    ensures most { steps.new ≤ steps.old + node_weight (live_results cells.now.gone cells.now.store.now.cells) slot
        (Some (view node.now)) }
{
    match answers.override_of(slot) {
        Some(value) => Ok(Res::Complete(value.copy(alloc)?)),
        None => node_result(alloc, node, cells, slot, steps),
    }
}

// The result before the placeholder.
fn main_result<L: Ledger>(
    alloc: Global,
    nodes: &Compiled,
    answers: &Answers,
    cells: &LiveCells,
    slot: Slot,
    stated: &TypeText,
    steps: &mut Steps<L>,
) -> Result<Res, NoMemory>
    requires well { WellFormed (answered answers.now) }
    requires from_one { FromOne (answered answers.now) }
    ensures value { IfOk result (λ r. r ≡ main_node_result (answered answers.now)
        (live_results cells.now.gone cells.now.store.now.cells) slot (stated_view stated.now)
        (main_of nodes.now slot.fact)) }
    ensures visits { OnOk result (steps.new ≡ steps.old + main_node_visits (answered answers.now)
        (live_results cells.now.gone cells.now.store.now.cells) slot (main_of nodes.now slot.fact)) }
    ensures most { steps.new ≤ steps.old + node_weight (live_results cells.now.gone cells.now.store.now.cells) slot
        (main_of nodes.now slot.fact) }
{
    match nodes.main(slot.fact) {
        None => given_result(alloc, answers, slot, stated),
        Some(node) => derived_result(alloc, node, answers, cells, slot, steps),
    }
}

// An incomplete result gives way to the placeholder's.
fn with_placeholder<L: Ledger>(
    alloc: Global,
    node: &Node,
    cells: &LiveCells,
    slot: Slot,
    res: Res,
    steps: &mut Steps<L>,
) -> Result<Res, NoMemory>
    ensures value { IfOk result (λ r. r ≡ or_placeholder_node (live_results cells.now.gone cells.now.store.now.cells)
        slot (Some (view node.now)) res) }
    ensures visits { OnOk result (steps.new ≡ steps.old + placeholder_node_visits
        (live_results cells.now.gone cells.now.store.now.cells) slot (Some (view node.now)) res) }
    ensures most { steps.new ≤ steps.old + node_weight (live_results cells.now.gone cells.now.store.now.cells) slot
        (Some (view node.now)) }
{
    match res {
        Res::Incomplete => {
            let stand_in = node_result(alloc, node, cells, slot, steps)?;
            Ok(down(stand_in))
        }
        Res::Complete(value) => Ok(Res::Complete(value)),
        Res::Placeholder(value) => Ok(Res::Placeholder(value)),
        Res::Fault(fault) => Ok(Res::Fault(fault)),
    }
}

// The result of the slot, from the nodes of its fact.
fn result_by_nodes<L: Ledger>(
    alloc: Global,
    nodes: &Compiled,
    answers: &Answers,
    cells: &LiveCells,
    slot: Slot,
    stated: &TypeText,
    steps: &mut Steps<L>,
) -> Result<Res, NoMemory>
    requires well { WellFormed (answered answers.now) }
    requires from_one { FromOne (answered answers.now) }
    ensures value { IfOk result (λ r. r ≡ result_by_nodes nodes.now (answered answers.now)
        (live_results cells.now.gone cells.now.store.now.cells) slot (stated_view stated.now)) }
    ensures visits { OnOk result (steps.new ≡ steps.old + visits_by_nodes nodes.now (answered answers.now)
        (live_results cells.now.gone cells.now.store.now.cells) slot (stated_view stated.now)) }
    ensures most { steps.new ≤ steps.old + weight_by_nodes nodes.now
        (live_results cells.now.gone cells.now.store.now.cells) slot }
{
    let res = main_result(alloc, nodes, answers, cells, slot, stated, steps)?;
    match nodes.placeholder(slot.fact) {
        None => Ok(res),
        Some(node) => with_placeholder(alloc, node, cells, slot, res, steps),
    }
}

/// The new result of a slot that stands, over cells that have the new results of the facts of lower
/// rank. A visit of a node is a step.
pub fn new_result<L: Ledger>(
    alloc: Global,
    nodes: &Compiled,
    dict: &Dictionary,
    answers: &Answers,
    cells: &LiveCells,
    slot: Slot,
    steps: &mut Steps<L>,
) -> Result<Res, NoMemory>
    requires compiled { IsCompiled (accepted dict.now).tree nodes.now }
    requires well { WellFormed (answered answers.now) }
    requires from_one { FromOne (answered answers.now) }
    requires stands { IsTrue (stands (accepted dict.now).tree (answered answers.now) slot) }
    requires below { IsPlainBelow (accepted dict.now) (answered answers.now) (rank (accepted dict.now) slot.fact)
        (live_results cells.now.gone cells.now.store.now.cells) }
    ensures value { IfOk result (λ r. Some r ≡ plain (accepted dict.now) (answered answers.now) slot) }
    ensures visits { OnOk result (steps.new ≡ steps.old + slot_visits (accepted dict.now) (answered answers.now) slot) }
    ensures most { steps.new ≤ steps.old + slot_weight (accepted dict.now) (answered answers.now) slot }
{
    let Some(fact) = dict.source().fact(slot.fact) else {
        return Ok(Res::Incomplete);
    };
    result_by_nodes(alloc, nodes, answers, cells, slot, &fact.stated, steps)
}

// The result of a compiled node, visit by visit.
ghost use Rattle.std.specs.Prelude.{◌≡◌, ℕ, ◌+◌, ◌<◌, ◌≤◌, ◌^◌, [], ◌∷◌, ◌++◌, length, map, sum_by, if◌then◌else◌, IfOk, IsErr, OnOk, Option, ◌⊎◌};
ghost use Rattle.evaluation.specs.Operations.{GivesText};
ghost use Rattle.evaluation.specs.Over.{many_of, one_of, over, over_all, over_cases, pick_of, two_of, weight, weight_of_all, weight_of_cases};
ghost use Rattle.fact_values.specs.Values.{HoldsMemory};
ghost use Rattle.fact_values.specs.declared.fact_type.FactType.{FactType};
ghost use Rattle.evaluation.specs.SlotsRead.{members_visited, up_to_decider};
ghost use Rattle.operations.specs.CaseSteps.{find_from};
ghost use Rattle.operations.specs.ManyFolds.{saw};
ghost use Rattle.three_state.specs.Results.{filter_of, find_of, members_of, switch_of};
ghost use Rattle.node_eval.specs.Evaluating.{TakesAt, condition_at, visits_at, work_at};
ghost use Rattle.node_eval.specs.Globals.{SomeHoldsMemory, global_result};
ghost use Rattle.node_eval.specs.Memory.{PickTakes, SomeOf, TakesInAll, TakesInCases, TakesMemory};
ghost use Rattle.node_eval.specs.NodeTypes.{IsTyped, SomeGivesTextOrList};
ghost use Rattle.node_eval.specs.Dependencies.{collection, node_env};
ghost use Rattle.node_eval.specs.View.{cases_view, trees_view, view};
ghost use Rattle.evaluation.specs.Typed.{Domains};
ghost use Rattle.evaluation.specs.Visits.{visits, visits_of_all, visits_of_cases};

use crate::cells::Cells;
use crate::globals::eval_globals;
use crate::node::{Node, NodeCase, NodeRead, ResolvedPath};
use crate::node_position::NodePosition;
use crate::reads::{read, read_source, see_constant, see_dependency};
use dict_source::{ManyOp, OneOp, PickOp, TwoOp};
use fact_values::{NoMemory, Value};
use operations::{
    CaseStep, FilterFold, ManyFold, case_step, found, members, one, source_verdict, taken, two,
};
use std::alloc::Global;
use std::sync::ledger::Ledger;
use steps::Steps;
use three_state::{Res, Verdict};

/// The result of a node over these cells. It stands in the slot of the member `own`, or of 0, and
/// under a condition at the member `inner`. A visit of a node is a step.
pub fn eval<C: Cells, L: Ledger>(
    alloc: Global,
    node: &Node,
    cells: &C,
    own: u32,
    inner: u32,
    steps: &mut Steps<L>,
) -> Result<Res, NoMemory>
    ensures value { IfOk result (λ r. r ≡ over (node_env (C.results cells.now)) (record { own = own; inner = inner })
        (view node.now)) }
    ensures visited { OnOk result (steps.new ≡ steps.old + visits (node_env (C.results cells.now))
        (record { own = own; inner = inner }) (view node.now)) }
    ensures most { steps.new ≤ steps.old + weight (node_env (C.results cells.now)) (record { own = own; inner = inner })
        (view node.now) }
    ensures least { steps.old + 1 ≤ steps.new }
    ensures memory { IsErr result → (d : Domains) (facts : ℕ → Option FactType) → IsTyped d facts (C.results cells.now)
        (record { own = own; inner = inner }) (view node.now) → SomeGivesTextOrList facts (view node.now) }
{
    visit(alloc, cells, NodePosition { own, inner }, node, steps)
}

// The same at a place.
#[cycle(eval)]
#[tactic(auto, using(crate::proofs::Views::views))]
fn visit<C: Cells, L: Ledger>(
    alloc: Global,
    cells: &C,
    at: NodePosition,
    node: &Node,
    steps: &mut Steps<L>,
) -> Result<Res, NoMemory>
    ensures value { IfOk result (λ r. r ≡ over (node_env (C.results cells.now)) at (view node.now)) }
    ensures visited { OnOk result (steps.new ≡ steps.old + visits (node_env (C.results cells.now)) at (view node.now)) }
    ensures most { steps.new ≤ steps.old + weight (node_env (C.results cells.now)) at (view node.now) }
    ensures least { steps.old + 1 ≤ steps.new }
    ensures memory { IsErr result → TakesMemory (node_env (C.results cells.now)) at (view node.now) }
{
    steps.tick();
    match node {
        Node::Const(value) => constant(alloc, value),
        Node::Read(op, path) => read(alloc, cells, at, *op, *path),
        Node::Switch(cases) => eval_cases(alloc, cells, at, cases.as_slice(), steps),
        Node::Many(op, operands) => eval_all(alloc, cells, at, *op, operands.as_slice(), steps),
        Node::Globals(op, facts) => eval_flat(alloc, cells, *op, facts.as_slice(), steps),
        Node::One(op, operand) => eval_one(alloc, cells, at, op, operand, steps),
        Node::Two(op, left, right) => {
            let first = visit(alloc, cells, at, left, steps)?;
            eval_second(alloc, cells, at, *op, first, right, steps)
        }
        Node::Pick(op, path, test) => eval_pick(alloc, cells, at, *op, *path, test, steps),
    }
}

fn constant(alloc: Global, value: &Value) -> Result<Res, NoMemory>
    ensures value { IfOk result (λ r. r ≡ Res.Complete value.now) }
    ensures memory { IsErr result → HoldsMemory value.now }
{
    Ok(Res::Complete(value.copy(alloc)?))
}

// A node whose operands are all facts that stand once. It stands apart from the recursion, so that its loops are small
// and stay in registers.
#[inline(never)]
fn eval_flat<C: Cells, L: Ledger>(
    alloc: Global,
    cells: &C,
    op: ManyOp,
    facts: &[u32],
    steps: &mut Steps<L>,
) -> Result<Res, NoMemory>
    ensures value { IfOk result (λ r. r ≡ many_of op (map (global_result (C.results cells.now)) facts.now)) }
    ensures steps { OnOk result (steps.new ≡ steps.old + length facts.now) }
    ensures most { steps.new ≤ steps.old + length facts.now }
    ensures least { steps.old ≤ steps.new }
    ensures memory { IsErr result → SomeHoldsMemory (C.results cells.now) facts.now }
{
    eval_globals(alloc, cells, op, facts, steps)
}

// A node with one operand.
#[cycle(eval)]
fn eval_one<C: Cells, L: Ledger>(
    alloc: Global,
    cells: &C,
    at: NodePosition,
    op: &OneOp,
    operand: &Node,
    steps: &mut Steps<L>,
) -> Result<Res, NoMemory>
    ensures value { IfOk result (λ r. r ≡ one_of op.now (over (node_env (C.results cells.now)) at (view operand.now))) }
    ensures visited { OnOk result (steps.new ≡ steps.old + visits (node_env (C.results cells.now)) at
        (view operand.now)) }
    ensures most { steps.new ≤ steps.old + weight (node_env (C.results cells.now)) at (view operand.now) }
    ensures least { steps.old ≤ steps.new }
    ensures memory { IsErr result → TakesMemory (node_env (C.results cells.now)) at (view operand.now) ⊎ GivesText op.now }
{
    let res = visit(alloc, cells, at, operand, steps)?;
    one(alloc, op, res)
}

// A node with two operands, from the result of the first.
#[cycle(eval)]
fn eval_second<C: Cells, L: Ledger>(
    alloc: Global,
    cells: &C,
    at: NodePosition,
    op: TwoOp,
    first: Res,
    operand: &Node,
    steps: &mut Steps<L>,
) -> Result<Res, NoMemory>
    ensures value { IfOk result (λ r. r ≡ two_of op first (over (node_env (C.results cells.now)) at
        (view operand.now))) }
    ensures visited { OnOk result (steps.new ≡ steps.old + visits (node_env (C.results cells.now)) at
        (view operand.now)) }
    ensures most { steps.new ≤ steps.old + weight (node_env (C.results cells.now)) at (view operand.now) }
    ensures least { steps.old ≤ steps.new }
    ensures memory { IsErr result → TakesMemory (node_env (C.results cells.now)) at (view operand.now) }
{
    let second = visit(alloc, cells, at, operand, steps)?;
    let res = two(op, &first, &second);
    drop(first);
    drop(second);
    Ok(res)
}

// A node with a list of operands.
#[cycle(eval)]
fn eval_all<C: Cells, L: Ledger>(
    alloc: Global,
    cells: &C,
    at: NodePosition,
    op: ManyOp,
    operands: &[Node],
    steps: &mut Steps<L>,
) -> Result<Res, NoMemory>
    ensures value { IfOk result (λ r. r ≡ many_of op (over_all (node_env (C.results cells.now)) at
        (trees_view operands.now))) }
    ensures visited { OnOk result (steps.new ≡ steps.old + visits_of_all (node_env (C.results cells.now)) at
        (trees_view operands.now)) }
    ensures most { steps.new ≤ steps.old + weight_of_all (node_env (C.results cells.now)) at (trees_view operands.now) }
    ensures least { steps.old ≤ steps.new }
    ensures memory { IsErr result → TakesInAll (node_env (C.results cells.now)) at (trees_view operands.now) }
{
    let mut fold = ManyFold::new(op);
    for operand in operands {
        see_operand(alloc, cells, at, operand, &mut fold, steps)?;
    }
    Ok(fold.end())
}

// Sees the result of an operand. That of a Dependency is seen where it stands, and so is a constant.
#[cycle(eval)]
#[tactic(auto, using(crate::proofs::Views::views))]
fn see_operand<C: Cells, L: Ledger>(
    alloc: Global,
    cells: &C,
    at: NodePosition,
    operand: &Node,
    fold: &mut ManyFold,
    steps: &mut Steps<L>,
) -> Result<(), NoMemory>
    requires few { fold.old.count + 1 < 2 ^ 64 }
    ensures next { OnOk result (fold.new ≡ saw fold.old (over (node_env (C.results cells.now)) at (view operand.now))) }
    ensures visited { OnOk result (steps.new ≡ steps.old + visits (node_env (C.results cells.now)) at
        (view operand.now)) }
    ensures most { steps.new ≤ steps.old + weight (node_env (C.results cells.now)) at (view operand.now) }
    ensures least { steps.old + 1 ≤ steps.new }
    ensures memory { IsErr result → TakesMemory (node_env (C.results cells.now)) at (view operand.now) }
{
    match operand {
        Node::Read(NodeRead::Dependency, path) => {
            see_dependency(alloc, cells, at, path, fold, steps)
        }
        Node::Const(value) => see_constant(alloc, value, fold, steps),
        _ => see_visited(alloc, cells, at, operand, fold, steps),
    }
}

// Sees the result of another one.
#[cycle(eval)]
fn see_visited<C: Cells, L: Ledger>(
    alloc: Global,
    cells: &C,
    at: NodePosition,
    operand: &Node,
    fold: &mut ManyFold,
    steps: &mut Steps<L>,
) -> Result<(), NoMemory>
    requires few { fold.old.count + 1 < 2 ^ 64 }
    ensures next { OnOk result (fold.new ≡ saw fold.old (over (node_env (C.results cells.now)) at (view operand.now))) }
    ensures visited { OnOk result (steps.new ≡ steps.old + visits (node_env (C.results cells.now)) at
        (view operand.now)) }
    ensures most { steps.new ≤ steps.old + weight (node_env (C.results cells.now)) at (view operand.now) }
    ensures least { steps.old + 1 ≤ steps.new }
    ensures memory { IsErr result → TakesMemory (node_env (C.results cells.now)) at (view operand.now) }
{
    let res = visit(alloc, cells, at, operand, steps)?;
    fold.see(res);
    Ok(())
}

// A Switch: the cases in their order, up to the one that is taken.
#[cycle(eval)]
fn eval_cases<C: Cells, L: Ledger>(
    alloc: Global,
    cells: &C,
    at: NodePosition,
    cases: &[NodeCase],
    steps: &mut Steps<L>,
) -> Result<Res, NoMemory>
    ensures value { IfOk result (λ r. r ≡ switch_of (over_cases (node_env (C.results cells.now)) at
        (cases_view cases.now))) }
    ensures visited { OnOk result (steps.new ≡ steps.old + visits_of_cases (node_env (C.results cells.now)) at
        (cases_view cases.now)) }
    ensures most { steps.new ≤ steps.old + weight_of_cases (node_env (C.results cells.now)) at (cases_view cases.now) }
    ensures least { steps.old ≤ steps.new }
    ensures memory { IsErr result → TakesInCases (node_env (C.results cells.now)) at (cases_view cases.now) }
{
    let mut complete = true;
    for case in cases {
        let condition = visit(alloc, cells, at, &case.test, steps)?;
        let step = case_step(complete, &condition);
        drop(condition);
        match step {
            CaseStep::Next(still) => complete = still,
            CaseStep::Take(still) => {
                let res = visit(alloc, cells, at, &case.outcome, steps)?;
                return Ok(taken(still, res));
            }
            CaseStep::End(res) => return Ok(res),
        }
    }
    Ok(Res::Incomplete)
}

// A Filter or a Find, from its collection and its condition.
#[cycle(eval)]
fn eval_pick<C: Cells, L: Ledger>(
    alloc: Global,
    cells: &C,
    at: NodePosition,
    op: PickOp,
    path: ResolvedPath,
    test: &Node,
    steps: &mut Steps<L>,
) -> Result<Res, NoMemory>
    ensures value { IfOk result (λ r. r ≡ pick_of op (collection (C.results cells.now) path)
        (condition_at (C.results cells.now) at (view test.now))) }
    ensures visited { OnOk result (steps.new ≡ steps.old + sum_by (visits_at (C.results cells.now) at (view test.now))
        (members_visited op (condition_at (C.results cells.now) at (view test.now))
        (collection (C.results cells.now) path))) }
    ensures most { steps.new ≤ steps.old + sum_by (work_at (C.results cells.now) at (view test.now))
        (members_of (collection (C.results cells.now) path)) }
    ensures least { steps.old ≤ steps.new }
    ensures memory { IsErr result → PickTakes op (condition_at (C.results cells.now) at (view test.now))
        (TakesAt (C.results cells.now) at (view test.now)) (members_of (collection (C.results cells.now) path)) }
{
    let missing = Res::Incomplete;
    let source = read_source(cells, &missing, path);
    match op {
        PickOp::Filter => eval_filter(alloc, cells, at, source, test, steps),
        PickOp::Find => eval_find(alloc, cells, at, source, test, steps),
    }
}

fn keep(kept: &mut Vec<u32>, is_kept: bool, member: u32) -> Result<(), NoMemory>
    ensures { OnOk result (kept.new.items ≡ (if is_kept then kept.old.items ++ member ∷ [] else kept.old.items)) }
{
    if !is_kept {
        return Ok(());
    }
    kept.push(member)?;
    Ok(())
}

// The members of the collection at which the condition is true.
#[cycle(eval)]
fn eval_filter<C: Cells, L: Ledger>(
    alloc: Global,
    cells: &C,
    at: NodePosition,
    source: &Res,
    test: &Node,
    steps: &mut Steps<L>,
) -> Result<Res, NoMemory>
    ensures value { IfOk result (λ r. r ≡ filter_of source.now
        (condition_at (C.results cells.now) at (view test.now))) }
    ensures visited { OnOk result (steps.new ≡ steps.old + sum_by (visits_at (C.results cells.now) at (view test.now))
        (members_of source.now)) }
    ensures most { steps.new ≤ steps.old + sum_by (work_at (C.results cells.now) at (view test.now))
        (members_of source.now) }
    ensures least { steps.old ≤ steps.new }
{
    let mut fold = FilterFold::new(source);
    let mut kept = Vec::new(alloc);
    for member in members(source) {
        let condition = visit(alloc, cells, at.at(*member), test, steps)?;
        let is_kept = fold.see(&condition);
        drop(condition);
        keep(&mut kept, is_kept, *member)?;
    }
    Ok(fold.end(kept))
}

// The first member of the collection at which the condition is true.
#[cycle(eval)]
fn eval_find<C: Cells, L: Ledger>(
    alloc: Global,
    cells: &C,
    at: NodePosition,
    source: &Res,
    test: &Node,
    steps: &mut Steps<L>,
) -> Result<Res, NoMemory>
    ensures value { IfOk result (λ r. r ≡ find_of source.now (condition_at (C.results cells.now) at (view test.now))) }
    ensures visited { OnOk result (steps.new ≡ steps.old + sum_by (visits_at (C.results cells.now) at (view test.now))
        (up_to_decider (condition_at (C.results cells.now) at (view test.now)) (members_of source.now))) }
    ensures most { steps.new ≤ steps.old + sum_by (work_at (C.results cells.now) at (view test.now))
        (members_of source.now) }
    ensures least { steps.old ≤ steps.new }
    ensures memory { IsErr result → SomeOf (TakesAt (C.results cells.now) at (view test.now))
        (up_to_decider (condition_at (C.results cells.now) at (view test.now)) (members_of source.now)) }
{
    match source_verdict(source) {
        Verdict::Go(complete) => {
            find_among(alloc, cells, at, complete, members(source), test, steps)
        }
        Verdict::Incomplete => Ok(Res::Incomplete),
        Verdict::Fault(fault) => Ok(Res::Fault(fault)),
    }
}

// The same of these members. The flag says that the collection is complete.
#[cycle(eval)]
fn find_among<C: Cells, L: Ledger>(
    alloc: Global,
    cells: &C,
    at: NodePosition,
    complete: bool,
    members: &[u32],
    test: &Node,
    steps: &mut Steps<L>,
) -> Result<Res, NoMemory>
    ensures value { IfOk result (λ r. r ≡ find_from (condition_at (C.results cells.now) at (view test.now)) complete
        members.now) }
    ensures visited { OnOk result (steps.new ≡ steps.old + sum_by (visits_at (C.results cells.now) at (view test.now))
        (up_to_decider (condition_at (C.results cells.now) at (view test.now)) members.now)) }
    ensures most { steps.new ≤ steps.old + sum_by (work_at (C.results cells.now) at (view test.now)) members.now }
    ensures least { steps.old ≤ steps.new }
    ensures memory { IsErr result → SomeOf (TakesAt (C.results cells.now) at (view test.now))
        (up_to_decider (condition_at (C.results cells.now) at (view test.now)) members.now) }
{
    let mut complete = complete;
    for member in members {
        let condition = visit(alloc, cells, at.at(*member), test, steps)?;
        let step = case_step(complete, &condition);
        drop(condition);
        match step {
            CaseStep::Next(still) => complete = still,
            CaseStep::Take(still) => return Ok(found(still, *member)),
            CaseStep::End(none) => return Ok(none),
        }
    }
    Ok(Res::Incomplete)
}

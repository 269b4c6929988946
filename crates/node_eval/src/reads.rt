// What a node that reads gives, from the facts that its path names.
ghost use Rattle.std.specs.Prelude.{◌≡◌, ◌+◌, ◌<◌, ◌^◌, IfOk, IsErr, OnOk, Some};
ghost use Rattle.evaluation.specs.Reads.{collection_size, complete_test, field_at, sum_over, through_item};
ghost use Rattle.fact_values.specs.declared.fact_type.FactType.{FactType};
ghost use Rattle.operations.specs.ManyFolds.{saw};
ghost use Rattle.three_state.specs.Results.{ValueHoldsMemory, count_of};
ghost use Rattle.fact_values.specs.Values.{HoldsMemory};
ghost use Rattle.three_state.specs.declared.res.Res.TheVariants.{Complete, Incomplete};
ghost use Rattle.evaluation.specs.Results.{result_at};
ghost use Rattle.node_eval.specs.Reached.{reached};
ghost use Rattle.node_eval.specs.Dependencies.{collection, dependency, field, first_of, read_result, second_of};

use crate::cells::{Cells, result_at};
use crate::node::{NodeRead, ResolvedPath};
use crate::node_position::NodePosition;
use fact_values::{FactType, NoMemory, Slot, Value};
use operations::{CountFold, ManyFold, SumFold, complete_test, members, size};
use std::alloc::Global;
use std::sync::ledger::Ledger;
use steps::Steps;
use three_state::{Res, down};

// The first fact of a path.
fn first_of(path: ResolvedPath) -> u32
    ensures { result ≡ first_of path }
{
    match path {
        ResolvedPath::Global(fact) => fact,
        ResolvedPath::Same(fact) => fact,
        ResolvedPath::Inner(fact) => fact,
        ResolvedPath::Each(first, _) => first,
        ResolvedPath::Through(first, _) => first,
        ResolvedPath::SameThrough(first, _) => first,
    }
}

// Its second one.
fn second_of(path: ResolvedPath) -> Option<u32>
    ensures { result ≡ second_of path }
{
    match path {
        ResolvedPath::Global(_) => None,
        ResolvedPath::Same(_) => None,
        ResolvedPath::Inner(_) => None,
        ResolvedPath::Each(_, second) => Some(second),
        ResolvedPath::Through(_, second) => Some(second),
        ResolvedPath::SameThrough(_, second) => Some(second),
    }
}

// ---- a Dependency, and whether it is complete

/// Where a Dependency ends: at this result. The flag says that no placeholder was passed on the way.
#[derive(Clone, Copy)]
pub struct Reached<'a> {
    pub res: &'a Res,
    pub complete: bool,
}

// The field of the member that a value names.
fn field_at<'a, C: Cells>(cells: &'a C, missing: &'a Res, value: &Value, second: u32) -> &'a Res
    requires { missing.now ≡ Incomplete }
    ensures { result.now ≡ field_at (result_at (C.results cells.now) (Some second)) value.now }
{
    match value {
        Value::Item(member) => result_at(cells, missing, Some(second), *member),
        _ => missing,
    }
}

// From an item to the field of the member that it names.
fn through<'a, C: Cells>(cells: &'a C, missing: &'a Res, item: &'a Res, second: u32) -> Reached<'a>
    requires { missing.now ≡ Incomplete }
    ensures { reached result ≡ through_item item.now (result_at (C.results cells.now) (Some second)) }
{
    match item {
        Res::Complete(v) => Reached {
            res: field_at(cells, missing, v, second),
            complete: true,
        },
        Res::Placeholder(v) => Reached {
            res: field_at(cells, missing, v, second),
            complete: false,
        },
        _ => Reached {
            res: item,
            complete: true,
        },
    }
}

// Where a Dependency by this path ends.
fn reach<'a, C: Cells>(
    cells: &'a C,
    missing: &'a Res,
    at: NodePosition,
    path: ResolvedPath,
) -> Reached<'a>
    requires { missing.now ≡ Incomplete }
    ensures { reached result ≡ dependency (C.results cells.now) at path }
{
    let res = match path {
        ResolvedPath::Global(fact) => result_at(cells, missing, Some(fact), 0),
        ResolvedPath::Same(fact) => result_at(cells, missing, Some(fact), at.own),
        ResolvedPath::Inner(fact) => result_at(cells, missing, Some(fact), at.inner),
        ResolvedPath::Each(_, _) => missing,
        ResolvedPath::Through(first, second) => {
            let item = result_at(cells, missing, Some(first), 0);
            return through(cells, missing, item, second);
        }
        ResolvedPath::SameThrough(first, second) => {
            let item = result_at(cells, missing, Some(first), at.own);
            return through(cells, missing, item, second);
        }
    };
    Reached {
        res,
        complete: true,
    }
}

// The result there.
fn reached_result(alloc: Global, end: Reached) -> Result<Res, NoMemory>
    ensures value { IfOk result (λ r. r ≡ reached end.entry) }
    ensures memory { IsErr result → ValueHoldsMemory (reached end.entry) }
{
    if end.complete {
        return end.res.copy(alloc);
    }
    Ok(down(end.res.copy(alloc)?))
}

// Whether it is complete.
fn reached_test(end: Reached) -> Res
    ensures { result ≡ complete_test (reached end.entry) }
{
    if end.complete {
        complete_test(end.res)
    } else {
        Res::Complete(Value::Boolean(false))
    }
}

// ---- a Dependency that is an operand

// Sees a slot without a cell, which is rare.
#[inline(never)]
fn see_missing(fold: &mut ManyFold)
    requires few { fold.old.count + 1 < 2 ^ 64 }
    ensures next { fold.new ≡ saw fold.old Incomplete }
{
    fold.see(Res::Incomplete);
}

/// Sees what is read of a fact at a member, where it stands.
#[inline(always)]
pub fn see_cell<C: Cells>(
    alloc: Global,
    cells: &C,
    fact: u32,
    member: u32,
    fold: &mut ManyFold,
) -> Result<(), NoMemory>
    requires few { fold.old.count + 1 < 2 ^ 64 }
    ensures next { OnOk result (fold.new ≡ saw fold.old (result_at (C.results cells.now) (Some fact) member)) }
    ensures memory { IsErr result → ValueHoldsMemory (result_at (C.results cells.now) (Some fact) member) }
{
    match cells.cell(Slot { fact, member }) {
        Some(res) => fold.see_lent(alloc, res),
        None => {
            see_missing(fold);
            Ok(())
        }
    }
}

// Sees the result at which a Dependency ends: a copy, where a placeholder was passed on the way.
fn see_reached(alloc: Global, end: Reached, fold: &mut ManyFold) -> Result<(), NoMemory>
    requires few { fold.old.count + 1 < 2 ^ 64 }
    ensures next { OnOk result (fold.new ≡ saw fold.old (reached end.entry)) }
    ensures memory { IsErr result → ValueHoldsMemory (reached end.entry) }
{
    if end.complete {
        return fold.see_lent(alloc, end.res);
    }
    fold.see(reached_result(alloc, end)?);
    Ok(())
}

// Sees the result of a Dependency that may go through an item. It stands apart, so that others don't keep room for it.
#[inline(never)]
fn see_far<C: Cells>(
    alloc: Global,
    cells: &C,
    at: NodePosition,
    path: ResolvedPath,
    fold: &mut ManyFold,
) -> Result<(), NoMemory>
    requires few { fold.old.count + 1 < 2 ^ 64 }
    ensures next { OnOk result (fold.new ≡ saw fold.old (dependency (C.results cells.now) at path)) }
    ensures memory { IsErr result → ValueHoldsMemory (dependency (C.results cells.now) at path) }
{
    let missing = Res::Incomplete;
    see_reached(alloc, reach(cells, &missing, at, path), fold)
}

/// Sees the result of a Dependency by this path as an operand, which is a step: a call of its own, so that it is counted
/// from outside, too.
#[inline(never)]
pub fn see_dependency<C: Cells, L: Ledger>(
    alloc: Global,
    cells: &C,
    at: NodePosition,
    path: &ResolvedPath,
    fold: &mut ManyFold,
    steps: &mut Steps<L>,
) -> Result<(), NoMemory>
    requires few { fold.old.count + 1 < 2 ^ 64 }
    ensures next { OnOk result (fold.new ≡ saw fold.old (dependency (C.results cells.now) at path.now)) }
    ensures memory { IsErr result → ValueHoldsMemory (dependency (C.results cells.now) at path.now) }
    ensures step { steps.new ≡ steps.old + 1 }
{
    steps.tick();
    let (fact, member) = match path {
        ResolvedPath::Global(fact) => (*fact, 0),
        ResolvedPath::Same(fact) => (*fact, at.own),
        ResolvedPath::Inner(fact) => (*fact, at.inner),
        _ => return see_far(alloc, cells, at, *path, fold),
    };
    see_cell(alloc, cells, fact, member, fold)
}

/// Sees a constant as an operand, which is a step: a call of its own, too.
#[inline(never)]
pub fn see_constant<L: Ledger>(
    alloc: Global,
    value: &Value,
    fold: &mut ManyFold,
    steps: &mut Steps<L>,
) -> Result<(), NoMemory>
    requires few { fold.old.count + 1 < 2 ^ 64 }
    ensures next { OnOk result (fold.new ≡ saw fold.old (Complete value.now)) }
    ensures memory { IsErr result → HoldsMemory value.now }
    ensures step { steps.new ≡ steps.old + 1 }
{
    steps.tick();
    fold.see_value(alloc, value)
}

// ---- the members of a collection

// The sum of the field over the members.
fn read_sum<C: Cells>(cells: &C, of: FactType, path: ResolvedPath) -> Res
    ensures { result ≡ sum_over of (collection (C.results cells.now) path) (field (C.results cells.now) path) }
{
    let missing = Res::Incomplete;
    let source = result_at(cells, &missing, Some(first_of(path)), 0);
    let field = second_of(path);
    let mut fold = SumFold::new(of, source);
    for member in members(source) {
        fold.see(result_at(cells, &missing, field, *member));
    }
    fold.end()
}

// The number of members of which the field is true.
fn read_count<C: Cells>(cells: &C, path: ResolvedPath) -> Res
    ensures { result ≡ count_of (collection (C.results cells.now) path) (field (C.results cells.now) path) }
{
    let missing = Res::Incomplete;
    let source = result_at(cells, &missing, Some(first_of(path)), 0);
    let field = second_of(path);
    let mut fold = CountFold::new(source);
    for member in members(source) {
        fold.see(result_at(cells, &missing, field, *member));
    }
    fold.end()
}

// The number of members.
fn read_size<C: Cells>(cells: &C, path: ResolvedPath) -> Res
    ensures { result ≡ collection_size (collection (C.results cells.now) path) }
{
    let missing = Res::Incomplete;
    size(result_at(cells, &missing, Some(first_of(path)), 0))
}

/// The collection of a Filter or a Find.
pub fn read_source<'a, C: Cells>(cells: &'a C, missing: &'a Res, path: ResolvedPath) -> &'a Res
    requires { missing.now ≡ Incomplete }
    ensures { result.now ≡ collection (C.results cells.now) path }
{
    result_at(cells, missing, Some(first_of(path)), 0)
}

/// The result of a node that reads.
pub fn read<C: Cells>(
    alloc: Global,
    cells: &C,
    at: NodePosition,
    op: NodeRead,
    path: ResolvedPath,
) -> Result<Res, NoMemory>
    ensures value { IfOk result (λ r. r ≡ read_result (C.results cells.now) at op path) }
    ensures memory { IsErr result → ValueHoldsMemory (read_result (C.results cells.now) at op path) }
{
    let missing = Res::Incomplete;
    match op {
        NodeRead::Dependency => reached_result(alloc, reach(cells, &missing, at, path)),
        NodeRead::IsComplete => Ok(reached_test(reach(cells, &missing, at, path))),
        NodeRead::CollectionSize => Ok(read_size(cells, path)),
        NodeRead::SumInt => Ok(read_sum(cells, FactType::Int, path)),
        NodeRead::SumDollar => Ok(read_sum(cells, FactType::Dollar, path)),
        NodeRead::Count => Ok(read_count(cells, path)),
    }
}

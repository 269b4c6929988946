// The type of an expression, or its first node at fault.
ghost use Rattle.std.specs.Prelude.{◌≡◌, ◌+◌, ◌<◌, ◌^◌, OnOk};
ghost use Rattle.dict_source.specs.Dictionary.{dictionary_view};
ghost use Rattle.dict_source.specs.Tree.{size, size_of_cases, size_of_trees};
ghost use Rattle.dict_source.specs.View.{cases_view, trees_view, view};
ghost use Rattle.node_types.specs.FactTyping.{types_in};
ghost use Rattle.node_types.specs.Inferring.{Infers, case_types, type_of, types_of};

use crate::constants::constant_type;
use crate::node_fault::NodeFault;
use crate::operand_types::{CaseType, many_type, one_type, picked_type, switch_type, two_type};
use crate::read_types::{path_type, picked_base};
use dict_source::{Case, DictSource, Expr};
use fact_values::FactType;
use std::alloc::Global;

/// The type of an expression of the fact, under a condition over the base, or the first of its nodes at fault. Its first
/// node has the number `next`; `next` is then the number after its nodes.
#[cycle(infer)]
#[tactic(auto, using(dict_source::proofs::Views::views))]
pub fn infer(
    alloc: Global,
    source: &DictSource,
    fact: u32,
    base: u32,
    expr: &Expr,
    next: &mut u32,
) -> Result<FactType, NodeFault>
    requires { next.old + size (view expr.now) < 2 ^ 32 }
    ensures found { Infers (λ t. t) result (type_of (types_in (dictionary_view source.now) fact) next.old base
        (view expr.now)) }
    ensures count { OnOk result (next.new ≡ next.old + size (view expr.now)) }
{
    let number = *next;
    *next += 1;
    match expr {
        Expr::Const(constant) => constant_type(alloc, source.enums(), constant, number),
        Expr::Read(op, used) => {
            path_type(source, fact, base, *op, used).ok_or(NodeFault::IllTyped(number))
        }
        Expr::Switch(cases) => {
            let found = infer_cases(alloc, source, fact, base, cases.as_slice(), next)?;
            switch_type(found.as_slice()).ok_or(NodeFault::IllTyped(number))
        }
        Expr::Many(op, operands) => {
            let found = infer_all(alloc, source, fact, base, operands.as_slice(), next)?;
            many_type(*op, found.as_slice()).ok_or(NodeFault::IllTyped(number))
        }
        Expr::One(op, operand) => {
            let found = infer(alloc, source, fact, base, operand, next)?;
            one_type(source.enums(), op, found).ok_or(NodeFault::IllTyped(number))
        }
        Expr::Two(op, left, right) => {
            let left = infer(alloc, source, fact, base, left, next)?;
            let right = infer(alloc, source, fact, base, right, next)?;
            two_type(*op, left, right).ok_or(NodeFault::IllTyped(number))
        }
        Expr::Pick(op, used, test) => {
            let picked = picked_base(source, fact, base, used);
            let found = infer(alloc, source, fact, picked.unwrap_or(0), test, next)?;
            picked_type(*op, picked, found).ok_or(NodeFault::IllTyped(number))
        }
    }
}

#[cycle(infer)]
fn infer_all(
    alloc: Global,
    source: &DictSource,
    fact: u32,
    base: u32,
    operands: &[Expr],
    next: &mut u32,
) -> Result<Vec<FactType>, NodeFault>
    requires { next.old + size_of_trees (trees_view operands.now) < 2 ^ 32 }
    ensures found { Infers (λ list. list.items) result (types_of (types_in (dictionary_view source.now) fact) next.old
        base (trees_view operands.now)) }
    ensures count { OnOk result (next.new ≡ next.old + size_of_trees (trees_view operands.now)) }
{
    let mut types = Vec::new(alloc);
    for operand in operands {
        let found = infer(alloc, source, fact, base, operand, next)?;
        types.push(found)?;
    }
    Ok(types)
}

#[cycle(infer)]
fn infer_cases(
    alloc: Global,
    source: &DictSource,
    fact: u32,
    base: u32,
    cases: &[Case],
    next: &mut u32,
) -> Result<Vec<CaseType>, NodeFault>
    requires { next.old + size_of_cases (cases_view cases.now) < 2 ^ 32 }
    ensures found { Infers (λ list. list.items) result (case_types (types_in (dictionary_view source.now) fact) next.old
        base (cases_view cases.now)) }
    ensures count { OnOk result (next.new ≡ next.old + size_of_cases (cases_view cases.now)) }
{
    let mut types = Vec::new(alloc);
    for case in cases {
        let test = infer(alloc, source, fact, base, &case.test, next)?;
        let outcome = infer(alloc, source, fact, base, &case.outcome, next)?;
        types.push(CaseType { test, outcome })?;
    }
    Ok(types)
}

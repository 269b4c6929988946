// Compiles an expression to a node.
ghost use Rattle.std.specs.Prelude.{◌≡◌, IfOk};
ghost use Rattle.dict_source.specs.Dictionary.{dictionary_view};
ghost use Rattle.dict_source.specs.Tree.{literal, one, pick, two};
ghost use Rattle.dict_source.specs.View.{cases_view, literal_of, trees_view, view};
ghost use Rattle.dict_meaning.specs.Dependencies.{constant_value};
ghost use Rattle.evaluation.specs.Resolving.{resolved, resolved_all, resolved_cases};
ghost use Rattle.node_eval.specs.View.{case_view as node_case_view, cases_view as node_cases_view, trees_view as node_trees_view, view as node_view};
ghost use Rattle.node_compile.specs.Compiling.{names};

use crate::operands::many_node;
use crate::reading::{base_under, constant, read_path, resolve_use};
use dict_source::{Case, Constant, DictSource, Expr, OneOp, PickOp, TwoOp};
use fact_values::NoMemory;
use node_eval::{Node, NodeCase, ResolvedPath};
use std::alloc::Global;

/// The node of an expression of this fact, under a condition over the base, or with the base 0
/// outside of conditions.
#[cycle(compile)]
#[tactic(auto, using(crate::proofs::Views::views))]
pub fn compile_expr(
    alloc: Global,
    source: &DictSource,
    fact: u32,
    base: u32,
    expr: &Expr,
) -> Result<Node, NoMemory>
    ensures { IfOk result (λ node. node_view node ≡ resolved (names (dictionary_view source.now) fact) base
        (view expr.now)) }
{
    match expr {
        Expr::Const(text) => constant_node(alloc, source, text),
        Expr::Read(op, used) => Ok(read_path(source, fact, base, *op, used)),
        Expr::Switch(cases) => {
            let cases = compile_cases(alloc, source, fact, base, cases.as_slice())?;
            Ok(Node::Switch(cases))
        }
        Expr::Many(op, operands) => {
            let operands = compile_all(alloc, source, fact, base, operands.as_slice())?;
            many_node(alloc, *op, operands)
        }
        Expr::One(op, operand) => {
            let operand = compile_expr(alloc, source, fact, base, operand)?;
            one_node(alloc, op, operand)
        }
        Expr::Two(op, left, right) => {
            let left = compile_expr(alloc, source, fact, base, left)?;
            match compile_expr(alloc, source, fact, base, right) {
                Ok(right) => two_nodes(alloc, *op, left, right),
                Err(NoMemory) => {
                    drop(left);
                    Err(NoMemory)
                }
            }
        }
        Expr::Pick(op, used, test) => {
            let inner = base_under(source, fact, base, used);
            let list = resolve_use(source, fact, base, used);
            let test = compile_expr(alloc, source, fact, inner, test)?;
            pick_node(alloc, *op, list, test)
        }
    }
}

#[tactic(auto, using(node_eval::proofs::Views::views))]
fn constant_node(alloc: Global, source: &DictSource, text: &Constant) -> Result<Node, NoMemory>
    ensures { IfOk result (λ node. node_view node
        ≡ literal (constant_value (dictionary_view source.now).enums (literal_of text.now))) }
{
    Ok(Node::Const(constant(alloc, source.enums(), text)?))
}

#[tactic(auto, using(node_eval::proofs::Views::views))]
fn one_node(alloc: Global, op: &OneOp, operand: Node) -> Result<Node, NoMemory>
    ensures { IfOk result (λ node. node_view node ≡ one op.now (node_view operand)) }
{
    let operand = Box::new(alloc, operand)?;
    Ok(Node::One(op.copy()?, operand))
}

#[tactic(auto, using(node_eval::proofs::Views::views))]
fn pick_node(alloc: Global, op: PickOp, list: ResolvedPath, test: Node) -> Result<Node, NoMemory>
    ensures { IfOk result (λ node. node_view node ≡ pick op list (node_view test)) }
{
    Ok(Node::Pick(op, list, Box::new(alloc, test)?))
}

#[tactic(auto, using(node_eval::proofs::Views::views))]
fn two_nodes(alloc: Global, op: TwoOp, left: Node, right: Node) -> Result<Node, NoMemory>
    ensures { IfOk result (λ node. node_view node ≡ two op (node_view left) (node_view right)) }
{
    match Box::new(alloc, left) {
        Ok(left) => match Box::new(alloc, right) {
            Ok(right) => Ok(Node::Two(op, left, right)),
            Err(refused) => {
                drop(refused);
                drop(left);
                Err(NoMemory)
            }
        },
        Err(refused) => {
            drop(refused);
            drop(right);
            Err(NoMemory)
        }
    }
}

#[cycle(compile)]
fn compile_all(
    alloc: Global,
    source: &DictSource,
    fact: u32,
    base: u32,
    operands: &[Expr],
) -> Result<Vec<Node>, NoMemory>
    ensures { IfOk result (λ nodes. node_trees_view nodes.items ≡ resolved_all (names (dictionary_view source.now) fact)
        base (trees_view operands.now)) }
{
    let mut nodes = Vec::with_capacity(alloc, operands.len())?;
    for operand in operands {
        let node = compile_expr(alloc, source, fact, base, operand)?;
        nodes.push(node)?;
    }
    Ok(nodes)
}

#[cycle(compile)]
fn compile_cases(
    alloc: Global,
    source: &DictSource,
    fact: u32,
    base: u32,
    cases: &[Case],
) -> Result<Vec<NodeCase>, NoMemory>
    ensures { IfOk result (λ nodes. node_cases_view nodes.items
        ≡ resolved_cases (names (dictionary_view source.now) fact) base (cases_view cases.now)) }
{
    let mut nodes = Vec::with_capacity(alloc, cases.len())?;
    for case in cases {
        match compile_case(alloc, source, fact, base, case) {
            Ok(case) => nodes.push(case)?,
            Err(NoMemory) => {
                drop(nodes);
                return Err(NoMemory);
            }
        }
    }
    Ok(nodes)
}

#[cycle(compile)]
fn compile_case(
    alloc: Global,
    source: &DictSource,
    fact: u32,
    base: u32,
    case: &Case,
) -> Result<NodeCase, NoMemory>
    ensures { IfOk result (λ node. node_case_view node
        ≡ (
          resolved (names (dictionary_view source.now) fact) base (view case.now.test),
          resolved
              (names (dictionary_view source.now) fact) base (view case.now.outcome),
        )) }
{
    let test = compile_expr(alloc, source, fact, base, &case.test)?;
    match compile_expr(alloc, source, fact, base, &case.outcome) {
        Ok(outcome) => Ok(NodeCase { test, outcome }),
        Err(NoMemory) => {
            drop(test);
            Err(NoMemory)
        }
    }
}
